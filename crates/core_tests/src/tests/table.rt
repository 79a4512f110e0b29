//! Each call of a table once.

ghost use Rattle.std.specs.Prelude.{◌≡◌};

use mask_table::{Rank, masked};
use memory::Memory;
use radix_tree::{Table, Visits, laws};
use route_entries::PackedRoute;
use sock_addrs::Inet;
use std::alloc::AllocError;
use std::mem::size_of;
use std::test::Fail;

const NET: Inet = Inet([10, 0, 0, 0]);

/// Adds a route at the address masked by the rank, and answers whether its pair was free.
fn put(table: &mut Table<u64>, address: Inet, rank: Rank, value: u64) -> Result<bool, AllocError> {
    let room = table.room(&mut Memory::new())?;
    match table.add(room, masked(address, rank), rank, value) {
        Ok(()) => Ok(true),
        Err((room, _)) => {
            table.give_back(room);
            Ok(false)
        }
    }
}

/// The rank and the value of an address's best route.
fn best_in(table: &Table<u64>, address: Inet, visits: &mut Visits) -> Option<(u8, u64)>
    requires { visits.old.turn ≡ table.now.turn }
    ensures { visits.new.turn ≡ visits.old.turn }
{
    match table.best(address, visits) {
        None => None,
        Some((_, rank, value)) => Some((rank.number(), *value)),
    }
}

#[test]
fn a_counter_has_no_bytes(rt: HostRuntime) {
    assert_eq!(rt; size_of::<Visits>(), 0);
}

#[test]
fn a_kept_route_has_few_bytes(rt: HostRuntime) {
    assert_eq!(rt; size_of::<PackedRoute>(), 24);
}

#[test]
fn each_call_once(rt: HostRuntime) -> Result<(), Fail> {
    let mut table = Table::new(rt.alloc())?;
    assert!(rt; put(&mut table, NET, Rank::new(8), 8)?);
    assert!(rt; put(&mut table, NET, Rank::host(), 33)?);
    let room = table.room(&mut Memory::new())?;
    table.give_back(room);
    if let Some(value) = table.get_mut(NET, Rank::new(8)) {
        *value = 108;
    }
    assert!(rt; table.get_mut(NET, Rank::new(9)).is_none());
    let mut visits = table.begin();
    assert_eq!(rt;
        table.get(NET, Rank::new(8), &mut visits).copied(),
        Some(108)
    );
    let first = match table.first_of(NET, &mut visits) {
        Some((_, value)) => *value,
        None => 0,
    };
    assert_eq!(rt; first, 33);
    assert_eq!(rt;
        best_in(&table, Inet([10, 0, 0, 1]), &mut visits),
        Some((8, 108))
    );
    assert_eq!(rt; table.remove(NET, Rank::host()), Some(33));
    assert_eq!(rt; table.remove(NET, Rank::host()), None);
    laws::is_table(&table);
    laws::one_room_a_route(&table);
    Ok(())
}
