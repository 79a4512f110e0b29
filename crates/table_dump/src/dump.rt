//! Dumps, and how long they are.
ghost use Rattle.std.specs.Prelude.{◌≡◌, List, is_err, IfOk, OnOk};
ghost use Rattle.std.specs.List.{AllByRecursion};
ghost use Rattle.if_addrs.specs.Interfaces.{Interface, IsOf};
ghost use Rattle.memory.specs.Refusing.{Rises};
ghost use Rattle.table_dump.specs.Dumps.{IsWhole, bytes_of, dump_fault, fitting, shown_of, total_of};

use crate::shown::{MOST_SHOWN, is_asked, put_shown, shown_size};
use if_addrs::Interfaces;
use memory::{MOST_ASKED, Memory};
use radix_tree::{Table, Visits};
use route_entries::PackedRoute;
use sock_addrs::Errno;
use std::alloc::{AllocError, Global};

/// How many bytes the dump of a table takes, or `u64::MAX` where they are more: of all routes, or of those that have
/// a flag of the filter.
#[tactic(auto, using(crate::proofs::Showing::asked, crate::proofs::Showing::passed, crate::proofs::Showing::added))]
pub fn total(table: &Table<PackedRoute>, visits: &mut Visits, filter: Option<u32>) -> u64
    requires turn { visits.old.turn ≡ table.now.turn }
    ensures total { (interfaces : List Interface) → result ≡ total_of (shown_of filter interfaces table.now.entries) }
    ensures counter { visits.new.turn ≡ visits.old.turn }
{
    let mut walk = table.walk(visits);
    let mut total = 0u64;
    while let Some((_, rank, packed)) = walk.step(visits) {
        if is_asked(packed, filter) {
            total = total.saturating_add(shown_size(rank, packed) as u64);
        }
    }
    total
}

/// The dump of a table into so many bytes: the messages of its routes in table order, of all or of those that have a
/// flag of the filter, as many whole ones from the front as fit. ENOMEM beside them where they are not all. `Err`
/// where there is no memory.
#[tactic(auto, using(crate::proofs::Showing::asked, crate::proofs::Showing::passed, crate::proofs::Fronts::given_first, crate::proofs::Fronts::none_given, crate::proofs::Fronts::all_given))]
pub fn dump_into(
    alloc: Global,
    memory: &mut Memory,
    table: &Table<PackedRoute>,
    interfaces: &Interfaces,
    visits: &mut Visits,
    room: u32,
    filter: Option<u32>,
) -> Result<(Vec<u8>, Option<Errno>), AllocError>
    requires turn { visits.old.turn ≡ table.now.turn }
    requires of { AllByRecursion (λ r. IsOf r.value.ifa interfaces.now) table.now.entries }
    ensures bytes { IfOk result
        (λ d. d.0.items ≡ bytes_of (fitting room (shown_of filter interfaces.now table.now.entries))) }
    ensures errno { IfOk result (λ d. d.1 ≡ dump_fault room (shown_of filter interfaces.now table.now.entries)) }
    ensures whole { OnOk result
        (AllByRecursion IsWhole (fitting room (shown_of filter interfaces.now table.now.entries))) }
    ensures counter { visits.new.turn ≡ visits.old.turn }
    ensures counted { Rises (is_err result) memory.old memory.new }
{
    let mut walk = table.walk(visits);
    let mut left = room as usize;
    let mut bytes = memory.with_capacity(alloc, left.min(MOST_ASKED))?;
    let mut message = [0; MOST_SHOWN];
    while let Some((key, rank, packed)) = walk.step(visits) {
        if !is_asked(packed, filter) {
            continue;
        }
        let index = interfaces.interface_of(packed.ifa());
        let size = put_shown(index, key, rank, packed, &mut message);
        if left < size {
            return Ok((bytes, Some(Errno::ENOMEM)));
        }
        left -= size;
        memory.extend(&mut bytes, &message[..size])?;
    }
    Ok((bytes, None))
}
