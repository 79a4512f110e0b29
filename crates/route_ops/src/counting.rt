//! Packets that take a route.
ghost use Rattle.std.specs.Prelude.{◌≡◌, IfSome};
ghost use Rattle.radix_tree.specs.Table.{best_of, with_entry};
ghost use Rattle.radix_tree.specs.TableLaws.{StandsIn};
ghost use Rattle.route_ops.specs.Looks.{entry_with_one_more_use, with_best_used};
ghost use Rattle.route_ops.specs.Spares.{KeepsRooms};
ghost use Rattle.route_ops.specs.Standing.{HasIfaOf, KeepsAreOf};

use crate::placing::rewrite;
use mask_table::Rank;
use radix_tree::laws::is_table;
use radix_tree::{Entry, Table, Visits};
use route_entries::{PackedRoute, Route};
use route_msgs::flags::RTF_CLONING;
use sock_addrs::Inet;

/// Counts a packet that takes this route of the table.
pub fn count_use(table: &mut Table<PackedRoute>, route: &Entry<Route>)
    requires { StandsIn table.old.entries route.now }
    ensures entries { table.new.entries ≡ with_entry (entry_with_one_more_use route.now) table.old.entries }
    ensures rooms { KeepsRooms table.old table.new }
    ensures of { KeepsAreOf table.old.entries table.new.entries }
{
    let mut value = route.value;
    value.count_use();
    rewrite(table, route, &value);
}

/// The best route of an address, as it stands in the table. Unless it clones, a packet that takes it is counted, in the
/// room where it was found.
pub fn use_best(table: &mut Table<PackedRoute>, address: Inet) -> Option<Entry<Route>>
    ensures best { result ≡ best_of address table.old.entries }
    ensures entries { table.new.entries ≡ with_best_used result table.old.entries }
    ensures ifa { IfSome result (λ r. HasIfaOf table.old.entries r) }
    ensures rooms { KeepsRooms table.old table.new }
    ensures of { KeepsAreOf table.old.entries table.new.entries }
{
    // A fact for the proof: the table is in order, so that to put a route in again as it stands leaves the table so.
    is_table(table);
    let mut visits = table.begin();
    let mut pair = (address, Rank::host());
    let Some(route) = table.best_mut(address, &mut pair, &mut visits) else {
        return None;
    };
    let (key, rank) = pair;
    let found = Entry {
        key,
        rank,
        value: route.route(),
    };
    if found.value.has(RTF_CLONING) {
        return Some(found);
    }
    route.count_use();
    Some(found)
}
