//! Routes that seem dead.
ghost use Rattle.std.specs.Prelude.{◌≡◌, ◌≤◌, length, OnSome};
ghost use Rattle.route_ops.specs.Losses.{losing as losing_of, losing_told};
ghost use Rattle.route_ops.specs.Spares.{KeepsFree, KeepsRooms};
ghost use Rattle.route_ops.specs.Standing.{KeepsAreOf};

use crate::notice::{Notice, Notices};
use crate::placing::take_out;
use crate::reading::best_route;
use crate::told::Told;
use radix_tree::{Entry, Table};
use route_entries::{PackedRoute, Route};
use route_msgs::flags::RTF_DYNAMIC;
use sock_addrs::{Errno, Inet};

/// Tells that the best route of an address seems dead, as TCP calls it when it sends again and again in vain
/// (`in_losing` of 4.4BSD), and takes that route out of the table where a redirect made it. It makes no clone and tells
/// of no deletion. EHOSTUNREACH: there is no route; nothing is told then.
pub fn losing(table: &mut Table<PackedRoute>, address: Inet) -> Told
    ensures losing { losing_of address table.old.entries
        ≡ record { table = table.new.entries; messages = result.messages.items; errno = result.errno } }
    ensures kept { OnSome result.errno (table.new.entries ≡ table.old.entries) }
    ensures rooms { OnSome result.errno (KeepsRooms table.old table.new) }
    ensures free { KeepsFree table.old table.new }
    ensures few { length result.messages.items ≤ 1 }
    ensures of { KeepsAreOf table.old.entries table.new.entries }
{
    let mut visits = table.begin();
    let Some(route) = best_route(table, &mut visits, address) else {
        return Told {
            errno: Some(Errno::EHOSTUNREACH),
            messages: Notices::new(),
        };
    };
    let mut messages = Notices::new();
    messages.push(seems_dead(address, &route));
    if route.value.has(RTF_DYNAMIC) {
        take_out(table, route.key, route.rank);
    }
    Told {
        errno: None,
        messages,
    }
}

/// That the route seems dead by which an address is reached.
fn seems_dead(address: Inet, route: &Entry<Route>) -> Notice
    ensures { result ≡ losing_told address route.now }
{
    Notice::Losing {
        address,
        gateway: route.value.gateway,
        rank: route.rank,
        flags: route.value.flags,
    }
}
