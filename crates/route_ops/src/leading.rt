//! The interface address that a route leads out of.
ghost use Rattle.std.specs.Prelude.{◌≡◌, IfSome};
ghost use Rattle.if_addrs.specs.Interfaces.{IsOf};
ghost use Rattle.if_addrs.specs.Searches.{for_route};
ghost use Rattle.route_ops.specs.Adding.{best_ifa as best_ifa_of};
ghost use Rattle.route_ops.specs.Standing.{AreOf};

use crate::reading::best_ifa;
use if_addrs::{IfaRef, Interfaces};
use radix_tree::{Table, Visits};
use route_entries::PackedRoute;
use sock_addrs::{Gate, Inet};

/// The interface address of a route with these flags to this destination, over this gateway, where there is one for it.
/// The fallback is that of the destination's best route, which is looked up last, where nothing else is found.
pub(crate) fn ifa_of_route(
    table: &Table<PackedRoute>,
    visits: &mut Visits,
    interfaces: &Interfaces,
    flags: u16,
    destination: Inet,
    gateway: &Gate,
) -> Option<IfaRef>
    requires turn { visits.old.turn ≡ table.now.turn }
    requires of { AreOf interfaces.now table.now.entries }
    ensures found { result
        ≡ for_route flags destination gateway.now (best_ifa_of destination table.now.entries) interfaces.now }
    ensures of { IfSome result (λ i. IsOf i interfaces.now) }
    ensures counter { visits.new.turn ≡ visits.old.turn }
{
    if let Some(found) = interfaces.for_route(flags, destination, *gateway, None) {
        return Some(found);
    }
    let Some(fallback) = best_ifa(table, visits, destination) else {
        return None;
    };
    interfaces.for_route(flags, destination, *gateway, Some(fallback))
}
