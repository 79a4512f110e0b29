//! The routes that addresses of interfaces bring with them, and take away when they are removed.
ghost use Rattle.std.specs.Prelude.{◌≡◌, IfSome, IfNone};
ghost use Rattle.mask_table.specs.Agreeing.{masked as masked_by};
ghost use Rattle.radix_tree.specs.Table.{without};
ghost use Rattle.route_ops.specs.Addressing.{address_entry, address_flags, address_key, address_rank, is_anothers, withdrawn};
ghost use Rattle.route_ops.specs.Spares.{KeepsFree, KeepsRooms};
ghost use Rattle.route_ops.specs.Standing.{KeepsAreOf};

use crate::placing::take_out;
use crate::reading::{best_route, first_route, route_at};
use if_addrs::{Facts, IfaRef, Kind};
use mask_table::{Rank, masked};
use radix_tree::{Entry, Table, Visits};
use route_entries::{PackedRoute, Route};
use route_msgs::Metrics;
use route_msgs::flags::{RTF_CLONING, RTF_HOST, RTF_UP};
use sock_addrs::{Gate, Inet};

/// The route that an address of an interface brings with it, as `rtinit` of 4.4BSD makes it: to its network on a
/// broadcast interface, and to the far address, a host, on the others; by way of the address itself.
pub fn route_of_address(ifa: IfaRef, address: Inet, facts: &Facts) -> Entry<Route>
    ensures route { result ≡ address_entry ifa address facts.now }
    ensures masked { masked_by result.rank result.key ≡ result.key }
{
    Entry {
        key: key_of(address, facts),
        rank: rank_of(facts),
        value: Route {
            flags: flags_of(facts),
            gateway: Gate::Inet(address),
            metrics: Metrics::default(),
            genmask: None,
            ifa,
            use_count: 0,
        },
    }
}

fn key_of(address: Inet, facts: &Facts) -> Inet
    ensures key { result ≡ address_key address facts.now }
    ensures masked { masked_by (address_rank facts.now) result ≡ result }
{
    match facts.kind {
        Kind::Broadcast => masked(address, Rank::of(facts.prefix)),
        Kind::Loopback | Kind::PointToPoint => facts.far,
    }
}

fn rank_of(facts: &Facts) -> Rank
    ensures { result ≡ address_rank facts.now }
{
    match facts.kind {
        Kind::Broadcast => Rank::of(facts.prefix),
        Kind::Loopback | Kind::PointToPoint => Rank::host(),
    }
}

fn flags_of(facts: &Facts) -> u16
    ensures { result ≡ address_flags facts.now }
{
    let cloning = if facts.cloning { RTF_CLONING } else { 0 };
    let host = match facts.kind {
        Kind::Broadcast => 0,
        Kind::Loopback | Kind::PointToPoint => RTF_HOST,
    };
    RTF_UP | cloning | host
}

/// Takes the route of an address that is removed out of the table, and answers it. `None`, and no route is changed:
/// the address brought no route, the best route of its key is another interface address's by now, or there is none.
pub fn withdraw_route(
    table: &mut Table<PackedRoute>,
    ifa: IfaRef,
    address: Inet,
    facts: &Facts,
) -> Option<Entry<Route>>
    ensures withdrawn { result ≡ withdrawn ifa address facts.now table.old.entries }
    ensures without { IfSome result (λ r. table.new.entries ≡ without r.key r.rank table.old.entries) }
    ensures kept { IfNone result (table.new.entries ≡ table.old.entries) }
    ensures rooms { IfNone result (KeepsRooms table.old table.new) }
    ensures free { KeepsFree table.old table.new }
    ensures of { KeepsAreOf table.old.entries table.new.entries }
{
    let mut visits = table.begin();
    let route = route_to_withdraw(table, &mut visits, ifa, address, facts)?;
    take_out(table, route.key, route.rank);
    Some(route)
}

/// The route that goes with an address.
fn route_to_withdraw(
    table: &Table<PackedRoute>,
    visits: &mut Visits,
    ifa: IfaRef,
    address: Inet,
    facts: &Facts,
) -> Option<Entry<Route>>
    requires turn { visits.old.turn ≡ table.now.turn }
    ensures route { result ≡ withdrawn ifa address facts.now table.now.entries }
    ensures counter { visits.new.turn ≡ visits.old.turn }
{
    if !facts.routed {
        return None;
    }
    let key = key_of(address, facts);
    if is_anothers_route(&best_route(table, visits, key), ifa) {
        return None;
    }
    match facts.kind {
        Kind::Broadcast => route_at(table, visits, key, Rank::of(facts.prefix)),
        Kind::Loopback | Kind::PointToPoint => first_route(table, visits, key),
    }
}

/// Whether there is a route that leads out of another interface address.
fn is_anothers_route(best: &Option<Entry<Route>>, ifa: IfaRef) -> bool
    ensures { result ≡ is_anothers ifa best.now }
{
    match best {
        Some(route) => route.value.ifa != ifa,
        None => false,
    }
}
