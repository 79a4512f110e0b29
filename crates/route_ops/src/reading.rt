//! Routes that are read from the table.
ghost use Rattle.std.specs.Prelude.{◌≡◌, IfSome, is_some, option_map};
ghost use Rattle.radix_tree.specs.Table.{best_of, entry_at, first_of};
ghost use Rattle.radix_tree.specs.TableLaws.{StandsIn};
ghost use Rattle.route_ops.specs.Standing.{HasIfaOf, IsIfaOf};

use if_addrs::IfaRef;
use mask_table::Rank;
use radix_tree::{Entry, Table, Visits};
use route_entries::{PackedRoute, Route};
use sock_addrs::Inet;

/// The best route of an address. It is inlined, since a whole route would else be moved once more.
#[inline(always)]
pub(crate) fn best_route(
    table: &Table<PackedRoute>,
    visits: &mut Visits,
    address: Inet,
) -> Option<Entry<Route>>
    requires turn { visits.old.turn ≡ table.now.turn }
    ensures best { result ≡ best_of address table.now.entries }
    ensures stands { IfSome result (λ r. StandsIn table.now.entries r) }
    ensures counter { visits.new.turn ≡ visits.old.turn }
{
    match table.best(address, visits) {
        Some((key, rank, route)) => Some(Entry {
            key,
            rank,
            value: route.route(),
        }),
        None => None,
    }
}

/// The interface address of the best route of an address.
pub(crate) fn best_ifa(
    table: &Table<PackedRoute>,
    visits: &mut Visits,
    address: Inet,
) -> Option<IfaRef>
    requires turn { visits.old.turn ≡ table.now.turn }
    ensures ifa { result ≡ option_map (λ r. r.value.ifa) (best_of address table.now.entries) }
    ensures of { IfSome result (λ i. IsIfaOf table.now.entries i) }
    ensures counter { visits.new.turn ≡ visits.old.turn }
{
    match table.best(address, visits) {
        Some((_, _, route)) => Some(route.ifa()),
        None => None,
    }
}

/// The route with this key and rank.
pub fn route_at(
    table: &Table<PackedRoute>,
    visits: &mut Visits,
    key: Inet,
    rank: Rank,
) -> Option<Entry<Route>>
    requires turn { visits.old.turn ≡ table.now.turn }
    ensures route { result ≡ entry_at key rank table.now.entries }
    ensures stands { IfSome result (λ r. StandsIn table.now.entries r) }
    ensures ifa { IfSome result (λ r. HasIfaOf table.now.entries r) }
    ensures counter { visits.new.turn ≡ visits.old.turn }
{
    match table.get(key, rank, visits) {
        Some(value) => Some(Entry {
            key,
            rank,
            value: value.route(),
        }),
        None => None,
    }
}

/// Whether there is a route with this key and rank.
pub(crate) fn is_there(
    table: &Table<PackedRoute>,
    visits: &mut Visits,
    key: Inet,
    rank: Rank,
) -> bool
    requires turn { visits.old.turn ≡ table.now.turn }
    ensures there { result ≡ is_some (entry_at key rank table.now.entries) }
    ensures counter { visits.new.turn ≡ visits.old.turn }
{
    table.get(key, rank, visits).is_some()
}

/// The first route with this key.
pub(crate) fn first_route(
    table: &Table<PackedRoute>,
    visits: &mut Visits,
    key: Inet,
) -> Option<Entry<Route>>
    requires turn { visits.old.turn ≡ table.now.turn }
    ensures route { result ≡ first_of key table.now.entries }
    ensures counter { visits.new.turn ≡ visits.old.turn }
{
    match table.first_of(key, visits) {
        Some((rank, value)) => Some(Entry {
            key,
            rank,
            value: value.route(),
        }),
        None => None,
    }
}
