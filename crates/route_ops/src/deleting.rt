//! The requests to delete and to show a route.
ghost use Rattle.std.specs.Prelude.{◌≡◌, MatchResult, IfOk, IfSome, IfNone, OnErr, Some, None};
ghost use Rattle.radix_tree.specs.Table.{first_of, without};
ghost use Rattle.radix_tree.specs.TableLaws.{StandsIn};
ghost use Rattle.route_ops.specs.Deleting.{route_to_delete as deleted_by, route_to_show};
ghost use Rattle.route_ops.specs.Spares.{KeepsFree, KeepsRooms};
ghost use Rattle.route_ops.specs.Standing.{HasIfaOf, KeepsAreOf};

use crate::placing::{take_out, take_pair};
use crate::reading::{best_route, first_route};
use mask_table::{Prefix, Rank};
use radix_tree::{Entry, Table, Visits};
use route_entries::{PackedRoute, Route};
use route_msgs::flags::RTF_HOST;
use sock_addrs::{Errno, Inet};

/// Shows the best route of an address, which it neither clones nor counts. ESRCH: there is none.
pub fn request_get(
    table: &Table<PackedRoute>,
    visits: &mut Visits,
    destination: Inet,
) -> Result<Entry<Route>, Errno>
    requires turn { visits.old.turn ≡ table.now.turn }
    ensures shown { result ≡ route_to_show destination table.now.entries }
    ensures stands { IfOk result (λ r. StandsIn table.now.entries r) }
    ensures ifa { IfOk result (λ r. HasIfaOf table.now.entries r) }
    ensures counter { visits.new.turn ≡ visits.old.turn }
{
    let Some(route) = best_route(table, visits, destination) else {
        return Err(Errno::ESRCH);
    };
    Ok(route)
}

/// Deletes a route: with a mask, and without the flag HOST, the route with this key and mask; otherwise the first of
/// the key. ESRCH: there is none.
pub fn request_delete(
    table: &mut Table<PackedRoute>,
    key: Inet,
    netmask: Option<Prefix>,
    flags: u16,
) -> Result<Entry<Route>, Errno>
    ensures deleted { MatchResult result
        (λ r. deleted_by key netmask flags table.old.entries ≡ Some r)
        (λ e. (deleted_by key netmask flags table.old.entries ≡ None) × (e ≡ Errno.ESRCH)) }
    ensures without { IfOk result (λ r. table.new.entries ≡ without r.key r.rank table.old.entries) }
    ensures kept { OnErr result (table.new.entries ≡ table.old.entries) }
    ensures rooms { OnErr result (KeepsRooms table.old table.new) }
    ensures free { KeepsFree table.old table.new }
    ensures of { KeepsAreOf table.old.entries table.new.entries }
{
    let Some(route) = take_meant(table, key, netmask, flags) else {
        return Err(Errno::ESRCH);
    };
    Ok(route)
}

/// Takes out the route that DELETE means, where it is there.
fn take_meant(
    table: &mut Table<PackedRoute>,
    key: Inet,
    netmask: Option<Prefix>,
    flags: u16,
) -> Option<Entry<Route>>
    ensures route { result ≡ deleted_by key netmask flags table.old.entries }
    ensures without { IfSome result (λ r. table.new.entries ≡ without r.key r.rank table.old.entries) }
    ensures kept { IfNone result (table.new.entries ≡ table.old.entries) }
    ensures rooms { IfNone result (KeepsRooms table.old table.new) }
    ensures free { KeepsFree table.old table.new }
    ensures of { KeepsAreOf table.old.entries table.new.entries }
{
    match netmask {
        Some(prefix) if flags & RTF_HOST == 0 => take_pair(table, key, Rank::of(prefix)),
        _ => take_first(table, key),
    }
}

/// Takes out the first route of a key, where there is one.
fn take_first(table: &mut Table<PackedRoute>, key: Inet) -> Option<Entry<Route>>
    ensures route { result ≡ first_of key table.old.entries }
    ensures without { IfSome result (λ r. table.new.entries ≡ without r.key r.rank table.old.entries) }
    ensures kept { IfNone result (table.new.entries ≡ table.old.entries) }
    ensures rooms { IfNone result (KeepsRooms table.old table.new) }
    ensures free { KeepsFree table.old table.new }
    ensures of { KeepsAreOf table.old.entries table.new.entries }
{
    let mut visits = table.begin();
    let Some(route) = first_route(table, &mut visits, key) else {
        return None;
    };
    take_out(table, route.key, route.rank);
    Some(route)
}
