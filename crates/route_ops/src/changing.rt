//! The requests to change and to lock a route.
ghost use Rattle.std.specs.Prelude.{◌≡◌, ◌+◌, ◌≤◌, false, length, Ok, Err, IfOk, IfSome, IsSome, OnErr, MatchResult};
ghost use Rattle.if_addrs.specs.Interfaces.{IsOf};
ghost use Rattle.radix_tree.specs.Table.{entry_at, with_entry};
ghost use Rattle.radix_tree.specs.TableLaws.{StandsIn};
ghost use Rattle.route_ops.specs.Changing.{sought as sought_by, change, changed as changed_by, ifa_asked, lock, rewritten, rooms_to_change, target as target_of};
ghost use Rattle.route_ops.specs.Spares.{FitsSpare, KeepsRooms};
ghost use Rattle.route_ops.specs.Standing.{AreOf, KeepsAreOf, KeepsAreOfWith};
ghost use Rattle.sock_addrs.specs.Errno.{is_no_memory};

use crate::adding::Added;
use crate::leading::ifa_of_route;
use crate::looking::settle_gateway;
use crate::notice::Notices;
use crate::placing::{replace, rewrite};
use crate::reading::{best_route, route_at};
use crate::spare::Spare;
use if_addrs::{IfaRef, Interfaces};
use mask_table::{Prefix, Rank};
use radix_tree::{Entry, Table, Visits};
use route_entries::{PackedRoute, Route};
use route_msgs::Metrics;
use sock_addrs::{Errno, Gate, Inet};

/// What CHANGE asks for; what is not written stays as it is.
#[derive(Clone, Copy, Debug, PartialEq, Eq)]
pub struct Change {
    /// The destination of the route.
    pub destination: Inet,
    /// Its mask.
    pub netmask: Option<Prefix>,
    /// The new gateway.
    pub gateway: Option<Gate>,
    /// The new mask of its clones.
    pub genmask: Option<Prefix>,
    /// The interface of its new interface address.
    pub ifp: Option<Gate>,
    /// Its new interface address.
    pub ifa: Option<Gate>,
    /// Which metrics are set, and locked or unlocked, by bits.
    pub inits: u32,
    /// The metrics and locks, of which those are taken that `inits` names.
    pub metrics: Metrics,
}

/// The route that CHANGE or LOCK means. ESRCH: the destination has no route of its own; ETOOMANYREFS: none with this
/// mask.
fn target(
    table: &Table<PackedRoute>,
    visits: &mut Visits,
    destination: Inet,
    netmask: Option<Prefix>,
) -> Result<Entry<Route>, Errno>
    requires turn { visits.old.turn ≡ table.now.turn }
    ensures target { result ≡ target_of destination netmask table.now.entries }
    ensures stands { IfOk result (λ r. StandsIn table.now.entries r) }
    ensures memory { is_no_memory result ≡ false }
    ensures counter { visits.new.turn ≡ visits.old.turn }
{
    match best_route(table, visits, destination) {
        Some(best) if best.key == destination => {}
        _ => return Err(Errno::ESRCH),
    }
    route_at(table, visits, destination, Rank::of_mask(netmask)).ok_or(Errno::ETOOMANYREFS)
}

/// Locks or unlocks the metrics of a route that `inits` names. Refused as `request_change`.
pub fn request_lock(
    table: &mut Table<PackedRoute>,
    destination: Inet,
    netmask: Option<Prefix>,
    inits: u32,
    locks: u32,
) -> Result<Entry<Route>, Errno>
    ensures lock { result ≡ lock destination netmask inits locks table.old.entries }
    ensures table { IfOk result (λ r. table.new.entries ≡ with_entry r table.old.entries) }
    ensures kept { OnErr result (table.new.entries ≡ table.old.entries) }
    ensures rooms { KeepsRooms table.old table.new }
    ensures of { KeepsAreOf table.old.entries table.new.entries }
{
    let mut visits = table.begin();
    let route = target(table, &mut visits, destination, netmask)?;
    let mut value = route.value;
    value.set_locks(inits, locks);
    rewrite(table, &route, &value);
    Ok(Entry { value, ..route })
}

impl Change {
    /// The rooms that `change_planned` may need for it, of `prepare_rooms`.
    pub fn rooms(&self) -> usize
        ensures rooms { result ≡ rooms_to_change self.now.gateway }
        ensures few { result ≤ 2 }
    {
        match self.gateway {
            Some(_) => 1,
            None => 0,
        }
    }

    /// What the new interface address is searched by on its interface.
    fn sought(&self, route: &Entry<Route>) -> Gate
        ensures { result ≡ sought_by self.now route.now }
    {
        match (self.ifa, self.gateway) {
            (Some(ifa), _) => ifa,
            (None, Some(gateway)) => gateway,
            (None, None) => Gate::Inet(route.key),
        }
    }

    /// A route with what is written or found.
    fn applied(&self, route: &Route, ifa: Option<IfaRef>) -> Route
        ensures { result ≡ changed_by self.now ifa route.now }
    {
        let mut value = *route;
        if let Some(gateway) = self.gateway {
            value.gateway = gateway;
        }
        if let Some(ifa) = ifa {
            value.ifa = ifa;
        }
        if let Some(genmask) = self.genmask {
            value.genmask = Some(genmask);
        }
        value.set_metrics(self.inits, &self.metrics);
        value.set_locks(self.inits, self.metrics.locks);
        value
    }
}

/// The interface address that a change asks for.
fn asked_ifa(
    table: &Table<PackedRoute>,
    visits: &mut Visits,
    interfaces: &Interfaces,
    asked: &Change,
    route: &Entry<Route>,
) -> Option<IfaRef>
    requires turn { visits.old.turn ≡ table.now.turn }
    requires of { AreOf interfaces.now table.now.entries }
    ensures found { result ≡ ifa_asked asked.now route.now interfaces.now table.now.entries }
    ensures of { IfSome result (λ i. IsOf i interfaces.now) }
    ensures counter { visits.new.turn ≡ visits.old.turn }
{
    if let Some(ifp) = asked.ifp {
        if let Some(on) = interfaces.with_net(ifp) {
            let index = interfaces.interface_of(on);
            return interfaces.of_interface(asked.sought(route), index);
        }
    }
    if let Some(ifa) = asked.ifa {
        if let Some(found) = interfaces.with_addr(ifa) {
            return Some(found);
        }
    }
    let gateway = asked.gateway?;
    ifa_of_route(
        table,
        visits,
        interfaces,
        route.value.flags,
        route.key,
        &gateway,
    )
}

/// The route as it is to be after a change: with another gateway, another interface address, other metrics whatever is
/// locked, another mask of its clones and other locks. ESRCH: the destination has no route of its own; ETOOMANYREFS:
/// none with this mask. It takes no memory, so that memory is taken for no change that is refused.
pub fn plan_change(
    table: &Table<PackedRoute>,
    visits: &mut Visits,
    interfaces: &Interfaces,
    asked: &Change,
) -> Result<Entry<Route>, Errno>
    requires turn { visits.old.turn ≡ table.now.turn }
    requires of { AreOf interfaces.now table.now.entries }
    ensures change { MatchResult result
        (λ r. change asked.now interfaces.now table.now.entries ≡ Ok (rewritten asked.now.gateway r table.now.entries))
        (λ e. change asked.now interfaces.now table.now.entries ≡ Err e) }
    ensures there { IfOk result (λ r. IsSome (entry_at r.key r.rank table.now.entries)) }
    ensures of { IfOk result (λ r. IsOf r.value.ifa interfaces.now) }
    ensures memory { is_no_memory result ≡ false }
    ensures counter { visits.new.turn ≡ visits.old.turn }
{
    let old = target(table, visits, asked.destination, asked.netmask)?;
    let ifa = asked_ifa(table, visits, interfaces, asked, &old);
    let value = asked.applied(&old.value, ifa);
    Ok(Entry { value, ..old })
}

/// Puts a route, which was packed before, in the place of the one with its key and rank; where a gateway is written, it
/// is settled last.
pub fn change_planned(
    table: &mut Table<PackedRoute>,
    spare: &mut Spare,
    written: Option<Gate>,
    route: &Entry<Route>,
    packed: PackedRoute,
) -> Notices
    requires packed { packed ≡ route.now.value }
    requires there { IsSome (entry_at route.now.key route.now.rank table.old.entries) }
    requires fits { FitsSpare table.old spare.old }
    requires rooms { rooms_to_change written ≤ length spare.old }
    ensures table { table.new.entries ≡ (rewritten written route.now table.old.entries).table }
    ensures messages { result.items ≡ (rewritten written route.now table.old.entries).messages }
    ensures few { length result.items ≤ 1 }
    ensures of { KeepsAreOfWith route.now.value.ifa table.old.entries table.new.entries }
    ensures next { table.new.next ≡ table.old.next }
    ensures fits { FitsSpare table.new spare.new }
    ensures used { length spare.old ≤ length spare.new + 1 }
{
    replace(table, route.key, route.rank, packed);
    match written {
        Some(_) => settle_gateway(table, spare, &route.value),
        None => Notices::new(),
    }
}

/// Changes a route: its gateway, its interface address, its metrics whatever is locked, the mask of its clones, and
/// its locks; where a gateway is written, it is settled last. ESRCH: the destination has no route of its own;
/// ETOOMANYREFS: none with this mask. The block is for the route, where it needs one.
pub fn request_change(
    table: &mut Table<PackedRoute>,
    interfaces: &Interfaces,
    spare: &mut Spare,
    asked: &Change,
    block: Box<Route>,
) -> Result<Added, Errno>
    requires of { AreOf interfaces.now table.old.entries }
    requires fits { FitsSpare table.old spare.old }
    requires rooms { rooms_to_change asked.now.gateway ≤ length spare.old }
    ensures change { MatchResult result
        (λ a. change asked.now interfaces.now table.old.entries
        ≡ Ok (record { route = a.route; table = table.new.entries; messages = a.messages.items }))
        (λ e. change asked.now interfaces.now table.old.entries ≡ Err e) }
    ensures kept { OnErr result (table.new.entries ≡ table.old.entries) }
    ensures rooms { OnErr result (KeepsRooms table.old table.new) }
    ensures spare { OnErr result (spare.new ≡ spare.old) }
    ensures few { IfOk result (λ a. length a.messages.items ≤ 1) }
    ensures of { AreOf interfaces.now table.new.entries }
    ensures next { table.new.next ≡ table.old.next }
    ensures fits { FitsSpare table.new spare.new }
    ensures used { length spare.old ≤ length spare.new + 1 }
{
    let mut visits = table.begin();
    let route = match plan_change(table, &mut visits, interfaces, asked) {
        Ok(route) => route,
        Err(errno) => return Err(errno),
    };
    let (packed, _) = PackedRoute::of(&route.value, block);
    let messages = change_planned(table, spare, asked.gateway, &route, packed);
    Ok(Added { route, messages })
}
