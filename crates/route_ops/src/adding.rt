//! The request to add a route.
ghost use Rattle.std.specs.Prelude.{◌≡◌, ◌+◌, ◌≤◌, false, length, Ok, Err, None, IfOk, IfSome, OnErr, MatchResult};
ghost use Rattle.std.specs.Result.{result_err};
ghost use Rattle.if_addrs.specs.Interfaces.{IsOf};
ghost use Rattle.mask_table.specs.Agreeing.{masked as masked_by};
ghost use Rattle.radix_tree.specs.Table.{entry_at};
ghost use Rattle.route_ops.specs.Adding.{add, add_fault, added as added_of, asked_rank, ifa_for, new_entry as entry_of, rooms_to_add, rooms_to_put};
ghost use Rattle.route_ops.specs.Spares.{FitsSpare, KeepsRooms};
ghost use Rattle.route_ops.specs.Standing.{AreOf, KeepsAreOfWith, KeepsRoutes};
ghost use Rattle.sock_addrs.specs.Errno.{is_no_memory};

use crate::leading::ifa_of_route;
use crate::looking::settle_gateway;
use crate::notice::Notices;
use crate::placing::place_absent;
use crate::reading::is_there;
use crate::spare::Spare;
use if_addrs::{IfaRef, Interfaces};
use mask_table::{Prefix, Rank, masked};
use radix_tree::{Entry, Table, Visits};
use route_entries::{PackedRoute, Route};
use route_msgs::Metrics;
use route_msgs::flags::{RTF_GATEWAY, RTF_HOST, RTF_UP};
use sock_addrs::{Errno, Gate, Inet};

/// What ADD asks for.
#[derive(Clone, Copy, Debug, PartialEq, Eq)]
pub struct NewRoute {
    /// The destination as it was written.
    pub destination: Inet,
    /// The mask, where one was written.
    pub netmask: Option<Prefix>,
    /// The gateway.
    pub gateway: Gate,
    /// The mask that its clones get, where one was written.
    pub genmask: Option<Prefix>,
    /// The flags.
    pub flags: u16,
    /// Which metrics it has and which may be locked, by bits.
    pub inits: u32,
    /// The metrics and locks, of which those are taken that `inits` names.
    pub metrics: Metrics,
}

/// A route that was added or changed.
#[derive(Drop)]
pub struct Added {
    /// The route.
    pub route: Entry<Route>,
    /// The messages that the settling of its gateway made.
    pub messages: Notices,
}

impl NewRoute {
    /// The rooms that `add_planned` may need for it, of `prepare_rooms`.
    pub fn rooms(&self) -> usize
        ensures rooms { result ≡ rooms_to_add self.now }
        ensures few { result ≤ 2 }
    {
        if (self.flags | RTF_UP) & RTF_GATEWAY == 0 {
            1
        } else {
            2
        }
    }

    /// Its rank: a host's where the flags say so or no mask was written.
    fn rank(&self) -> Rank
        ensures { result ≡ asked_rank self.now.flags self.now.netmask }
    {
        if self.flags & RTF_HOST == 0 {
            Rank::of_mask(self.netmask)
        } else {
            Rank::host()
        }
    }

    /// The route with this interface address.
    fn entry(&self, ifa: IfaRef) -> Entry<Route>
        ensures entry { result ≡ entry_of self.now ifa }
        ensures masked { masked_by result.rank result.key ≡ result.key }
    {
        let rank = self.rank();
        let mut value = Route {
            flags: self.flags | RTF_UP,
            gateway: self.gateway,
            metrics: Metrics::default(),
            genmask: self.genmask,
            ifa,
            use_count: 0,
        };
        value.set_metrics(self.inits, &self.metrics);
        value.set_locks(self.inits, self.metrics.locks);
        Entry {
            key: masked(self.destination, rank),
            rank,
            value,
        }
    }
}

/// The interface address of a new route, where there is one for it.
fn find_ifa(
    table: &Table<PackedRoute>,
    visits: &mut Visits,
    interfaces: &Interfaces,
    asked: &NewRoute,
) -> Option<IfaRef>
    requires turn { visits.old.turn ≡ table.now.turn }
    requires of { AreOf interfaces.now table.now.entries }
    ensures found { result ≡ ifa_for asked.now interfaces.now table.now.entries }
    ensures of { IfSome result (λ i. IsOf i interfaces.now) }
    ensures counter { visits.new.turn ≡ visits.old.turn }
{
    ifa_of_route(
        table,
        visits,
        interfaces,
        asked.flags,
        asked.destination,
        &asked.gateway,
    )
}

/// The route that is asked for, where it can be added. Refused in this order: ENETUNREACH: no interface address is
/// found for it; EEXIST: a route with its key and rank is there. It takes no memory, so that memory is taken for no
/// route that is refused.
pub fn plan_add(
    table: &Table<PackedRoute>,
    visits: &mut Visits,
    interfaces: &Interfaces,
    asked: &NewRoute,
) -> Result<Entry<Route>, Errno>
    requires turn { visits.old.turn ≡ table.now.turn }
    requires of { AreOf interfaces.now table.now.entries }
    ensures add { MatchResult result
        (λ r. add asked.now interfaces.now table.now.entries ≡ Ok (added_of r table.now.entries))
        (λ e. add asked.now interfaces.now table.now.entries ≡ Err e) }
    ensures absent { IfOk result (λ r. entry_at r.key r.rank table.now.entries ≡ None) }
    ensures masked { IfOk result (λ r. masked_by r.rank r.key ≡ r.key) }
    ensures rooms { IfOk result (λ r. rooms_to_put r.value ≡ rooms_to_add asked.now) }
    ensures of { IfOk result (λ r. IsOf r.value.ifa interfaces.now) }
    ensures memory { is_no_memory result ≡ false }
    ensures counter { visits.new.turn ≡ visits.old.turn }
{
    let Some(ifa) = find_ifa(table, visits, interfaces, asked) else {
        return Err(Errno::ENETUNREACH);
    };
    let route = asked.entry(ifa);
    if is_there(table, visits, route.key, route.rank) {
        return Err(Errno::EEXIST);
    }
    Ok(route)
}

/// Adds a route whose key and rank no route has, and then settles its gateway.
pub fn add_planned(
    table: &mut Table<PackedRoute>,
    spare: &mut Spare,
    route: &Entry<Route>,
) -> Notices
    requires absent { entry_at route.now.key route.now.rank table.old.entries ≡ None }
    requires masked { masked_by route.now.rank route.now.key ≡ route.now.key }
    requires fits { FitsSpare table.old spare.old }
    requires rooms { rooms_to_put route.now.value ≤ length spare.old }
    ensures table { table.new.entries ≡ (added_of route.now table.old.entries).table }
    ensures messages { result.items ≡ (added_of route.now table.old.entries).messages }
    ensures few { length result.items ≤ 1 }
    ensures keeps { KeepsRoutes table.old.entries table.new.entries }
    ensures of { KeepsAreOfWith route.now.value.ifa table.old.entries table.new.entries }
    ensures next { table.new.next ≡ table.old.next }
    ensures fits { FitsSpare table.new spare.new }
    ensures used { length spare.old ≤ length spare.new + 2 }
{
    place_absent(table, spare, route);
    settle_gateway(table, spare, &route.value)
}

/// What refuses to add a route, in this order: ENETUNREACH: no interface address is found for it; EEXIST: a route
/// with its key and rank is there. It takes no memory.
pub fn check_add(
    table: &Table<PackedRoute>,
    visits: &mut Visits,
    interfaces: &Interfaces,
    asked: &NewRoute,
) -> Result<(), Errno>
    requires turn { visits.old.turn ≡ table.now.turn }
    requires of { AreOf interfaces.now table.now.entries }
    ensures fault { result_err result ≡ add_fault asked.now interfaces.now table.now.entries }
    ensures counter { visits.new.turn ≡ visits.old.turn }
{
    match plan_add(table, visits, interfaces, asked) {
        Ok(_) => Ok(()),
        Err(errno) => Err(errno),
    }
}

/// Adds a route, and then settles its gateway. Refused as `check_add` says, and nothing is changed then.
pub fn request_add(
    table: &mut Table<PackedRoute>,
    interfaces: &Interfaces,
    spare: &mut Spare,
    asked: &NewRoute,
) -> Result<Added, Errno>
    requires of { AreOf interfaces.now table.old.entries }
    requires fits { FitsSpare table.old spare.old }
    requires rooms { rooms_to_add asked.now ≤ length spare.old }
    ensures add { MatchResult result
        (λ a. add asked.now interfaces.now table.old.entries
        ≡ Ok (record { route = a.route; table = table.new.entries; messages = a.messages.items }))
        (λ e. add asked.now interfaces.now table.old.entries ≡ Err e) }
    ensures kept { OnErr result (table.new.entries ≡ table.old.entries) }
    ensures rooms { OnErr result (KeepsRooms table.old table.new) }
    ensures spare { OnErr result (spare.new ≡ spare.old) }
    ensures few { IfOk result (λ a. length a.messages.items ≤ 1) }
    ensures keeps { KeepsRoutes table.old.entries table.new.entries }
    ensures of { AreOf interfaces.now table.new.entries }
    ensures next { table.new.next ≡ table.old.next }
    ensures fits { FitsSpare table.new spare.new }
    ensures used { length spare.old ≤ length spare.new + 2 }
{
    let mut visits = table.begin();
    let route = match plan_add(table, &mut visits, interfaces, asked) {
        Ok(route) => route,
        Err(errno) => return Err(errno),
    };
    let messages = add_planned(table, spare, &route);
    Ok(Added { route, messages })
}
