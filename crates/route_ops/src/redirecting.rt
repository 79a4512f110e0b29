//! Redirects.
ghost use Rattle.std.specs.Prelude.{◌≡◌, ◌+◌, ◌≤◌, length, ◌∷◌, ◌++◌, [], IfOk, OnSome, Some};
ghost use Rattle.route_ops.specs.Adding.{added as added_of};
ghost use Rattle.route_ops.specs.Redirecting.{dynamic, is_of_another as is_of_another_by, match_modify, modified as modified_by, redirect as redirect_of, redirect_told, judged, verdict as verdict_of};
ghost use Rattle.route_ops.specs.Spares.{FitsSpare, KeepsRooms};
ghost use Rattle.radix_tree.specs.TableLaws.{StandsIn};
ghost use Rattle.route_ops.specs.Standing.{AreOf, KeepsAreOf};

use crate::adding::{Added, NewRoute, request_add};
use crate::looking::settle_gateway;
use crate::notice::{Notice, Notices};
use crate::placing::rewrite;
use crate::reading::best_route;
use crate::spare::Spare;
use crate::told::Told;
use if_addrs::{IfaRef, Interfaces};
use radix_tree::{Entry, Table, Visits};
use route_entries::{PackedRoute, Route};
use route_msgs::Metrics;
use route_msgs::flags::{RTF_DONE, RTF_DYNAMIC, RTF_GATEWAY, RTF_HOST, RTF_MODIFIED};
use sock_addrs::{Errno, Gate, Inet};

/// What a redirect says (ICMP of RFC 792): the destination is reached by this gateway.
#[derive(Clone, Copy, Debug, PartialEq, Eq)]
pub struct NewGateway {
    /// The destination, a host.
    pub destination: Inet,
    /// The gateway that it is reached by.
    pub gateway: Inet,
    /// Who says so: the gateway that was used until now.
    pub author: Inet,
}

/// What is done about a redirect that is not refused.
#[derive(Drop)]
pub(crate) enum Verdict {
    /// A route of the host is made.
    Create,
    /// This route gets the new gateway.
    Modify(Entry<Route>),
}

impl NewGateway {
    /// The route that is created for its destination.
    fn route(&self) -> NewRoute
        ensures { result ≡ dynamic self.now }
    {
        NewRoute {
            destination: self.destination,
            netmask: None,
            gateway: Gate::Inet(self.gateway),
            genmask: None,
            flags: RTF_GATEWAY | RTF_HOST | RTF_DYNAMIC,
            inits: 0,
            metrics: Metrics::default(),
        }
    }

    /// What it came to: its own message, with the flag of what was done or tried, comes behind those of the settling.
    fn ended(&self, tried: u16, errno: Option<Errno>, mut messages: Notices) -> Told
        requires { length messages.items ≤ 1 }
        ensures errno { result.errno ≡ errno }
        ensures messages { result.messages.items ≡ messages.items ++ redirect_told self.now tried errno ∷ [] }
    {
        messages.push(Notice::Redirect {
            destination: self.destination,
            gateway: Gate::Inet(self.gateway),
            author: self.author,
            flags: RTF_GATEWAY | RTF_HOST | RTF_DONE | tried,
            errno,
        });
        Told { errno, messages }
    }
}

/// Follows a redirect (`rtredirect` of 4.4BSD), which makes a message in each case. Refused, in this order, and no
/// route is changed then: ENETUNREACH: the gateway is in no interface's network; EINVAL: the author isn't the gateway
/// of the route, or the route leads out of another interface address than that of the new gateway's network;
/// EHOSTUNREACH: the gateway is an address of an interface, or the route has no gateway; and where a route is made,
/// as `request_add`.
pub fn redirect(
    table: &mut Table<PackedRoute>,
    interfaces: &Interfaces,
    spare: &mut Spare,
    asked: &NewGateway,
) -> Told
    requires of { AreOf interfaces.now table.old.entries }
    requires fits { FitsSpare table.old spare.old }
    requires rooms { 2 ≤ length spare.old }
    ensures redirect { redirect_of asked.now interfaces.now table.old.entries
        ≡ record { table = table.new.entries; messages = result.messages.items; errno = result.errno } }
    ensures kept { OnSome result.errno (table.new.entries ≡ table.old.entries) }
    ensures rooms { OnSome result.errno (KeepsRooms table.old table.new) }
    ensures spare { OnSome result.errno (spare.new ≡ spare.old) }
    ensures few { length result.messages.items ≤ 2 }
    ensures of { AreOf interfaces.now table.new.entries }
    ensures next { table.new.next ≡ table.old.next }
    ensures fits { FitsSpare table.new spare.new }
    ensures used { length spare.old ≤ length spare.new + 2 }
{
    let mut visits = table.begin();
    match consider(table, &mut visits, interfaces, asked) {
        Err(errno) => asked.ended(0, Some(errno), Notices::new()),
        Ok(Verdict::Create) => match request_add(table, interfaces, spare, &asked.route()) {
            Ok(added) => asked.ended(RTF_DYNAMIC, None, added.messages),
            Err(errno) => asked.ended(RTF_DYNAMIC, Some(errno), Notices::new()),
        },
        Ok(Verdict::Modify(route)) => {
            let added = modify(table, spare, route, asked.gateway);
            asked.ended(RTF_MODIFIED, None, added.messages)
        }
    }
}

/// Gives a route of the table a new gateway, and settles that.
fn modify(
    table: &mut Table<PackedRoute>,
    spare: &mut Spare,
    old: Entry<Route>,
    gateway: Inet,
) -> Added
    requires stands { StandsIn table.old.entries old }
    requires fits { FitsSpare table.old spare.old }
    requires rooms { 1 ≤ length spare.old }
    ensures added { added_of (modified_by gateway old) table.old.entries
        ≡ record { route = result.route; table = table.new.entries; messages = result.messages.items } }
    ensures few { length result.messages.items ≤ 1 }
    ensures of { KeepsAreOf table.old.entries table.new.entries }
    ensures next { table.new.next ≡ table.old.next }
    ensures fits { FitsSpare table.new spare.new }
    ensures used { length spare.old ≤ length spare.new + 1 }
{
    let mut value = old.value;
    value.gateway = Gate::Inet(gateway);
    value.flags |= RTF_MODIFIED;
    rewrite(table, &old, &value);
    let messages = settle_gateway(table, spare, &value);
    let route = Entry { value, ..old };
    Added { route, messages }
}

/// What is done about a redirect.
fn consider(
    table: &Table<PackedRoute>,
    visits: &mut Visits,
    interfaces: &Interfaces,
    asked: &NewGateway,
) -> Result<Verdict, Errno>
    requires turn { visits.old.turn ≡ table.now.turn }
    ensures verdict { result ≡ verdict_of asked.now interfaces.now table.now.entries }
    ensures stands { IfOk result (λ v. match_modify v (λ r. StandsIn table.now.entries r)) }
    ensures counter { visits.new.turn ≡ visits.old.turn }
{
    let best = best_route(table, visits, asked.destination);
    let Some(near) = interfaces.with_net(Gate::Inet(asked.gateway)) else {
        return Err(Errno::ENETUNREACH);
    };
    if is_of_another(&best, asked.author, near) {
        return Err(Errno::EINVAL);
    }
    if interfaces.with_addr(Gate::Inet(asked.gateway)).is_some() {
        return Err(Errno::EHOSTUNREACH);
    }
    judge(best)
}

/// What is done about the best route of the destination.
fn judge(best: Option<Entry<Route>>) -> Result<Verdict, Errno>
    ensures verdict { result ≡ judged best }
    ensures route { IfOk result (λ v. match_modify v (λ r. best ≡ Some r)) }
{
    let Some(route) = best else {
        return Ok(Verdict::Create);
    };
    if route.rank.number() == 0 {
        return Ok(Verdict::Create);
    }
    if !route.value.has(RTF_GATEWAY) {
        return Err(Errno::EHOSTUNREACH);
    }
    if !route.value.has(RTF_HOST) {
        return Ok(Verdict::Create);
    }
    Ok(Verdict::Modify(route))
}

/// Whether the best route leads elsewhere than over the author and out of this interface address.
fn is_of_another(best: &Option<Entry<Route>>, author: Inet, near: IfaRef) -> bool
    ensures { result ≡ is_of_another_by best.now author near }
{
    match best {
        None => false,
        Some(route) => route.value.gateway != Gate::Inet(author) || route.value.ifa != near,
    }
}
