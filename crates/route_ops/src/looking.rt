//! Look-ups that clone, and the settling of gateways.
ghost use Rattle.std.specs.Prelude.{◌≡◌, ◌+◌, ◌≤◌, ◌++◌, [], if◌then◌else◌, Bool, true, Some, length, IfOk, IfSome, OnErr};
ghost use Rattle.sock_addrs.specs.declared.gate.Gate.TheVariants as gate;
ghost use Rattle.radix_tree.specs.Table.{with_entry};
ghost use Rattle.radix_tree.specs.TableLaws.{StandsIn};
ghost use Rattle.route_ops.specs.Looks.{resolved, found, answer_of, with_clone, told_of as told, settle, settle_found as settled, leads_over, look};
ghost use Rattle.route_ops.specs.Spares.{FitsSpare, KeepsRooms};
ghost use Rattle.route_ops.specs.Standing.{HasIfaOf, KeepsAreOf, KeepsAreOfWith, KeepsRoutes};

use crate::notice::{Notice, Notices};
use crate::placing::place;
use crate::reading::best_route;
use crate::spare::Spare;
use mask_table::masked;
use radix_tree::{Entry, Table, Visits};
use route_entries::{PackedRoute, Route, clone_of};
use route_msgs::flags::{RTF_CLONING, RTF_GATEWAY, RTF_XRESOLVE};
use sock_addrs::{Errno, Gate, Inet};

/// What a look-up answers.
#[derive(Drop)]
pub struct Looked {
    /// The route of the address, which stands in the table.
    pub answer: Option<Entry<Route>>,
    /// The messages that it made, in their order.
    pub messages: Notices,
}

/// What a look-up finds.
#[derive(Drop)]
pub(crate) enum Found {
    /// There is no route.
    Nothing,
    /// A route that doesn't clone.
    Known(Entry<Route>),
    /// A route whose clone's place is taken.
    NotCloned(Entry<Route>),
    /// The clone, which was added.
    Cloned(Entry<Route>),
}

impl Found {
    /// The route that a look-up answers.
    fn answer(self) -> Option<Entry<Route>>
        ensures { result ≡ answer_of self }
    {
        match self {
            Found::Nothing => None,
            Found::Known(route) | Found::NotCloned(route) | Found::Cloned(route) => Some(route),
        }
    }
}

/// Adds the clone of a route for an address. EEXIST: a route with its key and rank is there. It doesn't settle its
/// gateway.
pub fn resolve(
    table: &mut Table<PackedRoute>,
    spare: &mut Spare,
    address: Inet,
    parent: &Route,
) -> Result<Entry<Route>, Errno>
    requires fits { FitsSpare table.old spare.old }
    requires rooms { 1 ≤ length spare.old }
    ensures clone { result ≡ resolved address parent.now table.old.entries }
    ensures added { IfOk result (λ clone. table.new.entries ≡ with_entry clone table.old.entries) }
    ensures kept { OnErr result (table.new.entries ≡ table.old.entries) }
    ensures rooms { OnErr result (KeepsRooms table.old table.new) }
    ensures spare { OnErr result (spare.new ≡ spare.old) }
    ensures stands { IfOk result (λ clone. StandsIn table.new.entries clone) }
    ensures keeps { KeepsRoutes table.old.entries table.new.entries }
    ensures of { KeepsAreOfWith parent.now.ifa table.old.entries table.new.entries }
    ensures next { table.new.next ≡ table.old.next }
    ensures fits { FitsSpare table.new spare.new }
    ensures used { length spare.old ≤ length spare.new + 1 }
{
    let (value, rank) = clone_of(parent);
    let key = masked(address, rank);
    let clone = Entry { key, rank, value };
    place(table, spare, &clone)?;
    Ok(clone)
}

/// Looks up an address, and adds the clone of its route where it makes one.
fn find(table: &mut Table<PackedRoute>, spare: &mut Spare, about: Gate) -> Found
    requires fits { FitsSpare table.old spare.old }
    requires rooms { 1 ≤ length spare.old }
    ensures found { result ≡ found about table.old.entries }
    ensures table { table.new.entries ≡ with_clone result table.old.entries }
    ensures stands { IfSome (answer_of result) (λ r. StandsIn table.new.entries r) }
    ensures keeps { KeepsRoutes table.old.entries table.new.entries }
    ensures of { KeepsAreOf table.old.entries table.new.entries }
    ensures next { table.new.next ≡ table.old.next }
    ensures fits { FitsSpare table.new spare.new }
    ensures used { length spare.old ≤ length spare.new + 1 }
{
    let Gate::Inet(address) = about else {
        return Found::Nothing;
    };
    let mut visits = table.begin();
    let Some(parent) = best_route(table, &mut visits, address) else {
        return Found::Nothing;
    };
    if !parent.value.has(RTF_CLONING) {
        return Found::Known(parent);
    }
    match resolve(table, spare, address, &parent.value) {
        Ok(clone) => Found::Cloned(clone),
        Err(_) => Found::NotCloned(parent),
    }
}

/// Appends what is told of what a look-up found.
fn tell(about: &Gate, found: &Found, messages: &mut Notices)
    requires { length messages.old.items ≤ 1 }
    ensures messages { messages.new.items ≡ messages.old.items ++ told about.now found.now }
    ensures few { length messages.new.items ≤ length messages.old.items + 1 }
{
    match found {
        Found::Nothing => messages.push(Notice::Miss {
            about: *about,
            errno: None,
        }),
        Found::Known(_) => {}
        Found::NotCloned(_) => messages.push(Notice::Miss {
            about: *about,
            errno: Some(Errno::EEXIST),
        }),
        Found::Cloned(clone) => {
            if clone.value.has(RTF_XRESOLVE) {
                messages.push(Notice::Resolve { about: *about });
            }
        }
    }
}

/// Settles the gateway of a route: where the route leads over one, that is looked up, and cloned where it has to be.
/// The messages are those of this look-up.
pub fn settle_gateway(table: &mut Table<PackedRoute>, spare: &mut Spare, route: &Route) -> Notices
    requires fits { FitsSpare table.old spare.old }
    requires rooms { leads_over route.now ≡ true → 1 ≤ length spare.old }
    ensures table { table.new.entries ≡ (settle route.now table.old.entries).table }
    ensures messages { result.items ≡ (settle route.now table.old.entries).messages }
    ensures few { length result.items ≤ 1 }
    ensures keeps { KeepsRoutes table.old.entries table.new.entries }
    ensures of { KeepsAreOf table.old.entries table.new.entries }
    ensures next { table.new.next ≡ table.old.next }
    ensures fits { FitsSpare table.new spare.new }
    ensures used { length spare.old ≤ length spare.new + 1 }
{
    let mut messages = Notices::new();
    if route.has(RTF_GATEWAY) {
        let found = find(table, spare, route.gateway);
        tell(&route.gateway, &found, &mut messages);
    }
    messages
}

/// Settles the gateway of a clone that a deep look-up made.
fn settle_found(
    table: &mut Table<PackedRoute>,
    spare: &mut Spare,
    found: &Found,
    deep: bool,
) -> Notices
    requires fits { FitsSpare table.old spare.old }
    requires rooms { deep ≡ true → 1 ≤ length spare.old }
    ensures table { table.new.entries ≡ (settled deep found.now table.old.entries).table }
    ensures messages { result.items ≡ (settled deep found.now table.old.entries).messages }
    ensures few { length result.items ≤ (if deep then 1 else 0) }
    ensures keeps { KeepsRoutes table.old.entries table.new.entries }
    ensures of { KeepsAreOf table.old.entries table.new.entries }
    ensures next { table.new.next ≡ table.old.next }
    ensures fits { FitsSpare table.new spare.new }
    ensures used { length spare.old ≤ length spare.new + (if deep then 1 else 0) }
{
    match found {
        Found::Cloned(clone) if deep => settle_gateway(table, spare, &clone.value),
        _ => Notices::new(),
    }
}

/// Looks up an address, and tells the sockets where it finds no route, can't clone, or wants a clone resolved
/// (`rtalloc1` of 4.4BSD with its report). A deep look-up settles the gateway of the clone that it makes.
pub fn look_up(table: &mut Table<PackedRoute>, spare: &mut Spare, about: Gate, deep: bool) -> Looked
    requires fits { FitsSpare table.old spare.old }
    requires rooms { (if deep then 2 else 1) ≤ length spare.old }
    ensures look { look deep about table.old.entries
        ≡ record { answer = result.answer; table = table.new.entries; messages = result.messages.items } }
    ensures few { length result.messages.items ≤ (if deep then 2 else 1) }
    ensures stands { IfSome result.answer (λ r. StandsIn table.new.entries r) }
    ensures ifa { IfSome result.answer (λ r. HasIfaOf table.old.entries r) }
    ensures keeps { KeepsRoutes table.old.entries table.new.entries }
    ensures of { KeepsAreOf table.old.entries table.new.entries }
    ensures next { table.new.next ≡ table.old.next }
    ensures fits { FitsSpare table.new spare.new }
    ensures used { length spare.old ≤ length spare.new + (if deep then 2 else 1) }
{
    let found = find(table, spare, about);
    let mut messages = settle_found(table, spare, &found, deep);
    tell(&about, &found, &mut messages);
    let answer = found.answer();
    Looked { answer, messages }
}
