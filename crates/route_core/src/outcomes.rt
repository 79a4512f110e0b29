//! The requests that writes make, carried out.
ghost use Rattle.std.specs.Prelude.{◌≡◌, ◌⊎◌, ℕ, List, [], Ok, Err, IfOk, OnErr, OnOk, MatchResult, false, true};
ghost use Rattle.if_addrs.specs.Interfaces.{IsOf};
ghost use Rattle.listeners.specs.Queue.{IsMessage};
ghost use Rattle.memory.specs.Refusing.{Rises};
ghost use Rattle.route_msgs.specs.Headers.{header_in};
ghost use Rattle.route_ops.specs.Adding.{add as add_of};
ghost use Rattle.route_ops.specs.Changing.{change as change_of, lock as lock_of};
ghost use Rattle.route_ops.specs.Deleting.{route_to_delete, route_to_show};
ghost use Rattle.route_ops.specs.Standing.{AreOf, KeepsAreOf};
ghost use Rattle.sock_addrs.specs.Errno.{is_no_memory};
ghost use Rattle.sock_addrs.specs.declared.errno.Errno.TheVariants.{ENOBUFS};
ghost use Rattle.route_core.specs.Outcomes.{outcome_with};
ghost use Rattle.route_core.specs.declared.request.Request.TheVariants as asks;
ghost use Rattle.route_core.specs.Requests.{adding_outcome, delete_outcome, done_reply, get_outcome, interface_shown, lock_outcome, makes_room, outcome_of};

use crate::messages::{Shown, put_route_got};
use crate::request::{Asked, Request};
use if_addrs::{IfaRef, Interfaces};
use mask_table::Prefix;
use memory::Memory;
use radix_tree::Table;
use route_entries::{Blocks, PackedRoute};
use route_msgs::{Header, Message};
use route_ops::{
    Change, NewRoute, Notices, add_planned, change_planned, finish, plan_add, plan_change,
    prepare_rooms, request_delete, request_get, request_lock,
};
use sock_addrs::{Errno, Inet};

/// What a request that was done made.
#[derive(Drop)]
pub(crate) struct Done {
    /// The messages before its reply, in order.
    pub(crate) notices: Notices,
    /// Which message its reply is.
    pub(crate) reply: Reply,
}

/// Which message is the reply to a request that was done.
#[derive(Clone, Copy)]
pub(crate) enum Reply {
    /// The written message, as one that was done.
    Echoed,
    /// One that was made for it, as a GET's.
    Own,
}

impl Done {
    /// It told these messages, and its reply is the written one.
    fn told(notices: Notices) -> Done
        ensures notices { result.notices ≡ notices }
        ensures echoed { result.reply ≡ Reply.Echoed }
    {
        Done {
            notices,
            reply: Reply::Echoed,
        }
    }

    /// It told nothing but the reply.
    fn quiet(reply: Reply) -> Done
        ensures notices { result.notices.items ≡ [] }
        ensures reply { result.reply ≡ reply }
    {
        Done {
            notices: Notices::new(),
            reply,
        }
    }
}

/// Carries out what a process asks, and makes the reply in `own` where it isn't the written message. Refused as the
/// calls of `route_ops` say, or by ENOBUFS for want of memory, and no route is changed then.
pub(crate) fn carry_out(
    table: &mut Table<PackedRoute>,
    blocks: &mut Blocks,
    interfaces: &Interfaces,
    asked: &Asked,
    pid: u32,
    own: &mut Message,
    memory: &mut Memory,
) -> Result<Done, Errno>
    requires of { AreOf interfaces.now table.old.entries }
    ensures counted { Rises (is_no_memory result) memory.old memory.new }
    ensures outcome { (m : List ℕ) → asked.now.header ≡ header_in m → MatchResult result
        (λ d. outcome_of interfaces.now table.old.entries pid m asked.now.request
        ≡ Ok (outcome_with pid m table.new.entries d.notices.items d.reply own.new.items))
        (λ e. (outcome_of interfaces.now table.old.entries pid m asked.now.request ≡ Err e)
        ⊎ ((makes_room interfaces.now table.old.entries asked.now.request ≡ true) × (e ≡ ENOBUFS))) }
    ensures kept { OnErr result (table.new.entries ≡ table.old.entries) }
    ensures message { IfOk result (λ d. d.reply ≡ Reply.Own → IsMessage own.new.items) }
    ensures of { AreOf interfaces.now table.new.entries }
{
    match &asked.request {
        Request::Add(route) => add(table, blocks, interfaces, route, memory),
        Request::Delete {
            key,
            netmask,
            flags,
        } => delete(table, *key, *netmask, *flags),
        Request::Change(wanted) => change(table, blocks, interfaces, wanted, memory),
        Request::Lock {
            destination,
            netmask,
            inits,
            locks,
        } => lock(table, *destination, *netmask, *inits, *locks),
        Request::Get {
            destination,
            shows_interface,
        } => get(
            table,
            interfaces,
            &asked.header,
            pid,
            *destination,
            *shows_interface,
            own,
        ),
    }
}

/// Adds a route. Refused as `request_add`, or by ENOBUFS for want of memory.
fn add(
    table: &mut Table<PackedRoute>,
    blocks: &mut Blocks,
    interfaces: &Interfaces,
    asked: &NewRoute,
    memory: &mut Memory,
) -> Result<Done, Errno>
    requires of { AreOf interfaces.now table.old.entries }
    ensures counted { Rises (is_no_memory result) memory.old memory.new }
    ensures outcome { (pid : ℕ) (m own : List ℕ) → MatchResult result
        (λ d. adding_outcome (done_reply pid m) (add_of asked.now interfaces.now table.old.entries)
        ≡ Ok (outcome_with pid m table.new.entries d.notices.items d.reply own))
        (λ e. (adding_outcome (done_reply pid m) (add_of asked.now interfaces.now table.old.entries) ≡ Err e)
        ⊎ ((makes_room interfaces.now table.old.entries (asks.Add asked.now) ≡ true) × (e ≡ ENOBUFS))) }
    ensures kept { OnErr result (table.new.entries ≡ table.old.entries) }
    ensures echoed { IfOk result (λ d. d.reply ≡ Reply.Echoed) }
    ensures of { AreOf interfaces.now table.new.entries }
{
    let mut visits = table.begin();
    let route = match plan_add(table, &mut visits, interfaces, asked) {
        Ok(route) => route,
        Err(errno) => return Err(errno),
    };
    let mut spare = prepare_rooms(table, asked.rooms(), blocks, memory)?;
    let messages = add_planned(table, &mut spare, &route);
    finish(table, blocks, spare);
    Ok(Done::told(messages))
}

/// Changes a route. Refused as `request_change`, or by ENOBUFS for want of memory.
fn change(
    table: &mut Table<PackedRoute>,
    blocks: &mut Blocks,
    interfaces: &Interfaces,
    asked: &Change,
    memory: &mut Memory,
) -> Result<Done, Errno>
    requires of { AreOf interfaces.now table.old.entries }
    ensures counted { Rises (is_no_memory result) memory.old memory.new }
    ensures outcome { (pid : ℕ) (m own : List ℕ) → MatchResult result
        (λ d. adding_outcome (done_reply pid m) (change_of asked.now interfaces.now table.old.entries)
        ≡ Ok (outcome_with pid m table.new.entries d.notices.items d.reply own))
        (λ e. (adding_outcome (done_reply pid m) (change_of asked.now interfaces.now table.old.entries) ≡ Err e)
        ⊎ ((makes_room interfaces.now table.old.entries (asks.Change asked.now) ≡ true) × (e ≡ ENOBUFS))) }
    ensures kept { OnErr result (table.new.entries ≡ table.old.entries) }
    ensures echoed { IfOk result (λ d. d.reply ≡ Reply.Echoed) }
    ensures of { AreOf interfaces.now table.new.entries }
{
    let mut visits = table.begin();
    let route = match plan_change(table, &mut visits, interfaces, asked) {
        Ok(route) => route,
        Err(errno) => return Err(errno),
    };
    let packed = blocks.pack(&route.value, memory)?;
    let mut spare = prepare_rooms(table, asked.rooms(), blocks, memory)?;
    let messages = change_planned(table, &mut spare, asked.gateway, &route, packed);
    finish(table, blocks, spare);
    Ok(Done::told(messages))
}

/// Deletes a route. Refused as `request_delete`.
fn delete(
    table: &mut Table<PackedRoute>,
    key: Inet,
    netmask: Option<Prefix>,
    flags: u16,
) -> Result<Done, Errno>
    ensures outcome { (pid : ℕ) (m own : List ℕ) → MatchResult result
        (λ d. delete_outcome table.old.entries (done_reply pid m)
        (route_to_delete key netmask flags table.old.entries)
        ≡ Ok (outcome_with pid m table.new.entries d.notices.items d.reply own))
        (λ e. delete_outcome table.old.entries (done_reply pid m)
        (route_to_delete key netmask flags table.old.entries)
        ≡ Err e) }
    ensures kept { OnErr result (table.new.entries ≡ table.old.entries) }
    ensures echoed { IfOk result (λ d. d.reply ≡ Reply.Echoed) }
    ensures of { KeepsAreOf table.old.entries table.new.entries }
{
    request_delete(table, key, netmask, flags)?;
    Ok(Done::quiet(Reply::Echoed))
}

/// Locks and unlocks metrics of a route. Refused as `request_lock`.
fn lock(
    table: &mut Table<PackedRoute>,
    destination: Inet,
    netmask: Option<Prefix>,
    inits: u32,
    locks: u32,
) -> Result<Done, Errno>
    ensures outcome { (pid : ℕ) (m own : List ℕ) → MatchResult result
        (λ d. lock_outcome table.old.entries (done_reply pid m)
        (lock_of destination netmask inits locks table.old.entries)
        ≡ Ok (outcome_with pid m table.new.entries d.notices.items d.reply own))
        (λ e. lock_outcome table.old.entries (done_reply pid m)
        (lock_of destination netmask inits locks table.old.entries)
        ≡ Err e) }
    ensures memory { is_no_memory result ≡ false }
    ensures kept { OnErr result (table.new.entries ≡ table.old.entries) }
    ensures echoed { IfOk result (λ d. d.reply ≡ Reply.Echoed) }
    ensures of { KeepsAreOf table.old.entries table.new.entries }
{
    match request_lock(table, destination, netmask, inits, locks) {
        Ok(_) => Ok(Done::quiet(Reply::Echoed)),
        Err(errno) => Err(errno),
    }
}

/// Shows a route in `own`, with its interface where that is asked for. Refused as `request_get`.
fn get(
    table: &mut Table<PackedRoute>,
    interfaces: &Interfaces,
    header: &Header,
    pid: u32,
    destination: Inet,
    shows_interface: bool,
    own: &mut Message,
) -> Result<Done, Errno>
    requires of { AreOf interfaces.now table.old.entries }
    ensures outcome { (m : List ℕ) → header.now ≡ header_in m → MatchResult result
        (λ d. get_outcome interfaces.now table.old.entries pid m shows_interface
        (route_to_show destination table.old.entries)
        ≡ Ok (outcome_with pid m table.new.entries d.notices.items d.reply own.new.items))
        (λ e. get_outcome interfaces.now table.old.entries pid m shows_interface
        (route_to_show destination table.old.entries)
        ≡ Err e) }
    ensures message { OnOk result (IsMessage own.new.items) }
    ensures memory { is_no_memory result ≡ false }
    ensures kept { table.new.entries ≡ table.old.entries }
{
    let mut visits = table.begin();
    let route = match request_get(table, &mut visits, destination) {
        Ok(route) => route,
        Err(errno) => return Err(errno),
    };
    let shown = shown(interfaces, header.index, route.value.ifa, shows_interface);
    put_route_got(header, pid, &shown, &route, own);
    Ok(Done::quiet(Reply::Own))
}

/// What a GET shows of the interface of a route: that interface where it is asked for, and otherwise the written
/// number.
fn shown(interfaces: &Interfaces, written: u16, ifa: IfaRef, shows_interface: bool) -> Shown
    requires { IsOf ifa interfaces.now }
    ensures { result ≡ interface_shown interfaces.now written ifa shows_interface }
{
    if !shows_interface {
        return Shown {
            index: written,
            ifp: None,
            ifa: None,
        };
    }
    let index = interfaces.interface_of(ifa);
    Shown {
        index,
        ifp: Some(interfaces.link_text(index)),
        ifa: Some(interfaces.text_of(ifa)),
    }
}
