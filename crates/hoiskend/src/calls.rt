//! The functions over a handle that the library exports. Given a closed one each answers EINVAL, and does nothing.
ghost use Rattle.std.specs.Prelude.{◌≡◌, ◌-◌, ◌^◌, Some, None, IfOk, is_err, length, min, unwrap_or};
ghost use Rattle.event_file.specs.Given.{given};
ghost use Rattle.listeners.specs.Queue.{joined};
ghost use Rattle.memory.specs.Refusing.{Rises};
ghost use Rattle.route_core.specs.declared.command.Command.TheVariants.{Dump, DumpSize, Losing, Packet};
ghost use Rattle.hoiskend.specs.Asked.{
  attach_asked,
  add_address_asked,
  remove_address_asked,
  listen_asked,
  shut_asked,
  loopback_asked,
  write_asked,
  read_asked,
  lost_asked,
  redirect_asked,
  far_in,
  filter_in,
};
ghost use Rattle.hoiskend.specs.Sessions.{Asks, Says, Calls, Opens, fresh, heard_by, route_in, size_in, text_by, told_for};
ghost use Rattle.hoiskend.specs.Shown.{is_want_of_memory};

use crate::count::Count;
use crate::held::Held;
use crate::{Handle, Opening, Route, asked};
use memory::Memory;
use route_core::Said;
use sock_addrs::{Errno, Inet};
use std::alloc::{AllocError, Global};
use std_alloc::room::Vacant;

/// Opens an empty world. EEXIST: it is open; ENOBUFS: there is no memory, and it stays closed.
#[unsafe(no_mangle)]
pub extern "C" fn hk_open(alloc: Global, world: &mut Opening) -> u32
    ensures opens { Opens world.old.handle.session result world.new.handle.session }
    ensures counted { Rises (is_want_of_memory result) 0 world.new.refused.number }
{
    let mut memory = Memory::new();
    let code = open(alloc, &mut world.handle, &mut memory);
    world.refused = Count::of(&memory);
    code
}

/// Opens an empty world, as `hk_open` does. Where it answers ENOBUFS, and only there, memory was refused, and counted.
fn open(alloc: Global, world: &mut Handle, memory: &mut Memory) -> u32
    ensures opens { Opens world.old.session result world.new.session }
    ensures counted { Rises (is_want_of_memory result) memory.old memory.new }
{
    if world.is_open() {
        return Errno::EEXIST.number();
    }
    match held_in_a_room(alloc, memory) {
        Ok((held, room)) => {
            world.lay(room, held);
            0
        }
        Err(refused) => Errno::from(refused).number(),
    }
}

/// What an open handle has, with an empty world, and a block of memory for it. `Err` where there is no memory for both,
/// which is counted.
fn held_in_a_room(
    alloc: Global,
    memory: &mut Memory,
) -> Result<(Held, Vacant<Held, Global>), AllocError>
    ensures fresh { IfOk result (λ both. both.0 ≡ fresh) }
    ensures counted { Rises (is_err result) memory.old memory.new }
{
    let held = Held::new(alloc, memory)?;
    let room = memory.block(alloc)?;
    Ok((held, room))
}

/// Closes a world, and frees all that it has. A closed one stays closed.
#[unsafe(no_mangle)]
pub extern "C" fn hk_close(alloc: Global, world: &mut Handle)
    ensures { world.new.session ≡ None }
{
    if !world.is_open() {
        return;
    }
    let (held, room) = world.lift(alloc);
    drop(held);
    let _ = room.free();
}

/// Attaches an interface: 0 broadcast, 1 loopback, 2 point-to-point. EINVAL: a name that is none, another kind, or more
/// than 8 bytes of a link-layer address.
#[unsafe(no_mangle)]
pub extern "C" fn hk_attach_n(
    world: &mut Handle,
    name: &[u8],
    kind: u8,
    type_number: u8,
    link: &[u8],
) -> u32
    ensures { Calls world.old.session (Asks (attach_asked name.now kind type_number link.now)) result
        world.new.session }
{
    obey(world, asked::attach(name, kind, type_number, link))
}

/// Gives an interface an address, with that of the other end where it has one. EINVAL: a name that is none, or a prefix
/// of more than 32 bits.
#[unsafe(no_mangle)]
pub extern "C" fn hk_add_address_n(
    world: &mut Handle,
    name: &[u8],
    address: u32,
    prefix: u8,
    cloning: bool,
    has_far: bool,
    far: u32,
) -> u32
    ensures { Calls world.old.session
        (Asks (add_address_asked name.now address prefix cloning (far_in has_far far))) result world.new.session }
{
    let said = asked::add_address(name, address, prefix, cloning, has_far, far);
    obey(world, said)
}

/// Removes an address of an interface. EINVAL: a name that is none.
#[unsafe(no_mangle)]
pub extern "C" fn hk_remove_address_n(world: &mut Handle, name: &[u8], address: u32) -> u32
    ensures { Calls world.old.session (Asks (remove_address_asked name.now address)) result world.new.session }
{
    obey(world, asked::remove_address(name, address))
}

/// Opens a socket. EINVAL: an id that is none.
#[unsafe(no_mangle)]
pub extern "C" fn hk_listen_n(world: &mut Handle, id: &[u8], pid: u32, protocol: u8) -> u32
    ensures { Calls world.old.session (Asks (listen_asked id.now pid protocol)) result world.new.session }
{
    obey(world, asked::listen(id, pid, protocol))
}

/// Closes a socket. EINVAL: an id that is none.
#[unsafe(no_mangle)]
pub extern "C" fn hk_shut_n(world: &mut Handle, id: &[u8]) -> u32
    ensures { Calls world.old.session (Asks (shut_asked id.now)) result world.new.session }
{
    obey(world, asked::shut(id))
}

/// Turns loopback of a socket on or off. EINVAL: an id that is none.
#[unsafe(no_mangle)]
pub extern "C" fn hk_loopback_n(world: &mut Handle, id: &[u8], on: bool) -> u32
    ensures { Calls world.old.session (Asks (loopback_asked id.now on)) result world.new.session }
{
    obey(world, asked::loopback(id, on))
}

/// Writes a message to a socket. EINVAL: an id that is none, or more bytes than a command has.
#[unsafe(no_mangle)]
pub extern "C" fn hk_write_n(world: &mut Handle, id: &[u8], message: &[u8]) -> u32
    ensures { Calls world.old.session (Asks (write_asked id.now message.now)) result world.new.session }
{
    obey(world, asked::write(id, message))
}

/// Takes the messages of a socket, for `hk_fetch`. EINVAL: an id that is none.
#[unsafe(no_mangle)]
pub extern "C" fn hk_read_n(world: &mut Handle, id: &[u8]) -> u32
    ensures { Calls world.old.session (Asks (read_asked id.now)) result world.new.session }
{
    obey(world, asked::read(id))
}

/// How many messages a socket has lost. EINVAL: an id that is none.
#[unsafe(no_mangle)]
#[tactic(auto, unfolding(crate::specs::Sessions::Calls))]
pub extern "C" fn hk_lost_n(world: &mut Handle, id: &[u8], lost: &mut u64) -> u32
    ensures step { Calls world.old.session (Asks (lost_asked id.now)) result world.new.session }
    ensures lost { lost.new ≡ unwrap_or (told_for (lost_asked id.now) size_in world.new.session) lost.old }
{
    if !world.is_open() {
        return Errno::EINVAL.number();
    }
    let Some(said) = asked::lost(id) else {
        return Errno::EINVAL.number();
    };
    world.lend().session.size(&said, lost)
}

/// Finds the route of a packet, and counts its use. No text is made, and memory is asked for only where the route
/// clones.
#[unsafe(no_mangle)]
#[tactic(auto, unfolding(crate::specs::Sessions::Calls))]
pub extern "C" fn hk_packet(world: &mut Handle, destination: u32, route: &mut Route) -> u32
    ensures step { Calls world.old.session (Asks (Some (Packet destination))) result world.new.session }
    ensures route { route.new
        ≡ unwrap_or (told_for (Some (Packet destination)) route_in world.new.session) route.old }
{
    if !world.is_open() {
        return Errno::EINVAL.number();
    }
    world.lend().session.packet(Inet::new(destination), route)
}

/// Follows a redirect.
#[unsafe(no_mangle)]
pub extern "C" fn hk_redirect(
    world: &mut Handle,
    destination: u32,
    gateway: u32,
    author: u32,
) -> u32
    ensures { Calls world.old.session (Asks (Some (redirect_asked destination gateway author))) result
        world.new.session }
{
    obey(world, Some(asked::redirect(destination, gateway, author)))
}

/// Doubts the route of an address, as TCP does of one that seems dead.
#[unsafe(no_mangle)]
pub extern "C" fn hk_losing(world: &mut Handle, address: u32) -> u32
    ensures { Calls world.old.session (Asks (Some (Losing address))) result world.new.session }
{
    obey(world, Some(asked::losing(address)))
}

/// How many bytes to ask for a dump.
#[unsafe(no_mangle)]
#[tactic(auto, unfolding(crate::specs::Sessions::Calls))]
pub extern "C" fn hk_dump_size(
    world: &mut Handle,
    has_filter: bool,
    filter: u32,
    size: &mut u64,
) -> u32
    ensures step { Calls world.old.session (Asks (Some (DumpSize (filter_in has_filter filter)))) result
        world.new.session }
    ensures size { size.new ≡ unwrap_or
        (told_for (Some (DumpSize (filter_in has_filter filter))) size_in world.new.session) size.old }
{
    if !world.is_open() {
        return Errno::EINVAL.number();
    }
    let said = asked::dump_size(has_filter, filter);
    world.lend().session.size(&said, size)
}

/// Dumps routes into so many bytes, for `hk_fetch`.
#[unsafe(no_mangle)]
pub extern "C" fn hk_dump(world: &mut Handle, has_filter: bool, filter: u32, room: u32) -> u32
    ensures { Calls world.old.session (Asks (Some (Dump (filter_in has_filter filter) room))) result
        world.new.session }
{
    obey(world, Some(asked::dump(has_filter, filter, room)))
}

/// Takes a line of a script, without its newline. 0 where it is a comment or empty, and `BAD` where the grammar doesn't
/// have it.
#[unsafe(no_mangle)]
#[tactic(auto, unfolding(crate::specs::Sessions::Calls))]
pub extern "C" fn hk_line(world: &mut Handle, line: &[u8]) -> u32
    ensures { Calls world.old.session (Says line.now) result world.new.session }
{
    if !world.is_open() {
        return Errno::EINVAL.number();
    }
    world.lend().heed(line)
}

/// Puts the messages of the last answer to the front of `out`, where there is room for all of them, and answers how
/// many bytes they have.
#[unsafe(no_mangle)]
pub extern "C" fn hk_fetch(world: &mut Handle, out: &mut [u8]) -> usize
    ensures kept { world.new.session ≡ world.old.session }
    ensures size { result ≡ length (joined (heard_by world.old.session)) }
    ensures bytes { out.new ≡ given (joined (heard_by world.old.session)) out.old }
{
    if !world.is_open() {
        return 0;
    }
    world.lend().session.fetch(out)
}

/// Puts the text of the last answer to the front of `out`, where there is room for all of it, and answers how many
/// bytes it has, at most `usize::MAX`.
#[unsafe(no_mangle)]
pub extern "C" fn hk_text(world: &mut Handle, out: &mut [u8]) -> usize
    ensures kept { world.new.session ≡ world.old.session }
    ensures size { result ≡ min (length (text_by world.old.session)) (2 ^ 64 - 1) }
    ensures text { out.new ≡ given (text_by world.old.session) out.old }
{
    if !world.is_open() {
        return 0;
    }
    world.lend().session.text(out)
}

/// Gives the world of a handle a command; nothing is done where there is none.
#[tactic(auto, unfolding(crate::specs::Sessions::Calls))]
pub(crate) fn obey(world: &mut Handle, said: Option<Said<'_>>) -> u32
    ensures { Calls world.old.session (Asks said.entry) result world.new.session }
{
    if !world.is_open() {
        return Errno::EINVAL.number();
    }
    let Some(said) = said else {
        return Errno::EINVAL.number();
    };
    world.lend().session.obey(&said)
}
