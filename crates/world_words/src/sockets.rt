//! The open sockets.
ghost use Rattle.std.specs.Prelude.{◌≡◌, ◌++◌, OnOk, is_err};
ghost use Rattle.event_file.specs.Printed.{protocol_word, switch_word};
ghost use Rattle.listeners.specs.Told.{socket_told};
ghost use Rattle.memory.specs.Refusing.{Rises};
ghost use Rattle.world_words.specs.Sockets.{all_lines, line_at, lines_up_to, no_socket_line, socket_line, sockets_words, what_words, who_words};

use lab_text::Text;
use listeners::limits::MOST_SOCKETS;
use memory::Memory;
use route_core::{SocketTold, World};
use std::alloc::AllocError;

/// Appends a line for each open socket: its id, its process, the protocol that it hears, whether it hears the replies
/// to its own writes, how many bytes wait for it, and how many messages it lost. `Err`: there is no memory, which is
/// counted.
pub fn put_sockets(text: &mut Text, world: &World, memory: &mut Memory) -> Result<(), AllocError>
    ensures put { OnOk result (text.new ≡ text.old ++ sockets_words world.now) }
    ensures counted { Rises (is_err result) memory.old memory.new }
{
    put_whether_none(text, world, memory)?;
    put_all(text, world, memory)
}

/// Appends that no socket is open, where none is.
fn put_whether_none(text: &mut Text, world: &World, memory: &mut Memory) -> Result<(), AllocError>
    ensures put { OnOk result (text.new ≡ text.old ++ no_socket_line (socket_told 0 world.now.sockets)) }
    ensures counted { Rises (is_err result) memory.old memory.new }
{
    match world.socket(0) {
        None => text.put(b"no socket is open\n", memory),
        Some(_) => Ok(()),
    }
}

/// Appends the sockets in the order in which they were opened.
#[tactic(auto, unfolding(crate::specs::Sockets::all_lines))]
fn put_all(text: &mut Text, world: &World, memory: &mut Memory) -> Result<(), AllocError>
    ensures put { OnOk result (text.new ≡ text.old ++ all_lines world.now) }
    ensures counted { Rises (is_err result) memory.old memory.new }
{
    put_up_to(text, MOST_SOCKETS, world, memory)
}

/// Appends the first sockets, so many of them.
fn put_up_to(
    text: &mut Text,
    many: usize,
    world: &World,
    memory: &mut Memory,
) -> Result<(), AllocError>
    ensures put { OnOk result (text.new ≡ text.old ++ lines_up_to many world.now) }
    ensures counted { Rises (is_err result) memory.old memory.new }
{
    'sockets: for place in 0..many {
        put_at(text, place, world, memory)?;
    }
    Ok(())
}

/// Appends the socket at this place, where there is one.
fn put_at(
    text: &mut Text,
    place: usize,
    world: &World,
    memory: &mut Memory,
) -> Result<(), AllocError>
    ensures put { OnOk result (text.new ≡ text.old ++ line_at world.now place) }
    ensures counted { Rises (is_err result) memory.old memory.new }
{
    match world.socket(place) {
        None => Ok(()),
        Some(told) => put_line(text, &told, memory),
    }
}

/// Appends the line of a socket.
fn put_line(text: &mut Text, told: &SocketTold, memory: &mut Memory) -> Result<(), AllocError>
    ensures put { OnOk result (text.new ≡ text.old ++ socket_line told.now) }
    ensures counted { Rises (is_err result) memory.old memory.new }
{
    put_who(text, told, memory)?;
    put_what(text, told, memory)?;
    Ok(())
}

/// Appends which socket it is, and what it hears.
fn put_who(text: &mut Text, told: &SocketTold, memory: &mut Memory) -> Result<(), AllocError>
    ensures put { OnOk result (text.new ≡ text.old ++ who_words told.now) }
    ensures counted { Rises (is_err result) memory.old memory.new }
{
    text.put(told.id.as_bytes(), memory)?;
    text.put(b": pid ", memory)?;
    text.put_number(u64::from(told.pid), memory)?;
    text.put(b", protocol ", memory)?;
    put_protocol(text, told.protocol, memory)?;
    text.put(b", loopback ", memory)?;
    text.put(switch_name(told.loopback).as_bytes(), memory)?;
    text.put(b", bytes waiting ", memory)
}

/// Appends how much waits for it, and how much it lost.
fn put_what(text: &mut Text, told: &SocketTold, memory: &mut Memory) -> Result<(), AllocError>
    ensures put { OnOk result (text.new ≡ text.old ++ what_words told.now) }
    ensures counted { Rises (is_err result) memory.old memory.new }
{
    text.put_number(told.waiting as u64, memory)?;
    text.put(b", messages lost ", memory)?;
    text.put_number(told.lost, memory)?;
    text.put(b"\n", memory)
}

/// Appends a protocol, `any` for 0.
fn put_protocol(text: &mut Text, protocol: u8, memory: &mut Memory) -> Result<(), AllocError>
    ensures put { OnOk result (text.new ≡ text.old ++ protocol_word protocol) }
    ensures counted { Rises (is_err result) memory.old memory.new }
{
    if protocol == 0 {
        return text.put(b"any", memory);
    }
    text.put_number(u64::from(protocol), memory)
}

/// `on` or `off`.
fn switch_name(on: bool) -> &'static str
    ensures { result.now ≡ switch_word on }
{
    if on { "on" } else { "off" }
}
