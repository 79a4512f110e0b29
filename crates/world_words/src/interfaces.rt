//! The interfaces with their addresses.
ghost use Rattle.std.specs.Prelude.{◌≡◌, ◌++◌, OnOk, is_err};
ghost use Rattle.event_file.specs.Printed.{inet_word};
ghost use Rattle.memory.specs.Refusing.{Rises};
ghost use Rattle.if_addrs.specs.Told.{interface_told};
ghost use Rattle.world_words.specs.Interfaces.{address_line, address_lines, all_lines, lines_up_to, far_words, interface_line, interfaces_words, kind_words, link_words, no_interface_line, numbered_lines, what_words, who_words, words_where};

use if_addrs::limits::MOST_INTERFACES;
use lab_text::Text;
use memory::Memory;
use route_core::{Facts, InterfaceTold, Kind, LinkAddress, World};
use sock_addrs::Inet;
use std::alloc::AllocError;

/// Appends the interfaces by their numbers, each with its name, kind, type and link-layer address, and a line for each
/// of its addresses: its network's length, its far end, and what its route is. `Err`: there is no memory, which is
/// counted.
pub fn put_interfaces(text: &mut Text, world: &World, memory: &mut Memory) -> Result<(), AllocError>
    ensures put { OnOk result (text.new ≡ text.old ++ interfaces_words world.now) }
    ensures counted { Rises (is_err result) memory.old memory.new }
{
    put_whether_none(text, world, memory)?;
    put_all(text, world, memory)
}

/// Appends that there is no interface, where there is none.
fn put_whether_none(text: &mut Text, world: &World, memory: &mut Memory) -> Result<(), AllocError>
    ensures put { OnOk result (text.new ≡ text.old ++ no_interface_line (interface_told 1 world.now.interfaces)) }
    ensures counted { Rises (is_err result) memory.old memory.new }
{
    match world.interface(1) {
        None => text.put(b"there is no interface\n", memory),
        Some(_) => Ok(()),
    }
}

/// Appends the interfaces by their numbers.
#[tactic(auto, unfolding(crate::specs::Interfaces::all_lines))]
fn put_all(text: &mut Text, world: &World, memory: &mut Memory) -> Result<(), AllocError>
    ensures put { OnOk result (text.new ≡ text.old ++ all_lines world.now) }
    ensures counted { Rises (is_err result) memory.old memory.new }
{
    put_up_to(text, MOST_INTERFACES as u16, world, memory)
}

/// Appends the first interfaces, so many of them.
fn put_up_to(
    text: &mut Text,
    many: u16,
    world: &World,
    memory: &mut Memory,
) -> Result<(), AllocError>
    ensures put { OnOk result (text.new ≡ text.old ++ lines_up_to many world.now) }
    ensures counted { Rises (is_err result) memory.old memory.new }
{
    'interfaces: for place in 0..many {
        put_interface(text, place + 1, world, memory)?;
    }
    Ok(())
}

/// Appends the interface with this number, where there is one.
fn put_interface(
    text: &mut Text,
    index: u16,
    world: &World,
    memory: &mut Memory,
) -> Result<(), AllocError>
    ensures put { OnOk result (text.new ≡ text.old ++ numbered_lines world.now index) }
    ensures counted { Rises (is_err result) memory.old memory.new }
{
    match world.interface(index) {
        None => Ok(()),
        Some(told) => {
            put_line(text, index, &told, memory)?;
            put_addresses(text, index, world, memory)
        }
    }
}

/// Appends the line of an interface.
fn put_line(
    text: &mut Text,
    index: u16,
    told: &InterfaceTold,
    memory: &mut Memory,
) -> Result<(), AllocError>
    ensures put { OnOk result (text.new ≡ text.old ++ interface_line index told.now) }
    ensures counted { Rises (is_err result) memory.old memory.new }
{
    put_who(text, index, told, memory)?;
    put_what(text, told, memory)
}

/// Appends its number, its name, and what it is.
fn put_who(
    text: &mut Text,
    index: u16,
    told: &InterfaceTold,
    memory: &mut Memory,
) -> Result<(), AllocError>
    ensures put { OnOk result (text.new ≡ text.old ++ who_words index told.now) }
    ensures counted { Rises (is_err result) memory.old memory.new }
{
    text.put_number(u64::from(index), memory)?;
    text.put(b" ", memory)?;
    text.put(told.name.as_bytes(), memory)?;
    text.put(b": ", memory)?;
    text.put(kind_name(told.kind).as_bytes(), memory)?;
    text.put(b", type ", memory)
}

/// Appends the number of its type, and its link-layer address.
fn put_what(text: &mut Text, told: &InterfaceTold, memory: &mut Memory) -> Result<(), AllocError>
    ensures put { OnOk result (text.new ≡ text.old ++ what_words told.now) }
    ensures counted { Rises (is_err result) memory.old memory.new }
{
    text.put_number(u64::from(told.type_number), memory)?;
    text.put(b", link-layer address ", memory)?;
    put_link(text, &told.link, memory)?;
    text.put(b"\n", memory)
}

/// What an interface is.
fn kind_name(kind: Kind) -> &'static str
    ensures { result.now ≡ kind_words kind }
{
    match kind {
        Kind::Broadcast => "broadcast",
        Kind::Loopback => "loopback",
        Kind::PointToPoint => "point-to-point",
    }
}

/// Appends a link-layer address, or `none`.
fn put_link(text: &mut Text, link: &LinkAddress, memory: &mut Memory) -> Result<(), AllocError>
    ensures put { OnOk result (text.new ≡ text.old ++ link_words link.now) }
    ensures counted { Rises (is_err result) memory.old memory.new }
{
    let bytes = link.as_slice();
    if bytes.is_empty() {
        return text.put(b"none", memory);
    }
    text.put_digits(bytes, memory)
}

/// Appends the addresses of the interface with this number, each on a line.
fn put_addresses(
    text: &mut Text,
    index: u16,
    world: &World,
    memory: &mut Memory,
) -> Result<(), AllocError>
    ensures put { OnOk result (text.new ≡ text.old ++ address_lines index world.now) }
    ensures counted { Rises (is_err result) memory.old memory.new }
{
    let mut place = 0;
    'addresses: while let Some(told) = world.next_address(index, place) {
        put_address(text, told.address, &told.facts, memory)?;
        place = told.next;
    }
    Ok(())
}

/// Appends the line of an address.
fn put_address(
    text: &mut Text,
    address: Inet,
    facts: &Facts,
    memory: &mut Memory,
) -> Result<(), AllocError>
    ensures put { OnOk result (text.new ≡ text.old ++ address_line address facts.now) }
    ensures counted { Rises (is_err result) memory.old memory.new }
{
    text.put(b"    ", memory)?;
    text.put_inet(address, memory)?;
    text.put(b"/", memory)?;
    text.put_number(u64::from(facts.prefix.bits()), memory)?;
    put_far(text, facts.kind, facts.far, memory)?;
    put_where(text, facts.cloning, b", cloning", memory)?;
    put_where(text, facts.routed, b", which brought a route", memory)?;
    text.put(b"\n", memory)
}

/// Appends the far address of an address on an interface of this kind, but its own.
fn put_far(text: &mut Text, kind: Kind, far: Inet, memory: &mut Memory) -> Result<(), AllocError>
    ensures put { OnOk result (text.new ≡ text.old ++ far_words kind far) }
    ensures counted { Rises (is_err result) memory.old memory.new }
{
    match kind {
        Kind::Broadcast => put_other(text, b", broadcast address ", far, memory),
        Kind::Loopback => Ok(()),
        Kind::PointToPoint => put_other(text, b", other end ", far, memory),
    }
}

/// Appends another address, behind what it is.
fn put_other(
    text: &mut Text,
    words: &[u8],
    other: Inet,
    memory: &mut Memory,
) -> Result<(), AllocError>
    ensures put { OnOk result (text.new ≡ text.old ++ (words.now ++ inet_word other)) }
    ensures counted { Rises (is_err result) memory.old memory.new }
{
    text.put(words, memory)?;
    text.put_inet(other, memory)
}

/// Appends words where something holds.
fn put_where(
    text: &mut Text,
    holds: bool,
    words: &[u8],
    memory: &mut Memory,
) -> Result<(), AllocError>
    ensures put { OnOk result (text.new ≡ text.old ++ words_where holds words.now) }
    ensures counted { Rises (is_err result) memory.old memory.new }
{
    if holds {
        text.put(words, memory)
    } else {
        Ok(())
    }
}
