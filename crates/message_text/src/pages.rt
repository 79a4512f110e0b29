//! The room that a text is put into before it is kept: it is taken from there when the next line may have no room, so
//! that a text that isn't long asks for memory once, and for no more than it has.
ghost use Rattle.std.specs.Prelude.{◌≡◌, ◌+◌, ◌≤◌, ◌++◌, IfOk, OnOk, length, is_err};
ghost use Rattle.hex.specs.Hex.{encode_lower};
ghost use Rattle.memory.specs.Refusing.{Rises};
ghost use Rattle.message_text.specs.Room.{so_far};

use crate::hexadecimal::put_hex;
use crate::room::put;
use memory::Memory;
use std::alloc::AllocError;

/// The room, in bytes: it has a header and the line of an address behind it.
pub(crate) const ROOM: usize = 1536;

/// The most bytes of the line of an address.
pub(crate) const LINE: usize = 592;

/// The most bytes that are shown in hexadecimal at once.
const PIECE: usize = 256;

/// Makes room for a line. What stands there is taken where too little is left behind it.
#[inline(always)]
#[tactic(auto, unfolding(crate::specs::Room::written))]
pub(crate) fn make_room(
    out: &mut Vec<u8>,
    room: &[u8],
    at: usize,
    memory: &mut Memory,
) -> Result<usize, AllocError>
    requires size { length room.now ≡ ROOM }
    requires place { at ≤ ROOM }
    ensures text { IfOk result (λ end. so_far out.new.items room.now end ≡ so_far out.old.items room.now at) }
    ensures left { IfOk result (λ end. end + LINE ≤ ROOM) }
    ensures counted { Rises (is_err result) memory.old memory.new }
{
    if at + LINE <= ROOM {
        return Ok(at);
    }
    take_all(out, room, at, memory)?;
    Ok(0)
}

/// Takes what stands there.
#[tactic(auto, unfolding(crate::specs::Room::written))]
pub(crate) fn take_all(
    out: &mut Vec<u8>,
    room: &[u8],
    at: usize,
    memory: &mut Memory,
) -> Result<(), AllocError>
    requires size { length room.now ≡ ROOM }
    requires place { at ≤ ROOM }
    ensures text { OnOk result (out.new.items ≡ so_far out.old.items room.now at) }
    ensures counted { Rises (is_err result) memory.old memory.new }
{
    memory.extend(out, &room[..at])
}

/// Puts bytes in hexadecimal, however many these are.
pub(crate) fn put_long_hex(
    bytes: &[u8],
    out: &mut Vec<u8>,
    room: &mut [u8],
    at: usize,
    memory: &mut Memory,
) -> Result<usize, AllocError>
    requires size { length room.old ≡ ROOM }
    requires place { at ≤ ROOM }
    ensures text { IfOk result (λ end. so_far out.new.items room.new end
        ≡ so_far out.old.items room.old at ++ encode_lower bytes.now) }
    ensures place { IfOk result (λ end. end ≤ ROOM) }
    ensures counted { Rises (is_err result) memory.old memory.new }
{
    let mut rest = bytes;
    let mut end = at;
    while !rest.is_empty() {
        let (piece, behind) = rest.split_at(rest.len().min(PIECE));
        let begin = make_room(out, room, end, memory)?;
        end = put_hex(piece, room, begin);
        rest = behind;
    }
    Ok(end)
}

/// Puts bytes in hexadecimal, however many these are, with a name before them and an end behind them.
pub(crate) fn put_named_hex(
    name: &[u8],
    bytes: &[u8],
    end: &[u8],
    out: &mut Vec<u8>,
    room: &mut [u8],
    at: usize,
    memory: &mut Memory,
) -> Result<usize, AllocError>
    requires name { length name.now ≤ 40 }
    requires end { length end.now ≤ 40 }
    requires size { length room.old ≡ ROOM }
    requires place { at ≤ ROOM }
    ensures text { IfOk result (λ behind. so_far out.new.items room.new behind
        ≡ so_far out.old.items room.old at ++ (name.now ++ encode_lower bytes.now ++ end.now)) }
    ensures place { IfOk result (λ behind. behind ≤ ROOM) }
    ensures counted { Rises (is_err result) memory.old memory.new }
{
    let begin = make_room(out, room, at, memory)?;
    let digits = put(name, room, begin);
    let behind = put_long_hex(bytes, out, room, digits, memory)?;
    let last = make_room(out, room, behind, memory)?;
    Ok(put(end, room, last))
}
