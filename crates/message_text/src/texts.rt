ghost use Rattle.std.specs.Prelude.{◌≡◌, ◌≤◌, ◌++◌, if◌then◌else◌, IfOk, length, is_err};
ghost use Rattle.memory.specs.Refusing.{Rises};
ghost use Rattle.message_text.specs.Parts.{header_size as size_of_header, is_about_address as about_address};
ghost use Rattle.message_text.specs.Room.{so_far, written};
ghost use Rattle.message_text.specs.Rows.{rows_text};
ghost use Rattle.message_text.specs.Tables.{ifa_rows, route_rows};
ghost use Rattle.message_text.specs.Texts.{fault_text, message_text, text_of as text};

use crate::addresses::put_addresses;
use crate::headers::{put_ifa_header, put_route_header};
use crate::pages::{ROOM, make_room, put_named_hex, take_all};
use crate::parts::{addrs, body, fault_of, is_about_address};
use crate::room::put;
use memory::Memory;
use route_msgs::MsgErr;
use std::alloc::{AllocError, Global};

/// The text of a message, in lines of ASCII that each end in a newline: the type by its name and the other fields of
/// its header, and then its addresses, each by its name. Bytes that are no message are shown in hexadecimal, with the
/// first reason that holds: their length, their version, or an address that passes the end. Refused for want of memory
/// alone.
pub fn text_of(alloc: Global, message: &[u8]) -> Result<Vec<u8>, AllocError>
    ensures { IfOk result (λ shown. shown.items ≡ text message.now) }
{
    text_of_counted(alloc, message, &mut Memory::new())
}

/// The text of a message, as `text_of`, and a count of how often memory was refused for it.
pub fn text_of_counted(
    alloc: Global,
    message: &[u8],
    memory: &mut Memory,
) -> Result<Vec<u8>, AllocError>
    ensures text { IfOk result (λ shown. shown.items ≡ text message.now) }
    ensures counted { Rises (is_err result) memory.old memory.new }
{
    let mut out = Vec::new(alloc);
    let mut room = [0; ROOM];
    let end = match fault_of(message) {
        Some(fault) => put_fault(&fault, message, &mut out, &mut room, memory)?,
        None => put_message(message, &mut out, &mut room, memory)?,
    };
    take_all(&mut out, &room, end, memory)?;
    Ok(out)
}

/// Puts bytes that are no message, and the reason.
fn put_fault(
    fault: &MsgErr,
    message: &[u8],
    out: &mut Vec<u8>,
    room: &mut [u8],
    memory: &mut Memory,
) -> Result<usize, AllocError>
    requires { length room.old ≡ ROOM }
    ensures text { IfOk result (λ end. so_far out.new.items room.new end
        ≡ out.old.items ++ fault_text fault.now message.now) }
    ensures place { IfOk result (λ end. end ≤ ROOM) }
    ensures counted { Rises (is_err result) memory.old memory.new }
{
    let digits = put_named_hex(b"no message: ", message, b"\n ", out, room, 0, memory)?;
    let reason = make_room(out, room, digits, memory)?;
    let end = put(fault.text().as_bytes(), room, reason);
    Ok(put(b"\n", room, end))
}

/// Puts the header of a message to the front of the room, and answers where it ends.
fn put_header(message: &[u8], room: &mut [u8]) -> usize
    requires header { size_of_header message.now ≤ length message.now }
    requires size { length room.old ≡ ROOM }
    ensures text { written room.new result
        ≡ (if about_address message.now then rows_text ifa_rows message.now else rows_text route_rows message.now) }
    ensures place { result ≤ ROOM }
{
    if is_about_address(message) {
        put_ifa_header(message, room, 0)
    } else {
        put_route_header(message, room, 0)
    }
}

/// Puts a message: its header and its addresses.
fn put_message(
    message: &[u8],
    out: &mut Vec<u8>,
    room: &mut [u8],
    memory: &mut Memory,
) -> Result<usize, AllocError>
    requires header { size_of_header message.now ≤ length message.now }
    requires size { length room.old ≡ ROOM }
    ensures text { IfOk result (λ end. so_far out.new.items room.new end ≡ out.old.items ++ message_text message.now) }
    ensures place { IfOk result (λ end. end ≤ ROOM) }
    ensures counted { Rises (is_err result) memory.old memory.new }
{
    let at = put_header(message, room);
    put_addresses(addrs(message), body(message), out, room, at, memory)
}
