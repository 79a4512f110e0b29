//! A header's fields, each with its name.
ghost use Rattle.std.specs.Prelude.{◌≡◌, ◌+◌, ◌≤◌, ◌++◌, ◌∷◌, ◌==◌, [], if◌then◌else◌, length, codes, decimal, slice_index};
ghost use Rattle.std.specs.Int.{w32, to_be_bytes};
ghost use Rattle.hex.specs.Hex.{encode_lower};
ghost use Rattle.route_msgs.specs.Layout.{number_at};
ghost use Rattle.message_text.specs.Names.{address_names, errno_name as name_of_errno, flag_names, ifa_flag_names, metric_names, names};
ghost use Rattle.message_text.specs.Room.{written};

use crate::hexadecimal::put_hex;
use crate::names::{
    errno_name, put_address_names, put_flag_names, put_ifa_flag_names, put_metric_names,
};
use crate::room::{put, put_decimal};
use byteorder::{BigEndian, ByteOrder};

/// The number in the byte at `at`.
#[tactic(auto, unfolding(route_msgs::specs::Layout::number_at))]
pub(crate) fn u8_at(message: &[u8], at: usize) -> u8
    requires { at + 1 ≤ length message.now }
    ensures number { result ≡ number_at at 1 message.now }
    ensures byte { result ≡ slice_index message.now at }
{
    message[at]
}

/// The number in the two bytes from `at` on, the highest first.
#[tactic(auto, unfolding(route_msgs::specs::Layout::number_at))]
pub(crate) fn u16_at(message: &[u8], at: usize) -> u16
    requires { at + 2 ≤ length message.now }
    ensures { result ≡ number_at at 2 message.now }
{
    BigEndian::read_u16(&message[at..])
}

/// The number in the four bytes from `at` on, the highest first.
#[tactic(auto, unfolding(route_msgs::specs::Layout::number_at))]
pub(crate) fn u32_at(message: &[u8], at: usize) -> u32
    requires { at + 4 ≤ length message.now }
    ensures { result ≡ number_at at 4 message.now }
{
    BigEndian::read_u32(&message[at..])
}

/// Puts a number in decimal, with its name before it and an end behind it.
#[inline(always)]
pub(crate) fn put_number(name: &[u8], number: u32, end: &[u8], room: &mut [u8], at: usize) -> usize
    requires name { length name.now ≤ 10 }
    requires end { length end.now ≤ 2 }
    requires fits { at + 22 ≤ length room.old }
    ensures most { result ≤ at + 22 }
    ensures text { written room.new result ≡ written room.old at ++ (name.now ++ decimal number ++ end.now) }
{
    let at = put(name, room, at);
    let at = put_decimal(number, room, at);
    put(end, room, at)
}

/// Puts the line of a number, where it isn't 0.
#[inline(always)]
pub(crate) fn put_number_line(name: &[u8], number: u32, room: &mut [u8], at: usize) -> usize
    requires name { length name.now ≤ 10 }
    requires fits { at + 22 ≤ length room.old }
    ensures most { result ≤ at + 22 }
    ensures text { written room.new result
        ≡ written room.old at ++ (if number == 0 then [] else name.now ++ decimal number ++ 10 ∷ []) }
{
    if number == 0 {
        return at;
    }
    put_number(name, number, b"\n", room, at)
}

/// Puts the line of an errno with its name, where it isn't 0.
pub(crate) fn put_errno_line(errno: u32, room: &mut [u8], at: usize) -> usize
    requires { at + 39 ≤ length room.old }
    ensures most { result ≤ at + 39 }
    ensures text { written room.new result ≡ written room.old at ++ (if errno == 0 then []
        else codes " errno " ++ decimal errno ++ 32 ∷ 40 ∷ name_of_errno errno ++ codes ")\n") }
{
    if errno == 0 {
        return at;
    }
    let at = put_number(b" errno ", errno, b" (", room, at);
    let at = put(errno_name(errno).as_bytes(), room, at);
    put(b")\n", room, at)
}

/// Puts a number in eight hexadecimal digits, with its name before it and `<` behind it.
#[inline(always)]
fn put_bits(name: &[u8], bits: u32, room: &mut [u8], at: usize) -> usize
    requires name { length name.now ≤ 7 }
    requires fits { at + 16 ≤ length room.old }
    ensures most { result ≤ at + 16 }
    ensures text { written room.new result
        ≡ written room.old at ++ (name.now ++ encode_lower (to_be_bytes w32 bits) ++ 60 ∷ []) }
{
    let at = put(name, room, at);
    let at = put_hex(&bits.to_be_bytes(), room, at);
    put(b"<", room, at)
}

/// Puts the line of a route's flags.
pub(crate) fn put_flags_line(flags: u32, room: &mut [u8], at: usize) -> usize
    requires { at + 168 ≤ length room.old }
    ensures most { result ≤ at + 168 }
    ensures text { written room.new result ≡ written room.old at
        ++ (codes " flags " ++ encode_lower (to_be_bytes w32 flags) ++ 60 ∷ names flag_names flags ++ codes ">\n") }
{
    let at = put_bits(b" flags ", flags, room, at);
    let at = put_flag_names(flags, room, at);
    put(b">\n", room, at)
}

/// Puts the line of the flags of an interface's address.
pub(crate) fn put_ifa_flags_line(flags: u32, room: &mut [u8], at: usize) -> usize
    requires { at + 38 ≤ length room.old }
    ensures most { result ≤ at + 38 }
    ensures text { written room.new result ≡ written room.old at
        ++ (codes " flags " ++ encode_lower (to_be_bytes w32 flags) ++ 60 ∷ names ifa_flag_names flags ++ codes ">\n") }
{
    let at = put_bits(b" flags ", flags, room, at);
    let at = put_ifa_flag_names(flags, room, at);
    put(b">\n", room, at)
}

/// Puts the line of the addresses that a message names.
pub(crate) fn put_addrs_line(addrs: u32, room: &mut [u8], at: usize) -> usize
    requires { at + 98 ≤ length room.old }
    ensures most { result ≤ at + 98 }
    ensures text { written room.new result ≡ written room.old at
        ++ (codes " addrs " ++ encode_lower (to_be_bytes w32 addrs) ++ 60 ∷ names address_names addrs ++ codes ">\n") }
{
    let at = put_bits(b" addrs ", addrs, room, at);
    let at = put_address_names(addrs, room, at);
    put(b">\n", room, at)
}

/// Puts the line of inits or of locks, where one is set.
pub(crate) fn put_metric_bits_line(name: &[u8], bits: u32, room: &mut [u8], at: usize) -> usize
    requires name { length name.now ≤ 7 }
    requires fits { at + 98 ≤ length room.old }
    ensures most { result ≤ at + 98 }
    ensures text { written room.new result ≡ written room.old at ++ (if bits == 0 then []
        else name.now ++ encode_lower (to_be_bytes w32 bits) ++ 60 ∷ names metric_names bits ++ codes ">\n") }
{
    if bits == 0 {
        return at;
    }
    let at = put_bits(name, bits, room, at);
    let at = put_metric_names(bits, room, at);
    put(b">\n", room, at)
}
