//! The two headers.
ghost use Rattle.std.specs.Prelude.{◌≡◌, ◌+◌, ◌≤◌, ◌++◌, length};
ghost use Rattle.message_text.specs.Room.{written};
ghost use Rattle.message_text.specs.Rows.{rows_text};
ghost use Rattle.message_text.specs.Tables.{ifa_field_rows, ifa_first_rows, ifa_rows, path_rows, route_addrs_rows, route_field_rows, route_first_rows, route_rows, time_rows};

use crate::names::put_kind;
use crate::rows::{
    put_addrs_line, put_errno_line, put_flags_line, put_ifa_flags_line, put_metric_bits_line,
    put_number, put_number_line, u8_at, u16_at, u32_at,
};

/// Puts the header of a message about a route.
pub(crate) fn put_route_header(message: &[u8], room: &mut [u8], at: usize) -> usize
    requires header { 76 ≤ length message.now }
    requires fits { at + 865 ≤ length room.old }
    ensures most { result ≤ at + 865 }
    ensures text { written room.new result ≡ written room.old at ++ rows_text route_rows message.now }
{
    let fields = put_first_line(message, room, at);
    let metrics = put_fields(message, room, fields);
    let times = put_path_metrics(message, room, metrics);
    let addrs = put_time_metrics(message, room, times);
    put_route_addrs(message, room, addrs)
}

/// Puts its first line.
#[tactic(auto, unfolding(crate::specs::Rows::rows_text, crate::specs::Tables::route_first_rows))]
fn put_first_line(message: &[u8], room: &mut [u8], at: usize) -> usize
    requires header { 76 ≤ length message.now }
    requires fits { at + 122 ≤ length room.old }
    ensures most { result ≤ at + 122 }
    ensures text { written room.new result ≡ written room.old at ++ rows_text route_first_rows message.now }
{
    let at = put_kind(u8_at(message, 3), room, at);
    let at = put_number(b": length ", u32::from(u16_at(message, 0)), b", ", room, at);
    let at = put_number(b"version ", u32::from(u8_at(message, 2)), b", ", room, at);
    let at = put_number(b"pid ", u32_at(message, 16), b", ", room, at);
    let at = put_number(b"seq ", u32_at(message, 20), b", ", room, at);
    put_number(b"index ", u32::from(u16_at(message, 4)), b"\n", room, at)
}

/// Puts its other fields but for the metrics.
#[tactic(auto, unfolding(crate::specs::Rows::rows_text, crate::specs::Tables::route_field_rows))]
fn put_fields(message: &[u8], room: &mut [u8], at: usize) -> usize
    requires header { 76 ≤ length message.now }
    requires fits { at + 447 ≤ length room.old }
    ensures most { result ≤ at + 447 }
    ensures text { written room.new result ≡ written room.old at ++ rows_text route_field_rows message.now }
{
    let at = put_flags_line(u32_at(message, 8), room, at);
    let at = put_errno_line(u32_at(message, 24), room, at);
    let at = put_number_line(b" use ", u32_at(message, 28), room, at);
    let at = put_number_line(b" padding ", u32::from(u16_at(message, 6)), room, at);
    let at = put_metric_bits_line(b" inits ", u32_at(message, 32), room, at);
    put_metric_bits_line(b" locks ", u32_at(message, 36), room, at)
}

/// Puts the metrics of its path.
#[tactic(auto, unfolding(crate::specs::Rows::rows_text, crate::specs::Tables::path_rows))]
fn put_path_metrics(message: &[u8], room: &mut [u8], at: usize) -> usize
    requires header { 76 ≤ length message.now }
    requires fits { at + 110 ≤ length room.old }
    ensures most { result ≤ at + 110 }
    ensures text { written room.new result ≡ written room.old at ++ rows_text path_rows message.now }
{
    let at = put_number_line(b" mtu ", u32_at(message, 40), room, at);
    let at = put_number_line(b" hopcount ", u32_at(message, 44), room, at);
    let at = put_number_line(b" expire ", u32_at(message, 48), room, at);
    let at = put_number_line(b" recvpipe ", u32_at(message, 52), room, at);
    put_number_line(b" sendpipe ", u32_at(message, 56), room, at)
}

/// Puts its other metrics.
#[tactic(auto, unfolding(crate::specs::Rows::rows_text, crate::specs::Tables::time_rows))]
fn put_time_metrics(message: &[u8], room: &mut [u8], at: usize) -> usize
    requires header { 76 ≤ length message.now }
    requires fits { at + 88 ≤ length room.old }
    ensures most { result ≤ at + 88 }
    ensures text { written room.new result ≡ written room.old at ++ rows_text time_rows message.now }
{
    let at = put_number_line(b" ssthresh ", u32_at(message, 60), room, at);
    let at = put_number_line(b" rtt ", u32_at(message, 64), room, at);
    let at = put_number_line(b" rttvar ", u32_at(message, 68), room, at);
    put_number_line(b" pksent ", u32_at(message, 72), room, at)
}

/// Puts the addresses that it names.
#[tactic(auto, unfolding(crate::specs::Rows::rows_text, crate::specs::Tables::route_addrs_rows))]
fn put_route_addrs(message: &[u8], room: &mut [u8], at: usize) -> usize
    requires header { 76 ≤ length message.now }
    requires fits { at + 98 ≤ length room.old }
    ensures most { result ≤ at + 98 }
    ensures text { written room.new result ≡ written room.old at ++ rows_text route_addrs_rows message.now }
{
    put_addrs_line(u32_at(message, 12), room, at)
}

/// Puts the header of a message about an interface's address.
pub(crate) fn put_ifa_header(message: &[u8], room: &mut [u8], at: usize) -> usize
    requires header { 20 ≤ length message.now }
    requires fits { at + 258 ≤ length room.old }
    ensures most { result ≤ at + 258 }
    ensures text { written room.new result ≡ written room.old at ++ rows_text ifa_rows message.now }
{
    let fields = put_ifa_first_line(message, room, at);
    put_ifa_fields(message, room, fields)
}

/// Puts its first line.
#[tactic(auto, unfolding(crate::specs::Rows::rows_text, crate::specs::Tables::ifa_first_rows))]
fn put_ifa_first_line(message: &[u8], room: &mut [u8], at: usize) -> usize
    requires header { 20 ≤ length message.now }
    requires fits { at + 100 ≤ length room.old }
    ensures most { result ≤ at + 100 }
    ensures text { written room.new result ≡ written room.old at ++ rows_text ifa_first_rows message.now }
{
    let at = put_kind(u8_at(message, 3), room, at);
    let at = put_number(b": length ", u32::from(u16_at(message, 0)), b", ", room, at);
    let at = put_number(b"version ", u32::from(u8_at(message, 2)), b", ", room, at);
    let at = put_number(b"index ", u32::from(u16_at(message, 12)), b", ", room, at);
    put_number(b"metric ", u32_at(message, 16), b"\n", room, at)
}

/// Puts its other fields.
#[tactic(auto, unfolding(crate::specs::Rows::rows_text, crate::specs::Tables::ifa_field_rows))]
fn put_ifa_fields(message: &[u8], room: &mut [u8], at: usize) -> usize
    requires header { 20 ≤ length message.now }
    requires fits { at + 158 ≤ length room.old }
    ensures most { result ≤ at + 158 }
    ensures text { written room.new result ≡ written room.old at ++ rows_text ifa_field_rows message.now }
{
    let at = put_ifa_flags_line(u32_at(message, 8), room, at);
    let at = put_number_line(b" padding ", u32::from(u16_at(message, 14)), room, at);
    put_addrs_line(u32_at(message, 4), room, at)
}
