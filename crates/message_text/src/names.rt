//! The names of types, errnos and bits.
ghost use Rattle.std.specs.Prelude.{◌≡◌, ◌+◌, ◌++◌, MatchOption, IfSome, Some, None, ◌≤◌, length, true};
ghost use Rattle.message_text.specs.Names.{address_names, errno_name as name_of_errno, errnos, flag_names, ifa_flag_names, first_after, high_flag_names, kind_text, kinds, low_flag_names, metric_names, name_among, name_of_bit, named, names, names_from, still_first};
ghost use Rattle.message_text.specs.Room.{written};

use crate::room::{put, put_decimal};
use route_msgs::bits::{
    RTA_AUTHOR, RTA_BRD, RTA_DST, RTA_GATEWAY, RTA_GENMASK, RTA_IFA, RTA_IFP, RTA_NETMASK,
};
use route_msgs::flags::{
    IFA_ROUTE, RTF_BLACKHOLE, RTF_CLONING, RTF_DONE, RTF_DYNAMIC, RTF_GATEWAY, RTF_HOST,
    RTF_LLINFO, RTF_MASK, RTF_MODIFIED, RTF_PROTO1, RTF_PROTO2, RTF_REJECT, RTF_STATIC, RTF_UP,
    RTF_XRESOLVE,
};
use route_msgs::inits::{
    RTV_EXPIRE, RTV_HOPCOUNT, RTV_MTU, RTV_RPIPE, RTV_RTT, RTV_RTTVAR, RTV_SPIPE, RTV_SSTHRESH,
};
use route_msgs::kinds::{
    RTM_ADD, RTM_CHANGE, RTM_DELADDR, RTM_DELETE, RTM_GET, RTM_LOCK, RTM_LOSING, RTM_MISS,
    RTM_NEWADDR, RTM_REDIRECT, RTM_RESOLVE,
};

/// The types of <net/route.h> that no message is made of.
const RTM_OLDADD: u8 = 9;

const RTM_OLDDEL: u8 = 10;

const RTM_IFINFO: u8 = 14;

/// The name of a type, where it has one.
fn kind_name(kind: u8) -> Option<&'static str>
    ensures name { MatchOption result (name_among kinds kind ≡ None) (λ name. name_among kinds kind ≡ Some name.now) }
    ensures short { IfSome result (λ name. length name.now ≤ 12) }
{
    match kind {
        RTM_ADD => Some("RTM_ADD"),
        RTM_DELETE => Some("RTM_DELETE"),
        RTM_CHANGE => Some("RTM_CHANGE"),
        RTM_GET => Some("RTM_GET"),
        RTM_LOSING => Some("RTM_LOSING"),
        RTM_REDIRECT => Some("RTM_REDIRECT"),
        RTM_MISS => Some("RTM_MISS"),
        RTM_LOCK => Some("RTM_LOCK"),
        RTM_OLDADD => Some("RTM_OLDADD"),
        RTM_OLDDEL => Some("RTM_OLDDEL"),
        RTM_RESOLVE => Some("RTM_RESOLVE"),
        RTM_NEWADDR => Some("RTM_NEWADDR"),
        RTM_DELADDR => Some("RTM_DELADDR"),
        RTM_IFINFO => Some("RTM_IFINFO"),
        _ => None,
    }
}

/// Puts a type by its name, and one without a name by its number.
pub(crate) fn put_kind(kind: u8, room: &mut [u8], at: usize) -> usize
    requires { at + 12 ≤ length room.old }
    ensures most { result ≤ at + 12 }
    ensures text { written room.new result ≡ written room.old at ++ kind_text kind }
{
    match kind_name(kind) {
        Some(name) => put(name.as_bytes(), room, at),
        None => put_decimal(u32::from(kind), room, at),
    }
}

/// The name of an errno, or `unknown`.
pub(crate) fn errno_name(errno: u32) -> &'static str
    ensures name { result.now ≡ name_of_errno errno }
    ensures short { length result.now ≤ 15 }
{
    match errno {
        3 => "ESRCH",
        6 => "ENXIO",
        9 => "EBADF",
        12 => "ENOMEM",
        17 => "EEXIST",
        22 => "EINVAL",
        24 => "EMFILE",
        28 => "ENOSPC",
        40 => "EMSGSIZE",
        43 => "EPROTONOSUPPORT",
        45 => "EOPNOTSUPP",
        48 => "EADDRINUSE",
        49 => "EADDRNOTAVAIL",
        51 => "ENETUNREACH",
        55 => "ENOBUFS",
        59 => "ETOOMANYREFS",
        65 => "EHOSTUNREACH",
        _ => "unknown",
    }
}

/// Puts a bit's name where the bit is set, behind a comma where it isn't the first. Answers where it ends, and whether
/// the next one is the first.
#[inline(always)]
#[tactic(auto, unfolding(crate::specs::Names::name_of_bit, crate::specs::Names::still_first))]
fn put_name(
    first: bool,
    number: u32,
    bit: u32,
    name: &[u8],
    room: &mut [u8],
    at: usize,
) -> (usize, bool)
    requires name { length name.now ≤ 9 }
    requires fits { at + 10 ≤ length room.old }
    ensures most { result.0 ≤ at + 10 }
    ensures text { written room.new result.0 ≡ written room.old at ++ name_of_bit first number (named bit name.now) }
    ensures first { result.1 ≡ still_first first number (named bit name.now) }
{
    if number & bit == 0 {
        return (at, first);
    }
    if !first {
        let behind = put(b",", room, at);
        return (put(name, room, behind), false);
    }
    (put(name, room, at), false)
}

/// Puts the names of the lower half of a route's flags. Answers where they end, and whether none of them is set.
#[tactic(auto, unfolding(crate::specs::Names::names_from, crate::specs::Names::first_after, crate::specs::Names::low_flag_names))]
fn put_low_flag_names(flags: u32, room: &mut [u8], at: usize) -> (usize, bool)
    requires { at + 80 ≤ length room.old }
    ensures most { result.0 ≤ at + 80 }
    ensures text { written room.new result.0 ≡ written room.old at ++ names_from true low_flag_names flags }
    ensures first { result.1 ≡ first_after true low_flag_names flags }
{
    let (at, first) = put_name(true, flags, u32::from(RTF_UP), b"UP", room, at);
    let (at, first) = put_name(first, flags, u32::from(RTF_GATEWAY), b"GATEWAY", room, at);
    let (at, first) = put_name(first, flags, u32::from(RTF_HOST), b"HOST", room, at);
    let (at, first) = put_name(first, flags, u32::from(RTF_REJECT), b"REJECT", room, at);
    let (at, first) = put_name(first, flags, u32::from(RTF_DYNAMIC), b"DYNAMIC", room, at);
    let (at, first) = put_name(first, flags, u32::from(RTF_MODIFIED), b"MODIFIED", room, at);
    let (at, first) = put_name(first, flags, u32::from(RTF_DONE), b"DONE", room, at);
    let (at, first) = put_name(first, flags, u32::from(RTF_MASK), b"MASK", room, at);
    (at, first)
}

/// Puts the names of the others.
#[tactic(auto, unfolding(crate::specs::Names::names_from, crate::specs::Names::high_flag_names))]
fn put_high_flag_names(first: bool, flags: u32, room: &mut [u8], at: usize) -> usize
    requires { at + 70 ≤ length room.old }
    ensures most { result ≤ at + 70 }
    ensures text { written room.new result ≡ written room.old at ++ names_from first high_flag_names flags }
{
    let (at, first) = put_name(first, flags, u32::from(RTF_CLONING), b"CLONING", room, at);
    let (at, first) = put_name(first, flags, u32::from(RTF_XRESOLVE), b"XRESOLVE", room, at);
    let (at, first) = put_name(first, flags, u32::from(RTF_LLINFO), b"LLINFO", room, at);
    let (at, first) = put_name(first, flags, u32::from(RTF_STATIC), b"STATIC", room, at);
    let (at, first) = put_name(
        first,
        flags,
        u32::from(RTF_BLACKHOLE),
        b"BLACKHOLE",
        room,
        at,
    );
    let (at, first) = put_name(first, flags, u32::from(RTF_PROTO2), b"PROTO2", room, at);
    let (at, _first) = put_name(first, flags, u32::from(RTF_PROTO1), b"PROTO1", room, at);
    at
}

/// Puts the names of a route's flags.
pub(crate) fn put_flag_names(flags: u32, room: &mut [u8], at: usize) -> usize
    requires { at + 150 ≤ length room.old }
    ensures most { result ≤ at + 150 }
    ensures text { written room.new result ≡ written room.old at ++ names flag_names flags }
{
    let (middle, first) = put_low_flag_names(flags, room, at);
    put_high_flag_names(first, flags, room, middle)
}

/// Puts the names of the flags of an interface's address.
#[tactic(auto, unfolding(crate::specs::Names::names_from, crate::specs::Names::ifa_flag_names))]
pub(crate) fn put_ifa_flag_names(flags: u32, room: &mut [u8], at: usize) -> usize
    requires { at + 20 ≤ length room.old }
    ensures most { result ≤ at + 20 }
    ensures text { written room.new result ≡ written room.old at ++ names ifa_flag_names flags }
{
    let (at, first) = put_name(true, flags, u32::from(IFA_ROUTE), b"ROUTE", room, at);
    let (at, _first) = put_name(first, flags, u32::from(RTF_CLONING), b"CLONING", room, at);
    at
}

/// Puts the names of metrics, of inits or of locks.
#[tactic(auto, unfolding(crate::specs::Names::names_from, crate::specs::Names::metric_names))]
pub(crate) fn put_metric_names(bits: u32, room: &mut [u8], at: usize) -> usize
    requires { at + 80 ≤ length room.old }
    ensures most { result ≤ at + 80 }
    ensures text { written room.new result ≡ written room.old at ++ names metric_names bits }
{
    let (at, first) = put_name(true, bits, RTV_MTU, b"MTU", room, at);
    let (at, first) = put_name(first, bits, RTV_HOPCOUNT, b"HOPCOUNT", room, at);
    let (at, first) = put_name(first, bits, RTV_EXPIRE, b"EXPIRE", room, at);
    let (at, first) = put_name(first, bits, RTV_RPIPE, b"RPIPE", room, at);
    let (at, first) = put_name(first, bits, RTV_SPIPE, b"SPIPE", room, at);
    let (at, first) = put_name(first, bits, RTV_SSTHRESH, b"SSTHRESH", room, at);
    let (at, first) = put_name(first, bits, RTV_RTT, b"RTT", room, at);
    let (at, _first) = put_name(first, bits, RTV_RTTVAR, b"RTTVAR", room, at);
    at
}

/// Puts the names of the addresses that a message names.
#[tactic(auto, unfolding(crate::specs::Names::names_from, crate::specs::Names::address_names))]
pub(crate) fn put_address_names(addrs: u32, room: &mut [u8], at: usize) -> usize
    requires { at + 80 ≤ length room.old }
    ensures most { result ≤ at + 80 }
    ensures text { written room.new result ≡ written room.old at ++ names address_names addrs }
{
    let (at, first) = put_name(true, addrs, RTA_DST, b"DST", room, at);
    let (at, first) = put_name(first, addrs, RTA_GATEWAY, b"GATEWAY", room, at);
    let (at, first) = put_name(first, addrs, RTA_NETMASK, b"NETMASK", room, at);
    let (at, first) = put_name(first, addrs, RTA_GENMASK, b"GENMASK", room, at);
    let (at, first) = put_name(first, addrs, RTA_IFP, b"IFP", room, at);
    let (at, first) = put_name(first, addrs, RTA_IFA, b"IFA", room, at);
    let (at, first) = put_name(first, addrs, RTA_AUTHOR, b"AUTHOR", room, at);
    let (at, _first) = put_name(first, addrs, RTA_BRD, b"BRD", room, at);
    at
}
