//! Laws of messages: each function does nothing, and its contract is the law.

ghost use Rattle.std.specs.Prelude.{◌≡◌};
ghost use Rattle.route_msgs.specs.Examples.{addition, addition_header, announcement, announcement_header, announcement_addresses, bare, bare_parsed, change, change_header, change_parsed, question, question_parsed, answer, answer_header, network_addresses, short, short_parsed};
ghost use Rattle.route_msgs.specs.Headers.{ifa_message, route_message};
ghost use Rattle.route_msgs.specs.Patches.{ErrnoIsChanged, FlagsAreChanged, PidIsChanged};
ghost use Rattle.route_msgs.specs.Slots.{ReadsMessage};
ghost use Rattle.route_msgs.specs.Written.{IfaMessageIsLaidOut, NamedBitsAreAddresses, SockaddrsAreRead, WrittenIsRead};

use crate::bits::{
    RTA_AUTHOR, RTA_BRD, RTA_DST, RTA_GATEWAY, RTA_GENMASK, RTA_IFA, RTA_IFP, RTA_NETMASK,
};
use crate::flags::{
    IFA_ROUTE, RTF_BLACKHOLE, RTF_CLONING, RTF_DONE, RTF_DYNAMIC, RTF_GATEWAY, RTF_HOST,
    RTF_LLINFO, RTF_MASK, RTF_MODIFIED, RTF_PROTO1, RTF_PROTO2, RTF_REJECT, RTF_STATIC, RTF_UP,
    RTF_XRESOLVE,
};
use crate::inits::{
    RTV_EXPIRE, RTV_HOPCOUNT, RTV_MTU, RTV_RPIPE, RTV_RTT, RTV_RTTVAR, RTV_SPIPE, RTV_SSTHRESH,
};
use crate::kinds::{
    RTM_ADD, RTM_CHANGE, RTM_DELADDR, RTM_DELETE, RTM_GET, RTM_LOCK, RTM_LOSING, RTM_MISS,
    RTM_NEWADDR, RTM_REDIRECT, RTM_RESOLVE, RTM_VERSION,
};
use crate::places::{
    RTAX_AUTHOR, RTAX_BRD, RTAX_DST, RTAX_GATEWAY, RTAX_GENMASK, RTAX_IFA, RTAX_IFP, RTAX_MAX,
    RTAX_NETMASK,
};

/// A message about a route that was written is read as the header and the addresses that it was written from.
pub fn written_is_read()
    ensures { WrittenIsRead }
{}

/// Where a slot of such a message begins stand the bytes of its address.
pub fn sockaddrs_are_read()
    ensures { SockaddrsAreRead }
{}

/// A message about an interface's address that was written has its fields at their offsets, and its addresses behind
/// them.
pub fn ifa_message_is_laid_out()
    ensures { IfaMessageIsLaidOut }
{}

/// A message with one field changed is read with that field changed, and all else of it as before.
pub fn changes_one_field()
    ensures flags { FlagsAreChanged }
    ensures pid { PidIsChanged }
    ensures errno { ErrnoIsChanged }
{}

/// Of the field that names addresses, a bit is set exactly where its address is there.
pub fn named_bits_are_addresses()
    ensures { NamedBitsAreAddresses }
{}

/// Messages that are written, worked out: an address is announced, its route is added, then changed by a header of
/// which no two fields are the same, and a question for it is answered.
pub fn writing_by_example()
    ensures announcement { ifa_message announcement_header announcement_addresses ≡ announcement }
    ensures addition { route_message addition_header network_addresses ≡ addition }
    ensures change { route_message change_header network_addresses ≡ change }
    ensures answer { route_message answer_header network_addresses ≡ answer }
{}

/// Messages that are read, worked out: a question; one that ends where its destination would begin, which then isn't
/// there; one whose destination has the length 0, which is then one byte; and that change.
pub fn reading_by_example()
    ensures question { ReadsMessage question (Ok question_parsed) }
    ensures bare { ReadsMessage bare (Ok bare_parsed) }
    ensures short { ReadsMessage short (Ok short_parsed) }
    ensures change { ReadsMessage change (Ok change_parsed) }
{}

/// The version of a message, by its number in <net/route.h>.
pub fn version_by_number()
    ensures { RTM_VERSION ≡ 3 }
{}

/// The bits of the addrs field, by their numbers in <net/route.h>.
pub fn bits_by_number()
    ensures dst { RTA_DST ≡ 0x1 }
    ensures gateway { RTA_GATEWAY ≡ 0x2 }
    ensures netmask { RTA_NETMASK ≡ 0x4 }
    ensures genmask { RTA_GENMASK ≡ 0x8 }
    ensures ifp { RTA_IFP ≡ 0x10 }
    ensures ifa { RTA_IFA ≡ 0x20 }
    ensures author { RTA_AUTHOR ≡ 0x40 }
    ensures brd { RTA_BRD ≡ 0x80 }
{}

/// The places of addresses, by their numbers in <net/route.h>.
pub fn places_by_number()
    ensures dst { RTAX_DST ≡ 0 }
    ensures gateway { RTAX_GATEWAY ≡ 1 }
    ensures netmask { RTAX_NETMASK ≡ 2 }
    ensures genmask { RTAX_GENMASK ≡ 3 }
    ensures ifp { RTAX_IFP ≡ 4 }
    ensures ifa { RTAX_IFA ≡ 5 }
    ensures author { RTAX_AUTHOR ≡ 6 }
    ensures brd { RTAX_BRD ≡ 7 }
    ensures places { RTAX_MAX ≡ 8 }
{}

/// A route's flags, by their numbers in <net/route.h>, and an address's own in <net/if.h>.
pub fn flags_by_number()
    ensures up { RTF_UP ≡ 0x1 }
    ensures gateway { RTF_GATEWAY ≡ 0x2 }
    ensures host { RTF_HOST ≡ 0x4 }
    ensures reject { RTF_REJECT ≡ 0x8 }
    ensures dynamic { RTF_DYNAMIC ≡ 0x10 }
    ensures modified { RTF_MODIFIED ≡ 0x20 }
    ensures done { RTF_DONE ≡ 0x40 }
    ensures mask { RTF_MASK ≡ 0x80 }
    ensures cloning { RTF_CLONING ≡ 0x100 }
    ensures xresolve { RTF_XRESOLVE ≡ 0x200 }
    ensures llinfo { RTF_LLINFO ≡ 0x400 }
    ensures by_hand { RTF_STATIC ≡ 0x800 }
    ensures blackhole { RTF_BLACKHOLE ≡ 0x1000 }
    ensures proto2 { RTF_PROTO2 ≡ 0x4000 }
    ensures proto1 { RTF_PROTO1 ≡ 0x8000 }
    ensures routed { IFA_ROUTE ≡ 0x1 }
{}

/// The bits of the inits field, by their numbers in <net/route.h>.
pub fn inits_by_number()
    ensures mtu { RTV_MTU ≡ 0x1 }
    ensures hopcount { RTV_HOPCOUNT ≡ 0x2 }
    ensures expire { RTV_EXPIRE ≡ 0x4 }
    ensures recvpipe { RTV_RPIPE ≡ 0x8 }
    ensures sendpipe { RTV_SPIPE ≡ 0x10 }
    ensures ssthresh { RTV_SSTHRESH ≡ 0x20 }
    ensures rtt { RTV_RTT ≡ 0x40 }
    ensures rttvar { RTV_RTTVAR ≡ 0x80 }
{}

/// A message's types, by their numbers in <net/route.h>.
pub fn types_by_number()
    ensures add { RTM_ADD ≡ 1 }
    ensures delete { RTM_DELETE ≡ 2 }
    ensures change { RTM_CHANGE ≡ 3 }
    ensures get { RTM_GET ≡ 4 }
    ensures losing { RTM_LOSING ≡ 5 }
    ensures redirect { RTM_REDIRECT ≡ 6 }
    ensures miss { RTM_MISS ≡ 7 }
    ensures lock { RTM_LOCK ≡ 8 }
    ensures resolve { RTM_RESOLVE ≡ 11 }
    ensures newaddr { RTM_NEWADDR ≡ 12 }
    ensures deladdr { RTM_DELADDR ≡ 13 }
{}
