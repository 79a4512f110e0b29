//! The words of a `route` line, and the message that they compose.
ghost use Rattle.std.specs.Prelude.{◌≡◌, ◌+◌, ◌≤◌, ◌++◌, drop, length};
ghost use Rattle.route_msgs.specs.AddrInfo.{address_bytes, addrs_of};
ghost use Rattle.route_msgs.specs.Pasted.{pasted};
ghost use Rattle.event_file.specs.RouteWords.{addresses_named, bit_where, composed, header_said, kind_of, metrics_said, written_bits};

use mask_table::Prefix;
use route_msgs::bits::{RTA_DST, RTA_GATEWAY, RTA_GENMASK, RTA_IFA, RTA_IFP, RTA_NETMASK};
use route_msgs::inits::{
    RTV_EXPIRE, RTV_HOPCOUNT, RTV_MTU, RTV_RPIPE, RTV_RTT, RTV_RTTVAR, RTV_SPIPE, RTV_SSTHRESH,
};
use route_msgs::kinds::{RTM_ADD, RTM_CHANGE, RTM_DELETE, RTM_GET, RTM_LOCK};
use route_msgs::{
    ADDRESSES_OFFSET, Header, Message, Metrics, gate_bit, mask_bit, put_gate, put_inet, put_mask,
    put_route_header,
};
use sock_addrs::{Gate, Inet};

/// What a `route` line asks for.
#[derive(Clone, Copy, Debug, PartialEq, Eq)]
pub enum Verb {
    Add,
    Delete,
    Change,
    Get,
    Lock,
}

impl Verb {
    /// The type of its message.
    fn kind(self) -> u8
        ensures { result ≡ kind_of self }
    {
        match self {
            Verb::Add => RTM_ADD,
            Verb::Delete => RTM_DELETE,
            Verb::Change => RTM_CHANGE,
            Verb::Get => RTM_GET,
            Verb::Lock => RTM_LOCK,
        }
    }
}

/// The metrics that a `route` line sets, each where it is written.
#[derive(Clone, Copy, Debug, Default, PartialEq, Eq)]
pub struct MetricWords {
    pub mtu: Option<u32>,
    pub hopcount: Option<u32>,
    pub expire: Option<u32>,
    pub recvpipe: Option<u32>,
    pub sendpipe: Option<u32>,
    pub ssthresh: Option<u32>,
    pub rtt: Option<u32>,
    pub rttvar: Option<u32>,
}

impl MetricWords {
    /// The bits of those that are written.
    fn bits(&self) -> u32
        ensures { result ≡ written_bits self.now }
    {
        bit(self.mtu, RTV_MTU)
            + bit(self.hopcount, RTV_HOPCOUNT)
            + bit(self.expire, RTV_EXPIRE)
            + bit(self.recvpipe, RTV_RPIPE)
            + bit(self.sendpipe, RTV_SPIPE)
            + bit(self.ssthresh, RTV_SSTHRESH)
            + bit(self.rtt, RTV_RTT)
            + bit(self.rttvar, RTV_RTTVAR)
    }
}

/// The bit where the metric is written.
fn bit(metric: Option<u32>, bit: u32) -> u32
    ensures { result ≡ bit_where bit metric }
{
    if metric.is_some() { bit } else { 0 }
}

/// The words of a `route` line, but for the socket that it is written to: what is asked for, the destination, and the
/// options.
#[derive(Clone, Copy, Debug, PartialEq, Eq)]
pub struct RouteWords {
    /// The number by which the writer knows the reply.
    pub seq: u32,
    pub verb: Verb,
    pub destination: Inet,
    /// The mask of the destination, where it is written as `A/P` or `default`.
    pub netmask: Option<Prefix>,
    /// `via`
    pub gateway: Option<Gate>,
    pub genmask: Option<Prefix>,
    pub ifp: Option<Gate>,
    pub ifa: Option<Gate>,
    pub flags: u32,
    /// Bits of inits beside those of the metrics that are written.
    pub inits: u32,
    pub locks: u32,
    pub metrics: MetricWords,
}

/// The most bytes of a message that is composed: its header, an IPv4 address, two masks, and three addresses of either
/// kind.
pub(crate) const MOST_COMPOSED: usize = ADDRESSES_OFFSET + 16 + 2 * 8 + 3 * 32;

/// The message that the words of a `route` line compose: version 3, the verb's type, the addresses that are named,
/// and 0 in each field that no word names. At most 204 bytes.
pub fn compose(words: &RouteWords) -> Message
    ensures message { result.items ≡ composed words.now }
    ensures most { length result.items ≤ 204 }
{
    let mut room = [0; MOST_COMPOSED];
    let size = put_composed(words, &mut room);
    Message::try_from(&room[..size]).unwrap()
}

/// Puts the message that the words compose to the front of `room`, and answers how many bytes it takes.
pub(crate) fn put_composed(words: &RouteWords, room: &mut [u8]) -> usize
    requires { MOST_COMPOSED ≤ length room.old }
    ensures size { result ≡ length (composed words.now) }
    ensures most { result ≤ MOST_COMPOSED }
    ensures message { room.new ≡ composed words.now ++ drop result room.old }
{
    let size = put_addresses(words, room);
    put_route_header(&header(words), size as u16, addrs(words), room);
    size
}

/// Its header.
fn header(words: &RouteWords) -> Header
    ensures { result ≡ header_said words.now }
{
    Header {
        kind: words.verb.kind(),
        flags: words.flags,
        seq: words.seq,
        inits: words.inits | words.metrics.bits(),
        metrics: metrics(words),
        ..Header::default()
    }
}

/// Its metrics.
fn metrics(words: &RouteWords) -> Metrics
    ensures { result ≡ metrics_said words.now }
{
    let written = &words.metrics;
    Metrics {
        locks: words.locks,
        mtu: written.mtu.unwrap_or(0),
        hopcount: written.hopcount.unwrap_or(0),
        expire: written.expire.unwrap_or(0),
        recvpipe: written.recvpipe.unwrap_or(0),
        sendpipe: written.sendpipe.unwrap_or(0),
        ssthresh: written.ssthresh.unwrap_or(0),
        rtt: written.rtt.unwrap_or(0),
        rttvar: written.rttvar.unwrap_or(0),
        pksent: 0,
    }
}

/// The bits of the addresses that it names.
fn addrs(words: &RouteWords) -> u32
    ensures { result ≡ addrs_of (addresses_named words.now) }
{
    RTA_DST
        + gate_bit(&words.gateway, RTA_GATEWAY)
        + mask_bit(words.netmask.map(Prefix::bits), RTA_NETMASK)
        + mask_bit(words.genmask.map(Prefix::bits), RTA_GENMASK)
        + gate_bit(&words.ifp, RTA_IFP)
        + gate_bit(&words.ifa, RTA_IFA)
}

/// Puts the addresses that it names to their place, and answers where they end.
fn put_addresses(words: &RouteWords, room: &mut [u8]) -> usize
    requires { MOST_COMPOSED ≤ length room.old }
    ensures end { result ≡ ADDRESSES_OFFSET + length (address_bytes (addresses_named words.now)) }
    ensures most { result ≤ MOST_COMPOSED }
    ensures text { room.new ≡ pasted ADDRESSES_OFFSET (address_bytes (addresses_named words.now)) room.old }
{
    let gateway = put_inet(words.destination, room, ADDRESSES_OFFSET);
    let netmask = put_gate(&words.gateway, room, gateway);
    let genmask = put_mask(words.netmask.map(Prefix::bits), room, netmask);
    let ifp = put_mask(words.genmask.map(Prefix::bits), room, genmask);
    let ifa = put_gate(&words.ifp, room, ifp);
    put_gate(&words.ifa, room, ifa)
}
