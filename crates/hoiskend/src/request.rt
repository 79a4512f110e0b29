//! A request for a route as C spells it, and the words of a `route` line that say the same.
ghost use Rattle.std.specs.Prelude.{◌≡◌};
ghost use Rattle.event_file.specs.Words.{link_of_bytes};
ghost use Rattle.hoiskend.specs.Requests.{gate_in, link_in, mask_in, metric_in, metrics_in, words_asked};

use crate::route::LINK_BYTES;
use event_file::{MetricWords, RouteWords, Verb};
use mask_table::Prefix;
use route_msgs::inits::{
    RTV_EXPIRE, RTV_HOPCOUNT, RTV_MTU, RTV_RPIPE, RTV_RTT, RTV_RTTVAR, RTV_SPIPE, RTV_SSTHRESH,
};
use sock_addrs::families::{AF_INET, AF_LINK};
use sock_addrs::{Gate, Inet, Link};

/// The bits of no mask, which are the rank of a route without one.
pub const NO_MASK: u8 = 33;

/// What is asked of a route.
#[repr(C)]
#[derive(Clone, Copy)]
pub struct Request {
    /// Its key.
    pub destination: u32,
    /// The address of its gateway, where `family` is 2.
    pub gateway: u32,
    /// Its flags.
    pub flags: u32,
    /// The number by which the writer knows the reply.
    pub seq: u32,
    /// The bits of the metrics that are set.
    pub inits: u32,
    /// The bits of the metrics that are locked.
    pub locks: u32,
    pub mtu: u32,
    pub hopcount: u32,
    pub expire: u32,
    pub recvpipe: u32,
    pub sendpipe: u32,
    pub ssthresh: u32,
    pub rtt: u32,
    pub rttvar: u32,
    /// The bits of its mask, or 33 without one.
    pub prefix: u8,
    /// The bits of the mask of its clones, or 33 where none is named.
    pub genmask: u8,
    /// The family of its gateway: 2, or 18 where that is a link-layer address; 0 where none is named.
    pub family: u8,
    /// How many bytes a link-layer gateway has.
    pub link_n: u8,
    /// The bytes of a link-layer gateway.
    pub link: [u8; LINK_BYTES],
}

impl Request {
    /// The words of a `route` line with this verb that say the same, or `None` where a mask or the gateway is none.
    #[tactic(auto, unfolding(crate::specs::Requests::words_asked))]
    pub(crate) fn words(&self, verb: Verb) -> Option<RouteWords>
        ensures { result ≡ words_asked verb self.now }
    {
        Some(RouteWords {
            seq: self.seq,
            verb,
            destination: Inet::new(self.destination),
            netmask: mask_of(self.prefix)?,
            gateway: self.gate()?,
            genmask: mask_of(self.genmask)?,
            ifp: None,
            ifa: None,
            flags: self.flags,
            inits: self.inits,
            locks: self.locks,
            metrics: self.metrics(),
        })
    }

    /// The gateway, where one is named; `None` where it is none.
    fn gate(&self) -> Option<Option<Gate>>
        ensures { result ≡ gate_in self.now.family self.now.gateway (link_in self.now.link_n self.now.link) }
    {
        match self.family {
            0 => Some(None),
            AF_INET => Some(Some(Gate::Inet(Inet::new(self.gateway)))),
            AF_LINK => Some(Some(Gate::Link(self.link()?))),
            _ => None,
        }
    }

    /// The link-layer address, or `None` where the bytes are none.
    fn link(&self) -> Option<Link>
        ensures { result ≡ link_in self.now.link_n self.now.link }
    {
        let n = usize::from(self.link_n);
        if n > LINK_BYTES {
            return None;
        }
        link_of(&self.link[..n])
    }

    /// The metrics that are set.
    fn metrics(&self) -> MetricWords
        ensures { result ≡ metrics_in self.now }
    {
        MetricWords {
            mtu: metric(self.inits, RTV_MTU, self.mtu),
            hopcount: metric(self.inits, RTV_HOPCOUNT, self.hopcount),
            expire: metric(self.inits, RTV_EXPIRE, self.expire),
            recvpipe: metric(self.inits, RTV_RPIPE, self.recvpipe),
            sendpipe: metric(self.inits, RTV_SPIPE, self.sendpipe),
            ssthresh: metric(self.inits, RTV_SSTHRESH, self.ssthresh),
            rtt: metric(self.inits, RTV_RTT, self.rtt),
            rttvar: metric(self.inits, RTV_RTTVAR, self.rttvar),
        }
    }
}

/// A mask, where one is named; `None` where its bits are more than 32.
fn mask_of(bits: u8) -> Option<Option<Prefix>>
    ensures { result ≡ mask_in bits }
{
    if bits == NO_MASK {
        return Some(None);
    }
    Some(Some(Prefix::new(bits)?))
}

/// The link-layer address with these bytes.
fn link_of(bytes: &[u8]) -> Option<Link>
    ensures { result ≡ link_of_bytes bytes.now }
{
    Link::new(bytes)
}

/// A metric, where the bits have its own.
fn metric(inits: u32, bit: u32, n: u32) -> Option<u32>
    ensures { result ≡ metric_in inits bit n }
{
    if inits & bit == 0 { None } else { Some(n) }
}
