//! Routes.
ghost use Rattle.std.specs.Prelude.{◌≡◌};
ghost use Rattle.route_entries.specs.Routes.{has_flag, cloned, clone_rank, with_one_more_use, named_or, with_metrics, with_locks};

use if_addrs::IfaRef;
use mask_table::{Prefix, Rank};
use route_msgs::Metrics;
use route_msgs::flags::{RTF_CLONING, RTF_HOST};
use route_msgs::inits::{
    RTV_EXPIRE, RTV_HOPCOUNT, RTV_MTU, RTV_RPIPE, RTV_RTT, RTV_RTTVAR, RTV_SPIPE, RTV_SSTHRESH,
};
use sock_addrs::Gate;

/// What the table keeps of a route beside its key and its rank (`struct rtentry` of <net/route.h>).
#[derive(Clone, Copy, Debug, PartialEq, Eq)]
pub struct Route {
    /// The flags of <net/route.h>, as `RTF_UP`.
    pub flags: u16,
    /// The next hop, or the address itself where the route is of an interface's network.
    pub gateway: Gate,
    /// Its metrics.
    pub metrics: Metrics,
    /// The mask that a clone of the route gets, where it has one.
    pub genmask: Option<Prefix>,
    /// The interface address that packets leave by.
    pub ifa: IfaRef,
    /// How many packets took it; it wraps.
    pub use_count: u32,
}

impl Route {
    /// Whether it has this flag, or one of these.
    pub fn has(&self, flags: u16) -> bool
        ensures { result ≡ has_flag flags self.now }
    {
        self.flags & flags != 0
    }

    /// Counts a packet that takes it.
    pub fn count_use(&mut self)
        ensures { self.new ≡ with_one_more_use self.old }
    {
        self.use_count = self.use_count.wrapping_add(1);
    }

    /// Sets the metrics that `inits` names by its bits, of `route_msgs::inits`, whatever is locked (`rt_setmetrics` of
    /// 4.4BSD). locks and pksent have no bit, and stay.
    pub fn set_metrics(&mut self, inits: u32, metrics: &Metrics)
        ensures { self.new ≡ record self.old { metrics = with_metrics inits metrics.now self.old.metrics } }
    {
        let old = self.metrics;
        self.metrics = Metrics {
            mtu: chosen(inits, RTV_MTU, metrics.mtu, old.mtu),
            hopcount: chosen(inits, RTV_HOPCOUNT, metrics.hopcount, old.hopcount),
            expire: chosen(inits, RTV_EXPIRE, metrics.expire, old.expire),
            recvpipe: chosen(inits, RTV_RPIPE, metrics.recvpipe, old.recvpipe),
            sendpipe: chosen(inits, RTV_SPIPE, metrics.sendpipe, old.sendpipe),
            ssthresh: chosen(inits, RTV_SSTHRESH, metrics.ssthresh, old.ssthresh),
            rtt: chosen(inits, RTV_RTT, metrics.rtt, old.rtt),
            rttvar: chosen(inits, RTV_RTTVAR, metrics.rttvar, old.rttvar),
            ..old
        };
    }

    /// Locks or unlocks the metrics that `inits` names: those of them are locked from now on that `locks` names too.
    pub fn set_locks(&mut self, inits: u32, locks: u32)
        ensures { self.new ≡ record self.old { metrics = with_locks inits locks self.old.metrics } }
    {
        self.metrics.locks = self.metrics.locks & !inits | inits & locks;
    }
}

/// The new value of a metric where its bit is among `inits`, and otherwise the old one.
fn chosen(inits: u32, bit: u32, new: u32, old: u32) -> u32
    ensures { result ≡ named_or inits bit new old }
{
    if inits & bit == 0 { old } else { new }
}

/// The clone that a route makes of itself for an address, and the clone's rank (RTM_RESOLVE of `rtrequest` in
/// 4.4BSD). It doesn't clone again; where the route has no mask for its clones, the clone is the route of a host.
pub fn clone_of(parent: &Route) -> (Route, Rank)
    ensures route { result.0 ≡ cloned parent.now }
    ensures rank { result.1 ≡ clone_rank parent.now.genmask }
{
    let kept = parent.flags & !RTF_CLONING;
    let flags = if parent.genmask.is_none() {
        kept | RTF_HOST
    } else {
        kept
    };
    let route = Route {
        flags,
        genmask: None,
        use_count: 0,
        ..*parent
    };
    (route, Rank::of_mask(parent.genmask))
}
