//! The options of a `route` line.
ghost use Rattle.std.specs.Prelude.{◌≡◌};
ghost use Rattle.line_faults.specs.Options.{option_kind, option_text};
ghost use Rattle.line_faults.specs.Texts.{options_text};

use crate::WordKind;

/// An option of a `route` line, in the order in which they may stand.
#[derive(Clone, Copy, Debug, PartialEq, Eq)]
pub enum RouteOption {
    /// The gateway.
    Via,
    /// The mask for clones.
    Genmask,
    /// The interface, by its link-layer address or an address of its.
    Ifp,
    /// The interface's address.
    Ifa,
    /// The route's flags.
    Flags,
    /// Which metrics are set, besides those that are written.
    Inits,
    /// Which metrics are locked.
    Locks,
    /// The path's largest packet.
    Mtu,
    /// The most hops.
    Hopcount,
    /// When the route ends.
    Expire,
    /// The room of a pipe that receives.
    Recvpipe,
    /// The room of a pipe that sends.
    Sendpipe,
    /// The threshold of slow start.
    Ssthresh,
    /// The round trip's time.
    Rtt,
    /// Its variance.
    Rttvar,
}

/// Every option, in their order.
pub(crate) const OPTIONS: [RouteOption; 15] = [
    RouteOption::Via,
    RouteOption::Genmask,
    RouteOption::Ifp,
    RouteOption::Ifa,
    RouteOption::Flags,
    RouteOption::Inits,
    RouteOption::Locks,
    RouteOption::Mtu,
    RouteOption::Hopcount,
    RouteOption::Expire,
    RouteOption::Recvpipe,
    RouteOption::Sendpipe,
    RouteOption::Ssthresh,
    RouteOption::Rtt,
    RouteOption::Rttvar,
];

impl RouteOption {
    /// The word that begins it.
    pub(crate) fn text(self) -> &'static str
        ensures { result.now ≡ option_text self }
    {
        match self {
            RouteOption::Via => "via",
            RouteOption::Genmask => "genmask",
            RouteOption::Ifp => "ifp",
            RouteOption::Ifa => "ifa",
            RouteOption::Flags => "flags",
            RouteOption::Inits => "inits",
            RouteOption::Locks => "locks",
            RouteOption::Mtu => "mtu",
            RouteOption::Hopcount => "hopcount",
            RouteOption::Expire => "expire",
            RouteOption::Recvpipe => "recvpipe",
            RouteOption::Sendpipe => "sendpipe",
            RouteOption::Ssthresh => "ssthresh",
            RouteOption::Rtt => "rtt",
            RouteOption::Rttvar => "rttvar",
        }
    }

    /// What the word behind that one is.
    pub(crate) fn kind(self) -> WordKind
        ensures { result ≡ option_kind self }
    {
        match self {
            RouteOption::Via => WordKind::Gateway,
            RouteOption::Genmask => WordKind::MaskLength,
            RouteOption::Ifp | RouteOption::Ifa => WordKind::InterfaceAddress,
            RouteOption::Flags => WordKind::FlagBits,
            RouteOption::Inits | RouteOption::Locks => WordKind::Bits,
            RouteOption::Mtu
            | RouteOption::Hopcount
            | RouteOption::Expire
            | RouteOption::Recvpipe
            | RouteOption::Sendpipe
            | RouteOption::Ssthresh
            | RouteOption::Rtt
            | RouteOption::Rttvar => WordKind::Metric,
        }
    }

    /// It and the options behind it, for people.
    pub(crate) fn listed(self) -> &'static str
        ensures { result.now ≡ options_text self }
    {
        match self {
            RouteOption::Via =>
                "nothing more, or of these, in this order: via, genmask, ifp, ifa, flags, inits, locks, mtu, hopcount, expire, recvpipe, sendpipe, ssthresh, rtt, rttvar",
            RouteOption::Genmask =>
                "nothing more, or of these, in this order: genmask, ifp, ifa, flags, inits, locks, mtu, hopcount, expire, recvpipe, sendpipe, ssthresh, rtt, rttvar",
            RouteOption::Ifp =>
                "nothing more, or of these, in this order: ifp, ifa, flags, inits, locks, mtu, hopcount, expire, recvpipe, sendpipe, ssthresh, rtt, rttvar",
            RouteOption::Ifa =>
                "nothing more, or of these, in this order: ifa, flags, inits, locks, mtu, hopcount, expire, recvpipe, sendpipe, ssthresh, rtt, rttvar",
            RouteOption::Flags =>
                "nothing more, or of these, in this order: flags, inits, locks, mtu, hopcount, expire, recvpipe, sendpipe, ssthresh, rtt, rttvar",
            RouteOption::Inits =>
                "nothing more, or of these, in this order: inits, locks, mtu, hopcount, expire, recvpipe, sendpipe, ssthresh, rtt, rttvar",
            RouteOption::Locks =>
                "nothing more, or of these, in this order: locks, mtu, hopcount, expire, recvpipe, sendpipe, ssthresh, rtt, rttvar",
            RouteOption::Mtu =>
                "nothing more, or of these, in this order: mtu, hopcount, expire, recvpipe, sendpipe, ssthresh, rtt, rttvar",
            RouteOption::Hopcount =>
                "nothing more, or of these, in this order: hopcount, expire, recvpipe, sendpipe, ssthresh, rtt, rttvar",
            RouteOption::Expire =>
                "nothing more, or of these, in this order: expire, recvpipe, sendpipe, ssthresh, rtt, rttvar",
            RouteOption::Recvpipe =>
                "nothing more, or of these, in this order: recvpipe, sendpipe, ssthresh, rtt, rttvar",
            RouteOption::Sendpipe =>
                "nothing more, or of these, in this order: sendpipe, ssthresh, rtt, rttvar",
            RouteOption::Ssthresh =>
                "nothing more, or of these, in this order: ssthresh, rtt, rttvar",
            RouteOption::Rtt => "nothing more, or of these, in this order: rtt, rttvar",
            RouteOption::Rttvar => "rttvar, or nothing more",
        }
    }
}
