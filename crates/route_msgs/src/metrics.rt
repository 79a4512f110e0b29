/// The ten metrics of a route (`struct rt_metrics` of <net/route.h>).
#[derive(Clone, Copy, Debug, Default, PartialEq, Eq)]
pub struct Metrics {
    /// Which of the others are locked, by the bits of `inits`.
    pub locks: u32,
    /// The most bytes of a packet.
    pub mtu: u32,
    /// The most hops that are expected.
    pub hopcount: u32,
    /// When the route ends, for a redirect's say.
    pub expire: u32,
    /// The inbound product of delay and bandwidth.
    pub recvpipe: u32,
    /// The outbound product of delay and bandwidth.
    pub sendpipe: u32,
    /// The outbound gateway's limit of buffers.
    pub ssthresh: u32,
    /// The round-trip time that is expected.
    pub rtt: u32,
    /// The variance of the round-trip time.
    pub rttvar: u32,
    /// The packets that were sent by this route.
    pub pksent: u32,
}
