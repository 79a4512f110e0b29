//! The bits of a message's inits field, and of the locks among the metrics, one for each metric that a writer can
//! set, as <net/route.h> names them.

/// mtu.
pub const RTV_MTU: u32 = 0x1;
/// hopcount.
pub const RTV_HOPCOUNT: u32 = 0x2;
/// expire.
pub const RTV_EXPIRE: u32 = 0x4;
/// recvpipe.
pub const RTV_RPIPE: u32 = 0x8;
/// sendpipe.
pub const RTV_SPIPE: u32 = 0x10;
/// ssthresh.
pub const RTV_SSTHRESH: u32 = 0x20;
/// rtt.
pub const RTV_RTT: u32 = 0x40;
/// rttvar.
pub const RTV_RTTVAR: u32 = 0x80;
