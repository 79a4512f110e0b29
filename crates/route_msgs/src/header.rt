ghost use Rattle.std.specs.Prelude.{◌≡◌};
ghost use Rattle.route_msgs.specs.Headers.{ifa_flags as ifa_flags_of};

use crate::Metrics;
use crate::flags::{IFA_ROUTE, RTF_CLONING};

/// The header of a message about a route (`struct rt_msghdr` of <net/route.h>), but for its length and its version.
#[derive(Clone, Copy, Debug, Default, PartialEq, Eq)]
pub struct Header {
    /// The type; `kinds` names those that are known.
    pub kind: u8,
    /// The interface's index.
    pub index: u16,
    /// Two bytes without a meaning.
    pub padding: u16,
    /// The route's flags, of `flags`.
    pub flags: u32,
    /// Which addresses follow, of `bits`. A writer sets it by the addresses that it is given.
    pub addrs: u32,
    /// The process that wrote the message.
    pub pid: u32,
    /// The number by which a writer knows its reply.
    pub seq: u32,
    /// Why a write was refused, or 0.
    pub errno: u32,
    /// How often the route was used.
    pub use_count: u32,
    /// Which metrics a writer sets, of `inits`.
    pub inits: u32,
    /// The route's metrics.
    pub metrics: Metrics,
}

/// The header of a message about an interface's address (`struct ifa_msghdr` of <net/if.h>), but for its length and its
/// version.
#[derive(Clone, Copy, Debug, Default, PartialEq, Eq)]
pub struct IfaHeader {
    /// The type; `kinds` names those that are known.
    pub kind: u8,
    /// Which addresses follow, of `bits`. A writer sets it by the addresses that it is given.
    pub addrs: u32,
    /// The address's flags; `ifa_flags` makes them.
    pub flags: u32,
    /// The interface's index.
    pub index: u16,
    /// Two bytes without a meaning.
    pub padding: u16,
    /// The metric.
    pub metric: u32,
}

/// The flags of an interface's address: whether its route is cloning, and whether its route was added.
pub fn ifa_flags(cloning: bool, routed: bool) -> u32
    ensures { result ≡ ifa_flags_of cloning routed }
{
    let cloning = if cloning { RTF_CLONING } else { 0 };
    let routed = if routed { IFA_ROUTE } else { 0 };
    u32::from(cloning + routed)
}
