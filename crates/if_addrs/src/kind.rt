ghost use Rattle.std.specs.Prelude.{◌≡◌};
ghost use Rattle.if_addrs.specs.Interfaces.{fits};
ghost use Rattle.if_addrs.specs.Searches.{has_other_end};

use sock_addrs::Inet;

/// What an interface is, by which its addresses have a far address (the flags IFF_BROADCAST, IFF_LOOPBACK and
/// IFF_POINTOPOINT of <net/if.h>).
#[derive(Clone, Copy, Debug, PartialEq, Eq)]
pub enum Kind {
    /// The far address is the broadcast address of the network.
    Broadcast,
    /// The far address is the address itself.
    Loopback,
    /// The far address is that of the other end.
    PointToPoint,
}

impl Kind {
    /// Whether an interface of this kind has another end.
    pub(crate) fn has_other_end(self) -> bool
        ensures { result ≡ has_other_end self }
    {
        self == Kind::PointToPoint
    }

    /// Whether an address of the other end is given where an interface of this kind has another end, and only there.
    pub(crate) fn fits(self, far: Option<Inet>) -> bool
        ensures { result ≡ fits self far }
    {
        far.is_some() == self.has_other_end()
    }
}
