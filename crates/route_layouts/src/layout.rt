ghost use Rattle.std.specs.Prelude.{◌≡◌};
ghost use Rattle.route_layouts.specs.Layouts.{IsLayout, header_of};
ghost use Rattle.route_layouts.specs.Systems.{layout_of};

use crate::tables::{BSD44, DARWIN, FREEBSD, NETBSD, OPENBSD};
use crate::{Fields, Order, Place};
use route_msgs::kinds::{RTM_DELADDR, RTM_NEWADDR};

/// A header of a message: its bytes, and where its fields stand in them.
#[derive(Clone, Copy, Debug, PartialEq, Eq)]
pub struct Header {
    /// How many bytes it has.
    pub size: usize,
    /// Where each field stands.
    pub places: Fields<Place>,
}

/// How a system lays out its messages.
#[derive(Clone, Copy, Debug, PartialEq, Eq)]
pub struct Layout {
    /// The order of the bytes of its numbers.
    pub order: Order,
    /// The version of its messages.
    pub version: u64,
    /// The flags that mean in it what they mean in 4.4BSD, and are kept.
    pub flags: u64,
    /// Its number of the errno EOPNOTSUPP.
    pub not_supported: u64,
    /// An address takes whole words of so many bytes, and at least one.
    pub word: usize,
    /// The most bytes of a link-layer address.
    pub most_link: usize,
    /// The least bytes of a mask that has five and more.
    pub least_mask: u8,
    /// The header of a message about a route.
    pub route: Header,
    /// The header of a message about an interface's address.
    pub ifa: Header,
}

impl Layout {
    /// The header of a message of this type.
    pub fn header(&self, kind: u8) -> Header
        ensures { result ≡ header_of self.now kind }
    {
        match kind {
            RTM_NEWADDR | RTM_DELADDR => self.ifa,
            _ => self.route,
        }
    }
}

/// The systems whose layouts are known. Those of today are 64-bit and keep the lowest byte first.
#[derive(Clone, Copy, Debug, PartialEq, Eq)]
pub enum System {
    /// 4.4BSD on a 32-bit machine that keeps the highest byte first.
    Bsd44,
    /// FreeBSD.
    FreeBsd,
    /// OpenBSD.
    OpenBsd,
    /// NetBSD up to 7.
    NetBsd,
    /// macOS.
    Darwin,
}

impl System {
    /// Its layout.
    #[tactic(auto, unfolding(crate::specs::Fields::in_order))]
    pub fn layout(self) -> Layout
        ensures declared { result ≡ layout_of self }
        ensures layout { IsLayout result }
    {
        match self {
            System::Bsd44 => BSD44,
            System::FreeBsd => FREEBSD,
            System::OpenBsd => OPENBSD,
            System::NetBsd => NETBSD,
            System::Darwin => DARWIN,
        }
    }
}
