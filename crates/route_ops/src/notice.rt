//! The messages that look-ups, redirects and losses make, as what they say.
ghost use Rattle.std.specs.Prelude.{◌≡◌, None};
ghost use Rattle.sock_addrs.specs.declared.gate.Gate.TheVariants as gate;
ghost use Rattle.route_ops.specs.declared.notice.Notice.TheVariants.{Miss};

use arrayvec::ArrayVec;
use mask_table::Rank;
use sock_addrs::{Errno, Gate, Inet};

/// The most messages that one call makes.
pub const MOST_NOTICES: usize = 2;

/// The messages of one call, in their order.
pub type Notices = ArrayVec<Notice, MOST_NOTICES>;

/// A message that goes to all sockets that hear the family of its destination.
#[derive(Clone, Copy, Debug, PartialEq, Eq)]
pub enum Notice {
    /// RTM_MISS: a look-up of this address found no route, or one whose clone was there already (EEXIST).
    Miss {
        about: Gate,
        errno: Option<Errno>,
    },
    /// RTM_RESOLVE: the route that was cloned for this address wants a link-layer address.
    Resolve {
        about: Gate,
    },
    /// RTM_REDIRECT: the author of a redirect says that the destination is reached by this gateway. The flags tell
    /// what came of it, and the errno why nothing did.
    Redirect {
        destination: Inet,
        gateway: Gate,
        author: Inet,
        flags: u16,
        errno: Option<Errno>,
    },
    /// RTM_LOSING: the route by which this address is reached seems dead; with that route's gateway, rank and flags.
    Losing {
        address: Inet,
        gateway: Gate,
        rank: Rank,
        flags: u16,
    },
}

impl Default for Notice {
    ghost is_default = { λ n. n ≡ Miss (gate.Inet 0) None };

    fn default() -> Notice {
        Notice::Miss {
            about: Gate::Inet(Inet::new(0)),
            errno: None,
        }
    }
}
