ghost use Rattle.std.specs.Prelude.{◌≡◌};
ghost use Rattle.route_layouts.specs.Faults.{errno_of, text_of};

use sock_addrs::Errno;

/// Why a message has no counterpart in another layout, the first of these that holds.
#[derive(Clone, Copy, Debug, PartialEq, Eq)]
pub enum Fault {
    /// A type without a counterpart: none of 1 to 13, whose headers are known. Fewer than four bytes have no type.
    Kind,
    /// Fewer bytes than its header has, or the message says another length, of itself or of its header, than it has.
    Length,
    /// Another version than the layout's.
    Version,
    /// An address's length byte counts bytes past the end.
    Overrun,
    /// A number for which the other layout has a place with too few bytes, or a link-layer address of more bytes than
    /// one may have there.
    Wide,
}

impl Fault {
    /// What it prints, in words.
    pub fn text(self) -> &'static str
        ensures { result.now ≡ text_of self }
    {
        match self {
            Fault::Kind => "the type has no counterpart",
            Fault::Length => "the length is wrong",
            Fault::Version => "the version is another",
            Fault::Overrun => "an address passes the end",
            Fault::Wide => "a number or an address is too wide",
        }
    }

    /// The errno of a write that is refused for it: EPROTONOSUPPORT for another version, and else EINVAL.
    pub fn errno(self) -> Errno
        ensures { result ≡ errno_of self }
    {
        match self {
            Fault::Version => Errno::EPROTONOSUPPORT,
            Fault::Kind | Fault::Length | Fault::Overrun | Fault::Wide => Errno::EINVAL,
        }
    }
}
