ghost use Rattle.std.specs.Prelude.{◌≡◌};
ghost use Rattle.if_addrs.specs.MarkedInet.{unmarked, gone, is_at};

use sock_addrs::Inet;
use std::marker::Model;

/// The bit above an address's 32, which marks one that was removed.
const REMOVED: u64 = 1 << 32;

/// An IPv4 address, and whether it is marked as removed, in one number: a search for an address that stands compares
/// both at once.
#[derive(Clone, Copy)]
pub(crate) struct MarkedInet {
    bits: u64,
}

impl Model for MarkedInet {
    ghost use Rattle.std.specs.Prelude.{◌<◌, ◌^◌};
    ghost use Rattle.if_addrs.specs.MarkedInet.{MarkedInet as Seen, said_by, bits_of, bits_again};

    ghost Value = { Seen };

    ghost view = { λ m. said_by m.bits };

    ghost invariant = { λ m. m.bits < 2 ^ 33 };

    ghost inverse = { λ m. record { bits = bits_of m } };

    ghost inverse_ok = { λ a h. bits_again a h };
}

impl MarkedInet {
    /// This address, without the mark.
    pub(crate) fn new(address: Inet) -> MarkedInet
        ensures { result ≡ unmarked address }
    {
        MarkedInet {
            bits: u64::from(address.number()),
        }
    }

    /// The address.
    pub(crate) fn inet(self) -> Inet
        ensures { result ≡ self.address }
    {
        Inet::new((self.bits % REMOVED) as u32)
    }

    /// Whether it was removed.
    pub(crate) fn is_removed(self) -> bool
        ensures { result ≡ self.removed }
    {
        REMOVED <= self.bits
    }

    /// Whether it is this address, and was not removed.
    pub(crate) fn is_at(self, address: Inet) -> bool
        ensures { result ≡ is_at address self }
    {
        self.bits == u64::from(address.number())
    }

    /// Marks it as removed; it may be so already.
    pub(crate) fn remove(&mut self)
        ensures { self.new ≡ gone self.old }
    {
        if self.bits < REMOVED {
            self.bits += REMOVED;
        }
    }
}
