ghost use Rattle.std.specs.Prelude.{◌≡◌, ℕ, nat_eq};
ghost use Rattle.std.proofs.Common.{rules};
ghost use Rattle.std.specs.Cmp.Rules.{comparing};

use std::marker::Model;

/// An IPv4 address: its four bytes, the first of them the highest. A contract sees its number, below 2^32.
#[derive(Clone, Copy, Debug)]
pub struct Inet(pub [u8; 4]);

impl Model for Inet {
    ghost use Rattle.std.specs.Prelude.{ℕ};
    ghost use Rattle.std.specs.Int.{w32, from_be_bytes, to_be_bytes};

    ghost Value = { ℕ };

    ghost use Rattle.sock_addrs.specs.Inet.{AreFourBytes, four_bytes_again};

    ghost view = { λ a. from_be_bytes w32 a.0 };

    ghost invariant = { λ a. AreFourBytes a.0 };

    ghost inverse = { λ number. record { 0 = to_be_bytes w32 number } };

    ghost inverse_ok = { λ a h. four_bytes_again a h };
}

impl PartialEq for Inet {
    ghost eq = { nat_eq };

    ghost laws = { Prim.search (comparing, rules) };

    fn eq(&self, other: &Inet) -> bool {
        self.number() == other.number()
    }
}

impl Eq for Inet {
    ghost laws = { Prim.search (comparing, rules) };
}

impl Inet {
    /// The address with this number.
    pub fn new(number: u32) -> Inet
        ensures { result ≡ number }
    {
        Inet(number.to_be_bytes())
    }

    /// The number that its four bytes spell.
    pub fn number(self) -> u32
        ensures { result ≡ self }
    {
        u32::from_be_bytes(self.0)
    }
}
