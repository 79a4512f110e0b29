ghost use Rattle.std.specs.Prelude.{◌≡◌, ◌≤◌};
ghost use Rattle.std.specs.Option.{SomeIff};

use std::marker::Model;

/// The length of a mask, which is the length of an address's network: 0 to 32 bits. A contract sees the number.
#[derive(Clone, Copy, Debug, PartialEq, Eq)]
pub struct Prefix {
    bits: u8,
}

impl Model for Prefix {
    ghost use Rattle.std.specs.Prelude.{ℕ, ◌≤◌};

    ghost Value = { ℕ };

    ghost view = { λ p. p.bits };

    ghost invariant = { λ p. p.bits ≤ 32 };

    ghost inverse = { λ n. record { bits = n } };
}

impl Prefix {
    /// The length of so many bits, or `None` where they are more than an address has.
    pub fn new(bits: u8) -> Option<Prefix>
        ensures { SomeIff result (bits ≤ 32) bits }
    {
        if bits <= 32 {
            Some(Prefix { bits })
        } else {
            None
        }
    }

    /// How many bits it has.
    pub fn bits(self) -> u8
        ensures bits { result ≡ self }
        ensures most { self ≤ 32 }
    {
        self.bits
    }
}
