//! Numbers by chance, the same for the same seed.
ghost use Rattle.std.specs.Prelude.{◌<◌};

use rand_core::Rng;
use rand_pcg::Pcg32;

/// The stream of numbers that all workloads draw from.
const STREAM: u64 = 54;

/// An odd number of 16 bits, which look drawn by chance.
const FACTOR: u32 = 0x9e3b;

/// Draws numbers.
#[derive(Drop)]
pub(crate) struct Chance {
    rng: Pcg32,
}

impl Chance {
    pub(crate) fn new(seed: u32) -> Chance {
        Chance {
            rng: Pcg32::new(u64::from(seed), STREAM),
        }
    }

    /// Any number of 32 bits.
    pub(crate) fn word(&mut self) -> u32 {
        self.rng.next_u32()
    }

    /// A number below this one.
    pub(crate) fn below(&mut self, most: u32) -> u32
        requires { 0 < most }
        ensures { result < most }
    {
        self.word() % most
    }
}

/// Another number of 16 bits for each one, in an order by chance that `order` says.
pub(crate) fn shuffled(number: u32, order: u32) -> u32 {
    let mut mixed = (number ^ order) % 0x1_0000;
    for _round in 0..3 {
        mixed = mixed.wrapping_mul(FACTOR) % 0x1_0000;
        mixed ^= mixed >> 7;
    }
    mixed
}
