//! Networks by chance, whose lengths are as many of each as in the Internet's table of IPv4.
ghost use Rattle.std.specs.Prelude.{◌≤◌};

use crate::chance::Chance;
use crate::lines::Lines;

/// How many routes of each prefix length the Internet's table has, rounded from public reports of 2024, from 8 bits on.
const LENGTHS: [u32; 17] = [
    16, 14, 38, 100, 300, 580, 1_200, 2_100, 13_600, 8_400, 14_000, 25_500, 45_000, 52_000,
    110_000, 98_000, 590_000,
];

/// The sum of these numbers.
const ROUTES: u32 = 960_848;

/// A network.
#[derive(Clone, Copy)]
pub(crate) struct Network {
    pub(crate) address: u32,
    pub(crate) bits: u8,

    ghost length: { bits ≤ 32 },
}

impl Network {
    /// The network of so many bits that has an address.
    pub(crate) fn of(address: u32, bits: u8) -> Network
        requires some { 1 ≤ bits }
        requires most { bits ≤ 32 }
    {
        Network {
            address: address & u32::MAX << 32 - bits,
            bits,
        }
    }

    /// A network by chance, of unicast addresses but those of 10.0.0.0/8 and of loopback.
    pub(crate) fn draw(chance: &mut Chance) -> Network {
        let first = match 1 + chance.below(223) {
            10 => 11,
            127 => 128,
            first => first,
        };
        let address = first << 24 | chance.word() >> 8;
        Network::of(address, draw_length(chance))
    }

    /// An address of the network by chance.
    pub(crate) fn host(self, chance: &mut Chance) -> u32 {
        let own = u64::from(u32::MAX) >> self.bits;
        self.address | chance.word() & own as u32
    }

    /// Its mask.
    pub(crate) fn mask(self) -> u32 {
        !((u64::from(u32::MAX) >> self.bits) as u32)
    }

    /// Puts it as lines have it.
    pub(crate) fn put(self, lines: &mut Lines) {
        lines.address(self.address);
        lines.text("/");
        lines.number(u32::from(self.bits));
    }
}

/// Takes one of these networks by chance away, where there is one; the last one gets its place.
pub(crate) fn take_one(networks: &mut Vec<Network>, chance: &mut Chance) -> Option<Network> {
    let last = networks.pop()?;
    let count = networks.len();
    if count == 0 {
        return Some(last);
    }
    let which = chance.word() as usize % count;
    let taken = networks[which];
    networks[which] = last;
    Some(taken)
}

/// The length of a mask by chance.
fn draw_length(chance: &mut Chance) -> u8
    ensures some { 1 ≤ result }
    ensures most { result ≤ 24 }
{
    let mut left = chance.below(ROUTES);
    for place in 0..16u8 {
        let many = LENGTHS[usize::from(place)];
        if left < many {
            return 8 + place;
        }
        left -= many;
    }
    24
}
