//! Where a pair of a key and a rank is at home.
ghost use Rattle.std.specs.Prelude.{◌≡◌, ◌+◌, ◌*◌, ◌≤◌, ◌<◌, ◌%◌, ◌^◌, ◌⊎◌, MatchBool};
ghost use Rattle.room_index.specs.Homes.{pair, key_of, folded, spread, homes, place_of};

use crate::tags::{BOTH, PLACES};
use mask_table::Rank;
use sock_addrs::Inet;

/// The most bits of a bucket's number. Of a number of 64 bits the lowest tell the first bucket of a pair, those behind
/// the first 24 the second one, and the highest eight the tag.
pub(crate) const MOST_BITS: u32 = 24;

/// How many bits the number of a pair has: those of a key, and six of a rank.
pub(crate) const PAIR_BITS: u32 = 38;

/// The number of a pair.
pub(crate) fn pair_of(key: Inet, rank: Rank) -> u64
    ensures { result ≡ pair key rank }
{
    u64::from(key.number()) * 64 + u64::from(rank.number())
}

/// The key of a pair.
#[inline(always)]
pub(crate) fn key_of(pair: u64) -> u32
    ensures { result ≡ key_of pair }
{
    (pair / 64 % (1 << 32)) as u32
}

/// The rank of a pair.
#[inline(always)]
pub(crate) fn rank_of(pair: u64) -> Rank
    ensures { pair % 64 ≤ 33 → result ≡ pair % 64 }
{
    Rank::new((pair % 64).min(33) as u8)
}

/// The two buckets in which a pair is at home, and the tag that its place has there, which isn't 0, as a free place's is.
#[derive(Clone, Copy)]
pub(crate) struct Homes {
    pub(crate) tag: u8,
    pub(crate) first: usize,
    pub(crate) second: usize,
}

impl Homes {
    /// Those of a pair among 2^`bits` buckets.
    #[inline(always)]
    pub(crate) fn of(pair: u64, bits: u32) -> Homes
        requires { bits ≤ MOST_BITS }
        ensures { result ≡ homes bits pair }
    {
        let spread = spread(pair);
        Homes {
            tag: ((spread >> 56) as u8).max(1),
            first: low_bits(spread, bits),
            second: low_bits(spread >> MOST_BITS, bits),
        }
    }

    /// The place with this number among those of both, the first home's before the second's.
    #[inline(always)]
    pub(crate) fn place(&self, number: usize) -> usize
        requires number { number < BOTH }
        requires first { 8 * self.now.first + 8 < 2 ^ 64 }
        requires second { 8 * self.now.second + 8 < 2 ^ 64 }
        ensures { result ≡ place_of self.now number }
    {
        if number < PLACES {
            PLACES * self.first + number
        } else {
            PLACES * self.second + (number - PLACES)
        }
    }

    /// Whether a bucket is one of them.
    pub(crate) fn has(&self, bucket: usize) -> bool
        ensures { MatchBool result ((bucket ≡ self.now.first) ⊎ (bucket ≡ self.now.second))
            ((bucket ≡ self.now.first → ⊥) × (bucket ≡ self.now.second → ⊥)) }
    {
        bucket == self.first || bucket == self.second
    }

    /// The one beside a bucket.
    pub(crate) fn beside(&self, bucket: usize) -> usize
        ensures { (result ≡ self.now.first) ⊎ (result ≡ self.now.second) }
    {
        if bucket == self.first {
            self.second
        } else {
            self.first
        }
    }
}

/// The lowest bit of either bucket's number in that of `spread`.
const SIDES: u64 = 1 << MOST_BITS | 1;

/// From this rank on a route is of one address: 32 by its mask, 33 without one.
const HOSTS: u64 = 32;

/// A number that tells both buckets and the tag. It depends on all of the pair; but of hosts that differ in their last
/// two bits alone the buckets' numbers do too: so those that lie side by side have homes that do, and as they come or
/// go in order four of them read the lines of tags that one would.
#[inline(always)]
#[tactic(auto, unfolding(crate::specs::Homes::spread))]
fn spread(pair: u64) -> u64
    ensures { result ≡ spread pair }
{
    if pair % 64 < HOSTS {
        return folded(pair);
    }
    let side = pair / 64 % 4;
    folded(pair - side * 64) ^ side * SIDES
}

/// The product with an odd number near 2^64 over the golden ratio, in whose upper half what is near lies far apart
/// (Knuth, The Art of Computer Programming, 6.4); that half is folded into the lower one.
#[inline(always)]
#[tactic(auto, unfolding(crate::specs::Homes::folded))]
fn folded(number: u64) -> u64
    ensures { result ≡ folded number }
{
    let product = number.wrapping_mul(0x9E37_79B9_7F4A_7C15);
    product ^ product >> 32
}

/// The lowest bits of a number.
#[inline(always)]
pub(crate) fn low_bits(number: u64, bits: u32) -> usize
    requires { bits ≤ MOST_BITS }
    ensures { result ≡ number % 2 ^ bits }
{
    (number & (1 << bits) - 1) as usize
}
