//! Where the two sides of a bit node part.
ghost use Rattle.std.specs.Prelude.{◌≡◌, ◌==◌, ◌≤◌, ◌<◌, ◌⊎◌, cond, length, take, drop};
ghost use Rattle.std.specs.Bool.{MatchBool};
ghost use Rattle.mask_table.specs.Agreeing.{bit as bit_of};
ghost use Rattle.tree_pictures.specs.Tree.{has_one, zeros_of, ones_of};

use crate::Pair;
use sock_addrs::Inet;

/// Whether a bit of an address is 1. The highest one is bit 0.
pub(crate) fn is_one(address: Inet, bit: u8) -> bool
    requires { bit < 32 }
    ensures { result ≡ (bit_of bit address == 1) }
{
    (address.number() >> (31 - bit)) % 2 == 1
}

/// How many routes stand before the first whose key has a 1 at a bit.
#[tactic(auto, using(crate::proofs::Splits::take_zeros, crate::proofs::Splits::drop_ones, crate::proofs::Splits::most))]
pub(crate) fn zeros(pairs: &[Pair], bit: u8) -> usize
    requires { bit < 32 }
    ensures most { result ≤ length pairs.now }
    ensures zeros { take result pairs.now ≡ zeros_of bit pairs.now }
    ensures ones { drop result pairs.now ≡ ones_of bit pairs.now }
{
    count_zeros(pairs, bit)
}

/// The same number.
#[tactic(auto, using(crate::proofs::Splits::more, crate::proofs::Splits::no_more))]
fn count_zeros(pairs: &[Pair], bit: u8) -> usize
    requires { bit < 32 }
    ensures { result ≡ length (zeros_of bit pairs.now) }
{
    'routes: for i in 0..pairs.len() {
        if is_one(pairs[i].key, bit) {
            return i;
        }
    }
    pairs.len()
}

/// The routes from a place on, or those before it.
pub(crate) fn side_at<'a>(pairs: &'a [Pair], at: usize, one: bool) -> &'a [Pair]
    requires { at ≤ length pairs.now }
    ensures { result.now ≡ cond one (drop at pairs.now) (take at pairs.now) }
{
    if one { &pairs[at..] } else { &pairs[..at] }
}

/// Whether all routes stand on one side of a place.
pub(crate) fn is_one_sided(pairs: &[Pair], at: usize) -> bool
    ensures { MatchBool result ((at ≡ 0) ⊎ (length pairs.now ≤ at)) ((0 < at) × (at < length pairs.now)) }
{
    if at == 0 {
        return true;
    }
    pairs.len() <= at
}
