//! The masks that a bit node lists.
ghost use Rattle.std.specs.Prelude.{◌≡◌, ◌+◌, ◌<◌, ◌≤◌, find};
ghost use Rattle.tree_pictures.specs.Tree.{has_rank, masks_of};

use crate::Pair;
use arrayvec::ArrayVec;

/// How many masks a bit node can list: one of each length that ends at or before the last bit.
pub(crate) const MOST_MASKS: usize = 32;

/// The masks that the bit node of a bit lists, longest first, as the first routes beneath it that have them: those that
/// end at or before the bit, and past that of the bit node above, which is before `low`.
pub(crate) fn masks(pairs: &[Pair], low: u8, bit: u8) -> ArrayVec<Pair, MOST_MASKS>
    requires rises { low ≤ bit }
    requires within { bit < 32 }
    ensures { result.items ≡ masks_of low bit pairs.now }
{
    let mut masks = ArrayVec::new();
    let mut rank = bit + 1;
    'ranks: while low < rank {
        rank -= 1;
        match first_of_rank(pairs, rank) {
            Some(pair) => masks.push(pair),
            None => {}
        }
    }
    masks
}

/// The first route of a rank.
fn first_of_rank(pairs: &[Pair], rank: u8) -> Option<Pair>
    ensures { result ≡ find (has_rank rank) pairs.now }
{
    pairs
        .iter()
        .copied()
        .find(|pair| pair.rank.number() == rank)
}
