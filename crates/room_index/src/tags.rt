//! Tags of places, those of a bucket or of two at once.
ghost use Rattle.std.specs.Prelude.{◌≡◌, ◌+◌, ◌≤◌, ◌==◌, ◌++◌, map, not, length};
ghost use Rattle.std.specs.List.{prefix_len};
ghost use Rattle.std.specs.Simd.Lanes.{chunk, mask_l};

use radix_nodes::Visits;
use std::simd::prelude::*;

/// How many places a bucket has.
pub(crate) const PLACES: usize = 8;

/// How many two have.
pub(crate) const BOTH: usize = 2 * PLACES;

/// How many places of two buckets, of which the tags begin there, come before the first with this tag; all of them
/// where none has it. And a number with a bit for each place, the lowest for the first, that is set where it has the
/// tag. It reads the tags of all at once, and counts a visit for each.
#[inline(always)]
pub(crate) fn places_before(
    tags: &[u8],
    first: usize,
    second: usize,
    tag: u8,
    visits: &mut Visits,
) -> (usize, u64)
    requires first { first + PLACES ≤ length tags.now }
    requires second { second + PLACES ≤ length tags.now }
    ensures before { result.0
        ≡ prefix_len (λ t. not (t == tag)) (chunk first PLACES tags.now ++ chunk second PLACES tags.now) }
    ensures hits { result.1
        ≡ mask_l (map (λ t. t == tag) (chunk first PLACES tags.now ++ chunk second PLACES tags.now)) }
    ensures visits { visits.new ≡ record visits.old { count = visits.old.count + BOTH } }
{
    count(BOTH, visits);
    let lower = u8x8::from_slice(&tags[first..]);
    let upper = u8x8::from_slice(&tags[second..]);
    let hits = lower
        .shuffle::<16>(
            upper,
            [0, 1, 2, 3, 4, 5, 6, 7, 8, 9, 10, 11, 12, 13, 14, 15],
        )
        .simd_eq(u8x16::splat(tag))
        .to_bitmask();
    let before = if hits == 0 {
        BOTH
    } else {
        hits.trailing_zeros() as usize
    };
    (before, hits)
}

/// How many places of a bucket, of which the tags begin there, come before the first free one; all of them where none
/// is free. It reads the tags of all at once, and counts a visit for each.
#[inline(always)]
pub(crate) fn used_before(tags: &[u8], begin: usize, visits: &mut Visits) -> usize
    requires { begin + PLACES ≤ length tags.now }
    ensures before { result ≡ prefix_len (λ t. not (t == 0)) (chunk begin PLACES tags.now) }
    ensures visits { visits.new ≡ record visits.old { count = visits.old.count + PLACES } }
{
    count(PLACES, visits);
    let free = u8x8::from_slice(&tags[begin..])
        .simd_eq(u8x8::splat(0))
        .to_bitmask();
    if free == 0 {
        PLACES
    } else {
        free.trailing_zeros() as usize
    }
}

/// Counts so many visits.
#[inline(always)]
fn count(many: usize, visits: &mut Visits)
    ensures { visits.new ≡ record visits.old { count = visits.old.count + many } }
{
    for _place in 0..many {
        visits.tick();
    }
}
