//! Which ranks the pairs of each range of keys have, and of each slot the last pair that came into it.
ghost use Rattle.std.specs.Prelude.{◌≡◌, ℕ, ◌+◌, ◌/◌, ◌^◌, ◌<◌, ◌≤◌, ◌==◌, ◌⊎◌, ◌&&◌, is_err, length, nat_le, slice_index, vec_capacity, IfSome, OnOk, Some, None, []};
ghost use Rattle.std.specs.List.{All};
ghost use Rattle.mask_table.specs.RankSets.{HasRank};
ghost use Rattle.memory.specs.Refusing.{Rises};
ghost use Rattle.room_index.specs.Looks.{Reads, near_looks};
ghost use Rattle.room_index.specs.Places.{AllAre, IsIn, IsTable};
ghost use Rattle.room_index.specs.Ranges.{last_in, more_of, range_of, slot_of, AreTold, Has, HasNone, HasSameLast, IsByRange, IsTold, KeepsOthers, TellsMore, TellsRank};
ghost use Rattle.room_index.specs.Filed.{Filed};

mod slots;

use self::slots::fill;
use crate::entry::Pair;
use crate::homes::{MOST_BITS, PAIR_BITS, pair_of, rank_of};
use crate::last::{Last, finer_by};
use crate::places::Places;
use crate::rooms::Rooms;
use crate::tags::PLACES;
use mask_table::{Rank, Ranks};
use memory::{Memory, give_back};
use radix_nodes::{Id, Visits};
use sock_addrs::Inet;
use std::alloc::{AllocError, Global};

/// How many ranges there are at first.
const FEWEST: usize = 8;

/// So many ranges have one slot: their numbers differ in so many bits at the end.
pub(crate) const EACH: usize = 1 << EACH_BITS;

const EACH_BITS: u32 = 1;

/// How many there is memory for beside those that are there: 48 bytes, as of the places.
const LAST_BESIDE: usize = 3;

const RANKS_BESIDE: usize = 6;

/// So many bits has a key.
const KEY_BITS: u32 = 32;

/// A network that has more ranges than 2^`WIDEST` is told beside them all.
const WIDEST: u32 = 6;

/// What is known of the entries of the table of places by the first bits of their keys.
///
/// Of each of 2^`bits` ranges the ranks of all that are there, or were, so that no other rank is asked for. And of each
/// of half as many slots the entry that came last, or any where none has come since their number changed, so that a pair
/// that is to come finds one whose key begins as its own does. Where all keys are of a few ranges the pairs of one are
/// too many to be near each other: so slots are numbered by as many bits of the key behind its first `finer`, which a
/// look at a slot compares.
#[derive(Drop)]
pub(crate) struct Ranges<P: Pair> {
    last: Vec<Last<P>>,
    ranks: Vec<Ranks>,
    /// The ranks of networks that have many ranges.
    short: Ranks,
    bits: u32,
    finer: u32,
}

impl<P: Pair> Ranges<P> {
    /// No range.
    pub(crate) fn none(alloc: Global) -> Ranges<P>
        ensures ranges { IsByRange result }
        ensures none { HasNone result }
    {
        Ranges {
            last: Vec::new(alloc),
            ranks: Vec::new(alloc),
            short: Ranks::none(),
            bits: 0,
            finer: 0,
        }
    }

    /// How many there are.
    pub(crate) fn many(&self) -> usize
        ensures { result ≡ length self.now.ranks.items }
    {
        self.ranks.len()
    }

    /// How many there is memory for.
    #[cfg(test)]
    pub(crate) fn capacity(&self) -> usize {
        self.last.capacity().max(self.ranks.capacity())
    }

    /// The range of a pair.
    #[inline(always)]
    fn range(&self, pair: u64) -> usize
        requires { self.now.bits ≤ MOST_BITS }
        ensures { result ≡ range_of self.now.bits pair }
    {
        (pair >> (PAIR_BITS - self.bits)) as usize
    }

    /// The ranks that pairs have whose networks have this address, and perhaps others. It is one look.
    #[inline(always)]
    pub(crate) fn ranks(&self, address: Inet, visits: &mut Visits) -> Ranks
        requires { self.now.bits ≤ MOST_BITS }
        ensures told { (rank : ℕ) → rank ≤ 33 → TellsRank self.now address rank → HasRank result rank }
        ensures look { visits.new ≡ record visits.old { count = visits.old.count + 1 } }
    {
        visits.tick(); // the look at a range's ranks
        let range = self.range(pair_of(address, Rank::new(0)));
        if range >= self.ranks.len() {
            return Ranks::all();
        }
        self.ranks[range].union(self.short)
    }

    /// An entry came. It is a look at its slot, and one at each range in which its rank is told.
    #[inline(always)]
    pub(crate) fn put(&mut self, pair: u64, room: Id, visits: &mut Visits)
        requires { IsByRange self.old }
        ensures ranges { IsByRange self.new }
        ensures put { slot_of self.old pair < length self.old.last.items
            → last_in self.new (slot_of self.old pair) ≡ Some (record { pair = pair; room = room }) }
        ensures others { KeepsOthers self.old self.new pair }
        ensures only { (e : Filed) → Has self.new e → (e ≡ record { pair = pair; room = room }) ⊎ Has self.old e }
        ensures told { IsTold self.new pair }
        ensures more { TellsMore self.old self.new }
        ensures counter { visits.new.turn ≡ visits.old.turn }
    {
        self.put_last(pair, room, visits);
        self.tell(pair, visits);
    }

    /// Tells the rank of a pair in each range that its network has, or beside them all.
    #[inline(always)]
    pub(crate) fn tell(&mut self, pair: u64, visits: &mut Visits)
        requires { self.old.bits ≤ MOST_BITS }
        ensures told { IsTold self.new pair }
        ensures more { TellsMore self.old self.new }
        ensures last { HasSameLast self.old self.new }
        ensures counter { visits.new.turn ≡ visits.old.turn }
    {
        let rank = rank_of(pair);
        let first = self.range(pair);
        let spread = self.bits.saturating_sub(u32::from(rank.number()));
        if spread == 0 {
            self.tell_at(first, rank, visits);
        } else if spread <= WIDEST {
            self.tell_in(first, first + (1 << spread), rank, visits);
        } else {
            self.short = self.short.with(rank);
        }
    }

    /// Tells a rank in a range. It is one look.
    #[inline(always)]
    fn tell_at(&mut self, range: usize, rank: Rank, visits: &mut Visits)
        ensures told { range < length self.new.ranks.items → HasRank (slice_index self.new.ranks.items range) rank }
        ensures more { TellsMore self.old self.new }
        ensures last { HasSameLast self.old self.new }
        ensures look { visits.new ≡ record visits.old { count = visits.old.count + 1 } }
    {
        visits.tick(); // the look at the ranks that are told
        if range < self.ranks.len() {
            self.ranks[range] = self.ranks[range].with(rank);
        }
    }

    /// Tells a rank in the ranges from one to another.
    #[inline(never)]
    fn tell_in(&mut self, from: usize, to: usize, rank: Rank, visits: &mut Visits)
        ensures told { (n : ℕ) → from ≤ n → n < to → n < length self.new.ranks.items
            → HasRank (slice_index self.new.ranks.items n) rank }
        ensures more { TellsMore self.old self.new }
        ensures last { HasSameLast self.old self.new }
        ensures counter { visits.new.turn ≡ visits.old.turn }
    {
        for range in from..to.min(self.ranks.len()) {
            self.tell_at(range, rank, visits);
        }
    }

    /// Has no range any more, and gives the memory back.
    pub(crate) fn clear(&mut self)
        ensures ranges { IsByRange self.new }
        ensures none { HasNone self.new }
        ensures last { vec_capacity self.new.last ≡ 0 }
        ensures ranks { vec_capacity self.new.ranks ≡ 0 }
    {
        self.last.clear();
        self.ranks.clear();
        self.short = Ranks::none();
        self.bits = 0;
        self.finer = 0;
        self.give_back();
    }

    /// Gives back the memory that the ranges don't need.
    pub(crate) fn give_back(&mut self)
        ensures last { self.new.last.items ≡ self.old.last.items }
        ensures ranks { self.new.ranks.items ≡ self.old.ranks.items }
        ensures short { self.new.short ≡ self.old.short }
        ensures bits { self.new.bits ≡ self.old.bits }
        ensures finer { self.new.finer ≡ self.old.finer }
        ensures no_last { length self.old.last.items ≡ 0 → vec_capacity self.new.last ≡ 0 }
        ensures no_ranks { length self.old.ranks.items ≡ 0 → vec_capacity self.new.ranks ≡ 0 }
    {
        give_back(&mut self.last, LAST_BESIDE);
        give_back(&mut self.ranks, RANKS_BESIDE);
    }

    /// Asks for the memory of twice as many ranges, where there can be as many.
    pub(crate) fn reserve(&mut self, memory: &mut Memory) -> Result<(), AllocError>
        ensures last { self.new.last.items ≡ self.old.last.items }
        ensures ranks { self.new.ranks.items ≡ self.old.ranks.items }
        ensures short { self.new.short ≡ self.old.short }
        ensures bits { self.new.bits ≡ self.old.bits }
        ensures finer { self.new.finer ≡ self.old.finer }
        ensures room { OnOk result (self.new.bits < MOST_BITS
            → more_of (FEWEST / EACH) self.new.last ≤ vec_capacity self.new.last) }
        ensures ranks_room { OnOk result
            (self.new.bits < MOST_BITS → more_of FEWEST self.new.ranks ≤ vec_capacity self.new.ranks) }
        ensures counted { Rises (is_err result) memory.old memory.new }
    {
        if self.bits < MOST_BITS {
            ask_for_more(&mut self.last, FEWEST / EACH, LAST_BESIDE, memory)?;
            ask_for_more(&mut self.ranks, FEWEST, RANKS_BESIDE, memory)?;
        }
        Ok(())
    }

    /// Has as many ranges as the table of places has buckets, where there is memory for them, and knows of each what
    /// the table has.
    #[inline(always)]
    pub(crate) fn follow<R: Rooms<P>>(&mut self, places: &Places<P>, rooms: &R, visits: &mut Visits)
        requires table { IsTable places.now }
        requires known { AllAre (R.Knows rooms.now) places.now }
        requires turn { R.IsTurn rooms.now visits.old.turn }
        requires ranges { IsByRange self.old }
        requires within { (e : Filed) → Has self.old e → IsIn places.now e }
        requires told { AreTold self.old places.now }
        ensures ranges { IsByRange self.new }
        ensures within { (e : Filed) → Has self.new e → IsIn places.now e }
        ensures told { AreTold self.new places.now }
        ensures many { length places.now.tags.items / PLACES / EACH ≤ vec_capacity self.old.last
            → length places.now.tags.items / PLACES ≤ vec_capacity self.old.ranks
            → length self.new.ranks.items ≡ length places.now.tags.items / PLACES }
        ensures counter { visits.new.turn ≡ visits.old.turn }
    {
        let many = places.many() / PLACES;
        if many != self.many() && self.is_reserved(many) {
            self.renew(many, places, rooms, visits);
        }
    }

    /// Has so many ranges, for which there is memory, and of each what the table has, of entries the last by their
    /// places.
    #[inline(never)]
    fn renew<R: Rooms<P>>(
        &mut self,
        many: usize,
        places: &Places<P>,
        rooms: &R,
        visits: &mut Visits,
    )
        requires table { IsTable places.now }
        requires known { AllAre (R.Knows rooms.now) places.now }
        requires turn { R.IsTurn rooms.now visits.old.turn }
        requires last { many / EACH ≤ vec_capacity self.old.last }
        requires ranks { many ≤ vec_capacity self.old.ranks }
        requires finer { self.old.finer ≤ KEY_BITS }
        ensures ranges { IsByRange self.new }
        ensures within { (e : Filed) → Has self.new e → IsIn places.now e }
        ensures told { AreTold self.new places.now }
        ensures many { length self.new.ranks.items ≡ many }
        ensures counter { visits.new.turn ≡ visits.old.turn }
    {
        self.begin(many, places.bits, places.used(), visits);
        for place in 0..places.many() {
            if let Some(entry) = places.at(place, visits) {
                let pair = rooms.pair(entry, visits);
                self.put(pair, entry.room(), visits);
            }
        }
    }

    /// Begins anew for a table of 2^`bits` buckets in which so many entries stand, with as many ranges, where there is
    /// memory for them.
    pub(crate) fn begin_for(&mut self, bits: u32, entries: usize, visits: &mut Visits)
        requires bits { bits ≤ MOST_BITS }
        requires ranges { IsByRange self.old }
        ensures ranges { IsByRange self.new }
        ensures fewer { (e : Filed) → Has self.new e → Has self.old e }
        ensures many { 2 ^ bits / EACH ≤ vec_capacity self.old.last → 2 ^ bits ≤ vec_capacity self.old.ranks
            → length self.new.ranks.items ≡ 2 ^ bits }
        ensures counter { visits.new.turn ≡ visits.old.turn }
    {
        let many = 1 << bits;
        if self.is_reserved(many) {
            self.begin(many, bits, entries, visits);
        }
    }

    /// Whether there is memory for so many.
    fn is_reserved(&self, many: usize) -> bool
        ensures { result ≡ (nat_le (many / EACH) (vec_capacity self.now.last)
            && nat_le many (vec_capacity self.now.ranks)) }
    {
        many / EACH <= self.last.capacity() && many <= self.ranks.capacity()
    }

    /// So many ranges, none of which knows an entry, for so many entries that are to come.
    fn begin(&mut self, many: usize, bits: u32, entries: usize, visits: &mut Visits)
        requires bits { bits ≤ MOST_BITS }
        requires finer { self.old.finer ≤ KEY_BITS }
        requires last { many / EACH ≤ vec_capacity self.old.last }
        requires ranks { many ≤ vec_capacity self.old.ranks }
        ensures ranges { IsByRange self.new }
        ensures none { HasNone self.new }
        ensures many { length self.new.ranks.items ≡ many }
        ensures counter { visits.new.turn ≡ visits.old.turn }
    {
        let finer = finer_by(self.finer, entries, self.used(visits)).min(KEY_BITS - bits);
        let fewer = many < self.many();
        self.last.clear();
        fill(&mut self.last, many / EACH);
        self.ranks.clear();
        self.ranks.resize(many, Ranks::none()).unwrap();
        self.short = Ranks::none();
        self.bits = bits;
        self.finer = finer;
        // an addition asks for no memory here, and gives none back
        if fewer {
            self.give_back();
        }
    }
}

/// Asks for the memory of twice as many, or of the first, and of some beside.
fn ask_for_more<T>(
    known: &mut Vec<T>,
    first: usize,
    beside: usize,
    memory: &mut Memory,
) -> Result<(), AllocError>
    requires first { first ≤ FEWEST }
    requires beside { beside ≤ 6 }
    ensures items { known.new.items ≡ known.old.items }
    ensures room { OnOk result (more_of first known.new ≤ vec_capacity known.new) }
    ensures counted { Rises (is_err result) memory.old memory.new }
{
    if known.is_empty() {
        memory.reserve(known, first + beside)
    } else {
        memory.double(known, beside)
    }
}
