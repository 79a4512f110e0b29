//! How the table of places becomes larger and smaller.
ghost use Rattle.std.specs.Prelude.{◌≡◌, ℕ, ◌+◌, ◌*◌, ◌/◌, ◌^◌, ◌<◌, ◌≤◌, ◌⊎◌, ◌&&◌, [], true, false, None, Some, IfSome, length, nat_le, nat_lt, slice_get, vec_capacity};
ghost use Rattle.room_index.specs.Filed.{Filed};
ghost use Rattle.room_index.specs.Places.{stands, AllAre, AreFiled, HasSamePlaces, HaveSame, IsCounted, IsHome, IsIn, IsTable};
ghost use Rattle.room_index.specs.Ranges.{AreTold, Has, IsByRange, IsTold, TellsMore};
ghost use Rattle.room_index.specs.Sizes.{Folds, IsReserved, Parts, more_places};

use crate::entry::Pair;
use crate::homes::{Homes, MOST_BITS};
use crate::places::{FEWEST, Places};
use crate::ranges::{EACH, Ranges};
use crate::rooms::Rooms;
use crate::tags::{BOTH, PLACES};
use radix_nodes::Visits;

/// How many bits the numbers of the first buckets have.
const FEWEST_BITS: u32 = 2;

/// So many entries for each bucket make a table dense. Then nearly all buckets have a free place, and an entry of one
/// that has none mostly finds one in its other home.
const DENSE: usize = 5;

/// Of so many places, those of 32 buckets, the rooms are read one right behind another as a table doubles: so the
/// memory of each comes while that of many others is waited for.
const TOGETHER: usize = 32 * PLACES;

impl<P: Pair> Places<P> {
    /// Whether its entries are many for it.
    pub(crate) fn is_dense(&self) -> bool
        ensures { result ≡ nat_le (length self.now.tags.items / PLACES) (self.now.used / DENSE) }
    {
        self.many() / PLACES <= self.used() / DENSE
    }

    /// Whether they are few: not one for two buckets. Then hardly ever do two that become one have more than its
    /// places.
    pub(crate) fn is_sparse(&self) -> bool
        ensures { result
            ≡ (nat_lt FEWEST_BITS self.now.bits && nat_lt self.now.used (length self.now.tags.items / BOTH)) }
    {
        self.bits > FEWEST_BITS && self.used() < self.many() / BOTH
    }

    /// Makes the table larger, where its entries are many for it, and the memory of a larger one was asked for. The new
    /// places are free. The ranges become as many, where there is memory for them.
    #[inline(always)]
    pub(crate) fn grow<R: Rooms<P>>(
        &mut self,
        ranges: &mut Ranges<P>,
        rooms: &R,
        visits: &mut Visits,
    )
        requires table { IsTable self.old }
        requires known { AllAre (R.Knows rooms.now) self.old }
        requires turn { R.IsTurn rooms.now visits.old.turn }
        requires ranges { IsByRange ranges.old }
        requires within { (e : Filed) → Has ranges.old e → IsIn self.old e }
        requires told { AreTold ranges.old self.old }
        ensures table { IsTable self.new }
        ensures same { HaveSame self.old self.new }
        ensures larger { nat_le (length self.old.tags.items / PLACES) (self.old.used / DENSE) ≡ true
            → IsReserved self.old
            → self.old.bits < MOST_BITS → length self.new.tags.items ≡ length self.old.tags.items + more_places self.old }
        ensures ranges { IsByRange ranges.new }
        ensures within { (e : Filed) → Has ranges.new e → IsIn self.new e }
        ensures told { AreTold ranges.new self.new }
        ensures many { 0 < length self.old.tags.items → length self.old.tags.items < length self.new.tags.items
            → length self.new.tags.items / PLACES / EACH ≤ vec_capacity ranges.old.last
            → length self.new.tags.items / PLACES ≤ vec_capacity ranges.old.ranks
            → length ranges.new.ranks.items ≡ length self.new.tags.items / PLACES }
        ensures counter { visits.new.turn ≡ visits.old.turn }
    {
        if !self.is_dense() || self.bits == MOST_BITS || !self.is_reserved() {
            return;
        }
        if self.many() == 0 {
            self.begin();
        } else {
            self.double(ranges, rooms, visits);
        }
    }

    /// Makes the first places.
    #[inline(never)]
    fn begin(&mut self)
        requires none { length self.old.tags.items ≡ 0 }
        requires even { length self.old.entries.items ≡ 0 }
        requires reserved { IsReserved self.old }
        requires used { IsCounted self.old }
        ensures table { IsTable self.new }
        ensures same { HaveSame self.old self.new }
        ensures larger { length self.new.tags.items ≡ FEWEST }
    {
        self.lengthen(FEWEST);
        self.bits = FEWEST_BITS;
    }

    /// Makes as many places more: each entry stays, or moves on by so many. The ranges begin anew, as many as there are
    /// buckets then, and tell each entry as it is passed: so its room is read once.
    #[inline(never)]
    fn double<R: Rooms<P>>(&mut self, ranges: &mut Ranges<P>, rooms: &R, visits: &mut Visits)
        requires table { IsTable self.old }
        requires known { AllAre (R.Knows rooms.now) self.old }
        requires turn { R.IsTurn rooms.now visits.old.turn }
        requires some { 0 < length self.old.tags.items }
        requires few { self.old.bits < MOST_BITS }
        requires reserved { IsReserved self.old }
        requires ranges { IsByRange ranges.old }
        requires within { (e : Filed) → Has ranges.old e → IsIn self.old e }
        ensures table { IsTable self.new }
        ensures same { HaveSame self.old self.new }
        ensures larger { length self.new.tags.items ≡ 2 * length self.old.tags.items }
        ensures ranges { IsByRange ranges.new }
        ensures within { (e : Filed) → Has ranges.new e → IsIn self.new e }
        ensures told { AreTold ranges.new self.new }
        ensures many { length self.new.tags.items / PLACES / EACH ≤ vec_capacity ranges.old.last
            → length self.new.tags.items / PLACES ≤ vec_capacity ranges.old.ranks
            → length ranges.new.ranks.items ≡ length self.new.tags.items / PLACES }
        ensures counter { visits.new.turn ≡ visits.old.turn }
    {
        ranges.begin_for(self.bits + 1, self.used(), visits);
        let many = self.many();
        self.lengthen(2 * many);
        let mut pairs = [0; TOGETHER];
        for place in 0..many {
            if place % TOGETHER == 0 {
                pairs = self.pairs_from(place, rooms, visits);
            }
            self.part(place, many, pairs[place % TOGETHER], ranges, visits);
        }
        self.bits += 1;
    }

    /// The pairs of the entries from a place on, of as many places as are read together, or as there are.
    #[inline(always)]
    fn pairs_from<R: Rooms<P>>(
        &self,
        first: usize,
        rooms: &R,
        visits: &mut Visits,
    ) -> [u64; TOGETHER]
        requires known { AllAre (R.Knows rooms.now) self.now }
        requires turn { R.IsTurn rooms.now visits.old.turn }
        requires within { first ≤ length self.now.tags.items }
        requires even { length self.now.entries.items ≡ length self.now.tags.items }
        ensures pairs { (n : ℕ) (e : Filed) → n < TOGETHER → stands self.now (first + n) ≡ Some e
            → slice_get result n ≡ Some e.pair }
        ensures counter { visits.new.turn ≡ visits.old.turn }
    {
        let mut pairs = [0; TOGETHER];
        for number in 0..TOGETHER.min(self.many() - first) {
            if let Some(entry) = self.at(first + number, visits) {
                pairs[number] = rooms.pair(entry, visits);
            }
        }
        pairs
    }

    /// Tells the ranges the entry of a place, which is of this pair, and moves it on by so many places, where it isn't at
    /// home there among twice as many buckets.
    #[inline(always)]
    fn part(
        &mut self,
        place: usize,
        many: usize,
        pair: u64,
        ranges: &mut Ranges<P>,
        visits: &mut Visits,
    )
        requires many { many ≡ 8 * 2 ^ self.old.bits }
        requires size { length self.old.tags.items ≡ 2 * many }
        requires even { length self.old.entries.items ≡ length self.old.tags.items }
        requires few { self.old.bits < MOST_BITS }
        requires within { place < many }
        requires pair { (e : Filed) → stands self.old place ≡ Some e → pair ≡ e.pair }
        requires filed { AreFiled self.old (Parts self.old.bits many place) }
        requires used { IsCounted self.old }
        requires ranges { IsByRange ranges.old }
        ensures filed { AreFiled self.new (Parts self.old.bits many (place + 1)) }
        ensures used { IsCounted self.new }
        ensures same { HaveSame self.old self.new }
        ensures left { (n : ℕ) → place < n → n < many → stands self.new n ≡ stands self.old n }
        ensures places { HasSamePlaces self.old self.new }
        ensures ranges { IsByRange ranges.new }
        ensures only { (e : Filed) → Has ranges.new e → IsIn self.old e ⊎ Has ranges.old e }
        ensures told { (e : Filed) → stands self.old place ≡ Some e → IsTold ranges.new e.pair }
        ensures more { TellsMore ranges.old ranges.new }
        ensures counter { visits.new.turn ≡ visits.old.turn }
    {
        let Some(entry) = self.at(place, visits) else {
            return;
        };
        ranges.put(pair, entry.room(), visits);
        if !Homes::of(pair, self.bits + 1).has(place / PLACES) {
            self.move_to(place, place + many, visits);
        }
    }

    /// Makes the table smaller, where its entries are few for it. `false` where one finds no place there: then all are
    /// given up.
    pub(crate) fn shrink<R: Rooms<P>>(&mut self, rooms: &R, visits: &mut Visits) -> bool
        requires table { IsTable self.old }
        requires known { AllAre (R.Knows rooms.now) self.old }
        requires turn { R.IsTurn rooms.now visits.old.turn }
        ensures table { IsTable self.new }
        ensures same { result ≡ true → HaveSame self.old self.new }
        ensures none { (result ≡ false) ⊎ (self.old.tags.items ≡ []) → self.new.tags.items ≡ [] }
        ensures counter { visits.new.turn ≡ visits.old.turn }
    {
        if !self.is_sparse() {
            return true;
        }
        if !self.halve(rooms, visits) {
            self.give_up();
            return false;
        }
        true
    }

    /// Makes the table half as large. `false` where an entry of the upper half finds no place in the lower one.
    fn halve<R: Rooms<P>>(&mut self, rooms: &R, visits: &mut Visits) -> bool
        requires table { IsTable self.old }
        requires known { AllAre (R.Knows rooms.now) self.old }
        requires turn { R.IsTurn rooms.now visits.old.turn }
        requires some { 0 < length self.old.tags.items }
        requires many { 0 < self.old.bits }
        ensures table { result ≡ true → IsTable self.new }
        ensures same { result ≡ true → HaveSame self.old self.new }
        ensures smaller { result ≡ true → 2 * length self.new.tags.items ≡ length self.old.tags.items }
        ensures counter { visits.new.turn ≡ visits.old.turn }
    {
        self.bits -= 1;
        let half = self.many() / 2;
        for place in half..2 * half {
            if !self.fold(place, half, rooms, visits) {
                return false;
            }
        }
        self.shorten(half);
        true
    }

    /// Moves the entry of a place of the upper half to the lower one. `false` where there is no place for it.
    fn fold<R: Rooms<P>>(
        &mut self,
        place: usize,
        half: usize,
        rooms: &R,
        visits: &mut Visits,
    ) -> bool
        requires known { AllAre (R.Knows rooms.now) self.old }
        requires turn { R.IsTurn rooms.now visits.old.turn }
        requires half { half ≡ 8 * 2 ^ self.old.bits }
        requires bits { self.old.bits ≤ MOST_BITS }
        requires size { length self.old.tags.items ≡ 2 * half }
        requires even { length self.old.entries.items ≡ length self.old.tags.items }
        requires upper { half ≤ place }
        requires within { place < 2 * half }
        requires filed { AreFiled self.old (Folds self.old.bits half place) }
        requires used { IsCounted self.old }
        ensures used { IsCounted self.new }
        ensures filed { result ≡ true → AreFiled self.new (Folds self.old.bits half (place + 1)) }
        ensures same { result ≡ true → HaveSame self.old self.new }
        ensures places { HasSamePlaces self.old self.new }
        ensures counter { visits.new.turn ≡ visits.old.turn }
    {
        let Some(entry) = self.at(place, visits) else {
            return true;
        };
        let pair = rooms.pair(entry, visits);
        let Some(free) = self.free_below(pair, (place - half) / PLACES, visits) else {
            return false;
        };
        self.move_to(place, free, visits);
        true
    }

    /// A free place in this home of a pair, or in the one beside it.
    fn free_below(&self, pair: u64, home: usize, visits: &mut Visits) -> Option<usize>
        requires bits { self.now.bits ≤ MOST_BITS }
        requires size { 8 * 2 ^ self.now.bits ≤ length self.now.tags.items }
        requires home { IsHome self.now.bits (8 * home) pair }
        ensures free { IfSome result (λ n. (n < length self.now.tags.items) × (stands self.now n ≡ None)) }
        ensures home { IfSome result (λ n. IsHome self.now.bits n pair) }
        ensures counter { visits.new.turn ≡ visits.old.turn }
    {
        match self.free_in(home, visits) {
            Some(free) => Some(free),
            None => self.free_in(Homes::of(pair, self.bits).beside(home), visits),
        }
    }
}
