//! The table of places. What stands there is read by the calls of this file alone, each of which counts its looks.
ghost use Rattle.std.specs.Prelude.{◌≡◌, ℕ, ◌+◌, ◌*◌, ◌/◌, ◌<◌, ◌≤◌, ◌==◌, if◌then◌else◌, [], length, slice_get, slice_index, slice_set, vec_capacity};
ghost use Rattle.std.specs.Prelude.{IfSome, IfNone, MatchBool, is_err, nat_le, OnOk, Some, None, option_map, ◌&&◌, ◌-◌};
ghost use Rattle.memory.specs.Refusing.{Rises};
ghost use Rattle.room_index.specs.Homes.{tag_of};
ghost use Rattle.room_index.specs.Looks.{Reads, pair_looks};
ghost use Rattle.room_index.specs.Places.{stands, AllAre, Changes, HasPlaces, HasSamePlaces, IsCounted, IsIn, IsTable, Loses, Moves, StandAsBefore};
ghost use Rattle.room_index.specs.Sizes.{IsReserved, more_places};
ghost use Rattle.room_index.specs.Filed.{Filed};

use crate::entry::{Entry, Pair};
use crate::homes::{Homes, MOST_BITS};
use crate::rooms::Rooms;
use crate::tags::{BOTH, PLACES, places_before, used_before};
use memory::{Memory, give_back};
use radix_nodes::{Id, Visits};
use std::alloc::{AllocError, Global};
use std::mem;

/// How many places there are at first, those of four buckets.
pub(crate) const FEWEST: usize = 32;

/// How many entries there is memory for beside those that are there: 48 bytes, where an entry is the name of a room. With
/// what the C library puts before it each block is then as long as whole lines of the cache, so that rooms which are
/// made after it lie in their lines as those before.
const ENTRIES_BESIDE: usize = 6;

/// How many tags, likewise.
const TAGS_BESIDE: usize = 48;

/// Beside the first tags it takes as many more.
const FIRST_TAGS_BESIDE: usize = TAGS_BESIDE + FEWEST;

/// Places for entries, eight to each of 2^`bits` buckets, or none yet. Beside each entry, in a list of its own, stands
/// its tag, or 0 where the place is free: so the tags of a bucket are read at once.
#[derive(Drop)]
pub(crate) struct Places<P: Pair> {
    tags: Vec<u8>,
    entries: Vec<Entry<P>>,
    pub(crate) bits: u32,
    /// In how many of them an entry stands.
    used: usize,
}

impl<P: Pair> Places<P> {
    /// No place.
    pub(crate) fn none(alloc: Global) -> Places<P>
        ensures table { IsTable result }
        ensures none { (n : ℕ) → stands result n ≡ None }
    {
        Places {
            tags: Vec::new(alloc),
            entries: Vec::new(alloc),
            bits: 0,
            used: 0,
        }
    }

    /// How many there are.
    #[inline(always)]
    pub(crate) fn many(&self) -> usize
        ensures { result ≡ length self.now.tags.items }
    {
        self.tags.len()
    }

    /// In how many an entry stands.
    #[inline(always)]
    pub(crate) fn used(&self) -> usize
        ensures { result ≡ self.now.used }
    {
        self.used
    }

    /// How many there is memory for.
    #[cfg(test)]
    pub(crate) fn capacity(&self) -> usize {
        self.tags.capacity().max(self.entries.capacity())
    }

    // ---- what is read

    /// The place of a pair, and its room. It reads the tags of both its homes, and looks at each entry that has the
    /// pair's.
    #[inline(always)]
    pub(crate) fn find<R: Rooms<P>>(
        &self,
        pair: u64,
        rooms: &R,
        visits: &mut Visits,
    ) -> Option<(usize, Id)>
        requires table { IsTable self.now }
        requires known { AllAre (R.Knows rooms.now) self.now }
        requires turn { R.IsTurn rooms.now visits.old.turn }
        ensures some { IfSome result (λ f. stands self.now f.0 ≡ Some (record { pair = pair; room = f.1 })) }
        ensures none { IfNone result ((n : ℕ) (e : Filed) → stands self.now n ≡ Some e → e.pair ≡ pair → ⊥) }
        ensures visits { Reads visits.old visits.new (pair_looks + 16 * R.looks) }
        ensures counted { 0 < length self.now.tags.items → visits.old.count + BOTH ≤ visits.new.count }
    {
        if self.tags.is_empty() {
            return None;
        }
        let homes = Homes::of(pair, self.bits);
        let first = PLACES * homes.first;
        let second = PLACES * homes.second;
        let (before, hits) = places_before(&self.tags, first, second, homes.tag, visits);
        for number in before..BOTH {
            let place = homes.place(number);
            if let Some(entry) = self.tagged(place, homes.tag, visits) {
                if rooms.pair(entry, visits) == pair {
                    return Some((place, entry.room()));
                }
                // mostly no place behind it has the tag
                if hits >> number <= 1 {
                    return None;
                }
            }
        }
        None
    }

    /// What stands in a place under this tag.
    #[inline(always)]
    fn tagged(&self, place: usize, tag: u8, visits: &mut Visits) -> Option<&Entry<P>>
        requires tags { place < length self.now.tags.items }
        requires entries { length self.now.entries.items ≡ length self.now.tags.items }
        ensures entry { option_map (λ e. e.now) result
            ≡ (if slice_index self.now.tags.items place == tag then slice_get self.now.entries.items place else None) }
        ensures look { visits.new ≡ record visits.old { count = visits.old.count + 1 } }
    {
        visits.tick(); // the look under a tag
        if self.tags[place] == tag {
            Some(&self.entries[place])
        } else {
            None
        }
    }

    /// What stands in a place.
    #[inline(always)]
    pub(crate) fn at(&self, place: usize, visits: &mut Visits) -> Option<&Entry<P>>
        requires tags { place < length self.now.tags.items }
        requires entries { length self.now.entries.items ≡ length self.now.tags.items }
        ensures some { IfSome result (λ e. stands self.now place ≡ Some e.now) }
        ensures none { IfNone result (stands self.now place ≡ None) }
        ensures look { visits.new ≡ record visits.old { count = visits.old.count + 1 } }
    {
        visits.tick(); // the look at a place
        if self.tags[place] == 0 {
            None
        } else {
            Some(&self.entries[place])
        }
    }

    /// The first free place of a bucket.
    #[inline(always)]
    pub(crate) fn free_in(&self, bucket: usize, visits: &mut Visits) -> Option<usize>
        requires { 8 * bucket + 8 ≤ length self.now.tags.items }
        ensures free { IfSome result (λ n. (n / 8 ≡ bucket) × (n < length self.now.tags.items)
            × (stands self.now n ≡ None)) }
        ensures full { IfNone result ((n : ℕ) → n / 8 ≡ bucket → slice_index self.now.tags.items n ≡ 0 → ⊥) }
        ensures looks { visits.new ≡ record visits.old { count = visits.old.count + PLACES } }
    {
        let begin = PLACES * bucket;
        let used = used_before(&self.tags, begin, visits);
        if used == PLACES {
            return None;
        }
        Some(begin + used)
    }

    // ---- what changes

    /// Writes an entry of a pair, without a room yet, into a free place. The place is free still.
    #[inline(always)]
    pub(crate) fn write_ahead(&mut self, place: usize, pair: u64)
        requires within { place < length self.old.entries.items }
        requires free { stands self.old place ≡ None }
        ensures stand { StandAsBefore self.old self.new }
        ensures used { self.new.used ≡ self.old.used }
        ensures written { IfSome (slice_get self.new.entries.items place) (λ e. e.pair ≡ pair) }
    {
        self.entries[place] = Entry::ahead(pair);
    }

    /// Puts an entry into a free place.
    #[inline(always)]
    pub(crate) fn put(&mut self, place: usize, tag: u8, entry: Entry<P>)
        requires tags { place < length self.old.tags.items }
        requires entries { length self.old.entries.items ≡ length self.old.tags.items }
        requires tag { tag ≡ tag_of entry.pair }
        requires free { stands self.old place ≡ None }
        requires used { IsCounted self.old }
        ensures put { Changes self.old self.new place (Some entry) }
        ensures used { IsCounted self.new }
    {
        self.write(place, tag, entry);
        self.used += 1;
    }

    /// Writes an entry and its tag into a place.
    #[inline(always)]
    fn write(&mut self, place: usize, tag: u8, entry: Entry<P>)
        requires tags { place < length self.old.tags.items }
        requires entries { length self.old.entries.items ≡ length self.old.tags.items }
        requires tag { tag ≡ tag_of entry.pair }
        ensures written { Changes self.old self.new place (Some entry) }
        ensures tags { self.new.tags.items ≡ slice_set self.old.tags.items place tag }
        ensures used { self.new.used ≡ self.old.used }
    {
        self.tags[place] = tag;
        self.entries[place] = entry;
    }

    /// Frees a place in which an entry stands, and gives that one, at which its callers have looked.
    fn free(&mut self, place: usize) -> Entry<P>
        requires within { place < length self.old.tags.items }
        requires even { length self.old.entries.items ≡ length self.old.tags.items }
        requires stood { stands self.old place ≡ None → ⊥ }
        requires used { IsCounted self.old }
        ensures freed { Changes self.old self.new place None }
        ensures was { stands self.old place ≡ Some result }
        ensures used { IsCounted self.new }
    {
        self.tags[place] = 0;
        self.used -= 1;
        mem::replace(&mut self.entries[place], Entry::ahead(0))
    }

    /// Takes out the entry of a pair, where there is one.
    pub(crate) fn take<R: Rooms<P>>(&mut self, pair: u64, rooms: &R, visits: &mut Visits)
        requires table { IsTable self.old }
        requires known { AllAre (R.Knows rooms.now) self.old }
        requires turn { R.IsTurn rooms.now visits.old.turn }
        ensures table { IsTable self.new }
        ensures loses { Loses self.old self.new pair }
        ensures places { HasSamePlaces self.old self.new }
        ensures visits { Reads visits.old visits.new (pair_looks + 16 * R.looks) }
    {
        if let Some((place, _room)) = self.find(pair, rooms, visits) {
            self.free(place);
        }
    }

    /// Moves what stands in a place to a free one, in which its pair may stand.
    pub(crate) fn move_to(&mut self, from: usize, to: usize, visits: &mut Visits)
        requires from { from < length self.old.tags.items }
        requires to { (to < length self.old.tags.items) × (stands self.old to ≡ None) }
        requires size { length self.old.entries.items ≡ length self.old.tags.items }
        requires entry { (e : Filed) × (stands self.old from ≡ Some e)
            × (slice_index self.old.tags.items from ≡ tag_of e.pair) }
        requires used { IsCounted self.old }
        ensures moved { Moves self.old self.new from to }
        ensures used { IsCounted self.new }
        ensures look { visits.new ≡ record visits.old { count = visits.old.count + 1 } }
    {
        visits.tick(); // the look at what moves
        let tag = self.tags[from];
        let entry = self.free(from);
        self.put(to, tag, entry);
    }

    // ---- how many there are

    /// How many places more a larger table has.
    fn more(&self) -> usize
        ensures { result ≡ more_places self.now }
    {
        if self.tags.is_empty() {
            FEWEST
        } else {
            self.tags.len()
        }
    }

    /// Asks for the memory that a larger table takes, where there can be one.
    pub(crate) fn reserve(&mut self, memory: &mut Memory) -> Result<(), AllocError>
        requires { length self.old.entries.items ≡ length self.old.tags.items }
        ensures tags { self.new.tags.items ≡ self.old.tags.items }
        ensures entries { self.new.entries.items ≡ self.old.entries.items }
        ensures bits { self.new.bits ≡ self.old.bits }
        ensures used { self.new.used ≡ self.old.used }
        ensures reserved { OnOk result (self.new.bits < MOST_BITS → IsReserved self.new) }
        ensures counted { Rises (is_err result) memory.old memory.new }
    {
        if self.tags.is_empty() {
            memory.reserve(&mut self.entries, FEWEST + ENTRIES_BESIDE)?;
            memory.reserve(&mut self.tags, FEWEST + FIRST_TAGS_BESIDE)?;
        } else if self.bits < MOST_BITS {
            memory.double(&mut self.entries, ENTRIES_BESIDE)?;
            memory.double(&mut self.tags, TAGS_BESIDE)?;
        }
        Ok(())
    }

    /// Whether there is memory for a larger table.
    pub(crate) fn is_reserved(&self) -> bool
        ensures { result ≡ (nat_le (more_places self.now) (vec_capacity self.now.tags - length self.now.tags.items)
            && nat_le (more_places self.now) (vec_capacity self.now.entries - length self.now.entries.items)) }
    {
        let more = self.more();
        more <= self.tags.capacity() - self.tags.len()
            && more <= self.entries.capacity() - self.entries.len()
    }

    /// Makes the lists of places so long, for which there is memory.
    pub(crate) fn lengthen(&mut self, size: usize)
        requires longer { length self.old.tags.items ≤ size }
        requires even { length self.old.entries.items ≡ length self.old.tags.items }
        requires tags { size ≤ vec_capacity self.old.tags }
        requires entries { size ≤ vec_capacity self.old.entries }
        requires used { IsCounted self.old }
        ensures places { HasPlaces self.old self.new size }
        ensures used { IsCounted self.new }
    {
        self.tags.resize(size, 0).unwrap();
        self.entries.resize_with(size, || Entry::ahead(0)).unwrap();
    }

    /// Makes the lists of places so short, of which none is used behind, and gives the memory back.
    pub(crate) fn shorten(&mut self, size: usize)
        requires shorter { size ≤ length self.old.tags.items }
        requires even { length self.old.entries.items ≡ length self.old.tags.items }
        requires free { (n : ℕ) → size ≤ n → stands self.old n ≡ None }
        requires used { IsCounted self.old }
        ensures places { HasPlaces self.old self.new size }
        ensures used { IsCounted self.new }
        ensures tags { vec_capacity self.new.tags ≤ vec_capacity self.old.tags }
        ensures entries { vec_capacity self.new.entries ≤ vec_capacity self.old.entries }
    {
        self.tags.truncate(size);
        self.entries.truncate(size);
        self.give_back();
    }

    /// Gives all places up, and their memory.
    #[inline(never)]
    pub(crate) fn give_up(&mut self)
        ensures table { IsTable self.new }
        ensures none { self.new.tags.items ≡ [] }
        ensures tags { vec_capacity self.new.tags ≡ 0 }
        ensures entries { vec_capacity self.new.entries ≡ 0 }
    {
        self.tags.clear();
        self.entries.clear();
        self.bits = 0;
        self.used = 0;
        self.give_back();
    }

    /// Gives back the memory that the places don't need.
    pub(crate) fn give_back(&mut self)
        ensures tags { self.new.tags.items ≡ self.old.tags.items }
        ensures entries { self.new.entries.items ≡ self.old.entries.items }
        ensures bits { self.new.bits ≡ self.old.bits }
        ensures used { self.new.used ≡ self.old.used }
        ensures less_tags { vec_capacity self.new.tags ≤ vec_capacity self.old.tags }
        ensures less_entries { vec_capacity self.new.entries ≤ vec_capacity self.old.entries }
        ensures no_tags { length self.old.tags.items ≡ 0 → vec_capacity self.new.tags ≡ 0 }
        ensures no_entries { length self.old.entries.items ≡ 0 → vec_capacity self.new.entries ≡ 0 }
    {
        give_back(&mut self.tags, TAGS_BESIDE);
        give_back(&mut self.entries, ENTRIES_BESIDE);
    }
}
