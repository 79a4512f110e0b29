//! Of each slot the last pair that came into it.
ghost use Rattle.std.specs.Prelude.{◌≡◌, ℕ, ◌+◌, ◌<◌, ◌≤◌, ◌⊎◌, length, vec_capacity, IfSome, Some, None, []};
ghost use Rattle.std.specs.List.{All};
ghost use Rattle.room_index.specs.Filed.{Filed};
ghost use Rattle.room_index.specs.Looks.{Reads, near_looks};
ghost use Rattle.room_index.specs.Ranges.{last_in, slot_of, Has, IsByRange, KeepsOthers};

use super::{EACH, EACH_BITS, KEY_BITS, Ranges};
use crate::entry::Pair;
use crate::homes::{MOST_BITS, PAIR_BITS, key_of, low_bits};
use crate::last::{BESIDE, Last};
use radix_nodes::{Id, Visits};

impl<P: Pair> Ranges<P> {
    /// How many bits of a pair's number are behind the first `bits + finer` of its key. The last of these parts no slots.
    #[inline(always)]
    fn rest(&self) -> u32
        requires { self.now.bits + self.now.finer ≤ KEY_BITS }
        ensures { result + (self.now.bits + self.now.finer) ≡ PAIR_BITS }
    {
        PAIR_BITS - (self.bits + self.finer)
    }

    /// The slot of a pair.
    #[inline(always)]
    fn slot(&self, pair: u64) -> usize
        requires few { self.now.bits ≤ MOST_BITS }
        requires finer { self.now.bits + self.now.finer ≤ KEY_BITS }
        ensures { result ≡ slot_of self.now pair }
    {
        low_bits(pair >> self.rest(), self.bits) / EACH
    }

    /// The room of the pair that a pair's slot has, or one beside it, where that one's key begins as this one's does
    /// but for the bits that part those slots, and the slot has few. It is one look at each slot.
    #[inline(always)]
    pub(crate) fn near(&self, pair: u64, visits: &mut Visits) -> Option<Id>
        requires { IsByRange self.now }
        ensures near { IfSome result (λ room. (e : Filed) × Has self.now e × (e.room ≡ room)) }
        ensures looks { Reads visits.old visits.new near_looks }
        ensures counted { visits.old.count + 1 ≤ visits.new.count }
    {
        let slot = self.slot(pair);
        let key = key_of(pair);
        for beside in 0..BESIDE {
            let near = self.near_in(slot ^ beside, key, visits);
            if near.is_some() {
                return near;
            }
        }
        None
    }

    /// The room of the pair that such a slot has, where its key differs from this one at most in the last three bits that
    /// part slots. It is one look.
    #[inline(always)]
    fn near_in(&self, slot: usize, key: u32, visits: &mut Visits) -> Option<Id>
        requires { self.now.bits + self.now.finer ≤ KEY_BITS }
        ensures near { IfSome result (λ room. (e : Filed) × Has self.now e × (e.room ≡ room)) }
        ensures look { visits.new ≡ record visits.old { count = visits.old.count + 1 } }
    {
        visits.tick(); // the look at a slot's pair
        if slot >= self.last.len() {
            return None;
        }
        let left = KEY_BITS - (self.bits + self.finer) + EACH_BITS;
        self.last[slot].room_beside(key, left)
    }

    /// Puts an entry in the place of that which its slot has. It is one look.
    #[inline(always)]
    pub(super) fn put_last(&mut self, pair: u64, room: Id, visits: &mut Visits)
        requires { IsByRange self.old }
        ensures ranges { IsByRange self.new }
        ensures put { slot_of self.old pair < length self.old.last.items
            → last_in self.new (slot_of self.old pair) ≡ Some (record { pair = pair; room = room }) }
        ensures others { KeepsOthers self.old self.new pair }
        ensures only { (e : Filed) → Has self.new e → (e ≡ record { pair = pair; room = room }) ⊎ Has self.old e }
        ensures many { length self.new.last.items ≡ length self.old.last.items }
        ensures ranks { self.new.ranks.items ≡ self.old.ranks.items }
        ensures short { self.new.short ≡ self.old.short }
        ensures bits { self.new.bits ≡ self.old.bits }
        ensures finer { self.new.finer ≡ self.old.finer }
        ensures look { visits.new ≡ record visits.old { count = visits.old.count + 1 } }
    {
        visits.tick(); // the look at what its slot has
        let slot = self.slot(pair);
        if slot < self.last.len() {
            self.last[slot].put(pair, room);
        }
    }

    /// Has no entry of a pair any more. It is one look.
    pub(crate) fn lose(&mut self, pair: u64, visits: &mut Visits)
        requires { IsByRange self.old }
        ensures ranges { IsByRange self.new }
        ensures fewer { (e : Filed) → Has self.new e → Has self.old e × (e.pair ≡ pair → ⊥) }
        ensures others { KeepsOthers self.old self.new pair }
        ensures ranks { self.new.ranks.items ≡ self.old.ranks.items }
        ensures short { self.new.short ≡ self.old.short }
        ensures bits { self.new.bits ≡ self.old.bits }
        ensures finer { self.new.finer ≡ self.old.finer }
        ensures look { visits.new ≡ record visits.old { count = visits.old.count + 1 } }
    {
        visits.tick(); // the look at what goes
        let slot = self.slot(pair);
        if slot < self.last.len() {
            self.last[slot].lose(pair);
        }
    }

    /// How many slots have an entry. It is a look at each.
    pub(super) fn used(&self, visits: &mut Visits) -> usize
        ensures looks { visits.new ≡ record visits.old { count = visits.old.count + length self.now.last.items } }
    {
        let mut used = 0;
        for slot in 0..self.last.len() {
            visits.tick(); // the look whether a slot is used
            if self.last[slot].is_there() {
                used += 1;
            }
        }
        used
    }
}

/// Puts so many slots into a list that has memory for them. None has a pair.
pub(super) fn fill<P: Pair>(last: &mut Vec<Last<P>>, many: usize)
    requires empty { last.old.items ≡ [] }
    requires room { many ≤ vec_capacity last.old }
    ensures many { length last.new.items ≡ many }
    ensures none { All (λ slot. slot ≡ None) last.new.items }
{
    for _slot in 0..many {
        last.push(Last::none()).unwrap();
    }
}
