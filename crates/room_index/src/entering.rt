//! How an entry comes into the table of places.
ghost use Rattle.std.specs.Prelude.{◌≡◌, ℕ, ◌+◌, ◌*◌, ◌/◌, ◌^◌, ◌<◌, ◌≤◌, ◌⊎◌, [], true, false, None, Some, IfNone, IfSome, IsSome, length};
ghost use Rattle.room_index.specs.Homes.{first_home, second_home};
ghost use Rattle.room_index.specs.Places.{stands, Adds, AllAre, HasSamePlaces, HaveSame, IsFreeFor, IsFull, IsIn, IsTable};
ghost use Rattle.room_index.specs.Filed.{Filed};

use crate::entry::{Entry, Pair};
use crate::homes::Homes;
use crate::places::Places;
use crate::rooms::Rooms;
use crate::tags::PLACES;
use radix_nodes::{Id, Visits};

impl<P: Pair> Places<P> {
    /// A place that is free for an entry of a pair, in one of its homes. `None` where there is none: then all are given
    /// up.
    ///
    /// An entry without a room is written there ahead, so that the memory of the place, which hardly ever is at hand,
    /// comes while that of the tree is waited for.
    #[inline(always)]
    pub(crate) fn place_for<R: Rooms<P>>(
        &mut self,
        pair: u64,
        rooms: &R,
        visits: &mut Visits,
    ) -> Option<usize>
        requires table { IsTable self.old }
        requires known { AllAre (R.Knows rooms.now) self.old }
        requires turn { R.IsTurn rooms.now visits.old.turn }
        ensures table { IsTable self.new }
        ensures same { IsSome result → HaveSame self.old self.new }
        ensures place { IfSome result (λ n. IsFreeFor self.new n pair) }
        ensures none { IfNone result (self.new.tags.items ≡ []) }
        ensures full { IfNone result ((self.old.tags.items ≡ [])
            ⊎ (IsFull self.old (first_home self.old.bits pair) × IsFull self.old (second_home self.old.bits pair))) }
        ensures counter { visits.new.turn ≡ visits.old.turn }
    {
        if self.many() == 0 {
            return None;
        }
        let homes = Homes::of(pair, self.bits);
        let Some(place) = self.vacant(&homes, rooms, visits) else {
            self.give_up();
            return None;
        };
        self.write_ahead(place, pair);
        Some(place)
    }

    /// Puts an entry of a new pair into a place that is free for it.
    #[inline(always)]
    pub(crate) fn enter(&mut self, place: usize, pair: u64, room: Id)
        requires table { IsTable self.old }
        requires absent { (e : Filed) → IsIn self.old e → e.pair ≡ pair → ⊥ }
        requires place { IsFreeFor self.old place pair }
        ensures table { IsTable self.new }
        ensures entered { Adds self.old self.new (record { pair = pair; room = room }) }
    {
        let tag = Homes::of(pair, self.bits).tag;
        self.put(place, tag, Entry::of(pair, room));
    }

    /// A free place in one of a pair's homes, in that of which the first free place is further to the front. Where both
    /// are full, another entry makes way, if there is a place in its other home.
    #[inline(always)]
    fn vacant<R: Rooms<P>>(
        &mut self,
        homes: &Homes,
        rooms: &R,
        visits: &mut Visits,
    ) -> Option<usize>
        requires table { IsTable self.old }
        requires known { AllAre (R.Knows rooms.now) self.old }
        requires turn { R.IsTurn rooms.now visits.old.turn }
        requires first { 8 * homes.now.first + 8 ≤ length self.old.tags.items }
        requires second { 8 * homes.now.second + 8 ≤ length self.old.tags.items }
        ensures table { IsTable self.new }
        ensures same { HaveSame self.old self.new }
        ensures places { HasSamePlaces self.old self.new }
        ensures free { IfSome result (λ n. (n < length self.new.tags.items) × (stands self.new n ≡ None)) }
        ensures home { IfSome result (λ n. (n / 8 ≡ homes.now.first) ⊎ (n / 8 ≡ homes.now.second)) }
        ensures full { IfNone result (IsFull self.old homes.now.first × IsFull self.old homes.now.second) }
        ensures counter { visits.new.turn ≡ visits.old.turn }
    {
        let first = self.free_in(homes.first, visits);
        let second = self.free_in(homes.second, visits);
        match (first, second) {
            (Some(one), Some(other)) if other % PLACES < one % PLACES => Some(other),
            (Some(one), _) => Some(one),
            (None, Some(other)) => Some(other),
            (None, None) => match self.cleared_in(homes.first, rooms, visits) {
                Some(place) => Some(place),
                None => self.cleared_in(homes.second, rooms, visits),
            },
        }
    }

    /// A place of a bucket from which an entry has moved to its other home.
    #[inline(never)]
    fn cleared_in<R: Rooms<P>>(
        &mut self,
        bucket: usize,
        rooms: &R,
        visits: &mut Visits,
    ) -> Option<usize>
        requires table { IsTable self.old }
        requires known { AllAre (R.Knows rooms.now) self.old }
        requires turn { R.IsTurn rooms.now visits.old.turn }
        requires within { 8 * bucket + 8 ≤ length self.old.tags.items }
        ensures table { IsTable self.new }
        ensures same { HaveSame self.old self.new }
        ensures places { HasSamePlaces self.old self.new }
        ensures free { IfSome result (λ n. (n < length self.new.tags.items) × (stands self.new n ≡ None)) }
        ensures home { IfSome result (λ n. n / 8 ≡ bucket) }
        ensures counter { visits.new.turn ≡ visits.old.turn }
    {
        let begin = PLACES * bucket;
        for place in begin..begin + PLACES {
            if self.clear(place, rooms, visits) {
                return Some(place);
            }
        }
        None
    }

    /// Moves the entry of a place to its other home. `false` where there is no place for it.
    fn clear<R: Rooms<P>>(&mut self, place: usize, rooms: &R, visits: &mut Visits) -> bool
        requires table { IsTable self.old }
        requires known { AllAre (R.Knows rooms.now) self.old }
        requires turn { R.IsTurn rooms.now visits.old.turn }
        requires within { place < length self.old.tags.items }
        ensures table { IsTable self.new }
        ensures same { HaveSame self.old self.new }
        ensures places { HasSamePlaces self.old self.new }
        ensures free { result ≡ true → stands self.new place ≡ None }
        ensures counter { visits.new.turn ≡ visits.old.turn }
    {
        let Some(entry) = self.at(place, visits) else {
            return true;
        };
        let pair = rooms.pair(entry, visits);
        let other = Homes::of(pair, self.bits).beside(place / PLACES);
        let Some(free) = self.free_in(other, visits) else {
            return false;
        };
        self.move_to(place, free, visits);
        true
    }
}
