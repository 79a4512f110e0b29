//! The index of rooms by pairs.
ghost use Rattle.std.specs.Prelude.{◌≡◌, ℕ, ◌+◌, ◌*◌, ◌≤◌, true, false, IfSome, MatchOption, is_err, nat_le};
ghost use Rattle.mask_table.specs.Agreeing.{masked};
ghost use Rattle.mask_table.specs.RankSets.{HasRank};
ghost use Rattle.memory.specs.Refusing.{Rises};
ghost use Rattle.radix_nodes.specs.declared.id.Id.{Id as Room};
ghost use Rattle.room_index.specs.Homes.{pair};
ghost use Rattle.room_index.specs.Looks.{Reads, near_looks, pair_looks};
ghost use Rattle.room_index.specs.Places.{used_in};
ghost use Rattle.room_index.specs.Names.{AreKnown, Enters, IsKeptFor, Keeps, Loses, Names};

use crate::entry::Pair;
use crate::homes::pair_of;
use crate::places::Places;
use crate::ranges::Ranges;
use crate::rooms::Rooms;
use mask_table::{Rank, Ranks};
use memory::Memory;
use radix_nodes::{Id, Visits};
use sock_addrs::Inet;
use std::alloc::{AllocError, Global};
use std::marker::Model;

/// So few routes are found in few steps by a tree of them, all of which is at hand.
const SMALL: usize = 256;

/// The rooms of routes by their keys and ranks. A look-up takes the same few steps whatever the pairs are; where one
/// finds no place, all are given up, and the index isn't whole until no route is left. Its memory follows the number of
/// routes.
///
/// A contract sees whether it is whole, and which room it has for which pair (`Names`).
#[derive(Drop)]
pub struct RoomIndex<P: Pair> {
    pub(crate) places: Places<P>,
    pub(crate) ranges: Ranges<P>,
    given_up: bool,
}

/// A place that is free for the room of a route.
#[derive(Clone, Copy)]
pub struct Vacancy {
    pub(crate) place: usize,
}

impl<P: Pair> Model for RoomIndex<P> {
    ghost use Rattle.std.specs.Prelude.{◌≡◌, not, true, []};
    ghost use Rattle.room_index.specs.Names.{Held, IsIndex};

    ghost Value = { Held };

    ghost view = { λ i. record {
      whole = not i.given_up;
      bits = i.places.bits;
      tags = i.places.tags.items;
      entries = i.places.entries.items;
    } };

    ghost invariant = { λ i. IsIndex i.places i.ranges i.given_up };
}

impl<P: Pair> RoomIndex<P> {
    /// Of no route.
    pub fn new(alloc: Global) -> RoomIndex<P>
        ensures none { (k : ℕ) (room : Room) → Names result k room → ⊥ }
        ensures whole { result.whole ≡ true }
    {
        RoomIndex {
            places: Places::none(alloc),
            ranges: Ranges::none(alloc),
            given_up: false,
        }
    }

    /// Whether each route that was entered since it was made, or began anew, and not struck out is in it.
    pub fn is_whole(&self) -> bool
        ensures { result ≡ self.now.whole }
    {
        !self.given_up
    }

    /// The room of the route with this key and rank.
    #[inline(always)]
    pub fn find<R: Rooms<P>>(
        &self,
        key: Inet,
        rank: Rank,
        rooms: &R,
        visits: &mut Visits,
    ) -> Option<Id>
        requires known { AreKnown (R.Knows rooms.now) self.now }
        requires turn { R.IsTurn rooms.now visits.old.turn }
        ensures found { MatchOption result ((room : Room) → Names self.now (pair key rank) room → ⊥)
            (λ room. Names self.now (pair key rank) room) }
        ensures visits { Reads visits.old visits.new (pair_looks + 16 * R.looks) }
    {
        let (_place, room) = self.places.find(pair_of(key, rank), rooms, visits)?;
        Some(room)
    }

    /// The room of a route whose key begins as this one does, where one is at hand and few others do: mostly of the one
    /// that came last. It counts as one visit at least, and eight at most.
    #[inline(always)]
    pub fn near(&self, key: Inet, visits: &mut Visits) -> Option<Id>
        ensures near { IfSome result (λ room. (k : ℕ) × Names self.now k room) }
        ensures visits { Reads visits.old visits.new near_looks }
        ensures counted { visits.old.count + 1 ≤ visits.new.count }
    {
        self.ranges.near(pair_of(key, Rank::new(0)), visits)
    }

    /// The ranks of the routes whose networks have this address, and perhaps more. It counts as one visit.
    #[inline(always)]
    pub fn ranks(&self, address: Inet, visits: &mut Visits) -> Ranks
        ensures ranks { (rank : ℕ) (room : Room) → rank ≤ 33 → Names self.now (pair (masked rank address) rank) room
            → HasRank result rank }
        ensures visit { visits.new ≡ record visits.old { count = visits.old.count + 1 } }
    {
        self.ranges.ranks(address, visits)
    }

    /// Whether it is of so few routes, at most 256, that a tree of them takes few steps.
    #[inline(always)]
    pub fn is_small(&self) -> bool
        ensures { result ≡ nat_le (used_in self.now.tags) SMALL }
    {
        self.places.used() <= SMALL
    }

    /// Asks for the memory that one route more may take: that of a table twice as large, where this one is dense. Where
    /// it is refused none is kept.
    pub fn reserve(&mut self, memory: &mut Memory) -> Result<(), AllocError>
        ensures same { self.new ≡ self.old }
        ensures counted { Rises (is_err result) memory.old memory.new }
    {
        if self.given_up || !self.places.is_dense() {
            return Ok(());
        }
        match self.reserve_more(memory) {
            Ok(()) => Ok(()),
            Err(refused) => {
                self.give_back();
                Err(refused)
            }
        }
    }

    /// Gives back the memory that was asked for and isn't used.
    pub fn give_back(&mut self)
        ensures { self.new ≡ self.old }
    {
        self.places.give_back();
        self.ranges.give_back();
    }

    /// Asks for that memory. The first places do without ranges.
    fn reserve_more(&mut self, memory: &mut Memory) -> Result<(), AllocError>
        ensures same { self.new ≡ self.old }
        ensures counted { Rises (is_err result) memory.old memory.new }
    {
        self.places.reserve(memory)?;
        if self.places.many() == 0 {
            return Ok(());
        }
        self.ranges.reserve(memory)
    }

    /// A place for the room of a route that is to come. Where the index isn't whole there is none, and where there is
    /// none the index is given up.
    #[inline(always)]
    pub fn vacancy<R: Rooms<P>>(
        &mut self,
        key: Inet,
        rank: Rank,
        rooms: &R,
        visits: &mut Visits,
    ) -> Option<Vacancy>
        requires known { AreKnown (R.Knows rooms.now) self.old }
        requires turn { R.IsTurn rooms.now visits.old.turn }
        ensures keeps { Keeps self.old self.new }
        ensures kept_for { MatchOption result (self.new.whole ≡ false) (λ v. IsKeptFor self.new (pair key rank) v) }
        ensures counter { visits.new.turn ≡ visits.old.turn }
    {
        if self.given_up {
            return None;
        }
        self.places.grow(&mut self.ranges, rooms, visits);
        let pair = pair_of(key, rank);
        let Some(place) = self.places.place_for(pair, rooms, visits) else {
            self.ranges.clear();
            self.given_up = true;
            return None;
        };
        // ahead too: the memory of its range comes while that of the tree is waited for
        self.ranges.tell(pair, visits);
        Some(Vacancy { place })
    }

    /// Enters the room of a route, of whose pair it has none, where a place was kept for it.
    #[inline(always)]
    pub fn enter(
        &mut self,
        vacancy: Option<Vacancy>,
        key: Inet,
        rank: Rank,
        room: Id,
        visits: &mut Visits,
    )
        requires kept_for { MatchOption vacancy (self.old.whole ≡ false) (λ v. IsKeptFor self.old (pair key rank) v) }
        requires absent { (other : Room) → Names self.old (pair key rank) other → ⊥ }
        ensures entered { Enters self.old self.new (pair key rank) room }
        ensures counter { visits.new.turn ≡ visits.old.turn }
    {
        let Some(Vacancy { place }) = vacancy else {
            return;
        };
        let pair = pair_of(key, rank);
        self.places.enter(place, pair, room);
        self.ranges.put(pair, room, visits);
    }

    /// Strikes the room of a route out.
    pub fn strike<R: Rooms<P>>(&mut self, key: Inet, rank: Rank, rooms: &R, visits: &mut Visits)
        requires known { AreKnown (R.Knows rooms.now) self.old }
        requires turn { R.IsTurn rooms.now visits.old.turn }
        ensures struck { Loses self.old self.new (pair key rank) }
        ensures once { (one other : Room) → Names self.old (pair key rank) one → Names self.old (pair key rank) other
            → one ≡ other }
        ensures counter { visits.new.turn ≡ visits.old.turn }
    {
        // A fact for the proof: each pair has one place at most, on which `once` rests.
        let _ = &self.places;
        self.lose(pair_of(key, rank), rooms, visits);
    }

    /// Loses the room of a pair.
    fn lose<R: Rooms<P>>(&mut self, pair: u64, rooms: &R, visits: &mut Visits)
        requires known { AreKnown (R.Knows rooms.now) self.old }
        requires turn { R.IsTurn rooms.now visits.old.turn }
        ensures lost { Loses self.old self.new pair }
        ensures counter { visits.new.turn ≡ visits.old.turn }
    {
        self.ranges.lose(pair, visits);
        self.places.take(pair, rooms, visits);
        if !self.places.shrink(rooms, visits) {
            self.ranges.clear();
            self.given_up = true;
            return;
        }
        self.ranges.follow(&self.places, rooms, visits);
    }

    /// Has no room of any pair, and no memory, and is whole: for a caller who has no route left.
    pub fn begin_anew(&mut self)
        ensures none { (k : ℕ) (room : Room) → Names self.new k room → ⊥ }
        ensures whole { self.new.whole ≡ true }
    {
        self.places.give_up();
        self.ranges.clear();
        self.given_up = false;
    }
}
