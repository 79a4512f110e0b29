//! An index whose entries tell their pairs themselves: it can be asked without the rooms.
ghost use Rattle.std.specs.Prelude.{◌≡◌, ℕ, ◌+◌, ◌≤◌, false, true, IfSome, MatchOption, is_err, nat_le};
ghost use Rattle.mask_table.specs.Agreeing.{masked};
ghost use Rattle.mask_table.specs.RankSets.{HasRank};
ghost use Rattle.memory.specs.Refusing.{Rises};
ghost use Rattle.radix_nodes.specs.declared.id.Id.{Id as Room};
ghost use Rattle.room_index.specs.Homes.{pair};
ghost use Rattle.room_index.specs.Looks.{Reads, near_looks, pair_looks};
ghost use Rattle.room_index.specs.Places.{used_in};
ghost use Rattle.room_index.specs.Names.{Enters, IsKeptFor, Keeps, Names, Strikes};

use crate::entry::Entry;
use crate::index::{RoomIndex, Vacancy};
use crate::rooms::Rooms;
use mask_table::{Rank, Ranks};
use memory::Memory;
use radix_nodes::{Id, Visits};
use sock_addrs::Inet;
use std::alloc::{AllocError, Global};
use std::marker::Model;

/// Entries tell their pairs themselves.
#[derive(Clone, Copy)]
pub(crate) struct Told;

impl Rooms<u64> for Told {
    ghost Knows = { λ _ _. Unit {0} };

    ghost IsTurn = { λ _ _. Unit {0} };

    ghost looks = { 0 };

    #[inline(always)]
    fn pair(&self, entry: &Entry<u64>, _visits: &mut Visits) -> u64 {
        entry.pair
    }
}

/// The index whose entries tell their pairs themselves, sixteen bytes each where those of rooms alone have eight. It is
/// kept with its calls and contracts for callers who have no rooms to hand; here the crate's tests ask it, and a routing
/// table asks a `RoomIndex<Snapshot<u64>>`.
#[derive(Drop)]
pub struct Index {
    pub(crate) rooms: RoomIndex<u64>,
}

impl Model for Index {
    ghost use Rattle.room_index.specs.Names.{Held};

    ghost Value = { Held };

    ghost view = { λ i. i.rooms };
}

impl Index {
    /// Of no route.
    pub fn new(alloc: Global) -> Index
        ensures none { (k : ℕ) (room : Room) → Names result k room → ⊥ }
        ensures whole { result.whole ≡ true }
    {
        Index {
            rooms: RoomIndex::new(alloc),
        }
    }

    /// Whether each route that was entered since it was made, or began anew, and not struck out is in it.
    pub fn is_whole(&self) -> bool
        ensures { result ≡ self.now.whole }
    {
        self.rooms.is_whole()
    }

    /// The room of the route with this key and rank.
    #[inline(always)]
    pub fn find(&self, key: Inet, rank: Rank, visits: &mut Visits) -> Option<Id>
        ensures found { MatchOption result ((room : Room) → Names self.now (pair key rank) room → ⊥)
            (λ room. Names self.now (pair key rank) room) }
        ensures visits { Reads visits.old visits.new pair_looks }
    {
        self.rooms.find(key, rank, &Told, visits)
    }

    /// The room of a route whose key begins as this one does, where one is at hand and few others do: mostly of the one
    /// that came last. It counts as one visit at least, and eight at most.
    #[inline(always)]
    pub fn near(&self, key: Inet, visits: &mut Visits) -> Option<Id>
        ensures near { IfSome result (λ room. (k : ℕ) × Names self.now k room) }
        ensures visits { Reads visits.old visits.new near_looks }
        ensures counted { visits.old.count + 1 ≤ visits.new.count }
    {
        self.rooms.near(key, visits)
    }

    /// The ranks of the routes whose networks have this address, and perhaps more. It counts as one visit.
    #[inline(always)]
    pub fn ranks(&self, address: Inet, visits: &mut Visits) -> Ranks
        ensures ranks { (rank : ℕ) (room : Room) → rank ≤ 33 → Names self.now (pair (masked rank address) rank) room
            → HasRank result rank }
        ensures visit { visits.new ≡ record visits.old { count = visits.old.count + 1 } }
    {
        self.rooms.ranks(address, visits)
    }

    /// Whether it is of so few routes, at most 256, that a tree of them takes few steps.
    #[inline(always)]
    pub fn is_small(&self) -> bool
        ensures { result ≡ nat_le (used_in self.now.tags) 256 }
    {
        self.rooms.is_small()
    }

    /// Asks for the memory that one route more may take: that of a table twice as large, where this one is dense. Where
    /// it is refused none is kept.
    pub fn reserve(&mut self, memory: &mut Memory) -> Result<(), AllocError>
        ensures same { self.new ≡ self.old }
        ensures counted { Rises (is_err result) memory.old memory.new }
    {
        self.rooms.reserve(memory)
    }

    /// Gives back the memory that was asked for and isn't used.
    pub fn give_back(&mut self)
        ensures { self.new ≡ self.old }
    {
        self.rooms.give_back();
    }

    /// A place for the room of a route that is to come. Where the index isn't whole there is none, and where there is
    /// none the index is given up.
    #[inline(always)]
    pub fn vacancy(&mut self, key: Inet, rank: Rank, visits: &mut Visits) -> Option<Vacancy>
        ensures keeps { Keeps self.old self.new }
        ensures kept_for { MatchOption result (self.new.whole ≡ false) (λ v. IsKeptFor self.new (pair key rank) v) }
        ensures counter { visits.new.turn ≡ visits.old.turn }
    {
        self.rooms.vacancy(key, rank, &Told, visits)
    }

    /// Enters the room of a route, of whose pair it has none, where a place was kept for it.
    #[inline(always)]
    pub fn enter(
        &mut self,
        vacancy: Option<Vacancy>,
        key: Inet,
        rank: Rank,
        room: Id,
        visits: &mut Visits,
    )
        requires kept_for { MatchOption vacancy (self.old.whole ≡ false) (λ v. IsKeptFor self.old (pair key rank) v) }
        requires absent { (other : Room) → Names self.old (pair key rank) other → ⊥ }
        ensures entered { Enters self.old self.new (pair key rank) room }
        ensures counter { visits.new.turn ≡ visits.old.turn }
    {
        self.rooms.enter(vacancy, key, rank, room, visits);
    }

    /// Strikes the room of a route out. Where no route is left, as `rest` says, the index begins anew and is whole.
    pub fn strike(&mut self, key: Inet, rank: Rank, rest: bool, visits: &mut Visits)
        ensures struck { Strikes self.old self.new (pair key rank) rest }
        ensures once { (one other : Room) → Names self.old (pair key rank) one → Names self.old (pair key rank) other
            → one ≡ other }
        ensures counter { visits.new.turn ≡ visits.old.turn }
    {
        self.rooms.strike(key, rank, &Told, visits);
        if !rest {
            self.rooms.begin_anew();
        }
    }
}
