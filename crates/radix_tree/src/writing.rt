//! How a table changes.
ghost use Rattle.std.specs.Prelude.{◌≡◌, ℕ, ◌+◌, ◌<◌, ◌≤◌, ◌↔◌, ◌==◌, if◌then◌else◌, is_err, IsErr, IsSome, OnOk};
ghost use Rattle.std.specs.Prelude.{OnErr, OnSome, IfOk, IfErr, IfSome, IfNone, None, Some, option_map};
ghost use Rattle.std.specs.Borrow.{sem};
ghost use Rattle.mask_table.specs.Agreeing.{masked};
ghost use Rattle.memory.specs.Refusing.{Rises};
ghost use Rattle.radix_tree.specs.Table.{entry_at, best_of, without, with_entry, uses};
ghost use Rattle.radix_tree.specs.Found.{lent};
ghost use Rattle.radix_tree.specs.Lending.{lends_value, lends_value_at};

use crate::descent::near_leaf;
use crate::entry::Entry;
use crate::finding::{find_best, find_room};
use crate::growing::insert;
use crate::index::renew;
use crate::removing::remove_route;
use crate::roles;
use crate::room::Room;
use crate::routes::Table;
use mask_table::Rank;
use memory::Memory;
use radix_nodes::Visits;
use sock_addrs::Inet;
use std::alloc::AllocError;
use std::snapshot::Snapshot;

impl<V: Drop> Table<V> {
    /// A room for one route. `Err` where there is no memory for it, or 2^64 - 1 rooms were made.
    pub fn room(&mut self, memory: &mut Memory) -> Result<Room<V>, AllocError>
        ensures ok { OnOk result (self.new ≡ record self.old { next = self.old.next + 1 }) }
        ensures number { IfOk result (λ room. (room ≡ self.old.next) × (uses room self.old.numbers ≡ 0)) }
        ensures err { OnErr result (self.new ≡ self.old) }
        ensures counted { Rises (is_err result) memory.old memory.new }
    {
        let space = self.nodes.make(memory)?;
        if let Err(refused) = self.index.reserve(memory) {
            self.nodes.scrap(space);
            return Err(refused);
        }
        match memory.next(&mut self.numbers) {
            Ok(number) => Ok(Room {
                space,
                number: Snapshot::of(&number),
            }),
            Err(refused) => {
                self.nodes.scrap(space);
                Err(refused)
            }
        }
    }

    /// Takes back a room of this table in which no route stands. Where the table has no route, it keeps no memory for
    /// one.
    pub fn give_back(&mut self, room: Room<V>)
        requires made { room < self.old.next }
        requires free { uses room self.old.numbers ≡ 0 }
        ensures { self.new ≡ self.old }
    {
        let Room { space, number: _ } = room;
        self.nodes.scrap(space);
        if self.root.is_none() {
            self.index.give_back();
        }
    }

    /// Puts a route into this table, in a room of this table in which none stands, at a key with no bit past its rank.
    /// Where the table has a route with this key and rank, that one stays, and the room and the value come back.
    pub fn add(
        &mut self,
        room: Room<V>,
        key: Inet,
        rank: Rank,
        value: V,
    ) -> Result<(), (Room<V>, V)>
        requires made { room < self.old.next }
        requires free { uses room self.old.numbers ≡ 0 }
        requires masked { masked rank key ≡ key }
        ensures there { IsErr result ↔ IsSome (entry_at key rank self.old.entries) }
        ensures absent { OnOk result (entry_at key rank self.old.entries ≡ None) }
        ensures ok { OnOk result
            (self.new.entries ≡ with_entry (record { key = key; rank = rank; value = value }) self.old.entries) }
        ensures numbers { OnOk result
            ((n : ℕ) → uses n self.new.numbers ≡ uses n self.old.numbers + (if room == n then 1 else 0)) }
        ensures err { OnErr result (self.new ≡ record self.old { turn = self.old.turn + 1 }) }
        ensures back { IfErr result (λ b. (b.0 ≡ room) × (b.1 ≡ value)) }
        ensures next { self.new.next ≡ self.old.next }
        ensures turn { self.new.turn ≡ self.old.turn + 1 }
    {
        let mut visits = self.begin();
        let index = &self.index;
        if index.find(key, rank, &self.nodes, &mut visits).is_some() {
            return Err((room, value));
        }
        self.put(room, key, rank, value, &mut visits)
    }

    /// Puts a route into this table as `add` does, for a caller who knows that the table has none with its key and
    /// rank: these aren't looked for in the index first.
    pub fn add_absent(&mut self, room: Room<V>, key: Inet, rank: Rank, value: V)
        requires made { room < self.old.next }
        requires free { uses room self.old.numbers ≡ 0 }
        requires masked { masked rank key ≡ key }
        requires absent { entry_at key rank self.old.entries ≡ None }
        ensures entries { self.new.entries
            ≡ with_entry (record { key = key; rank = rank; value = value }) self.old.entries }
        ensures numbers { (n : ℕ) → uses n self.new.numbers ≡ uses n self.old.numbers + (if room == n then 1 else 0) }
        ensures next { self.new.next ≡ self.old.next }
        ensures turn { self.new.turn ≡ self.old.turn + 1 }
    {
        let mut visits = self.begin();
        match self.put(room, key, rank, value, &mut visits) {
            Ok(()) => {}
            // only a route with its key and rank would send it back
            Err(_) => unreachable!(),
        }
    }

    /// Puts a route into this table as `add` does, in the turn that has begun. Its pair isn't looked for in the index
    /// first: the tree tells on the way whether it is there.
    fn put(
        &mut self,
        room: Room<V>,
        key: Inet,
        rank: Rank,
        value: V,
        visits: &mut Visits,
    ) -> Result<(), (Room<V>, V)>
        requires made { room < self.old.next }
        requires free { uses room self.old.numbers ≡ 0 }
        requires masked { masked rank key ≡ key }
        requires turn { visits.old.turn ≡ self.old.turn }
        ensures there { IsErr result ↔ IsSome (entry_at key rank self.old.entries) }
        ensures absent { OnOk result (entry_at key rank self.old.entries ≡ None) }
        ensures ok { OnOk result
            (self.new.entries ≡ with_entry (record { key = key; rank = rank; value = value }) self.old.entries) }
        ensures numbers { OnOk result
            ((n : ℕ) → uses n self.new.numbers ≡ uses n self.old.numbers + (if room == n then 1 else 0)) }
        ensures err { OnErr result (self.new ≡ self.old) }
        ensures back { IfErr result (λ b. (b.0 ≡ room) × (b.1 ≡ value)) }
        ensures next { self.new.next ≡ self.old.next }
        ensures turn { self.new.turn ≡ self.old.turn }
    {
        let Room { space, number } = room;
        let space = self.nodes.spare(space);
        let at = Snapshot::of(&space);
        let near = match self.root {
            Some(root) => near_leaf(&self.nodes, &self.index, root, key, visits),
            None => None,
        };
        let entry = Entry::of(key, rank, value);
        let vacancy = self.index.vacancy(key, rank, &self.nodes, visits);
        match insert(&mut self.nodes, near, self.root, space, entry, visits) {
            Err((space, value)) => Err((Room { space, number }, value)),
            Ok((root, id)) => {
                self.root = Some(root);
                self.counts.added(rank);
                self.index.enter(vacancy, key, rank, id, visits);
                self.given.put(at, number);
                Ok(())
            }
        }
    }

    /// Takes the route with this key and rank out of the table and gives its room up. `None` where the table has no
    /// such route.
    pub fn remove(&mut self, key: Inet, rank: Rank) -> Option<V>
        ensures value { result ≡ option_map (λ e. e.value) (entry_at key rank self.old.entries) }
        ensures entries { self.new.entries ≡ without key rank self.old.entries }
        ensures numbers { OnSome result
            ((m : ℕ) × ((n : ℕ) → uses n self.old.numbers ≡ uses n self.new.numbers + (if m == n then 1 else 0))) }
        ensures none { IfNone result (self.new.numbers ≡ self.old.numbers) }
        ensures next { self.new.next ≡ self.old.next }
        ensures turn { self.new.turn ≡ self.old.turn + 1 }
    {
        let mut visits = self.nodes.begin();
        if !self.counts.has(rank) {
            return None;
        }
        let Some(root) = self.root else {
            return None;
        };
        let Some(at) = find_room(&self.nodes, &self.index, root, key, rank, &mut visits) else {
            return None;
        };
        // while the room is there to tell its pair
        self.index.strike(key, rank, &self.nodes, &mut visits);
        let (root, freed, value) = remove_route(&mut self.nodes, root, at, &mut visits);
        self.root = root;
        self.counts.dropped(rank);
        renew(&mut self.index, root);
        self.given.take(Snapshot::of(&freed));
        self.nodes.scrap(freed);
        Some(value)
    }

    /// The value of the route with this key and rank, to be changed, or `None` where the table has no such route.
    pub fn get_mut(&mut self, key: Inet, rank: Rank) -> Option<&mut V>
        ensures* writes { sem 𝓛 (lends_value V.row key rank self.entry result) }
        ensures value { option_map (λ v. v.now) result
            ≡ option_map (λ e. e.value) (entry_at key rank self.old.entries) }
    {
        let mut visits = self.nodes.begin();
        if !self.counts.has(rank) {
            return None;
        }
        let Some(root) = self.root else {
            return None;
        };
        let Some(room) = find_room(&self.nodes, &self.index, root, key, rank, &mut visits) else {
            return None;
        };
        Some(self.nodes.value_mut(room))
    }

    /// The value of the best route of an address, to be changed, or `None` where none agrees; the key and the rank of
    /// that route are put into `pair`. It is found as by `best`, with a counter of the table's present turn, and begins
    /// no turn.
    pub fn best_mut(
        &mut self,
        address: Inet,
        pair: &mut (Inet, Rank),
        visits: &mut Visits,
    ) -> Option<&mut V>
        requires { visits.old.turn ≡ self.old.turn }
        ensures* writes { sem 𝓛 (lends_value_at V.row pair.new.0 pair.new.1 self.entry result) }
        ensures best { option_map (lent pair.new.0 pair.new.1) result ≡ best_of address self.old.entries }
        ensures stands { IfSome result (λ v.
            entry_at pair.new.0 pair.new.1 self.old.entries ≡ Some (lent pair.new.0 pair.new.1 v)) }
        ensures counter { visits.new.turn ≡ visits.old.turn }
        ensures bound { visits.new.count ≤ visits.old.count + 2400 }
    {
        let Some(root) = self.root else {
            return None;
        };
        let index = &self.index;
        let Some(room) = find_best(&self.nodes, index, &self.counts, root, address, visits) else {
            return None;
        };
        let leaf = roles::leaf(&self.nodes, room, visits);
        *pair = (leaf.key, leaf.rank);
        Some(self.nodes.value_mut(room))
    }
}
