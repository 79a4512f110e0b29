//! How rooms change.
ghost use Rattle.std.specs.Prelude.{◌≡◌, ◌==◌, None, Some, is_err, IfOk};
ghost use Rattle.std.specs.Borrow.{sem};
ghost use Rattle.std.specs.FinMap.{get, remove};
ghost use Rattle.memory.specs.Refusing.{Rises};
ghost use Rattle.radix_nodes.specs.Rooms.{Seen, Has, put_room, put_links};
ghost use Rattle.radix_nodes.specs.Links.{IsBlank};
ghost use Rattle.radix_nodes.specs.Naming.{number_of};

use crate::beside::Beside;
use crate::id::Id;
use crate::links::Links;
use crate::nodes::Nodes;
use crate::room::{Full, Room, free};
use crate::row::{name_newer, name_older, newest_without};
use memory::Memory;
use std::alloc::{AllocError, Global};
use std_alloc::room::Vacant;

impl<V> Nodes<V> {
    ghost use Rattle.radix_nodes.specs.LendingValue.{lends_value};

    /// A room, which is none of those in the map: the one that is kept, or a new one. `Err` where there is no memory
    /// for it.
    pub fn make(&mut self, memory: &mut Memory) -> Result<Room<V>, AllocError>
        ensures stays { self.new ≡ self.old }
        ensures free { IfOk result (λ room. get self.old.lodged room ≡ None) }
        ensures counted { Rises (is_err result) memory.old memory.new }
    {
        let space = self.block(memory)?;
        let space = self.blocks.apart(space);
        Ok(Room { space })
    }

    /// The block of the room that is kept, or a new one.
    fn block(&mut self, memory: &mut Memory) -> Result<Vacant<Full<V>, Global>, AllocError>
        ensures stays { self.new ≡ self.old }
        ensures counted { Rises (is_err result) memory.old memory.new }
    {
        match self.kept.take() {
            Some(Room { space }) => Ok(space),
            None => memory.block(self.alloc),
        }
    }

    /// The same room, which is none of those in the map: what is in one place has one owner. It does nothing.
    pub fn spare(&mut self, room: Room<V>) -> Room<V>
        ensures room { result ≡ room }
        ensures free { get self.old.lodged room ≡ None }
        ensures stays { self.new ≡ self.old }
    {
        let Room { space } = room;
        let space = self.blocks.apart(space);
        Room { space }
    }

    /// Puts a value into a room, which is none of those in the map. Its links are blank.
    pub fn lodge(&mut self, room: Room<V>, value: V) -> Id
        ensures number { number_of result ≡ room }
        ensures free { get self.old.lodged room ≡ None }
        ensures lodged { (blank : _) × IsBlank blank
            × (self.new ≡ record self.old { lodged = put_room self.old.lodged result value blank }) }
    {
        let Room { space } = room;
        let space = self.blocks.apart(space);
        let full = Full {
            links: Links::blank(),
            newer: Beside::of(None),
            older: Beside::of(self.newest),
            value,
        };
        let id = self.blocks.put(space, full);
        name_newer(&mut self.blocks, self.newest, Some(id));
        self.newest = Some(id);
        id
    }

    /// Takes a room out of the map, with its value.
    pub fn evict(&mut self, id: Id) -> (Room<V>, V)
        requires there { Has self.old.lodged id }
        ensures room { result.0 ≡ number_of id }
        ensures value { (room : Seen V) → get self.old.lodged (number_of id) ≡ Some room → result.1 ≡ room.value }
        ensures evicted { self.new ≡ record self.old { lodged = remove self.old.lodged (number_of id) } }
    {
        let (full, space) = self.blocks.take(id, self.alloc);
        let Full {
            links: _,
            newer,
            older,
            value,
        } = full;
        let room = Room { space };
        let newer = newer.name();
        let older = older.name();
        name_newer(&mut self.blocks, older, newer);
        name_older(&mut self.blocks, newer, older);
        self.newest = newest_without(newer, older, self.newest);
        (room, value)
    }

    /// Takes a room back, for the next one that is made; where one is kept already, that one is freed, and where no
    /// room is lodged, both are. The map stays as it is.
    pub fn scrap(&mut self, room: Room<V>)
        ensures { self.new ≡ self.old }
    {
        if self.newest.is_none() {
            free(self.kept.take());
            free(Some(room));
        } else {
            free(self.kept.replace(room));
        }
    }

    /// Writes the links of a room.
    pub fn set_links(&mut self, id: Id, links: Links)
        requires there { Has self.old.lodged id }
        ensures { self.new ≡ record self.old { lodged = put_links self.old.lodged id links } }
    {
        self.blocks.get_mut(id).links = links;
    }

    /// Whether two names are of one room. Both rooms have to be in the map, which stays as it is: a flag of the one is
    /// turned for a moment, to see whether it turns in the other.
    pub fn same(&mut self, a: Id, b: Id) -> bool
        requires a { Has self.old.lodged a }
        requires b { Has self.old.lodged b }
        ensures answer { result ≡ (number_of a == number_of b) }
        ensures stays { self.new ≡ self.old }
    {
        let before = self.blocks.get(b).links.flag();
        self.blocks.get_mut(a).links.turn_flag();
        let after = self.blocks.get(b).links.flag();
        self.blocks.get_mut(a).links.turn_flag();
        before != after
    }

    /// The value in a room, to be changed.
    pub fn value_mut(&mut self, id: Id) -> &mut V
        requires there { Has self.old.lodged id }
        ensures* writes { sem 𝓛 (lends_value V.row id self.entry result) }
        ensures value { (room : Seen V) → get self.old.lodged (number_of id) ≡ Some room → result.now ≡ room.value }
    {
        &mut self.blocks.get_mut(id).value
    }
}
