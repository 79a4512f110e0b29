//! The places for routes that a step may need.
ghost use Rattle.std.specs.Prelude.{◌≡◌, ◌+◌, ◌-◌, ◌<◌, ◌≤◌, [], ◌∷◌, length, min, is_err, IfOk, IsOk, OnOk, OnErr};
ghost use Rattle.memory.specs.Refusing.{Rises};
ghost use Rattle.radix_tree.specs.Table.{uses};
ghost use Rattle.route_ops.specs.Spares.{FitsSpare};

use memory::Memory;
use radix_tree::{Room, Table};
use route_entries::{Blocks, PackedRoute, Route};
use std::alloc::AllocError;
use std::marker::Model;

/// A place for any route: a room, and a block for what doesn't stand in a room. A contract sees the room's number.
pub(crate) struct Place {
    pub(crate) room: Room<PackedRoute>,
    pub(crate) block: Box<Route>,
}

impl Model for Place {
    ghost use Rattle.std.specs.Prelude.{ℕ};

    ghost Value = { ℕ };

    ghost view = { λ p. p.room };
}

/// The places that are left of those that a step may need, two at most, and the blocks that weren't needed. `finish`
/// gives them back; a `Spare` can't be dropped. A contract sees the rooms' numbers.
pub struct Spare {
    first: Option<Place>,
    second: Option<Place>,
    blocks: Blocks,
}

impl Model for Spare {
    ghost use Rattle.std.specs.Prelude.{ℕ, List};

    ghost Value = { List ℕ };

    ghost use Rattle.route_ops.specs.Spares.{rooms_in};

    ghost view = { λ s. rooms_in s.first s.second };
}

impl Place {
    /// Makes one. `Err` where there is no memory for it.
    fn make(
        table: &mut Table<PackedRoute>,
        blocks: &mut Blocks,
        memory: &mut Memory,
    ) -> Result<Place, AllocError>
        ensures ok { OnOk result (table.new ≡ record table.old { next = table.old.next + 1 }) }
        ensures number { IfOk result (λ place. (place ≡ table.old.next) × (uses place table.old.numbers ≡ 0)) }
        ensures err { OnErr result (table.new ≡ table.old) }
        ensures taken { OnOk result (blocks.new ≡ blocks.old - 1) }
        ensures left { OnOk result (blocks.new ≤ 1) }
        ensures kept { OnErr result (blocks.old ≤ blocks.new) }
        ensures counted { Rises (is_err result) memory.old memory.new }
    {
        let block = blocks.take(memory)?;
        match table.room(memory) {
            Ok(room) => Ok(Place { room, block }),
            Err(error) => {
                blocks.keep(block);
                Err(error)
            }
        }
    }

    /// Gives it back, the room to its table.
    fn give_back(self, table: &mut Table<PackedRoute>, blocks: &mut Blocks)
        requires made { self < table.old.next }
        requires free { uses self table.old.numbers ≡ 0 }
        ensures table { table.new ≡ table.old }
        ensures kept { blocks.new ≡ min (blocks.old + 1) 2 }
        ensures more { blocks.old ≤ blocks.new }
    {
        let Place { room, block } = self;
        table.give_back(room);
        blocks.keep(block);
    }
}

/// Makes the two places that a step may need. `Err` where there is no memory for them.
pub fn prepare(
    table: &mut Table<PackedRoute>,
    blocks: &mut Blocks,
    memory: &mut Memory,
) -> Result<Spare, AllocError>
    ensures two { IfOk result (λ spare. length spare ≡ 2) }
    ensures made { IfOk result (λ spare. spare ≡ table.old.next ∷ (table.old.next + 1) ∷ []) }
    ensures rooms { OnOk result (table.new.next ≡ table.old.next + 2) }
    ensures taken { OnOk result (blocks.new ≡ blocks.old - 2) }
    ensures kept { OnErr result (blocks.old ≤ blocks.new) }
    ensures fits { IfOk result (λ spare. FitsSpare table.new spare) }
    ensures entries { table.new.entries ≡ table.old.entries }
    ensures numbers { table.new.numbers ≡ table.old.numbers }
    ensures next { table.old.next ≤ table.new.next }
    ensures counted { Rises (is_err result) memory.old memory.new }
{
    let first = Place::make(table, blocks, memory)?;
    match Place::make(table, blocks, memory) {
        Ok(second) => Ok(Spare {
            first: Some(first),
            second: Some(second),
            blocks: blocks.beside(),
        }),
        Err(error) => {
            first.give_back(table, blocks);
            Err(error)
        }
    }
}

/// Makes so many places, two at most. `Err` where there is no memory for them, so never for 0 places.
pub fn prepare_rooms(
    table: &mut Table<PackedRoute>,
    rooms: usize,
    blocks: &mut Blocks,
    memory: &mut Memory,
) -> Result<Spare, AllocError>
    ensures rooms { IfOk result (λ spare. length spare ≡ min rooms 2) }
    ensures none_asked { rooms ≡ 0 → IsOk result }
    ensures made { OnOk result (table.new.next ≡ table.old.next + min rooms 2) }
    ensures taken { OnOk result (blocks.new ≡ blocks.old - min rooms 2) }
    ensures kept { OnErr result (blocks.old ≤ blocks.new) }
    ensures fits { IfOk result (λ spare. FitsSpare table.new spare) }
    ensures entries { table.new.entries ≡ table.old.entries }
    ensures numbers { table.new.numbers ≡ table.old.numbers }
    ensures next { table.old.next ≤ table.new.next }
    ensures counted { Rises (is_err result) memory.old memory.new }
{
    match rooms {
        0 => Ok(Spare {
            first: None,
            second: None,
            blocks: blocks.beside(),
        }),
        1 => Ok(Spare {
            first: Some(Place::make(table, blocks, memory)?),
            second: None,
            blocks: blocks.beside(),
        }),
        _ => prepare(table, blocks, memory),
    }
}

/// Gives back the places that are left, their rooms to the table, and the blocks that weren't needed.
pub fn finish(table: &mut Table<PackedRoute>, blocks: &mut Blocks, spare: Spare)
    requires { FitsSpare table.old spare }
    ensures table { table.new ≡ table.old }
    ensures kept { min (blocks.old + length spare) 2 ≤ blocks.new }
    ensures more { blocks.old ≤ blocks.new }
{
    let Spare {
        first,
        second,
        blocks: rest,
    } = spare;
    if let Some(place) = first {
        place.give_back(table, blocks);
    }
    if let Some(place) = second {
        place.give_back(table, blocks);
    }
    blocks.keep_all(rest);
}

impl Spare {
    /// Takes one of the places out.
    pub(crate) fn take(&mut self) -> Place
        requires { 1 ≤ length self.old }
        ensures taken { self.old ≡ result ∷ self.new }
        ensures left { length self.new ≤ 1 }
    {
        match self.first.take() {
            Some(place) => place,
            None => self.second.take().unwrap(),
        }
    }

    /// Puts a place back that was taken out, in front of the one that is left.
    pub(crate) fn put_back(&mut self, place: Place)
        requires { length self.old ≤ 1 }
        ensures { self.new ≡ place ∷ self.old }
    {
        if let Some(other) = self.first.replace(place) {
            match self.second.replace(other) {
                None => {}
                Some(_) => unreachable!(),
            }
        }
    }

    /// Keeps the block of a place whose route stands in its room alone, until `finish`.
    pub(crate) fn keep(&mut self, block: Option<Box<Route>>)
        ensures { self.new ≡ self.old }
    {
        if let Some(block) = block {
            self.blocks.keep(block);
        }
    }
}
