//! The rooms of a tree.
ghost use Rattle.std.specs.Prelude.{◌≡◌, ◌+◌};
ghost use Rattle.std.specs.FinMap.{empty};

use crate::blocks::Blocks;
use crate::id::Id;
use crate::room::{Full, Room, free};
use crate::visits::Visits;
use memory::Number;
use std::alloc::Global;
use std::marker::Model;

/// The lodged rooms of a tree. A contract sees them as a finite map from a room's number to its block, its value and
/// its links, and beside it the turn. `begin` begins the next turn, and rooms are read with a counter of the present
/// one.
pub struct Nodes<V> {
    pub(crate) alloc: Global,
    pub(crate) turn: Number,
    /// The room that was lodged last, of those in the map. It leads to all others.
    pub(crate) newest: Option<Id>,
    pub(crate) blocks: Blocks<Full<V>>,
    /// A room that was scrapped, for the next one that is made.
    pub(crate) kept: Option<Room<V>>,
}

impl<V> Model for Nodes<V> {
    ghost use Rattle.radix_nodes.specs.At.{AreStarts};
    ghost use Rattle.radix_nodes.specs.Rooms.{Rooms, rooms_code, seen_all};
    ghost use Rattle.radix_nodes.specs.Row.{AreRow};
    ghost use Rattle.std.specs.Prelude.{None};

    ghost Value = { Rooms V };

    ghost coded = { rooms_code V.code };

    ghost view = { λ n. record { lodged = seen_all n.blocks.cells; turn = n.turn } };

    ghost invariant = { λ n. AreRow n.blocks.cells None n.newest × AreStarts n.blocks.cells };
}

impl<V> Nodes<V> {
    /// No room yet. The memory of the rooms will come from this allocator.
    pub fn new(alloc: Global) -> Nodes<V>
        ensures { result ≡ record { lodged = empty; turn = 0 } }
    {
        Nodes {
            alloc,
            turn: Number::zero(),
            newest: None,
            blocks: Blocks::new(),
            kept: None,
        }
    }

    /// A counter of visits of a turn that begins with it.
    pub fn begin(&mut self) -> Visits
        ensures turn { self.new ≡ record self.old { turn = self.old.turn + 1 } }
        ensures of_turn { result.turn ≡ self.old.turn + 1 }
        ensures count { result.count ≡ 0 }
    {
        self.turn.raise();
        Visits::of(&self.turn)
    }
}

impl<V: Drop> Drop for Nodes<V> {
    fn drop(self) {
        let Nodes {
            alloc,
            turn: _,
            newest,
            blocks,
            kept,
        } = self;
        free(kept);
        let mut newest = newest;
        let mut blocks = blocks;
        while let Some(id) = newest {
            let (full, space) = blocks.take(id, alloc);
            let Full {
                links: _,
                newer: _,
                older,
                value: _,
            } = full;
            // What it answers is the allocator, which has no bytes.
            let _ = space.free();
            newest = older.name();
        }
        blocks.end();
    }
}
