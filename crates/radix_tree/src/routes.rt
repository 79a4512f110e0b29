//! The table.
ghost use Rattle.std.specs.Prelude.{◌≡◌, ◌+◌, [], IfOk, IsOk};

use crate::given::Given;
use crate::index::Index;
use mask_table::Counts;
use memory::Numbers;
use radix_nodes::{Node, Nodes, Visits};
use std::alloc::{AllocError, Global};
use std::marker::Model;

/// A routing table: a Patricia tree over rooms, one for each route. A contract sees the routes in table order, which
/// is by rising keys, and for one key without a mask first and then from the longest mask to the shortest. Beside them
/// it sees the numbers of the rooms in use, the number of the next room, and the turn: `begin`, `add`, `add_absent`,
/// `remove` and `get_mut` begin one, and a counter of an earlier turn can't be used again.
#[derive(Drop)]
pub struct Table<V> {
    pub(crate) nodes: Nodes<V>,
    /// The tree's highest node. A table without a route has none.
    pub(crate) root: Option<Node>,
    /// How many routes there are of each rank.
    pub(crate) counts: Counts,
    /// Where the room of each route is.
    pub(crate) index: Index,
    /// The numbers that were given, one with each room that was made.
    pub(crate) numbers: Numbers,
    /// Those of the rooms in use.
    pub(crate) given: Given<V>,
}

impl<V> Model for Table<V> {
    ghost use Rattle.radix_tree.specs.Table.{Contents};
    ghost use Rattle.radix_tree.specs.Kept.{contents, IsKept};

    ghost Value = { Contents V };

    ghost view = { λ t. contents t.nodes t.root t.given t.numbers };

    ghost invariant = { λ t. IsKept t.nodes t.root t.counts t.index t.given t.numbers };
}

impl<V> Table<V> {
    /// A table without a route, whose rooms come from this allocator. It takes no memory, and is never refused.
    pub fn new(alloc: Global) -> Result<Table<V>, AllocError>
        ensures empty { IfOk result (λ t. t ≡ record { entries = []; numbers = []; next = 1; turn = 0 }) }
        ensures made { IsOk result }
    {
        Ok(Table {
            nodes: Nodes::new(alloc),
            root: None,
            counts: Counts::new(),
            index: Index::new(alloc),
            numbers: Numbers::new(),
            given: Given::new(),
        })
    }

    /// A counter of visits of a turn that begins with it.
    pub fn begin(&mut self) -> Visits
        ensures turn { self.new ≡ record self.old { turn = self.old.turn + 1 } }
        ensures of_turn { result.turn ≡ self.old.turn + 1 }
        ensures count { result.count ≡ 0 }
    {
        self.nodes.begin()
    }
}
