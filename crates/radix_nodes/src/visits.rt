//! The counter of visits, which contracts alone see.
ghost use Rattle.std.specs.Prelude.{◌≡◌, ◌+◌};

use memory::Number;
use std::marker::Model;
use std::snapshot::Snapshot;

/// A counter of visits to rooms, without bytes at run time. A contract sees the turn of the map that it is of, and its
/// count. Only `Nodes::begin` makes one. Who looks for a room elsewhere counts each place where it looks as a visit.
#[derive(Drop)]
pub struct Visits {
    turn: Snapshot<Number>,
    count: Number,
}

impl Model for Visits {
    ghost use Rattle.radix_nodes.specs.Counting.{Counter};

    ghost Value = { Counter };

    ghost view = { λ v. record { turn = v.turn.value; count = v.count } };
}

impl Visits {
    /// A counter of this turn, which has counted nothing.
    pub(crate) fn of(turn: &Number) -> Visits
        ensures turn { result.turn ≡ turn.now }
        ensures count { result.count ≡ 0 }
    {
        Visits {
            turn: Snapshot::of(turn),
            count: Number::zero(),
        }
    }

    /// Counts one visit.
    pub fn tick(&mut self)
        ensures turn { self.new.turn ≡ self.old.turn }
        ensures count { self.new.count ≡ self.old.count + 1 }
    {
        self.count.raise();
    }
}
