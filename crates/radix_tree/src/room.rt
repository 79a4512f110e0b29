//! A room in which no route stands.
use radix_nodes::Room as Space;
use std::marker::Model;
use std::snapshot::Snapshot;

/// A block of memory for one route, made by `Table::room` and not in use. A route is added in it, or it is given back;
/// it can't be dropped. A contract sees the number that was given with it, which has no bytes.
pub struct Room<V> {
    pub(crate) space: Space<V>,
    pub(crate) number: Snapshot<u64>,
}

impl<V> Model for Room<V> {
    ghost use Rattle.std.specs.Prelude.{ℕ};

    ghost Value = { ℕ };

    ghost view = { λ r. r.number.value };
}
