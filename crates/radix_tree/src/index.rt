//! The index of a table's routes.
ghost use Rattle.std.specs.Prelude.{◌≡◌, ℕ, true, IfNone, IfSome};
ghost use Rattle.radix_nodes.specs.declared.id.Id.{Id as Room};
ghost use Rattle.room_index.specs.Names.{Names};

use radix_nodes::Node;
use room_index::RoomIndex;
use std::snapshot::Snapshot;

/// Where the room of each route is, by the route's key and rank. Its entries have the rooms' names alone: which pair
/// one is of, the leaf in its room tells.
pub(crate) type Index = RoomIndex<Snapshot<u64>>;

/// Begins the index anew where no route is left, so that it is whole again.
pub(crate) fn renew(index: &mut Index, root: Option<Node>)
    ensures rest { IfSome root (λ node. index.new ≡ index.old) }
    ensures none { IfNone root ((k : ℕ) (room : Room) → Names index.new k room → ⊥) }
    ensures whole { IfNone root (index.new.whole ≡ true) }
{
    match root {
        Some(_) => {}
        None => index.begin_anew(),
    }
}
