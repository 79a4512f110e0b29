//! A room in which nothing stands, and what stands in the block of one that is lodged.
use crate::beside::Beside;
use crate::links::Links;
use std::alloc::Global;
use std::marker::Model;
use std_alloc::room::Vacant;

/// What stands in the block of a lodged room. The value and what a search reads come first, in 64 bytes where the value
/// has 24, so that it reads little memory beside them.
pub(crate) struct Full<V> {
    pub(crate) value: V,
    pub(crate) links: Links,
    /// Of the rooms in the map, the one that was lodged after this one. The last one has none.
    pub(crate) newer: Beside,
    /// Of the rooms in the map, the one that was lodged before this one.
    pub(crate) older: Beside,
}

/// A block of memory for one route, made by `Nodes::make` and not in use. It is lodged or scrapped, and can't be
/// dropped. A contract sees the number that it has once it is lodged.
pub struct Room<V> {
    pub(crate) space: Vacant<Full<V>, Global>,
}

impl<V> Model for Room<V> {
    ghost use Rattle.std.specs.Prelude.{ℕ};
    ghost use Rattle.radix_nodes.specs.Naming.{number_at};

    ghost Value = { ℕ };

    ghost view = { λ r. number_at r.space.ptr };
}

/// Frees a room, where there is one.
pub(crate) fn free<V>(room: Option<Room<V>>) {
    if let Some(Room { space }) = room {
        // What it answers is the allocator, which has no bytes.
        let _ = space.free();
    }
}
