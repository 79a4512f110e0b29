//! The row of the lodged rooms, which leads to each of them, so that all can be freed at the end.
ghost use Rattle.std.specs.Prelude.{◌≡◌, ℕ, Some};
ghost use Rattle.std.specs.FinMap.{get};
ghost use Rattle.radix_nodes.specs.At.{IsAt};
ghost use Rattle.radix_nodes.specs.Beside.{IsRoom};
ghost use Rattle.radix_nodes.specs.Row.{put_newer, put_older, newest_after};
ghost use Rattle.radix_nodes.specs.Naming.{number_of};

use crate::beside::Beside;
use crate::blocks::Blocks;
use crate::id::Id;
use crate::room::Full;

/// Names the room that was lodged after one, where there is such a one.
pub(crate) fn name_newer<V>(blocks: &mut Blocks<Full<V>>, at: Option<Id>, newer: Option<Id>)
    requires there { (room : Id) → at ≡ Some room → IsAt blocks.old.cells (number_of room) room.block }
    requires room { IsRoom newer }
    ensures { (n : ℕ) → get blocks.new.cells n ≡ put_newer at newer n (get blocks.old.cells n) }
{
    if let Some(room) = at {
        blocks.get_mut(room).newer = Beside::of(newer);
    }
}

/// Names the room that was lodged before one, where there is such a one.
pub(crate) fn name_older<V>(blocks: &mut Blocks<Full<V>>, at: Option<Id>, older: Option<Id>)
    requires there { (room : Id) → at ≡ Some room → IsAt blocks.old.cells (number_of room) room.block }
    requires room { IsRoom older }
    ensures { (n : ℕ) → get blocks.new.cells n ≡ put_older at older n (get blocks.old.cells n) }
{
    if let Some(room) = at {
        blocks.get_mut(room).older = Beside::of(older);
    }
}

/// The room that was lodged last, once a room is out that named these as lodged after it and before it.
pub(crate) fn newest_without(newer: Option<Id>, older: Option<Id>, newest: Option<Id>) -> Option<Id>
    ensures { result ≡ newest_after newer older newest }
{
    match newer {
        Some(_) => newest,
        None => older,
    }
}
