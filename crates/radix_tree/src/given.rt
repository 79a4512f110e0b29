//! The numbers that were given to the lodged rooms, which contracts alone see.
ghost use Rattle.std.specs.Prelude.{◌≡◌, [], ◌∷◌};
ghost use Rattle.radix_tree.specs.Given.{beside};

use radix_nodes::Room as Space;
use std::marker::Model;
use std::mem;
use std::snapshot::Snapshot;

/// A room that came with its number, or, where it has none, one that went; and what was before. It is made for a
/// moment, to be one change more. The first one, before which nothing was, is none.
#[derive(Drop)]
struct Change<V> {
    before: Option<Snapshot<Change<V>>>,
    room: Option<Snapshot<Space<V>>>,
    number: Option<Snapshot<u64>>,
}

impl<V> Model for Change<V> {
    ghost use Rattle.std.specs.Prelude.{ℕ, List, Option, length};
    ghost use Rattle.std.proofs.Common.{arith};
    ghost use Rattle.radix_tree.specs.Given.{history};

    ghost Value = { List (ℕ × Option ℕ) };

    ghost view = { λ c. history c.before c.room c.number };

    ghost size = { length };

    ghost size_decreases = { λ a h. Prim.grind arith };
}

/// The number of each lodged room. It has no bytes. A contract sees pairs of a room's place, which is its number in the
/// map of rooms, and the number that was given with it.
#[derive(Drop)]
pub(crate) struct Given<V> {
    last: Snapshot<Change<V>>,
}

impl<V> Model for Given<V> {
    ghost use Rattle.std.specs.Prelude.{ℕ, List};
    ghost use Rattle.radix_tree.specs.Given.{standing};

    ghost Value = { List (ℕ × ℕ) };

    ghost view = { λ g. standing g.last.value };
}

impl<V> Given<V> {
    /// No room is lodged.
    pub(crate) fn new() -> Given<V>
        ensures { result ≡ [] }
    {
        Given {
            last: Snapshot::of(&Change {
                before: None,
                room: None,
                number: None,
            }),
        }
    }

    /// A room comes with its number.
    pub(crate) fn put(&mut self, room: Snapshot<Space<V>>, number: Snapshot<u64>)
        ensures { self.new ≡ (room.value, number.value) ∷ self.old }
    {
        let Given { last } = mem::replace(self, Given::new());
        self.last = Snapshot::of(&Change {
            before: Some(last),
            room: Some(room),
            number: Some(number),
        });
    }

    /// A room goes.
    pub(crate) fn take(&mut self, room: Snapshot<Space<V>>)
        ensures { self.new ≡ beside room.value self.old }
    {
        let Given { last } = mem::replace(self, Given::new());
        self.last = Snapshot::of(&Change {
            before: Some(last),
            room: Some(room),
            number: None,
        });
    }
}
