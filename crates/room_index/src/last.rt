//! What a slot of near pairs has.
ghost use Rattle.std.specs.Prelude.{◌≡◌, ◌≤◌, None, Some, IfSome};
ghost use Rattle.room_index.specs.Filed.{Filed};

use crate::entry::{Entry, Pair};
use crate::homes::key_of;
use radix_nodes::Id;
use std::marker::Model;

/// Of more pairs than so many, the way from one to the next is as long as that from the root.
const CROWDED: u16 = 64;

/// So many slots beside one another are looked at for a pair that is near: those of keys that differ in three bits at
/// most, the last of those by which slots are parted. They lie in a few lines of memory.
pub(crate) const BESIDE: usize = 8;

/// Where the entries are so many to each slot that has one, their keys lie close together, and slots are cut finer.
const LOOSE: usize = 16;

/// Of the pairs that share a slot the one that came last, while it is there. A contract sees its entry, or `None`.
#[derive(Drop)]
pub(crate) struct Last<P: Pair> {
    entry: Entry<P>,
    /// The key of its pair.
    key: u32,
    /// How many pairs came into the slot, less those that went.
    many: u16,
    is_there: bool,
}

impl<P: Pair> Model for Last<P> {
    ghost use Rattle.std.specs.Prelude.{◌≡◌, if◌then◌else◌, true, Option, None, Some};
    ghost use Rattle.room_index.specs.Filed.{Filed};
    ghost use Rattle.room_index.specs.Homes.{key_of};

    ghost Value = { Option Filed };

    ghost view = { λ l. if l.is_there then Some l.entry else None };

    ghost invariant = { λ l. l.is_there ≡ true → l.key ≡ key_of l.entry.pair };
}

impl<P: Pair> Last<P> {
    /// None.
    pub(crate) fn none() -> Last<P>
        ensures { result ≡ None }
    {
        Last {
            entry: Entry::ahead(0),
            key: 0,
            many: 0,
            is_there: false,
        }
    }

    /// Whether it is there.
    #[inline(always)]
    pub(crate) fn is_there(&self) -> bool {
        self.is_there
    }

    /// Its room, where few pairs share the slot, and its key differs from this one at most in the last three bits that
    /// part slots; `left` is how many bits a key has behind these.
    #[inline(always)]
    pub(crate) fn room_beside(&self, key: u32, left: u32) -> Option<Id>
        requires { left ≤ 33 }
        ensures { IfSome result (λ room. (e : Filed) × (self.now ≡ Some e) × (e.room ≡ room)) }
    {
        if self.is_there
            && self.many <= CROWDED
            && u64::from(self.key ^ key) >> left < BESIDE as u64
        {
            Some(self.entry.room())
        } else {
            None
        }
    }

    /// A pair came.
    #[inline(always)]
    pub(crate) fn put(&mut self, pair: u64, room: Id)
        ensures { self.new ≡ Some (record { pair = pair; room = room }) }
    {
        self.entry = Entry::of(pair, room);
        self.key = key_of(pair);
        self.many = self.many.saturating_add(1);
        self.is_there = true;
    }

    /// A pair went. So does the last one, where it has the same key.
    #[inline(always)]
    pub(crate) fn lose(&mut self, pair: u64)
        ensures { (e : Filed) → self.new ≡ Some e → (self.old ≡ Some e) × (e.pair ≡ pair → ⊥) }
    {
        self.is_there = self.is_there && self.key != key_of(pair);
        self.many = self.many.saturating_sub(1);
    }
}

/// How many bits more than a range's the pairs of a slot are to share, and shared so far, by how many entries there are
/// to so many slots that have one: as many more as leave it eight where they lie close together, and fewer where there
/// are two at most.
pub(crate) fn finer_by(finer: u32, entries: usize, used: usize) -> u32
    requires { finer ≤ 32 }
{
    let Some(each) = entries.checked_div(used) else {
        return finer;
    };
    if each > LOOSE {
        (finer + each.ilog2()).saturating_sub(3)
    } else if each <= 2 {
        finer.saturating_sub(1)
    } else {
        finer
    }
}
