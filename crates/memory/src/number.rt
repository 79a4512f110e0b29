//! A number that contracts alone see.
ghost use Rattle.std.specs.Prelude.{◌≡◌, ◌+◌};

use std::marker::Model;
use std::mem;
use std::snapshot::Snapshot;

/// A number that contracts alone see. It is made for a moment, to be one more than the number before it.
#[derive(Drop)]
struct Count {
    before: Option<Snapshot<Count>>,
}

impl Model for Count {
    ghost use Rattle.std.specs.Prelude.{ℕ};
    ghost use Rattle.std.proofs.Common.{arith};
    ghost use Rattle.memory.specs.Counting.{after};

    ghost Value = { ℕ };

    ghost view = { λ c. after c.before };

    ghost size = { λ n. n };

    ghost size_decreases = { λ a h. Prim.grind arith };
}

/// A number that contracts alone see, which has no bytes and can only rise.
#[derive(Drop)]
pub struct Number {
    at: Snapshot<Count>,
}

impl Model for Number {
    ghost use Rattle.std.specs.Prelude.{ℕ};

    ghost Value = { ℕ };

    ghost view = { λ n. n.at.value };
}

impl Number {
    /// Nought.
    pub fn zero() -> Number
        ensures { result ≡ 0 }
    {
        Number {
            at: Snapshot::of(&Count { before: None }),
        }
    }

    /// Adds one.
    pub fn raise(&mut self)
        ensures { self.new ≡ self.old + 1 }
    {
        let Number { at } = mem::replace(self, Number::zero());
        self.at = Snapshot::of(&Count { before: Some(at) });
    }
}
