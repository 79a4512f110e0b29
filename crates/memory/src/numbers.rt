//! Numbers that are given once.
ghost use Rattle.std.specs.Prelude.{◌≡◌, ◌+◌, ◌<◌, IfSome, None};

use std::marker::Model;

/// Numbers from 1 on, each given once. A contract sees the one that was given last, or 0.
#[derive(Drop)]
pub struct Numbers {
    last: u64,
}

impl Model for Numbers {
    ghost use Rattle.std.specs.Prelude.{ℕ};

    ghost Value = { ℕ };

    ghost view = { λ n. n.last };
}

impl Numbers {
    /// None was given.
    pub fn new() -> Numbers
        ensures { result ≡ 0 }
    {
        Numbers { last: 0 }
    }

    /// The next one, where one is left.
    pub(crate) fn next(&mut self) -> Option<u64>
        ensures some { IfSome result (λ number. (number ≡ self.old + 1) × (self.new ≡ number)) }
        ensures none { result ≡ None → (self.old ≡ u64.MAX) × (self.new ≡ self.old) }
    {
        if self.last == u64::MAX {
            return None;
        }
        self.last += 1;
        Some(self.last)
    }
}
