//! How often memory was refused to a call that has no session, in what C hands it. Contracts alone see it.
ghost use Rattle.std.specs.Prelude.{◌≡◌, ℕ};
ghost use Rattle.std.specs.Coded.{coded_ℕ};
ghost use base.Fml.{ftrue};

use memory::Memory;
use std::marker::Model;

/// How often memory was refused to the call that wrote it. It has no bytes: C doesn't see it, and what holds it is to C
/// as if it stood there alone.
// Its `also_owns` lets code make one only where that is proved by hand, and that is `of` alone: so no call can write a
// number that isn't a `Memory`'s count. A field of `Memory` itself can't stand in what C hands in.
#[repr(C)]
#[derive(Drop)]
pub struct Count {
    pub ghost number: { ℕ } by { coded_ℕ },
}

impl Model for Count {
    ghost also_owns = { λ _. ftrue };
}

impl Count {
    /// How often memory was refused by what asked there.
    pub(crate) fn of(memory: &Memory) -> Count
        ensures { result.number ≡ memory.now }
    {
        let _ = memory;
        Count {}
    }
}
