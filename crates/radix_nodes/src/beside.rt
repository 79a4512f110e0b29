//! What a room of the row names beside it.
ghost use Rattle.std.specs.Prelude.{◌≡◌};
ghost use Rattle.radix_nodes.specs.Beside.{IsRoom};

use crate::id::Id;
use std::marker::Model;
use std::ptr::{self, NonNull};

/// The room beside one in the row, or none, in eight bytes: a contract sees its name where there is one.
#[derive(Drop)]
pub(crate) struct Beside {
    block: *mut u8,
}

impl Model for Beside {
    ghost use Rattle.std.specs.Prelude.{◌≡◌, Option};
    ghost use denote.RawPtr.{count_of};
    ghost use Rattle.radix_nodes.specs.declared.id.Id.{Id as Named};
    ghost use Rattle.radix_nodes.specs.Beside.{named_at};

    ghost Value = { Option Named };

    ghost view = { λ b. named_at b.block };

    ghost invariant = { λ b. count_of b.block ≡ 0 };
}

impl Beside {
    /// This room, or none.
    pub(crate) fn of(name: Option<Id>) -> Beside
        requires { IsRoom name }
        ensures { result ≡ name }
    {
        let block = match name {
            Some(id) => id.block,
            None => ptr::null_mut(),
        };
        Beside { block }
    }

    /// Its name, where there is one.
    pub(crate) fn name(&self) -> Option<Id>
        ensures { result ≡ self.now }
    {
        match NonNull::new(self.block) {
            Some(_) => Some(Id { block: self.block }),
            None => None,
        }
    }
}
