//! The name of a room.
ghost use Rattle.std.specs.Prelude.{◌≡◌};
ghost use denote.RawPtr.{null_ptr};

use std::ptr;

/// Names a room by the block of memory where it is, in eight bytes. The block gives a room its number, which contracts
/// alone see (`number_of`). `Nodes::same` compares two names.
#[derive(Clone, Copy)]
pub struct Id {
    pub(crate) block: *mut u8,
}

impl Id {
    /// What stands in a field that names no room. No room has the number 0.
    pub fn nobody() -> Id
        ensures { result ≡ record { block = null_ptr } }
    {
        Id {
            block: ptr::null_mut(),
        }
    }
}
