//! What is handed to the calls that have no session, with the count of refused memory beside it.

use crate::count::Count;
use crate::handle::Handle;

/// A handle that is to be opened, and how often memory was refused for that. To C it is the handle alone.
#[repr(C)]
pub struct Opening {
    pub handle: Handle,
    pub refused: Count,
}

/// How many bytes a text has, and how often memory was refused for it. To C it is the number alone.
#[repr(C)]
pub struct Size {
    pub bytes: usize,
    pub refused: Count,
}
