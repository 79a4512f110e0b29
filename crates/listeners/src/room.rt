ghost use Rattle.std.specs.Prelude.{is_err};
ghost use Rattle.memory.specs.Refusing.{Rises};

use crate::queue::Queue;
use memory::Memory;
use std::alloc::{AllocError, Global};
use std::marker::Model;

/// A queue into which a socket's messages are read: its memory and that of the socket's queue are exchanged, so that a
/// read moves no byte and wants no memory.
#[derive(Drop)]
pub struct Room {
    pub(crate) queue: Queue,
}

impl Model for Room {
    ghost Value = { Unit {0} };

    ghost view = { λ r. tt };
}

impl Room {
    /// Room for the messages of any queue. `Err` where there is no memory for it, which is counted.
    pub fn new(alloc: Global, memory: &mut Memory) -> Result<Room, AllocError>
        ensures counted { Rises (is_err result) memory.old memory.new }
    {
        Ok(Room {
            queue: Queue::new(alloc, memory)?,
        })
    }
}
