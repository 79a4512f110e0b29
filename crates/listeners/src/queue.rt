ghost use Rattle.std.specs.Prelude.{◌≡◌, ◌+◌, ◌≤◌, [], ◌∷◌, ◌++◌, length, is_err, IfOk, nat_le};
ghost use Rattle.listeners.specs.Queue.{cut, joined, IsMessage, AreMessages};
ghost use Rattle.memory.specs.Refusing.{Rises};

use crate::limits::MOST_QUEUED;
use memory::Memory;
use std::alloc::{AllocError, Global};
use std::marker::Model;

/// The messages that wait for a socket, or that one has read, one after another, in memory that it has from the start.
/// A contract sees the messages, the oldest first.
#[derive(Drop)]
pub struct Queue {
    bytes: Vec<u8>,
}

impl Model for Queue {
    ghost use Rattle.std.specs.Prelude.{List, ℕ, vec_capacity};
    ghost use Rattle.listeners.specs.Queue.{cut, IsKept};

    ghost Value = { List (List ℕ) };

    ghost view = { λ q. cut q.bytes.items };

    ghost invariant = { λ q. IsKept q.bytes.items (vec_capacity q.bytes) };
}

impl Queue {
    /// A queue without a message, with all the memory that it will have. `Err` where there is none, which is counted.
    pub fn new(alloc: Global, memory: &mut Memory) -> Result<Queue, AllocError>
        ensures empty { IfOk result (λ queue. queue ≡ []) }
        ensures counted { Rises (is_err result) memory.old memory.new }
    {
        Ok(Queue {
            bytes: memory.with_capacity(alloc, MOST_QUEUED)?,
        })
    }

    /// Whether so many bytes more fit behind those that wait.
    pub(crate) fn has_room(&self, n: usize) -> bool
        ensures { result ≡ nat_le (length (joined self.now) + n) MOST_QUEUED }
    {
        n <= MOST_QUEUED - self.bytes.len()
    }

    /// Appends a message, for which there is room.
    pub(crate) fn push(&mut self, message: &[u8])
        requires message { IsMessage message.now }
        requires room { length (joined self.old) + length message.now ≤ MOST_QUEUED }
        ensures { self.new ≡ self.old ++ message.now ∷ [] }
    {
        self.bytes.extend_from_slice(message).unwrap();
    }

    /// The bytes of its messages: whole messages, one after another.
    pub fn as_bytes(&self) -> &[u8]
        ensures whole { AreMessages result.now }
        ensures messages { cut result.now ≡ self.now }
    {
        &self.bytes
    }

    /// How many bytes its messages have.
    pub(crate) fn size(&self) -> usize
        ensures { result ≡ length (joined self.now) }
    {
        self.bytes.len()
    }

    /// Moves all messages into another queue, whose own are lost: the memory of the two is exchanged.
    pub(crate) fn move_to(&mut self, other: &mut Queue)
        ensures messages { other.new ≡ self.old }
        ensures empty { self.new ≡ [] }
    {
        other.bytes.clear();
        std::mem::swap(&mut self.bytes, &mut other.bytes);
    }
}
