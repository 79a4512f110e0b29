//! The calls that ask for memory, and how often it was refused.
ghost use Rattle.std.specs.Prelude.{◌≡◌, ◌+◌, ◌*◌, ◌<◌, ◌≤◌, ◌++◌, ◌∷◌, [], length, max, replicate, is_err, IsOk, OnOk, OnErr, IfOk, vec_len, vec_capacity};
ghost use Rattle.memory.specs.Refusing.{Rises};

use crate::number::Number;
use crate::numbers::Numbers;
use std::alloc::{AllocError, Global};
use std::marker::Model;
use std_alloc::room::Vacant;

/// The most items of a vector that may be asked for at once, so that no caller has a growth refused by asking for an
/// absurd one.
pub const MOST_ASKED: usize = 65_536;

/// How often more memory was refused. It has no bytes at run time: a contract sees the number, and nothing else does.
///
/// It rises by the calls of this file alone, each of which asks once, and only where that was refused.
#[derive(Drop)]
pub struct Memory {
    refused: Number,
}

impl Model for Memory {
    ghost use Rattle.std.specs.Prelude.{ℕ};

    ghost Value = { ℕ };

    ghost view = { λ m. m.refused };
}

impl Memory {
    /// Nothing was refused yet.
    pub fn new() -> Memory
        ensures { result ≡ 0 }
    {
        Memory {
            refused: Number::zero(),
        }
    }

    /// An empty vector with room for so many items.
    pub fn with_capacity<T>(&mut self, alloc: Global, n: usize) -> Result<Vec<T>, AllocError>
        requires modest { n ≤ MOST_ASKED }
        ensures items { IfOk result (λ items. items.items ≡ []) }
        ensures room { IfOk result (λ items. n ≤ vec_capacity items) }
        ensures counted { Rises (is_err result) self.old self.new }
    {
        match Vec::with_capacity(alloc, n) {
            Ok(items) => Ok(items),
            Err(_) => Err(self.refuse()),
        }
    }

    /// As many bytes of 0.
    pub fn zeros(&mut self, alloc: Global, n: usize) -> Result<Vec<u8>, AllocError>
        requires modest { n ≤ MOST_ASKED }
        ensures bytes { IfOk result (λ bytes. bytes.items ≡ replicate n 0) }
        ensures len { IfOk result (λ bytes. length bytes.items ≡ n) }
        ensures counted { Rises (is_err result) self.old self.new }
    {
        match vec![in alloc; 0u8; n] {
            Ok(bytes) => Ok(bytes),
            Err(_) => Err(self.refuse()),
        }
    }

    /// Makes room for so many items more.
    pub fn reserve<T>(&mut self, items: &mut Vec<T>, n: usize) -> Result<(), AllocError>
        requires modest { n ≤ MOST_ASKED }
        ensures items { items.new.items ≡ items.old.items }
        ensures room { OnOk result (vec_len items.new + n ≤ vec_capacity items.new) }
        ensures there { vec_len items.old + n ≤ vec_capacity items.old → IsOk result }
        ensures counted { Rises (is_err result) self.old self.new }
    {
        match items.reserve(n) {
            Ok(()) => Ok(()),
            Err(_) => Err(self.refuse()),
        }
    }

    /// Appends an item. Where there is no room for it, it is dropped.
    pub fn push<T: Drop>(&mut self, items: &mut Vec<T>, item: T) -> Result<(), AllocError>
        ensures ok { OnOk result (items.new.items ≡ items.old.items ++ item ∷ []) }
        ensures kept { OnErr result (items.new.items ≡ items.old.items) }
        ensures there { vec_len items.old < vec_capacity items.old → IsOk result }
        ensures counted { Rises (is_err result) self.old self.new }
    {
        match items.push(item) {
            Ok(()) => Ok(()),
            Err(_) => Err(self.refuse()),
        }
    }

    /// Appends a copy of each item of a slice; all of them, or none.
    pub fn extend<T: Copy>(&mut self, items: &mut Vec<T>, more: &[T]) -> Result<(), AllocError>
        requires modest { length more.now ≤ MOST_ASKED }
        ensures ok { OnOk result (items.new.items ≡ items.old.items ++ more.now) }
        ensures kept { OnErr result (items.new.items ≡ items.old.items) }
        ensures there { vec_len items.old + length more.now ≤ vec_capacity items.old → IsOk result }
        ensures counted { Rises (is_err result) self.old self.new }
    {
        match items.extend_from_slice(more) {
            Ok(()) => Ok(()),
            Err(_) => Err(self.refuse()),
        }
    }

    /// Makes room for as many items more as a vector has, and for some beside: so that no more is asked for than is
    /// held already, but for those.
    pub fn double<T>(&mut self, items: &mut Vec<T>, beside: usize) -> Result<(), AllocError>
        requires modest { beside ≤ MOST_ASKED }
        ensures items { items.new.items ≡ items.old.items }
        ensures room { OnOk result (2 * vec_len items.new ≤ vec_capacity items.new) }
        ensures held { vec_capacity items.new ≤ max (vec_capacity items.old) (2 * vec_len items.old + beside) }
        ensures there { 2 * vec_len items.old + beside ≤ vec_capacity items.old → IsOk result }
        ensures counted { Rises (is_err result) self.old self.new }
    {
        match items.reserve_exact(items.len().saturating_add(beside)) {
            Ok(()) => Ok(()),
            Err(_) => Err(self.refuse()),
        }
    }

    /// An empty block for one value.
    pub fn block<T>(&mut self, alloc: Global) -> Result<Vacant<T, Global>, AllocError>
        ensures counted { Rises (is_err result) self.old self.new }
    {
        match Vacant::take(alloc) {
            Ok(block) => Ok(block),
            Err(_) => Err(self.refuse()),
        }
    }

    /// A value in a block of its own. Where there is no memory for it, it is dropped.
    pub fn boxed<T: Drop>(&mut self, alloc: Global, value: T) -> Result<Box<T>, AllocError>
        ensures value { IfOk result (λ block. block.value ≡ value) }
        ensures counted { Rises (is_err result) self.old self.new }
    {
        match Box::new(alloc, value) {
            Ok(block) => Ok(block),
            Err(_) => Err(self.refuse()),
        }
    }

    /// The next number. Numbers are used up as memory is: behind `u64::MAX` there is none.
    pub fn next(&mut self, numbers: &mut Numbers) -> Result<u64, AllocError>
        ensures ok { IfOk result (λ number. (number ≡ numbers.old + 1) × (numbers.new ≡ number)) }
        ensures kept { OnErr result (numbers.new ≡ numbers.old) }
        ensures there { numbers.old < u64.MAX → IsOk result }
        ensures counted { Rises (is_err result) self.old self.new }
    {
        match numbers.next() {
            Some(number) => Ok(number),
            None => Err(self.refuse()),
        }
    }

    /// Counts that memory was refused.
    fn refuse(&mut self) -> AllocError
        ensures { self.new ≡ self.old + 1 }
    {
        self.refused.raise();
        AllocError
    }
}

/// Gives back the memory of a vector that its items don't need, but for some beside; all where it has no item. It asks
/// for no more, and no count rises by it: where a smaller block can't be had, the vector keeps its own.
pub fn give_back<T>(items: &mut Vec<T>, beside: usize)
    ensures items { items.new.items ≡ items.old.items }
    ensures less { vec_capacity items.new ≤ vec_capacity items.old }
    ensures empty { vec_len items.old ≡ 0 → vec_capacity items.new ≡ 0 }
{
    if items.is_empty() {
        items.shrink_to_fit();
    } else {
        items.shrink_to(items.len().saturating_add(beside));
    }
}
