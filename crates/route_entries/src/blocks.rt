//! Blocks for routes that aren't kept small.
ghost use Rattle.std.specs.Prelude.{◌≡◌, ◌+◌, ◌-◌, ◌≤◌, if◌then◌else◌, min, is_err, is_some, nat_lt, true, IfOk, IsOk};
ghost use Rattle.memory.specs.Refusing.{Rises};
ghost use Rattle.route_entries.specs.Packing.{is_small};

use crate::{PackedRoute, Route};
use if_addrs::IfaRef;
use memory::Memory;
use route_msgs::Metrics;
use sock_addrs::{Gate, Inet};
use std::alloc::{AllocError, Global};
use std::marker::Model;

/// Blocks that are kept for the steps to come, two at most, since a step seldom needs the one that it has to have. A
/// contract sees how many there are.
#[derive(Drop)]
pub struct Blocks {
    alloc: Global,
    first: Option<Box<Route>>,
    second: Option<Box<Route>>,
}

impl Model for Blocks {
    ghost use Rattle.std.specs.Prelude.{ℕ};

    ghost Value = { ℕ };

    ghost use Rattle.route_entries.specs.Blocks.{blocks_in};

    ghost view = { λ b. blocks_in b.first b.second };
}

impl Blocks {
    /// No blocks; they come from this allocator.
    pub fn new(alloc: Global) -> Blocks
        ensures { result ≡ 0 }
    {
        Blocks {
            alloc,
            first: None,
            second: None,
        }
    }

    /// No blocks yet, beside these; they come from the same allocator.
    pub fn beside(&self) -> Blocks
        ensures { result ≡ 0 }
    {
        Blocks::new(self.alloc)
    }

    /// Takes a block out, or makes one where there is none. `Err` where there is no memory for it.
    pub fn take(&mut self, memory: &mut Memory) -> Result<Box<Route>, AllocError>
        ensures there { 1 ≤ self.old → IsOk result }
        ensures taken { self.new ≡ self.old - 1 }
        ensures left { self.new ≤ 1 }
        ensures counted { Rises (is_err result) memory.old memory.new }
    {
        match self.kept() {
            Some(block) => Ok(block),
            None => {
                let blank = Route {
                    flags: 0,
                    gateway: Gate::Inet(Inet::new(0)),
                    metrics: Metrics::default(),
                    genmask: None,
                    ifa: IfaRef::Link(0),
                    use_count: 0,
                };
                memory.boxed(self.alloc, blank)
            }
        }
    }

    /// Takes a block out, where there is one.
    fn kept(&mut self) -> Option<Box<Route>>
        ensures there { is_some result ≡ nat_lt 0 self.old }
        ensures taken { self.new ≡ self.old - 1 }
        ensures left { self.new ≤ 1 }
    {
        match self.first.take() {
            Some(block) => Some(block),
            None => self.second.take(),
        }
    }

    /// Keeps a block. Where there are two already, one of them is freed.
    pub fn keep(&mut self, block: Box<Route>)
        ensures kept { self.new ≡ min (self.old + 1) 2 }
        ensures more { self.old ≤ self.new }
    {
        if self.first.is_none() {
            self.first = Some(block);
        } else {
            self.second = Some(block);
        }
    }

    /// Keeps all of these.
    pub fn keep_all(&mut self, others: Blocks)
        ensures kept { self.new ≡ min (self.old + others) 2 }
        ensures more { self.old ≤ self.new }
    {
        // A fact for the proof: there are two at most, by its fields.
        let _ = &self.first;
        let Blocks {
            alloc: _,
            first,
            second,
        } = others;
        if let Some(block) = first {
            self.keep(block);
        }
        if let Some(block) = second {
            self.keep(block);
        }
    }

    /// Packs a route, with a block where it needs one. `Err` where there is no memory for that.
    pub fn pack(&mut self, route: &Route, memory: &mut Memory) -> Result<PackedRoute, AllocError>
        ensures route { IfOk result (λ packed. packed ≡ route.now) }
        ensures small { is_small route.now ≡ true → IsOk result }
        ensures there { 1 ≤ self.old → IsOk result }
        ensures left { self.new ≡ (if is_small route.now then self.old else self.old - 1) }
        ensures counted { Rises (is_err result) memory.old memory.new }
    {
        if let Some(packed) = PackedRoute::small(route) {
            return Ok(packed);
        }
        let block = self.take(memory)?;
        let (packed, _) = PackedRoute::of(route, block);
        Ok(packed)
    }
}
