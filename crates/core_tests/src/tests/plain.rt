//! A table beside a plain list, which is searched whole.
ghost use Rattle.std.specs.Prelude.{◌≡◌, ◌≤◌, length};

use mask_table::{Rank, agrees, masked};
use memory::Memory;
use radix_tree::{Table, Visits, Walk};
use sock_addrs::Inet;
use std::alloc::{AllocError, Global};

/// A route's key, rank and value.
pub(super) type Route = (u32, u8, u64);

/// A table, and what should be in it, as a plain list in table order.
#[derive(Drop)]
pub(super) struct Both {
    pub(super) table: Table<u64>,
    pub(super) plain: Vec<Route>,
}

impl Both {
    pub(super) fn new(alloc: Global) -> Result<Both, AllocError> {
        Ok(Both {
            table: Table::new(alloc)?,
            plain: Vec::new(alloc),
        })
    }

    /// Adds a route to both, at the address masked by the rank. Whether the table takes it just where its pair is free.
    pub(super) fn add(
        &mut self,
        address: Inet,
        rank: Rank,
        value: u64,
    ) -> Result<bool, AllocError> {
        let key = masked(address, rank);
        let room = self.table.room(&mut Memory::new())?;
        let there = plain_at(self.plain.as_slice(), key, rank).is_some();
        match self.table.add(room, key, rank, value) {
            Ok(()) => {
                let place = place_for(self.plain.as_slice(), key, rank);
                let route = (key.number(), rank.number(), value);
                self.plain.insert(place, route)?;
                Ok(!there)
            }
            Err((room, back)) => {
                self.table.give_back(room);
                Ok(there && back == value)
            }
        }
    }

    /// Removes the route at this place of the plain list from both. Whether there is one, whose value is answered.
    pub(super) fn remove(&mut self, place: usize) -> bool {
        if place >= self.plain.len() {
            return false;
        }
        let (key, rank, value) = self.plain.remove(place);
        self.table.remove(Inet::new(key), rank_of(rank)) == Some(value)
    }

    /// Whether nothing is removed at a pair that the plain list hasn't.
    pub(super) fn removes_none(&mut self, address: Inet, rank: Rank) -> bool {
        let key = masked(address, rank);
        plain_at(self.plain.as_slice(), key, rank).is_some()
            || self.table.remove(key, rank).is_none()
    }

    /// Writes a value of its own to the route at this place of the plain list, in both. Whether there is one.
    pub(super) fn write(&mut self, place: usize, value: u64) -> bool {
        let Some(route) = self.plain.get_mut(place) else {
            return false;
        };
        route.2 = value;
        match self.table.get_mut(Inet::new(route.0), rank_of(route.1)) {
            None => false,
            Some(own) => {
                *own = value;
                true
            }
        }
    }

    /// Whether a value is lent just where the plain list has a route.
    pub(super) fn lends_right(&mut self, address: Inet, rank: Rank) -> bool {
        let key = masked(address, rank);
        let there = plain_at(self.plain.as_slice(), key, rank).is_some();
        self.table.get_mut(key, rank).is_some() == there
    }

    /// Whether the table has what the plain list has, in its order.
    pub(super) fn is_right(&mut self) -> bool {
        let mut visits = self.table.begin();
        let mut walk = self.table.walk(&mut visits);
        walks_over(&mut walk, self.plain.as_slice(), &mut visits)
    }

    /// Whether the table finds an address's best route.
    pub(super) fn is_best_right(&mut self, address: Inet) -> bool {
        let mut visits = self.table.begin();
        best_in(&self.table, address, &mut visits) == plain_best(self.plain.as_slice(), address)
    }

    /// Whether the table finds what the plain list has of an address: its best route, the first one of its key, which
    /// is masked by the rank, and the one of this rank.
    pub(super) fn is_right_at(&mut self, address: Inet, rank: Rank) -> bool {
        let plain = self.plain.as_slice();
        let key = masked(address, rank);
        let mut visits = self.table.begin();
        let found = self.table.get(key, rank, &mut visits).copied();
        let first = first_in(&self.table, key, &mut visits);
        found == plain_at(plain, key, rank)
            && first == plain_first(plain, key)
            && self.is_best_right(address)
    }

    /// Whether the best route of each address is right that differs from this one in a bit, and the table has what the
    /// plain list has.
    pub(super) fn is_right_around(&mut self, address: Inet) -> bool {
        for bit in 0..32u32 {
            if !self.is_best_right(Inet::new(address.number() ^ 1 << bit)) {
                return false;
            }
        }
        self.is_right()
    }

    /// Whether it is right at each of its routes.
    pub(super) fn is_right_at_all(&mut self) -> bool {
        for place in 0..self.plain.len() {
            let Some((key, rank, _)) = self.plain.get(place).copied() else {
                return false;
            };
            if !self.is_right_at(Inet::new(key), rank_of(rank)) {
                return false;
            }
        }
        self.is_right()
    }
}

/// The rank with this number, or the greatest.
pub(super) fn rank_of(number: u8) -> Rank {
    Rank::new(number.min(33))
}

/// What a table answers as an address's best route.
fn best_in(table: &Table<u64>, address: Inet, visits: &mut Visits) -> Option<Route>
    requires { visits.old.turn ≡ table.now.turn }
{
    match table.best(address, visits) {
        None => None,
        Some((key, rank, value)) => Some((key.number(), rank.number(), *value)),
    }
}

/// What a table answers as a key's first route.
fn first_in(table: &Table<u64>, key: Inet, visits: &mut Visits) -> Option<Route>
    requires { visits.old.turn ≡ table.now.turn }
{
    match table.first_of(key, visits) {
        None => None,
        Some((rank, value)) => Some((key.number(), rank.number(), *value)),
    }
}

/// The value of the plain list's route with this pair.
pub(super) fn plain_at(plain: &[Route], key: Inet, rank: Rank) -> Option<u64> {
    let pair = (key.number(), rank.number());
    for route in plain {
        if (route.0, route.1) == pair {
            return Some(route.2);
        }
    }
    None
}

/// The plain list's first route with this key.
fn plain_first(plain: &[Route], key: Inet) -> Option<Route> {
    let number = key.number();
    plain.iter().find(|r| r.0 == number).copied()
}

/// How many of the plain list stand before this pair.
fn place_for(plain: &[Route], key: Inet, rank: Rank) -> usize
    ensures { result ≤ length plain.now }
{
    let (key, rank) = (key.number(), rank.number());
    plain
        .iter()
        .position(|r| r.0 > key || r.0 == key && r.1 < rank)
        .unwrap_or(plain.len())
}

/// The route of greatest rank in the plain list with which the address agrees.
fn plain_best(plain: &[Route], address: Inet) -> Option<Route> {
    let mut best: Option<Route> = None;
    for route in plain {
        let rank = rank_of(route.1);
        if agrees(Inet::new(route.0), rank, address) && best.is_none_or(|b| b.1 < route.1) {
            best = Some(*route);
        }
    }
    best
}

/// A walk's next route.
fn next_of(walk: &mut Walk<'_, u64>, visits: &mut Visits) -> Option<Route>
    requires { visits.old.turn ≡ walk.old.turn }
    ensures counter { visits.new.turn ≡ visits.old.turn }
    ensures walk { walk.new.turn ≡ walk.old.turn }
{
    match walk.step(visits) {
        None => None,
        Some((key, rank, value)) => Some((key.number(), rank.number(), *value)),
    }
}

/// Whether a walk gives all of a plain list in its order, and then nothing.
fn walks_over(walk: &mut Walk<'_, u64>, plain: &[Route], visits: &mut Visits) -> bool
    requires { visits.old.turn ≡ walk.old.turn }
{
    for route in plain {
        if next_of(walk, visits) != Some(*route) {
            return false;
        }
    }
    next_of(walk, visits).is_none()
}
