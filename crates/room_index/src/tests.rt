//! What no clause says: that a pair is found once it was entered, that the table follows the number of its pairs, that
//! an entry makes way for one more, and that pairs which share their homes are given up until none is left.
ghost use Rattle.std.specs.Prelude.{◌<◌, ◌≤◌, ◌^◌, IfOk};

use crate::Index;
use crate::homes::{Homes, pair_of};
use mask_table::{Rank, Ranks};
use memory::Memory;
use radix_nodes::{Id, Nodes, Visits};
use sock_addrs::Inet;
use std::alloc::AllocError;
use std::process::Abort;
use std::test::Fail;

/// An index with what it counts and is asked by, and the room that stands for each pair.
#[derive(Drop)]
struct Trial {
    index: Index,
    memory: Memory,
    visits: Visits,
    room: Id,
}

impl Trial {
    /// Enters the network of 256 addresses of this number, where there is memory for it.
    fn enter(&mut self, number: u32) -> Result<(), AllocError>
        requires { number < 2 ^ 24 }
    {
        let (key, rank) = (Inet::new(number * 256), Rank::new(24));
        self.index.reserve(&mut self.memory)?;
        match self.index.find(key, rank, &mut self.visits) {
            Some(_room) => {}
            None => {
                let vacancy = self.index.vacancy(key, rank, &mut self.visits);
                let visits = &mut self.visits;
                self.index.enter(vacancy, key, rank, self.room, visits);
            }
        }
        Ok(())
    }

    /// Enters so many networks, by their numbers from this one on, that are at home in these of four buckets. Gives the
    /// number of the last.
    fn enter_at_home(
        &mut self,
        first: usize,
        second: usize,
        from: u32,
        many: usize,
    ) -> Result<u32, AllocError>
        ensures { IfOk result (λ number. number < 2 ^ 24) }
    {
        let mut left = many;
        for number in from..100_000 {
            let homes = Homes::of(pair_of(Inet::new(number * 256), Rank::new(24)), 2);
            if homes.first == first && homes.second == second {
                self.enter(number)?;
                left = left.saturating_sub(1);
                if left == 0 {
                    return Ok(number);
                }
            }
        }
        Ok(0)
    }

    /// Strikes it out.
    fn strike(&mut self, number: u32, rest: bool)
        requires { number < 2 ^ 24 }
    {
        let (key, rank) = (Inet::new(number * 256), Rank::new(24));
        self.index.strike(key, rank, rest, &mut self.visits);
    }

    /// Whether it is found.
    fn has(&mut self, number: u32) -> bool
        requires { number < 2 ^ 24 }
    {
        let (key, rank) = (Inet::new(number * 256), Rank::new(24));
        self.index.find(key, rank, &mut self.visits).is_some()
    }

    /// Whether one with such a key is at hand.
    fn is_near(&mut self, number: u32) -> bool
        requires { number < 2 ^ 24 }
    {
        self.index
            .near(Inet::new(number * 256), &mut self.visits)
            .is_some()
    }

    /// How many places there is memory for, with those beside.
    fn places(&self) -> usize {
        self.index.rooms.places.capacity()
    }
}

/// With one room, which `nodes` has.
fn make_trial(rt: &HostRuntime, nodes: &mut Nodes<u8>) -> Result<Trial, AllocError> {
    let mut memory = Memory::new();
    let room = nodes.make(&mut memory)?;
    let room = nodes.lodge(room, 0);
    Ok(Trial {
        index: Index::new(rt.alloc()),
        memory,
        visits: nodes.begin(),
        room,
    })
}

#[test]
fn pairs_come_and_go(rt: HostRuntime) -> Result<(), Fail> {
    let mut nodes = Nodes::new(rt.alloc());
    let mut trial = make_trial(&rt, &mut nodes)?;
    for number in 0..5_000 {
        trial.enter(number)?;
    }
    for number in 0..5_000 {
        assert!(rt; trial.has(number), "{number}");
        assert!(rt; !trial.has(number + 5_000), "{number}");
    }
    for number in 0..5_000 {
        trial.strike(number, number < 4_999);
        assert!(rt; !trial.has(number), "{number}");
    }
    assert!(rt; trial.index.is_whole());
    Ok(())
}

#[test]
fn table_follows_its_pairs(rt: HostRuntime) -> Result<(), Fail> {
    let mut nodes = Nodes::new(rt.alloc());
    let mut trial = make_trial(&rt, &mut nodes)?;
    assert_eq!(rt; trial.places(), 0);
    for round in 1..3u32 {
        for number in 0..50_000 {
            trial.enter(number)?;
        }
        assert_eq!(rt; trial.places(), 131_072 + 48, "in round {round}");
        for number in 100..50_000 {
            trial.strike(number, true);
        }
        assert!(rt;
            trial.places() <= 1_024 + 48,
            "in round {round}: {}",
            trial.places()
        );
        for number in 0..100 {
            assert!(rt; trial.has(number), "{number} in round {round}");
        }
    }
    Ok(())
}

/// The number of another network for each, which lie evenly over all addresses (multiples of the golden ratio).
fn scattered(number: u32) -> u32
    ensures { result < 2 ^ 24 }
{
    number.wrapping_mul(10_368_889) % (1 << 24)
}

#[test]
fn a_pair_is_near_until_it_is_struck(rt: HostRuntime) -> Result<(), Fail> {
    let mut nodes = Nodes::new(rt.alloc());
    let mut trial = make_trial(&rt, &mut nodes)?;
    assert!(rt; !trial.is_near(0));
    for number in 0..5_000 {
        trial.enter(scattered(number))?;
        // the first places do without ranges
        assert_eq!(rt; trial.is_near(scattered(number)), number >= 20, "{number}");
    }
    // as many ranges as buckets, which follow the number of pairs
    assert_eq!(rt; trial.index.rooms.ranges.many(), 1_024);
    for number in 1..5_000 {
        trial.strike(scattered(number), true);
    }
    // so few slots are all beside one another
    assert!(rt; trial.is_near(scattered(0)));
    assert!(rt; trial.is_near(scattered(4_999)));
    assert!(rt; trial.index.rooms.ranges.capacity() <= 16);
    trial.strike(scattered(0), true);
    assert!(rt; !trial.is_near(scattered(0)));
    Ok(())
}

#[test]
fn a_crowded_slot_has_none_near_until_slots_are_finer(rt: HostRuntime) -> Result<(), Fail> {
    let mut nodes = Nodes::new(rt.alloc());
    let mut trial = make_trial(&rt, &mut nodes)?;
    for number in 0..100 {
        trial.enter(number)?;
    }
    assert!(rt; !trial.is_near(99));
    for number in 100..1_000 {
        trial.enter(number)?;
    }
    assert!(rt; trial.is_near(999));
    Ok(())
}

#[test]
fn ranks_are_told_where_networks_are(rt: HostRuntime) -> Result<(), Fail> {
    let mut nodes = Nodes::new(rt.alloc());
    let mut trial = make_trial(&rt, &mut nodes)?;
    for number in 0..100 {
        trial.enter(number)?;
    }
    let near = trial.index.ranks(Inet::new(0), &mut trial.visits);
    assert_eq!(rt; near, Ranks::none().with(Rank::new(24)));
    let far = trial
        .index
        .ranks(Inet::new(200 * 65_536 * 256), &mut trial.visits);
    assert_eq!(rt; far, Ranks::none());
    Ok(())
}

#[test]
fn an_entry_makes_way(rt: HostRuntime) -> Result<(), Fail> {
    let mut nodes = Nodes::new(rt.alloc());
    let mut trial = make_trial(&rt, &mut nodes)?;
    let struck = trial.enter_at_home(1, 1, 0, 1)?;
    trial.enter_at_home(1, 1, struck + 1, 7)?;
    let moved = trial.enter_at_home(2, 1, 0, 1)?;
    let before = trial.enter_at_home(2, 2, 0, 7)?;
    trial.strike(struck, true);
    let last = trial.enter_at_home(2, 2, before + 1, 1)?;
    assert!(rt; trial.index.is_whole());
    for number in [moved, before, last] {
        assert!(rt; trial.has(number), "{number}");
    }
    assert!(rt; !trial.has(struck));
    trial.enter_at_home(2, 2, last + 1, 1)?;
    assert!(rt; !trial.index.is_whole());
    Ok(())
}

#[test]
fn pairs_of_one_bucket_are_given_up(rt: HostRuntime) -> Result<(), Fail> {
    let mut nodes = Nodes::new(rt.alloc());
    let mut trial = make_trial(&rt, &mut nodes)?;
    let mut many = 0u32;
    for number in 0..10_000 {
        let homes = Homes::of(pair_of(Inet::new(number * 256), Rank::new(24)), 2);
        if homes.first == 3 && homes.second == 3 {
            trial.enter(number)?;
            many = many.saturating_add(1);
            assert_eq!(rt; trial.index.is_whole(), many <= 8, "with {many}");
            assert_eq!(rt; trial.has(number), many <= 8, "with {many}");
        }
    }
    assert!(rt; many > 20);
    assert_eq!(rt; trial.places(), 0);
    trial.strike(1, true);
    assert!(rt; !trial.index.is_whole());
    trial.strike(1, false);
    assert!(rt; trial.index.is_whole());
    trial.enter(1)?;
    assert!(rt; trial.has(1));
    Ok(())
}
