//! What no clause says: that routes can be added and removed, thousands of them in each order, and that a value that
//! is lent is the table's own. What is found is compared with a plain list.

use super::plain::Both;
use mask_table::{Rank, masked};
use sock_addrs::Inet;
use std::alloc::{AllocError, Global};
use std::test::Fail;

/// Where a case's addresses are: a name, the first of them, the bits in which the others differ from it, and bits that
/// are turned all at once or not at all; and how many routes a long run over them has at most.
type Pool = (&'static str, u32, u32, u32, usize);

const POOLS: [Pool; 6] = [
    ("16 from nought on", 0, 0xf, 0, 40),
    ("64 at both ends", 0, 0x1f, 0xffff_ffff, 80),
    ("16 around the middle", 0x8000_0000, 7, 0xffff_ffff, 40),
    ("32 with bits far apart", 0x0a00_0000, 0x8040_0110, 1, 40),
    ("64 of two networks", 0x0a01_00f0, 0x1f, 0x0080_0000, 80),
    ("any", 0, 0xffff_ffff, 0, 120),
];

/// Numbers without an order, the same in each run.
#[derive(Drop)]
struct Random {
    state: u64,
}

impl Random {
    fn next(&mut self) -> u32 {
        self.state = self
            .state
            .wrapping_mul(6_364_136_223_846_793_005)
            .wrapping_add(1_442_695_040_888_963_407);
        (self.state >> 32) as u32
    }

    /// An address of a pool, and a rank.
    fn route(&mut self, pool: Pool) -> (Inet, Rank) {
        let (_, first, free, turned, _) = pool;
        let number = first ^ self.next() & free;
        let turned = if self.next() % 2 == 0 { 0 } else { turned };
        (
            Inet::new(number ^ turned),
            Rank::new((self.next() % 34) as u8),
        )
    }
}

/// Which of those that are left is next.
#[derive(Clone, Copy, Debug)]
enum Order {
    Rising,
    Falling,
    Shuffled,
}

const ORDERS: [Order; 3] = [Order::Rising, Order::Falling, Order::Shuffled];

impl Order {
    fn next(self, left: usize, random: &mut Random) -> usize {
        match self {
            Order::Rising => 0,
            Order::Falling => left.saturating_sub(1),
            Order::Shuffled => random.next() as usize % left.max(1),
        }
    }
}

/// Adds or removes a route of a pool. Whether that was right, and what is found after it.
fn changed(
    both: &mut Both,
    pool: Pool,
    step: u64,
    random: &mut Random,
) -> Result<bool, AllocError> {
    let (address, rank) = random.route(pool);
    // The more routes there are, the more often one goes.
    let place = random.next() as usize % pool.4.max(1);
    let right = if place < both.plain.len() {
        both.remove(place)
    } else {
        both.add(address, rank, step)?
    };
    let (other, rank) = random.route(pool);
    let found = both.is_best_right(address) && both.is_best_right(other);
    let aside = step % 8 != 0 || both.is_right_at(other, rank) && both.removes_none(other, rank);
    let whole = step % 500 != 0 || both.is_right_around(address) && both.is_right_at_all();
    Ok(right && found && aside && whole)
}

#[test]
fn a_long_run_of_changes(rt: HostRuntime) -> Result<(), Fail> {
    let mut random = Random { state: 1 };
    for pool in POOLS {
        let mut both = Both::new(rt.alloc())?;
        for step in 0..10_000 {
            let right = changed(&mut both, pool, step, &mut random)?;
            assert!(rt; right, "{}, change {step}", pool.0);
        }
    }
    Ok(())
}

/// Adds these routes in one order and removes them in another. Whether all was right after each.
fn in_and_out(
    alloc: Global,
    routes: &mut Vec<(Inet, Rank)>,
    orders: (Order, Order),
    random: &mut Random,
) -> Result<bool, AllocError> {
    let mut both = Both::new(alloc)?;
    for value in 0..routes.len() {
        let place = orders.0.next(routes.len(), random);
        if place >= routes.len() {
            return Ok(false);
        }
        let (address, rank) = routes.remove(place);
        if !both.add(address, rank, value as u64)? || !both.is_right_around(address) {
            return Ok(false);
        }
    }
    if !both.is_right_at_all() {
        return Ok(false);
    }
    for _ in 0..both.plain.len() {
        let place = orders.1.next(both.plain.len(), random);
        let key = both.plain.get(place).map_or(0, |r| r.0);
        if !both.remove(place) || !both.is_right_around(Inet::new(key)) {
            return Ok(false);
        }
    }
    Ok(both.plain.is_empty())
}

#[test]
fn all_routes_of_a_key(rt: HostRuntime) -> Result<(), Fail> {
    let mut random = Random { state: 2 };
    for number in [0, 0x8000_0000, 0x0a00_0000, 0xc0a8_0101, 0xffff_ffffu32] {
        for adds in ORDERS {
            for removes in ORDERS {
                let mut routes = Vec::new(rt.alloc());
                for rank in 0..34u8 {
                    let rank = Rank::new(rank);
                    if masked(Inet::new(number), rank) == Inet::new(number) {
                        routes.push((Inet::new(number), rank))?;
                    }
                }
                // Hosts beside it, so that bit nodes stand above the key.
                for bit in [0, 1, 7, 16, 31u32] {
                    routes.push((Inet::new(number ^ 1 << bit), Rank::host()))?;
                }
                let right = in_and_out(rt.alloc(), &mut routes, (adds, removes), &mut random)?;
                assert!(rt; right, "{number:#x}, {adds:?} in and {removes:?} out");
            }
        }
    }
    Ok(())
}

#[test]
fn filled_and_emptied(rt: HostRuntime) -> Result<(), Fail> {
    let mut random = Random { state: 3 };
    for pool in POOLS {
        for adds in ORDERS {
            for removes in ORDERS {
                let mut routes = Vec::new(rt.alloc());
                for _ in 0..32 {
                    routes.push(random.route(pool))?;
                }
                let right = in_and_out(rt.alloc(), &mut routes, (adds, removes), &mut random)?;
                assert!(rt; right, "{}, {adds:?} in and {removes:?} out", pool.0);
            }
        }
    }
    Ok(())
}

#[test]
fn a_lent_value_is_of_one_route(rt: HostRuntime) -> Result<(), Fail> {
    let mut random = Random { state: 4 };
    for pool in POOLS {
        let mut both = Both::new(rt.alloc())?;
        for value in 0..64 {
            let (address, rank) = random.route(pool);
            both.add(address, rank, value)?;
        }
        for place in 0..both.plain.len() {
            let (address, rank) = random.route(pool);
            let right = both.write(place, place as u64 ^ 1000) && both.lends_right(address, rank);
            assert!(rt; right && both.is_right(), "{}, {place}", pool.0);
        }
    }
    Ok(())
}
