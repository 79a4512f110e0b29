//! Networks that lie in one another, of all lengths of masks, and packets that agree with none of them and take the
//! default route. All networks are of the lower half of the addresses and all packets go to the upper one: but for its
//! first bit each packet would agree with networks of all lengths, so it has to be tried against all. At the end a few
//! go to the lower half, so that the digest tells of the networks too. Packets are sent without a line and without a
//! text, as by the library.
use crate::chance::Chance;
use crate::daemon::{add_routes, put_add};
use crate::machine::Fault;
use crate::networks::Network;
use crate::work::Work;
use sock_addrs::Inet;

/// The length of the longest masks.
const DEEP: u8 = 28;

/// How many packets are sent near each address.
const PACKETS: u32 = 200;

/// How many bits of an address its number says: there are up to 4,096 addresses.
const NUMBERED: u32 = 12;

/// The bits of an address that are left to the packets near it, more than there are such packets.
const NEAR: u32 = 0x3ff;

/// The first bit of an address.
const UPPER: u32 = 0x8000_0000;

/// Adds the networks that so many addresses lie in, and sends packets near their counterparts in the upper half, no two
/// to one address, and one near each of them.
pub(crate) fn run(work: &mut Work, count: u32) -> Result<(), Fault> {
    add_routes(work, 0)?;
    let lines = &mut work.machine.lines;
    lines.text("route d 1 add default via 10.0.0.2 flags 803\n");
    let mut last = Vec::new(work.alloc);
    for number in 0..count {
        let address = draw_address(&mut work.chance, number);
        add_around(work, number, address)?;
        last.push(address | UPPER)?;
    }
    work.machine.answer_all()?;
    for _turn in 0..PACKETS {
        for _packet in 0..count {
            send(work, &mut last);
        }
    }
    for place in 0..last.len() {
        work.packet(Inet::new(last[place] ^ UPPER));
    }
    Ok(())
}

/// An address of the lower half. Its next bits are those of its number, the last one first, so that no two addresses
/// have the same; those left to packets are 0, and all others by chance.
fn draw_address(chance: &mut Chance, number: u32) -> u32 {
    (number.reverse_bits() | chance.word() >> NUMBERED) >> 1 & !NEAR
}

/// Adds the networks of all lengths that an address lies in, but those that addresses of lower numbers lie in too.
fn add_around(work: &mut Work, number: u32, address: u32) -> Result<(), Fault> {
    for place in 0..DEEP {
        if number >> place == 0 {
            let around = Network::of(address, place + 1);
            put_add(&mut work.machine.lines, number, around, &mut work.chance);
            work.machine.answer_many()?;
        }
    }
    Ok(())
}

/// Sends a packet near one of the addresses by chance, to the next address after the last one.
fn send(work: &mut Work, last: &mut Vec<u32>) {
    let count = last.len();
    if count == 0 {
        return;
    }
    let which = work.chance.word() as usize % count;
    let next = last[which].wrapping_add(1);
    last[which] = next;
    work.packet(Inet::new(next));
}
