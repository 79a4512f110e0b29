//! A site's table: routes to its own networks, of fifteen lengths with that of its interface, and a default route by
//! which it reaches the world. Packets go both ways; hosts of one network come in order and go again, oldest first;
//! hosts of another one come by chance; and an address of an interface comes and goes. Packets are sent without a line
//! and without a text, as by the library.
use crate::chance::shuffled;
use crate::daemon::{add_routes, put_add};
use crate::machine::Fault;
use crate::networks::Network;
use crate::packets::draw_destination;
use crate::work::Work;
use sock_addrs::Inet;

/// What the site's addresses begin with: the network of its interface.
const SITE: u32 = 0x0a00_0000;

/// The network whose hosts come by chance.
const OFFICE: u32 = 0x0a01_0000;

/// The network whose hosts come and go in order.
const DIALLED: u32 = 0x0a80_0000;

/// How many hosts that network has.
const DIALLING: u32 = 0x80_0000;

/// How many networks of the site there are with masks of each length, from 9 bits on.
const NETWORKS: [u32; 24] = [
    0, 0, 0, 1, 0, 0, 0, 3, 0, 0, 0, 3, 0, 5, 5, 30, 5, 5, 5, 5, 5, 20, 10, 20,
];

/// How many packets are sent for each host, before the hosts and after.
const PACKETS: u32 = 40;

/// One packet of so many goes to the world.
const WORLD: u32 = 2;

/// The address comes and goes once for so many hosts.
const STEADY: u32 = 6;

/// Adds the site's routes and sends packets, lets so many hosts come and go, and as many come and stay, sends packets
/// again, and lets the address come and go.
pub(crate) fn run(work: &mut Work, count: u32) -> Result<(), Fault> {
    add_routes(work, 0)?;
    work.machine
        .lines
        .text("route d 1 add default via 10.0.0.2 flags 803\n");
    add_networks(work)?;
    send(work, count);
    come_and_go(work, count)?;
    send(work, count);
    add_hosts(work, count)?;
    flap(work, count / STEADY)
}

/// Adds routes to the site's networks.
fn add_networks(work: &mut Work) -> Result<(), Fault> {
    for place in 0..24u8 {
        for number in 0..NETWORKS[usize::from(place)] {
            let network = Network::of(SITE | work.chance.word() >> 8, 9 + place);
            work.keep(network)?;
            put_add(&mut work.machine.lines, number, network, &mut work.chance);
        }
    }
    work.machine.answer_all()
}

/// Sends packets to the site's networks, and to the world.
fn send(work: &mut Work, count: u32) {
    for _host in 0..count {
        for _packet in 0..PACKETS {
            let destination = draw_destination(work, WORLD);
            work.packet(Inet::new(destination));
        }
    }
}

/// Lets so many hosts of one network come in order, and go in the same order.
fn come_and_go(work: &mut Work, count: u32) -> Result<(), Fault> {
    for number in 0..count {
        let host = Network::of(DIALLED | number % DIALLING, 32);
        put_add(&mut work.machine.lines, number, host, &mut work.chance);
        work.machine.answer_many()?;
    }
    for number in 0..count {
        let lines = &mut work.machine.lines;
        lines.text("route d ");
        lines.number(number);
        lines.text(" delete ");
        lines.address(DIALLED | number % DIALLING);
        lines.text("/32\n");
        work.machine.answer_many()?;
    }
    work.machine.answer_all()
}

/// Lets so many hosts of one network come by chance, no one twice.
fn add_hosts(work: &mut Work, count: u32) -> Result<(), Fault> {
    let order = work.chance.word();
    for number in 0..count {
        let host = Network::of(OFFICE | shuffled(number, order), 32);
        put_add(&mut work.machine.lines, number, host, &mut work.chance);
        work.machine.answer_many()?;
    }
    work.machine.answer_all()
}

/// Lets an address of an interface come and go so many times, which nobody hears.
fn flap(work: &mut Work, times: u32) -> Result<(), Fault> {
    work.machine
        .lines
        .text("close d\nclose m\nif lo0 loopback 24 -\n");
    for _time in 0..times {
        let lines = &mut work.machine.lines;
        lines.text("addr lo0 127.0.0.1/32\nunaddr lo0 127.0.0.1\n");
        work.machine.answer_many()?;
    }
    work.machine.answer_all()
}
