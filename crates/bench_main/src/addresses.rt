//! Many interfaces with many addresses, as of a host in many networks: each address brings a route, routes lead over
//! their neighbours, packets go there, and half of the addresses are taken away.
ghost use Rattle.std.specs.Prelude.{◌≤◌};

use crate::lines::Lines;
use crate::machine::Fault;
use crate::work::Work;

/// How many interfaces there are.
const INTERFACES: u32 = 64;

/// What the hosts' addresses begin with to which routes are added.
const FAR: u32 = 0xc000_0000;

/// Adds so many addresses, and as many routes and packets over them; and takes half of the addresses away.
pub(crate) fn run(work: &mut Work, count: u32) -> Result<(), Fault> {
    let first = work.chance.word();
    work.machine.lines.text("open d 100 any\nloopback d off\n");
    for interface in 0..INTERFACES {
        put_interface(&mut work.machine.lines, interface);
    }
    for number in 0..count {
        put_address(&mut work.machine.lines, "addr i", number);
        put_network(&mut work.machine.lines, first, number);
        work.machine.answer_many()?;
    }
    add_routes(work, first, count)?;
    send(work, first, count)?;
    for number in 0..count {
        if work.chance.below(2) == 0 {
            put_address(&mut work.machine.lines, "unaddr i", number);
            put_own(&mut work.machine.lines, first, number);
            work.machine.answer_many()?;
        }
    }
    work.machine.answer_all()
}

/// Puts the line that attaches an interface.
fn put_interface(lines: &mut Lines, interface: u32) {
    lines.text("if i");
    lines.number(interface);
    lines.text(" broadcast 6 0800");
    lines.hex(interface);
    lines.text("\n");
}

/// Puts the words that a line about the address of this number begins with.
fn put_address(lines: &mut Lines, words: &str, number: u32) {
    lines.text(words);
    lines.number(number % INTERFACES);
    lines.text(" ");
}

/// Puts the address of this number with its network.
fn put_network(lines: &mut Lines, first: u32, number: u32) {
    lines.address(network(first, number) + 1);
    lines.text("/24\n");
}

/// Puts the address of this number.
fn put_own(lines: &mut Lines, first: u32, number: u32) {
    lines.address(network(first, number) + 1);
    lines.text("\n");
}

/// Adds routes to hosts over neighbours of the addresses.
fn add_routes(work: &mut Work, first: u32, count: u32) -> Result<(), Fault> {
    for number in 0..count {
        let gateway = draw_neighbour(work, first, count);
        let lines = &mut work.machine.lines;
        lines.text("route d ");
        lines.number(number);
        lines.text(" add ");
        lines.address(FAR | number);
        lines.text("/32 via ");
        lines.address(gateway);
        lines.text(" flags 803\n");
        work.machine.answer_many()?;
    }
    Ok(())
}

/// Sends packets to neighbours, and to the hosts that the routes lead to.
fn send(work: &mut Work, first: u32, count: u32) -> Result<(), Fault> {
    for _packet in 0..count {
        let near = draw_neighbour(work, first, count);
        let far = FAR | work.chance.word() % count.max(1);
        let lines = &mut work.machine.lines;
        lines.text("packet ");
        lines.address(near);
        lines.text("\npacket ");
        lines.address(far);
        lines.text("\n");
        work.machine.answer_many()?;
    }
    Ok(())
}

/// A neighbour of one of the addresses, by chance.
fn draw_neighbour(work: &mut Work, first: u32, count: u32) -> u32 {
    let number = work.chance.word() % count.max(1);
    network(first, number) + 2 + work.chance.word() % 250
}

/// The network of the address of this number: networks of 256 addresses in an order that `first` says, from 16.0.0.0
/// on.
fn network(first: u32, number: u32) -> u32
    ensures { result ≤ 0x2000_0000 }
{
    let place = (number ^ first) % 0x1_0000;
    0x1000_0000 + place * 256
}
