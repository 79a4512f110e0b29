//! Packets among as many routes as a router has that knows a large part of the Internet: each is a line.
ghost use Rattle.std.specs.Prelude.{◌<◌};

use crate::daemon::add_routes;
use crate::machine::Fault;
use crate::work::Work;

/// How many packets are sent for each route.
const PACKETS: u32 = 10;

/// One packet of so many has an address by chance, which few routes lead to.
const STRAY: u32 = 16;

/// Adds so many routes, and sends packets to addresses of their networks.
pub(crate) fn run(work: &mut Work, count: u32) -> Result<(), Fault> {
    add_routes(work, count)?;
    for _turn in 0..PACKETS {
        send(work, count)?;
    }
    work.machine.answer_all()
}

/// Sends so many packets.
fn send(work: &mut Work, count: u32) -> Result<(), Fault> {
    for _packet in 0..count {
        let destination = draw_destination(work, STRAY);
        let lines = &mut work.machine.lines;
        lines.text("packet ");
        lines.address(destination);
        lines.text("\n");
        work.machine.answer_many()?;
    }
    Ok(())
}

/// An address of one of the networks, and one of so many times any.
pub(crate) fn draw_destination(work: &mut Work, stray: u32) -> u32
    requires { 0 < stray }
{
    if work.chance.below(stray) == 0 {
        return work.chance.word();
    }
    match work.draw_network() {
        Some(network) => network.host(&mut work.chance),
        None => 0,
    }
}
