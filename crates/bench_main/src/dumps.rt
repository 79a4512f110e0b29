//! Dumps of a table that changes: a process asks how much room a dump wants, and takes it whole, by a flag, and in a
//! part.
use crate::daemon::{add_routes, put_add};
use crate::machine::Fault;
use crate::networks::Network;
use crate::work::Work;

/// How many times the table is dumped.
const DUMPS: u32 = 80;

/// How many routes are added between two dumps.
const BETWEEN: u32 = 8;

/// Adds so many routes, and then dumps the table again and again, with some routes more each time.
pub(crate) fn run(work: &mut Work, count: u32) -> Result<(), Fault> {
    add_routes(work, count)?;
    for number in 0..DUMPS {
        for _route in 0..BETWEEN {
            let network = Network::draw(&mut work.chance);
            put_add(&mut work.machine.lines, number, network, &mut work.chance);
        }
        put_dumps(work);
        work.machine.answer_all()?;
    }
    Ok(())
}

/// Puts the lines that dump the table.
fn put_dumps(work: &mut Work) {
    let part = work.chance.below(1_000_000);
    let lines = &mut work.machine.lines;
    lines.text("dump ask\ndump 100000000\n");
    lines.text("flags 2 ask\nflags 800 100000000\n");
    lines.text("dump ");
    lines.number(part);
    lines.text("\n");
}
