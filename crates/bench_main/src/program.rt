//! The program round the workloads: which one its words name.
use crate::digest::Digest;
use crate::machine::Fault;
use crate::work::Work;
use crate::{addresses, daemon, dumps, nested, packets, site, words};
use program_ends::{Outcome, Refusal};
use std::alloc::Global;

/// What the program is called.
pub(crate) const PROGRAM: &str = "bench_main";

/// A workload.
#[derive(Clone, Copy)]
enum Workload {
    Daemon,
    Packets,
    Nested,
    Dumps,
    Addresses,
    Words,
    Site,
}

/// Each workload with its name.
const WORKLOADS: [(&str, Workload); 7] = [
    ("daemon", Workload::Daemon),
    ("packets", Workload::Packets),
    ("nested", Workload::Nested),
    ("dumps", Workload::Dumps),
    ("addresses", Workload::Addresses),
    ("words", Workload::Words),
    ("site", Workload::Site),
];

/// Runs the workloads that these words name: the name of one, or `all`; a number by which it is drawn; and its size.
pub(crate) fn run_words<R: Print + AllocGlobal>(
    rt: &R,
    words: &[String],
) -> Result<Outcome, Refusal> {
    let [_, name, seed, count] = words else {
        return Err(Refusal::Usage);
    };
    let (Ok(seed), Ok(count)) = (seed.parse::<u32>(), count.parse::<u32>()) else {
        return Err(Refusal::Usage);
    };
    let mut found = false;
    for (own, workload) in &WORKLOADS {
        if name.as_str() == *own || name.as_str() == "all" {
            found = true;
            let digest = match run(rt.alloc(), *workload, seed, count) {
                Ok(digest) => digest,
                Err(Fault::NoMemory) => return Ok(Outcome::NoMemory),
                Err(Fault::Stopped) => return Ok(Outcome::WriteFault),
            };
            if println!(rt; "{own} {:016x}", digest.value()).is_err() {
                return Ok(Outcome::WriteFault);
            }
        }
    }
    if !found {
        return Err(Refusal::Usage);
    }
    Ok(Outcome::Done)
}

/// Runs one workload of this size.
fn run(alloc: Global, workload: Workload, seed: u32, count: u32) -> Result<Digest, Fault> {
    let mut work = Work::new(alloc, seed)?;
    run_over(&mut work, workload, count)?;
    Ok(work.end())
}

fn run_over(work: &mut Work, workload: Workload, count: u32) -> Result<(), Fault> {
    match workload {
        Workload::Daemon => daemon::run(work, count),
        Workload::Packets => packets::run(work, count),
        Workload::Nested => nested::run(work, count),
        Workload::Dumps => dumps::run(work, count),
        Workload::Addresses => addresses::run(work, count),
        Workload::Words => words::run(work, count),
        Workload::Site => site::run(work, count),
    }
}
