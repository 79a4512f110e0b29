//! The benchmark's program: it makes a workload of a name by chance, from a number and of a size, gives it to the
//! public calls that `routesim`, `routeshow` and the library stand on, and prints a digest of all that these answered:
//! `bench_main NAME SEED COUNT`. NAME is `all` for each workload once. `bench/run` says how it is measured.
#![tactic(auto)]

mod addresses;
mod chance;
mod daemon;
mod digest;
mod dumps;
mod lines;
mod machine;
mod nested;
mod networks;
mod packets;
mod program;
mod site;
mod words;
mod work;

use program::{PROGRAM, run_words};
use program_ends::{end, words_of};
use std::process::ExitCode;

fn main(rt: HostRuntime) -> ExitCode {
    let ended = match words_of(&rt) {
        Ok(words) => run_words(&rt, words.as_slice()),
        Err(refusal) => Err(refusal),
    };
    end(&rt, PROGRAM, ended)
}
