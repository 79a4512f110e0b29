//! Runs a script of routing-socket commands, and writes its transcript to standard output: `routesim [FILE]`, where the
//! script is FILE, or standard input where no FILE is named.
#![tactic(auto)]

mod program;
mod run;
#[cfg(test)]
mod tests;

use memory::Memory;
use program::{PROGRAM, run_words};
use program_ends::{end, words_of};
use std::process::ExitCode;

fn main(rt: HostRuntime) -> ExitCode {
    let mut memory = Memory::new();
    let ended = match words_of(&rt) {
        Ok(words) => run_words(&rt, words.as_slice(), &mut memory),
        Err(refusal) => Err(refusal),
    };
    end(&rt, PROGRAM, ended)
}
