//! Writes a text with the routing messages in it as people read them: `routeshow [FILE]`, where the text, as a
//! transcript of `routesim`, is FILE, or standard input where no FILE is named.
#![tactic(auto)]

mod digits;
mod lines;
mod messages;
mod program;
mod run;

use memory::Memory;
use program::{PROGRAM, run_words};
use program_ends::{end, words_of};
use std::process::ExitCode;

fn main(rt: HostRuntime) -> ExitCode {
    let mut memory = Memory::new();
    let ended = match words_of(&rt) {
        Ok(words) => run_words(&rt, words.as_slice(), &mut memory),
        Err(refusal) => Err(refusal),
    };
    end(&rt, PROGRAM, ended)
}
