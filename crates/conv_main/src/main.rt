//! Converts the routing messages of a text from the layout of one system to that of another:
//! `routeconv FROM TO [FILE]`, where the text, as a script or a transcript of `routesim`, is FILE, or standard input
//! where no FILE is named.
#![tactic(auto)]

mod made;
mod messages;
mod pieces;
mod program;
mod progress;
mod run;
mod texts;
mod way;
mod words;

use memory::Memory;
use program::{end_run, run_words};
use program_ends::words_of;
use std::process::ExitCode;

fn main(rt: HostRuntime) -> ExitCode {
    let mut memory = Memory::new();
    let ended = match words_of(&rt) {
        Ok(words) => run_words(&rt, &rt.stderr(), words.as_slice(), &mut memory),
        Err(refusal) => Err(refusal),
    };
    end_run(&rt, ended)
}
