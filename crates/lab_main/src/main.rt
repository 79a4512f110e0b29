//! Tells in words what becomes of each line of a script of routing-socket commands: `routelab [OPTION..] [FILE]`.
#![tactic(auto)]

mod answering;
mod lab;
mod laws;
mod machine;
mod noting;
mod pictures;
mod program;
mod prompt;
mod questions;
mod run;
mod shows;
mod texts;
mod visible;
mod words;

use memory::Memory;
use program::{end_of_run, end_refused};
use program_ends::{end, words_of};
use std::io::IsTerminal;
use std::process::ExitCode;
use words::{PROGRAM, asked_by};

fn main(rt: HostRuntime) -> ExitCode {
    let words = match words_of(&rt) {
        Ok(words) => words,
        Err(refusal) => return end(&rt, PROGRAM, Err(refusal)),
    };
    match asked_by(rt.alloc(), words.as_slice()) {
        Ok(asked) => {
            let at_terminal = rt.stdin().is_terminal();
            // what the machine is refused is counted apart from what texts are
            let (machine, mut texts) = (Memory::new(), Memory::new());
            end_of_run(&rt, &asked, at_terminal, machine, &mut texts)
        }
        Err(error) => end_refused(&rt, &error),
    }
}
