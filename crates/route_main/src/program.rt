//! The program round a run: what its words ask for, and what kept it from running.
ghost use Rattle.std.specs.Prelude.{◌≡◌, [], IfErr, OnOk, codes, map};
ghost use Rattle.std.specs.String.{string_bytes};
ghost use Rattle.program_ends.specs.CommandLine.{faults_of};
ghost use Rattle.program_ends.specs.Refusals.{Refuses};

use crate::run::run;
use event_file::Counted;
use memory::Memory;
use program_ends::{Outcome, Refusal, file_named};
use std::io::{BufWriter, Read};
use std::rt::Files;
use std::{fs, io};

/// What the program is called.
pub(crate) const PROGRAM: &str = "routesim";

/// The most bytes of a transcript that are kept back until they are written at once: those of one read's lines are
/// seldom more.
const WRITE_ROOM: usize = 65_536;

/// Runs the script that these words name: the words come first, then the opening of FILE, then the run.
pub(crate) fn run_words<R: Files + Input + Print + AllocGlobal>(
    rt: &R,
    words: &[String],
    memory: &mut Memory,
) -> Result<Outcome, Refusal>
    ensures right { OnOk result (faults_of (codes "routesim") (map string_bytes words.now) ≡ []) }
    ensures refused { IfErr result (λ why. Refuses (codes "routesim") (map string_bytes words.now) why) }
{
    match file_named(rt.alloc(), PROGRAM, words)? {
        None => Ok(run_over(rt, rt.reader(), memory)),
        Some(file) => match fs::open(rt, file) {
            Ok(script) => Ok(run_over(rt, script, memory)),
            Err(_) => Err(Refusal::Unopened),
        },
    }
}

/// Runs a script, and writes its transcript to standard output, as much as a read's lines make at once. After a fault
/// nothing more is written: what was kept back goes with the buffer.
fn run_over<R: Print + AllocGlobal, S: Read + Drop>(
    rt: &R,
    script: S,
    memory: &mut Memory,
) -> Outcome {
    let Ok(kept_back) = BufWriter::with_capacity(rt.alloc(), WRITE_ROOM, io::writer(rt)) else {
        return Outcome::NoMemory;
    };
    let mut reader = Counted::new(script);
    let mut writer = Counted::new(kept_back);
    let outcome = run(rt.alloc(), &mut reader, &mut writer, memory);
    // a buffer that is dropped would be written
    let _ = writer.into_inner().into_parts();
    outcome
}
