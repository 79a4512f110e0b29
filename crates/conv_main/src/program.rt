//! The program round a run: the file that its words name is read, standard output written, and standard error told of
//! what is refused.
ghost use Rattle.std.specs.Prelude.{◌≡◌, ◌<◌, ◌⊎◌, [], IfErr, Ok, OnOk, map};
ghost use Rattle.std.specs.Process.{exit_status};
ghost use Rattle.std.specs.String.{string_bytes};
ghost use Rattle.program_ends.specs.Endings.{status_of_end};
ghost use Rattle.conv_main.specs.CommandLine.{NamesNone, Refuses, faults_of};
ghost use Rattle.conv_main.specs.Converted.{IsWay};
ghost use Rattle.route_layouts.specs.Systems.{layout_of};

use crate::run::run;
use crate::way::Way;
use crate::words::{PROGRAM, Side, asked_by};
use event_file::Counted;
use memory::Memory;
use program_ends::{Outcome, Refusal, end, status};
use std::io::Read;
use std::process::ExitCode;
use std::rt::Files;
use std::{fs, io};

/// Converts the text that these words name: the words come first, then the opening of FILE, then the run.
pub(crate) fn run_words<R: Files + Input + Print + AllocGlobal, E: Print>(
    rt: &R,
    errors: &E,
    words: &[String],
    memory: &mut Memory,
) -> Result<Outcome, Refusal>
    ensures right { OnOk result (faults_of (map string_bytes words.now) ≡ []) }
    ensures sides { OnOk result (NamesNone (map string_bytes words.now) → ⊥) }
    ensures refused { IfErr result (λ why. Refuses (map string_bytes words.now) why) }
    ensures short { memory.old < memory.new → (result ≡ Ok Outcome.NoMemory) ⊎ (result ≡ Ok Outcome.WriteFault) }
{
    let asked = asked_by(rt.alloc(), words)?;
    let way = way_between(asked.read, asked.written);
    match asked.file {
        None => Ok(run_over(rt, errors, &way, rt.reader(), memory)),
        Some(file) => match fs::open(rt, file) {
            Ok(text) => Ok(run_over(rt, errors, &way, text, memory)),
            Err(_) => Err(Refusal::Unopened),
        },
    }
}

/// The way from what is read to what is written.
fn way_between(read: Side, written: Side) -> Way
    ensures way { IsWay result }
    ensures read { result.read ≡ read.form }
    ensures from { result.from ≡ layout_of read.system }
    ensures written { result.written ≡ written.form }
    ensures to { result.to ≡ layout_of written.system }
{
    Way {
        read: read.form,
        from: read.system.layout(),
        written: written.form,
        to: written.system.layout(),
    }
}

/// Converts a text to standard output.
fn run_over<R: Print + AllocGlobal, E: Print, T: Read + Drop>(
    rt: &R,
    errors: &E,
    way: &Way,
    text: T,
    memory: &mut Memory,
) -> Outcome
    requires { IsWay way.now }
    ensures { memory.old < memory.new → (result ≡ Outcome.NoMemory) ⊎ (result ≡ Outcome.WriteFault) }
{
    let mut reader = Counted::new(text);
    let mut writer = Counted::new(io::writer(rt));
    let mut teller = Counted::new(io::writer(errors));
    run(
        rt.alloc(),
        way,
        &mut reader,
        &mut writer,
        &mut teller,
        memory,
    )
}

/// Ends the program as `end` does, but for a run that refused a message: standard error was told of each already.
pub(crate) fn end_run<R: Eprint>(rt: &R, ended: Result<Outcome, Refusal>) -> ExitCode
    ensures { exit_status result ≡ status_of_end ended }
{
    match ended {
        Ok(Outcome::BadLine) => ExitCode::from(status(Outcome::BadLine)),
        _ => end(rt, PROGRAM, ended),
    }
}
