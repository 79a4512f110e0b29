//! The program round a run: the file that its words name is read, standard output written, and standard error told of
//! what went wrong.
ghost use Rattle.std.specs.Prelude.{◌≡◌};
ghost use Rattle.lab_main.specs.Telling.{fresh};

use crate::lab::Lab;
use crate::noting::Noting;
use crate::pictures::write_pictures;
use crate::prompt::Prompting;
use crate::run::run;
use crate::shows::Shows;
use crate::words::{Asked, PROGRAM};
use clap::error::ErrorKind as Mistake;
use event_file::Counted;
use memory::Memory;
use program_ends::{Outcome, Refusal, fault_text, refusal_status, status};
use std::fs;
use std::io::{self, ErrorKind, Read};
use std::process::ExitCode;
use std::rt::Files;

/// Tells the lines of the text that is asked for, writes the pictures that are, and answers the exit status.
/// `at_terminal` says that standard input is one: then there is a prompt, and no line is shown again. The machine's
/// refusals of memory are counted in `refusals`, and those of texts in `memory`.
pub(crate) fn end_of_run<R: Files + Input + Print + Eprint + AllocGlobal>(
    rt: &R,
    asked: &Asked<'_>,
    at_terminal: bool,
    refusals: Memory,
    memory: &mut Memory,
) -> ExitCode
    requires { refusals ≡ 0 }
{
    let outcome = run_asked(rt, asked, at_terminal, refusals, memory);
    if outcome == Outcome::NoMemory {
        let _ = eprintln!(rt; "{PROGRAM}: {}", fault_text(outcome));
    }
    ExitCode::from(status(outcome))
}

/// Tells the lines of the text that is asked for, and then writes the pictures of the tree that are.
fn run_asked<R: Files + Input + Print + Eprint + AllocGlobal>(
    rt: &R,
    asked: &Asked<'_>,
    at_terminal: bool,
    refusals: Memory,
    memory: &mut Memory,
) -> Outcome
    requires { refusals ≡ 0 }
{
    let Ok(mut lab) = Lab::new(rt.alloc(), refusals, memory) else {
        return Outcome::NoMemory;
    };
    let outcome = tell_text(rt, asked, at_terminal, &mut lab, memory);
    match outcome {
        Outcome::Done | Outcome::BadLine => {
            match write_pictures(rt, asked, &mut lab.machine.world, memory) {
                Ok(()) => outcome,
                Err(fault) => fault,
            }
        }
        _ => outcome,
    }
}

/// Tells the lines of the file, or of standard input.
fn tell_text<R: Files + Input + Print + Eprint + AllocGlobal>(
    rt: &R,
    asked: &Asked<'_>,
    at_terminal: bool,
    lab: &mut Lab,
    memory: &mut Memory,
) -> Outcome
    requires { lab.old ≡ fresh }
{
    match asked.file {
        None if at_terminal => {
            let shows = Shows {
                echo: false,
                ..asked.shows
            };
            let reader = Prompting::new(rt.reader(), io::writer(rt));
            run_over(rt, shows, lab, STANDARD_INPUT, reader, memory)
        }
        None => run_over(rt, asked.shows, lab, STANDARD_INPUT, rt.reader(), memory),
        Some(file) => match fs::open(rt, file) {
            Ok(text) => run_over(rt, asked.shows, lab, file, text, memory),
            Err(error) => {
                excuse(rt, file, Some(error.kind()));
                Outcome::ReadFault
            }
        },
    }
}

/// What is read where no file is named, for people.
const STANDARD_INPUT: &str = "standard input";

/// Tells the lines of a text, which people know by this name, on standard output.
fn run_over<R: Print + Eprint + AllocGlobal, T: Read + Drop>(
    rt: &R,
    shows: Shows,
    lab: &mut Lab,
    name: &str,
    text: T,
    memory: &mut Memory,
) -> Outcome
    requires { lab.old ≡ fresh }
{
    let mut reader = Counted::new(Noting::new(text));
    let mut writer = Counted::new(Noting::new(io::writer(rt)));
    let outcome = run(rt.alloc(), shows, lab, &mut reader, &mut writer, memory);
    match outcome {
        Outcome::ReadFault => excuse(rt, name, reader.into_inner().why()),
        Outcome::WriteFault => excuse(rt, "standard output", writer.into_inner().why()),
        _ => {}
    }
    outcome
}

/// Tells standard error why a file can't be read or written; nothing where its reader has gone.
pub(crate) fn excuse<R: Eprint>(rt: &R, file: &str, why: Option<ErrorKind>) {
    if why == Some(ErrorKind::BrokenPipe) {
        return;
    }
    let why = reason(why);
    let _ = eprintln!(rt; "{PROGRAM}: {file}: {why}");
}

/// Why a file can't be read or written.
fn reason(why: Option<ErrorKind>) -> &'static str {
    match why {
        Some(ErrorKind::NotFound) => "No such file",
        Some(ErrorKind::PermissionDenied) => "Permission denied",
        Some(ErrorKind::IsADirectory) => "Is a directory",
        Some(ErrorKind::StorageFull) => "No space left on device",
        _ => "Input/output error",
    }
}

/// Ends the program where its words ask for no run: help and the version go to standard output, what is wrong with the
/// words to standard error.
pub(crate) fn end_refused<R: Print + Eprint>(rt: &R, error: &clap::Error) -> ExitCode {
    let _ = error.print(rt);
    match error.kind() {
        Mistake::DisplayHelp | Mistake::DisplayVersion => ExitCode::from(0),
        Mistake::OutOfMemory => ExitCode::from(refusal_status(Refusal::NoMemory)),
        _ => ExitCode::from(refusal_status(Refusal::Usage)),
    }
}
