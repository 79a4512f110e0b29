//! The end of a program: its exit status, and what standard error says.
ghost use Rattle.std.specs.Prelude.{◌≡◌};
ghost use Rattle.std.specs.Process.{exit_status};
ghost use Rattle.program_ends.specs.Endings.{status_of_end};

use crate::{Outcome, Refusal, fault_text, refusal_status, refusal_text, status};
use std::process::ExitCode;

/// Ends a program: tells standard error of the refusal, or of the outcome where the run is not done, behind the
/// program's name. Answers the exit status.
pub fn end<R: Eprint>(rt: &R, program: &str, ended: Result<Outcome, Refusal>) -> ExitCode
    ensures { exit_status result ≡ status_of_end ended }
{
    let (status, text) = match ended {
        Ok(outcome) => (status(outcome), fault_text(outcome)),
        Err(refusal) => (refusal_status(refusal), refusal_text(refusal)),
    };
    if !text.is_empty() {
        // Where standard error fails too, there is nobody left to tell.
        let _ = eprintln!(rt; "{program}: {text}");
    }
    ExitCode::from(status)
}
