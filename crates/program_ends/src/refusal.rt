//! Why a program begins no run, and what its caller is told.
ghost use Rattle.std.specs.Prelude.{◌≡◌};
ghost use Rattle.clap.specs.Words.{kind_of};
ghost use Rattle.program_ends.specs.Refusals.{of_kind, status_of, text_of};
ghost use Rattle.program_ends.specs.declared.refusal.Refusal.TheVariants.{NoMemory};

use clap::error::ErrorKind;
use std::alloc::AllocError;

/// Why the program began no run.
#[derive(Clone, Copy, Debug, PartialEq, Eq)]
pub enum Refusal {
    /// The words are not `[FILE]`, or they can't be had.
    Usage,
    /// There was no memory to read the words.
    NoMemory,
    /// FILE can't be opened.
    Unopened,
}

impl From<AllocError> for Refusal {
    ghost from_gives = { λ _ refusal. refusal ≡ NoMemory };

    fn from(_error: AllocError) -> Refusal {
        Refusal::NoMemory
    }
}

impl From<clap::Error> for Refusal {
    ghost from_gives = { λ error refusal. refusal ≡ of_kind (kind_of error) };

    fn from(error: clap::Error) -> Refusal {
        match error.kind() {
            ErrorKind::OutOfMemory => Refusal::NoMemory,
            _ => Refusal::Usage,
        }
    }
}

/// The exit status that tells of a refusal.
pub fn refusal_status(refusal: Refusal) -> u8
    ensures { result ≡ status_of refusal }
{
    match refusal {
        Refusal::Usage => 2,
        Refusal::Unopened => 4,
        Refusal::NoMemory => 6,
    }
}

/// What standard error says of a refusal behind the program's name, without a newline.
pub fn refusal_text(refusal: Refusal) -> &'static str
    ensures { result.now ≡ text_of refusal }
{
    match refusal {
        Refusal::Usage => "usage",
        Refusal::Unopened => "read fault",
        Refusal::NoMemory => "no memory",
    }
}
