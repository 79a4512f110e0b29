//! How a run ended, and what its caller is told.
ghost use Rattle.std.specs.Prelude.{◌≡◌};
ghost use Rattle.program_ends.specs.Outcomes.{status_of, text_of};

/// How a run ended.
#[derive(Clone, Copy, Debug, PartialEq, Eq)]
pub enum Outcome {
    /// All that was read was answered, and no line was malformed.
    Done,
    /// All that was read was answered, and at least one line was malformed.
    BadLine,
    /// A read failed, or the reads were spent.
    ReadFault,
    /// A write failed, or took no byte.
    WriteFault,
    /// There was no memory.
    NoMemory,
}

/// The exit status that tells of an outcome.
pub fn status(outcome: Outcome) -> u8
    ensures { result ≡ status_of outcome }
{
    match outcome {
        Outcome::Done => 0,
        Outcome::BadLine => 3,
        Outcome::ReadFault => 4,
        Outcome::WriteFault => 5,
        Outcome::NoMemory => 6,
    }
}

/// What standard error says of an outcome behind the program's name, without a newline; nothing where the run is done.
pub fn fault_text(outcome: Outcome) -> &'static str
    ensures { result.now ≡ text_of outcome }
{
    match outcome {
        Outcome::Done => "",
        Outcome::BadLine => "bad line",
        Outcome::ReadFault => "read fault",
        Outcome::WriteFault => "write fault",
        Outcome::NoMemory => "no memory",
    }
}
