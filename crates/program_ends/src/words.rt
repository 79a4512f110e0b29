//! The words of the command line, of which the first is the program's name.
ghost use Rattle.std.specs.Prelude.{◌≡◌, ◌≢◌, ◌⊎◌, [], Err, IfErr, IfOk, MatchResult, is_err, map, option_map};
ghost use Rattle.std.specs.IoError.{error_kind};
ghost use Rattle.std.specs.String.{string_bytes};
ghost use Rattle.std.specs.Vec.Iter.{into_iter_items};
ghost use Rattle.memory.specs.Refusing.{Rises};
ghost use Rattle.program_ends.specs.CommandLine.{faults_of, file_of};
ghost use Rattle.program_ends.specs.declared.refusal.Refusal.TheVariants.{NoMemory, Usage};

use crate::Refusal;
use clap::{Arg, Command};
use memory::Memory;
use std::alloc::Global;
use std::env;
use std::env::{Args, Env};
use std::io::{self, ErrorKind};

/// The refusal of words that can't be had for this error.
fn words_refused(error: &io::Error) -> Refusal
    ensures memory { error_kind error.now ≡ ErrorKind.OutOfMemory → result ≡ NoMemory }
    ensures other { error_kind error.now ≢ ErrorKind.OutOfMemory → result ≡ Usage }
{
    match error.kind() {
        ErrorKind::OutOfMemory => Refusal::NoMemory,
        _ => Refusal::Usage,
    }
}

/// The words of this process. They can't be had where one is not text.
pub fn words_of<R: Env + AllocGlobal>(rt: &R) -> Result<Vec<String>, Refusal>
    ensures { IfErr result (λ why. (why ≡ NoMemory) ⊎ (why ≡ Usage)) }
{
    words_in(rt.alloc(), env::args(rt), &mut Memory::new())
}

/// These words, all of them and in their order, where they could be had. What is refused of room for them is counted.
fn words_in(
    alloc: Global,
    given: io::Result<Args>,
    memory: &mut Memory,
) -> Result<Vec<String>, Refusal>
    ensures words { IfOk given (λ words. MatchResult result (λ all. all.items ≡ into_iter_items words)
        (λ why. why ≡ NoMemory)) }
    ensures memory { IfErr given (λ error. error_kind error ≡ ErrorKind.OutOfMemory → result ≡ Err NoMemory) }
    ensures other { IfErr given (λ error. error_kind error ≢ ErrorKind.OutOfMemory → result ≡ Err Usage) }
    ensures counted { IfOk given (λ _. Rises (is_err result) memory.old memory.new) }
    ensures uncounted { IfErr given (λ _. memory.new ≡ memory.old) }
{
    let given = match given {
        Ok(given) => given,
        Err(error) => return Err(words_refused(&error)),
    };
    let mut words = Vec::new(alloc);
    for word in given {
        let Ok(()) = memory.push(&mut words, word) else {
            return Err(Refusal::NoMemory);
        };
    }
    Ok(words)
}

/// The FILE that the words of a program with this name name, or `None` where they name none. A word that begins with
/// `-` and has more is an option, and refused; a first `--` is none and ends the options; `-` is a file of that name.
pub fn file_named<'a>(
    alloc: Global,
    program: &'a str,
    words: &'a [String],
) -> Result<Option<&'a str>, Refusal>
    ensures named { IfOk result (λ file. option_map (λ f. f.now) file
        ≡ file_of program.now (map string_bytes words.entry.now)) }
    ensures right { IfOk result (λ _. faults_of program.now (map string_bytes words.entry.now) ≡ []) }
    ensures refused { IfErr result (λ why. (why ≡ NoMemory)
        ⊎ ((why ≡ Usage) × (faults_of program.now (map string_bytes words.entry.now) ≢ []))) }
{
    let file = Arg::new(alloc, "FILE");
    let command = Command::new(alloc, program)
        .disable_help_flag(true)
        .arg(file)?;
    let matches = command.try_get_matches_from(words)?;
    Ok(matches.get_str("FILE"))
}
