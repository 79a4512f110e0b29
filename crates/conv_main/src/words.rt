//! What the words of the command line name.
ghost use Rattle.std.specs.Prelude.{◌≡◌, ◌≢◌, ◌⊎◌, [], IfErr, IfOk, Some, codes, map, option_map};
ghost use Rattle.std.specs.String.{string_bytes};
ghost use Rattle.conv_main.specs.CommandLine.{Names, NamesNone, faults_of, in_form as in_form_of, side_named, side_of, system_named, word_of};

use crate::way::Form;
use clap::{Arg, Command};
use program_ends::Refusal;
use route_layouts::System;
use std::alloc::Global;

/// What the program is called.
pub(crate) const PROGRAM: &str = "routeconv";

/// What is read or written: messages of this system in this form.
#[derive(Clone, Copy, Debug, PartialEq, Eq)]
pub(crate) struct Side {
    /// The form.
    pub(crate) form: Form,
    /// The system.
    pub(crate) system: System,
}

/// What the words name.
#[derive(Clone, Copy, Debug)]
pub(crate) struct Asked<'a> {
    /// What is read.
    pub(crate) read: Side,
    /// What is written.
    pub(crate) written: Side,
    /// The file that is read, or else standard input.
    pub(crate) file: Option<&'a str>,
}

/// The system of this name.
fn system_of(name: &[u8]) -> Option<System>
    ensures { result ≡ system_named name.now }
{
    if name == b"4.4bsd".as_slice() {
        Some(System::Bsd44)
    } else if name == b"freebsd".as_slice() {
        Some(System::FreeBsd)
    } else if name == b"openbsd".as_slice() {
        Some(System::OpenBsd)
    } else if name == b"netbsd".as_slice() {
        Some(System::NetBsd)
    } else if name == b"macos".as_slice() {
        Some(System::Darwin)
    } else {
        None
    }
}

/// Messages of this system in this form, where the system has a name.
fn in_form(form: Form, system: Option<System>) -> Option<Side>
    ensures { result ≡ in_form_of form system }
{
    match system {
        Some(system) => Some(Side { form, system }),
        None => None,
    }
}

/// What a word names: a system, whose messages stand in lines, or `raw:` and a system.
fn side_by(word: &str) -> Option<Side>
    ensures { result ≡ side_named word.now }
{
    match word.as_bytes() {
        [b'r', b'a', b'w', b':', name @ ..] => in_form(Form::Raw, system_of(name)),
        name => in_form(Form::Lines, system_of(name)),
    }
}

/// The same of a word that may be missing.
fn side_in(word: Option<&str>) -> Option<Side>
    ensures { result ≡ side_of (option_map (λ w. w.now) word.entry) }
{
    match word {
        Some(word) => side_by(word),
        None => None,
    }
}

/// What these words name. A word that begins with `-` and has more is an option, and refused; a first `--` is none and
/// ends the options; `-` is a file of that name.
pub(crate) fn asked_by<'a>(alloc: Global, words: &'a [String]) -> Result<Asked<'a>, Refusal>
    ensures right { IfOk result (λ _. faults_of (map string_bytes words.entry.now) ≡ []) }
    ensures sides { IfOk result (λ asked. Names (map string_bytes words.entry.now) asked.read asked.written) }
    ensures file { IfOk result (λ asked. option_map (λ f. f.now) asked.file
        ≡ word_of (codes "FILE") (map string_bytes words.entry.now)) }
    ensures refused { IfErr result (λ why. (why ≡ Refusal.NoMemory)
        ⊎ ((why ≡ Refusal.Usage) × ((faults_of (map string_bytes words.entry.now) ≢ [])
        ⊎ NamesNone (map string_bytes words.entry.now)))) }
{
    let from = Arg::new(alloc, "FROM");
    let to = Arg::new(alloc, "TO");
    let file = Arg::new(alloc, "FILE");
    let command = Command::new(alloc, PROGRAM)
        .disable_help_flag(true)
        .arg(from)?
        .arg(to)?
        .arg(file)?;
    let matches = command.try_get_matches_from(words)?;
    let Some(read) = side_in(matches.get_str("FROM")) else {
        return Err(Refusal::Usage);
    };
    let Some(written) = side_in(matches.get_str("TO")) else {
        return Err(Refusal::Usage);
    };
    Ok(Asked {
        read,
        written,
        file: matches.get_str("FILE"),
    })
}
