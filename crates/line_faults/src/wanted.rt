//! What may be wanted at a place of a line.
ghost use Rattle.std.specs.Prelude.{◌≡◌};
ghost use Rattle.line_faults.specs.Texts.{wanted_text};

use crate::{RouteOption, WordKind};

/// What is wanted at a place of a line: a word, or that there is none.
#[derive(Clone, Copy, Debug, PartialEq, Eq)]
pub enum Wanted {
    /// The verb of a line.
    Verb,
    /// A word of this kind.
    Word(WordKind),
    /// `to`, `cloning` or nothing.
    ToOrCloning,
    /// `cloning` or nothing.
    Cloning,
    /// This option of a `route` line, one behind it, or nothing.
    Options(RouteOption),
    /// No word.
    NothingMore,
    /// A shorter line.
    ShorterLine,
}

impl Wanted {
    /// What is wanted, for people.
    pub fn text(self) -> &'static str
        ensures { result.now ≡ wanted_text self }
    {
        match self {
            Wanted::Verb =>
                "one of if, addr, unaddr, open, loopback, close, read, lost, write, route, packet, redirect, losing, dump, flags; ?help tells of them",
            Wanted::Word(kind) => kind.text(),
            Wanted::ToOrCloning => "to and an address, cloning, or nothing more",
            Wanted::Cloning => "cloning, or nothing more",
            Wanted::Options(option) => option.listed(),
            Wanted::NothingMore => "nothing more",
            Wanted::ShorterLine => "a line of at most 16500 bytes",
        }
    }
}
