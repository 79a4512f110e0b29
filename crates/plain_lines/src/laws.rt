//! Laws of plain lines: each function does nothing, and its contract is the law.

ghost use Rattle.std.specs.Prelude.{◌≡◌, codes, map};
ghost use Rattle.message_text.specs.Names.{flag_names, named};
ghost use Rattle.plain_lines.specs.PlainLaws.{AsManyWords, CommandsStay, FlagsAreRead, PlainLinesStay};
ghost use Rattle.plain_lines.specs.PlainLines.{plain_of};

use crate::names::FLAG_NAMES;

/// A line that says a command stays as it is.
pub fn commands_stay()
    ensures { CommandsStay }
{}

/// A plain line is its own plain line.
pub fn plain_lines_stay()
    ensures { PlainLinesStay }
{}

/// A plain line has as many words as its line, so that a word of the one stands where its word stood.
pub fn as_many_words()
    ensures { AsManyWords }
{}

/// The flags that are written for names are read as those that the names say.
pub fn flags_are_read()
    ensures { FlagsAreRead }
{}

/// The table of the names is that of the flags.
pub fn names_are_flags()
    ensures { map (λ f. named f.0 f.1.now) FLAG_NAMES ≡ flag_names }
{}

/// Plain lines, worked out.
pub fn plain_by_example()
    ensures route { plain_of (codes "route a 1 add 20.0.0.0/8 via 10.0.0.2 flags UP,GATEWAY,STATIC")
        ≡ codes "route a 1 add 20.0.0.0/8 via 10.0.0.2 flags 803" }
    ensures twice { plain_of (codes "route a 1 add 10.9.9.9 flags PROTO1,UP,UP mtu 576")
        ≡ codes "route a 1 add 10.9.9.9 flags 8001 mtu 576" }
    ensures filter { plain_of (codes "flags CLONING ask") ≡ codes "flags 100 ask" }
    ensures all_of_some { plain_of (codes "flags HOST,LLINFO all") ≡ codes "flags 404 4294967295" }
    ensures all { plain_of (codes "dump all") ≡ codes "dump 4294967295" }
    ensures socket { plain_of (codes "route flags UP add 10.9.9.9") ≡ codes "route flags UP add 10.9.9.9" }
    ensures digits { plain_of (codes "flags DEAD ask") ≡ codes "flags DEAD ask" }
    ensures misspelt { plain_of (codes "flags UP,gateway ask") ≡ codes "flags UP,gateway ask" }
{}
