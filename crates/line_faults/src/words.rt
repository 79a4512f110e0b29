//! The words of a line, parted by single spaces.
ghost use Rattle.std.specs.Prelude.{◌≡◌, ◌∷◌, ◌==◌, [], bytes_eq, false, option_map, position};
ghost use Rattle.std.specs.Option.{IfSome, IfNone};
ghost use Rattle.event_file.specs.Words.{parted_by};
ghost use Rattle.line_faults.specs.Words.{has_space, word_of};

use std::marker::Model;

/// The words of a line that are left. A contract sees them.
#[derive(Debug, Drop)]
pub(crate) struct Words<'a> {
    /// The bytes from the first of them on, or `None` where no word is left.
    bytes: Option<&'a [u8]>,
}

impl<'a> Model for Words<'a> {
    ghost use Rattle.std.specs.Prelude.{List, ℕ, option_map};
    ghost use Rattle.line_faults.specs.Words.{words_left};

    ghost Value = { List (List ℕ) };

    ghost view = { λ w. words_left (option_map (λ bytes. bytes.now) w.bytes) };
}

impl<'a> Words<'a> {
    /// All words of a line.
    pub(crate) fn of(line: &'a [u8]) -> Words<'a>
        ensures { result ≡ parted_by 32 line.now }
    {
        Words { bytes: Some(line) }
    }

    /// The first word that is left, and then it isn't.
    pub(crate) fn next(&mut self) -> Option<&'a [u8]>
        ensures word { IfSome result (λ word. self.old ≡ word.now ∷ self.new) }
        ensures space { IfSome result (λ word. has_space word.now ≡ false) }
        ensures none { IfNone result (self.old ≡ []) }
        ensures same { IfNone result (self.new ≡ []) }
    {
        let bytes = self.bytes?;
        match cut(bytes) {
            Some((word, behind)) => {
                self.bytes = Some(behind);
                Some(word)
            }
            None => {
                self.bytes = None;
                Some(bytes)
            }
        }
    }
}

/// Whether a word is this one.
pub(crate) fn is(word: &[u8], text: &str) -> bool
    ensures { result ≡ bytes_eq word.now text.now }
{
    word == text.as_bytes()
}

/// The place of the first space.
fn space_in(text: &[u8]) -> Option<usize>
    ensures { result ≡ position (λ b. b == 32) text.now }
{
    text.iter().position(|byte| *byte == b' ')
}

/// What stands before the first space and what stands behind it, or `None` where there is no space.
fn cut(text: &[u8]) -> Option<(&[u8], &[u8])>
    ensures first { IfSome result (λ p. parted_by 32 text.now ≡ p.0.now ∷ parted_by 32 p.1.now) }
    ensures word { IfSome result (λ p. has_space p.0.now ≡ false) }
    ensures last { IfNone result (parted_by 32 text.now ≡ text.now ∷ []) }
    ensures whole { IfNone result (has_space text.now ≡ false) }
{
    let at = space_in(text)?;
    Some((&text[..at], &text[at + 1..]))
}

/// The word of a line at a place, from 0 on, where words are parted by single spaces; `None` where it has no such word.
pub fn word_at(line: &[u8], place: usize) -> Option<&[u8]>
    ensures { option_map (λ word. word.now) result ≡ word_of (parted_by 32 line.now) place }
{
    let mut words = Words::of(line);
    'passed: for _i in 0..place {
        words.next()?;
    }
    words.next()
}
