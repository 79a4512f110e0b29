//! The words of a line: how it is parted into them, whether one is a given word, and options, a name and a word each.
ghost use Rattle.std.specs.Prelude.{◌≡◌, ◌<◌, [], ◌∷◌, length, map, bytes_eq, option_map, Option, Some, None, MatchBool};
ghost use Rattle.std.specs.Option.{IfSome, IfNone, option_to_list};
ghost use Rattle.event_file.specs.Words.{parted_by, option_written, words_behind};

use crate::search::place_of;
use arrayvec::ArrayVec;

/// Whether a word is this one. The words of a line are of few bytes, which are told apart sooner one at a time than by
/// the `==` of slices.
#[inline(always)]
pub(crate) fn is(word: &[u8], text: &str) -> bool
    ensures { result ≡ bytes_eq word.now text.now }
{
    let text = text.as_bytes();
    if word.len() != text.len() {
        return false;
    }
    let mut at = 0;
    while at < text.len() {
        if word[at] != text[at] {
            return false;
        }
        at += 1;
    }
    true
}

/// What stands before the first byte of this value and what stands after it, or `None` where there is no such byte.
pub(crate) fn cut(byte: u8, text: &[u8]) -> Option<(&[u8], &[u8])>
    ensures first { IfSome result (λ p. parted_by byte text.now ≡ p.0.now ∷ parted_by byte p.1.now) }
    ensures rest { IfSome result (λ p. length p.1.now < length text.now) }
    ensures last { IfNone result (parted_by byte text.now ≡ text.now ∷ []) }
{
    let at = place_of(byte, text)?;
    Some((&text[..at], &text[at + 1..]))
}

/// A text without a byte of this value, or its two parts around the one that it has; `None` where it has more.
pub(crate) fn one_or_two(byte: u8, text: &[u8]) -> Option<(&[u8], Option<&[u8]>)>
    ensures parts { IfSome result (λ parts. parted_by byte text.now
        ≡ parts.0.now ∷ option_to_list (option_map (λ w. w.now) parts.1)) }
    ensures more { IfNone result (2 < length (parted_by byte text.now)) }
{
    let Some((first, rest)) = cut(byte, text) else {
        return Some((text, None));
    };
    match cut(byte, rest) {
        None => Some((first, Some(rest))),
        Some(_) => None,
    }
}

/// Puts the parts of a text between the bytes of this value into a room that has none: one of many words would else be
/// cleared and copied at each return. `false` where there are more than N.
pub(crate) fn put_parts<'t, const N: usize>(
    byte: u8,
    text: &'t [u8],
    parts: &mut ArrayVec<&'t [u8], N>,
) -> bool
    requires { length parts.old.items ≡ 0 }
    ensures { MatchBool result (map (λ p. p.now) parts.new.items ≡ parted_by byte text.now)
        (N < length (parted_by byte text.now)) }
{
    let mut rest = text;
    while let Some((part, behind)) = cut(byte, rest) {
        if parts.try_push(part).is_err() {
            return false;
        }
        rest = behind;
    }
    parts.try_push(rest).is_ok()
}

/// The options that are left to read, each a name and the word behind it.
#[derive(Clone, Copy, Debug)]
pub(crate) struct Options<'w> {
    pub(crate) words: &'w [&'w [u8]],
}

impl<'w> Options<'w> {
    /// The word of the option of this name where it comes next; then what stands behind it is left.
    pub(crate) fn word(&mut self, name: &str) -> Option<&'w [u8]>
        ensures word { option_map (λ w. w.now) result
            ≡ option_written name.now (map (λ w. w.now) self.old.words.now) }
        ensures rest { map (λ w. w.now) self.new.words.now
            ≡ words_behind name.now (map (λ w. w.now) self.old.words.now) }
    {
        match self.words {
            [first, word, rest @ ..] if is(first, name) => {
                self.words = rest;
                Some(*word)
            }
            _ => None,
        }
    }
}

/// What the word of an option says, where it is written.
pub(crate) fn if_written<'w, T, F: FnOnce(&'w [u8]) -> Option<T> + Drop>(
    word: Option<&'w [u8]>,
    read: F,
) -> Option<Option<T>>
    requires { F.IsAlwaysCallable read }
    ensures written { IfSome word.entry
        (λ w. (said : Option T) × F.post read w said × (result ≡ option_map Some said)) }
    ensures unwritten { IfNone word.entry (result ≡ Some None) }
{
    match word {
        Some(word) => Some(Some(read(word)?)),
        None => Some(None),
    }
}
