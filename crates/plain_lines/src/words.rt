//! The words of a line, one after another.
ghost use Rattle.std.specs.Prelude.{◌≡◌, ◌==◌, ◌<◌, ◌≤◌, [], ◌∷◌, length, position, MatchOption};
ghost use Rattle.std.specs.Option.{IfSome, IfNone};
ghost use Rattle.event_file.specs.Words.{parted_by};
ghost use Rattle.plain_lines.specs.Behind.{IsBehind, words_after};

/// The place of the first byte of this value.
fn place_of(byte: u8, text: &[u8]) -> Option<usize>
    ensures { result ≡ position (λ b. b == byte) text.now }
{
    text.iter().position(|b| *b == byte)
}

/// What stands before the first byte of this value and what stands after it, or `None` where there is no such byte.
pub(crate) fn cut(byte: u8, text: &[u8]) -> Option<(&[u8], &[u8])>
    ensures first { IfSome result (λ p. parted_by byte text.now ≡ p.0.now ∷ parted_by byte p.1.now) }
    ensures rest { IfSome result (λ p. length p.1.now < length text.now) }
    ensures last { IfNone result (parted_by byte text.now ≡ text.now ∷ []) }
{
    let at = place_of(byte, text)?;
    Some((&text[..at], &text[at + 1..]))
}

/// The first word of a text, and what stands behind it: nothing, or a space and more words.
pub(crate) fn first_word(text: &[u8]) -> (&[u8], &[u8])
    ensures words { parted_by 32 text.now ≡ result.0.now ∷ words_after result.1.now }
    ensures behind { IsBehind result.1.now }
    ensures fewer { length result.1.now ≤ length text.now }
{
    match place_of(b' ', text) {
        Some(at) => (&text[..at], &text[at..]),
        None => (text, &[]),
    }
}

/// The next word of those that stand behind one, and what stands behind that; `None` where there is none.
pub(crate) fn next_word(behind: &[u8]) -> Option<(&[u8], &[u8])>
    ensures words { MatchOption result (words_after behind.now ≡ [])
        (λ p. words_after behind.now ≡ p.0.now ∷ words_after p.1.now) }
    ensures behind { IfSome result (λ p. IsBehind p.1.now) }
    ensures fewer { IfSome result (λ p. length p.1.now < length behind.now) }
{
    match behind {
        [] => None,
        [_space, text @ ..] => Some(first_word(text)),
    }
}
