//! The plain line of a line.
ghost use Rattle.std.specs.Prelude.{◌≡◌, ◌≢◌, ◌++◌, ◌∷◌, IfOk, MatchBool, OnOk, is_err};
ghost use Rattle.memory.specs.Refusing.{Rises};
ghost use Rattle.plain_lines.specs.Behind.{IsBehind, spaced, words_after};
ghost use Rattle.plain_lines.specs.Flags.{flags_word, significant as significant_of};
ghost use Rattle.plain_lines.specs.PlainLines.{plain_behind, plain_dump, plain_filter, plain_flags, plain_of, plain_options, plain_room, plain_route};

use crate::names::flags_named;
use crate::words::{first_word, next_word};
use lab_text::Text;
use memory::Memory;
use std::alloc::AllocError;

/// Appends the plain line of a line, without a newline, and answers whether it is another one. In a `route` line flags
/// may be named, and in a `flags` line; the room of a dump may be `all`. Every other line stays as it is.
pub fn put_plain(text: &mut Text, line: &[u8], memory: &mut Memory) -> Result<bool, AllocError>
    ensures put { OnOk result (text.new ≡ text.old ++ plain_of line.now) }
    ensures other { IfOk result (λ other. MatchBool other (plain_of line.now ≢ line.now)
        (plain_of line.now ≡ line.now)) }
    ensures counted { Rises (is_err result) memory.old memory.new }
{
    let from = text.len();
    let (verb, behind) = first_word(line);
    text.put(verb, memory)?;
    put_behind(text, verb, behind, memory)?;
    Ok(&text.as_bytes()[from..] != line)
}

/// Appends what stands behind the verb.
fn put_behind(
    text: &mut Text,
    verb: &[u8],
    words: &[u8],
    memory: &mut Memory,
) -> Result<(), AllocError>
    requires { IsBehind words.now }
    ensures put { OnOk result (text.new ≡ text.old ++ spaced (plain_behind verb.now (words_after words.now))) }
    ensures counted { Rises (is_err result) memory.old memory.new }
{
    if verb == b"route".as_slice() {
        return put_route(text, words, memory);
    }
    if verb == b"dump".as_slice() {
        return put_dump(text, words, memory);
    }
    if verb == b"flags".as_slice() {
        return put_filter(text, words, memory);
    }
    text.put(words, memory)
}

/// The words behind `route` that stand before the options.
const BEFORE_OPTIONS: usize = 4;

/// Appends the words behind `route`: the socket, the number, the verb and the destination, and then the options.
fn put_route(text: &mut Text, words: &[u8], memory: &mut Memory) -> Result<(), AllocError>
    ensures put { OnOk result (text.new ≡ text.old ++ spaced (plain_route (words_after words.now))) }
    ensures counted { Rises (is_err result) memory.old memory.new }
{
    let mut rest = words;
    'kept: for _i in 0..BEFORE_OPTIONS {
        let Some((word, behind)) = next_word(rest) else {
            return Ok(());
        };
        put_word(text, word, memory)?;
        rest = behind;
    }
    put_options(text, rest, memory)
}

/// Appends options, each a name and the word behind it.
fn put_options(text: &mut Text, words: &[u8], memory: &mut Memory) -> Result<(), AllocError>
    ensures put { OnOk result (text.new ≡ text.old ++ spaced (plain_options (words_after words.now))) }
    ensures counted { Rises (is_err result) memory.old memory.new }
{
    let mut rest = words;
    'options: while let Some((name, behind)) = next_word(rest) {
        put_word(text, name, memory)?;
        let Some((word, further)) = next_word(behind) else {
            return Ok(());
        };
        if name == b"flags".as_slice() {
            put_flags(text, word, memory)?;
        } else {
            put_word(text, word, memory)?;
        }
        rest = further;
    }
    Ok(())
}

/// Appends the words behind `dump`.
fn put_dump(text: &mut Text, words: &[u8], memory: &mut Memory) -> Result<(), AllocError>
    ensures put { OnOk result (text.new ≡ text.old ++ spaced (plain_dump (words_after words.now))) }
    ensures counted { Rises (is_err result) memory.old memory.new }
{
    let Some((room, rest)) = next_word(words) else {
        return Ok(());
    };
    put_room(text, room, memory)?;
    text.put(rest, memory)
}

/// Appends the words behind `flags`.
fn put_filter(text: &mut Text, words: &[u8], memory: &mut Memory) -> Result<(), AllocError>
    ensures put { OnOk result (text.new ≡ text.old ++ spaced (plain_filter (words_after words.now))) }
    ensures counted { Rises (is_err result) memory.old memory.new }
{
    let Some((flags, rest)) = next_word(words) else {
        return Ok(());
    };
    put_flags(text, flags, memory)?;
    put_dump(text, rest, memory)
}

/// Appends a space and a word.
fn put_word(text: &mut Text, word: &[u8], memory: &mut Memory) -> Result<(), AllocError>
    ensures put { OnOk result (text.new ≡ text.old ++ 32 ∷ word.now) }
    ensures counted { Rises (is_err result) memory.old memory.new }
{
    text.put(b" ", memory)?;
    text.put(word, memory)
}

/// Appends a space and the room of a dump.
fn put_room(text: &mut Text, word: &[u8], memory: &mut Memory) -> Result<(), AllocError>
    ensures put { OnOk result (text.new ≡ text.old ++ 32 ∷ plain_room word.now) }
    ensures counted { Rises (is_err result) memory.old memory.new }
{
    if word == b"all".as_slice() {
        return put_word(text, b"4294967295", memory);
    }
    put_word(text, word, memory)
}

/// Appends a space and the word of flags.
fn put_flags(text: &mut Text, word: &[u8], memory: &mut Memory) -> Result<(), AllocError>
    ensures put { OnOk result (text.new ≡ text.old ++ 32 ∷ plain_flags word.now) }
    ensures counted { Rises (is_err result) memory.old memory.new }
{
    let Some(flags) = flags_named(word) else {
        return put_word(text, word, memory);
    };
    let mut digits = [0; 4];
    hex::encode_to_slice(&flags.to_be_bytes(), &mut digits).unwrap();
    put_word(text, significant(&digits), memory)
}

/// Digits without the zeros before them, but for the last digit.
fn significant(digits: &[u8]) -> &[u8]
    ensures { result.now ≡ significant_of digits.now }
{
    match digits {
        [b'0', rest @ ..] if !rest.is_empty() => significant(rest),
        _ => digits,
    }
}
