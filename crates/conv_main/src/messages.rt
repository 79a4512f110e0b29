//! The message of a line.
ghost use Rattle.std.specs.Prelude.{◌≡◌, ◌≤◌, ◌<◌, ◌+◌, ◌==◌, IfOk, IfSome, drop, is_err, length, option_map, position};
ghost use Rattle.memory.specs.Refusing.{Rises};
ghost use Rattle.std.specs.List.{list_all};
ghost use Rattle.event_file.specs.Lines.{first_line, is_newline};
ghost use Rattle.event_file.specs.Words.{is_name_byte};
ghost use Rattle.conv_main.specs.Messages.{bytes_on as bytes_told, is_id as is_id_of, size_before as size_before_digits, size_before_written as size_before_behind, spelled};

use memchr::memchr;
use memory::{MOST_ASKED, Memory};
use std::alloc::{AllocError, Global};
use std::marker::Model;

/// A message in a text.
#[derive(Drop)]
pub(crate) struct Message<'a> {
    /// What stands before it.
    pub(crate) before: &'a [u8],
    /// Its bytes.
    pub(crate) bytes: &'a [u8],
    /// What stands behind it.
    pub(crate) behind: &'a [u8],
}

impl<'a> Model for Message<'a> {
    ghost use Rattle.conv_main.specs.Messages.{Message as Told};

    ghost Value = { Told };

    ghost view = { λ m. record { before = m.before.now; bytes = m.bytes.now; behind = m.behind.now } };
}

/// A line without its newline, and what ends it: a newline, or nothing at the end of a text.
pub(crate) fn cut_line(piece: &[u8]) -> (&[u8], &[u8])
    ensures line { result.0.now ≡ first_line piece.now }
    ensures end { result.1.now ≡ drop (length result.0.now) piece.now }
{
    match newline_in(piece) {
        Some(at) => piece.split_at(at),
        None => piece.split_at(piece.len()),
    }
}

/// The place of the first newline.
fn newline_in(bytes: &[u8]) -> Option<usize>
    ensures place { result ≡ position is_newline bytes.now }
    ensures within { IfSome result (λ at. at < length bytes.now) }
{
    memchr(b'\n', bytes)
}

/// Whether all bytes are of `a` to `z` and `0` to `9`.
fn are_id_bytes(word: &[u8]) -> bool
    ensures { result ≡ list_all is_name_byte word.now }
{
    word.iter()
        .all(|b| b.is_ascii_lowercase() || b.is_ascii_digit())
}

/// Whether a word may be the id of a socket: 1 to 8 of them.
fn is_id(word: &[u8]) -> bool
    ensures { result ≡ is_id_of word.now }
{
    !word.is_empty() && word.len() <= 8 && are_id_bytes(word)
}

/// The place of the first space.
fn space_in(rest: &[u8]) -> Option<usize>
    ensures place { result ≡ position (λ b. b == 32) rest.now }
    ensures within { IfSome result (λ at. at < length rest.now) }
{
    memchr(b' ', rest)
}

/// How many bytes of a line stand before the digits of its message, `msg ` or `write ID `; 0 where it tells none.
pub(crate) fn size_before(line: &[u8]) -> usize
    ensures size { result ≡ size_before_digits line.now }
    ensures within { result ≤ length line.now }
{
    match line {
        [b'm', b's', b'g', b' ', ..] => 4,
        [b'w', b'r', b'i', b't', b'e', b' ', rest @ ..] => size_before_written(rest),
        _ => 0,
    }
}

/// The same of a line that begins with `write `, of which this is the rest.
fn size_before_written(rest: &[u8]) -> usize
    ensures size { result ≡ size_before_behind (position (λ b. b == 32) rest.now) rest.now }
    ensures within { result ≤ length rest.now + 6 }
{
    match space_in(rest) {
        Some(space) if is_id(&rest[..space]) => space + 7,
        _ => 0,
    }
}

/// The bytes of the message that a line tells, of which this many bytes stand before the digits. `Err` for want of
/// memory alone, which is counted.
pub(crate) fn bytes_on(
    alloc: Global,
    size: usize,
    line: &[u8],
    memory: &mut Memory,
) -> Result<Option<Vec<u8>>, AllocError>
    requires { size ≤ length line.now }
    ensures bytes { IfOk result (λ bytes. option_map (λ b. b.items) bytes ≡ bytes_told size line.now) }
    ensures counted { Rises (is_err result) memory.old memory.new }
{
    if size == 0 {
        return Ok(None);
    }
    decoded(alloc, &line[size..], memory)
}

/// The bytes that digits spell, where there is one. `Err` for want of memory alone, which is counted.
fn decoded(alloc: Global, digits: &[u8], memory: &mut Memory) -> Result<Option<Vec<u8>>, AllocError>
    ensures bytes { IfOk result (λ bytes. option_map (λ b. b.items) bytes ≡ spelled digits.now) }
    ensures counted { Rises (is_err result) memory.old memory.new }
{
    if digits.is_empty() || digits.len() % 2 == 1 {
        return Ok(None);
    }
    let mut bytes = zeros(alloc, digits.len() / 2, memory)?;
    match hex::decode_to_slice(digits, &mut bytes) {
        Ok(()) => Ok(Some(bytes)),
        Err(_) => Ok(None),
    }
}

/// As many bytes of 0, however many these are: past what may be asked for at once in small pieces.
fn zeros(alloc: Global, n: usize, memory: &mut Memory) -> Result<Vec<u8>, AllocError>
    ensures size { IfOk result (λ bytes. length bytes.items ≡ n) }
    ensures counted { Rises (is_err result) memory.old memory.new }
{
    let mut bytes = memory.zeros(alloc, n.min(MOST_ASKED))?;
    while bytes.len() < n {
        let more = (n - bytes.len()).min(256);
        memory.extend(&mut bytes, &[0; 256][..more])?;
    }
    Ok(bytes)
}
