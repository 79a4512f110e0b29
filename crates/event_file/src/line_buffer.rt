ghost use Rattle.std.specs.Prelude.{◌≡◌, ◌≤◌, ◌<◌, ◌+◌, ◌⊎◌, false, true, length, position, is_err, IfNone, IfOk, IfSome, cond, option_copied};
ghost use Rattle.event_file.specs.Lines.{Line, after_bytes, extended, first_line, has_newline, is_begun, is_newline, is_passed as passes, kept, no_line};
ghost use Rattle.memory.specs.Refusing.{Rises};

use crate::search::place_near;
use memory::Memory;
use std::alloc::{AllocError, Global};
use std::marker::Model;

/// The longest line that a script may have, in bytes and without its newline.
pub(crate) const LONGEST_LINE: usize = 16_500;

/// One line of a script, as its bytes come in pieces. A contract sees the bytes taken since the last `clear`, without a
/// newline, or nothing of them where they are too many, and whether a newline was among them.
#[derive(Drop)]
pub struct LineBuffer {
    bytes: Vec<u8>,
    is_too_long: bool,
    has_ended: bool,
}

impl Model for LineBuffer {
    ghost use Rattle.std.specs.Prelude.{◌≤◌, cond, Some, None, vec_len, vec_capacity};
    ghost use Rattle.event_file.specs.Lines.{Line, most_line_bytes};

    ghost Value = { Line };

    ghost view = { λ b. record { text = cond b.is_too_long None (Some b.bytes.items); ended = b.has_ended } };

    ghost invariant = { λ b. (most_line_bytes ≤ vec_capacity b.bytes) × (vec_len b.bytes ≤ most_line_bytes) };
}

impl LineBuffer {
    /// No byte yet. This call alone takes memory: room for the longest line. `Err` where there is none.
    pub fn new(alloc: Global, memory: &mut Memory) -> Result<LineBuffer, AllocError>
        ensures ok { IfOk result (λ line. line ≡ no_line) }
        ensures counted { Rises (is_err result) memory.old memory.new }
    {
        let bytes = memory.with_capacity(alloc, LONGEST_LINE)?;
        Ok(LineBuffer {
            bytes,
            is_too_long: false,
            has_ended: false,
        })
    }

    /// The line that these bytes end, where nothing of it came before them: how many bytes it takes, with its newline,
    /// and its bytes, or nothing of them where they are too many. `None` where some of it came before, or where its
    /// newline is not among these bytes. Such a line need not be fed, and isn't copied.
    pub fn whole_line<'a>(&self, bytes: &'a [u8]) -> Option<(usize, Option<&'a [u8]>)>
        requires { self.now.ended ≡ false }
        ensures empty { IfSome result (λ _. self.now ≡ no_line) }
        ensures newline { IfSome result (λ _. has_newline bytes.now ≡ true) }
        ensures taken { IfSome result (λ whole. whole.0 ≡ length (first_line bytes.now) + 1) }
        ensures most { IfSome result (λ whole. whole.0 ≤ length bytes.now) }
        ensures line { IfSome result (λ whole. option_copied whole.1 ≡ kept (first_line bytes.now)) }
        ensures none { IfNone result ((is_begun self.now.text ≡ true) ⊎ (has_newline bytes.now ≡ false)) }
    {
        if self.pending() {
            return None;
        }
        match ended_line(bytes) {
            Some(line) => Some((line.len() + 1, looked_at(line))),
            None => None,
        }
    }

    /// Takes bytes up to and with the first newline. Answers how many it took, and whether a newline was among them;
    /// then the line is whole, and `clear` begins the next.
    pub fn feed(&mut self, bytes: &[u8]) -> (usize, bool)
        requires { self.old.ended ≡ false }
        ensures taken { result.0 ≡ length (first_line bytes.now) + cond (has_newline bytes.now) 1 0 }
        ensures most { result.0 ≤ length bytes.now }
        ensures newline { result.1 ≡ has_newline bytes.now }
        ensures line { self.new ≡ after_bytes self.old bytes.now }
    {
        match newline_in(bytes) {
            Some(at) => {
                self.keep(&bytes[..at]);
                self.has_ended = true;
                (at + 1, true)
            }
            None => {
                self.keep(bytes);
                (bytes.len(), false)
            }
        }
    }

    /// The line so far, without its newline, or nothing where it has more than 16,500 bytes.
    pub fn line(&self) -> Option<&[u8]>
        ensures text { option_copied result ≡ self.now.text }
        ensures most { IfSome result (λ line. length line.now ≤ LONGEST_LINE) }
    {
        if self.is_too_long {
            None
        } else {
            Some(&self.bytes)
        }
    }

    /// Begins the next line.
    pub fn clear(&mut self)
        ensures { self.new ≡ no_line }
    {
        self.bytes.clear();
        self.is_too_long = false;
        self.has_ended = false;
    }

    /// Whether the line so far has at least one byte.
    pub fn pending(&self) -> bool
        ensures { result ≡ is_begun self.now.text }
    {
        self.is_too_long || !self.bytes.is_empty()
    }

    /// Puts bytes behind the line, which is too long from then on where it has no room for all of them.
    fn keep(&mut self, bytes: &[u8])
        ensures text { self.new.text ≡ extended self.old.text bytes.now }
        ensures ended { self.new.ended ≡ self.old.ended }
    {
        if self.is_too_long {
            return;
        }
        if bytes.len() > LONGEST_LINE - self.bytes.len() {
            self.is_too_long = true;
            return;
        }
        self.bytes.extend_from_slice(bytes).unwrap();
    }
}

/// Whether a line, without its newline, gives no answer: an empty one, or one that begins with `#` and is not too long.
pub fn is_passed(line: &[u8]) -> bool
    ensures { result ≡ passes (kept line.now) }
{
    kept_is_passed(looked_at(line))
}

/// As `is_passed`, of a line as a `LineBuffer` lends it: nothing of one that is too long.
#[inline(always)]
pub fn kept_is_passed(line: Option<&[u8]>) -> bool
    ensures { result ≡ passes (option_copied line.entry) }
{
    matches!(line, Some([] | [b'#', ..]))
}

/// A line as it is looked at: nothing of it where it is too long.
fn looked_at(line: &[u8]) -> Option<&[u8]>
    ensures { option_copied result ≡ kept line.now }
{
    if line.len() > LONGEST_LINE {
        None
    } else {
        Some(line)
    }
}

/// The first line that bytes end, without its newline.
fn ended_line(bytes: &[u8]) -> Option<&[u8]>
    ensures newline { IfSome result (λ _. has_newline bytes.now ≡ true) }
    ensures line { IfSome result (λ line. line.now ≡ first_line bytes.now) }
    ensures most { IfSome result (λ line. length line.now < length bytes.now) }
    ensures none { IfNone result (has_newline bytes.now ≡ false) }
{
    match newline_in(bytes) {
        Some(at) => Some(&bytes[..at]),
        None => None,
    }
}

/// The place of the first newline.
#[inline(always)]
fn newline_in(bytes: &[u8]) -> Option<usize>
    ensures { result ≡ position is_newline bytes.now }
{
    place_near(b'\n', bytes)
}
