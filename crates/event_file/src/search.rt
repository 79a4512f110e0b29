//! The place of a byte in a text.
ghost use Rattle.std.specs.Prelude.{◌≡◌, ◌≤◌, length, position};
ghost use Rattle.memchr.specs.Find.{IsFirstByte, is_byte};

use memchr::memchr;

/// How many bytes are looked at one at a time. Most words and lines are shorter, and for so few `memchr`, which looks
/// at several at once, takes longer.
const NEAR: usize = 16;

/// The place of the first byte of this value in a text of few bytes, as most words are. It is small where it is
/// inlined.
#[inline(always)]
pub(crate) fn place_of(byte: u8, text: &[u8]) -> Option<usize>
    ensures { result ≡ position (is_byte byte) text.now }
{
    if text.len() < NEAR {
        return place_in_few(byte, text);
    }
    place_in_many(byte, text)
}

/// The place of the first byte of this value in a text of many bytes, near whose front it stands most often: its first
/// bytes are looked at where this is inlined.
#[inline(always)]
pub(crate) fn place_near(byte: u8, text: &[u8]) -> Option<usize>
    ensures { result ≡ position (is_byte byte) text.now }
{
    if text.len() < NEAR {
        return place_in_few(byte, text);
    }
    near_then_far(byte, text)
}

#[inline(always)]
fn place_in_few(byte: u8, text: &[u8]) -> Option<usize>
    ensures { result ≡ position (is_byte byte) text.now }
{
    text.iter().position(|b| *b == byte)
}

#[inline(never)]
fn place_in_many(byte: u8, text: &[u8]) -> Option<usize>
    requires { NEAR ≤ length text.now }
    ensures { result ≡ position (is_byte byte) text.now }
{
    near_then_far(byte, text)
}

/// Looks at `NEAR` bytes one at a time, a number that lets the compiler do so without a loop, and then at the rest.
#[inline(always)]
fn near_then_far(byte: u8, text: &[u8]) -> Option<usize>
    requires { NEAR ≤ length text.now }
    ensures { result ≡ position (is_byte byte) text.now }
{
    let mut at = 0;
    while at < NEAR {
        if text[at] == byte {
            return Some(at);
        }
        at += 1;
    }
    let far = place_behind(byte, &text[NEAR..])?;
    Some(NEAR + far)
}

/// The place of the first byte of this value behind the near ones. It is not inlined, so that what calls it is small.
#[inline(never)]
fn place_behind(byte: u8, text: &[u8]) -> Option<usize>
    ensures { IsFirstByte (is_byte byte) text.now result }
{
    memchr(byte, text)
}
