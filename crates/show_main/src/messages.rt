//! The lines that tell a message.
ghost use Rattle.std.specs.Prelude.{◌≡◌, ◌≤◌, IfOk, IfSome, Some, is_err, length, option_map, take};
ghost use Rattle.std.specs.List.{list_all};
ghost use Rattle.memory.specs.Refusing.{Rises};
ghost use Rattle.show_main.specs.Digits.{behind_msg};
ghost use Rattle.show_main.specs.Shown.{digits_of, is_lower_digit as is_digit, message_in as message_told};

use crate::digits::decode;
use memory::{MOST_ASKED, Memory};
use std::alloc::{AllocError, Global};

/// The most bytes of a message that is short.
pub(crate) const SHORT: usize = 256;

/// Whether bytes are lower-case hexadecimal digits.
fn are_digits(bytes: &[u8]) -> bool
    ensures { result ≡ list_all is_digit bytes.now }
{
    bytes
        .iter()
        .all(|byte| matches!(byte, b'0'..=b'9' | b'a'..=b'f'))
}

/// What stands behind `msg ` on a line, where it begins so and goes on.
fn behind_word(line: &[u8]) -> Option<&[u8]>
    ensures { option_map (λ behind. behind.now) result ≡ behind_msg line.now }
{
    match line {
        [b'm', b's', b'g', b' ', behind @ ..] if !behind.is_empty() => Some(behind),
        _ => None,
    }
}

/// Puts the message that a line tells to the front of the room, and answers how many bytes it has. `None` where the
/// line tells none, and where the message isn't short.
pub(crate) fn short_message(line: &[u8], room: &mut [u8; SHORT]) -> Option<usize>
    ensures message { IfSome result (λ size. message_told line.now ≡ Some (take size room.new)) }
    ensures size { IfSome result (λ size. size ≤ SHORT) }
{
    let digits = behind_word(line)?;
    let size = digits.len() / 2;
    if size > SHORT || digits.len() % 2 == 1 {
        return None;
    }
    if !decode(digits, &mut room[..size]) {
        return None;
    }
    Some(size)
}

/// What stands behind `msg ` on a line, where that is lower-case hexadecimal digits, and at least one.
fn digits_in(line: &[u8]) -> Option<&[u8]>
    ensures { option_map (λ digits. digits.now) result ≡ digits_of line.now }
{
    match line {
        [b'm', b's', b'g', b' ', digits @ ..] if !digits.is_empty() && are_digits(digits) => {
            Some(digits)
        }
        _ => None,
    }
}

/// The message that a line tells, where it tells one. `Err` for want of memory alone, which is counted.
pub(crate) fn message_in(
    alloc: Global,
    line: &[u8],
    memory: &mut Memory,
) -> Result<Option<Vec<u8>>, AllocError>
    ensures message { IfOk result (λ message. option_map (λ m. m.items) message ≡ message_told line.now) }
    ensures counted { Rises (is_err result) memory.old memory.new }
{
    let Some(digits) = digits_in(line) else {
        return Ok(None);
    };
    if digits.len() % 2 == 1 {
        return Ok(None);
    }
    let mut message = zeros(alloc, digits.len() / 2, memory)?;
    match hex::decode_to_slice(digits, &mut message) {
        Ok(()) => Ok(Some(message)),
        Err(_) => Ok(None),
    }
}

/// As many bytes of 0, however many these are: past what may be asked for at once in small pieces.
fn zeros(alloc: Global, n: usize, memory: &mut Memory) -> Result<Vec<u8>, AllocError>
    ensures size { IfOk result (λ bytes. length bytes.items ≡ n) }
    ensures counted { Rises (is_err result) memory.old memory.new }
{
    let mut bytes = memory.zeros(alloc, n.min(MOST_ASKED))?;
    while bytes.len() < n {
        let more = (n - bytes.len()).min(256);
        memory.extend(&mut bytes, &[0; 256][..more])?;
    }
    Ok(bytes)
}
