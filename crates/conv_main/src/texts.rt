//! Texts that grow, and what is told of a message.
ghost use Rattle.std.specs.Prelude.{◌≡◌, ◌≤◌, ◌^◌, ◌++◌, OnErr, OnOk, is_err, length};
ghost use Rattle.hex.specs.Hex.{encode_lower};
ghost use Rattle.memory.specs.Refusing.{Rises};
ghost use Rattle.conv_main.specs.Converted.{line_about as line_about_it};
ghost use Rattle.conv_main.specs.Progress.{Begins};

use crate::way::Place;
use arrayvec::ArrayVec;
use itoa::Buffer;
use memory::{MOST_ASKED, Memory};
use route_layouts::{Fault, MOST_CONVERTED};
use std::alloc::AllocError;

/// The most bytes of a line about a message.
const MOST_LINE: usize = 128;

/// Appends bytes, however many these are: more than may be asked for at once one by one. Where there is no memory, some
/// of them.
#[tactic(auto, using(crate::proofs::Grown::begins_self))]
pub(crate) fn append(
    text: &mut Vec<u8>,
    bytes: &[u8],
    memory: &mut Memory,
) -> Result<(), AllocError>
    ensures ok { OnOk result (text.new.items ≡ text.old.items ++ bytes.now) }
    ensures err { OnErr result (Begins text.old.items text.new.items) }
    ensures counted { Rises (is_err result) memory.old memory.new }
{
    if bytes.len() <= MOST_ASKED {
        return memory.extend(text, bytes);
    }
    'bytes: for i in 0..bytes.len() {
        memory.push(text, bytes[i])?;
    }
    Ok(())
}

/// Appends the digits of a message.
pub(crate) fn append_digits(
    text: &mut Vec<u8>,
    message: &[u8],
    memory: &mut Memory,
) -> Result<(), AllocError>
    requires { length message.now ≤ MOST_CONVERTED }
    ensures ok { OnOk result (text.new.items ≡ text.old.items ++ encode_lower message.now) }
    ensures err { OnErr result (text.new.items ≡ text.old.items) }
    ensures counted { Rises (is_err result) memory.old memory.new }
{
    let mut room = [0; 2 * MOST_CONVERTED];
    let digits = &mut room[..2 * message.len()];
    hex::encode_to_slice(message, digits).unwrap();
    memory.extend(text, digits)
}

/// The line about a message without a counterpart.
pub(crate) fn line_about(place: &Place, why: Fault) -> ArrayVec<u8, MOST_LINE>
    requires { place.now.messages ≤ 2 ^ 62 }
    ensures { result.items ≡ line_about_it place.now why }
{
    let mut number = Buffer::new();
    let mut offset = Buffer::new();
    let mut line = ArrayVec::new();
    line.try_extend_from_slice(b"routeconv: message ").unwrap();
    line.try_extend_from_slice(number.format(place.messages + 1).as_bytes())
        .unwrap();
    line.try_extend_from_slice(b" at ").unwrap();
    line.try_extend_from_slice(offset.format(place.offset).as_bytes())
        .unwrap();
    line.try_extend_from_slice(b": ").unwrap();
    line.try_extend_from_slice(why.text().as_bytes()).unwrap();
    line.push(b'\n');
    line
}
