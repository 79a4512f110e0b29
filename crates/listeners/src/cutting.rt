//! A queue's bytes are cut into messages again, one after another, by the length at the front of each.
ghost use Rattle.std.specs.Prelude.{◌≡◌, ◌∷◌, ◌<◌, ◌≤◌, length, take, drop};
ghost use Rattle.listeners.specs.Queue.{cut, AreMessages};

use byteorder::{BigEndian, ByteOrder};

/// The first of whole messages that stand one after another, each of which begins with its length, two bytes, the high
/// one first.
pub fn first_message(bytes: &[u8]) -> &[u8]
    requires whole { AreMessages bytes.now }
    requires some { 0 < length bytes.now }
    ensures longer { 0 < length result.now }
    ensures front { result.now ≡ take (length result.now) bytes.now }
    ensures fits { length result.now ≤ length bytes.now }
    ensures messages { cut bytes.now ≡ result.now ∷ cut (drop (length result.now) bytes.now) }
    ensures rest { AreMessages (drop (length result.now) bytes.now) }
{
    let length = usize::from(BigEndian::read_u16(bytes));
    &bytes[..length]
}
