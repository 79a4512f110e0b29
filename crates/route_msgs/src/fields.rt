ghost use Rattle.std.specs.Prelude.{◌≡◌, ◌+◌, ◌≤◌, length};
ghost use Rattle.route_msgs.specs.Layout.{field, number_at, with_field};

use byteorder::{BigEndian, ByteOrder};

/// The number in the two bytes from `at` on, the highest first.
#[tactic(auto, unfolding(crate::specs::Layout::number_at))]
pub(crate) fn u16_at(message: &[u8], at: usize) -> u16
    requires { at + 2 ≤ length message.now }
    ensures { result ≡ number_at at 2 message.now }
{
    BigEndian::read_u16(&message[at..])
}

/// The number in the four bytes from `at` on, the highest first.
#[tactic(auto, unfolding(crate::specs::Layout::number_at))]
pub(crate) fn u32_at(message: &[u8], at: usize) -> u32
    requires { at + 4 ≤ length message.now }
    ensures { result ≡ number_at at 4 message.now }
{
    BigEndian::read_u32(&message[at..])
}

/// The byte at `at`.
#[tactic(auto, unfolding(crate::specs::Layout::number_at))]
pub(crate) fn u8_at(message: &[u8], at: usize) -> u8
    requires { at + 1 ≤ length message.now }
    ensures { result ≡ number_at at 1 message.now }
{
    message[at]
}

/// Writes a number of four bytes at `at`, the highest first; all other bytes stay.
#[tactic(auto, unfolding(crate::specs::Layout::with_field))]
pub(crate) fn patch_u32(message: &mut [u8], at: usize, value: u32)
    requires { at + 4 ≤ length message.old }
    ensures { message.new ≡ with_field (field at 4 value) message.old }
{
    BigEndian::write_u32(&mut message[at..], value);
}

/// Writes a number of two bytes at `at`, the highest first; all other bytes stay.
#[tactic(auto, unfolding(crate::specs::Layout::with_field))]
pub(crate) fn patch_u16(message: &mut [u8], at: usize, value: u16)
    requires { at + 2 ≤ length message.old }
    ensures { message.new ≡ with_field (field at 2 value) message.old }
{
    BigEndian::write_u16(&mut message[at..], value);
}

/// Writes the byte at `at`; all other bytes stay.
#[tactic(auto, unfolding(crate::specs::Layout::with_field))]
pub(crate) fn patch_u8(message: &mut [u8], at: usize, value: u8)
    requires { at + 1 ≤ length message.old }
    ensures { message.new ≡ with_field (field at 1 value) message.old }
{
    message[at] = value;
}
