//! A room that a text is put into, piece by piece: each piece behind the one before it, at a place that is handed on.
ghost use Rattle.std.specs.Prelude.{◌≡◌, ◌+◌, ◌≤◌, ◌++◌, ◌∷◌, [], decimal, length};
ghost use Rattle.message_text.specs.Room.{written};

use itoa::write_digits;

/// Puts bytes from a place on, and answers where they end.
#[inline(always)]
pub(crate) fn put(bytes: &[u8], room: &mut [u8], at: usize) -> usize
    requires { at + length bytes.now ≤ length room.old }
    ensures end { result ≡ at + length bytes.now }
    ensures text { written room.new result ≡ written room.old at ++ bytes.now }
{
    let end = at + bytes.len();
    room[at..end].copy_from_slice(bytes);
    end
}

/// How many digits a number has in decimal.
#[inline(always)]
fn digits_of(number: u32) -> usize
    ensures count { result ≡ length (decimal number) }
    ensures most { result ≤ 10 }
{
    match number {
        0..=9 => 1,
        10..=99 => 2,
        100..=999 => 3,
        1_000..=9_999 => 4,
        10_000..=99_999 => 5,
        100_000..=999_999 => 6,
        1_000_000..=9_999_999 => 7,
        10_000_000..=99_999_999 => 8,
        100_000_000..=999_999_999 => 9,
        _ => 10,
    }
}

/// Puts a number in decimal from a place on, and answers where it ends. Its digits are counted first, so that they are
/// put straight to their place.
pub(crate) fn put_decimal(number: u32, room: &mut [u8], at: usize) -> usize
    requires { at + 10 ≤ length room.old }
    ensures most { result ≤ at + 10 }
    ensures text { written room.new result ≡ written room.old at ++ decimal number }
{
    let end = at + digits_of(number);
    write_digits(u64::from(number), room, end);
    end
}
