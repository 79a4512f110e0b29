//! Hexadecimal, written without branches or a table, so that the compiler takes as many bytes at a time as the
//! processor does.
ghost use Rattle.std.specs.Prelude.{◌≡◌, ◌+◌, ◌*◌, ◌/◌, ◌%◌, ◌≤◌, ◌++◌, length, slice_index};
ghost use Rattle.hex.specs.Hex.{encode_lower, lower_digits};
ghost use Rattle.message_text.specs.Room.{written};

/// Added to each half of a number whose halves are digits' values: those of letters then reach 16.
const TO_16: u16 = 0x0606;

/// One in each half.
const ONES: u16 = 0x0101;

/// The digit `0` in each half.
const ZEROS: u16 = 0x3030;

/// From the place behind `9` to that of `a`.
const PAST_9: u16 = 39;

/// The two digits of a byte, both at once: in the halves of one number, the first in the lower.
fn digits_of(byte: u8) -> [u8; 2]
    ensures high { slice_index result 0 ≡ slice_index lower_digits (byte / 16) }
    ensures low { slice_index result 1 ≡ slice_index lower_digits (byte % 16) }
{
    let byte = u16::from(byte);
    let values = (byte << 12 | byte) >> 4;
    let letters = (values + TO_16 >> 4) & ONES;
    (values + ZEROS + letters * PAST_9).to_le_bytes()
}

/// Puts the digits of bytes into `out`, which has room for just as many.
fn encode(bytes: &[u8], out: &mut [u8])
    requires { length out.old ≡ 2 * length bytes.now }
    ensures { out.new ≡ encode_lower bytes.now }
{
    'bytes: for i in 0..bytes.len() {
        out[2 * i..2 * i + 2].copy_from_slice(&digits_of(bytes[i]));
    }
}

/// Puts bytes in hexadecimal from a place on, and answers where they end.
pub(crate) fn put_hex(bytes: &[u8], room: &mut [u8], at: usize) -> usize
    requires { at + 2 * length bytes.now ≤ length room.old }
    ensures end { result ≡ at + 2 * length bytes.now }
    ensures text { written room.new result ≡ written room.old at ++ encode_lower bytes.now }
{
    let end = at + 2 * bytes.len();
    encode(bytes, &mut room[at..end]);
    end
}
