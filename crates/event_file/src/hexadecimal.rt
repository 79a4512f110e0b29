//! Hexadecimal as `hex` has it. Digits are read by a table, and written without branches or a table, so that the
//! compiler takes as many bytes at a time as the processor does.
ghost use Rattle.std.specs.Prelude.{◌≡◌, ◌*◌, ◌/◌, ◌%◌, length, slice_index, unwrap_or, MatchResult, true, false};
ghost use Rattle.hex.specs.Hex.{decode_sized, encode_lower, hex_digit_value, lower_digits};

/// The value of a byte that is no digit: with it a pair of digits is no byte.
const NONE: u16 = 256;

/// The value of each byte as a digit, in either case.
static VALUES: [u16; 256] = [
    NONE, NONE, NONE, NONE, NONE, NONE, NONE, NONE, NONE, NONE, NONE, NONE, NONE, NONE, NONE, NONE,
    NONE, NONE, NONE, NONE, NONE, NONE, NONE, NONE, NONE, NONE, NONE, NONE, NONE, NONE, NONE, NONE,
    NONE, NONE, NONE, NONE, NONE, NONE, NONE, NONE, NONE, NONE, NONE, NONE, NONE, NONE, NONE, NONE,
    0, 1, 2, 3, 4, 5, 6, 7, 8, 9, NONE, NONE, NONE, NONE, NONE, NONE, NONE, 10, 11, 12, 13, 14, 15,
    NONE, NONE, NONE, NONE, NONE, NONE, NONE, NONE, NONE, NONE, NONE, NONE, NONE, NONE, NONE, NONE,
    NONE, NONE, NONE, NONE, NONE, NONE, NONE, NONE, NONE, NONE, 10, 11, 12, 13, 14, 15, NONE, NONE,
    NONE, NONE, NONE, NONE, NONE, NONE, NONE, NONE, NONE, NONE, NONE, NONE, NONE, NONE, NONE, NONE,
    NONE, NONE, NONE, NONE, NONE, NONE, NONE, NONE, NONE, NONE, NONE, NONE, NONE, NONE, NONE, NONE,
    NONE, NONE, NONE, NONE, NONE, NONE, NONE, NONE, NONE, NONE, NONE, NONE, NONE, NONE, NONE, NONE,
    NONE, NONE, NONE, NONE, NONE, NONE, NONE, NONE, NONE, NONE, NONE, NONE, NONE, NONE, NONE, NONE,
    NONE, NONE, NONE, NONE, NONE, NONE, NONE, NONE, NONE, NONE, NONE, NONE, NONE, NONE, NONE, NONE,
    NONE, NONE, NONE, NONE, NONE, NONE, NONE, NONE, NONE, NONE, NONE, NONE, NONE, NONE, NONE, NONE,
    NONE, NONE, NONE, NONE, NONE, NONE, NONE, NONE, NONE, NONE, NONE, NONE, NONE, NONE, NONE, NONE,
    NONE, NONE, NONE, NONE, NONE, NONE, NONE, NONE, NONE, NONE, NONE, NONE, NONE, NONE, NONE, NONE,
    NONE, NONE, NONE, NONE, NONE, NONE, NONE, NONE, NONE, NONE, NONE, NONE, NONE, NONE, NONE, NONE,
    NONE, NONE, NONE, NONE, NONE, NONE, NONE,
];

/// The value of a digit, in either case.
fn value_of(digit: u8) -> u16
    ensures { result ≡ unwrap_or (hex_digit_value digit) NONE }
{
    VALUES[usize::from(digit)]
}

/// Puts the bytes that the digits spell into `out`, which has room for just as many. `false` where they are others, or
/// some byte is no digit, which is looked at when all are read.
pub(crate) fn decode(digits: &[u8], out: &mut [u8]) -> bool
    ensures { MatchResult (decode_sized digits.now (length out.old)) (λ bytes. (result ≡ true) × (out.new ≡ bytes))
        (λ _. result ≡ false) }
{
    if digits.len() % 2 != 0 || digits.len() / 2 != out.len() {
        return false;
    }
    let mut all = 0;
    'bytes: for i in 0..out.len() {
        let byte = value_of(digits[2 * i]) * 16 + value_of(digits[2 * i + 1]);
        all |= byte;
        out[i] = (byte % 256) as u8;
    }
    all <= 255
}

/// Added to each half of a number whose halves are digits' values: those of letters then reach 16.
const TO_16: u16 = 0x0606;

/// One in each half.
const ONES: u16 = 0x0101;

/// The digit `0` in each half.
const ZEROS: u16 = 0x3030;

/// From the place behind `9` to that of `a`.
const PAST_9: u16 = 39;

/// The two digits of a byte, both at once: in the halves of one number, the first in the lower.
fn digits_of(byte: u8) -> [u8; 2]
    ensures high { slice_index result 0 ≡ slice_index lower_digits (byte / 16) }
    ensures low { slice_index result 1 ≡ slice_index lower_digits (byte % 16) }
{
    let byte = u16::from(byte);
    let values = (byte << 12 | byte) >> 4;
    let letters = (values + TO_16 >> 4) & ONES;
    (values + ZEROS + letters * PAST_9).to_le_bytes()
}

/// Puts the digits of bytes into `out`, which has room for just as many.
pub(crate) fn encode(bytes: &[u8], out: &mut [u8])
    requires { length out.old ≡ 2 * length bytes.now }
    ensures { out.new ≡ encode_lower bytes.now }
{
    'bytes: for i in 0..bytes.len() {
        out[2 * i..2 * i + 2].copy_from_slice(&digits_of(bytes[i]));
    }
}
