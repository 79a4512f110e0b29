//! Lower-case hexadecimal digits, read without branches or a table, so that the compiler takes as many at a time as the
//! processor does.
ghost use Rattle.std.specs.Prelude.{◌≡◌, ◌*◌, Ok, length, true};
ghost use Rattle.std.specs.List.{list_all};
ghost use Rattle.hex.specs.Hex.{decode_of};
ghost use Rattle.show_main.specs.Shown.{is_lower_digit};
ghost use Rattle.show_main.specs.Digits.{value_of as value};

/// What a byte that is no digit is taken for: more than the value of any digit.
const NONE: u8 = 255;

/// The value of a digit.
#[inline(always)]
fn value_of(byte: u8) -> u8
    ensures { result ≡ value byte }
{
    let number = byte.wrapping_sub(b'0');
    let letter = byte.wrapping_sub(b'a');
    if number < 10 {
        number
    } else if letter < 6 {
        letter + 10
    } else {
        NONE
    }
}

/// Puts the bytes that the digits spell into `out`, which has room for just as many. `false` where some byte is no
/// digit, which is looked at when all are read.
pub(crate) fn decode(digits: &[u8], out: &mut [u8]) -> bool
    requires { length digits.now ≡ 2 * length out.old }
    ensures digits { result ≡ list_all is_lower_digit digits.now }
    ensures bytes { result ≡ true → decode_of digits.now ≡ Ok out.new }
{
    let mut most = 0u8;
    'bytes: for i in 0..out.len() {
        let high = value_of(digits[2 * i]);
        let low = value_of(digits[2 * i + 1]);
        most = most.max(high).max(low);
        out[i] = high % 16 * 16 + low % 16;
    }
    most < 16
}
