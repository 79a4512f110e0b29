ghost use Rattle.std.specs.Prelude.{◌≡◌, ◌≢◌, ◌≤◌, ◌<◌, ◌-◌, ◌^◌, ◌∷◌, ◌++◌, ℕ, List, Some, None, decimal, length, replicate};
ghost use Rattle.hex.specs.Hex.{decode_of};
ghost use Rattle.std.specs.Option.{IfNone, IfSome, MatchOption};
ghost use Rattle.std.specs.Str.Parse.{AllDigits, digits_value};
ghost use Rattle.event_file.specs.Words.{decoded, number_to, protocol_number_of, protocol_of, hex_number_of, inet_of_parts, inet_of, parted_by};

use crate::hexadecimal;
use crate::words::is;
use mask_table::Prefix;
use sock_addrs::Inet;

/// What the digits of a word of at most ten write, or `None` where it has another byte.
fn read_digits(word: &[u8]) -> Option<u64>
    requires { length word.now ≤ 10 }
    ensures { MatchOption result (AllDigits 10 word.now → ⊥)
        (λ n. AllDigits 10 word.now × (n ≡ digits_value 10 word.now)) }
{
    let mut number = 0;
    let mut at = 0;
    while at < word.len() {
        let digit = word[at].wrapping_sub(b'0');
        if digit > 9 {
            return None;
        }
        number = 10 * number + u64::from(digit);
        at += 1;
    }
    Some(number)
}

/// The number of 32 bits that prints as this word: of one to ten digits, of which the first of several isn't 0.
fn printed_as(word: &[u8]) -> Option<u32>
    ensures { MatchOption result ((n : ℕ) → n < 2 ^ 32 → word.now ≢ decimal n) (λ n. word.now ≡ decimal n) }
{
    if word.is_empty() || word.len() > 10 {
        return None;
    }
    if word[0] == b'0' && word.len() > 1 {
        return None;
    }
    let number = read_digits(word)?;
    if number > u64::from(u32::MAX) {
        return None;
    }
    Some(number as u32)
}

/// A decimal up to `most`, without leading zeros.
pub(crate) fn read_number(most: u32, word: &[u8]) -> Option<u32>
    ensures value { result ≡ number_to most word.now }
    ensures most { IfSome result (λ n. n ≤ most) }
{
    let number = printed_as(word)?;
    if number > most {
        return None;
    }
    Some(number)
}

/// A decimal up to 255.
pub(crate) fn read_byte(word: &[u8]) -> Option<u8>
    ensures { result ≡ number_to 255 word.now }
{
    let number = read_number(255, word)?;
    Some(number as u8)
}

/// The number of a protocol: a decimal from 1 to 255.
fn read_protocol_number(word: &[u8]) -> Option<u8>
    ensures { result ≡ protocol_number_of word.now }
{
    let number = read_byte(word)?;
    if number == 0 {
        return None;
    }
    Some(number)
}

/// A protocol: `any`, which is 0, or its number.
pub(crate) fn read_protocol(word: &[u8]) -> Option<u8>
    ensures { result ≡ protocol_of word.now }
{
    if is(word, "any") {
        return Some(0);
    }
    read_protocol_number(word)
}

/// The length of a mask: a decimal up to 32.
pub(crate) fn read_prefix(word: &[u8]) -> Option<Prefix>
    ensures { result ≡ number_to 32 word.now }
{
    let number = read_number(32, word)?;
    Prefix::new(number as u8)
}

/// The decimal up to 255 before the first dot of a text, and what stands behind that dot.
#[inline(always)]
fn cut_byte(text: &[u8]) -> Option<(u8, &[u8])>
    ensures some { IfSome result (λ r. (part : List ℕ) × (parted_by 46 text.now ≡ part ∷ parted_by 46 r.1.now)
        × (number_to 255 part ≡ Some r.0)) }
    ensures none { IfNone result ((before : List (List ℕ)) → length before ≤ 2
        → inet_of_parts (before ++ parted_by 46 text.now) ≡ None) }
{
    let mut number = 0;
    let mut at = 0;
    while at < text.len() {
        if text[at] == b'.' {
            let part = dotted(number, &text[..at])?;
            return Some((part, &text[at + 1..]));
        }
        let digit = text[at].wrapping_sub(b'0');
        if digit > 9 {
            return None;
        }
        if at == 3 {
            return None;
        }
        number = 10 * number + u32::from(digit);
        at += 1;
    }
    None
}

/// The number that digits write, where it is a decimal up to 255.
#[inline(always)]
fn dotted(number: u32, digits: &[u8]) -> Option<u8>
    requires digits { AllDigits 10 digits.now }
    requires number { number ≡ digits_value 10 digits.now }
    ensures { result ≡ number_to 255 digits.now }
{
    if digits.is_empty() {
        return None;
    }
    if digits[0] == b'0' && digits.len() > 1 {
        return None;
    }
    if number > 255 {
        return None;
    }
    Some(number as u8)
}

/// An IPv4 address: four decimals up to 255, parted by dots. `None` where the word is no such address.
pub fn read_inet(word: &[u8]) -> Option<Inet>
    ensures { result ≡ inet_of word.now }
{
    let (a, rest) = cut_byte(word)?;
    let (b, rest) = cut_byte(rest)?;
    let (c, rest) = cut_byte(rest)?;
    let d = read_byte(rest)?;
    Some(Inet([a, b, c, d]))
}

/// The digits with zeros before them, eight in all.
fn eight_digits(word: &[u8]) -> [u8; 8]
    requires { length word.now ≤ 8 }
    ensures { result ≡ replicate (8 - length word.now) 48 ++ word.now }
{
    let mut digits = [b'0'; 8];
    digits[8 - word.len()..].copy_from_slice(word);
    digits
}

/// The four bytes that eight hexadecimal digits spell.
fn four_bytes(digits: &[u8]) -> Option<[u8; 4]>
    requires { length digits.now ≡ 8 }
    ensures { result ≡ decoded (decode_of digits.now) }
{
    let mut bytes = [0; 4];
    if !hexadecimal::decode(digits, &mut bytes) {
        return None;
    }
    Some(bytes)
}

/// A number of 1 to 8 hexadecimal digits.
pub(crate) fn read_hex(word: &[u8]) -> Option<u32>
    ensures { result ≡ hex_number_of word.now }
{
    if word.is_empty() || word.len() > 8 {
        return None;
    }
    let bytes = four_bytes(&eight_digits(word))?;
    Some(u32::from_be_bytes(bytes))
}
