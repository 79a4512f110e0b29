//! The line of a route that a packet takes.
ghost use Rattle.std.specs.Prelude.{◌≡◌, ◌+◌, ◌≤◌, ◌++◌, ◌∷◌, codes, decimal, length};
ghost use Rattle.hex.specs.Hex.{encode_lower};
ghost use Rattle.event_file.specs.Answers.{choice_line as line_of_choice, gate_word as word_of_gate, rank_word as word_of_rank};
ghost use Rattle.event_file.specs.Printed.{hex_word as word_of_hex, inet_word as word_of_inet};

use crate::hexadecimal;
use arrayvec::ArrayVec;
use mask_table::Rank;
use route_core::Choice;
use sock_addrs::{Gate, Inet, Link};

/// The words of a route that a packet takes, behind what becomes of the packet.
pub(crate) fn choice_line(fate: &str, choice: &Choice) -> ArrayVec<u8, 128>
    requires { length fate.now ≤ 4 }
    ensures { result.items ≡ line_of_choice fate.now choice.now }
{
    let mut digits = itoa::Buffer::new();
    let mut line = ArrayVec::new();
    line.try_extend_from_slice(fate.as_bytes()).unwrap();
    put_inet(&mut line, choice.key);
    put_rank(&mut line, choice.rank);
    put_gate(&mut line, &choice.gateway);
    put_word(&mut line, digits.format(choice.index).as_bytes());
    put_word(&mut line, &hex_word(u32::from(choice.flags)));
    line.push(b'\n');
    line
}

/// Puts a space and the word behind the line.
fn put_word(line: &mut ArrayVec<u8, 128>, word: &[u8])
    requires { length line.old.items + 1 + length word.now ≤ 128 }
    ensures { line.new.items ≡ line.old.items ++ 32 ∷ word.now }
{
    line.push(b' ');
    line.try_extend_from_slice(word).unwrap();
}

/// Puts a space and an IPv4 address behind the line: its four bytes in decimal, with dots between them.
fn put_inet(line: &mut ArrayVec<u8, 128>, address: Inet)
    requires { length line.old.items + 16 ≤ 128 }
    ensures text { line.new.items ≡ line.old.items ++ 32 ∷ word_of_inet address }
    ensures most { length line.new.items ≤ length line.old.items + 16 }
{
    let [a, b, c, d] = address.number().to_be_bytes();
    put_byte(line, b' ', a);
    put_byte(line, b'.', b);
    put_byte(line, b'.', c);
    put_byte(line, b'.', d);
}

/// Puts a byte and then the decimal of another behind the line. Its few digits are put straight there: two addresses of
/// a packet's line have eight such numbers.
fn put_byte(line: &mut ArrayVec<u8, 128>, before: u8, number: u8)
    requires { length line.old.items + 4 ≤ 128 }
    ensures text { line.new.items ≡ line.old.items ++ before ∷ decimal number }
    ensures most { length line.new.items ≤ length line.old.items + 4 }
{
    line.push(before);
    if number < 10 {
        line.push(b'0' + number);
        return;
    }
    if number < 100 {
        line.push(b'0' + number / 10);
        line.push(b'0' + number % 10);
        return;
    }
    line.push(b'0' + number / 100);
    line.push(b'0' + number / 10 % 10);
    line.push(b'0' + number % 10);
}

/// Puts a space and a rank behind the line: in decimal, and `-` for that of one host.
fn put_rank(line: &mut ArrayVec<u8, 128>, rank: Rank)
    requires { length line.old.items + 4 ≤ 128 }
    ensures text { line.new.items ≡ line.old.items ++ 32 ∷ word_of_rank rank }
    ensures most { length line.new.items ≤ length line.old.items + 4 }
{
    if rank == Rank::host() {
        put_word(line, b"-");
        return;
    }
    put_byte(line, b' ', rank.number());
}

/// Puts a space and a gateway behind the line: its IPv4 address, or `link:` and its bytes in hexadecimal.
fn put_gate(line: &mut ArrayVec<u8, 128>, gateway: &Gate)
    requires { length line.old.items + 70 ≤ 128 }
    ensures text { line.new.items ≡ line.old.items ++ 32 ∷ word_of_gate gateway.now }
    ensures most { length line.new.items ≤ length line.old.items + 70 }
{
    match gateway {
        Gate::Inet(address) => put_inet(line, *address),
        Gate::Link(link) => put_word(line, link_word(link).as_slice()),
    }
}

/// A link-layer address: `link:` and its bytes in hexadecimal.
fn link_word(link: &Link) -> ArrayVec<u8, 69>
    ensures { result.items ≡ codes "link:" ++ encode_lower link.now }
{
    let bytes = link.as_bytes();
    let mut room = [0; 64];
    let digits = &mut room[..2 * bytes.len()];
    hexadecimal::encode(bytes, digits);
    let mut word = ArrayVec::new();
    word.try_extend_from_slice(b"link:").unwrap();
    word.try_extend_from_slice(digits).unwrap();
    word
}

/// A number in eight hexadecimal digits.
fn hex_word(number: u32) -> [u8; 8]
    ensures { result ≡ word_of_hex number }
{
    let mut digits = [0; 8];
    hexadecimal::encode(&number.to_be_bytes(), &mut digits);
    digits
}
