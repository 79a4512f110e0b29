//! The questions that a line may ask of the world.
ghost use Rattle.std.specs.Prelude.{◌≡◌, option_map};
ghost use Rattle.lab_main.specs.Questions.{about_an_address, about_something, address_asked as address_asked_in, is_question as asks, question_of as question_in, word_asked as word_asked_in};

use event_file::read_inet;
use line_faults::{Verb, verb_of};
use sock_addrs::Inet;

/// A question, which changes nothing.
#[derive(Clone, Copy, Debug, PartialEq, Eq)]
pub(crate) enum Question {
    /// All routes: `?table`.
    Table,
    /// The radix tree of the routes: `?tree`.
    Tree,
    /// How the best route of an address is found: `?find A`.
    Find(Inet),
    /// Which routes an address agrees with: `?why A`.
    Why(Inet),
    /// The interfaces, with their addresses: `?interfaces`.
    Interfaces,
    /// The open sockets: `?sockets`.
    Sockets,
    /// What lines and questions there are: `?help`.
    Help,
    /// How a line with this verb is written, word by word: `?help VERB`.
    HelpOn(Verb),
    /// No line is told behind this one: `?quit`.
    Quit,
}

/// Whether a line is a question, or would be one.
pub(crate) fn is_question(line: &[u8]) -> bool
    ensures { result ≡ asks line.now }
{
    matches!(line, [b'?', ..])
}

/// The question that a line asks, or `None` where it asks none.
pub(crate) fn question_of(line: &[u8]) -> Option<Question>
    ensures { result ≡ question_in line.now }
{
    if line == b"?table".as_slice() {
        return Some(Question::Table);
    }
    if line == b"?tree".as_slice() {
        return Some(Question::Tree);
    }
    if line == b"?interfaces".as_slice() {
        return Some(Question::Interfaces);
    }
    if line == b"?sockets".as_slice() {
        return Some(Question::Sockets);
    }
    if line == b"?help".as_slice() {
        return Some(Question::Help);
    }
    if line == b"?quit".as_slice() {
        return Some(Question::Quit);
    }
    question_about(line)
}

/// The question about a verb or an address that a line asks.
fn question_about(line: &[u8]) -> Option<Question>
    ensures { result ≡ about_something line.now }
{
    match word_asked(line) {
        Some(word) => Some(Question::HelpOn(verb_of(word)?)),
        None => about_address(line),
    }
}

/// The word on which a line asks help.
pub(crate) fn word_asked(line: &[u8]) -> Option<&[u8]>
    ensures { option_map (λ word. word.now) result ≡ word_asked_in line.now }
{
    match line {
        [b'?', b'h', b'e', b'l', b'p', b' ', word @ ..] => Some(word),
        _ => None,
    }
}

/// The word of a line that is to be an address.
pub(crate) fn address_asked(line: &[u8]) -> Option<&[u8]>
    ensures { option_map (λ word. word.now) result ≡ address_asked_in line.now }
{
    match line {
        [b'?', b'f', b'i', b'n', b'd', b' ', word @ ..] => Some(word),
        [b'?', b'w', b'h', b'y', b' ', word @ ..] => Some(word),
        _ => None,
    }
}

/// The question about an address that a line asks.
fn about_address(line: &[u8]) -> Option<Question>
    ensures { result ≡ about_an_address line.now }
{
    match line {
        [b'?', b'f', b'i', b'n', b'd', b' ', address @ ..] => Some(Question::Find(read_inet(
            address,
        )?)),
        [b'?', b'w', b'h', b'y', b' ', address @ ..] => Some(Question::Why(read_inet(address)?)),
        _ => None,
    }
}
