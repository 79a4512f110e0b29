//! How a line begins: its verb, and the words that each verb has behind it.
ghost use Rattle.std.specs.Prelude.{◌≡◌, ◌++◌, OnOk, is_err};
ghost use Rattle.memory.specs.Refusing.{Rises};
ghost use Rattle.line_faults.specs.Texts.{all_usages, usage_text, usages_of};
ghost use Rattle.line_faults.specs.Verbs.{verb_among as verb_in, verb_of as verb_by, verb_text, words_of};

use crate::WordKind;
use crate::words::is;
use lab_text::Text;
use memory::Memory;
use std::alloc::AllocError;

/// How a line begins.
#[derive(Clone, Copy, Debug, PartialEq, Eq)]
pub enum Verb {
    /// Attaches an interface.
    If,
    /// Gives an interface an address.
    Addr,
    /// Removes an address of an interface.
    Unaddr,
    /// Opens a routing socket.
    Open,
    /// Says whether a socket hears the replies to its own writes.
    Loopback,
    /// Closes a socket.
    Close,
    /// Takes the messages that wait for a socket.
    Read,
    /// Asks how many messages a socket has lost.
    Lost,
    /// Writes bytes to a socket.
    Write,
    /// Writes the message of some words to a socket.
    Route,
    /// Looks up a packet's destination.
    Packet,
    /// Follows a redirect.
    Redirect,
    /// Gives up a route.
    Losing,
    /// Dumps the table.
    Dump,
    /// Dumps the routes that have some flag.
    Flags,
}

/// Every verb.
const VERBS: [Verb; 15] = [
    Verb::If,
    Verb::Addr,
    Verb::Unaddr,
    Verb::Open,
    Verb::Loopback,
    Verb::Close,
    Verb::Read,
    Verb::Lost,
    Verb::Write,
    Verb::Route,
    Verb::Packet,
    Verb::Redirect,
    Verb::Losing,
    Verb::Dump,
    Verb::Flags,
];

impl Verb {
    /// The word that it is.
    pub(crate) fn text(self) -> &'static str
        ensures { result.now ≡ verb_text self }
    {
        match self {
            Verb::If => "if",
            Verb::Addr => "addr",
            Verb::Unaddr => "unaddr",
            Verb::Open => "open",
            Verb::Loopback => "loopback",
            Verb::Close => "close",
            Verb::Read => "read",
            Verb::Lost => "lost",
            Verb::Write => "write",
            Verb::Route => "route",
            Verb::Packet => "packet",
            Verb::Redirect => "redirect",
            Verb::Losing => "losing",
            Verb::Dump => "dump",
            Verb::Flags => "flags",
        }
    }

    /// How a line with it is written, and what that does, without a newline.
    pub(crate) fn usage(self) -> &'static str
        ensures { result.now ≡ usage_text self }
    {
        match self {
            Verb::If => "if NAME broadcast|loopback|ptp TYPE HEX: attaches an interface",
            Verb::Addr => "addr NAME A/P [to A] [cloning]: gives an interface an address",
            Verb::Unaddr => "unaddr NAME A: removes an address of an interface",
            Verb::Open => "open ID PID any|PROTOCOL: opens a routing socket",
            Verb::Loopback =>
                "loopback ID on|off: whether a socket hears the replies to its own writes",
            Verb::Close => "close ID: closes a socket",
            Verb::Read => "read ID: takes the messages that wait for a socket",
            Verb::Lost => "lost ID: how many messages a socket has lost",
            Verb::Write => "write ID HEX: writes bytes to a socket",
            Verb::Route =>
                "route ID SEQ VERB DEST [OPTION WORD]..: writes the message of these words to a socket",
            Verb::Packet => "packet A: looks up the route of a packet to an address",
            Verb::Redirect =>
                "redirect A GATEWAY AUTHOR: follows a redirect of an address to a gateway",
            Verb::Losing =>
                "losing A: tells that the route of an address seems dead, and takes it away if a redirect made it",
            Verb::Dump =>
                "dump ask|all|N: dumps the table into N bytes, or says how many to ask for",
            Verb::Flags =>
                "flags FLAGS ask|all|N: the same of the routes that have one of these flags",
        }
    }

    /// What has to stand behind it, word by word.
    pub(crate) fn words(self) -> &'static [WordKind]
        ensures { result.now ≡ words_of self }
    {
        match self {
            Verb::If => &[
                WordKind::InterfaceName,
                WordKind::InterfaceKind,
                WordKind::TypeNumber,
                WordKind::LinkBytes,
            ],
            Verb::Addr => &[WordKind::InterfaceName, WordKind::AddressPrefix],
            Verb::Unaddr => &[WordKind::InterfaceName, WordKind::Address],
            Verb::Open => &[WordKind::SocketId, WordKind::Pid, WordKind::Protocol],
            Verb::Loopback => &[WordKind::SocketId, WordKind::Switch],
            Verb::Close | Verb::Read | Verb::Lost => &[WordKind::SocketId],
            Verb::Write => &[WordKind::SocketId, WordKind::Written],
            Verb::Route => &[
                WordKind::SocketId,
                WordKind::SequenceNumber,
                WordKind::RouteVerb,
                WordKind::Destination,
            ],
            Verb::Packet | Verb::Losing => &[WordKind::Address],
            Verb::Redirect => &[WordKind::Address, WordKind::Address, WordKind::Address],
            Verb::Dump => &[WordKind::DumpRoom],
            Verb::Flags => &[WordKind::FlagBits, WordKind::DumpRoom],
        }
    }
}

/// The first of these verbs that a word is.
fn verb_among(verbs: &[Verb], word: &[u8]) -> Option<Verb>
    ensures { result ≡ verb_in verbs.now word.now }
{
    let mut left = verbs;
    'verbs: while let [verb, rest @ ..] = left {
        if is(word, verb.text()) {
            return Some(*verb);
        }
        left = rest;
    }
    None
}

/// The verb that a word is; `None` where no line begins so.
pub fn verb_of(word: &[u8]) -> Option<Verb>
    ensures { result ≡ verb_by word.now }
{
    verb_among(&VERBS, word)
}

/// Appends the usages of these verbs.
fn put_usages_of(verbs: &[Verb], text: &mut Text, memory: &mut Memory) -> Result<(), AllocError>
    ensures put { OnOk result (text.new ≡ text.old ++ usages_of verbs.now) }
    ensures counted { Rises (is_err result) memory.old memory.new }
{
    let mut left = verbs;
    'verbs: while let [verb, rest @ ..] = left {
        text.put(verb.usage().as_bytes(), memory)?;
        text.put(b"\n", memory)?;
        left = rest;
    }
    Ok(())
}

/// Appends the usages of all verbs, each with a newline behind it.
pub fn put_usages(text: &mut Text, memory: &mut Memory) -> Result<(), AllocError>
    ensures put { OnOk result (text.new ≡ text.old ++ all_usages) }
    ensures counted { Rises (is_err result) memory.old memory.new }
{
    put_usages_of(&VERBS, text, memory)
}
