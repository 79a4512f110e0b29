//! What the words behind each verb say.
ghost use Rattle.std.specs.Prelude.{◌≡◌, map, length, option_map, false, Some, None};
ghost use Rattle.event_file.specs.Grammar.{attach_form, inet_if_written, cloning_of, address_of_parts, add_address_form, remove_address_form, open_form, loopback_form, close_form, write_form, route_form, read_form, lost_form, packet_form, redirect_of, redirect_form, losing_form, dump_into as into_room, dump_of, dump_form, flags_form};
ghost use Rattle.event_file.specs.Words.{parted_by};

use crate::numbers::{read_byte, read_hex, read_inet, read_number, read_prefix, read_protocol};
use crate::route_line::read_composed;
use crate::texts::{read_kind, read_link, read_name, read_switch, read_written};
use crate::words::{Options, if_written, is, one_or_two};
use route_core::{Command, MOST_WRITTEN, NewGateway, Said};
use sock_addrs::Inet;

// The forms are not inlined: what each makes of its words would else be cleared, and moved once more, for each other
// line.

/// `NAME KIND T HEX`, behind `if`.
#[inline(never)]
pub(crate) fn attach(words: &[&[u8]]) -> Option<Said<'static>>
    ensures { result ≡ attach_form (map (λ w. w.now) words.now) }
{
    let [name, kind, type_number, link] = words else {
        return None;
    };
    Some(Command::Attach {
        name: read_name(name)?,
        kind: read_kind(kind)?,
        type_number: read_byte(type_number)?,
        link: read_link(link)?,
    })
}

/// `NAME A/P`, whose route clones or not, and the address of the other end.
fn address(name: &[u8], word: &[u8], cloning: bool, far: Option<Inet>) -> Option<Said<'static>>
    ensures { result ≡ address_of_parts name.now (parted_by 47 word.now) cloning far }
{
    let (address, prefix) = one_or_two(b'/', word)?;
    Some(Command::AddAddress {
        name: read_name(name)?,
        address: read_inet(address)?,
        prefix: read_prefix(prefix?)?,
        cloning,
        far,
    })
}

/// The address of the other end, where it is written.
fn far(word: Option<&[u8]>) -> Option<Option<Inet>>
    ensures { result ≡ inet_if_written (option_map (λ w. w.now) word.entry) }
{
    if_written(word, read_inet)
}

/// Whether an address's route clones: where the one word that is left is `cloning`, and not where none is.
fn cloning(options: &[&[u8]]) -> Option<bool>
    ensures { result ≡ cloning_of (map (λ w. w.now) options.now) }
{
    if options.is_empty() {
        return Some(false);
    }
    let [option] = options else {
        return None;
    };
    if !is(option, "cloning") {
        return None;
    }
    Some(true)
}

/// `NAME A/P`, and behind it `to A` and `cloning`, each where it is written; behind `addr`.
#[inline(never)]
pub(crate) fn add_address(words: &[&[u8]]) -> Option<Said<'static>>
    ensures { result ≡ add_address_form (map (λ w. w.now) words.now) }
{
    let [name, word, words @ ..] = words else {
        return None;
    };
    // An option that is read is taken off, so what is left behind `to` may be `cloning`.
    let mut options = Options { words };
    let far = far(options.word("to"))?;
    let cloning = cloning(options.words)?;
    address(name, word, cloning, far)
}

/// `NAME A`, behind `unaddr`.
#[inline(never)]
pub(crate) fn remove_address(words: &[&[u8]]) -> Option<Said<'static>>
    ensures { result ≡ remove_address_form (map (λ w. w.now) words.now) }
{
    let [name, address] = words else {
        return None;
    };
    Some(Command::RemoveAddress {
        name: read_name(name)?,
        address: read_inet(address)?,
    })
}

/// `ID PID PROTOCOL`, behind `open`.
#[inline(never)]
pub(crate) fn open(words: &[&[u8]]) -> Option<Said<'static>>
    ensures { result ≡ open_form (map (λ w. w.now) words.now) }
{
    let [id, pid, protocol] = words else {
        return None;
    };
    Some(Command::Open {
        id: read_name(id)?,
        pid: read_number(u32::MAX, pid)?,
        protocol: read_protocol(protocol)?,
    })
}

/// `ID on` and `ID off`, behind `loopback`.
#[inline(never)]
pub(crate) fn loopback(words: &[&[u8]]) -> Option<Said<'static>>
    ensures { result ≡ loopback_form (map (λ w. w.now) words.now) }
{
    let [id, switch] = words else {
        return None;
    };
    Some(Command::Loopback {
        id: read_name(id)?,
        on: read_switch(switch)?,
    })
}

/// `ID`, behind `close`.
pub(crate) fn close(words: &[&[u8]]) -> Option<Said<'static>>
    ensures { result ≡ close_form (map (λ w. w.now) words.now) }
{
    let [id] = words else {
        return None;
    };
    Some(Command::Close { id: read_name(id)? })
}

/// `ID HEX`, behind `write`.
#[inline(never)]
pub(crate) fn write<'a>(words: &[&[u8]], room: &'a mut [u8]) -> Option<Said<'a>>
    requires { length room.old ≡ MOST_WRITTEN }
    ensures { result ≡ write_form (map (λ w. w.now) words.now) }
{
    let [id, bytes] = words else {
        return None;
    };
    Some(Command::Write {
        id: read_name(id)?,
        bytes: read_written(bytes, room)?,
    })
}

/// `ID SEQ VERB DEST OPTION..`, behind `route`: a write of the message that they compose.
#[inline(never)]
pub(crate) fn route<'a>(words: &[&[u8]], room: &'a mut [u8]) -> Option<Said<'a>>
    requires { length room.old ≡ MOST_WRITTEN }
    ensures { result ≡ route_form (map (λ w. w.now) words.now) }
{
    let [id, words @ ..] = words else {
        return None;
    };
    Some(Command::Write {
        id: read_name(id)?,
        bytes: read_composed(words, room)?,
    })
}

/// `ID`, behind `read`.
pub(crate) fn read(words: &[&[u8]]) -> Option<Said<'static>>
    ensures { result ≡ read_form (map (λ w. w.now) words.now) }
{
    let [id] = words else {
        return None;
    };
    Some(Command::Read { id: read_name(id)? })
}

/// `ID`, behind `lost`.
pub(crate) fn lost(words: &[&[u8]]) -> Option<Said<'static>>
    ensures { result ≡ lost_form (map (λ w. w.now) words.now) }
{
    let [id] = words else {
        return None;
    };
    Some(Command::Lost { id: read_name(id)? })
}

/// `A`, behind `packet`.
#[inline(never)]
pub(crate) fn packet(words: &[&[u8]]) -> Option<Said<'static>>
    ensures { result ≡ packet_form (map (λ w. w.now) words.now) }
{
    let [destination] = words else {
        return None;
    };
    Some(Command::Packet {
        destination: read_inet(destination)?,
    })
}

/// The redirect of a destination to a gateway by an author.
fn redirect_to(destination: &[u8], gateway: &[u8], author: &[u8]) -> Option<Said<'static>>
    ensures { result ≡ redirect_of destination.now gateway.now author.now }
{
    Some(Command::Redirect(NewGateway {
        destination: read_inet(destination)?,
        gateway: read_inet(gateway)?,
        author: read_inet(author)?,
    }))
}

/// `A A A`, behind `redirect`: the destination, the gateway that it is reached by, and who says so.
#[inline(never)]
pub(crate) fn redirect(words: &[&[u8]]) -> Option<Said<'static>>
    ensures { result ≡ redirect_form (map (λ w. w.now) words.now) }
{
    let [destination, gateway, author] = words else {
        return None;
    };
    redirect_to(destination, gateway, author)
}

/// `A`, behind `losing`.
#[inline(never)]
pub(crate) fn losing(words: &[&[u8]]) -> Option<Said<'static>>
    ensures { result ≡ losing_form (map (λ w. w.now) words.now) }
{
    let [destination] = words else {
        return None;
    };
    Some(Command::Losing {
        destination: read_inet(destination)?,
    })
}

/// `N`: a dump into so many bytes.
fn dump_into(filter: Option<u32>, word: &[u8]) -> Option<Said<'static>>
    ensures { result ≡ into_room filter word.now }
{
    Some(Command::Dump {
        filter,
        room: read_number(u32::MAX, word)?,
    })
}

/// `ask` or `N`, of the routes that the filter lets through.
fn filtered_dump(filter: Option<u32>, word: &[u8]) -> Option<Said<'static>>
    ensures { result ≡ dump_of filter word.now }
{
    if is(word, "ask") {
        return Some(Command::DumpSize { filter });
    }
    dump_into(filter, word)
}

/// `ask` or `N`, behind `dump`: of all routes.
#[inline(never)]
pub(crate) fn dump(words: &[&[u8]]) -> Option<Said<'static>>
    ensures { result ≡ dump_form (map (λ w. w.now) words.now) }
{
    let [word] = words else {
        return None;
    };
    filtered_dump(None, word)
}

/// `X ask` or `X N`, behind `flags`: of the routes that have a flag of X.
#[inline(never)]
pub(crate) fn flags(words: &[&[u8]]) -> Option<Said<'static>>
    ensures { result ≡ flags_form (map (λ w. w.now) words.now) }
{
    let [flags, word] = words else {
        return None;
    };
    filtered_dump(Some(read_hex(flags)?), word)
}
