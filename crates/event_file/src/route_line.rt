//! The words behind `route`.
ghost use Rattle.std.specs.Prelude.{◌≡◌, length, map, bytes_eq, option_map, Some, None};
ghost use Rattle.event_file.specs.RouteWords.{composed};
ghost use Rattle.event_file.specs.RouteLine.{address_options, behind_addresses, behind_bits, bit_options, destination_of, gate_if_written, hex_if_written, if_none_left as unless_left, mask_if_written, message_of, metric_options, number_if_written, route_words_of, verb_of};

use crate::numbers::{read_hex, read_inet, read_number, read_prefix};
use crate::route_words::{MetricWords, RouteWords, Verb, put_composed};
use crate::texts::read_gate;
use crate::words::{Options, if_written, is, one_or_two};
use mask_table::Prefix;
use route_core::{Lent, MOST_WRITTEN};
use sock_addrs::{Gate, Inet};

/// What a `route` line asks for.
fn read_verb(word: &[u8]) -> Option<Verb>
    ensures { result ≡ verb_of word.now }
{
    if is(word, "add") {
        return Some(Verb::Add);
    }
    if is(word, "delete") {
        return Some(Verb::Delete);
    }
    if is(word, "change") {
        return Some(Verb::Change);
    }
    if is(word, "get") {
        return Some(Verb::Get);
    }
    if is(word, "lock") {
        return Some(Verb::Lock);
    }
    None
}

/// A destination and its mask, where one is written.
#[derive(Clone, Copy, Debug)]
struct Destination {
    address: Inet,
    mask: Option<Prefix>,
}

/// `A`, `A/P`, or `default`, which is 0.0.0.0/0.
fn read_destination(word: &[u8]) -> Option<Destination>
    ensures { result ≡ destination_of word.now }
{
    if is(word, "default") {
        return Some(Destination {
            address: Inet::new(0),
            mask: Prefix::new(0),
        });
    }
    let (address, bits) = one_or_two(b'/', word)?;
    Some(Destination {
        address: read_inet(address)?,
        mask: mask(bits)?,
    })
}

/// A gateway, where one is written. It is inlined: most lines have one of three, and the others then cost a branch.
#[inline(always)]
fn gate(word: Option<&[u8]>) -> Option<Option<Gate>>
    ensures { result ≡ gate_if_written (option_map (λ w. w.now) word.entry) }
{
    if_written(word, read_gate)
}

/// A mask's length, where one is written.
fn mask(word: Option<&[u8]>) -> Option<Option<Prefix>>
    ensures { result ≡ mask_if_written (option_map (λ w. w.now) word.entry) }
{
    if_written(word, read_prefix)
}

/// A number, where one is written.
fn number(word: Option<&[u8]>) -> Option<Option<u32>>
    ensures { result ≡ number_if_written (option_map (λ w. w.now) word.entry) }
{
    if_written(word, |digits| read_number(u32::MAX, digits))
}

/// A number in hexadecimal, and 0 where none is written.
fn hex(word: Option<&[u8]>) -> Option<u32>
    ensures { result ≡ hex_if_written (option_map (λ w. w.now) word.entry) }
{
    match word {
        Some(word) => read_hex(word),
        None => Some(0),
    }
}

/// The addresses among the options.
#[derive(Clone, Copy, Debug)]
struct AddressOptions {
    gateway: Option<Gate>,
    genmask: Option<Prefix>,
    ifp: Option<Gate>,
    ifa: Option<Gate>,
}

/// Reads the addresses among the options, which stand first.
fn read_addresses(options: &mut Options) -> Option<AddressOptions>
    ensures options { result ≡ address_options (map (λ w. w.now) options.old.words.now) }
    ensures rest { map (λ w. w.now) options.new.words.now
        ≡ behind_addresses (map (λ w. w.now) options.old.words.now) }
{
    if options.words.is_empty() {
        return Some(AddressOptions {
            gateway: None,
            genmask: None,
            ifp: None,
            ifa: None,
        });
    }
    let via = options.word("via");
    let genmask = options.word("genmask");
    let ifp = options.word("ifp");
    let ifa = options.word("ifa");
    Some(AddressOptions {
        gateway: gate(via)?,
        genmask: mask(genmask)?,
        ifp: gate(ifp)?,
        ifa: gate(ifa)?,
    })
}

/// The options that are words of bits.
#[derive(Clone, Copy, Debug)]
struct BitOptions {
    flags: u32,
    inits: u32,
    locks: u32,
}

// These two are inlined: most lines have few options, and what is read where none is left is known then.

/// Reads the options that are words of bits, which stand behind the addresses.
#[inline(always)]
fn read_bits(options: &mut Options) -> Option<BitOptions>
    ensures options { result ≡ bit_options (map (λ w. w.now) options.old.words.now) }
    ensures rest { map (λ w. w.now) options.new.words.now
        ≡ behind_bits (map (λ w. w.now) options.old.words.now) }
{
    if options.words.is_empty() {
        return Some(BitOptions {
            flags: 0,
            inits: 0,
            locks: 0,
        });
    }
    let flags = options.word("flags");
    let inits = options.word("inits");
    let locks = options.word("locks");
    Some(BitOptions {
        flags: hex(flags)?,
        inits: hex(inits)?,
        locks: hex(locks)?,
    })
}

/// Reads the metrics, which stand behind the words of bits and are the last.
#[inline(always)]
fn read_metrics(options: Options) -> Option<MetricWords>
    ensures { result ≡ metric_options (map (λ w. w.now) options.entry.words.now) }
{
    if options.words.is_empty() {
        return Some(MetricWords::default());
    }
    read_some_metrics(options)
}

/// Reads the metrics of a line that has some. It is not inlined: what it makes would else be cleared for each other
/// line.
#[inline(never)]
fn read_some_metrics(mut options: Options) -> Option<MetricWords>
    ensures { result ≡ metric_options (map (λ w. w.now) options.entry.words.now) }
{
    let mtu = options.word("mtu");
    let hopcount = options.word("hopcount");
    let expire = options.word("expire");
    let recvpipe = options.word("recvpipe");
    let sendpipe = options.word("sendpipe");
    let ssthresh = options.word("ssthresh");
    let rtt = options.word("rtt");
    let rttvar = options.word("rttvar");
    let metrics = MetricWords {
        mtu: number(mtu)?,
        hopcount: number(hopcount)?,
        expire: number(expire)?,
        recvpipe: number(recvpipe)?,
        sendpipe: number(sendpipe)?,
        ssthresh: number(ssthresh)?,
        rtt: number(rtt)?,
        rttvar: number(rttvar)?,
    };
    if_none_left(options.words, metrics)
}

/// These metrics, where no word is left.
fn if_none_left(words: &[&[u8]], metrics: MetricWords) -> Option<MetricWords>
    ensures { result ≡ unless_left (map (λ w. w.now) words.now) metrics }
{
    if !words.is_empty() {
        return None;
    }
    Some(metrics)
}

/// The words behind `route ID`: a number, a verb, a destination, and options.
fn read_route_words(words: &[&[u8]]) -> Option<RouteWords>
    ensures { result ≡ route_words_of (map (λ w. w.now) words.now) }
{
    let [seq, verb, to, words @ ..] = words else {
        return None;
    };
    let seq = read_number(u32::MAX, seq)?;
    let verb = read_verb(verb)?;
    let to = read_destination(to)?;
    let mut options = Options { words };
    let addresses = read_addresses(&mut options)?;
    let bits = read_bits(&mut options)?;
    let metrics = read_metrics(options)?;
    Some(RouteWords {
        seq,
        verb,
        destination: to.address,
        netmask: to.mask,
        gateway: addresses.gateway,
        genmask: addresses.genmask,
        ifp: addresses.ifp,
        ifa: addresses.ifa,
        flags: bits.flags,
        inits: bits.inits,
        locks: bits.locks,
        metrics,
    })
}

/// Puts the message that these words compose into the front of `room`.
fn lend_composed<'a>(words: &RouteWords, room: &'a mut [u8]) -> Option<Lent<'a>>
    requires { length room.old ≡ MOST_WRITTEN }
    ensures { result ≡ Some (composed words.now) }
{
    let size = put_composed(words, room);
    Lent::new(&room[..size])
}

/// The message that the words behind `route ID` compose, put into the front of `room`.
pub(crate) fn read_composed<'a>(words: &[&[u8]], room: &'a mut [u8]) -> Option<Lent<'a>>
    requires { length room.old ≡ MOST_WRITTEN }
    ensures { result ≡ message_of (map (λ w. w.now) words.now) }
{
    match read_route_words(words) {
        Some(route_words) => lend_composed(&route_words, room),
        None => None,
    }
}
