ghost use Rattle.std.specs.Prelude.{◌≡◌, ◌≤◌, ◌<◌, true, false, length, MatchResult, IfErr, IfOk};
ghost use Rattle.route_msgs.specs.Layout.{number_at};
ghost use Rattle.route_msgs.specs.Headers.{header_in, metrics_in};
ghost use Rattle.route_msgs.specs.Slots.{IsWithin, ReadsMessage, SlotsAreWithin, has_length as has_length_said, has_room, overruns_at, slot_at as slot_at_place, slots_in};

use crate::fields::{u8_at, u16_at, u32_at};
use crate::kinds::RTM_VERSION;
use crate::places::RTAX_MAX;
use crate::{Header, Metrics, MsgErr, Parsed, Slot};
use sock_addrs::round;

/// Takes a message about a route apart, into the fields of its header and the places of its addresses.
///
/// Refused in this order: `Length` for fewer than 76 bytes or where the message says another length than it has,
/// `Version` for another version than 3, `Overrun` where the length byte of an address counts bytes past the end. An
/// address that would begin at or past the end is not there. Padding behind the last address may be missing, and bytes
/// behind it, and higher bits of addrs, are passed over.
pub fn read_message(message: &[u8]) -> Result<Parsed, MsgErr>
    ensures reads { ReadsMessage message.now result }
    ensures within { IfOk result (λ p. SlotsAreWithin (length message.now) p.slots) }
{
    if !has_length(message) {
        return Err(MsgErr::Length);
    }
    if u8_at(message, 2) != RTM_VERSION {
        return Err(MsgErr::Version);
    }
    let header = read_header(message);
    let slots = read_slots(message, header.addrs)?;
    Ok(Parsed { header, slots })
}

/// Whether there is a whole header, which says the length that the message has.
fn has_length(message: &[u8]) -> bool
    ensures length { result ≡ has_length_said message.now }
    ensures header { result ≡ true → 76 ≤ length message.now }
    ensures most { result ≡ true → length message.now < 65536 }
{
    message.len() >= 76 && usize::from(u16_at(message, 0)) == message.len()
}

/// The header of a message about a route, by whatever version and lengths it says.
pub fn read_header(message: &[u8]) -> Header
    requires { 76 ≤ length message.now }
    ensures { result ≡ header_in message.now }
{
    Header {
        kind: u8_at(message, 3),
        index: u16_at(message, 4),
        padding: u16_at(message, 6),
        flags: u32_at(message, 8),
        addrs: u32_at(message, 12),
        pid: u32_at(message, 16),
        seq: u32_at(message, 20),
        errno: u32_at(message, 24),
        use_count: u32_at(message, 28),
        inits: u32_at(message, 32),
        metrics: read_metrics(message),
    }
}

fn read_metrics(message: &[u8]) -> Metrics
    requires { 76 ≤ length message.now }
    ensures { result ≡ metrics_in message.now }
{
    Metrics {
        locks: u32_at(message, 36),
        mtu: u32_at(message, 40),
        hopcount: u32_at(message, 44),
        expire: u32_at(message, 48),
        recvpipe: u32_at(message, 52),
        sendpipe: u32_at(message, 56),
        ssthresh: u32_at(message, 60),
        rtt: u32_at(message, 64),
        rttvar: u32_at(message, 68),
        pksent: u32_at(message, 72),
    }
}

/// The slots of the addresses that `addrs` names, or `Overrun`.
#[tactic(auto, using(crate::proofs::Offsets::offset_first, crate::proofs::Offsets::no_room))]
fn read_slots(message: &[u8], addrs: u32) -> Result<[Option<Slot>; RTAX_MAX], MsgErr>
    requires header { 76 ≤ length message.now }
    requires most { length message.now < 65536 }
    requires addrs { addrs ≡ number_at 12 4 message.now }
    ensures slots { MatchResult result
        (λ slots. (has_room message.now ≡ true) × (slots ≡ slots_in message.now))
        (λ e. (e ≡ MsgErr.Overrun) × (has_room message.now ≡ false)) }
    ensures within { IfOk result (λ slots. SlotsAreWithin (length message.now) slots) }
{
    let mut slots = [None; RTAX_MAX];
    let mut at = 76;
    for bit in 0..RTAX_MAX {
        let slot = slot_at(message, addrs, bit, at)?;
        if slot.is_some() {
            at += round(message[at]);
        }
        slots[bit] = slot;
    }
    Ok(slots)
}

/// The slot of one address, which would begin at `at`, or `Overrun`.
fn slot_at(message: &[u8], addrs: u32, bit: usize, at: usize) -> Result<Option<Slot>, MsgErr>
    requires bit { bit < RTAX_MAX }
    requires small { at < 65536 }
    requires addrs { addrs ≡ number_at 12 4 message.now }
    ensures slot { IfOk result (λ slot. slot ≡ slot_at_place message.now bit at) }
    ensures fits { IfOk result (λ _. overruns_at message.now bit at ≡ false) }
    ensures overrun { IfErr result (λ e. (e ≡ MsgErr.Overrun) × (overruns_at message.now bit at ≡ true)) }
    ensures within { 76 ≤ at → IfOk result (λ slot. IsWithin (length message.now) slot) }
{
    if addrs >> bit & 1 == 0 || at >= message.len() {
        return Ok(None);
    }
    let len = message[at];
    if at + usize::from(len) > message.len() {
        return Err(MsgErr::Overrun);
    }
    Ok(Some(Slot {
        start: at,
        len: usize::from(len.max(1)),
    }))
}
