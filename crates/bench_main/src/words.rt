//! Messages of every request in words, as `routeshow` and the library show them; some are cut short.
use crate::chance::Chance;
use crate::machine::Fault;
use crate::networks::Network;
use crate::work::Work;
use event_file::{MetricWords, RouteWords, Verb, compose};
use mask_table::Prefix;
use message_text::text_of;
use route_msgs::{Message, set_errno, set_pid};
use sock_addrs::{Gate, Inet, Link, Name};

/// One message of so many is cut short.
const CUT: u32 = 32;

/// Shows so many messages.
pub(crate) fn run(work: &mut Work, count: u32) -> Result<(), Fault> {
    for number in 0..count {
        let message = draw_message(number, &mut work.chance);
        let most = if work.chance.below(CUT) == 0 { 80 } else { 256 };
        show(work, &message[..message.len().min(most)])?;
    }
    Ok(())
}

/// Shows a message.
fn show(work: &mut Work, message: &[u8]) -> Result<(), Fault> {
    let text = text_of(work.alloc, message)?;
    work.machine.write(&text)
}

/// A reply to a request by chance.
fn draw_message(number: u32, chance: &mut Chance) -> Message {
    let network = Network::draw(chance);
    let verb = match chance.below(5) {
        0 => Verb::Add,
        1 => Verb::Delete,
        2 => Verb::Change,
        3 => Verb::Lock,
        _ => Verb::Get,
    };
    let mut message = compose(&RouteWords {
        seq: number,
        verb,
        destination: Inet::new(network.address),
        netmask: Prefix::new(network.bits),
        gateway: Some(draw_gateway(chance)),
        genmask: draw_prefix(chance),
        ifp: None,
        ifa: Some(Gate::Inet(Inet::new(0x0a00_0001))),
        flags: chance.word() & 0xffff,
        inits: 0,
        locks: chance.below(4),
        metrics: draw_metrics(chance),
    });
    set_pid(&mut message, chance.word() & 0xffff);
    if chance.below(8) == 0 {
        set_errno(&mut message, 17);
    }
    message
}

/// An address, or a link-layer address of an interface.
fn draw_gateway(chance: &mut Chance) -> Gate {
    if chance.below(4) > 0 {
        return Gate::Inet(Inet::new(0x0a00_0002 + chance.below(16)));
    }
    match Name::new(b"le0") {
        Some(name) => Gate::Link(Link::of_interface(1, 6, name, &chance.word().to_be_bytes())),
        None => Gate::Inet(Inet::new(0)),
    }
}

/// A mask, in one of four messages.
fn draw_prefix(chance: &mut Chance) -> Option<Prefix> {
    if chance.below(4) > 0 {
        return None;
    }
    Prefix::new(32)
}

/// Metrics, in half of the messages.
fn draw_metrics(chance: &mut Chance) -> MetricWords {
    if chance.below(2) == 0 {
        return MetricWords::default();
    }
    MetricWords {
        mtu: Some(1500),
        hopcount: Some(chance.below(16)),
        rtt: Some(chance.word()),
        ..MetricWords::default()
    }
}
