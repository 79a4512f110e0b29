//! The day of a routing daemon: it adds a table of routes, and then asks, changes, deletes and adds as its neighbours
//! tell, by messages that it writes; another process hears all.
use crate::chance::Chance;
use crate::lines::Lines;
use crate::machine::Fault;
use crate::networks::{Network, take_one};
use crate::work::Work;
use route_msgs::bits::{RTA_DST, RTA_GATEWAY, RTA_NETMASK};
use route_msgs::kinds::{RTM_ADD, RTM_CHANGE, RTM_DELETE, RTM_GET};

/// An interface with the network of the gateways; a socket of the daemon, which doesn't hear itself, and one of a
/// process that hears it.
const HEAD: &str =
    "if le0 broadcast 6 080020010203\naddr le0 10.0.0.1/8\nopen d 100 any\nopen m 200 2\nloopback d off\n";

/// How many messages are heard before they are read: few enough for a queue.
const HEARD: u32 = 32;

/// The flags of the routes: UP, GATEWAY and STATIC.
const FLAGS: u32 = 0x803;

/// Adds so many routes, and then makes as many requests about them.
pub(crate) fn run(work: &mut Work, count: u32) -> Result<(), Fault> {
    add_routes(work, count)?;
    work.machine.lines.text("loopback d on\n");
    let mut gone = Vec::new(work.alloc);
    for number in 0..count {
        put_request(work, number, &mut gone)?;
        if number % HEARD == 0 {
            work.machine.lines.text("read m\nread d\n");
        }
        work.machine.answer_many()?;
    }
    work.machine.answer_all()
}

/// Adds routes to so many networks by chance.
pub(crate) fn add_routes(work: &mut Work, count: u32) -> Result<(), Fault> {
    work.machine.lines.text(HEAD);
    for number in 0..count {
        let network = Network::draw(&mut work.chance);
        work.keep(network)?;
        put_add(&mut work.machine.lines, number, network, &mut work.chance);
        if number % HEARD == 0 {
            work.machine.lines.text("read m\n");
        }
        work.machine.answer_many()?;
    }
    Ok(())
}

/// A gateway by chance, one of sixteen.
fn draw_gateway(chance: &mut Chance) -> u32 {
    0x0a00_0002 + chance.word() % 16
}

/// Puts the line that adds a route to a network.
pub(crate) fn put_add(lines: &mut Lines, number: u32, network: Network, chance: &mut Chance) {
    lines.text("route d ");
    lines.number(number);
    lines.text(" add ");
    network.put(lines);
    lines.text(" via ");
    lines.address(draw_gateway(chance));
    lines.text(" flags 803\n");
}

/// Puts the line that writes a request about one of the networks by chance: of ten five ask, three change the gateway,
/// one deletes the route, and one adds again one that is gone.
fn put_request(work: &mut Work, number: u32, gone: &mut Vec<Network>) -> Result<(), Fault> {
    let kind = draw_kind(&mut work.chance);
    let drawn = match kind {
        RTM_ADD => take_one(gone, &mut work.chance),
        RTM_DELETE => take_one(&mut work.networks, &mut work.chance),
        _ => work.draw_network(),
    };
    let Some(network) = drawn else {
        return Ok(());
    };
    put_write(
        &mut work.machine.lines,
        kind,
        number,
        network,
        &mut work.chance,
    );
    match kind {
        RTM_ADD => work.keep(network)?,
        RTM_DELETE => gone.push(network)?,
        _ => {}
    }
    Ok(())
}

/// The type of a request by chance.
fn draw_kind(chance: &mut Chance) -> u8 {
    match chance.below(10) {
        0 => RTM_ADD,
        1 => RTM_DELETE,
        2..=4 => RTM_CHANGE,
        _ => RTM_GET,
    }
}

/// The addresses of a request of this type, and its length.
fn addresses_of(kind: u8) -> (u32, u32) {
    match kind {
        RTM_GET => (RTA_DST, 92),
        RTM_DELETE => (RTA_DST | RTA_NETMASK, 100),
        _ => (RTA_DST | RTA_GATEWAY | RTA_NETMASK, 116),
    }
}

/// Puts the line that writes a request of this type: a GET asks for an address of the network, any other names the
/// network itself.
fn put_write(lines: &mut Lines, kind: u8, number: u32, network: Network, chance: &mut Chance) {
    let (addrs, size) = addresses_of(kind);
    lines.text("write d ");
    lines.hex(size << 16 | 0x300 | u32::from(kind));
    lines.text("00000000");
    lines.hex(FLAGS);
    lines.hex(addrs);
    lines.text("00000000");
    lines.hex(number);
    for _word in 0..13 {
        lines.text("00000000");
    }
    let asked = if kind == RTM_GET {
        network.host(chance)
    } else {
        network.address
    };
    put_inet(lines, asked);
    if addrs & RTA_GATEWAY != 0 {
        put_inet(lines, draw_gateway(chance));
    }
    if addrs & RTA_NETMASK != 0 {
        put_mask(lines, network);
    }
    lines.text("\n");
}

/// Puts the sockaddr of an address.
fn put_inet(lines: &mut Lines, address: u32) {
    lines.text("10020000");
    lines.hex(address);
    lines.text("0000000000000000");
}

/// Puts the sockaddr of a network's mask, whose first byte is the number of its bytes.
fn put_mask(lines: &mut Lines, network: Network) {
    lines.hex(4 + u32::from(network.bits).div_ceil(8) << 24);
    lines.hex(network.mask());
}
