//! What is in a world as C sees it, and the functions over a handle that tell it, one after another. None of them
//! changes a world or its last answer, or wants memory.
ghost use Rattle.std.specs.Prelude.{◌≡◌, unwrap_or};
ghost use Rattle.sock_addrs.specs.Padded.{padded_to};
ghost use Rattle.sock_addrs.specs.declared.errno.Errno.TheVariants.{EBADF, ENXIO, ESRCH};
ghost use Rattle.hoiskend.specs.Sessions.{Calls, Looks};
ghost use Rattle.hoiskend.specs.There.{address_code, address_of, address_seen, code_by, entry_code, entry_of, entry_told, interface_of, interface_seen, kind_number as number_of_kind, next_of, no_address as why_no_address, seen_by, socket_of, socket_seen};

use crate::Handle;
use crate::route::{Route, number_of};
use if_addrs::{AddressTold, InterfaceTold, Kind, LinkAddress};
use listeners::SocketTold;
use mask_table::Rank;
use route_core::RouteTold;
use route_msgs::flags::RTF_BLACKHOLE;
use sock_addrs::{Errno, Inet, Name};

/// The cells of a name or an id: one more than it has bytes at most, so that a zero ends it.
pub const NAME_BYTES: usize = 9;
/// The most bytes of an interface's link-layer address.
pub const LINK_ADDRESS_BYTES: usize = 8;

/// An interface.
#[repr(C)]
#[derive(Clone, Copy)]
pub struct Interface {
    /// Its number.
    pub index: u16,
    /// What it is: 0 broadcast, 1 loopback, 2 point-to-point.
    pub kind: u8,
    /// The number of its type.
    pub type_number: u8,
    /// How many bytes its name has.
    pub name_n: u8,
    /// How many bytes its link-layer address has.
    pub link_n: u8,
    /// Its name, with zeros behind it.
    pub name: [u8; NAME_BYTES],
    /// Its link-layer address, with zeros behind it.
    pub link: [u8; LINK_ADDRESS_BYTES],
}

/// An IPv4 address of an interface.
#[repr(C)]
#[derive(Clone, Copy)]
pub struct InterfaceAddress {
    /// The address itself.
    pub address: u32,
    /// The broadcast address of its network on a broadcast interface, the address itself on loopback, and the other
    /// end's on a point-to-point interface.
    pub far: u32,
    /// How many bits its network has.
    pub prefix: u8,
    /// 1 where its route clones, or else 0.
    pub cloning: u8,
    /// 1 where its route was added, or else 0.
    pub routed: u8,
}

/// An open socket.
#[repr(C)]
#[derive(Clone, Copy)]
pub struct Socket {
    /// How many messages it has lost.
    pub lost: u64,
    /// How many bytes the messages have that wait for it.
    pub waiting: usize,
    /// The process that opened it.
    pub pid: u32,
    /// The family that it hears, or 0 for all.
    pub protocol: u8,
    /// 1 where it hears the replies to its own writes, or else 0.
    pub loopback: u8,
    /// How many bytes its id has.
    pub id_n: u8,
    /// Its id, with zeros behind it.
    pub id: [u8; NAME_BYTES],
}

/// A route of the table.
#[repr(C)]
#[derive(Clone, Copy)]
pub struct Entry {
    /// What a packet that takes it is told.
    pub route: Route,
    /// How many packets took it; it wraps.
    pub use_count: u32,
    /// The metrics that are locked.
    pub locks: u32,
    pub mtu: u32,
    pub hopcount: u32,
    pub expire: u32,
    pub recvpipe: u32,
    pub sendpipe: u32,
    pub ssthresh: u32,
    pub rtt: u32,
    pub rttvar: u32,
    pub pksent: u32,
    /// The bits of the mask of its clones, or 33 where it has none.
    pub genmask: u8,
}

impl Interface {
    /// The interface with this number.
    fn of(index: u16, told: &InterfaceTold) -> Interface
        ensures { result ≡ interface_of index told.now }
    {
        Interface {
            index,
            kind: kind_number(told.kind),
            type_number: told.type_number,
            name_n: told.name.as_bytes().len() as u8,
            link_n: told.link.as_slice().len() as u8,
            name: cells_of_name(told.name),
            link: cells_of_link(told.link),
        }
    }
}

impl InterfaceAddress {
    fn of(told: &AddressTold) -> InterfaceAddress
        ensures { result ≡ address_of told.now }
    {
        InterfaceAddress {
            address: told.address.number(),
            far: told.facts.far.number(),
            prefix: told.facts.prefix.bits(),
            cloning: number_of(told.facts.cloning),
            routed: number_of(told.facts.routed),
        }
    }
}

impl Socket {
    fn of(told: &SocketTold) -> Socket
        ensures { result ≡ socket_of told.now }
    {
        Socket {
            lost: told.lost,
            waiting: told.waiting,
            pid: told.pid,
            protocol: told.protocol,
            loopback: number_of(told.loopback),
            id_n: told.id.as_bytes().len() as u8,
            id: cells_of_name(told.id),
        }
    }
}

impl Entry {
    fn of(told: &RouteTold) -> Entry
        ensures { result ≡ entry_of told.now }
    {
        let drops = told.choice.flags & RTF_BLACKHOLE != 0;
        Entry {
            route: Route::of(&told.choice, drops),
            use_count: told.use_count,
            locks: told.metrics.locks,
            mtu: told.metrics.mtu,
            hopcount: told.metrics.hopcount,
            expire: told.metrics.expire,
            recvpipe: told.metrics.recvpipe,
            sendpipe: told.metrics.sendpipe,
            ssthresh: told.metrics.ssthresh,
            rtt: told.metrics.rtt,
            rttvar: told.metrics.rttvar,
            pksent: told.metrics.pksent,
            genmask: Rank::of_mask(told.genmask).number(),
        }
    }
}

/// The number of a kind: 0 broadcast, 1 loopback, 2 point-to-point.
fn kind_number(kind: Kind) -> u8
    ensures { result ≡ number_of_kind kind }
{
    match kind {
        Kind::Broadcast => 0,
        Kind::Loopback => 1,
        Kind::PointToPoint => 2,
    }
}

/// Why an interface has no address: it isn't there, or it has none.
fn no_address(interface: Option<InterfaceTold>) -> Errno
    ensures { result ≡ why_no_address interface }
{
    match interface {
        Some(_) => Errno::EADDRNOTAVAIL,
        None => Errno::ENXIO,
    }
}

/// A name or an id, with zeros behind it.
fn cells_of_name(name: Name) -> [u8; NAME_BYTES]
    ensures { result ≡ padded_to NAME_BYTES name }
{
    let bytes = name.as_bytes();
    let mut cells = [0; NAME_BYTES];
    cells[..bytes.len()].copy_from_slice(bytes);
    cells
}

/// A link-layer address, with zeros behind it.
fn cells_of_link(link: LinkAddress) -> [u8; LINK_ADDRESS_BYTES]
    ensures { result ≡ padded_to LINK_ADDRESS_BYTES link }
{
    let bytes = link.as_slice();
    let mut cells = [0; LINK_ADDRESS_BYTES];
    cells[..bytes.len()].copy_from_slice(bytes);
    cells
}

/// Puts the interface with this number into `interface`. ENXIO: none has it, and `interface` stays.
#[unsafe(no_mangle)]
#[tactic(auto, unfolding(crate::specs::Sessions::Calls))]
pub extern "C" fn hk_interface_of(world: &mut Handle, index: u16, interface: &mut Interface) -> u32
    ensures looks { Calls world.old.session Looks result world.new.session }
    ensures kept { world.new.session ≡ world.old.session }
    ensures code { result ≡ code_by (interface_seen index) ENXIO world.old.session }
    ensures interface { interface.new ≡ unwrap_or (seen_by (interface_seen index) world.old.session) interface.old }
{
    if !world.is_open() {
        return Errno::EINVAL.number();
    }
    let Some(told) = world.lend().session.interface(index) else {
        return Errno::ENXIO.number();
    };
    *interface = Interface::of(index, &told);
    0
}

/// Puts the first address, from this place on, of the interface with this number into `address`, and the place behind
/// it into `place`. ENXIO: there is no such interface; EADDRNOTAVAIL: it has no address from there on; both stay.
#[unsafe(no_mangle)]
#[tactic(auto, unfolding(crate::specs::Sessions::Calls))]
pub extern "C" fn hk_next_address(
    world: &mut Handle,
    index: u16,
    place: &mut usize,
    address: &mut InterfaceAddress,
) -> u32
    ensures looks { Calls world.old.session Looks result world.new.session }
    ensures kept { world.new.session ≡ world.old.session }
    ensures code { result ≡ address_code index place.old world.old.session }
    ensures address { address.new ≡ unwrap_or (seen_by (address_seen index place.old) world.old.session) address.old }
    ensures place { place.new ≡ unwrap_or (seen_by (next_of index place.old) world.old.session) place.old }
{
    if !world.is_open() {
        return Errno::EINVAL.number();
    }
    let held = world.lend();
    let Some(told) = held.session.next_address(index, *place) else {
        return no_address(held.session.interface(index)).number();
    };
    *address = InterfaceAddress::of(&told);
    *place = told.next;
    0
}

/// Puts the socket at this place into `socket`. EBADF: there are not so many, and `socket` stays.
#[unsafe(no_mangle)]
#[tactic(auto, unfolding(crate::specs::Sessions::Calls))]
pub extern "C" fn hk_socket_at(world: &mut Handle, place: usize, socket: &mut Socket) -> u32
    ensures looks { Calls world.old.session Looks result world.new.session }
    ensures kept { world.new.session ≡ world.old.session }
    ensures code { result ≡ code_by (socket_seen place) EBADF world.old.session }
    ensures socket { socket.new ≡ unwrap_or (seen_by (socket_seen place) world.old.session) socket.old }
{
    if !world.is_open() {
        return Errno::EINVAL.number();
    }
    let Some(told) = world.lend().session.socket(place) else {
        return Errno::EBADF.number();
    };
    *socket = Socket::of(&told);
    0
}

/// Puts the route with this key and rank into `entry`. EINVAL: a rank of more than 33; ESRCH: there is no such route;
/// `entry` stays.
#[unsafe(no_mangle)]
#[tactic(auto, unfolding(crate::specs::Sessions::Calls))]
pub extern "C" fn hk_route_of(world: &mut Handle, key: u32, rank: u8, entry: &mut Entry) -> u32
    ensures looks { Calls world.old.session Looks result world.new.session }
    ensures kept { world.new.session ≡ world.old.session }
    ensures code { result ≡ entry_code key rank world.old.session }
    ensures entry { entry.new ≡ unwrap_or (entry_told key rank world.old.session) entry.old }
{
    if !world.is_open() || rank > Rank::host().number() {
        return Errno::EINVAL.number();
    }
    let Some(told) = world.lend().session.route(Inet::new(key), Rank::new(rank)) else {
        return Errno::ESRCH.number();
    };
    *entry = Entry::of(&told);
    0
}
