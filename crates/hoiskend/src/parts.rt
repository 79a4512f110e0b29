//! A message taken apart: functions that the library exports beside those over a handle, since they have no world.
ghost use Rattle.std.specs.Prelude.{◌≡◌, ◌<◌, Some, length, unwrap_or};
ghost use Rattle.message_text.specs.Parts.{fault_in};
ghost use Rattle.sock_addrs.specs.Reading.{read_gate_of, read_mask_of};
ghost use Rattle.hoiskend.specs.Parts.{address_code, address_of, address_told, bits_of, code_of as code_of_fault, form_at, form_by, form_by_gate, form_by_mask, header_told, inet_of, is_mask as is_mask_bit, number_of, of_address, of_either, of_route};

use crate::codes::{ABSENT, LENGTH, OVERRUN, VERSION};
use message_text::{MessageHeader, address_of as sockaddr_of, fault_of, header_of};
use route_msgs::bits::{RTA_GENMASK, RTA_NETMASK};
use route_msgs::{Header as RouteHeader, IfaHeader, MsgErr};
use sock_addrs::{Gate, family_of, read_gate, read_mask};

/// The form of an address that is none of the others.
pub const BYTES_FORM: u8 = 0;
/// The form of an IPv4 address.
pub const INET_FORM: u8 = 1;
/// The form of a mask.
pub const MASK_FORM: u8 = 2;
/// The form of a link-layer address.
pub const LINK_FORM: u8 = 3;

/// The fields of a message's header. Those that it hasn't are 0.
#[repr(C)]
#[derive(Clone, Copy)]
pub struct Header {
    /// The flags of its route, or of its interface's address.
    pub flags: u32,
    /// Which addresses it names.
    pub addrs: u32,
    /// The process that wrote it.
    pub pid: u32,
    /// The number by which its writer knows it.
    pub seq: u32,
    /// Why it was refused, or 0.
    pub error: u32,
    /// How often its route was used.
    pub use_count: u32,
    /// Which metrics it sets.
    pub inits: u32,
    /// Which metrics are locked.
    pub locks: u32,
    pub mtu: u32,
    pub hopcount: u32,
    pub expire: u32,
    pub recvpipe: u32,
    pub sendpipe: u32,
    pub ssthresh: u32,
    pub rtt: u32,
    pub rttvar: u32,
    pub pksent: u32,
    /// The metric of an interface's address.
    pub metric: u32,
    /// The number of its interface.
    pub index: u16,
    /// Its type.
    pub kind: u8,
}

/// An address as it stands in a message.
#[repr(C)]
#[derive(Clone, Copy)]
pub struct Address {
    /// Where its bytes begin in the message.
    pub at: usize,
    /// Its number, where it is an IPv4 address, or else 0.
    pub inet: u32,
    /// How many bytes it has, without padding.
    pub n: u8,
    /// What it is read as.
    pub form: u8,
    /// How many bits it has, where it is a mask, or else 0.
    pub bits: u8,
    /// Its family, or 0 where it has none.
    pub family: u8,
}

impl Header {
    /// What is told of a header.
    fn of(header: &MessageHeader) -> Header
        ensures { result ≡ of_either header.now }
    {
        match header {
            MessageHeader::OfRoute(header) => Header::of_route(header),
            MessageHeader::OfAddress(header) => Header::of_address(header),
        }
    }

    fn of_route(header: &RouteHeader) -> Header
        ensures { result ≡ of_route header.now }
    {
        Header {
            flags: header.flags,
            addrs: header.addrs,
            pid: header.pid,
            seq: header.seq,
            error: header.errno,
            use_count: header.use_count,
            inits: header.inits,
            locks: header.metrics.locks,
            mtu: header.metrics.mtu,
            hopcount: header.metrics.hopcount,
            expire: header.metrics.expire,
            recvpipe: header.metrics.recvpipe,
            sendpipe: header.metrics.sendpipe,
            ssthresh: header.metrics.ssthresh,
            rtt: header.metrics.rtt,
            rttvar: header.metrics.rttvar,
            pksent: header.metrics.pksent,
            metric: 0,
            index: header.index,
            kind: header.kind,
        }
    }

    fn of_address(header: &IfaHeader) -> Header
        ensures { result ≡ of_address header.now }
    {
        Header {
            flags: header.flags,
            addrs: header.addrs,
            pid: 0,
            seq: 0,
            error: 0,
            use_count: 0,
            inits: 0,
            locks: 0,
            mtu: 0,
            hopcount: 0,
            expire: 0,
            recvpipe: 0,
            sendpipe: 0,
            ssthresh: 0,
            rtt: 0,
            rttvar: 0,
            pksent: 0,
            metric: header.metric,
            index: header.index,
            kind: header.kind,
        }
    }
}

/// What an address is read as.
#[derive(Drop)]
enum Form {
    /// The IPv4 address of this number.
    AsInet(u32),
    /// The mask of so many bits.
    AsMask(u8),
    AsLink,
    AsBytes,
}

impl Form {
    /// What the bytes of an address of this bit are read as.
    fn of(bit: u32, sockaddr: &[u8]) -> Form
        ensures { result ≡ form_at bit sockaddr.now }
    {
        if is_mask(bit) {
            Form::of_mask(sockaddr)
        } else {
            Form::of_gate(sockaddr)
        }
    }

    /// A mask, where they are one.
    fn of_mask(sockaddr: &[u8]) -> Form
        ensures { result ≡ form_by_mask (read_mask_of sockaddr.now) sockaddr.now }
    {
        match read_mask(sockaddr) {
            Ok(bits) => Form::AsMask(bits),
            Err(_) => Form::of_gate(sockaddr),
        }
    }

    fn of_gate(sockaddr: &[u8]) -> Form
        ensures { result ≡ form_by_gate (read_gate_of sockaddr.now) }
    {
        match read_gate(sockaddr) {
            Ok(gate) => Form::by(gate),
            Err(_) => Form::AsBytes,
        }
    }

    fn by(gate: Gate) -> Form
        ensures { result ≡ form_by gate }
    {
        match gate {
            Gate::Inet(address) => Form::AsInet(address.number()),
            Gate::Link(_) => Form::AsLink,
        }
    }

    fn inet(&self) -> u32
        ensures { result ≡ inet_of self.now }
    {
        match self {
            Form::AsInet(address) => *address,
            _ => 0,
        }
    }

    fn bits(&self) -> u8
        ensures { result ≡ bits_of self.now }
    {
        match self {
            Form::AsMask(bits) => *bits,
            _ => 0,
        }
    }

    fn number(&self) -> u8
        ensures { result ≡ number_of self.now }
    {
        match self {
            Form::AsInet(_) => INET_FORM,
            Form::AsMask(_) => MASK_FORM,
            Form::AsLink => LINK_FORM,
            Form::AsBytes => BYTES_FORM,
        }
    }
}

impl Address {
    /// What is told of the address of this bit that begins there.
    fn of(bit: u32, at: usize, sockaddr: &[u8]) -> Address
        requires { length sockaddr.now < 256 }
        ensures { result ≡ address_of bit (record { start = at; bytes = sockaddr.now }) }
    {
        let form = Form::of(bit, sockaddr);
        Address {
            at,
            inet: form.inet(),
            n: sockaddr.len() as u8,
            form: form.number(),
            bits: form.bits(),
            family: family_of(sockaddr),
        }
    }
}

/// Whether an address of this bit is a mask.
fn is_mask(bit: u32) -> bool
    ensures { result ≡ is_mask_bit bit }
{
    bit == RTA_NETMASK || bit == RTA_GENMASK
}

/// The code of a fault.
fn fault_code(fault: &MsgErr) -> u32
    ensures { result ≡ code_of_fault (Some fault.now) }
{
    match fault {
        MsgErr::Length => LENGTH,
        MsgErr::Version => VERSION,
        MsgErr::Overrun => OVERRUN,
    }
}

/// Puts the fields of a message's header into `header`. The code of a fault: the length is wrong, and `header` stays;
/// another version than 3, or an address passes the end, and it has the fields all the same.
#[unsafe(no_mangle)]
pub extern "C" fn hk_message_header(message: &[u8], header: &mut Header) -> u32
    ensures code { result ≡ code_of_fault (fault_in message.now) }
    ensures header { header.new ≡ unwrap_or (header_told message.now) header.old }
{
    if let Some(found) = header_of(message) {
        *header = Header::of(&found);
    }
    match fault_of(message) {
        Some(fault) => fault_code(&fault),
        None => 0,
    }
}

/// Puts the address of this bit, as it stands in a message, into `address`. The code of a fault; `ABSENT`: it isn't
/// there; `address` stays.
#[unsafe(no_mangle)]
pub extern "C" fn hk_message_address(message: &[u8], bit: u32, address: &mut Address) -> u32
    ensures code { result ≡ address_code bit message.now }
    ensures address { address.new ≡ unwrap_or (address_told bit message.now) address.old }
{
    if let Some(fault) = fault_of(message) {
        return fault_code(&fault);
    }
    match sockaddr_of(bit, message) {
        Some((at, sockaddr)) => {
            *address = Address::of(bit, at, sockaddr);
            0
        }
        None => ABSENT,
    }
}
