ghost use Rattle.std.specs.Prelude.{◌≡◌};

use crate::{Lent, Written};
use if_addrs::{Kind, LinkAddress};
use mask_table::Prefix;
use route_ops::NewGateway;
use sock_addrs::{Inet, Name};

/// One command of a script. The bytes of a write are its own; those of a `Said` lie elsewhere, so that it is small.
#[derive(Debug, Drop)]
pub enum Command<B = Written> {
    /// Attach an interface of this kind, with this type number and link-layer address: `if NAME KIND T HEX`.
    Attach {
        name: Name,
        kind: Kind,
        type_number: u8,
        link: LinkAddress,
    },
    /// Give an interface an address, on a point-to-point interface with the address of the other end, whose route
    /// clones where asked: `addr NAME A/P`, `addr NAME A/P to A`; either may end with ` cloning`.
    AddAddress {
        name: Name,
        address: Inet,
        prefix: Prefix,
        cloning: bool,
        far: Option<Inet>,
    },
    /// Remove an address of an interface: `unaddr NAME A`.
    RemoveAddress {
        name: Name,
        address: Inet,
    },
    /// Open a socket for a process and a protocol, 0 for any: `open ID PID any`, `open ID PID N`.
    Open {
        id: Name,
        pid: u32,
        protocol: u8,
    },
    /// Close a socket, whose queue goes with it: `close ID`.
    Close {
        id: Name,
    },
    /// Whether a socket hears the replies to its own writes: `loopback ID on`, `loopback ID off`.
    Loopback {
        id: Name,
        on: bool,
    },
    /// Write these bytes to a socket: `write ID HEX`, and `route ID SEQ VERB DEST OPTION..` with the message of its
    /// words.
    Write {
        id: Name,
        bytes: B,
    },
    /// Take a socket's messages: `read ID`.
    Read {
        id: Name,
    },
    /// How many messages a socket has lost: `lost ID`.
    Lost {
        id: Name,
    },
    /// Find the route of a packet to this destination: `packet A`.
    Packet {
        destination: Inet,
    },
    /// Follow a redirect: `redirect A A A`, which are its destination, its gateway and its author.
    Redirect(NewGateway),
    /// Doubt the route of this destination, as TCP does of a route that seems dead: `losing A`.
    Losing {
        destination: Inet,
    },
    /// How many bytes to ask for a dump of all routes, or of those with a flag of the filter: `dump ask`, `flags X
    /// ask`.
    DumpSize {
        filter: Option<u32>,
    },
    /// Dump all routes, or those with a flag of the filter, into so many bytes: `dump N`, `flags X N`.
    Dump {
        filter: Option<u32>,
        room: u32,
    },
}

/// A command whose bytes lie elsewhere.
pub type Said<'a> = Command<Lent<'a>>;

/// The command behind this reference, with other bytes in the place of those of a write.
macro_rules! with_bytes {
    ($command:expr, $bytes:ident => $others:expr) => {
        match $command {
            Command::Attach { name, kind, type_number, link } => {
                Command::Attach { name: *name, kind: *kind, type_number: *type_number, link: *link }
            }
            Command::AddAddress { name, address, prefix, cloning, far } => {
                Command::AddAddress { name: *name, address: *address, prefix: *prefix, cloning: *cloning, far: *far }
            }
            Command::RemoveAddress { name, address } => Command::RemoveAddress { name: *name, address: *address },
            Command::Open { id, pid, protocol } => Command::Open { id: *id, pid: *pid, protocol: *protocol },
            Command::Close { id } => Command::Close { id: *id },
            Command::Loopback { id, on } => Command::Loopback { id: *id, on: *on },
            Command::Write { id, bytes: $bytes } => Command::Write { id: *id, bytes: $others },
            Command::Read { id } => Command::Read { id: *id },
            Command::Lost { id } => Command::Lost { id: *id },
            Command::Packet { destination } => Command::Packet { destination: *destination },
            Command::Redirect(asked) => Command::Redirect(*asked),
            Command::Losing { destination } => Command::Losing { destination: *destination },
            Command::DumpSize { filter } => Command::DumpSize { filter: *filter },
            Command::Dump { filter, room } => Command::Dump { filter: *filter, room: *room },
        }
    };
}

impl Command<Written> {
    /// The command with its bytes lent.
    pub fn said(&self) -> Said<'_>
        ensures { result ≡ self.now }
    {
        with_bytes!(self, bytes => bytes.lent())
    }
}

impl<'a> Command<Lent<'a>> {
    /// The command with bytes of its own.
    pub fn command(self) -> Command
        ensures { result ≡ self.entry }
    {
        with_bytes!(&self, bytes => bytes.written())
    }
}
