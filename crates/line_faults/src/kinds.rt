//! The kinds of words.
ghost use Rattle.std.specs.Prelude.{◌≡◌};
ghost use Rattle.line_faults.specs.Texts.{kind_text};

/// What a word of a line has to be.
#[derive(Clone, Copy, Debug, PartialEq, Eq)]
pub enum WordKind {
    /// The name of an interface.
    InterfaceName,
    /// The id of a socket.
    SocketId,
    /// The kind of an interface.
    InterfaceKind,
    /// The type number of an interface.
    TypeNumber,
    /// The link-layer address of an interface.
    LinkBytes,
    /// An IPv4 address.
    Address,
    /// An IPv4 address and its prefix's length.
    AddressPrefix,
    /// The pid of a socket.
    Pid,
    /// The protocol of a socket.
    Protocol,
    /// `on` or `off`.
    Switch,
    /// The bytes of a write.
    Written,
    /// The sequence number of a request.
    SequenceNumber,
    /// What a request is for.
    RouteVerb,
    /// The destination of a request.
    Destination,
    /// The gateway of a request.
    Gateway,
    /// The length of the mask for clones.
    MaskLength,
    /// The interface, or its address, of a request.
    InterfaceAddress,
    /// A route's flags in hexadecimal, for which people may write their names.
    FlagBits,
    /// Bits in hexadecimal.
    Bits,
    /// A metric.
    Metric,
    /// How many bytes a dump may take, or the wish to know it.
    DumpRoom,
}

impl WordKind {
    /// What it is, for people.
    pub(crate) fn text(self) -> &'static str
        ensures { result.now ≡ kind_text self }
    {
        match self {
            WordKind::InterfaceName => "an interface's name: 1 to 8 of a to z and 0 to 9",
            WordKind::SocketId => "a socket's id: 1 to 8 of a to z and 0 to 9",
            WordKind::InterfaceKind => "one of broadcast, loopback, ptp",
            WordKind::TypeNumber => "the interface's type: a number from 0 to 255",
            WordKind::LinkBytes =>
                "a link-layer address: 1 to 8 bytes in hexadecimal, or - for none",
            WordKind::Address => "an IPv4 address, as 10.0.0.1",
            WordKind::AddressPrefix => "an address and its prefix's length, as 10.0.0.1/8",
            WordKind::Pid => "a process id: a number from 0 to 4294967295",
            WordKind::Protocol =>
                "a protocol: any, or an address family's number from 1 to 255, as 2 for IPv4",
            WordKind::Switch => "on or off",
            WordKind::Written => "a message: at most 8246 bytes in hexadecimal, or - for none",
            WordKind::SequenceNumber => "a sequence number: from 0 to 4294967295",
            WordKind::RouteVerb => "one of add, delete, change, get, lock",
            WordKind::Destination =>
                "a destination: an address as 10.0.0.1, a network as 10.0.0.0/8, or default",
            WordKind::Gateway =>
                "a gateway: an IPv4 address, or link: and the 8 to 32 bytes of a sockaddr_dl in hexadecimal",
            WordKind::MaskLength => "a mask's length: a number from 0 to 32",
            WordKind::InterfaceAddress =>
                "an interface: an IPv4 address, or link: and the 8 to 32 bytes of a sockaddr_dl in hexadecimal",
            WordKind::FlagBits => "flags: their names, as UP,GATEWAY, or 1 to 8 hexadecimal digits",
            WordKind::Bits => "bits: 1 to 8 hexadecimal digits",
            WordKind::Metric => "a metric: a number from 0 to 4294967295",
            WordKind::DumpRoom =>
                "ask, all, or how many bytes there is room for: a number from 0 to 4294967295",
        }
    }
}
