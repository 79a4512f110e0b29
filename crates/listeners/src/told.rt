use sock_addrs::Name;

/// What is told of an open socket.
#[derive(Clone, Copy, Debug, PartialEq, Eq)]
pub struct SocketTold {
    /// Its id.
    pub id: Name,
    /// The process that opened it.
    pub pid: u32,
    /// The family that it hears, or 0 for all.
    pub protocol: u8,
    /// Whether it hears the replies to its own writes.
    pub loopback: bool,
    /// How many bytes the messages have that wait for it.
    pub waiting: usize,
    /// How many messages that it heard were lost.
    pub lost: u64,
}
