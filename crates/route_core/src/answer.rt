use crate::Received;
use mask_table::Rank;
use sock_addrs::{Errno, Gate, Inet};

/// The route that a packet took, as it stands after the look-up.
#[derive(Clone, Copy, Debug, PartialEq, Eq)]
pub struct Choice {
    /// Its key.
    pub key: Inet,
    /// Its rank.
    pub rank: Rank,
    /// Its gateway.
    pub gateway: Gate,
    /// The number of the interface that it leaves by.
    pub index: u16,
    /// Its flags, of `route_msgs::flags`.
    pub flags: u16,
}

/// What a command is answered. The messages that a socket read are lent.
#[derive(Debug, Drop)]
pub enum Answer<'a> {
    /// It was done.
    Done,
    /// It was refused.
    Refused(Errno),
    /// The packet takes this route.
    Routed(Choice),
    /// The packet takes this route, which drops it without an error.
    Dropped(Choice),
    /// So many bytes to ask for a dump; or so many messages that a socket lost.
    Size(u64),
    /// These messages, and why they are not all where some are left out.
    Messages(Received<'a>, Option<Errno>),
}
