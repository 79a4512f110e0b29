use crate::{Inet, Link};

/// A gateway: another host by its IPv4 address, or a link-layer address.
#[derive(Clone, Copy, Debug, PartialEq, Eq)]
pub enum Gate {
    Inet(Inet),
    Link(Link),
}
