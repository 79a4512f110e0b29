ghost use Rattle.std.specs.Prelude.{◌≡◌, ◌+◌, ◌<◌, ◌≤◌, length, get_or, MatchOption};
ghost use Rattle.route_msgs.specs.Slots.{SlotsAreWithin, address_at, slot_bytes};

use crate::Header;
use crate::places::RTAX_MAX;
use thiserror::Error;

/// Where an address stands in a message: as many bytes as its length byte says, but at least that byte.
#[derive(Clone, Copy, Debug, PartialEq, Eq)]
pub struct Slot {
    /// Its first byte.
    pub start: usize,
    /// The number of its bytes, without padding.
    pub len: usize,
}

impl Slot {
    /// The address's bytes in its message.
    pub fn bytes(self, message: &[u8]) -> &[u8]
        requires { self.start + self.len ≤ length message.now }
        ensures { result.now ≡ slot_bytes self message.now }
    {
        &message[self.start..self.start + self.len]
    }
}

/// A message taken apart.
#[derive(Clone, Copy, Debug, PartialEq, Eq)]
pub struct Parsed {
    /// The fields of its header, as they are written.
    pub header: Header,
    /// The addresses that are there, in the order of the bits of addrs.
    pub slots: [Option<Slot>; RTAX_MAX],
}

impl Parsed {
    /// The bytes of the address at this place, of `places`, in the message that was taken apart, without padding;
    /// `None` where the address is not there.
    pub fn address<'a>(&self, bit: usize, message: &'a [u8]) -> Option<&'a [u8]>
        requires bit { bit < RTAX_MAX }
        requires within { SlotsAreWithin (length message.now) self.now.slots }
        ensures { let address = address_at (get_or self.now.slots bit None) message.now
            in MatchOption result (address ≡ None) (λ sockaddr. address ≡ Some sockaddr.now) }
    {
        let slot = self.slots[bit]?;
        Some(slot.bytes(message))
    }
}

/// Why bytes are no message, the first of these that holds.
#[derive(Debug, Drop, Error)]
#[error("{}", self.text())]
pub enum MsgErr {
    /// Fewer than 76 bytes, or the message says another length than it has.
    Length,
    /// Another version than 3.
    Version,
    /// An address's length byte counts bytes past the end.
    Overrun,
}

impl MsgErr {
    ghost use Rattle.route_msgs.specs.MsgErr.{msg_err_text};

    /// What it prints, in words.
    pub fn text(&self) -> &'static str
        ensures { result.now ≡ msg_err_text self.now }
    {
        match self {
            MsgErr::Length => "the length is wrong",
            MsgErr::Version => "the version is not 3",
            MsgErr::Overrun => "an address passes the end",
        }
    }
}
