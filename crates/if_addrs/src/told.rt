//! What is there, told: each interface by its number, and its addresses one after another.
ghost use Rattle.std.specs.Prelude.{◌≡◌, option_map};
ghost use Rattle.if_addrs.specs.Interfaces.{interface_numbered};
ghost use Rattle.if_addrs.specs.Told.{interface_told, next_address};

use crate::interface::Interface;
use crate::interfaces::Interfaces;
use crate::kind::Kind;
use crate::link_address::LinkAddress;
use crate::reference::Facts;
use sock_addrs::{Inet, Name};

/// What is told of an interface.
#[derive(Clone, Copy, Debug, PartialEq, Eq)]
pub struct InterfaceTold {
    /// Its name.
    pub name: Name,
    /// What it is.
    pub kind: Kind,
    /// The number of its type, of <net/if_types.h>.
    pub type_number: u8,
    /// Its link-layer address.
    pub link: LinkAddress,
}

/// What is told of an IPv4 address of an interface.
#[derive(Clone, Copy, Debug, PartialEq, Eq)]
pub struct AddressTold {
    /// The address itself.
    pub address: Inet,
    /// What is known of it.
    pub facts: Facts,
    /// The place behind it, from which on the one after it is asked for.
    pub next: usize,
}

impl Interfaces {
    /// The interface with this number.
    fn numbered(&self, index: u16) -> Option<&Interface>
        ensures { option_map (λ i. i.now) result ≡ interface_numbered index self.now }
    {
        self.interfaces.get(usize::from(index).checked_sub(1)?)
    }

    /// What the interface with this number is, numbers being from 1 on, or `None` where none has it.
    pub fn interface(&self, index: u16) -> Option<InterfaceTold>
        ensures { result ≡ interface_told index self.now }
    {
        Some(self.numbered(index)?.told())
    }

    /// The first address, from this place on, that the interface with this number has: one that was removed is passed
    /// over. Places are from 0 on, in the order in which the addresses were added. `None` where there is none, or no
    /// such interface.
    pub fn next_address(&self, index: u16, place: usize) -> Option<AddressTold>
        ensures { result ≡ next_address index place self.now }
    {
        self.numbered(index)?.next_address(place)
    }
}
