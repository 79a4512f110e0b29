ghost use Rattle.std.specs.Prelude.{◌≡◌, ◌<◌, length, filter, is_err, option_map, slice_get, Some, OnOk, OnErr};
ghost use Rattle.std.specs.List.{find, list_any, position};
ghost use Rattle.if_addrs.specs.Interfaces.{addresses_of, attached, has_name as is_named, named, holds, with_one_more, link_text};
ghost use Rattle.if_addrs.specs.Searches.{standing, nearest as nearest_of, longest as longest_of};
ghost use Rattle.if_addrs.specs.Told.{next_of, told_of};
ghost use Rattle.if_addrs.specs.Wanted.{is_wanted, with_marked};
ghost use Rattle.memory.specs.Refusing.{Rises};

use crate::address::{self, Address, Mark, Wanted};
use crate::kind::Kind;
use crate::link_address::LinkAddress;
use crate::told::{AddressTold, InterfaceTold};
use memory::Memory;
use sock_addrs::{Inet, Link, Name};
use std::alloc::{AllocError, Global};
use std::marker::Model;

/// An interface with its addresses in the order in which they were added.
#[derive(Drop)]
pub(crate) struct Interface {
    name: Name,
    kind: Kind,
    type_number: u8,
    link: LinkAddress,
    /// How many addresses at the front are known to be removed: a search passes over these at once. A `u32` fits where
    /// no field is, so that an interface takes no more memory.
    gone: u32,
    addresses: Vec<Address>,
}

impl Model for Interface {
    ghost use Rattle.if_addrs.specs.Interfaces.{Interface as Seen};
    ghost use Rattle.if_addrs.specs.Homes.{AreKept};

    ghost Value = { Seen };

    ghost view = { λ i. record {
      name = i.name;
      kind = i.kind;
      type_number = i.type_number;
      link = i.link;
      addresses = i.addresses.items;
    } };

    ghost invariant = { λ i. AreKept i.gone i.kind i.addresses.items };
}

impl Interface {
    /// An interface without addresses.
    pub(crate) fn new(
        alloc: Global,
        name: Name,
        kind: Kind,
        type_number: u8,
        link: LinkAddress,
    ) -> Interface
        ensures { result ≡ attached name kind type_number link }
    {
        Interface {
            name,
            kind,
            type_number,
            link,
            gone: 0,
            addresses: Vec::new(alloc),
        }
    }

    /// Whether this is its name.
    fn has_name(&self, name: Name) -> bool
        ensures { result ≡ is_named name self.now }
    {
        self.name.is(&name)
    }

    /// Its kind.
    pub(crate) fn kind(&self) -> Kind
        ensures { result ≡ self.now.kind }
    {
        self.kind
    }

    /// Whether it holds this address.
    fn holds(&self, address: Inet) -> bool
        ensures { result ≡ holds address self.now }
    {
        address::holds(self.left(), address)
    }

    /// Its addresses but for those at the front that are known to be removed.
    #[tactic(auto, using(crate::proofs::Gone::within))]
    fn left(&self) -> &[Address]
        ensures { standing result.now ≡ standing self.now.addresses }
    {
        &self.addresses[self.gone as usize..]
    }

    /// How many addresses it was ever given.
    pub(crate) fn count(&self) -> usize
        ensures { result ≡ length self.now.addresses }
    {
        self.addresses.len()
    }

    /// The address at this place.
    pub(crate) fn address_at(&self, place: usize) -> Address
        requires { place < length self.now.addresses }
        ensures { slice_get self.now.addresses place ≡ Some result }
    {
        self.addresses[place]
    }

    /// The first of its addresses that is as a search wants it.
    pub(crate) fn first(&self, wanted: &Wanted) -> Option<Address>
        ensures { result ≡ find (is_wanted wanted.now) self.now.addresses }
    {
        match wanted {
            // an interface without another end has no address that leads to one
            Wanted::Far(_) if !self.kind.has_other_end() => None,
            _ => address::first(self.left(), wanted),
        }
    }

    /// The first of the longest prefix among its addresses that are as a search wants them.
    fn longest(&self, wanted: &Wanted) -> Option<&Address>
        ensures { option_map (λ a. a.now) result ≡ longest_of (filter (is_wanted wanted.now) self.now.addresses) }
    {
        address::longest(self.left(), wanted)
    }

    /// The first of its addresses whose network holds this one, or else its first.
    pub(crate) fn nearest(&self, sought: Inet) -> Option<Address>
        ensures { result ≡ nearest_of sought (standing self.now.addresses) }
    {
        match self.first(&Wanted::Near(sought)) {
            Some(address) => Some(address),
            None => self.first(&Wanted::Standing),
        }
    }

    /// Appends an address of its kind.
    pub(crate) fn add(&mut self, address: Address, memory: &mut Memory) -> Result<(), AllocError>
        requires { address.kind ≡ self.old.kind }
        ensures ok { OnOk result (self.new ≡ with_one_more address self.old) }
        ensures kept { OnErr result (self.new ≡ self.old) }
        ensures counted { Rises (is_err result) memory.old memory.new }
    {
        memory.push(&mut self.addresses, address)
    }

    /// Marks the address at this place.
    pub(crate) fn mark(&mut self, place: usize, mark: Mark)
        requires { place < length self.old.addresses }
        ensures { self.new ≡ with_marked place mark self.old }
    {
        self.addresses[place].mark(mark);
        self.pass();
    }

    /// Passes on, over the removed ones behind those that are known to be.
    #[tactic(auto, using(crate::proofs::Gone::within))]
    fn pass(&mut self)
        ensures { self.new ≡ self.old }
    {
        let left = &self.addresses[self.gone as usize..];
        let more = address::place_of_standing(left).unwrap_or(left.len());
        if let Ok(gone) = u32::try_from(self.gone as usize + more) {
            self.gone = gone;
        }
    }

    /// Its link-layer address as a message writes it, `index` being the interface's number.
    pub(crate) fn link_text(&self, index: u16) -> Link
        ensures { result ≡ link_text index self.now }
    {
        Link::of_interface(index, self.type_number, self.name, self.link.as_slice())
    }

    /// What is told of it.
    pub(crate) fn told(&self) -> InterfaceTold
        ensures { result ≡ told_of self.now }
    {
        InterfaceTold {
            name: self.name,
            kind: self.kind,
            type_number: self.type_number,
            link: self.link,
        }
    }

    /// What is told of its first address, from this place on, that was not removed.
    pub(crate) fn next_address(&self, place: usize) -> Option<AddressTold>
        ensures { result ≡ next_of place self.now }
    {
        if place > self.addresses.len() {
            return None;
        }
        let at = place + address::place_of_standing(&self.addresses[place..])?;
        Some(self.addresses[at].told(at + 1))
    }
}

/// The place of the interface with this name.
pub(crate) fn place_of(interfaces: &[Interface], name: Name) -> Option<usize>
    ensures { result ≡ position (is_named name) interfaces.now }
{
    interfaces
        .iter()
        .position(|interface| interface.has_name(name))
}

/// The interface of this name.
pub(crate) fn named(interfaces: &[Interface], name: Name) -> Option<&Interface>
    ensures { option_map (λ i. i.now) result ≡ named name interfaces.now }
{
    interfaces.iter().find(|interface| interface.has_name(name))
}

/// Whether one of them has this name.
pub(crate) fn is_there(interfaces: &[Interface], name: Name) -> bool
    ensures { result ≡ list_any (is_named name) interfaces.now }
{
    interfaces.iter().any(|interface| interface.has_name(name))
}

/// Whether one of them holds this address.
pub(crate) fn is_in_use(interfaces: &[Interface], address: Inet) -> bool
    ensures { result ≡ list_any (holds address) interfaces.now }
{
    interfaces.iter().any(|interface| interface.holds(address))
}

/// The first of their addresses that is as a search wants it.
pub(crate) fn first(interfaces: &[Interface], wanted: &Wanted) -> Option<Address>
    ensures { result ≡ find (is_wanted wanted.now) (addresses_of interfaces.now) }
{
    for interface in interfaces {
        let found = interface.first(wanted);
        if found.is_some() {
            return found;
        }
    }
    None
}

/// The first of the longest prefix among their addresses that are as a search wants them.
#[tactic(auto, using(crate::proofs::Searching::better_none))]
pub(crate) fn longest<'a>(interfaces: &'a [Interface], wanted: &Wanted) -> Option<&'a Address>
    ensures { option_map (λ a. a.now) result
        ≡ longest_of (filter (is_wanted wanted.now) (addresses_of interfaces.now)) }
{
    let mut best = None;
    for interface in interfaces {
        best = address::better(best, interface.longest(wanted));
    }
    best
}
