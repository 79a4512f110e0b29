ghost use Rattle.std.specs.Prelude.{◌≡◌, ◌+◌, ◌≤◌, [], ◌∷◌, ◌++◌, length, unwrap_or, Some, None, IsSome, IfSome, IfNone, is_err, option_map, OnOk, OnErr, IfOk, IfErr, vec_len, vec_capacity};
ghost use Rattle.std.specs.Result.{result_err};
ghost use Rattle.if_addrs.specs.Facts.{facts_of};
ghost use Rattle.if_addrs.specs.Homes.{IsHome};
ghost use Rattle.if_addrs.specs.Interfaces.{attach_fault, attached, addr_fault, added, kind_of, new_address, with_address, address_of, find_addr, interface_of as index_of, link_text_of, text_of, marked_routed, without_addr, changed, IsOf, IsStanding};
ghost use Rattle.if_addrs.specs.Keeping.{KeepsIfas, SameIfas};
ghost use Rattle.if_addrs.specs.Wanted.{marked};
ghost use Rattle.if_addrs.specs.declared.reference.IfaRef.TheVariants as ifa;
ghost use Rattle.memory.specs.Refusing.{Rises};
ghost use Rattle.sock_addrs.specs.Errno.{is_no_memory};

use crate::address::{Address, Mark, Wanted};
use crate::home::Home;
use crate::interface::{Interface, is_in_use, is_there, named, place_of};
use crate::kind::Kind;
use crate::limits::{MOST_ADDRESSES, MOST_INTERFACES};
use crate::link_address::LinkAddress;
use crate::reference::{Facts, IfaRef};
use mask_table::Prefix;
use memory::Memory;
use sock_addrs::{Errno, Gate, Inet, Link, Name};
use std::alloc::{AllocError, Global};
use std::marker::Model;

/// How many homes there is memory for at first: with what the C library puts before them as long as a line of the
/// cache, so that what is made after them lies in its lines as without them.
const FIRST_HOMES: usize = 14;

/// The interfaces with their addresses. A contract sees them in the order in which they were attached; they are
/// numbered from 1 on by their places. A reference to an address, and an interface's number, stay good for good.
#[derive(Drop)]
pub struct Interfaces {
    pub(crate) interfaces: Vec<Interface>,
    /// Where each address is kept, by its number from 1 on.
    homes: Vec<Home>,
    alloc: Global,
}

impl Model for Interfaces {
    ghost use Rattle.std.specs.Prelude.{List};
    ghost use Rattle.if_addrs.specs.Interfaces.{Interface as Seen};

    ghost Value = { List Seen };

    ghost use Rattle.if_addrs.specs.Homes.{AreAtHome};

    ghost view = { λ i. i.interfaces.items };

    ghost invariant = { λ i. AreAtHome i.homes.items i.interfaces.items };
}

impl Interfaces {
    /// No interface is attached.
    pub fn new(alloc: Global) -> Interfaces
        ensures { result ≡ [] }
    {
        Interfaces {
            interfaces: Vec::new(alloc),
            homes: Vec::new(alloc),
            alloc,
        }
    }

    /// Attaches an interface of this name and kind, with the number of its type in <net/if_types.h> and its link-layer
    /// address.
    ///
    /// Refused, in this order: EEXIST where the name is there; ENOSPC where 64 interfaces are; ENOBUFS for want of
    /// memory, which is counted.
    pub fn attach(
        &mut self,
        name: Name,
        kind: Kind,
        type_number: u8,
        link: &LinkAddress,
        memory: &mut Memory,
    ) -> Result<(), Errno>
        ensures ok { OnOk result (attach_fault name self.old ≡ None) }
        ensures attached { OnOk result (self.new ≡ self.old ++ attached name kind type_number link.now ∷ []) }
        ensures keeps { KeepsIfas self.old self.new }
        ensures same { SameIfas self.old self.new }
        ensures refused { IfErr result (λ e. e ≡ unwrap_or (attach_fault name self.old) Errno.ENOBUFS) }
        ensures kept { OnErr result (self.new ≡ self.old) }
        ensures counted { Rises (is_no_memory result) memory.old memory.new }
    {
        self.check_attach(name)?;
        let interface = Interface::new(self.alloc, name, kind, type_number, *link);
        memory.push(&mut self.interfaces, interface)?;
        Ok(())
    }

    /// What refuses an interface of this name, but for want of memory.
    fn check_attach(&self, name: Name) -> Result<(), Errno>
        ensures { result_err result ≡ attach_fault name self.now }
    {
        if is_there(&self.interfaces, name) {
            return Err(Errno::EEXIST);
        }
        if self.interfaces.len() >= MOST_INTERFACES {
            return Err(Errno::ENOSPC);
        }
        Ok(())
    }

    /// What refuses this address on the interface of this name, but for want of memory; `far` is the other end's
    /// address. In this order: ENXIO where no interface has the name; EINVAL where `far` is given and the interface
    /// isn't point-to-point, or isn't and it is; EADDRINUSE where an interface holds the address; ENOSPC once 65,535
    /// addresses were ever added.
    pub fn check_addr(&self, name: Name, address: Inet, far: Option<Inet>) -> Result<(), Errno>
        ensures { result_err result ≡ addr_fault name address far self.now }
    {
        let Some(interface) = named(&self.interfaces, name) else {
            return Err(Errno::ENXIO);
        };
        if !interface.kind().fits(far) {
            return Err(Errno::EINVAL);
        }
        if is_in_use(&self.interfaces, address) {
            return Err(Errno::EADDRINUSE);
        }
        if self.homes.len() >= usize::from(MOST_ADDRESSES) {
            return Err(Errno::ENOSPC);
        }
        Ok(())
    }

    /// Adds an address to the interface of this name, with the next number, and answers a reference to it. `far` is the
    /// other end's address, where the interface is point-to-point. ENOBUFS for want of memory, which is
    /// counted.
    pub fn add_addr(
        &mut self,
        name: Name,
        address: Inet,
        prefix: Prefix,
        cloning: bool,
        far: Option<Inet>,
        memory: &mut Memory,
    ) -> Result<IfaRef, Errno>
        requires { addr_fault name address far self.old ≡ None }
        ensures number { IfOk result (λ ifa. ifa ≡ IfaRef.Inet (added self.old + 1)) }
        ensures added { OnOk result (self.new ≡ with_address name address prefix cloning far self.old) }
        ensures there { IfOk result (λ ifa. address_of ifa self.new
            ≡ Some (new_address (added self.old + 1) (kind_of name self.old) address prefix cloning far)) }
        ensures keeps { KeepsIfas self.old self.new }
        ensures same { SameIfas self.old self.new }
        ensures refused { IfErr result (λ e. e ≡ Errno.ENOBUFS) }
        ensures kept { OnErr result (self.new ≡ self.old) }
        ensures counted { Rises (is_err result) memory.old memory.new }
    {
        let number = self.homes.len() as u16 + 1;
        let at = place_of(&self.interfaces, name).unwrap();
        reserve_home(&mut self.homes, memory)?;
        let interface = &mut self.interfaces[at];
        let home = Home {
            interface: at as u8,
            address: interface.count() as u16,
        };
        let address = Address::new(number, interface.kind(), address, prefix, cloning, far);
        interface.add(address, memory)?;
        self.homes.push(home).unwrap();
        Ok(IfaRef::Inet(number))
    }

    /// The address that the interface of this name holds. ENXIO: no interface has the name; EADDRNOTAVAIL: it doesn't
    /// hold the address.
    pub fn find_addr(&self, name: Name, address: Inet) -> Result<IfaRef, Errno>
        ensures found { result ≡ find_addr name address self.now }
        ensures standing { IfOk result (λ ifa. IsStanding ifa self.now) }
        ensures of { IfOk result (λ ifa. IsOf ifa self.now) }
    {
        let Some(interface) = named(&self.interfaces, name) else {
            return Err(Errno::ENXIO);
        };
        match interface.first(&Wanted::Same(address)) {
            Some(address) => Ok(address.reference()),
            None => Err(Errno::EADDRNOTAVAIL),
        }
    }

    /// Removes an IPv4 address of an interface: no search by an address finds it any more, and a reference to it stays
    /// good.
    pub fn remove_addr(&mut self, ifa: IfaRef)
        requires { IsSome (address_of ifa self.old) }
        ensures removed { self.new ≡ without_addr ifa self.old }
        ensures keeps { KeepsIfas self.old self.new }
        ensures same { SameIfas self.old self.new }
    {
        self.mark(ifa, Mark::Gone);
    }

    /// Marks an IPv4 address of an interface as one whose route was added.
    pub fn mark_routed(&mut self, ifa: IfaRef)
        requires { IsSome (address_of ifa self.old) }
        ensures marked { self.new ≡ marked_routed ifa self.old }
        ensures keeps { KeepsIfas self.old self.new }
        ensures same { SameIfas self.old self.new }
    {
        self.mark(ifa, Mark::Routed);
    }

    fn mark(&mut self, ifa: IfaRef, mark: Mark)
        requires { IsSome (address_of ifa self.old) }
        ensures marked { self.new ≡ changed ifa (marked mark) self.old }
        ensures keeps { KeepsIfas self.old self.new }
        ensures same { SameIfas self.old self.new }
    {
        if let IfaRef::Inet(number) = ifa {
            let home = self.home(number).unwrap();
            let interface = &mut self.interfaces[usize::from(home.interface)];
            interface.mark(usize::from(home.address), mark);
        }
    }

    /// Where the address with this number is kept.
    fn home(&self, number: u16) -> Option<Home>
        ensures some { IfSome result (λ home. IsHome number home self.now) }
        ensures none { IfNone result (address_of (ifa.Inet number) self.now ≡ None) }
    {
        self.homes.get(usize::from(number).checked_sub(1)?).copied()
    }

    /// The address itself, where it is none of a link layer.
    fn address(&self, ifa: IfaRef) -> Option<Address>
        ensures { result ≡ address_of ifa self.now }
    {
        match ifa {
            IfaRef::Inet(number) => {
                let home = self.home(number)?;
                let interface = &self.interfaces[usize::from(home.interface)];
                Some(interface.address_at(usize::from(home.address)))
            }
            IfaRef::Link(_) => None,
        }
    }

    /// What is known of an IPv4 address of an interface.
    pub fn facts(&self, ifa: IfaRef) -> Facts
        requires { IsSome (address_of ifa self.now) }
        ensures { option_map facts_of (address_of ifa self.now) ≡ Some result }
    {
        self.address(ifa).unwrap().facts()
    }

    /// What an interface address is: an IPv4 address, or the link-layer address of an interface as a message writes it.
    pub fn text_of(&self, ifa: IfaRef) -> Gate
        requires { IsOf ifa self.now }
        ensures { text_of ifa self.now ≡ Some result }
    {
        match ifa {
            IfaRef::Inet(_) => Gate::Inet(self.address(ifa).unwrap().inet()),
            IfaRef::Link(index) => Gate::Link(self.link_text(index)),
        }
    }

    /// The number of the interface that has the address.
    pub fn interface_of(&self, ifa: IfaRef) -> u16
        requires { IsOf ifa self.now }
        ensures number { result ≡ index_of ifa self.now }
        ensures first { 1 ≤ result }
        ensures last { result ≤ length self.now }
    {
        match ifa {
            IfaRef::Inet(number) => u16::from(self.home(number).unwrap().interface) + 1,
            IfaRef::Link(index) => index,
        }
    }

    /// The link-layer address of the interface with this number, as a message writes it.
    pub fn link_text(&self, index: u16) -> Link
        requires first { 1 ≤ index }
        requires last { index ≤ length self.now }
        ensures { link_text_of index self.now ≡ Some result }
    {
        self.interfaces[usize::from(index) - 1].link_text(index)
    }
}

/// Makes room for one home more.
fn reserve_home(homes: &mut Vec<Home>, memory: &mut Memory) -> Result<(), AllocError>
    ensures items { homes.new.items ≡ homes.old.items }
    ensures room { OnOk result (vec_len homes.new + 1 ≤ vec_capacity homes.new) }
    ensures counted { Rises (is_err result) memory.old memory.new }
{
    if homes.is_empty() {
        memory.reserve(homes, FIRST_HOMES)
    } else {
        memory.reserve(homes, 1)
    }
}
