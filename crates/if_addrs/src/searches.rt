//! The searches for an interface address, as a route gets it. They go by interface and then by address, and pass over
//! the addresses that were removed; a fallback that a caller gives is taken as it is. What they find is an interface
//! address of these interfaces.
ghost use Rattle.std.specs.Prelude.{◌≡◌, ◌≤◌, length, filter, option_map, IfSome};
ghost use Rattle.std.specs.List.{find, range_with_len};
ghost use Rattle.if_addrs.specs.Interfaces.{addresses_of, reference, IsOf};
ghost use Rattle.if_addrs.specs.Searches.{with_addr, with_far, with_net, of_interface, for_route, with_way, turned, has_link_text, longest};
ghost use Rattle.if_addrs.specs.Wanted.{is_wanted};
ghost use Rattle.if_addrs.specs.declared.reference.IfaRef.TheVariants as ifa;

use crate::address::Wanted;
use crate::interface::{first, longest};
use crate::interfaces::Interfaces;
use crate::reference::IfaRef;
use sock_addrs::flags::{RTF_GATEWAY, RTF_HOST};
use sock_addrs::{Gate, Inet, Link};

impl Interfaces {
    /// By an IPv4 address: the first address that is this one, or has it as its broadcast address. By a link-layer
    /// address: that of the first interface that has it whole.
    pub fn with_addr(&self, sought: Gate) -> Option<IfaRef>
        ensures found { result ≡ with_addr sought self.now }
        ensures of { IfSome result (λ i. IsOf i self.now) }
    {
        match sought {
            Gate::Inet(address) => self.first(&Wanted::Own(address)),
            Gate::Link(text) => self.with_link_text(text),
        }
    }

    /// The first address that is as a search wants it.
    fn first(&self, wanted: &Wanted) -> Option<IfaRef>
        ensures found { result ≡ option_map reference (find (is_wanted wanted.now) (addresses_of self.now)) }
        ensures of { IfSome result (λ i. IsOf i self.now) }
    {
        Some(first(&self.interfaces, wanted)?.reference())
    }

    /// The first address of the longest prefix among those that are as a search wants them.
    fn longest(&self, wanted: &Wanted) -> Option<IfaRef>
        ensures found { result ≡
            option_map reference (longest (filter (is_wanted wanted.now) (addresses_of self.now))) }
        ensures of { IfSome result (λ i. IsOf i self.now) }
    {
        Some(longest(&self.interfaces, wanted)?.reference())
    }

    /// The first interface whose link-layer address this is.
    fn with_link_text(&self, text: Link) -> Option<IfaRef>
        ensures found { result ≡ option_map (λ index. ifa.Link index)
            (find (has_link_text text self.now) (range_with_len 1 (length self.now))) }
        ensures of { IfSome result (λ i. IsOf i self.now) }
    {
        for place in 0..self.interfaces.len() {
            let index = place as u16 + 1;
            if self.link_text(index).as_bytes() == text.as_bytes() {
                return Some(IfaRef::Link(index));
            }
        }
        None
    }

    /// The first address of a point-to-point interface that has this IPv4 address at the other end. By a link-layer
    /// address none is found.
    pub fn with_far(&self, sought: Gate) -> Option<IfaRef>
        ensures found { result ≡ with_far sought self.now }
        ensures of { IfSome result (λ i. IsOf i self.now) }
    {
        match sought {
            Gate::Inet(address) => self.first(&Wanted::Far(address)),
            Gate::Link(_) => None,
        }
    }

    /// By an IPv4 address: of the addresses whose network holds it the one with the longest prefix, the first among
    /// equals. By a link-layer address: that of the interface whose number stands in it.
    pub fn with_net(&self, sought: Gate) -> Option<IfaRef>
        ensures found { result ≡ with_net sought self.now }
        ensures of { IfSome result (λ i. IsOf i self.now) }
    {
        match sought {
            Gate::Inet(address) => self.longest(&Wanted::Near(address)),
            Gate::Link(text) => {
                let index = text.index();
                if 1 <= index && usize::from(index) <= self.interfaces.len() {
                    Some(IfaRef::Link(index))
                } else {
                    None
                }
            }
        }
    }

    /// On the interface with this number. By an IPv4 address: the first address whose network holds it, or else the
    /// first address. By a link-layer address: the interface's own.
    pub fn of_interface(&self, sought: Gate, index: u16) -> Option<IfaRef>
        requires first { 1 ≤ index }
        requires last { index ≤ length self.now }
        ensures found { result ≡ of_interface sought index self.now }
        ensures of { IfSome result (λ i. IsOf i self.now) }
    {
        match sought {
            Gate::Inet(address) => {
                let interface = &self.interfaces[usize::from(index) - 1];
                Some(interface.nearest(address)?.reference())
            }
            Gate::Link(_) => Some(IfaRef::Link(index)),
        }
    }

    /// The interface address of a route with these flags to this destination, over this gateway, in this order: without
    /// GATEWAY the one with the destination at the other end, where HOST is set, and then the one with the gateway as
    /// its address; with GATEWAY the one with the gateway at the other end; then the one whose network holds the
    /// gateway; then the fallback. Where it is a link-layer address, an address of that interface stands in its place,
    /// if it has one.
    pub fn for_route(
        &self,
        flags: u16,
        destination: Inet,
        gateway: Gate,
        fallback: Option<IfaRef>,
    ) -> Option<IfaRef>
        requires { IfSome fallback (λ i. IsOf i self.now) }
        ensures found { result ≡ for_route flags destination gateway fallback self.now }
        ensures of { IfSome result (λ i. IsOf i self.now) }
    {
        let found = match self.with_way(flags, destination, gateway) {
            Some(ifa) => Some(ifa),
            None => self.with_net(gateway),
        };
        Some(self.turned(destination, found.or(fallback)?))
    }

    /// By what a route leads over.
    fn with_way(&self, flags: u16, destination: Inet, gateway: Gate) -> Option<IfaRef>
        ensures found { result ≡ with_way flags destination gateway self.now }
        ensures of { IfSome result (λ i. IsOf i self.now) }
    {
        if flags & RTF_GATEWAY != 0 {
            return self.with_far(gateway);
        }
        if flags & RTF_HOST != 0 {
            let far = self.with_far(Gate::Inet(destination));
            if far.is_some() {
                return far;
            }
        }
        self.with_addr(gateway)
    }

    /// In place of a link-layer address the nearest address of its interface, where it has one.
    fn turned(&self, destination: Inet, ifa: IfaRef) -> IfaRef
        requires { IsOf ifa self.now }
        ensures turned { result ≡ turned destination self.now ifa }
        ensures of { IsOf result self.now }
    {
        match ifa {
            IfaRef::Inet(_) => ifa,
            IfaRef::Link(index) => self
                .of_interface(Gate::Inet(destination), index)
                .unwrap_or(ifa),
        }
    }
}
