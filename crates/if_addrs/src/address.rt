ghost use Rattle.std.specs.Prelude.{◌≡◌, filter, option_map};
ghost use Rattle.std.specs.List.{find, list_any, position};
ghost use Rattle.if_addrs.specs.Interfaces.{new_address, last_of_network, far_of, is_at, reference as reference_to};
ghost use Rattle.if_addrs.specs.Facts.{facts_of};
ghost use Rattle.if_addrs.specs.Searches.{leads_to, network_holds, longest as longest_of};
ghost use Rattle.if_addrs.specs.Told.{is_standing, told_before};
ghost use Rattle.if_addrs.specs.Wanted.{is_wanted, marked, better};
ghost use Rattle.if_addrs.specs.declared.address.Wanted.TheVariants as wanted;

use crate::kind::Kind;
use crate::marked_inet::MarkedInet;
use crate::reference::{Facts, IfaRef};
use crate::told::AddressTold;
use mask_table::{Prefix, Rank, agrees};
use sock_addrs::Inet;
use std::marker::Model;

/// What a search asks of an address, beside that it was not removed.
#[derive(Drop)]
pub(crate) enum Wanted {
    /// It is this address.
    Same(Inet),
    /// It is this address, or this is its broadcast address.
    Own(Inet),
    /// This is the address of its interface's other end.
    Far(Inet),
    /// Its network holds this address.
    Near(Inet),
    /// Nothing else.
    Standing,
}

/// What an address is marked as.
#[derive(Clone, Copy)]
pub(crate) enum Mark {
    /// Its route was added.
    Routed,
    /// It was removed.
    Gone,
}

/// An address of an interface.
#[derive(Clone, Copy)]
pub(crate) struct Address {
    marked: MarkedInet,
    number: u16,
    kind: Kind,
    prefix: Prefix,
    cloning: bool,
    routed: bool,
    far: Inet,
}

impl Model for Address {
    ghost use Rattle.if_addrs.specs.Interfaces.{Address as Seen};

    ghost Value = { Seen };

    ghost view = { λ a. record {
      number = a.number;
      kind = a.kind;
      address = a.marked.address;
      prefix = a.prefix;
      cloning = a.cloning;
      routed = a.routed;
      far = a.far;
      removed = a.marked.removed;
    } };

    ghost inverse = { λ a. record {
      marked = record { address = a.address; removed = a.removed };
      number = a.number;
      kind = a.kind;
      prefix = a.prefix;
      cloning = a.cloning;
      routed = a.routed;
      far = a.far;
    } };
}

impl Address {
    /// An address with this number, whose route is not yet added; `far` is the other end's, where the interface has
    /// one.
    pub(crate) fn new(
        number: u16,
        kind: Kind,
        address: Inet,
        prefix: Prefix,
        cloning: bool,
        far: Option<Inet>,
    ) -> Address
        ensures { result ≡ new_address number kind address prefix cloning far }
    {
        Address {
            marked: MarkedInet::new(address),
            number,
            kind,
            prefix,
            cloning,
            routed: false,
            far: far_address(kind, address, prefix, far),
        }
    }

    /// Whether it is this address, and was not removed.
    pub(crate) fn is_at(&self, address: Inet) -> bool
        ensures { result ≡ is_at address self.now }
    {
        self.marked.is_at(address)
    }

    /// Whether it is as a search wants it.
    pub(crate) fn is_wanted(&self, wanted: &Wanted) -> bool
        ensures { result ≡ is_wanted wanted.now self.now }
    {
        match wanted {
            Wanted::Same(address) => self.is_at(*address),
            Wanted::Own(address) => self.is_own(*address),
            Wanted::Far(address) => self.stands() && self.leads_to(*address),
            Wanted::Near(address) => self.stands() && self.network_holds(*address),
            Wanted::Standing => self.stands(),
        }
    }

    /// Whether it was not removed, and is this address or has it as its broadcast address.
    fn is_own(&self, address: Inet) -> bool
        ensures { result ≡ is_wanted (wanted.Own address) self.now }
    {
        // few have this broadcast address: whether such a one was removed is asked last
        self.is_at(address)
            || (self.kind == Kind::Broadcast && self.far == address && self.stands())
    }

    /// Whether this is the address of its interface's other end.
    fn leads_to(&self, address: Inet) -> bool
        ensures { result ≡ leads_to address self.now }
    {
        self.kind.has_other_end() && self.far == address
    }

    /// Whether its network holds this address.
    fn network_holds(&self, address: Inet) -> bool
        ensures { result ≡ network_holds address self.now }
    {
        agrees(self.inet(), Rank::of(self.prefix), address)
    }

    /// Whether it was not removed.
    pub(crate) fn stands(&self) -> bool
        ensures { result ≡ is_standing self.now }
    {
        !self.marked.is_removed()
    }

    /// The address itself.
    pub(crate) fn inet(&self) -> Inet
        ensures { result ≡ self.now.address }
    {
        self.marked.inet()
    }

    /// The reference to it.
    pub(crate) fn reference(&self) -> IfaRef
        ensures { result ≡ reference_to self.now }
    {
        IfaRef::Inet(self.number)
    }

    /// What is known of it.
    pub(crate) fn facts(&self) -> Facts
        ensures { result ≡ facts_of self.now }
    {
        Facts {
            kind: self.kind,
            prefix: self.prefix,
            cloning: self.cloning,
            routed: self.routed,
            far: self.far,
        }
    }

    /// What is told of it, with this place behind it.
    pub(crate) fn told(&self, next: usize) -> AddressTold
        ensures { result ≡ told_before next self.now }
    {
        AddressTold {
            address: self.inet(),
            facts: self.facts(),
            next,
        }
    }

    /// Marks it.
    pub(crate) fn mark(&mut self, mark: Mark)
        ensures { self.new ≡ marked mark self.old }
    {
        match mark {
            Mark::Routed => self.routed = true,
            Mark::Gone => self.marked.remove(),
        }
    }
}

/// The far address of an interface's address; `far` is the other end's, where the interface has one.
fn far_address(kind: Kind, address: Inet, prefix: Prefix, far: Option<Inet>) -> Inet
    ensures { result ≡ far_of kind prefix address far }
{
    match kind {
        Kind::Broadcast => last_of_network(address, prefix),
        Kind::Loopback => address,
        Kind::PointToPoint => far.unwrap_or(address),
    }
}

/// The last address of the network, which has all host bits set.
fn last_of_network(address: Inet, prefix: Prefix) -> Inet
    ensures { result ≡ last_of_network prefix address }
{
    let free = u32::from(32 - prefix.bits());
    let network = u64::from(address.number()) >> free;
    let next = (network + 1) << free;
    Inet::new((next - 1) as u32)
}

/// The first that is as a search wants it.
pub(crate) fn first(addresses: &[Address], wanted: &Wanted) -> Option<Address>
    ensures { result ≡ find (is_wanted wanted.now) addresses.now }
{
    for address in addresses {
        if address.is_wanted(wanted) {
            return Some(*address);
        }
    }
    None
}

/// Whether one of them is this address, and was not removed.
pub(crate) fn holds(addresses: &[Address], sought: Inet) -> bool
    ensures { result ≡ list_any (is_at sought) addresses.now }
{
    addresses.iter().any(|address| address.is_at(sought))
}

/// The place of the first that was not removed.
pub(crate) fn place_of_standing(addresses: &[Address]) -> Option<usize>
    ensures { result ≡ position is_standing addresses.now }
{
    addresses.iter().position(|address| address.stands())
}

/// The first of the longest prefix among those that are as a search wants them.
#[tactic(auto, using(crate::proofs::Searching::longest_first, crate::proofs::Searching::better_none))]
pub(crate) fn longest<'a>(addresses: &'a [Address], wanted: &Wanted) -> Option<&'a Address>
    ensures { option_map (λ a. a.now) result ≡ longest_of (filter (is_wanted wanted.now) addresses.now) }
{
    let mut best = None;
    for address in addresses {
        if address.is_wanted(wanted) {
            best = better(best, Some(address));
        }
    }
    best
}

/// Of two addresses the one of the longer prefix, the first where both are as long.
pub(crate) fn better<'a>(
    first: Option<&'a Address>,
    second: Option<&'a Address>,
) -> Option<&'a Address>
    ensures { option_map (λ a. a.now) result
        ≡ better (option_map (λ a. a.now) first.entry) (option_map (λ a. a.now) second.entry) }
{
    match (first, second) {
        (Some(a), Some(b)) if a.prefix.bits() < b.prefix.bits() => Some(b),
        (Some(a), _) => Some(a),
        (None, b) => b,
    }
}
