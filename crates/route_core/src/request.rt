//! What a write asks, or why it is refused before anything is looked up.
ghost use Rattle.std.specs.Prelude.{◌≡◌, ◌<◌, ◌%◌, ◌^◌, ◌==◌, false, true, length, is_none, is_some, unwrap_or, Some, None, ℕ, List, IfOk, IfErr, IfSome, IsSome, MatchOption};
ghost use Rattle.sock_addrs.specs.Reading.{IsWhole, number_of_inet, read_inet_of};
ghost use Rattle.sock_addrs.specs.Rules.{first_fault};
ghost use Rattle.sock_addrs.specs.Sockaddrs.{family as family_byte};
ghost use Rattle.sock_addrs.specs.declared.families.TheConstants.{AF_INET};
ghost use Rattle.sock_addrs.specs.declared.gate.Gate.TheVariants as gate;
ghost use Rattle.route_msgs.specs.Headers.{header_in};
ghost use Rattle.route_msgs.specs.declared.places.TheConstants.{RTAX_DST, RTAX_GATEWAY, RTAX_GENMASK, RTAX_IFA, RTAX_IFP, RTAX_NETMASK};
ghost use Rattle.route_msgs.specs.Slots.{SlotsAreWithin, address_in, slots_in};
ghost use Rattle.route_core.specs.Effects.{IsEchoed};
ghost use Rattle.route_core.specs.Writes.{destination as destination_in, gate_in, has_bad_gate, has_bad_length, has_bad_mask, is_no_gate, is_no_mask, is_request as is_request_kind, mask_in, message_rules, request_in, request_rules};

use crate::refusal::Refusal;
use mask_table::Prefix;
use route_msgs::kinds::{RTM_ADD, RTM_CHANGE, RTM_DELETE, RTM_GET, RTM_LOCK};
use route_msgs::places::{RTAX_DST, RTAX_GATEWAY, RTAX_GENMASK, RTAX_IFA, RTAX_IFP, RTAX_NETMASK};
use route_msgs::{Header, Parsed, read_message};
use route_ops::{Change, NewRoute};
use sock_addrs::{BadAddr, Errno, Gate, Inet, family_of, read_gate, read_inet, read_mask};

/// The longest write that is looked at.
pub(crate) const MOST_BYTES: usize = 8192;

/// What a written message asks, with what is taken from the message.
#[derive(Clone, Copy, Debug)]
pub(crate) enum Request {
    /// Add a route.
    Add(NewRoute),
    /// Delete the route of this key: with the mask, where one is written and the flags don't say that it is of a host.
    Delete {
        key: Inet,
        netmask: Option<Prefix>,
        flags: u16,
    },
    /// Change a route.
    Change(Change),
    /// Lock and unlock metrics of a route.
    Lock {
        destination: Inet,
        netmask: Option<Prefix>,
        inits: u32,
        locks: u32,
    },
    /// Show the best route of an address, with its interface where that is asked for.
    Get {
        destination: Inet,
        shows_interface: bool,
    },
}

/// A written message that no rule refuses.
#[derive(Clone, Copy, Debug)]
pub(crate) struct Asked {
    /// Its header.
    pub(crate) header: Header,
    /// What it asks.
    pub(crate) request: Request,
}

impl Asked {
    /// What the bytes of a write ask. Refused in the order of the reasons that lie in the message itself.
    pub(crate) fn read(bytes: &[u8]) -> Result<Asked, Refusal>
        ensures passes { IfOk result (λ _. first_fault (message_rules bytes.now) ≡ None) }
        ensures request { IfOk result (λ a. a.request ≡ request_in bytes.now) }
        ensures header { IfOk result (λ a. a.header ≡ header_in bytes.now) }
        ensures refused { IfErr result (λ r. first_fault (message_rules bytes.now) ≡ Some r) }
        ensures whole { IfOk result (λ _. IsEchoed bytes.now) }
        ensures heard { IfErr result (λ r. IsSome r.family → IsEchoed bytes.now) }
    {
        if bytes.len() > MOST_BYTES {
            return Err(Refusal::silent(Errno::EMSGSIZE));
        }
        let message = read_message(bytes)?;
        let sockaddr = sockaddr_at(&message, bytes, RTAX_DST).ok_or(Refusal::heard(
            Errno::EINVAL,
            0,
        ))?;
        let header = message.header;
        match Request::read(&message, bytes, sockaddr) {
            Ok(request) => Ok(Asked { header, request }),
            Err(errno) => Err(Refusal::heard(errno, family_of(sockaddr))),
        }
    }
}

impl Request {
    /// What a message asks with this destination. Refused in the order of the reasons that lie in what is asked.
    fn read(message: &Parsed, bytes: &[u8], sockaddr: &[u8]) -> Result<Request, Errno>
        requires header { message.now.header ≡ header_in bytes.now }
        requires slots { message.now.slots ≡ slots_in bytes.now }
        requires within { SlotsAreWithin (length bytes.now) message.now.slots }
        requires destination { address_in bytes.now RTAX_DST ≡ Some sockaddr.now }
        requires whole { IsWhole sockaddr.now }
        ensures passes { IfOk result (λ _. first_fault (request_rules bytes.now (family_byte sockaddr.now)) ≡ None) }
        ensures request { IfOk result (λ r. r ≡ request_in bytes.now) }
        ensures refused { IfErr result (λ e. first_fault (request_rules bytes.now (family_byte sockaddr.now))
            ≡ Some (record { errno = e; family = Some (family_byte sockaddr.now) })) }
    {
        let destination = destination_at(sockaddr).ok_or(Errno::EINVAL)?;
        let gates = Gates::read(message, bytes).ok_or(Errno::EINVAL)?;
        let masks = Masks::read(message, bytes).ok_or(Errno::EINVAL)?;
        let header = message.header;
        if !is_request(header.kind) {
            return Err(Errno::EOPNOTSUPP);
        }
        if header.kind == RTM_ADD && gates.gateway.is_none() {
            return Err(Errno::EINVAL);
        }
        let destination = destination.ok_or(Errno::ESRCH)?;
        Ok(by_type(&header, destination, &gates, &masks))
    }
}

/// The destination, where it is of IPv4. `None`: it has a length that no IPv4 address has.
fn destination_at(sockaddr: &[u8]) -> Option<Option<Inet>>
    requires { IsWhole sockaddr.now }
    ensures length { is_none result ≡ has_bad_length (read_inet_of sockaddr.now) }
    ensures family { IfSome result (λ d. is_some d ≡ (family_byte sockaddr.now == AF_INET)) }
    ensures number { IfSome result (λ d. IfSome d (λ a. a ≡ number_of_inet sockaddr.now)) }
{
    match read_inet(sockaddr) {
        Ok(address) => Some(Some(address)),
        Err(BadAddr::Length) => None,
        Err(_) => Some(None),
    }
}

/// Whether a message of this type asks for something.
fn is_request(kind: u8) -> bool
    ensures { result ≡ is_request_kind kind }
{
    matches!(kind, RTM_ADD | RTM_DELETE | RTM_CHANGE | RTM_LOCK | RTM_GET)
}

/// The gateways and interface addresses of a message, where they are there.
#[derive(Clone, Copy, Debug)]
struct Gates {
    gateway: Option<Gate>,
    ifp: Option<Gate>,
    ifa: Option<Gate>,
}

impl Gates {
    /// `None`: one of them has a form that none has.
    fn read(message: &Parsed, bytes: &[u8]) -> Option<Gates>
        requires slots { message.now.slots ≡ slots_in bytes.now }
        requires within { SlotsAreWithin (length bytes.now) message.now.slots }
        ensures gates { MatchOption result (has_bad_gate bytes.now ≡ true)
            (λ g. (has_bad_gate bytes.now ≡ false) × (g.gateway ≡ gate_in bytes.now RTAX_GATEWAY)
            × (g.ifp ≡ gate_in bytes.now RTAX_IFP) × (g.ifa ≡ gate_in bytes.now RTAX_IFA)) }
        ensures gateway { IfSome result (λ g. is_some g.gateway ≡ is_some (address_in bytes.now RTAX_GATEWAY)) }
        ensures ifp { IfSome result (λ g. is_some g.ifp ≡ is_some (address_in bytes.now RTAX_IFP)) }
        ensures ifa { IfSome result (λ g. is_some g.ifa ≡ is_some (address_in bytes.now RTAX_IFA)) }
    {
        Some(Gates {
            gateway: gate_at(message, bytes, RTAX_GATEWAY)?,
            ifp: gate_at(message, bytes, RTAX_IFP)?,
            ifa: gate_at(message, bytes, RTAX_IFA)?,
        })
    }
}

/// The masks of a message, where they are there.
#[derive(Clone, Copy, Debug)]
struct Masks {
    netmask: Option<Prefix>,
    genmask: Option<Prefix>,
}

impl Masks {
    /// `None`: one of them has a form that none has.
    fn read(message: &Parsed, bytes: &[u8]) -> Option<Masks>
        requires slots { message.now.slots ≡ slots_in bytes.now }
        requires within { SlotsAreWithin (length bytes.now) message.now.slots }
        ensures { MatchOption result (has_bad_mask bytes.now ≡ true)
            (λ m. (has_bad_mask bytes.now ≡ false) × (m.netmask ≡ mask_in bytes.now RTAX_NETMASK)
            × (m.genmask ≡ mask_in bytes.now RTAX_GENMASK)) }
    {
        Some(Masks {
            netmask: mask_at(message, bytes, RTAX_NETMASK)?,
            genmask: mask_at(message, bytes, RTAX_GENMASK)?,
        })
    }
}

/// The address at this place, where it is there.
#[tactic(auto, using(crate::proofs::SockaddrsFound::address_there))]
fn sockaddr_at<'a>(message: &Parsed, bytes: &'a [u8], at: usize) -> Option<&'a [u8]>
    requires at { at < 8 }
    requires slots { message.now.slots ≡ slots_in bytes.now }
    requires within { SlotsAreWithin (length bytes.now) message.now.slots }
    ensures bytes { MatchOption result (address_in bytes.now at ≡ None)
        (λ sockaddr. address_in bytes.now at ≡ Some sockaddr.now) }
    ensures whole { IfSome result (λ sockaddr. IsWhole sockaddr.now) }
{
    message.address(at, bytes)
}

/// The address at this place as a gateway, where it is there. `None`: it has a form that no gateway has.
fn gate_at(message: &Parsed, bytes: &[u8], at: usize) -> Option<Option<Gate>>
    requires at { at < 8 }
    requires slots { message.now.slots ≡ slots_in bytes.now }
    requires within { SlotsAreWithin (length bytes.now) message.now.slots }
    ensures gate { MatchOption result (is_no_gate bytes.now at ≡ true)
        (λ g. (is_no_gate bytes.now at ≡ false) × (g ≡ gate_in bytes.now at)) }
    ensures there { IfSome result (λ g. is_some g ≡ is_some (address_in bytes.now at)) }
{
    let Some(sockaddr) = sockaddr_at(message, bytes, at) else {
        return Some(None);
    };
    match read_gate(sockaddr) {
        Ok(gate) => Some(Some(gate)),
        Err(_) => None,
    }
}

/// The address at this place as a mask, where it is there. `None`: it has a form that no mask has.
fn mask_at(message: &Parsed, bytes: &[u8], at: usize) -> Option<Option<Prefix>>
    requires at { at < 8 }
    requires slots { message.now.slots ≡ slots_in bytes.now }
    requires within { SlotsAreWithin (length bytes.now) message.now.slots }
    ensures { MatchOption result (is_no_mask bytes.now at ≡ true)
        (λ m. (is_no_mask bytes.now at ≡ false) × (m ≡ mask_in bytes.now at)) }
{
    let Some(sockaddr) = sockaddr_at(message, bytes, at) else {
        return Some(None);
    };
    match read_mask(sockaddr) {
        Ok(bits) => Some(Prefix::new(bits)),
        Err(_) => None,
    }
}

/// What a message asks with this header and these addresses, by its type. It is inlined, since what it makes would else
/// be moved once more.
#[inline(always)]
fn by_type(header: &Header, destination: Inet, gates: &Gates, masks: &Masks) -> Request
    ensures { (m : List ℕ) → header.now ≡ header_in m → destination ≡ destination_in m
        → gates.now ≡ record { gateway = gate_in m RTAX_GATEWAY; ifp = gate_in m RTAX_IFP; ifa = gate_in m RTAX_IFA }
        → is_some gates.now.ifp ≡ is_some (address_in m RTAX_IFP)
        → is_some gates.now.ifa ≡ is_some (address_in m RTAX_IFA)
        → masks.now ≡ record { netmask = mask_in m RTAX_NETMASK; genmask = mask_in m RTAX_GENMASK }
        → result ≡ request_in m }
{
    match header.kind {
        RTM_ADD => Request::Add(new_route(header, destination, gates, masks)),
        RTM_DELETE => Request::Delete {
            key: destination,
            netmask: masks.netmask,
            flags: flags(header),
        },
        RTM_CHANGE => Request::Change(change(header, destination, gates, masks)),
        RTM_LOCK => Request::Lock {
            destination,
            netmask: masks.netmask,
            inits: header.inits,
            locks: header.metrics.locks,
        },
        _ => Request::Get {
            destination,
            shows_interface: gates.ifp.is_some() || gates.ifa.is_some(),
        },
    }
}

/// The flags of a route: the low 16 bits that are written.
fn flags(header: &Header) -> u16
    ensures { result ≡ header.now.flags % 2 ^ 16 }
{
    (header.flags % 0x1_0000) as u16
}

/// What ADD asks for. A message without a gateway was refused.
fn new_route(header: &Header, destination: Inet, gates: &Gates, masks: &Masks) -> NewRoute
    ensures { result ≡ record {
      destination = destination;
      netmask = masks.now.netmask;
      gateway = unwrap_or gates.now.gateway (gate.Inet 0);
      genmask = masks.now.genmask;
      flags = header.now.flags % 2 ^ 16;
      inits = header.now.inits;
      metrics = header.now.metrics;
    } }
{
    NewRoute {
        destination,
        netmask: masks.netmask,
        gateway: gates.gateway.unwrap_or(Gate::Inet(Inet::new(0))),
        genmask: masks.genmask,
        flags: flags(header),
        inits: header.inits,
        metrics: header.metrics,
    }
}

/// What CHANGE asks for.
fn change(header: &Header, destination: Inet, gates: &Gates, masks: &Masks) -> Change
    ensures { result ≡ record {
      destination = destination;
      netmask = masks.now.netmask;
      gateway = gates.now.gateway;
      genmask = masks.now.genmask;
      ifp = gates.now.ifp;
      ifa = gates.now.ifa;
      inits = header.now.inits;
      metrics = header.now.metrics;
    } }
{
    Change {
        destination,
        netmask: masks.netmask,
        gateway: gates.gateway,
        genmask: masks.genmask,
        ifp: gates.ifp,
        ifa: gates.ifa,
        inits: header.inits,
        metrics: header.metrics,
    }
}
