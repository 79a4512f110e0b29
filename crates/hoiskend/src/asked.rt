//! The command that the parameters of a call ask for.
ghost use Rattle.std.specs.Prelude.{◌≡◌};
ghost use Rattle.route_core.specs.declared.command.Command.TheVariants.{Dump, DumpSize, Losing};
ghost use Rattle.hoiskend.specs.Asked.{
  named,
  kind_in,
  linked,
  prefixed,
  far_in,
  attach_asked,
  add_address_asked,
  remove_address_asked,
  listen_asked,
  shut_asked,
  loopback_asked,
  write_asked,
  read_asked,
  lost_asked,
  redirect_asked,
  filter_in,
};

use mask_table::Prefix;
use route_core::{Command, Kind, Lent, LinkAddress, NewGateway, Said};
use sock_addrs::{Inet, Name};

/// The name with these bytes, or `None` where they are none or more than 8.
fn name_of(text: &[u8]) -> Option<Name>
    ensures { result ≡ named text.now }
{
    Name::new(text)
}

/// The link-layer address with these bytes, or `None` where they are more than 8.
fn link_of(bytes: &[u8]) -> Option<LinkAddress>
    ensures { result ≡ linked bytes.now }
{
    LinkAddress::new(bytes)
}

/// The kind with this number: 0 broadcast, 1 loopback, 2 point-to-point.
fn kind_of(number: u8) -> Option<Kind>
    ensures { result ≡ kind_in number }
{
    match number {
        0 => Some(Kind::Broadcast),
        1 => Some(Kind::Loopback),
        2 => Some(Kind::PointToPoint),
        _ => None,
    }
}

/// The length of so many bits, or `None` where they are more than 32.
fn prefix_of(bits: u8) -> Option<Prefix>
    ensures { result ≡ prefixed bits }
{
    Prefix::new(bits)
}

/// An interface to be attached.
#[tactic(auto, unfolding(crate::specs::Asked::attach_asked))]
pub(crate) fn attach(name: &[u8], kind: u8, type_number: u8, link: &[u8]) -> Option<Said<'static>>
    ensures { result ≡ attach_asked name.now kind type_number link.now }
{
    Some(Command::Attach {
        name: name_of(name)?,
        kind: kind_of(kind)?,
        type_number,
        link: link_of(link)?,
    })
}

/// An address for an interface. With no far address, `has_far` is false.
#[tactic(auto, unfolding(crate::specs::Asked::add_address_asked))]
pub(crate) fn add_address(
    name: &[u8],
    address: u32,
    prefix: u8,
    cloning: bool,
    has_far: bool,
    far: u32,
) -> Option<Said<'static>>
    ensures { result ≡ add_address_asked name.now address prefix cloning (far_in has_far far) }
{
    Some(Command::AddAddress {
        name: name_of(name)?,
        address: Inet::new(address),
        prefix: prefix_of(prefix)?,
        cloning,
        far: far_of(has_far, far),
    })
}

/// The address of the other end, where there is one.
#[tactic(auto, unfolding(crate::specs::Asked::far_in))]
fn far_of(has_far: bool, far: u32) -> Option<Inet>
    ensures { result ≡ far_in has_far far }
{
    if has_far { Some(Inet::new(far)) } else { None }
}

/// An address of an interface to be removed.
#[tactic(auto, unfolding(crate::specs::Asked::remove_address_asked))]
pub(crate) fn remove_address(name: &[u8], address: u32) -> Option<Said<'static>>
    ensures { result ≡ remove_address_asked name.now address }
{
    Some(Command::RemoveAddress {
        name: name_of(name)?,
        address: Inet::new(address),
    })
}

/// A socket to be opened.
#[tactic(auto, unfolding(crate::specs::Asked::listen_asked))]
pub(crate) fn listen(id: &[u8], pid: u32, protocol: u8) -> Option<Said<'static>>
    ensures { result ≡ listen_asked id.now pid protocol }
{
    Some(Command::Open {
        id: name_of(id)?,
        pid,
        protocol,
    })
}

/// A socket to be closed.
#[tactic(auto, unfolding(crate::specs::Asked::shut_asked))]
pub(crate) fn shut(id: &[u8]) -> Option<Said<'static>>
    ensures { result ≡ shut_asked id.now }
{
    Some(Command::Close { id: name_of(id)? })
}

/// Whether a socket hears the replies to its own writes.
#[tactic(auto, unfolding(crate::specs::Asked::loopback_asked))]
pub(crate) fn loopback(id: &[u8], on: bool) -> Option<Said<'static>>
    ensures { result ≡ loopback_asked id.now on }
{
    Some(Command::Loopback {
        id: name_of(id)?,
        on,
    })
}

/// A message for a socket.
#[tactic(auto, unfolding(crate::specs::Asked::write_asked))]
pub(crate) fn write<'a>(id: &[u8], message: &'a [u8]) -> Option<Said<'a>>
    ensures { result ≡ write_asked id.now message.now }
{
    Some(Command::Write {
        id: name_of(id)?,
        bytes: Lent::new(message)?,
    })
}

/// The messages of a socket.
#[tactic(auto, unfolding(crate::specs::Asked::read_asked))]
pub(crate) fn read(id: &[u8]) -> Option<Said<'static>>
    ensures { result ≡ read_asked id.now }
{
    Some(Command::Read { id: name_of(id)? })
}

/// How many messages a socket has lost.
#[tactic(auto, unfolding(crate::specs::Asked::lost_asked))]
pub(crate) fn lost(id: &[u8]) -> Option<Said<'static>>
    ensures { result ≡ lost_asked id.now }
{
    Some(Command::Lost { id: name_of(id)? })
}

/// A redirect.
#[tactic(auto, unfolding(crate::specs::Asked::redirect_asked))]
pub(crate) fn redirect(destination: u32, gateway: u32, author: u32) -> Said<'static>
    ensures { result ≡ redirect_asked destination gateway author }
{
    Command::Redirect(NewGateway {
        destination: Inet::new(destination),
        gateway: Inet::new(gateway),
        author: Inet::new(author),
    })
}

/// A doubt of the route of this destination.
pub(crate) fn losing(destination: u32) -> Said<'static>
    ensures { result ≡ Losing destination }
{
    Command::Losing {
        destination: Inet::new(destination),
    }
}

/// The size of a dump of all routes, or of those with a flag of the filter.
pub(crate) fn dump_size(has_filter: bool, filter: u32) -> Said<'static>
    ensures { result ≡ DumpSize (filter_in has_filter filter) }
{
    Command::DumpSize {
        filter: filter_of(has_filter, filter),
    }
}

/// A dump of all routes, or of those with a flag of the filter, into so many bytes.
pub(crate) fn dump(has_filter: bool, filter: u32, room: u32) -> Said<'static>
    ensures { result ≡ Dump (filter_in has_filter filter) room }
{
    Command::Dump {
        filter: filter_of(has_filter, filter),
        room,
    }
}

/// The flags of a dump, where it is of some routes alone.
#[tactic(auto, unfolding(crate::specs::Asked::filter_in))]
fn filter_of(has_filter: bool, filter: u32) -> Option<u32>
    ensures { result ≡ filter_in has_filter filter }
{
    if has_filter { Some(filter) } else { None }
}
