//! A route as C sees it.
ghost use Rattle.std.specs.Prelude.{◌≡◌, length};
ghost use Rattle.sock_addrs.specs.Padded.{padded_to};
ghost use Rattle.hoiskend.specs.Sessions.{family_of as family, gateway_of as gateway, link_of as link, number_of as number, route_of};

use route_core::Choice;
use sock_addrs::Gate;
use sock_addrs::families::{AF_INET, AF_LINK};

/// The most bytes of a link-layer gateway.
pub const LINK_BYTES: usize = 32;

/// The route that a packet takes. What it held before a call that writes it may be any bytes.
#[repr(C)]
#[derive(Clone, Copy)]
pub struct Route {
    /// Its key.
    pub key: u32,
    /// The address of its gateway, or 0 where that is a link-layer address.
    pub gateway: u32,
    /// The number of the interface that it leaves by.
    pub index: u16,
    /// Its flags.
    pub flags: u16,
    /// Its rank: the bits of its mask, or 33 without one.
    pub rank: u8,
    /// The family of its gateway: 2, or 18 where that is a link-layer address.
    pub family: u8,
    /// 1 where it drops the packet without an error, or else 0.
    pub drops: u8,
    /// How many bytes a link-layer gateway has; 0 where it is none.
    pub link_n: u8,
    /// The bytes of a link-layer gateway, with zeros behind them.
    pub link: [u8; LINK_BYTES],
}

impl Route {
    /// What is told of the route.
    pub(crate) fn of(choice: &Choice, drops: bool) -> Route
        ensures { result ≡ route_of choice.now drops }
    {
        let (link_n, link) = link_of(choice.gateway);
        Route {
            key: choice.key.number(),
            gateway: gateway_of(choice.gateway),
            index: choice.index,
            flags: choice.flags,
            rank: choice.rank.number(),
            family: family_of(choice.gateway),
            drops: number_of(drops),
            link_n,
            link,
        }
    }
}

fn gateway_of(gate: Gate) -> u32
    ensures { result ≡ gateway gate }
{
    match gate {
        Gate::Inet(address) => address.number(),
        Gate::Link(_) => 0,
    }
}

fn family_of(gate: Gate) -> u8
    ensures { result ≡ family gate }
{
    match gate {
        Gate::Inet(_) => AF_INET,
        Gate::Link(_) => AF_LINK,
    }
}

/// How many bytes a link-layer gateway has, and these with zeros behind them.
fn link_of(gate: Gate) -> (u8, [u8; LINK_BYTES])
    ensures count { result.0 ≡ length (link gate) }
    ensures bytes { result.1 ≡ padded_to LINK_BYTES (link gate) }
{
    match gate {
        Gate::Inet(_) => (0, [0; LINK_BYTES]),
        Gate::Link(sockaddr) => {
            let bytes = sockaddr.as_bytes();
            let mut room = [0; LINK_BYTES];
            room[..bytes.len()].copy_from_slice(bytes);
            (bytes.len() as u8, room)
        }
    }
}

/// 1 where it is so, or else 0.
pub(crate) fn number_of(is: bool) -> u8
    ensures { result ≡ number is }
{
    if is { 1 } else { 0 }
}
