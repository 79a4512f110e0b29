//! Why a command was refused.
ghost use Rattle.std.specs.Prelude.{◌≡◌, ◌++◌, OnOk, is_err};
ghost use Rattle.memory.specs.Refusing.{Rises};
ghost use Rattle.world_words.specs.Reasons.{absent_reason as absent_of, full_reason as full_of, host_reason as host_of, invalid_reason as invalid_of, misfit_reason as misfit_of, network_reason as network_of, reason_of, refusal_words, taken_reason as taken_of};

use crate::errnos::errno_name;
use crate::faults::{message_fault, missing_reason};
use lab_text::Text;
use memory::Memory;
use route_core::Said;
use sock_addrs::{Errno, Inet};
use std::alloc::AllocError;

/// Appends the errno's name and number, and why the command was refused.
pub(crate) fn put_refusal(
    text: &mut Text,
    asked: &Said<'_>,
    errno: Errno,
    memory: &mut Memory,
) -> Result<(), AllocError>
    ensures put { OnOk result (text.new ≡ text.old ++ refusal_words asked.now errno) }
    ensures counted { Rises (is_err result) memory.old memory.new }
{
    text.put(errno_name(errno).as_bytes(), memory)?;
    text.put(b" (", memory)?;
    text.put_number(u64::from(errno.number()), memory)?;
    text.put(b"): ", memory)?;
    text.put(reason(asked, errno).as_bytes(), memory)?;
    text.put(b"\n", memory)
}

/// Why a command was refused.
fn reason(asked: &Said<'_>, errno: Errno) -> &'static str
    ensures { result.now ≡ reason_of asked.now errno }
{
    match errno {
        Errno::ESRCH => absent_reason(asked),
        Errno::ENXIO => "there is no interface of this name",
        Errno::EBADF => "no socket of this id is open",
        Errno::ENOMEM => "the room is too small for all that is asked for",
        Errno::EEXIST => taken_reason(asked),
        Errno::EINVAL => invalid_reason(asked),
        Errno::EMFILE => "64 sockets are open",
        Errno::ENOSPC => full_reason(asked),
        Errno::EMSGSIZE => "the message has more than 8192 bytes",
        Errno::EPROTONOSUPPORT => "the version is not 3",
        Errno::EOPNOTSUPP => "a message of this type is no request",
        Errno::EADDRINUSE => "an interface holds the address already",
        Errno::EADDRNOTAVAIL => "the interface does not hold the address",
        Errno::ENETUNREACH => network_reason(asked),
        Errno::ENOBUFS => "there is no memory; nothing was changed",
        Errno::ETOOMANYREFS =>
            "no route of this destination has this mask; without a mask a host's route is meant",
        Errno::EHOSTUNREACH => host_reason(asked),
    }
}

/// What isn't there.
fn absent_reason(asked: &Said<'_>) -> &'static str
    ensures { result.now ≡ absent_of asked.now }
{
    match asked {
        Said::Write { bytes, .. } => missing_reason(bytes.as_slice()),
        _ => "there is no such route",
    }
}

/// What is there already.
fn taken_reason(asked: &Said<'_>) -> &'static str
    ensures { result.now ≡ taken_of asked.now }
{
    match asked {
        Said::Attach { .. } => "there is an interface of this name",
        Said::AddAddress { .. } => {
            "a route of its network and mask is there already; the interface keeps the address without one"
        }
        Said::Open { .. } => "a socket of this id is open",
        Said::Write { .. } => "there is a route with this key and mask",
        Said::Redirect(_) => "the destination has a route without a mask that lacks the flag HOST",
        _ => "it is there already",
    }
}

/// What isn't as it has to be.
fn invalid_reason(asked: &Said<'_>) -> &'static str
    ensures { result.now ≡ invalid_of asked.now }
{
    match asked {
        Said::AddAddress { far, .. } => misfit_reason(*far),
        Said::Write { bytes, .. } => message_fault(bytes.as_slice()),
        Said::Redirect(_) => {
            "who says so is not the gateway of the destination's route, or the new gateway is reached by another interface address than that route's"
        }
        _ => "it can't be done so",
    }
}

/// How an address doesn't fit its interface, by the address of the other end.
fn misfit_reason(far: Option<Inet>) -> &'static str
    ensures { result.now ≡ misfit_of far }
{
    match far {
        Some(_) => "only a point-to-point interface has another end",
        None => "a point-to-point interface wants the address of its other end",
    }
}

/// What there are too many of.
fn full_reason(asked: &Said<'_>) -> &'static str
    ensures { result.now ≡ full_of asked.now }
{
    match asked {
        Said::Attach { .. } => "there are 64 interfaces",
        Said::AddAddress { .. } => "65535 addresses were added, and no more can be",
        _ => "there is no room for one more",
    }
}

/// Where no network is reached.
fn network_reason(asked: &Said<'_>) -> &'static str
    ensures { result.now ≡ network_of asked.now }
{
    match asked {
        Said::Write { .. } => "no interface leads to the gateway",
        Said::Packet { .. } => "its route has the flag REJECT",
        Said::Redirect(_) => "the new gateway is in no interface's network",
        _ => "the network can't be reached",
    }
}

/// Where no host is reached.
fn host_reason(asked: &Said<'_>) -> &'static str
    ensures { result.now ≡ host_of asked.now }
{
    match asked {
        Said::Packet { .. } => "no route leads there, or a host's route that has the flag REJECT",
        Said::Redirect(_) => {
            "the new gateway is an address or a broadcast address of an interface, or the destination's route lacks the flag GATEWAY"
        }
        Said::Losing { .. } => "no route leads there",
        _ => "the host can't be reached",
    }
}
