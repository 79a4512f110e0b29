//! The replies to writes that echo the written bytes.
ghost use Rattle.std.specs.Prelude.{◌≡◌, ◌≤◌, length, is_err, vec_capacity};
ghost use Rattle.listeners.specs.Queue.{IsMessage};
ghost use Rattle.memory.specs.Refusing.{Rises};
ghost use Rattle.route_msgs.specs.Headers.{header_in};
ghost use Rattle.route_core.specs.Effects.{IsEchoed};
ghost use Rattle.route_core.specs.Requests.{done_reply};
ghost use Rattle.route_core.specs.Writes.{refused_reply};

use crate::request::MOST_BYTES;
use memory::Memory;
use route_msgs::flags::RTF_DONE;
use route_msgs::{Header, set_errno, set_flags, set_pid};
use sock_addrs::Errno;
use std::alloc::{AllocError, Global};
use std::marker::Model;

/// Room for the longest write, in which the reply to one is made.
#[derive(Drop)]
pub(crate) struct ReplyBuffer {
    bytes: Vec<u8>,
}

impl Model for ReplyBuffer {
    ghost use Rattle.std.specs.Prelude.{◌≤◌, vec_capacity};
    ghost use Rattle.route_core.specs.declared.request.TheConstants.{MOST_BYTES};

    ghost Value = { Unit {0} };

    ghost view = { λ b. tt };

    ghost invariant = { λ b. MOST_BYTES ≤ vec_capacity b.bytes };
}

impl ReplyBuffer {
    /// The room, which stays. `Err` where there is no memory for it.
    pub(crate) fn new(alloc: Global, memory: &mut Memory) -> Result<ReplyBuffer, AllocError>
        ensures counted { Rises (is_err result) memory.old memory.new }
    {
        let bytes = memory.with_capacity(alloc, MOST_BYTES)?;
        Ok(ReplyBuffer { bytes })
    }

    /// The reply to a refused write: the written bytes with the writer's pid, but where the version is another, and the
    /// errno.
    #[tactic(auto, using(crate::proofs::WholeMessages::refused_is_message))]
    pub(crate) fn refused(&mut self, bytes: &[u8], pid: u32, errno: Errno) -> &[u8]
        requires { IsEchoed bytes.now }
        ensures reply { result.now ≡ refused_reply errno pid bytes.now }
        ensures message { IsMessage result.now }
    {
        echo(&mut self.bytes, bytes);
        refuse(&mut self.bytes, pid, errno);
        &self.bytes
    }

    /// The reply to a request that was done, but to a GET: the written bytes with the writer's pid, and DONE among the
    /// flags.
    #[tactic(auto, using(crate::proofs::WholeMessages::done_is_message))]
    pub(crate) fn done(&mut self, bytes: &[u8], header: &Header, pid: u32) -> &[u8]
        requires echoed { IsEchoed bytes.now }
        requires header { header.now ≡ header_in bytes.now }
        ensures reply { result.now ≡ done_reply pid bytes.now }
        ensures message { IsMessage result.now }
    {
        echo(&mut self.bytes, bytes);
        confirm(&mut self.bytes, header, pid);
        &self.bytes
    }
}

/// Puts these bytes in the place of those of the buffer, which has room for them.
fn echo(buffer: &mut Vec<u8>, bytes: &[u8])
    requires { length bytes.now ≤ vec_capacity buffer.old }
    ensures bytes { buffer.new.items ≡ bytes.now }
    ensures capacity { vec_capacity buffer.old ≤ vec_capacity buffer.new }
{
    buffer.clear();
    buffer.extend_from_slice(bytes).unwrap();
}

/// Makes of written bytes the reply that refuses them.
#[tactic(auto, using(crate::proofs::WholeMessages::whole))]
fn refuse(message: &mut [u8], pid: u32, errno: Errno)
    requires { IsEchoed message.old }
    ensures { message.new ≡ refused_reply errno pid message.old }
{
    match errno {
        Errno::EPROTONOSUPPORT => {}
        _ => set_pid(message, pid),
    }
    set_errno(message, errno.number());
}

/// Makes of written bytes the reply that they were carried out.
#[tactic(auto, using(crate::proofs::WholeMessages::whole))]
fn confirm(message: &mut [u8], header: &Header, pid: u32)
    requires echoed { IsEchoed message.old }
    requires header { header.now ≡ header_in message.old }
    ensures { message.new ≡ done_reply pid message.old }
{
    set_pid(message, pid);
    set_flags(message, header.flags | u32::from(RTF_DONE));
}
