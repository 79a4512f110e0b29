//! Writes to a routing socket.
ghost use Rattle.std.specs.Prelude.{◌≡◌, IsSome, Some, Err};
ghost use Rattle.listeners.specs.Queue.{IsMessage};
ghost use Rattle.listeners.specs.Sockets.{delivered};
ghost use Rattle.memory.specs.Refusing.{Rises};
ghost use Rattle.route_msgs.specs.Headers.{header_in};
ghost use Rattle.route_core.specs.Effects.{EffectOr, IsEchoed, IsEffect, request_effect};
ghost use Rattle.route_core.specs.Outcomes.{reply_with};
ghost use Rattle.route_core.specs.Requests.{makes_room, outcome_of};
ghost use Rattle.route_core.specs.Step.{Steps, lacks_memory, refused_write};
ghost use Rattle.route_core.specs.Tried.{done_or_refused as answer_of};
ghost use Rattle.route_core.specs.declared.command.Command.TheVariants.{Write};

use crate::outcomes::{Done, Reply, carry_out};
use crate::refusal::Refusal;
use crate::replies::ReplyBuffer;
use crate::request::Asked;
use crate::telling::tell;
use crate::tried::done_or_refused;
use crate::{Answer, World};
use listeners::Listeners;
use memory::Memory;
use route_msgs::{Header, Message};
use sock_addrs::families::AF_INET;
use sock_addrs::{Errno, Name};

impl World {
    /// Writes to a socket: a request to add, delete, change, lock or show a route. What the settling of a gateway
    /// tells is delivered first, and then the reply, which those hear who hear IPv4.
    ///
    /// Refused, in this order: EBADF where it isn't open; EMSGSIZE where there are more than 8,192 bytes; EINVAL where
    /// they are no whole message; EPROTONOSUPPORT where its version is not 3; EINVAL where an address overruns, where
    /// there is no destination, where an address has a form that none has; EOPNOTSUPP where its type is none of these;
    /// EINVAL where a route is to be added without a gateway; ESRCH where the destination is of another family; then
    /// as `route_ops` refuses the request. From EPROTONOSUPPORT on a refusal has a reply too. ENOBUFS: there is no
    /// memory for a route that is to be added or changed.
    pub fn write(&mut self, id: Name, bytes: &[u8]) -> Answer<'static>
        ensures { Steps self.old (Write id bytes.now) result self.new }
    {
        self.write_counted(id, bytes, &mut Memory::new())
    }

    /// As `write`; the answer is ENOBUFS exactly where memory was refused.
    pub fn write_counted(&mut self, id: Name, bytes: &[u8], memory: &mut Memory) -> Answer<'static>
        ensures step { Steps self.old (Write id bytes.now) result self.new }
        ensures counted { Rises (lacks_memory result) memory.old memory.new }
    {
        done_or_refused(self.try_write(id, bytes, memory))
    }

    #[tactic(auto, unfolding(crate::specs::Step::effect, crate::specs::Step::takes_memory))]
    fn try_write(&mut self, id: Name, bytes: &[u8], memory: &mut Memory) -> Result<(), Errno>
        ensures step { Steps self.old (Write id bytes.now) (answer_of result) self.new }
        ensures counted { Rises (lacks_memory (answer_of result)) memory.old memory.new }
    {
        let pid = self.listeners.pid_of(id)?;
        match Asked::read(bytes) {
            Ok(asked) => self.request(id, pid, bytes, &asked, memory),
            Err(refusal) => self.refuse(id, pid, bytes, refusal),
        }
    }

    /// Carries out what a write asks, and delivers its messages and its reply.
    fn request(
        &mut self,
        id: Name,
        pid: u32,
        bytes: &[u8],
        asked: &Asked,
        memory: &mut Memory,
    ) -> Result<(), Errno>
        requires echoed { IsEchoed bytes.now }
        requires header { asked.now.header ≡ header_in bytes.now }
        ensures effect { EffectOr (makes_room self.old.interfaces self.old.table asked.now.request)
            (request_effect self.old id pid bytes.now
            (outcome_of self.old.interfaces self.old.table pid bytes.now asked.now.request))
            self.old (answer_of result) self.new }
        ensures counted { Rises (lacks_memory (answer_of result)) memory.old memory.new }
    {
        match carry_out(
            &mut self.table,
            &mut self.blocks,
            &self.interfaces,
            asked,
            pid,
            &mut self.got,
            memory,
        ) {
            Ok(done) => {
                tell(&mut self.listeners, &done.notices);
                reply(
                    &mut self.listeners,
                    &mut self.reply,
                    id,
                    pid,
                    bytes,
                    &asked.header,
                    &done,
                    &self.got,
                );
                Ok(())
            }
            Err(Errno::ENOBUFS) => Err(Errno::ENOBUFS),
            Err(errno) => {
                let refusal = Refusal {
                    errno,
                    family: Some(AF_INET),
                };
                self.refuse(id, pid, bytes, refusal)
            }
        }
    }

    /// Refuses a write, once its reply is delivered to those who hear of it.
    fn refuse(&mut self, id: Name, pid: u32, bytes: &[u8], refusal: Refusal) -> Result<(), Errno>
        requires { IsSome refusal.family → IsEchoed bytes.now }
        ensures effect { IsEffect (refused_write self.old id pid bytes.now refusal) (answer_of result) self.new }
        ensures refused { result ≡ Err refusal.errno }
    {
        if let Some(family) = refusal.family {
            let reply = self.reply.refused(bytes, pid, refusal.errno);
            self.listeners.deliver(reply, family, Some(id));
        }
        Err(refusal.errno)
    }
}

/// Delivers the reply to a request that was done.
fn reply(
    listeners: &mut Listeners,
    buffer: &mut ReplyBuffer,
    id: Name,
    pid: u32,
    bytes: &[u8],
    header: &Header,
    done: &Done,
    own: &Message,
)
    requires echoed { IsEchoed bytes.now }
    requires header { header.now ≡ header_in bytes.now }
    requires message { done.now.reply ≡ Reply.Own → IsMessage own.now.items }
    ensures { listeners.new
        ≡ delivered (reply_with pid bytes.now done.now.reply own.now.items) AF_INET (Some id) listeners.old }
{
    match done.reply {
        Reply::Echoed => listeners.deliver(buffer.done(bytes, header, pid), AF_INET, Some(id)),
        Reply::Own => listeners.deliver(own, AF_INET, Some(id)),
    }
}
