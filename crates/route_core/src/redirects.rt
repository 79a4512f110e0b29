//! Redirects.
ghost use Rattle.memory.specs.Refusing.{Rises};
ghost use Rattle.route_core.specs.Tried.{done_or_refused as answer_of};
ghost use Rattle.route_core.specs.Step.{Steps, lacks_memory};
ghost use Rattle.route_core.specs.declared.command.Command.TheVariants.{Redirect};

use crate::telling::tell;
use crate::tried::done_or_refused;
use crate::{Answer, NewGateway, World};
use memory::Memory;
use route_ops::{finish, prepare, redirect};
use sock_addrs::Errno;

impl World {
    /// Follows a redirect, of which the sockets hear in each case but want of memory. Refused in the order of
    /// `route_ops::redirect`, by ENETUNREACH, EINVAL, EHOSTUNREACH and EEXIST, and no route is changed then. ENOBUFS:
    /// there is no memory.
    pub fn redirect(&mut self, asked: &NewGateway) -> Answer<'static>
        ensures { Steps self.old (Redirect asked.now) result self.new }
    {
        self.redirect_counted(asked, &mut Memory::new())
    }

    /// As `redirect`; the answer is ENOBUFS exactly where memory was refused.
    pub fn redirect_counted(&mut self, asked: &NewGateway, memory: &mut Memory) -> Answer<'static>
        ensures step { Steps self.old (Redirect asked.now) result self.new }
        ensures counted { Rises (lacks_memory result) memory.old memory.new }
    {
        done_or_refused(self.try_redirect(asked, memory))
    }

    #[tactic(auto, unfolding(crate::specs::Step::effect, crate::specs::Step::takes_memory))]
    fn try_redirect(&mut self, asked: &NewGateway, memory: &mut Memory) -> Result<(), Errno>
        ensures step { Steps self.old (Redirect asked.now) (answer_of result) self.new }
        ensures counted { Rises (lacks_memory (answer_of result)) memory.old memory.new }
    {
        let mut spare = prepare(&mut self.table, &mut self.blocks, memory)?;
        let redirected = redirect(&mut self.table, &self.interfaces, &mut spare, asked);
        finish(&mut self.table, &mut self.blocks, spare);
        tell(&mut self.listeners, &redirected.messages);
        match redirected.errno {
            Some(errno) => Err(errno),
            None => Ok(()),
        }
    }
}
