//! Routes that seem dead.
ghost use Rattle.std.specs.Prelude.{◌≡◌};
ghost use Rattle.route_core.specs.Tried.{done_or_refused as answer_of};
ghost use Rattle.route_core.specs.Step.{IsStep};
ghost use Rattle.route_core.specs.declared.command.Command.TheVariants.{Losing};

use crate::telling::tell;
use crate::tried::done_or_refused;
use crate::{Answer, World};
use route_ops::losing;
use sock_addrs::{Errno, Inet};

impl World {
    /// Doubts the route of this destination, as TCP does of a route that seems dead: the sockets hear of the route, and
    /// it is removed where a redirect made it. Refused by EHOSTUNREACH: there is no route, and nothing is told then. It
    /// wants no memory.
    pub fn losing(&mut self, destination: Inet) -> Answer<'static>
        ensures { IsStep self.old (Losing destination) result self.new }
    {
        done_or_refused(self.try_losing(destination))
    }

    #[tactic(auto, unfolding(crate::specs::Step::effect))]
    fn try_losing(&mut self, destination: Inet) -> Result<(), Errno>
        ensures { IsStep self.old (Losing destination) (answer_of result) self.new }
    {
        let told = losing(&mut self.table, destination);
        tell(&mut self.listeners, &told.messages);
        match told.errno {
            Some(errno) => Err(errno),
            None => Ok(()),
        }
    }
}
