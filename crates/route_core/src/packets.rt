//! Packets.
ghost use Rattle.std.specs.Prelude.{◌≡◌, false, true};
ghost use Rattle.if_addrs.specs.Interfaces.{IsOf};
ghost use Rattle.memory.specs.Refusing.{Rises};
ghost use Rattle.route_core.specs.Tried.{answer_to as answer_of};
ghost use Rattle.route_core.specs.Packets.{choice_of, clones_for, fate_of, rejection_of};
ghost use Rattle.route_core.specs.Step.{Steps, lacks_memory};
ghost use Rattle.route_core.specs.declared.command.Command.TheVariants.{Packet};

use crate::telling::{tell, tell_one};
use crate::tried::answer_to;
use crate::{Answer, Choice, World};
use if_addrs::Interfaces;
use memory::Memory;
use radix_tree::Entry;
use route_entries::Route;
use route_msgs::flags::{RTF_BLACKHOLE, RTF_CLONING, RTF_HOST, RTF_REJECT};
use route_ops::{Notice, count_use, finish, look_up, prepare, use_best};
use sock_addrs::{Errno, Gate, Inet};

impl World {
    /// Finds the route of a packet to this address, which clones where it has to, and counts its use. A packet that
    /// finds none is refused by EHOSTUNREACH; one whose route is a blackhole is dropped; one whose route rejects is
    /// refused by EHOSTUNREACH where that is a host's, and otherwise by ENETUNREACH. ENOBUFS: there is no memory,
    /// which is asked for only where its route clones.
    pub fn packet(&mut self, destination: Inet) -> Answer<'static>
        ensures { Steps self.old (Packet destination) result self.new }
    {
        self.packet_counted(destination, &mut Memory::new())
    }

    /// As `packet`; the answer is ENOBUFS exactly where memory was refused.
    pub fn packet_counted(&mut self, destination: Inet, memory: &mut Memory) -> Answer<'static>
        ensures step { Steps self.old (Packet destination) result self.new }
        ensures counted { Rises (lacks_memory result) memory.old memory.new }
    {
        answer_to(self.try_packet(destination, memory))
    }

    #[tactic(auto, unfolding(crate::specs::Step::effect, crate::specs::Step::takes_memory))]
    fn try_packet(
        &mut self,
        destination: Inet,
        memory: &mut Memory,
    ) -> Result<Answer<'static>, Errno>
        ensures step { Steps self.old (Packet destination) (answer_of result) self.new }
        ensures counted { Rises (lacks_memory (answer_of result)) memory.old memory.new }
    {
        let Some(best) = use_best(&mut self.table, destination) else {
            let miss = Notice::Miss {
                about: Gate::Inet(destination),
                errno: None,
            };
            tell_one(&mut self.listeners, &miss);
            return Err(Errno::EHOSTUNREACH);
        };
        if best.value.has(RTF_CLONING) {
            return self.packet_that_clones(destination, memory);
        }
        Ok(fate(&self.interfaces, &best))
    }

    /// Finds the route of a packet whose route clones for it.
    #[tactic(auto, unfolding(crate::specs::Step::effect, crate::specs::Step::takes_memory))]
    fn packet_that_clones(
        &mut self,
        destination: Inet,
        memory: &mut Memory,
    ) -> Result<Answer<'static>, Errno>
        requires { clones_for destination self.old.table ≡ true }
        ensures step { Steps self.old (Packet destination) (answer_of result) self.new }
        ensures counted { Rises (lacks_memory (answer_of result)) memory.old memory.new }
    {
        let mut spare = prepare(&mut self.table, &mut self.blocks, memory)?;
        let looked = look_up(&mut self.table, &mut spare, Gate::Inet(destination), true);
        finish(&mut self.table, &mut self.blocks, spare);
        tell(&mut self.listeners, &looked.messages);
        let Some(route) = looked.answer else {
            unreachable!()
        };
        count_use(&mut self.table, &route);
        Ok(fate(&self.interfaces, &route))
    }
}

/// What becomes of a packet by its route.
fn fate(interfaces: &Interfaces, route: &Entry<Route>) -> Answer<'static>
    requires { IsOf route.now.value.ifa interfaces.now }
    ensures fate { result ≡ fate_of interfaces.now route.now }
    ensures memory { lacks_memory result ≡ false }
{
    if route.value.has(RTF_BLACKHOLE) {
        return Answer::Dropped(choice(interfaces, route));
    }
    if route.value.has(RTF_REJECT) {
        return Answer::Refused(rejection(&route.value));
    }
    Answer::Routed(choice(interfaces, route))
}

/// Why a route that rejects refuses a packet.
fn rejection(route: &Route) -> Errno
    ensures { result ≡ rejection_of route.now }
{
    if route.has(RTF_HOST) {
        Errno::EHOSTUNREACH
    } else {
        Errno::ENETUNREACH
    }
}

/// What is told of the route that a packet takes.
pub(crate) fn choice(interfaces: &Interfaces, route: &Entry<Route>) -> Choice
    requires { IsOf route.now.value.ifa interfaces.now }
    ensures { result ≡ choice_of interfaces.now route.now }
{
    Choice {
        key: route.key,
        rank: route.rank,
        gateway: route.value.gateway,
        index: interfaces.interface_of(route.value.ifa),
        flags: route.value.flags,
    }
}
