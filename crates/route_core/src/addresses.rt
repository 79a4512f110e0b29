//! Addresses of interfaces that come and go.
ghost use Rattle.std.specs.Prelude.{◌≡◌, ◌≤◌};
ghost use Rattle.if_addrs.specs.Interfaces.{IsOf};
ghost use Rattle.memory.specs.Refusing.{Rises};
ghost use Rattle.route_core.specs.Tried.{done_or_refused as answer_of};
ghost use Rattle.route_core.specs.Step.{Steps, announced, lacks_memory, renounced};
ghost use Rattle.route_core.specs.Telling.{delivered_all};
ghost use Rattle.route_core.specs.declared.command.Command.TheVariants.{AddAddress, RemoveAddress};

use crate::messages::{address_message, route_added, route_deleted};
use crate::tried::done_or_refused;
use crate::{Answer, World};
use if_addrs::{Facts, IfaRef, Interfaces};
use listeners::Listeners;
use mask_table::Prefix;
use memory::Memory;
use radix_tree::Entry;
use route_entries::{PackedRoute, Route};
use route_msgs::kinds::{RTM_DELADDR, RTM_NEWADDR};
use route_ops::{route_of_address, withdraw_route};
use sock_addrs::families::AF_INET;
use sock_addrs::{Errno, Inet, Name};

impl World {
    /// Gives an interface an address, and adds its route: to the network on a broadcast interface, and to the far
    /// address on the others; the sockets hear of both. Refused in this order: ENXIO: there is no such interface;
    /// EINVAL: the other end's address is given and the interface is not point-to-point, or it is and the address is
    /// not given; EADDRINUSE: an interface holds the address; ENOSPC: 65,535 addresses were added; ENOBUFS: there is
    /// no memory; EEXIST: the route is there, and the address stays without one.
    pub fn add_address(
        &mut self,
        name: Name,
        address: Inet,
        prefix: Prefix,
        cloning: bool,
        far: Option<Inet>,
    ) -> Answer<'static>
        ensures { Steps self.old (AddAddress name address prefix cloning far) result self.new }
    {
        self.add_address_counted(name, address, prefix, cloning, far, &mut Memory::new())
    }

    /// As `add_address`; the answer is ENOBUFS exactly where memory was refused.
    pub fn add_address_counted(
        &mut self,
        name: Name,
        address: Inet,
        prefix: Prefix,
        cloning: bool,
        far: Option<Inet>,
        memory: &mut Memory,
    ) -> Answer<'static>
        ensures step { Steps self.old (AddAddress name address prefix cloning far) result self.new }
        ensures counted { Rises (lacks_memory result) memory.old memory.new }
    {
        done_or_refused(self.try_add_address(name, address, prefix, cloning, far, memory))
    }

    #[tactic(auto, using(route_ops::proofs::Keeping::are_kept, route_ops::proofs::Keeping::added_of), unfolding(crate::specs::Step::effect, crate::specs::Step::takes_memory))]
    fn try_add_address(
        &mut self,
        name: Name,
        address: Inet,
        prefix: Prefix,
        cloning: bool,
        far: Option<Inet>,
        memory: &mut Memory,
    ) -> Result<(), Errno>
        ensures step { Steps self.old (AddAddress name address prefix cloning far) (answer_of result) self.new }
        ensures counted { Rises (lacks_memory (answer_of result)) memory.old memory.new }
    {
        // an `Option` is copied before it is handed on twice, since the borrow checker covers no other form
        let other_end = far;
        self.interfaces.check_addr(name, address, other_end)?;
        let room = self.table.room(memory)?;
        let ifa = match self
            .interfaces
            .add_addr(name, address, prefix, cloning, far, memory)
        {
            Ok(ifa) => ifa,
            Err(errno) => {
                self.table.give_back(room);
                return Err(errno);
            }
        };
        let facts = self.interfaces.facts(ifa);
        let route = route_of_address(ifa, address, &facts);
        // it leads over the address itself, and has no metrics
        let Some(packed) = PackedRoute::small(&route.value) else {
            unreachable!()
        };
        if let Err((room, _)) = self.table.add(room, route.key, route.rank, packed) {
            self.table.give_back(room);
            return Err(Errno::EEXIST);
        }
        announce(
            &self.interfaces,
            &mut self.listeners,
            address,
            &facts,
            &route,
        );
        self.interfaces.mark_routed(ifa);
        Ok(())
    }

    /// Removes an address of an interface: no search by an address finds it any more, and a route that leads out of it
    /// keeps it. The route that it brought goes with it, unless another address of an interface has that by now; where
    /// one goes, the sockets hear of both. Refused in this order: ENXIO: there is no such interface; EADDRNOTAVAIL: it
    /// doesn't have the address. It wants no memory.
    pub fn remove_address(&mut self, name: Name, address: Inet) -> Answer<'static>
        ensures { Steps self.old (RemoveAddress name address) result self.new }
    {
        done_or_refused(self.try_remove_address(name, address))
    }

    #[tactic(auto, unfolding(crate::specs::Step::effect, crate::specs::Step::takes_memory))]
    fn try_remove_address(&mut self, name: Name, address: Inet) -> Result<(), Errno>
        ensures { Steps self.old (RemoveAddress name address) (answer_of result) self.new }
    {
        let ifa = self.interfaces.find_addr(name, address)?;
        let facts = self.interfaces.facts(ifa);
        if let Some(route) = withdraw_route(&mut self.table, ifa, address, &facts) {
            renounce(
                &self.interfaces,
                &mut self.listeners,
                ifa,
                address,
                &facts,
                &route,
            );
        }
        self.interfaces.remove_addr(ifa);
        Ok(())
    }
}

/// Tells the sockets of an interface's new address, and then of its route.
fn announce(
    interfaces: &Interfaces,
    listeners: &mut Listeners,
    address: Inet,
    facts: &Facts,
    route: &Entry<Route>,
)
    requires rank { route.now.rank ≤ 33 }
    requires known { IsOf route.now.value.ifa interfaces.now }
    ensures { listeners.new ≡ delivered_all (announced interfaces.now address facts.now route.now) listeners.old }
{
    let index = interfaces.interface_of(route.value.ifa);
    let link = interfaces.link_text(index);
    let arrival = address_message(RTM_NEWADDR, index, link, address, facts);
    listeners.deliver(&arrival, AF_INET, None);
    listeners.deliver(&route_added(index, route), AF_INET, None);
}

/// Tells the sockets that the route of an interface's address was deleted, and then that the address goes.
fn renounce(
    interfaces: &Interfaces,
    listeners: &mut Listeners,
    ifa: IfaRef,
    address: Inet,
    facts: &Facts,
    route: &Entry<Route>,
)
    requires rank { route.now.rank ≤ 33 }
    requires known { IsOf ifa interfaces.now }
    ensures { listeners.new
        ≡ delivered_all (renounced interfaces.now ifa address facts.now route.now) listeners.old }
{
    let index = interfaces.interface_of(ifa);
    let link = interfaces.link_text(index);
    listeners.deliver(&route_deleted(index, route), AF_INET, None);
    let leave = address_message(RTM_DELADDR, index, link, address, facts);
    listeners.deliver(&leave, AF_INET, None);
}
