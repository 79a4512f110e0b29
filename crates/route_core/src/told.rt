//! What is in a world, told one after another. None of it changes anything, and only all routes at once want memory.
ghost use Rattle.std.specs.Prelude.{◌≡◌, ◌++◌, ◌∷◌, [], IfOk, OnOk, is_err, map};
ghost use Rattle.if_addrs.specs.Interfaces.{IsOf};
ghost use Rattle.if_addrs.specs.Told.{interface_told, next_address};
ghost use Rattle.listeners.specs.Told.{socket_told};
ghost use Rattle.memory.specs.Refusing.{Rises};
ghost use Rattle.route_core.specs.Told.{all_told, route_told, stored};
ghost use Rattle.route_ops.specs.Standing.{AreOf};

use crate::packets::choice;
use crate::{Choice, World};
use if_addrs::{AddressTold, InterfaceTold, Interfaces};
use listeners::SocketTold;
use mask_table::{Prefix, Rank};
use memory::Memory;
use radix_tree::{Entry, Table, Visits};
use route_entries::{PackedRoute, Route};
use route_msgs::Metrics;
use route_ops::route_at;
use sock_addrs::{Gate, Inet};
use std::alloc::{AllocError, Global};

/// What is told of a route of the table.
#[derive(Clone, Copy, Debug, PartialEq, Eq)]
pub struct RouteTold {
    /// What a packet that takes it is told.
    pub choice: Choice,
    /// The mask that a clone of it gets, where it has one.
    pub genmask: Option<Prefix>,
    /// How many packets took it; it wraps.
    pub use_count: u32,
    /// Its metrics.
    pub metrics: Metrics,
}

impl RouteTold {
    /// What is told of this route.
    fn of(interfaces: &Interfaces, route: &Entry<Route>) -> RouteTold
        requires { IsOf route.now.value.ifa interfaces.now }
        ensures { result ≡ route_told interfaces.now route.now }
    {
        RouteTold {
            choice: choice(interfaces, route),
            genmask: route.value.genmask,
            use_count: route.value.use_count,
            metrics: route.value.metrics,
        }
    }
}

impl World {
    /// The interface with this number, which is from 1 on in the order in which they were attached, or `None` where
    /// there is none.
    pub fn interface(&self, index: u16) -> Option<InterfaceTold>
        ensures { result ≡ interface_told index self.now.interfaces }
    {
        self.interfaces.interface(index)
    }

    /// The first address, from this place on, of the interface with this number, or `None` where there is none; the
    /// first place is 0. One that was removed is passed over.
    pub fn next_address(&self, index: u16, place: usize) -> Option<AddressTold>
        ensures { result ≡ next_address index place self.now.interfaces }
    {
        self.interfaces.next_address(index, place)
    }

    /// The socket at this place, which is from 0 on in the order in which they were opened, or `None` where there is
    /// none.
    pub fn socket(&self, place: usize) -> Option<SocketTold>
        ensures { result ≡ socket_told place self.now.sockets }
    {
        self.listeners.socket(place)
    }

    /// The route with this key and rank, or `None` where there is none. No use is counted.
    pub fn route(&mut self, key: Inet, rank: Rank) -> Option<RouteTold>
        ensures told { result ≡ stored key rank self.old }
        ensures kept { self.new ≡ self.old }
    {
        let mut visits = self.table.begin();
        let Some(route) = route_at(&self.table, &mut visits, key, rank) else {
            return None;
        };
        Some(RouteTold::of(&self.interfaces, &route))
    }

    /// All routes, in table order: by rising keys, and of one key that of the host first and then the longest mask.
    /// `Err` where there is no memory for them, which is counted. No use is counted.
    pub fn routes(&mut self, memory: &mut Memory) -> Result<Vec<RouteTold>, AllocError>
        ensures told { IfOk result (λ routes. routes.items ≡ all_told self.old) }
        ensures kept { self.new ≡ self.old }
        ensures counted { Rises (is_err result) memory.old memory.new }
    {
        let mut visits = self.table.begin();
        tell_all(
            self.alloc,
            &self.table,
            &self.interfaces,
            &mut visits,
            memory,
        )
    }
}

/// What is told of each route of a table.
fn tell_all(
    alloc: Global,
    table: &Table<PackedRoute>,
    interfaces: &Interfaces,
    visits: &mut Visits,
    memory: &mut Memory,
) -> Result<Vec<RouteTold>, AllocError>
    requires turn { visits.old.turn ≡ table.now.turn }
    requires of { AreOf interfaces.now table.now.entries }
    ensures told { IfOk result (λ routes. routes.items ≡ map (route_told interfaces.now) table.now.entries) }
    ensures counted { Rises (is_err result) memory.old memory.new }
{
    let mut routes = Vec::new(alloc);
    let mut walk = table.walk(visits);
    while let Some((key, rank, packed)) = walk.step(visits) {
        let told = told_of(interfaces, key, rank, packed);
        push_told(&mut routes, told, packed.gateway(), memory)?;
    }
    Ok(routes)
}

/// What is told of a route that the table keeps.
fn told_of(interfaces: &Interfaces, key: Inet, rank: Rank, packed: &PackedRoute) -> RouteTold
    requires { IsOf packed.now.ifa interfaces.now }
    ensures { result ≡ route_told interfaces.now (record { key = key; rank = rank; value = packed.now }) }
{
    let route = Entry {
        key,
        rank,
        value: packed.route(),
    };
    RouteTold::of(interfaces, &route)
}

/// Appends what is told of a route. Its gateway is named here, so that a generated proof knows of its type.
fn push_told(
    routes: &mut Vec<RouteTold>,
    told: RouteTold,
    gateway: Gate,
    memory: &mut Memory,
) -> Result<(), AllocError>
    requires { told.choice.gateway ≡ gateway }
    ensures told { OnOk result (routes.new.items ≡ routes.old.items ++ told ∷ []) }
    ensures counted { Rises (is_err result) memory.old memory.new }
{
    let choice = Choice {
        gateway,
        ..told.choice
    };
    memory.push(routes, RouteTold { choice, ..told })
}
