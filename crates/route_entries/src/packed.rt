//! Routes as the table keeps them.
ghost use Rattle.std.specs.Prelude.{◌≡◌, true, is_some, IfSome, IsSome};
ghost use Rattle.route_entries.specs.Packing.{is_small, sets_none as sets_none_of};
ghost use Rattle.route_entries.specs.Routes.{has_flag, with_one_more_use};

use crate::Route;
use if_addrs::IfaRef;
use mask_table::Prefix;
use route_msgs::Metrics;
use sock_addrs::{Gate, Inet};
use std::marker::Model;

/// A route as the table keeps it, in 24 bytes: small, as nearly all are, or in a block of its own. A contract sees the
/// route.
#[derive(Drop)]
pub struct PackedRoute {
    form: Form,
}

/// How a route is kept.
#[derive(Drop)]
enum Form {
    /// By itself.
    Small(SmallRoute),
    /// In a block.
    Whole(Box<Route>),
}

/// A route whose gateway is an IPv4 address, and of which no metric is set, though some may be locked.
#[derive(Clone, Copy)]
struct SmallRoute {
    gateway: Inet,
    locks: u32,
    use_count: u32,
    ifa: IfaRef,
    flags: u16,
    genmask: Option<Prefix>,
}

impl Model for PackedRoute {
    ghost use Rattle.route_entries.specs.declared.route.Route.{Route};

    ghost Value = { Route };

    ghost use Rattle.route_entries.specs.Forms.{kept_as};

    ghost view = { λ p. kept_as p.form };
}

impl SmallRoute {
    ghost use Rattle.route_entries.specs.Forms.{small_as};

    /// The route, where it can be kept small.
    fn of(route: &Route) -> Option<SmallRoute>
        ensures small { is_some result ≡ is_small route.now }
        ensures route { IfSome result (λ s. small_as s ≡ route.now) }
    {
        let Gate::Inet(gateway) = route.gateway else {
            return None;
        };
        if !sets_none(&route.metrics) {
            return None;
        }
        Some(SmallRoute {
            gateway,
            locks: route.metrics.locks,
            use_count: route.use_count,
            ifa: route.ifa,
            flags: route.flags,
            genmask: route.genmask,
        })
    }

    /// The route as all others are.
    fn route(&self) -> Route
        ensures { result ≡ small_as self.now }
    {
        Route {
            flags: self.flags,
            gateway: Gate::Inet(self.gateway),
            metrics: Metrics {
                locks: self.locks,
                ..Metrics::default()
            },
            genmask: self.genmask,
            ifa: self.ifa,
            use_count: self.use_count,
        }
    }
}

/// Whether none of the metrics is set.
fn sets_none(metrics: &Metrics) -> bool
    ensures { result ≡ sets_none_of metrics.now }
{
    let m = metrics;
    m.mtu == 0
        && m.hopcount == 0
        && m.expire == 0
        && m.recvpipe == 0
        && m.sendpipe == 0
        && m.ssthresh == 0
        && m.rtt == 0
        && m.rttvar == 0
        && m.pksent == 0
}

impl PackedRoute {
    /// Packs a route that needs no block; `None` where it needs one.
    pub fn small(route: &Route) -> Option<PackedRoute>
        ensures small { is_some result ≡ is_small route.now }
        ensures route { IfSome result (λ packed. packed ≡ route.now) }
    {
        let small = SmallRoute::of(route)?;
        let form = Form::Small(small);
        Some(PackedRoute { form })
    }

    /// Packs a route. Where it needs no block, that comes back.
    pub fn of(route: &Route, mut block: Box<Route>) -> (PackedRoute, Option<Box<Route>>)
        ensures route { result.0 ≡ route.now }
        ensures back { is_some result.1 ≡ is_small route.now }
    {
        if let Some(packed) = PackedRoute::small(route) {
            return (packed, Some(block));
        }
        *block = *route;
        let form = Form::Whole(block);
        (PackedRoute { form }, None)
    }

    /// The block of a route that isn't kept after all: its own, or else the one that came back.
    pub fn into_block(self, back: Option<Box<Route>>) -> Box<Route>
        requires { is_small self ≡ true → IsSome back }
    {
        match self.form {
            Form::Small(_) => back.unwrap(),
            Form::Whole(block) => block,
        }
    }

    /// Writes another route in its place, which is kept small where it can be. It takes no memory: where the route was
    /// small, so is the other.
    pub fn write(&mut self, route: &Route)
        requires { is_small self.old ≡ true → is_small route.now ≡ true }
        ensures { self.new ≡ route.now }
    {
        if let Some(small) = SmallRoute::of(route) {
            self.form = Form::Small(small);
            return;
        }
        match &mut self.form {
            Form::Whole(block) => **block = *route,
            Form::Small(_) => unreachable!(),
        }
    }

    /// The route.
    pub fn route(&self) -> Route
        ensures { result ≡ self.now }
    {
        match &self.form {
            Form::Small(small) => small.route(),
            Form::Whole(route) => **route,
        }
    }

    // What is asked of many routes is read where it lies, without the rest of the route.

    /// Its flags.
    pub fn flags(&self) -> u16
        ensures { result ≡ self.now.flags }
    {
        match &self.form {
            Form::Small(small) => small.flags,
            Form::Whole(route) => route.flags,
        }
    }

    /// Its gateway.
    pub fn gateway(&self) -> Gate
        ensures { result ≡ self.now.gateway }
    {
        match &self.form {
            Form::Small(small) => Gate::Inet(small.gateway),
            Form::Whole(route) => route.gateway,
        }
    }

    /// The mask of its clones, where it has one.
    pub fn genmask(&self) -> Option<Prefix>
        ensures { result ≡ self.now.genmask }
    {
        match &self.form {
            Form::Small(small) => small.genmask,
            Form::Whole(route) => route.genmask,
        }
    }

    /// Its interface address.
    pub fn ifa(&self) -> IfaRef
        ensures { result ≡ self.now.ifa }
    {
        match &self.form {
            Form::Small(small) => small.ifa,
            Form::Whole(route) => route.ifa,
        }
    }

    /// Counts a packet that takes it.
    pub fn count_use(&mut self)
        ensures { self.new ≡ with_one_more_use self.old }
    {
        match &mut self.form {
            Form::Small(small) => small.use_count = small.use_count.wrapping_add(1),
            Form::Whole(route) => route.count_use(),
        }
    }
}
