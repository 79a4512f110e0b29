//! A walk over a table.
ghost use Rattle.std.specs.Prelude.{◌≡◌, [], ◌∷◌, IfNone, MatchOption, Some};
ghost use Rattle.radix_tree.specs.Found.{routed};
ghost use Rattle.radix_tree.specs.Rooms.{Part, leaves_in, bits_in, name_of};
ghost use Rattle.radix_tree.specs.Searches.{LedTo};
ghost use Rattle.radix_tree.specs.Walks.{ahead, chain_behind, IsAt, IsFirst, IsOn};
ghost use Rattle.radix_tree.specs.Whole.{Holds, chain_from, shown};
ghost use Rattle.radix_nodes.specs.Naming.{number_of};

use crate::bits::is_one;
use crate::descent::leaf_for;
use mask_table::Rank;
use radix_nodes::{Id, Node, Nodes, Visits};
use sock_addrs::Inet;
use std::marker::Model;

/// Where a walk is: the room of the next route, and the first room of its chain.
#[derive(Clone, Copy)]
pub(crate) struct Place {
    pub(crate) first: Id,
    pub(crate) room: Id,
}

/// A cursor that gives a table's routes in table order. A contract sees those that it has still to give, and the
/// table's turn.
#[derive(Drop)]
pub struct Walk<'a, V> {
    nodes: &'a Nodes<V>,
    /// No place once all routes were given.
    at: Option<Place>,
}

impl<'a, V> Model for Walk<'a, V> {
    ghost use Rattle.radix_tree.specs.Table.{Ahead};
    ghost use Rattle.radix_tree.specs.Walks.{ahead, IsOn};
    ghost use Rattle.radix_tree.specs.Rooms.{leaves_in, bits_in};

    ghost Value = { Ahead V };

    ghost view = { λ w. record {
      rest = ahead (leaves_in w.nodes.now.lodged) (bits_in w.nodes.now.lodged) w.at;
      turn = w.nodes.now.turn;
    } };

    ghost invariant = { λ w. IsOn w.nodes.now.lodged w.at };
}

impl<'a, V> Walk<'a, V> {
    /// A walk over all that stands beneath a root.
    pub(crate) fn over(nodes: &'a Nodes<V>, root: Option<Node>, visits: &mut Visits) -> Walk<'a, V>
        requires holds { Holds nodes.now.lodged root }
        requires turn { visits.old.turn ≡ nodes.now.turn }
        ensures rest { result.rest ≡ shown nodes.now.lodged root }
        ensures turn { result.turn ≡ nodes.now.turn }
        ensures counter { visits.new.turn ≡ visits.old.turn }
    {
        let Some(root) = root else {
            return Walk { nodes, at: None };
        };
        let place = first_place(nodes, root, visits);
        Walk {
            nodes,
            at: Some(place),
        }
    }

    /// The next route with its key and rank, or `None` at the end.
    pub fn step(&mut self, visits: &mut Visits) -> Option<(Inet, Rank, &'a V)>
        requires { visits.old.turn ≡ self.old.turn }
        ensures gives { MatchOption result (self.old.rest ≡ []) (λ r. self.old.rest ≡ routed r ∷ self.new.rest) }
        ensures ends { IfNone result (self.new.rest ≡ []) }
        ensures turn { self.new.turn ≡ self.old.turn }
        ensures counter { visits.new.turn ≡ visits.old.turn }
    {
        let Some(place) = self.at else {
            return None;
        };
        let leaf = self.nodes.links(place.room, visits).leaf();
        let value = self.nodes.value(place.room, visits);
        self.at = place_after(self.nodes, place, visits);
        Some((leaf.key, leaf.rank, value))
    }
}

/// The first route beneath a node.
fn first_place<V>(nodes: &Nodes<V>, from: Node, visits: &mut Visits) -> Place
    requires tree { (p : Part nodes.now.lodged) × (name_of p.tree ≡ from) }
    requires turn { visits.old.turn ≡ nodes.now.turn }
    ensures led { (p : Part nodes.now.lodged) → name_of p.tree ≡ from → LedTo 0 p result.first }
    ensures room { result.room ≡ result.first }
    ensures counter { visits.new.turn ≡ visits.old.turn }
{
    // All bits of this address are 0.
    let first = leaf_for(nodes, from, Inet([0, 0, 0, 0]), visits);
    Place { first, room: first }
}

/// The route behind one: the next of its chain, or else the first behind that.
fn place_after<V>(nodes: &Nodes<V>, place: Place, visits: &mut Visits) -> Option<Place>
    requires at { IsAt nodes.now.lodged place }
    requires turn { visits.old.turn ≡ nodes.now.turn }
    ensures on { IsOn nodes.now.lodged result }
    ensures rest { ahead (leaves_in nodes.now.lodged) (bits_in nodes.now.lodged) (Some place)
        ≡ chain_from (leaves_in nodes.now.lodged (number_of place.room))
        (λ next. ahead (leaves_in nodes.now.lodged) (bits_in nodes.now.lodged) result) }
    ensures counter { visits.new.turn ≡ visits.old.turn }
{
    let leaf = nodes.links(place.room, visits).leaf();
    match leaf.next {
        Some(next) => Some(Place {
            first: place.first,
            room: next,
        }),
        None => place_behind(nodes, place.first, leaf.key, visits),
    }
}

/// The first route behind a chain of a key: on the way up, the first one on the other side of a bit node on whose side
/// of zeros the chain is.
fn place_behind<V>(nodes: &Nodes<V>, first: Id, key: Inet, visits: &mut Visits) -> Option<Place>
    requires first { IsFirst nodes.now.lodged key first }
    requires turn { visits.old.turn ≡ nodes.now.turn }
    ensures on { IsOn nodes.now.lodged result }
    ensures rest { ahead (leaves_in nodes.now.lodged) (bits_in nodes.now.lodged) result
        ≡ chain_behind (leaves_in nodes.now.lodged) (bits_in nodes.now.lodged)
        (leaves_in nodes.now.lodged (number_of first)) }
    ensures counter { visits.new.turn ≡ visits.old.turn }
{
    let mut above = nodes.links(first, visits).leaf().above;
    while let Some(up) = above {
        let Some(node) = nodes.links(up, visits).bit_node() else {
            unreachable!();
        };
        if !is_one(key, node.bit) {
            return Some(first_place(nodes, node.one, visits));
        }
        above = node.above;
    }
    None
}
