//! The way down a tree.
ghost use Rattle.std.specs.Prelude.{◌≡◌, ℕ, ◌<◌, IfSome, None};
ghost use Rattle.radix_nodes.specs.Rooms.{Has};
ghost use Rattle.radix_nodes.specs.declared.links.Node.{Node as Named};
ghost use Rattle.radix_tree.specs.Bounds.{way_reads};
ghost use Rattle.radix_tree.specs.Index.{Indexes};
ghost use Rattle.radix_tree.specs.Reads.{Reads};
ghost use Rattle.radix_tree.specs.Rooms.{Part, name_of};
ghost use Rattle.radix_tree.specs.Searches.{IsOnWay, LedTo};
ghost use Rattle.radix_tree.specs.Tree.{bit_at};
ghost use Rattle.radix_tree.specs.Whole.{IsWhole};

use crate::bits::{first_difference, is_one};
use crate::index::Index;
use crate::listing::first_of_chain;
use crate::roles::{self, bit_node};
use radix_nodes::{Id, Node, Nodes, Visits};
use sock_addrs::Inet;

/// The leaf to which an address's bits lead from a node, by its first room.
pub(crate) fn leaf_for<V>(nodes: &Nodes<V>, from: Node, address: Inet, visits: &mut Visits) -> Id
    requires tree { (p : Part nodes.now.lodged) × (name_of p.tree ≡ from) }
    requires turn { visits.old.turn ≡ nodes.now.turn }
    ensures leaf { (p : Part nodes.now.lodged) → name_of p.tree ≡ from → LedTo address p result }
    ensures visits { Reads visits.old visits.new way_reads }
{
    let mut at = from;
    loop {
        match at {
            Node::Leaf(room) => return room,
            Node::Bit(room) => {
                let node = bit_node(nodes, room, visits);
                at = if is_one(address, node.bit) {
                    node.one
                } else {
                    node.zero
                };
            }
        }
    }
}

/// The first room of a leaf that is near an address, where the index has one. Asked for before all else that
/// `Table::put` looks at, it comes from memory meanwhile.
pub(crate) fn near_leaf<V>(
    nodes: &Nodes<V>,
    index: &Index,
    root: Node,
    address: Inet,
    visits: &mut Visits,
) -> Option<Id>
    requires whole { IsWhole nodes.now.lodged root }
    requires indexed { Indexes index.now nodes.now.lodged }
    requires turn { visits.old.turn ≡ nodes.now.turn }
    ensures there { IfSome result (λ room. Has nodes.now.lodged room) }
    ensures counter { visits.new.turn ≡ visits.old.turn }
{
    match index.near(address, visits) {
        Some(room) => Some(first_of_chain(nodes, room, visits)),
        None => None,
    }
}

/// The leaf to which an address's bits lead from a root, by its first room. Where a room is near, the way begins there,
/// and so passes few nodes, most of which an addition changes.
pub(crate) fn leaf_from<V>(
    nodes: &Nodes<V>,
    near: Option<Id>,
    root: Node,
    address: Inet,
    visits: &mut Visits,
) -> Id
    requires whole { IsWhole nodes.now.lodged root }
    requires near { IfSome near (λ room. Has nodes.now.lodged room) }
    requires turn { visits.old.turn ≡ nodes.now.turn }
    ensures leaf { (w : IsWhole nodes.now.lodged root) → LedTo address w.part result }
    ensures counter { visits.new.turn ≡ visits.old.turn }
{
    let from = node_from(nodes, near, root, address, visits);
    leaf_for(nodes, from, address, visits)
}

/// A node on the way of an address from a root.
fn node_from<V>(
    nodes: &Nodes<V>,
    near: Option<Id>,
    root: Node,
    address: Inet,
    visits: &mut Visits,
) -> Node
    requires whole { IsWhole nodes.now.lodged root }
    requires near { IfSome near (λ room. Has nodes.now.lodged room) }
    requires turn { visits.old.turn ≡ nodes.now.turn }
    ensures on_way { (w : IsWhole nodes.now.lodged root) → IsOnWay address w.part result }
    ensures counter { visits.new.turn ≡ visits.old.turn }
{
    match near {
        Some(room) => node_near(nodes, room, address, visits),
        None => root,
    }
}

/// So from the leaf of a room's route.
fn node_near<V>(nodes: &Nodes<V>, room: Id, address: Inet, visits: &mut Visits) -> Node
    requires whole { (root : Named) × IsWhole nodes.now.lodged root }
    requires there { Has nodes.now.lodged room }
    requires turn { visits.old.turn ≡ nodes.now.turn }
    ensures on_way { (root : Named) (w : IsWhole nodes.now.lodged root) → IsOnWay address w.part result }
    ensures counter { visits.new.turn ≡ visits.old.turn }
{
    let first = first_of_chain(nodes, room, visits);
    let key = roles::leaf(nodes, first, visits).key;
    match first_difference(address, key) {
        Some(bit) => shared_above(nodes, first, bit, visits),
        None => Node::Leaf(first),
    }
}

/// The node beneath the first bit node on the way up from a leaf whose bit is before this one, or at it that bit node
/// itself: an address that has the bits of the leaf's key before this one comes by it.
fn shared_above<V>(nodes: &Nodes<V>, leaf: Id, bit: u8, visits: &mut Visits) -> Node
    requires led { (key : ℕ) × (whole : Part nodes.now.lodged) × (whole.above ≡ None) × (whole.low ≡ 0)
        × LedTo key whole leaf }
    requires turn { visits.old.turn ≡ nodes.now.turn }
    ensures on_way { (address key : ℕ) (whole : Part nodes.now.lodged) → whole.above ≡ None → whole.low ≡ 0
        → LedTo key whole leaf → ((c : ℕ) → c < bit → bit_at c address ≡ bit_at c key) → IsOnWay address whole result }
    ensures counter { visits.new.turn ≡ visits.old.turn }
{
    let mut below = Node::Leaf(leaf);
    let mut above = roles::leaf(nodes, leaf, visits).above;
    while let Some(up) = above {
        let node = bit_node(nodes, up, visits);
        if node.bit < bit {
            return below;
        }
        below = Node::Bit(up);
        if node.bit == bit {
            return below;
        }
        above = node.above;
    }
    below
}
