//! How a route comes into a tree.
ghost use Rattle.std.specs.Prelude.{◌≡◌, ℕ, ◌≤◌, ◌||◌, ◌==◌, Option, Some, None};
ghost use Rattle.radix_nodes.specs.Rooms.{Has};
ghost use Rattle.radix_nodes.specs.declared.id.Id.{Id as IdName};
ghost use Rattle.radix_tree.specs.Bounds.{last_bit};
ghost use Rattle.radix_tree.specs.Exchange.{Exchanged};
ghost use Rattle.radix_tree.specs.Growth.{Gains, Differs, IsSpot, IsLodged, IsBeside, forked, forked_tree, placed};
ghost use Rattle.radix_tree.specs.Growth.{with_head, root_after as root_with, IsSpare, DiffersAt};
ghost use Rattle.radix_tree.specs.Index.{HasPlaceMore};
ghost use Rattle.radix_tree.specs.Marks.{HasRoomMore, has_key};
ghost use Rattle.radix_tree.specs.Rooms.{Part, LeafPart, bit_part, leaves_in, heads_in, masks_in, name_of};
ghost use Rattle.radix_tree.specs.Searches.{LedTo};
ghost use Rattle.radix_tree.specs.Table.{IsRoute};
ghost use Rattle.radix_tree.specs.Whole.{IsWhole, shown, IsWholeBut, nobody_out};
ghost use Rattle.radix_tree.specs.Writes.{KeepsMasks};
ghost use Rattle.radix_tree.specs.Reads.{Stays};
ghost use Rattle.radix_nodes.specs.Naming.{number_of};

use crate::bits::is_one;
use crate::entry::Entry;
use crate::linking::{lift, lodge_leaf, name_child, put_bit_node, put_leaf};
use crate::masks::cut;
use crate::placing::spot_above;
use mask_table::Rank;
use radix_nodes::{BitNode, Id, Leaf, Node, Nodes, Room, Visits};
use sock_addrs::Inet;

/// Where a route of a new key comes in: between a bit node, or none, and the node beneath it, with a bit node of its
/// own for the first bit at which its key differs from the keys beneath.
#[derive(Clone, Copy)]
pub(crate) struct Spot {
    pub(crate) bit: u8,
    pub(crate) above: Option<Id>,
    pub(crate) below: Node,
}

/// The bit node at a spot, with the leaf of its own room on the side of a key, and a list of masks.
fn forked_node(spot: Spot, key: Inet, room: Id, masks: Option<Id>) -> BitNode
    requires { spot.bit ≤ last_bit }
    ensures part { bit_part room.block (Some result) ≡ Some (forked key spot.bit room spot.below spot.above) }
    ensures masks { result.masks ≡ masks }
{
    if is_one(key, spot.bit) {
        BitNode {
            bit: spot.bit,
            zero: spot.below,
            one: Node::Leaf(room),
            above: spot.above,
            masks,
        }
    } else {
        BitNode {
            bit: spot.bit,
            zero: Node::Leaf(room),
            one: spot.below,
            above: spot.above,
            masks,
        }
    }
}

/// A leaf with one route, and the bit node above it.
fn lone_leaf(key: Inet, rank: Rank, above: Option<Id>) -> Leaf
    ensures { result ≡ record { key = key; rank = rank; above = above; next = None; previous = None } }
{
    Leaf {
        key,
        rank,
        above,
        next: None,
        previous: None,
    }
}

/// Lodges a route in a room that is its leaf and, above that, the bit node at a spot, with a list of masks.
fn lodge_forked<V>(
    nodes: &mut Nodes<V>,
    spot: Spot,
    masks: Option<Id>,
    room: Room<V>,
    entry: Entry<V>,
    visits: &mut Visits,
) -> Id
    requires spare { IsSpare nodes.old room }
    requires bit { spot.bit ≤ last_bit }
    requires turn { visits.old.turn ≡ nodes.old.turn }
    ensures number { number_of result ≡ room }
    ensures lodged { IsLodged nodes.old.lodged nodes.new.lodged result entry
        (forked entry.key spot.bit result spot.below spot.above) }
    ensures heads { (n : ℕ) → heads_in nodes.new.lodged n ≡ with_head result masks n (heads_in nodes.old.lodged n) }
    ensures masks { KeepsMasks nodes.old.lodged nodes.new.lodged }
    ensures stays { Stays nodes.old nodes.new visits.old visits.new }
{
    let Entry { key, rank, value } = entry;
    let id = lodge_leaf(nodes, room, lone_leaf(key, rank, None), value, visits);
    put_leaf(nodes, id, lone_leaf(key, rank, Some(id)), visits);
    let node = forked_node(spot, key, id, masks);
    put_bit_node(nodes, id, Some(node), visits);
    id
}

/// The root, once another node has come into a place beneath this bit node: where no bit node is above the place, that
/// node is the root.
pub(crate) fn root_after(above: Option<Id>, to: Node, root: Node) -> Node
    ensures { result ≡ root_with above to root }
{
    match above {
        None => to,
        Some(_) => root,
    }
}

/// Puts a route of a new key into the tree beneath a root, with a bit node that takes over a list of masks, and answers
/// the root and the room from then on.
pub(crate) fn add_beside<V>(
    nodes: &mut Nodes<V>,
    root: Node,
    spot: Spot,
    masks: Option<Id>,
    room: Room<V>,
    entry: Entry<V>,
    visits: &mut Visits,
) -> (Node, Id)
    requires spare { IsSpare nodes.old room }
    requires route { IsRoute entry }
    requires spot { (p : Part nodes.old.lodged) × IsSpot nodes.old.lodged entry.key spot.bit p spot.above spot.below }
    requires turn { visits.old.turn ≡ nodes.old.turn }
    ensures number { number_of result.1 ≡ room }
    ensures beside { IsBeside nodes.old.lodged nodes.new.lodged spot.bit (placed result.1 entry) spot.above spot.below }
    ensures exchanged { (p : Part nodes.old.lodged)
        (s : IsSpot nodes.old.lodged entry.key spot.bit p spot.above spot.below) → name_of p.tree ≡ root
        → (u : Part nodes.new.lodged) × (u.tree ≡ forked_tree spot.bit (placed result.1 entry) s.at.tree)
        × Exchanged nodes.old.lodged nodes.new.lodged entry.key p s.at u result.0 }
    ensures heads { (n : ℕ) → heads_in nodes.new.lodged n ≡ with_head result.1 masks n (heads_in nodes.old.lodged n) }
    ensures masks { KeepsMasks nodes.old.lodged nodes.new.lodged }
    ensures stays { Stays nodes.old nodes.new visits.old visits.new }
{
    let key = entry.key;
    let id = lodge_forked(nodes, spot, masks, room, entry, visits);
    name_child(nodes, spot.above, key, Node::Bit(id), visits);
    lift(nodes, spot.below, Some(id), visits);
    (root_after(spot.above, Node::Bit(id), root), id)
}

/// Puts a route of a new key into a table's tree, from the leaf to which its bits lead and the first bit at which its
/// key differs from that leaf's, and answers the root and the room from then on. The new bit node takes over those
/// masks of the node beneath that are not past the bit. The route's mask isn't listed yet; nor are those of that
/// leaf's routes for which the new bit node is the first one to be listed at.
pub(crate) fn insert_beside<V>(
    nodes: &mut Nodes<V>,
    root: Node,
    leaf: Id,
    bit: u8,
    room: Room<V>,
    entry: Entry<V>,
    visits: &mut Visits,
) -> (Node, Id)
    requires spare { IsSpare nodes.old room }
    requires route { IsRoute entry }
    requires new { DiffersAt nodes.old.lodged root entry.key leaf bit }
    requires turn { visits.old.turn ≡ nodes.old.turn }
    ensures number { number_of result.1 ≡ room }
    ensures whole { (w : IsWhole nodes.old.lodged root) (d : LedTo entry.key w.part leaf)
        → Differs entry.key d.leaf.first.entry.key bit → IsWholeBut nodes.new.lodged result.0
        (λ n. (n == room) || has_key nodes.old.lodged d.leaf.first.entry.key n) nobody_out }
    ensures routes { Gains entry (shown nodes.old.lodged (Some root)) (shown nodes.new.lodged (Some result.0)) }
    ensures rooms { HasRoomMore nodes.old.lodged nodes.new.lodged room }
    ensures places { HasPlaceMore nodes.old.lodged nodes.new.lodged result.1 entry }
    ensures there { Has nodes.new.lodged result.1 }
    ensures unmarked { masks_in nodes.new.lodged room ≡ None }
    ensures leaves { (n : ℕ) (p : LeafPart V) → leaves_in nodes.old.lodged n ≡ Some p → (a : Option IdName)
        × (leaves_in nodes.new.lodged n ≡ Some (record p { leaf = record p.leaf { above = a } })) }
    ensures stays { Stays nodes.old nodes.new visits.old visits.new }
{
    let spot = spot_above(nodes, leaf, bit, visits);
    let masks = cut(nodes, spot.below, spot.bit, visits);
    add_beside(nodes, root, spot, masks, room, entry, visits)
}
