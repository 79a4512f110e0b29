//! How a room changes in one of its roles.
ghost use Rattle.std.specs.Prelude.{◌≡◌, ℕ, Some};
ghost use Rattle.radix_nodes.specs.Rooms.{Has};
ghost use Rattle.radix_nodes.specs.declared.links.Node.TheVariants.{Leaf as LeafOf, Bit as BitOf};
ghost use Rattle.radix_tree.specs.Growth.{name_child as child_named, IsSpare};
ghost use Rattle.radix_tree.specs.Searches.{LeafAt, ForkAt};
ghost use Rattle.radix_tree.specs.Rooms.{Part, name_of, leaves_in, bits_in, heads_in, masks_in};
ghost use Rattle.radix_tree.specs.Writes.{put_leaf as leaf_put, put_bit as bit_put, put_head as head_put};
ghost use Rattle.radix_tree.specs.Writes.{put_mask as mask_put, lodge_leaf as leaf_lodged, lift_leaf as leaf_lifted};
ghost use Rattle.radix_tree.specs.Writes.{lift_bit as bit_lifted, KeepsLeaves, KeepsHeads, KeepsMasks, OnlyLeaves};
ghost use Rattle.radix_tree.specs.Writes.{OnlyBits, KeepsTree};
ghost use Rattle.radix_tree.specs.Reads.{Stays};
ghost use Rattle.radix_nodes.specs.Naming.{number_of};

use crate::bits::is_one;
use crate::roles;
use radix_nodes::{BitNode, Id, Leaf, MaskNode, Node, Nodes, Room, Visits};
use sock_addrs::Inet;

/// Writes what a room is as a leaf.
pub(crate) fn put_leaf<V>(nodes: &mut Nodes<V>, room: Id, leaf: Leaf, visits: &mut Visits)
    requires there { Has nodes.old.lodged room }
    requires turn { visits.old.turn ≡ nodes.old.turn }
    ensures leaves { (n : ℕ) → leaves_in nodes.new.lodged n ≡ leaf_put room leaf n (leaves_in nodes.old.lodged n) }
    ensures only { OnlyLeaves nodes.old.lodged nodes.new.lodged }
    ensures stays { Stays nodes.old nodes.new visits.old visits.new }
{
    let links = *nodes.links(room, visits);
    nodes.set_links(room, links.with_leaf(leaf));
}

/// Writes what a room is as a bit node, or that it is none.
pub(crate) fn put_bit_node<V>(
    nodes: &mut Nodes<V>,
    room: Id,
    node: Option<BitNode>,
    visits: &mut Visits,
)
    requires there { Has nodes.old.lodged room }
    requires turn { visits.old.turn ≡ nodes.old.turn }
    ensures leaves { KeepsLeaves nodes.old.lodged nodes.new.lodged }
    ensures bits { (n : ℕ) → bits_in nodes.new.lodged n ≡ bit_put room node n (bits_in nodes.old.lodged n) }
    ensures heads { (n : ℕ) → heads_in nodes.new.lodged n ≡ head_put room node n (heads_in nodes.old.lodged n) }
    ensures masks { KeepsMasks nodes.old.lodged nodes.new.lodged }
    ensures stays { Stays nodes.old nodes.new visits.old visits.new }
{
    let links = *nodes.links(room, visits);
    nodes.set_links(room, links.with_bit_node(node));
}

/// Writes what a room is as a mask node, or that it is none.
pub(crate) fn put_mask_node<V>(
    nodes: &mut Nodes<V>,
    room: Id,
    node: Option<MaskNode>,
    visits: &mut Visits,
)
    requires there { Has nodes.old.lodged room }
    requires turn { visits.old.turn ≡ nodes.old.turn }
    ensures tree { KeepsTree nodes.old.lodged nodes.new.lodged }
    ensures heads { KeepsHeads nodes.old.lodged nodes.new.lodged }
    ensures masks { (n : ℕ) → masks_in nodes.new.lodged n ≡ mask_put room node n (masks_in nodes.old.lodged n) }
    ensures stays { Stays nodes.old nodes.new visits.old visits.new }
{
    let links = *nodes.links(room, visits);
    nodes.set_links(room, links.with_mask_node(node));
}

/// Puts a value into a room that is not in the map, and writes what the room is as a leaf. It is no bit node and no
/// mask node.
pub(crate) fn lodge_leaf<V>(
    nodes: &mut Nodes<V>,
    room: Room<V>,
    leaf: Leaf,
    value: V,
    visits: &mut Visits,
) -> Id
    requires spare { IsSpare nodes.old room }
    requires turn { visits.old.turn ≡ nodes.old.turn }
    ensures number { number_of result ≡ room }
    ensures leaves { (n : ℕ) → leaves_in nodes.new.lodged n
        ≡ leaf_lodged result value leaf n (leaves_in nodes.old.lodged n) }
    ensures only { OnlyLeaves nodes.old.lodged nodes.new.lodged }
    ensures stays { Stays nodes.old nodes.new visits.old visits.new }
{
    let id = nodes.lodge(room, value);
    put_leaf(nodes, id, leaf, visits);
    id
}

/// Names the bit node above a leaf, or that none is.
fn lift_leaf<V>(nodes: &mut Nodes<V>, room: Id, above: Option<Id>, visits: &mut Visits)
    requires tree { (p : Part nodes.old.lodged) × LeafAt p room }
    requires turn { visits.old.turn ≡ nodes.old.turn }
    ensures leaves { (n : ℕ) → leaves_in nodes.new.lodged n
        ≡ leaf_lifted (LeafOf room) above n (leaves_in nodes.old.lodged n) }
    ensures only { OnlyLeaves nodes.old.lodged nodes.new.lodged }
    ensures stays { Stays nodes.old nodes.new visits.old visits.new }
{
    let leaf = nodes.links(room, visits).leaf();
    put_leaf(nodes, room, Leaf { above, ..leaf }, visits);
}

/// Names the bit node above a bit node, or that none is.
fn lift_bit_node<V>(nodes: &mut Nodes<V>, room: Id, above: Option<Id>, visits: &mut Visits)
    requires tree { (p : Part nodes.old.lodged) × ForkAt p room }
    requires turn { visits.old.turn ≡ nodes.old.turn }
    ensures only { OnlyBits nodes.old.lodged nodes.new.lodged }
    ensures bits { (n : ℕ) → bits_in nodes.new.lodged n ≡ bit_lifted (BitOf room) above n (bits_in nodes.old.lodged n) }
    ensures stays { Stays nodes.old nodes.new visits.old visits.new }
{
    let node = roles::bit_node(nodes, room, visits);
    put_bit_node(nodes, room, Some(BitNode { above, ..node }), visits);
}

/// Names the bit node above a node, or that none is.
pub(crate) fn lift<V>(nodes: &mut Nodes<V>, at: Node, above: Option<Id>, visits: &mut Visits)
    requires tree { (p : Part nodes.old.lodged) × (name_of p.tree ≡ at) }
    requires turn { visits.old.turn ≡ nodes.old.turn }
    ensures leaves { (n : ℕ) → leaves_in nodes.new.lodged n ≡ leaf_lifted at above n (leaves_in nodes.old.lodged n) }
    ensures bits { (n : ℕ) → bits_in nodes.new.lodged n ≡ bit_lifted at above n (bits_in nodes.old.lodged n) }
    ensures heads { KeepsHeads nodes.old.lodged nodes.new.lodged }
    ensures masks { KeepsMasks nodes.old.lodged nodes.new.lodged }
    ensures stays { Stays nodes.old nodes.new visits.old visits.new }
{
    match at {
        Node::Leaf(room) => lift_leaf(nodes, room, above, visits),
        Node::Bit(room) => lift_bit_node(nodes, room, above, visits),
    }
}

/// Names another node beneath a bit node, on the side of an address, where there is a bit node.
pub(crate) fn name_child<V>(
    nodes: &mut Nodes<V>,
    above: Option<Id>,
    address: Inet,
    to: Node,
    visits: &mut Visits,
)
    requires tree { (up : Id) → above ≡ Some up → (p : Part nodes.old.lodged) × ForkAt p up }
    requires turn { visits.old.turn ≡ nodes.old.turn }
    ensures only { OnlyBits nodes.old.lodged nodes.new.lodged }
    ensures bits { (n : ℕ) → bits_in nodes.new.lodged n ≡ child_named above address to n (bits_in nodes.old.lodged n) }
    ensures stays { Stays nodes.old nodes.new visits.old visits.new }
{
    let Some(up) = above else {
        return;
    };
    let node = roles::bit_node(nodes, up, visits);
    if is_one(address, node.bit) {
        put_bit_node(nodes, up, Some(BitNode { one: to, ..node }), visits);
    } else {
        put_bit_node(nodes, up, Some(BitNode { zero: to, ..node }), visits);
    }
}
