//! How a route that is alone at its leaf goes from a tree.
ghost use Rattle.std.specs.Prelude.{◌≡◌, ℕ, ◌≤◌, true, Some, None};
ghost use Rattle.radix_nodes.specs.Rooms.{Has};
ghost use Rattle.radix_tree.specs.Bounds.{last_bit};
ghost use Rattle.radix_tree.specs.Growth.{name_child as child_named};
ghost use Rattle.radix_tree.specs.Joining.{other_side, IsApart, IsLone, IsHanded, IsLonely};
ghost use Rattle.radix_tree.specs.Marks.{has_key};
ghost use Rattle.radix_tree.specs.Rooms.{LeafPart, Part, MarkedLists, leaves_in, bits_in, heads_in, masks_in, name_of};
ghost use Rattle.radix_tree.specs.Removal.{IsUnlisted, TakesOut};
ghost use Rattle.radix_tree.specs.Searches.{ForkAt};
ghost use Rattle.radix_tree.specs.Writes.{put_bit as bit_put, put_head as head_put, lift_leaf as leaf_lifted, lift_bit as bit_lifted, KeepsMasks, KeepsTree};
ghost use Rattle.radix_tree.specs.Reads.{Stays};
ghost use Rattle.radix_nodes.specs.Naming.{number_of};

use crate::bits::is_one;
use crate::inserting::root_after;
use crate::linking::{lift, name_child, put_bit_node};
use crate::masks::{append, clear};
use radix_nodes::{BitNode, Id, Node, Nodes, Visits};
use sock_addrs::Inet;

/// The node beneath a bit node that is not on the side of a key.
fn sibling_of(node: BitNode, key: Inet) -> Node
    requires { node.bit ≤ last_bit }
    ensures { result ≡ other_side key node.bit node.zero node.one }
{
    if is_one(key, node.bit) {
        node.zero
    } else {
        node.one
    }
}

/// Hands the list of a bit node that goes on to the node that takes its place: a bit node lists these masks behind its
/// own; above a leaf they have no bit node at or past their rank, and are unlisted.
fn hand_masks_on<V>(nodes: &mut Nodes<V>, to: Node, first: Option<Id>, visits: &mut Visits)
    requires lone { (whole : Part nodes.old.lodged) × (at : Id) × (up : Id) × (l : IsLone nodes.old.lodged whole at up)
        × (name_of l.other ≡ to) × (heads_in nodes.old.lodged (number_of up) ≡ first)
        × (masks_in nodes.old.lodged (number_of at) ≡ None)
        × MarkedLists (heads_in nodes.old.lodged) (masks_in nodes.old.lodged) l.over.low l.over.tree }
    requires turn { visits.old.turn ≡ nodes.old.turn }
    ensures handed { (whole : Part nodes.old.lodged) (at : Id) (up : Id) (l : IsLone nodes.old.lodged whole at up)
        → name_of l.other ≡ to → heads_in nodes.old.lodged (number_of up) ≡ first
        → masks_in nodes.old.lodged (number_of at) ≡ None
        → MarkedLists (heads_in nodes.old.lodged) (masks_in nodes.old.lodged) l.over.low l.over.tree
        → IsHanded nodes.old.lodged nodes.new.lodged l.over.low l.over.tree l.other }
    ensures tree { KeepsTree nodes.old.lodged nodes.new.lodged }
    ensures stays { Stays nodes.old nodes.new visits.old visits.new }
{
    match to {
        Node::Bit(room) => append(nodes, room, first, visits),
        Node::Leaf(_) => clear(nodes, first, visits),
    }
}

/// Puts a node into the place of the bit node above it, whose room is no bit node from then on. The address is one on
/// whose way that place is.
fn join<V>(
    nodes: &mut Nodes<V>,
    up: Id,
    above: Option<Id>,
    address: Inet,
    to: Node,
    visits: &mut Visits,
)
    requires up { Has nodes.old.lodged up }
    requires above { (over : Id) → above ≡ Some over → (p : Part nodes.old.lodged) × ForkAt p over }
    requires beneath { (p : Part nodes.old.lodged) × (name_of p.tree ≡ to) × IsApart p.tree up above }
    requires turn { visits.old.turn ≡ nodes.old.turn }
    ensures leaves { (n : ℕ) → leaves_in nodes.new.lodged n ≡ leaf_lifted to above n (leaves_in nodes.old.lodged n) }
    ensures bits { (n : ℕ) → bits_in nodes.new.lodged n
        ≡ bit_lifted to above n (bit_put up None n (child_named above address to n (bits_in nodes.old.lodged n))) }
    ensures heads { (n : ℕ) → heads_in nodes.new.lodged n ≡ head_put up None n (heads_in nodes.old.lodged n) }
    ensures masks { KeepsMasks nodes.old.lodged nodes.new.lodged }
    ensures stays { Stays nodes.old nodes.new visits.old visits.new }
{
    name_child(nodes, above, address, to, visits);
    put_bit_node(nodes, up, None, visits);
    lift(nodes, to, above, visits);
}

/// Takes a route that is alone at its leaf, and whose mask is not listed, out of the tree beneath a root, and with it
/// the bit node above. Answers the root from then on, and the room whose bit node that was.
pub(crate) fn remove_lone<V>(
    nodes: &mut Nodes<V>,
    root: Node,
    at: Id,
    visits: &mut Visits,
) -> (Node, Id)
    requires route { IsUnlisted nodes.old.lodged root at }
    requires lone { IsLonely nodes.old.lodged at }
    requires turn { visits.old.turn ≡ nodes.old.turn }
    ensures out { TakesOut nodes.old.lodged nodes.new.lodged at root result.0 }
    ensures there { Has nodes.new.lodged result.1 }
    ensures free { bits_in nodes.new.lodged (number_of result.1) ≡ None }
    ensures idle { (p : LeafPart V) → leaves_in nodes.new.lodged (number_of result.1) ≡ Some p → (n : ℕ)
        → has_key nodes.new.lodged p.leaf.key n ≡ true → (n ≡ number_of at → ⊥) → bits_in nodes.new.lodged n ≡ None }
    ensures stays { Stays nodes.old nodes.new visits.old visits.new }
{
    let leaf = nodes.links(at, visits).leaf();
    let Some(up) = leaf.above else {
        unreachable!();
    };
    let Some(node) = nodes.links(up, visits).bit_node() else {
        unreachable!();
    };
    let to = sibling_of(node, leaf.key);
    // The masks are handed on while the bit node still stands, by whose bit they are shorter than those of `to`. Till
    // `join` the tree is as it was, but these masks are listed with those of `to` already, or no more.
    hand_masks_on(nodes, to, node.masks, visits);
    join(nodes, up, node.above, leaf.key, to, visits);
    (root_after(node.above, to, root), up)
}
