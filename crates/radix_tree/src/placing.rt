//! The way up from a leaf to where a route of a new key comes in.
ghost use Rattle.std.specs.Prelude.{◌≡◌, ℕ};
ghost use Rattle.radix_tree.specs.Growth.{IsNew, IsSpot};

use crate::inserting::Spot;
use crate::roles;
use radix_nodes::{Id, Node, Nodes, Visits};

/// The spot for a route of a new key, from the leaf to which the key's bits lead and the first bit at which it differs
/// from that leaf's key: beneath the first bit node on the way up whose bit is not past it.
pub(crate) fn spot_above<V>(nodes: &Nodes<V>, leaf: Id, bit: u8, visits: &mut Visits) -> Spot
    requires new { (key : ℕ) × IsNew nodes.now.lodged key bit leaf }
    requires turn { visits.old.turn ≡ nodes.now.turn }
    ensures spot { (key : ℕ) (w : IsNew nodes.now.lodged key bit leaf)
        → IsSpot nodes.now.lodged key bit w.whole result.above result.below }
    ensures bit { result.bit ≡ bit }
    ensures counter { visits.new.turn ≡ visits.old.turn }
{
    let mut below = Node::Leaf(leaf);
    let mut above = roles::leaf(nodes, leaf, visits).above;
    while let Some(up) = above {
        let node = roles::bit_node(nodes, up, visits);
        if node.bit <= bit {
            return Spot { bit, above, below };
        }
        below = Node::Bit(up);
        above = node.above;
    }
    Spot { bit, above, below }
}
