//! How a bit node in use moves from its room to another.
ghost use Rattle.std.specs.Prelude.{◌≡◌, ℕ, Some, None};
ghost use Rattle.radix_nodes.specs.Rooms.{Has};
ghost use Rattle.radix_nodes.specs.declared.id.Id.{Id};
ghost use Rattle.radix_nodes.specs.declared.links.Node.TheVariants.{Bit as BitOf};
ghost use Rattle.radix_tree.specs.MaskLists.{IsBitNode};
ghost use Rattle.radix_tree.specs.Rooms.{BitPart, bits_in};
ghost use Rattle.radix_tree.specs.Whole.{shown, IsWholeBut, nobody_late};
ghost use Rattle.radix_tree.specs.Marks.{out_at};
ghost use Rattle.radix_tree.specs.Writes.{KeepsMasks, OnlyBits};
ghost use Rattle.radix_tree.specs.Removal.{renamed as name_after, rename, KeepsRoutes, CanTake, HasNodesBeneath};
ghost use Rattle.radix_tree.specs.Reads.{Stays};
ghost use Rattle.radix_nodes.specs.Naming.{number_of};

use crate::inserting::root_after;
use crate::linking::{lift, put_bit_node};
use crate::roles;
use radix_nodes::{BitNode, Id, Node, Nodes, Visits};

/// What names a node, once the bit node of one room is in another room.
fn renamed<V>(nodes: &mut Nodes<V>, from: Id, to: Id, node: Node) -> Node
    requires from { Has nodes.old.lodged from }
    requires there { (room : Id) → node ≡ BitOf room → Has nodes.old.lodged room }
    ensures node { result ≡ name_after from to node }
    ensures stays { nodes.new ≡ nodes.old }
{
    match node {
        Node::Leaf(room) => Node::Leaf(room),
        Node::Bit(room) => {
            if nodes.same(room, from) {
                Node::Bit(to)
            } else {
                Node::Bit(room)
            }
        }
    }
}

/// Names one bit node in the place of another beneath a bit node, where there is one.
fn rename_child<V>(nodes: &mut Nodes<V>, above: Option<Id>, from: Id, to: Id, visits: &mut Visits)
    requires used { (up : Id) → above ≡ Some up → IsBitNode nodes.old.lodged up }
    requires from { Has nodes.old.lodged from }
    requires beneath { (up : Id) → above ≡ Some up → HasNodesBeneath nodes.old.lodged up }
    requires turn { visits.old.turn ≡ nodes.old.turn }
    ensures only { OnlyBits nodes.old.lodged nodes.new.lodged }
    ensures bits { (n : ℕ) → bits_in nodes.new.lodged n ≡ rename above from to n (bits_in nodes.old.lodged n) }
    ensures stays { Stays nodes.old nodes.new visits.old visits.new }
{
    let Some(up) = above else {
        return;
    };
    let node = roles::bit_node(nodes, up, visits);
    let zero = renamed(nodes, from, to, node.zero);
    let one = renamed(nodes, from, to, node.one);
    put_bit_node(nodes, up, Some(BitNode { zero, one, ..node }), visits);
}

/// Moves the bit node of one room, where it is in use, to another room that can take it, and answers the root from then
/// on. The nodes beneath it name the other room as the one above, and the bit node above names it in the old one's
/// place.
pub(crate) fn vacate<V>(
    nodes: &mut Nodes<V>,
    root: Node,
    from: Id,
    to: Id,
    visits: &mut Visits,
) -> Node
    requires whole { IsWholeBut nodes.old.lodged root nobody_late (out_at (number_of from)) }
    requires from { Has nodes.old.lodged from }
    requires to { Has nodes.old.lodged to }
    requires takes { (p : BitPart) → bits_in nodes.old.lodged (number_of from) ≡ Some p
        → CanTake nodes.old.lodged from to }
    requires turn { visits.old.turn ≡ nodes.old.turn }
    ensures whole { IsWholeBut nodes.new.lodged result nobody_late (out_at (number_of from)) }
    ensures gone { bits_in nodes.new.lodged (number_of from) ≡ None }
    ensures routes { shown nodes.new.lodged (Some result) ≡ shown nodes.old.lodged (Some root) }
    ensures rooms { KeepsRoutes nodes.old.lodged nodes.new.lodged }
    ensures masks { KeepsMasks nodes.old.lodged nodes.new.lodged }
    ensures stays { Stays nodes.old nodes.new visits.old visits.new }
{
    let Some(node) = nodes.links(from, visits).bit_node() else {
        return root;
    };
    // What is beneath is lifted while the bit node still stands in its room, and names `to` before a bit node is there.
    lift(nodes, node.zero, Some(to), visits);
    lift(nodes, node.one, Some(to), visits);
    // The one room is emptied before the other is filled: between the two the bit node is in neither, and at no time in
    // both, where its list would have two heads.
    put_bit_node(nodes, from, None, visits);
    put_bit_node(nodes, to, Some(node), visits);
    rename_child(nodes, node.above, from, to, visits);
    root_after(node.above, Node::Bit(to), root)
}
