//! What a room says in each of its roles.
ghost use Rattle.std.specs.Prelude.{◌≡◌, Some};
ghost use Rattle.radix_nodes.specs.Rooms.{Has};
ghost use Rattle.radix_tree.specs.MaskLists.{IsBitNode};
ghost use Rattle.radix_tree.specs.Reads.{IsBitNodeOf, ReadsOnce};
ghost use Rattle.radix_tree.specs.Rooms.{LeafPart, MaskPart, mask_part, leaves_in, masks_in};
ghost use Rattle.radix_nodes.specs.Naming.{number_of};

use radix_nodes::{BitNode, Id, Leaf, MaskNode, Nodes, Visits};

/// What a room is as a leaf.
pub(crate) fn leaf<V>(nodes: &Nodes<V>, room: Id, visits: &mut Visits) -> Leaf
    requires there { Has nodes.now.lodged room }
    requires turn { visits.old.turn ≡ nodes.now.turn }
    ensures said { (p : LeafPart V) → leaves_in nodes.now.lodged (number_of room) ≡ Some p → result ≡ p.leaf }
    ensures visit { ReadsOnce visits.old visits.new }
{
    nodes.links(room, visits).leaf()
}

/// What a room that is a bit node in use is as one.
pub(crate) fn bit_node<V>(nodes: &Nodes<V>, room: Id, visits: &mut Visits) -> BitNode
    requires used { IsBitNode nodes.now.lodged room }
    requires turn { visits.old.turn ≡ nodes.now.turn }
    ensures node { IsBitNodeOf nodes.now.lodged room result }
    ensures visit { ReadsOnce visits.old visits.new }
{
    match nodes.links(room, visits).bit_node() {
        Some(node) => node,
        None => unreachable!(),
    }
}

/// What a room that is a listed mask node is as a leaf and as a mask node.
pub(crate) fn mask_node<V>(nodes: &Nodes<V>, room: Id, visits: &mut Visits) -> (Leaf, MaskNode)
    requires listed { (p : MaskPart) × (masks_in nodes.now.lodged (number_of room) ≡ Some p) × (p.block ≡ room.block) }
    requires turn { visits.old.turn ≡ nodes.now.turn }
    ensures leaf { (p : LeafPart V) → leaves_in nodes.now.lodged (number_of room) ≡ Some p → result.0 ≡ p.leaf }
    ensures said { masks_in nodes.now.lodged (number_of room) ≡ mask_part room.block (Some result.1) }
    ensures visit { ReadsOnce visits.old visits.new }
{
    let links = nodes.links(room, visits);
    match links.mask_node() {
        Some(node) => (links.leaf(), node),
        None => unreachable!(),
    }
}
