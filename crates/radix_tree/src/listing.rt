//! How the mask of a route is listed, and taken out of its list.
ghost use Rattle.std.specs.Prelude.{◌≡◌, ℕ, ◌&&◌, Bool, Some, None, not};
ghost use Rattle.radix_nodes.specs.Rooms.{Has};
ghost use Rattle.radix_nodes.specs.declared.links.Node.{Node as Named};
ghost use Rattle.radix_tree.specs.Tree.{Placed, IsAmong, IsIn};
ghost use Rattle.radix_tree.specs.Rooms.{LeafPart, Run, leaves_in, masks_in, first_room};
ghost use Rattle.radix_tree.specs.MaskLists.{IsHome, KeepsMarksBut};
ghost use Rattle.radix_tree.specs.Whole.{IsWhole, IsWholeBut, nobody_out};
ghost use Rattle.radix_tree.specs.Marks.{has_key, late_at, ListsMaskOf};
ghost use Rattle.radix_tree.specs.Writes.{KeepsTree};
ghost use Rattle.radix_tree.specs.Reads.{Stays};
ghost use Rattle.radix_nodes.specs.Naming.{number_of};

use crate::masks::{home, sort_in, sort_out};
use radix_nodes::{Id, Nodes, Visits};

/// The first room of the chain that a room is in.
pub(crate) fn first_of_chain<V>(nodes: &Nodes<V>, room: Id, visits: &mut Visits) -> Id
    requires chain { (c : Run nodes.now.lodged) × (y : Placed V) × (c.previous ≡ None) × IsAmong y c.members
        × (y.room ≡ room) }
    requires turn { visits.old.turn ≡ nodes.now.turn }
    ensures first { (c : Run nodes.now.lodged) (y : Placed V) → c.previous ≡ None → IsAmong y c.members → y.room ≡ room
        → first_room c.members ≡ Some result }
    ensures counter { visits.new.turn ≡ visits.old.turn }
{
    let mut at = room;
    let mut before = nodes.links(room, visits).leaf().previous;
    while let Some(previous) = before {
        at = previous;
        before = nodes.links(previous, visits).leaf().previous;
    }
    at
}

/// The bit node at which the mask of a room's route is listed.
fn home_of<V>(nodes: &Nodes<V>, room: Id, visits: &mut Visits) -> Option<Id>
    requires whole { (root : Named) × (late : ℕ → Bool) × IsWholeBut nodes.now.lodged root late nobody_out }
    requires there { Has nodes.now.lodged room }
    requires turn { visits.old.turn ≡ nodes.now.turn }
    ensures home { (root : Named) (late : ℕ → Bool) (w : IsWholeBut nodes.now.lodged root late nobody_out)
        (y : Placed V) → IsIn y w.part.tree → y.room ≡ room
        → IsHome nodes.now.lodged y.entry.key y.entry.rank w.part result }
    ensures counter { visits.new.turn ≡ visits.old.turn }
{
    let rank = nodes.links(room, visits).leaf().rank;
    let first = first_of_chain(nodes, room, visits);
    home(nodes, first, rank, visits)
}

/// Lists the mask of a room's route, where there is a bit node for it.
pub(crate) fn list_mask<V>(nodes: &mut Nodes<V>, room: Id, visits: &mut Visits)
    requires whole { (root : Named) × (late : ℕ → Bool) × IsWholeBut nodes.old.lodged root late nobody_out }
    requires there { Has nodes.old.lodged room }
    requires unmarked { masks_in nodes.old.lodged (number_of room) ≡ None }
    requires turn { visits.old.turn ≡ nodes.old.turn }
    ensures whole { ListsMaskOf nodes.old.lodged nodes.new.lodged room }
    ensures marks { KeepsMarksBut nodes.old.lodged nodes.new.lodged room }
    ensures tree { KeepsTree nodes.old.lodged nodes.new.lodged }
    ensures stays { Stays nodes.old nodes.new visits.old visits.new }
{
    let Some(fork) = home_of(nodes, room, visits) else {
        return;
    };
    sort_in(nodes, fork, room, visits);
}

/// Lists the mask of a room's route, where it is not listed yet and there is a bit node for it.
fn list_late<V>(nodes: &mut Nodes<V>, room: Id, visits: &mut Visits)
    requires whole { (root : Named) × (late : ℕ → Bool) × IsWholeBut nodes.old.lodged root late nobody_out }
    requires there { Has nodes.old.lodged room }
    requires turn { visits.old.turn ≡ nodes.old.turn }
    ensures whole { ListsMaskOf nodes.old.lodged nodes.new.lodged room }
    ensures tree { KeepsTree nodes.old.lodged nodes.new.lodged }
    ensures stays { Stays nodes.old nodes.new visits.old visits.new }
{
    match nodes.links(room, visits).mask_node() {
        Some(_) => {}
        None => list_mask(nodes, room, visits),
    }
}

/// Lists the masks of all routes of the chain that begins with a room, but those that are listed, where there is a bit
/// node for them.
pub(crate) fn list_chain<V>(nodes: &mut Nodes<V>, first: Id, visits: &mut Visits)
    requires whole { (root : Named) × (late : ℕ → Bool) × IsWholeBut nodes.old.lodged root late nobody_out }
    requires first { (p : LeafPart V) × (leaves_in nodes.old.lodged (number_of first) ≡ Some p)
        × (p.block ≡ first.block)
        × (p.leaf.previous ≡ None) }
    requires turn { visits.old.turn ≡ nodes.old.turn }
    ensures whole { (root : Named) (late : ℕ → Bool) (p : LeafPart V) → IsWholeBut nodes.old.lodged root late nobody_out
        → leaves_in nodes.old.lodged (number_of first) ≡ Some p
        → IsWholeBut nodes.new.lodged root (λ n. late n && not (has_key nodes.old.lodged p.leaf.key n)) nobody_out }
    ensures tree { KeepsTree nodes.old.lodged nodes.new.lodged }
    ensures stays { Stays nodes.old nodes.new visits.old visits.new }
{
    let mut at = Some(first);
    while let Some(room) = at {
        list_late(nodes, room, visits);
        at = nodes.links(room, visits).leaf().next;
    }
}

/// Takes the mask of a room's route out of its list, where there is a bit node for it.
pub(crate) fn unlist_mask<V>(nodes: &mut Nodes<V>, room: Id, visits: &mut Visits)
    requires whole { (root : Named) × IsWhole nodes.old.lodged root }
    requires there { Has nodes.old.lodged room }
    requires turn { visits.old.turn ≡ nodes.old.turn }
    ensures whole { (root : Named) → IsWhole nodes.old.lodged root
        → IsWholeBut nodes.new.lodged root (late_at (number_of room)) nobody_out }
    ensures gone { masks_in nodes.new.lodged (number_of room) ≡ None }
    ensures tree { KeepsTree nodes.old.lodged nodes.new.lodged }
    ensures stays { Stays nodes.old nodes.new visits.old visits.new }
{
    let Some(fork) = home_of(nodes, room, visits) else {
        return;
    };
    sort_out(nodes, fork, room, visits);
}
