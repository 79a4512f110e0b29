//! How a route comes into the chain of a leaf, and how it goes.
ghost use Rattle.std.specs.Prelude.{◌≡◌, ◌<◌, ◌⊎◌, ℕ, true, None, Some, is_some, OnOk, OnErr, IfOk, IfErr};
ghost use Rattle.radix_nodes.specs.Rooms.{Has};
ghost use Rattle.radix_nodes.specs.declared.links.Node.TheVariants.{Leaf as LeafOf};
ghost use Rattle.radix_tree.specs.Chains.{name_next as next_named, name_back as back_named};
ghost use Rattle.radix_tree.specs.Chains.{link_out as linked_out, root_past, FindsGap};
ghost use Rattle.radix_tree.specs.Growth.{Gains, name_child as child_named, IsSpare, HasKeyAt};
ghost use Rattle.radix_tree.specs.Index.{HasPlaceMore};
ghost use Rattle.radix_tree.specs.Marks.{HasRoomMore, has_key, late_at};
ghost use Rattle.radix_tree.specs.Removal.{IsUnlisted, TakesOut};
ghost use Rattle.radix_tree.specs.Rooms.{LeafPart, BitPart, Part, Run, leaves_in, bits_in, masks_in, first_room};
ghost use Rattle.radix_tree.specs.Searches.{ForkAt, HasPair};
ghost use Rattle.radix_tree.specs.Table.{IsRoute};
ghost use Rattle.radix_tree.specs.Tree.{Placed, IsIn};
ghost use Rattle.radix_tree.specs.Whole.{IsWhole, shown, IsWholeBut, nobody_out};
ghost use Rattle.radix_tree.specs.Writes.{KeepsMasks, OnlyLeaves, OnlyBits};
ghost use Rattle.radix_tree.specs.Reads.{Stays};
ghost use Rattle.radix_nodes.specs.Naming.{number_of};

use crate::entry::Entry;
use crate::inserting::root_after;
use crate::linking::{lodge_leaf, name_child, put_leaf};
use mask_table::Rank;
use radix_nodes::{Id, Leaf, Node, Nodes, Room, Visits};
use sock_addrs::Inet;

/// Names the next member of a chain at the one before it, where there is one.
fn name_next<V>(nodes: &mut Nodes<V>, before: Option<Id>, next: Option<Id>, visits: &mut Visits)
    requires there { (room : Id) → before ≡ Some room → Has nodes.old.lodged room }
    requires turn { visits.old.turn ≡ nodes.old.turn }
    ensures leaves { (n : ℕ) → leaves_in nodes.new.lodged n ≡ next_named before next n (leaves_in nodes.old.lodged n) }
    ensures only { OnlyLeaves nodes.old.lodged nodes.new.lodged }
    ensures stays { Stays nodes.old nodes.new visits.old visits.new }
{
    let Some(room) = before else {
        return;
    };
    let leaf = nodes.links(room, visits).leaf();
    put_leaf(nodes, room, Leaf { next, ..leaf }, visits);
}

/// Names the bit node above and the previous member at a member of a chain, where there is one.
fn name_back<V>(
    nodes: &mut Nodes<V>,
    behind: Option<Id>,
    above: Option<Id>,
    previous: Option<Id>,
    visits: &mut Visits,
)
    requires there { (room : Id) → behind ≡ Some room → Has nodes.old.lodged room }
    requires turn { visits.old.turn ≡ nodes.old.turn }
    ensures leaves { (n : ℕ) → leaves_in nodes.new.lodged n
        ≡ back_named behind above previous n (leaves_in nodes.old.lodged n) }
    ensures only { OnlyLeaves nodes.old.lodged nodes.new.lodged }
    ensures stays { Stays nodes.old nodes.new visits.old visits.new }
{
    let Some(room) = behind else {
        return;
    };
    let leaf = nodes.links(room, visits).leaf();
    put_leaf(
        nodes,
        room,
        Leaf {
            above,
            previous,
            ..leaf
        },
        visits,
    );
}

/// Names the neighbours of a leaf at each other in its place: the next one takes its bit node above.
fn link_out<V>(nodes: &mut Nodes<V>, leaf: Leaf, visits: &mut Visits)
    requires before { (at : Id) → leaf.previous ≡ Some at → Has nodes.old.lodged at }
    requires behind { (at : Id) → leaf.next ≡ Some at → Has nodes.old.lodged at }
    requires turn { visits.old.turn ≡ nodes.old.turn }
    ensures leaves { (n : ℕ) → leaves_in nodes.new.lodged n ≡ linked_out leaf n (leaves_in nodes.old.lodged n) }
    ensures only { OnlyLeaves nodes.old.lodged nodes.new.lodged }
    ensures stays { Stays nodes.old nodes.new visits.old visits.new }
{
    name_back(nodes, leaf.next, leaf.above, leaf.previous, visits);
    name_next(nodes, leaf.previous, leaf.next, visits);
}

/// Names another room as the leaf beneath the bit node above a member of a chain, where the member has no previous one,
/// and answers the root from then on.
fn rename<V>(
    nodes: &mut Nodes<V>,
    root: Node,
    previous: Option<Id>,
    above: Option<Id>,
    key: Inet,
    to: Id,
    visits: &mut Visits,
) -> Node
    requires tree { (up : Id) → above ≡ Some up → (p : Part nodes.old.lodged) × ForkAt p up }
    requires turn { visits.old.turn ≡ nodes.old.turn }
    ensures root { result ≡ root_past previous above (LeafOf to) root }
    ensures only { OnlyBits nodes.old.lodged nodes.new.lodged }
    ensures bits { (n : ℕ) → bits_in nodes.new.lodged n
        ≡ child_named above key (LeafOf to) n (bits_in nodes.old.lodged n) }
    ensures stays { Stays nodes.old nodes.new visits.old visits.new }
{
    name_child(nodes, above, key, Node::Leaf(to), visits);
    match previous {
        Some(_) => root,
        None => root_after(above, Node::Leaf(to), root),
    }
}

/// What a route's leaf is to say in the chain of its key, in which it comes before the first member of a smaller rank.
/// `None` where a member has its rank.
fn gap<V>(nodes: &Nodes<V>, first: Id, key: Inet, rank: Rank, visits: &mut Visits) -> Option<Leaf>
    requires chain { (c : Run nodes.now.lodged) × (first_room c.members ≡ Some first) }
    requires turn { visits.old.turn ≡ nodes.now.turn }
    ensures gap { (c : Run nodes.now.lodged) → first_room c.members ≡ Some first → FindsGap key rank c result }
    ensures counter { visits.new.turn ≡ visits.old.turn }
{
    let leaf = nodes.links(first, visits).leaf();
    let mut above = leaf.above;
    let mut previous = leaf.previous;
    let mut next = Some(first);
    while let Some(at) = next {
        let member = nodes.links(at, visits).leaf();
        if member.rank == rank {
            return None;
        }
        if member.rank < rank {
            return Some(Leaf {
                key,
                rank,
                above,
                next,
                previous,
            });
        }
        above = None;
        previous = Some(at);
        next = member.next;
    }
    Some(Leaf {
        key,
        rank,
        above,
        next,
        previous,
    })
}

/// Puts a route into the chain of its key, whose first member is in this room, and answers the root and the room from
/// then on. `Err` with the room and the value where a member has its rank.
pub(crate) fn insert_in_chain<V>(
    nodes: &mut Nodes<V>,
    root: Node,
    first: Id,
    room: Room<V>,
    entry: Entry<V>,
    visits: &mut Visits,
) -> Result<(Node, Id), (Room<V>, V)>
    requires spare { IsSpare nodes.old room }
    requires route { IsRoute entry }
    requires led { HasKeyAt nodes.old.lodged root entry.key first }
    requires turn { visits.old.turn ≡ nodes.old.turn }
    ensures ok { IfOk result (λ r. IsWholeBut nodes.new.lodged r.0 (late_at room) nobody_out) }
    ensures routes { IfOk result (λ r. Gains entry (shown nodes.old.lodged (Some root))
        (shown nodes.new.lodged (Some r.0))) }
    ensures rooms { OnOk result (HasRoomMore nodes.old.lodged nodes.new.lodged room) }
    ensures places { IfOk result (λ r. HasPlaceMore nodes.old.lodged nodes.new.lodged r.1 entry) }
    ensures number { IfOk result (λ r. (number_of r.1) ≡ room) }
    ensures here { IfOk result (λ r. Has nodes.new.lodged r.1) }
    ensures unmarked { OnOk result (masks_in nodes.new.lodged room ≡ None) }
    ensures err { OnErr result (nodes.new ≡ nodes.old) }
    ensures taken { IfErr result (λ b. (b.0 ≡ room) × (b.1 ≡ entry.value)) }
    ensures there { OnErr result ((w : IsWhole nodes.old.lodged root)
        → (x : Placed V) × IsIn x w.part.tree × HasPair entry.key entry.rank x) }
    ensures stays { Stays nodes.old nodes.new visits.old visits.new }
{
    let Entry { key, rank, value } = entry;
    let Some(leaf) = gap(nodes, first, key, rank, visits) else {
        return Err((room, value));
    };
    let previous = leaf.previous;
    let above = leaf.above;
    let next = leaf.next;
    let id = lodge_leaf(nodes, room, leaf, value, visits);
    let root = rename(nodes, root, previous, above, key, id, visits);
    name_next(nodes, previous, Some(id), visits);
    name_back(nodes, next, None, Some(id), visits);
    Ok((root, id))
}

/// Takes a route out of its chain, which has another one, and answers the root from then on. The room stays in the map,
/// but not in the tree.
pub(crate) fn remove_from_chain<V>(
    nodes: &mut Nodes<V>,
    root: Node,
    at: Id,
    visits: &mut Visits,
) -> Node
    requires route { IsUnlisted nodes.old.lodged root at }
    requires chain { (p : LeafPart V) → leaves_in nodes.old.lodged (number_of at) ≡ Some p → p.leaf.previous ≡ None
        → (behind : Id) × (p.leaf.next ≡ Some behind) }
    requires turn { visits.old.turn ≡ nodes.old.turn }
    ensures out { TakesOut nodes.old.lodged nodes.new.lodged at root result }
    ensures bits { (n : ℕ) → is_some (bits_in nodes.new.lodged n) ≡ is_some (bits_in nodes.old.lodged n) }
    ensures masks { KeepsMasks nodes.old.lodged nodes.new.lodged }
    ensures idle { (p : LeafPart V) (b : BitPart) → leaves_in nodes.old.lodged (number_of at) ≡ Some p
        → bits_in nodes.new.lodged (number_of at) ≡ Some b → (n : ℕ) → has_key nodes.new.lodged p.leaf.key n ≡ true
        → (n ≡ number_of at → ⊥) → bits_in nodes.new.lodged n ≡ None }
    ensures neighbours { (p : LeafPart V) (to : Id) → leaves_in nodes.old.lodged (number_of at) ≡ Some p
        → (p.leaf.next ≡ Some to) ⊎ (p.leaf.previous ≡ Some to)
        → Has nodes.new.lodged to × (number_of to ≡ number_of at → ⊥)
        × (has_key nodes.new.lodged p.leaf.key (number_of to) ≡ true) }
    ensures stays { Stays nodes.old nodes.new visits.old visits.new }
{
    let leaf = nodes.links(at, visits).leaf();
    let Leaf {
        key,
        rank: _,
        above,
        next,
        previous,
    } = leaf;
    let Some(behind) = next else {
        link_out(nodes, leaf, visits);
        return root;
    };
    let root = rename(nodes, root, previous, above, key, behind, visits);
    link_out(nodes, leaf, visits);
    root
}
