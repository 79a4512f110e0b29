//! How a table's tree gains a route.
ghost use Rattle.std.specs.Prelude.{◌≡◌, Some, None, IsSome, IfOk, IfErr, IfSome, OnOk, OnErr};
ghost use Rattle.radix_nodes.specs.Naming.{number_of};
ghost use Rattle.radix_nodes.specs.Rooms.{Has};
ghost use Rattle.radix_tree.specs.Growth.{Gains, IsSpare, HasKeyAt, DiffersAt};
ghost use Rattle.radix_tree.specs.Index.{HasPlaceMore};
ghost use Rattle.radix_tree.specs.Marks.{HasRoomMore};
ghost use Rattle.radix_tree.specs.Table.{IsRoute, entry_at};
ghost use Rattle.radix_tree.specs.Whole.{IsWhole, Holds, shown};
ghost use Rattle.radix_tree.specs.Reads.{Stays};

use crate::bits::first_difference;
use crate::chains::insert_in_chain;
use crate::descent::leaf_from;
use crate::entry::Entry;
use crate::inserting::insert_beside;
use crate::linking::lodge_leaf;
use crate::listing::{list_chain, list_mask};
use radix_nodes::{Id, Leaf, Node, Nodes, Room, Visits};

/// Lodges a table's first route, whose leaf is all of the tree, and answers the root and the room.
fn insert_first<V>(
    nodes: &mut Nodes<V>,
    room: Room<V>,
    entry: Entry<V>,
    visits: &mut Visits,
) -> (Node, Id)
    requires holds { Holds nodes.old.lodged None }
    requires spare { IsSpare nodes.old room }
    requires route { IsRoute entry }
    requires turn { visits.old.turn ≡ nodes.old.turn }
    ensures number { number_of result.1 ≡ room }
    ensures whole { IsWhole nodes.new.lodged result.0 }
    ensures routes { Gains entry (shown nodes.old.lodged None) (shown nodes.new.lodged (Some result.0)) }
    ensures rooms { HasRoomMore nodes.old.lodged nodes.new.lodged room }
    ensures places { HasPlaceMore nodes.old.lodged nodes.new.lodged result.1 entry }
    ensures stays { Stays nodes.old nodes.new visits.old visits.new }
{
    let Entry { key, rank, value } = entry;
    let leaf = Leaf {
        key,
        rank,
        above: None,
        next: None,
        previous: None,
    };
    let id = lodge_leaf(nodes, room, leaf, value, visits);
    (Node::Leaf(id), id)
}

/// Puts a route of a new key beneath a root: at the first bit at which its key differs from that of the leaf to which
/// its bits lead. Answers the root and the room from then on.
fn insert_new<V>(
    nodes: &mut Nodes<V>,
    root: Node,
    leaf: Id,
    bit: u8,
    room: Room<V>,
    entry: Entry<V>,
    visits: &mut Visits,
) -> (Node, Id)
    requires spare { IsSpare nodes.old room }
    requires route { IsRoute entry }
    requires new { DiffersAt nodes.old.lodged root entry.key leaf bit }
    requires turn { visits.old.turn ≡ nodes.old.turn }
    ensures number { number_of result.1 ≡ room }
    ensures whole { IsWhole nodes.new.lodged result.0 }
    ensures routes { Gains entry (shown nodes.old.lodged (Some root)) (shown nodes.new.lodged (Some result.0)) }
    ensures rooms { HasRoomMore nodes.old.lodged nodes.new.lodged room }
    ensures places { HasPlaceMore nodes.old.lodged nodes.new.lodged result.1 entry }
    ensures stays { Stays nodes.old nodes.new visits.old visits.new }
{
    let (root, id) = insert_beside(nodes, root, leaf, bit, room, entry, visits);
    list_mask(nodes, id, visits);
    list_chain(nodes, leaf, visits);
    (root, id)
}

/// Puts a route beneath a root at a key that its tree has, and answers the root and the room from then on. Where the
/// tree has the rank too, the room and the value come back.
fn insert_among<V>(
    nodes: &mut Nodes<V>,
    root: Node,
    leaf: Id,
    room: Room<V>,
    entry: Entry<V>,
    visits: &mut Visits,
) -> Result<(Node, Id), (Room<V>, V)>
    requires spare { IsSpare nodes.old room }
    requires route { IsRoute entry }
    requires led { HasKeyAt nodes.old.lodged root entry.key leaf }
    requires turn { visits.old.turn ≡ nodes.old.turn }
    ensures number { IfOk result (λ r. number_of r.1 ≡ room) }
    ensures whole { IfOk result (λ r. IsWhole nodes.new.lodged r.0) }
    ensures routes { IfOk result (λ r.
        Gains entry (shown nodes.old.lodged (Some root)) (shown nodes.new.lodged (Some r.0))) }
    ensures rooms { OnOk result (HasRoomMore nodes.old.lodged nodes.new.lodged room) }
    ensures places { IfOk result (λ r. HasPlaceMore nodes.old.lodged nodes.new.lodged r.1 entry) }
    ensures err { OnErr result (nodes.new ≡ nodes.old) }
    ensures back { IfErr result (λ b. (b.0 ≡ room) × (b.1 ≡ entry.value)) }
    ensures there { OnErr result (IsSome (entry_at entry.key entry.rank (shown nodes.old.lodged (Some root)))) }
    ensures stays { Stays nodes.old nodes.new visits.old visits.new }
{
    match insert_in_chain(nodes, root, leaf, room, entry, visits) {
        Err(back) => Err(back),
        Ok((root, id)) => {
            list_mask(nodes, id, visits);
            Ok((root, id))
        }
    }
}

/// Puts a route into a table's tree, and answers the root and the room from then on. Where the table has its key and
/// rank, the room and the value come back. A room may be said that is near, from which the way is short.
pub(crate) fn insert<V>(
    nodes: &mut Nodes<V>,
    near: Option<Id>,
    root: Option<Node>,
    room: Room<V>,
    entry: Entry<V>,
    visits: &mut Visits,
) -> Result<(Node, Id), (Room<V>, V)>
    requires holds { Holds nodes.old.lodged root }
    requires near { IfSome near (λ room. Has nodes.old.lodged room) }
    requires spare { IsSpare nodes.old room }
    requires route { IsRoute entry }
    requires turn { visits.old.turn ≡ nodes.old.turn }
    ensures number { IfOk result (λ r. number_of r.1 ≡ room) }
    ensures whole { IfOk result (λ r. IsWhole nodes.new.lodged r.0) }
    ensures routes { IfOk result (λ r.
        Gains entry (shown nodes.old.lodged root) (shown nodes.new.lodged (Some r.0))) }
    ensures rooms { OnOk result (HasRoomMore nodes.old.lodged nodes.new.lodged room) }
    ensures places { IfOk result (λ r. HasPlaceMore nodes.old.lodged nodes.new.lodged r.1 entry) }
    ensures err { OnErr result (nodes.new ≡ nodes.old) }
    ensures back { IfErr result (λ b. (b.0 ≡ room) × (b.1 ≡ entry.value)) }
    ensures there { OnErr result (IsSome (entry_at entry.key entry.rank (shown nodes.old.lodged root))) }
    ensures stays { Stays nodes.old nodes.new visits.old visits.new }
{
    let Some(root) = root else {
        return Ok(insert_first(nodes, room, entry, visits));
    };
    let leaf = leaf_from(nodes, near, root, entry.key, visits);
    let key = nodes.links(leaf, visits).leaf().key;
    match first_difference(entry.key, key) {
        Some(bit) => Ok(insert_new(nodes, root, leaf, bit, room, entry, visits)),
        None => insert_among(nodes, root, leaf, room, entry, visits),
    }
}
