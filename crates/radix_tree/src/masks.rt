//! The lists of masks at bit nodes, longer masks first.
ghost use Rattle.std.specs.Prelude.{◌≡◌, ◌+◌, ◌≤◌, ◌⊎◌, ℕ, None, Some, ◌++◌, List, is_some, true};
ghost use Rattle.radix_nodes.specs.Rooms.{Has};
ghost use Rattle.radix_nodes.specs.declared.links.Node.TheVariants.{Leaf as LeafOf, Bit as BitOf};
ghost use Rattle.radix_tree.specs.Bounds.{last_bit, ranks};
ghost use Rattle.radix_tree.specs.Tree.{Placed, IsAmong};
ghost use Rattle.radix_tree.specs.Rooms.{Part, heads_in, masks_in, first_room, Falls};
ghost use Rattle.radix_tree.specs.Searches.{LedTo};
ghost use Rattle.radix_tree.specs.Writes.{KeepsHeads, KeepsMasks, KeepsTree};
ghost use Rattle.radix_tree.specs.MaskLists.{IsMasks, IsBitNode, IsFree, IsAside, IsNoRank, IsHome, head_linked};
ghost use Rattle.radix_tree.specs.MaskLists.{mask_linked, last_mask, not_below, below as from_below, sorted_in};
ghost use Rattle.radix_tree.specs.MaskLists.{taken_out, past_bit, up_to_bit, MasksAt, KeepsAside, KeepsAsideBut};
ghost use Rattle.radix_tree.specs.MaskLists.{KeepsMarksBut};
ghost use Rattle.radix_tree.specs.Reads.{Stays};
ghost use Rattle.radix_nodes.specs.Naming.{number_of};

use crate::linking::{put_bit_node, put_mask_node};
use crate::roles;
use mask_table::Rank;
use radix_nodes::{BitNode, Id, MaskNode, Node, Nodes, Visits};

/// A place in a list of masks, by the masks before it and behind it. There is none before the list's front, and none
/// behind its end.
#[derive(Clone, Copy)]
struct Gap {
    before: Option<Id>,
    behind: Option<Id>,
}

/// The place in a list of masks behind those of ranks at or past `low`, and before those of ranks below it.
fn gap_at<V>(nodes: &Nodes<V>, first: Option<Id>, low: u8, visits: &mut Visits) -> Gap
    requires list { (ms : List (Placed V)) × IsMasks nodes.now.lodged first ms }
    requires turn { visits.old.turn ≡ nodes.now.turn }
    ensures before { (ms : List (Placed V)) → IsMasks nodes.now.lodged first ms
        → last_mask (not_below low ms) ≡ result.before }
    ensures behind { (ms : List (Placed V)) → IsMasks nodes.now.lodged first ms
        → first_room (from_below low ms) ≡ result.behind }
    ensures counter { visits.new.turn ≡ visits.old.turn }
{
    let mut before = None;
    let mut behind = first;
    while let Some(room) = behind {
        let (leaf, mask) = roles::mask_node(nodes, room, visits);
        if leaf.rank.number() < low {
            return Gap { before, behind };
        }
        before = behind;
        behind = mask.next;
    }
    Gap { before, behind }
}

/// The first of the masks that are listed at a bit node.
fn masks_of<V>(nodes: &Nodes<V>, fork: Id, visits: &mut Visits) -> Option<Id>
    requires node { IsBitNode nodes.now.lodged fork }
    requires turn { visits.old.turn ≡ nodes.now.turn }
    ensures head { result ≡ heads_in nodes.now.lodged (number_of fork) }
    ensures counter { visits.new.turn ≡ visits.old.turn }
{
    roles::bit_node(nodes, fork, visits).masks
}

/// Writes which mask is the first that is listed at a bit node, or that none is.
fn put_masks<V>(nodes: &mut Nodes<V>, fork: Id, masks: Option<Id>, visits: &mut Visits)
    requires node { IsBitNode nodes.old.lodged fork }
    requires turn { visits.old.turn ≡ nodes.old.turn }
    ensures tree { KeepsTree nodes.old.lodged nodes.new.lodged }
    ensures heads { (n : ℕ) → heads_in nodes.new.lodged n
        ≡ head_linked fork None masks n (heads_in nodes.old.lodged n) }
    ensures masks { KeepsMasks nodes.old.lodged nodes.new.lodged }
    ensures stays { Stays nodes.old nodes.new visits.old visits.new }
{
    let node = roles::bit_node(nodes, fork, visits);
    put_bit_node(nodes, fork, Some(BitNode { masks, ..node }), visits);
}

/// Names the next one behind a mask of a bit node's list, or the list's first where there is none before.
fn link<V>(
    nodes: &mut Nodes<V>,
    fork: Id,
    before: Option<Id>,
    next: Option<Id>,
    visits: &mut Visits,
)
    requires node { IsBitNode nodes.old.lodged fork }
    requires there { (room : Id) → before ≡ Some room → Has nodes.old.lodged room }
    requires turn { visits.old.turn ≡ nodes.old.turn }
    ensures tree { KeepsTree nodes.old.lodged nodes.new.lodged }
    ensures heads { (n : ℕ) → heads_in nodes.new.lodged n
        ≡ head_linked fork before next n (heads_in nodes.old.lodged n) }
    ensures masks { (n : ℕ) → masks_in nodes.new.lodged n
        ≡ mask_linked before next n (masks_in nodes.old.lodged n) }
    ensures stays { Stays nodes.old nodes.new visits.old visits.new }
{
    match before {
        Some(room) => put_mask_node(nodes, room, Some(MaskNode { next }), visits),
        None => put_masks(nodes, fork, next, visits),
    }
}

/// Lists a room's mask at a bit node, behind the longer ones.
pub(crate) fn sort_in<V>(nodes: &mut Nodes<V>, fork: Id, room: Id, visits: &mut Visits)
    requires node { IsBitNode nodes.old.lodged fork }
    requires list { (ms : List (Placed V)) × MasksAt nodes.old.lodged fork ms }
    requires free { IsFree nodes.old.lodged room }
    requires turn { visits.old.turn ≡ nodes.old.turn }
    ensures list { (ms : List (Placed V)) (f : IsFree nodes.old.lodged room) → MasksAt nodes.old.lodged fork ms
        → IsNoRank f.is.entry.rank ms → MasksAt nodes.new.lodged fork (sorted_in f.is ms) }
    ensures heads { (n : ℕ) → (n ≡ number_of fork → ⊥) → heads_in nodes.new.lodged n ≡ heads_in nodes.old.lodged n }
    ensures masks { KeepsAsideBut nodes.old.lodged nodes.new.lodged fork room }
    ensures marked { is_some (masks_in nodes.new.lodged (number_of room)) ≡ true }
    ensures marks { KeepsMarksBut nodes.old.lodged nodes.new.lodged room }
    ensures tree { KeepsTree nodes.old.lodged nodes.new.lodged }
    ensures stays { Stays nodes.old nodes.new visits.old visits.new }
{
    let rank = roles::leaf(nodes, room, visits).rank.number();
    let first = masks_of(nodes, fork, visits);
    let gap = gap_at(nodes, first, rank, visits);
    put_mask_node(nodes, room, Some(MaskNode { next: gap.behind }), visits);
    link(nodes, fork, gap.before, Some(room), visits);
}

/// Takes a room's mask out of a bit node's list.
pub(crate) fn sort_out<V>(nodes: &mut Nodes<V>, fork: Id, room: Id, visits: &mut Visits)
    requires node { IsBitNode nodes.old.lodged fork }
    requires list { (ms : List (Placed V)) × (x : Placed V)
        × MasksAt nodes.old.lodged fork ms × IsAmong x ms × (x.room ≡ room) }
    requires turn { visits.old.turn ≡ nodes.old.turn }
    ensures list { (ms : List (Placed V)) (x : Placed V) → MasksAt nodes.old.lodged fork ms → IsAmong x ms
        → x.room ≡ room → MasksAt nodes.new.lodged fork (taken_out x.entry.rank ms) }
    ensures heads { (n : ℕ) → (n ≡ number_of fork → ⊥) → heads_in nodes.new.lodged n ≡ heads_in nodes.old.lodged n }
    ensures masks { KeepsAsideBut nodes.old.lodged nodes.new.lodged fork room }
    ensures unmarked { masks_in nodes.new.lodged (number_of room) ≡ None }
    ensures marks { KeepsMarksBut nodes.old.lodged nodes.new.lodged room }
    ensures tree { KeepsTree nodes.old.lodged nodes.new.lodged }
    ensures stays { Stays nodes.old nodes.new visits.old visits.new }
{
    let (leaf, mask) = roles::mask_node(nodes, room, visits);
    let first = masks_of(nodes, fork, visits);
    let gap = gap_at(nodes, first, leaf.rank.number() + 1, visits);
    link(nodes, fork, gap.before, mask.next, visits);
    put_mask_node(nodes, room, None, visits);
}

/// Keeps those masks of a bit node's list whose ranks are past a bit, and answers the first of the others, which are a
/// list of their own from now on.
fn cut_list<V>(nodes: &mut Nodes<V>, fork: Id, bit: u8, visits: &mut Visits) -> Option<Id>
    requires node { IsBitNode nodes.old.lodged fork }
    requires list { (ms : List (Placed V)) × MasksAt nodes.old.lodged fork ms }
    requires bit { bit ≤ last_bit }
    requires turn { visits.old.turn ≡ nodes.old.turn }
    ensures kept { (ms : List (Placed V)) → MasksAt nodes.old.lodged fork ms
        → MasksAt nodes.new.lodged fork (past_bit bit ms) }
    ensures others { (ms : List (Placed V)) → MasksAt nodes.old.lodged fork ms
        → IsMasks nodes.new.lodged result (up_to_bit bit ms) }
    ensures heads { (n : ℕ) → (n ≡ number_of fork → ⊥) → heads_in nodes.new.lodged n ≡ heads_in nodes.old.lodged n }
    ensures masks { KeepsAside nodes.old.lodged nodes.new.lodged fork }
    ensures marks { (n : ℕ) → is_some (masks_in nodes.new.lodged n) ≡ is_some (masks_in nodes.old.lodged n) }
    ensures tree { KeepsTree nodes.old.lodged nodes.new.lodged }
    ensures stays { Stays nodes.old nodes.new visits.old visits.new }
{
    let first = masks_of(nodes, fork, visits);
    let gap = gap_at(nodes, first, bit + 1, visits);
    link(nodes, fork, gap.before, None, visits);
    gap.behind
}

/// Keeps those masks of the list at a node whose ranks are past a bit, and answers the first of the others, which are a
/// list of their own from now on. A leaf has no list.
pub(crate) fn cut<V>(nodes: &mut Nodes<V>, at: Node, bit: u8, visits: &mut Visits) -> Option<Id>
    requires node { (fork : Id) → at ≡ BitOf fork → IsBitNode nodes.old.lodged fork }
    requires list { (fork : Id) → at ≡ BitOf fork → (ms : List (Placed V)) × MasksAt nodes.old.lodged fork ms }
    requires bit { bit ≤ last_bit }
    requires turn { visits.old.turn ≡ nodes.old.turn }
    ensures kept { (fork : Id) (ms : List (Placed V)) → at ≡ BitOf fork → MasksAt nodes.old.lodged fork ms
        → MasksAt nodes.new.lodged fork (past_bit bit ms) }
    ensures others { (fork : Id) (ms : List (Placed V)) → at ≡ BitOf fork → MasksAt nodes.old.lodged fork ms
        → IsMasks nodes.new.lodged result (up_to_bit bit ms) }
    ensures leaf { (room : Id) → at ≡ LeafOf room → (result ≡ None) × (nodes.new ≡ nodes.old) }
    ensures heads { (n : ℕ) → ((fork : Id) → at ≡ BitOf fork → n ≡ number_of fork → ⊥)
        → heads_in nodes.new.lodged n ≡ heads_in nodes.old.lodged n }
    ensures masks { (fork : Id) → at ≡ BitOf fork → KeepsAside nodes.old.lodged nodes.new.lodged fork }
    ensures marks { (n : ℕ) → is_some (masks_in nodes.new.lodged n) ≡ is_some (masks_in nodes.old.lodged n) }
    ensures tree { KeepsTree nodes.old.lodged nodes.new.lodged }
    ensures stays { Stays nodes.old nodes.new visits.old visits.new }
{
    match at {
        Node::Leaf(_) => None,
        Node::Bit(fork) => cut_list(nodes, fork, bit, visits),
    }
}

/// Appends a list of masks to that of a bit node. All its masks are shorter than those of the bit node.
pub(crate) fn append<V>(nodes: &mut Nodes<V>, fork: Id, tail: Option<Id>, visits: &mut Visits)
    requires node { IsBitNode nodes.old.lodged fork }
    requires list { (ms ts : List (Placed V)) × MasksAt nodes.old.lodged fork ms
        × IsMasks nodes.old.lodged tail ts × Falls 0 ranks (ms ++ ts) }
    requires turn { visits.old.turn ≡ nodes.old.turn }
    ensures list { (ms ts : List (Placed V)) → MasksAt nodes.old.lodged fork ms → IsMasks nodes.old.lodged tail ts
        → Falls 0 ranks (ms ++ ts) → MasksAt nodes.new.lodged fork (ms ++ ts) }
    ensures heads { (n : ℕ) → (n ≡ number_of fork → ⊥) → heads_in nodes.new.lodged n ≡ heads_in nodes.old.lodged n }
    ensures masks { KeepsAside nodes.old.lodged nodes.new.lodged fork }
    ensures marks { (n : ℕ) → is_some (masks_in nodes.new.lodged n) ≡ is_some (masks_in nodes.old.lodged n) }
    ensures tree { KeepsTree nodes.old.lodged nodes.new.lodged }
    ensures stays { Stays nodes.old nodes.new visits.old visits.new }
{
    let first = masks_of(nodes, fork, visits);
    let gap = gap_at(nodes, first, 0, visits);
    link(nodes, fork, gap.before, tail, visits);
}

/// Unlists all masks of a list: their rooms are no mask nodes any more.
pub(crate) fn clear<V>(nodes: &mut Nodes<V>, first: Option<Id>, visits: &mut Visits)
    requires list { (ms : List (Placed V)) × IsMasks nodes.old.lodged first ms }
    requires turn { visits.old.turn ≡ nodes.old.turn }
    ensures cleared { (ms : List (Placed V)) (y : Placed V) → IsMasks nodes.old.lodged first ms → IsAmong y ms
        → masks_in nodes.new.lodged (number_of y.room) ≡ None }
    ensures masks { (ms : List (Placed V)) → IsMasks nodes.old.lodged first ms
        → (n : ℕ) → IsAside n ms → masks_in nodes.new.lodged n ≡ masks_in nodes.old.lodged n }
    ensures fewer { (n : ℕ) → (masks_in nodes.new.lodged n ≡ None)
        ⊎ (masks_in nodes.new.lodged n ≡ masks_in nodes.old.lodged n) }
    ensures heads { KeepsHeads nodes.old.lodged nodes.new.lodged }
    ensures tree { KeepsTree nodes.old.lodged nodes.new.lodged }
    ensures stays { Stays nodes.old nodes.new visits.old visits.new }
{
    let mut at = first;
    while let Some(room) = at {
        let (_, mask) = roles::mask_node(nodes, room, visits);
        put_mask_node(nodes, room, None, visits);
        at = mask.next;
    }
}

/// The bit node at which the mask of a rank is listed, from the leaf of a route: the topmost one above whose bit is at
/// or past the rank.
pub(crate) fn home<V>(nodes: &Nodes<V>, leaf: Id, rank: Rank, visits: &mut Visits) -> Option<Id>
    requires led { (key : ℕ) × (whole : Part nodes.now.lodged) × (whole.above ≡ None) × (whole.low ≡ 0)
        × LedTo key whole leaf }
    requires turn { visits.old.turn ≡ nodes.now.turn }
    ensures home { (key : ℕ) (whole : Part nodes.now.lodged) → whole.above ≡ None → whole.low ≡ 0
        → LedTo key whole leaf → IsHome nodes.now.lodged key rank whole result }
    ensures counter { visits.new.turn ≡ visits.old.turn }
{
    let rank = rank.number();
    let mut home = None;
    let mut above = roles::leaf(nodes, leaf, visits).above;
    while let Some(up) = above {
        let node = roles::bit_node(nodes, up, visits);
        if node.bit < rank {
            return home;
        }
        home = Some(up);
        above = node.above;
    }
    home
}
