//! What a room says of its place in a tree.
ghost use Rattle.std.specs.Prelude.{◌≡◌};
ghost use Rattle.radix_nodes.specs.Flags.{has, turned};
ghost use Rattle.radix_nodes.specs.Links.{leaf_of, bit_node_of, mask_node_of, id_in, node_in, IsBlank};

use crate::flags::{
    Flags, HAS_ABOVE, HAS_BIT_ABOVE, HAS_MASKS, HAS_NEXT, HAS_NEXT_MASK, HAS_PREVIOUS, IS_BIT_NODE,
    IS_MASK_NODE, ONE_IS_LEAF, ZERO_IS_LEAF,
};
use crate::id::Id;
use mask_table::Rank;
use sock_addrs::Inet;

/// A node of a tree, by its room: a room can be both a leaf and a bit node.
#[derive(Clone, Copy)]
pub enum Node {
    Leaf(Id),
    Bit(Id),
}

/// A room as a leaf, which has a route: one of the routes of its key, which are a chain.
#[derive(Clone, Copy)]
pub struct Leaf {
    pub key: Inet,
    pub rank: Rank,
    /// The bit node above. Of a chain the first member alone has it.
    pub above: Option<Id>,
    /// The chain's next member.
    pub next: Option<Id>,
    /// The chain's previous member.
    pub previous: Option<Id>,
}

/// A room as a bit node in use, which tests one bit of a key.
#[derive(Clone, Copy)]
pub struct BitNode {
    /// The bit that it tests, of which 0 is the highest.
    pub bit: u8,
    /// Beneath it, the node of the keys in which this bit is 0.
    pub zero: Node,
    /// Beneath it, the node of the keys in which this bit is 1.
    pub one: Node,
    /// The bit node above it.
    pub above: Option<Id>,
    /// The first of the masks that are listed at it.
    pub masks: Option<Id>,
}

/// A room as a mask node, whose route's mask is listed at a bit node.
#[derive(Clone, Copy)]
pub struct MaskNode {
    /// The next mask of the list.
    pub next: Option<Id>,
}

/// A room's links: what it is as a leaf, as a bit node and as a mask node. They take 72 bytes: eight names of 8 bytes
/// each, and 8 bytes for the key, the rank, the bit, and the flags: which of the nodes beneath are leaves, which of the
/// other names are there, and in which roles the room is in use. What a descent reads comes first: one of the nodes
/// beneath, and beside either of them the bit and the flags.
#[derive(Clone, Copy)]
pub struct Links {
    zero: Id,
    key: Inet,
    rank: Rank,
    bit: u8,
    flags: Flags,
    one: Id,
    bit_above: Id,
    masks: Id,
    above: Id,
    next: Id,
    previous: Id,
    next_mask: Id,
}

impl Links {
    /// The links of a room that has just been lodged: a leaf by itself, which is no bit node and no mask node.
    pub fn blank() -> Links
        ensures { IsBlank result }
    {
        let nobody = Id::nobody();
        Links {
            zero: nobody,
            one: nobody,
            key: Inet([0, 0, 0, 0]),
            rank: Rank::new(0),
            bit: 0,
            flags: Flags::none(),
            bit_above: nobody,
            masks: nobody,
            above: nobody,
            next: nobody,
            previous: nobody,
            next_mask: nobody,
        }
    }

    /// What the room is as a leaf.
    pub fn leaf(&self) -> Leaf
        ensures { result ≡ leaf_of self.now }
    {
        Leaf {
            key: self.key,
            rank: self.rank,
            above: read(self.flags.has(HAS_ABOVE), self.above),
            next: read(self.flags.has(HAS_NEXT), self.next),
            previous: read(self.flags.has(HAS_PREVIOUS), self.previous),
        }
    }

    /// What it is as a bit node, where it is one in use.
    pub fn bit_node(&self) -> Option<BitNode>
        ensures { result ≡ bit_node_of self.now }
    {
        if !self.flags.has(IS_BIT_NODE) {
            return None;
        }
        Some(BitNode {
            bit: self.bit,
            zero: read_node(self.flags.has(ZERO_IS_LEAF), self.zero),
            one: read_node(self.flags.has(ONE_IS_LEAF), self.one),
            above: read(self.flags.has(HAS_BIT_ABOVE), self.bit_above),
            masks: read(self.flags.has(HAS_MASKS), self.masks),
        })
    }

    /// What it is as a mask node, where it is listed.
    pub fn mask_node(&self) -> Option<MaskNode>
        ensures { result ≡ mask_node_of self.now }
    {
        if !self.flags.has(IS_MASK_NODE) {
            return None;
        }
        Some(MaskNode {
            next: read(self.flags.has(HAS_NEXT_MASK), self.next_mask),
        })
    }

    /// One of the flags.
    pub(crate) fn flag(&self) -> bool
        ensures { result ≡ has self.now.flags IS_BIT_NODE }
    {
        self.flags.has(IS_BIT_NODE)
    }

    /// Turns that flag.
    pub(crate) fn turn_flag(&mut self)
        ensures { self.new ≡ record self.old { flags = turned self.old.flags } }
    {
        self.flags.turn();
    }

    /// The same links with another leaf.
    pub fn with_leaf(self, leaf: Leaf) -> Links
        ensures leaf { leaf_of result ≡ leaf }
        ensures bit_node { bit_node_of result ≡ bit_node_of self }
        ensures mask_node { mask_node_of result ≡ mask_node_of self }
    {
        let (has_above, above) = written(leaf.above);
        let (has_next, next) = written(leaf.next);
        let (has_previous, previous) = written(leaf.previous);
        Links {
            key: leaf.key,
            rank: leaf.rank,
            flags: self.flags.with_leaf(has_above, has_next, has_previous),
            above,
            next,
            previous,
            ..self
        }
    }

    /// The same links with another bit node, or with none.
    pub fn with_bit_node(self, bit_node: Option<BitNode>) -> Links
        ensures leaf { leaf_of result ≡ leaf_of self }
        ensures bit_node { bit_node_of result ≡ bit_node }
        ensures mask_node { mask_node_of result ≡ mask_node_of self }
    {
        let Some(bit_node) = bit_node else {
            return Links {
                flags: self.flags.without_bit_node(),
                ..self
            };
        };
        let (zero_is_leaf, zero) = written_node(bit_node.zero);
        let (one_is_leaf, one) = written_node(bit_node.one);
        let (has_bit_above, bit_above) = written(bit_node.above);
        let (has_masks, masks) = written(bit_node.masks);
        Links {
            bit: bit_node.bit,
            flags: self
                .flags
                .with_bit_node(zero_is_leaf, one_is_leaf, has_bit_above, has_masks),
            zero,
            one,
            bit_above,
            masks,
            ..self
        }
    }

    /// The same links with another mask node, or with none.
    pub fn with_mask_node(self, mask_node: Option<MaskNode>) -> Links
        ensures leaf { leaf_of result ≡ leaf_of self }
        ensures bit_node { bit_node_of result ≡ bit_node_of self }
        ensures mask_node { mask_node_of result ≡ mask_node }
    {
        let Some(mask_node) = mask_node else {
            return Links {
                flags: self.flags.without_mask_node(),
                ..self
            };
        };
        let (has_next_mask, next_mask) = written(mask_node.next);
        Links {
            flags: self.flags.with_mask_node(has_next_mask),
            next_mask,
            ..self
        }
    }
}

/// A name that is there or not, as it is kept.
fn written(name: Option<Id>) -> (bool, Id)
    ensures { id_in result.0 result.1 ≡ name }
{
    match name {
        Some(id) => (true, id),
        None => (false, Id::nobody()),
    }
}

/// A name that is kept as there or not.
fn read(there: bool, id: Id) -> Option<Id>
    ensures { result ≡ id_in there id }
{
    if there { Some(id) } else { None }
}

/// A node, as it is kept: whether it is a leaf, and its room.
fn written_node(node: Node) -> (bool, Id)
    ensures { node_in result.0 result.1 ≡ node }
{
    match node {
        Node::Leaf(id) => (true, id),
        Node::Bit(id) => (false, id),
    }
}

/// A node that is kept so.
fn read_node(is_leaf: bool, id: Id) -> Node
    ensures { result ≡ node_in is_leaf id }
{
    if is_leaf {
        Node::Leaf(id)
    } else {
        Node::Bit(id)
    }
}
