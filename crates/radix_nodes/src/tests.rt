//! What no clause says: sizes, each call once, and a thousand rooms at a time, taken out in another order.
ghost use Rattle.radix_nodes.specs.Keeping.{Keeps};

use crate::room::Full;
use crate::{BitNode, Id, Leaf, Links, MaskNode, Node, Nodes, Visits};
use mask_table::Rank;
use memory::Memory;
use sock_addrs::Inet;
use std::alloc::AllocError;
use std::mem::size_of;
use std::test::Fail;

const NET: Inet = Inet([10, 1, 0, 0]);

#[test]
fn sizes(rt: HostRuntime) {
    assert_eq!(rt; size_of::<Id>(), 8);
    assert_eq!(rt; size_of::<Links>(), 72);
    assert_eq!(rt; size_of::<Visits>(), 0);
    assert_eq!(rt; size_of::<Full<[u64; 11]>>(), 176);
}

/// Links in each role that name this room.
fn links_to(id: Id) -> Links {
    let leaf = Leaf {
        key: NET,
        rank: Rank::new(16),
        above: None,
        next: Some(id),
        previous: None,
    };
    let bit_node = BitNode {
        bit: 15,
        zero: Node::Bit(id),
        one: Node::Leaf(id),
        above: None,
        masks: Some(id),
    };
    let links = Links::blank().with_leaf(leaf);
    let links = links.with_bit_node(Some(bit_node));
    links.with_mask_node(Some(MaskNode { next: Some(id) }))
}

#[test]
fn links_by_role(rt: HostRuntime) -> Result<(), AllocError> {
    let mut nodes = Nodes::new(rt.alloc());
    let room = nodes.make(&mut Memory::new())?;
    let id = nodes.lodge(room, 7u64);
    let links = links_to(id);
    assert!(rt; links.leaf().key == NET && links.leaf().rank == Rank::new(16));
    assert!(rt; links.leaf().next.is_some() && links.leaf().above.is_none());
    let masks = match links.bit_node() {
        Some(node) => node.masks,
        None => None,
    };
    assert!(rt; masks.is_some());
    assert!(rt; links.mask_node().is_some());
    assert!(rt; links.with_bit_node(None).bit_node().is_none());
    assert!(rt; links.with_mask_node(None).mask_node().is_none());
    Ok(())
}

#[test]
fn a_room_in_and_out(rt: HostRuntime) -> Result<(), AllocError> {
    let mut nodes = Nodes::new(rt.alloc());
    let room = nodes.make(&mut Memory::new())?;
    let id = nodes.lodge(room, 7u64);
    let (room, value) = nodes.evict(id);
    nodes.scrap(room);
    assert_eq!(rt; value, 7);
    Ok(())
}

#[test]
fn two_rooms(rt: HostRuntime) -> Result<(), AllocError> {
    let mut nodes = Nodes::new(rt.alloc());
    let room = nodes.make(&mut Memory::new())?;
    let a = nodes.lodge(room, 7u64);
    let room = nodes.make(&mut Memory::new())?;
    let b = nodes.lodge(room, 7u64);
    let itself = nodes.same(b, b);
    let other = nodes.same(b, a);
    assert!(rt; itself && !other);
    Ok(())
}

#[test]
fn a_room_read_and_written(rt: HostRuntime) -> Result<(), AllocError> {
    let mut nodes = Nodes::new(rt.alloc());
    let room = nodes.make(&mut Memory::new())?;
    let id = nodes.lodge(room, 7u64);
    nodes.set_links(id, links_to(id));
    let mut visits = nodes.begin();
    let linked = nodes.links(id, &mut visits).leaf().next.is_some();
    let value = *nodes.value(id, &mut visits);
    let room = nodes.value_mut(id);
    *room = 8;
    assert!(rt; linked && value == 7);
    Ok(())
}

/// Makes two rooms and gives both back.
fn two_given_back(nodes: &mut Nodes<u64>) -> Result<(), AllocError> {
    let room = nodes.make(&mut Memory::new())?;
    let other = nodes.make(&mut Memory::new());
    nodes.scrap(room);
    nodes.scrap(other?);
    Ok(())
}

/// Two rooms beside a lodged one come back. One of them is kept, for the next that is made, and in the end for none.
#[test]
fn a_room_that_is_kept(rt: HostRuntime) -> Result<(), AllocError> {
    let mut nodes = Nodes::new(rt.alloc());
    let room = nodes.make(&mut Memory::new())?;
    nodes.lodge(room, 7u64);
    two_given_back(&mut nodes)?;
    let room = nodes.make(&mut Memory::new())?;
    let id = nodes.lodge(room, 8);
    let mut visits = nodes.begin();
    let value = *nodes.value(id, &mut visits);
    let room = nodes.make(&mut Memory::new())?;
    nodes.scrap(room);
    assert_eq!(rt; value, 8);
    Ok(())
}

/// What is in the map when it is let go is freed with it; that nothing is left is counted from outside.
#[test]
fn a_thousand_rooms_let_go(rt: HostRuntime) -> Result<(), Fail> {
    let mut nodes = Nodes::new(rt.alloc());
    for number in 0..1000u64 {
        let value = Box::new(rt.alloc(), number)?;
        let room = nodes.make(&mut Memory::new())?;
        nodes.lodge(room, value);
    }
    Ok(())
}

/// Lodges a room for each level, linked to the one of the level above, and takes it out once those beneath are out.
/// Whether all that was read is what was written.
fn nest(nodes: &mut Nodes<u64>, levels: u64, above: Option<Id>) -> Result<bool, AllocError>
    ensures { Keeps nodes.old.lodged nodes.new.lodged }
{
    if levels == 0 {
        return Ok(true);
    }
    let room = nodes.make(&mut Memory::new())?;
    let id = nodes.lodge(room, levels);
    let leaf = Leaf {
        key: NET,
        rank: Rank::new(16),
        above,
        next: None,
        previous: None,
    };
    nodes.set_links(id, Links::blank().with_leaf(leaf));
    let inner = nest(nodes, levels - 1, Some(id));
    let mut visits = nodes.begin();
    let linked = nodes.links(id, &mut visits).leaf().above.is_some() == above.is_some();
    let (room, value) = nodes.evict(id);
    nodes.scrap(room);
    match inner {
        Ok(right) => Ok(right && linked && value == levels),
        Err(error) => Err(error),
    }
}

#[test]
fn a_thousand_rooms(rt: HostRuntime) -> Result<(), AllocError> {
    let mut nodes = Nodes::new(rt.alloc());
    assert!(rt; nest(&mut nodes, 1000, None)?);
    assert!(rt; nest(&mut nodes, 1000, None)?);
    Ok(())
}
