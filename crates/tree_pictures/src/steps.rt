//! A search is told, step by step.
ghost use Rattle.std.specs.Prelude.{◌≡◌, ◌+◌, ◌++◌, ◌≤◌, ◌<◌, find, OnOk, IfOk, None, is_err};
ghost use Rattle.memory.specs.Refusing.{Rises};
ghost use Rattle.tree_pictures.specs.Steps.{answer_line, best_line, down_line, find_text, tries, try_line, up_lines, way_text};
ghost use Rattle.tree_pictures.specs.Tree.{covers, found, tree_from};

use crate::Pair;
use crate::lines::{put_leaf, put_node};
use crate::masks::masks;
use crate::splitting::{is_one, is_one_sided, side_at, zeros};
use lab_text::Text;
use mask_table::agrees;
use memory::Memory;
use sock_addrs::Inet;
use std::alloc::AllocError;

/// Appends how the best route of an address is found in the radix tree of routes in table order: down by its bits to a
/// leaf and along the chain, then up, and at each bit node along the masks that are listed there, until a route agrees;
/// and which it is.
pub fn put_find(
    text: &mut Text,
    address: Inet,
    pairs: &[Pair],
    memory: &mut Memory,
) -> Result<(), AllocError>
    ensures put { OnOk result (text.new ≡ text.old ++ find_text address pairs.now) }
    ensures counted { Rises (is_err result) memory.old memory.new }
{
    if pairs.is_empty() {
        text.put(b"the table is empty\n", memory)?;
        return put_answer(text, address, None, memory);
    }
    let best = put_way(text, address, pairs, 32, 0, memory)?;
    put_answer(text, address, best, memory)
}

/// Appends the steps in the tree of routes whose keys are the same but for their last bits, so many of them. The bit
/// node above is of the bit before `low`.
fn put_way(
    text: &mut Text,
    address: Inet,
    pairs: &[Pair],
    left: u8,
    low: u8,
    memory: &mut Memory,
) -> Result<Option<Pair>, AllocError>
    requires low { low + left ≤ 32 }
    ensures put { OnOk result (text.new ≡ text.old ++ way_text low address (tree_from left pairs.now)) }
    ensures found { IfOk result (λ best. best ≡ found low address (tree_from left pairs.now)) }
    ensures counted { Rises (is_err result) memory.old memory.new }
{
    if left == 0 {
        put_leaf(text, pairs, memory)?;
        return put_tries(text, address, pairs, memory);
    }
    let bit = 32 - left;
    let at = zeros(pairs, bit);
    if is_one_sided(pairs, at) {
        return put_way(text, address, pairs, left - 1, low, memory);
    }
    put_down(text, bit, address, memory)?;
    let side = side_at(pairs, at, is_one(address, bit));
    match put_way(text, address, side, left - 1, bit + 1, memory)? {
        Some(best) => Ok(Some(best)),
        None => put_up(text, address, bit, &masks(pairs, low, bit), memory),
    }
}

/// Appends the step down from a bit node.
fn put_down(text: &mut Text, bit: u8, address: Inet, memory: &mut Memory) -> Result<(), AllocError>
    requires { bit < 32 }
    ensures put { OnOk result (text.new ≡ text.old ++ down_line bit address) }
    ensures counted { Rises (is_err result) memory.old memory.new }
{
    text.put(b"bit ", memory)?;
    text.put_number(u64::from(bit), memory)?;
    text.put(b" of ", memory)?;
    text.put_inet(address, memory)?;
    if is_one(address, bit) {
        text.put(b" is 1: down on the 1 side\n", memory)
    } else {
        text.put(b" is 0: down on the 0 side\n", memory)
    }
}

/// Appends the step up to a bit node, and those along the masks that it lists; the first that agrees, if one does.
fn put_up(
    text: &mut Text,
    address: Inet,
    bit: u8,
    masks: &[Pair],
    memory: &mut Memory,
) -> Result<Option<Pair>, AllocError>
    ensures put { OnOk result (text.new ≡ text.old ++ up_lines address bit masks.now None) }
    ensures found { IfOk result (λ best. best ≡ find (covers address) masks.now) }
    ensures counted { Rises (is_err result) memory.old memory.new }
{
    text.put(b"up to ", memory)?;
    put_node(text, bit, masks, memory)?;
    put_tries(text, address, masks, memory)
}

/// Appends the steps along routes until one agrees, and answers that one.
fn put_tries(
    text: &mut Text,
    address: Inet,
    pairs: &[Pair],
    memory: &mut Memory,
) -> Result<Option<Pair>, AllocError>
    ensures put { OnOk result (text.new ≡ text.old ++ tries address pairs.now) }
    ensures found { IfOk result (λ best. best ≡ find (covers address) pairs.now) }
    ensures counted { Rises (is_err result) memory.old memory.new }
{
    'routes: for i in 0..pairs.len() {
        put_try(text, address, pairs[i], memory)?;
        if agrees(pairs[i].key, pairs[i].rank, address) {
            return Ok(Some(pairs[i]));
        }
    }
    Ok(None)
}

/// Appends whether an address agrees with a route.
fn put_try(
    text: &mut Text,
    address: Inet,
    pair: Pair,
    memory: &mut Memory,
) -> Result<(), AllocError>
    ensures put { OnOk result (text.new ≡ text.old ++ try_line address pair) }
    ensures counted { Rises (is_err result) memory.old memory.new }
{
    text.put(b"  ", memory)?;
    text.put_destination(pair.key, pair.rank, memory)?;
    if agrees(pair.key, pair.rank, address) {
        text.put(b" agrees\n", memory)
    } else {
        text.put(b" does not agree\n", memory)
    }
}

/// Appends the line of what was found.
fn put_answer(
    text: &mut Text,
    address: Inet,
    best: Option<Pair>,
    memory: &mut Memory,
) -> Result<(), AllocError>
    ensures put { OnOk result (text.new ≡ text.old ++ answer_line address best) }
    ensures counted { Rises (is_err result) memory.old memory.new }
{
    match best {
        Some(pair) => put_best(text, address, pair, memory),
        None => {
            text.put_inet(address, memory)?;
            text.put(b" has no route\n", memory)
        }
    }
}

/// Appends which route was found.
fn put_best(
    text: &mut Text,
    address: Inet,
    pair: Pair,
    memory: &mut Memory,
) -> Result<(), AllocError>
    ensures put { OnOk result (text.new ≡ text.old ++ best_line address pair) }
    ensures counted { Rises (is_err result) memory.old memory.new }
{
    text.put(b"the best route of ", memory)?;
    text.put_inet(address, memory)?;
    text.put(b" is ", memory)?;
    text.put_destination(pair.key, pair.rank, memory)?;
    text.put(b"\n", memory)
}
