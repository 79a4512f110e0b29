//! A tree as a graph in the language of Graphviz.
ghost use Rattle.std.specs.Prelude.{◌≡◌, ◌+◌, ◌++◌, ◌≤◌, OnOk, is_err, length};
ghost use Rattle.memory.specs.Refusing.{Rises};
ghost use Rattle.tree_pictures.specs.Drawing.{leaf_line, node_line};
ghost use Rattle.tree_pictures.specs.Dot.{edge_dot, graph, graph_text, node_dot};
ghost use Rattle.tree_pictures.specs.Tree.{tree_from};

use crate::Pair;
use crate::drawing::deeper;
use crate::lines::{put_leaf, put_node};
use crate::masks::masks;
use crate::splitting::{is_one_sided, side_at, zeros};
use lab_text::Text;
use memory::Memory;
use std::alloc::AllocError;

/// Appends the radix tree of routes in table order as a graph that `dot` of Graphviz draws: a box for each bit node and
/// each leaf, with the line that `put_tree` has for it, named by the sides of the way to it.
pub fn put_graph(text: &mut Text, pairs: &[Pair], memory: &mut Memory) -> Result<(), AllocError>
    ensures put { OnOk result (text.new ≡ text.old ++ graph_text pairs.now) }
    ensures counted { Rises (is_err result) memory.old memory.new }
{
    if pairs.is_empty() {
        return text.put(b"digraph tree {\n}\n", memory);
    }
    text.put(b"digraph tree {\nnode [shape=box]\n", memory)?;
    put_part(text, b"n", pairs, 32, 0, memory)?;
    text.put(b"}\n", memory)
}

/// Appends the tree of routes whose keys are the same but for their last bits, so many of them. The bit node above is
/// of the bit before `low`.
fn put_part(
    text: &mut Text,
    name: &[u8],
    pairs: &[Pair],
    left: u8,
    low: u8,
    memory: &mut Memory,
) -> Result<(), AllocError>
    requires low { low + left ≤ 32 }
    requires name { length name.now + left ≤ 160 }
    ensures put { OnOk result (text.new ≡ text.old ++ graph name.now low (tree_from left pairs.now)) }
    ensures counted { Rises (is_err result) memory.old memory.new }
{
    if left == 0 {
        return put_leaf_box(text, name, pairs, memory);
    }
    let bit = 32 - left;
    let at = zeros(pairs, bit);
    if is_one_sided(pairs, at) {
        return put_part(text, name, pairs, left - 1, low, memory);
    }
    put_node_box(text, name, bit, &masks(pairs, low, bit), memory)?;
    let beneath = deeper(name, b"0");
    let side = side_at(pairs, at, false);
    put_edge(text, name, b"0", memory)?;
    put_part(text, &beneath, side, left - 1, bit + 1, memory)?;
    let beneath = deeper(name, b"1");
    let side = side_at(pairs, at, true);
    put_edge(text, name, b"1", memory)?;
    put_part(text, &beneath, side, left - 1, bit + 1, memory)
}

/// Appends the box of a leaf.
fn put_leaf_box(
    text: &mut Text,
    name: &[u8],
    chain: &[Pair],
    memory: &mut Memory,
) -> Result<(), AllocError>
    ensures put { OnOk result (text.new ≡ text.old ++ node_dot name.now (leaf_line chain.now)) }
    ensures counted { Rises (is_err result) memory.old memory.new }
{
    text.put(name, memory)?;
    text.put(b" [label=\"", memory)?;
    put_leaf(text, chain, memory)?;
    text.put(b"\"]\n", memory)
}

/// Appends the box of a bit node.
fn put_node_box(
    text: &mut Text,
    name: &[u8],
    bit: u8,
    masks: &[Pair],
    memory: &mut Memory,
) -> Result<(), AllocError>
    ensures put { OnOk result (text.new ≡ text.old ++ node_dot name.now (node_line bit masks.now)) }
    ensures counted { Rises (is_err result) memory.old memory.new }
{
    text.put(name, memory)?;
    text.put(b" [label=\"", memory)?;
    put_node(text, bit, masks, memory)?;
    text.put(b"\"]\n", memory)
}

/// Appends the edge to a side.
fn put_edge(
    text: &mut Text,
    name: &[u8],
    side: &[u8],
    memory: &mut Memory,
) -> Result<(), AllocError>
    ensures put { OnOk result (text.new ≡ text.old ++ edge_dot name.now side.now) }
    ensures counted { Rises (is_err result) memory.old memory.new }
{
    text.put(name, memory)?;
    text.put(b" -> ", memory)?;
    text.put(name, memory)?;
    text.put(side, memory)?;
    text.put(b" [label=", memory)?;
    text.put(side, memory)?;
    text.put(b"]\n", memory)
}
