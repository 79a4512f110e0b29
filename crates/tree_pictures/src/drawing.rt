//! A tree is drawn.
ghost use Rattle.std.specs.Prelude.{◌≡◌, ◌+◌, ◌*◌, ◌++◌, ◌≤◌, OnOk, is_err, length};
ghost use Rattle.memory.specs.Refusing.{Rises};
ghost use Rattle.tree_pictures.specs.Drawing.{drawing, tree_text};
ghost use Rattle.tree_pictures.specs.Tree.{tree_from};

use crate::Pair;
use crate::lines::{put_leaf, put_node};
use crate::masks::masks;
use crate::splitting::{is_one_sided, side_at, zeros};
use arrayvec::ArrayVec;
use lab_text::Text;
use memory::Memory;
use std::alloc::AllocError;

/// The widest indentation: 5 columns for each bit.
const MOST_INDENT: usize = 160;

/// Appends the radix tree of routes in table order: a line for each bit node, with its bit and the masks that are
/// listed there, and one for each leaf, with its chain; what is beneath a bit node stands under it, first what has a 0
/// at its bit, then what has a 1.
pub fn put_tree(text: &mut Text, pairs: &[Pair], memory: &mut Memory) -> Result<(), AllocError>
    ensures put { OnOk result (text.new ≡ text.old ++ tree_text pairs.now) }
    ensures counted { Rises (is_err result) memory.old memory.new }
{
    if pairs.is_empty() {
        return text.put(b"the table is empty\n", memory);
    }
    put_part(text, b"", pairs, 32, 0, memory)
}

/// Appends the tree of routes whose keys are the same but for their last bits, so many of them. The bit node above is
/// of the bit before `low`.
fn put_part(
    text: &mut Text,
    indent: &[u8],
    pairs: &[Pair],
    left: u8,
    low: u8,
    memory: &mut Memory,
) -> Result<(), AllocError>
    requires low { low + left ≤ 32 }
    requires indent { length indent.now + 5 * left ≤ 160 }
    ensures put { OnOk result (text.new ≡ text.old ++ drawing indent.now low (tree_from left pairs.now)) }
    ensures counted { Rises (is_err result) memory.old memory.new }
{
    if left == 0 {
        return put_leaf(text, pairs, memory);
    }
    let bit = 32 - left;
    let at = zeros(pairs, bit);
    if is_one_sided(pairs, at) {
        return put_part(text, indent, pairs, left - 1, low, memory);
    }
    put_node(text, bit, &masks(pairs, low, bit), memory)?;
    let beneath = deeper(indent, b"|    ");
    let side = side_at(pairs, at, false);
    put_mark(text, indent, b"|-0- ", memory)?;
    put_part(text, &beneath, side, left - 1, bit + 1, memory)?;
    let beneath = deeper(indent, b"     ");
    let side = side_at(pairs, at, true);
    put_mark(text, indent, b"|-1- ", memory)?;
    put_part(text, &beneath, side, left - 1, bit + 1, memory)
}

/// Appends an indentation and the mark of a side.
fn put_mark(
    text: &mut Text,
    indent: &[u8],
    mark: &[u8],
    memory: &mut Memory,
) -> Result<(), AllocError>
    ensures put { OnOk result (text.new ≡ text.old ++ indent.now ++ mark.now) }
    ensures counted { Rises (is_err result) memory.old memory.new }
{
    text.put(indent, memory)?;
    text.put(mark, memory)
}

/// The indentation beneath a side.
pub(crate) fn deeper(indent: &[u8], side: &[u8]) -> ArrayVec<u8, MOST_INDENT>
    requires { length indent.now + length side.now ≤ 160 }
    ensures { result.items ≡ indent.now ++ side.now }
{
    let mut wider = ArrayVec::new();
    wider.try_extend_from_slice(indent).unwrap();
    wider.try_extend_from_slice(side).unwrap();
    wider
}
