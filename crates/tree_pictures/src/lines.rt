//! The lines of leaves and of bit nodes.
ghost use Rattle.std.specs.Prelude.{◌≡◌, ◌++◌, OnOk, is_err, codes};
ghost use Rattle.memory.specs.Refusing.{Rises};
ghost use Rattle.tree_pictures.specs.Drawing.{routes_words, masks_words, leaf_line, node_line};

use crate::Pair;
use lab_text::Text;
use memory::Memory;
use std::alloc::AllocError;

/// Appends routes, each with a space before it.
pub(crate) fn put_routes(
    text: &mut Text,
    pairs: &[Pair],
    memory: &mut Memory,
) -> Result<(), AllocError>
    ensures put { OnOk result (text.new ≡ text.old ++ routes_words pairs.now) }
    ensures counted { Rises (is_err result) memory.old memory.new }
{
    'routes: for i in 0..pairs.len() {
        text.put(b" ", memory)?;
        text.put_destination(pairs[i].key, pairs[i].rank, memory)?;
    }
    Ok(())
}

/// Appends the line of a leaf.
pub(crate) fn put_leaf(
    text: &mut Text,
    chain: &[Pair],
    memory: &mut Memory,
) -> Result<(), AllocError>
    ensures put { OnOk result (text.new ≡ text.old ++ leaf_line chain.now) }
    ensures counted { Rises (is_err result) memory.old memory.new }
{
    text.put(b"leaf", memory)?;
    put_routes(text, chain, memory)?;
    text.put(b"\n", memory)
}

/// Appends the line of a bit node, with the masks that it lists.
pub(crate) fn put_node(
    text: &mut Text,
    bit: u8,
    masks: &[Pair],
    memory: &mut Memory,
) -> Result<(), AllocError>
    ensures put { OnOk result (text.new ≡ text.old ++ node_line bit masks.now) }
    ensures counted { Rises (is_err result) memory.old memory.new }
{
    text.put(b"bit ", memory)?;
    text.put_number(u64::from(bit), memory)?;
    put_masks(text, masks, memory)?;
    text.put(b"\n", memory)
}

/// Appends the masks, where there are any.
fn put_masks(text: &mut Text, masks: &[Pair], memory: &mut Memory) -> Result<(), AllocError>
    ensures put { OnOk result (text.new ≡ text.old ++ masks_words masks.now) }
    ensures counted { Rises (is_err result) memory.old memory.new }
{
    if masks.is_empty() {
        return Ok(());
    }
    text.put(b", masks", memory)?;
    put_routes(text, masks, memory)
}
