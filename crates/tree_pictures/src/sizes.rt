//! How much room the picture of a tree takes.
ghost use Rattle.std.specs.Prelude.{◌≡◌, ◌+◌, ◌*◌, ◌<◌, ◌≤◌, length};
ghost use Rattle.tree_pictures.specs.Svg.{columns, columns_before, rows};
ghost use Rattle.tree_pictures.specs.Tree.{tree_from};

use crate::Pair;
use crate::splitting::{is_one_sided, side_at, zeros};

/// The columns and rows of a tree's boxes.
#[derive(Clone, Copy)]
pub(crate) struct Size {
    /// How many columns.
    pub(crate) columns: u64,
    /// How many of them come before that of the topmost box.
    pub(crate) before: u64,
    /// How many rows.
    pub(crate) rows: u8,
}

/// The size of the tree of routes whose keys are the same but for their last bits, so many of them.
pub(crate) fn size_of(pairs: &[Pair], left: u8) -> Size
    requires within { left ≤ 32 }
    requires some { 0 < length pairs.now }
    ensures columns { result.columns ≡ columns (tree_from left pairs.now) }
    ensures before { result.before ≡ columns_before (tree_from left pairs.now) }
    ensures rows { result.rows ≡ rows (tree_from left pairs.now) }
    ensures fewer { result.before < result.columns }
    ensures most { result.columns < 2 * length pairs.now }
    ensures low { result.rows ≤ left + 1 }
{
    if left == 0 {
        return Size {
            columns: 1,
            before: 0,
            rows: 1,
        };
    }
    let at = zeros(pairs, 32 - left);
    if is_one_sided(pairs, at) {
        return size_of(pairs, left - 1);
    }
    let zero_side = size_of(side_at(pairs, at, false), left - 1);
    let one_side = size_of(side_at(pairs, at, true), left - 1);
    Size {
        columns: zero_side.columns + 1 + one_side.columns,
        before: zero_side.columns,
        rows: zero_side.rows.max(one_side.rows) + 1,
    }
}
