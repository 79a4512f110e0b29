//! A tree as a picture in SVG.
ghost use Rattle.std.specs.Prelude.{◌≡◌, ◌+◌, ◌*◌, ◌^◌, ◌++◌, ◌<◌, ◌≤◌, OnOk, is_err, length};
ghost use Rattle.memory.specs.Refusing.{Rises};
ghost use Rattle.tree_pictures.specs.Svg.{bit_svg, box_start, edge_svg, frame, hundreds, leaf_svg, lines_svg, node_svg, picture, point, route_svg, svg_start, svg_text};
ghost use Rattle.tree_pictures.specs.Tree.{tree_from};

use crate::Pair;
use crate::masks::masks;
use crate::sizes::size_of;
use crate::splitting::{is_one_sided, side_at, zeros};
use lab_text::Text;
use memory::Memory;
use std::alloc::AllocError;

/// What is written at the end of the edge to the side of 0.
const ZERO_LABEL: &[u8] = b"<text x=\"-8\" y=\"-3\">0</text>";

/// The same at that of 1.
const ONE_LABEL: &[u8] = b"<text x=\"8\" y=\"-3\">1</text>";

/// The column and the row of a box; or those at which a tree begins, its first column and the row of its topmost box.
#[derive(Clone, Copy)]
struct Place {
    column: u64,
    row: u8,
}

/// Appends the radix tree of routes in table order as a picture in SVG: the root on top, what has a 0 at the bit of a
/// bit node left of it, what has a 1 right of it, each box in a column of its own. A leaf's box has its chain; that of
/// a bit node has round corners, its bit and the masks that are listed there.
pub fn put_svg(text: &mut Text, pairs: &[Pair], memory: &mut Memory) -> Result<(), AllocError>
    ensures put { OnOk result (text.new ≡ text.old ++ svg_text pairs.now) }
    ensures counted { Rises (is_err result) memory.old memory.new }
{
    if pairs.is_empty() {
        return text.put(
            b"<svg xmlns=\"http://www.w3.org/2000/svg\" viewBox=\"0 0 200 50\"><text x=\"20\" y=\"30\">the table is empty</text></svg>\n",
            memory,
        );
    }
    let size = size_of(pairs, 32);
    put_start(text, size.columns + 1, size.rows + 3, memory)?;
    let first = Place { column: 0, row: 0 };
    put_part(text, b"", first, pairs, 32, 0, memory)?;
    text.put(b"</svg>\n", memory)
}

/// Appends how a picture of so many columns and rows begins.
fn put_start(text: &mut Text, width: u64, height: u8, memory: &mut Memory) -> Result<(), AllocError>
    ensures put { OnOk result (text.new ≡ text.old ++ svg_start width height) }
    ensures counted { Rises (is_err result) memory.old memory.new }
{
    text.put(
        b"<svg xmlns=\"http://www.w3.org/2000/svg\" viewBox=\"-100 -50 ",
        memory,
    )?;
    put_hundreds(text, width, memory)?;
    text.put(b" ", memory)?;
    put_hundreds(text, u64::from(height), memory)?;
    text.put(
        b"\" font-family=\"monospace\" font-size=\"8\" text-anchor=\"middle\">\n<style>rect,path{fill:white;stroke:black}</style>\n",
        memory,
    )
}

/// Appends the tree of routes whose keys are the same but for their last bits, so many of them. The bit node above is
/// of the bit before `low`.
fn put_part(
    text: &mut Text,
    label: &[u8],
    first: Place,
    pairs: &[Pair],
    left: u8,
    low: u8,
    memory: &mut Memory,
) -> Result<(), AllocError>
    requires low { low + left ≤ 32 }
    requires row { first.row + left ≤ 32 }
    requires some { 0 < length pairs.now }
    requires columns { first.column + 2 * length pairs.now < 2 ^ 64 }
    ensures put { OnOk result (text.new
        ≡ text.old ++ picture label.now first.column first.row low (tree_from left pairs.now)) }
    ensures counted { Rises (is_err result) memory.old memory.new }
{
    if left == 0 {
        return put_leaf_box(text, label, first, pairs, memory);
    }
    let bit = 32 - left;
    let at = zeros(pairs, bit);
    if is_one_sided(pairs, at) {
        return put_part(text, label, first, pairs, left - 1, low, memory);
    }
    let (mut node, mut below) = (first, first);
    below.row += 1;
    let side = side_at(pairs, at, false);
    let size = size_of(side, left - 1);
    node.column += size.columns;
    put_edge(text, node, below.column + size.before, memory)?;
    put_part(text, ZERO_LABEL, below, side, left - 1, bit + 1, memory)?;
    let side = side_at(pairs, at, true);
    let size = size_of(side, left - 1);
    below.column = node.column + 1;
    put_edge(text, node, below.column + size.before, memory)?;
    put_part(text, ONE_LABEL, below, side, left - 1, bit + 1, memory)?;
    put_node_box(text, label, node, bit, &masks(pairs, low, bit), memory)
}

/// Appends the edge from a bit node to the topmost box of a side, which is in a column of the row below.
fn put_edge(text: &mut Text, place: Place, to: u64, memory: &mut Memory) -> Result<(), AllocError>
    requires { place.row < 32 }
    ensures put { OnOk result (text.new ≡ text.old ++ edge_svg place.column place.row to) }
    ensures counted { Rises (is_err result) memory.old memory.new }
{
    text.put(b"<path d=\"M", memory)?;
    put_point(text, place, memory)?;
    text.put(b" ", memory)?;
    let end = Place {
        column: to,
        row: place.row + 1,
    };
    put_point(text, end, memory)?;
    text.put(b"\"/>\n", memory)
}

/// Appends the box of a leaf.
fn put_leaf_box(
    text: &mut Text,
    label: &[u8],
    place: Place,
    chain: &[Pair],
    memory: &mut Memory,
) -> Result<(), AllocError>
    ensures put { OnOk result (text.new ≡ text.old ++ leaf_svg label.now place.column place.row chain.now) }
    ensures counted { Rises (is_err result) memory.old memory.new }
{
    put_box_start(text, label, place, memory)?;
    put_frame(text, chain.len(), b"", memory)?;
    put_lines(text, chain, memory)?;
    text.put(b"</text></g>\n", memory)
}

/// Appends the box of a bit node.
fn put_node_box(
    text: &mut Text,
    label: &[u8],
    place: Place,
    bit: u8,
    masks: &[Pair],
    memory: &mut Memory,
) -> Result<(), AllocError>
    ensures put { OnOk result (text.new ≡ text.old ++ node_svg label.now place.column place.row bit masks.now) }
    ensures counted { Rises (is_err result) memory.old memory.new }
{
    put_box_start(text, label, place, memory)?;
    put_frame(text, masks.len() + 1, b" rx=\"7\"", memory)?;
    put_bit(text, bit, memory)?;
    put_lines(text, masks, memory)?;
    text.put(b"</text></g>\n", memory)
}

/// Appends how a box begins, with the label of its side.
fn put_box_start(
    text: &mut Text,
    label: &[u8],
    place: Place,
    memory: &mut Memory,
) -> Result<(), AllocError>
    ensures put { OnOk result (text.new ≡ text.old ++ box_start label.now place.column place.row) }
    ensures counted { Rises (is_err result) memory.old memory.new }
{
    text.put(b"<g transform=\"translate(", memory)?;
    put_point(text, place, memory)?;
    text.put(b")\">", memory)?;
    text.put(label, memory)
}

/// Appends the frame of a box for so many lines.
fn put_frame(
    text: &mut Text,
    count: usize,
    corners: &[u8],
    memory: &mut Memory,
) -> Result<(), AllocError>
    ensures put { OnOk result (text.new ≡ text.old ++ frame count corners.now) }
    ensures counted { Rises (is_err result) memory.old memory.new }
{
    text.put(b"<rect x=\"-47\" width=\"94\" height=\"", memory)?;
    text.put_number(count as u64, memory)?;
    text.put(b"4\"", memory)?;
    text.put(corners, memory)?;
    text.put(b"/><text>", memory)
}

/// Appends the first line of the box of a bit node.
fn put_bit(text: &mut Text, bit: u8, memory: &mut Memory) -> Result<(), AllocError>
    ensures put { OnOk result (text.new ≡ text.old ++ bit_svg bit) }
    ensures counted { Rises (is_err result) memory.old memory.new }
{
    text.put(b"<tspan x=\"0\" dy=\"10\">bit ", memory)?;
    text.put_number(u64::from(bit), memory)?;
    text.put(b"</tspan>", memory)
}

/// Appends a line for each route.
fn put_lines(text: &mut Text, pairs: &[Pair], memory: &mut Memory) -> Result<(), AllocError>
    ensures put { OnOk result (text.new ≡ text.old ++ lines_svg pairs.now) }
    ensures counted { Rises (is_err result) memory.old memory.new }
{
    'routes: for i in 0..pairs.len() {
        put_line(text, pairs[i], memory)?;
    }
    Ok(())
}

/// Appends the line of a route.
fn put_line(text: &mut Text, pair: Pair, memory: &mut Memory) -> Result<(), AllocError>
    ensures put { OnOk result (text.new ≡ text.old ++ route_svg pair) }
    ensures counted { Rises (is_err result) memory.old memory.new }
{
    text.put(b"<tspan x=\"0\" dy=\"10\">", memory)?;
    text.put_destination(pair.key, pair.rank, memory)?;
    text.put(b"</tspan>", memory)
}

/// Appends where a column and a row meet.
fn put_point(text: &mut Text, place: Place, memory: &mut Memory) -> Result<(), AllocError>
    ensures put { OnOk result (text.new ≡ text.old ++ point place.column place.row) }
    ensures counted { Rises (is_err result) memory.old memory.new }
{
    put_hundreds(text, place.column, memory)?;
    text.put(b",", memory)?;
    put_hundreds(text, u64::from(place.row), memory)
}

/// Appends so many hundreds.
fn put_hundreds(text: &mut Text, number: u64, memory: &mut Memory) -> Result<(), AllocError>
    ensures put { OnOk result (text.new ≡ text.old ++ hundreds number) }
    ensures counted { Rises (is_err result) memory.old memory.new }
{
    text.put_number(number, memory)?;
    text.put(b"00", memory)
}
