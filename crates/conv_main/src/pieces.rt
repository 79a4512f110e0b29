//! Where a piece of a text ends.
ghost use Rattle.std.specs.Prelude.{◌≡◌, ◌≤◌, length};
ghost use Rattle.conv_main.specs.Pieces.{is_line as is_of_line, is_message as is_of_message, is_whole as is_whole_piece};

use crate::way::{Form, Way};
use byteorder::{BigEndian, ByteOrder, LittleEndian};
use route_layouts::Order;

/// Whether bytes that came one by one, none of which ended the piece before, are a whole piece.
pub(crate) fn is_whole(way: &Way, piece: &[u8]) -> bool
    requires { 1 ≤ length piece.now }
    ensures { result ≡ is_whole_piece way.now piece.now }
{
    match way.read {
        Form::Lines => is_line(piece),
        Form::Raw => is_message(way, piece),
    }
}

/// Whether they end in a newline.
fn is_line(piece: &[u8]) -> bool
    requires { 1 ≤ length piece.now }
    ensures { result ≡ is_of_line piece.now }
{
    piece[piece.len() - 1] == b'\n'
}

/// Whether they are as many as the first two say, and at least four.
fn is_message(way: &Way, piece: &[u8]) -> bool
    ensures { result ≡ is_of_message way.now piece.now }
{
    if piece.len() < 4 {
        return false;
    }
    let size = match way.from.order {
        Order::Big => BigEndian::read_u16(piece),
        Order::Little => LittleEndian::read_u16(piece),
    };
    piece.len() >= usize::from(size)
}
