//! What is made of a piece.
ghost use Rattle.std.specs.Prelude.{◌≡◌, ◌≤◌, ◌++◌, IfOk, OnErr, OnOk, Some, is_err, is_some, length};
ghost use Rattle.memory.specs.Refusing.{Rises};
ghost use Rattle.conv_main.specs.Converted.{IsWay, converted_piece, kept_in, refused_in, told_of, told_piece, written_in, written_of};
ghost use Rattle.conv_main.specs.Messages.{message_in};
ghost use Rattle.conv_main.specs.Progress.{Begins};

use crate::messages::{Message, bytes_on, cut_line, size_before};
use crate::texts::{append, append_digits, line_about};
use crate::way::{Form, Place, Way};
use memory::Memory;
use route_layouts::{Converted, MOST_CONVERTED, convert};
use std::alloc::{AllocError, Global};

/// The most messages that are told apart.
pub(crate) const MOST_MESSAGES: u64 = 1 << 62;

/// What was made of a text and isn't written yet.
#[derive(Drop)]
pub(crate) struct Made {
    /// What is to be written.
    pub(crate) out: Vec<u8>,
    /// What is to be told.
    pub(crate) told: Vec<u8>,
}

impl Made {
    /// Appends what is written and told of a piece, and answers whether it has a message. Where there is no memory,
    /// some of it.
    pub(crate) fn put_piece(
        &mut self,
        alloc: Global,
        way: &Way,
        place: &Place,
        piece: &[u8],
        memory: &mut Memory,
    ) -> Result<bool, AllocError>
        requires way { IsWay way.now }
        requires modest { place.now.messages ≤ MOST_MESSAGES }
        ensures out { OnOk result (self.new.out.items ≡ self.old.out.items ++ converted_piece way.now piece.now) }
        ensures told { OnOk result (self.new.told.items
            ≡ self.old.told.items ++ told_piece way.now place.now piece.now) }
        ensures message { IfOk result (λ found. found ≡ is_some (message_in way.now.read piece.now)) }
        ensures err_out { OnErr result (Begins self.old.out.items self.new.out.items) }
        ensures err_told { OnErr result (Begins self.old.told.items self.new.told.items) }
        ensures counted { Rises (is_err result) memory.old memory.new }
    {
        match way.read {
            Form::Lines => self.put_line(alloc, way, place, piece, memory),
            Form::Raw => {
                let message = Message {
                    before: b"msg ",
                    bytes: piece,
                    behind: b"\n",
                };
                self.put_message(way, place, &message, piece, memory)?;
                Ok(true)
            }
        }
    }

    /// The same of a piece that is a line, which tells a message, behind `msg ` or `write ID `, or none and is kept
    /// among lines.
    fn put_line(
        &mut self,
        alloc: Global,
        way: &Way,
        place: &Place,
        piece: &[u8],
        memory: &mut Memory,
    ) -> Result<bool, AllocError>
        requires way { IsWay way.now }
        requires modest { place.now.messages ≤ MOST_MESSAGES }
        ensures out { OnOk result (self.new.out.items ≡ self.old.out.items
            ++ written_of way.now piece.now (message_in Form.Lines piece.now)) }
        ensures told { OnOk result (self.new.told.items ≡ self.old.told.items
            ++ told_of way.now place.now (message_in Form.Lines piece.now)) }
        ensures message { IfOk result (λ found. found ≡ is_some (message_in Form.Lines piece.now)) }
        ensures err_out { OnErr result (Begins self.old.out.items self.new.out.items) }
        ensures err_told { OnErr result (Begins self.old.told.items self.new.told.items) }
        ensures counted { Rises (is_err result) memory.old memory.new }
    {
        let (line, end) = cut_line(piece);
        let size = size_before(line);
        match bytes_on(alloc, size, line, memory)? {
            Some(bytes) => {
                let message = Message {
                    before: &line[..size],
                    bytes: &bytes,
                    behind: end,
                };
                self.put_message(way, place, &message, piece, memory)?;
                Ok(true)
            }
            None => {
                self.put_plain(way, piece, memory)?;
                Ok(false)
            }
        }
    }

    /// The same of a piece whose message is this one: appends the converted message, or, where that has no counterpart,
    /// tells why and appends what stands for the piece then.
    fn put_message(
        &mut self,
        way: &Way,
        place: &Place,
        message: &Message<'_>,
        piece: &[u8],
        memory: &mut Memory,
    ) -> Result<(), AllocError>
        requires way { IsWay way.now }
        requires modest { place.now.messages ≤ MOST_MESSAGES }
        ensures out { OnOk result (self.new.out.items ≡ self.old.out.items
            ++ written_of way.now piece.now (Some message.now)) }
        ensures told { OnOk result (self.new.told.items ≡ self.old.told.items
            ++ told_of way.now place.now (Some message.now)) }
        ensures err_out { OnErr result (Begins self.old.out.items self.new.out.items) }
        ensures err_told { OnErr result (Begins self.old.told.items self.new.told.items) }
        ensures counted { Rises (is_err result) memory.old memory.new }
    {
        let mut new = Converted::new();
        match convert(&way.from, &way.to, message.bytes, &mut new) {
            Ok(()) => self.put_converted(way, message, &new, memory),
            Err(why) => {
                memory.extend(&mut self.told, &line_about(place, why))?;
                self.put_refused(way, piece, memory)
            }
        }
    }

    /// Appends a converted message where it stood.
    fn put_converted(
        &mut self,
        way: &Way,
        message: &Message<'_>,
        new: &[u8],
        memory: &mut Memory,
    ) -> Result<(), AllocError>
        requires { length new.now ≤ MOST_CONVERTED }
        ensures out { OnOk result (self.new.out.items ≡ self.old.out.items
            ++ written_in way.now.written message.now new.now) }
        ensures err_out { OnErr result (Begins self.old.out.items self.new.out.items) }
        ensures told { self.new.told ≡ self.old.told }
        ensures counted { Rises (is_err result) memory.old memory.new }
    {
        match way.written {
            Form::Lines => {
                append(&mut self.out, message.before, memory)?;
                append_digits(&mut self.out, new, memory)?;
                append(&mut self.out, message.behind, memory)
            }
            Form::Raw => append(&mut self.out, new, memory),
        }
    }

    /// Appends what stands for a piece whose message has no counterpart.
    fn put_refused(
        &mut self,
        way: &Way,
        piece: &[u8],
        memory: &mut Memory,
    ) -> Result<(), AllocError>
        ensures out { OnOk result (self.new.out.items ≡ self.old.out.items
            ++ refused_in way.now.read way.now.written piece.now) }
        ensures err_out { OnErr result (Begins self.old.out.items self.new.out.items) }
        ensures told { self.new.told ≡ self.old.told }
        ensures counted { Rises (is_err result) memory.old memory.new }
    {
        match (way.read, way.written) {
            (Form::Lines, Form::Lines) => {
                append(&mut self.out, b"# ", memory)?;
                append(&mut self.out, piece, memory)
            }
            _ => Ok(()),
        }
    }

    /// Appends what stands for a piece without a message.
    fn put_plain(&mut self, way: &Way, piece: &[u8], memory: &mut Memory) -> Result<(), AllocError>
        ensures out { OnOk result (self.new.out.items ≡ self.old.out.items ++ kept_in way.now.written piece.now) }
        ensures err_out { OnErr result (Begins self.old.out.items self.new.out.items) }
        ensures told { self.new.told ≡ self.old.told }
        ensures counted { Rises (is_err result) memory.old memory.new }
    {
        match way.written {
            Form::Lines => append(&mut self.out, piece, memory),
            Form::Raw => Ok(()),
        }
    }
}
