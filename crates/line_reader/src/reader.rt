//! A reader's bytes, cut into lines.
ghost use Rattle.std.specs.Prelude.{◌≡◌, ◌≢◌, ◌≤◌, ◌⊎◌, ◌∷◌, [], Ok, Err, IfErr, IfOk, OnOk, false, is_err, length, position};
ghost use Rattle.std.specs.Io.KnownBytes.{Consumes, IsAtEnd, Keeps};
ghost use Rattle.event_file.specs.Lines.{is_newline};
ghost use Rattle.line_reader.specs.Given.{Begun, Consumed, Needed, Parted, Spent, TookLine, wants_memory};
ghost use Rattle.memory.specs.Refusing.{Rises};

use crate::Fault;
use event_file::Counted;
use memory::Memory;
use std::alloc::{AllocError, Global};
use std::io::{Read, Write};
use std::marker::Model;

/// The room that each read is given, in bytes.
pub const READ_ROOM: usize = 4096;

/// What came of the next line.
#[derive(Clone, Copy, Debug, PartialEq, Eq)]
pub enum Next {
    /// A line that a newline ends, which isn't part of it.
    Line,
    /// The last line, of at least one byte, that no newline ends.
    Last,
    /// There is no line any more.
    End,
}

/// What was read and not given yet, which is what a contract sees.
#[derive(Drop)]
pub struct LineReader {
    /// Room for what is read at once.
    chunk: Vec<u8>,
    /// What stands before this place was given.
    at: usize,
    /// What stands behind this place wasn't read.
    end: usize,
}

impl Model for LineReader {
    ghost use Rattle.std.specs.Prelude.{◌≡◌, ◌≤◌, ◌-◌, ℕ, List, drop, length, take};
    ghost use Rattle.line_reader.specs.declared.reader.TheConstants.{READ_ROOM};

    ghost Value = { List ℕ };

    ghost view = { λ r. take (r.end - r.at) (drop r.at r.chunk.items) };

    ghost invariant = { λ r. (length r.chunk.items ≡ READ_ROOM) × (r.at ≤ r.end) × (r.end ≤ READ_ROOM) };
}

impl LineReader {
    /// Nothing was read yet. `Err` where there is no memory for what is read at once.
    pub fn new(alloc: Global, memory: &mut Memory) -> Result<LineReader, AllocError>
        ensures nothing { IfOk result (λ lines. lines ≡ []) }
        ensures counted { Rises (is_err result) memory.old memory.new }
    {
        Ok(LineReader {
            chunk: memory.zeros(alloc, READ_ROOM)?,
            at: 0,
            end: 0,
        })
    }

    /// Puts the next line in the place of what `line` has, and reads no more than it needs: only while there is no
    /// newline in what has come. Before each read the writer is flushed, so that who reads it has seen all that was
    /// said of the lines before.
    pub fn next_line<R: Read, W: Write>(
        &mut self,
        line: &mut Vec<u8>,
        reader: &mut Counted<R>,
        writer: &mut Counted<W>,
        memory: &mut Memory,
    ) -> Result<Next, Fault>
        requires no_read_failure { reader.old.failures ≡ 0 }
        requires no_write_failure { writer.old.failures ≡ 0 }
        ensures line { result ≡ Ok Next.Line → Parted (R.remaining reader.old.inner) (R.remaining reader.new.inner)
            self.old line.new.items (10 ∷ self.new) }
        ensures last { result ≡ Ok Next.Last → Parted (R.remaining reader.old.inner) (R.remaining reader.new.inner)
            self.old line.new.items [] × IsAtEnd (R.remaining reader.new.inner) × (line.new.items ≢ []) }
        ensures end { result ≡ Ok Next.End → Parted (R.remaining reader.old.inner) (R.remaining reader.new.inner)
            self.old [] [] × IsAtEnd (R.remaining reader.new.inner) }
        ensures begun { result ≡ Err Fault.Read → Begun (R.remaining reader.old.inner) (R.remaining reader.new.inner)
            self.old line.new.items }
        ensures fault { IfErr result (λ _. Consumed (R.remaining reader.old.inner) (R.remaining reader.new.inner)) }
        ensures needed { (reader.new ≡ reader.old)
            ⊎ Needed (R.remaining reader.old.inner) (R.remaining reader.new.inner) self.old }
        ensures none_behind { result ≡ Ok Next.Last → self.new ≡ [] }
        ensures none_left { result ≡ Ok Next.End → self.new ≡ [] }
        ensures ahead { result ≡ Ok Next.Line → length self.new ≤ READ_ROOM }
        ensures read_room { READ_ROOM ≡ 4096 }
        ensures keeps { Keeps (W.contents writer.old.inner) (W.contents writer.new.inner) }
        ensures prompt { reader.new.early_reads ≡ reader.old.early_reads }
        ensures flushed { (reader.new ≡ reader.old) ⊎ (writer.new.unflushed ≡ false) }
        ensures fault_flushed { result ≡ Err Fault.Read → writer.new.unflushed ≡ false }
        ensures read_fault { result ≡ Err Fault.Read → (reader.new.failures ≡ 1)
            ⊎ Spent (R.remaining reader.old.inner) (R.remaining reader.new.inner) }
        ensures reads { result ≢ Err Fault.Read → reader.new.failures ≡ 0 }
        ensures write_fault { result ≡ Err Fault.Write → writer.new.failures ≡ 1 }
        ensures writes { result ≢ Err Fault.Write → writer.new.failures ≡ 0 }
        ensures counted { Rises (wants_memory result) memory.old memory.new }
    {
        line.clear();
        for _turn in 0..u64::MAX {
            if self.take_line(line, memory)? {
                return Ok(Next::Line);
            }
            if self.read_more(reader, writer)? == 0 {
                return Ok(if line.is_empty() {
                    Next::End
                } else {
                    Next::Last
                });
            }
        }
        Err(Fault::Read)
    }

    /// Appends what stands before the first newline of what was read, and takes it with its newline: `true`. Or, where
    /// there is none, all that was read.
    fn take_line(&mut self, line: &mut Vec<u8>, memory: &mut Memory) -> Result<bool, AllocError>
        ensures took { IfOk result (λ ended. TookLine ended self.old self.new line.old.items line.new.items) }
        ensures ahead { length self.new ≤ READ_ROOM }
        ensures counted { Rises (is_err result) memory.old memory.new }
    {
        let bytes = &self.chunk[self.at..self.end];
        match newline_in(bytes) {
            Some(place) => {
                memory.extend(line, &bytes[..place])?;
                self.at = self.at + place + 1;
                Ok(true)
            }
            None => {
                memory.extend(line, bytes)?;
                self.at = self.end;
                Ok(false)
            }
        }
    }

    /// Flushes the writer and reads once, where nothing is left of what was read before. Answers how many bytes came.
    fn read_more<R: Read, W: Write>(
        &mut self,
        reader: &mut Counted<R>,
        writer: &mut Counted<W>,
    ) -> Result<usize, Fault>
        requires empty { self.old ≡ [] }
        requires no_read_failure { reader.old.failures ≡ 0 }
        requires no_write_failure { writer.old.failures ≡ 0 }
        ensures read { OnOk result (Consumes (R.remaining reader.old.inner) (R.remaining reader.new.inner) self.new) }
        ensures some { IfOk result (λ taken. taken ≡ length self.new) }
        ensures ahead { length self.new ≤ READ_ROOM }
        ensures end { result ≡ Ok 0 → IsAtEnd (R.remaining reader.new.inner) }
        ensures fault { IfErr result (λ _. Keeps (R.remaining reader.old.inner) (R.remaining reader.new.inner)) }
        ensures stands { IfErr result (λ _. self.new ≡ []) }
        ensures keeps { Keeps (W.contents writer.old.inner) (W.contents writer.new.inner) }
        ensures prompt { reader.new.early_reads ≡ reader.old.early_reads }
        ensures flushed { result ≢ Err Fault.Write → writer.new.unflushed ≡ false }
        ensures still_flushed { writer.old.unflushed ≡ false → writer.new.unflushed ≡ false }
        ensures unread { result ≡ Err Fault.Write → reader.new ≡ reader.old }
        ensures read_fault { result ≡ Err Fault.Read → reader.new.failures ≡ 1 }
        ensures reads { result ≢ Err Fault.Read → reader.new.failures ≡ 0 }
        ensures write_fault { result ≡ Err Fault.Write → writer.new.failures ≡ 1 }
        ensures writes { result ≢ Err Fault.Write → writer.new.failures ≡ 0 }
        ensures memory { result ≢ Err Fault.NoMemory }
    {
        let Ok(()) = writer.flush() else {
            return Err(Fault::Write);
        };
        let Ok(taken) = reader.read_behind(writer, &mut self.chunk) else {
            return Err(Fault::Read);
        };
        self.at = 0;
        self.end = taken;
        Ok(taken)
    }
}

/// The place of the first newline among bytes, or `None` where there is none.
pub fn newline_in(bytes: &[u8]) -> Option<usize>
    ensures { result ≡ position is_newline bytes.now }
{
    bytes.iter().position(|byte| *byte == b'\n')
}
