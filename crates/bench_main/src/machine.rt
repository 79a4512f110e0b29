//! The machine as `routesim` runs it, but that what it writes goes into a digest.
ghost use Rattle.std.specs.Prelude.{◌≡◌, ◌≤◌, false, length, IfOk};
ghost use Rattle.event_file.specs.declared.answers.TheConstants.{TEXT_ROOM};
ghost use Rattle.route_core.specs.declared.written.TheConstants.{MOST_WRITTEN};

use crate::digest::Digest;
use crate::lines::Lines;
use event_file::{
    Bad, Counted, LineBuffer, Stopped, TEXT_ROOM, read_said, write_answer, write_bytes,
    write_command_answer,
};
use memory::Memory;
use route_core::{Answer, MOST_WRITTEN, Room, World};
use sock_addrs::Inet;
use std::alloc::{AllocError, AllocFailed, Global};

/// As many bytes of lines as `routesim` reads at once.
const READ_ROOM: usize = 4096;

/// Why a workload ends early.
#[derive(Clone, Copy)]
pub(crate) enum Fault {
    NoMemory,
    /// A line was not taken whole, or its answer wasn't.
    Stopped,
}

impl From<AllocError> for Fault {
    fn from(_error: AllocError) -> Fault {
        Fault::NoMemory
    }
}

impl<T: Drop> From<AllocFailed<T>> for Fault {
    fn from(_failed: AllocFailed<T>) -> Fault {
        Fault::NoMemory
    }
}

impl From<Stopped> for Fault {
    fn from(_error: Stopped) -> Fault {
        Fault::Stopped
    }
}

/// A world, with the lines that wait to be answered, and what their answers go to.
#[derive(Drop)]
pub(crate) struct Machine {
    pub(crate) lines: Lines,
    world: World,
    line: LineBuffer,
    text: Vec<u8>,
    written: Vec<u8>,
    room: Room,
    writer: Counted<Digest>,

    ghost text_room: { length text.items ≡ TEXT_ROOM },
    ghost written_room: { length written.items ≡ MOST_WRITTEN },
    ghost no_line: { line.ended ≡ false },
}

impl Machine {
    /// Over the empty world.
    pub(crate) fn new(alloc: Global) -> Result<Machine, AllocError> {
        let memory = &mut Memory::new();
        Ok(Machine {
            lines: Lines::new(alloc),
            world: World::new_counted(alloc, memory)?,
            line: LineBuffer::new(alloc, memory)?,
            text: memory.zeros(alloc, TEXT_ROOM)?,
            written: memory.zeros(alloc, MOST_WRITTEN)?,
            room: Room::new(alloc, memory)?,
            writer: Counted::new(Digest::new(alloc)?),
        })
    }

    /// Answers the lines that wait, once they are as many as a read brings.
    pub(crate) fn answer_many(&mut self) -> Result<(), Fault> {
        if self.lines.as_bytes().len() < READ_ROOM {
            return Ok(());
        }
        self.answer_all()
    }

    /// Answers the lines that wait.
    pub(crate) fn answer_all(&mut self) -> Result<(), Fault> {
        if self.lines.is_short() {
            return Err(Fault::NoMemory);
        }
        answer_lines(
            self.lines.as_bytes(),
            &self.line,
            &mut self.world,
            &mut self.written,
            &mut self.room,
            &mut self.text,
            &mut self.writer,
        )?;
        self.lines.clear();
        Ok(())
    }

    /// Finds the route of a packet, as the library does: without a line and a text.
    pub(crate) fn packet(&mut self, destination: Inet) -> Answer<'static> {
        self.world.packet(destination)
    }

    /// Writes bytes to where the answers go.
    pub(crate) fn write(&mut self, bytes: &[u8]) -> Result<(), Fault> {
        if self.writer.failures() > 0 {
            return Err(Fault::Stopped);
        }
        write_bytes(bytes, &mut self.writer)?;
        Ok(())
    }

    /// The digest of all that was written.
    pub(crate) fn end(self) -> Digest {
        let Machine { writer, .. } = self;
        writer.into_inner()
    }
}

/// Answers lines, each of which is whole.
fn answer_lines(
    lines: &[u8],
    line: &LineBuffer,
    world: &mut World,
    written: &mut [u8],
    room: &mut Room,
    text: &mut [u8],
    writer: &mut Counted<Digest>,
) -> Result<(), Fault>
    requires written { length written.old ≡ MOST_WRITTEN }
    requires text { length text.old ≡ TEXT_ROOM }
    requires unended { line.now.ended ≡ false }
{
    let mut at = 0;
    for _line in 0..lines.len() {
        if at == lines.len() {
            break;
        }
        at += answer_first(&lines[at..], line, world, written, room, text, writer)?;
    }
    if writer.flush().is_err() {
        return Err(Fault::Stopped);
    }
    Ok(())
}

/// Answers the first of these lines, and says how many bytes it has.
fn answer_first(
    lines: &[u8],
    line: &LineBuffer,
    world: &mut World,
    written: &mut [u8],
    room: &mut Room,
    text: &mut [u8],
    writer: &mut Counted<Digest>,
) -> Result<usize, Fault>
    requires written { length written.old ≡ MOST_WRITTEN }
    requires text { length text.old ≡ TEXT_ROOM }
    requires unended { line.now.ended ≡ false }
    ensures { IfOk result (λ taken. taken ≤ length lines.now) }
{
    if writer.failures() > 0 {
        return Err(Fault::Stopped);
    }
    let Some((taken, Some(line))) = line.whole_line(lines) else {
        return Err(Fault::Stopped);
    };
    let Some(said) = &read_said(line, written) else {
        write_answer(&Err(Bad), text, writer)?;
        return Ok(taken);
    };
    let answer = world.obey_counted(said, room, &mut Memory::new());
    write_command_answer(&answer, text, writer)?;
    Ok(taken)
}
