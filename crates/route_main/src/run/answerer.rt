ghost use Rattle.std.specs.Prelude.{Bool, ℕ, List, Option, None, ◌||◌, [], ◌∷◌, ◌≡◌, ◌≢◌, ◌<◌, ◌≤◌, false, length, take, is_err, IfOk, OnOk, OnErr, option_copied};
ghost use Rattle.route_main.specs.Progress.{Advances, Answers, Breaks, Finishes, StopsWithin, answered_of, fresh, held, standing};
ghost use Rattle.event_file.specs.Transcript.{command_in};
ghost use Rattle.route_core.specs.World.{World};
ghost use Rattle.event_file.specs.declared.answers.TheConstants.{TEXT_ROOM};
ghost use Rattle.route_core.specs.declared.written.TheConstants.{MOST_WRITTEN};
ghost use Rattle.memory.specs.Refusing.{Rises};
ghost use Rattle.route_main.specs.Ends.{IsAnswered};

use event_file::{
    Bad, Counted, LineBuffer, Stopped, TEXT_ROOM, kept_is_passed, read_said, write_answer,
    write_command_answer,
};
use memory::Memory;
use program_ends::Outcome;
use route_core::{MOST_WRITTEN, Room, World};
use std::alloc::{AllocError, Global};
use std::io::Write;
use std::marker::Model;

/// Gives lines to a world, and writes the answers. A contract sees the world, and whether some line was malformed.
#[derive(Drop)]
pub(super) struct Answerer {
    world: World,
    has_bad: bool,
    text: Vec<u8>,
    written: Vec<u8>,
    room: Room,
}

impl Model for Answerer {
    ghost use Rattle.std.specs.Prelude.{◌≡◌, length};
    ghost use Rattle.route_core.specs.declared.written.TheConstants.{MOST_WRITTEN};
    ghost use Rattle.event_file.specs.declared.answers.TheConstants.{TEXT_ROOM};
    ghost use Rattle.route_main.specs.Progress.{Held};

    ghost Value = { Held };

    ghost view = { λ a. record { world = a.world; has_bad = a.has_bad } };

    ghost invariant = { λ a. (length a.text.items ≡ TEXT_ROOM) × (length a.written.items ≡ MOST_WRITTEN) };
}

impl Answerer {
    /// Over the empty world. This call alone takes memory of its own; `Err` where there is none.
    pub(super) fn new(alloc: Global, memory: &mut Memory) -> Result<Answerer, AllocError>
        ensures ok { IfOk result (λ answerer. answerer ≡ fresh) }
        ensures counted { Rises (is_err result) memory.old memory.new }
    {
        let world = World::new_counted(alloc, memory)?;
        let text = memory.zeros(alloc, TEXT_ROOM)?;
        let written = memory.zeros(alloc, MOST_WRITTEN)?;
        let room = Room::new(alloc, memory)?;
        Ok(Answerer {
            world,
            has_bad: false,
            text,
            written,
            room,
        })
    }

    /// Answers each line that these bytes end, and leaves what they begin in the line buffer.
    pub(super) fn answer_bytes<W: Write>(
        &mut self,
        line: &mut LineBuffer,
        bytes: &[u8],
        writer: &mut Counted<W>,
        memory: &mut Memory,
    ) -> Result<(), Stopped>
        requires no_failure { writer.old.failures ≡ 0 }
        requires unended { line.old.ended ≡ false }
        ensures ok { OnOk result (Advances (standing self.old memory.old) (standing self.new memory.new)
            (W.contents writer.old.inner) (W.contents writer.new.inner)
            bytes.now line.old line.new) }
        ensures unended { OnOk result (line.new.ended ≡ false) }
        ensures no_failure { OnOk result (writer.new.failures ≡ 0) }
        ensures err { OnErr result (Breaks (standing self.old memory.old) memory.new
            (W.contents writer.old.inner) (W.contents writer.new.inner)
            bytes.now line.old) }
        ensures failure { OnErr result (writer.new.failures ≡ 1) }
    {
        let mut at = 0;
        while at < bytes.len() {
            let taken = self.answer_next(line, &bytes[at..], writer, memory)?;
            at += taken;
        }
        Ok(())
    }

    /// Takes bytes up to and with the first newline, and answers the line that it ends, which is answered where it
    /// stands if all of it is among them. Answers how many bytes it took.
    fn answer_next<W: Write>(
        &mut self,
        line: &mut LineBuffer,
        bytes: &[u8],
        writer: &mut Counted<W>,
        memory: &mut Memory,
    ) -> Result<usize, Stopped>
        requires no_failure { writer.old.failures ≡ 0 }
        requires unended { line.old.ended ≡ false }
        ensures most { IfOk result (λ taken. taken ≤ length bytes.now) }
        ensures some { 0 < length bytes.now → IfOk result (λ taken. 0 < taken) }
        ensures ok { IfOk result (λ taken. Advances (standing self.old memory.old) (standing self.new memory.new)
            (W.contents writer.old.inner) (W.contents writer.new.inner) (take taken bytes.now) line.old line.new) }
        ensures unended { OnOk result (line.new.ended ≡ false) }
        ensures no_failure { OnOk result (writer.new.failures ≡ 0) }
        ensures err { OnErr result (Breaks (standing self.old memory.old) memory.new
            (W.contents writer.old.inner) (W.contents writer.new.inner)
            bytes.now line.old) }
        ensures failure { OnErr result (writer.new.failures ≡ 1) }
    {
        if let Some((taken, text)) = line.whole_line(bytes) {
            self.answer(text, writer, memory)?;
            return Ok(taken);
        }
        let (taken, has_ended) = line.feed(bytes);
        if !has_ended {
            return Ok(taken);
        }
        self.answer(line.line(), writer, memory)?;
        line.clear();
        Ok(taken)
    }

    /// Answers what has come of a line at the end of the script, flushes the writer, and says how the run ended.
    pub(super) fn finish<W: Write>(
        &mut self,
        line: &LineBuffer,
        writer: &mut Counted<W>,
        memory: &mut Memory,
    ) -> Outcome
        requires no_failure { writer.old.failures ≡ 0 }
        ensures ends { Finishes result (standing self.old memory.old) memory.new
            (W.contents writer.old.inner) (W.contents writer.new.inner) line.now }
        ensures unfailed { IsAnswered result → writer.new.failures ≡ 0 }
        ensures write_fault { result ≡ Outcome.WriteFault → writer.new.failures ≡ 1 }
        ensures read { result ≢ Outcome.ReadFault }
        ensures flushed { result ≢ Outcome.WriteFault → writer.new.unflushed ≡ false }
        ensures begun { result ≢ Outcome.NoMemory }
    {
        if self.end(line, writer, memory).is_err() {
            return Outcome::WriteFault;
        }
        if self.has_bad {
            return Outcome::BadLine;
        }
        Outcome::Done
    }

    /// Answers what has come of a line, where at least one byte has.
    fn answer_last<W: Write>(
        &mut self,
        line: &LineBuffer,
        writer: &mut Counted<W>,
        memory: &mut Memory,
    ) -> Result<(), Stopped>
        requires no_failure { writer.old.failures ≡ 0 }
        ensures ok { OnOk result (Answers (standing self.old memory.old) (standing self.new memory.new)
            (W.contents writer.old.inner) (W.contents writer.new.inner)
            (answered_of line.now.text)) }
        ensures no_failure { OnOk result (writer.new.failures ≡ 0) }
        ensures err { OnErr result (StopsWithin (standing self.old memory.old) memory.new
            (W.contents writer.old.inner) (W.contents writer.new.inner)
            (answered_of line.now.text)) }
        ensures failure { OnErr result (writer.new.failures ≡ 1) }
    {
        if line.pending() {
            self.answer(line.line(), writer, memory)?;
        }
        Ok(())
    }

    /// Answers what has come of a line, where at least one byte has, and flushes the writer.
    fn end<W: Write>(
        &mut self,
        line: &LineBuffer,
        writer: &mut Counted<W>,
        memory: &mut Memory,
    ) -> Result<(), Stopped>
        requires no_failure { writer.old.failures ≡ 0 }
        ensures ok { OnOk result (Answers (standing self.old memory.old) (standing self.new memory.new)
            (W.contents writer.old.inner) (W.contents writer.new.inner)
            (answered_of line.now.text)) }
        ensures no_failure { OnOk result (writer.new.failures ≡ 0) }
        ensures flushed { OnOk result (writer.new.unflushed ≡ false) }
        ensures err { OnErr result (StopsWithin (standing self.old memory.old) memory.new
            (W.contents writer.old.inner) (W.contents writer.new.inner)
            (answered_of line.now.text)) }
        ensures failure { OnErr result (writer.new.failures ≡ 1) }
    {
        self.answer_last(line, writer, memory)?;
        let Ok(()) = writer.flush() else {
            return Err(Stopped);
        };
        Ok(())
    }

    /// Answers a line, unless it gives no answer.
    fn answer<W: Write>(
        &mut self,
        line: Option<&[u8]>,
        writer: &mut Counted<W>,
        memory: &mut Memory,
    ) -> Result<(), Stopped>
        requires no_failure { writer.old.failures ≡ 0 }
        ensures ok { OnOk result (Answers (standing self.old memory.old) (standing self.new memory.new)
            (W.contents writer.old.inner) (W.contents writer.new.inner)
            (answered_of (option_copied line.entry))) }
        ensures no_failure { OnOk result (writer.new.failures ≡ 0) }
        ensures err { OnErr result (StopsWithin (standing self.old memory.old) memory.new
            (W.contents writer.old.inner) (W.contents writer.new.inner)
            (answered_of (option_copied line.entry))) }
        ensures failure { OnErr result (writer.new.failures ≡ 1) }
    {
        if kept_is_passed(line) {
            return Ok(());
        }
        self.has_bad |= answer_line(
            &mut self.world,
            line,
            &mut self.written,
            &mut self.room,
            &mut self.text,
            writer,
            memory,
        )?;
        Ok(())
    }
}

/// Answers a line that gives an answer, and says whether it is malformed.
fn answer_line<W: Write>(
    world: &mut World,
    line: Option<&[u8]>,
    written: &mut [u8],
    room: &mut Room,
    text: &mut [u8],
    writer: &mut Counted<W>,
    memory: &mut Memory,
) -> Result<bool, Stopped>
    requires written { length written.old ≡ MOST_WRITTEN }
    requires text { length text.old ≡ TEXT_ROOM }
    requires no_failure { writer.old.failures ≡ 0 }
    ensures ok { IfOk result (λ malformed. (has_bad : Bool)
        → Answers (standing (held world.old has_bad) memory.old)
        (standing (held world.new (has_bad || malformed)) memory.new)
        (W.contents writer.old.inner) (W.contents writer.new.inner)
        (option_copied line.entry ∷ [])) }
    ensures no_failure { OnOk result (writer.new.failures ≡ 0) }
    ensures err { OnErr result ((has_bad : Bool)
        → StopsWithin (standing (held world.old has_bad) memory.old) memory.new
        (W.contents writer.old.inner) (W.contents writer.new.inner) (option_copied line.entry ∷ [])) }
    ensures failure { OnErr result (writer.new.failures ≡ 1) }
{
    let Some(line) = line else {
        return answer_bad(text, writer);
    };
    let Some(said) = &read_said(line, written) else {
        return answer_bad(text, writer);
    };
    let answer = world.obey_counted(said, room, memory);
    write_command_answer(&answer, text, writer)?;
    Ok(false)
}

/// Answers a line that is malformed, and says that it is.
fn answer_bad<W: Write>(text: &mut [u8], writer: &mut Counted<W>) -> Result<bool, Stopped>
    requires text { length text.old ≡ TEXT_ROOM }
    requires no_failure { writer.old.failures ≡ 0 }
    ensures ok { IfOk result (λ malformed. (world : World) (has_bad : Bool) (refused : ℕ) (line : Option (List ℕ))
        → command_in line ≡ None → Answers (standing (held world has_bad) refused)
        (standing (held world (has_bad || malformed)) refused)
        (W.contents writer.old.inner) (W.contents writer.new.inner) (line ∷ [])) }
    ensures no_failure { OnOk result (writer.new.failures ≡ 0) }
    ensures err { OnErr result ((world : World) (has_bad : Bool) (refused : ℕ) (line : Option (List ℕ))
        → command_in line ≡ None → StopsWithin (standing (held world has_bad) refused) refused
        (W.contents writer.old.inner) (W.contents writer.new.inner) (line ∷ [])) }
    ensures failure { OnErr result (writer.new.failures ≡ 1) }
{
    write_answer(&Err(Bad), text, writer)?;
    Ok(true)
}
