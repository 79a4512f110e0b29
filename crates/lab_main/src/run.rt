//! A run: a text's lines in, and what is told of each out.
ghost use Rattle.std.specs.Prelude.{◌≡◌, ◌≢◌, ◌⊎◌, ◌<◌, [], ℕ, List, Err, IfErr, OnOk, false};
ghost use Rattle.std.specs.Io.KnownBytes.{Keeps};
ghost use Rattle.event_file.specs.Output.{Wrote};
ghost use Rattle.lab_main.specs.Ends.{Ends, Finishes};
ghost use Rattle.lab_main.specs.Faults.{Broke};
ghost use Rattle.lab_main.specs.Telling.{Tells, fresh};
ghost use Rattle.line_reader.specs.Given.{Spent, wants_memory};
ghost use Rattle.memory.specs.Refusing.{Rises};

use crate::lab::Lab;
use crate::shows::Shows;
use event_file::{Counted, write_bytes};
use lab_text::Text;
use line_reader::{Fault, LineReader, Next};
use memory::Memory;
use program_ends::Outcome;
use std::alloc::Global;
use std::io::{Read, Write};

/// Memory for what is told of a line, and for a part of it.
#[derive(Drop)]
struct Texts {
    body: Text,
    text: Text,
}

/// Reads a text, and tells each line before the next is looked at; what was told is flushed before each read and at the
/// end. A last line without a newline is told at the end of the text, but not where a read fault comes first. Behind
/// `?quit` no line is told. Where there is no memory for what is told of a line, the run ends.
pub(crate) fn run<R: Read, W: Write>(
    alloc: Global,
    shows: Shows,
    lab: &mut Lab,
    reader: &mut Counted<R>,
    writer: &mut Counted<W>,
    memory: &mut Memory,
) -> Outcome
    requires fresh { lab.old ≡ fresh }
    requires no_read_failure { reader.old.failures ≡ 0 }
    requires no_write_failure { writer.old.failures ≡ 0 }

    // What was read and written is said for each outcome, and the state behind the lines that were told.
    ensures ends { Ends shows result (R.remaining reader.old.inner) (R.remaining reader.new.inner)
        (W.contents writer.old.inner) (W.contents writer.new.inner) lab.new }

    // Before each read all that was written is flushed, and at the end too.
    ensures prompt { reader.new.early_reads ≡ reader.old.early_reads }
    ensures flushed { writer.old.unflushed ≡ false → result ≢ Outcome.WriteFault → writer.new.unflushed ≡ false }

    // A fault comes only where a read or a write failed, or where 2^64 - 1 bytes were read. What was told is flushed
    // before each read, so that a read which fails always ends the run as a read fault.
    ensures read_fault { result ≡ Outcome.ReadFault → (reader.new.failures ≡ 1)
        ⊎ Spent (R.remaining reader.old.inner) (R.remaining reader.new.inner) }
    ensures unfailed_reads { result ≢ Outcome.ReadFault → reader.new.failures ≡ 0 }
    ensures write_fault { result ≡ Outcome.WriteFault → writer.new.failures ≡ 1 }
    ensures unfailed_writes { result ≢ Outcome.WriteFault → writer.new.failures ≡ 0 }

    // It ends for want of memory where a growth was refused to a text, and only there; but where what was told can't be
    // flushed then. What the machine was refused is no such want: it is counted with the world, and answered 55.
    ensures no_memory { result ≡ Outcome.NoMemory → memory.old < memory.new }
    ensures unrefused { result ≢ Outcome.NoMemory → result ≢ Outcome.WriteFault → memory.new ≡ memory.old }
{
    let Ok(mut lines) = LineReader::new(alloc, memory) else {
        return Outcome::NoMemory;
    };
    tell_lines(alloc, shows, lab, &mut lines, reader, writer, memory)
}

/// Tells the lines to the end of the text, or to a fault.
fn tell_lines<R: Read, W: Write>(
    alloc: Global,
    shows: Shows,
    lab: &mut Lab,
    lines: &mut LineReader,
    reader: &mut Counted<R>,
    writer: &mut Counted<W>,
    memory: &mut Memory,
) -> Outcome
    requires fresh { lab.old ≡ fresh }
    requires nothing { lines.old ≡ [] }
    requires no_read_failure { reader.old.failures ≡ 0 }
    requires no_write_failure { writer.old.failures ≡ 0 }
    ensures ends { Ends shows result (R.remaining reader.old.inner) (R.remaining reader.new.inner)
        (W.contents writer.old.inner) (W.contents writer.new.inner) lab.new }
    ensures prompt { reader.new.early_reads ≡ reader.old.early_reads }
    ensures flushed { result ≢ Outcome.WriteFault → writer.new.unflushed ≡ false }
    ensures read_fault { result ≡ Outcome.ReadFault → (reader.new.failures ≡ 1)
        ⊎ Spent (R.remaining reader.old.inner) (R.remaining reader.new.inner) }
    ensures unfailed_reads { result ≢ Outcome.ReadFault → reader.new.failures ≡ 0 }
    ensures write_fault { result ≡ Outcome.WriteFault → writer.new.failures ≡ 1 }
    ensures unfailed_writes { result ≢ Outcome.WriteFault → writer.new.failures ≡ 0 }
    ensures no_memory { result ≡ Outcome.NoMemory → memory.old < memory.new }
    ensures unrefused { result ≢ Outcome.NoMemory → result ≢ Outcome.WriteFault → memory.new ≡ memory.old }
{
    let mut line = Vec::new(alloc);
    let mut texts = Texts {
        body: Text::new(alloc),
        text: Text::new(alloc),
    };
    for _turn in 0..u64::MAX {
        match lines.next_line(&mut line, reader, writer, memory) {
            Ok(Next::Line) => {
                if let Err(fault) = tell_line(lab, shows, &line, &mut texts, writer, memory) {
                    return stop(fault, writer);
                }
                if lab.is_over() {
                    return finish(lab, &mut texts.text, writer, memory);
                }
            }
            Ok(Next::Last) => {
                if let Err(fault) = tell_line(lab, shows, &line, &mut texts, writer, memory) {
                    return stop(fault, writer);
                }
                return finish(lab, &mut texts.text, writer, memory);
            }
            Ok(Next::End) => return finish(lab, &mut texts.text, writer, memory),
            Err(fault) => return stop(fault, writer),
        }
    }
    let Ok(()) = writer.flush() else {
        return Outcome::WriteFault;
    };
    Outcome::ReadFault
}

/// Writes what is told of a line, all at once.
fn tell_line<W: Write>(
    lab: &mut Lab,
    shows: Shows,
    line: &[u8],
    texts: &mut Texts,
    writer: &mut Counted<W>,
    memory: &mut Memory,
) -> Result<(), Fault>
    requires goes_on { lab.old.over ≡ false }
    requires no_write_failure { writer.old.failures ≡ 0 }
    ensures told { OnOk result ((said : List ℕ) × Tells shows lab.old line.now said lab.new
        × Wrote W.contents writer.old writer.new said) }
    ensures never_read { result ≢ Err Fault.Read }
    ensures fault { IfErr result (λ fault. Broke W.contents shows fault lab.old line.now lab.new writer.old writer.new) }
    ensures counted { Rises (wants_memory result) memory.old memory.new }
{
    lab.tell(shows, line, &mut texts.body, &mut texts.text, memory)?;
    write_bytes(texts.text.as_bytes(), writer)?;
    Ok(())
}

/// Writes what is told behind all lines, flushes the writer, and says how the run ended.
fn finish<W: Write>(
    lab: &Lab,
    text: &mut Text,
    writer: &mut Counted<W>,
    memory: &mut Memory,
) -> Outcome
    requires { writer.old.failures ≡ 0 }
    ensures ends { Finishes result (W.contents writer.old.inner) (W.contents writer.new.inner) lab.now.bad }
    ensures flushed { result ≢ Outcome.WriteFault → writer.new.unflushed ≡ false }
    ensures read { result ≢ Outcome.ReadFault }
    ensures write_fault { result ≡ Outcome.WriteFault → writer.new.failures ≡ 1 }
    ensures unfailed { result ≢ Outcome.WriteFault → writer.new.failures ≡ 0 }
    ensures no_memory { result ≡ Outcome.NoMemory → memory.old < memory.new }
    ensures unrefused { result ≢ Outcome.NoMemory → result ≢ Outcome.WriteFault → memory.new ≡ memory.old }
{
    text.clear();
    if lab.put_ending(text, memory).is_err() {
        return stop(Fault::NoMemory, writer);
    }
    let Ok(()) = write_bytes(text.as_bytes(), writer) else {
        return Outcome::WriteFault;
    };
    let Ok(()) = writer.flush() else {
        return Outcome::WriteFault;
    };
    if lab.has_bad() {
        return Outcome::BadLine;
    }
    Outcome::Done
}

/// Flushes what was told before a want of memory, and says how the run ended. Before a read fault all is flushed.
fn stop<W: Write>(fault: Fault, writer: &mut Counted<W>) -> Outcome
    requires failed { fault ≡ Fault.Write → writer.old.failures ≡ 1 }
    requires unfailed { fault ≢ Fault.Write → writer.old.failures ≡ 0 }
    requires flushed { fault ≡ Fault.Read → writer.old.unflushed ≡ false }
    ensures keeps { Keeps (W.contents writer.old.inner) (W.contents writer.new.inner) }
    ensures read { (result ≡ Outcome.ReadFault) ⊎ (result ≡ Outcome.WriteFault) ⊎ (result ≡ Outcome.NoMemory) }
    ensures read_fault { result ≡ Outcome.ReadFault → fault ≡ Fault.Read }
    ensures fault_read { fault ≡ Fault.Read → result ≡ Outcome.ReadFault }
    ensures no_memory { result ≡ Outcome.NoMemory → fault ≡ Fault.NoMemory }
    ensures write_fault { result ≡ Outcome.WriteFault → writer.new.failures ≡ 1 }
    ensures writes { result ≢ Outcome.WriteFault → writer.new.failures ≡ 0 }
    ensures flushed { result ≢ Outcome.WriteFault → writer.new.unflushed ≡ false }
{
    match fault {
        Fault::Read => Outcome::ReadFault,
        Fault::Write => Outcome::WriteFault,
        Fault::NoMemory => match writer.flush() {
            Ok(()) => Outcome::NoMemory,
            Err(_) => Outcome::WriteFault,
        },
    }
}
