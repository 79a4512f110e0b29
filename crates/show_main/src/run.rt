//! A run: a text's bytes in, and out with each message in words.
ghost use Rattle.std.specs.Prelude.{◌≡◌, ◌≢◌, ◌+◌, ◌<◌, ◌≤◌, ◌⊎◌, [], ℕ, length, IfOk, IfSome, false};
ghost use Rattle.std.specs.Io.KnownBytes.{Appends, Keeps};
ghost use Rattle.show_main.specs.Ends.{Ends, EndsCounted};
ghost use Rattle.show_main.specs.Faults.{failures_of};
ghost use Rattle.show_main.specs.Shown.{shown_text};
ghost use Rattle.show_main.specs.Progress.{Finishes};

use crate::lines::{Fault, show_bytes, show_line};
use event_file::Counted;
use memory::Memory;
use program_ends::Outcome;
use std::alloc::Global;
use std::io::{Read, Write};

/// The most reads of a run. The one that tells the end of the text is one of them.
const MOST_READS: u64 = 16_777_216;

/// The room that each read is given, in bytes.
const READ_ROOM: usize = 4096;

/// Reads a text, and writes it with each message in words: each line is shown before the next is looked at; what was
/// written is flushed before each read and at the end. A last line without a newline is shown at the end of the text,
/// but not where a fault comes first. A line has the room that it needs; where there is no memory for it, or for a
/// message's text, the run ends. How often it was refused is counted.
pub(crate) fn run<R: Read, W: Write>(
    alloc: Global,
    reader: &mut Counted<R>,
    writer: &mut Counted<W>,
    memory: &mut Memory,
) -> Outcome
    requires no_read { reader.old.reads ≡ 0 }
    requires no_read_failure { reader.old.failures ≡ 0 }
    requires no_write_failure { writer.old.failures ≡ 0 }

    // Where the run is done, what was written is the whole text with each message in words, and nothing else.
    ensures shown { result ≡ Outcome.Done → IfSome (R.remaining reader.old.inner) (λ text.
        Appends (W.contents writer.old.inner) (W.contents writer.new.inner) (shown_text text)) }

    // What was read and written is said for each outcome.
    ensures ends { Ends result (R.remaining reader.old.inner) (R.remaining reader.new.inner)
        (W.contents writer.old.inner) (W.contents writer.new.inner) }
    ensures reads { reader.new.reads ≤ MOST_READS }
    ensures most_reads { MOST_READS ≡ 16777216 }
    ensures room { READ_ROOM ≤ reader.old.least_room → READ_ROOM ≤ reader.new.least_room }
    ensures read_room { READ_ROOM ≡ 4096 }

    // Before each read all that was shown is flushed, and at the end too.
    ensures prompt { writer.old.unflushed ≡ false → reader.new.early_reads ≡ reader.old.early_reads }
    ensures flushed { writer.old.unflushed ≡ false → result ≢ Outcome.WriteFault → writer.new.unflushed ≡ false }
    ensures reads_needed { IfSome (R.remaining reader.old.inner) (λ text. reader.new.reads ≤ length text + 1) }

    // A run goes on as long as no read and no write fails, and a fault comes only where one failed, or the reads are
    // spent on a text of at least as many bytes.
    ensures unfailed { result ≡ Outcome.Done → (reader.new.failures ≡ 0) × (writer.new.failures ≡ 0) }
    ensures read_fault { result ≡ Outcome.ReadFault → (reader.new.failures ≡ 1) ⊎ ((reader.new.reads ≡ MOST_READS)
        × IfSome (R.remaining reader.old.inner) (λ text. MOST_READS ≤ length text)) }
    ensures unfailed_writes { result ≡ Outcome.ReadFault → writer.new.failures ≡ 0 }
    ensures write_fault { result ≡ Outcome.WriteFault → writer.new.failures ≡ 1 }
    ensures unfailed_reads { result ≡ Outcome.WriteFault → reader.new.failures ≡ 0 }
    ensures no_memory { result ≡ Outcome.NoMemory → (reader.new.failures ≡ 0) × (writer.new.failures ≡ 0) }

    // A run ends for want of memory where a growth was refused, and only there. Where what was shown before it can't be
    // flushed it is a write fault.
    ensures counted { EndsCounted result memory.old memory.new }
    ensures short { memory.old < memory.new → (result ≡ Outcome.NoMemory)
        ⊎ ((result ≡ Outcome.WriteFault) × (writer.new.failures ≡ 1)) }

    // So where none was refused, and no read and no write failed, a text of fewer bytes than there are reads is shown.
    ensures exact { memory.new ≡ memory.old → reader.new.failures ≡ 0 → writer.new.failures ≡ 0
        → IfSome (R.remaining reader.old.inner) (λ text. length text < MOST_READS
        → Appends (W.contents writer.old.inner) (W.contents writer.new.inner) (shown_text text)) }
{
    let Ok(mut chunk) = memory.zeros(alloc, READ_ROOM) else {
        return Outcome::NoMemory;
    };
    let mut line = Vec::new(alloc);
    show_all(alloc, &mut line, &mut chunk, reader, writer, memory)
}

/// Reads the text to its end, or to a fault, and shows its lines.
fn show_all<R: Read, W: Write>(
    alloc: Global,
    line: &mut Vec<u8>,
    chunk: &mut [u8],
    reader: &mut Counted<R>,
    writer: &mut Counted<W>,
    memory: &mut Memory,
) -> Outcome
    requires line { line.old.items ≡ [] }
    requires room { length chunk.old ≡ READ_ROOM }
    requires no_read { reader.old.reads ≡ 0 }
    requires no_read_failure { reader.old.failures ≡ 0 }
    requires no_write_failure { writer.old.failures ≡ 0 }
    ensures ends { Ends result (R.remaining reader.old.inner) (R.remaining reader.new.inner)
        (W.contents writer.old.inner) (W.contents writer.new.inner) }
    ensures reads { reader.new.reads ≤ MOST_READS }
    ensures reads_needed { IfSome (R.remaining reader.old.inner) (λ text. reader.new.reads ≤ length text + 1) }
    ensures room { READ_ROOM ≤ reader.old.least_room → READ_ROOM ≤ reader.new.least_room }
    ensures prompt { writer.old.unflushed ≡ false → reader.new.early_reads ≡ reader.old.early_reads }
    ensures flushed { writer.old.unflushed ≡ false → result ≢ Outcome.WriteFault → writer.new.unflushed ≡ false }
    ensures unfailed { result ≡ Outcome.Done → (reader.new.failures ≡ 0) × (writer.new.failures ≡ 0) }
    ensures read_fault { result ≡ Outcome.ReadFault → (reader.new.failures ≡ 1) ⊎ ((reader.new.reads ≡ MOST_READS)
        × IfSome (R.remaining reader.old.inner) (λ text. MOST_READS ≤ length text)) }
    ensures unfailed_writes { result ≡ Outcome.ReadFault → writer.new.failures ≡ 0 }
    ensures write_fault { result ≡ Outcome.WriteFault → writer.new.failures ≡ 1 }
    ensures unfailed_reads { result ≡ Outcome.WriteFault → reader.new.failures ≡ 0 }
    ensures counted { EndsCounted result memory.old memory.new }
    ensures no_memory { result ≡ Outcome.NoMemory → (reader.new.failures ≡ 0) × (writer.new.failures ≡ 0) }
{
    for _turn in 0..MOST_READS {
        let Ok(taken) = reader.read_behind(writer, chunk) else {
            return Outcome::ReadFault;
        };
        if taken == 0 {
            return finish(alloc, line, writer, memory);
        }
        if let Err(fault) = show_bytes(alloc, line, &chunk[..taken], writer, memory) {
            return stop(fault, writer);
        }
        let Ok(()) = writer.flush() else {
            return Outcome::WriteFault;
        };
    }
    Outcome::ReadFault
}

/// Shows what has come of a line at the end of the text, flushes the writer, and says how the run ended.
fn finish<W: Write>(
    alloc: Global,
    line: &[u8],
    writer: &mut Counted<W>,
    memory: &mut Memory,
) -> Outcome
    requires no_failure { writer.old.failures ≡ 0 }
    ensures ends { Finishes result (W.contents writer.old.inner) (W.contents writer.new.inner) line.now }
    ensures unfailed { result ≡ Outcome.Done → writer.new.failures ≡ 0 }
    ensures write_fault { result ≡ Outcome.WriteFault → writer.new.failures ≡ 1 }
    ensures no_memory { result ≡ Outcome.NoMemory → writer.new.failures ≡ 0 }
    ensures flushed { result ≢ Outcome.WriteFault → writer.new.unflushed ≡ false }
    ensures read { result ≢ Outcome.ReadFault }
    ensures counted { EndsCounted result memory.old memory.new }
{
    if let Err(fault) = show_line(alloc, line, b"", writer, memory) {
        return stop(fault, writer);
    }
    let Ok(()) = writer.flush() else {
        return Outcome::WriteFault;
    };
    Outcome::Done
}

/// Flushes what was shown before a want of memory, and says how the run ended.
fn stop<W: Write>(fault: Fault, writer: &mut Counted<W>) -> Outcome
    requires failures { writer.old.failures ≡ failures_of fault }
    ensures keeps { Keeps (W.contents writer.old.inner) (W.contents writer.new.inner) }
    ensures ends { (result ≡ Outcome.WriteFault) ⊎ (result ≡ Outcome.NoMemory) }
    ensures cause { result ≡ Outcome.NoMemory → fault ≡ Fault.NoMemory }
    ensures write_fault { result ≡ Outcome.WriteFault → writer.new.failures ≡ 1 }
    ensures no_memory { result ≡ Outcome.NoMemory → writer.new.failures ≡ 0 }
    ensures flushed { result ≢ Outcome.WriteFault → writer.new.unflushed ≡ false }
{
    match fault {
        Fault::Stopped => Outcome::WriteFault,
        Fault::NoMemory => match writer.flush() {
            Ok(()) => Outcome::NoMemory,
            Err(_) => Outcome::WriteFault,
        },
    }
}
