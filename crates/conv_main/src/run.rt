//! A run: a text's bytes in, and out with each message in the other layout.
ghost use Rattle.std.specs.Prelude.{◌≡◌, ◌≢◌, ◌+◌, ◌<◌, ◌≤◌, ◌⊎◌, [], ℕ, length, IfOk, IfSome, OnErr, OnOk, false, is_err};
ghost use Rattle.std.specs.Io.KnownBytes.{Appends};
ghost use Rattle.event_file.specs.Output.{Wrote, WroteFront};
ghost use Rattle.conv_main.specs.declared.progress.TheConstants.{MOST_BYTES};
ghost use Rattle.conv_main.specs.Converted.{IsWay, converted_text, first_place, told_text};
ghost use Rattle.conv_main.specs.Ends.{Ends, EndsCounted, Fronts, has_line};
ghost use Rattle.conv_main.specs.Pieces.{TextsAreCut};
ghost use Rattle.conv_main.specs.Progress.{Finishes};

use crate::made::Made;
use crate::progress::Progress;
use crate::way::Way;
use event_file::{Counted, Stopped, write_bytes};
use memory::Memory;
use program_ends::Outcome;
use std::alloc::Global;
use std::io::{Read, Write};

/// The most reads of a run. The one that tells the end of the text is one of them.
const MOST_READS: u64 = 16_777_216;

/// The room that each read is given, in bytes.
const READ_ROOM: usize = 4096;

/// Reads a text, and writes it with each message in the other layout: what each read ends is written before the next
/// read. A message that has no counterpart there is told of, and what stands for it is written. What is left at the end
/// of the text is converted there, but not where a fault comes first. A line or a message has the room that it needs;
/// where there is no memory for it, the run ends; how often it was refused is counted.
pub(crate) fn run<R: Read, W: Write, E: Write>(
    alloc: Global,
    way: &Way,
    reader: &mut Counted<R>,
    writer: &mut Counted<W>,
    teller: &mut Counted<E>,
    memory: &mut Memory,
) -> Outcome
    requires way { IsWay way.now }
    requires no_read { reader.old.reads ≡ 0 }
    requires no_read_failure { reader.old.failures ≡ 0 }
    requires no_write_failure { writer.old.failures ≡ 0 }
    requires no_failure_to_tell { teller.old.failures ≡ 0 }

    // Where the run is done, what was written is the whole text with each message in the other layout, and nothing
    // else; and nothing was told.
    ensures converted { result ≡ Outcome.Done → IfSome (R.remaining reader.old.inner) (λ text.
        Appends (W.contents writer.old.inner) (W.contents writer.new.inner) (converted_text way.now text)
        × (told_text way.now text ≡ [])) }

    // Where a message has no counterpart, that is told of each such message, and all else is converted.
    ensures refused { result ≡ Outcome.BadLine → IfSome (R.remaining reader.old.inner) (λ text.
        Appends (W.contents writer.old.inner) (W.contents writer.new.inner) (converted_text way.now text)
        × Appends (E.contents teller.old.inner) (E.contents teller.new.inner) (told_text way.now text)
        × (told_text way.now text ≢ [])) }

    // What was read, written and told is said for each outcome.
    ensures ends { Ends result way.now (R.remaining reader.old.inner) (R.remaining reader.new.inner)
        (W.contents writer.old.inner) (W.contents writer.new.inner) (E.contents teller.old.inner) (E.contents teller.new.inner) }
    ensures reads { reader.new.reads ≤ MOST_READS }
    ensures most_reads { MOST_READS ≡ 16777216 }
    ensures room { READ_ROOM ≤ reader.old.least_room → READ_ROOM ≤ reader.new.least_room }
    ensures read_room { READ_ROOM ≡ 4096 }

    // The pieces that are converted are the text, each of them up to where it is whole first.
    ensures cut { TextsAreCut }

    // Before each read all that was written is flushed, and at the end too.
    ensures prompt { writer.old.unflushed ≡ false → reader.new.early_reads ≡ reader.old.early_reads }
    ensures flushed { writer.old.unflushed ≡ false → result ≢ Outcome.WriteFault → writer.new.unflushed ≡ false }
    ensures flushed_lines { teller.old.unflushed ≡ false → result ≢ Outcome.WriteFault → teller.new.unflushed ≡ false }
    ensures reads_needed { IfSome (R.remaining reader.old.inner) (λ text. reader.new.reads ≤ length text + 1) }

    // A run goes on as long as no read and no write fails, and a fault comes only where one failed, or the reads are
    // spent on a text of at least as many bytes.
    ensures read_fault { result ≡ Outcome.ReadFault → (reader.new.failures ≡ 1) ⊎ ((reader.new.reads ≡ MOST_READS)
        × IfSome (R.remaining reader.old.inner) (λ text. MOST_READS ≤ length text)) }
    ensures unfailed_reads { result ≢ Outcome.ReadFault → reader.new.failures ≡ 0 }
    ensures write_fault { result ≡ Outcome.WriteFault → writer.new.failures + teller.new.failures ≡ 1 }
    ensures unfailed_writes { result ≢ Outcome.WriteFault → writer.new.failures + teller.new.failures ≡ 0 }

    // A run ends for want of memory where a growth was refused, and only there. Where what was made before it can't be
    // written it is a write fault.
    ensures counted { EndsCounted result memory.old memory.new }
    ensures short { memory.old < memory.new → (result ≡ Outcome.NoMemory) ⊎ (result ≡ Outcome.WriteFault) }

    // So where none was refused, and no read and no write failed, a text of fewer bytes than there are reads is
    // converted.
    ensures exact { memory.new ≡ memory.old → reader.new.failures ≡ 0 → writer.new.failures + teller.new.failures ≡ 0
        → IfSome (R.remaining reader.old.inner) (λ text. length text < MOST_READS
        → Appends (W.contents writer.old.inner) (W.contents writer.new.inner) (converted_text way.now text)
        × Appends (E.contents teller.old.inner) (E.contents teller.new.inner) (told_text way.now text)) }
{
    let Ok(mut chunk) = memory.zeros(alloc, READ_ROOM) else {
        return Outcome::NoMemory;
    };
    let mut progress = Progress::new(alloc);
    convert_all(
        alloc,
        way,
        &mut progress,
        &mut chunk,
        reader,
        writer,
        teller,
        memory,
    )
}

/// Reads the text to its end, or to a fault, and converts its pieces.
fn convert_all<R: Read, W: Write, E: Write>(
    alloc: Global,
    way: &Way,
    progress: &mut Progress,
    chunk: &mut [u8],
    reader: &mut Counted<R>,
    writer: &mut Counted<W>,
    teller: &mut Counted<E>,
    memory: &mut Memory,
) -> Outcome
    requires way { IsWay way.now }
    requires piece { progress.old.piece.items ≡ [] }
    requires place { progress.old.place ≡ first_place }
    requires no_out { progress.old.made.out.items ≡ [] }
    requires no_line { progress.old.made.told.items ≡ [] }
    requires room { length chunk.old ≡ READ_ROOM }
    requires no_read { reader.old.reads ≡ 0 }
    requires no_read_failure { reader.old.failures ≡ 0 }
    requires no_write_failure { writer.old.failures ≡ 0 }
    requires no_failure_to_tell { teller.old.failures ≡ 0 }
    ensures ends { Ends result way.now (R.remaining reader.old.inner) (R.remaining reader.new.inner)
        (W.contents writer.old.inner) (W.contents writer.new.inner) (E.contents teller.old.inner) (E.contents teller.new.inner) }
    ensures reads { reader.new.reads ≤ MOST_READS }
    ensures reads_needed { IfSome (R.remaining reader.old.inner) (λ text. reader.new.reads ≤ length text + 1) }
    ensures room { READ_ROOM ≤ reader.old.least_room → READ_ROOM ≤ reader.new.least_room }
    ensures prompt { writer.old.unflushed ≡ false → reader.new.early_reads ≡ reader.old.early_reads }
    ensures flushed { writer.old.unflushed ≡ false → result ≢ Outcome.WriteFault → writer.new.unflushed ≡ false }
    ensures flushed_lines { teller.old.unflushed ≡ false → result ≢ Outcome.WriteFault → teller.new.unflushed ≡ false }
    ensures read_fault { result ≡ Outcome.ReadFault → (reader.new.failures ≡ 1) ⊎ ((reader.new.reads ≡ MOST_READS)
        × IfSome (R.remaining reader.old.inner) (λ text. MOST_READS ≤ length text)) }
    ensures unfailed_reads { result ≢ Outcome.ReadFault → reader.new.failures ≡ 0 }
    ensures write_fault { result ≡ Outcome.WriteFault → writer.new.failures + teller.new.failures ≡ 1 }
    ensures unfailed_writes { result ≢ Outcome.WriteFault → writer.new.failures + teller.new.failures ≡ 0 }
    ensures counted { EndsCounted result memory.old memory.new }
{
    let mut refused = false;
    for _turn in 0..MOST_READS {
        let Ok(taken) = reader.read_behind(writer, chunk) else {
            return Outcome::ReadFault;
        };
        if taken == 0 {
            return finish(alloc, way, progress, refused, writer, teller, memory);
        }
        let took = progress.take_bytes(alloc, way, &chunk[..taken], memory);
        let Ok(told) = deliver(&mut progress.made, writer, teller) else {
            return Outcome::WriteFault;
        };
        if took.is_err() {
            return Outcome::NoMemory;
        }
        refused |= told;
    }
    Outcome::ReadFault
}

/// Converts what is left at the end of the text, writes it, and says how the run ended: whether some message was
/// refused, or one was before.
fn finish<W: Write, E: Write>(
    alloc: Global,
    way: &Way,
    progress: &mut Progress,
    refused: bool,
    writer: &mut Counted<W>,
    teller: &mut Counted<E>,
    memory: &mut Memory,
) -> Outcome
    requires way { IsWay way.now }
    requires number { progress.old.place.messages ≤ progress.old.place.offset }
    requires modest { progress.old.place.offset + length progress.old.piece.items ≤ MOST_BYTES }
    requires no_out { progress.old.made.out.items ≡ [] }
    requires no_line { progress.old.made.told.items ≡ [] }
    requires no_write_failure { writer.old.failures ≡ 0 }
    requires no_failure_to_tell { teller.old.failures ≡ 0 }
    ensures ends { Finishes result way.now refused progress.old.place progress.old.piece.items
        (W.contents writer.old.inner) (W.contents writer.new.inner) (E.contents teller.old.inner) (E.contents teller.new.inner) }
    ensures flushed { writer.old.unflushed ≡ false → result ≢ Outcome.WriteFault → writer.new.unflushed ≡ false }
    ensures flushed_lines { teller.old.unflushed ≡ false → result ≢ Outcome.WriteFault → teller.new.unflushed ≡ false }
    ensures write_fault { result ≡ Outcome.WriteFault → writer.new.failures + teller.new.failures ≡ 1 }
    ensures unfailed_writes { result ≢ Outcome.WriteFault → writer.new.failures + teller.new.failures ≡ 0 }
    ensures counted { EndsCounted result memory.old memory.new }
{
    if progress.take_rest(alloc, way, memory).is_err() {
        return Outcome::NoMemory;
    }
    match deliver(&mut progress.made, writer, teller) {
        Ok(told) if refused || told => Outcome::BadLine,
        Ok(_) => Outcome::Done,
        Err(_) => Outcome::WriteFault,
    }
}

/// Writes and tells what was made, and keeps none of it. Answers whether something was told.
fn deliver<W: Write, E: Write>(
    made: &mut Made,
    writer: &mut Counted<W>,
    teller: &mut Counted<E>,
) -> Result<bool, Stopped>
    requires no_write_failure { writer.old.failures ≡ 0 }
    requires no_failure_to_tell { teller.old.failures ≡ 0 }
    ensures out { OnOk result (Wrote W.contents writer.old writer.new made.old.out.items) }
    ensures lines { OnOk result (Wrote E.contents teller.old teller.new made.old.told.items) }
    ensures told { IfOk result (λ told. told ≡ has_line made.old.told.items) }
    ensures no_out { OnOk result (made.new.out.items ≡ []) }
    ensures no_line { OnOk result (made.new.told.items ≡ []) }
    ensures flushed { OnOk result (writer.new.unflushed ≡ false) }
    ensures flushed_lines { OnOk result (teller.new.unflushed ≡ false) }
    ensures err { OnErr result (Fronts made.old.out.items made.old.told.items
        (W.contents writer.old.inner) (W.contents writer.new.inner) (E.contents teller.old.inner) (E.contents teller.new.inner)) }
    ensures failed { OnErr result (writer.new.failures + teller.new.failures ≡ 1) }
{
    put_out(&made.out, writer)?;
    put_out(&made.told, teller)?;
    let told = !made.told.is_empty();
    made.out.clear();
    made.told.clear();
    Ok(told)
}

/// Writes a text, and flushes it.
fn put_out<W: Write>(text: &[u8], writer: &mut Counted<W>) -> Result<(), Stopped>
    requires { writer.old.failures ≡ 0 }
    ensures ok { OnOk result (Wrote W.contents writer.old writer.new text.now) }
    ensures flushed { OnOk result (writer.new.unflushed ≡ false) }
    ensures err { OnErr result (WroteFront W.contents writer.old writer.new text.now) }
{
    write_bytes(text, writer)?;
    match writer.flush() {
        Ok(()) => Ok(()),
        Err(_) => Err(Stopped),
    }
}
