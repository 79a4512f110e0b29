//! A run: a script's bytes in, its transcript out.
ghost use Rattle.std.specs.Prelude.{◌≡◌, ◌≢◌, ◌+◌, ◌<◌, ◌≤◌, ◌⊎◌, ℕ, List, length, is_err, IfOk, IfSome, true, false};
ghost use Rattle.std.specs.Io.KnownBytes.{Appends};
ghost use Rattle.event_file.specs.Causes.{refusals};
ghost use Rattle.event_file.specs.Lines.{answered_lines, no_line};
ghost use Rattle.route_main.specs.Progress.{fresh};
ghost use Rattle.event_file.specs.Runs.{IsUndisturbed};
ghost use Rattle.event_file.specs.Transcript.{IsTranscript, has_bad_line, transcript_of};
ghost use Rattle.route_main.specs.Ends.{Ends, EndsBy, EndsComputed, EndsCounted, IsAnswered};
ghost use Rattle.memory.specs.Refusing.{Rises};

mod answerer;

use answerer::Answerer;
use event_file::laws::{computed_has_memory, each_refusal_is_counted, others_leave_the_text};
use event_file::{Counted, LineBuffer};
use memory::Memory;
use program_ends::Outcome;
use std::alloc::{AllocError, Global};
use std::io::{Read, Write};

/// The most reads of a run. The one that tells the end of the script is one of them.
const MOST_READS: u64 = 16_777_216;

/// The room that each read is given, in bytes.
const READ_ROOM: usize = 4096;

/// Reads a script, and writes its transcript: each line is answered, and its answer written, before the next is
/// looked at; what was written is flushed before each read and at the end. The run itself takes memory at the start
/// alone; a command that wants some and gets none is answered `err 55`. A last line without a newline is answered at
/// the end of the script, but not where a read fault comes first. How often memory was refused is counted.
pub(crate) fn run<R: Read, W: Write>(
    alloc: Global,
    reader: &mut Counted<R>,
    writer: &mut Counted<W>,
    memory: &mut Memory,
) -> Outcome
    requires no_read { reader.old.reads ≡ 0 }
    requires no_read_failure { reader.old.failures ≡ 0 }
    requires no_write_failure { writer.old.failures ≡ 0 }

    // Where all lines were answered, what was written is a transcript of the whole script, and nothing else.
    ensures transcript { IsAnswered result → IfSome (R.remaining reader.old.inner) (λ script. (text : List ℕ)
        × Appends (W.contents writer.old.inner) (W.contents writer.new.inner) text × IsTranscript script text) }
    ensures done { result ≡ Outcome.Done → IfSome (R.remaining reader.old.inner) (λ script.
        has_bad_line (answered_lines script) ≡ false) }
    ensures bad_line { result ≡ Outcome.BadLine → IfSome (R.remaining reader.old.inner) (λ script.
        has_bad_line (answered_lines script) ≡ true) }

    // And no listener disturbs another in that transcript: what others open, close and read, the losses that they
    // ask for and the loopback that they turn change no byte of what is answered to one.
    ensures undisturbed { result ≡ Outcome.Done → IfSome (R.remaining reader.old.inner) (λ script. (text : List ℕ)
        × Appends (W.contents writer.old.inner) (W.contents writer.new.inner) text × IsTranscript script text
        × IsUndisturbed script text) }

    // What was read and written is said for each outcome.
    ensures ends { Ends result (R.remaining reader.old.inner) (R.remaining reader.new.inner)
        (W.contents writer.old.inner) (W.contents writer.new.inner) }
    ensures reads { reader.new.reads ≤ MOST_READS }
    ensures most_reads { MOST_READS ≡ 16777216 }
    ensures room { READ_ROOM ≤ reader.old.least_room → READ_ROOM ≤ reader.new.least_room }
    ensures read_room { READ_ROOM ≡ 4096 }

    // Before each read all that was answered is flushed, and at the end too.
    ensures prompt { writer.old.unflushed ≡ false → reader.new.early_reads ≡ reader.old.early_reads }
    ensures flushed { writer.old.unflushed ≡ false → result ≢ Outcome.WriteFault → writer.new.unflushed ≡ false }
    ensures reads_needed { IfSome (R.remaining reader.old.inner) (λ script. reader.new.reads ≤ length script + 1) }

    // A run goes on as long as no read and no write fails, and a fault comes only where one failed, or the reads are
    // spent on a script of at least as many bytes; and without memory nothing begins.
    ensures unfailed { IsAnswered result → (reader.new.failures ≡ 0) × (writer.new.failures ≡ 0) }
    ensures read_fault { result ≡ Outcome.ReadFault → (reader.new.failures ≡ 1) ⊎ ((reader.new.reads ≡ MOST_READS)
        × IfSome (R.remaining reader.old.inner) (λ script. MOST_READS ≤ length script)) }
    ensures unfailed_writes { result ≡ Outcome.ReadFault → writer.new.failures ≡ 0 }
    ensures write_fault { result ≡ Outcome.WriteFault → writer.new.failures ≡ 1 }
    ensures unfailed_reads { result ≡ Outcome.WriteFault → reader.new.failures ≡ 0 }
    ensures no_memory { result ≡ Outcome.NoMemory → (reader.new ≡ reader.old) × (writer.new ≡ writer.old) }

    // The count rises with each line `err 55` of the transcript, and where nothing could begin, and for nothing else.
    ensures counted { EndsCounted result (R.remaining reader.old.inner) (R.remaining reader.new.inner)
        (W.contents writer.old.inner) (W.contents writer.new.inner) memory.old memory.new }
    ensures unbegun { result ≡ Outcome.NoMemory → memory.old < memory.new }
    ensures short { memory.old < memory.new → EndsBy (λ script text. 1 ≤ refusals text) result
        (R.remaining reader.old.inner) (R.remaining reader.new.inner)
        (W.contents writer.old.inner) (W.contents writer.new.inner) }

    // So where it stands, what was written is what the machine computes, without a line `err 55`: all of it where all
    // lines were answered, and else of as many lines as `ends` says.
    ensures exact { memory.new ≡ memory.old → IsAnswered result → IfSome (R.remaining reader.old.inner) (λ script.
        Appends (W.contents writer.old.inner) (W.contents writer.new.inner) (transcript_of script)) }
    ensures computed { memory.new ≡ memory.old → EndsComputed result (R.remaining reader.old.inner)
        (R.remaining reader.new.inner) (W.contents writer.old.inner) (W.contents writer.new.inner) }
{
    // Facts for the proof, on which `undisturbed`, `short` and `computed` rest.
    others_leave_the_text();
    each_refusal_is_counted();
    computed_has_memory();
    let Ok(mut start) = Start::new(alloc, memory) else {
        return Outcome::NoMemory;
    };
    answer_script(
        &mut start.answerer,
        &mut start.line,
        &mut start.chunk,
        reader,
        writer,
        memory,
    )
}

/// What a run takes memory for.
#[derive(Drop)]
struct Start {
    line: LineBuffer,
    chunk: Vec<u8>,
    answerer: Answerer,
}

impl Start {
    /// No line, the room of a read, and the empty world.
    fn new(alloc: Global, memory: &mut Memory) -> Result<Start, AllocError>
        ensures line { IfOk result (λ start. start.line ≡ no_line) }
        ensures chunk { IfOk result (λ start. length start.chunk.items ≡ READ_ROOM) }
        ensures answerer { IfOk result (λ start. start.answerer ≡ fresh) }
        ensures counted { Rises (is_err result) memory.old memory.new }
    {
        let line = LineBuffer::new(alloc, memory)?;
        let chunk = memory.zeros(alloc, READ_ROOM)?;
        let answerer = Answerer::new(alloc, memory)?;
        Ok(Start {
            line,
            chunk,
            answerer,
        })
    }
}

/// Reads the script to its end, or to a fault, and answers its lines.
fn answer_script<R: Read, W: Write>(
    answerer: &mut Answerer,
    line: &mut LineBuffer,
    chunk: &mut [u8],
    reader: &mut Counted<R>,
    writer: &mut Counted<W>,
    memory: &mut Memory,
) -> Outcome
    requires fresh { answerer.old ≡ fresh }
    requires line { line.old ≡ no_line }
    requires room { length chunk.old ≡ READ_ROOM }
    requires no_read { reader.old.reads ≡ 0 }
    requires no_read_failure { reader.old.failures ≡ 0 }
    requires no_write_failure { writer.old.failures ≡ 0 }
    ensures counted { EndsCounted result (R.remaining reader.old.inner) (R.remaining reader.new.inner)
        (W.contents writer.old.inner) (W.contents writer.new.inner) memory.old memory.new }
    ensures reads { reader.new.reads ≤ MOST_READS }
    ensures reads_needed { IfSome (R.remaining reader.old.inner) (λ script. reader.new.reads ≤ length script + 1) }
    ensures room { READ_ROOM ≤ reader.old.least_room → READ_ROOM ≤ reader.new.least_room }
    ensures prompt { writer.old.unflushed ≡ false → reader.new.early_reads ≡ reader.old.early_reads }
    ensures flushed { writer.old.unflushed ≡ false → result ≢ Outcome.WriteFault → writer.new.unflushed ≡ false }
    ensures unfailed { IsAnswered result → (reader.new.failures ≡ 0) × (writer.new.failures ≡ 0) }
    ensures read_fault { result ≡ Outcome.ReadFault → (reader.new.failures ≡ 1) ⊎ ((reader.new.reads ≡ MOST_READS)
        × IfSome (R.remaining reader.old.inner) (λ script. MOST_READS ≤ length script)) }
    ensures unfailed_writes { result ≡ Outcome.ReadFault → writer.new.failures ≡ 0 }
    ensures write_fault { result ≡ Outcome.WriteFault → writer.new.failures ≡ 1 }
    ensures unfailed_reads { result ≡ Outcome.WriteFault → reader.new.failures ≡ 0 }
    ensures begun { result ≢ Outcome.NoMemory }
{
    for _turn in 0..MOST_READS {
        let Ok(taken) = reader.read_behind(writer, chunk) else {
            return Outcome::ReadFault;
        };
        if taken == 0 {
            return answerer.finish(line, writer, memory);
        }
        let Ok(()) = answerer.answer_bytes(line, &chunk[..taken], writer, memory) else {
            return Outcome::WriteFault;
        };
        let Ok(()) = writer.flush() else {
            return Outcome::WriteFault;
        };
    }
    Outcome::ReadFault
}
