//! The lines of a text, each shown as it ends.
ghost use Rattle.std.specs.Prelude.{◌≡◌, ◌≤◌, ◌∷◌, ◌++◌, [], ℕ, List, Err, false, length, IfErr, IfNone, IfSome, OnOk, position};
ghost use Rattle.event_file.specs.Lines.{begun_line, has_newline, is_newline};
ghost use Rattle.event_file.specs.Output.{Wrote};
ghost use Rattle.memory.specs.Refusing.{Rises};
ghost use Rattle.message_text.specs.Texts.{text_of};
ghost use Rattle.show_main.specs.Faults.{ShowedFront, ShowedLines, is_want_of_memory};
ghost use Rattle.show_main.specs.Shown.{shown_ended, shown_line as shown};
ghost use Rattle.show_main.specs.declared.lines.Fault.TheVariants.{NoMemory, Stopped as WriterStopped};

use crate::messages::{SHORT, message_in, short_message};
use event_file::{Counted, Stopped, write_bytes};
use memchr::memchr;
use memory::{MOST_ASKED, Memory};
use message_text::text_of_counted;
use std::alloc::{AllocError, Global};
use std::io::Write;

/// Why some text could not be shown.
#[derive(Clone, Copy, Debug, PartialEq, Eq)]
pub(crate) enum Fault {
    /// The writer failed, or took no byte.
    Stopped,
    /// There was no memory for a line or for a message's text.
    NoMemory,
}

impl From<Stopped> for Fault {
    ghost from_gives = { λ _ fault. fault ≡ WriterStopped };

    fn from(_error: Stopped) -> Fault {
        Fault::Stopped
    }
}

impl From<AllocError> for Fault {
    ghost from_gives = { λ _ fault. fault ≡ NoMemory };

    fn from(_error: AllocError) -> Fault {
        Fault::NoMemory
    }
}

/// Shows each line that these bytes end, and leaves what they begin in `line`, which has what had come of the first.
pub(crate) fn show_bytes<W: Write>(
    alloc: Global,
    line: &mut Vec<u8>,
    bytes: &[u8],
    writer: &mut Counted<W>,
    memory: &mut Memory,
) -> Result<(), Fault>
    requires modest { length bytes.now ≤ MOST_ASKED }
    requires begun { has_newline line.old.items ≡ false }
    requires no_failure { writer.old.failures ≡ 0 }
    ensures shown { OnOk result (Wrote W.contents writer.old writer.new (shown_ended (line.old.items ++ bytes.now))) }
    ensures begun { OnOk result (line.new.items ≡ begun_line (line.old.items ++ bytes.now)) }
    ensures fault { IfErr result (λ fault. ShowedFront fault W.contents writer.old writer.new
        (shown_ended (line.old.items ++ bytes.now))) }
    ensures first { result ≡ Err Fault.NoMemory → (rest : List (List ℕ))
        × ShowedLines W.contents writer.old writer.new (line.old.items ++ bytes.now) rest }
    ensures kept { OnOk result (memory.new ≡ memory.old) }
    ensures refused { IfErr result (λ fault. Rises (is_want_of_memory fault) memory.old memory.new) }
{
    let mut rest = bytes;
    while let Some((front, behind)) = cut_line(rest) {
        show_ended(alloc, line, front, writer, memory)?;
        rest = behind;
    }
    memory.extend(line, rest)?;
    Ok(())
}

/// Shows the line that `front` ends, which begins with what had come of it, and leaves no line. A line that stands
/// whole among the bytes that were read is shown from there.
fn show_ended<W: Write>(
    alloc: Global,
    line: &mut Vec<u8>,
    front: &[u8],
    writer: &mut Counted<W>,
    memory: &mut Memory,
) -> Result<(), Fault>
    requires modest { length front.now ≤ MOST_ASKED }
    requires no_failure { writer.old.failures ≡ 0 }
    ensures shown { OnOk result (Wrote W.contents writer.old writer.new
        (shown (line.old.items ++ front.now) (10 ∷ []))) }
    ensures emptied { OnOk result (line.new.items ≡ []) }
    ensures fault { IfErr result (λ fault. ShowedFront fault W.contents writer.old writer.new
        (shown (line.old.items ++ front.now) (10 ∷ []))) }
    ensures unwritten { result ≡ Err Fault.NoMemory → writer.new ≡ writer.old }
    ensures kept { OnOk result (memory.new ≡ memory.old) }
    ensures refused { IfErr result (λ fault. Rises (is_want_of_memory fault) memory.old memory.new) }
{
    if line.is_empty() {
        return show_line(alloc, front, b"\n", writer, memory);
    }
    memory.extend(line, front)?;
    show_line(alloc, line, b"\n", writer, memory)?;
    line.clear();
    Ok(())
}

/// What stands before the first newline and what stands behind it, or `None` where there is none.
fn cut_line(bytes: &[u8]) -> Option<(&[u8], &[u8])>
    ensures whole { IfSome result (λ p. bytes.now ≡ p.0.now ++ 10 ∷ p.1.now) }
    ensures first { IfSome result (λ p. has_newline p.0.now ≡ false) }
    ensures none { IfNone result (has_newline bytes.now ≡ false) }
{
    let at = newline_in(bytes)?;
    Some((&bytes[..at], &bytes[at + 1..]))
}

/// The place of the first newline.
fn newline_in(bytes: &[u8]) -> Option<usize>
    ensures { result ≡ position is_newline bytes.now }
{
    memchr(b'\n', bytes)
}

/// Writes a line with its end, or in its place the message that it tells.
pub(crate) fn show_line<W: Write>(
    alloc: Global,
    line: &[u8],
    end: &[u8],
    writer: &mut Counted<W>,
    memory: &mut Memory,
) -> Result<(), Fault>
    requires no_failure { writer.old.failures ≡ 0 }
    ensures shown { OnOk result (Wrote W.contents writer.old writer.new (shown line.now end.now)) }
    ensures fault { IfErr result (λ fault. ShowedFront fault W.contents writer.old writer.new
        (shown line.now end.now)) }
    ensures unwritten { result ≡ Err Fault.NoMemory → writer.new ≡ writer.old }
    ensures kept { OnOk result (memory.new ≡ memory.old) }
    ensures refused { IfErr result (λ fault. Rises (is_want_of_memory fault) memory.old memory.new) }
{
    let mut room = [0; SHORT];
    if let Some(size) = short_message(line, &mut room) {
        return show_message(alloc, &room[..size], writer, memory);
    }
    match message_in(alloc, line, memory)? {
        Some(message) => show_message(alloc, &message, writer, memory)?,
        None => {
            write_bytes(line, writer)?;
            write_bytes(end, writer)?;
        }
    }
    Ok(())
}

/// Writes a message in words.
fn show_message<W: Write>(
    alloc: Global,
    message: &[u8],
    writer: &mut Counted<W>,
    memory: &mut Memory,
) -> Result<(), Fault>
    requires no_failure { writer.old.failures ≡ 0 }
    ensures shown { OnOk result (Wrote W.contents writer.old writer.new (text_of message.now)) }
    ensures fault { IfErr result (λ fault. ShowedFront fault W.contents writer.old writer.new (text_of message.now)) }
    ensures unwritten { result ≡ Err Fault.NoMemory → writer.new ≡ writer.old }
    ensures kept { OnOk result (memory.new ≡ memory.old) }
    ensures refused { IfErr result (λ fault. Rises (is_want_of_memory fault) memory.old memory.new) }
{
    let text = text_of_counted(alloc, message, memory)?;
    write_bytes(&text, writer)?;
    Ok(())
}
