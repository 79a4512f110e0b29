ghost use Rattle.std.specs.Prelude.{◌≡◌, ◌+◌, ◌≤◌, ◌++◌, length, take, flat_map, IfOk, OnOk, OnErr};
ghost use Rattle.hex.specs.Hex.{encode_lower};
ghost use Rattle.sock_addrs.specs.Errno.{errno_number};
ghost use Rattle.event_file.specs.Answers.{answer_text, choice_line as line_of_choice, last_line, message_line, refusal_line, response_text, size_line as line_of_size};
ghost use Rattle.event_file.specs.Output.{KeptBack, Wrote, WroteFront};
ghost use Rattle.route_core.specs.Received.{cut, AreMessages};
ghost use Rattle.route_msgs.specs.Pasted.{pasted};

use crate::answer_text::put_line;
use crate::choices::choice_line;
use crate::output::write_bytes;
use crate::{Bad, Counted, Stopped, hexadecimal};
use arrayvec::ArrayVec;
use route_core::{Answer, Choice, first_message};
use route_msgs::put;
use sock_addrs::Errno;
use std::io::Write;

/// The room in which the text of an answer is made, in bytes.
pub const TEXT_ROOM: usize = 4096;

/// The bytes whose hexadecimal text fills that room.
const PIECE: usize = 2048;

/// The most bytes of lines that are kept back in that room, behind which the line that ends an answer has place.
const MOST_KEPT: usize = 4080;

/// The longest message whose line is kept back, in bytes.
const MOST_PUT: usize = 2037;

/// Writes the text of a line's answer, going on behind what a short write took: that of an answer, or `bad`. It is
/// refused at the first write that answers an error or takes no byte, and what was taken before is then a front of that
/// text. `buffer` is room for `TEXT_ROOM` bytes of text; what it held is lost.
pub fn write_answer<W: Write>(
    answer: &Result<Answer<'_>, Bad>,
    buffer: &mut [u8],
    writer: &mut Counted<W>,
) -> Result<(), Stopped>
    requires buffer { length buffer.old ≡ TEXT_ROOM }
    requires no_failure { writer.old.failures ≡ 0 }
    ensures ok { OnOk result (Wrote W.contents writer.old writer.new (response_text answer.now)) }
    ensures err { OnErr result (WroteFront W.contents writer.old writer.new (response_text answer.now)) }
{
    match answer {
        Ok(answer) => write_command_answer(answer, buffer, writer),
        Err(Bad) => write_bytes(b"bad\n", writer),
    }
}

/// Writes the answer to a command, as `write_answer`: `ok`, `err` with the errno's number, `via` or `drop` with a
/// packet's route, `size` with a number of bytes or of messages, or `msg` with its bytes for each message and then
/// `ok`, or `err` where some are left out.
pub fn write_command_answer<W: Write>(
    answer: &Answer<'_>,
    buffer: &mut [u8],
    writer: &mut Counted<W>,
) -> Result<(), Stopped>
    requires buffer { length buffer.old ≡ TEXT_ROOM }
    requires no_failure { writer.old.failures ≡ 0 }
    ensures ok { OnOk result (Wrote W.contents writer.old writer.new (answer_text answer.now)) }
    ensures err { OnErr result (WroteFront W.contents writer.old writer.new (answer_text answer.now)) }
{
    match answer {
        Answer::Done => write_bytes(b"ok\n", writer),
        Answer::Refused(errno) => write_refusal(*errno, writer),
        Answer::Routed(choice) => write_choice("via", choice, writer),
        Answer::Dropped(choice) => write_choice("drop", choice, writer),
        Answer::Size(size) => write_size(*size, buffer, writer),
        Answer::Messages(received, left_out) => {
            write_received(received.as_bytes(), *left_out, buffer, writer)
        }
    }
}

/// Writes the line of each message of `bytes` and the line behind them, as many at once as fit the buffer.
fn write_received<W: Write>(
    bytes: &[u8],
    left_out: Option<Errno>,
    buffer: &mut [u8],
    writer: &mut Counted<W>,
) -> Result<(), Stopped>
    requires whole { AreMessages bytes.now }
    requires buffer { length buffer.old ≡ TEXT_ROOM }
    requires no_failure { writer.old.failures ≡ 0 }
    ensures ok { OnOk result (Wrote W.contents writer.old writer.new
        (flat_map message_line (cut bytes.now) ++ last_line left_out)) }
    ensures err { OnErr result (WroteFront W.contents writer.old writer.new
        (flat_map message_line (cut bytes.now) ++ last_line left_out)) }
{
    if bytes.is_empty() {
        return write_last(left_out, writer);
    }
    let kept = write_messages(bytes, buffer, writer)?;
    let end = put_last(left_out, buffer, kept);
    write_bytes(&buffer[..end], writer)
}

/// Puts the line behind messages into `out` from a place on, and answers where it ends.
fn put_last(left_out: Option<Errno>, out: &mut [u8], at: usize) -> usize
    requires { at + 16 ≤ length out.old }
    ensures end { result ≡ at + length (last_line left_out) }
    ensures most { result ≤ at + 16 }
    ensures text { out.new ≡ pasted at (last_line left_out) out.old }
{
    match left_out {
        None => put(b"ok\n", out, at),
        Some(errno) => put(&refusal(errno), out, at),
    }
}

/// Writes the line behind messages: `ok` where they are all, or `err` with the reason for which some are left out.
fn write_last<W: Write>(left_out: Option<Errno>, writer: &mut Counted<W>) -> Result<(), Stopped>
    requires { writer.old.failures ≡ 0 }
    ensures ok { OnOk result (Wrote W.contents writer.old writer.new (last_line left_out)) }
    ensures err { OnErr result (WroteFront W.contents writer.old writer.new (last_line left_out)) }
{
    match left_out {
        None => write_bytes(b"ok\n", writer),
        Some(errno) => write_refusal(errno, writer),
    }
}

// The lines of a refusal and of a packet's route are each made in a function of their own that is not inlined, since
// the room of a line is cleared wherever one is made.

/// Writes the line of a refusal.
#[inline(never)]
fn write_refusal<W: Write>(errno: Errno, writer: &mut Counted<W>) -> Result<(), Stopped>
    requires { writer.old.failures ≡ 0 }
    ensures ok { OnOk result (Wrote W.contents writer.old writer.new (refusal_line (errno_number errno))) }
    ensures err { OnErr result (WroteFront W.contents writer.old writer.new (refusal_line (errno_number errno))) }
{
    write_bytes(&refusal(errno), writer)
}

/// Writes the line of a size.
fn write_size<W: Write>(
    size: u64,
    buffer: &mut [u8],
    writer: &mut Counted<W>,
) -> Result<(), Stopped>
    requires buffer { length buffer.old ≡ TEXT_ROOM }
    requires no_failure { writer.old.failures ≡ 0 }
    ensures ok { OnOk result (Wrote W.contents writer.old writer.new (line_of_size size)) }
    ensures err { OnErr result (WroteFront W.contents writer.old writer.new (line_of_size size)) }
{
    let end = put_size(size, buffer);
    write_bytes(&buffer[..end], writer)
}

/// Writes the line of a packet's route, behind what becomes of the packet.
#[inline(never)]
fn write_choice<W: Write>(
    fate: &str,
    choice: &Choice,
    writer: &mut Counted<W>,
) -> Result<(), Stopped>
    requires fate { length fate.now ≤ 4 }
    requires no_failure { writer.old.failures ≡ 0 }
    ensures ok { OnOk result (Wrote W.contents writer.old writer.new (line_of_choice fate.now choice.now)) }
    ensures err { OnErr result (WroteFront W.contents writer.old writer.new (line_of_choice fate.now choice.now)) }
{
    write_bytes(&choice_line(fate, choice), writer)
}

/// The line of a refusal.
pub(crate) fn refusal(errno: Errno) -> ArrayVec<u8, 16>
    ensures { result.items ≡ refusal_line (errno_number errno) }
{
    let mut digits = itoa::Buffer::new();
    let mut line = ArrayVec::new();
    line.try_extend_from_slice(b"err ").unwrap();
    line.try_extend_from_slice(digits.format(errno.number()).as_bytes())
        .unwrap();
    line.push(b'\n');
    line
}

/// Puts the line of a size to the front of `out`, and answers where it ends: how many bytes to ask for a dump, or how
/// many messages were lost.
pub(crate) fn put_size(size: u64, out: &mut [u8]) -> usize
    requires { 32 ≤ length out.old }
    ensures end { result ≡ length (line_of_size size) }
    ensures most { result ≤ 32 }
    ensures text { out.new ≡ pasted 0 (line_of_size size) out.old }
{
    let mut digits = itoa::Buffer::new();
    let at = put(b"size ", out, 0);
    let at = put(digits.format(size).as_bytes(), out, at);
    put(b"\n", out, at)
}

/// Writes the line of each message of `bytes`, but for the last lines, which are kept back in the buffer: answers where
/// these end there.
fn write_messages<W: Write>(
    bytes: &[u8],
    buffer: &mut [u8],
    writer: &mut Counted<W>,
) -> Result<usize, Stopped>
    requires whole { AreMessages bytes.now }
    requires buffer { length buffer.old ≡ TEXT_ROOM }
    requires no_failure { writer.old.failures ≡ 0 }
    ensures most { IfOk result (λ end. end ≤ MOST_KEPT) }
    ensures ok { IfOk result (λ end. KeptBack W.contents writer.old writer.new
        (flat_map message_line (cut bytes.now)) (take end buffer.new)) }
    ensures err { OnErr result (WroteFront W.contents writer.old writer.new (flat_map message_line (cut bytes.now))) }
{
    let mut at = 0;
    let mut end = 0;
    while at < bytes.len() {
        let message = first_message(&bytes[at..]);
        end = keep_line(message, buffer, end, writer)?;
        at += message.len();
    }
    Ok(end)
}

/// Keeps the line of a message back behind the lines up to `end` in the buffer, and answers where it ends there. Where
/// there is no room for it they are written first; a line that is longer than the room is written with them.
fn keep_line<W: Write>(
    message: &[u8],
    buffer: &mut [u8],
    end: usize,
    writer: &mut Counted<W>,
) -> Result<usize, Stopped>
    requires end { end ≤ MOST_KEPT }
    requires buffer { length buffer.old ≡ TEXT_ROOM }
    requires no_failure { writer.old.failures ≡ 0 }
    ensures most { IfOk result (λ now. now ≤ MOST_KEPT) }
    ensures ok { IfOk result (λ now. KeptBack W.contents writer.old writer.new
        (take end buffer.old ++ message_line message.now) (take now buffer.new)) }
    ensures err { OnErr result (WroteFront W.contents writer.old writer.new
        (take end buffer.old ++ message_line message.now)) }
{
    if message.len() > MOST_PUT {
        write_bytes(&buffer[..end], writer)?;
        write_long_message(message, buffer, writer)?;
        return Ok(0);
    }
    if end + 5 + 2 * message.len() <= MOST_KEPT {
        return Ok(put_line(message, buffer, end));
    }
    write_bytes(&buffer[..end], writer)?;
    Ok(put_line(message, buffer, 0))
}

/// Writes the line of a message of any length.
fn write_long_message<W: Write>(
    message: &[u8],
    buffer: &mut [u8],
    writer: &mut Counted<W>,
) -> Result<(), Stopped>
    requires buffer { length buffer.old ≡ TEXT_ROOM }
    requires no_failure { writer.old.failures ≡ 0 }
    ensures ok { OnOk result (Wrote W.contents writer.old writer.new (message_line message.now)) }
    ensures err { OnErr result (WroteFront W.contents writer.old writer.new (message_line message.now)) }
{
    write_bytes(b"msg ", writer)?;
    write_hex(message, buffer, writer)?;
    write_bytes(b"\n", writer)
}

/// Writes the hexadecimal text of `bytes`, a buffer of it at a time.
fn write_hex<W: Write>(
    bytes: &[u8],
    buffer: &mut [u8],
    writer: &mut Counted<W>,
) -> Result<(), Stopped>
    requires buffer { length buffer.old ≡ TEXT_ROOM }
    requires no_failure { writer.old.failures ≡ 0 }
    ensures ok { OnOk result (Wrote W.contents writer.old writer.new (encode_lower bytes.now)) }
    ensures err { OnErr result (WroteFront W.contents writer.old writer.new (encode_lower bytes.now)) }
{
    let mut at = 0;
    while at < bytes.len() {
        let taken = (bytes.len() - at).min(PIECE);
        write_piece(&bytes[at..at + taken], buffer, writer)?;
        at += taken;
    }
    Ok(())
}

/// Writes the hexadecimal text of a piece, which fits the buffer.
fn write_piece<W: Write>(
    piece: &[u8],
    buffer: &mut [u8],
    writer: &mut Counted<W>,
) -> Result<(), Stopped>
    requires piece { length piece.now ≤ PIECE }
    requires buffer { length buffer.old ≡ TEXT_ROOM }
    requires no_failure { writer.old.failures ≡ 0 }
    ensures ok { OnOk result (Wrote W.contents writer.old writer.new (encode_lower piece.now)) }
    ensures err { OnErr result (WroteFront W.contents writer.old writer.new (encode_lower piece.now)) }
{
    let text = &mut buffer[..2 * piece.len()];
    hexadecimal::encode(piece, text);
    write_bytes(text, writer)
}
