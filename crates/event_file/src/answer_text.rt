//! The text of an answer, put into a room of the caller's.
ghost use Rattle.std.specs.Prelude.{◌≡◌, ◌≤◌, ◌+◌, ◌*◌, ◌-◌, ◌^◌, ◌++◌, drop, length, min, flat_map};
ghost use Rattle.event_file.specs.Answers.{closing_line as line_behind, message_line, messages_in, response_text, size_line as line_of_size};
ghost use Rattle.event_file.specs.Given.{given};
ghost use Rattle.hex.specs.Hex.{encode_lower};
ghost use Rattle.route_core.specs.Received.{cut, AreMessages};
ghost use Rattle.route_msgs.specs.Pasted.{pasted};

use crate::answers::{put_size, refusal};
use crate::choices::choice_line;
use crate::{Bad, hexadecimal};
use arrayvec::ArrayVec;
use route_core::{Answer, first_message};
use route_msgs::put;

/// Puts the text of a line's answer, as `write_answer` writes it, to the front of `out` where there is room for all of
/// it; where there is none, `out` stays as it was. Answers how many bytes the text has, at most `usize::MAX`.
pub fn give_text(answer: &Result<Answer<'_>, Bad>, out: &mut [u8]) -> usize
    ensures size { result ≡ min (length (response_text answer.now)) (2 ^ 64 - 1) }
    ensures text { out.new ≡ given (response_text answer.now) out.old }
{
    let bytes = message_bytes(answer);
    let line = closing_line(answer);
    let size = lines_size(bytes) + line.len() as u128;
    if size <= out.len() as u128 {
        let at = put_lines(bytes, out);
        out[at..at + line.len()].copy_from_slice(&line);
    }
    usize::try_from(size).unwrap_or(usize::MAX)
}

/// The bytes of the messages that an answer shows.
fn message_bytes<'a>(answer: &'a Result<Answer<'_>, Bad>) -> &'a [u8]
    ensures whole { AreMessages result.now }
    ensures messages { cut result.now ≡ messages_in answer.now }
{
    match answer {
        Ok(Answer::Messages(received, _)) => received.as_bytes(),
        _ => &[],
    }
}

/// The last line of an answer's text, which stands behind its messages.
fn closing_line(answer: &Result<Answer<'_>, Bad>) -> ArrayVec<u8, 128>
    ensures { result.items ≡ line_behind answer.now }
{
    match answer {
        Ok(Answer::Done | Answer::Messages(_, None)) => line_of(b"ok\n"),
        Ok(Answer::Refused(errno) | Answer::Messages(_, Some(errno))) => line_of(&refusal(*errno)),
        Ok(Answer::Routed(choice)) => choice_line("via", choice),
        Ok(Answer::Dropped(choice)) => choice_line("drop", choice),
        Ok(Answer::Size(size)) => size_line(*size),
        Err(Bad) => line_of(b"bad\n"),
    }
}

/// The line of a size.
fn size_line(size: u64) -> ArrayVec<u8, 128>
    ensures { result.items ≡ line_of_size size }
{
    let mut line = [0; 32];
    let end = put_size(size, &mut line);
    line_of(&line[..end])
}

/// The line with these bytes.
fn line_of(bytes: &[u8]) -> ArrayVec<u8, 128>
    requires { length bytes.now ≤ 128 }
    ensures { result.items ≡ bytes.now }
{
    ArrayVec::try_from(bytes).unwrap()
}

/// How many bytes the lines of the messages have.
fn lines_size(bytes: &[u8]) -> u128
    requires { AreMessages bytes.now }
    ensures size { result ≡ length (flat_map message_line (cut bytes.now)) }
    ensures most { result ≤ 7 * length bytes.now }
{
    let mut at = 0;
    let mut size = 0;
    while at < bytes.len() {
        let message = first_message(&bytes[at..]);
        size += 5 + 2 * message.len() as u128;
        at += message.len();
    }
    size
}

/// Puts the lines of the messages to the front of `out`, and answers where they end.
fn put_lines(bytes: &[u8], out: &mut [u8]) -> usize
    requires whole { AreMessages bytes.now }
    requires room { length (flat_map message_line (cut bytes.now)) ≤ length out.old }
    ensures end { result ≡ length (flat_map message_line (cut bytes.now)) }
    ensures text { out.new ≡ flat_map message_line (cut bytes.now) ++ drop result out.old }
{
    let mut at = 0;
    let mut end = 0;
    while at < bytes.len() {
        let message = first_message(&bytes[at..]);
        end = put_line(message, out, end);
        at += message.len();
    }
    end
}

/// Puts the line of a message into `out` from a place on, and answers where it ends.
pub(crate) fn put_line(message: &[u8], out: &mut [u8], at: usize) -> usize
    requires { at + (5 + 2 * length message.now) ≤ length out.old }
    ensures end { result ≡ at + (5 + 2 * length message.now) }
    ensures text { out.new ≡ pasted at (message_line message.now) out.old }
{
    let at = put(b"msg ", out, at);
    let at = put_hex(message, out, at);
    put(b"\n", out, at)
}

/// Puts bytes in hexadecimal into `out` from a place on, and answers where they end.
fn put_hex(bytes: &[u8], out: &mut [u8], at: usize) -> usize
    requires { at + 2 * length bytes.now ≤ length out.old }
    ensures end { result ≡ at + 2 * length bytes.now }
    ensures text { out.new ≡ pasted at (encode_lower bytes.now) out.old }
{
    let end = at + 2 * bytes.len();
    hexadecimal::encode(bytes, &mut out[at..end]);
    end
}
