//! Runs over a reader and a writer that move few bytes a call, and fail.
ghost use Rattle.std.specs.Prelude.{◌<◌};

use super::fakes::{FakeReader, FakeWriter, Fault};
use crate::run::run;
use event_file::Counted;
use memory::Memory;
use program_ends::Outcome;
use std::alloc::Global;
use std::test::Fail;

/// Three commands, a comment, an empty line, a line that is none, and a last line without a newline.
const SCRIPT: &str =
    "if le0 broadcast 6 080020010203\nopen a 100 any\naddr le0 10.0.0.1/8 cloning\n\
    # a comment\n\nopen\nopen b 1 any";

const TRANSCRIPT: &str = "ok\nok\nok\nbad\nok\n";

/// A call that no run makes.
const NEVER: u64 = u64::MAX;

/// How a run ends, and its writer.
fn run_over(alloc: Global, reader: FakeReader, writer: FakeWriter) -> (Outcome, FakeWriter) {
    let mut reader = Counted::new(reader);
    let mut writer = Counted::new(writer);
    let outcome = run(alloc, &mut reader, &mut writer, &mut Memory::new());
    (outcome, writer.into_inner())
}

/// How a run ends that reads a script in pieces, and what it writes.
fn answered(alloc: Global, script: &[u8], most: usize, read_fault_at: u64) -> (Outcome, FakeWriter)
    requires { 0 < most }
{
    let reader = FakeReader::new(script, most, read_fault_at);
    run_over(
        alloc,
        reader,
        FakeWriter::new(alloc, 4096, NEVER, Fault::Error),
    )
}

#[test]
fn pieces_of_a_script_change_nothing(rt: HostRuntime) {
    for (outcome, writer) in [
        answered(rt.alloc(), SCRIPT.as_bytes(), 1, NEVER),
        answered(rt.alloc(), SCRIPT.as_bytes(), 7, NEVER),
        answered(rt.alloc(), SCRIPT.as_bytes(), 4096, NEVER),
    ] {
        assert_eq!(rt; outcome, Outcome::BadLine);
        assert_eq!(rt; writer.bytes.as_slice(), TRANSCRIPT.as_bytes());
    }
}

#[test]
fn a_line_that_was_not_read_to_its_end_is_not_answered(rt: HostRuntime) {
    let script =
        "if le0 broadcast 6 080020010203\nopen a 100 any\naddr le0 10.0.0.1/8 cloning\nread";
    let (outcome, writer) = answered(rt.alloc(), script.as_bytes(), 4096, 2);
    assert_eq!(rt; outcome, Outcome::ReadFault);
    assert_eq!(rt; writer.bytes.as_slice(), b"ok\nok\nok\n".as_slice());
}

#[test]
fn a_write_fault_leaves_a_front_of_the_transcript(rt: HostRuntime) {
    for fault in [Fault::Error, Fault::TakesNone] {
        for fault_at in 1..=14u64 {
            let reader = FakeReader::new(SCRIPT.as_bytes(), 4096, NEVER);
            let writer = FakeWriter::new(rt.alloc(), 1, fault_at, fault);
            let (outcome, writer) = run_over(rt.alloc(), reader, writer);
            assert_eq!(rt; outcome, Outcome::WriteFault, "{fault_at}");
            let front = TRANSCRIPT.as_bytes().get(..fault_at as usize - 1);
            assert_eq!(rt; Some(writer.bytes.as_slice()), front);
        }
    }
}

#[test]
fn a_message_longer_than_the_buffer_is_written_whole(rt: HostRuntime) -> Result<(), Fail> {
    let mut bytes = vec![in rt.alloc(); 0x11u8; 8192]?;
    bytes[..4].copy_from_slice(&[0x20, 0, 4, 0x11]);
    let written = hex::encode(rt.alloc(), &bytes)?;
    bytes[24..28].copy_from_slice(&[0, 0, 0, 43]);
    let heard = hex::encode(rt.alloc(), &bytes)?;
    let script = format!(in rt.alloc(); "open a 1 any\nwrite a {written}\nread a\n")?;
    let transcript = format!(in rt.alloc(); "ok\nerr 43\nmsg {heard}\nok\n")?;
    let (_, writer) = answered(rt.alloc(), script.as_str().as_bytes(), 4096, NEVER);
    assert_eq!(rt; writer.bytes.as_slice(), transcript.as_str().as_bytes());
    Ok(())
}
