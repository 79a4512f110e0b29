//! The texts of answers.
use super::fakes::{FakeWriter, Fault};
use event_file::{Bad, Counted, Stopped, write_answer};
use route_core::{Answer, Received};
use sock_addrs::Errno;
use std::alloc::{AllocError, Global};
use std::process::Abort;
use std::test::Fail;

/// Two messages, of 20 and 21 bytes.
const TWO: [u8; 41] = [
    0, 20, 3, 4, 0, 0, 0, 0, 0, 0, 0, 0, 0, 0, 0, 0, 0, 0, 0xAB, 0xCD, 0, 21, 3, 4, 0, 0, 0, 0, 0,
    0, 0, 0, 0, 0, 0, 0, 0, 0, 0, 0, 0xEF,
];

const TWO_TEXT: &str =
    "msg 001403040000000000000000000000000000abcd\nmsg 0015030400000000000000000000000000000000ef\nok\n";

/// The answer of a read of `TWO`.
fn two(alloc: Global) -> Result<Result<Answer<'static>, Bad>, AllocError> {
    let bytes = Vec::from_slice(alloc, &TWO)?;
    Ok(Ok(Answer::Messages(Received::new(bytes), None)))
}

/// Writes an answer at most `most` bytes a call, with a fault at the call `fault_at`: what was taken, and the outcome.
fn written(
    rt: &impl Abort,
    alloc: Global,
    answer: &Result<Answer<'_>, Bad>,
    most: usize,
    (fault_at, fault): (u64, Fault),
) -> (Vec<u8>, Result<(), Stopped>) {
    let mut buffer = [0; 4096];
    let mut writer = Counted::new(FakeWriter::new(alloc, most, fault_at, fault));
    let outcome = write_answer(answer, &mut buffer, &mut writer);
    assert_eq!(rt;
        writer.failures(),
        u64::from(outcome.is_err()),
        "at call {fault_at}"
    );
    (writer.into_inner().bytes, outcome)
}

#[test]
fn writes_each_answer(rt: HostRuntime) -> Result<(), Fail> {
    let cases: [(Result<Answer<'_>, Bad>, &str); 6] = [
        (Ok(Answer::Done), "ok\n"),
        (Ok(Answer::Refused(Errno::ESRCH)), "err 3\n"),
        (Ok(Answer::Refused(Errno::EHOSTUNREACH)), "err 65\n"),
        (Ok(Answer::Size(u64::MAX)), "size 18446744073709551615\n"),
        (two(rt.alloc())?, TWO_TEXT),
        (Err(Bad), "bad\n"),
    ];
    for (answer, text) in &cases {
        for most in [1, 3, 4096] {
            let (bytes, outcome) = written(&rt, rt.alloc(), answer, most, (0, Fault::Error));
            assert_eq!(rt; outcome, Ok(()), "{text}");
            assert_eq!(rt; bytes.as_slice(), text.as_bytes(), "{text}");
        }
    }
    Ok(())
}

#[test]
fn stops_at_each_fault(rt: HostRuntime) -> Result<(), Fail> {
    let answer = two(rt.alloc())?;
    for fault in [Fault::Error, Fault::TakesNone] {
        for taken in 0..TWO_TEXT.len() {
            let place = (taken as u64 + 1, fault);
            let (bytes, outcome) = written(&rt, rt.alloc(), &answer, 1, place);
            assert_eq!(rt; outcome, Err(Stopped), "after {taken} bytes");
            assert_eq!(rt;
                bytes.as_slice(),
                &TWO_TEXT.as_bytes()[..taken],
                "after {taken} bytes"
            );
        }
    }
    Ok(())
}
