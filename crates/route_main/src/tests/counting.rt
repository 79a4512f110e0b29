//! The counts of reads and failures.
use super::fakes::{FakeReader, FakeWriter, Fault};
use event_file::Counted;

#[test]
fn counts_reads_and_their_failures(rt: HostRuntime) {
    let mut reader = Counted::new(FakeReader::new(b"abc", 2, 2));
    let mut buf = [0; 4];
    for (moved, reads, failures) in [
        (Some(2), 1, 0),
        (None, 2, 1),
        (Some(1), 3, 1),
        (Some(0), 4, 1),
    ] {
        assert_eq!(rt; reader.read(&mut buf).ok(), moved, "read {reads}");
        assert_eq!(rt; (reader.reads(), reader.failures()), (reads, failures));
    }
}

#[test]
fn counts_writes_that_take_none(rt: HostRuntime) {
    let mut writer = Counted::new(FakeWriter::new(rt.alloc(), 2, 2, Fault::TakesNone));
    for (bytes, moved, failures) in [("abc", 2, 0), ("c", 0, 1), ("", 0, 1), ("c", 1, 1)] {
        assert_eq!(rt; writer.write(bytes.as_bytes()).ok(), Some(moved), "{bytes}");
        assert_eq!(rt; (writer.reads(), writer.failures()), (0, failures));
    }
    assert_eq!(rt; writer.into_inner().bytes.as_slice(), b"abc".as_slice());
}

#[test]
fn counts_writes_that_fail(rt: HostRuntime) {
    let mut writer = Counted::new(FakeWriter::new(rt.alloc(), 2, 2, Fault::Error));
    for (bytes, moved, failures) in [("abc", Some(2), 0), ("c", None, 1), ("c", Some(1), 1)] {
        assert_eq!(rt; writer.write(bytes.as_bytes()).ok(), moved, "{bytes}");
        assert_eq!(rt; (writer.reads(), writer.failures()), (0, failures));
    }
    assert_eq!(rt; writer.into_inner().bytes.as_slice(), b"abc".as_slice());
}
