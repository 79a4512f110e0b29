ghost use Rattle.std.specs.Prelude.{◌≡◌, ◌-◌, ◌^◌, ◌&&◌, true, false, length, min};
ghost use Rattle.std.specs.Io.{ReadsAtMost, WritesAtMost};
ghost use Rattle.std.specs.Io.KnownBytes.{Keeps, ReadConsumes, WriteAppends};
ghost use Rattle.event_file.specs.Counts.{Counts, flush_failed, one_more, one_more_if, read_failed, write_failed};

use std::io::{self, Read, Write};
use std::marker::Model;

/// A reader or a writer with counts of its calls of `read`, of the failures among its reads, writes and flushes, and of
/// its reads that came too early: while something that was written may not have been flushed. With them it keeps the
/// least room that a read was offered, and whether something was written since the last flush. A contract sees it as
/// the inner value and these.
#[derive(Drop)]
pub struct Counted<T> {
    inner: T,
    reads: u64,
    failures: u64,
    least_room: usize,
    early_reads: u64,
    unflushed: bool,
}

impl<T> Model for Counted<T> {
    ghost Value = { Counts T };

    ghost view = { λ c. record {
      inner = c.inner;
      reads = c.reads;
      failures = c.failures;
      least_room = c.least_room;
      early_reads = c.early_reads;
      unflushed = c.unflushed;
    } };
}

impl<T> Counted<T> {
    /// `inner`, with each count 0, no read yet, and nothing to flush.
    pub fn new(inner: T) -> Counted<T>
        ensures inner { result.inner ≡ inner }
        ensures reads { result.reads ≡ 0 }
        ensures failures { result.failures ≡ 0 }
        ensures least_room { result.least_room ≡ 2 ^ 64 - 1 }
        ensures early_reads { result.early_reads ≡ 0 }
        ensures unflushed { result.unflushed ≡ false }
    {
        Counted {
            inner,
            reads: 0,
            failures: 0,
            least_room: usize::MAX,
            early_reads: 0,
            unflushed: false,
        }
    }

    /// The number of calls of `read`; from `u64::MAX` on it stays.
    pub fn reads(&self) -> u64
        ensures { result ≡ self.now.reads }
    {
        self.reads
    }

    /// The number of reads, writes and flushes that answered an error, and of writes of at least one byte that took
    /// none; from `u64::MAX` on it stays.
    pub fn failures(&self) -> u64
        ensures { result ≡ self.now.failures }
    {
        self.failures
    }

    /// The least room that a call of `read` was offered, in bytes; `usize::MAX` before the first.
    pub fn least_room(&self) -> usize
        ensures { result ≡ self.now.least_room }
    {
        self.least_room
    }

    /// The number of reads that came while something that was written may not have been flushed: those by `read`, which
    /// knows of no writer, and those by `read_behind` whose writer had something to flush. From `u64::MAX` on it stays.
    pub fn early_reads(&self) -> u64
        ensures { result ≡ self.now.early_reads }
    {
        self.early_reads
    }

    /// Whether something was written since the last flush.
    pub fn has_unflushed(&self) -> bool
        ensures { result ≡ self.now.unflushed }
    {
        self.unflushed
    }

    /// The inner value, as the calls left it.
    pub fn into_inner(self) -> T
        ensures { result ≡ self.inner }
    {
        self.inner
    }
}

impl<R: Read> Counted<R> {
    /// Reads from the inner reader into `buf`, and answers what that answers. What was written elsewhere may not have
    /// been flushed.
    pub fn read(&mut self, buf: &mut [u8]) -> io::Result<usize>
        ensures bound { ReadsAtMost result buf.new }
        ensures bytes { ReadConsumes (R.remaining self.old.inner) (R.remaining self.new.inner) result buf.new }
        ensures reads { self.new.reads ≡ one_more self.old.reads }
        ensures failures { self.new.failures ≡ one_more_if (read_failed result) self.old.failures }
        ensures least_room { self.new.least_room ≡ min self.old.least_room (length buf.old) }
        ensures early_reads { self.new.early_reads ≡ one_more self.old.early_reads }
        ensures unflushed { self.new.unflushed ≡ self.old.unflushed }
    {
        self.reads = self.reads.saturating_add(1);
        self.early_reads = self.early_reads.saturating_add(1);
        self.least_room = self.least_room.min(buf.len());
        let answer = self.inner.read(buf);
        if answer.is_err() {
            self.failures = self.failures.saturating_add(1);
        }
        answer
    }

    /// Reads as `read` does, behind what was written to `writer`: early only where that isn't flushed.
    pub fn read_behind<W>(&mut self, writer: &Counted<W>, buf: &mut [u8]) -> io::Result<usize>
        ensures bound { ReadsAtMost result buf.new }
        ensures bytes { ReadConsumes (R.remaining self.old.inner) (R.remaining self.new.inner) result buf.new }
        ensures reads { self.new.reads ≡ one_more self.old.reads }
        ensures failures { self.new.failures ≡ one_more_if (read_failed result) self.old.failures }
        ensures least_room { self.new.least_room ≡ min self.old.least_room (length buf.old) }
        ensures early_reads { self.new.early_reads ≡ one_more_if writer.now.unflushed self.old.early_reads }
        ensures unflushed { self.new.unflushed ≡ self.old.unflushed }
    {
        let before = self.early_reads;
        let answer = self.read(buf);
        if !writer.unflushed {
            self.early_reads = before;
        }
        answer
    }
}

impl<W: Write> Counted<W> {
    /// Writes `buf` to the inner writer, and answers what that answers: the number of bytes of the front of `buf`
    /// that it took.
    pub fn write(&mut self, buf: &[u8]) -> io::Result<usize>
        ensures bound { WritesAtMost result buf.now }
        ensures bytes { WriteAppends (W.contents self.old.inner) (W.contents self.new.inner) result buf.now }
        ensures reads { self.new.reads ≡ self.old.reads }
        ensures failures { self.new.failures ≡ one_more_if (write_failed result buf.now) self.old.failures }
        ensures least_room { self.new.least_room ≡ self.old.least_room }
        ensures early_reads { self.new.early_reads ≡ self.old.early_reads }
        ensures unflushed { self.new.unflushed ≡ true }
    {
        self.unflushed = true;
        let answer = self.inner.write(buf);
        let failed = match &answer {
            Ok(taken) => *taken == 0 && !buf.is_empty(),
            Err(_) => true,
        };
        if failed {
            self.failures = self.failures.saturating_add(1);
        }
        answer
    }

    /// Flushes the inner writer, and answers what that answers.
    pub fn flush(&mut self) -> io::Result<()>
        ensures bytes { Keeps (W.contents self.old.inner) (W.contents self.new.inner) }
        ensures reads { self.new.reads ≡ self.old.reads }
        ensures failures { self.new.failures ≡ one_more_if (flush_failed result) self.old.failures }
        ensures least_room { self.new.least_room ≡ self.old.least_room }
        ensures early_reads { self.new.early_reads ≡ self.old.early_reads }
        ensures unflushed { self.new.unflushed ≡ (self.old.unflushed && flush_failed result) }
    {
        let answer = self.inner.flush();
        match &answer {
            Ok(()) => self.unflushed = false,
            Err(_) => self.failures = self.failures.saturating_add(1),
        }
        answer
    }
}
