//! A reader that asks before it reads.
ghost use Rattle.std.specs.Prelude.{◌≡◌};

use itoa::Buffer;
use std::io::{self, Read, Write};

/// A reader that writes a prompt before each read, with the number of the line to come, and ends the prompt's line
/// where the text ends. A fault of the writer is none of the reader's, and stays untold.
#[derive(Drop)]
pub(crate) struct Prompting<R, W> {
    reader: R,
    writer: W,
    /// How many lines have ended.
    lines: u64,
}

impl<R: Read, W: Write> Prompting<R, W> {
    /// The reader, behind prompts that go to the writer.
    pub(crate) fn new(reader: R, writer: W) -> Prompting<R, W> {
        Prompting {
            reader,
            writer,
            lines: 0,
        }
    }

    /// Writes the prompt.
    fn ask(&mut self)
        ensures { self.new.reader ≡ self.old.reader }
    {
        let mut number = Buffer::new();
        let next = self.lines.saturating_add(1);
        let _ = self.writer.write(number.format(next).as_bytes());
        let _ = self.writer.write(b"> ");
        let _ = self.writer.flush();
    }

    /// Counts the lines of what was read, and ends the prompt's line where that is nothing.
    fn take_in(&mut self, read: &[u8])
        ensures { self.new.reader ≡ self.old.reader }
    {
        if read.is_empty() {
            let _ = self.writer.write(b"\n");
            let _ = self.writer.flush();
        }
        for byte in read {
            if *byte == b'\n' {
                self.lines = self.lines.saturating_add(1);
            }
        }
    }
}

impl<R: Read, W: Write> Read for Prompting<R, W> {
    ghost remaining = { λ p. R.remaining p.reader };

    fn read(&mut self, buf: &mut [u8]) -> io::Result<usize> {
        self.ask();
        let answer = self.reader.read(buf);
        if let Ok(taken) = &answer {
            self.take_in(&buf[..*taken]);
        }
        answer
    }
}
