//! A reader and a writer that note why they failed.
use std::io::{self, ErrorKind, Read, Write};

/// A reader or a writer, and why the last of its calls that failed did so. A call that succeeds later doesn't clear it.
#[derive(Drop)]
pub(crate) struct Noting<T> {
    inner: T,
    why: Option<ErrorKind>,
}

impl<T> Noting<T> {
    /// Around a reader or a writer, before any call.
    pub(crate) fn new(inner: T) -> Noting<T> {
        Noting { inner, why: None }
    }

    /// Why the last call that failed did; `None` where none has failed yet.
    pub(crate) fn why(&self) -> Option<ErrorKind> {
        self.why
    }
}

impl<R: Read> Read for Noting<R> {
    ghost remaining = { λ n. R.remaining n.inner };

    fn read(&mut self, buf: &mut [u8]) -> io::Result<usize> {
        let answer = self.inner.read(buf);
        if let Err(error) = &answer {
            self.why = Some(error.kind());
        }
        answer
    }
}

impl<W: Write> Write for Noting<W> {
    ghost contents = { λ n. W.contents n.inner };

    fn write(&mut self, buf: &[u8]) -> io::Result<usize> {
        let answer = self.inner.write(buf);
        if let Err(error) = &answer {
            self.why = Some(error.kind());
        }
        answer
    }

    fn flush(&mut self) -> io::Result<()> {
        let answer = self.inner.flush();
        if let Err(error) = &answer {
            self.why = Some(error.kind());
        }
        answer
    }
}
