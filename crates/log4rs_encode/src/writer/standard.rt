//! Writers to the standard streams.

ghost use Rattle.std.specs.Prelude.{◌≡◌};
ghost use Rattle.std.specs.Io.{WritesAtMost};
ghost use Rattle.std.specs.Io.KnownBytes.{WriteAppends, Appends, Keeps};
ghost use Rattle.log4rs_encode.specs.Streams.{is_stdout, is_lent_stdout};
ghost use Rattle.log4rs_encode.specs.declared.writer.standard.StdWriter.TheVariants as streams;

use std::io;
use std::io::{Lock, Stderr, StderrLock, Stdout, StdoutLock};

/// Standard output or standard error.
#[derive(Clone, Copy, Debug)]
pub enum StdWriter {
    /// Standard output.
    Stdout(Stdout),
    /// Standard error.
    Stderr(Stderr),
}

impl StdWriter {
    /// Returns a writer to standard output.
    pub fn stdout(stream: Stdout) -> StdWriter
        ensures { result ≡ streams.Stdout stream }
    {
        StdWriter::Stdout(stream)
    }

    /// Returns a writer to standard error.
    pub fn stderr(stream: Stderr) -> StdWriter
        ensures { result ≡ streams.Stderr stream }
    {
        StdWriter::Stderr(stream)
    }

    /// Lends a writer to the same stream.
    pub fn lock(&self) -> StdWriterLock
        ensures { is_lent_stdout result ≡ is_stdout self.now }
    {
        match self {
            StdWriter::Stdout(stream) => StdWriterLock::Stdout(stream.lock()),
            StdWriter::Stderr(stream) => StdWriterLock::Stderr(stream.lock()),
        }
    }
}

impl io::Write for StdWriter {
    fn write(&mut self, buf: &[u8]) -> io::Result<usize> {
        match self {
            StdWriter::Stdout(stream) => stream.write(buf),
            StdWriter::Stderr(stream) => stream.write(buf),
        }
    }

    fn flush(&mut self) -> io::Result<()> {
        match self {
            StdWriter::Stdout(stream) => stream.flush(),
            StdWriter::Stderr(stream) => stream.flush(),
        }
    }

    fn write_all(&mut self, buf: &[u8]) -> io::Result<()> {
        match self {
            StdWriter::Stdout(stream) => stream.write_all(buf),
            StdWriter::Stderr(stream) => stream.write_all(buf),
        }
    }
}

/// A writer that a `StdWriter` lends.
#[derive(Debug, Drop)]
pub enum StdWriterLock {
    /// Standard output.
    Stdout(StdoutLock<'static>),
    /// Standard error.
    Stderr(StderrLock<'static>),
}

impl io::Write for StdWriterLock {
    fn write(&mut self, buf: &[u8]) -> io::Result<usize> {
        match self {
            StdWriterLock::Stdout(stream) => stream.write(buf),
            StdWriterLock::Stderr(stream) => stream.write(buf),
        }
    }

    fn flush(&mut self) -> io::Result<()> {
        match self {
            StdWriterLock::Stdout(stream) => stream.flush(),
            StdWriterLock::Stderr(stream) => stream.flush(),
        }
    }

    fn write_all(&mut self, buf: &[u8]) -> io::Result<()> {
        match self {
            StdWriterLock::Stdout(stream) => stream.write_all(buf),
            StdWriterLock::Stderr(stream) => stream.write_all(buf),
        }
    }
}
