//! Standard streams that show styles.

ghost use Rattle.std.specs.Prelude.{◌≡◌, List, ℕ, OnOk, IfSome, is_some};
ghost use Rattle.std.specs.Io.{WritesAtMost};
ghost use Rattle.std.specs.Io.KnownBytes.{WriteAppends, Appends, Keeps};
ghost use Rattle.log4rs_encode.specs.Colors.{shows_color};
ghost use Rattle.log4rs_encode.specs.Streams.{stream_of, is_stdout, is_lent_stdout};
ghost use Rattle.log4rs_encode.specs.declared.writer.standard.StdWriter.TheVariants as streams;

use crate::styles::Style;
pub use crate::writer::color::ColorMode;
use crate::writer::{AnsiWriter, StdWriter, StdWriterLock, Write};
use std::io;
use std::io::{Stderr, Stdout};

/// Writes to a standard stream that shows styles.
#[derive(Debug, Drop)]
pub struct ConsoleWriter {
    writer: AnsiWriter<StdWriter>,
}

impl ConsoleWriter {
    /// Returns a writer to standard output, or `None` if that shows no styles. `tty` says whether
    /// it is a terminal.
    pub fn stdout(stream: Stdout, mode: ColorMode, tty: bool) -> Option<ConsoleWriter>
        ensures shown { is_some result ≡ shows_color mode tty }
        ensures stream { IfSome result (λ writer. stream_of writer ≡ streams.Stdout stream) }
    {
        ConsoleWriter::to(StdWriter::Stdout(stream), mode.shows(tty))
    }

    /// Returns a writer to standard error, or `None` if that shows no styles. `tty` says whether it
    /// is a terminal.
    pub fn stderr(stream: Stderr, mode: ColorMode, tty: bool) -> Option<ConsoleWriter>
        ensures shown { is_some result ≡ shows_color mode tty }
        ensures stream { IfSome result (λ writer. stream_of writer ≡ streams.Stderr stream) }
    {
        ConsoleWriter::to(StdWriter::Stderr(stream), mode.shows(tty))
    }

    fn to(stream: StdWriter, shows: bool) -> Option<ConsoleWriter>
        ensures shown { is_some result ≡ shows }
        ensures stream { IfSome result (λ writer. stream_of writer ≡ stream) }
    {
        if !shows {
            return None;
        }
        Some(ConsoleWriter {
            writer: AnsiWriter(stream),
        })
    }

    /// Lends a writer to the same stream, which shows styles.
    pub fn lock(&self) -> AnsiWriter<StdWriterLock>
        ensures { is_lent_stdout result.0 ≡ is_stdout (stream_of self.now) }
    {
        AnsiWriter(self.writer.0.lock())
    }
}

impl io::Write for ConsoleWriter {
    fn write(&mut self, buf: &[u8]) -> io::Result<usize> {
        self.writer.write(buf)
    }

    fn flush(&mut self) -> io::Result<()> {
        self.writer.flush()
    }

    fn write_all(&mut self, buf: &[u8]) -> io::Result<()> {
        self.writer.write_all(buf)
    }
}

impl Write for ConsoleWriter {
    fn set_style(&mut self, style: &Style) -> io::Result<()> {
        self.writer.set_style(style)
    }
}
