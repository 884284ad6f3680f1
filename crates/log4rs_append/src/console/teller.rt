//! Causes of consoles' faults.

use log4rs_base::print::{Counted, left_out, write_line};
use log4rs_encode::writer::StdWriter;
use std::fmt::{self, Display, Formatter};
use std::io::{self, Stderr};

/// Prints why the system refuses a console's writes and flushes: a cause once, until there is
/// another one or a text was written.
#[derive(Drop)]
pub(crate) struct Teller {
    err: Option<Stderr>,
    /// The system's number of the last cause, unless a text was written since.
    last: Option<Option<i32>>,
    news: u64,
}

impl Teller {
    /// Returns a teller that prints nothing.
    pub(crate) fn silent() -> Teller {
        Teller {
            err: None,
            last: None,
            news: 0,
        }
    }

    /// Prints to a stream from now on.
    pub(crate) fn print_to(&mut self, err: Stderr) {
        self.err = Some(err);
    }

    /// Notes that a text was written.
    pub(crate) fn clear(&mut self) {
        self.last = None;
    }

    /// Notes that a stream was refused for a cause.
    pub(crate) fn tell(&mut self, stream: &StdWriter, cause: &io::Error) {
        let number = cause.raw_os_error();
        if self.last == Some(number) {
            return;
        }
        self.last = Some(number);
        self.news = self.news.saturating_add(1);
        let (Some(err), Some(left_out)) = (&mut self.err, left_out(self.news)) else {
            return;
        };
        let fault = &ConsoleFault { stream, cause };
        write_line(err, &Counted { left_out, fault });
    }
}

/// Why a stream was refused.
#[derive(Drop)]
struct ConsoleFault<'a> {
    stream: &'a StdWriter,
    cause: &'a io::Error,
}

impl Display for ConsoleFault<'_> {
    fn fmt<W: fmt::Write>(&self, f: &mut Formatter<W>) -> fmt::Result {
        let name = match self.stream {
            StdWriter::Stdout(_) => "standard output",
            StdWriter::Stderr(_) => "standard error",
        };
        write!(f, "{name}: {}", self.cause)
    }
}
