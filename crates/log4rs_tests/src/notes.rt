//! Components that note their calls.

use crate::setup::{RecordRow, context, named, record, root, string};
use log::LevelFilter;
use log4rs::append::{Append, Log, Steps};
use log4rs::config::runtime::BuildError;
use log4rs::config::runtime::config::ConfigOf;
use log4rs::filter::ThresholdFilter;
use log4rs::threads::ReportFault;
use log4rs::{Context, LogError, OutOfMemory, Record};
use std::alloc::Global;
use std::fmt::Display;
use std::io::{self, ErrorKind};
use std::mem;
use std::sync::{Arc, Mutex, Wait};

/// Logs the record of a row.
pub(crate) fn log<L: Log>(
    alloc: Global,
    logger: &mut L,
    row: RecordRow<'_>,
) -> Result<(), OutOfMemory> {
    let record = record(alloc, row)?;
    logger.log(&record, &context(alloc));
    Ok(())
}

/// Notes of components, in any thread.
#[derive(Drop)]
pub(crate) struct Notebook<W> {
    rt: W,
    text: Arc<Mutex<String>>,
}

impl<W: Clone + Drop> Notebook<W> {
    pub(crate) fn new(rt: W, alloc: Global) -> Result<Notebook<W>, OutOfMemory> {
        let text = Arc::new(alloc, Mutex::new(String::new(alloc)))?;
        Ok(Notebook { rt, text })
    }

    /// Returns the same notebook, for another component.
    pub(crate) fn share(&self) -> Result<Notebook<W>, OutOfMemory> {
        let rt = self.rt.clone()?;
        let text = Arc::try_clone(&self.text)?;
        Ok(Notebook { rt, text })
    }
}

impl<W: Wait> Notebook<W> {
    /// Notes a component and a text.
    pub(crate) fn note(&self, who: &str, what: &str) -> Result<(), OutOfMemory> {
        let mut text = self.text.lock(&self.rt);
        for part in [who, " ", what, "; "] {
            text.push_str(part)?;
        }
        Ok(())
    }

    /// Notes a printed line.
    fn print<D: Display + Drop>(&self, line: D) -> io::Result<()> {
        let mut text = self.text.lock(&self.rt);
        match write!(*text, "{line}; ") {
            Ok(()) => Ok(()),
            Err(_) => Err(io::Error::from(ErrorKind::OutOfMemory)),
        }
    }

    /// Removes and returns all notes.
    pub(crate) fn take(&self, alloc: Global) -> String {
        mem::replace(&mut *self.text.lock(&self.rt), String::new(alloc))
    }
}

/// A notebook is a handler: it notes the text of a fault that has one.
impl<W: Wait> ReportFault for Notebook<W> {
    fn report(&self, fault: &LogError) {
        let text = match fault {
            LogError::Custom(text) => text.as_str(),
            _ => "a fault",
        };
        let _ = self.note("told", text);
    }
}

/// A runtime that notes what is printed to standard error.
#[derive(Drop)]
pub(crate) struct Telling<W> {
    pub(crate) book: Notebook<W>,
}

impl<W: Wait> Wait for Telling<W> {}

impl<W: Wait> Eprint for Telling<W> {
    fn eprint<D: Display + Drop>(&self, value: D) -> io::Result<()> {
        self.book.print(value)
    }

    fn eprintln<D: Display + Drop>(&self, value: D) -> io::Result<()> {
        self.book.print(value)
    }
}

/// An appender that notes each message with its name, or fails with its name.
#[derive(Drop)]
pub(crate) struct Noter<W> {
    pub(crate) name: String,
    pub(crate) fails: bool,
    pub(crate) book: Notebook<W>,
}

impl<W: Wait> Append for Noter<W> {
    fn append(&mut self, record: &Record, _: &Context<'_>) -> Result<(), LogError> {
        if self.fails {
            return Err(LogError::Custom(self.name.clone()?));
        }
        self.book.note(&self.name, &record.message)?;
        Ok(())
    }

    fn append_retired(&mut self, record: &Record, context: &Context<'_>) -> Result<(), LogError> {
        self.append(record, context)
    }

    fn flush(&mut self) {
        let _ = self.book.note(&self.name, "flushed");
    }
}

impl<W: Wait> Steps for Noter<W> {
    fn step(&mut self) -> Result<bool, LogError> {
        Ok(false)
    }

    fn drive(&mut self) -> Result<(), LogError> {
        Ok(())
    }

    fn retire(&mut self) -> Result<(), LogError> {
        Ok(())
    }

    fn resume(&mut self) -> Result<(), LogError> {
        Ok(())
    }
}

/// The name of a noting appender, and whether it fails.
pub(crate) type NoterRow<'a> = (&'a str, bool);

pub(crate) fn noting<W: Clone + Drop>(
    alloc: Global,
    book: &Notebook<W>,
    row: NoterRow<'_>,
) -> Result<Noter<W>, OutOfMemory> {
    let (name, fails) = row;
    let name = string(alloc, name)?;
    Ok(Noter {
        name,
        fails,
        book: book.share()?,
    })
}

/// Builds a configuration of noting appenders and a root with this level that names the appenders
/// `names`.
pub(crate) fn configured<W: Wait + Clone + Drop>(
    alloc: Global,
    book: &Notebook<W>,
    level: LevelFilter,
    names: &str,
    rows: &[NoterRow<'_>],
) -> Result<ConfigOf<Noter<W>, ThresholdFilter>, BuildError> {
    let mut builder = ConfigOf::builder(alloc);
    for row in rows {
        builder = builder.appender(named(alloc, row.0, noting(alloc, book, *row)?)?)?;
    }
    builder.build(root(alloc, level, names)?)
}
