//! Appenders that get a record or are flushed, and handlers that get a fault, while another thread
//! logs and changes their logger. They wait until the change is done.

use crate::notes::Notebook;
use crate::setup::{context, logger, named, record, root, same};
use crate::shared::{Signals, is_set};
use log::{Level, LevelFilter};
use log4rs::append::{Append, Steps};
use log4rs::config::runtime::BuildError;
use log4rs::config::runtime::appender::Filtered;
use log4rs::config::runtime::config::ConfigOf;
use log4rs::filter::ThresholdFilter;
use log4rs::threads::{LoggerOf, ReportFault};
use log4rs::{Context, LogError, OutOfMemory, Record};
use std::alloc::{AllocError, Global};
use std::fmt::Display;
use std::rt::Clock;
use std::sync::atomic::{AtomicBool, Ordering};
use std::sync::{Arc, Wait};
use std::test::Fail;
use std::thread::Threads;
use std::{io, thread};

/// A runtime that cannot be cloned while memory is short.
#[derive(Drop)]
struct Scarce<W> {
    rt: W,
    is_short: Arc<AtomicBool>,
}

impl<W: Wait> Wait for Scarce<W> {}

impl<W: Eprint> Eprint for Scarce<W> {
    fn eprint<D: Display + Drop>(&self, value: D) -> io::Result<()> {
        self.rt.eprint(value)
    }

    fn eprintln<D: Display + Drop>(&self, value: D) -> io::Result<()> {
        self.rt.eprintln(value)
    }
}

impl<W: Clone + Drop> Clone for Scarce<W> {
    fn clone(&self) -> Result<Scarce<W>, AllocError> {
        if self.is_short.load(Ordering::SeqCst) {
            return Err(AllocError);
        }
        let rt = self.rt.clone()?;
        let is_short = Arc::try_clone(&self.is_short)?;
        Ok(Scarce { rt, is_short })
    }
}

/// A handler and an appender of two. Where it gets a fault, is flushed or waits, it signals this and
/// waits until the other thread is done.
#[derive(Drop)]
struct Asking<W> {
    rt: W,
    name: &'static str,
    /// What an append does: `fails`, `waits`, or notes the message alone.
    how: &'static str,
    signals: Arc<Signals>,
    book: Notebook<W>,
}

impl<W: Wait + Clock> Asking<W> {
    fn ask(&self, who: &str) {
        self.signals.began.store(true, Ordering::SeqCst);
        let is_answered = is_set(&self.rt, &self.signals.answered);
        let _ = self
            .book
            .note(who, if is_answered { "in time" } else { "too late" });
    }
}

impl<W: Wait + Clock> ReportFault for Asking<W> {
    fn report(&self, _: &LogError) {
        self.ask("told");
    }
}

impl<W: Wait + Clock> Append for Asking<W> {
    fn append(&mut self, record: &Record, _: &Context<'_>) -> Result<(), LogError> {
        match self.how {
            "fails" => return Err(LogError::Policy),
            "waits" => self.ask("waits"),
            _ => (),
        }
        self.book.note(self.name, &record.message)?;
        Ok(())
    }

    fn append_retired(&mut self, record: &Record, context: &Context<'_>) -> Result<(), LogError> {
        self.append(record, context)
    }

    fn flush(&mut self) {
        if self.name == "a" {
            self.ask("flushed");
        }
    }
}

impl<W: Wait + Clock> Steps for Asking<W> {
    fn step(&mut self) -> Result<bool, LogError> {
        Ok(false)
    }

    fn drive(&mut self) -> Result<(), LogError> {
        Ok(())
    }

    fn retire(&mut self) -> Result<(), LogError> {
        self.book.note(self.name, "retired")?;
        Ok(())
    }

    fn resume(&mut self) -> Result<(), LogError> {
        Ok(())
    }
}

type AskingLogger<W> = LoggerOf<Asking<W>, ThresholdFilter, Asking<W>, Scarce<W>>;

/// The state that the threads of a case share.
#[derive(Drop)]
struct Scene<W> {
    rt: W,
    alloc: Global,
    book: Notebook<W>,
    signals: Arc<Signals>,
    is_short: Arc<AtomicBool>,
}

impl<W: Wait + Clock + Eprint + Clone + Drop> Scene<W> {
    fn new(rt: W, alloc: Global) -> Result<Scene<W>, OutOfMemory> {
        let book = Notebook::new(rt.clone()?, alloc)?;
        let signals = Signals::new(alloc)?;
        Ok(Scene {
            rt,
            alloc,
            book,
            signals,
            is_short: Arc::new(alloc, AtomicBool::new(false))?,
        })
    }

    fn asking(&self, name: &'static str, how: &'static str) -> Result<Asking<W>, OutOfMemory> {
        let rt = self.rt.clone()?;
        let signals = Arc::try_clone(&self.signals)?;
        Ok(Asking {
            rt,
            name,
            how,
            signals,
            book: self.book.share()?,
        })
    }

    /// Returns an appender under its name.
    fn appender(
        &self,
        name: &'static str,
        how: &'static str,
    ) -> Result<Filtered<Asking<W>, ThresholdFilter>, OutOfMemory> {
        named(self.alloc, name, self.asking(name, how)?)
    }

    /// Builds a configuration with the appenders `a` and `b`, each with a logger of its name.
    fn config(
        &self,
        how: &'static str,
    ) -> Result<ConfigOf<Asking<W>, ThresholdFilter>, BuildError> {
        let alloc = self.alloc;
        let builder = ConfigOf::builder(alloc).appender(self.appender("a", how)?)?;
        let builder = builder.appender(self.appender("b", "notes")?)?;
        let builder = builder.logger(logger(alloc, "a")?)?;
        let builder = builder.logger(logger(alloc, "b")?)?;
        builder.build(root(alloc, LevelFilter::Off, "")?)
    }

    /// Returns a logger whose appender `a` does this with a record.
    fn logger(&self, how: &'static str) -> Result<AskingLogger<W>, BuildError> {
        let config = self.config(how)?;
        let handler = Some(self.asking("", "")?);
        let rt = self.rt.clone()?;
        let is_short = Arc::try_clone(&self.is_short)?;
        let rt = Scarce { rt, is_short };
        Ok(LoggerOf::with_handler(rt, self.alloc, config, handler)?)
    }

    /// Logs a record to an appender.
    fn log(&self, logger: &AskingLogger<W>, name: &str, message: &str) -> Result<(), OutOfMemory> {
        let record = record(self.alloc, (Level::Info, name, message))?;
        logger.log(&record, &context(self.alloc));
        Ok(())
    }

    /// Flushes, or logs a record, with memory short if `case` is `memory`.
    fn call(&self, logger: &AskingLogger<W>, case: &str) -> Result<(), OutOfMemory> {
        if case == "flush" {
            logger.flush();
            return Ok(());
        }
        self.is_short.store(case == "memory", Ordering::SeqCst);
        self.log(logger, "a", "one")
    }

    /// Waits for the other thread's signal, ends the shortage of memory, logs to the other appender,
    /// sets levels, swaps the configuration and logs.
    fn change(&self, logger: &AskingLogger<W>) -> Result<(), BuildError> {
        if !is_set(&self.rt, &self.signals.began) {
            return Ok(());
        }
        self.is_short.store(false, Ordering::SeqCst);
        self.log(logger, "b", "beside")?;
        self.swap(logger)?;
        self.log(logger, "a", "two")?;
        self.signals.answered.store(true, Ordering::SeqCst);
        Ok(())
    }

    /// Sets levels, and swaps the configuration.
    fn swap(&self, logger: &AskingLogger<W>) -> Result<(), BuildError> {
        let handle = logger.handle()?;
        handle.set_level("app", LevelFilter::Debug)?;
        handle.set_root_level(LevelFilter::Info)?;
        handle.set_config(self.config("notes")?)?;
        Ok(())
    }
}

/// Calls the logger in one thread, and changes it in another meanwhile.
fn call_beside<W>(scene: &Scene<W>, logger: &AskingLogger<W>, case: &str) -> Result<(), BuildError>
where
    W: Threads + Wait + Clock + Eprint + Clone + Send + Sync + Drop,
{
    let (called, changed) = thread::join(
        &scene.rt,
        || scene.call(logger, case),
        || scene.change(logger),
    );
    called?;
    changed
}

/// The call, what an append of `a` does, and what is noted of both threads, of a record after the
/// change, and of a step. An appender that is in use when the configuration is swapped is retired
/// by the step.
const CASES: &str = "\
append|fails|b beside; a retired; b retired; a two; told in time; a three;
memory|fails|b beside; a retired; b retired; a two; told in time; a three;
flush|fails|b beside; b retired; a two; flushed in time; a three; a retired;
wait|waits|b beside; b retired; a two; waits in time; a one; a three; a retired;";

#[test]
fn a_change_waits_for_no_append_no_handler_and_no_flush(rt: HostRuntime) -> Result<(), Fail> {
    for row in CASES.lines() {
        let (case, rest) = row.split_once('|').unwrap_or_default();
        let (how, expected) = rest.split_once('|').unwrap_or_default();
        let scene = Scene::new(rt, rt.alloc())?;
        let logger = scene.logger(how)?;
        call_beside(&scene, &logger, case)?;
        scene.log(&logger, "a", "three")?;
        assert_eq!(rt; logger.step_all(), 0);
        same(
            &rt,
            scene.book.take(rt.alloc()).as_str().trim_end(),
            expected,
        );
    }
    Ok(())
}
