//! A logger by the configuration in a file, with its workers.

ghost use Rattle.std.specs.Prelude.{◌≡◌, IfErr, IfOk, IfSome, string_bytes};
ghost use Rattle.log4rs_build.specs.FileErrors.{path_of};

use crate::facade::{Facade, now};
use crate::origin::Origin;
use jiff::tz::TimeZone;
use log4rs_append::Steps;
use log4rs_base::OutOfMemory;
use log4rs_base::filter::{Filter, FilterOf};
use log4rs_base::print::print_fault;
use log4rs_build::environment::{environment, is_terminal};
use log4rs_build::{
    Absent, FileError, FileStore, PlainAppender, PlainFile, Surroundings, file_store_maker,
    system_zone,
};
use log4rs_encode::writer::ColorMode;
use log4rs_rolling::StoreMaker;
use log4rs_settings::{ConfigSource, FileSource};
use log4rs_threads::{
    HandleOf, LoggerOf, LoggingOf, NoHandler, ReportFault, WorkersError, WorkersOf,
};
use std::alloc::Global;
use std::fs::Files;
use std::io::{IsTerminal, Stderr, Stdout};
use std::rt::{Clock, Env};
use std::sync::Wait;
use std::thread::Threads;

/// A logger over real files, which threads share.
pub type FileLogger<X> = LoggerOf<PlainAppender<FileStore<X>>, FilterOf<Absent>, NoHandler, X>;

/// The handle of such a logger.
pub type FileHandle<X> = HandleOf<PlainAppender<FileStore<X>>, FilterOf<Absent>, NoHandler, X>;

/// The threads that work beside such a logger.
pub type FileWorkers<X> = WorkersOf<PlainAppender<FileStore<X>>, FilterOf<Absent>, NoHandler, X>;

/// A logger by the configuration in a file, its handle, and its threads: one reads the file again,
/// if it has a `refresh_rate`, and one makes the steps of rollings in the background, if there may
/// be some. Call `end` at last.
#[derive(Drop)]
pub struct FileLoggingOf<A, F, H, X> {
    /// The logger.
    pub logger: LoggerOf<A, F, H, X>,
    /// Swaps its configuration and sets its levels.
    pub handle: HandleOf<A, F, H, X>,
    /// The threads beside it.
    pub workers: WorkersOf<A, F, H, X>,
    /// The system's time zone, in which times are shown.
    pub zone: TimeZone<'static>,
    pub(crate) rt: X,
    pub(crate) alloc: Global,
}

/// A logger over stores `S` by the configuration in a file, with its threads.
pub type PlainLogging<S, X> = FileLoggingOf<PlainAppender<S>, FilterOf<Absent>, NoHandler, X>;

/// A logger over real files by the configuration in a file, with its threads.
pub type FileLogging<X> = PlainLogging<FileStore<X>, X>;

impl<A, F, H, X> FileLoggingOf<A, F, H, X>
where
    A: Steps + Drop,
    F: Filter + Drop,
    H: ReportFault + Drop,
    X: Files + Clock + Threads + Wait + Eprint + Clone + Copy + Drop,
{
    /// Returns the facade for the macros of `log` in the calling thread.
    pub fn facade<'a>(&'a self) -> Result<Facade<'a, &'a LoggerOf<A, F, H, X>, X>, OutOfMemory>
        ensures { IfOk result (λ facade. facade.origin.zone ≡ self.now.zone) }
    {
        let origin: Origin<'a> = Origin::here(&self.rt, self.alloc, self.zone)?;
        Ok(Facade::new(self.alloc, &self.logger, self.rt, origin))
    }

    /// Ends the threads, flushes each appender, and finishes rollings. Reports each fault, and for
    /// each appender in force how many of its appends failed. Returns how many appenders failed.
    pub fn end(self) -> usize {
        let failed = self.workers.end();
        self.logger.report_losses();
        failed
    }
}

/// Starts logging by the configuration in a file. The extension of the path names its format:
/// `toml` or `json`.
///
/// If the file has a `refresh_rate`, it is read again at that rate, and a changed configuration is
/// swapped in. If it rolls in the background, the steps of the rollings are made. Each is the work
/// of a thread, which is started only if it has work.
///
/// What has a fault is left out, and each fault and warning is printed to standard error, on a line
/// behind `log4rs: `. So is each error of the system about a log file, with its path and cause:
/// once, until it changes or the operation works. Paths may name variables of the environment;
/// entries that are not UTF-8 are left out. Times are shown in the system's zone, or in UTC if that
/// cannot be read, which is printed. The times in paths are those of the reading, or of the
/// beginning of 1970 if the clock cannot be read. Standard output and standard error are
/// terminals where the system says so, and both are if the variable `LOG4RS_TTY` is `1`.
///
/// Fails if the file cannot be read or is no configuration, with its path and the cause, if no
/// thread can be started, and if an allocation fails.
pub fn init<X>(
    rt: X,
    alloc: Global,
    stdout: Stdout,
    stderr: Stderr,
    path: &str,
) -> Result<FileLogging<X>, FileError>
where
    X: Files + Env + Clock + Threads + Wait + Eprint + Clone + Copy + Send + Sync + Drop + 'static,
    X::File: Send + 'static,
    X::Dir: Send + 'static,
    ensures { IfErr result (λ fault. IfSome (path_of fault) (λ named. named ≡ path.now)) }
{
    let around = surroundings(&rt, alloc, stdout, stderr)?;
    let source = FileSource::new(alloc, rt, String::from_str(alloc, path)?);
    let maker = file_store_maker(rt, alloc)?;
    let file = PlainFile::plain(alloc, path, source, maker, around)?;
    begin(rt, alloc, file)
}

/// Loads the configuration of a file and prints its faults, creates its logger, and starts the work
/// beside it.
fn begin<X, S, M>(
    rt: X,
    alloc: Global,
    file: PlainFile<S, M>,
) -> Result<PlainLogging<M::Made, X>, FileError>
where
    X: Clock + Threads + Wait + Eprint + Clone + Copy + Send + Sync + Drop + 'static,
    S: ConfigSource + Send + Drop + 'static,
    M: StoreMaker + Send + Drop + 'static,
    M::Made: Send + Drop + 'static,
    ensures { IfErr result (λ fault. IfSome (path_of fault)
        (λ named. named ≡ string_bytes file.path)) }
{
    let zone = file.surroundings.zone;
    let begun = file.begin(rt)?;
    let logging = match LoggingOf::start(rt, alloc, begun.config, begun.steps, begun.rereading) {
        Ok(logging) => logging,
        Err(WorkersError::Memory) => return Err(FileError::Memory),
        Err(WorkersError::Thread) => return Err(FileError::Thread),
    };
    Ok(FileLoggingOf {
        logger: logging.logger,
        handle: logging.handle,
        workers: logging.workers,
        zone,
        rt,
        alloc,
    })
}

/// Reads the surroundings of a process. Prints to standard error if its time zone cannot be read.
fn surroundings<X: Env + Files + Clock + Eprint>(
    rt: &X,
    alloc: Global,
    stdout: Stdout,
    stderr: Stderr,
) -> Result<Surroundings<'static>, OutOfMemory> {
    let env = environment(rt, alloc)?;
    let system = system_zone(rt, alloc)?;
    if let Some(fault) = &system.fault {
        print_fault(rt, fault);
    }
    let both = is_terminal(&env);
    Ok(Surroundings {
        color: ColorMode::from_env(&env),
        env,
        moment: now(rt),
        zone: system.zone,
        stdout,
        stdout_tty: both || stdout.is_terminal(),
        stderr,
        stderr_tty: both || stderr.is_terminal(),
    })
}
