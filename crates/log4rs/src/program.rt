//! Programs that log as a file says.

ghost use Rattle.std.specs.Prelude.{◌≡◌, IfErr, IfOk, IfSome, Ok, map};
ghost use Rattle.std.specs.List.{AllZip};
ghost use Rattle.log4rs_build.specs.FileErrors.{path_of};

use crate::backend::Backend;
use crate::begin::{PlainLogging, init};
use crate::facade::Facade;
use crate::origin::Origin;
use jiff::tz::TimeZone;
use log::{LevelFilter, Log, Logged};
use log4rs_append::Steps;
use log4rs_base::OutOfMemory;
use log4rs_base::filter::Filter;
use log4rs_build::FileError;
use log4rs_rolling::store::Store;
use log4rs_threads::{LoggerOf, ReportFault};
use std::alloc::Global;
use std::fs::Files;
use std::io::{Stderr, Stdout};
use std::rt::{Clock, Env};
use std::sync::Wait;
use std::thread::{self, Threads};

/// A program whose runtime logs.
pub trait Program: Drop {
    /// The program's result.
    type Answer;

    /// The promise about the result.
    ghost promises: { Self → Self.Answer → Type 0 } = { λ _ _. Unit {0} };

    /// Runs the program. Its macros of `log` take `rt`.
    fn run<R: Log>(self, rt: &R) -> Self::Answer
        ensures { promises self result };
}

/// Runs a program that logs by the configuration in the file at a path, and returns its result.
///
/// The file is read as `init` reads it, with the same reports and errors. While the program runs,
/// the file is read again at its `refresh_rate`, and the steps of rollings in the background are
/// made. Then appenders are flushed and rollings finished; what fails is reported with the name of
/// its appender. Records show the thread that runs the program.
pub fn with_file<X, P>(
    rt: X,
    alloc: Global,
    stdout: Stdout,
    stderr: Stderr,
    path: &str,
    program: P,
) -> Result<P::Answer, FileError>
where
    X: Files + Env + Clock + Threads + Wait + Eprint + Clone + Copy + Send + Sync + Drop + 'static,
    X::File: Send + 'static,
    X::Dir: Send + 'static,
    P: Program,
    ensures answer { IfOk result (P.promises program) }
    ensures path { IfErr result (λ fault. IfSome (path_of fault) (λ named. named ≡ path.now)) }
{
    let logging = init(rt, alloc, stdout, stderr, path)?;
    let answer = run(rt, alloc, logging.zone, &logging.logger, program);
    logging.end();
    match answer {
        Ok(answer) => Ok(answer),
        Err(OutOfMemory) => Err(FileError::Memory),
    }
}

/// Runs a program with a runtime that logs to a logger, in the calling thread.
fn run<L, X, P>(
    rt: X,
    alloc: Global,
    zone: TimeZone<'static>,
    logger: &L,
    program: P,
) -> Result<P::Answer, OutOfMemory>
where
    L: Backend,
    X: Files + Clock + Clone + Copy + Drop,
    P: Program,
    ensures { IfOk result (P.promises program) }
{
    let origin = Origin::here(&rt, alloc, zone)?;
    let facade = Facade::new(alloc, logger, rt, origin);
    Ok(program.run(&Logged::new(rt, LevelFilter::Trace, facade)))
}

/// Runs two programs at once, the first in a thread of its own.
fn run_both<A, F, H, X, P, Q>(
    rt: X,
    alloc: Global,
    zone: TimeZone<'static>,
    logger: &LoggerOf<A, F, H, X>,
    first: P,
    second: Q,
) -> Result<(P::Answer, Q::Answer), OutOfMemory>
where
    A: Steps + Send + Drop,
    F: Filter + Send + Sync + Drop,
    H: ReportFault + Send + Sync + Drop,
    X: Files + Clock + Threads + Wait + Eprint + Clone + Copy + Send + Sync + Drop,
    X::File: Send,
    X::Dir: Send,
    P: Program + Send,
    P::Answer: Send + Drop,
    Q: Program,
    Q::Answer: Drop,
    ensures first { IfOk result (λ answers. P.promises first answers.0) }
    ensures second { IfOk result (λ answers. Q.promises second answers.1) }
{
    let (first, second) = thread::join(
        &rt,
        || run(rt, alloc, zone, logger, first),
        || run(rt, alloc, zone, logger, second),
    );
    Ok((first?, second?))
}

/// Runs programs at once, each but the last in a thread of its own.
fn run_all<A, F, H, X, P>(
    rt: X,
    alloc: Global,
    zone: TimeZone<'static>,
    logger: &LoggerOf<A, F, H, X>,
    programs: Vec<P>,
) -> Result<Vec<P::Answer>, OutOfMemory>
where
    A: Steps + Send + Drop,
    F: Filter + Send + Sync + Drop,
    H: ReportFault + Send + Sync + Drop,
    X: Files + Clock + Threads + Wait + Eprint + Clone + Copy + Send + Sync + Drop,
    X::File: Send,
    X::Dir: Send,
    P: Program + Send,
    P::Answer: Send + Drop,
    ensures { IfOk result (λ answers. AllZip P.promises programs.items answers.items) }
{
    let run_one = |program: P| -> Result<P::Answer, OutOfMemory>
        ensures { IfOk result (P.promises program) }
    { run(rt, alloc, zone, logger, program) };
    let results = thread::map_vec(&rt, programs, &run_one)?;
    gathered(alloc, results)
}

/// Returns the answers, or the first failure.
fn gathered<T: Drop>(
    alloc: Global,
    results: Vec<Result<T, OutOfMemory>>,
) -> Result<Vec<T>, OutOfMemory>
    ensures { IfOk result (λ answers. map Ok answers.items ≡ results.items) }
{
    let mut answers = Vec::new(alloc);
    for result in results {
        answers.push(result?)?;
    }
    Ok(answers)
}

impl<S, X> PlainLogging<S, X>
where
    S: Store + Send + Drop,
    X: Files + Clock + Threads + Wait + Eprint + Clone + Copy + Send + Sync + Drop,
    X::File: Send,
    X::Dir: Send,
{
    /// Runs two programs at once, the first in a thread of its own, and returns their results. The
    /// records of each show the thread that runs it.
    pub fn join<P, Q>(&self, first: P, second: Q) -> Result<(P::Answer, Q::Answer), OutOfMemory>
    where
        P: Program + Send,
        P::Answer: Send + Drop,
        Q: Program,
        Q::Answer: Drop,
        ensures first { IfOk result (λ answers. P.promises first answers.0) }
        ensures second { IfOk result (λ answers. Q.promises second answers.1) }
    {
        run_both(self.rt, self.alloc, self.zone, &self.logger, first, second)
    }

    /// Runs any number of programs of one type at once, the last in the calling thread and each
    /// other in a thread of its own, and returns their results in the order of the programs. The
    /// records of each show the thread that runs it. Where the system starts no more threads, one
    /// thread runs several programs in turn. If an allocation fails, the results are dropped, and
    /// some programs may not have run.
    pub fn join_all<P>(&self, programs: Vec<P>) -> Result<Vec<P::Answer>, OutOfMemory>
    where
        P: Program + Send,
        P::Answer: Send + Drop,
        ensures { IfOk result (λ answers. AllZip P.promises programs.items answers.items) }
    {
        run_all(self.rt, self.alloc, self.zone, &self.logger, programs)
    }
}
