//! The command `file`: a run by the configuration in a file.

ghost use Rattle.std.specs.Prelude.{◌≡◌, ◌&&◌, ◌==◌, IfOk, OnOk, not, option_map, string_bytes};
ghost use Rattle.log4rs_encode.specs.Colors.{color_mode};
ghost use Rattle.log4rs_command.specs.Arguments.{plain_of};
ghost use Rattle.log4rs_command.specs.ByFile.{AsksFor, LogsFile};

use crate::arguments::Plain;
use crate::counting::Counting;
use crate::host::Host;
use crate::logging::log_lines;
use crate::losses::print_losses;
use crate::stop::Stop;
use jiff::Timestamp;
use jiff::tz::TimeZone;
use log4rs_base::filter::FilterOf;
use log4rs_build::{Absent, PlainAppender, PlainFile, Surroundings};
use log4rs_encode::writer::ColorMode;
use log4rs_rolling::StoreMaker;
use log4rs_settings::ConfigSource;
use log4rs_threads::{LoggingOf, NoHandler};
use rand_core::Rng;
use std::alloc::Global;
use std::io::{BufRead, Write};
use std::rt::Clock;
use std::sync::Wait;
use std::thread::Threads;

/// The source of a configuration's text, and the maker of its appenders' stores.
#[derive(Drop)]
pub struct FileAccess<S, M> {
    /// The source of the text.
    pub source: S,
    /// Makes the stores.
    pub maker: M,
}

/// The logger of a run over stores `Z`, with the threads beside it.
type RunLogging<Z, X> = LoggingOf<PlainAppender<Z>, FilterOf<Absent>, NoHandler, X>;

/// Returns the surroundings of a configuration: the environment and the terminals of the run, the
/// moment of the clock, and UTC.
fn surroundings<C: Clock, G, X>(host: &Host<C, G, X>) -> Result<Surroundings<'static>, Stop>
    ensures color { IfOk result (λ around. around.color ≡ color_mode host.now.env) }
    ensures stdout { IfOk result
        (λ around. around.stdout_tty ≡ host.now.is_terminal) }
    ensures stderr { IfOk result
        (λ around. around.stderr_tty ≡ host.now.is_terminal) }
{
    Ok(Surroundings {
        env: host.env.clone()?,
        moment: Timestamp::now(&host.clock)?,
        zone: TimeZone::UTC,
        color: ColorMode::from_env(&host.env),
        stdout: host.stdout,
        stdout_tty: host.is_terminal,
        stderr: host.stderr,
        stderr_tty: host.is_terminal,
    })
}

/// Loads the configuration of a file, prints its faults, creates its logger, and starts the threads
/// beside it. Returns the logger with these, and whether an appender was left out.
fn begin<S, M, X>(
    rt: X,
    alloc: Global,
    file: PlainFile<S, M>,
) -> Result<(RunLogging<M::Made, X>, bool), Stop>
where
    S: ConfigSource + Send + Drop + 'static,
    M: StoreMaker + Send + Drop + 'static,
    M::Made: Send + Drop + 'static,
    X: Threads + Wait + Eprint + Clock + Clone + Copy + Send + Sync + Drop + 'static,
    ensures { OnOk result (AsksFor (string_bytes file.path) (S.answers file.source)) }
{
    let begun = file.begin(rt)?;
    let logging = LoggingOf::start(rt, alloc, begun.config, begun.steps, begun.rereading)?;
    Ok((logging, begun.left_out))
}

/// Returns whether a run was well: each line became a record, no appender failed at the end, and
/// none was left out.
fn is_well(all_read: bool, failed: usize, has_left_out: bool) -> bool
    ensures { result ≡ (all_read && (failed == 0) && not has_left_out) }
{
    all_read && failed == 0 && !has_left_out
}

/// Logs the records of the input by the configuration that the text of a source asks for; lines
/// that tell of none become records as `plain` says. Beside it a thread makes the steps of rollings
/// in the background, and another reads the text again if it has a `refresh_rate`. At the end of
/// input finishes the rollings, and prints on `err` how many appends of each appender failed.
/// Returns whether each line became a record, no rolling failed at the end, and no appender was
/// left out at the start.
pub fn log_by_file<S, M, C, G, X, R, W>(
    path: &str,
    plain: Option<Plain<'_>>,
    access: FileAccess<S, M>,
    host: &mut Host<C, G, X>,
    input: &mut R,
    err: &mut W,
) -> Result<bool, Stop>
where
    S: ConfigSource + Send + Drop + 'static,
    M: StoreMaker + Send + Drop + 'static,
    M::Made: Send + Drop + 'static,
    C: Clock,
    G: Rng,
    X: Threads + Wait + Eprint + Clock + Clone + Copy + Send + Sync + Drop + 'static,
    R: BufRead,
    W: Write,
    ensures { IfOk result (LogsFile path.now (option_map plain_of plain.entry)
        (S.answers access.source) (R.remaining input.old)) }
{
    let around = surroundings(host)?;
    let FileAccess { source, maker } = access;
    let file = PlainFile::plain(host.alloc, path, source, maker, around)?;
    let (logging, has_left_out) = begin(host.files, host.alloc, file)?;
    let mut counting = Counting::new(host.alloc, logging.logger);
    let logged = log_lines(&mut counting, host, plain, input, err);
    let failed = logging.workers.end();
    print_losses(counting.losses(), err)?;
    let seen = logged?;
    Ok(is_well(seen.all_read, failed, has_left_out))
}
