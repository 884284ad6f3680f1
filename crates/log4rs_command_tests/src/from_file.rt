//! Loggers configured by a real file, and rereading it.

use crate::file_runs::{folder, path_in};
use crate::world::same;
use jiff::Timestamp;
use jiff::tz::TimeZone;
use log::{Level, LevelFilter, Log, info};
use log4rs::append::Append;
use log4rs::filter::Filter;
use log4rs::threads::{LoadedOf, LoggerOf, ReportFault};
use log4rs::{Context, OutOfMemory, Program, Record, init, system_zone, with_file};
use std::alloc::Global;
use std::sync::Wait;
use std::test::Fail;
use std::time::Duration;
use std::{fs, thread};

/// Writes the configuration file of a folder, which is `FOLDER` in its text. Returns its path.
fn configure(rt: &HostRuntime, folder: &str, text: &str) -> Result<String, Fail> {
    let path = path_in(rt, folder, "log4rs.toml")?;
    let text = text.replace(rt.alloc(), "FOLDER", folder)?;
    fs::write(rt, path.as_str(), text.as_str())?;
    Ok(path)
}

/// Returns the texts of files, with a bar after each.
pub(crate) fn held(rt: &HostRuntime, folder: &str, names: &str) -> Result<String, Fail> {
    let mut all = String::new(rt.alloc());
    for name in names.split_whitespace() {
        let path = path_in(rt, folder, name)?;
        all.push_str(fs::read_to_string(rt, path.as_str())?.as_str())?;
        all.push('|')?;
    }
    Ok(all)
}

/// Waits until the configuration with this level is active, at most about ten seconds.
fn wait_for<A: Append, F: Filter, H, W: Wait>(
    rt: &HostRuntime,
    logger: &LoggerOf<A, F, H, W>,
    level: LevelFilter,
) -> Result<(), Fail> {
    for _ in 0..1000 {
        if logger.max_log_level() == level {
            return Ok(());
        }
        thread::sleep(rt, Duration::from_millis(10));
    }
    Err(Fail::new("the configuration is not in force"))
}

/// Logs three records and returns 7.
#[derive(Drop)]
struct Three;

impl Program for Three {
    type Answer = u8;

    fn run<R: Log>(self, rt: &R) -> u8 {
        for number in ["one", "two", "three"] {
            info!(rt; "{number}");
        }
        7
    }
}

/// A file that is rolled in the background after each record and shows local time, and one whose
/// name is the year.
const ROLLED: &str = "refresh_rate = '1 hour'
root = { level = 'info', appenders = ['f', 'dated'] }
[appenders.dated]
kind = 'file'
path = 'FOLDER/$TIME{%Y}'
encoder.pattern = '{l} {m};'
[appenders.f]
kind = 'rolling_file'
path = 'FOLDER/f'
encoder.pattern = '{d(%:z)(local)} {m}'
policy.trigger = { kind = 'size', limit = 5 }
policy.roller = { kind = 'fixed_window', pattern = 'FOLDER/f.{}', count = 9, background = true }
";

/// Returns the expected texts of the archives of `ROLLED`, the oldest first, and of the dated file,
/// whose name is the current year, after a bar.
fn expected(rt: &HostRuntime) -> Result<(String, String), Fail> {
    let zone = system_zone(rt, rt.alloc())?.zone;
    let now = Timestamp::now(rt)?.to_zoned(zone);
    let offset = now.strftime(rt.alloc(), "%:z")?;
    let texts = format!(in rt.alloc();
        "{offset} one|{offset} two|{offset} three|INFO one;INFO two;INFO three;|"
    )?;
    let names = format!(in rt.alloc(); "f.2 f.1 f.0 {}", now.strftime(rt.alloc(), "%Y")?)?;
    Ok((names, texts))
}

#[test]
fn a_program_logs_as_a_file_says(rt: HostRuntime) -> Result<(), Fail> {
    let folder = folder(&rt, "with_file")?;
    let folder = folder.as_str();
    let path = configure(&rt, folder, ROLLED)?;
    let path = path.as_str();
    let answer = with_file(rt, rt.alloc(), rt.stdout(), rt.stderr(), path, Three)?;
    assert_eq!(rt; answer, 7);
    let (names, texts) = expected(&rt)?;
    same(
        &rt,
        held(&rt, folder, names.as_str())?.as_str(),
        texts.as_str(),
    );
    let waiting = path_in(&rt, folder, "f.rolling")?;
    assert!(rt; fs::metadata(&rt, waiting.as_str()).is_err());
    fs::remove_dir_all(&rt, folder)?;
    Ok(())
}

/// A file that is truncated when it is opened, and one that is rolled in the background, with its
/// level, pattern and name.
const CHANGED: &str = "refresh_rate = '10ms'
root = { level = 'LEVEL', appenders = ['e', 'f'] }
[appenders.e]
kind = 'file'
path = 'FOLDER/e'
append = false
encoder.pattern = '{m};'
[appenders.f]
kind = 'rolling_file'
path = 'FOLDER/NAME'
encoder.pattern = 'PATTERN'
policy.trigger = { kind = 'size', limit = 6 }
policy.roller = { kind = 'fixed_window', pattern = 'FOLDER/f.{}', count = 9, background = true }
";

/// Writes this configuration. Returns its path.
fn change(
    rt: &HostRuntime,
    folder: &str,
    level: LevelFilter,
    pattern: &str,
    name: &str,
) -> Result<String, Fail> {
    let text = CHANGED.replace(rt.alloc(), "LEVEL", level.as_str())?;
    let text = text.as_str().replace(rt.alloc(), "PATTERN", pattern)?;
    let text = text.as_str().replace(rt.alloc(), "NAME", name)?;
    configure(rt, folder, text.as_str())
}

/// Returns an Info record with this message.
pub(crate) fn record(alloc: Global, message: &str) -> Result<Record, OutOfMemory> {
    let target = String::from_str(alloc, "t")?;
    Ok(Record::new(Level::Info, target, String::from_str(alloc, message)?))
}

/// Logs records with these messages through a loaded configuration.
fn log_by<A, F, H, W>(
    alloc: Global,
    loaded: &LoadedOf<A, F, H, W>,
    messages: &str,
) -> Result<(), Fail>
where
    A: Append,
    F: Filter,
    H: ReportFault,
    W: Wait + Eprint,
{
    for message in messages.split_whitespace() {
        let context = Context::new(alloc, Timestamp::UNIX_EPOCH, TimeZone::UTC);
        loaded.log(&record(alloc, message)?, &context);
    }
    Ok(())
}

/// Changes the configuration, waits until it is active, and logs a record through the first one, if
/// there is a message for it, and a record through the new one.
fn log_by_both<A, F, H, W>(
    rt: &HostRuntime,
    logger: &LoggerOf<A, F, H, W>,
    first: &LoadedOf<A, F, H, W>,
    level: LevelFilter,
    messages: (&str, &str),
) -> Result<(), Fail>
where
    A: Append + Drop,
    F: Filter + Drop,
    H: ReportFault + Drop,
    W: Wait + Eprint + Clone + Drop,
{
    wait_for(rt, logger, level)?;
    log_by(rt.alloc(), first, messages.0)?;
    log_by(rt.alloc(), &logger.load()?, messages.1)
}

/// Logs beside changes of the level, the pattern and the path, also through this configuration.
fn log_beside_changes<A, F, H, W>(
    rt: &HostRuntime,
    folder: &str,
    logger: &LoggerOf<A, F, H, W>,
    first: &LoadedOf<A, F, H, W>,
) -> Result<(), Fail>
where
    A: Append + Drop,
    F: Filter + Drop,
    H: ReportFault + Drop,
    W: Wait + Eprint + Clone + Drop,
{
    log_by(rt.alloc(), first, "one two")?;
    change(rt, folder, LevelFilter::Debug, "{m};", "f")?;
    log_by_both(rt, logger, first, LevelFilter::Debug, ("", "three"))?;
    change(rt, folder, LevelFilter::Trace, "{m}.", "f")?;
    log_by_both(rt, logger, first, LevelFilter::Trace, ("late", "four"))?;
    change(rt, folder, LevelFilter::Debug, "{m}.", "g")?;
    log_by_both(rt, logger, first, LevelFilter::Debug, ("last", "five"))
}

/// Loads the current configuration, and logs beside its changes.
fn change_and_log<A, F, H, W>(
    rt: &HostRuntime,
    folder: &str,
    logger: &LoggerOf<A, F, H, W>,
) -> Result<(), Fail>
where
    A: Append + Drop,
    F: Filter + Drop,
    H: ReportFault + Drop,
    W: Wait + Eprint + Clone + Drop,
{
    let first = logger.load()?;
    log_beside_changes(rt, folder, logger, &first)
}

/// The texts of `e`, `f.1`, `f.0`, `f` and `g`.
const HANDED_OVER: &str =
    "one;two;three;late;four;last;five;|one;two;|three;late;four.|last;|five.|";

#[test]
fn what_changes_is_handed_over(rt: HostRuntime) -> Result<(), Fail> {
    let folder = folder(&rt, "handed_over")?;
    let folder = folder.as_str();
    let path = change(&rt, folder, LevelFilter::Info, "{m};", "f")?;
    let logging = init(rt, rt.alloc(), rt.stdout(), rt.stderr(), path.as_str())?;
    let logged = change_and_log(&rt, folder, &logging.logger);
    assert_eq!(rt; logging.end(), 0);
    logged?;
    same(
        &rt,
        held(&rt, folder, "e f.1 f.0 f g")?.as_str(),
        HANDED_OVER,
    );
    fs::remove_dir_all(&rt, folder)?;
    Ok(())
}

#[test]
fn a_program_without_its_file_does_not_run(rt: HostRuntime) -> Result<(), Fail> {
    let path = "/none/log4rs.toml";
    let told = match with_file(rt, rt.alloc(), rt.stdout(), rt.stderr(), path, Three) {
        Ok(_) => String::new(rt.alloc()),
        Err(fault) => format!(in rt.alloc(); "{fault}")?,
    };
    let expected = "/none/log4rs.toml: No such file or directory (os error 2)";
    same(&rt, told.as_str(), expected);
    Ok(())
}
