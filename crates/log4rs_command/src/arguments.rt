//! The arguments of the program.

ghost use Rattle.std.specs.Prelude.{◌≡◌, ◌∷◌, [], IfErr, IfNone, IfOk, IfSome, map, option_map};
ghost use Rattle.std.specs.Prelude.{string_bytes};
ghost use Rattle.std.specs.List.{AllZip};
ghost use Rattle.log4rs_command.specs.Arguments.{AreArguments, AreNumbers, ArePlain, IsNoNumber};
ghost use Rattle.log4rs_command.specs.Arguments.{IsNoSetting, IsNumber, IsSetting};
ghost use Rattle.log4rs_command.specs.Arguments.{RefusesArguments, RefusesNumbers, RefusesPlain};
ghost use Rattle.log4rs_command.specs.Arguments.{RefusesSettings, asked_of, plain_of, setting_of};
ghost use Rattle.log4rs_command.specs.Arguments.{asked_settings};
ghost use Rattle.log4rs_command.specs.declared.arguments.ArgumentsError.TheVariants.{Memory};

use log::{Level, LevelFilter};
use std::alloc::{AllocFailed, Global};

/// The level of a logger, or of the root if the name is empty.
#[derive(Drop)]
pub struct Setting<'a> {
    /// The name of the logger, empty for the root.
    pub name: &'a str,
    /// The level.
    pub level: LevelFilter,
}

/// The level and the target of lines that tell of no record.
#[derive(Clone, Copy)]
pub struct Plain<'a> {
    /// The level.
    pub level: Level,
    /// The target.
    pub target: &'a str,
}

/// A command of the program.
#[derive(Drop)]
pub enum Command<'a> {
    /// Prints records by a pattern. The settings decide which.
    Pattern {
        /// The pattern.
        pattern: &'a str,
        /// The levels of loggers.
        settings: Vec<Setting<'a>>,
    },
    /// Logs records by the configuration in a file, of lines that tell of none as `plain` says.
    File {
        /// The path of the configuration.
        path: &'a str,
        /// How lines that tell of no record are logged. `None` if they are malformed.
        plain: Option<Plain<'a>>,
    },
    /// Appends `count` records in each of `threads` threads to one journal.
    Threads {
        /// How many threads append.
        threads: usize,
        /// How many records each appends.
        count: usize,
    },
    /// Prints the program's version.
    Version,
    /// Prints the program's commands.
    Help,
}

/// The maximum number of threads. The minimum is one.
pub const MOST_THREADS: usize = 16;

/// The maximum number of records per thread.
pub const MOST_RECORDS: usize = 1000;

/// Errors of reading arguments.
#[derive(Debug, Drop)]
pub enum ArgumentsError {
    /// The arguments are no command of the program.
    Usage,
    /// An allocation failed.
    Memory,
}

impl<T: Drop> From<AllocFailed<T>> for ArgumentsError {
    ghost from_gives = { λ _ e. e ≡ Memory };

    fn from(_: AllocFailed<T>) -> Self {
        ArgumentsError::Memory
    }
}

/// Reads `NAME=LEVEL`, which splits at its last `=`. Returns `None` for other arguments.
fn read_setting(arg: &str) -> Option<Setting<'_>>
    ensures setting { IfSome result (λ setting. IsSetting arg.now (setting_of setting)) }
    ensures none { IfNone result (IsNoSetting arg.now) }
{
    let (name, word) = arg.rsplit_once('=')?;
    let level = word.parse::<LevelFilter>().ok()?;
    Some(Setting { name, level })
}

/// Reads the settings. Fails if one is malformed.
fn read_settings(alloc: Global, args: &[String]) -> Result<Vec<Setting<'_>>, ArgumentsError>
    ensures settings { IfOk result
        (λ settings. AllZip IsSetting (map (λ arg. string_bytes arg) args.now)
        (asked_settings settings.items)) }
    ensures err { IfErr result (RefusesSettings (map (λ arg. string_bytes arg) args.now)) }
{
    let mut settings = Vec::new(alloc);
    for arg in args {
        let Some(setting) = read_setting(arg.as_str()) else {
            return Err(ArgumentsError::Usage);
        };
        settings.push(setting)?;
    }
    Ok(settings)
}

/// Reads a number of ASCII digits from `least` to `most`. Returns `None` for other arguments.
fn read_number(arg: &str, least: usize, most: usize) -> Option<usize>
    ensures number { IfSome result (IsNumber arg.now least most) }
    ensures none { IfNone result (IsNoNumber arg.now least most) }
{
    if arg.starts_with('+') {
        return None;
    }
    let number = arg.parse::<usize>().ok()?;
    if number < least || most < number {
        return None;
    }
    Some(number)
}

/// Reads the number of threads and the number of records per thread.
fn read_numbers(first: &str, rest: &[String]) -> Result<(usize, usize), ArgumentsError>
    ensures numbers { IfOk result (λ numbers. AreNumbers first.now
        (map (λ arg. string_bytes arg) rest.now) numbers.0 numbers.1) }
    ensures err { IfErr result (RefusesNumbers first.now
        (map (λ arg. string_bytes arg) rest.now)) }
{
    let [second] = rest else {
        return Err(ArgumentsError::Usage);
    };
    let Some(threads) = read_number(first, 1, MOST_THREADS) else {
        return Err(ArgumentsError::Usage);
    };
    let Some(count) = read_number(second.as_str(), 0, MOST_RECORDS) else {
        return Err(ArgumentsError::Usage);
    };
    Ok((threads, count))
}

/// Reads the arguments behind the path of a configuration: none, or `--plain`, a level and a
/// target. Fails if they are others.
fn read_plain(args: &[String]) -> Result<Option<Plain<'_>>, ArgumentsError>
    ensures plain { IfOk result (λ plain. ArePlain (map (λ arg. string_bytes arg) args.now)
        (option_map plain_of plain)) }
    ensures err { IfErr result (RefusesPlain (map (λ arg. string_bytes arg) args.now)) }
{
    let [option, word, target] = args else {
        return if args.is_empty() {
            Ok(None)
        } else {
            Err(ArgumentsError::Usage)
        };
    };
    let Ok(level) = word.as_str().parse::<Level>() else {
        return Err(ArgumentsError::Usage);
    };
    if option.as_str() != "--plain" {
        return Err(ArgumentsError::Usage);
    }
    Ok(Some(Plain {
        level,
        target: target.as_str(),
    }))
}

/// Reads an argument that stands alone: `--version` or `--help`.
fn read_option<'a>(arg: &str) -> Result<Command<'a>, ArgumentsError>
    ensures command { IfOk result (λ command. AreArguments (arg.now ∷ []) (asked_of command)) }
    ensures err { IfErr result (RefusesArguments (arg.now ∷ [])) }
{
    match arg {
        "--version" => Ok(Command::Version),
        "--help" => Ok(Command::Help),
        _ => Err(ArgumentsError::Usage),
    }
}

/// Reads the arguments, without the name of the program. Fails with `Usage` if they are no command,
/// and with `Memory` if an allocation fails.
pub fn read_arguments(alloc: Global, args: &[String]) -> Result<Command<'_>, ArgumentsError>
    ensures command { IfOk result (λ command. AreArguments (map (λ arg. string_bytes arg) args.now)
        (asked_of command)) }
    ensures err { IfErr result (RefusesArguments (map (λ arg. string_bytes arg) args.now)) }
{
    if let [option] = args {
        return read_option(option.as_str());
    }
    let [command, first, rest @ ..] = args else {
        return Err(ArgumentsError::Usage);
    };
    if command.as_str() == "pattern" {
        let settings = read_settings(alloc, rest)?;
        return Ok(Command::Pattern {
            pattern: first.as_str(),
            settings,
        });
    }
    if command.as_str() == "file" {
        let plain = read_plain(rest)?;
        return Ok(Command::File {
            path: first.as_str(),
            plain,
        });
    }
    if command.as_str() == "threads" {
        let (threads, count) = read_numbers(first.as_str(), rest)?;
        return Ok(Command::Threads { threads, count });
    }
    Err(ArgumentsError::Usage)
}
