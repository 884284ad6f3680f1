//! Lines of input and their records.

ghost use Rattle.std.specs.Prelude.{◌≡◌, [], ◌∷◌, true, false, IfNone, IfOk, IfSome, List};
ghost use Rattle.std.specs.Prelude.{MatchOption, option_map};
ghost use Rattle.log4rs_base.specs.Text.{Text};
ghost use Rattle.log4rs_command.specs.EachLine.{LogsLine, LogsLines};
ghost use Rattle.log4rs_command.specs.Arguments.{plain_of};
ghost use Rattle.log4rs_command.specs.Entry.{IsContext, IsMalformed, IsPlainRecord, IsRecord};
ghost use Rattle.log4rs_command.specs.Entry.{IsRecordOf};
ghost use Rattle.log4rs_command.specs.Input.{IsDone, Takes, lines_of};
ghost use Rattle.log4rs_command.specs.Line.{IsLine, IsNoLine};

use crate::arguments::Plain;
use crate::host::Host;
use crate::seen::Seen;
use crate::stop::Stop;
use jiff::Timestamp;
use jiff::tz::TimeZone;
use log::Level;
use log4rs_base::{Context, OutOfMemory, Record};
use rand_core::Rng;
use std::alloc::Global;
use std::collections::BTreeMap;
use std::io::{self, BufRead, Write};
use std::rt::Clock;
use std::str;

/// The parts of a line.
#[derive(Clone, Copy)]
pub struct Line<'a> {
    /// The level.
    pub level: Level,
    /// The target.
    pub target: &'a str,
    /// The message.
    pub message: &'a str,
}

/// Parses a line: a level in any case, one space, a target without spaces, one space, and the
/// message. Returns `None` for other lines.
pub fn parse_line(bytes: &[u8]) -> Option<Line<'_>>
    ensures line { IfSome result (λ line. IsLine bytes.now line.level line.target.now
        line.message.now) }
    ensures none { IfNone result (IsNoLine bytes.now) }
{
    let text = str::from_utf8(bytes).ok()?;
    let (word, rest) = text.split_once(' ')?;
    let (target, message) = rest.split_once(' ')?;
    let level = word.parse::<Level>().ok()?;
    Some(Line {
        level,
        target,
        message,
    })
}

/// Reads the next line into a buffer, without its newline. Returns whether there was one.
pub fn next_line<R: BufRead>(input: &mut R, line: &mut Vec<u8>) -> io::Result<bool>
    ensures line { IfOk result (λ there. there ≡ true
        → Takes (R.remaining input.old) (R.remaining input.new) (line.new.items ∷ [])) }
    ensures done { IfOk result (λ there. there ≡ false → IsDone (R.remaining input.old)) }
{
    line.clear();
    let len = input.read_until(b'\n', line)?;
    if len == 0 {
        return Ok(false);
    }
    if line[len - 1] == b'\n' {
        line.truncate(len - 1);
    }
    Ok(true)
}

/// A logger of records.
pub trait LogRecords {
    ghost use Rattle.std.specs.Prelude.{Bool};
    ghost use Rattle.log4rs_base.specs.declared.record.Context.{Context as ContextData};
    ghost use Rattle.log4rs_base.specs.declared.record.Record.{Record as RecordData};

    /// The promise about a logged record: the value before, the record, its context, whether there
    /// was no error, and the value after.
    ghost logs: { Self → RecordData → ContextData → Bool → Self → Type 0 };

    /// Logs a record, and prints each error. Returns whether there was none.
    fn log_record<E: Write>(
        &mut self,
        logged: &Record,
        context: &Context<'_>,
        err: &mut E,
    ) -> Result<bool, Stop>
        ensures { IfOk result
            (λ is_well. logs self.old logged.now context.now is_well self.new) };
}

/// Returns a context whose moment and random word are set later.
fn first_context(alloc: Global) -> Result<Context<'static>, OutOfMemory>
    ensures { IfOk result IsContext }
{
    Ok(Context {
        moment: Timestamp::UNIX_EPOCH,
        zone: TimeZone::UTC,
        thread: Some(String::from_str(alloc, "main")?),
        thread_id: 0,
        tid: 0,
        pid: 0,
        mdc: BTreeMap::new(alloc),
        debug: false,
        random: 0,
    })
}

/// Sets a context's moment from the clock, and its next random word.
fn set_now<C: Clock, G: Rng, X>(
    context: &mut Context<'_>,
    host: &mut Host<C, G, X>,
) -> Result<(), Stop>
    requires { IsContext context.old }
    ensures { IsContext context.new }
{
    context.moment = Timestamp::now(&host.clock)?;
    context.random = host.random.next_u64();
    Ok(())
}

/// Returns the record that a line tells of.
fn told_record(alloc: Global, line: &Line<'_>) -> Result<Record, OutOfMemory>
    ensures { IfOk result (λ made. (bytes : Text)
        → IsLine bytes line.now.level line.now.target.now line.now.message.now
        → IsRecord bytes made) }
{
    let target = String::from_str(alloc, line.target)?;
    let message = String::from_str(alloc, line.message)?;
    Ok(Record::new(line.level, target, message))
}

/// Returns a record whose message is a whole line, with U+FFFD for bytes that are not UTF-8.
fn plain_record(alloc: Global, bytes: &[u8], plain: &Plain<'_>) -> Result<Record, OutOfMemory>
    ensures { IfOk result (IsPlainRecord (plain_of plain.now) bytes.now) }
{
    let target = String::from_str(alloc, plain.target)?;
    let message = String::from_utf8_lossy(alloc, bytes)?;
    Ok(Record::new(plain.level, target, message))
}

/// Returns the record of a line: the one that it tells of, or that of the whole line if a level and
/// a target are given for such lines. Returns `None` for a malformed line.
fn record_of(
    alloc: Global,
    bytes: &[u8],
    plain: Option<Plain<'_>>,
) -> Result<Option<Record>, OutOfMemory>
    ensures { let given = option_map plain_of plain.entry in IfOk result
        (λ made. MatchOption made (IsMalformed given bytes.now) (IsRecordOf given bytes.now)) }
{
    if let Some(line) = parse_line(bytes) {
        return Ok(Some(told_record(alloc, &line)?));
    }
    match plain {
        Some(plain) => Ok(Some(plain_record(alloc, bytes, &plain)?)),
        None => Ok(None),
    }
}

/// Logs the record of a line, by itself or as `plain` says, or prints on `err` that the line is
/// malformed. Returns what it saw.
fn log_line<L: LogRecords, C: Clock, G: Rng, X, E: Write>(
    logger: &mut L,
    host: &mut Host<C, G, X>,
    context: &mut Context<'_>,
    bytes: &[u8],
    plain: Option<Plain<'_>>,
    number: u64,
    err: &mut E,
) -> Result<Seen, Stop>
    requires { IsContext context.old }
    ensures logs { IfOk result (LogsLine L.logs (option_map plain_of plain.entry) bytes.now
        logger.old logger.new) }
    ensures context { IsContext context.new }
{
    let made = record_of(host.alloc, bytes, plain)?;
    let Some(record) = made else {
        writeln!(err, "log4rs-run: line {number}: malformed")?;
        return Ok(Seen::MALFORMED);
    };
    set_now(context, host)?;
    let all_logged = logger.log_record(&record, context, err)?;
    Ok(Seen {
        all_read: true,
        all_logged,
    })
}

/// Logs the records of all lines, of those that tell of none as `plain` says, and prints on `err`
/// which lines are malformed. Returns what it saw.
pub fn log_lines<L: LogRecords, C: Clock, G: Rng, X, R: BufRead, E: Write>(
    logger: &mut L,
    host: &mut Host<C, G, X>,
    plain: Option<Plain<'_>>,
    input: &mut R,
    err: &mut E,
) -> Result<Seen, Stop>
    ensures { IfOk result (λ all. (lines : List Text)
        × IfSome (R.remaining input.old) (λ bytes. lines ≡ lines_of bytes)
        × LogsLines L.logs (option_map plain_of plain.entry) lines logger.old logger.new all) }
{
    let mut context = first_context(host.alloc)?;
    let mut bytes = Vec::new(host.alloc);
    let mut all = Seen::NOTHING;
    for number in 1..u64::MAX {
        if !next_line(input, &mut bytes)? {
            return Ok(all);
        }
        let line = log_line(logger, host, &mut context, &bytes, plain, number, err)?;
        all = all.and(line);
    }
    Err(Stop::Endless)
}
