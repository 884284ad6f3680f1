//! Cases of patterns: a record, its context, and the text that a pattern prints.

use crate::fault::Fault;
use crate::fields::{
    field, integer, level, optional_flag, optional_number, optional_string, string_field, text,
    texts,
};
use crate::verdict::{Verdict, compare};
use jiff::Timestamp;
use jiff::tz::{Offset, TimeZone};
use log4rs_base::{Context, Entry, Record};
use log4rs_encode::pattern::PatternEncoder;
use log4rs_encode::writer::AnsiWriter;
use log4rs_encode::{Encode, Styled};
use serde_json::Value;
use std::alloc::Global;

/// Returns the record of a case.
fn record(alloc: Global, case: &Value) -> Result<Record, Fault> {
    Ok(Record {
        level: level(case, "level")?,
        target: string_field(alloc, case, "target")?,
        message: string_field(alloc, case, "message")?,
        module_path: optional_string(alloc, case, "module_path")?,
        file: optional_string(alloc, case, "file")?,
        line: optional_number(case, "line")?,
    })
}

/// Returns the moment of a case, or the epoch if it has none.
fn moment(case: &Value) -> Result<Timestamp, Fault> {
    let Some(seconds) = integer(case, "seconds")? else {
        return Ok(Timestamp::UNIX_EPOCH);
    };
    let nanoseconds = integer(case, "nanoseconds")?.ok_or(Fault::Malformed)?;
    let nanoseconds = i32::try_from(nanoseconds).map_err(|_| Fault::Malformed)?;
    Timestamp::new(seconds, nanoseconds).map_err(|_| Fault::Malformed)
}

/// Returns the zone of a case, or UTC if it has none.
fn zone(case: &Value) -> Result<TimeZone<'static>, Fault> {
    let Some(seconds) = integer(case, "offset")? else {
        return Ok(TimeZone::UTC);
    };
    let seconds = i32::try_from(seconds).map_err(|_| Fault::Malformed)?;
    let offset = Offset::from_seconds(seconds).map_err(|_| Fault::Malformed)?;
    Ok(TimeZone::fixed(offset))
}

/// Returns the context of a case. The numbers of the thread and the process are fixed.
fn context(alloc: Global, case: &Value) -> Result<Context<'static>, Fault> {
    let debug = optional_flag(case, "debug")?;
    Ok(Context {
        moment: moment(case)?,
        zone: zone(case)?,
        thread: optional_string(alloc, case, "thread")?,
        thread_id: 7,
        tid: 8,
        pid: 9,
        mdc: texts(alloc, case, "mdc")?,
        debug,
        random: 0,
    })
}

/// Returns the record and the context of a case.
pub fn entry(alloc: Global, case: &Value) -> Result<Entry<'static>, Fault> {
    Ok(Entry {
        context: context(alloc, case)?,
        logged: record(alloc, case)?,
    })
}

/// Encodes an entry. Returns the styled text.
pub fn styled<E: Encode>(alloc: Global, encoder: &E, entry: &Entry<'_>) -> Result<Styled, Fault> {
    let mut out = Styled::new(alloc);
    match encoder.encode(&mut out, &entry.logged, &entry.context) {
        Ok(()) => Ok(out),
        Err(_) => Err(Fault::Memory),
    }
}

/// The output of a pattern, without styles and with the codes for a terminal.
#[derive(PartialEq, Debug, Drop)]
struct Texts<'a> {
    plain: &'a str,
    ansi: &'a str,
}

/// Encodes the record of a case with its pattern.
fn encoded(alloc: Global, case: &Value) -> Result<Styled, Fault> {
    let encoder = PatternEncoder::new(alloc, text(field(case, "pattern")?)?)?;
    let entry = entry(alloc, case)?;
    styled(alloc, &encoder, &entry)
}

/// Returns the bytes of styled text for a terminal.
fn ansi_text(alloc: Global, styled: &Styled) -> Result<String, Fault> {
    let mut writer = AnsiWriter(Vec::new(alloc));
    if writer.write_styled(styled).is_err() {
        return Err(Fault::Memory);
    }
    String::from_utf8(writer.0).map_err(|_| Fault::Malformed)
}

/// Replays a case whose expected texts are in the fields `plain` and `ansi`.
pub fn replay_pattern(
    alloc: Global,
    case: &Value,
    plain: &str,
    ansi: &str,
) -> Result<Verdict, Fault> {
    let expected = Texts {
        plain: text(field(case, plain)?)?,
        ansi: text(field(case, ansi)?)?,
    };
    let styled = encoded(alloc, case)?;
    let shown = ansi_text(alloc, &styled)?;
    let printed = styled.into_text()?;
    let came = Texts {
        plain: printed.as_str(),
        ansi: shown.as_str(),
    };
    Ok(compare(alloc, &expected, &came)?)
}
