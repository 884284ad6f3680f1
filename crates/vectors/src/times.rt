//! Cases of time triggers: a moment, an interval, and the next time at which the trigger fires.

use crate::fault::Fault;
use crate::fields::{field, flag, natural, text};
use crate::verdict::{Verdict, compare};
use jiff::Timestamp;
use jiff::tz::TimeZone;
use log4rs_rolling::next_time::next_time;
use log4rs_rolling::{TimeTriggerConfig, TimeTriggerInterval};
use serde_json::Value;
use std::alloc::Global;

/// Returns the interval of a text such as `Day(1)`.
fn interval(shown: &str) -> Result<TimeTriggerInterval, Fault> {
    let (unit, number) = parts(shown).ok_or(Fault::Malformed)?;
    match unit {
        "Second" => Ok(TimeTriggerInterval::Second(number)),
        "Minute" => Ok(TimeTriggerInterval::Minute(number)),
        "Hour" => Ok(TimeTriggerInterval::Hour(number)),
        "Day" => Ok(TimeTriggerInterval::Day(number)),
        "Week" => Ok(TimeTriggerInterval::Week(number)),
        "Month" => Ok(TimeTriggerInterval::Month(number)),
        "Year" => Ok(TimeTriggerInterval::Year(number)),
        _ => Err(Fault::Malformed),
    }
}

/// Returns the text before the brackets, and the number in them.
fn parts(shown: &str) -> Option<(&str, i64)> {
    let (unit, rest) = shown.split_once('(')?;
    let number = rest.strip_suffix(')')?.parse::<i64>().ok()?;
    Some((unit, number))
}

/// Returns the trigger's configuration of a case.
fn config(case: &Value) -> Result<TimeTriggerConfig, Fault> {
    Ok(TimeTriggerConfig {
        interval: interval(text(field(case, "interval")?)?)?,
        modulate: flag(case, "modulate")?,
        max_random_delay: natural(case, "max_random_delay")?,
    })
}

/// Returns the moment of a case.
fn moment(case: &Value) -> Result<Timestamp, Fault> {
    let at = text(field(case, "at")?)?.parse::<Timestamp>();
    let second = at.map_err(|_| Fault::Malformed)?.as_second();
    let nanos = i32::try_from(natural(case, "nanos")?).map_err(|_| Fault::Malformed)?;
    Timestamp::new(second, nanos).map_err(|_| Fault::Malformed)
}

/// Returns the zone of a case: UTC, or that of a POSIX rule.
fn zone(case: &Value) -> Result<TimeZone<'static>, Fault> {
    match text(field(case, "zone")?)? {
        "UTC" => Ok(TimeZone::UTC),
        rule => TimeZone::posix(rule).map_err(|_| Fault::Malformed),
    }
}

/// Returns the next time of a case, `never` if there is none, or `refused`.
fn next(alloc: Global, case: &Value) -> Result<String, Fault> {
    let config = config(case)?;
    let moment = moment(case)?;
    let zone = zone(case)?;
    let random = natural(case, "random")?;
    if !config.interval.has_number() {
        return Ok(String::from_str(alloc, "refused")?);
    }
    match next_time(&config, moment, &zone, random) {
        Some(next) => Ok(format!(in alloc; "{next}")?),
        None => Ok(String::from_str(alloc, "never")?),
    }
}

/// Replays a case. If the port differs from the Rust crate, the field `differs` is expected.
pub fn replay_time(alloc: Global, case: &Value) -> Result<Verdict, Fault> {
    let expected = match case.get("differs") {
        Some(differs) => text(differs)?,
        None => text(field(case, "next")?)?,
    };
    let came = next(alloc, case)?;
    Ok(compare(alloc, &expected, &came.as_str())?)
}
