use crate::setup::{cut, same, string};
use jiff::Timestamp;
use jiff::tz::TimeZone;
use log4rs_base::Context;
use log4rs_restarts::TriggerSettings;
use log4rs_rolling::{
    AnyTrigger, IntervalTooSmall, LogFile, OnStartUpTrigger, SizeTrigger, TimeTrigger,
    TimeTriggerConfig, TimeTriggerInterval, Trigger,
};
use std::alloc::Global;
use std::test::Fail;

/// Creates the trigger of these settings.
fn trigger(settings: TriggerSettings) -> Result<AnyTrigger, IntervalTooSmall> {
    match settings {
        TriggerSettings::Size(limit) => Ok(AnyTrigger::Size(SizeTrigger::new(limit))),
        TriggerSettings::OnStartUp(least) => {
            Ok(AnyTrigger::OnStartUp(OnStartUpTrigger::new(least)))
        }
        TriggerSettings::Time(config) => Ok(AnyTrigger::Time(TimeTrigger::new(config)?)),
    }
}

/// Returns an interval of `number` units.
fn interval(unit: &str, number: i64) -> TimeTriggerInterval {
    match unit {
        "second" => TimeTriggerInterval::Second(number),
        "minute" => TimeTriggerInterval::Minute(number),
        "hour" => TimeTriggerInterval::Hour(number),
        "day" => TimeTriggerInterval::Day(number),
        "week" => TimeTriggerInterval::Week(number),
        "month" => TimeTriggerInterval::Month(number),
        _ => TimeTriggerInterval::Year(number),
    }
}

/// Returns the trigger settings of a text such as `size 10`, `startup 1` or `day 1 modulated`.
pub(crate) fn settings_of(told: &str) -> TriggerSettings {
    let (kind, rest) = told.split_once(' ').unwrap_or((told, ""));
    let (number, mode) = rest.split_once(' ').unwrap_or((rest, ""));
    match kind {
        "size" => TriggerSettings::Size(number.parse().unwrap_or(0)),
        "startup" => TriggerSettings::OnStartUp(number.parse().unwrap_or(0)),
        unit => TriggerSettings::Time(TimeTriggerConfig {
            interval: interval(unit, number.parse().unwrap_or(0)),
            modulate: mode == "modulated",
            max_random_delay: 0,
        }),
    }
}

/// Returns the zone of a rule.
fn zone(rule: &str) -> Result<TimeZone<'static>, Fail> {
    match rule {
        "UTC" => Ok(TimeZone::UTC),
        _ => Ok(TimeZone::posix(rule)?),
    }
}

/// Calls a trigger for a file of `len` bytes at a moment. Returns the decision.
fn said(
    alloc: Global,
    trigger: &mut AnyTrigger,
    rule: &str,
    len: &str,
    at: &str,
) -> Result<&'static str, Fail> {
    let context = Context::new(alloc, at.parse::<Timestamp>()?, zone(rule)?);
    let mut file = LogFile::new(string(alloc, "f")?);
    file.open_at(len.parse().unwrap_or(0));
    Ok(match trigger.trigger(&file, &context) {
        Ok(true) => " yes",
        Ok(false) => " no",
        Err(_) => " fault",
    })
}

/// Calls a trigger in the zone of a rule. Returns whether it runs before or after the write, and
/// its decisions.
fn answers(
    alloc: Global,
    trigger: &mut AnyTrigger,
    rule: &str,
    asks: &str,
) -> Result<String, Fail> {
    let is_before = trigger.is_pre_process();
    let mut text = string(alloc, if is_before { "before:" } else { "after:" })?;
    for ask in asks.split(';') {
        let (len, at) = ask.split_once('@').unwrap_or((ask, EPOCH));
        text.push_str(said(alloc, trigger, rule, len, at)?)?;
    }
    Ok(text)
}

/// Calls the trigger of a line. Returns the decisions or the error, and what the line expects.
fn came(alloc: Global, line: &str) -> Result<(String, &str), Fail> {
    let (told, rest) = cut(line);
    let (rule, rest) = cut(rest);
    let (asks, expected) = cut(rest);
    match trigger(settings_of(told)) {
        Ok(mut trigger) => Ok((answers(alloc, &mut trigger, rule, asks)?, expected)),
        Err(fault) => Ok((format!(in alloc; "{fault}")?, expected)),
    }
}

const EPOCH: &str = "1970-01-01T00:00:00Z";

/// A trigger, the rule of its zone, calls as the length of the file and the moment (the epoch if
/// there is none), and whether the trigger runs before or after the write, with its decisions.
const SIZES: &str = "size 10|UTC|0;10;11;12;10|after: no no yes yes no
size 0|UTC|0;1|after: no yes
size 18446744073709551615|UTC|0;12|after: no no
startup 1|UTC|3;3|before: yes no
startup 1|UTC|0;3;3|before: no no no
startup 3|UTC|3|before: yes
startup 0|UTC|0;0|before: yes no";

/// Days; a midnight that the clock skips; and one that it shows twice.
const DAYS: &str =
    "day 1|UTC|0@2020-02-28T10:00:00Z;0@2020-02-29T00:00:00Z;0@2020-02-29T23:59:59.999999999Z;0@2020-03-01T00:00:00Z|before: no yes no yes
day 1|AAA0BBB,M3.2.0/0,M11.1.0/1|0@2024-03-09T12:00:00Z;0@2024-03-09T23:59:59.999999999Z;0@2024-03-10T00:00:00Z|before: no no yes
day 1|AAA0BBB,M3.2.0/0,M11.1.0/1|0@2024-11-02T12:00:00Z;0@2024-11-02T23:59:59.999999999Z;0@2024-11-03T00:00:00Z|before: no no yes";

/// Other units. The year 10000 does not exist.
const UNITS: &str =
    "week 3 modulated|UTC|0@1970-03-01T02:02:02Z;0@1970-03-01T23:59:59.999999999Z;0@1970-03-02T00:00:00Z|before: no no yes
month 3 modulated|UTC|0@1970-03-01T02:02:02Z;0@1970-03-31T23:59:59.999999999Z;0@1970-04-01T00:00:00Z|before: no no yes
hour 3 modulated|UTC|0@1970-03-01T02:02:02Z;0@1970-03-01T02:59:59.999999999Z;0@1970-03-01T03:00:00Z|before: no no yes
year 7980|UTC|0@2020-02-28T10:00:00Z;0@9999-12-30T21:59:59Z;0@2020-02-28T10:00:00Z|before: no no no";

/// Numbers below 1.
const REFUSED: &str = "second 0 modulated|UTC||the number of an interval is below 1
minute -1 modulated|UTC||the number of an interval is below 1
day -9223372036854775808 modulated|UTC||the number of an interval is below 1
year 0 modulated|UTC||the number of an interval is below 1";

#[test]
fn settings_and_answers(rt: HostRuntime) -> Result<(), Fail> {
    for table in [SIZES, DAYS, UNITS, REFUSED] {
        for line in table.lines() {
            let (came, expected) = came(rt.alloc(), line)?;
            same(&rt, came.as_str(), expected);
        }
    }
    Ok(())
}
