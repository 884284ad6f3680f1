//! The next time at which a time trigger fires.
ghost use Rattle.std.specs.Prelude.{◌≡◌, ◌+◌, ◌-◌, ◌*◌, ◌/◌, ◌%◌, ◌≤◌, ◌<◌, ◌≤ℤ◌, ◌<ℤ◌, ◌+ℤ◌, ◌-ℤ◌, pos, neg_ℤ, ℤ};
ghost use Rattle.std.specs.Int.{IsInRange};
ghost use Rattle.std.specs.Option.{SomeIff};
ghost use Rattle.jiff.specs.Words.{epoch_day, ordinal, weekday_of, plain_zone, IsTimestampNanos, IsBetween};
ghost use Rattle.jiff_tz.specs.declared.timezone.TimeZone.{TimeZone as Zone};
ghost use Rattle.jiff_core.specs.Calendar.{days_from_civil};
ghost use Rattle.log4rs_base.specs.Interval.{HasNumber};
ghost use Rattle.log4rs_rolling.specs.NextTime.{increment, year_rest, iso_week, year_target, month_target, week_target, day_target, IsReached, midnight, IsDay, IsDelayed, IsNextTime, ahead, target, nanos};

use crate::{TimeTriggerConfig, TimeTriggerInterval};
use jiff::Timestamp;
use jiff::civil::{self, Date, DateTime, Time};
use jiff::tz::TimeZone;

// Returns how many units lie before the next time.
fn increment(modulate: bool, number: u64, at: u64) -> u64
    requires { 0 < number }
    ensures value { result ≡ increment modulate number at }
    ensures above { 0 < result }
{
    if modulate {
        number - at % number
    } else {
        number
    }
}

// Returns the first day of a month, or `None` behind the year 9999.
fn month_start(year: i128, month: u8) -> Option<Date>
    requires year_in { neg_ℤ (pos 9999) ≤ℤ year }
    requires month_in { IsInRange 1 12 month }
    ensures { IsDay (days_from_civil year month 1) result }
{
    if year > 9999 {
        None
    } else {
        Some(civil::date(year as i16, month as i8, 1))
    }
}

// Returns the day this many days later.
fn days_on(date: Date, days: u128) -> Option<Date>
    ensures { IsDay (epoch_day date +ℤ pos days) result }
{
    let Ok(days) = i64::try_from(days) else {
        return None;
    };
    match date.to_plain().checked_add(days) {
        Ok(plain) => Some(Date::from_plain(plain)),
        Err(_) => None,
    }
}

// Returns the instant at which a day begins: the later one, if its midnight is ambiguous or
// skipped.
fn day_start(zone: &TimeZone<'_>, date: Option<Date>) -> Option<Timestamp>
    ensures { (day : ℤ) → IsDay day date
        → IsReached (plain_zone zone.now) (midnight day) (nanos result) }
{
    let Some(date) = date else {
        return None;
    };
    let start = DateTime::from(date);
    match zone.to_ambiguous_timestamp(start).later() {
        Ok(timestamp) => Some(timestamp),
        Err(_) => None,
    }
}

// Returns the instant with this many nanoseconds, if there is one.
fn instant_at(nanosecond: i128) -> Option<Timestamp>
    ensures { SomeIff (nanos result) (IsTimestampNanos nanosecond) nanosecond }
{
    Timestamp::from_nanosecond(nanosecond).ok()
}

fn next_day(zone: &TimeZone<'_>, date: Date, modulate: bool, number: u64) -> Option<Timestamp>
    requires { 0 < number }
    ensures { IsReached (plain_zone zone.now)
        (day_target (epoch_day date) (increment modulate number (ordinal date - 1)))
        (nanos result) }
{
    let day = u64::from(date.to_plain().day_of_year()) - 1;
    let days = increment(modulate, number, day);
    day_start(zone, days_on(date, u128::from(days)))
}

fn next_year(zone: &TimeZone<'_>, date: Date, modulate: bool, number: u64) -> Option<Timestamp>
    requires { 0 < number }
    ensures { IsReached (plain_zone zone.now)
        (year_target date.year (increment modulate number (year_rest date.year number)))
        (nanos result) }
{
    let year = i128::from(date.year());
    let rest = year.rem_euclid(i128::from(number)) as u64;
    let years = increment(modulate, number, rest);
    day_start(zone, month_start(year + i128::from(years), 1))
}

fn next_month(zone: &TimeZone<'_>, date: Date, modulate: bool, number: u64) -> Option<Timestamp>
    requires { 0 < number }
    ensures { IsReached (plain_zone zone.now)
        (month_target date.year date.month (increment modulate number (date.month - 1)))
        (nanos result) }
{
    let month = u64::from(date.to_plain().month) - 1;
    let months = u128::from(month) + u128::from(increment(modulate, number, month));
    let years = (months / 12) as u64;
    let year = i128::from(date.year()) + i128::from(years);
    day_start(zone, month_start(year, (months % 12 + 1) as u8))
}

// Returns the ISO week, counted from 0. A week counts in the year of its Thursday.
fn iso_week(date: Date, weekday: u8) -> u64
    requires { weekday ≡ weekday_of date }
    ensures { result ≡ iso_week (epoch_day date) (weekday_of date) }
{
    match date.to_plain().checked_add(3 - i64::from(weekday)) {
        Ok(thursday) => (u64::from(thursday.day_of_year()) - 1) / 7,
        Err(_) => unreachable!("each week of the calendar has its Thursday there"),
    }
}

fn next_week(zone: &TimeZone<'_>, date: Date, modulate: bool, number: u64) -> Option<Timestamp>
    requires { 0 < number }
    ensures { IsReached (plain_zone zone.now)
        (week_target (epoch_day date) (weekday_of date)
        (increment modulate number (iso_week (epoch_day date) (weekday_of date))))
        (nanos result) }
{
    let weekday = date.to_plain().weekday().index();
    let weeks = increment(modulate, number, iso_week(date, weekday));
    day_start(
        zone,
        days_on(date, 7 * u128::from(weeks) - u128::from(weekday)),
    )
}

// Returns the instant this far ahead of the moment less what the clock shows below the unit.
fn next_instant(moment: Timestamp, below: i64, ahead: i128) -> Option<Timestamp>
    requires below_in { IsBetween (pos 0) (pos 3_600_000_000_000) below }
    requires ahead_in { IsBetween (pos 0)
        (pos 100_000_000_000_000_000_000_000_000_000_000_000) ahead }
    ensures { SomeIff (nanos result) (IsTimestampNanos (moment.nanosecond -ℤ below +ℤ ahead))
        (moment.nanosecond -ℤ below +ℤ ahead) }
{
    instant_at(moment.as_nanosecond() - i128::from(below) + ahead)
}

/// Returns the next time at which a trigger fires, computed from a moment in a time zone.
///
/// Years, months, weeks and days lead to a midnight of the zone: in a gap or a fold of its clock,
/// to the later of the two instants. Hours, minutes and seconds are added to the moment less what
/// the clock shows below the unit. Then `random` modulo `max_random_delay` seconds are added, if
/// that is not 0. Returns `None` if the time would lie outside the range of instants, or on a day
/// that the calendar does not have.
pub fn next_time(
    config: &TimeTriggerConfig,
    moment: Timestamp,
    zone: &TimeZone<'_>,
    random: u64,
) -> Option<Timestamp>
    requires { HasNumber config.now.interval }
    ensures { IsNextTime config.now (plain_zone zone.now) moment.nanosecond random (nanos result) }
{
    let seconds = if config.max_random_delay == 0 {
        0
    } else {
        random % config.max_random_delay
    };
    delayed(reached(config, moment, zone), seconds)
}

// Returns the time to which the interval leads.
fn reached(config: &TimeTriggerConfig, moment: Timestamp, zone: &TimeZone<'_>) -> Option<Timestamp>
    requires { HasNumber config.now.interval }
    ensures { IsReached (plain_zone zone.now)
        (target config.now (plain_zone zone.now) moment.nanosecond) (nanos result) }
{
    let modulate = config.modulate;
    let shown = zone.to_datetime(moment);
    match config.interval {
        TimeTriggerInterval::Year(n) => next_year(zone, shown.date(), modulate, n.unsigned_abs()),
        TimeTriggerInterval::Month(n) => next_month(zone, shown.date(), modulate, n.unsigned_abs()),
        TimeTriggerInterval::Week(n) => next_week(zone, shown.date(), modulate, n.unsigned_abs()),
        TimeTriggerInterval::Day(n) => next_day(zone, shown.date(), modulate, n.unsigned_abs()),
        TimeTriggerInterval::Hour(n) => next_hour(moment, shown.time(), modulate, n.unsigned_abs()),
        TimeTriggerInterval::Minute(n) => {
            next_minute(moment, shown.time(), modulate, n.unsigned_abs())
        }
        TimeTriggerInterval::Second(n) => {
            next_second(moment, shown.time(), modulate, n.unsigned_abs())
        }
    }
}

// Returns the instant this many seconds later.
fn delayed(next: Option<Timestamp>, seconds: u64) -> Option<Timestamp>
    ensures { IsDelayed seconds (nanos next) (nanos result) }
{
    let Some(next) = next else {
        return None;
    };
    instant_at(next.as_nanosecond() + i128::from(seconds) * 1_000_000_000)
}

fn next_hour(moment: Timestamp, time: Time, modulate: bool, number: u64) -> Option<Timestamp>
    requires { 0 < number }
    ensures { SomeIff (nanos result) (IsTimestampNanos (ahead moment.nanosecond
        (time.minute * 60_000_000_000 + (time.second * 1_000_000_000 + time.subsec_nanosecond))
        (increment modulate number time.hour * 3600)))
        (ahead moment.nanosecond
        (time.minute * 60_000_000_000 + (time.second * 1_000_000_000 + time.subsec_nanosecond))
        (increment modulate number time.hour * 3600)) }
{
    let time = time.to_plain();
    let seconds = i64::from(time.minute) * 60 + i64::from(time.second);
    let below = seconds * 1_000_000_000 + i64::from(time.subsec_nanosecond);
    let hours = increment(modulate, number, u64::from(time.hour));
    next_instant(moment, below, i128::from(hours) * 3_600_000_000_000)
}

fn next_minute(moment: Timestamp, time: Time, modulate: bool, number: u64) -> Option<Timestamp>
    requires { 0 < number }
    ensures { SomeIff (nanos result) (IsTimestampNanos (ahead moment.nanosecond
        (time.second * 1_000_000_000 + time.subsec_nanosecond)
        (increment modulate number time.minute * 60)))
        (ahead moment.nanosecond
        (time.second * 1_000_000_000 + time.subsec_nanosecond)
        (increment modulate number time.minute * 60)) }
{
    let time = time.to_plain();
    let below = i64::from(time.second) * 1_000_000_000 + i64::from(time.subsec_nanosecond);
    let minutes = increment(modulate, number, u64::from(time.minute));
    next_instant(moment, below, i128::from(minutes) * 60_000_000_000)
}

fn next_second(moment: Timestamp, time: Time, modulate: bool, number: u64) -> Option<Timestamp>
    requires { 0 < number }
    ensures { SomeIff (nanos result) (IsTimestampNanos (ahead moment.nanosecond
        time.subsec_nanosecond (increment modulate number time.second * 1)))
        (ahead moment.nanosecond
        time.subsec_nanosecond (increment modulate number time.second * 1)) }
{
    let time = time.to_plain();
    let seconds = increment(modulate, number, u64::from(time.second));
    let below = i64::from(time.subsec_nanosecond);
    next_instant(moment, below, i128::from(seconds) * 1_000_000_000)
}
