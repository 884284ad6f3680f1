//! Dates in paths.
ghost use Rattle.std.specs.Prelude.{◌≡◌, ◌++◌, IfOk, OnOk, IfSome, IfNone, string_bytes, is_some, option_map, unwrap_or};
ghost use Rattle.jiff.specs.Words.{plain_zone};
ghost use Rattle.log4rs_base.specs.First.{IsFirst, NeverOpens};
ghost use Rattle.log4rs_base.specs.Times.{expanded_time, time_placeholder, times_from, date_by};

use crate::{Clock, OutOfMemory, date_text};
use jiff::Timestamp;
use jiff::tz::TimeZone;
use std::alloc::Global;

/// The number of placeholders that are replaced in one path, at most.
pub const MAX_REPLACEMENTS: usize = 5;

/// Replaces the first five `$TIME{format}` of a path that have a date by that date: what the clock
/// of the time zone shows at the moment.
///
/// A format ends at the first `}`. It has no date if it does not parse, or if the local year is not
/// in 0 to 9999: its placeholder then stays, and is not counted. The path is read once, from the
/// left: inserted dates are not expanded again. All else stays. Fails if an allocation fails.
pub fn expand_time(
    alloc: Global,
    path: &str,
    moment: Timestamp,
    zone: &TimeZone<'_>,
) -> Result<String, OutOfMemory>
    ensures { IfOk result (λ text. string_bytes text
        ≡ expanded_time (plain_zone zone.now) moment.nanosecond path.now) }
{
    expand_by(alloc, path, &Clock::local(moment, zone))
}

/// Returns the path with the dates that a clock shows.
fn expand_by(alloc: Global, path: &str, clock: &Clock) -> Result<String, OutOfMemory>
    ensures { IfOk result (λ text. string_bytes text
        ≡ times_from (date_by clock.now) MAX_REPLACEMENTS 0 path.now) }
{
    let mut text = String::new(alloc);
    let mut rest = path;
    let mut left = MAX_REPLACEMENTS;
    while left > 0 {
        let Some((before, format, behind)) = placeholder(rest) else {
            break;
        };
        text.push_str(before)?;
        if push_date(alloc, &mut text, format, clock)? {
            left -= 1;
        }
        rest = behind;
    }
    text.push_str(rest)?;
    Ok(text)
}

/// Appends the date of a format, or its placeholder if it has none, and returns whether it has one.
fn push_date(
    alloc: Global,
    out: &mut String,
    format: &str,
    clock: &Clock,
) -> Result<bool, OutOfMemory>
    ensures dated { IfOk result (λ dated. dated ≡ is_some (date_by clock.now format.now)) }
    ensures text { OnOk result (string_bytes out.new ≡ string_bytes out.old
        ++ unwrap_or (date_by clock.now format.now) (time_placeholder format.now)) }
{
    match date_by(alloc, format, clock)? {
        Some(date) => {
            out.push_str(&date)?;
            Ok(true)
        }
        None => {
            push_placeholder(out, format)?;
            Ok(false)
        }
    }
}

/// Returns the date of a format, if it has one.
#[tactic(auto, unfolding(crate::specs::Times::date_by))]
fn date_by(alloc: Global, format: &str, clock: &Clock) -> Result<Option<String>, OutOfMemory>
    ensures { IfOk result (λ date. option_map string_bytes date ≡ date_by clock.now format.now) }
{
    date_text(alloc, format, clock)
}

/// Returns the text before the first placeholder, its format, and the text behind it.
fn placeholder(text: &str) -> Option<(&str, &str, &str)>
    ensures found { IfSome result (λ r. IsFirst text.now r.0.now r.1.now r.2.now) }
    ensures none { IfNone result (NeverOpens text.now) }
{
    match text.split_once("$TIME{") {
        None => None,
        Some((before, opened)) => match opened.split_once('}') {
            None => None,
            Some((format, behind)) => Some((before, format, behind)),
        },
    }
}

/// Appends the placeholder of a format.
fn push_placeholder(out: &mut String, format: &str) -> Result<(), OutOfMemory>
    ensures { OnOk result (string_bytes out.new
        ≡ string_bytes out.old ++ time_placeholder format.now) }
{
    out.push_str("$TIME{")?;
    out.push_str(format)?;
    out.push('}')?;
    Ok(())
}
