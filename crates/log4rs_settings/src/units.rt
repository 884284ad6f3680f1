//! Sizes, intervals and durations: numbers, and the units behind them.
ghost use Rattle.std.specs.Prelude.{◌≡◌, ◌<◌, option_map, length, IfSome};
ghost use Rattle.std.specs.List.{prefix_len};
ghost use Rattle.log4rs_settings.specs.Duration.{milliseconds_told, milliseconds_of, part_told, behind_part};
ghost use Rattle.log4rs_settings.specs.Interval.{interval_told, interval_behind, interval_of, is_unit};
ghost use Rattle.log4rs_settings.specs.Leading.{in_class, leading, after_leading};
ghost use Rattle.log4rs_settings.specs.Number.{number_told, behind_number};
ghost use Rattle.log4rs_settings.specs.Size.{bytes_told, bytes_of};

use log4rs_base::TimeTriggerInterval;

/// A class of ASCII characters.
#[derive(Clone, Copy)]
enum Class {
    Digit,
    Letter,
    Space,
}

impl Class {
    /// Returns whether the byte is a character of the class.
    fn has(self, byte: u8) -> bool
        ensures { result ≡ in_class self byte }
    {
        match self {
            Class::Digit => byte.is_ascii_digit(),
            Class::Letter => byte.is_ascii_alphabetic(),
            Class::Space => byte == b' ',
        }
    }
}

/// Returns the longest run of characters of a class at the front, and the rest of the text.
fn split_leading(text: &str, class: Class) -> (&str, &str)
    ensures front { result.0.now ≡ leading class text.now }
    ensures rest { result.1.now ≡ after_leading class text.now }
{
    text.split_at(leading_len(text, class))
}

/// Returns the length of the longest run of characters of a class at the front.
fn leading_len(text: &str, class: Class) -> usize
    ensures { result ≡ prefix_len (in_class class) text.now }
{
    let bytes = text.as_bytes().iter();
    bytes.take_while(|byte| class.has(**byte)).count()
}

/// Returns the number that the digits at the front write, and the rest of the text. `None` without
/// a digit, and if the number exceeds 64 bits.
fn split_number(text: &str) -> Option<(u64, &str)>
    ensures number { option_map (λ r. r.0) result ≡ number_told text.now }
    ensures behind { IfSome result (λ r. r.1.now ≡ behind_number text.now) }
{
    let (digits, behind) = split_leading(text, Class::Digit);
    match digits.parse::<u64>() {
        Ok(number) => Some((number, behind)),
        Err(_) => None,
    }
}

/// Parses a size such as `10 mb` into bytes: digits, then an optional unit.
///
/// The unit is `b`, or one of `kb`, `mb`, `gb` and `tb`, also with an `i` before the `b`, in any
/// ASCII case; white space may surround it. Each unit is 1024 times the one before. Returns `None`
/// without a digit, for another unit, for only white space behind the digits, and past 64 bits.
pub fn parse_size(text: &str) -> Option<u64>
    ensures { result ≡ bytes_told text.now }
{
    let (number, behind) = split_number(text)?;
    if behind.is_empty() {
        return Some(number);
    }
    number.checked_mul(bytes_of(behind.trim())?)
}

/// Returns the bytes of a unit.
fn bytes_of(unit: &str) -> Option<u64>
    ensures { result ≡ bytes_of unit.now }
{
    if unit.eq_ignore_ascii_case("b") {
        Some(1)
    } else if unit.eq_ignore_ascii_case("kb") || unit.eq_ignore_ascii_case("kib") {
        Some(1 << 10)
    } else if unit.eq_ignore_ascii_case("mb") || unit.eq_ignore_ascii_case("mib") {
        Some(1 << 20)
    } else if unit.eq_ignore_ascii_case("gb") || unit.eq_ignore_ascii_case("gib") {
        Some(1 << 30)
    } else if unit.eq_ignore_ascii_case("tb") || unit.eq_ignore_ascii_case("tib") {
        Some(1 << 40)
    } else {
        None
    }
}

/// Parses an interval such as `2 hours`: digits, then an optional unit.
///
/// The unit is `second`, `minute`, `hour`, `day`, `week`, `month` or `year`, also with an `s` at
/// the end, in any ASCII case; white space may surround it. Without a unit the number counts
/// seconds. Returns `None` without a digit, for another unit, for only white space behind the
/// digits, and for a number past `i64::MAX`.
pub fn parse_interval(text: &str) -> Option<TimeTriggerInterval>
    ensures { result ≡ interval_told text.now }
{
    let (number, behind) = split_number(text)?;
    interval_behind(i64::try_from(number).ok()?, behind)
}

/// Returns so many of the unit that a text names; seconds if it names none.
fn interval_behind(number: i64, rest: &str) -> Option<TimeTriggerInterval>
    ensures { result ≡ interval_behind number rest.now }
{
    if rest.is_empty() {
        Some(TimeTriggerInterval::Second(number))
    } else {
        interval_of(number, rest.trim())
    }
}

/// Returns so many of a unit.
fn interval_of(number: i64, unit: &str) -> Option<TimeTriggerInterval>
    ensures { result ≡ interval_of number unit.now }
{
    if is_unit(unit, "second", "seconds") {
        Some(TimeTriggerInterval::Second(number))
    } else if is_unit(unit, "minute", "minutes") {
        Some(TimeTriggerInterval::Minute(number))
    } else if is_unit(unit, "hour", "hours") {
        Some(TimeTriggerInterval::Hour(number))
    } else if is_unit(unit, "day", "days") {
        Some(TimeTriggerInterval::Day(number))
    } else if is_unit(unit, "week", "weeks") {
        Some(TimeTriggerInterval::Week(number))
    } else if is_unit(unit, "month", "months") {
        Some(TimeTriggerInterval::Month(number))
    } else if is_unit(unit, "year", "years") {
        Some(TimeTriggerInterval::Year(number))
    } else {
        None
    }
}

/// Returns whether the unit has this name, singular or plural.
fn is_unit(unit: &str, one: &str, several: &str) -> bool
    ensures { result ≡ is_unit unit.now one.now several.now }
{
    unit.eq_ignore_ascii_case(one) || unit.eq_ignore_ascii_case(several)
}

/// Parses a duration such as `1h 30m` into milliseconds: one or more numbers, each with its unit.
///
/// The units are `ms` and `msec`; `s`, `sec`, `second` and `seconds`; `m`, `min`, `minute` and
/// `minutes`; `h`, `hr`, `hour` and `hours`; `d`, `day` and `days`; `w`, `week` and `weeks`. Spaces
/// may precede a unit, and separate a unit from the next number. Returns `None` for any other text,
/// and if a number, a part or the sum exceeds 64 bits.
pub fn parse_duration(text: &str) -> Option<u64>
    ensures { result ≡ milliseconds_told text.now }
{
    let mut total: u64 = 0;
    let mut rest = text;
    loop {
        let (part, behind) = split_part(rest)?;
        total = total.checked_add(part)?;
        if behind.is_empty() {
            return Some(total);
        }
        rest = split_leading(behind, Class::Space).1;
    }
}

/// Returns the milliseconds of the number and unit at the front, and the rest of the text.
fn split_part(text: &str) -> Option<(u64, &str)>
    ensures part { option_map (λ r. r.0) result ≡ part_told text.now }
    ensures behind { IfSome result (λ r. r.1.now ≡ behind_part text.now) }
    ensures shorter { IfSome result (λ r. length r.1.now < length text.now) }
{
    let (number, behind) = split_number(text)?;
    let (_, named) = split_leading(behind, Class::Space);
    let (unit, behind) = split_leading(named, Class::Letter);
    let part = number.checked_mul(milliseconds_of(unit)?)?;
    Some((part, behind))
}

/// Returns the milliseconds of a unit.
fn milliseconds_of(unit: &str) -> Option<u64>
    ensures { result ≡ milliseconds_of unit.now }
{
    match unit {
        "ms" | "msec" => Some(1),
        "s" | "sec" | "second" | "seconds" => Some(1_000),
        "m" | "min" | "minute" | "minutes" => Some(60_000),
        "h" | "hr" | "hour" | "hours" => Some(3_600_000),
        "d" | "day" | "days" => Some(86_400_000),
        "w" | "week" | "weeks" => Some(604_800_000),
        _ => None,
    }
}
