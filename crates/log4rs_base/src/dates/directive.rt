//! Directives of date formats.
ghost use Rattle.std.specs.Prelude.{◌≡◌, ◌<◌, ◌/◌, ◌%◌, ◌∷◌, ◌++◌, [], pos, OnOk, string_bytes, codes, unsigned_abs, IsAscii};
ghost use Rattle.jiff.specs.Words.{IsBetween};
ghost use Rattle.log4rs_base.specs.Standard.{zero_filled, two_digits, year_text, iso_date, time_text, standard_text};
ghost use Rattle.log4rs_base.specs.Directive.{directive_text, offset_text, offset_sign, offset_minutes, short_year, zone_name, fraction, american_date, date_time, timestamp_text};

use crate::{Clock, OutOfMemory, Standard};
use itoa::Buffer;
use std::alloc::Global;
use std::str::from_utf8_unchecked;

/// A directive of a date format. The examples are of `2016-03-20T14:22:20.644420340-08:00`.
#[derive(Clone, Copy)]
pub enum Directive {
    /// A directive that prints as in `jiff`.
    Standard(Standard),
    /// `%y`: the last two digits of the year.
    ShortYear,
    /// `%D`: the date, such as `03/20/16`.
    AmericanDate,
    /// `%z`: the offset from UTC in hours and minutes, such as `-0800`.
    Offset,
    /// `%:z`: the offset with a colon, such as `-08:00`.
    ColonOffset,
    /// `%Z`: `UTC` for the clock of UTC, else as `%:z`.
    ZoneName,
    /// `%.3f`: a point and the milliseconds, such as `.644`.
    Milliseconds,
    /// `%.6f`: a point and the microseconds, such as `.644420`.
    Microseconds,
    /// `%.9f`: a point and the nanoseconds, such as `.644420340`.
    Nanoseconds,
    /// `%+`: date, time, exact fraction and offset, such as `2016-03-20T14:22:20.644420340-08:00`.
    Timestamp,
}

impl Directive {
    /// Appends what the directive prints of a clock. Fails if an allocation fails; `out` may then
    /// end in a part of it.
    pub fn push(self, alloc: Global, out: &mut String, clock: &Clock) -> Result<(), OutOfMemory>
        requires { IsBetween (pos 0) (pos 9999) clock.now.year }
        ensures { OnOk result
            (string_bytes out.new ≡ string_bytes out.old ++ directive_text self clock.now) }
    {
        match self {
            Directive::Standard(standard) => push_standard(alloc, out, standard, clock),
            Directive::ShortYear => push_short_year(out, clock),
            Directive::AmericanDate => push_american_date(out, clock),
            Directive::Offset => push_offset(out, clock),
            Directive::ColonOffset => push_colon_offset(out, clock),
            Directive::ZoneName => push_zone_name(out, clock),
            Directive::Milliseconds => push_places(out, 3, clock.nanosecond() / 1_000_000),
            Directive::Microseconds => push_places(out, 6, clock.nanosecond() / 1_000),
            Directive::Nanoseconds => push_places(out, 9, clock.nanosecond()),
            Directive::Timestamp => push_timestamp(out, clock),
        }
    }
}

/// Appends a number with leading zeros.
fn push_number(out: &mut String, width: usize, number: u32) -> Result<(), OutOfMemory>
    ensures { OnOk result
        (string_bytes out.new ≡ string_bytes out.old ++ zero_filled width number) }
{
    let mut buffer = Buffer::new();
    let digits = buffer.format(number);
    let zeros = width.saturating_sub(digits.len());
    for place in 0..zeros {
        out.push('0')?;
    }
    out.push_str(digits)?;
    Ok(())
}

/// Appends what a directive prints. Numbers are printed here; names and the rest by `jiff`.
fn push_standard(
    alloc: Global,
    out: &mut String,
    standard: Standard,
    clock: &Clock,
) -> Result<(), OutOfMemory>
    requires { IsBetween (pos 0) (pos 9999) clock.now.year }
    ensures { OnOk result
        (string_bytes out.new ≡ string_bytes out.old ++ standard_text standard clock.now) }
{
    clock.bounds();
    match standard {
        Standard::Year => push_number(out, 4, u32::from(unsigned_year(clock))),
        Standard::Month => push_two(out, clock.month()),
        Standard::Day => push_two(out, clock.day()),
        Standard::Hour => push_two(out, clock.hour()),
        Standard::Minute => push_two(out, clock.minute()),
        Standard::Second => push_two(out, clock.second()),
        Standard::IsoDate => push_date(out, clock),
        Standard::Time => push_time(out, clock),
        Standard::HourMinute => push_pair(out, clock.hour(), b':', clock.minute()),
        Standard::Percent => Ok(out.push('%')?),
        _ => Ok(out.push_str(&standard.text(alloc, clock)?)?),
    }
}

fn push_short_year(out: &mut String, clock: &Clock) -> Result<(), OutOfMemory>
    ensures { OnOk result (string_bytes out.new ≡ string_bytes out.old ++ short_year clock.now) }
{
    push_number(out, 2, u32::from(unsigned_year(clock) % 100))
}

fn push_american_date(out: &mut String, clock: &Clock) -> Result<(), OutOfMemory>
    ensures { OnOk result (string_bytes out.new ≡ string_bytes out.old
        ++ american_date clock.now) }
{
    clock.bounds();
    push_pair(out, clock.month(), b'/', clock.day())?;
    out.push('/')?;
    push_short_year(out, clock)
}

/// Appends an offset in hours and minutes, with nothing between them.
fn push_offset(out: &mut String, clock: &Clock) -> Result<(), OutOfMemory>
    ensures { OnOk result
        (string_bytes out.new ≡ string_bytes out.old ++ offset_text [] clock.now.offset) }
{
    let (sign, hours, minutes) = offset_parts(clock);
    push_ascii(out, &[sign, hours.0, hours.1, minutes.0, minutes.1])
}

/// Appends an offset in hours and minutes, with a colon between them.
fn push_colon_offset(out: &mut String, clock: &Clock) -> Result<(), OutOfMemory>
    ensures { OnOk result
        (string_bytes out.new ≡ string_bytes out.old ++ offset_text (codes ":") clock.now.offset) }
{
    let (sign, hours, minutes) = offset_parts(clock);
    push_ascii(out, &[sign, hours.0, hours.1, b':', minutes.0, minutes.1])
}

/// Returns the sign of an offset, and the digits of its hours and of its minutes.
#[inline(always)]
fn offset_parts(clock: &Clock) -> (u8, (u8, u8), (u8, u8))
    ensures sign { offset_sign clock.now.offset ≡ result.0 ∷ [] }
    ensures hours { two_digits (offset_minutes clock.now.offset / 60)
        ≡ result.1.0 ∷ result.1.1 ∷ [] }
    ensures minutes { two_digits (offset_minutes clock.now.offset % 60)
        ≡ result.2.0 ∷ result.2.1 ∷ [] }
    ensures ascii_sign { result.0 < 128 }
    ensures ascii_hours { (result.1.0 < 128) × (result.1.1 < 128) }
    ensures ascii_minutes { (result.2.0 < 128) × (result.2.1 < 128) }
{
    clock.bounds();
    let offset = clock.offset();
    let minutes = offset.unsigned_abs() / 60;
    let sign = if offset < 0 && minutes != 0 {
        b'-'
    } else {
        b'+'
    };
    (
        sign,
        digits((minutes / 60) as u8),
        digits((minutes % 60) as u8),
    )
}

fn push_zone_name(out: &mut String, clock: &Clock) -> Result<(), OutOfMemory>
    ensures { OnOk result (string_bytes out.new ≡ string_bytes out.old ++ zone_name clock.now) }
{
    if clock.is_utc() {
        Ok(out.push_str("UTC")?)
    } else {
        push_colon_offset(out, clock)
    }
}

/// Appends a decimal point and the number in so many places.
fn push_places(out: &mut String, width: usize, number: u32) -> Result<(), OutOfMemory>
    ensures { OnOk result
        (string_bytes out.new ≡ string_bytes out.old ++ (codes "." ++ zero_filled width number)) }
{
    out.push('.')?;
    push_number(out, width, number)
}

/// Appends a decimal point and the number in nine places.
fn push_nanoseconds(out: &mut String, number: u32) -> Result<(), OutOfMemory>
    requires { number < 1_000_000_000 }
    ensures { OnOk result
        (string_bytes out.new ≡ string_bytes out.old ++ (codes "." ++ zero_filled 9 number)) }
{
    let (hundreds, ten_thousands) = (number / 100, number / 100 / 100);
    let millions = ten_thousands / 100;
    let first = b'0' + (millions / 100) as u8;
    let (second, third) = (
        digits((millions % 100) as u8),
        digits((ten_thousands % 100) as u8),
    );
    let (fourth, last) = (digits((hundreds % 100) as u8), digits((number % 100) as u8));
    push_ascii(
        out,
        &[
            b'.', first, second.0, second.1, third.0, third.1, fourth.0, fourth.1, last.0, last.1,
        ],
    )
}

/// Appends the fraction of the second, in the fewest places that are exact.
fn push_fraction(out: &mut String, clock: &Clock) -> Result<(), OutOfMemory>
    ensures { OnOk result (string_bytes out.new ≡ string_bytes out.old ++ fraction clock.now) }
{
    clock.bounds();
    let nanosecond = clock.nanosecond();
    if nanosecond == 0 {
        Ok(())
    } else if nanosecond % 1_000_000 == 0 {
        push_places(out, 3, nanosecond / 1_000_000)
    } else if nanosecond % 1_000 == 0 {
        push_places(out, 6, nanosecond / 1_000)
    } else {
        push_nanoseconds(out, nanosecond)
    }
}

/// Returns the year without its sign.
fn unsigned_year(clock: &Clock) -> u16
    ensures { result ≡ unsigned_abs clock.now.year }
{
    clock.year().unsigned_abs()
}

/// Returns the two digits of a number.
fn digits(number: u8) -> (u8, u8)
    requires { number < 100 }
    ensures text { two_digits number ≡ result.0 ∷ result.1 ∷ [] }
    ensures ascii { (result.0 < 128) × (result.1 < 128) }
{
    (b'0' + number / 10, b'0' + number % 10)
}

/// Appends characters of ASCII.
fn push_ascii(out: &mut String, text: &[u8]) -> Result<(), OutOfMemory>
    requires { IsAscii text.now }
    ensures { OnOk result (string_bytes out.new ≡ string_bytes out.old ++ text.now) }
{
    // ASCII is UTF-8: the bytes are not tested.
    out.push_str(unsafe { from_utf8_unchecked(text) })?;
    Ok(())
}

/// Appends a number of two digits.
fn push_two(out: &mut String, number: u8) -> Result<(), OutOfMemory>
    requires { number < 100 }
    ensures { OnOk result (string_bytes out.new ≡ string_bytes out.old ++ two_digits number) }
{
    let (tens, ones) = digits(number);
    push_ascii(out, &[tens, ones])
}

/// Appends two numbers of two digits, and what stands between them.
fn push_pair(out: &mut String, first: u8, between: u8, second: u8) -> Result<(), OutOfMemory>
    requires { (first < 100) × (between < 128) × (second < 100) }
    ensures { OnOk result (string_bytes out.new ≡ string_bytes out.old
        ++ (two_digits first ++ between ∷ two_digits second)) }
{
    let (first, second) = (digits(first), digits(second));
    push_ascii(out, &[first.0, first.1, between, second.0, second.1])
}

/// Returns the digits of a year without its sign, of a month and of a day.
#[inline(always)]
fn date_parts(clock: &Clock) -> ((u8, u8), (u8, u8), (u8, u8), (u8, u8))
    ensures year { year_text clock.now
        ≡ result.0.0 ∷ result.0.1 ∷ result.1.0 ∷ result.1.1 ∷ [] }
    ensures month { two_digits clock.now.month ≡ result.2.0 ∷ result.2.1 ∷ [] }
    ensures day { two_digits clock.now.day ≡ result.3.0 ∷ result.3.1 ∷ [] }
    ensures ascii_year { (result.0.0 < 128) × (result.0.1 < 128)
        × (result.1.0 < 128) × (result.1.1 < 128) }
    ensures ascii_day { (result.2.0 < 128) × (result.2.1 < 128)
        × (result.3.0 < 128) × (result.3.1 < 128) }
{
    clock.bounds();
    let year = unsigned_year(clock);
    let (century, year) = (digits((year / 100) as u8), digits((year % 100) as u8));
    let (month, day) = (digits(clock.month()), digits(clock.day()));
    (century, year, month, day)
}

/// Returns the digits of an hour, a minute and a second.
#[inline(always)]
fn time_parts(clock: &Clock) -> ((u8, u8), (u8, u8), (u8, u8))
    ensures hour { two_digits clock.now.hour ≡ result.0.0 ∷ result.0.1 ∷ [] }
    ensures minute { two_digits clock.now.minute ≡ result.1.0 ∷ result.1.1 ∷ [] }
    ensures second { two_digits clock.now.second ≡ result.2.0 ∷ result.2.1 ∷ [] }
    ensures ascii_hour { (result.0.0 < 128) × (result.0.1 < 128) }
    ensures ascii_minute { (result.1.0 < 128) × (result.1.1 < 128) }
    ensures ascii_second { (result.2.0 < 128) × (result.2.1 < 128) }
{
    clock.bounds();
    let (hour, minute) = (digits(clock.hour()), digits(clock.minute()));
    let second = digits(clock.second());
    (hour, minute, second)
}

/// Appends a date, such as `2016-03-20`.
fn push_date(out: &mut String, clock: &Clock) -> Result<(), OutOfMemory>
    ensures { OnOk result (string_bytes out.new ≡ string_bytes out.old ++ iso_date clock.now) }
{
    let (century, year, month, day) = date_parts(clock);
    push_ascii(
        out,
        &[
            century.0, century.1, year.0, year.1, b'-', month.0, month.1, b'-', day.0, day.1,
        ],
    )
}

/// Appends a time, such as `14:22:20`.
fn push_time(out: &mut String, clock: &Clock) -> Result<(), OutOfMemory>
    ensures { OnOk result (string_bytes out.new ≡ string_bytes out.old ++ time_text clock.now) }
{
    let (hour, minute, second) = time_parts(clock);
    push_ascii(
        out,
        &[
            hour.0, hour.1, b':', minute.0, minute.1, b':', second.0, second.1,
        ],
    )
}

/// Appends a date and a time, such as `2016-03-20T14:22:20`.
fn push_date_time(out: &mut String, clock: &Clock) -> Result<(), OutOfMemory>
    ensures { OnOk result (string_bytes out.new ≡ string_bytes out.old ++ date_time clock.now) }
{
    let (century, year, month, day) = date_parts(clock);
    let (hour, minute, second) = time_parts(clock);
    push_ascii(
        out,
        &[
            century.0, century.1, year.0, year.1, b'-', month.0, month.1, b'-', day.0, day.1, b'T',
            hour.0, hour.1, b':', minute.0, minute.1, b':', second.0, second.1,
        ],
    )
}

/// Appends the text of `%+`: date, time, the fraction in the fewest of 0, 3, 6 and 9 places that
/// are exact, and the offset in hours and minutes. A negative year stands without its sign. Fails
/// if an allocation fails; `out` may then end in a part of the text.
pub fn push_timestamp(out: &mut String, clock: &Clock) -> Result<(), OutOfMemory>
    ensures { OnOk result (string_bytes out.new ≡ string_bytes out.old
        ++ timestamp_text clock.now) }
{
    push_date_time(out, clock)?;
    push_fraction(out, clock)?;
    push_colon_offset(out, clock)
}
