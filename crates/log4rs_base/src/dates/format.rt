//! Date formats: literal text, and directives behind a `%`.
ghost use Rattle.std.specs.Prelude.{◌≡◌, ◌++◌, [], pos, IfOk, IfSome, OnOk, is_some, option_map, unwrap_or, map, string_bytes};
ghost use Rattle.jiff.specs.Words.{IsBetween};
ghost use Rattle.std.specs.List.{flat_map};
ghost use Rattle.log4rs_base.specs.DateFormat.{directives, found_at, format_items, item_text, items_text, date_text};
ghost use Rattle.log4rs_base.specs.PartView.{part_items, parts_items, items_of};
ghost use Rattle.log4rs_base.specs.FoundView.{found_view, named_entry, IsBehind};

use crate::{Clock, Directive, OutOfMemory, Standard};
use std::alloc::Global;

/// The directives by their names, which follow the `%`.
const NAMES: [(&str, Directive); 27] = [
    ("Y", Directive::Standard(Standard::Year)),
    ("m", Directive::Standard(Standard::Month)),
    ("d", Directive::Standard(Standard::Day)),
    ("H", Directive::Standard(Standard::Hour)),
    ("M", Directive::Standard(Standard::Minute)),
    ("S", Directive::Standard(Standard::Second)),
    ("j", Directive::Standard(Standard::DayOfYear)),
    ("e", Directive::Standard(Standard::SpacedDay)),
    ("I", Directive::Standard(Standard::TwelveHour)),
    ("p", Directive::Standard(Standard::Meridiem)),
    ("a", Directive::Standard(Standard::ShortWeekday)),
    ("A", Directive::Standard(Standard::Weekday)),
    ("b", Directive::Standard(Standard::ShortMonth)),
    ("B", Directive::Standard(Standard::MonthName)),
    ("F", Directive::Standard(Standard::IsoDate)),
    ("T", Directive::Standard(Standard::Time)),
    ("R", Directive::Standard(Standard::HourMinute)),
    ("%", Directive::Standard(Standard::Percent)),
    ("y", Directive::ShortYear),
    ("D", Directive::AmericanDate),
    ("z", Directive::Offset),
    (":z", Directive::ColonOffset),
    ("Z", Directive::ZoneName),
    (".3f", Directive::Milliseconds),
    (".6f", Directive::Microseconds),
    (".9f", Directive::Nanoseconds),
    ("+", Directive::Timestamp),
];

/// Returns the directive of the first entry whose name begins the text, and the text behind the
/// name.
fn found_in<'t>(names: &[(&str, Directive)], text: &'t str) -> Option<(Directive, &'t str)>
    ensures found { found_view text.now result ≡ found_at (map named_entry names.now) text.now }
    ensures behind { IfSome result (λ r. IsBehind text.now r.1.now) }
{
    for entry in names {
        if let Some(behind) = text.strip_prefix(entry.0) {
            return Some((entry.1, behind));
        }
    }
    None
}

/// Returns the directive whose name begins the text, and the text behind the name.
fn named_directive(text: &str) -> Option<(Directive, &str)>
    ensures found { found_view text.now result ≡ found_at directives text.now }
    ensures behind { IfSome result (λ r. IsBehind text.now r.1.now) }
{
    found_in(&NAMES, text)
}

/// A part of a format.
#[derive(Drop)]
pub(crate) enum Part {
    /// Text that prints itself.
    Literal(String),
    /// A directive.
    Directive(Directive),
}

impl Part {
    /// Appends what the part prints of a clock.
    fn push(&self, alloc: Global, out: &mut String, clock: &Clock) -> Result<(), OutOfMemory>
        requires { IsBetween (pos 0) (pos 9999) clock.now.year }
        ensures { OnOk result (string_bytes out.new ≡ string_bytes out.old
            ++ flat_map (item_text clock.now) (part_items self.now)) }
    {
        match self {
            Part::Literal(text) => Ok(out.push_str(text)?),
            Part::Directive(directive) => directive.push(alloc, out, clock),
        }
    }
}

/// A parsed date format.
#[derive(Drop)]
pub struct DateFormat {
    parts: Vec<Part>,
}

impl DateFormat {
    /// Parses a format. Returns `None` if a `%` begins no directive. Fails if an allocation fails.
    pub fn parse(alloc: Global, format: &str) -> Result<Option<DateFormat>, OutOfMemory>
        ensures { IfOk result (λ found. option_map items_of found ≡ format_items format.now) }
    {
        let mut parts = Vec::new(alloc);
        let mut rest = format;
        while let Some((literal, after)) = rest.split_once('%') {
            let Some((directive, behind)) = named_directive(after) else {
                return Ok(None);
            };
            parts.push(Part::Literal(String::from_str(alloc, literal)?))?;
            parts.push(Part::Directive(directive))?;
            rest = behind;
        }
        parts.push(Part::Literal(String::from_str(alloc, rest)?))?;
        Ok(Some(DateFormat { parts }))
    }

    /// Returns the text of a date, or `None` if its year is not in 0 to 9999. Fails if an
    /// allocation fails.
    pub fn text(&self, alloc: Global, clock: &Clock) -> Result<Option<String>, OutOfMemory>
        ensures { IfOk result (λ text. option_map string_bytes text
            ≡ items_text (items_of self.now) clock.now) }
    {
        let mut text = String::new(alloc);
        if self.push(alloc, &mut text, clock)? {
            return Ok(Some(text));
        }
        Ok(None)
    }

    /// Appends the text of a date, and returns whether it has one: whether its year is in 0 to
    /// 9999. If not, `out` is unchanged. Fails if an allocation fails; `out` may then end in a part
    /// of the text.
    pub fn push(&self, alloc: Global, out: &mut String, clock: &Clock) -> Result<bool, OutOfMemory>
        ensures shown { IfOk result (λ shown. shown
            ≡ is_some (items_text (items_of self.now) clock.now)) }
        ensures text { OnOk result (string_bytes out.new ≡ string_bytes out.old
            ++ unwrap_or (items_text (items_of self.now) clock.now) []) }
    {
        if clock.year() < 0 || clock.year() > 9999 {
            return Ok(false);
        }
        push_parts(alloc, out, self.parts.as_slice(), clock)?;
        Ok(true)
    }
}

/// Appends what the parts print of a clock.
fn push_parts(
    alloc: Global,
    out: &mut String,
    parts: &[Part],
    clock: &Clock,
) -> Result<(), OutOfMemory>
    requires { IsBetween (pos 0) (pos 9999) clock.now.year }
    ensures { OnOk result (string_bytes out.new ≡ string_bytes out.old
        ++ flat_map (item_text clock.now) (parts_items parts.now)) }
{
    for part in parts {
        part.push(alloc, out, clock)?;
    }
    Ok(())
}

/// Returns the text of a date, or `None` if the format does not parse or the year is not in 0 to
/// 9999. Fails if an allocation fails.
pub fn date_text(alloc: Global, format: &str, clock: &Clock) -> Result<Option<String>, OutOfMemory>
    ensures { IfOk result (λ text. option_map string_bytes text
        ≡ date_text format.now clock.now) }
{
    match DateFormat::parse(alloc, format)? {
        Some(format) => format.text(alloc, clock),
        None => Ok(None),
    }
}
