//! Directives of date formats that print as in `jiff`.
ghost use Rattle.std.specs.Prelude.{◌≡◌, ◌++◌, pos, OnOk, IfOk, string_bytes};
ghost use Rattle.std.specs.Int.{IsInRange};
ghost use Rattle.jiff.specs.Words.{IsBetween};
ghost use Rattle.log4rs_base.specs.Standard.{standard_text, standard_format};
ghost use Rattle.log4rs_base.specs.Printed.{HasClock};

use crate::{Clock, OutOfMemory};
use jiff::fmt::strtime::{self, BrokenDownTime, Config};
use std::alloc::Global;

/// A directive of a date format that prints as in `jiff`.
#[derive(Clone, Copy)]
pub enum Standard {
    /// `%Y`: the year in four digits.
    Year,
    /// `%m`: the month, from 01 to 12.
    Month,
    /// `%d`: the day of the month, from 01 to 31.
    Day,
    /// `%H`: the hour, from 00 to 23.
    Hour,
    /// `%M`: the minute, from 00 to 59.
    Minute,
    /// `%S`: the second, from 00 to 59.
    Second,
    /// `%j`: the day of the year, from 001 to 366.
    DayOfYear,
    /// `%e`: the day of the month, with a space in front of one digit.
    SpacedDay,
    /// `%I`: the hour of a 12-hour clock, from 01 to 12.
    TwelveHour,
    /// `%p`: `AM` or `PM`.
    Meridiem,
    /// `%a`: the first three letters of the weekday, such as `Sun`.
    ShortWeekday,
    /// `%A`: the weekday, such as `Sunday`.
    Weekday,
    /// `%b`: the first three letters of the month, such as `Mar`.
    ShortMonth,
    /// `%B`: the month, such as `March`.
    MonthName,
    /// `%F`: the date, such as `2016-03-20`.
    IsoDate,
    /// `%T`: the time, such as `14:22:20`.
    Time,
    /// `%R`: the hour and the minute, such as `14:22`.
    HourMinute,
    /// `%%`: a percent sign.
    Percent,
}

impl Standard {
    /// Returns the format that is this directive alone.
    fn format(self) -> &'static [u8]
        ensures { result.now ≡ standard_format self }
    {
        match self {
            Standard::Year => b"%Y",
            Standard::Month => b"%m",
            Standard::Day => b"%d",
            Standard::Hour => b"%H",
            Standard::Minute => b"%M",
            Standard::Second => b"%S",
            Standard::DayOfYear => b"%j",
            Standard::SpacedDay => b"%e",
            Standard::TwelveHour => b"%I",
            Standard::Meridiem => b"%p",
            Standard::ShortWeekday => b"%a",
            Standard::Weekday => b"%A",
            Standard::ShortMonth => b"%b",
            Standard::MonthName => b"%B",
            Standard::IsoDate => b"%F",
            Standard::Time => b"%T",
            Standard::HourMinute => b"%R",
            Standard::Percent => b"%%",
        }
    }

    /// Returns what the directive prints of a clock. Fails if an allocation fails.
    pub fn text(self, alloc: Global, clock: &Clock) -> Result<String, OutOfMemory>
        requires { IsBetween (pos 0) (pos 9999) clock.now.year }
        ensures { IfOk result (λ text. string_bytes text ≡ standard_text self clock.now) }
    {
        // `jiff` refuses these formats only if an allocation fails.
        match strtime::to_string(alloc, Config::new(), self.format(), &clock.parts()) {
            Ok(text) => Ok(text),
            Err(_) => Err(OutOfMemory),
        }
    }
}

impl Clock {
    /// Returns the parts that `jiff` prints from. It takes the weekday and the day of the year from
    /// here.
    fn parts(&self) -> BrokenDownTime<'static>
        ensures parts { HasClock self.now result }
        ensures month_in { IsInRange 1 12 self.now.month }
    {
        BrokenDownTime {
            day_of_year: Some(self.date.to_plain().day_of_year()),
            weekday: Some(self.date.weekday()),
            ..BrokenDownTime::from_datetime(self.date.to_datetime(self.time).to_plain())
        }
    }
}
