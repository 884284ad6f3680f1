//! Dates and times at a moment.
ghost use Rattle.std.specs.Prelude.{◌≡◌, ◌<◌, ◌+ℤ◌, unsigned_abs};
ghost use Rattle.jiff.specs.Words.{plain_zone, nanos_of_seconds};
ghost use Rattle.log4rs_base.specs.Clock.{local_clock, utc_clock, clock_at};

use jiff::Timestamp;
use jiff::civil::{Date, Time};
use jiff::tz::{Offset, TimeZone};
use std::marker::Model;

/// The date and the time that a clock shows at a moment, and how far it is ahead of UTC.
#[derive(Drop)]
pub struct Clock {
    pub(crate) date: Date,
    pub(crate) time: Time,
    pub(crate) offset: Offset,
    pub(crate) is_utc: bool,
}

impl Model for Clock {
    ghost use Rattle.log4rs_base.specs.Clock.{ClockFields};

    ghost Value = { ClockFields };

    ghost use Rattle.log4rs_base.specs.ClockView.{clock_fields};

    ghost view = { clock_fields };
}

impl Clock {
    /// Returns what the clock of UTC shows at a moment.
    pub fn utc(moment: Timestamp) -> Clock
        ensures { result ≡ utc_clock moment.nanosecond }
    {
        Clock::at(moment, Offset::UTC, true)
    }

    /// Returns what the clock of a time zone shows at a moment.
    pub fn local(moment: Timestamp, zone: &TimeZone<'_>) -> Clock
        ensures { result ≡ local_clock (plain_zone zone.now) moment.nanosecond }
    {
        Clock::at(moment, zone.to_offset(moment), false)
    }

    /// Returns the year, from -9999 to 9999. Date formats print those from 0.
    pub fn year(&self) -> i16
        ensures { result ≡ self.now.year }
    {
        self.date.year()
    }

    /// Returns the month, from 1 to 12.
    pub fn month(&self) -> u8
        ensures { result ≡ self.now.month }
    {
        self.date.to_plain().month
    }

    /// Returns the day of the month, from 1 to 31.
    pub fn day(&self) -> u8
        ensures { result ≡ self.now.day }
    {
        self.date.to_plain().day
    }

    /// Returns the hour, from 0 to 23.
    pub fn hour(&self) -> u8
        ensures { result ≡ self.now.hour }
    {
        self.time.to_plain().hour
    }

    /// Returns the minute, from 0 to 59.
    pub fn minute(&self) -> u8
        ensures { result ≡ self.now.minute }
    {
        self.time.to_plain().minute
    }

    /// Returns the second, from 0 to 59.
    pub fn second(&self) -> u8
        ensures { result ≡ self.now.second }
    {
        self.time.to_plain().second
    }

    /// Returns the nanosecond of the second, from 0 to 999999999.
    pub fn nanosecond(&self) -> u32
        ensures { result ≡ self.now.nanosecond }
    {
        self.time.to_plain().subsec_nanosecond
    }

    /// Returns how many seconds the clock is ahead of UTC. The number is negative behind UTC.
    pub fn offset(&self) -> i32
        ensures { result ≡ self.now.offset }
    {
        self.offset.seconds()
    }

    /// Returns whether [`Clock::utc`] made the clock. A time zone without offset gives `false`.
    pub fn is_utc(&self) -> bool
        ensures { result ≡ self.now.is_utc }
    {
        self.is_utc
    }

    /// Gives proofs the bounds of the parts. It does nothing else.
    pub(crate) fn bounds(&self)
        ensures year { unsigned_abs self.now.year < 10_000 }
        ensures day { (self.now.month < 100) × (self.now.day < 100) }
        ensures time { (self.now.hour < 100) × (self.now.minute < 100) × (self.now.second < 100) }
        ensures nanosecond { self.now.nanosecond < 1_000_000_000 }
        ensures offset { unsigned_abs self.now.offset < 360_000 }
    {
        let _offset = self.offset.seconds();
    }

    fn at(moment: Timestamp, offset: Offset, is_utc: bool) -> Clock
        ensures { result ≡ clock_at (moment.nanosecond +ℤ nanos_of_seconds offset.seconds)
            offset.seconds is_utc }
    {
        let shown = offset.to_datetime(moment);
        Clock {
            date: shown.date(),
            time: shown.time(),
            offset,
            is_utc,
        }
    }
}
