//! Intervals of time triggers.

ghost use Rattle.std.specs.Prelude.{◌≡◌, ◌<ℤ◌, pos, false};

use thiserror::Error;

/// An interval: a unit of the calendar or the clock, and a number of it, which is to be at least 1.
#[derive(Clone, Copy, Debug, PartialEq, Eq, Hash)]
pub enum TimeTriggerInterval {
    /// A number of seconds.
    Second(i64),
    /// A number of minutes.
    Minute(i64),
    /// A number of hours.
    Hour(i64),
    /// A number of days.
    Day(i64),
    /// A number of weeks.
    Week(i64),
    /// A number of months.
    Month(i64),
    /// A number of years.
    Year(i64),
}

impl Default for TimeTriggerInterval {
    ghost use Rattle.log4rs_base.specs.declared.dates.interval.TimeTriggerInterval.TheVariants.{Second};

    fn default() -> Self
        ensures { result ≡ Second (pos 1) }
    {
        TimeTriggerInterval::Second(1)
    }
}

/// The settings of a time trigger.
#[derive(Clone, Copy, Debug, PartialEq, Eq, Hash, Default)]
pub struct TimeTriggerConfig {
    /// The interval between two rotations.
    pub interval: TimeTriggerInterval,
    /// Whether an interval ends at a multiple of its number, counted in the next larger unit (days
    /// in the year): every 6 hours then means at 0, 6, 12 and 18 o'clock.
    pub modulate: bool,
    /// The bound of the random delay of a rotation, in seconds. The delay is less than it; 0 means
    /// none.
    pub max_random_delay: u64,
}

/// The error of an interval whose number is below 1.
#[derive(Clone, Copy, Debug, PartialEq, Eq, Error)]
#[error("the number of an interval is below 1")]
pub struct IntervalTooSmall;

impl TimeTriggerInterval {
    ghost use Rattle.std.specs.Prelude.{◌↔◌, IsTrue};
    ghost use Rattle.log4rs_base.specs.Interval.{HasNumber};

    /// Returns whether the number is at least 1.
    pub fn has_number(&self) -> bool
        ensures { IsTrue result ↔ HasNumber self.now }
    {
        match *self {
            TimeTriggerInterval::Second(number) => number > 0,
            TimeTriggerInterval::Minute(number) => number > 0,
            TimeTriggerInterval::Hour(number) => number > 0,
            TimeTriggerInterval::Day(number) => number > 0,
            TimeTriggerInterval::Week(number) => number > 0,
            TimeTriggerInterval::Month(number) => number > 0,
            TimeTriggerInterval::Year(number) => number > 0,
        }
    }
}
