//! Laws of the next time of a trigger.

ghost use Rattle.std.specs.Prelude.{◌≡◌, ℕ, ℤ, Option, Some, ◌<ℤ◌};
ghost use Rattle.jiff.specs.Words.{IsFixed};
ghost use Rattle.jiff_core.specs.declared.timestamp.Timestamp.{Timestamp};
ghost use Rattle.jiff_tz.specs.declared.timezone.TimeZone.{TimeZone};
ghost use Rattle.log4rs_base.specs.declared.dates.interval.TimeTriggerConfig.{TimeTriggerConfig};
ghost use Rattle.log4rs_base.specs.Interval.{HasNumber};
ghost use Rattle.log4rs_rolling.specs.NextTime.{IsNextTime};

/// In a time zone with a fixed offset, the next time lies after the moment from which it is
/// computed.
pub fn next_time_lies_after()
    ensures { (config : TimeTriggerConfig) (zone : TimeZone) (moment : Timestamp) (random : ℕ)
        (next : ℤ) → HasNumber config.interval → IsFixed zone
        → IsNextTime config zone moment.nanosecond random (Some next)
        → moment.nanosecond <ℤ next }
{}

/// A moment has at most one next time: any two that meet the definition are equal.
pub fn next_time_is_one()
    ensures { (config : TimeTriggerConfig) (zone : TimeZone) (moment : ℤ) (random : ℕ)
        (next other : Option ℤ) → IsNextTime config zone moment random next
        → IsNextTime config zone moment random other → next ≡ other }
{}
