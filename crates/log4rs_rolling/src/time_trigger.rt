//! The trigger by time.

ghost use Rattle.std.specs.Prelude.{◌≡◌, ◌↔◌, IsTrue, IfOk, None, OnErr};
ghost use Rattle.log4rs_base.specs.Interval.{HasNumber};
ghost use Rattle.log4rs_rolling.specs.NextTime.{nanos};
ghost use Rattle.log4rs_rolling.specs.Due.{IsDue, IsCurrent, IsNextIn};
ghost use Rattle.log4rs_rolling.specs.Asking.{first_by};

use crate::log_file::LogFile;
use crate::next_time::next_time;
use crate::trigger::Trigger;
use jiff::Timestamp;
use log4rs_base::{Context, LogError};
pub use log4rs_base::{IntervalTooSmall, TimeTriggerConfig, TimeTriggerInterval};

/// Fires before a record is written, once a time has come.
///
/// The first call computes the next time from its moment, in its time zone, and each firing
/// computes it again from its own moment. If there is no next time, the trigger never fires again.
/// The length of the file does not count.
#[derive(Debug, Drop)]
pub struct TimeTrigger {
    config: TimeTriggerConfig,
    // The next time, if there is one, once the trigger was called.
    next: Option<Option<Timestamp>>,
    ghost number: { HasNumber config.interval },
}

impl TimeTrigger {
    ghost use Rattle.log4rs_rolling.specs.TimeTriggers.{config_of, next_of, TimeAnswers};

    /// Creates a trigger that was not called yet. Fails if the number of the interval is below 1.
    pub fn new(config: TimeTriggerConfig) -> Result<Self, IntervalTooSmall>
        ensures config { IfOk result (λ trigger. config_of trigger ≡ config) }
        ensures next { IfOk result (λ trigger. next_of trigger ≡ None) }
        ensures number { IfOk result (λ trigger. HasNumber config.interval) }
        ensures refused { OnErr result (¬ (HasNumber config.interval)) }
    {
        if !config.interval.has_number() {
            return Err(IntervalTooSmall);
        }
        Ok(TimeTrigger { config, next: None })
    }

    /// Returns the next time, computed from a context.
    fn reckoned(&self, context: &Context<'_>) -> Option<Timestamp>
        ensures { IsNextIn (config_of self.now) context.now (nanos result) }
    {
        next_time(&self.config, context.moment, &context.zone, context.random)
    }

    /// Returns the time that counts now.
    fn current(&self, context: &Context<'_>) -> Option<Timestamp>
        ensures { IsCurrent (next_of self.now) (config_of self.now) context.now (nanos result) }
    {
        match self.next {
            Some(known) => known,
            None => self.reckoned(context),
        }
    }
}

/// Returns whether a time has come.
fn is_due(next: &Option<Timestamp>, moment: Timestamp) -> bool
    ensures { IsTrue result ↔ IsDue (nanos next.now) moment.nanosecond }
{
    match next {
        Some(next) => *next <= moment,
        None => false,
    }
}

impl Trigger for TimeTrigger {
    ghost use Rattle.std.specs.Prelude.{IsOk};
    ghost use Rattle.log4rs_rolling.specs.TimeTriggers.{TimeAnswers, IsTimeStep, TimeNotes};

    ghost asking = { λ trigger. first_by (TimeAnswers trigger) };

    ghost notes = { TimeNotes };

    fn trigger(&mut self, _file: &LogFile, context: &Context<'_>) -> Result<bool, LogError>
        ensures answered { IsOk result }
        ensures step { IfOk result (λ answer.
            IsTimeStep self.old context.now answer self.new) }
    {
        let current = self.current(context);
        if !is_due(&current, context.moment) {
            self.next = Some(current);
            return Ok(false);
        }
        let next = self.reckoned(context);
        self.next = Some(next);
        Ok(true)
    }

    fn is_pre_process(&self) -> bool {
        true
    }
}
