//! Plans: what settings ask for, as plain data.

ghost use Rattle.std.specs.Prelude.{◌≡◌, ◌↔◌, IfOk, IsTrue};

use crate::makers::Maker;
use log::LevelFilter;
use log4rs_base::{OutOfMemory, Target, TimeTriggerConfig};

/// The plan of a filter.
#[derive(Clone, Copy)]
pub enum FilterPlan {
    /// A threshold filter with this level.
    Threshold(LevelFilter),
    /// The next filter that was handed in for the appender.
    HandedIn,
}

/// The plan of an encoder.
#[derive(Clone, PartialEq, Drop)]
pub enum EncoderPlan {
    /// A pattern encoder with this pattern.
    Pattern(String),
    /// A JSON encoder.
    Json,
    /// The next encoder that was handed in for the appender.
    HandedIn,
}

/// The plan of a trigger.
#[derive(Clone, Copy, PartialEq)]
pub enum TriggerPlan {
    /// A size trigger with this limit in bytes.
    Size(u64),
    /// A time trigger. The number of its interval is at least 1.
    Time(TimeTriggerConfig),
    /// An on-start-up trigger with this minimum size in bytes.
    OnStartUp(u64),
    /// The next trigger that was handed in for the appender.
    HandedIn,
}

/// The window of archives of a roller.
#[derive(Clone, PartialEq, Drop)]
pub struct WindowPlan {
    /// The pattern of the archives' names.
    pub pattern: String,
    /// The least index.
    pub base: u32,
    /// The number of archives.
    pub count: u32,
    /// Whether files are rolled in the background, step by step.
    pub background: bool,
}

/// The plan of a roller.
#[derive(Clone, PartialEq, Drop)]
pub enum RollerPlan {
    /// A roller that deletes the file.
    Delete,
    /// A roller that keeps a window of archives.
    FixedWindow(WindowPlan),
}

/// The plan of a policy.
#[derive(Clone, PartialEq, Drop)]
pub struct PolicyPlan {
    /// The plan of the trigger.
    pub trigger: TriggerPlan,
    /// The plan of the roller.
    pub roller: RollerPlan,
}

/// The plan of an appender.
#[derive(Clone, PartialEq, Drop)]
pub enum AppenderPlan {
    /// A console.
    Console {
        /// The stream.
        target: Target,
        /// Whether it writes only to a terminal.
        tty_only: bool,
        /// The encoder.
        encoder: EncoderPlan,
    },
    /// A file.
    File {
        /// The path, with its placeholders.
        path: String,
        /// Whether the file is appended to, and not emptied.
        append: bool,
        /// The encoder.
        encoder: EncoderPlan,
    },
    /// A file that is rolled.
    RollingFile {
        /// The path, with its placeholders.
        path: String,
        /// Whether the file is appended to, and not emptied.
        append: bool,
        /// The encoder.
        encoder: EncoderPlan,
        /// The policy.
        policy: PolicyPlan,
    },
    /// The next appender that was handed in under the name.
    HandedIn,
}

impl AppenderPlan {
    ghost use Rattle.log4rs_settings.specs.Plan.{appender_of};

    /// Returns a copy of the plan.
    pub fn copy(&self) -> Result<AppenderPlan, OutOfMemory>
        ensures { IfOk result (λ copy. appender_of copy ≡ appender_of self.now) }
    {
        Ok(self.clone()?)
    }

    /// Returns whether another plan asks for the same appender.
    pub fn is_same(&self, other: &AppenderPlan) -> bool
        ensures { IsTrue result ↔ (appender_of self.now ≡ appender_of other.now) }
    {
        self == other
    }
}

/// The numbers of components of each class that were handed in for an appender and not taken yet.
#[derive(Clone, Copy)]
pub struct Waiting {
    /// The number of appenders.
    pub appenders: usize,
    /// The number of filters.
    pub filters: usize,
    /// The number of encoders.
    pub encoders: usize,
    /// The number of triggers.
    pub triggers: usize,
}

/// The origin of a component.
#[derive(Clone, Copy)]
pub(crate) enum Source {
    /// Built from its settings by this maker.
    Made(Maker),
    /// Handed in.
    HandedIn,
}
