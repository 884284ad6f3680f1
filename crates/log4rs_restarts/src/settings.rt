//! Settings of a run.

use log4rs_rolling::{FixedWindowRoller, TimeTriggerConfig};

/// The trigger of each run.
#[derive(Clone, Copy, Debug, PartialEq, Eq)]
pub enum TriggerSettings {
    /// Fires after a record, if the file has more than this many bytes.
    Size(u64),
    /// Fires at the first record of a run, if the file has at least this many bytes.
    OnStartUp(u64),
    /// Fires once a time has come. If the number of its interval is below 1, no file is opened.
    Time(TimeTriggerConfig),
}

/// The path, the roller and the trigger of each run.
#[derive(Drop)]
pub(crate) struct RunSettings {
    pub(crate) path: String,
    pub(crate) roller: FixedWindowRoller,
    pub(crate) trigger: TriggerSettings,
}
