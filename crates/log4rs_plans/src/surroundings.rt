//! The surroundings of a configuration, and plans in them.

ghost use Rattle.std.specs.Prelude.{◌≡◌, IfOk, false, []};
ghost use Rattle.log4rs_encode.specs.declared.writer.color.ColorMode.TheVariants.{Never};
ghost use Rattle.log4rs_settings.specs.Plan.{appender_of};
ghost use Rattle.log4rs_plans.specs.Effective.{effective};

use jiff::Timestamp;
use jiff::tz::TimeZone;
use log4rs_base::{OutOfMemory, expand_env_vars, expand_time};
use log4rs_encode::writer::ColorMode;
use log4rs_settings::AppenderPlan;
use std::alloc::Global;
use std::collections::BTreeMap;
use std::io::{Stderr, Stdout};

/// What building components needs besides settings: the environment, a moment, and the terminals.
#[derive(Drop)]
pub struct Surroundings<'z> {
    /// The values of the environment, by their names, for paths and archives.
    pub env: BTreeMap<String, String>,
    /// The moment that `$TIME{..}` in paths shows.
    pub moment: Timestamp,
    /// The zone in which it is shown.
    pub zone: TimeZone<'z>,
    /// Whether consoles show colors.
    pub color: ColorMode,
    /// Standard output, and whether it is a terminal.
    pub stdout: Stdout,
    /// Whether standard output is a terminal.
    pub stdout_tty: bool,
    /// Standard error, and whether it is a terminal.
    pub stderr: Stderr,
    /// Whether standard error is a terminal.
    pub stderr_tty: bool,
}

impl<'z> Surroundings<'z> {
    /// Returns no variables, and outputs that are no terminals and show no colors.
    pub fn new(
        alloc: Global,
        moment: Timestamp,
        zone: TimeZone<'z>,
        stdout: Stdout,
        stderr: Stderr,
    ) -> Surroundings<'z>
        ensures env { result.env.entries ≡ [] }
        ensures moment { result.moment ≡ moment }
        ensures zone { result.zone ≡ zone.entry }
        ensures color { result.color ≡ Never }
        ensures stdout { (result.stdout ≡ stdout) × (result.stdout_tty ≡ false) }
        ensures stderr { (result.stderr ≡ stderr) × (result.stderr_tty ≡ false) }
    {
        Surroundings {
            env: BTreeMap::new(alloc),
            moment,
            zone,
            color: ColorMode::Never,
            stdout,
            stdout_tty: false,
            stderr,
            stderr_tty: false,
        }
    }
}

/// What an appender is to be: its name, and its plan with the environment's values and the times
/// put into its path.
#[derive(Drop)]
pub struct PlannedAppender {
    /// The appender's name.
    pub name: String,
    /// The appender's effective plan.
    pub plan: AppenderPlan,
}

/// Returns a plan with the values of the environment and the times in its path.
pub fn effective_plan(
    alloc: Global,
    surroundings: &Surroundings<'_>,
    plan: AppenderPlan,
) -> Result<AppenderPlan, OutOfMemory>
    ensures { IfOk result
        (λ made. appender_of made ≡ effective surroundings.now (appender_of plan)) }
{
    let mut plan = plan;
    match &mut plan {
        AppenderPlan::File { path, .. } => {
            let named = expand_env_vars(alloc, path, &surroundings.env)?;
            *path = expand_time(alloc, &named, surroundings.moment, &surroundings.zone)?;
        }
        AppenderPlan::RollingFile { path, .. } => {
            *path = expand_env_vars(alloc, path, &surroundings.env)?;
        }
        AppenderPlan::Console { .. } | AppenderPlan::HandedIn => {}
    }
    Ok(plan)
}
