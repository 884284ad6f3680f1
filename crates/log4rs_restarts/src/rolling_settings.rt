//! Settings of a rolled file.

ghost use Rattle.std.specs.Prelude.{◌≡◌, ◌≢◌, None, Some, IfOk, IfErr, OnOk, string_bytes};
ghost use Rattle.log4rs_append.specs.Sink.{plain_reading};
ghost use Rattle.log4rs_rolling.specs.Roller.{kept_anew};
ghost use Rattle.log4rs_restarts.specs.RollingSettings.{path_of, keeping_of, refusal_of};
ghost use Rattle.log4rs_restarts.specs.Sessions.{IsReading};

use crate::settings::{RunSettings, TriggerSettings};
use log4rs_base::expand_env_vars;
use log4rs_encode::Encode;
use log4rs_encode::pattern::PatternEncoder;
use log4rs_rolling::{FixedWindowRoller, RollerError};
use std::alloc::Global;
use std::collections::BTreeMap;

/// The settings of a rolled file: its path, how it is rolled, and how its records are encoded.
#[derive(Drop)]
pub struct RollingSettings {
    /// The path of the file. Each `$ENV{name}` in it is expanded.
    pub path: String,
    /// The pattern of the archives' names: the index in decimal replaces each `{}`, and then each
    /// `$ENV{name}` is expanded.
    pub pattern: String,
    /// The lowest index, which the newest archive has.
    pub base: u32,
    /// The number of archives that are kept.
    pub count: u32,
    /// Whether a rotation fails if a rename is refused. If not, the file is copied and removed.
    pub rename_only: bool,
    /// Whether rotations go on in the background, in steps, by renames alone.
    pub background: bool,
    /// The trigger.
    pub trigger: TriggerSettings,
    /// The pattern of the encoder.
    pub encoder_pattern: String,
    /// The variables of the environment.
    pub env: BTreeMap<String, String>,
}

/// Returns the path and the roller of these settings.
fn rolled(alloc: Global, settings: &RollingSettings) -> Result<RunSettings, RollerError>
    ensures keeping { IfOk result (λ made. kept_anew made.roller ≡ keeping_of settings.now) }
    ensures path { IfOk result (λ made. string_bytes made.path ≡ path_of settings.now) }
    ensures trigger { IfOk result (λ made. made.trigger ≡ settings.now.trigger) }
    ensures accepted { OnOk result (refusal_of settings.now ≡ None) }
    ensures refused { IfErr result (λ e. e ≢ RollerError.Memory
        → refusal_of settings.now ≡ Some e) }
{
    let roller = FixedWindowRoller::builder()
        .base(settings.base)
        .rename_only(settings.rename_only)
        .background(settings.background)
        .build(
            alloc,
            settings.pattern.as_str(),
            settings.count,
            &settings.env,
        )?;
    let path = expand_env_vars(alloc, settings.path.as_str(), &settings.env)?;
    Ok(RunSettings {
        path,
        roller,
        trigger: settings.trigger,
    })
}

/// Returns what each run is made from by these settings, and the encoder of its records. The
/// pattern and the window are checked before anything is allocated.
pub(crate) fn ready(
    alloc: Global,
    settings: &RollingSettings,
) -> Result<(RunSettings, PatternEncoder), RollerError>
    ensures keeping { IfOk result (λ made. kept_anew made.0.roller ≡ keeping_of settings.now) }
    ensures path { IfOk result (λ made. string_bytes made.0.path ≡ path_of settings.now) }
    ensures trigger { IfOk result (λ made. made.0.trigger ≡ settings.now.trigger) }
    ensures reading { IfOk result (λ made. IsReading settings.now
        (plain_reading (⟦<PatternEncoder as Encode>⟧.rendering made.1))) }
    ensures accepted { OnOk result (refusal_of settings.now ≡ None) }
    ensures refused { IfErr result (λ e. e ≢ RollerError.Memory
        → refusal_of settings.now ≡ Some e) }
{
    let made = rolled(alloc, settings)?;
    let Ok(encoder) = PatternEncoder::new(alloc, settings.encoder_pattern.as_str()) else {
        return Err(RollerError::Memory);
    };
    Ok((made, encoder))
}
