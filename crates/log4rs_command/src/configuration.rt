//! The configuration of the command `pattern`.

ghost use Rattle.std.specs.Prelude.{◌≡◌, [], ◌∷◌, true, IfErr, IfOk, OnOk, string_bytes};
ghost use Rattle.std.specs.Str.{chars};
ghost use Rattle.log4rs_append.specs.Sink.{Sink};
ghost use Rattle.log4rs_config.specs.Appender.{appender_of, filters_of, name_of};
ghost use Rattle.log4rs_config.specs.Faults.{faults};
ghost use Rattle.log4rs_command.specs.Settings.{configured, logger_settings};
ghost use Rattle.log4rs_command.specs.Settings.{root_level as level_of_root, root_setting};
ghost use Rattle.log4rs_command.specs.Arguments.{asked_settings};
ghost use Rattle.log4rs_command.specs.Sinks.{IsEmptySink};
ghost use Rattle.log4rs_command.specs.Stops.{RefusesConfiguration};

use crate::arguments::Setting;
use crate::stop::Stop;
use log::LevelFilter;
use log4rs_append::{Append, MemoryAppender};
use log4rs_base::OutOfMemory;
use log4rs_base::filter::AnyFilter;
use log4rs_config::runtime::appender::Filtered;
use log4rs_config::runtime::builder::ConfigBuilderOf;
use log4rs_config::runtime::config::ConfigOf;
use log4rs_config::runtime::{Configured, Logger, Root};
use log4rs_encode::AnyEncoder;
use log4rs_encode::pattern::PatternEncoder;
use std::alloc::Global;

/// A configuration whose appenders keep their texts in memory.
pub type MemoryConfig = ConfigOf<MemoryAppender<AnyEncoder>, AnyFilter>;

/// The name of the appender.
const NAME: &str = "memory";

/// Returns the level of the root: that of the last setting without a name, or Info.
fn root_level(settings: &[Setting<'_>]) -> LevelFilter
    ensures { result ≡ level_of_root (asked_settings settings.now) }
{
    let mut level = LevelFilter::Info;
    for setting in settings {
        if setting.name.is_empty() {
            level = setting.level;
        }
    }
    level
}

/// Returns the loggers of the settings that have a name, in order.
fn loggers(alloc: Global, settings: &[Setting<'_>]) -> Result<Vec<Logger>, OutOfMemory>
    ensures { IfOk result (λ loggers. loggers.items
        ≡ logger_settings (asked_settings settings.now)) }
{
    let mut loggers = Vec::new(alloc);
    for setting in settings {
        if !setting.name.is_empty() {
            let name = String::from_str(alloc, setting.name)?;
            loggers.push(Logger::builder(alloc).build(name, setting.level))?;
        }
    }
    Ok(loggers)
}

/// Returns the root, with the appender.
fn root(alloc: Global, settings: &[Setting<'_>]) -> Result<Root, OutOfMemory>
    ensures { IfOk result (λ root. root ≡ root_setting (asked_settings settings.now)) }
{
    let builder = Root::builder(alloc).appender(NAME)?;
    Ok(builder.build(root_level(settings)))
}

/// Returns an appender that keeps each record's text by a pattern.
fn memory(alloc: Global, pattern: &str) -> Result<MemoryAppender<AnyEncoder>, OutOfMemory>
    ensures { IfOk result (λ memory. IsEmptySink (chars pattern.now)
        (⟦<MemoryAppender<AnyEncoder> as Append>⟧.sink memory)) }
{
    let encoder = PatternEncoder::new(alloc, pattern)?;
    Ok(MemoryAppender::new(alloc, AnyEncoder::Pattern(encoder)))
}

/// Returns the appender of the records.
fn appender(
    alloc: Global,
    pattern: &str,
) -> Result<Filtered<MemoryAppender<AnyEncoder>, AnyFilter>, OutOfMemory>
    ensures name { IfOk result (λ appender. name_of appender ≡ NAME.now) }
    ensures filters { IfOk result (λ appender. filters_of appender ≡ []) }
    ensures sink { IfOk result (λ appender. IsEmptySink (chars pattern.now)
        (⟦<MemoryAppender<AnyEncoder> as Append>⟧.sink (appender_of appender))) }
{
    let name = String::from_str(alloc, NAME)?;
    let memory = memory(alloc, pattern)?;
    Ok(Filtered::builder(alloc).build(name, memory))
}

/// Returns the configuration of a pattern and settings.
pub fn configuration(
    alloc: Global,
    pattern: &str,
    settings: &[Setting<'_>],
) -> Result<MemoryConfig, Stop>
    ensures settings { IfOk result (λ config. ⟦<MemoryConfig as Configured>⟧.settings config
        ≡ configured (asked_settings settings.now)) }
    ensures admits { IfOk result (λ config. (r : _)
        → ⟦<MemoryConfig as Configured>⟧.admits config r ≡ true ∷ []) }
    ensures sinks { IfOk result (λ config. (sink : Sink)
        × (⟦<MemoryConfig as Configured>⟧.sinks config ≡ sink ∷ [])
        × IsEmptySink (chars pattern.now) sink) }
    ensures faultless { OnOk result (faults (configured (asked_settings settings.now)) ≡ []) }
    ensures err { IfErr result (RefusesConfiguration
        (faults (configured (asked_settings settings.now)))) }
{
    let appender = appender(alloc, pattern)?;
    let loggers = loggers(alloc, settings)?;
    let root = root(alloc, settings)?;
    let builder = ConfigBuilderOf::default(alloc).appender(appender)?;
    let config = builder.loggers(loggers)?.build(root)?;
    Ok(config)
}
