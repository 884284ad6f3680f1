//! Two loggers, two appenders, two entries, and the bytes that arrive.

ghost use Rattle.std.specs.Prelude.{◌≡◌, ◌∷◌, [], IfOk, IfSome, true, Some, string_bytes};
ghost use Rattle.log4rs_config.specs.Appender.{name_of, filters_of, appender_of};
ghost use Rattle.guide.specs.Line.{line_runs};
ghost use Rattle.guide.specs.Two.{two_settings, empty_memory, empty_console, empty_sinks, HoldTwo, app_root, app_logger};

use super::audit::are_ok;
use super::line::{line_is_spelled, line_renders};
use log::{Level, LevelFilter};
use log4rs::append::{AnyAppender, Append, ConsoleAppender, ConsoleOut, MemOut, MemoryAppender};
use log4rs::config::runtime::{
    Appender, BuildError, Config, ConfigBuilder, Configured, Logger, Root,
};
use log4rs::encode::pattern::PatternEncoder;
use log4rs::encode::pattern::laws::one_pattern;
use log4rs::encode::{AnyEncoder, Encode};
use log4rs::store::MemStore;
use log4rs::{Context, Core, Entry, OutOfMemory, Record};
use std::alloc::Global;

/// Returns the encoder of `{l} {t} - {m}{n}`.
fn encoder(alloc: Global) -> Result<AnyEncoder, OutOfMemory>
    ensures { IfOk result (λ e. ⟦<AnyEncoder as Encode>⟧.rendering e ≡ Some line_runs) }
{
    line_is_spelled();
    one_pattern();
    let pattern = PatternEncoder::new(alloc, "{l} {t} - {m}{n}")?;
    Ok(AnyEncoder::Pattern(pattern))
}

/// Returns a memory appender.
fn memory(alloc: Global) -> Result<AnyAppender<MemStore>, OutOfMemory>
    ensures { IfOk result (λ a. ⟦<AnyAppender<MemStore> as Append>⟧.sink a ≡ empty_memory) }
{
    let encoder = encoder(alloc)?;
    Ok(AnyAppender::Memory(MemoryAppender::new(alloc, encoder)))
}

/// Returns a console in memory.
fn console(alloc: Global) -> Result<AnyAppender<MemStore>, OutOfMemory>
    ensures { IfOk result (λ a. ⟦<AnyAppender<MemStore> as Append>⟧.sink a ≡ empty_console) }
{
    let encoder = encoder(alloc)?;
    let out = ConsoleOut::Memory(MemOut::new(alloc));
    let console = ConsoleAppender::builder(alloc)
        .encoder(encoder)
        .build_on(out, false, false)?;
    Ok(AnyAppender::Console(console))
}

/// Returns the configuration of both.
fn config(alloc: Global) -> Result<Config<MemStore>, BuildError>
    ensures settings { IfOk result
        (λ config. ⟦<Config<MemStore> as Configured>⟧.settings config ≡ two_settings) }
    ensures admits { IfOk result (λ config. (r : _)
        → ⟦<Config<MemStore> as Configured>⟧.admits config r ≡ true ∷ true ∷ []) }
    ensures sinks { IfOk result (λ config. ⟦<Config<MemStore> as Configured>⟧.sinks config
        ≡ empty_sinks) }
{
    let root = root(alloc)?;
    let logger = logger(alloc)?;
    let first = memory(alloc)?;
    let first = named(alloc, "memory", first)?;
    let second = console(alloc)?;
    let second = named(alloc, "console", second)?;
    let builder = ConfigBuilder::default(alloc).appender(first)?;
    let builder = builder.appender(second)?;
    let builder = builder.logger(logger)?;
    let config = builder.build(root)?;
    Ok(config)
}

/// Returns a text.
fn text(alloc: Global, text: &str) -> Result<String, OutOfMemory>
    ensures { IfOk result (λ s. string_bytes s ≡ text.now) }
{
    Ok(String::from_str(alloc, text)?)
}

/// Returns the root.
fn root(alloc: Global) -> Result<Root, OutOfMemory>
    ensures { IfOk result (λ root. root ≡ app_root) }
{
    let builder = Root::builder(alloc).appender("memory")?;
    Ok(builder.build(LevelFilter::Info))
}

/// Returns the logger.
fn logger(alloc: Global) -> Result<Logger, OutOfMemory>
    ensures { IfOk result (λ logger. logger ≡ app_logger) }
{
    let name = text(alloc, "app::x")?;
    let builder = Logger::builder(alloc).appender("console")?;
    Ok(builder.build(name, LevelFilter::Warn))
}

/// Returns an appender under a name, without filters.
fn named(
    alloc: Global,
    name: &str,
    appender: AnyAppender<MemStore>,
) -> Result<Appender<MemStore>, OutOfMemory>
    ensures name { IfOk result (λ a. name_of a ≡ name.now) }
    ensures filters { IfOk result (λ a. filters_of a ≡ []) }
    ensures appender { IfOk result (λ a. appender_of a ≡ appender) }
{
    let name = text(alloc, name)?;
    Ok(Appender::builder(alloc).build(name, appender))
}

/// Returns an entry.
fn entry<'z>(level: Level, target: String, message: String, context: Context<'z>) -> Entry<'z>
    ensures level { result.logged.level ≡ level }
    ensures target { string_bytes result.logged.target ≡ string_bytes target }
    ensures message { string_bytes result.logged.message ≡ string_bytes message }
{
    Entry {
        logged: Record::new(level, target, message),
        context,
    }
}

/// Logs `hello` at Info to `app` and `world` at Warn to `app::x`; the root names the memory
/// appender and the logger `app::x` the console. If all goes well, both hold these bytes.
pub fn log_two<'z>(
    alloc: Global,
    here: Context<'z>,
    there: Context<'z>,
) -> Result<Option<Core<MemStore>>, BuildError>
    ensures { IfOk result (λ core. IfSome core
        (λ core. HoldTwo (⟦<Core<MemStore> as Configured>⟧.sinks core))) }
{
    line_renders();
    let target = text(alloc, "app")?;
    let message = text(alloc, "hello")?;
    let first = entry(Level::Info, target, message, here);
    let target = text(alloc, "app::x")?;
    let message = text(alloc, "world")?;
    let second = entry(Level::Warn, target, message, there);
    let entries = [first, second];
    let config = config(alloc)?;
    let mut core: Core<MemStore> = Core::new(alloc, config)?;
    let answers = core.log_all(&entries)?;
    if are_ok(&answers) {
        Ok(Some(core))
    } else {
        Ok(None)
    }
}
