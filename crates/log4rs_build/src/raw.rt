//! Configurations as their texts describe them.
ghost use Rattle.std.specs.Prelude.{◌≡◌, Ok, Err, IfOk, IfErr, map, string_bytes};
ghost use Rattle.log4rs_build.specs.Asked.{BuildsAppenders};
ghost use Rattle.log4rs_build.specs.Deserializers.{kinds_in, handed_of, KeepsMakers};
ghost use Rattle.log4rs_build.specs.Raw.{asked_by, nothing_asked, root_asked, root_from, logger_asked, loggers_asked, settings_in, no_tree, IsParseFault};
ghost use Rattle.log4rs_settings.specs.Placeless.{placeless};
ghost use Rattle.log4rs_settings.specs.Loggers.{logger_entry, root_view};
ghost use Rattle.log4rs_settings.specs.Top.{entry_view};
ghost use Rattle.log4rs_plans.specs.Effective.{planned_in, planned_of};
ghost use Rattle.log4rs_plans.specs.Plans.{plans_of};
ghost use Rattle.log4rs_plans.specs.View.{plans_view};

use crate::AppenderErrors;
use crate::create::build_each;
use crate::deserializers::DeserializersWith;
use crate::error::{InitError, ParseError};
use log::LevelFilter;
use log4rs_base::OutOfMemory;
use log4rs_config::runtime::appender::Filtered;
use log4rs_config::runtime::{Logger, Root};
use log4rs_parts::Parts;
use log4rs_plans::{PlannedAppender, Plans, Surroundings, Waits, appenders_asked};
use log4rs_rolling::StoreMaker;
use log4rs_settings::{
    Format, NamedAppender, NamedLogger, PartError, RootConfig, TextError, TopConfig, read,
    refused_place,
};
use std::alloc::Global;

/// A parsed configuration: the refresh rate, the root, and the appenders and loggers in the order
/// of their names. The settings of appenders are checked when the appenders are built.
#[derive(Clone, Debug, Drop)]
pub struct RawConfig {
    pub(crate) alloc: Global,
    pub(crate) top: TopConfig,
}

/// What a configuration asks for, before anything of it is built.
#[derive(Drop)]
pub(crate) struct Prepared {
    pub(crate) plans: Plans,
    /// What the appenders are to be that have no fault.
    pub(crate) planned: Vec<PlannedAppender>,
    /// The warnings about them, one line each.
    pub(crate) warnings: Vec<String>,
}

impl RawConfig {
    /// Returns a configuration without appenders, whose root has the level `Debug`.
    pub fn default(alloc: Global) -> RawConfig
        ensures { asked_by result ≡ nothing_asked }
    {
        RawConfig {
            alloc,
            top: TopConfig {
                refresh_rate: None,
                root: RootConfig {
                    level: LevelFilter::Debug,
                    appenders: Vec::new(alloc),
                },
                appenders: Vec::new(alloc),
                loggers: Vec::new(alloc),
            },
        }
    }

    /// Parses a configuration. Fails with `Parse` or `Memory`.
    pub fn from_text(alloc: Global, format: Format, text: &str) -> Result<RawConfig, InitError>
        ensures ok { IfOk result (λ raw. settings_in format text.now
            ≡ Ok (asked_by raw)) }
        ensures err { IfErr result (IsParseFault (settings_in format text.now)) }
    {
        let tree = match read(alloc, format, text) {
            Ok(tree) => tree,
            Err(TextError::Memory) => return Err(InitError::Memory),
            Err(error) => return Err(refusal(alloc, format, text, error)),
        };
        match TopConfig::read(alloc, tree) {
            Ok(top) => Ok(RawConfig { alloc, top }),
            Err(PartError::Memory) => Err(InitError::Memory),
            Err(PartError::Fault(fault)) => Err(InitError::Parse(ParseError::Settings(fault))),
        }
    }

    /// Returns the milliseconds between two readings of the text, if it is to be read again.
    pub fn refresh_rate(&self) -> Option<u64>
        ensures { result ≡ (asked_by self.now).rate }
    {
        self.top.refresh_rate
    }

    /// Returns the appenders in the order of their names, with their settings as the text has them:
    /// those of a kind of the caller's are not read otherwise.
    pub fn appenders(&self) -> &[NamedAppender]
        ensures { map entry_view result.now ≡ (asked_by self.now).appenders }
    {
        &self.top.appenders
    }

    /// Returns the root.
    pub fn root(&self) -> Result<Root, OutOfMemory>
        ensures { IfOk result (λ root. root ≡ root_asked (asked_by self.now)) }
    {
        root_of(self.alloc, &self.top.root)
    }

    /// Returns the loggers in the order of their names.
    pub fn loggers(&self) -> Result<Vec<Logger>, OutOfMemory>
        ensures { IfOk result (λ loggers. loggers.items ≡ loggers_asked (asked_by self.now)) }
    {
        loggers_of(self.alloc, &self.top.loggers)
    }

    /// Returns what the configuration asks for, while handed-in components wait for its appenders:
    /// its warnings, for one, and whether an appender rolls its file in the background.
    pub fn plans<P: Waits, R>(
        self,
        deserializers: &DeserializersWith<P, R>,
    ) -> Result<Plans, OutOfMemory>
        ensures { IfOk result (λ plans. plans_view plans ≡ plans_of (kinds_in deserializers.now)
            (P.waiting_for (handed_of deserializers.now)) (asked_by self)) }
    {
        let RawConfig { alloc, top } = self;
        Plans::of(alloc, top, &deserializers.makers, &deserializers.parts)
    }

    /// Returns what the configuration of the file at a path asks for, with the warnings about it.
    pub(crate) fn prepared<P: Waits, R>(
        self,
        path: &str,
        deserializers: &DeserializersWith<P, R>,
        surroundings: &Surroundings<'_>,
    ) -> Result<Prepared, OutOfMemory>
        ensures plans { IfOk result (λ made. plans_view made.plans
            ≡ plans_of (kinds_in deserializers.now) (P.waiting_for (handed_of deserializers.now))
            (asked_by self)) }
        ensures planned { IfOk result (λ made. map planned_of made.planned.items
            ≡ planned_in surroundings.now (plans_view made.plans).appenders) }
    {
        let plans = self.plans(deserializers)?;
        let planned = plans.planned(surroundings)?;
        let warnings = plans.warnings(&planned, path, &surroundings.env)?;
        Ok(Prepared {
            plans,
            planned,
            warnings,
        })
    }

    /// Builds the appenders in the order of their names, leaving out bad filters and bad appenders.
    /// Returns the faults: for each appender those of its filters, then its own.
    pub fn appenders_lossy<P: Parts<M>, R, M: StoreMaker>(
        &self,
        deserializers: &mut DeserializersWith<P, R>,
        maker: &mut M,
        surroundings: &Surroundings<'_>,
    ) -> Result<(Vec<Filtered<P::Appender, P::Filter>>, AppenderErrors), OutOfMemory>
        ensures built { let builds = BuildsAppenders
            (P.Builds (M.starts maker.old) surroundings.now) P.waiting_for
            (asked_by self.now).appenders deserializers.old deserializers.new in
            IfOk result (λ parts. builds parts.0.items parts.1) }
        ensures makers { KeepsMakers deserializers.old deserializers.new }
        ensures starts { M.starts maker.new ≡ M.starts maker.old }
    {
        let (makers, parts) = (&deserializers.makers, &mut deserializers.parts);
        let asked = appenders_asked(self.alloc, makers, parts, &self.top.appenders)?;
        build_each(self.alloc, None, asked, parts, maker, surroundings)
    }
}

/// Returns the refusal of a text for an error, with the place of a value that no configuration has.
fn refusal(alloc: Global, format: Format, text: &str, error: TextError) -> InitError
    ensures { IsParseFault (Err (no_tree (placeless error))) result }
{
    match refused_place(alloc, format, text) {
        Ok(Some(place)) => InitError::Parse(ParseError::Value(place, error)),
        Ok(None) => InitError::Parse(ParseError::Text(error)),
        Err(OutOfMemory) => InitError::Memory,
    }
}

/// Returns the root of its settings.
pub(crate) fn root_of(alloc: Global, settings: &RootConfig) -> Result<Root, OutOfMemory>
    ensures { IfOk result (λ root. root ≡ root_from (root_view settings.now)) }
{
    let names = copied(alloc, &settings.appenders)?;
    let builder = Root::builder(alloc).appenders(names)?;
    Ok(builder.build(settings.level))
}

/// Returns the loggers of their settings.
pub(crate) fn loggers_of(
    alloc: Global,
    settings: &[NamedLogger],
) -> Result<Vec<Logger>, OutOfMemory>
    ensures { IfOk result (λ loggers. loggers.items
        ≡ map logger_asked (map logger_entry settings.now)) }
{
    let mut loggers = Vec::new(alloc);
    for named in settings {
        loggers.push(logger(alloc, named)?)?;
    }
    Ok(loggers)
}

/// Returns the logger of its settings.
fn logger(alloc: Global, named: &NamedLogger) -> Result<Logger, OutOfMemory>
    ensures { IfOk result (λ logger. logger ≡ logger_asked (logger_entry named.now)) }
{
    let names = copied(alloc, &named.config.appenders)?;
    let name = String::from_str(alloc, &named.name)?;
    let builder = Logger::builder(alloc).appenders(names)?;
    let builder = builder.additive(named.config.additive);
    Ok(builder.build(name, named.config.level))
}

/// Copies the names.
fn copied(alloc: Global, names: &[String]) -> Result<Vec<String>, OutOfMemory>
    ensures { IfOk result (λ copies. map (λ s. string_bytes s) copies.items
        ≡ map (λ s. string_bytes s) names.now) }
{
    let mut copies = Vec::new(alloc);
    for name in names {
        copies.push(String::from_str(alloc, name)?)?;
    }
    Ok(copies)
}
