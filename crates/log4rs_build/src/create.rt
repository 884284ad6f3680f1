//! Configurations built from plans and texts, and the faults of what is left out.

ghost use Rattle.std.specs.Prelude.{◌≡◌, IfOk, map, ◌++◌, List, Some, string_bytes};
ghost use Rattle.log4rs_build.specs.Asked.{BuildsAppenders, Creates, IsLoaded};
ghost use Rattle.log4rs_config.specs.Builder.{given_appenders, given_loggers};
ghost use Rattle.log4rs_build.specs.Deserializers.{KeepsMakers};
ghost use Rattle.log4rs_build.specs.Lossy.{BuildsEach, BuildsOne};
ghost use Rattle.log4rs_build.specs.Raw.{asked_by, logger_asked};
ghost use Rattle.log4rs_plans.specs.View.{plans_view, asked_view};
ghost use Rattle.log4rs_settings.specs.Loggers.{logger_entry};
ghost use Rattle.log4rs_settings.specs.Fault.{fault_of};
ghost use Rattle.log4rs_parts.specs.Refusals.{reported};
ghost use Rattle.log4rs_plans.specs.Outcomes.{Error, refused_names};

use crate::AppenderErrors;
use crate::deserializers::DeserializersWith;
use crate::error::InitError;
use crate::raw::{RawConfig, loggers_of, root_of};
use log4rs_append::Append;
use log4rs_base::filter::{Filter, FilterOf};
use log4rs_base::{LogError, OutOfMemory};
use log4rs_config::runtime::ConfigErrors;
use log4rs_config::runtime::appender::Filtered;
use log4rs_config::runtime::builder::ConfigBuilderOf;
use log4rs_config::runtime::config::ConfigOf;
use log4rs_parts::{BehindOf, BuildAppender, Parts, Refusal};
use log4rs_plans::{Asked, Plans, Surroundings, good_filters};
use log4rs_rolling::StoreMaker;
use log4rs_settings::{ConfigFault, LoadedText, NamedLogger, PartFault};
use std::alloc::Global;

/// A configuration built from settings, over stores `S`, with appenders `A`, filters `F`, encoders
/// `E` and triggers `T` of the caller's.
pub type ConfigFrom<A, F, E, T, S> = ConfigOf<BehindOf<A, E, T, S>, FilterOf<F>>;

/// The configuration of what a `P` builds over stores that an `M` makes.
pub type ConfigBy<P, M> = ConfigOf<
    <P as BuildAppender<M>>::Appender,
    <P as BuildAppender<M>>::Filter,
>;

/// Builds a configuration. Fails with the faults of its appenders and filters, else with those of
/// the whole; components that were taken by then are dropped.
pub fn create_raw_config<P: Parts<M>, R, M: StoreMaker>(
    config: RawConfig,
    deserializers: &mut DeserializersWith<P, R>,
    maker: &mut M,
    surroundings: &Surroundings<'_>,
) -> Result<ConfigBy<P, M>, InitError>
    ensures created { let builds = BuildsAppenders (P.Builds (M.starts maker.old) surroundings.now)
        P.waiting_for (asked_by config).appenders deserializers.old deserializers.new in
        Creates builds (asked_by config) result }
    ensures makers { KeepsMakers deserializers.old deserializers.new }
    ensures starts { M.starts maker.new ≡ M.starts maker.old }
{
    let (appenders, errors) = config.appenders_lossy(deserializers, maker, surroundings)?;
    if !errors.is_empty() {
        return Err(InitError::Deserializing(errors));
    }
    let builder = builder_of(config.alloc, &config.top.loggers, appenders)?;
    Ok(builder.build(config.root()?)?)
}

/// A configuration built from settings, the faults of what was left out of it, and its refresh
/// rate.
pub type Built<C> = LoadedText<C, AppenderErrors, ConfigErrors>;

/// Builds a configuration by plans of what has no fault. The faults are printed with the path of
/// their file, if one is given.
pub(crate) fn build<W: BuildAppender<M>, M: StoreMaker>(
    alloc: Global,
    file: Option<String>,
    plans: Plans,
    builder: &mut W,
    maker: &mut M,
    surroundings: &Surroundings<'_>,
) -> Result<Built<ConfigBy<W, M>>, OutOfMemory>
    ensures built { let builds = BuildsEach (W.Builds (M.starts maker.old) surroundings.now)
        (plans_view plans).appenders in
        IfOk result (λ built. IsLoaded (λ appenders errors. builds appenders errors builder.old
        builder.new) (plans_view plans) built.config built.appender_errors built.config_errors) }
    ensures rate { IfOk result (λ built. built.rate ≡ (plans_view plans).rate) }
    ensures starts { M.starts maker.new ≡ M.starts maker.old }
{
    let Plans {
        rate,
        root,
        appenders,
        loggers,
    } = plans;
    let (appenders, appender_errors) = build_each(
        alloc,
        file,
        appenders,
        builder,
        maker,
        surroundings,
    )?;
    let builder = builder_of(alloc, &loggers, appenders)?;
    let (config, config_errors) = builder.build_lossy(root_of(alloc, &root)?)?;
    Ok(LoadedText {
        config,
        appender_errors,
        config_errors,
        rate,
    })
}

/// Builds a configuration as `build` does. Returns it with the names of the appenders whose files
/// could not be opened.
pub(crate) fn build_noting<W: BuildAppender<M>, M: StoreMaker>(
    alloc: Global,
    file: Option<String>,
    plans: Plans,
    builder: &mut W,
    maker: &mut M,
    surroundings: &Surroundings<'_>,
) -> Result<(Built<ConfigBy<W, M>>, Vec<String>), OutOfMemory>
    ensures built { let builds = BuildsEach (W.Builds (M.starts maker.old) surroundings.now)
        (plans_view plans).appenders in
        IfOk result (λ made. IsLoaded (λ appenders errors. builds appenders errors builder.old
        builder.new) (plans_view plans) made.0.config made.0.appender_errors
        made.0.config_errors) }
    ensures refused { IfOk result (λ made. map (λ s. string_bytes s) made.1.items
        ≡ refused_names made.0.appender_errors) }
    ensures starts { M.starts maker.new ≡ M.starts maker.old }
{
    let built = build(alloc, file, plans, builder, maker, surroundings)?;
    let refused = built.appender_errors.refused()?;
    Ok((built, refused))
}

/// Builds a configuration of what has no fault. Returns it with the faults of appenders and
/// filters, and those of the whole.
pub fn create_lossy<P: Parts<M>, R, M: StoreMaker>(
    config: RawConfig,
    deserializers: &mut DeserializersWith<P, R>,
    maker: &mut M,
    surroundings: &Surroundings<'_>,
) -> Result<Built<ConfigBy<P, M>>, OutOfMemory>
    ensures built { let builds = BuildsAppenders (P.Builds (M.starts maker.old) surroundings.now)
        P.waiting_for (asked_by config).appenders deserializers.old deserializers.new in
        IfOk result (λ built. IsLoaded builds (asked_by config) built.config
        built.appender_errors built.config_errors) }
    ensures rate { IfOk result (λ built. built.rate ≡ (asked_by config).rate) }
    ensures makers { KeepsMakers deserializers.old deserializers.new }
    ensures starts { M.starts maker.new ≡ M.starts maker.old }
{
    let alloc = config.alloc;
    let plans = config.plans(deserializers)?;
    build(
        alloc,
        None,
        plans,
        &mut deserializers.parts,
        maker,
        surroundings,
    )
}

/// Returns a builder with these appenders and the loggers of these settings.
fn builder_of<A: Append + Drop, F: Filter + Drop>(
    alloc: Global,
    loggers: &[NamedLogger],
    appenders: Vec<Filtered<A, F>>,
) -> Result<ConfigBuilderOf<A, F>, OutOfMemory>
    ensures appenders { IfOk result (λ builder. given_appenders builder ≡ appenders.items) }
    ensures loggers { IfOk result (λ builder. given_loggers builder
        ≡ map logger_asked (map logger_entry loggers.now)) }
{
    let builder = ConfigOf::builder(alloc).appenders(appenders)?;
    builder.loggers(loggers_of(alloc, loggers)?)
}

/// Builds one appender. Returns `None` if it has a fault. Notes its faults behind those of its
/// filters.
fn build_one<W: BuildAppender<M>, M: StoreMaker>(
    alloc: Global,
    asked: Asked,
    builder: &mut W,
    maker: &mut M,
    surroundings: &Surroundings<'_>,
    errors: &mut AppenderErrors,
) -> Result<Option<Filtered<W::Appender, W::Filter>>, OutOfMemory>
    ensures built { IfOk result (λ made. (more : List Error)
        × (errors.new ≡ errors.old ++ more)
        × BuildsOne (W.Builds (M.starts maker.old) surroundings.now) (asked_view asked) made more
        builder.old builder.new) }
    ensures starts { M.starts maker.new ≡ M.starts maker.old }
{
    let Asked {
        name,
        filters,
        plan,
    } = asked;
    let filters = good_filters(alloc, &name, filters, errors)?;
    match plan {
        Ok(plan) => match builder.build(maker, surroundings, &name, filters, plan) {
            Ok(made) => Ok(Some(made)),
            Err(refusal) => {
                errors.note_appender(&name, reported(alloc, refusal)?)?;
                Ok(None)
            }
        },
        Err(fault) => {
            errors.note_appender(&name, fault)?;
            Ok(None)
        }
    }
}

/// Returns the fault that an error is reported as, with its place in the settings of the appender.
/// A failed allocation is not reported.
fn reported(alloc: Global, refusal: Refusal) -> Result<PartFault, OutOfMemory>
    ensures { IfOk result (λ told. reported refusal ≡ Some (fault_of told.fault)) }
{
    let (place, fault) = match refusal {
        Refusal::Roller(error) => ("policy.roller", ConfigFault::Roller(error)),
        Refusal::Store => ("", ConfigFault::Log(LogError::Store)),
        Refusal::Memory => return Err(OutOfMemory),
    };
    let place = String::from_str(alloc, place)?;
    Ok(PartFault {
        place,
        value: None,
        fault,
    })
}

/// Builds appenders, in order. Returns them and the faults of those that are left out, which are
/// printed with the path of their file, if one is given.
pub(crate) fn build_each<W: BuildAppender<M>, M: StoreMaker>(
    alloc: Global,
    file: Option<String>,
    appenders: Vec<Asked>,
    builder: &mut W,
    maker: &mut M,
    surroundings: &Surroundings<'_>,
) -> Result<(Vec<Filtered<W::Appender, W::Filter>>, AppenderErrors), OutOfMemory>
    ensures built { IfOk result (λ r. BuildsEach (W.Builds (M.starts maker.old) surroundings.now)
        (map asked_view appenders.items) r.0.items r.1 builder.old builder.new) }
    ensures starts { M.starts maker.new ≡ M.starts maker.old }
{
    let mut built = Vec::new(alloc);
    let mut errors = AppenderErrors::new(alloc, file);
    for asked in appenders {
        let made = build_one(alloc, asked, builder, maker, surroundings, &mut errors)?;
        if let Some(made) = made {
            built.push(made)?;
        }
    }
    Ok((built, errors))
}
