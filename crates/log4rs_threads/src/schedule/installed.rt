//! The configurations of shapes.

ghost use Rattle.std.specs.Prelude.{◌≡◌, ◌<◌, [], map, length, All, slice_set, slice_index_or, Some};
ghost use Rattle.std.specs.Prelude.{string_bytes, vec_len, IfOk, IfErr, OnOk, option_map};
ghost use Rattle.std.specs.Prelude.{slice_get};
ghost use Rattle.log4rs_base.specs.Filtering.{passes, threshold_answer};
ghost use Rattle.log4rs_append.specs.Sink.{Untold};
ghost use Rattle.log4rs_config.specs.Appender.{name_of, filters_of, appender_of};
ghost use Rattle.log4rs_config.specs.Builder.{config_settings, config_admits};
ghost use Rattle.log4rs_config.specs.Faults.{faults};
ghost use Rattle.log4rs_config.specs.Refusal.{IsRefusal};
ghost use Rattle.log4rs_config.specs.Routing.{admitted, deliveries};
ghost use Rattle.log4rs_threads.specs.Shapes.{settings_in, admits_in, deliveries_in};
ghost use Rattle.log4rs_threads.specs.Held.{Holds, AreEmpty, all_texts};

use crate::schedule::shape::{Shape, ShapeAppender};
use log::LevelFilter;
use log4rs_append::{Append, MemoryAppender};
use log4rs_base::filter::{Filter, ThresholdFilter};
use log4rs_base::{Context, OutOfMemory, Record};
use log4rs_config::logging::CoreOf;
use log4rs_config::runtime::appender::Filtered;
use log4rs_config::runtime::config::ConfigOf;
use log4rs_config::runtime::{BuildError, Configured};
use log4rs_encode::pattern::PatternEncoder;
use std::alloc::Global;
use std::collections::VecDeque;
use std::snapshot::Snapshot;

type BuiltAppender = Filtered<MemoryAppender<PatternEncoder>, ThresholdFilter>;

type Config = ConfigOf<MemoryAppender<PatternEncoder>, ThresholdFilter>;

/// Builds the configuration of a shape, with its routes.
#[derive(Drop)]
pub(crate) struct Installed {
    core: CoreOf<MemoryAppender<PatternEncoder>, ThresholdFilter>,
    pub(crate) shape: Snapshot<Shape>,
    ghost settings: { config_settings core.config ≡ settings_in shape.value },
    ghost admits: { (r : _) → config_admits (⟦<ThresholdFilter as Filter>⟧.answer) core.config r
        ≡ admits_in shape.value r },
}

/// Returns the filters of thresholds.
fn filters(alloc: Global, thresholds: &[LevelFilter]) -> Result<Vec<ThresholdFilter>, OutOfMemory>
    ensures { IfOk result (λ made. (r : _)
        → map (λ f. ⟦<ThresholdFilter as Filter>⟧.answer f r) made.items
        ≡ map (λ limit. threshold_answer limit r.level) thresholds.now) }
{
    let mut made = Vec::new(alloc);
    for level in thresholds {
        made.push(ThresholdFilter::new(*level))?;
    }
    Ok(made)
}

/// Builds the appender of a shape.
fn built(alloc: Global, appender: ShapeAppender) -> Result<BuiltAppender, OutOfMemory>
    ensures name { IfOk result (λ made. name_of made ≡ string_bytes appender.name) }
    ensures passes { IfOk result (λ made. (r : _)
        → passes (λ f. ⟦<ThresholdFilter as Filter>⟧.answer f r) (filters_of made)
        ≡ passes (λ limit. threshold_answer limit r.level) appender.thresholds.items) }
    ensures empty { IfOk result (λ made. Holds (Some appender) []
        (Some ((⟦<MemoryAppender<PatternEncoder> as Append>⟧.sink (appender_of made)).texts))) }
{
    let filters = filters(alloc, &appender.thresholds)?;
    let encoder = PatternEncoder::new(alloc, appender.pattern.as_str())?;
    let memory = MemoryAppender::new(alloc, encoder);
    Ok(
        Filtered::builder(alloc)
            .filters(filters)?
            .build(appender.name, memory),
    )
}

/// Builds the appenders of a shape.
fn all_built(
    alloc: Global,
    appenders: Vec<ShapeAppender>,
) -> Result<Vec<BuiltAppender>, OutOfMemory>
    ensures names { IfOk result (λ made. map (λ a. name_of a) made.items
        ≡ map (λ a. string_bytes a.name) appenders.items) }
    ensures passes { IfOk result (λ made. (r : _)
        → map (λ a. passes (λ f. ⟦<ThresholdFilter as Filter>⟧.answer f r) (filters_of a))
        made.items
        ≡ map (λ a. passes (λ limit. threshold_answer limit r.level) a.thresholds.items)
        appenders.items) }
    ensures empty { IfOk result (λ made. AreEmpty appenders.items (all_texts
        (map (λ a. ⟦<MemoryAppender<PatternEncoder> as Append>⟧.sink (appender_of a))
        made.items))) }
{
    let mut made = Vec::new(alloc);
    for appender in appenders {
        made.push(built(alloc, appender)?)?;
    }
    Ok(made)
}

/// Builds the configuration of a shape.
fn configured(alloc: Global, shape: Shape) -> Result<Config, BuildError>
    ensures settings { IfOk result (λ config. ⟦<Config as Configured>⟧.settings config
        ≡ settings_in shape) }
    ensures admits { IfOk result (λ config. (r : _) → ⟦<Config as Configured>⟧.admits config r
        ≡ admits_in shape r) }
    ensures empty { IfOk result (λ config. AreEmpty shape.appenders.items
        (all_texts (⟦<Config as Configured>⟧.sinks config))) }
    ensures faultless { OnOk result (faults (settings_in shape) ≡ []) }
    ensures errors { IfErr result (λ error. IsRefusal (faults (settings_in shape)) error) }
{
    let appenders = all_built(alloc, shape.appenders)?;
    let builder = ConfigOf::builder(alloc).appenders(appenders)?;
    builder.loggers(shape.loggers)?.build(shape.root)
}

impl Configured for Installed {
    ghost use Rattle.log4rs_config.specs.Builder.{config_settings, config_admits, config_sinks};

    ghost settings = { λ x. config_settings x.core.config };

    ghost admits = { λ x r. config_admits (⟦<ThresholdFilter as Filter>⟧.answer) x.core.config
        r };

    ghost sinks = { λ x. config_sinks (⟦<MemoryAppender<PatternEncoder> as Append>⟧.sink)
        x.core.config };
}

/// Returns the indices whose filters let a record pass, in order.
fn admitted_by<A: Append, F: Filter>(
    alloc: Global,
    core: &CoreOf<A, F>,
    places: &[usize],
    record: &Record,
) -> Result<VecDeque<usize>, OutOfMemory>
    requires { All (λ at. at < length (⟦<CoreOf<A, F> as Configured>⟧.settings core.now).appenders)
        places.now }
    ensures places { IfOk result (λ found. found.items
        ≡ admitted (⟦<CoreOf<A, F> as Configured>⟧.admits core.now «record».now) places.now) }
    ensures within { IfOk result (λ found. All (λ at. at
        < length (⟦<CoreOf<A, F> as Configured>⟧.settings core.now).appenders) found.items) }
{
    let mut found = VecDeque::new(alloc);
    for at in places {
        if core.admits(*at, record) {
            found.push_back(*at)?;
        }
    }
    Ok(found)
}

/// Returns the indices of a record's deliveries, in order.
fn deliveries_by<A: Append, F: Filter>(
    alloc: Global,
    core: &CoreOf<A, F>,
    record: &Record,
) -> Result<VecDeque<usize>, OutOfMemory>
    ensures places { IfOk result (λ places. let seen = ⟦<CoreOf<A, F> as Configured>⟧ in
        places.items ≡ deliveries (seen.settings core.now) (seen.admits core.now) «record».now) }
    ensures within { IfOk result (λ places. All (λ at. at
        < length (⟦<CoreOf<A, F> as Configured>⟧.settings core.now).appenders) places.items) }
{
    let (limit, places) = core.route(&record.target);
    if !limit.allows(record.level) {
        return Ok(VecDeque::new(alloc));
    }
    admitted_by(alloc, core, places, record)
}

impl Installed {
    ghost use Rattle.log4rs_threads.specs.Held.{gained, items_in};

    /// Builds the configuration of a shape, with empty sinks.
    pub(crate) fn new(alloc: Global, shape: Shape) -> Result<Installed, BuildError>
        ensures shape { IfOk result (λ made. made.shape.value ≡ shape) }
        ensures empty { IfOk result (λ made. AreEmpty shape.appenders.items
            (all_texts (⟦<Self as Configured>⟧.sinks made))) }
        ensures faultless { OnOk result (faults (settings_in shape) ≡ []) }
        ensures errors { IfErr result (λ error. IsRefusal (faults (settings_in shape)) error) }
    {
        let given = Snapshot::of(&shape);
        let config = configured(alloc, shape)?;
        let core = CoreOf::new(alloc, config)?;
        Ok(Installed { core, shape: given })
    }

    /// Returns the indices of a record's deliveries, in order.
    pub(crate) fn deliveries(
        &self,
        alloc: Global,
        record: &Record,
    ) -> Result<VecDeque<usize>, OutOfMemory>
        ensures places { IfOk result (λ places. places.items
            ≡ deliveries_in self.now.shape.value «record».now) }
        ensures within { IfOk result (λ places.
            All (λ at. at < vec_len self.now.shape.value.appenders) places.items) }
    {
        deliveries_by(alloc, &self.core, record)
    }

    /// Appends to the appender at an index.
    pub(crate) fn append(
        &mut self,
        at: usize,
        record: &Record,
        context: &Context<'_>,
    ) -> Result<(), OutOfMemory>
        requires { at < vec_len self.old.shape.value.appenders }
        ensures shape { self.new.shape.value ≡ self.old.shape.value }
        ensures texts { OnOk result (let seen = ⟦<Self as Configured>⟧ in
            all_texts (seen.sinks self.new) ≡ slice_set (all_texts (seen.sinks self.old)) at
            (gained «record».now context.now
            (slice_index_or (all_texts (seen.sinks self.old)) at Untold))) }
    {
        if let Err(_) = self.core.append(at, record, context) {
            return Err(OutOfMemory);
        }
        Ok(())
    }

    /// Returns the texts in the sink at an index, or none if there is no appender.
    pub(crate) fn texts(&self, at: usize) -> Option<&[String]>
        ensures { option_map (λ texts. map (λ s. string_bytes s) texts.now) result
            ≡ option_map items_in
            (slice_get (all_texts (⟦<Self as Configured>⟧.sinks self.now)) at) }
    {
        let appender = self.core.config().appenders().get(at)?;
        Some(appender.appender().records())
    }
}
