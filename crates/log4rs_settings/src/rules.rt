//! Plans of components, and their origins. An appender's own settings are checked first, then those
//! of its encoder, then those of its policy.
ghost use Rattle.std.specs.Prelude.{option_map};
ghost use Rattle.log4rs_settings.specs.View.{view, members_view};
ghost use Rattle.log4rs_settings.specs.Appenders.{console_plan, file_plan, rolling_plan, appender_plan};
ghost use Rattle.log4rs_settings.specs.Component.{component_view, component_now, filter_view};
ghost use Rattle.log4rs_settings.specs.MakersView.{kinds};
ghost use Rattle.log4rs_settings.specs.Plan.{encoder_of, roller_of, policy_of, appender_of};
ghost use Rattle.log4rs_settings.specs.Policies.{time_from, trigger_in, roller_in, halves_of, policy_plan};
ghost use Rattle.log4rs_settings.specs.Reading.{IsPartRead, as_it_is};
ghost use Rattle.log4rs_settings.specs.Rules.{source_of, filter_plan, encoder_at, encoder_in, encoder_plan};

use crate::component::{Component, FilterConfig};
use crate::fields::{self, Name, Object, fields_of};
use crate::makers::{Maker, Makers};
use crate::part::{ConfigFault, PartError, Read};
use crate::plan::{
    AppenderPlan, EncoderPlan, FilterPlan, PolicyPlan, RollerPlan, Source, TriggerPlan, Waiting,
    WindowPlan,
};
use crate::{Tree, values};
use log4rs_base::{Target, TimeTriggerConfig, TimeTriggerInterval};
use std::alloc::Global;

/// The pattern of an encoder without one.
const DEFAULT_PATTERN: &str = "{d} {l} {t} - {m}{n}";

/// Returns the origin of a component of a kind, while `waiting` handed-in ones of its class are
/// left.
fn source_of(
    alloc: Global,
    makers: &Makers,
    class: Name,
    waiting: usize,
    kind: &str,
) -> Read<Source>
    ensures { IsPartRead as_it_is
        (source_of (kinds makers.now) class.now waiting kind.now) result }
{
    match makers.maker(class, kind) {
        Some(maker) => Ok(Source::Made(maker)),
        None if waiting > 0 => Ok(Source::HandedIn),
        None => {
            let unknown = ConfigFault::UnknownKind(class, String::from_str(alloc, kind)?);
            Err(PartError::Fault(fields::of_object(alloc, unknown)))
        }
    }
}

/// Reads the encoder of an appender, if it has one.
#[tactic(auto, using(crate::proofs::Below::read_within))]
fn encoder_at(alloc: Global, object: &Object) -> Read<Option<Component>>
    ensures { IsPartRead (λ encoder. option_map component_view encoder)
        (encoder_at (members_view object.now.entries)) result }
{
    match fields::given(object, "encoder") {
        None => Ok(None),
        Some(tree) => {
            let encoder = Component::read(alloc, tree.clone()?, "encoder", Some("pattern"));
            Ok(Some(fields::within(alloc, "encoder", encoder)?))
        }
    }
}

/// Returns the plan of a filter, while `waiting` handed-in ones are left for its appender. The place
/// of a fault is one in the settings of the filter.
pub fn filter_plan(
    alloc: Global,
    makers: &Makers,
    waiting: usize,
    filter: &FilterConfig,
) -> Read<FilterPlan>
    ensures { IsPartRead as_it_is
        (filter_plan (kinds makers.now) waiting (filter_view filter.now)) result }
{
    match source_of(alloc, makers, "filter", waiting, filter.kind.as_str())? {
        Source::HandedIn => Ok(FilterPlan::HandedIn),
        Source::Made(_) => {
            let object = fields::object_in(alloc, &filter.config, "filter")?;
            let level = fields::required_value(alloc, object, "level")?;
            Ok(FilterPlan::Threshold(level))
        }
    }
}

/// Returns the plan of an encoder, while `waiting` handed-in ones are left for its appender.
/// Without settings it has the default pattern. The place of a fault is one in the settings of the
/// appender.
#[tactic(auto, using(crate::proofs::Below::read_within))]
fn encoder_plan(
    alloc: Global,
    makers: &Makers,
    waiting: usize,
    encoder: Option<&Component>,
) -> Read<EncoderPlan>
    ensures { IsPartRead encoder_of
        (encoder_plan (kinds makers.now) waiting (option_map component_now encoder.entry)) result }
{
    let Some(encoder) = encoder else {
        let pattern = String::from_str(alloc, DEFAULT_PATTERN)?;
        return Ok(EncoderPlan::Pattern(pattern));
    };
    let plan = encoder_from(alloc, makers, waiting, encoder);
    fields::within(alloc, "encoder", plan)
}

/// Returns the plan of an encoder. The place of a fault is one in its own settings.
fn encoder_from(
    alloc: Global,
    makers: &Makers,
    waiting: usize,
    encoder: &Component,
) -> Read<EncoderPlan>
    ensures { IsPartRead encoder_of
        (encoder_in (kinds makers.now) waiting (component_view encoder.now)) result }
{
    match source_of(alloc, makers, "encoder", waiting, encoder.kind.as_str())? {
        Source::HandedIn => Ok(EncoderPlan::HandedIn),
        Source::Made(Maker::Json) => {
            fields_of(alloc, &encoder.config, "encoder", &[])?;
            Ok(EncoderPlan::Json)
        }
        Source::Made(_) => {
            let object = fields_of(alloc, &encoder.config, "encoder", &["pattern"])?;
            let pattern = fields::text_at(alloc, object, "pattern", Some(DEFAULT_PATTERN))?;
            Ok(EncoderPlan::Pattern(String::from_str(alloc, pattern)?))
        }
    }
}

/// Reads a time trigger. Checks its interval after all fields.
fn time_from(alloc: Global, object: &Object) -> Read<TriggerPlan>
    ensures { IsPartRead as_it_is (time_from (members_view object.now.entries)) result }
{
    let interval: TimeTriggerInterval = fields::required_value(alloc, object, "interval")?;
    let modulate = fields::optional(alloc, object, "modulate", false)?;
    let max_random_delay = fields::optional(alloc, object, "max_random_delay", 0)?;
    if !interval.has_number() {
        let fault = fields::of_object(alloc, ConfigFault::Interval);
        return Err(PartError::Fault(fields::under(alloc, "interval", fault)?));
    }
    Ok(TriggerPlan::Time(TimeTriggerConfig {
        interval,
        modulate,
        max_random_delay,
    }))
}

/// Returns the plan of a trigger. The place of a fault is one in its own settings.
fn trigger_from(
    alloc: Global,
    makers: &Makers,
    waiting: usize,
    trigger: &Component,
) -> Read<TriggerPlan>
    ensures { IsPartRead as_it_is
        (trigger_in (kinds makers.now) waiting (component_view trigger.now)) result }
{
    match source_of(alloc, makers, "trigger", waiting, trigger.kind.as_str())? {
        Source::HandedIn => Ok(TriggerPlan::HandedIn),
        Source::Made(Maker::Size) => {
            let object = fields_of(alloc, &trigger.config, "trigger", &["limit"])?;
            let tree = fields::required(alloc, object, "limit")?;
            let limit = fields::or_bad(alloc, "limit", tree, values::size(tree))?;
            Ok(TriggerPlan::Size(limit))
        }
        Source::Made(Maker::Time) => {
            let known = ["interval", "modulate", "max_random_delay"];
            time_from(alloc, fields_of(alloc, &trigger.config, "trigger", &known)?)
        }
        Source::Made(_) => {
            let object = fields_of(alloc, &trigger.config, "trigger", &["min_size"])?;
            let least = fields::optional(alloc, object, "min_size", 1)?;
            Ok(TriggerPlan::OnStartUp(least))
        }
    }
}

/// Returns the plan of a roller. The place of a fault is one in its own settings.
fn roller_from(alloc: Global, makers: &Makers, roller: &Component) -> Read<RollerPlan>
    ensures { IsPartRead roller_of
        (roller_in (kinds makers.now) (component_view roller.now)) result }
{
    match source_of(alloc, makers, "roller", 0, roller.kind.as_str())? {
        Source::Made(Maker::FixedWindow) => {
            let known = ["pattern", "count", "base", "background"];
            let object = fields_of(alloc, &roller.config, "roller", &known)?;
            let pattern = fields::text_at(alloc, object, "pattern", None)?;
            let count = fields::required_value(alloc, object, "count")?;
            let base = fields::optional(alloc, object, "base", 0)?;
            let background = fields::optional(alloc, object, "background", false)?;
            let pattern = String::from_str(alloc, pattern)?;
            Ok(RollerPlan::FixedWindow(WindowPlan {
                pattern,
                base,
                count,
                background,
            }))
        }
        _ => {
            fields_of(alloc, &roller.config, "roller", &[])?;
            Ok(RollerPlan::Delete)
        }
    }
}

/// Reads the trigger and the roller of a policy. The place of a fault is one in its own settings.
fn halves_of(alloc: Global, makers: &Makers, policy: &Component) -> Read<(Component, Component)>
    ensures { IsPartRead (λ halves. (component_view halves.0, component_view halves.1))
        (halves_of (kinds makers.now) (component_view policy.now)) result }
{
    source_of(alloc, makers, "policy", 0, policy.kind.as_str())?;
    let object = fields_of(alloc, &policy.config, "policy", &["trigger", "roller"])?;
    let trigger = Component::at(alloc, object, "trigger", None)?;
    Ok((trigger, Component::at(alloc, object, "roller", None)?))
}

/// Returns the plan of a policy, while `waiting` handed-in triggers are left for its appender.
/// Checks its own settings first, then those of its trigger, then those of its roller. The place of
/// a fault is one in the settings of the appender.
#[tactic(auto, using(crate::proofs::Below::read_within))]
fn policy_plan(
    alloc: Global,
    makers: &Makers,
    waiting: usize,
    policy: &Component,
) -> Read<PolicyPlan>
    ensures { IsPartRead policy_of
        (policy_plan (kinds makers.now) waiting (component_view policy.now)) result }
{
    let halves = halves_of(alloc, makers, policy);
    let (trigger, roller) = fields::within(alloc, "policy", halves)?;
    let trigger = trigger_from(alloc, makers, waiting, &trigger);
    let trigger = fields::within(alloc, "policy.trigger", trigger)?;
    let roller = roller_from(alloc, makers, &roller);
    let roller = fields::within(alloc, "policy.roller", roller)?;
    Ok(PolicyPlan { trigger, roller })
}

fn console_plan(
    alloc: Global,
    makers: &Makers,
    waiting: Waiting,
    config: &Tree,
) -> Read<AppenderPlan>
    ensures { IsPartRead appender_of
        (console_plan (kinds makers.now) waiting (view config.now)) result }
{
    let known = ["target", "encoder", "tty_only"];
    let object = fields_of(alloc, config, "appender", &known)?;
    let target = fields::optional(alloc, object, "target", Target::Stdout)?;
    let encoder = encoder_at(alloc, object)?;
    let tty_only = fields::optional(alloc, object, "tty_only", false)?;
    let encoder = encoder_plan(alloc, makers, waiting.encoders, encoder.as_ref())?;
    Ok(AppenderPlan::Console {
        target,
        tty_only,
        encoder,
    })
}

fn file_plan(alloc: Global, makers: &Makers, waiting: Waiting, config: &Tree) -> Read<AppenderPlan>
    ensures { IsPartRead appender_of
        (file_plan (kinds makers.now) waiting (view config.now)) result }
{
    let object = fields_of(alloc, config, "appender", &["path", "encoder", "append"])?;
    let path = fields::text_at(alloc, object, "path", None)?;
    let encoder = encoder_at(alloc, object)?;
    let append = fields::optional(alloc, object, "append", true)?;
    let encoder = encoder_plan(alloc, makers, waiting.encoders, encoder.as_ref())?;
    let path = String::from_str(alloc, path)?;
    Ok(AppenderPlan::File {
        path,
        append,
        encoder,
    })
}

fn rolling_plan(
    alloc: Global,
    makers: &Makers,
    waiting: Waiting,
    config: &Tree,
) -> Read<AppenderPlan>
    ensures { IsPartRead appender_of
        (rolling_plan (kinds makers.now) waiting (view config.now)) result }
{
    let known = ["path", "policy", "encoder", "append"];
    let object = fields_of(alloc, config, "appender", &known)?;
    let path = fields::text_at(alloc, object, "path", None)?;
    let policy = Component::at(alloc, object, "policy", Some("compound"))?;
    let encoder = encoder_at(alloc, object)?;
    let append = fields::optional(alloc, object, "append", true)?;
    let encoder = encoder_plan(alloc, makers, waiting.encoders, encoder.as_ref())?;
    let policy = policy_plan(alloc, makers, waiting.triggers, &policy)?;
    let path = String::from_str(alloc, path)?;
    Ok(AppenderPlan::RollingFile {
        path,
        append,
        encoder,
        policy,
    })
}

/// Returns the plan of an appender of a kind, while `waiting` handed-in components are left for it.
pub fn appender_plan(
    alloc: Global,
    makers: &Makers,
    waiting: Waiting,
    kind: &str,
    config: &Tree,
) -> Read<AppenderPlan>
    ensures { IsPartRead appender_of
        (appender_plan (kinds makers.now) waiting kind.now (view config.now)) result }
{
    match source_of(alloc, makers, "appender", waiting.appenders, kind)? {
        Source::HandedIn => Ok(AppenderPlan::HandedIn),
        Source::Made(Maker::Console) => console_plan(alloc, makers, waiting, config),
        Source::Made(Maker::File) => file_plan(alloc, makers, waiting, config),
        Source::Made(_) => rolling_plan(alloc, makers, waiting, config),
    }
}
