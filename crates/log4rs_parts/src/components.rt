//! Components and file appenders built by their plans.

ghost use Rattle.std.specs.Prelude.{◌≡◌, ◌≢◌, IfOk, IfErr, IfSome, IfNone, OnOk, Some};
ghost use Rattle.log4rs_settings.specs.Plan.{encoder_of, roller_of};
ghost use Rattle.log4rs_rolling.specs.Roller.{kept_by_any};
ghost use Rattle.log4rs_parts.specs.NamedParts.{parts_in};
ghost use Rattle.log4rs_parts.specs.Built.{Encodes, IsTrigger, kept_in, refused, IsConsole, IsFile, IsRolling, IsNoRoller, IsOfRoller};
ghost use Rattle.log4rs_parts.specs.FromParts.{LacksEncoder};
ghost use Rattle.log4rs_parts.specs.Waits.{encoders_left, triggers_left};
ghost use Rattle.log4rs_base.specs.Names.{expanded_names};
ghost use Rattle.log4rs_append.specs.Rolling.{policy_of};
ghost use Rattle.log4rs_plans.specs.Effective.{path_in};

use crate::{NamedParts, Refusal};
use log4rs_append::{ConsoleAppender, FileAppender, RollingFileAppender, Target};
use log4rs_base::OutOfMemory;
use log4rs_encode::json::JsonEncoder;
use log4rs_encode::pattern::PatternEncoder;
use log4rs_encode::{Encode, EncoderOf};
use log4rs_plans::Surroundings;
use log4rs_rolling::{
    AnyRoller, AnyTriggerOf, CompoundPolicyOf, DeleteRoller, FixedWindowRoller, OnStartUpTrigger,
    RollerError, SizeTrigger, StoreMaker, TimeTrigger, Trigger,
};
use log4rs_settings::{EncoderPlan, RollerPlan, TriggerPlan};
use std::alloc::Global;
use std::collections::BTreeMap;

/// Builds the encoder of a plan. Returns `None` if it was to be handed in and none waits.
pub(crate) fn encoder_by<E: Encode>(
    alloc: Global,
    name: &str,
    plan: EncoderPlan,
    named_parts: &mut NamedParts<E>,
) -> Result<Option<EncoderOf<E>>, OutOfMemory>
    ensures encoder { IfOk result (λ made. IfSome made (λ encoder.
        Encodes E.rendering name.now (parts_in named_parts.old) (encoder_of plan)
        (⟦<EncoderOf<E> as Encode>⟧.rendering encoder))) }
    ensures none { IfOk result (λ made. IfNone made
        (LacksEncoder name.now (encoder_of plan) (parts_in named_parts.old))) }
    ensures left { OnOk result (parts_in named_parts.new
        ≡ encoders_left name.now (encoder_of plan) (parts_in named_parts.old)) }
{
    match plan {
        EncoderPlan::Pattern(pattern) => {
            let encoder = PatternEncoder::new(alloc, &pattern)?;
            Ok(Some(EncoderOf::Pattern(encoder)))
        }
        EncoderPlan::Json => Ok(Some(EncoderOf::Json(JsonEncoder::new()))),
        EncoderPlan::HandedIn => match named_parts.take(name) {
            Some(encoder) => Ok(Some(EncoderOf::Custom(encoder))),
            None => Ok(None),
        },
    }
}

/// Builds the trigger of a plan. Returns `None` if it was to be handed in and none waits, or if the
/// number of its interval is below 1.
pub(crate) fn trigger_by<T>(
    name: &str,
    plan: TriggerPlan,
    named_parts: &mut NamedParts<T>,
) -> Option<AnyTriggerOf<T>>
    ensures trigger { IfSome result (IsTrigger name.now (parts_in named_parts.old) plan) }
    ensures left { parts_in named_parts.new
        ≡ triggers_left name.now plan (parts_in named_parts.old) }
{
    match plan {
        TriggerPlan::Size(limit) => Some(AnyTriggerOf::Size(SizeTrigger::new(limit))),
        TriggerPlan::Time(config) => match TimeTrigger::new(config) {
            Ok(trigger) => Some(AnyTriggerOf::Time(trigger)),
            Err(_) => None,
        },
        TriggerPlan::OnStartUp(least) => {
            Some(AnyTriggerOf::OnStartUp(OnStartUpTrigger::new(least)))
        }
        TriggerPlan::HandedIn => match named_parts.take(name) {
            Some(trigger) => Some(AnyTriggerOf::Custom(trigger)),
            None => None,
        },
    }
}

/// Builds the roller of a plan.
pub(crate) fn roller_by(
    alloc: Global,
    plan: RollerPlan,
    env: &BTreeMap<String, String>,
) -> Result<AnyRoller, RollerError>
    ensures keeps { IfOk result (λ roller. kept_by_any roller ≡ kept_in env.now (roller_of plan)) }
    ensures refused { IfErr result (λ error. error ≢ RollerError.Memory
        → refused (roller_of plan) ≡ Some error) }
{
    match plan {
        RollerPlan::Delete => Ok(AnyRoller::Delete(DeleteRoller::new())),
        RollerPlan::FixedWindow(window) => {
            let builder = FixedWindowRoller::builder()
                .base(window.base)
                .background(window.background);
            let roller = builder.build(alloc, &window.pattern, window.count, env)?;
            Ok(AnyRoller::FixedWindow(roller))
        }
    }
}

/// Builds the console of a plan, with an encoder. If `prints` is true, it prints why the system
/// refuses it.
pub(crate) fn console<E: Encode + Drop>(
    alloc: Global,
    prints: bool,
    surroundings: &Surroundings<'_>,
    target: Target,
    tty_only: bool,
    encoder: EncoderOf<E>,
) -> Result<ConsoleAppender<EncoderOf<E>>, OutOfMemory>
    ensures { let rendering = ⟦<EncoderOf<E> as Encode>⟧.rendering in
        IfOk result (IsConsole rendering surroundings.now target tty_only (rendering encoder)) }
{
    let tty = match target {
        Target::Stdout => surroundings.stdout_tty,
        Target::Stderr => surroundings.stderr_tty,
    };
    let builder = ConsoleAppender::builder(alloc).encoder(encoder);
    let mut console = builder.target(target).tty_only(tty_only).build(
        surroundings.stdout,
        surroundings.stderr,
        surroundings.color,
        tty,
    )?;
    if prints {
        console.tell(surroundings.stderr);
    }
    Ok(console)
}

/// Builds the file appender of a plan, with an encoder, over a new store.
pub(crate) fn file<E: Encode + Drop, M: StoreMaker>(
    alloc: Global,
    maker: &mut M,
    surroundings: &Surroundings<'_>,
    path: &str,
    append: bool,
    encoder: EncoderOf<E>,
) -> Result<FileAppender<M::Made, EncoderOf<E>>, Refusal>
where
    M::Made: Drop,
    ensures made { let rendering = ⟦<EncoderOf<E> as Encode>⟧.rendering in
        IfOk result (IsFile rendering M.Made.disk (M.starts maker.old)
        (path_in surroundings.now path.now) append (rendering encoder)) }
    ensures refused { IfErr result IsNoRoller }
    ensures starts { M.starts maker.new ≡ M.starts maker.old }
{
    let store = maker.make()?;
    let builder = FileAppender::builder(alloc).encoder(encoder).append(append);
    let appender = builder.build(
        path,
        store,
        &surroundings.env,
        surroundings.moment,
        &surroundings.zone,
    )?;
    Ok(appender)
}

/// Builds the rolling file appender of a plan, with an encoder and a trigger, over a new store.
pub(crate) fn rolling<E: Encode + Drop, T: Trigger + Drop, M: StoreMaker>(
    alloc: Global,
    maker: &mut M,
    surroundings: &Surroundings<'_>,
    path: &str,
    append: bool,
    encoder: EncoderOf<E>,
    trigger: AnyTriggerOf<T>,
    roller: RollerPlan,
) -> Result<RollingFileAppender<M::Made, Rolls<T>, EncoderOf<E>>, Refusal>
where
    M::Made: Drop,
    ensures made { let rendering = ⟦<EncoderOf<E> as Encode>⟧.rendering in
        IfOk result (IsRolling rendering M.Made.disk (M.starts maker.old) surroundings.now.env
        (expanded_names surroundings.now.env path.now) append (roller_of roller)
        (rendering encoder)) }
    ensures trigger { IfOk result (λ a. (policy_of a).trigger ≡ trigger) }
    ensures refused { IfErr result (IsOfRoller (roller_of roller)) }
    ensures starts { M.starts maker.new ≡ M.starts maker.old }
{
    let roller = roller_by(alloc, roller, &surroundings.env)?;
    let store = maker.make()?;
    let policy = CompoundPolicyOf::new(trigger, roller);
    let builder = RollingFileAppender::builder(alloc)
        .encoder(encoder)
        .append(append);
    let appender = builder.build(path, store, policy, &surroundings.env)?;
    Ok(appender)
}

/// The policy of an appender built from settings.
pub(crate) type Rolls<T> = CompoundPolicyOf<AnyTriggerOf<T>, AnyRoller>;
