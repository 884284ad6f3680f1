//! Building again what a configuration in force lacks, since files could not be opened.

ghost use Rattle.std.specs.Prelude.{◌≡◌, ◌↔◌, [], All, IfOk, IfSome, IsTrue, Ok, length, map};
ghost use Rattle.std.specs.Prelude.{string_bytes};
ghost use Rattle.log4rs_config.specs.Holder.{OnlyReplies};
ghost use Rattle.log4rs_plans.specs.Effective.{planned_in, planned_of};
ghost use Rattle.log4rs_plans.specs.Plans.{plans_of};
ghost use Rattle.log4rs_plans.specs.View.{plans_view};
ghost use Rattle.log4rs_settings.specs.Reload.{state_of};
ghost use Rattle.log4rs_settings.specs.Top.{TopSettings};
ghost use Rattle.log4rs_build.specs.Again.{AllStand, IsBuiltAgain, OneWorks};
ghost use Rattle.log4rs_build.specs.Deserializers.{KeepsMakers, handed_of, kinds_in};
ghost use Rattle.log4rs_build.specs.Deserializers.{part_makers_of};
ghost use Rattle.log4rs_build.specs.Keeping.{planned};
ghost use Rattle.log4rs_build.specs.Leaving.{IsKeptUnder};
ghost use Rattle.log4rs_build.specs.Raw.{settings_in};

use crate::AppenderErrors;
use crate::config_file::ConfigFile;
use crate::create::Built;
use crate::deserializers::DeserializersWith;
use crate::in_force::{InForce, is_kept_under, leaving_of, still_in_force};
use crate::raw::RawConfig;
use crate::rereading::KeptBy;
use log4rs_base::OutOfMemory;
use log4rs_config::runtime::{SharedAppender, SharesAppenders};
use log4rs_parts::{BuildAppender, Parts, Refill};
use log4rs_plans::{PlannedAppender, Plans, Surroundings, Waits};
use log4rs_rolling::StoreMaker;
use log4rs_settings::{LoadError, Reloader};
use std::alloc::Global;

/// Returns whether each of the appenders in force is kept where these are asked for.
fn all_kept<B>(asked: &[PlannedAppender], in_force: &[InForce<B>]) -> bool
    ensures { IsTrue result ↔ All (λ one. IsKeptUnder (map planned_of asked.now)
        (map planned in_force.now) (string_bytes one.name)) in_force.now }
{
    for one in in_force {
        if !is_kept_under(one.name.as_str(), asked, in_force) {
            return false;
        }
    }
    true
}

/// Returns whether those that are in force still are all that were in force, each is kept where
/// these are asked for, and none leaves.
fn do_all_stand<B>(
    asked: &[PlannedAppender],
    in_force: &[InForce<B>],
    still: &[InForce<B>],
    leaving: &[SharedAppender<B>],
) -> bool
    ensures { IsTrue result ↔ ((length still.now ≡ length in_force.now)
        × All (λ one. IsKeptUnder (map planned_of asked.now) (map planned still.now)
        (string_bytes one.name)) still.now × (leaving.now ≡ [])) }
{
    still.len() == in_force.len() && all_kept(asked, still) && leaving.is_empty()
}

/// Returns shares of the appenders in force, if none of them is retired, each is kept where these
/// are asked for, and the holder has no other, but consoles.
fn all_that_stand<B: Drop, H: SharesAppenders<B>>(
    alloc: Global,
    asked: &[PlannedAppender],
    in_force: &[InForce<B>],
    holder: &mut H,
) -> Result<Option<Vec<InForce<B>>>, OutOfMemory>
    ensures stand { IfOk result (λ all. IfSome all (λ still. AllStand (map planned_of asked.now)
        in_force.now (H.history holder.old) (H.history holder.new) still.items)) }
    ensures replies { OnlyReplies (H.history holder.old) (H.history holder.new) }
{
    let still = still_in_force(alloc, in_force, holder)?;
    let leaving = leaving_of(holder.shared_appenders()?, asked, &still);
    if do_all_stand(asked, in_force, &still, &leaving) {
        return Ok(Some(still));
    }
    Ok(None)
}

/// Returns what the text that was read last asks for, with components that are made anew where
/// there are makers of them.
fn planned_again<P: Waits, R: Refill<P>>(
    deserializers: &mut DeserializersWith<P, R>,
    surroundings: &Surroundings<'_>,
    reloader: &Reloader,
) -> Result<(Plans, Vec<PlannedAppender>), LoadError>
    ensures plans { IfOk result (λ made. (top : TopSettings)
        × (settings_in (state_of reloader.now).format (state_of reloader.now).source ≡ Ok top)
        × (plans_view made.0 ≡ plans_of (kinds_in deserializers.old)
        (P.waiting_for (handed_of deserializers.new)) top)) }
    ensures planned { IfOk result (λ made. map planned_of made.1.items
        ≡ planned_in surroundings.now (plans_view made.0).appenders) }
    ensures filled { IfOk result (λ made. R.Refills (part_makers_of deserializers.old)
        (handed_of deserializers.old) (handed_of deserializers.new)) }
    ensures makers { KeepsMakers deserializers.old deserializers.new }
{
    let asked = RawConfig::from_text(deserializers.alloc, reloader.format(), reloader.text())?;
    deserializers.refill()?;
    let plans = asked.plans(deserializers)?;
    let planned = plans.planned(surroundings)?;
    Ok((plans, planned))
}

/// Returns whether one of these appenders is left out no longer.
fn one_works(refused: &[String], errors: &AppenderErrors) -> bool
    ensures { IsTrue result ↔ OneWorks (map (λ s. string_bytes s) refused.now) errors.now }
{
    for name in refused {
        if !errors.leave_out_named(name.as_str()) {
            return true;
        }
    }
    false
}

/// A configuration, and its appenders with their plans.
type BuiltBeside<P, M> = (
    Built<KeptBy<P, M>>,
    Vec<InForce<<P as BuildAppender<M>>::Appender>>,
);

impl<S, M, P, R> ConfigFile<S, M, DeserializersWith<P, R>>
where
    M: StoreMaker,
    P: Parts<M> + Drop,
    R: Refill<P>,
{
    /// Builds the configuration of the text that was read last once more, to have the appenders of
    /// these names: their files could not be opened. All appenders in force are kept, and none is
    /// retired. Returns `None` if none of the names works now; and, without building anything, if
    /// an appender in force is retired or would not be kept, if the holder has another one, or if
    /// a filter has a fault, as one of the caller's that was handed in once.
    pub fn build_again<H: SharesAppenders<P::Appender>>(
        &mut self,
        reloader: &Reloader,
        in_force: &[InForce<P::Appender>],
        refused: &[String],
        holder: &mut H,
    ) -> Result<Option<BuiltBeside<P, M>>, LoadError>
        ensures built { IfOk result (λ made. IfSome made (λ built. (top : TopSettings)
            × (settings_in (state_of reloader.now).format (state_of reloader.now).source ≡ Ok top)
            × IsBuiltAgain (P.Builds (M.starts self.old.maker) self.old.surroundings)
            P.BuildsFilters self.old.surroundings R.Refills P.waiting_for in_force.now
            (H.history holder.old) (H.history holder.new) self.old.deserializers
            self.new.deserializers top built.0.config built.0.appender_errors
            built.0.config_errors)) }
        ensures works { IfOk result (λ made. IfSome made (λ built.
            OneWorks (map (λ s. string_bytes s) refused.now) built.0.appender_errors)) }
        ensures replies { OnlyReplies (H.history holder.old) (H.history holder.new) }
        ensures makers { KeepsMakers self.old.deserializers self.new.deserializers }
        ensures starts { M.starts self.new.maker ≡ M.starts self.old.maker }
        ensures rest { self.new ≡ record self.old {
          deserializers = self.new.deserializers;
          maker = self.new.maker;
        } }
    {
        let alloc = self.deserializers.alloc;
        let (around, deserializers) = (&self.surroundings, &mut self.deserializers);
        let (plans, planned) = planned_again(deserializers, around, reloader)?;
        if !plans.filters_are_good() {
            return Ok(None);
        }
        let Some(still) = all_that_stand(alloc, &planned, in_force, holder)? else {
            return Ok(None);
        };
        let made = self.build_beside(plans, &planned, still)?;
        if one_works(refused, &made.0.appender_errors) {
            return Ok(Some(made));
        }
        Ok(None)
    }
}
