//! Appenders and filters built by plans from handed-in components.

ghost use Rattle.std.specs.Prelude.{◌≡◌, ◌≢◌, Err, IfOk, IfErr, ◌∷◌, [], map, OnOk, option_to_list};
ghost use Rattle.log4rs_settings.specs.Plan.{appender_of};
ghost use Rattle.log4rs_parts.specs.declared.build_appender.Refusal.TheVariants.{Memory};
ghost use Rattle.log4rs_parts.specs.FromParts.{BuildsFilters, IsBehind, CanRefuse, IsBuilt};
ghost use Rattle.log4rs_parts.specs.Waits.{waits_in, behind_left};
ghost use Rattle.log4rs_base.specs.Filtering.{answer_of};
ghost use Rattle.log4rs_parts.specs.Filters.{planned_answers, left_by};
ghost use Rattle.log4rs_parts.specs.NamedParts.{parts_in};

use crate::components::{Rolls, console, encoder_by, file, rolling, trigger_by};
use crate::handed::{Handed, NamedParts};
use crate::{BuildAppender, Parts, Refusal};
use log4rs_append::{Append, AppenderOf};
use log4rs_base::OutOfMemory;
use log4rs_base::filter::{Filter, FilterOf, ThresholdFilter};
use log4rs_config::runtime::appender::Filtered;
use log4rs_encode::{Encode, EncoderOf};
use log4rs_plans::Surroundings;
use log4rs_rolling::{StoreMaker, Trigger};
use log4rs_settings::{AppenderPlan, EncoderPlan, FilterPlan, PolicyPlan};
use std::alloc::Global;
use std::mem;

/// The appender behind the filters, built from settings over stores `S`, with appenders `A`,
/// encoders `E` and triggers `T` of the caller's.
pub type BehindOf<A, E, T, S> = AppenderOf<S, Rolls<T>, EncoderOf<E>, A>;

/// An appender built from settings, also with filters `F` of the caller's.
pub type BuiltOf<A, F, E, T, S> = Filtered<BehindOf<A, E, T, S>, FilterOf<F>>;

impl<
    A: Append + Drop,
    F: Filter + Drop,
    E: Encode + Drop,
    T: Trigger + Drop,
    M: StoreMaker,
> BuildAppender<M> for Handed<A, F, E, T>
where
    M::Made: Drop,
{
    type Appender = BehindOf<A, E, T, M::Made>;

    type Filter = FilterOf<F>;

    ghost Builds = { IsBuilt E.rendering ⟦<EncoderOf<E> as Encode>⟧.rendering M.Made.disk
        F.answer };

    fn build(
        &mut self,
        maker: &mut M,
        surroundings: &Surroundings<'_>,
        name: &str,
        filters: Vec<FilterPlan>,
        plan: AppenderPlan,
    ) -> Result<BuiltOf<A, F, E, T, M::Made>, Refusal> {
        let filters = build_filters(self.alloc, name, filters, &mut self.filters)?;
        let named = String::from_str(self.alloc, name)?;
        let appender = self.behind(maker, surroundings, name, plan)?;
        let builder = Filtered::builder(self.alloc).filters(filters)?;
        Ok(builder.build(named, appender))
    }
}

impl<A: Append + Drop, F: Filter + Drop, E: Encode + Drop, T: Trigger + Drop, M: StoreMaker> Parts<
    M,
> for Handed<A, F, E, T>
where
    M::Made: Drop,
{
    ghost BuildsFilters = { BuildsFilters F.answer };

    fn take(&mut self) -> Self {
        mem::replace(self, Handed::new(self.alloc))
    }

    fn build_filters(
        &mut self,
        name: &str,
        plans: Vec<FilterPlan>,
    ) -> Result<Vec<FilterOf<F>>, OutOfMemory> {
        build_filters(self.alloc, name, plans, &mut self.filters)
    }
}

impl<A: Append + Drop, F: Filter + Drop, E: Encode + Drop, T: Trigger + Drop> Handed<A, F, E, T> {
    /// Builds the appender behind the filters.
    fn behind<M: StoreMaker>(
        &mut self,
        maker: &mut M,
        surroundings: &Surroundings<'_>,
        name: &str,
        plan: AppenderPlan,
    ) -> Result<BehindOf<A, E, T, M::Made>, Refusal>
    where
        M::Made: Drop,
        ensures made { IfOk result (IsBehind E.rendering ⟦<EncoderOf<E> as Encode>⟧.rendering
            M.Made.disk (M.starts maker.old) surroundings.now name.now (appender_of plan)
            (waits_in self.old)) }
        ensures refused { IfErr result (CanRefuse name.now (appender_of plan)
            (waits_in self.old)) }
        ensures left { result ≢ Err Memory → waits_in self.new
            ≡ behind_left name.now (appender_of plan) (waits_in self.old) }
        ensures starts { M.starts maker.new ≡ M.starts maker.old }
    {
        match plan {
            AppenderPlan::Console {
                target,
                tty_only,
                encoder,
            } => {
                let encoder = encoder_by(self.alloc, name, encoder, &mut self.encoders)?;
                let encoder = encoder.ok_or(Refusal::Store)?;
                let prints = maker.prints();
                let console = console(self.alloc, prints, surroundings, target, tty_only, encoder)?;
                Ok(AppenderOf::Console(console))
            }
            AppenderPlan::File {
                path,
                append,
                encoder,
            } => {
                let encoder = encoder_by(self.alloc, name, encoder, &mut self.encoders)?;
                let encoder = encoder.ok_or(Refusal::Store)?;
                let file = file(self.alloc, maker, surroundings, &path, append, encoder)?;
                Ok(AppenderOf::File(file))
            }
            AppenderPlan::RollingFile {
                path,
                append,
                encoder,
                policy,
            } => {
                let encoder = encoder_by(self.alloc, name, encoder, &mut self.encoders)?;
                let trigger = trigger_by(name, policy.trigger, &mut self.triggers);
                let encoder = encoder.ok_or(Refusal::Store)?;
                let trigger = trigger.ok_or(Refusal::Store)?;
                let roller = policy.roller;
                let rolling = rolling(
                    self.alloc,
                    maker,
                    surroundings,
                    &path,
                    append,
                    encoder,
                    trigger,
                    roller,
                )?;
                Ok(AppenderOf::Rolling(rolling))
            }
            AppenderPlan::HandedIn => match self.appenders.take(name) {
                Some(appender) => Ok(AppenderOf::Custom(appender)),
                None => Err(Refusal::Store),
            },
        }
    }
}

/// Builds the filters of the appender of a name. Takes handed-in ones from the named parts.
pub fn build_filters<C: Filter + Drop>(
    alloc: Global,
    name: &str,
    plans: Vec<FilterPlan>,
    named_parts: &mut NamedParts<C>,
) -> Result<Vec<FilterOf<C>>, OutOfMemory>
    ensures answers { IfOk result (λ filters. map (answer_of C.answer) filters.items
        ≡ planned_answers C.answer name.now plans.items (parts_in named_parts.old)) }
    ensures left { OnOk result (parts_in named_parts.new
        ≡ left_by name.now plans.items (parts_in named_parts.old)) }
{
    let mut filters = Vec::new(alloc);
    for plan in plans {
        if let Some(filter) = build_filter(name, plan, named_parts) {
            filters.push(filter)?;
        }
    }
    Ok(filters)
}

/// Builds the filter of a plan. Returns `None` if it was to be handed in and none waits.
fn build_filter<C: Filter>(
    name: &str,
    plan: FilterPlan,
    named_parts: &mut NamedParts<C>,
) -> Option<FilterOf<C>>
    ensures answers { map (answer_of C.answer) (option_to_list result)
        ≡ planned_answers C.answer name.now (plan ∷ []) (parts_in named_parts.old) }
    ensures left { parts_in named_parts.new
        ≡ left_by name.now (plan ∷ []) (parts_in named_parts.old) }
{
    match plan {
        FilterPlan::Threshold(level) => Some(FilterOf::Threshold(ThresholdFilter::new(level))),
        FilterPlan::HandedIn => match named_parts.take(name) {
            Some(filter) => Some(FilterOf::Custom(filter)),
            None => None,
        },
    }
}
