//! Building of appenders.
ghost use Rattle.std.specs.Prelude.{◌≡◌, ℕ, List, Option, Result, IfOk, OnOk, OnErr};
ghost use Rattle.log4rs_rolling.specs.Change.{Files as FilesData};
ghost use Rattle.log4rs_config.specs.declared.runtime.appender.Filtered.{Filtered as FilteredData};
ghost use Rattle.log4rs_settings.specs.Plan.{AppenderPlan as PlanData, appender_of};
ghost use Rattle.log4rs_settings.specs.declared.plan.FilterPlan.{FilterPlan as FilterData};
ghost use Rattle.log4rs_plans.specs.declared.surroundings.Surroundings.{Surroundings as SurroundingsData};
ghost use Rattle.log4rs_parts.specs.Refusals.{refused_by, refused_for};
ghost use Rattle.log4rs_parts.specs.declared.build_appender.Refusal.TheVariants.{Memory};
ghost use Rattle.log4rs_parts.specs.declared.build_appender.Refusal.{Refusal as RefusalData};

use log4rs_append::Append;
use log4rs_base::filter::Filter;
use log4rs_base::{LogError, OutOfMemory};
use log4rs_config::runtime::appender::Filtered;
use log4rs_plans::{Surroundings, Waits};
use log4rs_rolling::{RollerError, StoreMaker};
use log4rs_settings::{AppenderPlan, FilterPlan};
use std::alloc::AllocError;

/// Errors of building an appender.
#[derive(Clone, Copy, Debug, PartialEq, Eq)]
pub enum Refusal {
    /// No roller can have this pattern or window. Never `RollerError::Memory`.
    Roller(RollerError),
    /// The store failed to open the file.
    Store,
    /// An allocation failed.
    Memory,
}

impl From<OutOfMemory> for Refusal {
    ghost from_gives = { λ _ r. r ≡ Memory };

    fn from(_: OutOfMemory) -> Self {
        Refusal::Memory
    }
}

impl From<AllocError> for Refusal {
    ghost from_gives = { λ _ r. r ≡ Memory };

    fn from(_: AllocError) -> Self {
        Refusal::Memory
    }
}

impl From<LogError> for Refusal {
    ghost from_gives = { λ error r. r ≡ refused_by error };

    fn from(error: LogError) -> Self {
        match error {
            LogError::Memory => Refusal::Memory,
            _ => Refusal::Store,
        }
    }
}

impl From<RollerError> for Refusal {
    ghost from_gives = { λ error r. r ≡ refused_for error };

    fn from(error: RollerError) -> Self {
        match error {
            RollerError::Memory => Refusal::Memory,
            error => Refusal::Roller(error),
        }
    }
}

/// Builds appenders by their plans, over stores that an `M` makes.
pub trait BuildAppender<M: StoreMaker> {
    /// The appenders, without their filters.
    type Appender: Append + Drop;

    /// The filters.
    type Filter: Filter + Drop;

    /// The result for an appender of this name, with these filters, by this plan: the appender or
    /// the error, over stores that begin with these files, in these surroundings.
    ghost Builds: { Option FilesData → SurroundingsData → List ℕ → List FilterData → PlanData
        → Result (FilteredData Self.Appender Self.Filter) RefusalData → Self → Self → Type 0 };

    /// Builds the appender of a name. Fails with what its roller, its store or an allocation
    /// refused.
    fn build(
        &mut self,
        maker: &mut M,
        surroundings: &Surroundings<'_>,
        name: &str,
        filters: Vec<FilterPlan>,
        plan: AppenderPlan,
    ) -> Result<Filtered<Self::Appender, Self::Filter>, Refusal>
        ensures built { Builds (M.starts maker.old) surroundings.now name.now filters.items
            (appender_of plan) result self.old self.new }
        ensures starts { M.starts maker.new ≡ M.starts maker.old };
}

/// Components of the caller's that appenders are built of, over stores that an `M` makes.
pub trait Parts<M: StoreMaker>: BuildAppender<M> + Waits {
    /// The filters of an appender of this name by these plans, and the components before and after.
    ghost BuildsFilters: { List ℕ → List FilterData → List Self.Filter → Self → Self → Type 0 };

    /// Takes all components out.
    fn take(&mut self) -> Self
        ensures { result ≡ self.old };

    /// Builds the filters of the appender of a name, and no appender.
    fn build_filters(
        &mut self,
        name: &str,
        plans: Vec<FilterPlan>,
    ) -> Result<Vec<Self::Filter>, OutOfMemory>
        ensures { IfOk result (λ made. BuildsFilters name.now plans.items made.items self.old
            self.new) };
}
