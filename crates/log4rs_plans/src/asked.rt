//! What the settings of a configuration ask for.

ghost use Rattle.std.specs.Prelude.{◌≡◌, IfOk, map};
ghost use Rattle.std.specs.List.{list_all};
ghost use Rattle.std.specs.Result.{is_ok};
ghost use Rattle.log4rs_settings.specs.Component.{filter_view};
ghost use Rattle.log4rs_settings.specs.MakersView.{kinds};
ghost use Rattle.log4rs_settings.specs.Top.{entry_view, top_view};
ghost use Rattle.log4rs_plans.specs.Background.{any_in_background};
ghost use Rattle.log4rs_plans.specs.Effective.{planned_in, planned_of};
ghost use Rattle.log4rs_plans.specs.Plans.{all_filters_good, asked, appenders_asked as asks};
ghost use Rattle.log4rs_plans.specs.Plans.{filter_plans, plans_of};
ghost use Rattle.log4rs_plans.specs.View.{IsTold, asked_view, plans_view, told};

use crate::surroundings::{PlannedAppender, Surroundings, effective_plan};
use crate::written_files::rolls_in_background;
use log4rs_base::OutOfMemory;
use log4rs_settings::{
    AppenderPlan, FilterConfig, FilterPlan, Makers, NamedAppender, NamedLogger, PartError,
    PartFault, RootConfig, TopConfig, Waiting, appender_plan, filter_plan,
};
use std::alloc::Global;

/// Tells how many components were handed in for an appender and not taken yet.
pub trait Waits {
    ghost use Rattle.std.specs.Prelude.{ℕ, List};
    ghost use Rattle.log4rs_settings.specs.declared.plan.Waiting.{Waiting as WaitingData};

    /// How many wait for the appender of a name.
    ghost waiting_for: { Self → List ℕ → WaitingData };

    /// Returns how many wait for the appender of a name.
    fn waiting(&self, name: &str) -> Waiting
        ensures { result ≡ waiting_for self.now name.now };
}

/// What the settings of an appender ask for.
#[derive(Drop)]
pub struct Asked {
    /// The appender's name.
    pub name: String,
    /// The plan of each filter, in order, or its fault. The place of a fault is one in the settings
    /// of the filter.
    pub filters: Vec<Result<FilterPlan, PartFault>>,
    /// The plan of the appender, or its fault. The place of a fault is one in the settings of the
    /// appender.
    pub plan: Result<AppenderPlan, PartFault>,
}

/// What a configuration asks for. It is made once for each text that is read.
#[derive(Drop)]
pub struct Plans {
    /// The refresh rate in milliseconds, if given.
    pub rate: Option<u64>,
    /// The root.
    pub root: RootConfig,
    /// The appenders in the order of their names.
    pub appenders: Vec<Asked>,
    /// The loggers in the order of their names.
    pub loggers: Vec<NamedLogger>,
}

/// Returns a plan or its fault. Fails only if an allocation failed.
fn told<P: Drop>(read: Result<P, PartError>) -> Result<Result<P, PartFault>, OutOfMemory>
    ensures { IfOk result (IsTold read) }
{
    match read {
        Ok(plan) => Ok(Ok(plan)),
        Err(PartError::Fault(fault)) => Ok(Err(fault)),
        Err(PartError::Memory) => Err(OutOfMemory),
    }
}

/// Returns what filters ask for, while `waiting` handed-in ones are left for their appender.
fn filters_asked(
    alloc: Global,
    makers: &Makers,
    waiting: usize,
    filters: &[FilterConfig],
) -> Result<Vec<Result<FilterPlan, PartFault>>, OutOfMemory>
    ensures { IfOk result (λ plans. map (told (λ plan. plan)) plans.items
        ≡ filter_plans (kinds makers.now) waiting (map filter_view filters.now)) }
{
    let mut plans = Vec::new(alloc);
    let mut left = waiting;
    for filter in filters {
        let plan = told(filter_plan(alloc, makers, left, filter))?;
        if let Ok(FilterPlan::HandedIn) = &plan {
            left = left.saturating_sub(1);
        }
        plans.push(plan)?;
    }
    Ok(plans)
}

/// Returns what the settings of an appender ask for, while handed-in components wait for it.
fn asked_of<W: Waits>(
    alloc: Global,
    makers: &Makers,
    waits: &W,
    named: &NamedAppender,
) -> Result<Asked, OutOfMemory>
    ensures { IfOk result (λ made. asked_view made
        ≡ asked (kinds makers.now) (W.waiting_for waits.now) (entry_view named.now)) }
{
    let (name, settings) = (named.name.as_str(), &named.config);
    let waiting = waits.waiting(name);
    let filters = filters_asked(alloc, makers, waiting.filters, &settings.filters)?;
    let kind = settings.kind.as_str();
    let plan = told(appender_plan(alloc, makers, waiting, kind, &settings.config))?;
    Ok(Asked {
        name: String::from_str(alloc, name)?,
        filters,
        plan,
    })
}

/// Returns what the settings of appenders ask for, in order, while handed-in components wait for
/// them.
pub fn appenders_asked<W: Waits>(
    alloc: Global,
    makers: &Makers,
    waits: &W,
    appenders: &[NamedAppender],
) -> Result<Vec<Asked>, OutOfMemory>
    ensures { IfOk result (λ made. map asked_view made.items
        ≡ asks (kinds makers.now) (W.waiting_for waits.now) (map entry_view appenders.now)) }
{
    let mut made = Vec::new(alloc);
    for named in appenders {
        made.push(asked_of(alloc, makers, waits, named)?)?;
    }
    Ok(made)
}

/// Returns whether none of these filters has a fault.
fn are_good(filters: &[Result<FilterPlan, PartFault>]) -> bool
    ensures { result ≡ list_all is_ok (map (told (λ plan. plan)) filters.now) }
{
    filters.iter().all(|filter| filter.is_ok())
}

impl Plans {
    /// Returns what a configuration asks for, while handed-in components wait for its appenders.
    pub fn of<W: Waits>(
        alloc: Global,
        top: TopConfig,
        makers: &Makers,
        waits: &W,
    ) -> Result<Plans, OutOfMemory>
        ensures { IfOk result (λ plans. plans_view plans
            ≡ plans_of (kinds makers.now) (W.waiting_for waits.now) (top_view top)) }
    {
        let TopConfig {
            refresh_rate,
            root,
            appenders,
            loggers,
        } = top;
        Ok(Plans {
            rate: refresh_rate,
            root,
            appenders: appenders_asked(alloc, makers, waits, &appenders)?,
            loggers,
        })
    }

    /// Returns whether an appender is to roll its file in the background.
    pub fn rolls_in_background(&self) -> bool
        ensures { result ≡ any_in_background (plans_view self.now).appenders }
    {
        self.appenders.iter().any(|asked| match &asked.plan {
            Ok(plan) => rolls_in_background(plan),
            Err(_) => false,
        })
    }

    /// Returns whether no filter has a fault.
    pub fn filters_are_good(&self) -> bool
        ensures { result ≡ all_filters_good (plans_view self.now).appenders }
    {
        self.appenders.iter().all(|asked| are_good(&asked.filters))
    }

    /// Returns what each appender is to be whose settings have no fault, in order.
    pub fn planned(
        &self,
        surroundings: &Surroundings<'_>,
    ) -> Result<Vec<PlannedAppender>, OutOfMemory>
        ensures { IfOk result (λ made. map planned_of made.items
            ≡ planned_in surroundings.now (plans_view self.now).appenders) }
    {
        let alloc = *self.appenders.allocator();
        let mut planned = Vec::new(alloc);
        for asked in &self.appenders {
            if let Ok(plan) = &asked.plan {
                let plan = effective_plan(alloc, surroundings, plan.copy()?)?;
                let name = asked.name.clone()?;
                planned.push(PlannedAppender { name, plan })?;
            }
        }
        Ok(planned)
    }
}
