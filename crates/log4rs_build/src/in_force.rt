//! The appenders in force, a builder that keeps them, and those that leave.

ghost use Rattle.std.specs.Prelude.{◌≡◌, ◌↔◌, List, map, string_bytes, All, Contains, IfOk, IfSome};
ghost use Rattle.std.specs.Prelude.{IsSome, IsTrue, OnErr, ◌∷◌, []};
ghost use Rattle.log4rs_settings.specs.Plan.{appender_of};
ghost use Rattle.log4rs_build.specs.Keeping.{planned, IsKept, IsLockOf};
ghost use Rattle.log4rs_build.specs.Standing.{WasAsked};
ghost use Rattle.log4rs_build.specs.Retiring.{Asks, leaving_appender, Retires};
ghost use Rattle.log4rs_config.specs.Holder.{HolderEvent, Happened, OnlyReplies, resumes};
ghost use Rattle.log4rs_config.specs.Holder.{resumptions, retirements, retires};
ghost use Rattle.log4rs_append.specs.Locks.{AreShares};
ghost use Rattle.log4rs_plans.specs.Effective.{planned_of, effective};
ghost use Rattle.log4rs_config.specs.Appender.{name_of, appender_of as behind_of, filters_of};
ghost use Rattle.log4rs_build.specs.Kept.{BuildsLocked, KeepsOrBuilds};
ghost use Rattle.log4rs_build.specs.Leaving.{IsKeptAs, IsKeptUnder, IsConsoleAs, IsConsoleIn};
ghost use Rattle.log4rs_build.specs.Leaving.{IsLeftAlone, Leaves};

use log4rs_append::Locked;
use log4rs_base::print::print_fault;
use log4rs_base::{LogError, OutOfMemory};
use log4rs_config::runtime::appender::Filtered;
use log4rs_config::runtime::{SharedAppender, SharesAppenders};
use log4rs_parts::{BuildAppender, Parts, Refusal};
use log4rs_plans::{PlannedAppender, Surroundings, effective_plan, path_of, shares_files};
use log4rs_rolling::StoreMaker;
use log4rs_settings::{AppenderPlan, FilterPlan};
use std::alloc::Global;
use std::fmt::{self, Display, Formatter};

/// An appender in force.
#[derive(Drop)]
pub struct InForce<B> {
    /// The appender's name.
    pub name: String,
    /// Its plan, with the environment's values and the times put into its path.
    pub plan: AppenderPlan,
    /// The appender behind its lock, without its filters.
    pub lock: Locked<B>,
}

impl<B> InForce<B> {
    /// Returns whether the appender has a name and an effective plan.
    pub fn is_planned(&self, name: &str, plan: &AppenderPlan) -> bool
        ensures { IsTrue result ↔ (planned self.now ≡ (name.now, appender_of plan.now)) }
    {
        self.name.as_str() == name && self.plan.is_same(plan)
    }
}

/// Returns the appender in force that has a name and an effective plan, if there is one.
pub fn kept<'a, B>(
    in_force: &'a [InForce<B>],
    name: &str,
    plan: &AppenderPlan,
) -> Option<&'a InForce<B>>
    ensures kept { IsSome result
        ↔ IsKept (map planned in_force.now) (name.now, appender_of plan.now) }
    ensures one { IfSome result (λ found. Contains in_force.now found.now) }
    ensures same { IfSome result (λ found. planned found.now ≡ (name.now, appender_of plan.now)) }
{
    for appender in in_force {
        if appender.is_planned(name, plan) {
            return Some(appender);
        }
    }
    None
}

/// Returns the plan of a name, if there is one.
fn plan_of<'a>(planned: &'a [PlannedAppender], name: &str) -> Option<&'a AppenderPlan>
    ensures { IfSome result (λ plan.
        Contains (map planned_of planned.now) (name.now, appender_of plan.now)) }
{
    for appender in planned {
        if appender.name.as_str() == name {
            return Some(&appender.plan);
        }
    }
    None
}

/// Returns an appender with its plan, and a share of its lock.
fn share<B: Drop>(
    name: &String,
    plan: &AppenderPlan,
    lock: &Locked<B>,
) -> Result<InForce<B>, OutOfMemory>
    ensures planned { IfOk result (λ made.
        planned made ≡ (string_bytes name.now, appender_of plan.now)) }
    ensures lock { IfOk result (λ made. AreShares lock.now made.lock) }
{
    Ok(InForce {
        name: name.clone()?,
        plan: plan.copy()?,
        lock: lock.share()?,
    })
}

/// Returns those appenders of the present configuration that have a plan, with it.
pub fn in_force_of<B: Drop>(
    alloc: Global,
    asked: &[PlannedAppender],
    present: &[SharedAppender<B>],
) -> Result<Vec<InForce<B>>, OutOfMemory>
    ensures { IfOk result (λ made. All (WasAsked (map planned_of asked.now) present.now)
        made.items) }
{
    let mut in_force = Vec::new(alloc);
    for shared in present {
        if let Some(plan) = plan_of(asked, shared.name.as_str()) {
            in_force.push(share(&shared.name, plan, &shared.lock)?)?;
        }
    }
    Ok(in_force)
}

/// Returns those of the appenders that are in force still, in order: those that are not retired.
pub fn still_in_force<B: Drop, H: SharesAppenders<B>>(
    alloc: Global,
    in_force: &[InForce<B>],
    holder: &mut H,
) -> Result<Vec<InForce<B>>, OutOfMemory>
    ensures ok { IfOk result (λ still. (asked : List (HolderEvent B))
        × Asks in_force.now still.items asked
        × Happened (H.history holder.old) (H.history holder.new) asked) }
    ensures err { OnErr result (OnlyReplies (H.history holder.old) (H.history holder.new)) }
{
    let mut still = Vec::new(alloc);
    for appender in in_force {
        if !holder.is_retired(&appender.lock) {
            let one = share(&appender.name, &appender.plan, &appender.lock)?;
            still.push(one)?;
        }
    }
    Ok(still)
}

/// Builds appenders by their plans, but shares the lock of an appender in force that has the same
/// name and effective plan.
#[derive(Drop)]
pub struct Keeping<P, B> {
    /// The components of the caller's for appenders that are built.
    pub parts: P,
    /// The appenders in force.
    pub in_force: Vec<InForce<B>>,
}

/// Returns a share of the lock of the appender in force that has a name and the effective plan of
/// a plan, if there is one.
fn kept_lock<B: Drop>(
    alloc: Global,
    in_force: &[InForce<B>],
    surroundings: &Surroundings<'_>,
    name: &str,
    plan: &AppenderPlan,
) -> Result<Option<Locked<B>>, OutOfMemory>
    ensures kept { IfOk result (λ lock. IsSome lock ↔ IsKept (map planned in_force.now)
        (name.now, effective surroundings.now (appender_of plan.now))) }
    ensures lock { IfOk result (λ lock. IfSome lock (IsLockOf in_force.now
        (name.now, effective surroundings.now (appender_of plan.now)))) }
{
    let effective = effective_plan(alloc, surroundings, plan.copy()?)?;
    match kept(in_force, name, &effective) {
        Some(one) => Ok(Some(one.lock.share()?)),
        None => Ok(None),
    }
}

/// Returns an appender behind a lock that is in force, with new filters.
fn filtered<P: Parts<M>, M: StoreMaker>(
    alloc: Global,
    parts: &mut P,
    name: &str,
    filters: Vec<FilterPlan>,
    lock: Locked<P::Appender>,
) -> Result<Filtered<Locked<P::Appender>, P::Filter>, OutOfMemory>
    ensures named { IfOk result (λ made. name_of made ≡ name.now) }
    ensures filters { IfOk result (λ made. P.BuildsFilters name.now filters.items (filters_of made)
        parts.old parts.new) }
    ensures lock { IfOk result (λ made. behind_of made ≡ lock) }
{
    let filters = parts.build_filters(name, filters)?;
    let named = String::from_str(alloc, name)?;
    let builder = Filtered::builder(alloc).filters(filters)?;
    Ok(builder.build(named, lock))
}

/// Builds an appender and puts a new lock around it.
fn build_locked<P: Parts<M>, M: StoreMaker>(
    alloc: Global,
    parts: &mut P,
    maker: &mut M,
    surroundings: &Surroundings<'_>,
    name: &str,
    filters: Vec<FilterPlan>,
    plan: AppenderPlan,
) -> Result<Filtered<Locked<P::Appender>, P::Filter>, Refusal>
    ensures built { BuildsLocked (P.Builds (M.starts maker.old) surroundings.now) P.BuildsFilters
        surroundings.now name.now filters.items (appender_of plan) result parts.old parts.new }
    ensures starts { M.starts maker.new ≡ M.starts maker.old }
{
    let built = parts.build(maker, surroundings, name, filters, plan)?;
    Ok(built.locked(alloc)?)
}

impl<P: Parts<M>, M: StoreMaker> BuildAppender<M> for Keeping<P, P::Appender> {
    type Appender = Locked<P::Appender>;

    type Filter = P::Filter;

    ghost Builds = { λ starts around. KeepsOrBuilds (P.Builds starts around) P.BuildsFilters
        around };

    fn build(
        &mut self,
        maker: &mut M,
        surroundings: &Surroundings<'_>,
        name: &str,
        filters: Vec<FilterPlan>,
        plan: AppenderPlan,
    ) -> Result<Filtered<Locked<P::Appender>, P::Filter>, Refusal> {
        let alloc = *self.in_force.allocator();
        let in_force = self.in_force.as_slice();
        match kept_lock(alloc, in_force, surroundings, name, &plan) {
            Ok(Some(lock)) => Ok(filtered::<P, M>(alloc, &mut self.parts, name, filters, lock)?),
            Ok(None) => {
                let parts = &mut self.parts;
                build_locked(alloc, parts, maker, surroundings, name, filters, plan)
            }
            Err(OutOfMemory) => Err(Refusal::Memory),
        }
    }
}

/// Returns whether an appender has this name and is kept.
fn is_kept_as<B>(appender: &PlannedAppender, name: &str, in_force: &[InForce<B>]) -> bool
    ensures { IsTrue result
        ↔ IsKeptAs (map planned in_force.now) name.now (planned_of appender.now) }
{
    let own = appender.name.as_str();
    own == name && kept(in_force, own, &appender.plan).is_some()
}

/// Returns whether one of these has this name and is kept.
pub(crate) fn is_kept_under<B>(
    name: &str,
    asked: &[PlannedAppender],
    in_force: &[InForce<B>],
) -> bool
    ensures { IsTrue result
        ↔ IsKeptUnder (map planned_of asked.now) (map planned in_force.now) name.now }
{
    for appender in asked {
        if is_kept_as(appender, name, in_force) {
            return true;
        }
    }
    false
}

/// Returns whether an appender in force has this name and is a console.
fn is_console_as<B>(appender: &InForce<B>, name: &str) -> bool
    ensures { IsTrue result ↔ IsConsoleAs name.now (planned appender.now) }
{
    match appender.plan {
        AppenderPlan::Console { .. } => appender.name.as_str() == name,
        _ => false,
    }
}

/// Returns whether one of the appenders in force has this name and is a console.
fn is_console<B>(name: &str, in_force: &[InForce<B>]) -> bool
    ensures { IsTrue result ↔ IsConsoleIn (map planned in_force.now) name.now }
{
    for appender in in_force {
        if is_console_as(appender, name) {
            return true;
        }
    }
    false
}

/// Returns whether a reading leaves the appender of a name alone: it is kept, or a console. A
/// console has no file to hand over, and one whose reader does not read would never be retired.
fn is_left_alone<B>(name: &str, asked: &[PlannedAppender], in_force: &[InForce<B>]) -> bool
    ensures { IsTrue result
        ↔ IsLeftAlone (map planned_of asked.now) (map planned in_force.now) name.now }
{
    is_kept_under(name, asked, in_force) || is_console(name, in_force)
}

/// Returns the present appenders that are neither kept where these are asked for nor consoles, in
/// order.
pub fn leaving_of<B: Drop>(
    present: Vec<SharedAppender<B>>,
    asked: &[PlannedAppender],
    in_force: &[InForce<B>],
) -> Vec<SharedAppender<B>>
    ensures { (one : _) → Contains result.items one
        ↔ Leaves (map planned_of asked.now) (map planned in_force.now) present.items one }
{
    let mut leaving = present;
    leaving.retain(|shared| !is_left_alone(shared.name.as_str(), asked, in_force));
    leaving
}

/// An appender that leaves.
#[derive(Drop)]
pub struct Leaver<B> {
    appender: SharedAppender<B>,
    /// Its plan, if known.
    plan: Option<AppenderPlan>,
    /// The error of finishing its work, if that failed.
    refusal: Option<LogError>,
}

/// The error of an appender's unfinished work.
#[derive(Drop)]
struct Undone<'a> {
    name: &'a str,
    /// The path of its file, if known.
    path: Option<&'a str>,
    fault: &'a LogError,
}

impl Display for Undone<'_> {
    fn fmt<W: fmt::Write>(&self, f: &mut Formatter<W>) -> fmt::Result {
        write!(f, "appender {}, which left", self.name)?;
        if let Some(path) = self.path {
            write!(f, ", with work undone at {path}")?;
        }
        write!(f, ": {}", self.fault)
    }
}

impl<B> Leaver<B> {
    /// Retires the appender, and notes whether that failed.
    fn retire<H: SharesAppenders<B>, M: StoreMaker>(&mut self, holder: &mut H, maker: &M)
        ensures stays { leaving_appender self.new ≡ leaving_appender self.old }
        ensures happened { Happened (H.history holder.old) (H.history holder.new)
            (retires (leaving_appender self.old).lock (M.stores maker.now) ∷ []) }
    {
        self.refusal = holder.retire(&self.appender.lock, maker).err();
    }

    /// Resumes the appender, and reports a fault of that.
    fn resume<H: SharesAppenders<B>, X: Eprint>(&self, rt: &X, holder: &mut H)
        ensures { Happened (H.history holder.old) (H.history holder.new)
            (resumes (leaving_appender self.now).lock ∷ []) }
    {
        if let Err(fault) = holder.resume(&self.appender.lock) {
            self.tell(rt, &fault);
        }
    }

    /// Reports a fault of the appender.
    fn tell<X: Eprint>(&self, rt: &X, fault: &LogError) {
        let name = self.appender.name.as_str();
        let path = match &self.plan {
            Some(plan) => path_of(plan),
            None => None,
        };
        print_fault(rt, &Undone { name, path, fault });
    }

    /// Reports why its work is unfinished. Returns whether it is.
    pub(crate) fn is_unfinished<X: Eprint>(&self, rt: &X) -> bool {
        if let Some(fault) = &self.refusal {
            self.tell(rt, fault);
        }
        self.refusal.is_some()
    }

    /// Returns whether one of the appenders in force may have a file in common with it.
    pub(crate) fn is_taken_over(&self, around: &Surroundings<'_>, in_force: &[InForce<B>]) -> bool {
        match &self.plan {
            Some(plan) => {
                let alloc = *self.appender.name.allocator();
                has_files_of(alloc, plan, around, in_force).unwrap_or(true)
            }
            None => true,
        }
    }
}

/// Returns whether an appender in force has a file or the name of an archive in common with one of
/// this effective plan.
fn has_files_of<B>(
    alloc: Global,
    plan: &AppenderPlan,
    around: &Surroundings<'_>,
    in_force: &[InForce<B>],
) -> Result<bool, OutOfMemory> {
    let mut plans = Vec::new(alloc);
    plans.push(plan)?;
    for appender in in_force {
        plans.push(&appender.plan)?;
    }
    shares_files(alloc, &plans, &around.env)
}

/// Returns a copy of the plan of the appender in force that has a name, if there is one.
fn plan_in<B>(in_force: &[InForce<B>], name: &str) -> Result<Option<AppenderPlan>, OutOfMemory> {
    for appender in in_force {
        if appender.name.as_str() == name {
            return Ok(Some(appender.plan.copy()?));
        }
    }
    Ok(None)
}

/// Returns these appenders as ones that leave, with the plans of those in force.
fn leavers_of<B: Drop>(
    alloc: Global,
    appenders: Vec<SharedAppender<B>>,
    in_force: &[InForce<B>],
) -> Result<Vec<Leaver<B>>, OutOfMemory>
    ensures { IfOk result (λ made. map leaving_appender made.items ≡ appenders.items) }
{
    let mut leavers = Vec::new(alloc);
    for appender in appenders {
        let plan = plan_in(in_force, appender.name.as_str())?;
        let refusal = None;
        leavers.push(Leaver {
            appender,
            plan,
            refusal,
        })?;
    }
    Ok(leavers)
}

/// Retires these appenders, in order.
fn retire_all<B, H: SharesAppenders<B>, M: StoreMaker>(
    leavers: &mut Vec<Leaver<B>>,
    holder: &mut H,
    maker: &M,
)
    ensures stay { map leaving_appender leavers.new.items ≡ map leaving_appender leavers.old.items }
    ensures happened { Happened (H.history holder.old) (H.history holder.new)
        (retirements (M.stores maker.now) (map leaving_appender leavers.old.items)) }
{
    for at in 0..leavers.len() {
        leavers[at].retire(holder, maker);
    }
}

/// Resumes these appenders, in order, and reports each fault.
pub(crate) fn resume_all<B, H: SharesAppenders<B>, X: Eprint>(
    rt: &X,
    leavers: &[Leaver<B>],
    holder: &mut H,
)
    ensures { Happened (H.history holder.old) (H.history holder.new)
        (resumptions (map leaving_appender leavers.now)) }
{
    for leaver in leavers {
        leaver.resume(rt, holder);
    }
}

/// The appenders in force that are still so, and those that leave, each of which is retired.
#[derive(Drop)]
pub(crate) struct Retired<B> {
    pub(crate) still: Vec<InForce<B>>,
    pub(crate) leaving: Vec<Leaver<B>>,
}

/// Retires the appenders in force that are not kept where these are asked for. If an allocation
/// fails, retires none.
pub(crate) fn retire<B: Drop, H: SharesAppenders<B>, M: StoreMaker>(
    alloc: Global,
    asked: &[PlannedAppender],
    in_force: &[InForce<B>],
    holder: &mut H,
    maker: &M,
) -> Result<Retired<B>, OutOfMemory>
    ensures ok { IfOk result (λ made. Retires (map planned_of asked.now) in_force.now
        (M.stores maker.now) (H.history holder.old) (H.history holder.new) made.still.items
        (map leaving_appender made.leaving.items)) }
    ensures err { OnErr result (OnlyReplies (H.history holder.old) (H.history holder.new)) }
{
    let still = still_in_force(alloc, in_force, holder)?;
    let leaving = leaving_of(holder.shared_appenders()?, asked, &still);
    let mut leaving = leavers_of(alloc, leaving, &still)?;
    retire_all(&mut leaving, holder, maker);
    Ok(Retired { still, leaving })
}

/// Tries the unfinished work of appenders that left again, and keeps those whose work is unfinished
/// still.
pub(crate) fn retry_all<B: Drop, H: SharesAppenders<B>, M: StoreMaker>(
    left: &mut Vec<Leaver<B>>,
    holder: &mut H,
    maker: &M,
)
    ensures { Happened (H.history holder.old) (H.history holder.new)
        (retirements (M.stores maker.now) (map leaving_appender left.old.items)) }
{
    retire_all(left, holder, maker);
    left.retain(|leaver| leaver.refusal.is_some());
}

/// Tries the unfinished work of appenders that left for the last time, and reports each fault.
pub(crate) fn end_all<B, H: SharesAppenders<B>, M: StoreMaker, X: Eprint>(
    rt: &X,
    left: &[Leaver<B>],
    holder: &mut H,
    maker: &M,
) {
    for leaver in left {
        if let Err(fault) = holder.retire(&leaver.appender.lock, maker) {
            leaver.tell(rt, &fault);
        }
    }
}
