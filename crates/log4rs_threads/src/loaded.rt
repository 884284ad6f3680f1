//! A loaded configuration, and the locks of its appenders.

ghost use Rattle.std.specs.Prelude.{◌≡◌, ◌≤◌, List, [], ◌++◌, length, slice_get, MatchResult};
ghost use Rattle.std.specs.Prelude.{OnOk, IfOk, IsOk, map, true, false};
ghost use Rattle.std.specs.Option.{unwrap_or};
ghost use Rattle.log.specs.Level.{allows};
ghost use Rattle.log4rs_config.specs.Name.{path_of};
ghost use Rattle.log4rs_config.specs.Routing.{deliveries, level_at};
ghost use Rattle.log4rs_threads.specs.Fill.{lets_in};
ghost use Rattle.log4rs_threads.specs.Steps.{AreDeliveries, Delivers, DeliversNoting, DeliversTelling};

use crate::answers::Answers;
pub use crate::current::CurrentOf;
use crate::doors::{Doors, deliver_by};
use crate::fill::{Draft, FewErrors, Fill, forget};
use crate::ghost_notes::{GhostNotes, Told};
use crate::present::Seated;
use crate::report::{AppenderReports, Failed, Handler, ReportFault};
use crate::tell::{TellFault, tell_noted};
use log::Level;
use log4rs_append::{AnyAppender, Append, Locked, Steps};
use log4rs_base::filter::{AnyFilter, Filter};
use log4rs_base::{Context, Entry, LogError, OutOfMemory, Record};
use log4rs_config::runtime::Configured;
use log4rs_config::runtime::appender::Filtered;
use log4rs_config::{AppendError, CoreError, NoteDeliveries};
use smallvec::SmallVec;
use std::alloc::Global;
use std::sync::{Arc, Wait};

/// One whole configuration, which no swap changes, with handler `H` and
/// runtime `W`.
#[derive(Drop)]
pub struct LoadedOf<A, F, H, W> {
    pub(crate) rt: W,
    pub(crate) alloc: Global,
    pub(crate) current: Seated<A, F, H>,
}

/// One whole configuration over stores `S`.
pub type Loaded<S, W> = LoadedOf<AnyAppender<S>, AnyFilter, Handler, W>;

impl<A: Append, F: Filter, H, W> Configured for LoadedOf<A, F, H, W> {
    ghost use Rattle.std.specs.Prelude.{[]};
    ghost use Rattle.std.specs.Arc.{arc_value};

    ghost settings = { λ l. ⟦<CurrentOf<A, F, H> as Configured>⟧.settings
        (arc_value (arc_value l.current)) };

    ghost admits = { λ l r. ⟦<CurrentOf<A, F, H> as Configured>⟧.admits
        (arc_value (arc_value l.current)) r };

    ghost sinks = { λ _. [] };
}

impl<A: Append, F: Filter, H, W> LoadedOf<A, F, H, W> {
    /// Returns the number of appenders.
    pub fn size(&self) -> usize
        ensures { result ≡ length (⟦<Self as Configured>⟧.settings self.now).appenders }
    {
        self.current.size()
    }

    /// Returns the name of the appender at an index, or the empty text if there is none.
    pub fn appender_name(&self, at: usize) -> &str
        ensures { result.now
            ≡ unwrap_or (slice_get (⟦<Self as Configured>⟧.settings self.now).appenders at) [] }
    {
        self.current.appender_name(at)
    }

    /// Returns whether a record of this level and target passes the level of the logger that
    /// governs it.
    pub fn enabled(&self, level: Level, target: &str) -> bool
        ensures { result ≡ allows (level_at (⟦<Self as Configured>⟧.settings self.now)
            (path_of target.now)) level }
    {
        self.current.lists().enabled(level, target)
    }

    /// Makes one step for each delivery of the record, in order, also after a failure, and notes
    /// each result. Reserves room for the notes first; if that fails, makes no step.
    pub fn log_noting<D: Doors, N: NoteDeliveries>(
        &self,
        doors: &mut D,
        notes: &mut N,
        logged: &Record,
        context: &Context<'_>,
    ) -> Result<(), OutOfMemory>
        requires { D.size doors.old ≡ length (⟦<Self as Configured>⟧.settings self.now).appenders }
        ensures size { D.size doors.new ≡ D.size doors.old }
        ensures tells { D.tells doors.old → D.tells doors.new }
        ensures delivered { let seen = ⟦<Self as Configured>⟧ in DeliversNoting
            (deliveries (seen.settings self.now) (seen.admits self.now) logged.now) logged.now
            context.now (D.tells doors.old) (D.steps doors.old) (D.steps doors.new)
            (N.noted notes.old) (N.noted notes.new) result }
    {
        let (limit, places) = self.current.lists().route(&logged.target);
        let appenders = self.current.appenders();
        deliver_by(appenders, limit, places, doors, notes, logged, context)
    }

    /// Makes the entry of a record if its level passes the level of the logger that governs its
    /// target, and then delivers it by the same route, as `log_noting` does. The entry is made in the
    /// place of another one, which stays if the level does not pass.
    pub fn log_filled<D: Doors, N: NoteDeliveries, E: Fill>(
        &self,
        doors: &mut D,
        notes: &mut N,
        entry: &mut Entry<'_>,
        event: &E,
    ) -> Result<(), OutOfMemory>
        requires { D.size doors.old ≡ length (⟦<Self as Configured>⟧.settings self.now).appenders }
        ensures size { D.size doors.new ≡ D.size doors.old }
        ensures tells { D.tells doors.old → D.tells doors.new }
        ensures kept_out { let seen = ⟦<Self as Configured>⟧ in
            lets_in (seen.settings self.now) (E.target event.now) (E.level event.now) ≡ false
            → IsOk result × (entry.new ≡ entry.old) × (doors.new ≡ doors.old)
            × (notes.new ≡ notes.old) }
        ensures filled { let seen = ⟦<Self as Configured>⟧ in
            lets_in (seen.settings self.now) (E.target event.now) (E.level event.now) ≡ true
            → OnOk result (E.fills event.now entry.old entry.new) }
        ensures delivered { let seen = ⟦<Self as Configured>⟧ in
            lets_in (seen.settings self.now) (E.target event.now) (E.level event.now) ≡ true
            → DeliversNoting
            (deliveries (seen.settings self.now) (seen.admits self.now) entry.new.logged)
            entry.new.logged entry.new.context (D.tells doors.old) (D.steps doors.old)
            (D.steps doors.new) (N.noted notes.old) (N.noted notes.new) result }
    {
        let (limit, places) = self.current.lists().route(event.target());
        if !limit.allows(event.level()) {
            return Ok(());
        }
        event.fill(entry)?;
        let appenders = self.current.appenders();
        let Entry { logged, context } = &*entry;
        deliver_by(appenders, limit, places, doors, notes, logged, context)
    }

    /// Makes one step for each delivery of the record, in order, also after a failure, and then tells
    /// each fault, in order. If the allocation for them fails, makes no step, tells that, and fails.
    pub fn log_telling<D: Doors, T: TellFault>(
        &self,
        doors: &mut D,
        teller: &mut T,
        logged: &Record,
        context: &Context<'_>,
    ) -> Result<(), OutOfMemory>
        requires { D.size doors.old ≡ length (⟦<Self as Configured>⟧.settings self.now).appenders }
        ensures size { D.size doors.new ≡ D.size doors.old }
        ensures tells { D.tells doors.old → D.tells doors.new }
        ensures delivered { let seen = ⟦<Self as Configured>⟧ in DeliversTelling
            (deliveries (seen.settings self.now) (seen.admits self.now) logged.now) logged.now
            context.now (D.tells doors.old) (D.steps doors.old) (D.steps doors.new)
            (T.told teller.old) (T.told teller.new) result }
    {
        let mut errors: FewErrors = SmallVec::new(self.alloc);
        let noted = self.log_noting(doors, &mut errors, logged, context);
        tell_noted(teller, noted, errors.as_slice())
    }

    /// Makes the entry of a record in the place of the draft's and delivers it, as `log_filled` does,
    /// and tells each fault, as `log_telling` does.
    pub fn log_filling<D: Doors, T: TellFault, E: Fill>(
        &self,
        doors: &mut D,
        teller: &mut T,
        draft: &mut Draft<'_>,
        event: &E,
    ) -> Result<(), OutOfMemory>
        requires { D.size doors.old ≡ length (⟦<Self as Configured>⟧.settings self.now).appenders }
        ensures size { D.size doors.new ≡ D.size doors.old }
        ensures tells { D.tells doors.old → D.tells doors.new }
        ensures kept_out { let seen = ⟦<Self as Configured>⟧ in
            lets_in (seen.settings self.now) (E.target event.now) (E.level event.now) ≡ false
            → IsOk result × (draft.new.entry ≡ draft.old.entry) × (doors.new ≡ doors.old)
            × ((faults : _) → T.told teller.old faults → T.told teller.new faults) }
        ensures filled { let seen = ⟦<Self as Configured>⟧ in
            lets_in (seen.settings self.now) (E.target event.now) (E.level event.now) ≡ true
            → OnOk result (E.fills event.now draft.old.entry draft.new.entry) }
        ensures delivered { let seen = ⟦<Self as Configured>⟧ in
            lets_in (seen.settings self.now) (E.target event.now) (E.level event.now) ≡ true
            → DeliversTelling
            (deliveries (seen.settings self.now) (seen.admits self.now) draft.new.entry.logged)
            draft.new.entry.logged draft.new.entry.context (D.tells doors.old) (D.steps doors.old)
            (D.steps doors.new) (T.told teller.old) (T.told teller.new) result }
    {
        forget(&mut draft.errors);
        let (errors, entry) = (&mut draft.errors, &mut draft.entry);
        let noted = self.log_filled(doors, errors, entry, event);
        tell_noted(teller, noted, draft.errors.as_slice())
    }

    /// Makes one step for each delivery of the record, in order, also after a failure, and returns
    /// the index of the appender and the result of each. Fails if an allocation fails; then no step
    /// was made.
    pub fn log_reporting<D: Doors>(
        &self,
        doors: &mut D,
        logged: &Record,
        context: &Context<'_>,
    ) -> Result<Vec<(usize, Result<(), LogError>)>, OutOfMemory>
        requires { D.size doors.old ≡ length (⟦<Self as Configured>⟧.settings self.now).appenders }
        ensures size { D.size doors.new ≡ D.size doors.old }
        ensures tells { D.tells doors.old → D.tells doors.new }
        ensures delivered { let seen = ⟦<Self as Configured>⟧ in MatchResult result
            (λ report. AreDeliveries
            (deliveries (seen.settings self.now) (seen.admits self.now) logged.now) logged.now
            context.now (D.tells doors.old) (D.steps doors.old) (D.steps doors.new) report.items)
            (λ _. D.tells doors.old → D.steps doors.new ≡ D.steps doors.old) }
    {
        let mut answers = Answers::new(self.alloc);
        self.log_noting(doors, &mut answers, logged, context)?;
        Ok(answers.deliveries)
    }

    /// Makes one step for each delivery of the record, in order, also after a failure. Fails with
    /// `Appenders` and the faults in order, or with `Memory` if the allocation for them failed and
    /// no step was made.
    pub fn log_on<D: Doors>(
        &self,
        doors: &mut D,
        logged: &Record,
        context: &Context<'_>,
    ) -> Result<(), CoreError>
        requires { D.size doors.old ≡ length (⟦<Self as Configured>⟧.settings self.now).appenders }
        ensures size { D.size doors.new ≡ D.size doors.old }
        ensures tells { D.tells doors.old → D.tells doors.new }
        ensures steps { let seen = ⟦<Self as Configured>⟧ in Delivers
            (deliveries (seen.settings self.now) (seen.admits self.now) logged.now) logged.now
            context.now (D.tells doors.old) (D.steps doors.old) (D.steps doors.new) result }
    {
        let mut errors: Vec<AppendError> = Vec::new(self.alloc);
        if let Err(_) = self.log_noting(doors, &mut errors, logged, context) {
            return Err(CoreError::Memory);
        }
        if errors.is_empty() {
            return Ok(());
        }
        Err(CoreError::Appenders(errors))
    }
}

impl<A: Append, F: Filter, H: ReportFault, W: Wait + Eprint> LoadedOf<A, F, H, W> {
    /// Hands a fault to the handler; if there is none, prints `log4rs: ` and its text to standard
    /// error.
    pub fn report(&self, fault: &LogError) {
        self.current.held.reporter.report(&self.rt, fault);
    }

    /// Reports a fault of the appender at an index.
    fn report_failed(&self, at: usize, failed: Failed, fault: &LogError) {
        let reporter = &self.current.held.reporter;
        reporter.report_failed(&self.rt, at, self.appender_name(at), failed, fault);
    }

    /// Hands the fault of each failed append to the handler, in order. If there is none, prints
    /// each to standard error as `log4rs: appender `, the appender's name and the fault, once until
    /// an append of that appender through `locks` fails otherwise or works.
    pub fn report_appends(&self, errors: &[AppendError]) {
        let mut teller = self.teller();
        for error in errors {
            teller.tell_append(error);
        }
    }

    /// Prints of each appender whose appends work again how many failed before, once. Prints nothing
    /// if a handler gets each fault.
    pub fn report_recoveries(&self) {
        for (at, told) in self.current.held.reporter.told().iter().enumerate() {
            told.print_recovery(&self.rt, self.appender_name(at));
        }
    }

    /// Prints of each appender how many of its appends failed, if some did. Prints nothing if a
    /// handler gets each fault.
    pub fn report_losses(&self) {
        for (at, told) in self.current.held.reporter.told().iter().enumerate() {
            told.print_losses(&self.rt, self.appender_name(at));
        }
    }

    /// Returns who tells the handler; it was told nothing yet.
    fn teller<'a>(&'a self) -> Telling<'a, A, F, H, W>
        ensures { result.told.faults ≡ [] }
    {
        Telling {
            loaded: self,
            told: GhostNotes::none(),
        }
    }

    /// Delivers a record under the appenders' locks, then reports each fault, in order, as
    /// `report_appends` does, and which appenders work again. If an allocation fails, reports one
    /// `Memory` and appends nothing.
    pub fn log(&self, logged: &Record, context: &Context<'_>) {
        let mut locks = self.locks();
        let _ = self.log_telling(&mut locks, &mut self.teller(), logged, context);
        self.report_recoveries_of(&locks);
    }

    /// Makes the entry of a record in the place of the draft's if its level passes the level of the
    /// logger that governs its target, and then does the same.
    pub fn log_event<E: Fill>(&self, draft: &mut Draft<'_>, event: &E) {
        let mut locks = self.locks();
        let _ = self.log_filling(&mut locks, &mut self.teller(), draft, event);
        self.report_recoveries_of(&locks);
    }

    /// Reports which appenders work again, if one did in a step of these locks.
    fn report_recoveries_of(&self, locks: &LocksOf<'_, A, F, W>) {
        if locks.has_recovered {
            self.report_recoveries();
        }
    }
}

/// Tells a configuration's faults to its handler; if there is none, prints them.
#[derive(Drop)]
struct Telling<'a, A, F, H, W> {
    loaded: &'a LoadedOf<A, F, H, W>,
    told: GhostNotes,
}

impl<A: Append, F: Filter, H: ReportFault, W: Wait + Eprint> TellFault for Telling<'_, A, F, H, W> {
    ghost told = { λ teller faults. teller.told.faults ≡ faults };

    fn tell_append(&mut self, error: &AppendError) {
        self.told = self.told.with_fault(&Told { fault: Some(error) });
        self.loaded
            .report_failed(error.appender, Failed::Append, &error.fault);
    }

    fn tell_memory(&mut self) {
        self.told = self.told.with_fault(&Told { fault: None });
        self.loaded.report(&LogError::Memory);
    }
}

impl<A: Steps, F: Filter, H: ReportFault, W: Wait + Eprint> LoadedOf<A, F, H, W> {
    /// Reports the result of a step of the appender at an index, or of finishing its work.
    fn report_step<T>(&self, at: usize, stepped: &Result<T, LogError>) {
        match stepped {
            Ok(_) => {
                if let Some(told) = self.current.held.reporter.told().get(at) {
                    told.steps.clear();
                }
            }
            Err(fault) => self.report_failed(at, Failed::Step, fault),
        }
    }

    /// Makes one step of the appender at an index under its lock, and reports its fault. Returns
    /// whether work is left; a failed step leaves its work. If a call holds the lock, makes no step,
    /// and takes it that work is left.
    fn step_one(&self, at: usize, appender: &Locked<A>) -> bool {
        let Some(stepped) = appender.step_free() else {
            return true;
        };
        self.report_step(at, &stepped);
        stepped.unwrap_or(true)
    }

    /// Makes one step of each appender's background work, in order, each under that appender's lock
    /// alone, and hands each fault to the handler. If there is none, prints a fault once, until a
    /// step of that appender fails otherwise or works. Returns how many appenders have work left.
    /// An appender in use by a call is not waited for, and counts as one with work left. Allocates
    /// nothing.
    pub fn step_all(&self) -> usize
        ensures { result ≤ length (⟦<Self as Configured>⟧.settings self.now).appenders }
    {
        let appenders = self.current.appenders();
        let mut waiting = 0;
        for at in 0..appenders.len() {
            if self.step_one(at, appenders[at].appender()) {
                waiting += 1;
            }
        }
        waiting
    }

    /// Finishes the background work of the appender at an index under its lock, and reports its
    /// fault. Returns whether there was one.
    fn is_refused(&self, at: usize, appender: &Locked<A>) -> bool {
        let driven = appender.drive_shared(&self.rt);
        self.report_step(at, &driven);
        driven.is_err()
    }

    /// Finishes the background work of each appender, in order, each under that appender's lock
    /// alone, and reports each fault as that of a step. Returns how many appenders failed.
    /// Allocates nothing.
    pub fn drive_all(&self) -> usize
        ensures { result ≤ length (⟦<Self as Configured>⟧.settings self.now).appenders }
    {
        let appenders = self.current.appenders();
        let mut refused = 0;
        for at in 0..appenders.len() {
            if self.is_refused(at, appenders[at].appender()) {
                refused += 1;
            }
        }
        refused
    }
}

impl<A: Append, F: Filter, H, W: Wait> LoadedOf<A, F, H, W> {
    /// Flushes every appender under its lock.
    pub fn flush(&self) {
        flush_all(&self.rt, &self.current);
    }

    /// Appends a record once for each delivery, each under its appender's lock, and returns the index
    /// of the appender and the result of each delivery, in order. The handler gets no fault. Fails if
    /// an allocation fails; then nothing was appended.
    pub fn log_report(
        &self,
        logged: &Record,
        context: &Context<'_>,
    ) -> Result<Vec<(usize, Result<(), LogError>)>, OutOfMemory>
        ensures { let seen = ⟦<Self as Configured>⟧ in IfOk result (λ report.
            map (λ d. d.0) report.items
            ≡ deliveries (seen.settings self.now) (seen.admits self.now) logged.now) }
    {
        self.log_reporting(&mut self.locks(), logged, context)
    }

    /// Returns access to the appenders in which a step is one append under that appender's lock.
    /// Its steps are not visible to contracts.
    pub fn locks<'a>(&'a self) -> LocksOf<'a, A, F, W>
        ensures { ⟦<LocksOf<'a, A, F, W> as Doors>⟧.size result
            ≡ length (⟦<Self as Configured>⟧.settings self.now).appenders }
    {
        LocksOf {
            rt: &self.rt,
            appenders: self.current.appenders(),
            told: self.current.held.reporter.told(),
            has_recovered: false,
        }
    }
}

/// Flushes every appender under its lock.
pub(crate) fn flush_all<A: Append, F: Filter, H, W: Wait>(rt: &W, current: &CurrentOf<A, F, H>) {
    for appender in current.appenders() {
        appender.appender().flush_shared(rt);
    }
}

/// The locks of a configuration's appenders.
#[derive(Drop)]
pub struct LocksOf<'a, A, F, W> {
    rt: &'a W,
    appenders: &'a [Filtered<Locked<A>, F>],
    /// What was reported last of each appender, if a working append has to be noted.
    told: &'a [AppenderReports],
    /// Whether an append worked of an appender whose last one had failed.
    has_recovered: bool,
}

/// The locks of the appenders of a configuration over stores `S`.
pub type Locks<'a, S, W> = LocksOf<'a, AnyAppender<S>, AnyFilter, W>;

impl<'a, A: Append, F: Filter, W: Wait> LocksOf<'a, A, F, W> {
    /// Returns the locks of these appenders.
    pub fn new(rt: &'a W, appenders: &'a [Filtered<Locked<A>, F>]) -> LocksOf<'a, A, F, W>
        ensures { ⟦<Self as Doors>⟧.size result ≡ length appenders.now }
    {
        LocksOf {
            rt,
            appenders,
            told: &[],
            has_recovered: false,
        }
    }
}

impl<A: Append, F: Filter, W: Wait> Doors for LocksOf<'_, A, F, W> {
    ghost use Rattle.std.specs.Prelude.{length, []};

    ghost size = { λ l. length l.appenders.now };

    ghost tells = { λ _. ⊥ };

    ghost steps = { λ _. [] };

    fn size(&self) -> usize {
        self.appenders.len()
    }

    fn step(&mut self, at: usize, logged: &Record, context: &Context<'_>) -> Result<(), LogError> {
        let answer = self.appenders[at]
            .appender()
            .append_shared(self.rt, logged, context);
        if answer.is_ok() {
            if let Some(told) = self.told.get(at) {
                if told.appends.clear() {
                    self.has_recovered = true;
                }
            }
        }
        answer
    }
}
