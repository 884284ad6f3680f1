//! Runs on one store.

ghost use Rattle.std.specs.Prelude.{All, OnOk, ◌≡◌, ◌≤◌, ◌<◌, ◌+◌, ◌++◌, ◌∷◌, [], ℕ, IfOk, IfErr};
ghost use Rattle.std.specs.Prelude.{IsTrue, OnErr, None, false, true, length};
ghost use Rattle.std.specs.Prelude.{string_bytes, vec_len, vec_capacity};
ghost use Rattle.std.specs.Option.{option_to_list};
ghost use Rattle.log4rs_rolling.specs.Faults.{MayAnswer};
ghost use Rattle.log4rs_rolling.specs.AtOpening.{AskedThenOpened, AskedThenTried, opening_cost};
ghost use Rattle.log4rs_rolling.specs.Costs.{Makes};
ghost use Rattle.log4rs_rolling.specs.Roller.{kept_anew, kept_by};
ghost use Rattle.log4rs_append.specs.Rolling.{store_of, policy_of, path_of, appends, encoder_of};
ghost use Rattle.log4rs_append.specs.Sink.{plain_reading};
ghost use Rattle.log4rs_rolling.specs.Triggers.{trigger_of};
ghost use Rattle.log4rs_rolling.specs.Window.{NoCopies};
ghost use Rattle.log4rs_restarts.specs.Stops.{Changed};
ghost use Rattle.log4rs_restarts.specs.Failures.{AreRefused, MayFail};
ghost use Rattle.log4rs_restarts.specs.Reports.{IsReported, AreReported, SameCounts};
ghost use Rattle.log4rs_restarts.specs.Triggers.{Begins};
ghost use Rattle.log4rs_restarts.specs.Runs.{IsRefused, HaveRoom, IsReady, AreReady};
ghost use Rattle.log4rs_restarts.specs.ActsDone.{ActsDone, DidRun, DidRuns, IsDone, RunBy};
ghost use Rattle.log4rs_restarts.specs.Moments.{done, moment};

use crate::lent::Lent;
use crate::run::{Act, ActOutcome, OpeningError, Report, Run, RunReport};
use crate::settings::{RunSettings, TriggerSettings};
use crate::stopping::Stopping;
use log4rs_append::{Append, RollingFileAppender};
use log4rs_base::{LogError, OutOfMemory};
use log4rs_encode::Encode;
use log4rs_rolling::folder::make_parent;
use log4rs_rolling::store::Store;
use log4rs_rolling::{
    AnyTriggerOf, CompoundPolicyOf, FixedWindowRoller, IntervalTooSmall, NotedTrigger,
    OnStartUpTrigger, SizeTrigger, TimeTrigger,
};
use std::alloc::Global;

/// The policy of each run.
type Rolls = CompoundPolicyOf<NotedTrigger<AnyTriggerOf<SizeTrigger>>, FixedWindowRoller>;

/// The appender of a run, which borrows the encoder of all runs.
type Appender<'e, S, E> = RollingFileAppender<S, Rolls, Lent<'e, E>>;

/// Notes an outcome, and the decision of the trigger, if there is one.
fn note(report: &mut RunReport, outcome: ActOutcome, answer: Option<bool>)
    requires room { vec_len report.old.outcomes < vec_capacity report.old.outcomes }
    requires room_of_answers { vec_len report.old.answers < vec_capacity report.old.answers }
    ensures outcomes { report.new.outcomes.items ≡ report.old.outcomes.items ++ outcome ∷ [] }
    ensures answers { report.new.answers.items
        ≡ report.old.answers.items ++ option_to_list answer }
    ensures number { vec_len report.new.outcomes ≡ vec_len report.old.outcomes + 1 }
    ensures number_of_answers { vec_len report.new.answers ≤ vec_len report.old.answers + 1 }
    ensures capacity { vec_capacity report.new.outcomes ≡ vec_capacity report.old.outcomes }
    ensures capacity_of_answers { vec_capacity report.new.answers
        ≡ vec_capacity report.old.answers }
    ensures opening { report.new.opening ≡ report.old.opening }
    ensures counts { SameCounts report.old report.new }
{
    report.outcomes.push_reserved(outcome);
    let Some(answer) = answer else {
        return;
    };
    report.answers.push_reserved(answer);
}

/// Does an act, and returns its outcome, and the decision of the trigger, if it was called.
fn act_on<S: Store + Drop, E: Encode>(
    file: &mut RollingFileAppender<S, Rolls, E>,
    act: &Act<'_>,
) -> (ActOutcome, Option<bool>)
    requires append { IsTrue (appends file.old) }
    ensures did { IsDone (plain_reading (E.rendering (encoder_of file.old))) (path_of file.old)
        (done act.now result.0 result.1 (moment S.disk file.old) (moment S.disk file.new)) }
    ensures reading { plain_reading (E.rendering (encoder_of file.new))
        ≡ plain_reading (E.rendering (encoder_of file.old)) }
    ensures path { path_of file.new ≡ path_of file.old }
    ensures mode { appends file.new ≡ appends file.old }
{
    match act {
        Act::Append(entry) => {
            let (outcome, answer) = file.append_noted(&entry.logged, &entry.context);
            (ActOutcome::Appended(outcome), answer)
        }
        Act::Late(entry) => {
            let outcome = file.append_retired(&entry.logged, &entry.context);
            (ActOutcome::Appended(outcome), None)
        }
        Act::Step => {
            let outcome = file.step();
            (ActOutcome::Stepped(outcome), None)
        }
    }
}

/// Does acts in order, and notes each outcome and each decision of the trigger.
fn act_all<S: Store + Drop, E: Encode>(
    file: &mut RollingFileAppender<S, Rolls, E>,
    acts: &[Act<'_>],
    report: &mut RunReport,
)
    requires append { IsTrue (appends file.old) }
    requires ready { IsReady (length acts.now) report.old }
    ensures did { ActsDone (plain_reading (E.rendering (encoder_of file.old)))
        (path_of file.old) acts.now
        report.new.outcomes.items report.new.answers.items
        (moment S.disk file.old) (moment S.disk file.new) }
    ensures opening { report.new.opening ≡ report.old.opening }
    ensures counts { SameCounts report.old report.new }
{
    for act in acts {
        let (outcome, answer) = act_on(file, act);
        note(report, outcome, answer);
    }
}

/// Creates the trigger of the settings.
fn trigger_of(settings: TriggerSettings) -> Result<AnyTriggerOf<SizeTrigger>, IntervalTooSmall>
    ensures begins { IfOk result (Begins settings) }
    ensures accepted { OnOk result (¬ (AreRefused settings)) }
    ensures refused { OnErr result (AreRefused settings) }
{
    match settings {
        TriggerSettings::Size(limit) => Ok(AnyTriggerOf::Size(SizeTrigger::new(limit))),
        TriggerSettings::OnStartUp(min_size) => {
            let trigger = OnStartUpTrigger::new(min_size);
            Ok(AnyTriggerOf::OnStartUp(trigger))
        }
        TriggerSettings::Time(config) => Ok(AnyTriggerOf::Time(TimeTrigger::new(config)?)),
    }
}

/// Returns the error of an opening, by its fault.
fn opening_error(fault: &LogError) -> OpeningError
    ensures { (before now : ℕ)
        → MayAnswer before now fault.now → MayFail ⊥ before now result }
{
    match fault {
        LogError::Memory => OpeningError::Memory,
        _ => OpeningError::Store,
    }
}

/// Opens the file of a run in its directory, after completing a rotation that was left. Returns the
/// store with an error.
fn open_file<'e, S: Store + Drop, E: Encode>(
    alloc: Global,
    store: S,
    policy: Rolls,
    path: String,
    encoder: &'e E,
) -> Result<Appender<'e, S, E>, (S, OpeningError)>
    ensures opened { IfOk result (λ file. AskedThenOpened (kept_by policy.roller)
        (kept_by (policy_of file).roller) (string_bytes path) true
        (S.disk store) (S.disk (store_of file))) }
    ensures trigger { IfOk result (λ file. (policy_of file).trigger ≡ policy.trigger) }
    ensures path { IfOk result (λ file. path_of file ≡ string_bytes path) }
    ensures mode { IfOk result (λ file. IsTrue (appends file)) }
    ensures reading { IfOk result (λ file. plain_reading
        (⟦<Lent<'e, E> as Encode>⟧.rendering (encoder_of file))
        ≡ plain_reading (E.rendering encoder.now)) }
    ensures tried { IfErr result (λ failed. AskedThenTried (kept_by policy.roller)
        (string_bytes path) true (S.disk store) (S.disk failed.0)) }
    ensures cost { IfOk result (λ file. Makes (opening_cost (kept_by policy.roller) + 1)
        (S.disk store) (S.disk (store_of file))) }
    ensures tried_cost { IfErr result (λ failed. Makes (opening_cost (kept_by policy.roller) + 1)
        (S.disk store) (S.disk failed.0)) }
    ensures cause { IfErr result (λ failed. MayFail ⊥ (S.disk store).refusals
        (S.disk failed.0).refusals failed.1) }
{
    let mut store = store;
    if let Err(_) = make_parent(&path, &mut store) {
        return Err((store, OpeningError::Store));
    }
    match RollingFileAppender::open(alloc, store, policy, path, true, Lent { encoder }) {
        Ok(file) => Ok(file),
        Err(failed) => {
            let error = opening_error(&failed.1);
            Err((failed.0, error))
        }
    }
}

/// Opens a file, and does these acts if that succeeds.
fn run_on<S: Store + Drop, E: Encode>(
    alloc: Global,
    store: S,
    policy: Rolls,
    path: String,
    encoder: &E,
    acts: &[Act<'_>],
    report: &mut RunReport,
) -> S
    requires { IsReady (length acts.now) report.old }
    ensures did { RunBy report.new.opening (λ trigger. trigger ≡ trigger_of policy.trigger)
        (plain_reading (E.rendering encoder.now)) (kept_by policy.roller) (string_bytes path)
        acts.now report.new (S.disk store) (S.disk result) }
    ensures counts { SameCounts report.old report.new }
{
    match open_file(alloc, store, policy, path, encoder) {
        Ok(file) => {
            let mut file = file;
            report.opening = Ok(());
            act_all(&mut file, acts, report);
            let mut left = file.into_store();
            left.close();
            left
        }
        Err(failed) => {
            let (left, error) = failed;
            let mut left = left;
            left.close();
            report.opening = Err(error);
            left
        }
    }
}

/// Does the same, and refuses all operations of the store after `stop_after`.
fn run_by<S: Store + Drop, E: Encode>(
    alloc: Global,
    store: S,
    stop_after: Option<u64>,
    policy: Rolls,
    path: String,
    encoder: &E,
    acts: &[Act<'_>],
    report: &mut RunReport,
) -> S
    requires { IsReady (length acts.now) report.old }
    ensures did { DidRun (λ trigger. trigger ≡ trigger_of policy.trigger)
        (plain_reading (E.rendering encoder.now)) (kept_by policy.roller) (string_bytes path)
        stop_after acts.now report.new (S.disk store) (S.disk result) }
    ensures reported { IsReported ⊥ (plain_reading (E.rendering encoder.now)) stop_after
        acts.now report.new (S.disk store) (S.disk result) }
{
    let Some(limit) = stop_after else {
        return run_on(alloc, store, policy, path, encoder, acts, report);
    };
    let stopping = Stopping::new(alloc, store, limit);
    let left = run_on(alloc, stopping, policy, path, encoder, acts, report);
    report.passed = left.passed();
    report.stopped = left.stopped();
    left.into_inner()
}

/// Executes one run: opens the file, and does the acts if that succeeds.
fn run_once<S: Store + Drop, E: Encode>(
    alloc: Global,
    store: S,
    settings: &RunSettings,
    encoder: &E,
    run: &Run<'_>,
    report: RunReport,
) -> (S, RunReport)
    requires { IsReady (length run.now.acts.items) report }
    ensures did { DidRun (Begins settings.now.trigger) (plain_reading (E.rendering encoder.now))
        (kept_anew settings.now.roller) (string_bytes settings.now.path) run.now.stop_after
        run.now.acts.items result.1 (S.disk store) (S.disk result.0) }
    ensures reported { IsReported (AreRefused settings.now.trigger)
        (plain_reading (E.rendering encoder.now)) run.now.stop_after run.now.acts.items
        result.1 (S.disk store) (S.disk result.0) }
    ensures refused { AreRefused settings.now.trigger
        → IsRefused result.1 × (result.0 ≡ store) }
{
    let mut report = report;
    let Ok(trigger) = trigger_of(settings.trigger) else {
        report.opening = Err(OpeningError::Settings);
        return (store, report);
    };
    report.opening = Err(OpeningError::Memory);
    let Ok(path) = settings.path.clone() else {
        return (store, report);
    };
    let Ok(roller) = settings.roller.again() else {
        return (store, report);
    };
    let policy = CompoundPolicyOf::new(NotedTrigger::new(trigger), roller);
    let left = run_by(
        alloc,
        store,
        run.stop_after,
        policy,
        path,
        encoder,
        run.acts.as_slice(),
        &mut report,
    );
    (left, report)
}

/// Returns `number` reports without an outcome, each with room for `room`.
fn reserve(alloc: Global, number: usize, room: usize) -> Result<Vec<RunReport>, OutOfMemory>
    ensures number { IfOk result (λ reports. vec_len reports ≡ number) }
    ensures ready { IfOk result (λ reports. AreReady room reports.items) }
{
    let mut reports = Vec::with_capacity(alloc, number)?;
    for _ in 0..number {
        let outcomes = Vec::with_capacity(alloc, room)?;
        let answers = Vec::with_capacity(alloc, room)?;
        reports.push_reserved(RunReport {
            opening: Err(OpeningError::Memory),
            outcomes,
            answers,
            passed: 0,
            stopped: 0,
        });
    }
    Ok(reports)
}

/// Returns the greatest number of acts of a run.
fn most_acts(runs: &[Run<'_>]) -> usize
    ensures { HaveRoom result runs.now }
{
    let mut most = 0;
    for run in runs {
        most = most.max(run.acts.len());
    }
    most
}

/// Executes runs, one after another, whose reports have room.
fn run_all<S: Store + Drop, E: Encode>(
    alloc: Global,
    store: S,
    settings: &RunSettings,
    encoder: &E,
    runs: &[Run<'_>],
    most: usize,
    ready: Vec<RunReport>,
    reports: Vec<RunReport>,
) -> (S, Vec<RunReport>)
    requires most { HaveRoom most runs.now }
    requires ready { AreReady most ready.items }
    requires number { vec_len ready ≡ length runs.now }
    requires none { reports.items ≡ [] }
    requires room { length runs.now ≤ vec_capacity reports }
    requires no_reports { vec_len reports ≡ 0 }
    ensures did { DidRuns (Begins settings.now.trigger) (plain_reading (E.rendering encoder.now))
        (kept_anew settings.now.roller) (string_bytes settings.now.path) runs.now result.1.items
        (S.disk store) (S.disk result.0) }
    ensures reported { AreReported (AreRefused settings.now.trigger)
        (plain_reading (E.rendering encoder.now)) runs.now result.1.items
        (S.disk store) (S.disk result.0) }
    ensures number { length result.1.items ≡ length runs.now }
    ensures refused { AreRefused settings.now.trigger
        → All IsRefused result.1.items × (result.0 ≡ store) }
{
    let mut store = store;
    let mut ready = ready;
    let mut reports = reports;
    for run in runs {
        let Some(report) = ready.pop() else {
            return (store, reports);
        };
        let (left, report) = run_once(alloc, store, settings, encoder, run, report);
        store = left;
        reports.push_reserved(report);
    }
    (store, reports)
}

/// Executes runs, one after another, on one store, as `sessions` does. Room for the report is
/// allocated before the first operation; if that fails, the store is unchanged.
pub(crate) fn sessions_with<S: Store + Drop, E: Encode>(
    alloc: Global,
    store: S,
    settings: &RunSettings,
    encoder: &E,
    runs: &[Run<'_>],
) -> (S, Result<Report, OutOfMemory>)
    ensures did { IfOk result.1 (λ report. DidRuns (Begins settings.now.trigger)
        (plain_reading (E.rendering encoder.now)) (kept_anew settings.now.roller)
        (string_bytes settings.now.path) runs.now report.runs.items
        (S.disk store) (S.disk result.0)) }
    ensures renames { IsTrue (kept_anew settings.now.roller).renames
        → Changed (S.disk store) (S.disk result.0) NoCopies }
    ensures reported { IfOk result.1 (λ report. AreReported (AreRefused settings.now.trigger)
        (plain_reading (E.rendering encoder.now)) runs.now report.runs.items
        (S.disk store) (S.disk result.0)) }
    ensures refused { AreRefused settings.now.trigger
        → IfOk result.1 (λ report. All IsRefused report.runs.items) × (result.0 ≡ store) }
    ensures none { OnErr result.1 (result.0 ≡ store) }
{
    let most = most_acts(runs);
    let Ok(ready) = reserve(alloc, runs.len(), most) else {
        return (store, Err(OutOfMemory));
    };
    let Ok(reports) = Vec::with_capacity(alloc, runs.len()) else {
        return (store, Err(OutOfMemory));
    };
    let (store, reports) = run_all(alloc, store, settings, encoder, runs, most, ready, reports);
    (store, Ok(Report { runs: reports }))
}
