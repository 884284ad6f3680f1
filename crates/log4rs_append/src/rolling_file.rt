//! The appender to a rolled file.

ghost use Rattle.std.specs.Prelude.{◌≡◌, ◌≤◌, Some, None, IsTrue, length, if◌then◌else◌};
ghost use Rattle.log4rs_rolling.specs.Keeping.{SameNames};
ghost use Rattle.log4rs_rolling.specs.LogFile.{Agrees, is_open, log_path};
ghost use Rattle.log4rs_rolling.specs.SinceOpening.{GoodSince};

use crate::append::Append;
use crate::steps::Steps;
use crate::texts::TextBuffer;
use log4rs_base::{Carried, Context, LogError, Record};
use log4rs_encode::Encode;
pub use log4rs_rolling::LogFile;
use log4rs_rolling::store::{Open, Store};
use log4rs_rolling::{Keep, Policy};
use parts::{finish, look_again, open_file, prepare, write_closed};
use std::alloc::Global;

pub mod builder;
mod noted;
mod parts;

pub use builder::RollingFileAppenderBuilder;

/// Writes the plain text of each record at the end of a file, which a policy rolls. The file is
/// opened when the appender is built, and again for the first record after a rotation closed it.
///
/// In append mode, with a roller that keeps archives, each change of the files since the appender
/// was built keeps all that the archives and the file held, or drops the oldest archive, whatever
/// was refused in between. See `store`.
///
/// If rotations go on in the background, `step` and `drive` do the rest of one, beside the records.
///
/// Its facts hold between any two calls, also after refusals. The path of the open file is known,
/// and its length, as an estimate that stops at `u64::MAX`.
#[derive(Drop)]
pub struct RollingFileAppender<S: Store + Drop, P: Keep<S>, E> {
    /// The store of the file.
    store: S,
    /// The policy that rolls the file.
    policy: P,
    /// The path and the length of the file, and whether it is open.
    log: LogFile,
    /// Whether an opening keeps the contents of the file. If not, it empties the file.
    append: bool,
    encoder: E,
    /// The text of a record, in memory that the next one reuses.
    buffer: TextBuffer,
    // The store and the policy at the opening, for contracts only.
    opened: Carried<S>,
    settings: Carried<P>,
    ghost known: { Agrees log (S.disk store) },
    ghost good: { ∥ GoodSince (P.keeping settings.value) (P.keeping policy)
        (log_path log) append (S.disk opened.value) (S.disk store) ∥₁ },
    ghost later: { IsTrue (S.disk store).tells
        → length (S.disk opened.value).changes ≤ length (S.disk store).changes },
    ghost names: { SameNames (P.keeping settings.value) (P.keeping policy) },
}

impl<S: Store + Drop, P: Policy<S>, E: Encode> RollingFileAppender<S, P, E> {
    ghost use Rattle.std.specs.Prelude.{IfErr, IfOk, string_bytes};
    ghost use Rattle.log4rs_append.specs.Rolling.{store_of, policy_of, path_of, appends};
    ghost use Rattle.log4rs_append.specs.Rolling.{IsOpened, opening_of, settings_of, log_of};
    ghost use Rattle.log4rs_append.specs.Rolling.{since_bytes, store_after};
    ghost use Rattle.log4rs_append.specs.Sink.{AreHeld};
    ghost use Rattle.log4rs_rolling.specs.AtOpening.{AskedThenOpened, AskedThenTried};
    ghost use Rattle.log4rs_rolling.specs.AtOpening.{FailsToOpen, RollsAtOnce, opening_cost};
    ghost use Rattle.log4rs_rolling.specs.Costs.{Makes};

    /// Opens a file, after completing a rotation of it that was left unfinished. Fails with the
    /// store and the error: `Store` if the store refuses, or that of the policy.
    pub fn open(
        alloc: Global,
        store: S,
        policy: P,
        path: String,
        append: bool,
        encoder: E,
    ) -> Result<Self, (S, LogError)>
    where
        P: Drop,
        E: Drop,
        ensures asked { IfOk result (λ a. AskedThenOpened (P.keeping policy)
            (P.keeping (policy_of a)) (string_bytes path) append
            (S.disk store) (S.disk (store_of a))) }
        // A built-in policy that rolls at once is unchanged.
        ensures policy { RollsAtOnce (P.keeping policy) (string_bytes path)
            → IfOk result (λ a. policy_of a ≡ policy) }
        ensures beside { IfOk result (λ a. P.beside policy (policy_of a)) }
        ensures kind { IfOk result (λ a.
            (P.asking (policy_of a)).kind ≡ (P.asking policy).kind) }
        ensures begun { IfOk result
            (IsOpened store policy (string_bytes path) append encoder) }
        ensures tried { IfErr result (λ failed. AskedThenTried (P.keeping policy)
            (string_bytes path) append (S.disk store) (S.disk failed.0)) }
        ensures fault { IsTrue (P.keeping policy).is_built_in → IfErr result (λ failed.
            FailsToOpen (P.keeping policy) (string_bytes path) (S.disk store)
            (S.disk failed.0) failed.1) }
        ensures cost { IsTrue (P.keeping policy).is_built_in
            → Makes (opening_cost (P.keeping policy)) (S.disk store)
            (S.disk (store_after result)) }
    {
        Self::open_log(
            store,
            policy,
            LogFile::new(path),
            append,
            encoder,
            TextBuffer::new(alloc),
        )
    }

    /// Opens the file of a log, as `open` does, with memory for the texts.
    fn open_log(
        store: S,
        policy: P,
        log: LogFile,
        append: bool,
        encoder: E,
        buffer: TextBuffer,
    ) -> Result<Self, (S, LogError)>
    where
        P: Drop,
        E: Drop,
        ensures asked { IfOk result (λ a. AskedThenOpened (P.keeping policy)
            (P.keeping (policy_of a)) (log_path log) append
            (S.disk store) (S.disk (store_of a))) }
        ensures policy { RollsAtOnce (P.keeping policy) (log_path log)
            → IfOk result (λ a. policy_of a ≡ policy) }
        ensures beside { IfOk result (λ a. P.beside policy (policy_of a)) }
        ensures kind { IfOk result (λ a.
            (P.asking (policy_of a)).kind ≡ (P.asking policy).kind) }
        ensures begun { IfOk result
            (IsOpened store policy (log_path log) append encoder) }
        ensures tried { IfErr result (λ failed. AskedThenTried (P.keeping policy)
            (log_path log) append (S.disk store) (S.disk failed.0)) }
        ensures fault { IsTrue (P.keeping policy).is_built_in → IfErr result (λ failed.
            FailsToOpen (P.keeping policy) (log_path log) (S.disk store)
            (S.disk failed.0) failed.1) }
        ensures cost { IsTrue (P.keeping policy).is_built_in
            → Makes (opening_cost (P.keeping policy)) (S.disk store)
            (S.disk (store_after result)) }
    {
        let opened = Carried::of(&store);
        let settings = Carried::of(&policy);
        let mut store = store;
        let mut policy = policy;
        let mut log = log;
        if let Err(fault) = policy.at_open(log.path(), &mut store) {
            return Err((store, fault));
        }
        log.roll(&mut store);
        if let Err(fault) = open_file(&mut log, append, &mut store) {
            return Err((store, fault));
        }
        Ok(RollingFileAppender {
            store,
            policy,
            log,
            append,
            encoder,
            buffer,
            opened,
            settings,
        })
    }

    /// Returns the store of the file. Each change in it since the appender was built is good: see
    /// the clause `good`.
    pub fn store(&self) -> &S
        ensures value { result.now ≡ store_of self.now }
        ensures held { AreHeld (since_bytes (P.keeping (policy_of self.now)).is_built_in
            (path_of self.now) (S.disk (opening_of self.now)) (S.disk result.now))
            (⟦<RollingFileAppender<S, P, E> as Append>⟧.sink self.now).texts }
        ensures good { ∥ GoodSince (P.keeping (settings_of self.now))
            (P.keeping (policy_of self.now)) (path_of self.now) (appends self.now)
            (S.disk (opening_of self.now)) (S.disk result.now) ∥₁ }
    {
        &self.store
    }

    /// Returns the store of the file, and drops the rest.
    pub fn into_store(self) -> S
    where
        P: Drop,
        E: Drop,
        ensures { result ≡ store_of self }
    {
        self.store
    }

    /// Returns the path and the length of the file, and whether it is open.
    pub fn file(&self) -> &LogFile
        ensures value { result.now ≡ log_of self.now }
        ensures agrees { Agrees result.now (S.disk (store_of self.now)) }
    {
        &self.log
    }
}

impl<S: Store + Drop, P: Policy<S>, E: Encode> RollingFileAppender<S, P, E> {
    ghost use Rattle.std.specs.Prelude.{◌∷◌, [], false, OnErr, OnOk};
    ghost use Rattle.log4rs_rolling.specs.Change.{opened};
    ghost use Rattle.log4rs_rolling.specs.Disk.{Calls, Does};
    ghost use Rattle.log4rs_append.specs.Rolling.{IsSameFile, KeepsPolicy, store_of, policy_of};
    ghost use Rattle.log4rs_append.specs.Rolling.{path_of, log_of};
    ghost use Rattle.log4rs_append.specs.Sink.{SameTexts};
    ghost use Rattle.log4rs_rolling.specs.Background.{Driven, Stepped};
    ghost use Rattle.log4rs_rolling.specs.LogFile.{IsClosed};
    ghost use Rattle.log4rs_rolling.specs.FileChanges.{OnlyOpens};
    ghost use Rattle.log4rs_rolling.specs.Costs.{Costs};
    ghost use Rattle.log4rs_rolling.specs.RetiredAppends.{OkOrRefused};

    /// Makes one step of a rotation in the background, and returns whether more of it is left. It
    /// makes at most one change, and writes to no file. A policy that rolls at once does nothing.
    /// Fails with the error of the policy; the move is then left to the next step.
    pub fn step(&mut self) -> Result<bool, LogError>
        ensures stepped { Stepped (P.keeping (policy_of self.old))
            (P.keeping (policy_of self.new)) result
            (S.disk (store_of self.old)) (S.disk (store_of self.new)) }
        ensures texts { let sink = ⟦<RollingFileAppender<S, P, E> as Append>⟧.sink in
            SameTexts (sink self.old) (sink self.new) }
        ensures beside { P.beside (policy_of self.old) (policy_of self.new) }
        ensures kind { (P.asking (policy_of self.new)).kind
            ≡ (P.asking (policy_of self.old)).kind }
        ensures same { IsSameFile self.old self.new }
    {
        let more = self.policy.step(&mut self.store);
        look_again(&mut self.log, &mut self.store);
        more
    }

    /// Completes a rotation in the background. It writes to no file. A policy that rolls at once
    /// does nothing. Fails with the error of the policy; the moves that are left then wait.
    pub fn drive(&mut self) -> Result<(), LogError>
        ensures driven { Driven (P.keeping (policy_of self.old))
            (P.keeping (policy_of self.new)) result
            (S.disk (store_of self.old)) (S.disk (store_of self.new)) }
        ensures texts { let sink = ⟦<RollingFileAppender<S, P, E> as Append>⟧.sink in
            SameTexts (sink self.old) (sink self.new) }
        ensures beside { P.beside (policy_of self.old) (policy_of self.new) }
        ensures kind { (P.asking (policy_of self.new)).kind
            ≡ (P.asking (policy_of self.old)).kind }
        ensures same { IsSameFile self.old self.new }
    {
        let driven = self.policy.drive(&mut self.store);
        look_again(&mut self.log, &mut self.store);
        driven
    }

    /// Retires the file: makes the moves that are left, as `drive` does, and closes the file, even
    /// if a move fails. From then on `append_retired` appends, until `resume`. Fails as `drive`
    /// does.
    pub fn retire(&mut self) -> Result<(), LogError>
        ensures driven { Driven (P.keeping (policy_of self.old))
            (P.keeping (policy_of self.new)) result
            (S.disk (store_of self.old)) (S.disk (store_of self.new)) }
        ensures closed { IsClosed (log_of self.new) (S.disk (store_of self.new)) }
        ensures texts { let sink = ⟦<RollingFileAppender<S, P, E> as Append>⟧.sink in
            SameTexts (sink self.old) (sink self.new) }
        ensures beside { P.beside (policy_of self.old) (policy_of self.new) }
        ensures kind { (P.asking (policy_of self.new)).kind
            ≡ (P.asking (policy_of self.old)).kind }
        ensures same { IsSameFile self.old self.new }
    {
        let driven = self.drive();
        self.log.roll(&mut self.store);
        driven
    }

    /// Resumes a retired file: opens it in append mode, whatever its own mode is, and takes its
    /// length. From then on `append` appends and rolls as before. Fails with `Store` if the store
    /// refuses; the file then stays closed.
    pub fn resume(&mut self) -> Result<(), LogError>
        ensures opened { is_open (log_of self.old) ≡ false → OnOk result
            (Does (S.disk (store_of self.old)) (S.disk (store_of self.new))
            (opened (path_of self.old) Open.Append ∷ []) (S.disk (store_of self.old)).refusals
            (Some (path_of self.old))) }
        ensures open { OnOk result (IsTrue (is_open (log_of self.new))) }
        ensures only { Calls (S.disk (store_of self.old)) (S.disk (store_of self.new))
            (OnlyOpens (path_of self.old) Open.Append) }
        ensures closed { OnErr result
            (IsClosed (log_of self.new) (S.disk (store_of self.new))) }
        ensures answered { OkOrRefused result (S.disk (store_of self.old))
            (S.disk (store_of self.new)) }
        ensures cost { Costs 2 result (S.disk (store_of self.old)) (S.disk (store_of self.new)) }
        ensures texts { let sink = ⟦<RollingFileAppender<S, P, E> as Append>⟧.sink in
            SameTexts (sink self.old) (sink self.new) }
        ensures same { KeepsPolicy self.old self.new }
    {
        open_file(&mut self.log, true, &mut self.store)
    }
}

impl<S: Store + Drop, P: Policy<S>, E: Encode> RollingFileAppender<S, P, E> {
    ghost use Rattle.std.specs.Prelude.{IfErr, IfOk};
    ghost use Rattle.log4rs_append.specs.HandedOver.{HandedOver, IsRefusedOver, KeepsItsEndOver};
    ghost use Rattle.log4rs_append.specs.Rolling.{store_after};
    ghost use Rattle.log4rs_append.specs.Rolling.{IsOpened, appends, opening_of, path_of};
    ghost use Rattle.log4rs_append.specs.Rolling.{policy_of, settings_of, store_of};
    ghost use Rattle.log4rs_rolling.specs.AtOpening.{RollsAtOnce};

    /// Hands the file over to a new policy and a new encoder, as a limit is raised, say: retires
    /// the file, and opens it by the new ones, in the same mode. Records may go to the file again
    /// then. Fails with the store, closed, and the error of `retire` or of `open`.
    ///
    /// If a move of a rotation is refused, nothing is opened, since a policy that rolls at once
    /// would leave the waiting file behind. What is left then waits: a policy in the background
    /// finds it when it opens the file.
    pub fn hand_over<Q: Policy<S>, F: Encode>(
        self,
        policy: Q,
        encoder: F,
    ) -> Result<RollingFileAppender<S, Q, F>, (S, LogError)>
    where
        P: Drop,
        E: Drop,
        Q: Drop,
        F: Drop,
        // Also in the store that is handed back.
        ensures kept { ∥ KeepsItsEndOver (P.keeping (settings_of self)) (Q.keeping policy)
            (path_of self) (appends self) (S.disk (opening_of self))
            (S.disk (store_after result)) ∥₁ }
        ensures handed { IfOk result (λ a. (start : S)
            × IsOpened start policy (path_of self) (appends self) encoder a
            × HandedOver (P.keeping (policy_of self)) (Q.keeping policy)
            (Q.keeping (policy_of a)) (path_of self) (appends self)
            (S.disk (store_of self)) (S.disk start) (S.disk (store_of a))) }
        // A built-in policy that rolls at once is unchanged.
        ensures policy { RollsAtOnce (Q.keeping policy) (path_of self)
            → IfOk result (λ a. policy_of a ≡ policy) }
        ensures beside { IfOk result (λ a. Q.beside policy (policy_of a)) }
        ensures kind { IfOk result (λ a.
            (Q.asking (policy_of a)).kind ≡ (Q.asking policy).kind) }
        ensures refused { IfErr result (λ failed. IsRefusedOver (P.keeping (policy_of self))
            (Q.keeping policy) (path_of self) (appends self) (S.disk (store_of self))
            (S.disk failed.0) failed.1) }
    {
        let mut old = self;
        if let Err(fault) = old.retire() {
            return Err((old.into_store(), fault));
        }
        RollingFileAppender::open_log(old.store, policy, old.log, old.append, encoder, old.buffer)
    }
}

impl<S: Store + Drop, P: Policy<S>, E: Encode> Steps for RollingFileAppender<S, P, E> {
    fn step(&mut self) -> Result<bool, LogError> {
        RollingFileAppender::step(self)
    }

    fn drive(&mut self) -> Result<(), LogError> {
        RollingFileAppender::drive(self)
    }

    fn retire(&mut self) -> Result<(), LogError> {
        RollingFileAppender::retire(self)
    }

    fn resume(&mut self) -> Result<(), LogError> {
        RollingFileAppender::resume(self)
    }
}

impl<S: Store + Drop, P: Policy<S>, E: Encode> Append for RollingFileAppender<S, P, E> {
    ghost use Rattle.std.specs.Prelude.{Bool, Option, IfErr, OnOk, ◌⊎◌};
    ghost use Rattle.log4rs_rolling.specs.Disk.{Calls};
    ghost use Rattle.log4rs_append.specs.Rolling.{rolled_file, rolling_sink, store_of, policy_of, path_of};
    ghost use Rattle.log4rs_append.specs.Rolling.{appends, encoder_of};
    ghost use Rattle.log4rs_append.specs.Sink.{Appended, Took, plain_reading};
    ghost use Rattle.log4rs_append.specs.Texts.{fails_by};
    ghost use Rattle.log4rs_append.specs.Rolling.{IsSamePlace, KeepsFile, log_of};
    ghost use Rattle.log4rs_rolling.specs.LogFile.{IsClosed};
    ghost use Rattle.log4rs_rolling.specs.RetiredAppends.{AddsRetired, FailsRetired};
    ghost use Rattle.log4rs_rolling.specs.AppendResults.{AnsweredAppend};
    ghost use Rattle.log4rs_rolling.specs.Appends.{CostsText};
    ghost use Rattle.log4rs_rolling.specs.Asking.{Noted};
    ghost use Rattle.log4rs_rolling.specs.AppendResults.{GrownAppend, LimitedAppend, MadeAppend};
    ghost use Rattle.log4rs_rolling.specs.FileChanges.{way};

    ghost sink = { λ a. rolling_sink (E.rendering (encoder_of a))
        (rolled_file (λ policy. (P.asking policy).kind) (E.rendering (encoder_of a)) a) };

    fn append(&mut self, record: &Record, context: &Context<'_>) -> Result<(), LogError>
        ensures appended { let sink = ⟦<RollingFileAppender<S, P, E> as Append>⟧.sink in
            Appended «record».now context.now result (sink self.old) (sink self.new) }
        // The decision of the trigger, if it was called, which the policy noted.
        ensures answered { (answer : Option Bool)
            × Noted (P.notes context.now) (policy_of self.old) answer (policy_of self.new)
            × AnsweredAppend (plain_reading (E.rendering (encoder_of self.old))) «record».now
            context.now (P.asking (policy_of self.old)) answer (P.keeping (policy_of self.old))
            (P.keeping (policy_of self.new)) (appends self.old) (path_of self.old) result
            (S.disk (store_of self.old)) (S.disk (store_of self.new)) }
        ensures limited { LimitedAppend (P.keeping (policy_of self.old))
            (P.keeping (policy_of self.new)) (path_of self.old) (way (appends self.old))
            (S.disk (store_of self.old)) (S.disk (store_of self.new)) }
        // If the encoder fails, nothing is written.
        ensures made { IsTrue (P.keeping (policy_of self.old)).is_built_in
            → MadeAppend (plain_reading (E.rendering (encoder_of self.old)))
            (fails_by (E.answers (encoder_of self.old))) «record».now context.now
            (P.asking (policy_of self.old))
            (P.keeping (policy_of self.old)) (path_of self.old) result
            (S.disk (store_of self.old)) (S.disk (store_of self.new)) }
        ensures grown { IsTrue (appends self.old)
            → GrownAppend (plain_reading (E.rendering (encoder_of self.old))) «record».now
            context.now (P.asking (policy_of self.old)) (P.keeping (policy_of self.old))
            (P.keeping (policy_of self.new)) (path_of self.old) result
            (S.disk (store_of self.old)) (S.disk (store_of self.new)) }
        ensures kind { ((P.asking (policy_of self.new)).kind
            ≡ (P.asking (policy_of self.old)).kind)
            × (plain_reading (E.rendering (encoder_of self.new))
            ≡ plain_reading (E.rendering (encoder_of self.old))) }
        ensures same { IsSamePlace self.old self.new }
    {
        let first = self.policy.is_pre_process();
        prepare(
            &mut self.log,
            self.append,
            first,
            &mut self.policy,
            &mut self.store,
            context,
        )?;
        self.buffer.encode(&self.encoder, false, record, context)?;
        finish(
            &mut self.log,
            first,
            &mut self.policy,
            &mut self.store,
            self.buffer.bytes(),
            context,
        )
    }

    /// Appends a record to a retired file: makes its text, opens the file in append mode, whatever
    /// its own mode is, writes the text, and closes the file. The policy is not called, so nothing
    /// is rolled. Fails with the error of the encoder, before anything is done, or with `Store` if
    /// the store refuses.
    fn append_retired(&mut self, record: &Record, context: &Context<'_>) -> Result<(), LogError>
        ensures appended { let sink = ⟦<RollingFileAppender<S, P, E> as Append>⟧.sink in
            Took «record».now context.now result (sink self.old) (sink self.new) }
        ensures adds { Calls (S.disk (store_of self.old)) (S.disk (store_of self.new))
            (AddsRetired (plain_reading (E.rendering (encoder_of self.old))) «record».now
            context.now (path_of self.old) result) }
        ensures unrefused { OnOk result
            ((S.disk (store_of self.new)).refusals ≡ (S.disk (store_of self.old)).refusals) }
        // If the encoder fails, nothing is done.
        ensures faults { IfErr result (FailsRetired (plain_reading (E.rendering
            (encoder_of self.old))) (fails_by (E.answers (encoder_of self.old)))
            «record».now context.now
            (S.disk (store_of self.old)) (S.disk (store_of self.new))
            (store_of self.new ≡ store_of self.old)) }
        // The file is closed then, unless nothing was done.
        ensures closed { IsClosed (log_of self.new) (S.disk (store_of self.new))
            ⊎ (store_of self.new ≡ store_of self.old) }
        ensures cost { CostsText (plain_reading (E.rendering (encoder_of self.old))) «record».now
            context.now 1 result (S.disk (store_of self.old)) (S.disk (store_of self.new)) }
        ensures reading { plain_reading (E.rendering (encoder_of self.new))
            ≡ plain_reading (E.rendering (encoder_of self.old)) }
        ensures same { KeepsFile self.old self.new }
    {
        self.buffer.encode(&self.encoder, false, record, context)?;
        write_closed(&mut self.log, &mut self.store, self.buffer.bytes())
    }

    fn flush(&mut self)
        ensures sink { let sink = ⟦<RollingFileAppender<S, P, E> as Append>⟧.sink in
            sink self.new ≡ sink self.old }
        ensures same { self.new ≡ self.old }
    {}
}
