//! Policies, which roll log files before or after a record.

ghost use Rattle.std.specs.Prelude.{◌≡◌, IfErr, IfSome, IsOk, IsTrue};
ghost use Rattle.log4rs_rolling.specs.Costs.{Caused};
ghost use Rattle.log4rs_rolling.specs.Faults.{MayAnswer};
ghost use Rattle.log4rs_rolling.specs.Asking.{untold, is_told, asks_first, Asked, UnlessYes};
ghost use Rattle.log4rs_rolling.specs.Keeping.{foreign, HasFile, Limits, MadeRoll};
ghost use Rattle.log4rs_rolling.specs.AtOpening.{Readied, RollsAtOnce};
ghost use Rattle.log4rs_rolling.specs.Background.{Driven, Stepped};

use crate::log_file::LogFile;
use crate::roll::Roll;
use crate::store::Store;
use crate::trigger::{AnyTrigger, Trigger};
use log4rs_base::{Context, LogError};

/// Tells contracts what is kept of a log file. It has nothing of a trigger, so that the facts of a
/// type may be about a policy whose trigger is boxed.
pub trait Keep<S: Store> {
    ghost use Rattle.log4rs_rolling.specs.Keeping.{Keeping};

    /// The archives that it keeps, and their names. A policy of the caller may hide them.
    ghost keeping: { Self → Keeping } = { λ _. foreign };
}

/// Decides when to roll a log file, and rolls it.
pub trait Policy<S: Store>: Keep<S> {
    ghost use Rattle.std.specs.Prelude.{Option, Bool};
    ghost use Rattle.log4rs_base.specs.declared.record.Context.{Context};
    ghost use Rattle.log4rs_rolling.specs.Asking.{Asking};
    ghost use Rattle.log4rs_rolling.specs.PolicyResults.{Processed};
    ghost use Rattle.log4rs_rolling.specs.LogFile.{log_path, log_len, StaysKnown};

    /// When its trigger is called, and its decisions.
    ghost asking: { Self → Asking } = { λ _. untold };

    /// The policy after a decision of its trigger in a context, or after an error of the trigger.
    ghost notes: { Context → Self → Option Bool → Self → Type 0 } = { λ _ _ _ _. Unit {0} };

    /// The policy after steps of a rotation.
    ghost beside: { Self → Self → Type 0 } = { λ _ _. Unit {0} };

    /// Rolls a log file if the trigger fires: closes the file, and has the roller archive or remove
    /// it. Fails with the error of the trigger, which changes no file, or of the roller.
    fn process(
        &mut self,
        log: &mut LogFile,
        store: &mut S,
        context: &Context<'_>,
    ) -> Result<(), LogError>
        // If the trigger fires, a rotation follows, and else nothing.
        ensures asked { (answer : Option Bool)
            × Asked (asking self.old) (log_len log.old) context.now result answer
            × notes context.now self.old answer self.new
            × Processed (Self.keeping self.old) (Self.keeping self.new) answer
            (log_path log.old) result (S.disk store.old) (S.disk store.new) }
        ensures made { IsTrue (Self.keeping self.old).is_built_in
            → MadeRoll (Self.keeping self.old) result (S.disk store.old) (S.disk store.new) }
        ensures limits { Limits (Self.keeping self.old) (Self.keeping self.new)
            (log_path log.old) (S.disk store.old) (S.disk store.new) }
        ensures log { StaysKnown log.old log.new (S.disk store.old) (S.disk store.new) }
        ensures kind { (asking self.new).kind ≡ (asking self.old).kind }
        ensures fault { IsTrue (is_told (asking self.old).kind)
            → IsTrue (Self.keeping self.old).is_built_in
            → IfErr result (MayAnswer (S.disk store.old).refusals (S.disk store.new).refusals) }
        // Of built-in parts: `Store` only if the store denied an operation, or if the file that is
        // to be removed is absent.
        ensures cause { IsTrue (is_told (asking self.old).kind)
            → IsTrue (Self.keeping self.old).is_built_in
            → HasFile (Self.keeping self.old) (log_path log.old) (S.disk store.old)
            → Caused result (S.disk store.old) (S.disk store.new) };

    /// Returns whether the policy is called before a record is written, and not after it.
    fn is_pre_process(&self) -> bool
        ensures { IfSome (asks_first (asking self.now).kind) (λ first. result ≡ first) };

    /// Completes a rotation of this file that was left unfinished, before the file is opened. It
    /// drops at most the oldest archive. A built-in policy changes nothing if no rotation is left
    /// and no file waits; one that rolls at once does nothing. Fails if a move is refused.
    fn at_open(&mut self, file: &str, store: &mut S) -> Result<(), LogError>
        ensures ready { Readied (Self.keeping self.old) (Self.keeping self.new) file.now result
            (S.disk store.old) (S.disk store.new) }
        // A built-in policy that rolls at once, or keeps no archives, makes no operation.
        ensures idle { RollsAtOnce (Self.keeping self.old) file.now
            → (self.new ≡ self.old) × (store.new ≡ store.old) × IsOk result }
        ensures bare { IsTrue (Self.keeping self.old).is_built_in
            → IsTrue (Self.keeping self.old).removes
            → (self.new ≡ self.old) × (store.new ≡ store.old) × IsOk result }
        ensures beside { beside self.old self.new }
        ensures kind { (asking self.new).kind ≡ (asking self.old).kind };

    /// Makes one step of a rotation in the background, and returns whether more of it is left. A
    /// policy that rolls at once does nothing. Fails if the step is refused.
    fn step(&mut self, store: &mut S) -> Result<bool, LogError>
        ensures stepped { Stepped (Self.keeping self.old) (Self.keeping self.new) result
            (S.disk store.old) (S.disk store.new) }
        ensures beside { beside self.old self.new }
        ensures kind { (asking self.new).kind ≡ (asking self.old).kind };

    /// Completes a rotation in the background. A policy that rolls at once does nothing. Fails if a
    /// step is refused; the rest of the rotation is then left.
    fn drive(&mut self, store: &mut S) -> Result<(), LogError>
        ensures driven { Driven (Self.keeping self.old) (Self.keeping self.new) result
            (S.disk store.old) (S.disk store.new) }
        ensures beside { beside self.old self.new }
        ensures kind { (asking self.new).kind ≡ (asking self.old).kind };
}

/// Rolls a file with a roller when a trigger fires.
#[derive(Debug, Drop)]
pub struct CompoundPolicyOf<T, R> {
    /// Decides when the file is rolled.
    pub trigger: T,
    /// Archives or removes the file.
    pub roller: R,
}

/// Rolls a file with a roller when a trigger of this crate or a boxed one of the caller's fires.
pub type CompoundPolicy<R> = CompoundPolicyOf<AnyTrigger, R>;

impl<T, R> CompoundPolicyOf<T, R> {
    /// Creates the policy of a trigger and a roller.
    pub fn new(trigger: T, roller: R) -> Self
        ensures trigger { result.trigger ≡ trigger }
        ensures roller { result.roller ≡ roller }
    {
        CompoundPolicyOf { trigger, roller }
    }
}

impl<S: Store, T, R: Roll<S>> Keep<S> for CompoundPolicyOf<T, R> {
    ghost keeping = { λ policy. R.keeping policy.roller };
}

impl<S: Store, T: Trigger, R: Roll<S>> Policy<S> for CompoundPolicyOf<T, R> {
    ghost asking = { λ policy. T.asking policy.trigger };

    // The roller changes only if the trigger fires.
    ghost notes = { λ c before answer now. T.notes c before.trigger answer now.trigger
        × UnlessYes answer (now.roller ≡ before.roller) };

    // The trigger is unchanged.
    ghost beside = { λ before now. now.trigger ≡ before.trigger };

    fn process(
        &mut self,
        log: &mut LogFile,
        store: &mut S,
        context: &Context<'_>,
    ) -> Result<(), LogError> {
        if !self.trigger.trigger(log, context)? {
            return Ok(());
        }
        log.roll(store);
        self.roller.roll(log.path(), store)
    }

    fn is_pre_process(&self) -> bool {
        self.trigger.is_pre_process()
    }

    fn at_open(&mut self, file: &str, store: &mut S) -> Result<(), LogError> {
        self.roller.at_open(file, store)
    }

    fn step(&mut self, store: &mut S) -> Result<bool, LogError> {
        self.roller.step(store)
    }

    fn drive(&mut self, store: &mut S) -> Result<(), LogError> {
        self.roller.drive(store)
    }
}
