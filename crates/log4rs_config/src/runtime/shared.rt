//! Appenders that configurations share.

ghost use Rattle.std.specs.Prelude.{◌≡◌, ◌∷◌, [], IfOk, None, OnErr, OnOk, map, string_bytes};
ghost use Rattle.log4rs_config.specs.Builder.{appenders_of};
ghost use Rattle.log4rs_config.specs.Appender.{name_of, appender_of};
ghost use Rattle.log4rs_append.specs.Locks.{AreShares, began_as};
ghost use Rattle.log4rs_config.specs.Holder.{History, Happened, HasReread, presents, answers_retired, retires, resumes, swaps};

use crate::runtime::appender::Filtered;
use crate::runtime::config::ConfigOf;
use crate::runtime::error::ConfigErrors;
use log4rs_append::{Append, Locked};
use log4rs_base::filter::Filter;
use log4rs_base::{FaultList, LogError, OutOfMemory};
use log4rs_rolling::StoreMaker;
use std::alloc::Global;

/// An appender of a configuration by its name and its lock, which another configuration may share.
#[derive(Drop)]
pub struct SharedAppender<A> {
    /// The name.
    pub name: String,
    /// The appender behind its lock.
    pub lock: Locked<A>,
}

/// Holds a configuration whose appenders another one may share. It calls `enter` of each one before
/// it puts it in force, and `leave` of the previous one after that. An appender that is in none in
/// force is retired, so one that is not retired may be kept.
pub trait SharesAppenders<A> {
    /// What it was asked and did, in order, if contracts see that.
    ghost history: { Self → History A } = { λ _. None };

    /// Returns the appenders of the present configuration, in order. Fails if an allocation fails.
    fn shared_appenders(&mut self) -> Result<Vec<SharedAppender<A>>, OutOfMemory>
        ensures ok { IfOk result (λ present. Happened (history self.old) (history self.new)
            (presents present.items ∷ [])) }
        ensures err { OnErr result (history self.new ≡ history self.old) };

    /// Returns whether the appender behind a lock is retired. Waits for nobody.
    fn is_retired(&mut self, lock: &Locked<A>) -> bool
        ensures { Happened (history self.old) (history self.new)
            (answers_retired lock.now result ∷ []) };

    /// Retires the appender behind a lock, for which it may wait, also if it is in force. The
    /// appender is retired even if this fails; it can then be tried again. `maker` makes the stores
    /// of what takes its place: contracts see how many it has made by then.
    fn retire<M: StoreMaker>(&mut self, lock: &Locked<A>, maker: &M) -> Result<(), LogError>
        ensures { Happened (history self.old) (history self.new)
            (retires lock.now (M.stores maker.now) ∷ []) };

    /// Resumes the appender behind a lock, for which it may wait, if it is in force. If this fails,
    /// the appender stays retired.
    fn resume(&mut self, lock: &Locked<A>) -> Result<(), LogError>
        ensures { Happened (history self.old) (history self.new) (resumes lock.now ∷ []) };
}

/// Such a holder, whose configuration another one with filters `F` may replace.
pub trait HoldsConfig<A, F, E>: SharesAppenders<A> {
    /// Puts a configuration in place of the present one, and reports the faults of its parts. Fails
    /// if an allocation fails; the present one then stays.
    fn replace(
        &mut self,
        config: ConfigOf<Locked<A>, F>,
        appender_errors: E,
        config_errors: ConfigErrors,
    ) -> Result<(), OutOfMemory>
        ensures ok { OnOk result (Happened (Self.history self.old) (Self.history self.new)
            (swaps ∷ [])) }
        ensures err { OnErr result (Self.history self.new ≡ Self.history self.old) };
}

/// Reads a configuration again whose appenders are `A` with filters `F`, and has the holder of the
/// present one swap what changed.
pub trait Rereads<A, F> {
    ghost use Rattle.std.specs.Prelude.{ℕ, List, Option};
    ghost use Rattle.log4rs_config.specs.declared.runtime.shared.SharedAppender.{SharedAppender as SharedData};

    /// The appenders that left before and have work undone.
    ghost left: { Self → List (SharedData A) } = { λ _. [] };

    /// How many stores its maker has made, if contracts see that.
    ghost stores: { Self → Option ℕ } = { λ _. None };

    /// The faults of appenders.
    type Faults: FaultList + Send + Drop + 'static;

    /// Notes what is in force, before the first reading. Fails if an allocation fails.
    fn begin<H: SharesAppenders<A>>(&mut self, holder: &mut H) -> Result<(), OutOfMemory>;

    /// Returns the milliseconds until the next reading, or `None` if there is none.
    fn rate(&self) -> Option<u64>;

    /// Tries again what left with work undone, reads once, and hands over a changed configuration.
    /// Reports each fault. If it hands none over, the present one stays in force: each appender that
    /// was retired for another one was resumed after that.
    fn reread<H: HoldsConfig<A, F, Self::Faults>>(&mut self, holder: &mut H)
        ensures { HasReread (left self.old) (stores self.old) (H.history holder.old)
            (H.history holder.new) };

    /// Does what is left when no further reading follows. Reports each fault.
    fn end<H: SharesAppenders<A>>(&mut self, holder: &mut H);
}

/// Returns an appender by its name and a share of its lock.
fn shared<A, F>(
    alloc: Global,
    appender: &Filtered<Locked<A>, F>,
) -> Result<SharedAppender<A>, OutOfMemory>
    ensures name { IfOk result (λ shared. string_bytes shared.name ≡ name_of appender.now) }
    ensures lock { IfOk result (λ shared. AreShares (appender_of appender.now) shared.lock) }
{
    Ok(SharedAppender {
        name: String::from_str(alloc, appender.name())?,
        lock: appender.appender().share()?,
    })
}

/// Returns appenders, in order, each with a share of its lock. Fails if an allocation fails.
pub fn shared_all<A, F>(
    alloc: Global,
    appenders: &[Filtered<Locked<A>, F>],
) -> Result<Vec<SharedAppender<A>>, OutOfMemory>
where
    A: Append + Drop,
    F: Filter + Drop,
    ensures names { IfOk result (λ made. map (λ shared. string_bytes shared.name) made.items
        ≡ map (λ a. name_of a) appenders.now) }
    ensures locks { IfOk result (λ made. map (λ shared. began_as shared.lock) made.items
        ≡ map (λ a. began_as (appender_of a)) appenders.now) }
{
    let mut made = Vec::new(alloc);
    for appender in appenders {
        made.push(shared(alloc, appender)?)?;
    }
    Ok(made)
}

/// Counts appenders as those of a configuration in force, at each lock. Waits for nobody.
pub fn enter_all<A: Append, F>(appenders: &[Filtered<Locked<A>, F>]) {
    for appender in appenders {
        appender.appender().enter();
    }
}

/// Counts them as those of one in force no longer, once for each `enter_all`. Waits for nobody.
pub fn leave_all<A: Append, F>(appenders: &[Filtered<Locked<A>, F>]) {
    for appender in appenders {
        appender.appender().leave();
    }
}

/// Returns whether an appender is in no configuration in force, and not retired yet. Waits for
/// nobody.
pub fn has_unretired<A: Append, F>(appenders: &[Filtered<Locked<A>, F>]) -> bool {
    appenders
        .iter()
        .any(|appender| appender.appender().is_unretired())
}

impl<A: Append + Drop, F: Filter + Drop> ConfigOf<Locked<A>, F> {
    /// Returns the appenders, in order, each with a share of its lock. Fails if an allocation
    /// fails.
    pub fn shared_appenders(&self, alloc: Global) -> Result<Vec<SharedAppender<A>>, OutOfMemory>
        ensures names { IfOk result (λ made. map (λ shared. string_bytes shared.name) made.items
            ≡ map (λ a. name_of a) (appenders_of self.now)) }
        ensures locks { IfOk result (λ made. map (λ shared. began_as shared.lock) made.items
            ≡ map (λ a. began_as (appender_of a)) (appenders_of self.now)) }
    {
        shared_all(alloc, self.appenders())
    }

    /// Counts the configuration as one in force, at each of its locks. Waits for nobody.
    pub fn enter(&self) {
        enter_all(self.appenders());
    }

    /// Counts it as one in force no longer, once for each `enter`. Waits for nobody.
    pub fn leave(&self) {
        leave_all(self.appenders());
    }
}
