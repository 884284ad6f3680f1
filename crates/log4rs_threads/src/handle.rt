//! Handles that swap a logger's configuration.

ghost use Rattle.std.specs.Prelude.{◌≡◌, ◌∷◌, [], OnErr, OnOk};
ghost use Rattle.log4rs_config.specs.Holder.{Happened, swaps};

use crate::current::CurrentOf;
use crate::leaving::{LeavingOf, resume_all};
use crate::present::PresentOf;
use crate::report::Handler;
use log::LevelFilter;
use log4rs_append::{AnyAppender, Append, Locked, Steps};
use log4rs_base::filter::{AnyFilter, Filter};
use log4rs_base::print::print_fault;
use log4rs_base::{FaultList, LogError, OutOfMemory, SwapConfig};
use log4rs_config::runtime::config::ConfigOf;
use log4rs_config::runtime::{
    BuildError, ConfigErrors, HoldsConfig, SharedAppender, SharesAppenders,
};
use log4rs_rolling::StoreMaker;
use std::alloc::{AllocError, Global};
use std::sync::{Arc, Wait};

/// Swaps a logger's configuration, with handler `H` and runtime `W`.
#[derive(Drop)]
pub struct HandleOf<A, F, H, W> {
    pub(crate) rt: W,
    pub(crate) alloc: Global,
    pub(crate) current: Arc<PresentOf<A, F, H>>,
    pub(crate) leaving: Arc<LeavingOf<A, F, H>>,
}

/// Swaps a logger's configuration over stores `S`.
pub type Handle<S, W> = HandleOf<AnyAppender<S>, AnyFilter, Handler, W>;

impl<A: Drop, F: Drop, H: Drop, W: Clone + Drop> Clone for HandleOf<A, F, H, W> {
    /// Returns another handle of the same logger.
    fn clone(&self) -> Result<HandleOf<A, F, H, W>, AllocError> {
        Ok(HandleOf {
            rt: self.rt.clone()?,
            alloc: self.alloc,
            current: Arc::try_clone(&self.current)?,
            leaving: Arc::try_clone(&self.leaving)?,
        })
    }
}

impl<A: Append + Drop, F: Filter + Drop, H: Drop, W: Wait> HandleOf<A, F, H, W> {
    /// Returns the greatest of all levels of the current configuration.
    pub fn max_log_level(&self) -> LevelFilter {
        self.current.read(&self.rt, 0).lists().max_log_level()
    }

    /// Sets the level of the logger of this name in the current configuration; appenders, filters
    /// and handler stay. If there is no such logger, adds one that is additive and has no appenders
    /// of its own, so that the level holds for all targets below the name. Fails if no logger may
    /// have the name or an allocation fails; then nothing changes. The level is lost at the next
    /// `set_config` and when the configuration is read again. Threads that log go by the previous
    /// levels until the routes are computed; other changes wait.
    pub fn set_level(&self, name: &str, level: LevelFilter) -> Result<(), BuildError> {
        let turn = self.current.turn(&self.rt);
        let current = self.current.load(&self.rt, 0)?;
        let next = Arc::new(self.alloc, current.with_level(name, level)?)?;
        self.current.swap(&self.rt, &turn, next)?;
        Ok(())
    }

    /// Sets the root's level in the same way.
    pub fn set_root_level(&self, level: LevelFilter) -> Result<(), BuildError> {
        let turn = self.current.turn(&self.rt);
        let current = self.current.load(&self.rt, 0)?;
        let next = Arc::new(self.alloc, current.with_root_level(level)?)?;
        self.current.swap(&self.rt, &turn, next)?;
        Ok(())
    }
}

impl<A: Append + Drop, F: Filter + Drop, H: Drop, W: Wait + Eprint> HandleOf<A, F, H, W> {
    /// Replaces the current configuration, and notes that the previous one left. If an allocation
    /// fails, nothing changes.
    fn set_current(&self, next: Arc<CurrentOf<A, F, H>>) -> Result<(), OutOfMemory> {
        let turn = self.current.turn(&self.rt);
        self.leaving.reserve(&self.rt)?;
        let old = self.current.swap(&self.rt, &turn, next)?;
        if self.leaving.add(&self.rt, old).is_err() {
            print_fault(&self.rt, &OutOfMemory);
        }
        Ok(())
    }
}

impl<A: Steps + Drop, F: Filter + Drop, H: Drop, W: Wait + Eprint> HandleOf<A, F, H, W> {
    /// Replaces the current configuration; faults of the new one are printed to standard error. A
    /// record is delivered wholly by the old or by the new one. Then retires the old appenders:
    /// finishes what is left of their work; a caller that has loaded the old configuration still
    /// has its records written. An appender in use by a call is not waited for: `step_all`, the
    /// next swap or `drive_all` retires it. Reports each fault of this with the appender's name. If
    /// an allocation fails, the old configuration stays.
    pub fn set_config(&self, config: ConfigOf<A, F>) -> Result<(), OutOfMemory> {
        let next = Arc::new(self.alloc, CurrentOf::new(self.alloc, config, None)?)?;
        self.set_current(next)?;
        self.leaving.retire_free(&self.rt);
        Ok(())
    }

    /// Replaces the current configuration, as `set_config` does, by one whose appenders stand
    /// behind locks already. It may share them with the current one: an appender that both have is
    /// not retired, and one of them that is retired is resumed under its lock, for which this may
    /// wait.
    pub fn set_locked(&self, config: ConfigOf<Locked<A>, F>) -> Result<(), OutOfMemory> {
        let next = Arc::new(self.alloc, CurrentOf::of_locked(self.alloc, config, None)?)?;
        self.set_current(Arc::try_clone(&next)?)?;
        self.leaving.retire_free(&self.rt);
        resume_all(&self.rt, &*next);
        Ok(())
    }
}

impl<A, F, H, W> SharesAppenders<A> for HandleOf<A, F, H, W>
where
    A: Steps + Drop,
    F: Filter + Drop,
    H: Drop,
    W: Wait,
{
    fn shared_appenders(&mut self) -> Result<Vec<SharedAppender<A>>, OutOfMemory> {
        self.current.read(&self.rt, 0).shared_appenders()
    }

    fn is_retired(&mut self, lock: &Locked<A>) -> bool {
        lock.is_retired()
    }

    fn retire<M: StoreMaker>(&mut self, lock: &Locked<A>, _: &M) -> Result<(), LogError> {
        lock.retire_shared(&self.rt)
    }

    fn resume(&mut self, lock: &Locked<A>) -> Result<(), LogError> {
        lock.settle_shared(&self.rt)
    }
}

/// Prints the faults to standard error, each as `log4rs: ` and its text, and swaps.
impl<A, F, H, W, E> SwapConfig<ConfigOf<A, F>, E, ConfigErrors> for HandleOf<A, F, H, W>
where
    A: Steps + Drop,
    F: Filter + Drop,
    H: Drop,
    W: Wait + Eprint,
    E: FaultList + Drop,
{
    fn swap_config(
        &self,
        config: ConfigOf<A, F>,
        appender_errors: E,
        config_errors: ConfigErrors,
    ) -> Result<(), OutOfMemory> {
        let mut appender_errors = appender_errors;
        let mut config_errors = config_errors;
        appender_errors.handle(&self.rt);
        config_errors.handle(&self.rt);
        self.set_config(config)
    }
}

/// Prints the faults to standard error, each as `log4rs: ` and its text, and swaps.
impl<A, F, H, W, E> HoldsConfig<A, F, E> for HandleOf<A, F, H, W>
where
    A: Steps + Drop,
    F: Filter + Drop,
    H: Drop,
    W: Wait + Eprint,
    E: FaultList + Drop,
{
    fn replace(
        &mut self,
        config: ConfigOf<Locked<A>, F>,
        appender_errors: E,
        config_errors: ConfigErrors,
    ) -> Result<(), OutOfMemory>
        ensures ok { let seen = ⟦<Self as SharesAppenders<A>>⟧ in OnOk result
            (Happened (seen.history self.old) (seen.history self.new) (swaps ∷ [])) }
        ensures err { let seen = ⟦<Self as SharesAppenders<A>>⟧ in OnErr result
            (seen.history self.new ≡ seen.history self.old) }
    {
        let mut appender_errors = appender_errors;
        let mut config_errors = config_errors;
        appender_errors.handle(&self.rt);
        config_errors.handle(&self.rt);
        self.set_locked(config)
    }
}
