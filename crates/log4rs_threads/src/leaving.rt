//! Configurations that left a logger and whose appenders are not all retired.

use crate::current::CurrentOf;
use log4rs_append::{Append, Locked, Steps};
use log4rs_base::filter::Filter;
use log4rs_base::print::{AppenderFault, print_fault};
use log4rs_base::{LogError, OutOfMemory};
use log4rs_config::runtime::appender::Filtered;
use log4rs_config::runtime::shared::has_unretired;
use std::alloc::Global;
use std::sync::{Arc, Mutex, Wait};

/// Configurations that were in force and may have appenders to retire. One stays in the list until
/// all of its appenders are retired or in force again, so nobody who looks through the list misses
/// one that another thread is just retiring.
#[derive(Drop)]
pub(crate) struct LeavingOf<A, F, H> {
    configs: Mutex<Vec<Arc<CurrentOf<A, F, H>>>>,
}

impl<A: Drop, F: Drop, H: Drop> LeavingOf<A, F, H> {
    /// Returns an empty list.
    pub(crate) fn new(alloc: Global) -> LeavingOf<A, F, H> {
        LeavingOf {
            configs: Mutex::new(Vec::new(alloc)),
        }
    }

    /// Makes room for one more.
    pub(crate) fn reserve<W: Wait>(&self, rt: &W) -> Result<(), OutOfMemory> {
        self.configs.lock(rt).reserve(1)?;
        Ok(())
    }

    /// Notes that a configuration left.
    pub(crate) fn add<W: Wait>(
        &self,
        rt: &W,
        config: Arc<CurrentOf<A, F, H>>,
    ) -> Result<(), OutOfMemory> {
        self.configs.lock(rt).push(config)?;
        Ok(())
    }

    /// Returns the number of configurations.
    fn len<W: Wait>(&self, rt: &W) -> usize {
        self.configs.lock(rt).len()
    }

    /// Returns the configuration at an index, if there is one.
    fn get<W: Wait>(&self, rt: &W, at: usize) -> Option<Arc<CurrentOf<A, F, H>>> {
        Arc::try_clone(self.configs.lock(rt).get(at)?).ok()
    }
}

impl<A: Append + Drop, F: Filter + Drop, H: Drop> LeavingOf<A, F, H> {
    /// Takes out the configuration at an index, if there is one that has nothing left to retire.
    fn take_settled<W: Wait>(&self, rt: &W, at: usize) -> Option<Arc<CurrentOf<A, F, H>>> {
        let mut configs = self.configs.lock(rt);
        if has_unretired(configs.get(at)?.appenders()) {
            return None;
        }
        Some(configs.swap_remove(at))
    }

    /// Takes out the configurations that have nothing left to retire, and drops each without a
    /// lock.
    fn tidy<W: Wait>(&self, rt: &W) {
        for at in (0..self.len(rt)).rev() {
            self.take_settled(rt, at);
        }
    }
}

/// Reports why an appender that left has unfinished work.
fn tell<W: Eprint>(rt: &W, name: &str, fault: &LogError) {
    print_fault(rt, &AppenderFault { name, fault });
}

/// Retires each appender of a configuration that left and that no call holds, and reports each
/// fault.
fn retire_free<A: Steps, F: Filter, W: Eprint>(rt: &W, left: &[Filtered<Locked<A>, F>]) {
    for appender in left {
        let lock = appender.appender();
        if lock.is_unretired() {
            if let Some(Err(fault)) = lock.settle_free() {
                tell(rt, appender.name(), &fault);
            }
        }
    }
}

/// Retires each appender of a configuration that left, under its lock, for which it may wait, and
/// reports each fault. Returns the number of faults.
fn retire_all<A: Steps, F: Filter, W: Wait + Eprint>(
    rt: &W,
    left: &[Filtered<Locked<A>, F>],
) -> usize {
    let mut refused: usize = 0;
    for appender in left {
        let lock = appender.appender();
        if lock.is_unretired() {
            if let Err(fault) = lock.settle_shared(rt) {
                tell(rt, appender.name(), &fault);
                refused = refused.saturating_add(1);
            }
        }
    }
    refused
}

/// Resumes each appender that is retired, or may be soon, of a configuration that is in force, under
/// its lock, for which it may wait, and reports each fault.
pub(crate) fn resume_all<A: Steps, F: Filter, H, W: Wait + Eprint>(
    rt: &W,
    current: &CurrentOf<A, F, H>,
) {
    for appender in current.appenders() {
        let lock = appender.appender();
        if lock.is_unresumed() {
            if let Err(fault) = lock.settle_shared(rt) {
                tell(rt, appender.name(), &fault);
            }
        }
    }
}

impl<A: Steps + Drop, F: Filter + Drop, H: Drop> LeavingOf<A, F, H> {
    /// Retires the appenders that no call holds and reports each fault by name. The others are left
    /// for the next time. Goes from the last configuration to the first, so that none is passed
    /// over if another thread takes one out.
    pub(crate) fn retire_free<W: Wait + Eprint>(&self, rt: &W) {
        for at in (0..self.len(rt)).rev() {
            if let Some(left) = self.get(rt, at) {
                retire_free(rt, left.appenders());
            }
        }
        self.tidy(rt);
    }

    /// Retires all appenders, each under its lock, for which it may wait, and reports each fault by
    /// name. Returns the number of faults.
    pub(crate) fn retire_all<W: Wait + Eprint>(&self, rt: &W) -> usize {
        let mut refused: usize = 0;
        for at in (0..self.len(rt)).rev() {
            if let Some(left) = self.get(rt, at) {
                refused = refused.saturating_add(retire_all(rt, left.appenders()));
            }
        }
        self.tidy(rt);
        refused
    }
}
