//! The loggers behind a facade.

ghost use Rattle.std.specs.Prelude.{◌≡◌, IfSome};
ghost use Rattle.std.specs.Arc.{arc_value};

use log::Level;
use log4rs_append::Append;
use log4rs_base::filter::Filter;
use log4rs_base::{Context, LogError, Record};
use log4rs_config::runtime::Configured;
use log4rs_journal::SharedJournal;
use log4rs_threads::{Draft, Fill, LoadedOf, LoggerOf, ReportFault};
use std::alloc::Allocator;
use std::sync::{Arc, Wait};

/// A logger that takes records by a shared reference. It handles its own faults.
pub trait Backend {
    ghost use Rattle.std.specs.Prelude.{ℕ, Bool, List, Option, None};
    ghost use Rattle.log.specs.declared.level.Level.{Level as LevelData};

    /// The result of `enabled` for a level and a target, or `None` if contracts do not see it.
    ghost enables: { Self → LevelData → List ℕ → Option Bool } = { λ _ _ _. None };

    /// Returns whether a record of this level and target is logged.
    fn enabled(&self, level: Level, target: &str) -> bool
        ensures { IfSome (enables self.now level target.now) (λ takes. result ≡ takes) };

    /// Logs a record, or drops it.
    fn accept(&self, logged: &Record, context: &Context<'_>);

    /// Logs a record whose entry it makes, in the place of the draft's, if the record's level and
    /// target are enabled.
    fn accept_event<E: Fill>(&self, draft: &mut Draft<'_>, event: &E) {
        if !self.enabled(event.level(), event.target()) {
            return;
        }
        let entry = &mut draft.entry;
        match event.fill(entry) {
            Ok(()) => self.accept(&entry.logged, &entry.context),
            Err(_) => self.report(&LogError::Memory),
        }
    }

    /// Receives the fault of a record that could not be made.
    fn report(&self, fault: &LogError);

    /// Flushes buffered output.
    fn flush(&self);
}

impl<B: Backend> Backend for &B {
    ghost enables = { λ b. B.enables b.now };

    fn enabled(&self, level: Level, target: &str) -> bool {
        (**self).enabled(level, target)
    }

    fn accept(&self, logged: &Record, context: &Context<'_>) {
        (**self).accept(logged, context);
    }

    fn accept_event<E: Fill>(&self, draft: &mut Draft<'_>, event: &E) {
        (**self).accept_event(draft, event);
    }

    fn report(&self, fault: &LogError) {
        (**self).report(fault);
    }

    fn flush(&self) {
        (**self).flush();
    }
}

impl<B: Backend, A: Allocator> Backend for Arc<B, A> {
    ghost enables = { λ b. B.enables (arc_value b) };

    fn enabled(&self, level: Level, target: &str) -> bool {
        (**self).enabled(level, target)
    }

    fn accept(&self, logged: &Record, context: &Context<'_>) {
        (**self).accept(logged, context);
    }

    fn accept_event<E: Fill>(&self, draft: &mut Draft<'_>, event: &E) {
        (**self).accept_event(draft, event);
    }

    fn report(&self, fault: &LogError) {
        (**self).report(fault);
    }

    fn flush(&self) {
        (**self).flush();
    }
}

/// A logger that threads share. Contracts do not see which records it logs, since its configuration
/// may be swapped at any time.
impl<A: Append + Drop, F: Filter + Drop, H: ReportFault + Drop, W> Backend for LoggerOf<A, F, H, W>
where
    W: Wait + Eprint + Clone + Drop,
{
    fn enabled(&self, level: Level, target: &str) -> bool {
        LoggerOf::enabled(self, level, target)
    }

    fn accept(&self, logged: &Record, context: &Context<'_>) {
        LoggerOf::log(self, logged, context);
    }

    fn accept_event<E: Fill>(&self, draft: &mut Draft<'_>, event: &E) {
        LoggerOf::log_event(self, draft, event);
    }

    fn report(&self, fault: &LogError) {
        LoggerOf::report(self, fault);
    }

    fn flush(&self) {
        LoggerOf::flush(self);
    }
}

/// One whole configuration, whose contract says which records it logs.
impl<A: Append, F: Filter, H: ReportFault, W: Wait + Eprint> Backend for LoadedOf<A, F, H, W> {
    ghost use Rattle.std.specs.Prelude.{Some};
    ghost use Rattle.log.specs.Level.{allows};
    ghost use Rattle.log4rs_config.specs.Name.{path_of};
    ghost use Rattle.log4rs_config.specs.Routing.{level_at};

    ghost enables = { λ l level target. Some (allows
        (level_at (⟦<LoadedOf<A, F, H, W> as Configured>⟧.settings l) (path_of target)) level) };

    fn enabled(&self, level: Level, target: &str) -> bool {
        LoadedOf::enabled(self, level, target)
    }

    fn accept(&self, logged: &Record, context: &Context<'_>) {
        LoadedOf::log(self, logged, context);
    }

    fn accept_event<E: Fill>(&self, draft: &mut Draft<'_>, event: &E) {
        LoadedOf::log_event(self, draft, event);
    }

    fn report(&self, fault: &LogError) {
        LoadedOf::report(self, fault);
    }

    fn flush(&self) {
        LoadedOf::flush(self);
    }
}

/// A journal takes each record, whatever its level and target, and drops what it has no memory for.
impl<R: Wait> Backend for SharedJournal<R> {
    ghost use Rattle.std.specs.Prelude.{Some, true};

    ghost enables = { λ _ _ _. Some true };

    fn enabled(&self, _: Level, _: &str) -> bool {
        true
    }

    fn accept(&self, logged: &Record, context: &Context<'_>) {
        let _ = self.append(logged, context);
    }

    fn report(&self, _: &LogError) {}

    fn flush(&self) {}
}
