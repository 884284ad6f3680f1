//! The configuration behind a logger's locks: appenders and filters as built, and the root and the
//! loggers in force.

ghost use Rattle.std.specs.Prelude.{◌≡◌, IfErr, IfOk, length, map, string_bytes};
ghost use Rattle.std.specs.Prelude.{[], ◌∷◌, if◌then◌else◌, slice_get};
ghost use Rattle.std.specs.Option.{unwrap_or};
ghost use Rattle.std.specs.Arc.{arc_value};
ghost use Rattle.log4rs_config.specs.Appender.{appender_of, name_of};
ghost use Rattle.log4rs_config.specs.Faults.{InvalidLogger, faults};
ghost use Rattle.log4rs_config.specs.Levels.{with_level};
ghost use Rattle.log4rs_config.specs.Name.{is_valid};
ghost use Rattle.log4rs_config.specs.Refusal.{IsRefusal};
ghost use Rattle.log4rs_config.specs.Settings.{settings_of, with_root_level};
ghost use Rattle.log4rs_config.specs.declared.runtime.error.BuildError.TheVariants.{Memory};

use crate::report::Reporter;
use log::LevelFilter;
use log4rs_append::{Append, Locked};
use log4rs_base::OutOfMemory;
use log4rs_base::filter::Filter;
use log4rs_config::RoutedLists;
use log4rs_config::laws::levels_have_no_faults;
use log4rs_config::runtime::appender::Filtered;
use log4rs_config::runtime::config::ConfigOf;
use log4rs_config::runtime::levels::{copies, with_level_at};
use log4rs_config::runtime::shared::shared_all;
use log4rs_config::runtime::{BuildError, Configured, Logger, Root, SharedAppender};
use std::alloc::Global;
use std::sync::Arc;

/// Appenders as they were built, each behind a lock, and the handler that is told of their faults.
#[derive(Drop)]
pub struct HeldOf<A, F, H> {
    appenders: Vec<Filtered<Locked<A>, F>>,
    pub(crate) reporter: Reporter<H>,
}

/// A configuration that threads share, with handler `H`: its appenders and filters, and the root
/// and loggers in force, whose levels may differ from those it was built with.
#[derive(Drop)]
pub struct CurrentOf<A, F, H> {
    alloc: Global,
    pub(crate) held: Arc<HeldOf<A, F, H>>,
    lists: RoutedLists,
    ghost named: { map (λ a. name_of a) (arc_value held).appenders.items ≡ lists.appenders },
}

impl<A: Append, F: Filter, H> Configured for CurrentOf<A, F, H> {
    ghost use Rattle.std.specs.Prelude.{[]};
    ghost use Rattle.std.specs.Arc.{arc_value};
    ghost use Rattle.log4rs_config.specs.Builder.{admits_of};

    ghost settings = { λ c. c.lists };

    ghost admits = { λ c. admits_of F.answer (arc_value c.held).appenders.items };

    ghost sinks = { λ _. [] };
}

impl<A: Append + Drop, F: Filter + Drop, H: Drop> CurrentOf<A, F, H> {
    ghost use Rattle.log4rs_append.specs.Locks.{began_as};
    ghost use Rattle.log4rs_config.specs.Builder.{appenders_of};
    ghost use Rattle.log4rs_threads.specs.Behind.{held_appenders};

    /// Puts a lock around each appender of a configuration.
    pub fn new(
        alloc: Global,
        config: ConfigOf<A, F>,
        handler: Option<H>,
    ) -> Result<CurrentOf<A, F, H>, OutOfMemory>
        ensures settings { IfOk result (λ current. ⟦<Self as Configured>⟧.settings current
            ≡ ⟦<ConfigOf<A, F> as Configured>⟧.settings config) }
        ensures admits { IfOk result (λ current. (r : _)
            → ⟦<Self as Configured>⟧.admits current r
            ≡ ⟦<ConfigOf<A, F> as Configured>⟧.admits config r) }
        ensures locks { IfOk result (λ current. map (λ a. began_as (appender_of a))
            (held_appenders current) ≡ map (λ a. appender_of a) (appenders_of config)) }
    {
        let locked = config.locked(alloc)?;
        Ok(CurrentOf::of_locked(alloc, locked, handler)?)
    }

    /// Takes over a configuration whose appenders stand behind locks already.
    pub fn of_locked(
        alloc: Global,
        config: ConfigOf<Locked<A>, F>,
        handler: Option<H>,
    ) -> Result<CurrentOf<A, F, H>, OutOfMemory>
        ensures settings { IfOk result (λ current. ⟦<Self as Configured>⟧.settings current
            ≡ ⟦<ConfigOf<Locked<A>, F> as Configured>⟧.settings config) }
        ensures admits { IfOk result (λ current. (r : _)
            → ⟦<Self as Configured>⟧.admits current r
            ≡ ⟦<ConfigOf<Locked<A>, F> as Configured>⟧.admits config r) }
        ensures appenders { IfOk result (λ current. held_appenders current
            ≡ appenders_of config) }
    {
        let reporter = Reporter::new(alloc, handler, config.appenders().len())?;
        let (appenders, lists) = config.into_lists();
        let held = HeldOf {
            appenders,
            reporter,
        };
        Ok(CurrentOf {
            alloc,
            held: Arc::new(alloc, held)?,
            lists,
        })
    }
}

impl<A: Append + Drop, F: Filter + Drop, H> CurrentOf<A, F, H> {
    ghost use Rattle.log4rs_append.specs.Locks.{began_as};
    ghost use Rattle.log4rs_threads.specs.Behind.{held_appenders};

    /// Returns the appenders, in order, each sharing its lock.
    pub fn shared_appenders(&self) -> Result<Vec<SharedAppender<A>>, OutOfMemory>
        ensures names { IfOk result (λ made. map (λ shared. string_bytes shared.name) made.items
            ≡ (⟦<Self as Configured>⟧.settings self.now).appenders) }
        ensures locks { IfOk result (λ made. map (λ shared. began_as shared.lock) made.items
            ≡ map (λ a. began_as (appender_of a)) (held_appenders self.now)) }
    {
        shared_all(self.alloc, self.appenders())
    }
}

impl<A: Append, F: Filter, H> CurrentOf<A, F, H> {
    ghost use Rattle.log4rs_threads.specs.Behind.{held_appenders, held_by};

    /// Returns the appenders behind their locks, each at its place.
    pub(crate) fn appenders(&self) -> &[Filtered<Locked<A>, F>]
        ensures appenders { result.now ≡ held_appenders self.now }
        ensures names { map (λ a. name_of a) result.now
            ≡ (⟦<Self as Configured>⟧.settings self.now).appenders }
        ensures as_many { length result.now
            ≡ length (⟦<Self as Configured>⟧.settings self.now).appenders }
    {
        self.held.appenders.as_slice()
    }

    /// Returns the root and the loggers in force, with their routes.
    pub fn lists(&self) -> &RoutedLists
        ensures { result.now ≡ ⟦<Self as Configured>⟧.settings self.now }
    {
        &self.lists
    }

    /// Returns the number of appenders.
    pub fn size(&self) -> usize
        ensures { result ≡ length (⟦<Self as Configured>⟧.settings self.now).appenders }
    {
        self.appenders().len()
    }

    /// Returns the name of the appender at an index, or the empty text if there is none.
    pub fn appender_name(&self, at: usize) -> &str
        ensures { result.now
            ≡ unwrap_or (slice_get (⟦<Self as Configured>⟧.settings self.now).appenders at) [] }
    {
        match self.appenders().get(at) {
            Some(appender) => appender.name(),
            None => "",
        }
    }

    /// Returns the same appenders, filters and handler under another root and other loggers.
    fn with_lists(&self, root: Root, loggers: Vec<Logger>) -> Result<CurrentOf<A, F, H>, BuildError>
        ensures settings { IfOk result (λ next. ⟦<Self as Configured>⟧.settings next ≡ settings_of
            (⟦<Self as Configured>⟧.settings self.now).appenders root loggers.items) }
        ensures held { IfOk result (λ next. held_by next ≡ held_by self.now) }
        ensures refused { IfErr result (λ error. IsRefusal (faults (settings_of
            (⟦<Self as Configured>⟧.settings self.now).appenders root loggers.items)) error) }
    {
        let lists = RoutedLists::new(self.alloc, self.lists.names(), root, loggers)?;
        Ok(CurrentOf {
            alloc: self.alloc,
            held: Arc::try_clone(&self.held)?,
            lists,
        })
    }

    /// Returns the same configuration with another level at the logger of a name: the same
    /// appenders, filters and handler, and the same routes except for the level. If there is no
    /// such logger, adds one that is additive and has no appenders of its own. Fails if no logger
    /// may have the name.
    pub fn with_level(
        &self,
        name: &str,
        level: LevelFilter,
    ) -> Result<CurrentOf<A, F, H>, BuildError>
        ensures settings { IfOk result (λ next. ⟦<Self as Configured>⟧.settings next
            ≡ with_level (⟦<Self as Configured>⟧.settings self.now) name.now level) }
        ensures held { IfOk result (λ next. held_by next ≡ held_by self.now) }
        ensures admits { IfOk result (λ next. (r : _) → ⟦<Self as Configured>⟧.admits next r
            ≡ ⟦<Self as Configured>⟧.admits self.now r) }
        ensures refused { IfErr result (IsRefusal
            (if is_valid name.now then [] else InvalidLogger name.now ∷ [])) }
    {
        levels_have_no_faults();
        let root = self.lists.root().clone()?;
        let loggers = with_level_at(self.alloc, self.lists.loggers(), name, level)?;
        self.with_lists(root, loggers)
    }

    /// Returns the same configuration with another level at the root. Fails only if an allocation
    /// fails.
    pub fn with_root_level(&self, level: LevelFilter) -> Result<CurrentOf<A, F, H>, BuildError>
        ensures settings { IfOk result (λ next. ⟦<Self as Configured>⟧.settings next
            ≡ with_root_level (⟦<Self as Configured>⟧.settings self.now) level) }
        ensures held { IfOk result (λ next. held_by next ≡ held_by self.now) }
        ensures admits { IfOk result (λ next. (r : _) → ⟦<Self as Configured>⟧.admits next r
            ≡ ⟦<Self as Configured>⟧.admits self.now r) }
        ensures refused { IfErr result (λ error. error ≡ Memory) }
    {
        levels_have_no_faults();
        let mut root = self.lists.root().clone()?;
        root.set_level(level);
        let loggers = copies(self.alloc, self.lists.loggers())?;
        self.with_lists(root, loggers)
    }
}
