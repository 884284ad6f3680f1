//! A root and loggers with their routes.

ghost use Rattle.std.specs.Prelude.{◌≡◌, ◌≤◌, ◌<◌, ◌+◌, ◌*◌, ◌^◌, ℕ, [], All, Contains, IfErr, IfOk, OnOk};
ghost use Rattle.std.specs.Prelude.{length, map, string_bytes};
ghost use Rattle.log.specs.Level.{allows, filter_rank};
ghost use Rattle.log4rs_config.specs.Faults.{faults};
ghost use Rattle.log4rs_config.specs.Levels.{all_levels};
ghost use Rattle.log4rs_config.specs.Name.{components, path_of};
ghost use Rattle.log4rs_config.specs.Refusal.{IsRefusal};
ghost use Rattle.log4rs_config.specs.Routing.{governor, level_at, places_at};
ghost use Rattle.log4rs_config.specs.Settings.{settings_of, with_root_level, IsAccepted};

use crate::name::Named;
use crate::routes::Routes;
use crate::runtime::levels::greatest_level;
use crate::runtime::{BuildError, ConfigErrors, Logger, Root};
use crate::turns::Turns;
use log::{Level, LevelFilter};
use log4rs_base::OutOfMemory;
use std::alloc::Global;
use std::marker::Model;
use std::sync::Arc;
use std::sync::ledger::Ledger;

/// The names of appenders, each at its index. Clones share them.
#[derive(Drop)]
pub struct AppenderNames {
    names: Arc<Vec<String>>,
}

impl Model for AppenderNames {
    ghost use Rattle.std.specs.Prelude.{List, map, string_bytes};
    ghost use Rattle.std.specs.Arc.{arc_value};
    ghost use Rattle.log4rs_base.specs.Text.{Text};

    ghost Value = { List Text };

    ghost view = { λ n. map string_bytes (arc_value n.names).items };
}

impl AppenderNames {
    /// Copies the names of appenders.
    pub fn of<T: Named>(alloc: Global, appenders: &[T]) -> Result<AppenderNames, OutOfMemory>
        ensures { IfOk result (λ names. names ≡ map T.name appenders.now) }
    {
        let mut names = Vec::new(alloc);
        for appender in appenders {
            names.push(String::from_str(alloc, appender.name())?)?;
        }
        Ok(AppenderNames {
            names: Arc::new(alloc, names)?,
        })
    }

    /// Returns the same names, shared.
    pub fn share(&self) -> Result<AppenderNames, OutOfMemory>
        ensures { IfOk result (λ names. names ≡ self.now) }
    {
        Ok(AppenderNames {
            names: Arc::try_clone(&self.names)?,
        })
    }

    /// Returns the names in order.
    pub fn as_slice(&self) -> &[String]
        ensures { map string_bytes result.now ≡ self.now }
    {
        self.names.as_slice()
    }
}

/// A root and loggers over appenders of these names, with their routes.
#[derive(Drop)]
pub struct RoutedLists {
    names: AppenderNames,
    root: Root,
    loggers: Vec<Logger>,
    routes: Routes,
}

impl Model for RoutedLists {
    ghost use Rattle.log4rs_config.specs.RoutesSeen.{IsRouted};
    ghost use Rattle.log4rs_config.specs.Settings.{Settings, settings_of, IsAccepted};

    ghost Value = { Settings };

    ghost view = { λ l. settings_of l.names l.root l.loggers.items };

    ghost invariant = { λ l. IsAccepted (settings_of l.names l.root l.loggers.items)
        × IsRouted (settings_of l.names l.root l.loggers.items) l.routes };
}

impl RoutedLists {
    /// Computes the routes of a root and loggers. Fails with all their faults, or if an allocation
    /// fails.
    pub fn new(
        alloc: Global,
        names: &AppenderNames,
        root: Root,
        loggers: Vec<Logger>,
    ) -> Result<RoutedLists, BuildError>
        ensures settings { IfOk result
            (λ lists. lists ≡ settings_of names.now root loggers.items) }
        ensures faultless { OnOk result (faults (settings_of names.now root loggers.items) ≡ []) }
        ensures errors { IfErr result
            (λ error. IsRefusal (faults (settings_of names.now root loggers.items)) error) }
    {
        let errors = ConfigErrors::of(alloc, names.as_slice(), &root, &loggers)?;
        if !errors.is_empty() {
            return Err(BuildError::Errors(errors));
        }
        Ok(RoutedLists::accept(alloc, names.share()?, root, loggers)?)
    }

    /// Computes the routes of a root and loggers without faults. Fails if an allocation fails.
    pub(crate) fn accept(
        alloc: Global,
        names: AppenderNames,
        root: Root,
        loggers: Vec<Logger>,
    ) -> Result<RoutedLists, OutOfMemory>
        requires { IsAccepted (settings_of names root loggers.items) }
        ensures { IfOk result (λ lists. lists ≡ settings_of names root loggers.items) }
    {
        let routes = Routes::new(alloc, names.as_slice(), &root, &loggers)?;
        Ok(RoutedLists {
            names,
            root,
            loggers,
            routes,
        })
    }

    /// Returns the names of the appenders.
    pub fn names(&self) -> &AppenderNames
        ensures { result.now ≡ self.now.appenders }
    {
        &self.names
    }

    /// Returns the root.
    pub fn root(&self) -> &Root
        ensures { result.now ≡ self.now.root }
    {
        &self.root
    }

    /// Returns the loggers.
    pub fn loggers(&self) -> &[Logger]
        ensures loggers { result.now ≡ self.now.loggers }
        ensures accepted { IsAccepted self.now }
    {
        self.loggers.as_slice()
    }

    /// Returns the level of the logger that governs a target, or the root's, and the indices of its
    /// appenders in delivery order, before filters.
    pub fn route(&self, target: &str) -> (LevelFilter, &[usize])
        ensures level { result.0 ≡ level_at self.now (path_of target.now) }
        ensures places { result.1.now ≡ places_at self.now (path_of target.now) }
        ensures within { All (λ at. at < length self.now.appenders) result.1.now }
    {
        self.routes.route(target)
    }

    /// Returns whether a record of this level and target passes the level of the logger that
    /// governs it.
    pub fn enabled(&self, level: Level, target: &str) -> bool
        ensures { result ≡ allows (level_at self.now (path_of target.now)) level }
    {
        self.route(target).0.allows(level)
    }

    /// Returns the most verbose of all levels. Nothing more verbose is logged at any target.
    pub fn max_log_level(&self) -> LevelFilter
        ensures greatest { All (λ level. filter_rank level ≤ filter_rank result)
            (all_levels self.now) }
        ensures one { Contains (all_levels self.now) result }
        ensures nothing_above { (target : _) → filter_rank (level_at self.now (path_of target))
            ≤ filter_rank result }
    {
        greatest_level(&self.root, &self.loggers)
    }

    /// Returns the place of the logger that governs a target, or `None` for the root, and counts
    /// in `turns` as `CoreOf::governor` does.
    pub(crate) fn governor<L: Ledger>(&self, target: &str, turns: &mut Turns<L>) -> Option<usize>
        ensures place { result ≡ governor self.now.loggers (path_of target.now) }
        ensures turns { (digits : ℕ) → length self.now.loggers < 2 ^ digits
            → turns.new ≤ turns.old + length (components target.now) * digits }
    {
        self.routes.governor(target, turns)
    }

    /// Sets the level of the root, and of its route.
    pub(crate) fn set_root_level(&mut self, level: LevelFilter)
        ensures { self.new ≡ with_root_level self.old level }
    {
        self.root.set_level(level);
        self.routes.set_root_level(level);
    }

    /// Returns the root and the loggers.
    pub(crate) fn into_parts(self) -> (Root, Vec<Logger>)
        ensures root { result.0 ≡ self.root }
        ensures loggers { result.1.items ≡ self.loggers }
    {
        (self.root, self.loggers)
    }
}
