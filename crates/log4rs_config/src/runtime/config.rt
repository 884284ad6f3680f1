//! Accepted configurations.

ghost use Rattle.std.specs.Prelude.{◌≡◌, ℕ, ◌<◌, Bool, true, List, length, map, string_bytes, slice_index_or, slice_get, Some, IfOk};
ghost use Rattle.log4rs_append.specs.Locks.{began_as};
ghost use Rattle.log4rs_config.specs.Appender.{name_of};
ghost use Rattle.log4rs_config.specs.Settings.{with_root_level, IsAccepted};

use crate::lists::RoutedLists;
use crate::runtime::appender::Filtered;
use crate::runtime::logger::Logger;
use crate::runtime::root::Root;
use log::LevelFilter;
use log4rs_append::{AnyAppender, Append, Locked};
use log4rs_base::filter::{AnyFilter, Filter, passes};
use log4rs_base::{Context, LogError, OutOfMemory, Record};
use std::alloc::Global;

/// A configuration, with its routes. Its appenders' names are distinct, its loggers' names are
/// distinct and valid, and each named appender exists.
#[derive(Drop)]
pub struct ConfigOf<A, F> {
    pub(crate) appenders: Vec<Filtered<A, F>>,
    pub(crate) lists: RoutedLists,
    ghost named: { map (λ a. string_bytes a.name) appenders.items ≡ lists.appenders },
}

/// A configuration whose appenders are over stores `S`.
pub type Config<S> = ConfigOf<AnyAppender<S>, AnyFilter>;

/// Tells contracts of a configuration, or of the holder of one.
pub trait Configured {
    ghost use Rattle.std.specs.Prelude.{Bool, List};
    ghost use Rattle.log4rs_base.specs.declared.record.Record.{Record as RecordData};
    ghost use Rattle.log4rs_append.specs.Sink.{Sink};
    ghost use Rattle.log4rs_config.specs.Settings.{Settings};

    /// Its names and lists.
    ghost settings: { Self → Settings };

    /// Whether a record passes the filters of each appender.
    ghost admits: { Self → RecordData → List Bool };

    /// The sink of each appender.
    ghost sinks: { Self → List Sink };
}

impl<A: Append, F: Filter> Configured for ConfigOf<A, F> {
    ghost use Rattle.log4rs_config.specs.Builder.{config_settings, config_admits, config_sinks};

    ghost settings = { config_settings };

    ghost admits = { config_admits F.answer };

    ghost sinks = { config_sinks A.sink };
}

/// Puts each appender behind a lock of its own.
fn locked_all<A: Drop, F: Drop>(
    alloc: Global,
    appenders: Vec<Filtered<A, F>>,
) -> Result<Vec<Filtered<Locked<A>, F>>, OutOfMemory>
    ensures names { IfOk result (λ made. map (λ a. string_bytes a.name) made.items
        ≡ map (λ a. string_bytes a.name) appenders.items) }
    ensures locks { IfOk result (λ made. map (λ a. began_as a.appender) made.items
        ≡ map (λ a. a.appender) appenders.items) }
    ensures filters { IfOk result (λ made. map (λ a. a.filters.items) made.items
        ≡ map (λ a. a.filters.items) appenders.items) }
{
    let mut made = Vec::new(alloc);
    for appender in appenders {
        made.push(appender.locked(alloc)?)?;
    }
    Ok(made)
}

impl<A: Append + Drop, F: Filter + Drop> ConfigOf<A, F> {
    ghost use Rattle.log4rs_config.specs.Appender.{appender_of};
    ghost use Rattle.log4rs_config.specs.Builder.{appenders_of};

    /// Puts each appender of the configuration behind a lock of its own. Fails if an allocation
    /// fails; the configuration is then dropped.
    pub fn locked(self, alloc: Global) -> Result<ConfigOf<Locked<A>, F>, OutOfMemory>
        ensures settings { IfOk result
            (λ config. ⟦<ConfigOf<Locked<A>, F> as Configured>⟧.settings config
            ≡ ⟦<Self as Configured>⟧.settings self) }
        ensures admits { IfOk result (λ config. (r : _)
            → ⟦<ConfigOf<Locked<A>, F> as Configured>⟧.admits config r
            ≡ ⟦<Self as Configured>⟧.admits self r) }
        ensures locks { IfOk result (λ config. map (λ a. began_as (appender_of a))
            (appenders_of config) ≡ map (λ a. appender_of a) (appenders_of self)) }
    {
        Ok(ConfigOf {
            appenders: locked_all(alloc, self.appenders)?,
            lists: self.lists,
        })
    }
}

impl<A: Append, F: Filter> ConfigOf<A, F> {
    ghost use Rattle.std.specs.Borrow.{sem, Lends};
    ghost use Rattle.log4rs_config.specs.contracts.runtime.config.ConfigOf.{the_row};
    ghost use Rattle.log4rs_config.specs.Appender.{appender_of};
    ghost use Rattle.log4rs_config.specs.Builder.{appenders_of};
    ghost use Rattle.log4rs_config.specs.Destinations.{RoutesAlike};
    ghost use Rattle.log4rs_config.specs.Loan.{left_with};

    /// Flushes each appender.
    pub fn flush(&mut self)
        ensures sinks { ⟦<Self as Configured>⟧.sinks self.new
            ≡ ⟦<Self as Configured>⟧.sinks self.old }
        ensures routes { let seen = ⟦<Self as Configured>⟧ in
            RoutesAlike seen.settings seen.admits self.old self.new }
    {
        for at in 0..self.appenders.len() {
            self.flush_at(at);
        }
    }

    /// Flushes the appender at a place.
    fn flush_at(&mut self, at: usize)
        requires { at < length (⟦<Self as Configured>⟧.settings self.old).appenders }
        ensures sinks { ⟦<Self as Configured>⟧.sinks self.new
            ≡ ⟦<Self as Configured>⟧.sinks self.old }
        ensures routes { let seen = ⟦<Self as Configured>⟧ in
            RoutesAlike seen.settings seen.admits self.old self.new }
    {
        self.appender_mut(at).flush();
    }

    /// Returns the appenders, each at its place.
    pub fn appenders(&self) -> &[Filtered<A, F>]
        ensures { result.now ≡ appenders_of self.now }
    {
        self.appenders.as_slice()
    }

    /// Returns the root.
    pub fn root(&self) -> &Root
        ensures { result.now ≡ (⟦<Self as Configured>⟧.settings self.now).root }
    {
        self.lists.root()
    }

    /// Returns the loggers.
    pub fn loggers(&self) -> &[Logger]
        ensures loggers { result.now ≡ (⟦<Self as Configured>⟧.settings self.now).loggers }
        ensures accepted { IsAccepted (⟦<Self as Configured>⟧.settings self.now) }
    {
        self.lists.loggers()
    }

    /// Returns the root and the loggers with their routes.
    pub fn lists(&self) -> &RoutedLists
        ensures { result.now ≡ ⟦<Self as Configured>⟧.settings self.now }
    {
        &self.lists
    }

    /// Returns the appenders, and the root and the loggers with their routes.
    pub fn into_lists(self) -> (Vec<Filtered<A, F>>, RoutedLists)
        ensures appenders { result.0.items ≡ appenders_of self }
        ensures lists { result.1 ≡ ⟦<Self as Configured>⟧.settings self }
        ensures named { map (λ a. name_of a) result.0.items ≡ result.1.appenders }
    {
        (self.appenders, self.lists)
    }

    /// Returns the appenders, the root and the loggers.
    pub fn into_parts(self) -> (Vec<Filtered<A, F>>, Root, Vec<Logger>)
        ensures appenders { result.0.items ≡ appenders_of self }
        ensures root { result.1 ≡ (⟦<Self as Configured>⟧.settings self).root }
        ensures loggers { result.2.items ≡ (⟦<Self as Configured>⟧.settings self).loggers }
    {
        let (root, loggers) = self.lists.into_parts();
        (self.appenders, root, loggers)
    }

    /// Lends the appender at a place for writing. The value that the caller leaves is the appender
    /// of that place from then on; names, filters, root, loggers and all other appenders stay.
    pub fn appender_mut(&mut self, at: usize) -> &mut A
        requires { at < length (⟦<Self as Configured>⟧.settings self.old).appenders }
        ensures* writes_back { sem 𝓛 (Lends (the_row A.row F.row) A.row self.entry result
            (left_with self.old at)) }
        ensures value { slice_get (map (λ a. appender_of a) (appenders_of self.old)) at
            ≡ Some result.now }
    {
        self.appenders[at].appender_mut()
    }

    /// Sets the level of the root.
    pub fn set_root_level(&mut self, level: LevelFilter)
        ensures settings { let seen = ⟦<Self as Configured>⟧.settings in seen self.new
            ≡ with_root_level (seen self.old) level }
        ensures appenders { appenders_of self.new ≡ appenders_of self.old }
    {
        self.lists.set_root_level(level);
    }
}
