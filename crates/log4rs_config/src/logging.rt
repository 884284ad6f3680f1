//! Cores: a configuration that appends records.

ghost use Rattle.std.specs.Prelude.{◌≡◌, ◌≤◌, ◌<◌, ℕ, false, true, length, slice_index_or};
ghost use Rattle.std.specs.Prelude.{string_bytes, IsOk, IfOk, OnErr, IsTrue, is_ok, All, Contains};
ghost use Rattle.std.specs.List.{list_all};
ghost use Rattle.log.specs.Level.{allows, filter_rank};
ghost use Rattle.log4rs_config.specs.Destinations.{AppendedAt, RoutesAlike};
ghost use Rattle.log4rs_config.specs.Name.{path_of};
ghost use Rattle.log4rs_config.specs.Routing.{deliveries, governor, level_at, places_at};
ghost use Rattle.log4rs_config.specs.Levels.{all_levels};

use crate::delivery::{AppendError, CoreError, Destinations, deliver};
use crate::runtime::Configured;
use crate::runtime::config::ConfigOf;
use crate::turns::Turns;
use log::{Level, LevelFilter};
use log4rs_append::{AnyAppender, Append, Log, Steps};
use log4rs_base::filter::{AnyFilter, Filter};
use log4rs_base::{Context, Entry, LogError, OutOfMemory, Record};
use std::alloc::Global;
use std::mem;
use std::sync::ledger::Ledger;

/// Appends records to the appenders of their targets, and keeps room for their errors.
#[derive(Drop)]
pub struct CoreOf<A, F> {
    alloc: Global,
    config: ConfigOf<A, F>,
    room: Vec<AppendError>,
}

/// Appends records to the appenders of their targets, over stores `S`.
pub type Core<S> = CoreOf<AnyAppender<S>, AnyFilter>;

impl<A: Append, F: Filter> Configured for CoreOf<A, F> {
    ghost use Rattle.log4rs_config.specs.Builder.{config_settings, config_admits, config_sinks};

    ghost settings = { λ c. config_settings c.config };

    ghost admits = { λ c r. config_admits F.answer c.config r };

    ghost sinks = { λ c. config_sinks A.sink c.config };
}

impl<A: Append + Drop, F: Filter + Drop> CoreOf<A, F> {
    ghost use Rattle.log4rs_config.specs.Cores.{config_of};

    /// Creates the core of a configuration. Fails if an allocation fails; the configuration is then
    /// dropped.
    pub fn new(alloc: Global, config: ConfigOf<A, F>) -> Result<CoreOf<A, F>, OutOfMemory>
        ensures settings { IfOk result
            (λ core. ⟦<Self as Configured>⟧.settings core
            ≡ ⟦<ConfigOf<A, F> as Configured>⟧.settings config) }
        ensures admits { IfOk result (λ core. (r : _)
            → ⟦<Self as Configured>⟧.admits core r
            ≡ ⟦<ConfigOf<A, F> as Configured>⟧.admits config r) }
        ensures sinks { IfOk result (λ core. ⟦<Self as Configured>⟧.sinks core
            ≡ ⟦<ConfigOf<A, F> as Configured>⟧.sinks config) }
        ensures config { IfOk result (λ core. config_of core ≡ config) }
    {
        Ok(CoreOf {
            alloc,
            config,
            room: Vec::new(alloc),
        })
    }
}

impl<A: Append, F: Filter> CoreOf<A, F> {
    ghost use Rattle.log4rs_config.specs.Answer.{IsAnswer};
    ghost use Rattle.log4rs_config.specs.Cores.{config_of};
    ghost use Rattle.log4rs_config.specs.Answers.{AreAnswers};
    ghost use Rattle.log4rs_config.specs.Received.{HaveReceived};
    ghost use Rattle.std.specs.Prelude.{◌+◌, ◌*◌, ◌^◌};
    ghost use Rattle.log4rs_config.specs.Name.{components};

    /// Returns its configuration.
    pub fn config(&self) -> &ConfigOf<A, F>
        ensures value { result.now ≡ config_of self.now }
        ensures settings { ⟦<ConfigOf<A, F> as Configured>⟧.settings result.now
            ≡ ⟦<Self as Configured>⟧.settings self.now }
        ensures admits { (r : _) → ⟦<ConfigOf<A, F> as Configured>⟧.admits result.now r
            ≡ ⟦<Self as Configured>⟧.admits self.now r }
        ensures sinks { ⟦<ConfigOf<A, F> as Configured>⟧.sinks result.now
            ≡ ⟦<Self as Configured>⟧.sinks self.now }
    {
        &self.config
    }

    /// Returns its configuration, and ends the core.
    pub fn into_config(self) -> ConfigOf<A, F>
        ensures value { result ≡ config_of self }
        ensures settings { ⟦<ConfigOf<A, F> as Configured>⟧.settings result
            ≡ ⟦<Self as Configured>⟧.settings self }
        ensures admits { (r : _) → ⟦<ConfigOf<A, F> as Configured>⟧.admits result r
            ≡ ⟦<Self as Configured>⟧.admits self r }
        ensures sinks { ⟦<ConfigOf<A, F> as Configured>⟧.sinks result
            ≡ ⟦<Self as Configured>⟧.sinks self }
    {
        self.config
    }

    /// Returns whether a record of this level and target passes the level of the logger that
    /// governs it.
    pub fn enabled(&self, level: Level, target: &str) -> bool
        ensures { result ≡ allows (level_at (⟦<Self as Configured>⟧.settings self.now)
            (path_of target.now)) level }
    {
        self.config.lists.enabled(level, target)
    }

    /// Returns the level of the logger that governs a target, or the root's, and the places of its
    /// appenders in the order of delivery, without regard to filters.
    pub fn route(&self, target: &str) -> (LevelFilter, &[usize])
        ensures level { result.0 ≡ level_at (⟦<Self as Configured>⟧.settings self.now)
            (path_of target.now) }
        ensures places { result.1.now ≡ places_at (⟦<Self as Configured>⟧.settings self.now)
            (path_of target.now) }
        ensures within { All (λ at. at < length
            (⟦<Self as Configured>⟧.settings self.now).appenders)
            result.1.now }
    {
        self.config.lists.route(target)
    }

    /// Returns whether a record passes the filters of the appender at a place.
    pub fn admits(&self, at: usize, record: &Record) -> bool
        ensures { result ≡ slice_index_or (⟦<Self as Configured>⟧.admits self.now «record».now) at
            true }
    {
        self.config.appenders.admits(at, record)
    }

    /// Appends to the appender at a place, whatever levels and filters say. Fails as the appender
    /// does.
    pub fn append(
        &mut self,
        at: usize,
        record: &Record,
        context: &Context<'_>,
    ) -> Result<(), LogError>
        requires { at < length (⟦<Self as Configured>⟧.settings self.old).appenders }
        ensures appends { let seen = ⟦<Self as Configured>⟧ in AppendedAt «record».now context.now
            at result (seen.sinks self.old) (seen.sinks self.new) }
        ensures routes { let seen = ⟦<Self as Configured>⟧ in
            RoutesAlike seen.settings seen.admits self.old self.new }
    {
        Destinations::append(&mut self.config.appenders, at, record, context)
    }

    /// Returns the most verbose of all levels. Nothing more verbose is logged at any target.
    pub fn max_log_level(&self) -> LevelFilter
        ensures greatest { All (λ level. filter_rank level ≤ filter_rank result)
            (all_levels (⟦<Self as Configured>⟧.settings self.now)) }
        ensures one { Contains (all_levels (⟦<Self as Configured>⟧.settings self.now)) result }
        ensures nothing_above { (target : _)
            → filter_rank (level_at (⟦<Self as Configured>⟧.settings self.now) (path_of target))
            ≤ filter_rank result }
    {
        self.config.lists.max_log_level()
    }

    /// Appends a record once for each delivery, whatever fails on the way. A record that is more
    /// verbose than the level of its target has none. Fails with `Memory`, before the first append,
    /// if there is no room for the errors, and with `Appenders` if appends failed.
    pub fn log(&mut self, record: &Record, context: &Context<'_>) -> Result<(), CoreError>
        ensures answer { let seen = ⟦<Self as Configured>⟧ in
            IsAnswer «record».now context.now
            (deliveries (seen.settings self.old) (seen.admits self.old) «record».now) result
            (seen.sinks self.old) (seen.sinks self.new) }
        ensures kept_out { allows (level_at (⟦<Self as Configured>⟧.settings self.old)
            (path_of (string_bytes «record».now.target))) «record».now.level ≡ false → IsOk result }
        ensures routes { let seen = ⟦<Self as Configured>⟧ in
            RoutesAlike seen.settings seen.admits self.old self.new }
    {
        let (config, room) = (&mut self.config, &mut self.room);
        let (limit, places) = config.lists.route(&record.target);
        room.clear();
        if let Err(_) = deliver(&mut config.appenders, limit, places, room, record, context) {
            return Err(CoreError::Memory);
        }
        if room.is_empty() {
            return Ok(());
        }
        let errors = mem::replace(room, Vec::new(self.alloc));
        Err(CoreError::Appenders(errors))
    }

    /// Logs the records of entries, one after another, and returns the result of each. Fails if
    /// there is no memory for the results; nothing is appended then.
    pub fn log_all(
        &mut self,
        entries: &[Entry<'_>],
    ) -> Result<Vec<Result<(), CoreError>>, OutOfMemory>
        ensures answers { IfOk result (λ answers. let seen = ⟦<Self as Configured>⟧ in
            AreAnswers (deliveries (seen.settings self.old) (seen.admits self.old)) entries.now
            answers.items (seen.sinks self.old) (seen.sinks self.new)) }
        ensures received { IfOk result
            (λ answers. IsTrue (list_all is_ok answers.items)
            → let seen = ⟦<Self as Configured>⟧ in
            HaveReceived (deliveries (seen.settings self.old) (seen.admits self.old)) entries.now
            (seen.sinks self.old) (seen.sinks self.new)) }
        ensures err { OnErr result (let seen = ⟦<Self as Configured>⟧ in seen.sinks self.new
            ≡ seen.sinks self.old) }
        ensures routes { let seen = ⟦<Self as Configured>⟧ in
            RoutesAlike seen.settings seen.admits self.old self.new }
    {
        let mut answers = Vec::with_capacity(self.alloc, entries.len())?;
        for entry in entries {
            let answer = self.log(&entry.logged, &entry.context);
            answers.push_reserved(answer);
        }
        Ok(answers)
    }

    /// Flushes each appender.
    pub fn flush(&mut self)
        ensures sinks { let seen = ⟦<Self as Configured>⟧ in seen.sinks self.new
            ≡ seen.sinks self.old }
        ensures routes { let seen = ⟦<Self as Configured>⟧ in
            RoutesAlike seen.settings seen.admits self.old self.new }
    {
        self.config.flush();
    }

    /// Returns the place in `loggers` of the logger that governs a target, or `None` for the root.
    /// Allocates nothing. Adds one to `turns` for each entry that is compared: for each component
    /// of the target, at most as many as the number of loggers has binary digits.
    pub fn governor<L: Ledger>(&self, target: &str, turns: &mut Turns<L>) -> Option<usize>
        ensures place { result ≡ governor (⟦<Self as Configured>⟧.settings self.now).loggers
            (path_of target.now) }
        ensures turns { (digits : ℕ)
            → length (⟦<Self as Configured>⟧.settings self.now).loggers < 2 ^ digits
            → turns.new ≤ turns.old + length (components target.now) * digits }
    {
        self.config.lists.governor(target, turns)
    }
}

/// Does the work that appends leave to the background, as `Steps` of each appender does it.
impl<A: Steps, F: Filter> CoreOf<A, F> {
    ghost use Rattle.log4rs_config.specs.Beside.{AreFinished, EachWorked, OneDrive, OneStep};
    ghost use Rattle.log4rs_config.specs.Beside.{OthersStand, WorkedAt};
    ghost use Rattle.log4rs_config.specs.Cores.{config_of};

    /// Makes one step of the appender at a place, and returns whether more is left. Fails if the
    /// step is refused, as the appender does.
    pub fn step(&mut self, at: usize) -> Result<bool, LogError>
        requires { at < length (⟦<Self as Configured>⟧.settings self.old).appenders }
        ensures stepped { let seen = ⟦<Self as Configured>⟧ in WorkedAt OneStep at result
            (seen.sinks self.old) (seen.sinks self.new) }
        ensures others { OthersStand at (config_of self.old) (config_of self.new) }
        ensures routes { let seen = ⟦<Self as Configured>⟧ in
            RoutesAlike seen.settings seen.admits self.old self.new }
    {
        self.config.appender_mut(at).step()
    }

    /// Does all that the appender at a place has left. Fails if a step is refused, as the appender
    /// does; the rest is then left.
    pub fn drive(&mut self, at: usize) -> Result<(), LogError>
        requires { at < length (⟦<Self as Configured>⟧.settings self.old).appenders }
        ensures driven { let seen = ⟦<Self as Configured>⟧ in WorkedAt OneDrive at result
            (seen.sinks self.old) (seen.sinks self.new) }
        ensures others { OthersStand at (config_of self.old) (config_of self.new) }
        ensures routes { let seen = ⟦<Self as Configured>⟧ in
            RoutesAlike seen.settings seen.admits self.old self.new }
    {
        self.config.appender_mut(at).drive()
    }

    /// Makes one step of each appender, also after a failure, and returns the result of each, in
    /// order. Fails if there is no memory for the results; no step is made then.
    pub fn step_all(&mut self) -> Result<Vec<Result<bool, LogError>>, OutOfMemory>
        ensures stepped { IfOk result (λ results. let seen = ⟦<Self as Configured>⟧ in
            EachWorked OneStep results.items (seen.sinks self.old) (seen.sinks self.new)) }
        ensures err { OnErr result (config_of self.new ≡ config_of self.old) }
        ensures routes { let seen = ⟦<Self as Configured>⟧ in
            RoutesAlike seen.settings seen.admits self.old self.new }
    {
        let count = self.config.appenders.len();
        let mut results = Vec::with_capacity(self.alloc, count)?;
        for at in 0..count {
            let stepped = self.step(at);
            results.push_reserved(stepped);
        }
        Ok(results)
    }

    /// Does all that each appender has left, also after a failure, and returns the result of each,
    /// in order. Fails if there is no memory for the results; nothing is done then.
    pub fn drive_all(&mut self) -> Result<Vec<Result<(), LogError>>, OutOfMemory>
        ensures driven { IfOk result (λ results. let seen = ⟦<Self as Configured>⟧ in
            EachWorked OneDrive results.items (seen.sinks self.old) (seen.sinks self.new)) }
        ensures finished { IfOk result (λ results. IsTrue (list_all is_ok results.items)
            → AreFinished (⟦<Self as Configured>⟧.sinks self.new)) }
        ensures err { OnErr result (config_of self.new ≡ config_of self.old) }
        ensures routes { let seen = ⟦<Self as Configured>⟧ in
            RoutesAlike seen.settings seen.admits self.old self.new }
    {
        let count = self.config.appenders.len();
        let mut results = Vec::with_capacity(self.alloc, count)?;
        for at in 0..count {
            let driven = self.drive(at);
            results.push_reserved(driven);
        }
        Ok(results)
    }
}

/// A core as a logger. Errors of appends are dropped.
impl<A: Append, F: Filter> Log for CoreOf<A, F> {
    ghost use Rattle.std.specs.Prelude.{Some};
    ghost use Rattle.log4rs_config.specs.Builder.{config_settings, config_admits, config_sinks};
    ghost use Rattle.log4rs_config.specs.Answer.{Logs};

    ghost enables = { λ c. Some (λ level target. allows (level_at (config_settings c.config)
        (path_of target)) level) };

    ghost logs = { λ old logged context new. Logs
        logged context (deliveries (config_settings old.config)
        (λ r. config_admits F.answer old.config r) logged) (config_sinks A.sink old.config)
        (config_sinks A.sink new.config) };

    fn enabled(&self, level: Level, target: &str) -> bool {
        CoreOf::enabled(self, level, target)
    }

    fn log(&mut self, record: &Record, context: &Context<'_>) {
        let _ = CoreOf::log(self, record, context);
    }

    fn flush(&mut self) {
        CoreOf::flush(self);
    }
}
