//! The builder of configurations.

ghost use Rattle.std.specs.Prelude.{◌≡◌, ◌≢◌, ◌∷◌, ◌++◌, [], IfOk, IfErr, map, string_bytes, OnOk};
ghost use Rattle.log4rs_config.specs.Builder.{given_appenders, given_loggers, given_settings, appenders_of};
ghost use Rattle.log4rs_config.specs.Errors.{faults_of};
ghost use Rattle.log4rs_base.specs.Text.{Text};
ghost use Rattle.log4rs_config.specs.Appender.{name_of};
ghost use Rattle.log4rs_config.specs.Faults.{faults, repeats, unknown, logger_faults, RepeatedAppender, UnknownAppender};
ghost use Rattle.log4rs_config.specs.Lossy.{firsts, kept};
ghost use Rattle.log4rs_config.specs.Settings.{settings_of, is_among, IsAccepted};
ghost use Rattle.log4rs_config.specs.Refusal.{IsRefusal};

use crate::lists::{AppenderNames, RoutedLists};
use crate::name::{NameSet, Named, is_valid_logger_name};
use crate::runtime::appender::Filtered;
use crate::runtime::config::{ConfigOf, Configured};
use crate::runtime::error::{BuildError, ConfigError, ConfigErrors};
use crate::runtime::logger::Logger;
use crate::runtime::lossy::{keep_firsts, keep_with};
use crate::runtime::root::Root;
use log4rs_append::{AnyAppender, Append};
use log4rs_base::OutOfMemory;
use log4rs_base::filter::{AnyFilter, Filter};
use std::alloc::Global;

/// Builds a configuration of appenders and loggers. A call that fails drops the builder and its
/// arguments.
#[derive(Drop)]
pub struct ConfigBuilderOf<A, F> {
    alloc: Global,
    appenders: Vec<Filtered<A, F>>,
    loggers: Vec<Logger>,
}

/// Builds a configuration whose appenders are over stores `S`.
pub type ConfigBuilder<S> = ConfigBuilderOf<AnyAppender<S>, AnyFilter>;

impl<A, F> ConfigOf<A, F> {
    /// Creates a builder without appenders and loggers.
    pub fn builder(alloc: Global) -> ConfigBuilderOf<A, F>
        ensures appenders { given_appenders result ≡ [] }
        ensures loggers { given_loggers result ≡ [] }
    {
        ConfigBuilderOf::default(alloc)
    }
}

impl<A, F> ConfigBuilderOf<A, F> {
    /// Creates a builder without appenders and loggers.
    pub fn default(alloc: Global) -> ConfigBuilderOf<A, F>
        ensures appenders { given_appenders result ≡ [] }
        ensures loggers { given_loggers result ≡ [] }
    {
        ConfigBuilderOf {
            alloc,
            appenders: Vec::new(alloc),
            loggers: Vec::new(alloc),
        }
    }
}

impl<A: Append + Drop, F: Filter + Drop> ConfigBuilderOf<A, F> {
    /// Adds an appender. Fails if an allocation fails.
    pub fn appender(self, appender: Filtered<A, F>) -> Result<ConfigBuilderOf<A, F>, OutOfMemory>
        ensures appenders { IfOk result
            (λ builder. given_appenders builder ≡ given_appenders self ++ appender ∷ []) }
        ensures loggers { IfOk result (λ builder. given_loggers builder ≡ given_loggers self) }
    {
        let ConfigBuilderOf {
            alloc,
            mut appenders,
            loggers,
        } = self;
        appenders.push(appender)?;
        Ok(ConfigBuilderOf {
            alloc,
            appenders,
            loggers,
        })
    }

    /// Adds appenders. Fails if an allocation fails.
    pub fn appenders(self, added: Vec<Filtered<A, F>>) -> Result<ConfigBuilderOf<A, F>, OutOfMemory>
        ensures appenders { IfOk result
            (λ builder. given_appenders builder ≡ given_appenders self ++ added.items) }
        ensures loggers { IfOk result (λ builder. given_loggers builder ≡ given_loggers self) }
    {
        let ConfigBuilderOf {
            alloc,
            mut appenders,
            loggers,
        } = self;
        let mut added = added;
        appenders.append(&mut added)?;
        Ok(ConfigBuilderOf {
            alloc,
            appenders,
            loggers,
        })
    }

    /// Adds a logger. Fails if an allocation fails.
    pub fn logger(self, logger: Logger) -> Result<ConfigBuilderOf<A, F>, OutOfMemory>
        ensures appenders { IfOk result
            (λ builder. given_appenders builder ≡ given_appenders self) }
        ensures loggers { IfOk result (λ builder. given_loggers builder ≡ given_loggers self
            ++ logger ∷ []) }
    {
        let ConfigBuilderOf {
            alloc,
            appenders,
            mut loggers,
        } = self;
        loggers.push(logger)?;
        Ok(ConfigBuilderOf {
            alloc,
            appenders,
            loggers,
        })
    }

    /// Adds loggers. Fails if an allocation fails.
    pub fn loggers(self, added: Vec<Logger>) -> Result<ConfigBuilderOf<A, F>, OutOfMemory>
        ensures appenders { IfOk result
            (λ builder. given_appenders builder ≡ given_appenders self) }
        ensures loggers { IfOk result (λ builder. given_loggers builder ≡ given_loggers self
            ++ added.items) }
    {
        let ConfigBuilderOf {
            alloc,
            appenders,
            mut loggers,
        } = self;
        let mut added = added;
        loggers.append(&mut added)?;
        Ok(ConfigBuilderOf {
            alloc,
            appenders,
            loggers,
        })
    }

    /// Creates the configuration with this root. Fails with all its faults, or with `Memory` if an
    /// allocation fails.
    pub fn build(self, root: Root) -> Result<ConfigOf<A, F>, BuildError>
        ensures appenders { IfOk result (λ config. appenders_of config ≡ given_appenders self) }
        ensures settings { IfOk result
            (λ config. ⟦<ConfigOf<A, F> as Configured>⟧.settings config
            ≡ given_settings self root) }
        ensures faultless { OnOk result (faults (given_settings self root) ≡ []) }
        ensures errors { IfErr result (λ error. IsRefusal (faults (given_settings self root))
            error) }
    {
        let names = AppenderNames::of(self.alloc, &self.appenders)?;
        let lists = RoutedLists::new(self.alloc, &names, root, self.loggers)?;
        Ok(ConfigOf {
            appenders: self.appenders,
            lists,
        })
    }

    /// Creates the configuration with this root of what has no fault, and returns it with the
    /// faults of what was left out. It has the first appender of each name, and the first logger of
    /// each name if the name is valid; references to unknown appenders are dropped. Fails if an
    /// allocation fails.
    pub fn build_lossy(self, root: Root) -> Result<(ConfigOf<A, F>, ConfigErrors), OutOfMemory>
        ensures appenders { IfOk result
            (λ parts. appenders_of parts.0 ≡ firsts (λ a. name_of a) [] (given_appenders self)) }
        ensures settings { IfOk result
            (λ parts. ⟦<ConfigOf<A, F> as Configured>⟧.settings parts.0
            ≡ kept (given_settings self root)) }
        ensures errors { IfOk result (λ parts. parts.1 ≡ faults (given_settings self root)) }
    {
        let alloc = self.alloc;
        let errors = ConfigErrors::of(alloc, &self.appenders, &root, &self.loggers)?;
        let appenders = keep_firsts(alloc, self.appenders)?;
        let (root, loggers) = keep_with(alloc, &appenders, root, self.loggers)?;
        let names = AppenderNames::of(alloc, &appenders)?;
        let lists = RoutedLists::accept(alloc, names, root, loggers)?;
        Ok((ConfigOf { appenders, lists }, errors))
    }
}

impl ConfigErrors {
    /// Returns the faults of a root and of loggers beside these appenders, as `build` reports them.
    /// Fails if an allocation fails.
    pub fn of<T: Named>(
        alloc: Global,
        appenders: &[T],
        root: &Root,
        loggers: &[Logger],
    ) -> Result<ConfigErrors, OutOfMemory>
        ensures errors { IfOk result (λ errors. errors
            ≡ faults (settings_of (map T.name appenders.now) root.now loggers.now)) }
        ensures accepted { IfOk result (λ errors. errors ≡ []
            → IsAccepted (settings_of (map T.name appenders.now) root.now loggers.now)) }
    {
        let errors = faults_in(alloc, appenders, root, loggers)?;
        Ok(ConfigErrors::new(errors))
    }
}

/// Returns the faults of a configuration of these parts, in order.
fn faults_in<T: Named>(
    alloc: Global,
    appenders: &[T],
    root: &Root,
    loggers: &[Logger],
) -> Result<Vec<ConfigError>, OutOfMemory>
    ensures { IfOk result (λ errors. faults_of errors.items
        ≡ faults (settings_of (map T.name appenders.now) root.now loggers.now)) }
{
    let mut errors = Vec::new(alloc);
    let known = note_repeated(alloc, &mut errors, appenders)?;
    note_unknown(alloc, &mut errors, &known, root.appenders())?;
    let mut earlier = NameSet::new(alloc);
    for logger in loggers {
        note_logger(alloc, &mut errors, &known, &earlier, logger)?;
        earlier.insert(logger.name())?;
    }
    Ok(errors)
}

/// Notes each appender that has the name of one before it, and returns the names.
fn note_repeated<'n, T: Named>(
    alloc: Global,
    errors: &mut Vec<ConfigError>,
    appenders: &'n [T],
) -> Result<NameSet<'n>, OutOfMemory>
    ensures errors { OnOk result (faults_of errors.new.items ≡ faults_of errors.old.items
        ++ map (λ name. RepeatedAppender name) (repeats [] (map T.name appenders.now))) }
    ensures names { IfOk result (λ names. (other : Text)
        → is_among names other ≡ is_among (map T.name appenders.now) other) }
{
    let mut names = NameSet::new(alloc);
    for appender in appenders {
        let name = appender.name();
        if !names.insert(name)? {
            errors.push(ConfigError::DuplicateAppenderName(String::from_str(alloc, name)?))?;
        }
    }
    Ok(names)
}

/// Notes each name that is not known.
fn note_unknown(
    alloc: Global,
    errors: &mut Vec<ConfigError>,
    known: &NameSet<'_>,
    names: &[String],
) -> Result<(), OutOfMemory>
    ensures { OnOk result (faults_of errors.new.items ≡ faults_of errors.old.items
        ++ map (λ name. UnknownAppender name)
        (unknown known.now (map (λ s. string_bytes s) names.now))) }
{
    for name in names {
        if !known.contains(name.as_str()) {
            errors.push(ConfigError::NonexistentAppender(String::from_str(alloc, name.as_str())?))?;
        }
    }
    Ok(())
}

/// Notes the faults of a logger that comes after others.
fn note_logger(
    alloc: Global,
    errors: &mut Vec<ConfigError>,
    known: &NameSet<'_>,
    earlier: &NameSet<'_>,
    logger: &Logger,
) -> Result<(), OutOfMemory>
    ensures { OnOk result (faults_of errors.new.items ≡ faults_of errors.old.items
        ++ logger_faults known.now earlier.now logger.now) }
{
    let name = logger.name();
    if earlier.contains(name) {
        errors.push(ConfigError::DuplicateLoggerName(String::from_str(alloc, name)?))?;
        return Ok(());
    }
    if !is_valid_logger_name(name) {
        errors.push(ConfigError::InvalidLoggerName(String::from_str(alloc, name)?))?;
        return Ok(());
    }
    note_unknown(alloc, errors, known, logger.appenders())
}
