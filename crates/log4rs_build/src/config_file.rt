//! The configuration of a text or a file, loaded once and read again.

ghost use Rattle.std.specs.Prelude.{◌≡◌, ◌||◌, ℕ, List, IfErr, IfOk, is_some, option_map};
ghost use Rattle.std.specs.Prelude.{string_bytes, Option, Some};
ghost use Rattle.log4rs_settings.specs.Answers.{Answered};
ghost use Rattle.log4rs_settings.specs.Makers.{standard};
ghost use Rattle.log4rs_settings.specs.Paths.{extension};
ghost use Rattle.log4rs_settings.specs.Reload.{state_of};
ghost use Rattle.log4rs_settings.specs.Top.{TopSettings};
ghost use Rattle.log4rs_build.specs.Asked.{BuildsAppenders, IsLoaded, BuildsAnew};
ghost use Rattle.log4rs_plans.specs.Background.{any_in_background};
ghost use Rattle.log4rs_plans.specs.Plans.{appenders_asked};
ghost use Rattle.log4rs_build.specs.Begins.{Begins, BeginsFile, LoadsFile};
ghost use Rattle.log4rs_build.specs.Deserializers.{kinds_in, handed_of, KeepsMakers};
ghost use Rattle.log4rs_build.specs.FileErrors.{RefusesFile};
ghost use Rattle.log4rs_build.specs.declared.deserializers.DeserializersWith.{DeserializersWith as DeserializersData};
ghost use Rattle.log4rs_build.specs.Rereading.{reader_of};
ghost use Rattle.log4rs_build.specs.Raw.{asked_by, settings_in};
ghost use Rattle.log4rs_build.specs.Loading.{RefusesToRead, GivesText, IsRead};
ghost use Rattle.log4rs_config.specs.Faults.{Fault};
ghost use Rattle.log4rs_plans.specs.Outcomes.{Error};

use crate::AppenderErrors;
use crate::create::{Built, ConfigBy, build_noting, create_lossy};
use crate::deserializers::{DeserializersOf, DeserializersWith};
use crate::error::{FileError, InitError};
use crate::raw::{Prepared, RawConfig};
use crate::rereading::{Rereading, RereadingBy};
use log4rs_append::Append;
use log4rs_base::OutOfMemory;
use log4rs_base::filter::Filter;
use log4rs_base::print::print_fault;
use log4rs_config::runtime::config::ConfigOf;
use log4rs_config::runtime::{Config, ConfigError, ConfigErrors};
use log4rs_parts::{Absent, BehindOf, Parts, Refill};
use log4rs_plans::{Devices, NO_APPENDER, OfFile, PlannedAppender, Surroundings};
use log4rs_rolling::StoreMaker;
use log4rs_settings::{
    AppenderPlan, ConfigSource, Format, LoadError, LoadedText, Loads, ReloadOf, Reloader,
    format_of_path,
};
use std::alloc::Global;
use std::fmt::Display;
use std::io;

/// The configuration of a file: the source of its text, and what builds its components.
#[derive(Drop)]
pub struct ConfigFile<S, M, D> {
    /// The path of the file.
    pub path: String,
    /// The source of the text.
    pub source: S,
    /// Build the components.
    pub deserializers: D,
    /// Makes the stores of appenders.
    pub maker: M,
    /// The environment, the moment and the terminals.
    pub surroundings: Surroundings<'static>,
}

/// An appender of a configuration in a file, over stores `S`, without components of the caller's.
pub type PlainAppender<S> = BehindOf<Absent, Absent, Absent, S>;

/// The configuration of a file without components of the caller's.
pub type PlainFile<S, M> = ConfigFile<S, M, DeserializersOf<Absent, Absent, Absent, Absent>>;

/// A loaded configuration whose faults were printed, and the work beside its logger.
#[derive(Drop)]
pub struct BegunFile<C, D> {
    /// The configuration.
    pub config: C,
    /// Reads the file again, if the file has a `refresh_rate`.
    pub rereading: Option<D>,
    /// Whether there may be background steps: an appender rolls in the background, or may do so
    /// after the file is read again.
    pub steps: bool,
    /// Whether an appender was left out for a fault.
    pub left_out: bool,
}

impl<S, M> PlainFile<S, M> {
    /// Describes the configuration of the file at a path, with the library's own kinds of
    /// components.
    pub fn plain(
        alloc: Global,
        path: &str,
        source: S,
        maker: M,
        surroundings: Surroundings<'static>,
    ) -> Result<PlainFile<S, M>, OutOfMemory>
    where
        S: Drop,
        M: Drop,
        ensures parts { IfOk result (λ file. (file.source ≡ source) × (file.maker ≡ maker)
            × (file.surroundings ≡ surroundings.entry)) }
        ensures path { IfOk result (λ file. string_bytes file.path ≡ path.now) }
        ensures makers { IfOk result (λ file. (class : List ℕ) (kind : List ℕ)
            → kinds_in file.deserializers class kind ≡ standard class kind) }
    {
        Ok(ConfigFile {
            path: String::from_str(alloc, path)?,
            source,
            deserializers: DeserializersOf::new(alloc)?,
            maker,
            surroundings,
        })
    }
}

impl<S, M, P, R> ConfigFile<S, M, DeserializersWith<P, R>>
where
    S: ConfigSource,
    M: StoreMaker,
    P: Parts<M>,
{
    /// Loads the configuration, leaving out what has a fault, and prints faults and warnings to
    /// standard error, as `tell` does.
    pub fn begin<X: Eprint + Copy>(
        self,
        rt: X,
    ) -> Result<BegunFile<ConfigBy<P, M>, RereadingBy<X, S, M, P, R>>, FileError>
    where
        S: Drop,
        M: Drop,
        P: Drop,
        R: Drop,
        X: Drop,
        ensures ok { let builds = λ (left : DeserializersData P R) (top : TopSettings).
            BuildsAppenders (P.Builds (M.starts self.maker) self.surroundings) P.waiting_for
            top.appenders self.deserializers left in
            IfOk result (λ begun. BeginsFile builds (extension (string_bytes self.path))
            (S.answers self.source) begun.config (option_map reader_of begun.rereading)
            begun.left_out) }
        ensures steps { IfOk result (λ begun. (top : TopSettings) × (after : Answered)
            × Begins (extension (string_bytes self.path)) (S.answers self.source) after
            top (option_map reader_of begun.rereading)
            × (begun.steps ≡ (any_in_background (appenders_asked (kinds_in self.deserializers)
            (P.waiting_for (handed_of self.deserializers)) top.appenders)
            || is_some begun.rereading))) }
        ensures err { IfErr result (λ fault. (after : _)
            × RefusesFile (string_bytes self.path) (S.answers self.source) after fault) }
    {
        let ConfigFile {
            path,
            mut source,
            mut deserializers,
            mut maker,
            surroundings,
        } = self;
        let named = path.as_str();
        match load_file(
            named,
            &mut source,
            &mut deserializers,
            &mut maker,
            &surroundings,
        ) {
            Ok(loaded) => {
                let LoadedFile {
                    built,
                    warnings,
                    reloader,
                    rolls_in_background,
                    planned,
                    refused,
                } = loaded;
                let left_out = built.appender_errors.leave_out();
                let config = tell(&rt, named, built, &warnings);
                let file = ConfigFile {
                    path,
                    source,
                    deserializers,
                    maker,
                    surroundings,
                };
                let rereading = match reloader {
                    Some(reloader) => Some(Rereading::new(rt, file, reloader, planned, refused)),
                    None => None,
                };
                Ok(BegunFile {
                    config,
                    steps: rolls_in_background || rereading.is_some(),
                    rereading,
                    left_out,
                })
            }
            Err(fault) => Err(FileError::of(path, fault, &source)),
        }
    }
}

/// A configuration of a file, its warnings, and the reader of later versions.
#[derive(Drop)]
pub struct LoadedFile<C> {
    /// The configuration, and the faults of the parts that were left out.
    pub built: Built<C>,
    /// The warnings, one line each.
    pub warnings: Vec<String>,
    /// Reads the text again, if it has a `refresh_rate`.
    pub reloader: Option<Reloader>,
    /// Whether an appender rolls its file in the background.
    pub rolls_in_background: bool,
    /// What the appenders are that the file asks for, where they have no fault.
    pub planned: Vec<PlannedAppender>,
    /// The names of those whose files could not be opened.
    pub refused: Vec<String>,
}

/// Returns whether all appenders of a configuration were left out for their faults.
pub(crate) fn has_lost_all<A: Append, F: Filter>(
    config: &ConfigOf<A, F>,
    errors: &AppenderErrors,
) -> bool {
    config.appenders().is_empty() && !errors.is_empty()
}

/// Prints the warnings about a file's configuration, one per line.
pub(crate) fn warn(rt: &impl Eprint, path: &str, has_lost_all: bool, warnings: &[String]) {
    if has_lost_all {
        let said = NO_APPENDER;
        print_fault(rt, &OfFile { path, said });
    }
    for line in warnings {
        print_fault(rt, line);
    }
}

/// What is said of a text that rolls files and that a reloader is to read again.
const OPENS_ANEW: &str =
    "a Reloader opens all files anew at a change, before the old appenders end, \
     and so may lose archives: a ConfigFile reads it again without loss";

impl<C> LoadedFile<C> {
    /// Prints a warning if the text is to be read again and an appender rolls its file: a
    /// `Reloader` over parts may lose archives of it.
    pub fn warn_of_reloader(&self, rt: &impl Eprint, path: &str) {
        let rolls = self.planned.iter().any(|planned| matches!(
            &planned.plan,
            AppenderPlan::RollingFile { .. }
        ));
        if rolls && self.reloader.is_some() {
            let said = OPENS_ANEW;
            print_fault(rt, &OfFile { path, said });
        }
    }
}

/// Prints nothing.
pub(crate) struct Unheard;

impl Eprint for Unheard {
    fn eprint<D: Display + Drop>(&self, _: D) -> io::Result<()> {
        Ok(())
    }

    fn eprintln<D: Display + Drop>(&self, _: D) -> io::Result<()> {
        Ok(())
    }
}

/// Returns whether a fault of the whole is told already: a name of an appender that was left out.
fn is_told(error: &ConfigError, appender_errors: &AppenderErrors) -> bool {
    match error {
        ConfigError::NonexistentAppender(name) => appender_errors.leave_out_named(name),
        _ => false,
    }
}

/// Prints to standard error, each on a line behind `log4rs: `, the faults of appenders and their
/// filters, and those of the whole that are not told with them, and forgets all. Errors of printing
/// are ignored.
pub(crate) fn tell_faults(
    rt: &impl Eprint,
    appender_errors: &mut AppenderErrors,
    config_errors: &mut ConfigErrors,
) {
    appender_errors.print(rt);
    for error in config_errors.errors() {
        if !is_told(error, appender_errors) {
            print_fault(rt, error);
        }
    }
    appender_errors.handle(&Unheard);
    config_errors.handle(&Unheard);
}

/// Prints to standard error, each on a line behind `log4rs: `, the faults of appenders and their
/// filters, those of the whole that are not told with them, and then the warnings. Returns the
/// configuration. Errors of printing are ignored.
pub fn tell<A: Append, F: Filter>(
    rt: &impl Eprint,
    path: &str,
    built: Built<ConfigOf<A, F>>,
    warnings: &[String],
) -> ConfigOf<A, F>
    ensures { result ≡ built.config }
{
    let LoadedText {
        config,
        mut appender_errors,
        mut config_errors,
        ..
    } = built;
    let has_lost_all = has_lost_all(&config, &appender_errors);
    tell_faults(rt, &mut appender_errors, &mut config_errors);
    warn(rt, path, has_lost_all, warnings);
    config
}

/// Loads the configuration that the text of a source asks for, leaving out what has a fault, with a
/// reader of later versions if the text has a `refresh_rate`. Reports no faults or warnings yet;
/// the last warnings are about archives that lie on another device than their file, if the source
/// knows of devices.
/// The extension of the path names the format. Fails with `Format`, `Read`, `Parse` or `Memory`.
pub fn load_file<P: Parts<M>, R, M: StoreMaker, S: ConfigSource>(
    path: &str,
    source: &mut S,
    deserializers: &mut DeserializersWith<P, R>,
    maker: &mut M,
    surroundings: &Surroundings<'_>,
) -> Result<LoadedFile<ConfigBy<P, M>>, InitError>
    ensures ok { let builds = λ (top : TopSettings). BuildsAppenders
        (P.Builds (M.starts maker.old) surroundings.now) P.waiting_for top.appenders
        deserializers.old deserializers.new in
        IfOk result (λ loaded. LoadsFile builds (extension path.now) (S.answers source.old)
        (S.answers source.new) loaded.built.config loaded.built.appender_errors
        loaded.built.config_errors (option_map state_of loaded.reloader)) }
    ensures rolls { IfOk result (λ loaded. (top : TopSettings) × Begins (extension path.now)
        (S.answers source.old) (S.answers source.new) top (option_map state_of loaded.reloader)
        × (loaded.rolls_in_background ≡ any_in_background (appenders_asked
        (kinds_in deserializers.old) (P.waiting_for (handed_of deserializers.old))
        top.appenders))) }
    ensures err { IfErr result (RefusesToRead (extension path.now) (S.answers source.old)
        (S.answers source.new)) }
    ensures makers { KeepsMakers deserializers.old deserializers.new }
    ensures starts { M.starts maker.new ≡ M.starts maker.old }
{
    let (asked, reloader) = read_with_reloader(deserializers.alloc, path, source)?;
    Ok(load_asked(
        asked,
        reloader,
        path,
        source,
        deserializers,
        maker,
        surroundings,
    )?)
}

/// Loads a configuration that was read from a file.
fn load_asked<P: Parts<M>, R, M: StoreMaker, S: ConfigSource>(
    asked: RawConfig,
    reloader: Option<Reloader>,
    path: &str,
    source: &S,
    deserializers: &mut DeserializersWith<P, R>,
    maker: &mut M,
    surroundings: &Surroundings<'_>,
) -> Result<LoadedFile<ConfigBy<P, M>>, OutOfMemory>
    ensures loaded { let builds = BuildsAppenders (P.Builds (M.starts maker.old) surroundings.now)
        P.waiting_for (asked_by asked).appenders deserializers.old deserializers.new in
        IfOk result (λ loaded. IsLoaded builds (asked_by asked) loaded.built.config
        loaded.built.appender_errors loaded.built.config_errors) }
    ensures rolls { IfOk result (λ loaded. loaded.rolls_in_background
        ≡ any_in_background (appenders_asked (kinds_in deserializers.old)
        (P.waiting_for (handed_of deserializers.old)) (asked_by asked).appenders)) }
    ensures reloader { IfOk result (λ loaded. loaded.reloader ≡ reloader) }
    ensures makers { KeepsMakers deserializers.old deserializers.new }
    ensures starts { M.starts maker.new ≡ M.starts maker.old }
{
    let alloc = asked.alloc;
    let Prepared {
        plans,
        planned,
        mut warnings,
    } = asked.prepared(path, deserializers, surroundings)?;
    let env = &surroundings.env;
    Devices { alloc, source, env }.add_lines(&mut warnings, &planned)?;
    let named = Some(String::from_str(alloc, path)?);
    let rolls_in_background = plans.rolls_in_background();
    let parts = &mut deserializers.parts;
    let (built, refused) = build_noting(alloc, named, plans, parts, maker, surroundings)?;
    Ok(LoadedFile {
        built,
        warnings,
        reloader,
        rolls_in_background,
        planned,
        refused,
    })
}

/// Reads the text of a source; the extension of the path names its format. If the text has a
/// `refresh_rate`, also returns a reloader that keeps the text with the stamp that the source
/// returns after it, if any. Fails with `Format`, `Read`, `Parse` or `Memory`.
pub fn read_with_reloader<S: ConfigSource>(
    alloc: Global,
    path: &str,
    source: &mut S,
) -> Result<(RawConfig, Option<Reloader>), InitError>
    ensures ok { IfOk result (λ read. Begins (extension path.now) (S.answers source.old)
        (S.answers source.new) (asked_by read.0) (option_map state_of read.1)) }
    ensures err { IfErr result (RefusesToRead (extension path.now) (S.answers source.old)
        (S.answers source.new)) }
{
    let format = format_of_path(alloc, path)?;
    let text = source.read()?;
    let config = RawConfig::from_text(alloc, format, &text)?;
    let Some(rate) = config.refresh_rate() else {
        return Ok((config, None));
    };
    let stamp = source.modified().ok();
    Ok((config, Some(Reloader::new(format, text, stamp, Some(rate)))))
}

/// The result of a reload step, for a configuration whose appenders are over stores `S`.
pub type Reload<S> = ReloadOf<Config<S>, AppenderErrors, ConfigErrors>;

/// Makes the components of the caller's anew for each text, where there are makers of them.
impl<'z, P, R, M> Loads<M, Surroundings<'z>> for DeserializersWith<P, R>
where
    P: Parts<M>,
    R: Refill<P>,
    M: StoreMaker,
{
    type Config = ConfigBy<P, M>;

    type AppenderErrors = AppenderErrors;

    type ConfigErrors = ConfigErrors;

    ghost Gives = { λ maker around format text given old new. GivesText
        (λ top. BuildsAnew R.Refills (P.Builds (M.starts maker) around) P.waiting_for top.appenders
        old new) (handed_of new ≡ handed_of old) (settings_in format text) given };

    ghost Stays = { λ maker old maker' new.
        KeepsMakers old new × (M.starts maker' ≡ M.starts maker) };

    fn load(
        &mut self,
        format: Format,
        text: &str,
        maker: &mut M,
        surroundings: &Surroundings<'z>,
    ) -> Result<Built<ConfigBy<P, M>>, LoadError> {
        let config = RawConfig::from_text(self.alloc, format, text)?;
        Ok(self.create_anew(config, maker, surroundings)?)
    }
}

impl<P, R: Refill<P>> DeserializersWith<P, R> {
    /// Makes the components of the caller's anew, and builds a configuration of what has no fault.
    fn create_anew<M: StoreMaker>(
        &mut self,
        config: RawConfig,
        maker: &mut M,
        surroundings: &Surroundings<'_>,
    ) -> Result<Built<ConfigBy<P, M>>, OutOfMemory>
    where
        P: Parts<M>,
        ensures built { let builds = BuildsAnew R.Refills
            (P.Builds (M.starts maker.old) surroundings.now) P.waiting_for
            (asked_by config).appenders self.old self.new in
            IfOk result (λ built. IsLoaded builds (asked_by config) built.config
            built.appender_errors built.config_errors) }
        ensures rate { IfOk result (λ built. built.rate ≡ (asked_by config).rate) }
        ensures makers { KeepsMakers self.old self.new }
        ensures starts { M.starts maker.new ≡ M.starts maker.old }
    {
        self.refill()?;
        create_lossy(config, self, maker, surroundings)
    }
}

/// Reads the text of a source; the extension of the path names its format. Fails with `Format`,
/// `Read`, `Parse` or `Memory`.
pub fn read_config_file<S: ConfigSource>(
    alloc: Global,
    path: &str,
    source: &mut S,
) -> Result<RawConfig, InitError>
    ensures ok { IfOk result (λ config. IsRead (extension path.now) (S.answers source.old)
        (S.answers source.new) (asked_by config)) }
    ensures err { IfErr result (RefusesToRead (extension path.now) (S.answers source.old)
        (S.answers source.new)) }
{
    let format = format_of_path(alloc, path)?;
    let text = source.read()?;
    RawConfig::from_text(alloc, format, &text)
}

/// Loads the configuration that the text of a source asks for, leaving out what has a fault; the
/// extension of the path names its format. Prints each fault to standard error as `log4rs: ` and
/// its text. Fails with `Format`, `Read`, `Parse` or `Memory`.
pub fn load_config_file<P: Parts<M>, R, M: StoreMaker, S: ConfigSource>(
    rt: &impl Eprint,
    path: &str,
    source: &mut S,
    deserializers: &mut DeserializersWith<P, R>,
    maker: &mut M,
    surroundings: &Surroundings<'_>,
) -> Result<ConfigBy<P, M>, InitError>
    ensures ok { let builds = λ (top : TopSettings). BuildsAppenders
        (P.Builds (M.starts maker.old) surroundings.now) P.waiting_for top.appenders
        deserializers.old deserializers.new in
        IfOk result (λ config. (top : TopSettings) × (errors : List Error) × (found : List Fault)
        × IsRead (extension path.now) (S.answers source.old) (S.answers source.new) top
        × IsLoaded (builds top) top config errors found) }
    ensures err { IfErr result (RefusesToRead (extension path.now) (S.answers source.old)
        (S.answers source.new)) }
    ensures makers { KeepsMakers deserializers.old deserializers.new }
    ensures starts { M.starts maker.new ≡ M.starts maker.old }
{
    let config = read_config_file(deserializers.alloc, path, source)?;
    let built = create_lossy(config, deserializers, maker, surroundings)?;
    let LoadedText {
        config,
        mut appender_errors,
        mut config_errors,
        ..
    } = built;
    appender_errors.handle(rt);
    config_errors.handle(rt);
    Ok(config)
}
