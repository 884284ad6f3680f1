//! Loggers and their handles.

ghost use Rattle.std.specs.Prelude.{◌≡◌, IfOk, IfErr, OnOk, option_map};
ghost use Rattle.log4rs_settings.specs.Paths.{extension};
ghost use Rattle.log4rs_settings.specs.Reload.{state_of};
ghost use Rattle.log4rs_settings.specs.Top.{TopSettings};
ghost use Rattle.log4rs_build.specs.Asked.{BuildsAppenders};
ghost use Rattle.log4rs_build.specs.Deserializers.{KeepsMakers};
ghost use Rattle.log4rs_build.specs.Loading.{RefusesToRead};
ghost use Rattle.log4rs_build.specs.Raw.{asked_by};
ghost use Rattle.log4rs_build.specs.Begins.{WasCreated, WasLoaded, WasRefused};

use log4rs_append::Append;
use log4rs_base::filter::{Filter, FilterOf};
use log4rs_base::{LogError, OutOfMemory};
use log4rs_build::{
    BehindOf, BuildAppender, ConfigBy, DeserializersWith, InitError, LoadedFile, Parts, RawConfig,
    Surroundings, create_raw_config, load_file, tell,
};
use log4rs_config::runtime::Configured;
use log4rs_config::runtime::config::ConfigOf;
use log4rs_rolling::StoreMaker;
use log4rs_settings::{ConfigSource, Reloader};
use log4rs_threads::{HandleOf, Handler, LoggerOf};
use std::alloc::Global;

/// A logger whose configuration is built from settings, over stores `S`, with appenders `A`,
/// filters `F`, encoders `E` and triggers `T` of the caller's, and runtime `W`.
pub type LoggerFrom<A, F, E, T, S, W> = LoggerOf<BehindOf<A, E, T, S>, FilterOf<F>, Handler, W>;

/// The handle of such a logger.
pub type HandleFrom<A, F, E, T, S, W> = HandleOf<BehindOf<A, E, T, S>, FilterOf<F>, Handler, W>;

/// A logger of what a `P` builds over stores that an `M` makes, with runtime `W`.
pub type LoggerBy<P, M, W> = LoggerOf<
    <P as BuildAppender<M>>::Appender,
    <P as BuildAppender<M>>::Filter,
    Handler,
    W,
>;

/// The handle of such a logger.
pub type HandleBy<P, M, W> = HandleOf<
    <P as BuildAppender<M>>::Appender,
    <P as BuildAppender<M>>::Filter,
    Handler,
    W,
>;

/// Creates a logger of a configuration, and its handle. Faults are printed to standard error.
pub fn init_config<A: Append + Drop, F: Filter + Drop, W: Clone + Drop>(
    rt: W,
    alloc: Global,
    config: ConfigOf<A, F>,
) -> Result<(LoggerOf<A, F, Handler, W>, HandleOf<A, F, Handler, W>), OutOfMemory> {
    let logger = LoggerOf::new(rt, alloc, config)?;
    let handle = logger.handle()?;
    Ok((logger, handle))
}

/// Creates a logger of a configuration, and its handle. Faults go to the handler until the
/// configuration is swapped.
pub fn init_config_with_err_handler<A: Append + Drop, F: Filter + Drop, W: Clone + Drop>(
    rt: W,
    alloc: Global,
    config: ConfigOf<A, F>,
    handler: Box<dyn Fn(&LogError) + Send + Sync + Drop>,
) -> Result<(LoggerOf<A, F, Handler, W>, HandleOf<A, F, Handler, W>), OutOfMemory>
    requires { IsAlwaysCallable handler }
{
    let logger = LoggerOf::new_with_err_handler(rt, alloc, config, handler)?;
    let handle = logger.handle()?;
    Ok((logger, handle))
}

/// Builds a configuration, and creates its logger and its handle. Fails with the faults of
/// appenders and filters, else with those of the whole; components that were taken by then are
/// dropped.
pub fn init_raw_config<P: Parts<M>, R, M: StoreMaker, W: Clone + Drop>(
    rt: W,
    config: RawConfig,
    deserializers: &mut DeserializersWith<P, R>,
    maker: &mut M,
    surroundings: &Surroundings<'_>,
) -> Result<(LoggerBy<P, M, W>, HandleBy<P, M, W>), InitError>
    ensures ok { let seen = ⟦<ConfigBy<P, M> as Configured>⟧ in
        let builds = BuildsAppenders (P.Builds (M.starts maker.old) surroundings.now)
        P.waiting_for (asked_by config).appenders deserializers.old deserializers.new in
        OnOk result (WasCreated builds (asked_by config) seen.settings) }
    ensures err { let seen = ⟦<ConfigBy<P, M> as Configured>⟧ in
        let builds = BuildsAppenders (P.Builds (M.starts maker.old) surroundings.now)
        P.waiting_for (asked_by config).appenders deserializers.old deserializers.new in
        IfErr result (WasRefused builds (asked_by config) seen.settings) }
    ensures makers { KeepsMakers deserializers.old deserializers.new }
    ensures starts { M.starts maker.new ≡ M.starts maker.old }
{
    let alloc = deserializers.alloc();
    let config = create_raw_config(config, deserializers, maker, surroundings)?;
    Ok(init_config(rt, alloc, config)?)
}

/// Loads the configuration that the text of a source asks for, leaving out what has a fault, and
/// creates its logger, its handle, and a reloader if the text has a `refresh_rate`. The extension
/// of the path names the format. Prints each fault to standard error as `log4rs: ` and its text, and
/// a warning if the reloader would make rolled files anew, which a `ConfigFile` does not. Fails with
/// `Format`, `Read`, `Parse` or `Memory`.
pub fn init_file<P, R, M, S, W>(
    rt: W,
    path: &str,
    source: &mut S,
    deserializers: &mut DeserializersWith<P, R>,
    maker: &mut M,
    surroundings: &Surroundings<'_>,
) -> Result<(LoggerBy<P, M, W>, HandleBy<P, M, W>, Option<Reloader>), InitError>
where
    P: Parts<M>,
    M: StoreMaker,
    S: ConfigSource,
    W: Eprint + Clone + Drop,
    ensures ok { let seen = ⟦<ConfigBy<P, M> as Configured>⟧ in
        let builds = λ (top : TopSettings). BuildsAppenders
        (P.Builds (M.starts maker.old) surroundings.now) P.waiting_for top.appenders
        deserializers.old deserializers.new in
        IfOk result (λ made. WasLoaded builds seen.settings (extension path.now)
        (S.answers source.old) (S.answers source.new) (option_map state_of made.2)) }
    ensures err { IfErr result (RefusesToRead (extension path.now) (S.answers source.old)
        (S.answers source.new)) }
    ensures makers { KeepsMakers deserializers.old deserializers.new }
    ensures starts { M.starts maker.new ≡ M.starts maker.old }
{
    let alloc = deserializers.alloc();
    let loaded = load_file(path, source, deserializers, maker, surroundings)?;
    loaded.warn_of_reloader(&rt, path);
    let LoadedFile {
        built,
        warnings,
        reloader,
        ..
    } = loaded;
    let config = tell(&rt, path, built, &warnings);
    let (logger, handle) = init_config(rt, alloc, config)?;
    Ok((logger, handle, reloader))
}
