use crate::cores::{Builder, Config, builder, keepers, root, same};
use log::LevelFilter;
use log4rs_base::OutOfMemory;
use log4rs_config::routes::Routes;
use log4rs_config::runtime::Logger;
use std::alloc::{AllocError, Global};
use std::test::Fail;

/// Returns a builder with duplicate appenders and loggers, an invalid logger name, and names of
/// appenders that do not exist.
fn faulty(alloc: Global) -> Result<Builder, OutOfMemory> {
    let rows = [
        ("x", LevelFilter::Info, false, "b gone"),
        ("x", LevelFilter::Trace, true, "a"),
        ("y:", LevelFilter::Trace, true, "nowhere a"),
        ("y:", LevelFilter::Trace, true, "a"),
    ];
    builder(alloc, keepers(alloc, "a b a")?, &rows)
}

/// Returns the errors that a lossy build told.
const TOLD: &str = "errors in the configuration: Duplicate appender name `a`; \
    Reference to nonexistent appender: `missing`; Reference to nonexistent appender: `gone`; \
    Duplicate logger name `x`; Invalid logger name `y:`; Duplicate logger name `y:`";

/// Writes the level of a root or of a logger, and how many appenders it has.
fn show(shown: &mut String, level: LevelFilter, appenders: &[String]) -> Result<(), AllocError> {
    let (level, count) = (level.as_str(), appenders.len());
    write!(shown, "{level} {count}; ")
}

/// Returns the parts of a configuration, whose root is set to Debug and then to Off.
fn parts(alloc: Global, config: Config) -> Result<String, AllocError> {
    let mut config = config;
    let mut shown = format!(in alloc; "{} ", config.appenders().len())?;
    config.set_root_level(LevelFilter::Debug);
    show(&mut shown, config.root().level(), config.root().appenders())?;
    let (_, mut root, loggers) = config.into_parts();
    root.set_level(LevelFilter::Off);
    show(&mut shown, root.level(), root.appenders())?;
    for logger in &loggers {
        let (name, additive) = (logger.name(), logger.additive());
        write!(shown, "{name} {additive} ")?;
        show(&mut shown, logger.level(), logger.appenders())?;
    }
    Ok(shown)
}

#[test]
fn what_has_no_fault_is_kept(rt: HostRuntime) -> Result<(), Fail> {
    let root = root(rt.alloc(), LevelFilter::Info, "a missing b")?;
    let (config, mut errors) = faulty(rt.alloc())?.build_lossy(root)?;
    same(&rt, format!(in rt.alloc(); "{errors}")?.as_str(), TOLD);
    errors.handle(&rt);
    assert!(rt; errors.is_empty());
    let kept = "2 DEBUG 2; OFF 2; x false INFO 1; ";
    same(&rt, parts(rt.alloc(), config)?.as_str(), kept);
    Ok(())
}

/// Returns loggers whose names are the prefix and a number.
fn many(alloc: Global, prefix: &str, count: u32) -> Result<Vec<Logger>, OutOfMemory> {
    let mut loggers = Vec::new(alloc);
    for at in 0..count {
        let name = format!(in alloc; "{prefix}{at}")?;
        loggers.push(Logger::builder(alloc).build(name, LevelFilter::Warn))?;
    }
    Ok(loggers)
}

#[test]
fn many_loggers_are_built(rt: HostRuntime) -> Result<(), Fail> {
    let builder = Builder::default(rt.alloc());
    let builder = builder.loggers(many(rt.alloc(), "m", 120_000)?)?;
    let builder = builder.loggers(many(rt.alloc(), "m", 120_000)?)?;
    let (config, errors) = builder.build_lossy(root(rt.alloc(), LevelFilter::Warn, "")?)?;
    assert!(rt; config.loggers().len() == 120_000 && errors.errors().len() == 120_000);
    Ok(())
}

/// Returns a name of this many components.
fn long_name(alloc: Global, components: usize) -> Result<String, AllocError> {
    let mut name = "a::".repeat(alloc, components)?;
    name.push('a')?;
    Ok(name)
}

/// Returns routes by many loggers, one of which has this name.
fn routes(alloc: Global, name: String) -> Result<Routes, OutOfMemory> {
    let mut loggers = many(alloc, "m", 40_000)?;
    loggers.push(Logger::builder(alloc).build(name, LevelFilter::Trace))?;
    let appenders: Vec<Logger> = Vec::new(alloc);
    let root = root(alloc, LevelFilter::Debug, "")?;
    Routes::new(alloc, &appenders, &root, &loggers)
}

#[test]
fn many_loggers_and_long_names_are_routed(rt: HostRuntime) -> Result<(), Fail> {
    let name = long_name(rt.alloc(), 8_000)?;
    let deep = long_name(rt.alloc(), 39_999)?;
    let routes = routes(rt.alloc(), name.clone()?)?;
    let levels = [
        routes.route("m39999::x").0,
        routes.route("m40000").0,
        routes.route("a::a").0,
        routes.route(name.as_str()).0,
        routes.route(deep.as_str()).0,
    ];
    let (warn, debug, trace) = (LevelFilter::Warn, LevelFilter::Debug, LevelFilter::Trace);
    assert!(rt; levels == [warn, debug, debug, trace, trace]);
    Ok(())
}
