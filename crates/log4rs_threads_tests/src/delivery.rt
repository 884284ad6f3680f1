use crate::cores::{
    Appender, Config, Core, Filters, Spoken, answered, configured, context, held, keepers, keeping,
    record, same, string,
};
use log::{Level, LevelFilter};
use log4rs_append::{Append, Log};
use log4rs_base::filter::ThresholdFilter;
use log4rs_base::{Entry, OutOfMemory};
use std::alloc::Global;
use std::test::Fail;

/// Messages, and the fault that each names.
const FAULTS: &str = "\
store|the store refused an operation
memory|out of memory
policy|the policy failed
m|2 flushes";

/// Logs a record of each message, and one whose faults are not told. Returns whether each fault was
/// told in its place.
fn tells_each(alloc: Global, core: &mut Core) -> Result<bool, OutOfMemory> {
    let mut is_told = true;
    for row in FAULTS.lines() {
        let (message, fault) = row.split_once('|').unwrap_or((row, ""));
        let answered = answered(alloc, core, (Level::Info, "t", message))?;
        let told = format!(in alloc;
            "appender 0: {fault};appender 2: {fault};appender 0: {fault};"
        )?;
        is_told = is_told && answered.as_str() == told.as_str();
    }
    Log::log(
        core,
        &record(alloc, (Level::Info, "t", "end"))?,
        &context(alloc),
    );
    Ok(is_told)
}

#[test]
fn each_fault_is_told_and_stops_no_other(rt: HostRuntime) -> Result<(), Fail> {
    let alloc = rt.alloc();
    let config = configured(
        alloc,
        keepers(alloc, "!a b !c")?,
        &[],
        LevelFilter::Info,
        "a b c a",
    )?;
    let mut core = Core::new(alloc, config)?;
    core.flush();
    Log::flush(&mut core);
    assert!(rt; tells_each(alloc, &mut core)?);
    let expected = "\nINFO store|INFO memory|INFO policy|INFO m|INFO end|\n\n";
    same(&rt, held(alloc, &core)?.as_str(), expected);
    Ok(())
}

/// Returns entries with these levels, each before a message, which may be empty.
fn entries(alloc: Global, lines: &str) -> Result<Vec<Entry<'static>>, OutOfMemory> {
    let mut entries = Vec::new(alloc);
    for line in lines.lines() {
        let (level, message) = line.split_once(' ').unwrap_or((line, ""));
        let level = level.parse::<Level>().unwrap_or(Level::Error);
        let logged = record(alloc, (level, "t", message))?;
        let context = context(alloc);
        entries.push(Entry { logged, context })?;
    }
    Ok(entries)
}

/// Returns an appender with a custom filter and a threshold.
fn guarded(alloc: Global) -> Result<Appender, OutOfMemory> {
    let warnings = Filters::Threshold(ThresholdFilter::new(LevelFilter::Warn));
    let builder = Appender::builder(alloc)
        .filter(Filters::Custom(Spoken))?
        .filters(vec![in alloc; warnings]?)?;
    Ok(builder.build(string(alloc, "guarded")?, keeping(alloc, false)))
}

/// Returns a configuration with this appender, which gets one record directly.
fn lent(alloc: Global, guarded: Appender) -> Result<Config, Fail> {
    let appenders = vec![in alloc; guarded]?;
    let mut config = configured(alloc, appenders, &[], LevelFilter::Debug, "guarded")?;
    if config.appenders().len() == 1 {
        let lent = record(alloc, (Level::Info, "t", ""))?;
        config.appender_mut(0).append(&lent, &context(alloc))?;
    }
    Ok(config)
}

#[test]
fn filters_decide_who_gets_a_record(rt: HostRuntime) -> Result<(), Fail> {
    let alloc = rt.alloc();
    let guarded = guarded(alloc)?;
    assert!(rt; guarded.filters().len() == 2 && guarded.name() == "guarded");
    let mut core = Core::new(alloc, lent(alloc, guarded)?)?;
    let entries = entries(alloc, "info spoken\ninfo\ntrace low\nwarn")?;
    let answers = core.log_all(entries.as_slice())?;
    assert!(rt; answers.len() == 4 && answers.iter().all(|answer| answer.is_ok()));
    let expected = "INFO |INFO spoken|WARN |\n";
    same(&rt, held(alloc, &core)?.as_str(), expected);
    Ok(())
}
