//! Cases of routing: a configuration, the appenders that records reach, and the texts that these hold.

use crate::fault::Fault;
use crate::fields::{
    field, flag, level, level_filter, list, string_field, strings, text, texts_of,
};
use crate::plain::{Route, plain_route};
use crate::rendered::push_level;
use crate::verdict::{Verdict, compare};
use jiff::Timestamp;
use jiff::tz::TimeZone;
use log::{Level, LevelFilter};
use log4rs_append::{Append, MemoryAppender};
use log4rs_base::filter::ThresholdFilter;
use log4rs_base::{Context, LogError, Record};
use log4rs_config::runtime::appender::Filtered;
use log4rs_config::runtime::builder::ConfigBuilderOf;
use log4rs_config::runtime::{BuildError, ConfigErrors, Logger, Root};
use log4rs_config::{CoreError, CoreOf};
use log4rs_encode::pattern::PatternEncoder;
use serde_json::Value;
use std::alloc::Global;

/// Holds the level and the target of each record, then fails with its own name, so that the errors of
/// a record name the appenders that it reached, in order.
#[derive(Drop)]
struct Sink {
    alloc: Global,
    name: String,
    memory: MemoryAppender<PatternEncoder>,
}

impl Sink {
    fn new(alloc: Global, name: String) -> Result<Sink, Fault> {
        let encoder = PatternEncoder::new(alloc, "{l} {t}")?;
        let memory = MemoryAppender::new(alloc, encoder);
        Ok(Sink {
            alloc,
            name,
            memory,
        })
    }
}

impl Append for Sink {
    fn append(&mut self, record: &Record, context: &Context<'_>) -> Result<(), LogError> {
        self.memory.append(record, context)?;
        Err(LogError::Custom(String::from_str(self.alloc, self.name.as_str())?))
    }

    fn append_retired(&mut self, record: &Record, context: &Context<'_>) -> Result<(), LogError> {
        self.append(record, context)
    }

    fn flush(&mut self) {}
}

/// An appender of a case, with its filters.
type CaseAppender = Filtered<Sink, ThresholdFilter>;

/// The core of a case.
type CaseCore = CoreOf<Sink, ThresholdFilter>;

/// Returns the text of a refused configuration: its faults, in order.
fn refusal(alloc: Global, faults: &[String]) -> Result<String, Fault> {
    Ok(format!(in alloc; "refused {faults:?}")?)
}

/// Returns the beginning of the text of a core: its most verbose level.
fn head(alloc: Global, most: LevelFilter) -> Result<String, Fault> {
    Ok(format!(in alloc; "{most} at most; ")?)
}

/// Appends whether a record is enabled, and the appenders that it reaches, in order.
fn push_answer(
    alloc: Global,
    told: &mut String,
    enabled: bool,
    appenders: &[String],
) -> Result<(), Fault> {
    Ok(told.push_str(format!(in alloc; "{enabled} at {appenders:?}; ")?.as_str())?)
}

/// Appends the texts that an appender holds.
fn push_held(alloc: Global, told: &mut String, texts: &[String]) -> Result<(), Fault> {
    Ok(told.push_str(format!(in alloc; "held {texts:?}; ")?.as_str())?)
}

/// Returns the expected text of a case.
fn expected_outcome(alloc: Global, case: &Value) -> Result<String, Fault> {
    if let Some(faults) = case.get("refused") {
        return refusal(alloc, texts_of(alloc, faults)?.as_slice());
    }
    let mut told = head(alloc, level_filter(field(case, "max_log_level")?)?)?;
    for record in list(case, "records")? {
        let enabled = flag(record, "enabled")?;
        let appenders = strings(alloc, record, "appenders")?;
        push_answer(alloc, &mut told, enabled, appenders.as_slice())?;
    }
    for appender in list(case, "appenders")? {
        push_held(
            alloc,
            &mut told,
            strings(alloc, appender, "texts")?.as_slice(),
        )?;
    }
    Ok(told)
}

/// Returns an appender with the thresholds of the case.
fn appender(alloc: Global, case: &Value) -> Result<CaseAppender, Fault> {
    let mut filters = Vec::new(alloc);
    for threshold in list(case, "thresholds")? {
        filters.push(ThresholdFilter::new(level_filter(threshold)?))?;
    }
    let builder = Filtered::builder(alloc).filters(filters)?;
    let sink = Sink::new(alloc, string_field(alloc, case, "name")?)?;
    Ok(builder.build(sink.name.clone()?, sink))
}

/// Returns the appenders of a case.
fn appenders(alloc: Global, case: &Value) -> Result<Vec<CaseAppender>, Fault> {
    let mut appenders = Vec::new(alloc);
    for value in list(case, "appenders")? {
        appenders.push(appender(alloc, value)?)?;
    }
    Ok(appenders)
}

/// Returns a logger.
fn logger(alloc: Global, case: &Value) -> Result<Logger, Fault> {
    let builder = Logger::builder(alloc).appenders(strings(alloc, case, "appenders")?)?;
    let name = string_field(alloc, case, "name")?;
    let level = level_filter(field(case, "level")?)?;
    Ok(builder.additive(flag(case, "additive")?).build(name, level))
}

/// Returns the loggers of a case.
fn loggers(alloc: Global, case: &Value) -> Result<Vec<Logger>, Fault> {
    let mut loggers = Vec::new(alloc);
    for value in list(case, "loggers")? {
        loggers.push(logger(alloc, value)?)?;
    }
    Ok(loggers)
}

/// Returns the root.
fn root(alloc: Global, case: &Value) -> Result<Root, Fault> {
    let builder = Root::builder(alloc).appenders(strings(alloc, case, "appenders")?)?;
    Ok(builder.build(level_filter(field(case, "level")?)?))
}

/// Returns the texts of errors, in order.
fn texts(alloc: Global, errors: &ConfigErrors) -> Result<Vec<String>, Fault> {
    let mut texts = Vec::new(alloc);
    for error in errors.errors() {
        texts.push(format!(in alloc; "{error}")?)?;
    }
    Ok(texts)
}

/// The core of a case, or the text of its refused configuration.
type CoreOrRefusal = Result<CaseCore, String>;

/// Builds a core of these parts.
fn core_of(
    alloc: Global,
    root: Root,
    loggers: Vec<Logger>,
    appenders: Vec<CaseAppender>,
) -> Result<CaseCore, BuildError> {
    let builder = ConfigBuilderOf::default(alloc).appenders(appenders)?;
    let config = builder.loggers(loggers)?.build(root)?;
    Ok(CoreOf::new(alloc, config)?)
}

/// Builds the core of a case.
fn built(alloc: Global, case: &Value) -> Result<CoreOrRefusal, Fault> {
    let root = root(alloc, field(case, "root")?)?;
    let loggers = loggers(alloc, case)?;
    let appenders = appenders(alloc, case)?;
    match core_of(alloc, root, loggers, appenders) {
        Ok(core) => Ok(Ok(core)),
        Err(BuildError::Errors(errors)) => {
            let faults = texts(alloc, &errors)?;
            Ok(Err(refusal(alloc, faults.as_slice())?))
        }
        Err(BuildError::Memory) => Err(Fault::Memory),
    }
}

/// Returns a context, which does not affect routing.
fn context(alloc: Global) -> Context<'static> {
    Context::new(alloc, Timestamp::UNIX_EPOCH, TimeZone::UTC)
}

/// Returns the names of the appenders that a record reached, in order.
fn reached(alloc: Global, logged: Result<(), CoreError>) -> Result<Vec<String>, Fault> {
    let mut names = Vec::new(alloc);
    match logged {
        Ok(()) => {}
        Err(CoreError::Memory) => return Err(Fault::Memory),
        Err(CoreError::Appenders(errors)) => {
            for error in errors {
                match error.fault {
                    LogError::Custom(name) => names.push(name)?,
                    _ => return Err(Fault::Memory),
                }
            }
        }
    }
    Ok(names)
}

/// Logs a record without a message.
fn logged(
    alloc: Global,
    core: &mut CaseCore,
    level: Level,
    target: String,
) -> Result<(), CoreError> {
    let record = Record::new(level, target, String::new(alloc));
    core.log(&record, &context(alloc))
}

/// Logs the record of a case, and appends whether it is enabled and where it went.
fn push_logged(
    alloc: Global,
    told: &mut String,
    core: &mut CaseCore,
    case: &Value,
) -> Result<(), Fault> {
    let level = level(case, "level")?;
    let target = string_field(alloc, case, "target")?;
    let enabled = core.enabled(level, target.as_str());
    let appenders = reached(alloc, logged(alloc, core, level, target))?;
    push_answer(alloc, told, enabled, appenders.as_slice())
}

/// Logs the records of a case. Returns the text of the core, its routing and what its appenders hold.
fn outcome_of(alloc: Global, core: &mut CaseCore, case: &Value) -> Result<String, Fault> {
    let mut told = head(alloc, core.max_log_level())?;
    for value in list(case, "records")? {
        push_logged(alloc, &mut told, core, value)?;
    }
    for appender in core.config().appenders() {
        push_held(alloc, &mut told, appender.appender().memory.records())?;
    }
    Ok(told)
}

/// Returns the route of a target in a core.
fn route_of(alloc: Global, core: &CaseCore, target: &str) -> Result<Route, Fault> {
    let (level, places) = core.route(target);
    let mut appenders = Vec::new(alloc);
    for at in places {
        if let Some(appender) = core.config().appenders().get(*at) {
            appenders.push(String::from_str(alloc, appender.name())?)?;
        }
    }
    Ok(Route { level, appenders })
}

/// Appends a route.
fn push_route(alloc: Global, told: &mut String, route: &Route) -> Result<(), Fault> {
    push_level(alloc, told, route.level, route.appenders.as_slice())
}

/// Compares the routes of a core with those of a linear search of its loggers.
fn compare_routes(alloc: Global, core: &CaseCore, case: &Value) -> Result<Verdict, Fault> {
    let config = core.config();
    let (mut plain, mut found) = (String::new(alloc), String::new(alloc));
    for value in list(case, "records")? {
        let target = text(field(value, "target")?)?;
        let route = plain_route(alloc, config.root(), config.loggers(), target)?;
        push_route(alloc, &mut plain, &route)?;
        push_route(alloc, &mut found, &route_of(alloc, core, target)?)?;
    }
    Ok(compare(alloc, &plain, &found)?)
}

/// Logs the records of a case and compares the text, and then the routes.
fn replay_records(
    alloc: Global,
    core: &mut CaseCore,
    case: &Value,
    expected: &String,
) -> Result<Verdict, Fault> {
    let came = outcome_of(alloc, core, case)?;
    if came.as_str() != expected.as_str() {
        return Ok(compare(alloc, expected, &came)?);
    }
    compare_routes(alloc, core, case)
}

/// Replays a case, and compares the routes of its targets with those of a linear search.
pub fn replay_routing(alloc: Global, case: &Value) -> Result<Verdict, Fault> {
    let expected = expected_outcome(alloc, case)?;
    match built(alloc, case)? {
        Ok(mut core) => replay_records(alloc, &mut core, case, &expected),
        Err(refusal) => Ok(compare(alloc, &expected, &refusal)?),
    }
}
