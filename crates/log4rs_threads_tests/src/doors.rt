ghost use Rattle.std.specs.Prelude.{◌≡◌, [], length};
ghost use Rattle.log4rs_config.specs.Routing.{deliveries};
ghost use Rattle.log4rs_threads.specs.NotedDoors.{inner_of, steps_on};
ghost use Rattle.log4rs_threads.specs.Steps.{Delivers};

use crate::cores::{context, record, same};
use crate::journaled::{configured, held, journals};
use crate::sessions::{JournaledSession, shown};
use log::Level;
use log4rs_append::Append;
use log4rs_base::filter::Filter;
use log4rs_base::{Context, LogError, OutOfMemory, Record};
use log4rs_config::runtime::Configured;
use log4rs_config::{AppendError, CoreError};
use log4rs_threads::{Doors, Handler, LoadedOf, LoggerOf, NotedDoors, PublisherOf, TellFault};
use std::alloc::Global;
use std::sync::Wait;
use std::test::Fail;

/// Doors that note their steps. Those at odd places fail.
#[derive(Drop)]
struct Steps {
    alloc: Global,
    size: usize,
    taken: String,
}

impl Steps {
    fn new(alloc: Global, size: usize) -> Steps
        ensures { result.size ≡ size }
    {
        Steps {
            alloc,
            size,
            taken: String::new(alloc),
        }
    }
}

impl Doors for Steps {
    ghost size = { λ d. d.size };

    ghost tells = { λ _. ⊥ };

    ghost steps = { λ _. [] };

    fn size(&self) -> usize {
        self.size
    }

    fn step(&mut self, at: usize, logged: &Record, _: &Context<'_>) -> Result<(), LogError> {
        write!(self.taken, "{at} {}; ", logged.message)?;
        if at % 2 == 0 {
            return Ok(());
        }
        Err(LogError::Custom(format!(in self.alloc; "fault at {at}")?))
    }
}

/// Logs a record on doors that note their steps: one step for each delivery, in order, or none if
/// memory ran out.
fn log_on<A: Append, F: Filter, H, W, D: Doors>(
    loaded: &LoadedOf<A, F, H, W>,
    doors: &mut NotedDoors<D>,
    logged: &Record,
    context: &Context<'_>,
) -> Result<(), CoreError>
    requires { D.size (inner_of doors.old)
        ≡ length (⟦<LoadedOf<A, F, H, W> as Configured>⟧.settings loaded.now).appenders }
    ensures { let seen = ⟦<LoadedOf<A, F, H, W> as Configured>⟧ in
        Delivers (deliveries (seen.settings loaded.now) (seen.admits loaded.now) logged.now)
        logged.now context.now (Unit {0}) (steps_on doors.old) (steps_on doors.new) result }
{
    loaded.log_on(doors, logged, context)
}

/// Returns the errors of a result, each with its place.
fn faults(alloc: Global, answer: &Result<(), CoreError>) -> Result<String, OutOfMemory> {
    let mut shown = String::new(alloc);
    match answer {
        Ok(()) => shown.push_str("none")?,
        Err(CoreError::Memory) => return Err(OutOfMemory),
        Err(CoreError::Appenders(errors)) => {
            for error in errors {
                let (at, fault) = (error.appender, &error.fault);
                write!(shown, "{at}: {fault}; ")?;
            }
        }
    }
    Ok(shown)
}

/// Logs a record of this level on doors that note their steps. Returns the steps and the errors.
fn steps_of<A: Append, F: Filter, H, W>(
    alloc: Global,
    loaded: &LoadedOf<A, F, H, W>,
    level: Level,
) -> Result<String, OutOfMemory> {
    let record = record(alloc, (level, "t", "one"))?;
    let mut doors = NotedDoors::new(Steps::new(alloc, loaded.size()));
    let answer = log_on(loaded, &mut doors, &record, &context(alloc));
    let faults = faults(alloc, &answer)?;
    Ok(format!(in alloc; "{}{faults}", doors.inner().taken)?)
}

/// A teller that notes what it is told.
#[derive(Drop)]
struct Heard {
    told: String,
    lost: bool,
}

impl TellFault for Heard {
    ghost told = { λ _ _. Unit {0} };

    fn tell_append(&mut self, error: &AppendError) {
        if write!(self.told, "{error}; ").is_err() {
            self.lost = true;
        }
    }

    fn tell_memory(&mut self) {
        self.lost = true;
    }
}

/// Logs an Info record on doors whose steps fail at odd places. Returns what is told of it.
fn told_of<A: Append, F: Filter, H, W>(
    alloc: Global,
    loaded: &LoadedOf<A, F, H, W>,
) -> Result<String, OutOfMemory> {
    let record = record(alloc, (Level::Info, "t", "one"))?;
    let mut doors = Steps::new(alloc, loaded.size());
    let mut heard = Heard {
        told: String::new(alloc),
        lost: false,
    };
    loaded.log_telling(&mut doors, &mut heard, &record, &context(alloc))?;
    if heard.lost {
        return Err(OutOfMemory);
    }
    Ok(heard.told)
}

/// The steps and the errors of an Info record.
const STEPPED: &str = "0 one; 1 one; 2 one; 3 one; 1: fault at 1; 3: fault at 3; ";

/// What is told of an Info record.
const TOLD: &str = "appender 1: fault at 1; appender 3: fault at 3; ";

#[test]
fn steps_of_loggers(rt: HostRuntime) -> Result<(), Fail> {
    let alloc = rt.alloc();
    let journals = journals(&rt, alloc)?;
    let config = configured(alloc, &journals, "a b c d")?;
    let logger: LoggerOf<_, _, Handler, _> = LoggerOf::new(rt, alloc, config)?;
    let loaded = logger.load()?;
    same(
        &rt,
        steps_of(alloc, &loaded, Level::Info)?.as_str(),
        STEPPED,
    );
    same(
        &rt,
        steps_of(alloc, &loaded, Level::Debug)?.as_str(),
        "none",
    );
    same(&rt, told_of(alloc, &loaded)?.as_str(), TOLD);
    same(&rt, held(alloc, &journals)?.as_str(), ";;;;;;");
    Ok(())
}

/// Logs a record in a session. Returns the steps and the report.
fn taken<W: Wait + Clone + Drop>(
    alloc: Global,
    session: &mut JournaledSession<W>,
) -> Result<String, OutOfMemory> {
    let record = record(alloc, (Level::Info, "t", "one"))?;
    let mut doors = Steps::new(alloc, session.size());
    let Ok(report) = session.log_on(&mut doors, &record, &context(alloc)) else {
        return Err(OutOfMemory);
    };
    let mut text = doors.taken;
    text.push_str(&shown(alloc, &report)?)?;
    Ok(text)
}

#[test]
fn steps_of_sessions(rt: HostRuntime) -> Result<(), Fail> {
    let alloc = rt.alloc();
    let journals = journals(&rt, alloc)?;
    let config = configured(alloc, &journals, "c b b")?;
    let (publisher, mut sessions) = PublisherOf::open(rt, alloc, config, 1)?;
    let found = match sessions.pop() {
        Some(mut session) => taken(alloc, &mut session),
        None => Err(OutOfMemory),
    };
    publisher.end();
    let failed = "1 fault at 1";
    let expected = format!(in alloc; "2 one; 1 one; 1 one; 0: 2 ok {failed} {failed}")?;
    same(&rt, found?.as_str(), expected.as_str());
    same(&rt, held(alloc, &journals)?.as_str(), ";;;;;;");
    Ok(())
}
