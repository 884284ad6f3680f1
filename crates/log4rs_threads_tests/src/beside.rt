//! Sessions that log while another thread swaps the configuration.

ghost use Rattle.std.specs.Prelude.{◌≡◌, IfOk};

use crate::cores::{context, record, root, string};
use crate::sessions::{five, logged};
use log::{Level, LevelFilter};
use log4rs_append::{Append, Steps};
use log4rs_base::filter::ThresholdFilter;
use log4rs_base::{Context, LogError, OutOfMemory, Record};
use log4rs_config::runtime::BuildError;
use log4rs_config::runtime::appender::Filtered;
use log4rs_config::runtime::config::ConfigOf;
use log4rs_threads::{PublisherOf, SessionOf, Told};
use std::alloc::Global;
use std::sync::{Arc, Mutex, Wait};
use std::test::Fail;
use std::thread;
use std::thread::Threads;

/// A text that threads append to.
pub(crate) type Shared = Arc<Mutex<String>>;

/// Appends the message of each record, and a semicolon.
#[derive(Drop)]
pub(crate) struct Adding<R> {
    rt: R,
    text: Shared,
}

impl<R: Wait> Append for Adding<R> {
    fn append(&mut self, record: &Record, _: &Context<'_>) -> Result<(), LogError> {
        let mut text = self.text.lock(&self.rt);
        text.push_str(&record.message)?;
        text.push_str(";")?;
        Ok(())
    }

    fn append_retired(&mut self, record: &Record, context: &Context<'_>) -> Result<(), LogError> {
        self.append(record, context)
    }

    fn flush(&mut self) {}
}

impl<R: Wait> Steps for Adding<R> {
    fn step(&mut self) -> Result<bool, LogError> {
        Ok(false)
    }

    fn drive(&mut self) -> Result<(), LogError> {
        Ok(())
    }

    fn retire(&mut self) -> Result<(), LogError> {
        Ok(())
    }

    fn resume(&mut self) -> Result<(), LogError> {
        Ok(())
    }
}

/// Creates an empty text.
pub(crate) fn shared(alloc: Global) -> Result<Shared, OutOfMemory> {
    Ok(Arc::new(alloc, Mutex::new(String::new(alloc)))?)
}

/// Creates an appender to a text.
fn appender<R: Clone + Drop>(rt: &R, text: &Shared) -> Result<Adding<R>, OutOfMemory> {
    let rt = rt.clone()?;
    let text = Arc::try_clone(text)?;
    Ok(Adding { rt, text })
}

/// Builds a configuration with an appender to each text, `a` to the first of at most six, and a root
/// that names these appenders.
pub(crate) fn configured<R: Wait + Clone + Drop>(
    rt: &R,
    alloc: Global,
    texts: &[Shared],
    named: &str,
) -> Result<ConfigOf<Adding<R>, ThresholdFilter>, BuildError> {
    let mut builder = ConfigOf::builder(alloc);
    for (text, name) in texts.iter().zip(["a", "b", "c", "d", "e", "f"].iter()) {
        let appender = appender(rt, text)?;
        let name = string(alloc, *name)?;
        builder = builder.appender(Filtered::builder(alloc).build(name, appender))?;
    }
    builder.build(root(alloc, LevelFilter::Info, named)?)
}

type AddingPublisher<W> = PublisherOf<Adding<W>, ThresholdFilter, W>;

type AddingSession<W> = SessionOf<Adding<W>, ThresholdFilter, W>;

/// Logs `records` records. Returns whether the number of swaps seen never falls and is at most
/// five.
fn rises<W: Wait + Clone + Drop>(
    alloc: Global,
    session: &mut AddingSession<W>,
    records: u64,
) -> Result<bool, OutOfMemory> {
    let record = record(alloc, (Level::Info, "app", "r"))?;
    let around = context(alloc);
    let mut most = 0;
    for _ in 0..records {
        let Ok(report) = session.log(&record, &around) else {
            return Err(OutOfMemory);
        };
        if report.swaps < most {
            return Ok(false);
        }
        most = report.swaps;
    }
    Ok(most <= 5)
}

/// Swaps five times in another thread while this one logs. Returns whether the number of swaps seen
/// never falls, and what the publisher tells.
fn beside<W: Threads + Wait + Send + Sync + Clone + Drop>(
    rt: &W,
    alloc: Global,
    publisher: &mut AddingPublisher<W>,
    session: &mut AddingSession<W>,
) -> Result<(bool, Told), OutOfMemory>
    ensures { IfOk result (λ r. r.1.book ≡ publisher.old.book) }
{
    let (told, rises) = thread::join(rt, || five(alloc, publisher), || rises(alloc, session, 300));
    Ok((rises?, told?))
}

/// Logs a record in one session, swaps in another thread while the other session logs, tells the
/// first session of the swaps, and logs again. Returns both reports of the first session, and
/// whether the number of swaps seen by the other never falls.
fn meanwhile<W: Threads + Wait + Send + Sync + Clone + Drop>(
    rt: &W,
    alloc: Global,
    publisher: &mut AddingPublisher<W>,
    session: &mut AddingSession<W>,
    other: &mut AddingSession<W>,
) -> Result<(String, bool, String), OutOfMemory>
    requires { session.old.book ≡ publisher.old.book }
{
    let first = logged(alloc, session, "first")?;
    let (rises, told) = beside(rt, alloc, publisher, other)?;
    session.learn(told);
    Ok((first, rises, logged(alloc, session, "last")?))
}

/// Opens a publisher with two sessions and calls `meanwhile` with them. Returns the text of both
/// reports, and whether the number of swaps seen by the other session never falls.
fn beside_swaps<W: Threads + Wait + Send + Sync + Clone + Drop>(
    rt: &W,
    alloc: Global,
    texts: &[Shared],
) -> Result<(String, bool, String), Fail> {
    let own = rt.clone()?;
    let config = configured(rt, alloc, texts, "a")?;
    let (mut publisher, mut sessions) = PublisherOf::open(own, alloc, config, 2)?;
    let found = match (sessions.pop(), sessions.pop()) {
        (Some(mut session), Some(mut other)) => {
            meanwhile(rt, alloc, &mut publisher, &mut session, &mut other)
        }
        _ => Err(OutOfMemory),
    };
    publisher.end();
    drop(sessions);
    Ok(found?)
}

/// Returns six texts.
fn six(alloc: Global) -> Result<Vec<Shared>, OutOfMemory> {
    let mut texts = Vec::new(alloc);
    for _ in 0..6 {
        texts.push(shared(alloc)?)?;
    }
    Ok(texts)
}

#[test]
fn records_beside_swaps(rt: HostRuntime) -> Result<(), Fail> {
    let texts = six(rt.alloc())?;
    let (first, rises, last) = beside_swaps(&rt, rt.alloc(), &texts)?;
    assert!(rt; rises && first.as_str() == "0: 0 ok" && last.as_str() == "5: 5 ok");
    if let [first, .., last] = texts.as_slice() {
        assert!(rt; first.lock(&rt).starts_with("first;"));
        assert!(rt; last.lock(&rt).ends_with("last;"));
    }
    Ok(())
}
