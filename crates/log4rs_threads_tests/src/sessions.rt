ghost use Rattle.std.specs.Prelude.{◌≡◌, IfOk, OnOk};

use crate::cores::{context, record, root, same};
use crate::journaled::{Journal, configured, held, journals};
use log::{Level, LevelFilter};
use log4rs_append::Append;
use log4rs_base::filter::ThresholdFilter;
use log4rs_base::{Context, OutOfMemory, Record};
use log4rs_journal::JournalAppender;
use log4rs_threads::laws::what_is_seen_is_what_was_swapped;
use log4rs_threads::{PublisherOf, SessionError, SessionOf, SessionReport, Told};
use std::alloc::Global;
use std::sync::Wait;
use std::test::Fail;

pub(crate) type JournaledPublisher<W> = PublisherOf<JournalAppender<W>, ThresholdFilter, W>;

pub(crate) type JournaledSession<W> = SessionOf<JournalAppender<W>, ThresholdFilter, W>;

/// Returns the number of swaps seen, and each delivery with its result.
pub(crate) fn shown(alloc: Global, report: &SessionReport) -> Result<String, OutOfMemory> {
    let mut text = format!(in alloc; "{}:", report.swaps)?;
    for (at, answer) in &report.deliveries {
        match answer {
            Ok(()) => write!(text, " {at} ok")?,
            Err(fault) => write!(text, " {at} {fault}")?,
        }
    }
    Ok(text)
}

/// Publishes a root that names one appender.
fn swap_to<A: Append + Drop, W: Wait + Clone + Drop>(
    alloc: Global,
    publisher: &mut PublisherOf<A, ThresholdFilter, W>,
    name: &str,
) -> Result<(), OutOfMemory>
    ensures { publisher.new.book ≡ publisher.old.book }
{
    let root = root(alloc, LevelFilter::Info, name)?;
    match publisher.swap(root, Vec::new(alloc)) {
        Ok(()) => Ok(()),
        Err(_) => Err(OutOfMemory),
    }
}

/// Publishes five roots, of which the last names the appender `f`. Returns what the publisher tells
/// of them.
pub(crate) fn five<A: Append + Drop, W: Wait + Clone + Drop>(
    alloc: Global,
    publisher: &mut PublisherOf<A, ThresholdFilter, W>,
) -> Result<Told, OutOfMemory>
    ensures told { IfOk result (λ told. told.book ≡ publisher.old.book) }
    ensures book { publisher.new.book ≡ publisher.old.book }
{
    swap_to(alloc, publisher, "b")?;
    swap_to(alloc, publisher, "c")?;
    swap_to(alloc, publisher, "d")?;
    swap_to(alloc, publisher, "e")?;
    swap_to(alloc, publisher, "f")?;
    Ok(publisher.tell())
}

/// Logs a record. Returns the report of the session.
pub(crate) fn logged<A: Append + Drop, W: Wait + Clone + Drop>(
    alloc: Global,
    session: &mut SessionOf<A, ThresholdFilter, W>,
    message: &str,
) -> Result<String, OutOfMemory>
    ensures { session.new.book ≡ session.old.book }
{
    let record = record(alloc, (Level::Info, "app", message))?;
    match session.log(&record, &context(alloc)) {
        Ok(report) => shown(alloc, &report),
        Err(_) => Err(OutOfMemory),
    }
}

/// Tells a session of all swaps and logs a record. Returns the number of swaps that it reports,
/// which is the number of all swaps.
fn caught_up<W: Wait + Clone + Drop>(
    publisher: &mut JournaledPublisher<W>,
    session: &mut JournaledSession<W>,
    record: &Record,
    around: &Context<'_>,
) -> Result<u64, SessionError>
    requires { session.old.book ≡ publisher.old.book }
    ensures seen { OnOk result (session.new.seen ≡ publisher.old.swaps) }
    ensures book { session.new.book ≡ session.old.book }
    ensures same { publisher.new ≡ publisher.old }
{
    session.learn(publisher.tell());
    let report = session.log(record, around)?;
    publisher.behind(session);
    what_is_seen_is_what_was_swapped();
    Ok(report.swaps)
}

/// Logs a record, swaps five times and catches up. Returns the report of the record, the number of
/// unseen swaps before and after the five, the number of swaps reported, and the number of unseen
/// swaps at the end.
fn unseen<W: Wait + Clone + Drop>(
    alloc: Global,
    publisher: &mut JournaledPublisher<W>,
    session: &mut JournaledSession<W>,
) -> Result<String, OutOfMemory>
    requires { session.old.book ≡ publisher.old.book }
{
    let reported = logged(alloc, session, "first")?;
    let record = record(alloc, (Level::Info, "app", "last"))?;
    let first = publisher.behind(session);
    five(alloc, publisher)?;
    let later = publisher.behind(session);
    let Ok(swaps) = caught_up(publisher, session, &record, &context(alloc)) else {
        return Err(OutOfMemory);
    };
    let last = publisher.behind(session);
    Ok(format!(in alloc; "{reported}, {first} {later}, {swaps}: {last}")?)
}

/// Opens a publisher with one session and calls `unseen` with them.
fn behind_swaps<W: Wait + Clone + Drop>(
    rt: &W,
    alloc: Global,
    journals: &[Journal<W>],
) -> Result<String, Fail> {
    let own = rt.clone()?;
    let config = configured(alloc, journals, "a")?;
    let (mut publisher, mut sessions) = PublisherOf::open(own, alloc, config, 1)?;
    let found = match sessions.pop() {
        Some(mut session) => unseen(alloc, &mut publisher, &mut session),
        None => Err(OutOfMemory),
    };
    publisher.end();
    Ok(found?)
}

#[test]
fn sessions_behind_their_publisher(rt: HostRuntime) -> Result<(), Fail> {
    let alloc = rt.alloc();
    let journals = journals(&rt, alloc)?;
    let found = behind_swaps(&rt, alloc, &journals)?;
    same(&rt, found.as_str(), "0: 0 ok, 0 5, 5: 0");
    same(&rt, held(alloc, &journals)?.as_str(), "[first];;;;;[last];");
    Ok(())
}

/// Logs a record in each session. Returns whether it is closed or open.
fn closed<W: Wait + Clone + Drop>(
    alloc: Global,
    sessions: &mut [JournaledSession<W>],
) -> Result<String, OutOfMemory> {
    let record = record(alloc, (Level::Info, "app", "one"))?;
    let around = context(alloc);
    let mut closed = String::new(alloc);
    for session in sessions.iter_mut() {
        let answer = session.log(&record, &around);
        let is_closed = matches!(answer, Err(SessionError::Closed));
        closed.push_str(if is_closed { "closed " } else { "open " })?;
    }
    Ok(closed)
}

/// Opens a publisher with three sessions and ends it. Returns whether the sessions are closed.
fn after_the_end<W: Wait + Clone + Drop>(
    rt: &W,
    alloc: Global,
    journals: &[Journal<W>],
) -> Result<String, Fail> {
    let own = rt.clone()?;
    let config = configured(alloc, journals, "a")?;
    let (publisher, mut sessions) = PublisherOf::open(own, alloc, config, 3)?;
    publisher.end();
    Ok(closed(alloc, sessions.as_mut_slice())?)
}

#[test]
fn closed_after_the_end(rt: HostRuntime) -> Result<(), Fail> {
    let alloc = rt.alloc();
    let journals = journals(&rt, alloc)?;
    let closed = after_the_end(&rt, alloc, &journals)?;
    same(&rt, closed.as_str(), "closed closed closed ");
    same(&rt, held(alloc, &journals)?.as_str(), ";;;;;;");
    Ok(())
}
