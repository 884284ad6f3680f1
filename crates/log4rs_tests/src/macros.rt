use crate::kept::{Shared, Standing, kept};
use crate::setup::{same, string};
use jiff::tz::TimeZone;
use log::{
    Level, LevelFilter, Log, Logged, debug, error, info, info_span, log_enabled, trace, warn,
};
use log4rs::config::runtime::BuildError;
use log4rs::{Facade, Origin};
use std::alloc::Global;
use std::fmt::{self, Display, Formatter};
use std::sync::{Arc, Mutex, Wait};
use std::test::Fail;

/// The time, the level, the target, the module path, the thread, four diagnostic values and the
/// message.
const PATTERN: &str = "{d(%H:%M)} {l} {t} {M} {T} {X(id)}/{X(peer)}/{X(table)}/{X(free)} {m}{n}";

const SERVED: &str = "\
01:00 INFO log4rs_tests::macros log4rs_tests::macros main /// started
01:00 WARN app::disk app::disk main /own//3 low on 9
01:00 INFO log4rs_tests::macros log4rs_tests::macros main 7/a// in a span
01:00 INFO log4rs_tests::macros log4rs_tests::macros main 8/a/rooms/true in two
01:00 INFO app::net app::net main 8/a/users/ elsewhere
01:00 INFO log4rs_tests::macros log4rs_tests::macros main 7/a// in one again
";

/// A value whose formatting fails.
#[derive(Drop)]
struct Sour;

impl Display for Sour {
    fn fmt<W: fmt::Write>(&self, _f: &mut Formatter<W>) -> fmt::Result {
        Err(fmt::Error)
    }
}

/// Logs with and without targets, pairs and spans.
fn serve<R: Log>(rt: &R, disk: u32) {
    info!(rt; "started");
    warn_of(rt, disk);
    let request = rt.span("request").with("id", 7).with("peer", "a");
    serve_request(&request);
}

fn warn_of<R: Log>(rt: &R, disk: u32) {
    warn!(rt; target: "app::disk", free = 3, peer = "own"; "low on {disk}");
}

/// Logs in this span, in one within it, and in this one again.
fn serve_request<R: Log>(request: &R) {
    info!(request; "in a span");
    let query = info_span!(request; "query", id = 8, table = "users");
    answer(&query);
    end(&query.with_target("app::net"));
    info!(request; "in one again");
}

fn answer<R: Log>(query: &R) {
    info!(query; table = "rooms", free = true; "in two");
}

fn end<R: Log>(query: &R) {
    info!(query; "elsewhere");
}

/// Returns whether Info is enabled, Debug is not, and nothing is at `app::quiet`.
fn is_enabled<R: Log>(rt: &R) -> bool {
    log_enabled!(rt; Level::Info)
        && !log_enabled!(rt; Level::Debug)
        && !log_enabled!(rt; target: "app::quiet", Level::Error)
        && log_enabled!(rt; target: "app::quieter", Level::Error)
}

/// Logs records that the configuration filters out or that cannot be formatted, and one that is
/// appended.
fn whisper<R: Log>(rt: &R) {
    whisper_below(rt);
    error!(rt; target: "app", "{}", Sour);
    error!(rt; target: "app", bad:% = Sour; "a pair");
    error!(rt.span("bad").with("bad", log::kv::display(Sour)); "a span");
    error!(rt; target: "app", "heard");
}

/// Logs records that the configuration filters out.
fn whisper_below<R: Log>(rt: &R) {
    debug!(rt; "{}", Sour);
    trace!(rt; target: "app", "trace");
    error!(rt; target: "app::quiet::inner", "{}", Sour);
}

/// Logs one hour after the epoch. Returns whether the right levels are enabled.
fn served<R: Wait + Eprint + Clone + Drop>(
    rt: &R,
    alloc: Global,
    all: &Shared,
) -> Result<bool, BuildError> {
    let thread = string(alloc, "main")?;
    let own = rt.clone()?;
    let logger = kept(rt, alloc, PATTERN, all)?;
    let origin = Origin::new(TimeZone::UTC).with_thread(thread);
    let facade = Facade::new(alloc, &logger, Standing(Some(3600)), origin);
    let logged = Logged::new(own, LevelFilter::Trace, facade);
    serve(&logged, 9);
    Ok(is_enabled(&logged))
}

#[test]
fn records_pairs_and_spans(rt: HostRuntime) -> Result<(), Fail> {
    let alloc = rt.alloc();
    let all = Arc::new(alloc, Mutex::new(String::new(alloc)))?;
    assert!(rt; served(&rt, alloc, &all)?);
    same(&rt, all.lock(&rt).as_str(), SERVED);
    Ok(())
}

/// Calls `whisper` with a clock that cannot be read, and flushes.
fn whispered<R: Wait + Eprint + Clone + Drop>(
    rt: &R,
    alloc: Global,
    all: &Shared,
) -> Result<(), BuildError> {
    let own = rt.clone()?;
    let logger = kept(rt, alloc, "{d(%Y)} {t} {T} {m}{n}", all)?;
    let logger = Arc::new(alloc, logger)?;
    let facade = Facade::new(alloc, logger, Standing(None), Origin::new(TimeZone::UTC));
    let logged = Logged::new(own, LevelFilter::Trace, facade);
    whisper(&logged);
    logged.flush();
    Ok(())
}

#[test]
fn what_is_left_out(rt: HostRuntime) -> Result<(), Fail> {
    let alloc = rt.alloc();
    let all = Arc::new(alloc, Mutex::new(String::new(alloc)))?;
    whispered(&rt, alloc, &all)?;
    let expected = "fault: out of memory\nfault: out of memory\nfault: out of memory\n\
                    1970 app unnamed heard\nflushed\n";
    same(&rt, all.lock(&rt).as_str(), expected);
    Ok(())
}

/// A value that logs while it is formatted.
#[derive(Drop)]
struct Within<'a, R> {
    rt: &'a R,
}

impl<R: Log> Display for Within<'_, R> {
    fn fmt<W: fmt::Write>(&self, f: &mut Formatter<W>) -> fmt::Result {
        info!(self.rt; target: "app::net::inner", "within");
        f.write_str("it")
    }
}

/// Logs a record, one whose message logs another one, and a last one.
fn nest<R: Log>(rt: &R, within: &Within<'_, R>) {
    info!(rt; target: "app::requests", "a longer text than others");
    info!(rt; target: "app::net", "around {within}");
    info!(rt; target: "app", "last");
}

fn nest_in<R: Log>(rt: &R) {
    nest(rt, &Within { rt });
}

/// Calls `nest` with a facade whose origin is replaced.
fn nested<R: Wait + Eprint + Clone + Drop>(
    rt: &R,
    alloc: Global,
    all: &Shared,
) -> Result<(), BuildError> {
    let own = rt.clone()?;
    let logger = kept(rt, alloc, "{t} {M} {T} {m}{n}", all)?;
    let origin = Origin::new(TimeZone::UTC).with_thread(string(alloc, "worker")?);
    let facade = Facade::new(alloc, &logger, Standing(None), Origin::new(TimeZone::UTC));
    let logged = Logged::new(own, LevelFilter::Trace, facade.with_origin(origin));
    nest_in(&logged);
    Ok(())
}

#[test]
fn records_within_records(rt: HostRuntime) -> Result<(), Fail> {
    let alloc = rt.alloc();
    let all = Arc::new(alloc, Mutex::new(String::new(alloc)))?;
    nested(&rt, alloc, &all)?;
    let expected = "app::requests app::requests worker a longer text than others\n\
                    app::net::inner app::net::inner worker within\n\
                    app::net app::net worker around it\n\
                    app app worker last\n";
    same(&rt, all.lock(&rt).as_str(), expected);
    Ok(())
}
