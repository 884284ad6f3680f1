//! A test of what a function logs by the macros of `log`, as docs/GUIDE.md shows it.

use jiff::tz::TimeZone;
use log::{LevelFilter, Log, Logged, info, warn};
use log4rs::{Facade, Origin, OutOfMemory, SharedJournal};
use std::rt::Clock;
use std::sync::Wait;
use std::test::Fail;

/// Serves the requests with these numbers.
fn serve<R: Log>(rt: &R, requests: &[u32]) {
    for id in requests {
        let rt = rt.span("request").with("id", id);
        info!(rt; "accepted");
        if *id >= 3 {
            warn!(rt; target: "service::store", rows = 2 * *id as u64; "slow");
        }
    }
}

/// Returns what is logged while these requests are served, one line a record.
fn logged<X: AllocGlobal + Clock + Wait + Copy + Drop>(
    rt: X,
    requests: &[u32],
) -> Result<String, OutOfMemory> {
    let journal = SharedJournal::new(rt, rt.alloc(), "{l} {t} {m} {X(id)}{n}")?;
    let facade = Facade::new(rt.alloc(), &journal, rt, Origin::new(TimeZone::UTC));
    serve(&Logged::new(rt, LevelFilter::Trace, facade), requests);
    let mut lines = String::new(rt.alloc());
    for shown in journal.iter() {
        lines.push_str(shown.note.text())?;
    }
    Ok(lines)
}

#[test]
fn a_slow_request_is_told(rt: HostRuntime) -> Result<(), Fail> {
    let lines = logged(rt, &[3])?;
    let expected = "INFO log4rs_tests::own_log accepted 3\nWARN service::store slow 3\n";
    assert_eq!(rt; lines.as_str(), expected);
    Ok(())
}
