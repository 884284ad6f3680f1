//! Lines that tell of no record.

use crate::file_runs::{ended_over, folder, path_in};
use crate::runs::{lines_of, parts};
use std::fs;
use std::rt::Clock;
use std::sync::Wait;
use std::test::Fail;
use std::thread::Threads;

const CONFIG: &str = "
appenders.all = { kind = 'file', path = '$ENV{FOLDER}/all.log', encoder.pattern = '{l} {t} {m};' }
root = { level = 'info', appenders = ['all'] }
";

/// What a service prints that dies. Bytes that are not UTF-8 are those of an example of Rust's.
const LINES: &[u8] = b"INFO a one\nthread 'main' panicked at src/main.rs:2:5:\n\n   0: unwind\n\
    FATAL app x\noff app x\n2026-12-01 12:00:00 down\nINFO a Hello \xf0\x90\x80World\nWARN\xff\n\
    WARN a two";

/// The arguments behind the command, the outcome, and what is logged, separated by arrows. A
/// pilcrow is a newline.
const ROWS: &str = "\
c.toml|--plain|eRRoR|s v -> 0|| -> INFO a one;ERROR s v thread 'main' panicked at src/main.rs:2:5:;\
ERROR s v ;ERROR s v    0: unwind;ERROR s v FATAL app x;ERROR s v off app x;\
ERROR s v 2026-12-01 12:00:00 down;ERROR s v INFO a Hello \u{fffd}World;ERROR s v WARN\u{fffd};\
WARN a two;
c.toml|--plain|debug| -> 0|| -> INFO a one;WARN a two;
c.toml -> 1||log4rs-run: line 2: malformed¶log4rs-run: line 3: malformed¶\
log4rs-run: line 4: malformed¶log4rs-run: line 5: malformed¶log4rs-run: line 6: malformed¶\
log4rs-run: line 7: malformed¶log4rs-run: line 8: malformed¶log4rs-run: line 9: malformed¶ \
-> INFO a one;WARN a two;";

/// Runs with these arguments behind the command. Returns the outcome and what is logged, separated
/// by an arrow.
fn logged<X: Threads + Wait + Clock + Clone + Copy + Send + Sync + Drop + 'static>(
    rt: &HostRuntime,
    files: X,
    words: &str,
) -> Result<String, Fail> {
    let folder = folder(rt, "plain")?;
    let folder = folder.as_str();
    fs::write(rt, path_in(rt, folder, "c.toml")?.as_str(), CONFIG)?;
    let mut input = LINES;
    let mut came = ended_over(rt, files, folder, words, &mut input)?;
    came.push_str(" -> ")?;
    let held = fs::read_to_string(rt, path_in(rt, folder, "all.log")?.as_str())?;
    came.push_str(&held)?;
    fs::remove_dir_all(rt, folder)?;
    Ok(came)
}

#[test]
fn plain_lines(rt: HostRuntime) -> Result<(), Fail> {
    for row in ROWS.lines() {
        let (words, expected) = parts(row)?;
        let came = logged(&rt, rt, words)?;
        let expected = lines_of(rt.alloc(), expected)?;
        assert_eq!(rt; came.as_str(), expected.as_str());
    }
    Ok(())
}
