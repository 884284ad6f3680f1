//! A run whose configuration changes while it reads its input.

use crate::file_runs::{ended_over, folder, path_in};
use std::fs::{self, Files};
use std::io::{self, BufReader, Read};
use std::rt::Clock;
use std::test::Fail;
use std::thread;
use std::time::Duration;

const FIRST: &str = "
refresh_rate = '20ms'
appenders.all = { kind = 'file', path = '$ENV{FOLDER}/first.log', encoder.pattern = '{m};' }
appenders.dated = { kind = 'file', path = '$ENV{FOLDER}/first_$TIME{%Y}.log' }
root = { level = 'info', appenders = ['all'] }
loggers.none = { level = 'off', appenders = ['dated'] }
";

const SECOND: &str = "
refresh_rate = '1 hour'
appenders.all = { kind = 'file', path = '$ENV{FOLDER}/second.log', encoder.pattern = '{m},' }
appenders.dated = { kind = 'file', path = '$ENV{FOLDER}/$TIME{%Y}.log' }
root = { level = 'info', appenders = ['all'] }
loggers.none = { level = 'off', appenders = ['dated'] }
";

/// The line that the input repeats.
const LINE: &[u8] = b"INFO a x\n";

/// Returns the line once. Then it replaces the configuration file, and returns the line until the
/// file `awaited` is no longer empty, at most about a thousand times.
#[derive(Drop)]
struct Changing<X> {
    files: X,
    changed: String,
    config: String,
    awaited: String,
    lines: usize,
}

/// Returns whether a file exists.
fn is_there<X: Files>(files: &X, path: &str) -> bool {
    fs::metadata(files, path).is_ok()
}

/// Returns whether a file exists and is not empty.
fn is_written<X: Files>(files: &X, path: &str) -> bool {
    match fs::metadata(files, path) {
        Ok(metadata) => metadata.len() > 0,
        Err(_) => false,
    }
}

impl<X: Files + Clock> Read for Changing<X> {
    fn read(&mut self, buf: &mut [u8]) -> io::Result<usize> {
        if self.lines == 1 {
            fs::rename(&self.files, self.changed.as_str(), self.config.as_str())?;
        }
        if self.lines > 1000 || is_written(&self.files, self.awaited.as_str()) {
            return Ok(0);
        }
        thread::sleep(&self.files, Duration::from_millis(10));
        self.lines = self.lines.saturating_add(1);
        let mut line = LINE;
        line.read(buf)
    }
}

#[test]
fn a_changed_file_is_read_again(rt: HostRuntime) -> Result<(), Fail> {
    let folder = folder(&rt, "changed")?;
    let folder = folder.as_str();
    let changing = Changing {
        files: rt,
        changed: path_in(&rt, folder, "changed.toml")?,
        config: path_in(&rt, folder, "log4rs.toml")?,
        awaited: path_in(&rt, folder, "second.log")?,
        lines: 0,
    };
    fs::write(&rt, changing.config.as_str(), FIRST)?;
    // Files that are written right after each other can have the same time.
    thread::sleep(&rt, Duration::from_millis(50));
    fs::write(&rt, changing.changed.as_str(), SECOND)?;
    let mut input = BufReader::new(rt.alloc(), changing)?;
    let came = ended_over(&rt, rt, folder, "log4rs.toml", &mut input)?;
    assert!(rt; came.as_str().starts_with("0||log4rs: "));
    assert!(rt; came.as_str().ends_with("/log4rs.toml: read again\n"));
    let first = fs::read_to_string(&rt, path_in(&rt, folder, "first.log")?.as_str())?;
    let second = fs::read_to_string(&rt, path_in(&rt, folder, "second.log")?.as_str())?;
    assert!(rt; first.starts_with("x;"));
    assert!(rt; second.starts_with("x,"));
    assert_eq!(rt; (first.len() + second.len()) / 2, input.get_ref().lines);
    // The clock of the first load stands still in 2016, and that of the second one goes on.
    assert!(rt; is_there(&rt, path_in(&rt, folder, "first_2016.log")?.as_str()));
    assert!(rt; !is_there(&rt, path_in(&rt, folder, "2016.log")?.as_str()));
    fs::remove_dir_all(&rt, folder)?;
    Ok(())
}
