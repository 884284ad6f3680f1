//! Origins of records: thread and process.

ghost use Rattle.std.specs.Prelude.{◌≡◌, ◌<◌, IfOk, codes, false, None, option_map, Some, string_bytes};

use jiff::tz::TimeZone;
use log4rs_base::OutOfMemory;
use std::alloc::Global;
use std::fs::{self, Files};
use std::io::{self, ErrorKind, Read};
use std::str;

/// The most bytes that are read of a thread's name. The system keeps 15 and a newline.
const MOST_BYTES: u64 = 64;

/// What the contexts of all records of one thread share: the zone, the thread and the process.
#[derive(Clone, Drop)]
pub struct Origin<'z> {
    /// The zone in which local times are shown.
    pub zone: TimeZone<'z>,
    /// The name of the thread.
    pub thread: Option<String>,
    /// The program's number of the thread.
    pub thread_id: u64,
    /// The system's number of the thread.
    pub tid: u64,
    /// The number of the process.
    pub pid: u32,
    /// Whether the program is built for debugging.
    pub debug: bool,
}

impl<'z> Origin<'z> {
    /// Returns an origin without thread and process, whose numbers are 0, in a program that is
    /// built for release.
    pub fn new(zone: TimeZone<'z>) -> Origin<'z>
        ensures zone { result.zone ≡ zone.entry }
        ensures thread { (result.thread ≡ None) × (result.thread_id ≡ 0) × (result.tid ≡ 0) }
        ensures process { (result.pid ≡ 0) × (result.debug ≡ false) }
    {
        Origin {
            zone,
            thread: None,
            thread_id: 0,
            tid: 0,
            pid: 0,
            debug: false,
        }
    }

    /// Returns the process and the calling thread, as the system reports them; what it does not
    /// report is as in `new`.
    ///
    /// The first thread of a process is `main`. Any other has the name that it was started with,
    /// cut at 15 bytes; one that the first thread started without a name has none. The program's
    /// number of the thread stays 0.
    pub fn here<X: Files>(
        rt: &X,
        alloc: Global,
        zone: TimeZone<'z>,
    ) -> Result<Origin<'z>, OutOfMemory>
        ensures zone { IfOk result (λ made. made.zone ≡ zone.entry) }
        ensures untold { IfOk result (λ made. (made.thread_id ≡ 0) × (made.debug ≡ false)) }
        ensures first { IfOk result (λ made. made.tid ≡ made.pid → 0 < made.pid →
            option_map string_bytes made.thread ≡ Some (codes "main")) }
    {
        let rt = (rt, alloc);
        let (pid, tid) = numbers(&rt)?;
        Ok(Origin {
            thread: thread_name(&rt, pid, tid)?,
            tid,
            pid,
            ..Origin::new(zone)
        })
    }

    /// Sets the name of the thread.
    pub fn with_thread(self, name: String) -> Origin<'z>
        ensures { result ≡ record self.entry { thread = Some name } }
    {
        Origin {
            thread: Some(name),
            ..self
        }
    }
}

/// Returns what the system reports, or `None`. Fails only if an allocation fails.
fn told<T: Drop>(answer: io::Result<T>) -> Result<Option<T>, OutOfMemory> {
    match answer {
        Ok(value) => Ok(Some(value)),
        Err(fault) if fault.kind() == ErrorKind::OutOfMemory => Err(OutOfMemory),
        Err(_) => Ok(None),
    }
}

/// Returns the numbers of the process and the calling thread, which are 0 if the system does not
/// report them.
fn numbers<R: Files + AllocGlobal>(rt: &R) -> Result<(u32, u64), OutOfMemory> {
    match told(fs::read_link(rt, "/proc/thread-self"))? {
        Some(link) => Ok(read_numbers(link.as_path().to_string_lossy()).unwrap_or((0, 0))),
        None => Ok((0, 0)),
    }
}

/// Reads the numbers of a process and of a thread in `PROCESS/task/THREAD`.
fn read_numbers(link: &str) -> Option<(u32, u64)> {
    let (process, thread) = link.split_once("/task/")?;
    Some((process.parse().ok()?, thread.parse().ok()?))
}

/// Returns the name of the calling thread, which has these numbers.
fn thread_name<R: Files + AllocGlobal>(
    rt: &R,
    pid: u32,
    tid: u64,
) -> Result<Option<String>, OutOfMemory>
    ensures { IfOk result (λ name. tid ≡ pid → 0 < pid →
        option_map string_bytes name ≡ Some (codes "main")) }
{
    if pid > 0 && tid == pid as u64 {
        return Ok(Some(String::from_str(rt.alloc(), "main")?));
    }
    let own = told(read_name(rt, "/proc/thread-self/comm"))?;
    let first = told(read_name(rt, "/proc/self/comm"))?;
    if own == first {
        return Ok(None);
    }
    match own {
        Some(name) => Ok(Some(String::from_str(rt.alloc(), text_of(name.as_slice()))?)),
        None => Ok(None),
    }
}

/// Reads the system's name of a thread.
fn read_name<R: Files + AllocGlobal>(rt: &R, path: &str) -> io::Result<Vec<u8>> {
    let mut name = Vec::new(rt.alloc());
    let mut file = fs::open(rt, path)?.take(MOST_BYTES);
    file.read_to_end(&mut name)?;
    Ok(name)
}

/// Returns the text of a name without its newline, as far as it is UTF-8: the system may have cut
/// it inside a character.
fn text_of(name: &[u8]) -> &str {
    let text = match str::from_utf8(name) {
        Ok(text) => text,
        Err(fault) => str::from_utf8(&name[..fault.valid_up_to()]).unwrap_or_default(),
    };
    text.trim_end_matches('\n')
}
