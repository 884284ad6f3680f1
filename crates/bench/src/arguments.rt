//! The arguments of the bench.

use crate::together::Together;
use crate::workload::Workload;
use std::slice;

/// The number of threads of each workload of threads in `all`.
const THREADS: usize = 4;

/// The workloads to time.
#[derive(Clone, Copy, Drop)]
pub enum Asked {
    /// All workloads, and this number of threads that log at once.
    All(usize),
    One(Workload),
    /// This number of threads that log at once.
    Threads(Together, usize),
}

impl Asked {
    /// Returns the workloads of one thread, in order.
    pub fn workloads(&self) -> &[Workload] {
        match self {
            Asked::All(_) => &Workload::ALL,
            Asked::One(workload) => slice::from_ref(workload),
            Asked::Threads(_, _) => &[],
        }
    }

    /// Returns the workloads of threads, in order.
    pub fn together(&self) -> &[Together] {
        match self {
            Asked::All(_) => &Together::ALL,
            Asked::Threads(together, _) => slice::from_ref(together),
            Asked::One(_) => &[],
        }
    }

    /// Returns the number of threads.
    pub fn threads(&self) -> usize {
        match self {
            Asked::All(threads) | Asked::Threads(_, threads) => *threads,
            Asked::One(_) => 0,
        }
    }
}

/// A task of the bench.
#[derive(Drop)]
pub struct Task<'a> {
    pub asked: Asked,
    /// How often the work is done.
    pub records: u64,
    /// The pattern of the encoder, or `None` for that of the workload.
    pub pattern: Option<&'a str>,
    /// Whether times are printed.
    pub is_timed: bool,
    /// The folder for files, or `None` for the system's temporary folder.
    pub folder: Option<&'a str>,
}

impl Task<'_> {
    ghost use Rattle.std.specs.Prelude.{◌≡◌, ◌/◌, if◌then◌else◌};

    /// Returns the task to run all workloads with this number of records, untimed.
    pub fn brief(records: u64) -> Task<'static> {
        Task {
            asked: Asked::All(THREADS),
            records,
            pattern: None,
            is_timed: false,
            folder: None,
        }
    }

    /// Returns how often the work is done before the clock starts: a tenth of `records`, or 0 if no
    /// times are printed, so that instructions can be counted.
    pub fn warm_up(&self) -> u64
        ensures { result ≡ (if self.now.is_timed then self.now.records / 10 else 0) }
    {
        if self.is_timed { self.records / 10 } else { 0 }
    }
}

/// Reads the arguments: options, the workload, the number of records, and an optional pattern.
/// Returns `None` for other arguments.
pub fn read_task(args: &[String]) -> Option<Task<'_>> {
    let is_timed = match args.first() {
        Some(first) => first.as_str() != "--untimed",
        None => return None,
    };
    let options = if is_timed { args } else { &args[1..] };
    let (folder, words) = read_folder(options)?;
    let (asked, words) = read_asked(words)?;
    if words.is_empty() || words.len() > 2 {
        return None;
    }
    Some(Task {
        asked,
        records: words[0].parse().ok()?,
        pattern: words.get(1).map(String::as_str),
        is_timed,
        folder,
    })
}

/// Reads the workload. Returns it and the remaining words.
fn read_asked(words: &[String]) -> Option<(Asked, &[String])> {
    let first = words.first()?;
    if first.as_str() == "all" {
        return Some((Asked::All(THREADS), &words[1..]));
    }
    match Together::named(first) {
        Some(together) => read_threads(together, words),
        None => Some((Asked::One(Workload::named(first)?), &words[1..])),
    }
}

/// Reads the number of threads in the second word. Returns them and the remaining words.
fn read_threads(together: Together, words: &[String]) -> Option<(Asked, &[String])> {
    let threads = words.get(1)?;
    Some((Asked::Threads(together, threads.parse().ok()?), &words[2..]))
}

/// Reads the folder of the option `--in` at the front. Returns it and the remaining words.
fn read_folder(args: &[String]) -> Option<(Option<&str>, &[String])> {
    if args.first()?.as_str() != "--in" {
        return Some((None, args));
    }
    let folder = args.get(1)?;
    Some((Some(folder.as_str()), &args[2..]))
}
