//! Records and their contexts.

ghost use Rattle.std.specs.Prelude.{◌≡◌, [], None, Some, false};

use jiff::Timestamp;
use jiff::tz::TimeZone;
use log::Level;
use std::alloc::Global;
use std::collections::BTreeMap;

/// A record. It owns its texts, so creating it allocates nothing.
#[derive(Clone, Debug, Drop)]
pub struct Record {
    /// The level.
    pub level: Level,
    /// The name by which loggers are found, such as `app::requests`. It may be empty.
    pub target: String,
    /// The message.
    pub message: String,
    /// The path of the module that logs the record.
    pub module_path: Option<String>,
    /// The source file that logs the record.
    pub file: Option<String>,
    /// The line of that file, counted from 1.
    pub line: Option<u32>,
}

impl Record {
    /// Creates a record without module path, file and line.
    pub fn new(level: Level, target: String, message: String) -> Record
        ensures { result ≡ record {
          level = level;
          target = target;
          message = message;
          module_path = None;
          file = None;
          line = None;
        } }
    {
        Record {
            level,
            target,
            message,
            module_path: None,
            file: None,
            line: None,
        }
    }

    /// Sets the module path.
    pub fn with_module_path(self, module_path: String) -> Record
        ensures { result ≡ record self { module_path = Some module_path } }
    {
        Record {
            module_path: Some(module_path),
            ..self
        }
    }

    /// Sets the source file.
    pub fn with_file(self, file: String) -> Record
        ensures { result ≡ record self { file = Some file } }
    {
        Record {
            file: Some(file),
            ..self
        }
    }

    /// Sets the line, counted from 1.
    pub fn with_line(self, line: u32) -> Record
        ensures { result ≡ record self { line = Some line } }
    {
        Record {
            line: Some(line),
            ..self
        }
    }
}

/// The context in which a record is logged.
#[derive(Drop)]
pub struct Context<'z> {
    /// The moment at which the record is logged.
    pub moment: Timestamp,
    /// The time zone of local dates.
    pub zone: TimeZone<'z>,
    /// The name of the thread, if it has one.
    pub thread: Option<String>,
    /// The number that the program gives the thread.
    pub thread_id: u64,
    /// The number that the system gives the thread.
    pub tid: u64,
    /// The number of the process.
    pub pid: u32,
    /// The mapped diagnostic context: values by their keys.
    pub mdc: BTreeMap<String, String>,
    /// Whether the program is a debug build.
    pub debug: bool,
    /// A random word.
    pub random: u64,
}

impl<'z> Context<'z> {
    /// Creates the context of a moment and a zone. The thread has no name, all numbers and the
    /// random word are 0, there are no diagnostic values, and the program is no debug build.
    pub fn new(alloc: Global, moment: Timestamp, zone: TimeZone<'z>) -> Context<'z>
        ensures moment { result.moment ≡ moment }
        ensures zone { result.zone ≡ zone.entry }
        ensures thread { (result.thread ≡ None) × (result.thread_id ≡ 0) × (result.tid ≡ 0) }
        ensures process { (result.pid ≡ 0) × (result.debug ≡ false) }
        ensures mdc { result.mdc.entries ≡ [] }
        ensures random { result.random ≡ 0 }
    {
        Context {
            moment,
            zone,
            thread: None,
            thread_id: 0,
            tid: 0,
            pid: 0,
            mdc: BTreeMap::new(alloc),
            debug: false,
            random: 0,
        }
    }
}

/// A record and its context.
#[derive(Drop)]
pub struct Entry<'z> {
    /// The record.
    pub logged: Record,
    /// Its context.
    pub context: Context<'z>,
}
