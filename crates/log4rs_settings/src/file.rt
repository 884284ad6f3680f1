//! The text of a configuration in a file.
ghost use Rattle.std.specs.Prelude.{◌≡◌, ◌+◌, ◌%◌, ◌^◌, false, not, is_ok, is_some, OnErr};

use crate::source::{ConfigSource, SourceError};
use log4rs_base::is_fifo;
use std::alloc::Global;
use std::fs::{self, File, Files};
use std::io::{self, ErrorKind};
use std::os::unix::fs::MetadataExt;
use std::path::Path;
use std::time::UNIX_EPOCH;

// An odd number that spreads what a stamp is made of over all stamps.
const SPREAD: u64 = 0x9E37_79B9_7F4A_7C15;

/// The text of a configuration in a file. Its stamp is made of the file's modification time, and of
/// what else differs where another text has the same time: its length, its inode and its change
/// time. Each refusal makes the next stamp another one, so that a file that could not be read at one
/// moment is read again.
///
/// `modified` fails if the system does not tell the modification time, or if it lies before 1970 or
/// does not fit. `read` fails if the file is a FIFO, cannot be read or is not UTF-8, and, once a text
/// was read, if it is empty: so a file that is being rewritten in place is not taken for an empty
/// configuration.
/// Contracts see nothing of the file's contents.
#[derive(Drop)]
pub struct FileSource<R: Files> {
    alloc: Global,
    files: R,
    path: String,
    fault: Option<io::Error>,
    // Whether a text was given.
    has_given: bool,
    // How many answers were refused, modulo 2^64.
    refused: u64,
}

impl<R: Files> FileSource<R> {
    ghost use Rattle.log4rs_settings.specs.Faults.{has_fault, refused_of};

    /// Describes the file at a path among those that `files` reaches.
    pub fn new(alloc: Global, files: R, path: String) -> FileSource<R>
        ensures { has_fault result ≡ false }
    {
        FileSource {
            alloc,
            files,
            path,
            fault: None,
            has_given: false,
            refused: 0,
        }
    }

    // The answer, whose fault is kept. It counts if it is a refusal, and so changes the next stamp.
    fn answer<T: Drop>(&mut self, given: io::Result<T>) -> Result<T, SourceError>
        ensures fault { has_fault self.new ≡ not (is_ok result) }
        ensures refused { OnErr result
            (refused_of self.new ≡ (refused_of self.old + 1) % 2 ^ 64) }
    {
        self.fault = None;
        let fault = match given {
            Ok(value) => return Ok(value),
            Err(fault) => fault,
        };
        let is_memory = fault.kind() == ErrorKind::OutOfMemory;
        self.fault = Some(fault);
        self.refused = self.refused.wrapping_add(1);
        Err(if is_memory {
            SourceError::Memory
        } else {
            SourceError::Refused
        })
    }
}

impl<R: Files> ConfigSource for FileSource<R> {
    ghost use Rattle.log4rs_settings.specs.Faults.{has_fault, refused_of};

    fn modified(&mut self) -> Result<u64, SourceError>
        ensures { has_fault self.new ≡ not (is_ok result) }
    {
        let given = stamp_of(&self.files, self.path.as_str(), self.refused);
        self.answer(given)
    }

    fn read(&mut self) -> Result<String, SourceError>
        ensures fault { has_fault self.new ≡ not (is_ok result) }
        ensures refused { OnErr result
            (refused_of self.new ≡ (refused_of self.old + 1) % 2 ^ 64) }
    {
        let given = text_of(self.alloc, &self.files, self.path.as_str(), self.has_given);
        self.has_given = self.has_given || given.is_ok();
        self.answer(given)
    }

    fn last_fault(&self) -> Option<&io::Error>
        ensures { is_some result ≡ has_fault self.now }
    {
        self.fault.as_ref()
    }

    fn are_on_two_devices(&self, first: &str, second: &str) -> bool {
        let first = device_of(&self.files, first);
        let second = device_of(&self.files, second);
        first.is_some() && second.is_some() && first != second
    }
}

// A stamp of a file after this many refusals: of its modification time, in nanoseconds since
// 1970, and of what else tells one text from another. Where only one of these differs, so does the
// stamp.
fn stamp_of<R: Files>(files: &R, path: &str, refused: u64) -> io::Result<u64> {
    let metadata = fs::metadata(files, path)?;
    let since = metadata.modified()?.duration_since(UNIX_EPOCH).ok();
    let Some(nanos) = since.and_then(|since| u64::try_from(since.as_nanos()).ok()) else {
        return Err(io::Error::from(ErrorKind::InvalidData));
    };
    let changed = metadata.ctime().unsigned_abs();
    let stamp = mixed(mixed(nanos, metadata.len()), metadata.ino());
    let stamp = mixed(mixed(stamp, changed), metadata.ctime_nsec().unsigned_abs());
    Ok(mixed(stamp, refused))
}

// A number made of two, which differs wherever one of them does and the other does not.
fn mixed(stamp: u64, value: u64) -> u64 {
    (stamp.rotate_left(23) ^ value).wrapping_mul(SPREAD)
}

// The text of a file, which may be empty or not. A FIFO is not opened, since that may wait for ever.
fn text_of<R: Files>(
    alloc: Global,
    files: &R,
    path: &str,
    refuses_empty: bool,
) -> io::Result<String> {
    if is_fifo(files, path) {
        return Err(io::Error::new(ErrorKind::InvalidInput, "Is a FIFO"));
    }
    let text = io::read_to_string(alloc, File::open(files, path)?)?;
    if refuses_empty && text.is_empty() {
        return Err(io::Error::from(ErrorKind::UnexpectedEof));
    }
    Ok(text)
}

/// Returns the device of the folder of a file, or of the nearest folder above it that is there.
/// Returns `None` if the system does not tell it.
fn device_of<R: Files>(files: &R, path: &str) -> Option<u64> {
    let folder = Path::new(path).parent()?;
    for above in folder.ancestors() {
        let name = above.as_os_str();
        match fs::metadata(files, if name.is_empty() { "." } else { name }) {
            Ok(found) => return Some(found.dev()),
            Err(cause) if cause.kind() == ErrorKind::NotFound => {}
            Err(_) => return None,
        }
    }
    None
}
