//! Files of a configuration that overlap.

ghost use Rattle.std.specs.Prelude.{◌≡◌, ◌+◌, IfOk, map};
ghost use Rattle.log4rs_plans.specs.Overlaps.{is_archive, overlaps_in, shares};
ghost use Rattle.log4rs_plans.specs.Written.{file_of, window_of};

use crate::unused::add_where;
use crate::warnings::Warning;
use log4rs_base::OutOfMemory;
use std::alloc::Global;

/// A file that an appender of a configuration writes to.
#[derive(Drop)]
pub struct WrittenFile {
    /// The index of the appender.
    pub appender: usize,
    /// The path, normalized for comparison.
    pub path: String,
    /// Whether opening the file empties it.
    pub is_emptied: bool,
    /// For each window of archives, in order, whether the path is the name of one of its archives.
    pub is_archive: Vec<bool>,
}

/// The window of the archives of an appender.
#[derive(Drop)]
pub struct ArchiveWindow {
    /// The index of the appender.
    pub appender: usize,
    /// The pattern of the names, normalized for comparison.
    pub pattern: String,
    /// The least index.
    pub base: u32,
    /// The number of archives.
    pub count: u32,
}

impl WrittenFile {
    /// Returns whether the path is the name of an archive in the window at a place.
    fn is_archive_at(&self, at: usize) -> bool
        ensures { result ≡ is_archive (file_of self.now) at }
    {
        self.is_archive.get(at).copied().unwrap_or(false)
    }
}

impl ArchiveWindow {
    /// Returns the first index behind the window.
    fn end(&self) -> u64
        ensures { result ≡ self.now.base + self.now.count }
    {
        u64::from(self.base) + u64::from(self.count)
    }

    /// Returns whether another window has the same pattern, and an index of which both have the
    /// archive.
    fn shares(&self, other: &ArchiveWindow) -> bool
        ensures { result ≡ shares (window_of self.now) (window_of other.now) }
    {
        let begin = self.base.max(other.base);
        let end = self.end().min(other.end());
        self.pattern.as_str() == other.pattern.as_str() && u64::from(begin) < end
    }
}

/// Returns what overlaps in the files and the windows of archives of the configuration in a file:
/// each file that is that one, each file with its own archives and with each file in front of it
/// that has the same path, each file with the archives of other appenders, and each window with
/// each one in front of it that shares archives with it.
pub fn overlaps(
    alloc: Global,
    configuration: &str,
    files: &[WrittenFile],
    windows: &[ArchiveWindow],
) -> Result<Vec<Warning>, OutOfMemory>
    ensures { IfOk result (λ found. found.items
        ≡ overlaps_in configuration.now (map file_of files.now) (map window_of windows.now)) }
{
    let mut found = Vec::new(alloc);
    for place in 0..files.len() {
        let is_so = files[place].path.as_str() == configuration;
        add_where(&mut found, is_so, Warning::OwnConfiguration(place))?;
    }
    for place in 0..files.len() {
        let file = &files[place];
        for at in 0..windows.len() {
            let window = &windows[at];
            let is_so = file.is_archive_at(at) && file.appender == window.appender;
            add_where(&mut found, is_so, Warning::OwnArchive(place))?;
        }
        for at in 0..place {
            let is_so = files[at].path.as_str() == file.path.as_str();
            add_where(&mut found, is_so, Warning::OneFile(at, place))?;
        }
    }
    for place in 0..files.len() {
        let file = &files[place];
        for at in 0..windows.len() {
            let window = &windows[at];
            let is_so = file.is_archive_at(at) && file.appender != window.appender;
            add_where(&mut found, is_so, Warning::OtherArchive(place, at))?;
        }
    }
    for place in 0..windows.len() {
        let window = &windows[place];
        for at in 0..place {
            let is_so = windows[at].shares(window);
            add_where(&mut found, is_so, Warning::OnePattern(at, place))?;
        }
    }
    Ok(found)
}
