//! Warnings about a configuration, and their texts.

ghost use Rattle.std.specs.Prelude.{◌≡◌, IfOk, length, map};
ghost use Rattle.log4rs_settings.specs.Plan.{appender_of};
ghost use Rattle.log4rs_plans.specs.Told.{TellsEach, warnings_in};
ghost use Rattle.log4rs_plans.specs.Written.{file_of, window_of};

use crate::asked::Plans;
use crate::overlaps::{ArchiveWindow, WrittenFile, overlaps};
use crate::plan_lines::plan_lines;
use crate::surroundings::PlannedAppender;
use crate::unused::unused;
use crate::written_files::{Written, each_plan, plain_path};
use log4rs_base::OutOfMemory;
use std::alloc::{AllocError, Global};
use std::collections::BTreeMap;
use std::fmt::{self, Display, Formatter};

/// What is said of a configuration without appenders.
pub const NO_APPENDER: &str = "there is no appender, so nothing is logged";

/// A warning about a configuration. Appenders are given by their index in the order of names, files
/// and windows of archives by their index in their list.
#[derive(Clone, Copy, Debug, PartialEq, Eq)]
pub enum Warning {
    /// There is no appender.
    NoAppender,
    /// The root names no appender.
    RootNamesNone,
    /// No logger names the appender, and neither does the root.
    Unused(usize),
    /// The file is that of the configuration.
    OwnConfiguration(usize),
    /// The file has the name of an archive of its own appender.
    OwnArchive(usize),
    /// The file of the first place is the one of the second, which stands behind it.
    OneFile(usize, usize),
    /// The file has the name of an archive in the window, which is another appender's.
    OtherArchive(usize, usize),
    /// The window of the first place has a pattern and indices of the one of the second, which
    /// stands behind it.
    OnePattern(usize, usize),
}

/// A report about the file at a path.
#[derive(Clone, Copy)]
pub struct OfFile<'a> {
    /// The path.
    pub path: &'a str,
    /// The report.
    pub said: &'a str,
}

impl Display for OfFile<'_> {
    fn fmt<W: fmt::Write>(&self, f: &mut Formatter<W>) -> fmt::Result {
        write!(f, "{}: {}", self.path, self.said)
    }
}

/// The parts of a configuration that its warnings name.
#[derive(Clone, Copy)]
struct Known<'a> {
    alloc: Global,
    path: &'a str,
    plans: &'a Plans,
    planned: &'a [PlannedAppender],
    files: &'a [WrittenFile],
    windows: &'a [ArchiveWindow],
}

impl<'a> Known<'a> {
    /// Returns the name of the appender at a place among those whose settings have no fault.
    fn planned_name(&self, place: usize) -> &'a str {
        let appender = self.planned.get(place);
        appender.map_or("", |appender| appender.name.as_str())
    }

    /// Returns the name of the appender and the path of the file at a place, and whether the file
    /// is emptied when it is opened.
    fn file(&self, place: usize) -> (&'a str, &'a str, bool) {
        match self.files.get(place) {
            Some(file) => (
                self.planned_name(file.appender),
                file.path.as_str(),
                file.is_emptied,
            ),
            None => ("", "", false),
        }
    }

    /// Returns the name of the appender and the pattern of the window at a place.
    fn window(&self, place: usize) -> (&'a str, &'a str) {
        match self.windows.get(place) {
            Some(window) => (self.planned_name(window.appender), window.pattern.as_str()),
            None => ("", ""),
        }
    }

    /// Returns the line of a warning about two files or windows of archives.
    fn overlap_line(&self, warning: Warning) -> Result<String, AllocError> {
        let alloc = self.alloc;
        match warning {
            Warning::OneFile(at, place) => {
                let (earlier, _, is_emptied) = self.file(at);
                let (name, file, is_emptied_too) = self.file(place);
                let emptied = if is_emptied || is_emptied_too {
                    ", which is emptied when it is opened"
                } else {
                    ""
                };
                format!(in alloc;
                    "appenders {earlier} and {name} write to one file{emptied}: {file}"
                )
            }
            Warning::OtherArchive(place, window) => {
                let ((name, file, _), (other, _)) = (self.file(place), self.window(window));
                format!(in alloc;
                    "the file of appender {name} is an archive of appender {other}: {file}"
                )
            }
            Warning::OnePattern(at, place) => {
                let ((earlier, _), (name, pattern)) = (self.window(at), self.window(place));
                format!(in alloc;
                    "appenders {earlier} and {name} have one pattern of archives: {pattern}"
                )
            }
            _ => Ok(String::new(alloc)),
        }
    }

    /// Returns the line of a warning, without an end.
    fn line(&self, warning: Warning) -> Result<String, AllocError> {
        let (alloc, path) = (self.alloc, self.path);
        match warning {
            Warning::NoAppender => format!(in alloc; "{path}: {NO_APPENDER}"),
            Warning::RootNamesNone => format!(in alloc;
                "{path}: the root names no appender, so a record is logged nowhere unless its logger names one"
            ),
            Warning::Unused(place) => {
                let appender = self.plans.appenders.get(place);
                let name = appender.map_or("", |asked| asked.name.as_str());
                format!(in alloc;
                    "{path}: appender {name} is named by no logger and not by the root, so it logs nothing"
                )
            }
            Warning::OwnConfiguration(place) => {
                let (name, file, _) = self.file(place);
                format!(in alloc; "appender {name} writes to the file of its configuration: {file}")
            }
            Warning::OwnArchive(place) => {
                let (name, file, _) = self.file(place);
                format!(in alloc;
                    "appender {name}: its file has the name of one of its archives: {file}"
                )
            }
            _ => self.overlap_line(warning),
        }
    }

    /// Returns the line of each warning about what logs nothing, and then about what overlaps.
    fn lines(&self) -> Result<Vec<String>, OutOfMemory>
        ensures { IfOk result (λ lines. length lines.items
            ≡ length (warnings_in self.now.plans.now self.now.path.now
            (map file_of self.now.files.now) (map window_of self.now.windows.now))) }
    {
        let path = plain_path(self.alloc, self.path)?;
        let mut found = unused(self.alloc, self.plans)?;
        found.append(&mut overlaps(self.alloc, &path, self.files, self.windows)?)?;
        let mut lines = Vec::new(self.alloc);
        for warning in &found {
            lines.push(self.line(*warning)?)?;
        }
        Ok(lines)
    }
}

impl Plans {
    /// Returns the warnings about the configuration in the file at a path, each as a line without
    /// an end, in this order: that there is no appender, or else that the root names none and which
    /// appenders are named nowhere; which files are that of the configuration; which have the name
    /// of one of their own archives, and which are one file; which are archives of other appenders;
    /// which windows of archives have one pattern; and, for each appender, which `$ENV{..}` or
    /// `$TIME{..}` nothing replaces in its path and in the names of its archives, and the errors in
    /// its pattern; for each appender, what a shell would replace in these, which variable in them is
    /// empty, and that its file is a standard stream; and that the refresh rate is below 10
    /// milliseconds. Paths are compared as texts, after names and times are replaced and parts `.`
    /// and doubled slashes removed.
    ///
    /// `planned` is what `planned` returned. An appender whose settings have a fault writes to no
    /// file.
    pub fn warnings(
        &self,
        planned: &[PlannedAppender],
        path: &str,
        env: &BTreeMap<String, String>,
    ) -> Result<Vec<String>, OutOfMemory>
        ensures { IfOk result (λ lines. TellsEach env.now
            (map (λ appender. appender_of appender.plan) planned.now) self.now path.now
            (length lines.items)) }
    {
        let alloc = *self.appenders.allocator();
        let each = each_plan(alloc, planned)?;
        let written = Written {
            alloc,
            plans: &each,
            env,
        };
        let windows = written.windows()?;
        let files = written.files(&windows)?;
        let known = Known {
            alloc,
            path,
            plans: self,
            planned,
            files: &files,
            windows: &windows,
        };
        let mut lines = known.lines()?;
        lines.append(&mut plan_lines(alloc, path, self, planned, env)?)?;
        Ok(lines)
    }
}
