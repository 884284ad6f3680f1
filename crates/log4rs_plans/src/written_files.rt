//! The files that a configuration's appenders write to.

ghost use Rattle.std.specs.Prelude.{◌≡◌, [], ◌∷◌, ◌++◌, IfOk, OnOk, map, option_map, string_bytes};
ghost use Rattle.log4rs_settings.specs.Plan.{appender_of, window_of as planned_window};
ghost use Rattle.log4rs_settings.specs.Reading.{bytes_now};
ghost use Rattle.log4rs_plans.specs.Background.{kept, rolls_in_background};
ghost use Rattle.log4rs_plans.specs.Effective.{path_of};
ghost use Rattle.log4rs_plans.specs.Shared.{IsShared, is_of_first};
ghost use Rattle.log4rs_plans.specs.Written.{each_plan, file_of, files_in, name_of, plain, window_in, window_of, windows_in};

use crate::overlaps::{ArchiveWindow, WrittenFile, overlaps};
use crate::surroundings::PlannedAppender;
use crate::warnings::Warning;
use log4rs_base::{OutOfMemory, expand_env_vars};
use log4rs_settings::{AppenderPlan, RollerPlan, WindowPlan};
use std::alloc::Global;
use std::collections::BTreeMap;
use std::path::Path;
use std::str;

/// Returns a path without parts `.` and doubled slashes, normalized for comparison.
pub(crate) fn plain_path(alloc: Global, path: &str) -> Result<String, OutOfMemory>
    ensures { IfOk result (λ text. string_bytes text ≡ plain path.now) }
{
    let mut text = String::new(alloc);
    for component in Path::new(path).components() {
        let part = component.as_os_str();
        if part != "." {
            if !text.is_empty() && text.as_str() != "/" {
                text.push_str("/")?;
            }
            text.push_str(part)?;
        }
    }
    Ok(text)
}

/// Returns the name of the archive with an index, normalized for comparison.
pub(crate) fn archive_name(
    alloc: Global,
    window: &WindowPlan,
    env: &BTreeMap<String, String>,
    index: u32,
) -> Result<String, OutOfMemory> {
    let index = format!(in alloc; "{index}")?;
    let name = window.pattern.replace(alloc, "{}", &index)?;
    plain_path(alloc, &expand_env_vars(alloc, &name, env)?)
}

/// Returns the index that these bytes write, if a window has it.
fn index_in(window: &WindowPlan, bytes: &[u8]) -> Option<u32> {
    let index = str::from_utf8(bytes).ok()?.parse::<u32>().ok()?;
    let place = index.checked_sub(window.base)?;
    (place < window.count).then_some(index)
}

/// The most digits of an index.
const MOST_DIGITS: usize = 10;

/// Returns the window of archives that an appender is to keep, if it is to keep any.
pub(crate) fn window_of(plan: &AppenderPlan) -> Option<&WindowPlan>
    ensures { option_map (λ window. planned_window window.now) result
        ≡ kept (appender_of plan.now) }
{
    match plan {
        AppenderPlan::RollingFile { policy, .. } => match &policy.roller {
            RollerPlan::FixedWindow(window) if window.count > 0 => Some(window),
            _ => None,
        },
        _ => None,
    }
}

/// Returns whether an appender is to roll its file in the background.
pub(crate) fn rolls_in_background(plan: &AppenderPlan) -> bool
    ensures { result ≡ rolls_in_background (appender_of plan.now) }
{
    window_of(plan).is_some_and(|window| window.background)
}

/// Returns the path of the file of an appender, if it has one, as its plan has it.
pub fn path_of(plan: &AppenderPlan) -> Option<&str>
    ensures { option_map bytes_now result ≡ path_of (appender_of plan.now) }
{
    match plan {
        AppenderPlan::File { path, .. } | AppenderPlan::RollingFile { path, .. } => {
            Some(path.as_str())
        }
        AppenderPlan::Console { .. } | AppenderPlan::HandedIn => None,
    }
}

/// Returns whether an appender empties its file when it opens it.
fn is_emptied(plan: &AppenderPlan) -> bool {
    match plan {
        AppenderPlan::File { append, .. } | AppenderPlan::RollingFile { append, .. } => !*append,
        AppenderPlan::Console { .. } | AppenderPlan::HandedIn => false,
    }
}

/// Returns the effective plan of each of these appenders.
pub(crate) fn each_plan(
    alloc: Global,
    planned: &[PlannedAppender],
) -> Result<Vec<&AppenderPlan>, OutOfMemory>
    ensures { IfOk result (λ plans. each_plan plans.items
        ≡ map (λ appender. appender_of appender.plan) planned.now) }
{
    let mut plans = Vec::new(alloc);
    for appender in planned {
        plans.push(&appender.plan)?;
    }
    Ok(plans)
}

/// The effective plans of appenders, and the environment, for the names of their archives.
#[derive(Clone, Copy)]
pub(crate) struct Written<'a> {
    pub(crate) alloc: Global,
    pub(crate) plans: &'a [&'a AppenderPlan],
    pub(crate) env: &'a BTreeMap<String, String>,
}

impl Written<'_> {
    /// Returns the window of archives of an appender.
    fn window(&self, appender: usize, window: &WindowPlan) -> Result<ArchiveWindow, OutOfMemory>
        ensures { IfOk result (λ made. window_of made
            ≡ window_in self.now.env.now appender (planned_window window.now)) }
    {
        let pattern = expand_env_vars(self.alloc, window.pattern.as_str(), self.env)?;
        Ok(ArchiveWindow {
            appender,
            pattern: plain_path(self.alloc, pattern.as_str())?,
            base: window.base,
            count: window.count,
        })
    }

    /// Returns the windows of archives that appenders are to keep, in order.
    pub(crate) fn windows(&self) -> Result<Vec<ArchiveWindow>, OutOfMemory>
        ensures { IfOk result (λ made. map window_of made.items
            ≡ windows_in self.now.env.now (each_plan self.now.plans.now)) }
    {
        let mut windows = Vec::new(self.alloc);
        for appender in 0..self.plans.len() {
            if let Some(window) = window_of(self.plans[appender]) {
                windows.push(self.window(appender, window)?)?;
            }
        }
        Ok(windows)
    }

    /// Returns whether a path is the name of an archive of a window. The index of such an archive
    /// is written in its name, so only numbers that stand in the path are tried, and not the whole
    /// window. They stand behind the beginning of the pattern, unless that has the name of a value.
    fn is_archive(&self, path: &str, window: &ArchiveWindow) -> Result<bool, OutOfMemory> {
        let Some(plan) = self.plans.get(window.appender) else {
            return Ok(false);
        };
        let (Some(planned), bytes) = (window_of(plan), path.as_bytes()) else {
            return Ok(false);
        };
        let begin = match window.pattern.split_once("{}") {
            Some((begin, _)) if !begin.contains("$ENV{") => begin,
            _ => "",
        };
        if !path.starts_with(begin) {
            return Ok(false);
        }
        for first in begin.len()..bytes.len() {
            for last in first..bytes.len().min(first.saturating_add(MOST_DIGITS)) {
                if let Some(index) = index_in(planned, &bytes[first..=last]) {
                    let name = archive_name(self.alloc, planned, self.env, index)?;
                    if name.as_str() == path {
                        return Ok(true);
                    }
                }
            }
        }
        Ok(false)
    }

    /// Adds the file of an appender at a path.
    fn add_file(
        &self,
        files: &mut Vec<WrittenFile>,
        windows: &[ArchiveWindow],
        appender: usize,
        path: &str,
        is_emptied: bool,
    ) -> Result<(), OutOfMemory>
        ensures { OnOk result (map name_of (map file_of files.new.items)
            ≡ map name_of (map file_of files.old.items) ++ (appender, plain path.now) ∷ []) }
    {
        let path = plain_path(self.alloc, path)?;
        let mut is_archive = Vec::new(self.alloc);
        for window in windows {
            is_archive.push(self.is_archive(&path, window)?)?;
        }
        files.push(WrittenFile {
            appender,
            path,
            is_emptied,
            is_archive,
        })?;
        Ok(())
    }

    /// Returns the files that appenders with these windows are to write to, in order, and behind
    /// each that under whose path it waits to be archived.
    pub(crate) fn files(&self, windows: &[ArchiveWindow]) -> Result<Vec<WrittenFile>, OutOfMemory>
        ensures { IfOk result (λ made. map name_of (map file_of made.items)
            ≡ files_in (each_plan self.now.plans.now)) }
    {
        let mut files = Vec::new(self.alloc);
        for appender in 0..self.plans.len() {
            let plan = self.plans[appender];
            if let Some(path) = path_of(plan) {
                self.add_file(&mut files, windows, appender, path, is_emptied(plan))?;
                if rolls_in_background(plan) {
                    let waiting = format!(in self.alloc; "{path}.rolling")?;
                    self.add_file(&mut files, windows, appender, &waiting, false)?;
                }
            }
        }
        Ok(files)
    }
}

/// Returns whether files or windows overlap of which one is that of the first appender.
fn is_of_first(overlap: Warning, files: &Vec<WrittenFile>, windows: &Vec<ArchiveWindow>) -> bool
    ensures { result ≡ is_of_first (map file_of files.now.items) (map window_of windows.now.items)
        overlap }
{
    let writes = |at: usize| files.get(at).is_some_and(|file| file.appender == 0);
    let keeps = |at: usize| windows.get(at).is_some_and(|window| window.appender == 0);
    match overlap {
        Warning::OneFile(at, _) => writes(at),
        Warning::OtherArchive(at, window) => writes(at) || keeps(window),
        Warning::OnePattern(at, _) => keeps(at),
        _ => false,
    }
}

/// Returns whether the first of these effective plans has a file or the name of an archive in
/// common with another.
pub fn shares_files(
    alloc: Global,
    plans: &[&AppenderPlan],
    env: &BTreeMap<String, String>,
) -> Result<bool, OutOfMemory>
    ensures { IfOk result (IsShared env.now (each_plan plans.now)) }
{
    let written = Written { alloc, plans, env };
    let windows = written.windows()?;
    let files = written.files(&windows)?;
    let found = overlaps(alloc, "", &files, &windows)?;
    let is_own = |overlap: &Warning| is_of_first(*overlap, &files, &windows);
    Ok(found.iter().any(is_own))
}
