//! Warnings about single appenders: placeholders that nothing replaced, errors in patterns, and
//! archives on another device than their file.

ghost use Rattle.std.specs.Prelude.{◌≡◌, ◌+◌, ◌≤◌, OnOk, length, map, take};
ghost use Rattle.log4rs_settings.specs.Plan.{appender_of};
ghost use Rattle.log4rs_plans.specs.Written.{kept_count, kept_counts};

use crate::asked::Plans;
use crate::path_lines::path_lines;
use crate::surroundings::PlannedAppender;
use crate::written_files::{archive_name, path_of, window_of};
use log4rs_base::OutOfMemory;
use log4rs_encode::pattern::PatternEncoder;
use log4rs_settings::{AppenderPlan, ConfigSource, EncoderPlan};
use std::alloc::Global;
use std::collections::BTreeMap;

/// Adds a line about the first placeholder that stands in a path still, if one does.
fn add_literal(
    alloc: Global,
    lines: &mut Vec<String>,
    name: &str,
    what: &str,
    path: &str,
) -> Result<(), OutOfMemory> {
    for begin in ["$ENV{", "$TIME{"] {
        if let Some((_, behind)) = path.split_once(begin)
            && let Some((value, _)) = behind.split_once('}')
        {
            return Ok(lines.push(format!(in alloc;
                "appender {name}: nothing replaces `{begin}{value}}}` in {what}: {path}"
            )?)?);
        }
    }
    Ok(())
}

/// Returns the pattern of an appender's encoder, if that has one.
fn pattern_of(plan: &AppenderPlan) -> Option<&str> {
    match plan {
        AppenderPlan::Console { encoder, .. }
        | AppenderPlan::File { encoder, .. }
        | AppenderPlan::RollingFile { encoder, .. } => match encoder {
            EncoderPlan::Pattern(pattern) => Some(pattern.as_str()),
            EncoderPlan::Json | EncoderPlan::HandedIn => None,
        },
        AppenderPlan::HandedIn => None,
    }
}

/// Adds the lines about an appender of the configuration in a file: about placeholders in its path
/// and in the names of its archives, and about each error in its pattern.
fn add_lines_of(
    alloc: Global,
    lines: &mut Vec<String>,
    file: &str,
    appender: &PlannedAppender,
    env: &BTreeMap<String, String>,
) -> Result<(), OutOfMemory> {
    let (name, plan) = (appender.name.as_str(), &appender.plan);
    if let Some(path) = path_of(plan) {
        add_literal(alloc, lines, name, "its path", path)?;
    }
    if let Some(window) = window_of(plan) {
        let archive = archive_name(alloc, window, env, window.base)?;
        add_literal(alloc, lines, name, "the names of its archives", &archive)?;
    }
    if let Some(pattern) = pattern_of(plan) {
        for error in &PatternEncoder::new(alloc, pattern)?.errors()? {
            lines.push(format!(in alloc;
                "{file}: appenders.{name}.encoder.pattern: each record shows {error}"
            )?)?;
        }
    }
    Ok(())
}

/// The least milliseconds between two readings that are not told.
const FEW_MILLISECONDS: u64 = 10;

/// Adds a line if a file is to be read again so often that it costs much of a processor.
fn add_rate(
    alloc: Global,
    lines: &mut Vec<String>,
    file: &str,
    rate: Option<u64>,
) -> Result<(), OutOfMemory> {
    match rate {
        Some(rate) if rate < FEW_MILLISECONDS => Ok(lines.push(format!(in alloc;
            "{file}: with a refresh_rate below {FEW_MILLISECONDS} milliseconds a processor does little else"
        )?)?),
        _ => Ok(()),
    }
}

/// Returns the lines about these plans and each appender that they ask for, for the configuration in
/// a file.
pub(crate) fn plan_lines(
    alloc: Global,
    file: &str,
    plans: &Plans,
    planned: &[PlannedAppender],
    env: &BTreeMap<String, String>,
) -> Result<Vec<String>, OutOfMemory> {
    let mut lines = Vec::new(alloc);
    for appender in planned {
        add_lines_of(alloc, &mut lines, file, appender, env)?;
    }
    lines.append(&mut path_lines(alloc, plans, env)?)?;
    add_rate(alloc, &mut lines, file, plans.rate)?;
    Ok(lines)
}

/// The source of a configuration, which may know on which devices files lie, and the environment.
#[derive(Clone, Copy)]
pub struct Devices<'a, S> {
    /// The allocator.
    pub alloc: Global,
    /// The source.
    pub source: &'a S,
    /// The values of the environment, by their names.
    pub env: &'a BTreeMap<String, String>,
}

impl<S: ConfigSource> Devices<'_, S> {
    /// Adds a line if an appender with this effective plan has its archives on another device than
    /// its file.
    pub fn add_line(
        &self,
        lines: &mut Vec<String>,
        name: &str,
        plan: &AppenderPlan,
    ) -> Result<(), OutOfMemory>
        ensures stay { OnOk result
            (take (length lines.old.items) lines.new.items ≡ lines.old.items) }
        ensures most { OnOk result (length lines.new.items
            ≤ length lines.old.items + kept_count (appender_of plan.now)) }
    {
        let (Some(file), Some(window)) = (path_of(plan), window_of(plan)) else {
            return Ok(());
        };
        let archive = archive_name(self.alloc, window, self.env, window.base)?;
        if self.source.are_on_two_devices(file, &archive) {
            let outcome = if window.background {
                "nothing rolls in the background"
            } else {
                "each rolling copies"
            };
            let line = format!(in self.alloc;
                "appender {name}: its archives lie on another device than its file, so {outcome}: {file}, {archive}"
            )?;
            lines.push(line)?;
        }
        Ok(())
    }

    /// Adds the lines about these appenders.
    pub fn add_lines(
        &self,
        lines: &mut Vec<String>,
        planned: &[PlannedAppender],
    ) -> Result<(), OutOfMemory>
        ensures stay { OnOk result
            (take (length lines.old.items) lines.new.items ≡ lines.old.items) }
        ensures most { OnOk result (length lines.new.items ≤ length lines.old.items
            + kept_counts (map (λ appender. appender_of appender.plan) planned.now)) }
    {
        for appender in planned {
            self.add_line(lines, &appender.name, &appender.plan)?;
        }
        Ok(())
    }
}
