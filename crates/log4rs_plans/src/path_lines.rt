//! Warnings about paths that are read otherwise than their writer may think: what a shell would
//! replace, variables without a value, and the standard streams.

use crate::asked::Plans;
use crate::written_files::{path_of, window_of};
use log4rs_base::OutOfMemory;
use std::alloc::Global;
use std::collections::BTreeMap;

/// What is looked at: a path or a pattern of archives, as the settings of an appender have it.
#[derive(Clone, Copy)]
struct Looked<'a> {
    alloc: Global,
    /// The appender's name.
    name: &'a str,
    /// What the text is of the appender.
    what: &'a str,
    text: &'a str,
}

/// Returns whether a shell would replace a variable whose name stands in this text behind a `$`.
fn is_shell(behind: &str) -> bool {
    if behind.starts_with("ENV{") || behind.starts_with("TIME{") {
        return false;
    }
    let name = behind.strip_prefix('{').unwrap_or(behind);
    let first = name.chars().next();
    first.is_some_and(|c| c == '_' || c.is_ascii_alphabetic())
}

/// Returns how a console writes to the stream that has this path, if it is one.
fn console_of(path: &str) -> Option<&'static str> {
    match path {
        "/dev/stdout" | "/proc/self/fd/1" => Some("kind = \"console\""),
        "/dev/stderr" | "/proc/self/fd/2" => Some("kind = \"console\", target = \"stderr\""),
        _ => None,
    }
}

impl Looked<'_> {
    /// Adds a line that says this of the text.
    fn add_line(&self, lines: &mut Vec<String>, said: &str) -> Result<(), OutOfMemory> {
        let (name, what, text) = (self.name, self.what, self.text);
        let line = format!(in self.alloc; "appender {name}: in {what} {said}: {text}")?;
        Ok(lines.push(line)?)
    }

    /// Adds a line if a shell would replace something in the text, which stays here.
    fn add_shell(&self, lines: &mut Vec<String>) -> Result<(), OutOfMemory> {
        if self.text == "~" || self.text.starts_with("~/") {
            self.add_line(lines, "nothing replaces `~`, a home folder is `$ENV{HOME}`")?;
        }
        if self.text.split('$').skip(1).any(|behind| is_shell(behind)) {
            self.add_line(lines, "a variable is written `$ENV{NAME}`")?;
        }
        Ok(())
    }

    /// Adds a line about the first variable in the text whose value is empty, if there is one.
    fn add_empty(
        &self,
        lines: &mut Vec<String>,
        env: &BTreeMap<String, String>,
    ) -> Result<(), OutOfMemory> {
        let (name, what, text) = (self.name, self.what, self.text);
        for behind in text.split("$ENV{").skip(1) {
            if let Some((variable, _)) = behind.split_once('}')
                && env.get(variable).is_some_and(|value| value.is_empty())
            {
                return Ok(lines.push(format!(in self.alloc;
                    "appender {name}: the variable {variable} in {what} is empty"
                )?)?);
            }
        }
        Ok(())
    }

    /// Adds a line if the text is the path of a standard stream, which may be a pipe.
    fn add_stream(&self, lines: &mut Vec<String>) -> Result<(), OutOfMemory> {
        let (name, path) = (self.name, self.text);
        if let Some(kind) = console_of(path) {
            lines.push(format!(in self.alloc;
                "appender {name}: where {path} is a pipe it is not opened, a console writes to it: {kind}"
            )?)?;
        }
        Ok(())
    }
}

/// Returns the lines about the paths of each appender whose settings have no fault.
pub(crate) fn path_lines(
    alloc: Global,
    plans: &Plans,
    env: &BTreeMap<String, String>,
) -> Result<Vec<String>, OutOfMemory> {
    let mut lines = Vec::new(alloc);
    for asked in &plans.appenders {
        let Ok(plan) = &asked.plan else {
            continue;
        };
        let name = asked.name.as_str();
        if let Some(text) = path_of(plan) {
            let what = "its path";
            let looked = Looked {
                alloc,
                name,
                what,
                text,
            };
            looked.add_shell(&mut lines)?;
            looked.add_empty(&mut lines, env)?;
            looked.add_stream(&mut lines)?;
        }
        if let Some(window) = window_of(plan) {
            let (what, text) = ("the names of its archives", window.pattern.as_str());
            let looked = Looked {
                alloc,
                name,
                what,
                text,
            };
            looked.add_shell(&mut lines)?;
            looked.add_empty(&mut lines, env)?;
        }
    }
    Ok(lines)
}
