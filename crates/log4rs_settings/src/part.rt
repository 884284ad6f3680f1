//! Faults of settings, and their places.

ghost use Rattle.std.specs.Prelude.{◌≡◌};
ghost use Rattle.log4rs_settings.specs.declared.part.PartError.TheVariants.{Memory};
ghost use Rattle.log4rs_settings.specs.declared.part.TreeError.TheVariants.{Memory as NoMemory};

use crate::Tree;
use log4rs_base::print::Escaped;
use log4rs_base::{IntervalTooSmall, LogError, OutOfMemory, RollerError};
use std::alloc::{AllocError, AllocFailed};
use std::fmt::{self, Debug, Display, Formatter};
use thiserror::Error;

/// A fault in settings. Its name is that of a field, or of the class of a component.
#[derive(Debug, Drop, Error)]
pub enum ConfigFault {
    /// The class has no such kind, and no handed-in component is left.
    #[error("no {0} deserializer for kind `{1}` registered")]
    UnknownKind(&'static str, String),
    /// The settings have no such field.
    #[error("unknown field `{0}`")]
    UnknownField(String),
    /// A required field is missing.
    #[error("missing field `{0}`")]
    MissingField(&'static str),
    /// A field has a value that it cannot have, or a component is no object.
    #[error("bad value of `{0}`")]
    BadValue(&'static str),
    /// The number of an interval is below 1.
    #[error("{}", IntervalTooSmall)]
    Interval,
    /// No roller can have the pattern or the window.
    #[error("{0}")]
    Roller(RollerError),
    /// The component could not be built.
    #[error("{0}")]
    Log(LogError),
}

/// Errors of reading settings.
#[derive(Debug, Drop, Error)]
pub enum TreeError {
    /// The settings have a fault.
    #[error("{0}")]
    Fault(ConfigFault),
    /// An allocation failed.
    #[error("{}", OutOfMemory)]
    Memory,
}

/// A fault of settings, with its place.
#[derive(Drop)]
pub struct PartFault {
    /// The path of names to the bad value, joined by dots, such as `loggers.app.level`. An item of
    /// a list has its index for a name. For a missing or unknown field, the path to its object.
    /// Empty for the settings as a whole: those of a configuration, of an appender or of a filter.
    pub place: String,
    /// The bad value. `None` if a field is missing or unknown.
    pub value: Option<Tree>,
    /// The fault.
    pub fault: ConfigFault,
}

/// Errors of reading settings, with the places of faults.
#[derive(Debug, Drop, Error)]
pub enum PartError {
    /// The settings have a fault.
    #[error("{0}")]
    Fault(PartFault),
    /// An allocation failed.
    #[error("{}", OutOfMemory)]
    Memory,
}

/// What is read of settings, or the fault.
pub type Read<T> = Result<T, PartError>;

// The error of one component, whose fault has no place and no value.
impl From<PartError> for TreeError {
    ghost use Rattle.log4rs_settings.specs.Reading.{IsWithoutPlace};

    ghost from_gives = { IsWithoutPlace };

    fn from(error: PartError) -> TreeError {
        match error {
            PartError::Fault(PartFault { fault, .. }) => TreeError::Fault(fault),
            PartError::Memory => TreeError::Memory,
        }
    }
}

impl From<AllocError> for TreeError {
    ghost from_gives = { λ _ e. e ≡ NoMemory };

    fn from(_: AllocError) -> Self {
        TreeError::Memory
    }
}

impl From<AllocError> for PartError {
    ghost from_gives = { λ _ e. e ≡ Memory };

    fn from(_: AllocError) -> Self {
        PartError::Memory
    }
}

impl<T: Drop> From<AllocFailed<T>> for PartError {
    ghost from_gives = { λ _ e. e ≡ Memory };

    fn from(_: AllocFailed<T>) -> Self {
        PartError::Memory
    }
}

impl std::error::Error for PartFault {}

impl Debug for PartFault {
    fn fmt<W: fmt::Write>(&self, f: &mut Formatter<W>) -> fmt::Result {
        write!(f, "PartFault({self})")
    }
}

impl Display for PartFault {
    fn fmt<W: fmt::Write>(&self, f: &mut Formatter<W>) -> fmt::Result {
        let shown = FaultAt {
            place: self.place.as_str(),
            value: self.value.as_ref().map(Shown),
            fault: &self.fault,
        };
        write!(f, "{shown}")
    }
}

/// A fault as it is shown, at its place: the path of names to a bad value, or to the object of a
/// missing or unknown field.
#[derive(Clone, Copy)]
pub struct FaultAt<'a, V> {
    /// The place. Empty for the whole configuration.
    pub place: &'a str,
    /// What is shown of the bad value, if there is one.
    pub value: Option<V>,
    /// The fault.
    pub fault: &'a ConfigFault,
}

impl<V: Display> Display for FaultAt<'_, V> {
    fn fmt<W: fmt::Write>(&self, f: &mut Formatter<W>) -> fmt::Result {
        let place = self.place;
        if !place.is_empty() {
            write!(f, "{}: ", Escaped(&place))?;
        }
        match (&self.value, self.fault) {
            (Some(value), ConfigFault::BadValue(name)) => {
                write!(f, "{value} is no {}", wanted(place, name))
            }
            (_, fault) => write!(f, "{}", Escaped(fault)),
        }
    }
}

/// Returns what the value of a field, or of a class, must be.
fn wanted(place: &str, name: &str) -> &'static str {
    match name {
        "level" => "level",
        "refresh_rate" => "duration, such as \"30 seconds\"",
        "limit" => "size",
        "interval" => "interval",
        "target" => "`stdout` or `stderr`",
        "additive" | "tty_only" | "append" | "modulate" | "background" => "truth value",
        "count" | "base" | "max_random_delay" | "min_size" => "whole number that fits",
        "kind" | "path" | "pattern" => "text",
        "filters" => "list of filters",
        "appenders" if place == "appenders" => "object",
        "appenders" if place.ends_with("appenders") => "list of names",
        "appenders" => "name",
        _ => "object",
    }
}

/// The most characters of a text that are shown.
const SHOWN: usize = 40;

/// A value as it is shown, on one line. A text is quoted and cut.
#[derive(Clone, Copy)]
pub struct Shown<'a>(pub &'a Tree);

impl Display for Shown<'_> {
    fn fmt<W: fmt::Write>(&self, f: &mut Formatter<W>) -> fmt::Result {
        match self.0 {
            Tree::Null => f.write_str("null"),
            Tree::Bool(value) => write!(f, "{value}"),
            Tree::Number(number) => write!(f, "{number}"),
            Tree::Text(text) => show_text(text.as_str(), f),
            Tree::List(_) => f.write_str("a list"),
            Tree::Map(_) => f.write_str("an object"),
        }
    }
}

/// Writes a text between quotes, cut behind its first characters.
fn show_text<W: fmt::Write>(text: &str, f: &mut Formatter<W>) -> fmt::Result {
    f.write_str("\"")?;
    for (shown, c) in text.chars().enumerate() {
        if shown >= SHOWN {
            return f.write_str("…\"");
        }
        write!(f, "{}", Escaped(&c))?;
    }
    f.write_str("\"")
}
