//! Values of fields.
ghost use Rattle.std.specs.Prelude.{◌≡◌, ◌^◌, Option};
ghost use Rattle.log4rs_settings.specs.Appenders.{as_target};
ghost use Rattle.log4rs_settings.specs.Data.{Data};
ghost use Rattle.log4rs_settings.specs.View.{view};
ghost use Rattle.log4rs_settings.specs.Values.{as_bool, as_whole, as_level, as_size, as_interval, as_rate};

use crate::{Tree, parse_duration, parse_interval, parse_size};
use log::LevelFilter;
use log4rs_base::{Target, TimeTriggerInterval};

/// A value that a field can have.
pub(crate) trait FromTree: Copy {
    // What a tree is read as.
    ghost reads: { Data → Option Self };

    /// Returns the value that a tree is, if it is one.
    fn from_tree(tree: &Tree) -> Option<Self>
        ensures { result ≡ reads (view tree.now) };
}

impl FromTree for bool {
    ghost reads = { as_bool };

    fn from_tree(tree: &Tree) -> Option<bool> {
        match tree {
            Tree::Bool(value) => Some(*value),
            _ => None,
        }
    }
}

impl FromTree for u64 {
    ghost reads = { as_whole (2 ^ 64) };

    fn from_tree(tree: &Tree) -> Option<u64> {
        match tree {
            Tree::Number(number) => u64::try_from(*number).ok(),
            _ => None,
        }
    }
}

impl FromTree for u32 {
    ghost reads = { as_whole (2 ^ 32) };

    fn from_tree(tree: &Tree) -> Option<u32> {
        match tree {
            Tree::Number(number) => u32::try_from(*number).ok(),
            _ => None,
        }
    }
}

// A level is named in any ASCII case.
impl FromTree for LevelFilter {
    ghost reads = { as_level };

    fn from_tree(tree: &Tree) -> Option<LevelFilter> {
        match tree {
            Tree::Text(text) => text.as_str().parse::<LevelFilter>().ok(),
            _ => None,
        }
    }
}

impl FromTree for Target {
    ghost reads = { as_target };

    fn from_tree(tree: &Tree) -> Option<Target> {
        match tree {
            Tree::Text(name) => match name.as_str() {
                "stdout" => Some(Target::Stdout),
                "stderr" => Some(Target::Stderr),
                _ => None,
            },
            _ => None,
        }
    }
}

// An interval is a number of seconds, or a text.
impl FromTree for TimeTriggerInterval {
    ghost reads = { as_interval };

    fn from_tree(tree: &Tree) -> Option<TimeTriggerInterval> {
        match tree {
            Tree::Number(number) if 0 <= *number => {
                Some(TimeTriggerInterval::Second(i64::try_from(*number).ok()?))
            }
            Tree::Text(text) => parse_interval(text.as_str()),
            _ => None,
        }
    }
}

/// Returns the size in bytes that a tree is, a number or a text.
pub(crate) fn size(tree: &Tree) -> Option<u64>
    ensures { result ≡ as_size (view tree.now) }
{
    match tree {
        Tree::Text(text) => parse_size(text.as_str()),
        other => u64::from_tree(other),
    }
}

/// Returns the milliseconds of the duration that a tree is.
pub(crate) fn rate(tree: &Tree) -> Option<Option<u64>>
    ensures { result ≡ as_rate (view tree.now) }
{
    match tree {
        Tree::Text(text) => parse_duration(text.as_str()).map(Some),
        _ => None,
    }
}
