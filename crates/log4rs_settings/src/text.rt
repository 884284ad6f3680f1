//! Trees of texts, and the place of a value that no configuration has.
ghost use Rattle.std.specs.Prelude.{◌≡◌, ◌≢◌, IfOk, IfErr, Ok, Err};
ghost use Rattle.log4rs_settings.specs.View.{view};
ghost use Rattle.log4rs_settings.specs.Text.{tree_of_text};
ghost use Rattle.log4rs_settings.specs.Placeless.{placeless};
ghost use Rattle.log4rs_settings.specs.declared.text.TextError.TheVariants.{Memory};

use crate::convert::{json_tree, toml_map};
use crate::fields::{at_item, of_object, within};
use crate::part::{ConfigFault, PartError, PartFault, Read};
use crate::syntax::SyntaxError;
use crate::tree::Tree;
use log4rs_base::OutOfMemory;
use serde_json::Value as JsonValue;
use std::alloc::{AllocError, AllocFailed, Global};
use thiserror::Error;
use toml::Value as TomlValue;

/// A format of configurations.
#[derive(Clone, Copy, Debug, PartialEq, Eq, Drop)]
pub enum Format {
    /// JSON.
    Json,
    /// TOML.
    Toml,
}

/// Errors of parsing a text.
#[derive(Clone, Copy, Debug, PartialEq, Eq, Error)]
pub enum TextError {
    /// The text is not of its format.
    #[error("{0}")]
    Syntax(SyntaxError),
    /// There is a floating-point number. An integer of JSON outside 64 bits is one, and so is `-0`.
    #[error("there is a floating-point number")]
    FloatRefused,
    /// There is a date, a time, or both.
    #[error("there is a date-time")]
    DateTimeRefused,
    /// An allocation failed.
    #[error("{}", OutOfMemory)]
    Memory,
}

impl From<AllocError> for TextError {
    ghost from_gives = { λ _ e. e ≡ Memory };

    fn from(_: AllocError) -> Self {
        TextError::Memory
    }
}

impl<T: Drop> From<AllocFailed<T>> for TextError {
    ghost from_gives = { λ _ e. e ≡ Memory };

    fn from(_: AllocFailed<T>) -> Self {
        TextError::Memory
    }
}

/// Parses a text into a tree.
///
/// In JSON values may nest 127 deep. In TOML arrays and inline tables may nest 80 deep, and a key
/// has at most 80 parts. If members of a JSON object have the same key, the last one stays; TOML
/// allows no second. Fails with `Syntax` if the text is not well formed, else with the first of its
/// floating-point numbers or date-times, where the members of an object come in the order of their
/// keys.
pub fn read(alloc: Global, format: Format, text: &str) -> Result<Tree, TextError>
    ensures ok { IfOk result (λ t. tree_of_text format text.now ≡ Ok (view t)) }
    ensures err { IfErr result
        (λ e. e ≢ TextError.Memory → tree_of_text format text.now ≡ Err (placeless e)) }
{
    match format {
        Format::Json => match JsonValue::from_str(alloc, text) {
            Ok(value) => json_tree(alloc, &value),
            Err(e) if e.is_memory() => Err(TextError::Memory),
            Err(e) => Err(TextError::Syntax(SyntaxError::of_json(text, &e))),
        },
        Format::Toml => match toml::table_from_str(alloc, text) {
            Ok(table) => Ok(Tree::Map(toml_map(alloc, &table)?)),
            Err(e) if e.is_memory() => Err(TextError::Memory),
            Err(e) => Err(TextError::Syntax(SyntaxError::of_toml(text, &e))),
        },
    }
}

/// Returns the error of a value that no configuration has.
fn refused(alloc: Global) -> PartError {
    PartError::Fault(of_object(alloc, ConfigFault::BadValue("configuration")))
}

/// Fails at the first floating-point number of a value, in the order of the walk.
fn walk_json(alloc: Global, value: &JsonValue) -> Read<()> {
    match value {
        JsonValue::Number(number) if number.as_i128().is_none() => return Err(refused(alloc)),
        JsonValue::Array(items) => {
            for (index, item) in items.iter().enumerate() {
                at_item(alloc, index, walk_json(alloc, item))?;
            }
        }
        JsonValue::Object(members) => {
            for (name, member) in members.iter() {
                within(alloc, name.as_str(), walk_json(alloc, member))?;
            }
        }
        _ => {}
    }
    Ok(())
}

/// Fails at the first floating-point number or date-time of a value, in the order of the walk.
fn walk_toml(alloc: Global, value: &TomlValue) -> Read<()> {
    match value {
        TomlValue::Float(_) | TomlValue::Datetime(_) => return Err(refused(alloc)),
        TomlValue::Array(items) => {
            for (index, item) in items.iter().enumerate() {
                at_item(alloc, index, walk_toml(alloc, item))?;
            }
        }
        TomlValue::Table(members) => {
            for (name, member) in members.iter() {
                within(alloc, name.as_str(), walk_toml(alloc, member))?;
            }
        }
        _ => {}
    }
    Ok(())
}

/// Returns the place in a text of the first value that no configuration has, a floating-point
/// number or a date-time: the names down to it, with dots between. `None` if there is none below the
/// text as a whole, or if the text is not of its format.
pub fn refused_place(
    alloc: Global,
    format: Format,
    text: &str,
) -> Result<Option<String>, OutOfMemory> {
    let walked = match format {
        Format::Json => match JsonValue::from_str(alloc, text) {
            Ok(JsonValue::Number(_)) | Err(_) => Ok(()),
            Ok(value) => walk_json(alloc, &value),
        },
        Format::Toml => match toml::table_from_str(alloc, text) {
            Ok(table) => walk_toml(alloc, &TomlValue::Table(table)),
            Err(_) => Ok(()),
        },
    };
    match walked {
        Ok(()) => Ok(None),
        Err(PartError::Fault(PartFault { place, .. })) => Ok(Some(place)),
        Err(PartError::Memory) => Err(OutOfMemory),
    }
}
