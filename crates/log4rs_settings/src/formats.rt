//! The format that the extension of a path names.
ghost use Rattle.std.specs.Prelude.{◌≡◌, ◌≢◌, Ok, Err, IfOk, IfErr};
ghost use Rattle.std.specs.Option.{option_copied};
ghost use Rattle.log4rs_settings.specs.Paths.{name_of, dotted, extension};
ghost use Rattle.log4rs_settings.specs.Named.{format_named, fault_of};
ghost use Rattle.log4rs_settings.specs.declared.formats.FormatError.TheVariants.{Memory};

use crate::Format;
use log4rs_base::OutOfMemory;
use std::alloc::{AllocError, Global};
use thiserror::Error;

/// Errors of finding a format by the extension of a path.
#[derive(Debug, Drop, Error)]
pub enum FormatError {
    /// The extension is that of YAML.
    #[error("the `yaml_format` feature is required for YAML support")]
    YamlFeatureFlagRequired,
    /// Never returned, since JSON is supported.
    #[error("the `json_format` feature is required for JSON support")]
    JsonFeatureFlagRequired,
    /// Never returned, since TOML is supported.
    #[error("the `toml_format` feature is required for TOML support")]
    TomlFeatureFlagRequired,
    /// The extension is another one.
    #[error("unsupported file format `{0}`")]
    UnsupportedFormat(String),
    /// There is no extension.
    #[error("unable to determine the file format")]
    UnknownFormat,
    /// An allocation failed.
    #[error("{}", OutOfMemory)]
    Memory,
}

impl From<AllocError> for FormatError {
    ghost from_gives = { λ _ e. e ≡ Memory };

    fn from(_: AllocError) -> Self {
        FormatError::Memory
    }
}

/// Returns the format that the extension of a path names. Extensions are compared byte by byte.
pub fn format_of_path(alloc: Global, path: &str) -> Result<Format, FormatError>
    ensures ok { IfOk result (λ format. format_named (extension path.now) ≡ Ok format) }
    ensures err { IfErr result
        (λ e. e ≢ FormatError.Memory → format_named (extension path.now) ≡ Err (fault_of e)) }
{
    let Some(name) = extension(path) else {
        return Err(FormatError::UnknownFormat);
    };
    match name {
        "json" => Ok(Format::Json),
        "toml" => Ok(Format::Toml),
        "yaml" | "yml" => Err(FormatError::YamlFeatureFlagRequired),
        other => Err(FormatError::UnsupportedFormat(String::from_str(alloc, other)?)),
    }
}

/// Returns the extension of a path: the part of its last component after the last dot. `None` if
/// the component has no dot, if its last dot is its first character, and if it is `..`.
pub fn extension(path: &str) -> Option<&str>
    ensures { option_copied result ≡ extension path.now }
{
    let name = name_of(path);
    if name == ".." { None } else { dotted(name) }
}

/// Returns the part of a path after its last `/`.
fn name_of(path: &str) -> &str
    ensures { result.now ≡ name_of path.now }
{
    match path.rsplit_once('/') {
        Some((_, name)) => name,
        None => path,
    }
}

/// Returns the part of a name after its last dot, if something precedes the dot.
fn dotted(name: &str) -> Option<&str>
    ensures { option_copied result ≡ dotted name.now }
{
    let (stem, extension) = name.rsplit_once('.')?;
    if stem.is_empty() {
        return None;
    }
    Some(extension)
}
