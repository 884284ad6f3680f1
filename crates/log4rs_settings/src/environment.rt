//! The process's arguments and environment, as texts.

ghost use Rattle.std.specs.Prelude.{◌≡◌, codes, false, string_bytes};
ghost use Rattle.std.specs.BTreeMap.{get_by_text};
ghost use Rattle.std.specs.Option.{option_map_or};
ghost use Rattle.std.specs.Str.{bytes_eq};
ghost use Rattle.log4rs_settings.specs.declared.environment.ArgumentError.TheVariants.{Memory};

use log4rs_base::OutOfMemory;
use std::alloc::Global;
use std::collections::BTreeMap;
use std::env::FillError;
use std::rt::Env;
use std::str;
use thiserror::Error;

/// Errors of reading the process's arguments.
#[derive(Clone, Copy, Debug, PartialEq, Eq, Error)]
pub enum ArgumentError {
    /// The argument of this number is not UTF-8.
    #[error("argument {0} is not UTF-8")]
    NotText(usize),
    /// An allocation failed.
    #[error("{}", OutOfMemory)]
    Memory,
}

impl From<OutOfMemory> for ArgumentError {
    ghost from_gives = { λ _ e. e ≡ Memory };

    fn from(_: OutOfMemory) -> Self {
        ArgumentError::Memory
    }
}

/// Returns the bytes that `fill` copies into a buffer, if they exist.
fn bytes_of<F>(alloc: Global, fill: F) -> Result<Option<Vec<u8>>, OutOfMemory>
where
    F: Fn(&mut [u8]) -> Result<usize, FillError>,
    requires { F.IsAlwaysCallable fill }
{
    let mut bytes = Vec::new(alloc);
    let mut room = 256usize;
    for _ in 0..usize::BITS {
        bytes.resize(room, 0u8)?;
        match fill(bytes.as_mut_slice()) {
            Ok(len) => {
                bytes.truncate(len);
                return Ok(Some(bytes));
            }
            Err(FillError::NotPresent) => return Ok(None),
            Err(FillError::TooLong) => room = room.saturating_mul(2),
        }
    }
    Err(OutOfMemory)
}

/// Returns the arguments of the process, without its name. Fails with the number of an argument
/// that is not UTF-8.
pub fn arguments<X: Env>(rt: &X, alloc: Global) -> Result<Vec<String>, ArgumentError> {
    let mut arguments = Vec::new(alloc);
    for at in 1..usize::MAX {
        let Some(bytes) = bytes_of(alloc, |buf| rt.arg(at, buf))? else {
            break;
        };
        let argument = String::from_utf8(bytes).map_err(|_| ArgumentError::NotText(at))?;
        arguments.push(argument).map_err(|_| ArgumentError::Memory)?;
    }
    Ok(arguments)
}

/// Returns the values of the environment by their names, without entries that are not UTF-8 or have
/// no name.
pub fn environment<X: Env>(rt: &X, alloc: Global) -> Result<BTreeMap<String, String>, OutOfMemory> {
    let mut values = BTreeMap::new(alloc);
    for at in 0..usize::MAX {
        let Some(bytes) = bytes_of(alloc, |buf| rt.var_at(at, buf))? else {
            break;
        };
        if let Some((name, value)) = read_entry(&bytes) {
            let name = String::from_str(alloc, name)?;
            values.insert(name, String::from_str(alloc, value)?)?;
        }
    }
    Ok(values)
}

/// Reads an entry `NAME=VALUE`, which splits at its first `=`.
fn read_entry(bytes: &[u8]) -> Option<(&str, &str)> {
    let text = str::from_utf8(bytes).ok()?;
    text.split_once('=').filter(|entry| !entry.0.is_empty())
}

/// Returns whether standard output and standard error count as terminals: the variable `LOG4RS_TTY`
/// is `1`.
pub fn is_terminal(env: &BTreeMap<String, String>) -> bool
    ensures { result ≡ option_map_or (λ value. bytes_eq (string_bytes value) (codes "1"))
        (get_by_text env.now (codes "LOG4RS_TTY")) false }
{
    env.get("LOG4RS_TTY")
        .is_some_and(|value| value.as_str() == "1")
}
