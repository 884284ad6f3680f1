//! Names of archives.

ghost use Rattle.std.specs.Prelude.{◌≡◌, ◌∷◌, IfOk, string_bytes};
ghost use Rattle.log4rs_base.specs.Parent.{slash};
ghost use Rattle.log4rs_rolling.specs.Archives.{filled, name_at, has_placeholder, has_extension};

use log4rs_base::{OutOfMemory, expand_env_vars};
use std::alloc::{AllocError, Global};
use std::collections::BTreeMap;

/// Returns the pattern with a text in place of each `{}`.
fn filled(alloc: Global, pattern: &str, text: &str) -> Result<String, AllocError>
    ensures { IfOk result (λ name. string_bytes name ≡ filled text.now pattern.now) }
{
    pattern.replace(alloc, "{}", text)
}

/// Returns the name of the archive with an index.
pub(crate) fn name_at(
    alloc: Global,
    pattern: &str,
    env: &BTreeMap<String, String>,
    index: u32,
) -> Result<String, OutOfMemory>
    ensures { IfOk result (λ name. string_bytes name ≡ name_at pattern.now env.now index) }
{
    let index = format!(in alloc; "{index}")?;
    let name = filled(alloc, pattern, index.as_str())?;
    expand_env_vars(alloc, name.as_str(), env)
}

/// Returns whether a pattern has a `{}`.
pub(crate) fn has_placeholder(pattern: &str) -> bool
    ensures { result ≡ has_placeholder pattern.now }
{
    pattern.contains("{}")
}

/// Returns whether a path has an extension, which is given with its dot, and again behind a `/`.
pub(crate) fn has_extension(path: &str, extension: &str, hidden: &str) -> bool
    requires { hidden.now ≡ slash ∷ extension.now }
    ensures { result ≡ has_extension extension.now path.now }
{
    path.ends_with(extension) && !path.ends_with(hidden)
}
