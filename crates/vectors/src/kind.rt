//! Kinds of files.

ghost use Rattle.std.specs.Prelude.{◌≡◌, eqb};
ghost use Rattle.std.specs.List.{starts_with};
ghost use Rattle.vectors.specs.Kinds.{kind_at, kind_of_name};

use std::path::Path;

/// The kind of a file of cases.
#[derive(Clone, Copy)]
pub enum Kind {
    /// Patterns, and the texts that the Rust crate prints.
    Patterns,
    /// Patterns for which the port prints something else on purpose.
    Differences,
    /// Configurations, and the appenders that records reach.
    Routing,
    /// Records, and the JSON lines that the Rust crate writes.
    Lines,
    /// Moments and intervals, and the next times at which triggers fire.
    Times,
    /// Starting files and runs of rolling appenders, and the resulting files.
    Rolling,
    /// Texts of configurations, and what they build.
    Configurations,
}

/// Returns whether a name begins with a word.
fn begins_with(name: &str, word: &str) -> bool
    ensures { result ≡ starts_with eqb name.now word.now }
{
    name.starts_with(word)
}

/// Returns the kind of a file, by the prefix of its name.
fn kind_named(name: &str) -> Option<Kind>
    ensures { result ≡ kind_of_name name.now }
{
    if begins_with(name, "pattern-differences") {
        Some(Kind::Differences)
    } else if begins_with(name, "pattern") {
        Some(Kind::Patterns)
    } else if begins_with(name, "routing") {
        Some(Kind::Routing)
    } else if begins_with(name, "json") {
        Some(Kind::Lines)
    } else if begins_with(name, "time") {
        Some(Kind::Times)
    } else if begins_with(name, "rolling") {
        Some(Kind::Rolling)
    } else if begins_with(name, "config") {
        Some(Kind::Configurations)
    } else {
        None
    }
}

/// Returns the kind of the file at a path, by its last component.
pub fn kind_of(path: &str) -> Option<Kind>
    ensures { result ≡ kind_at path.now }
{
    let name = Path::new(path).file_name()?;
    kind_named(name)
}
