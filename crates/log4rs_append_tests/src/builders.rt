use crate::setup::{Window, cut, roller, same, window};
use log4rs_rolling::RollerError;
use std::alloc::Global;
use std::test::Fail;

/// Builds the roller of a window. Returns `accepted` or the error.
fn outcome(alloc: Global, window: Window<'_>) -> Result<String, Fail> {
    match roller(alloc, window) {
        Ok(_) => Ok(String::from_str(alloc, "accepted")?),
        Err(error) => Ok(format!(in alloc; "{error:?}: {error}")?),
    }
}

/// Errors of patterns and windows: a word and the text of the error.
const REFUSALS: [(&str, &str); 4] = [
    (
        "placeholder",
        "NoPlaceholder: pattern does not contain `{}`",
    ),
    (
        "gzip",
        "GzipRequired: gzip compression requires the `gzip` feature",
    ),
    (
        "zstd",
        "ZstdRequired: zstd compression requires the `zstd` feature",
    ),
    (
        "large",
        "WindowTooLarge: the window ends past the largest index",
    ),
];

/// Returns the text of a word of `REFUSALS`, or the word itself.
fn text_of(word: &str) -> &str {
    for (name, text) in REFUSALS {
        if name == word {
            return text;
        }
    }
    word
}

/// Windows: the pattern, the lowest index, the number of archives, and `accepted` or the word of an
/// error.
const WINDOWS: &str = "f.{}|0|2|accepted
x|0|2|placeholder
|0|0|placeholder
x.{ }|0|2|placeholder
x.gz|0|2|placeholder
x.zst|4294967295|1|placeholder
{}.gz|0|2|gzip
{}.gz|4294967295|1|gzip
{}.zst|0|2|zstd
{}.zst|4294967295|4294967295|zstd
{}.gz.log|0|2|accepted
{}.GZ|0|2|accepted
{}/.gz|0|2|accepted
{}gz|0|2|accepted
f.{}|4294967295|0|accepted
f.{}|4294967295|1|large
f.{}|4294967294|1|accepted
f.{}|4294967294|2|large
f.{}|0|4294967295|accepted
f.{}|1|4294967295|large";

/// Windows, a file, and whether the archives and the file have distinct names. A variable of the
/// environment may consume the index.
const NAMES: &str = "f.{}|0|2|f|true
f.{}|0|2|f.1|false
f.{}|0|2|f.2|true
f.{}|1|2|f.0|true
$ENV{NAME}.{}|0|2|f.0|false
$ENV{A{}}|0|2|f|false
$ENV{A{}}|0|1|f|true
f.{}|0|0|f.0|true";

/// Returns whether the archives of a window and the file have distinct names.
fn distinct(alloc: Global, window: Window<'_>, active: &str) -> Result<bool, Fail> {
    let roller = roller(alloc, window)?;
    Ok(roller.again()?.distinct(active)?)
}

#[test]
fn refusals_and_names(rt: HostRuntime) -> Result<(), Fail> {
    for line in WINDOWS.lines() {
        let (window, expected) = window(line);
        let shown = outcome(rt.alloc(), window)?;
        same(&rt, shown.as_str(), text_of(expected));
    }
    let memory = format!(in rt.alloc(); "{}", RollerError::Memory)?;
    same(&rt, memory.as_str(), "out of memory");
    for line in NAMES.lines() {
        let (window, names) = window(line);
        let (active, expected) = cut(names);
        let distinct = distinct(rt.alloc(), window, active)?;
        assert_eq!(rt; distinct, expected == "true", "{line}");
    }
    Ok(())
}
