//! The color mode of consoles.

ghost use Rattle.std.specs.Prelude.{◌≡◌};
ghost use Rattle.std.specs.BTreeMap.{get_by_text};
ghost use Rattle.log4rs_encode.specs.Colors.{is_on, is_off, color_mode, shows_color};

use std::collections::BTreeMap;

/// The consoles that show styles.
#[derive(Clone, Copy, Debug, Default, PartialEq, Eq)]
pub enum ColorMode {
    /// Those that are terminals.
    #[default]
    Auto,
    /// All.
    Always,
    /// None.
    Never,
}

impl ColorMode {
    /// Returns the mode that the variables `NO_COLOR`, `CLICOLOR_FORCE` and `CLICOLOR` ask for. An
    /// empty value counts as set.
    pub fn from_env(env: &BTreeMap<String, String>) -> ColorMode
        ensures { result ≡ color_mode env.now }
    {
        if is_on(env, "NO_COLOR") {
            ColorMode::Never
        } else if is_on(env, "CLICOLOR_FORCE") {
            ColorMode::Always
        } else if is_off(env, "CLICOLOR") {
            ColorMode::Never
        } else {
            ColorMode::Auto
        }
    }

    /// Returns whether a console shows styles. `tty` says whether it is a terminal.
    pub fn shows(self, tty: bool) -> bool
        ensures { result ≡ shows_color self tty }
    {
        match self {
            ColorMode::Auto => tty,
            ColorMode::Always => true,
            ColorMode::Never => false,
        }
    }
}

/// Returns whether a variable is set, and not to `0`.
fn is_on(env: &BTreeMap<String, String>, name: &str) -> bool
    ensures { result ≡ is_on (get_by_text env.now name.now) }
{
    match env.get(name) {
        Some(value) => value.as_str() != "0",
        None => false,
    }
}

/// Returns whether a variable is set to `0`.
fn is_off(env: &BTreeMap<String, String>, name: &str) -> bool
    ensures { result ≡ is_off (get_by_text env.now name.now) }
{
    match env.get(name) {
        Some(value) => value.as_str() == "0",
        None => false,
    }
}
