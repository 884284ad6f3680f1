//! Environment variables in paths.
ghost use Rattle.std.specs.Prelude.{◌≡◌, ◌<◌, ◌++◌, encode_utf8, ◌∷◌, [], length, MatchOption, ◌||◌, not, find, false, IfOk, IfSome, IfNone, string_bytes};
ghost use Rattle.std.specs.List.{after_first, list_all};
ghost use Rattle.std.specs.Option.{option_copied, option_map_or};
ghost use Rattle.std.specs.Str.{chars};
ghost use Rattle.log4rs_base.specs.Placeholder.{closes};
ghost use Rattle.log4rs_base.specs.Names.{expanded_names, value_until_brace, value_in, is_name, may_begin, may_follow};

use crate::OutOfMemory;
use std::alloc::Global;
use std::collections::BTreeMap;
use ucd_category::{GeneralCategory, GeneralCategoryGroup};
use unicode::properties::is_alphabetic;

/// Replaces each `$ENV{name}` in a path by the value of the variable, if the environment has one.
///
/// A name begins with a letter, a number or `_`, and continues with these and dots; letters and
/// numbers are those of Unicode. The path is read once, from the left: inserted values are not
/// expanded again. All else stays, also a placeholder that is not closed or has no value. Fails if
/// an allocation fails.
pub fn expand_env_vars(
    alloc: Global,
    path: &str,
    env: &BTreeMap<String, String>,
) -> Result<String, OutOfMemory>
    ensures { IfOk result (λ text. string_bytes text ≡ expanded_names env.now path.now) }
{
    let mut text = String::new(alloc);
    let mut rest = path;
    while let Some((before, opened)) = rest.split_once("$ENV{") {
        text.push_str(before)?;
        match known(opened, env) {
            Some((value, behind)) => {
                text.push_str(value)?;
                rest = behind;
            }
            None => {
                text.push_str("$ENV{")?;
                rest = opened;
            }
        }
    }
    text.push_str(rest)?;
    Ok(text)
}

/// Returns the value of the name up to the first `}`, if the environment has it, and the text
/// behind.
fn known<'a>(opened: &'a str, env: &'a BTreeMap<String, String>) -> Option<(&'a str, &'a str)>
    ensures found { IfSome result
        (λ r. value_until_brace (value_in env.now) opened.now ≡ Some r.0.now) }
    ensures behind { IfSome result (λ r. r.1.now ≡ after_first closes opened.now) }
    ensures shorter { IfSome result (λ r. length r.1.now < length opened.now) }
    ensures none { IfNone result (value_until_brace (value_in env.now) opened.now ≡ None) }
{
    if !is_closed(opened) {
        return None;
    }
    let Some((name, behind)) = opened.split_once('}') else {
        return None;
    };
    let value = value_of(name, env)?;
    Some((value, behind))
}

/// Returns whether a `}` comes before any other character that cannot stand in a name. Reads
/// nothing behind that character, so a path of unclosed names is read once.
fn is_closed(text: &str) -> bool
    ensures { let stop = find (λ c. closes c || not (may_follow c)) (chars text.now) in
        result ≡ option_map_or closes stop false }
{
    let mut rest = text;
    while let Some((c, after)) = first(rest) {
        if c == '}' {
            return true;
        }
        if !may_follow(c) {
            return false;
        }
        rest = after;
    }
    false
}

/// Returns the value of a variable, if the text is a name and the environment has it.
fn value_of<'a>(name: &str, env: &'a BTreeMap<String, String>) -> Option<&'a str>
    ensures { option_copied result ≡ value_in env.now name.now }
{
    if !is_name(name) {
        return None;
    }
    match env.get(name) {
        Some(value) => Some(value.as_str()),
        None => None,
    }
}

/// Returns whether a text is a name of a variable.
fn is_name(name: &str) -> bool
    ensures { result ≡ is_name name.now }
{
    match first(name) {
        Some((c, rest)) => may_begin(c) && all_follow(rest),
        None => false,
    }
}

/// Returns whether each character may stand behind the first of a name.
fn all_follow(text: &str) -> bool
    ensures { result ≡ list_all may_follow (chars text.now) }
{
    let mut rest = text;
    while let Some((c, after)) = first(rest) {
        if !may_follow(c) {
            return false;
        }
        rest = after;
    }
    true
}

/// Returns the first character of a text, and the text behind it.
fn first(text: &str) -> Option<(char, &str)>
    ensures chars { MatchOption result (chars text.now ≡ [])
        (λ r. chars text.now ≡ r.0 ∷ chars r.1.now) }
    ensures bytes { IfSome result (λ r. text.now ≡ encode_utf8 r.0 ++ r.1.now) }
    ensures shorter { IfSome result (λ r. length r.1.now < length text.now) }
{
    let mut chars = text.chars();
    let c = chars.next()?;
    Some((c, chars.as_str()))
}

fn may_follow(c: char) -> bool
    ensures { result ≡ may_follow c }
{
    may_begin(c) || c == '.'
}

#[tactic(auto, unfolding(crate::specs::Names::is_alphanumeric))]
fn may_begin(c: char) -> bool
    ensures { result ≡ may_begin c }
{
    is_alphabetic(c)
        || GeneralCategoryGroup::Number.contains(GeneralCategory::for_char(c))
        || c == '_'
}
