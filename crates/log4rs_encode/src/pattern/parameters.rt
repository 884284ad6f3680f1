//! Parsing of an argument's parameters.
ghost use Rattle.std.specs.Prelude.{◌≡◌, true, false, MatchResult};
ghost use Rattle.std.specs.Str.{chars};
ghost use Rattle.log4rs_encode.specs.Width.{fill_of, align_of, right_truncate_of, width_of, maximum_of, fits, given_parameters, parameters_of};

use crate::pattern::piece::{Alignment, Parameters};
use crate::pattern::scan::{Class, first, split_leading, strip};

/// A width that does not fit 64 bits.
#[derive(Drop)]
struct TooLarge;

/// Parses the fill. Returns it and the rest of the text.
fn fill(text: &str) -> (char, &str)
    ensures { fill_of (chars text.now) ≡ (result.0, chars result.1.now) }
{
    if let Some((c, rest)) = first(text)
        && (strip(rest, '<').is_some() || strip(rest, '>').is_some())
    {
        return (c, rest);
    }
    (' ', text)
}

/// Parses the alignment. Returns it and the rest of the text.
fn align(text: &str) -> (Alignment, &str)
    ensures { align_of (chars text.now) ≡ (result.0, chars result.1.now) }
{
    if let Some(rest) = strip(text, '<') {
        (Alignment::Left, rest)
    } else if let Some(rest) = strip(text, '>') {
        (Alignment::Right, rest)
    } else {
        (Alignment::Left, text)
    }
}

/// Parses whether the right end is cut. Returns it and the rest of the text.
fn right_truncate(text: &str) -> (bool, &str)
    ensures { right_truncate_of (chars text.now) ≡ (result.0, chars result.1.now) }
{
    match strip(text, '-') {
        Some(rest) => (false, rest),
        None => (true, text),
    }
}

/// Parses the number of the digits at the front, if there are any. Returns it and the rest of the
/// text.
fn width(text: &str) -> (Result<Option<u64>, TooLarge>, &str)
    ensures value { MatchResult result.0
        (λ n. ((width_of (chars text.now)).0 ≡ n) × (fits n ≡ true))
        (λ _. fits (width_of (chars text.now)).0 ≡ false) }
    ensures rest { chars result.1.now ≡ (width_of (chars text.now)).1 }
{
    let (digits, rest) = split_leading(text, Class::Digit);
    if digits.is_empty() {
        return (Ok(None), rest);
    }
    match digits.parse::<u64>() {
        Ok(n) => (Ok(Some(n)), rest),
        Err(_) => (Err(TooLarge), rest),
    }
}

/// Parses the number after a `.`, if there is one. Returns it and the rest of the text.
fn maximum(text: &str) -> (Result<Option<u64>, TooLarge>, &str)
    ensures value { MatchResult result.0
        (λ n. ((maximum_of (chars text.now)).0 ≡ n) × (fits n ≡ true))
        (λ _. fits (maximum_of (chars text.now)).0 ≡ false) }
    ensures rest { chars result.1.now ≡ (maximum_of (chars text.now)).1 }
{
    match strip(text, '.') {
        Some(rest) => width(rest),
        None => (Ok(None), text),
    }
}

/// Parses the parameters after a `:`. Returns them, or `None` if a width is too large, and the rest
/// of the text.
fn given(text: &str) -> (Option<Parameters>, &str)
    ensures { given_parameters (chars text.now) ≡ (result.0, chars result.1.now) }
{
    let (fill, text) = fill(text);
    let (align, text) = align(text);
    let (right_truncate, text) = right_truncate(text);
    let (min_width, text) = width(text);
    let (max_width, text) = maximum(text);
    match (min_width, max_width) {
        (Ok(min_width), Ok(max_width)) => {
            let parameters = Parameters {
                fill,
                right_truncate,
                align,
                min_width,
                max_width,
            };
            (Some(parameters), text)
        }
        _ => (None, text),
    }
}

/// Parses the parameters. Returns them, or `None` if a width is too large, and the rest of the
/// text.
pub(crate) fn parameters(text: &str) -> (Option<Parameters>, &str)
    ensures { parameters_of (chars text.now) ≡ (result.0, chars result.1.now) }
{
    match strip(text, ':') {
        Some(rest) => given(rest),
        None => (Some(Parameters::DEFAULT), text),
    }
}
