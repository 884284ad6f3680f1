//! Scanning a text from its front.
ghost use Rattle.std.specs.Prelude.{◌≡◌, false, ◌<◌, ◌++◌, ◌∷◌, [], ℕ, length, MatchOption, IfSome, encode_utf8, encode_utf8_all};
ghost use Rattle.std.specs.Str.{chars};
ghost use Rattle.log4rs_encode.specs.Scan.{leading, after_leading, begins};
ghost use Rattle.log4rs_encode.specs.Class.{in_class};

use ucd_category::{GeneralCategory, GeneralCategoryGroup};
use unicode::properties::is_alphabetic;

/// A class of characters.
#[derive(Clone, Copy)]
pub(crate) enum Class {
    Plain,
    Alphanumeric,
    Digit,
}

impl Class {
    /// Returns whether the character is of the class.
    pub(crate) fn has(self, c: char) -> bool
        ensures { result ≡ in_class self c }
    {
        match self {
            Class::Plain => !matches!(c, '{' | '}' | '(' | ')' | '\\'),
            Class::Alphanumeric => is_alphanumeric(c),
            Class::Digit => c.is_ascii_digit(),
        }
    }
}

/// Returns whether the character is alphabetic or of a category of numbers.
#[tactic(auto, unfolding(crate::specs::Scan::is_alphanumeric))]
fn is_alphanumeric(c: char) -> bool
    ensures { result ≡ in_class Class.Alphanumeric c }
{
    is_alphabetic(c) || GeneralCategoryGroup::Number.contains(GeneralCategory::for_char(c))
}

/// Returns the first character of a text, and the rest.
pub(crate) fn first(text: &str) -> Option<(char, &str)>
    ensures chars { MatchOption result (chars text.now ≡ [])
        (λ r. chars text.now ≡ r.0 ∷ chars r.1.now) }
    ensures bytes { IfSome result (λ r. text.now ≡ encode_utf8 r.0 ++ r.1.now) }
    ensures shorter { IfSome result (λ r. length r.1.now < length text.now) }
{
    let mut chars = text.chars();
    let c = chars.next()?;
    Some((c, chars.as_str()))
}

/// Returns the text after the longest run of characters of a class.
pub(crate) fn skip(text: &str, class: Class) -> &str
    ensures front { text.now ≡ encode_utf8_all (leading (in_class class) (chars text.now))
        ++ result.now }
    ensures rest { chars result.now ≡ after_leading (in_class class) (chars text.now) }
{
    let mut rest = text;
    while let Some((c, after)) = first(rest) {
        if !class.has(c) {
            break;
        }
        rest = after;
    }
    rest
}

/// Returns the longest run of characters of a class, and the rest of the text.
pub(crate) fn split_leading(text: &str, class: Class) -> (&str, &str)
    ensures front { result.0.now ≡ encode_utf8_all (leading (in_class class) (chars text.now)) }
    ensures rest { chars result.1.now ≡ after_leading (in_class class) (chars text.now) }
{
    let rest = skip(text, class);
    text.split_at(text.len() - rest.len())
}

/// Returns the text after the character, if the text begins with it.
pub(crate) fn strip(text: &str, c: char) -> Option<&str>
    ensures { MatchOption result (begins c (chars text.now) ≡ false)
        (λ rest. chars text.now ≡ c ∷ chars rest.now) }
{
    let (d, rest) = first(text)?;
    if d == c { Some(rest) } else { None }
}
