//! Parsing of patterns.
ghost use Rattle.std.specs.Prelude.{◌≡◌, ◌<◌, ◌≤◌, ◌∷◌, [], ℕ, List, IfOk, MatchOption, length, drop, string_bytes};
ghost use Rattle.log4rs_encode.specs.Scan.{begins};
ghost use Rattle.std.specs.Str.{chars};
ghost use Rattle.std.specs.Iterator.{at_most};
ghost use Rattle.log4rs_encode.specs.Syntax.{error, Pieces, Lists};
ghost use Rattle.log4rs_encode.specs.Spelling.{front_name, bracket, escape, argument_of, literal, plain_run, If, IsFirst, SpellsBrace, max_nesting, Ends, Leads, ListsBelow, IsPattern, GivesPiece, Spells, SpellsArgument, SpellsNoArgument};
ghost use Rattle.log4rs_encode.specs.View.{piece_view, pieces_view, lists_view};

use crate::pattern::parameters::parameters;
pub use crate::pattern::piece::{Alignment, Formatter, Parameters, Piece};
use crate::pattern::scan::{Class, first, skip, split_leading, strip};
use log4rs_base::OutOfMemory;
use std::alloc::Global;
use std::marker::Model;
use unicode::properties::is_alphabetic;

/// The maximum depth of argument lists.
const MAX_NESTING: u32 = 64;

/// Returns the longest name at the front, and the rest of the text.
fn name(text: &str) -> (&str, &str)
    ensures { front_name (chars text.now) ≡ (result.0.now, chars result.1.now) }
{
    match first(text) {
        Some((c, rest)) if is_alphabetic(c) => {
            let rest = skip(rest, Class::Alphanumeric);
            text.split_at(text.len() - rest.len())
        }
        _ => ("", text),
    }
}

/// Returns the error piece with this message.
fn error<'a>(alloc: Global, message: &str) -> Result<Piece<'a>, OutOfMemory>
    ensures { IfOk result (λ p. piece_view p ≡ error message.now) }
{
    Ok(Piece::Error(String::from_str(alloc, message)?))
}

/// Returns the longest run of plain characters, and the rest of the text.
fn plain(text: &str) -> (Piece<'_>, &str)
    ensures { plain_run (chars text.now) ≡ (piece_view result.0, chars result.1.now) }
{
    let (plain, rest) = split_leading(text, Class::Plain);
    (Piece::Text(plain), rest)
}

/// Parses after a bracket: the bracket if it is doubled, else an error. Returns the piece and the
/// rest of the text.
fn bracket<'a>(
    alloc: Global,
    rest: &'a str,
    c: char,
    literal: &'a str,
    message: &str,
) -> Result<(Piece<'a>, &'a str), OutOfMemory>
    requires { literal.now ≡ c ∷ [] }
    ensures { IfOk result (λ found. bracket c message.now (chars rest.now)
        ≡ (piece_view found.0, chars found.1.now)) }
{
    match strip(rest, c) {
        Some(rest) => Ok((Piece::Text(literal), rest)),
        None => Ok((error(alloc, message)?, rest)),
    }
}

/// Parses after a backslash: the special character, else an error. Returns the piece and the rest
/// of the text.
fn escape(alloc: Global, rest: &str) -> Result<(Piece<'_>, &str), OutOfMemory>
    ensures { IfOk result (λ found. escape (chars rest.now)
        ≡ (piece_view found.0, chars found.1.now)) }
{
    match first(rest) {
        Some(('{', rest)) => Ok((Piece::Text("{"), rest)),
        Some(('}', rest)) => Ok((Piece::Text("}"), rest)),
        Some(('(', rest)) => Ok((Piece::Text("("), rest)),
        Some((')', rest)) => Ok((Piece::Text(")"), rest)),
        Some(('\\', rest)) => Ok((Piece::Text("\\"), rest)),
        _ => Ok((error(alloc, "unexpected '\\'")?, rest)),
    }
}

/// Returns the piece of an argument, or the error of a width that is too large.
#[tactic(auto, using(crate::proofs::Views::view_lemmas))]
fn argument_piece<'a>(
    alloc: Global,
    formatter: Formatter<'a>,
    parameters: Option<Parameters>,
) -> Result<Piece<'a>, OutOfMemory>
    ensures { IfOk result (λ p. piece_view p ≡ argument_of formatter.entry.name.now
        (lists_view formatter.entry.args.items) parameters) }
{
    match parameters {
        Some(parameters) => Ok(Piece::Argument {
            formatter,
            parameters,
        }),
        None => error(alloc, "width too large"),
    }
}

/// Parses the next piece of a text, in which argument lists may nest `depth` levels more. Returns
/// it and the rest of the text, or `None` at the end of the text and at a `)` in an argument list.
#[cycle(parser)]
fn piece(alloc: Global, text: &str, levels: u32) -> Result<Option<(Piece<'_>, &str)>, OutOfMemory>
    requires { levels ≤ max_nesting }
    ensures { IfOk result (λ found. MatchOption found
        (Ends (Spells levels) (chars text.now))
        (λ f. Spells levels (chars text.now) (piece_view f.0) (chars f.1.now))) }
{
    let Some((c, rest)) = first(text) else {
        return Ok(None);
    };
    let found = match c {
        '{' => brace(alloc, rest, levels)?,
        '}' => bracket(alloc, rest, '}', "}", "unmatched '}'")?,
        '(' => bracket(alloc, rest, '(', "(", "unexpected '('")?,
        ')' if levels < MAX_NESTING => return Ok(None),
        ')' => bracket(alloc, rest, ')', ")", "unexpected ')'")?,
        '\\' => escape(alloc, rest)?,
        _ => plain(text),
    };
    Ok(Some(found))
}

/// Parses after a `{`: another one, or an argument. Returns the piece and the rest of the text; an
/// error takes the whole rest.
#[cycle(parser)]
fn brace(alloc: Global, rest: &str, levels: u32) -> Result<(Piece<'_>, &str), OutOfMemory>
    requires { levels ≤ max_nesting }
    ensures { IfOk result (λ found. If (begins 123 (chars rest.now))
        (IsFirst (literal 123, drop 1 (chars rest.now)))
        (SpellsBrace (ListsBelow levels) (chars rest.now))
        (piece_view found.0) (chars found.1.now)) }
{
    if let Some(rest) = strip(rest, '{') {
        return Ok((Piece::Text("{"), rest));
    }
    match argument(alloc, rest, levels)? {
        Some(found) => Ok(found),
        None => Ok((error(alloc, "expected '}'")?, "")),
    }
}

/// Parses an argument after its `{`, up to its `}`. Returns it and the rest of the text.
#[cycle(parser)]
fn argument(
    alloc: Global,
    text: &str,
    levels: u32,
) -> Result<Option<(Piece<'_>, &str)>, OutOfMemory>
    requires { levels ≤ max_nesting }
    ensures { IfOk result (λ found. MatchOption found
        (SpellsNoArgument (ListsBelow levels) (chars text.now))
        (λ f. SpellsArgument (ListsBelow levels) (chars text.now) (piece_view f.0)
        (chars f.1.now))) }
{
    let (name, rest) = name(text);
    let Some((args, rest)) = lists(alloc, rest, levels)? else {
        return Ok(None);
    };
    let (parameters, rest) = parameters(rest);
    let Some(rest) = strip(rest, '}') else {
        return Ok(None);
    };
    let piece = argument_piece(alloc, Formatter { name, args }, parameters)?;
    Ok(Some((piece, rest)))
}

/// Parses the argument lists at the front. Returns them and the rest of the text.
#[cycle(parser)]
fn lists(
    alloc: Global,
    text: &str,
    levels: u32,
) -> Result<Option<(Vec<Vec<Piece<'_>>>, &str)>, OutOfMemory>
    requires { levels ≤ max_nesting }
    ensures { IfOk result (λ found. MatchOption found
        ((ls : Lists) (rest : List ℕ) → ListsBelow levels (chars text.now) ls rest → ⊥)
        (λ f. ListsBelow levels (chars text.now) (lists_view f.0.items) (chars f.1.now))) }
{
    let mut lists = Vec::new(alloc);
    let mut rest = text.chars();
    while let Some(inner) = strip(rest.as_str(), '(') {
        if levels == 0 {
            return Ok(None);
        }
        let Some((pieces, after)) = list(alloc, inner, levels - 1)? else {
            return Ok(None);
        };
        lists.push(pieces)?;
        rest = after.chars();
    }
    Ok(Some((lists, rest.as_str())))
}

/// Parses an argument list after its `(`. Returns its pieces and the text after its `)`.
#[cycle(parser)]
fn list(
    alloc: Global,
    text: &str,
    levels: u32,
) -> Result<Option<(Vec<Piece<'_>>, &str)>, OutOfMemory>
    requires { levels < max_nesting }
    ensures { IfOk result (λ found. MatchOption found
        ((ps : Pieces) (rest : List ℕ)
        → Leads (Spells levels) (chars text.now) ps (41 ∷ rest) → ⊥)
        (λ f. Leads (Spells levels) (chars text.now) (pieces_view f.0.items)
        (41 ∷ chars f.1.now))) }
{
    let mut pieces = Vec::new(alloc);
    let mut rest = text.chars();
    while let Some((next, after)) = piece(alloc, rest.as_str(), levels)? {
        pieces.push(next)?;
        rest = after.chars();
    }
    match strip(rest.as_str(), ')') {
        Some(rest) => Ok(Some((pieces, rest))),
        None => Ok(None),
    }
}

/// Parses the pieces of a pattern, one after another. Ends after an `Err`.
#[derive(Drop)]
pub struct Parser<'a> {
    alloc: Global,
    rest: &'a str,
}

impl<'a> Model for Parser<'a> {
    ghost use Rattle.std.specs.Prelude.{ℕ, List};
    ghost use Rattle.std.specs.Str.{chars};

    ghost Value = { List ℕ };

    ghost view = { λ p. chars p.rest.now };
}

impl<'a> Parser<'a> {
    /// Creates a parser at the beginning of a pattern.
    pub fn new(alloc: Global, pattern: &'a str) -> Parser<'a>
        ensures { result ≡ chars pattern.now }
    {
        Parser {
            alloc,
            rest: pattern,
        }
    }
}

impl<'a> Iterator for Parser<'a> {
    type Item = Result<Piece<'a>, OutOfMemory>;

    ghost next_gives = { GivesPiece piece_view };

    ghost remaining = { λ s. at_most (length s) };

    fn next(&mut self) -> Option<Result<Piece<'a>, OutOfMemory>> {
        let rest = self.rest;
        first(rest)?;
        self.rest = "";
        match piece(self.alloc, rest, MAX_NESTING) {
            Ok(None) => None,
            Ok(Some((piece, rest))) => {
                self.rest = rest;
                Some(Ok(piece))
            }
            Err(error) => Some(Err(error)),
        }
    }
}

/// Parses all pieces of a pattern.
pub fn parse(alloc: Global, pattern: &str) -> Result<Vec<Piece<'_>>, OutOfMemory>
    ensures { IfOk result (λ ps. IsPattern (chars pattern.now) (pieces_view ps.items)) }
{
    let mut pieces = Vec::new(alloc);
    for piece in Parser::new(alloc, pattern) {
        pieces.push(piece?)?;
    }
    Ok(pieces)
}
