//! Syntax errors of texts.

use serde_json::Error as JsonError;
use std::fmt::{self, Display, Formatter, InlineText};
use toml::de::Error as TomlError;

/// A position in a text, as its format's parser reports it. Lines count from 1. A column of TOML
/// counts characters from 1; one of JSON counts bytes, up to the one at fault or to the end.
#[derive(Clone, Copy, Debug, PartialEq, Eq)]
pub struct Position {
    /// The line, from 1.
    pub line: usize,
    /// The column.
    pub column: usize,
}

/// The fault of a text that is not of its format.
#[derive(Clone, Copy, Debug, PartialEq, Eq)]
pub enum SyntaxFault {
    /// The text is not well formed.
    Malformed,
    /// Values nest too deep, or a key of TOML has too many parts.
    TooDeep,
    /// An integer of TOML does not fit in 64 bits, or a floating-point number is not finite.
    OutOfRange,
    /// A key of TOML stands twice.
    DuplicateKey,
    /// This is missing, in TOML.
    Missing(&'static str),
    /// A bracket of JSON closes one of the other kind.
    WrongBracket,
    /// A text of JSON ends too early.
    Unfinished,
}

/// The fault of a text that is not of its format, and its position if the parser reports one.
#[derive(Clone, Copy, Debug, PartialEq, Eq)]
pub struct SyntaxError {
    /// The fault.
    pub fault: SyntaxFault,
    /// The position, if the parser reports one.
    pub place: Option<Position>,
}

impl SyntaxError {
    /// Returns the syntax error for an error of the JSON parser.
    pub(crate) fn of_json(text: &str, error: &JsonError) -> SyntaxError {
        let place = (error.line() > 0).then(|| Position {
            line: error.line(),
            column: error.column(),
        });
        SyntaxError {
            fault: json_fault(text, error, place),
            place,
        }
    }

    /// Returns the syntax error for an error of the TOML parser.
    pub(crate) fn of_toml(text: &str, error: &TomlError) -> SyntaxError {
        SyntaxError {
            fault: toml_fault(error),
            place: toml_place(text, error),
        }
    }
}

impl Display for SyntaxError {
    fn fmt<W: fmt::Write>(&self, f: &mut Formatter<W>) -> fmt::Result {
        match self.fault {
            SyntaxFault::Malformed => f.write_str("the text is not of its format"),
            SyntaxFault::TooDeep => f.write_str("the text is nested too deep"),
            SyntaxFault::OutOfRange => f.write_str("a number is out of range"),
            SyntaxFault::DuplicateKey => f.write_str("a key stands twice"),
            SyntaxFault::Missing(what) => write!(f, "{what} is missing"),
            SyntaxFault::WrongBracket => f.write_str("a bracket closes one of the other kind"),
            SyntaxFault::Unfinished => f.write_str("the text ends too early"),
        }?;
        match self.place {
            Some(Position { line, column }) => write!(f, " at line {line}, column {column}"),
            None => Ok(()),
        }
    }
}

/// The maximum depth of values of JSON.
const JSON_DEPTH: usize = 127;

/// Returns the syntax error for an error of the JSON parser. The parser does not say that a text
/// nests too deep: then more brackets are open at its position than allowed.
fn json_fault(text: &str, error: &JsonError, place: Option<Position>) -> SyntaxFault {
    let told = InlineText::<32>::of(*error);
    if told.as_str().starts_with("number out of range") {
        return SyntaxFault::OutOfRange;
    }
    if error.is_eof() {
        return SyntaxFault::Unfinished;
    }
    let Some(place) = place else {
        return SyntaxFault::Malformed;
    };
    let text = text.as_bytes();
    let before = before(text, place);
    if open_brackets(before).number > JSON_DEPTH {
        return SyntaxFault::TooDeep;
    }
    let end = before.len();
    if is_wrong_bracket(text, end) || is_wrong_bracket(text, end.saturating_sub(1)) {
        return SyntaxFault::WrongBracket;
    }
    SyntaxFault::Malformed
}

/// Returns whether a bracket of a JSON text closes one of the other kind. The parser reports such a
/// bracket or the byte behind it.
fn is_wrong_bracket(text: &[u8], at: usize) -> bool {
    let before = text.get(..at).unwrap_or(text);
    match (open_brackets(before).last, text.get(at)) {
        (Some(b'['), Some(b'}')) | (Some(b'{'), Some(b']')) => true,
        _ => false,
    }
}

/// Returns the bytes of a text before a position whose column counts bytes.
fn before(text: &[u8], place: Position) -> &[u8] {
    let lines = text.split_inclusive(|byte| *byte == b'\n');
    let lines_before = lines.take(place.line.saturating_sub(1));
    let begin = lines_before.fold(0usize, |sum, line| sum.saturating_add(line.len()));
    let end = begin.saturating_add(place.column).saturating_sub(1);
    text.get(..end).unwrap_or(text)
}

/// The brackets that are open somewhere in a JSON text.
#[derive(Clone, Copy, Default)]
struct Brackets {
    number: usize,
    /// The last one, if it was opened behind the last one that was closed.
    last: Option<u8>,
}

/// Returns the brackets that are open at the end of the beginning of a JSON text.
fn open_brackets(beginning: &[u8]) -> Brackets {
    let mut open = Brackets::default();
    let mut is_text = false;
    let mut is_escaped = false;
    for byte in beginning {
        match *byte {
            _ if is_escaped => is_escaped = false,
            b'\\' if is_text => is_escaped = true,
            b'"' => is_text = !is_text,
            _ if is_text => {}
            byte @ (b'[' | b'{') => {
                open.number = open.number.saturating_add(1);
                open.last = Some(byte);
            }
            b']' | b'}' => {
                open.number = open.number.saturating_sub(1);
                open.last = None;
            }
            _ => {}
        }
    }
    open
}

/// Returns the fault of an error of the TOML parser.
fn toml_fault(error: &TomlError) -> SyntaxFault {
    match error.message() {
        "cannot recurse further; max recursion depth met" => SyntaxFault::TooDeep,
        "number out of range" => SyntaxFault::OutOfRange,
        "duplicate key" => SyntaxFault::DuplicateKey,
        "key with no value, expected `=`" => SyntaxFault::Missing("`=`"),
        "unclosed table, expected `]`" => SyntaxFault::Missing("`]`"),
        "unclosed array table, expected `]]`" => SyntaxFault::Missing("`]]`"),
        "missing comma between array elements, expected `,` or `]`" => {
            SyntaxFault::Missing("`,` or `]`")
        }
        "missing comma between key-value pairs, expected `,` or `}`" => {
            SyntaxFault::Missing("`,` or `}`")
        }
        _ => SyntaxFault::Malformed,
    }
}

/// Returns the position at which an error of the TOML parser begins.
fn toml_place(text: &str, error: &TomlError) -> Option<Position> {
    let before = text.as_bytes().get(..error.span()?.start)?;
    let last = before.rsplit(|byte| *byte == b'\n').next()?;
    // Other bytes of UTF-8 continue a character.
    let first_bytes = last.iter().filter(|byte| !matches!(**byte, 0x80..=0xBF));
    Some(Position {
        line: before.split(|byte| *byte == b'\n').count(),
        column: first_bytes.count().saturating_add(1),
    })
}
