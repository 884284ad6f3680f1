//! The compiled pieces of a pattern.

use crate::dates::DateFormat;
use crate::pattern::piece::Parameters;

/// A field of the record or its context.
#[derive(Clone, Copy)]
pub(crate) enum Field {
    Level,
    Message,
    Target,
    ModulePath,
    File,
    Line,
    Thread,
    ThreadId,
    Tid,
    Pid,
    Newline,
}

/// The zone in which a date is shown.
#[derive(Clone, Copy)]
pub(crate) enum Zone {
    Utc,
    /// The zone of the context.
    Local,
}

/// A value of the record or its context.
#[derive(Drop)]
pub(crate) enum Value {
    Field(Field),
    /// The moment of the context.
    Date { format: DateFormat, zone: Zone },
    /// The value that the context has for a key.
    Mdc { key: String, default: String },
}

/// How the output of an argument is shown.
#[derive(Clone, Copy)]
pub(crate) enum Group {
    Plain,
    /// In the style of the record's level.
    Highlighted,
    /// Only in a program that is built for debugging.
    InDebug,
    /// Only in a program that is built for release.
    InRelease,
}

/// A compiled piece.
#[derive(Drop)]
pub(crate) enum Chunk {
    /// A constant text.
    Text(String),
    /// The level, and the text behind it. This field and the next two are chunks of their own, since
    /// most patterns have them: each is found in one step.
    Level(String),
    /// The target, and the text behind it.
    Target(String),
    /// The message, and the text behind it.
    Message(String),
    /// A field without a column, and the text behind it.
    Field {
        field: Field,
        /// Empty if no constant text follows.
        behind: String,
    },
    Value {
        value: Value,
        parameters: Parameters,
    },
    /// The output of an argument.
    Group {
        group: Group,
        chunks: Vec<Chunk>,
        parameters: Parameters,
    },
}
