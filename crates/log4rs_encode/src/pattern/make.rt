//! Compiling a pattern's pieces.

ghost use Rattle.std.specs.Prelude.{◌≡◌, ◌∷◌, ◌++◌, [], IfOk, OnOk, codes, map, string_bytes};
ghost use Rattle.log4rs_encode.specs.Chunk.{no_chunks, value};
ghost use Rattle.log4rs_encode.specs.Chunk as told;
ghost use Rattle.log4rs_encode.specs.Table as table;
ghost use Rattle.log4rs_encode.specs.View as seen;
ghost use Rattle.log4rs_encode.specs.ChunkView.{PrintAlike, PrintsAs, chunk_view, chunks_view};
ghost use Rattle.log4rs_encode.specs.ChunkView.{all_of, word_view};
ghost use Rattle.log4rs_encode.specs.ChunkView.{field_before as seen_field};
ghost use Rattle.log4rs_encode.specs.ChunkView.{zone_view};

use crate::dates::DateFormat;
use crate::pattern::chunk::{Chunk, Field, Group, Value, Zone};
use crate::pattern::piece::{Formatter, Parameters, Piece};
use log4rs_base::OutOfMemory;
use std::alloc::Global;

/// Compiles pieces.
#[cycle(make)]
pub(crate) fn chunks(alloc: Global, pieces: &[Piece<'_>]) -> Result<Vec<Chunk>, OutOfMemory>
    ensures { IfOk result (λ cs. PrintAlike (chunks_view cs.items)
        (table.chunks_of (seen.pieces_view pieces.now))) }
{
    let mut chunks = Vec::with_capacity(alloc, pieces.len())?;
    for piece in pieces {
        add(&mut chunks, chunk(alloc, piece)?)?;
    }
    Ok(chunks)
}

/// Appends a chunk. A constant text behind a field becomes one chunk with it.
fn add(chunks: &mut Vec<Chunk>, chunk: Chunk) -> Result<(), OutOfMemory>
    ensures { OnOk result (chunks_view chunks.new.items
        ≡ all_of (map chunk_view chunks.old.items ++ chunk_view chunk ∷ [])) }
{
    let Chunk::Text(text) = chunk else {
        return Ok(chunks.push(chunk)?);
    };
    match chunks.pop() {
        Some(last) => add_behind(chunks, last, text),
        None => Ok(chunks.push(Chunk::Text(text))?),
    }
}

/// Appends a chunk with a constant text behind it, as one chunk if it is a field without a text.
fn add_behind(chunks: &mut Vec<Chunk>, chunk: Chunk, text: String) -> Result<(), OutOfMemory>
    ensures { OnOk result (chunks_view chunks.new.items
        ≡ all_of (map chunk_view chunks.old.items
        ++ chunk_view chunk ∷ (told.text (string_bytes text) ∷ []) ∷ [])) }
{
    match chunk {
        Chunk::Field { field, behind } => add_field(chunks, field, behind, text),
        chunk => {
            chunks.push(chunk)?;
            Ok(chunks.push(Chunk::Text(text))?)
        }
    }
}

/// Appends a field with the text behind it, and a constant text behind both, which takes the place
/// of an empty text.
fn add_field(
    chunks: &mut Vec<Chunk>,
    field: Field,
    behind: String,
    text: String,
) -> Result<(), OutOfMemory>
    ensures { OnOk result (chunks_view chunks.new.items
        ≡ all_of (map chunk_view chunks.old.items ++ seen_field field (string_bytes behind)
        ∷ (told.text (string_bytes text) ∷ []) ∷ [])) }
{
    if behind.is_empty() && !text.is_empty() {
        return Ok(chunks.push(field_before(field, text))?);
    }
    chunks.push(Chunk::Field { field, behind })?;
    Ok(chunks.push(Chunk::Text(text))?)
}

/// Returns a field and the text behind it as one chunk.
fn field_before(field: Field, text: String) -> Chunk
    ensures { chunk_view result ≡ seen_field field (string_bytes text) }
{
    match field {
        Field::Level => Chunk::Level(text),
        Field::Target => Chunk::Target(text),
        Field::Message => Chunk::Message(text),
        _ => Chunk::Field {
            field,
            behind: text,
        },
    }
}

/// Compiles a piece.
#[cycle(make)]
fn chunk(alloc: Global, piece: &Piece<'_>) -> Result<Chunk, OutOfMemory>
    ensures { IfOk result (λ c. PrintsAs c (table.chunk_of (seen.piece_view piece.now))) }
{
    match piece {
        Piece::Text(text) => Ok(Chunk::Text(String::from_str(alloc, text)?)),
        Piece::Error(message) => Ok(error(alloc, message)?),
        Piece::Argument {
            formatter,
            parameters,
        } => Ok(formatted(alloc, formatter, *parameters)?),
    }
}

/// Compiles a formatter.
#[cycle(make)]
fn formatted(
    alloc: Global,
    formatter: &Formatter<'_>,
    parameters: Parameters,
) -> Result<Chunk, OutOfMemory>
    ensures { IfOk result (λ c. PrintsAs c (table.formatted_chunk
        (table.group_named formatter.now.name.now) formatter.now.name.now
        (seen.lists_view formatter.now.args.items)
        (table.chunk_lists (seen.lists_view formatter.now.args.items)) parameters)) }
{
    match group_named(formatter.name) {
        Some(group) => Ok(grouped(alloc, group, formatter, parameters)?),
        None => Ok(named(alloc, formatter.name, formatter.args.as_slice(), parameters)?),
    }
}

/// Returns how the formatter with this name shows its argument.
fn group_named(name: &str) -> Option<Group>
    ensures { result ≡ table.group_named name.now }
{
    match name {
        "" => Some(Group::Plain),
        "h" | "highlight" => Some(Group::Highlighted),
        "D" | "debug" => Some(Group::InDebug),
        "R" | "release" => Some(Group::InRelease),
        _ => None,
    }
}

/// Compiles a formatter that prints its one argument.
#[cycle(make)]
fn grouped(
    alloc: Global,
    group: Group,
    formatter: &Formatter<'_>,
    parameters: Parameters,
) -> Result<Chunk, OutOfMemory>
    ensures { IfOk result (λ c. PrintsAs c (table.group_chunk group
        (table.chunk_lists (seen.lists_view formatter.now.args.items)) parameters)) }
{
    if formatter.args.len() != 1 {
        return Ok(error(alloc, "expected exactly one argument")?);
    }
    let chunks = chunks(alloc, formatter.args[0].as_slice())?;
    Ok(Chunk::Group {
        group,
        chunks,
        parameters,
    })
}

/// Compiles a formatter that prints none of its arguments.
fn named(
    alloc: Global,
    name: &str,
    args: &[Vec<Piece<'_>>],
    parameters: Parameters,
) -> Result<Chunk, OutOfMemory>
    ensures { IfOk result (λ c. PrintsAs c (table.named_chunk (table.field_named name.now)
        name.now (seen.lists_view args.now) parameters)) }
{
    let Some(field) = field_named(name) else {
        return Ok(other(alloc, name, args, parameters)?);
    };
    if !args.is_empty() {
        return Ok(error(alloc, "unexpected arguments")?);
    }
    Ok(field_chunk(alloc, field, parameters)?)
}

/// Compiles a field. A newline without a column is a constant text.
fn field_chunk(alloc: Global, field: Field, parameters: Parameters) -> Result<Chunk, OutOfMemory>
    ensures { IfOk result (λ c. PrintsAs c (value (told.field field) parameters)) }
{
    if parameters.has_width() {
        return Ok(Chunk::Value {
            value: Value::Field(field),
            parameters,
        });
    }
    match field {
        Field::Newline => Ok(Chunk::Text(String::from_str(alloc, "\n")?)),
        _ => Ok(Chunk::Field {
            field,
            behind: String::new(alloc),
        }),
    }
}

/// Returns the field with that name.
fn field_named(name: &str) -> Option<Field>
    ensures { result ≡ table.field_named name.now }
{
    match name {
        "l" | "level" => Some(Field::Level),
        "m" | "message" => Some(Field::Message),
        "t" | "target" => Some(Field::Target),
        "M" | "module" => Some(Field::ModulePath),
        "f" | "file" => Some(Field::File),
        "L" | "line" => Some(Field::Line),
        "T" | "thread" => Some(Field::Thread),
        "I" | "thread_id" => Some(Field::ThreadId),
        "i" | "tid" => Some(Field::Tid),
        "P" | "pid" => Some(Field::Pid),
        "n" => Some(Field::Newline),
        _ => None,
    }
}

/// Compiles a formatter that prints no field.
fn other(
    alloc: Global,
    name: &str,
    args: &[Vec<Piece<'_>>],
    parameters: Parameters,
) -> Result<Chunk, OutOfMemory>
    ensures { IfOk result (λ c. chunk_view c
        ≡ table.other_chunk name.now (seen.lists_view args.now) parameters ∷ []) }
{
    match name {
        "d" | "date" => date(alloc, args, parameters),
        "X" | "mdc" => mdc(alloc, args, parameters),
        "K" | "key_value" => error(
            alloc,
            "The log_kv feature is required to parse the key_value argument",
        ),
        _ => quoted(alloc, "unknown formatter `", name),
    }
}

/// Compiles a date.
fn date(
    alloc: Global,
    args: &[Vec<Piece<'_>>],
    parameters: Parameters,
) -> Result<Chunk, OutOfMemory>
    ensures { IfOk result (λ c. chunk_view c
        ≡ table.date_chunk (seen.lists_view args.now) parameters ∷ []) }
{
    if args.is_empty() {
        return date_value(
            alloc,
            String::from_str(alloc, "%+")?,
            Ok(Zone::Local),
            parameters,
        );
    }
    if args.len() > 2 {
        return error(alloc, "expected at most two arguments");
    }
    let format = written_format(alloc, args[0].as_slice())?;
    if args.len() == 1 {
        return date_value(alloc, format, Ok(Zone::Local), parameters);
    }
    date_value(
        alloc,
        format,
        zone_named(alloc, args[1].as_slice())?,
        parameters,
    )
}

/// Compiles a date in a zone, or the text of an error. Returns an error chunk if its format is no
/// format of dates.
fn date_value(
    alloc: Global,
    format: String,
    zone: Result<Zone, String>,
    parameters: Parameters,
) -> Result<Chunk, OutOfMemory>
    ensures { IfOk result (λ c. chunk_view c
        ≡ table.date_value (string_bytes format) (zone_view zone) parameters ∷ []) }
{
    let zone = match zone {
        Ok(zone) => zone,
        Err(text) => return Ok(Chunk::Text(text)),
    };
    let Some(format) = DateFormat::parse(alloc, &format)? else {
        return error(alloc, "invalid date format");
    };
    Ok(Chunk::Value {
        value: Value::Date { format, zone },
        parameters,
    })
}

/// Returns the zone that an argument begins with, or the text of an error.
fn zone_named(alloc: Global, argument: &[Piece<'_>]) -> Result<Result<Zone, String>, OutOfMemory>
    ensures { IfOk result (λ found. zone_view found
        ≡ table.zone_named (seen.pieces_view argument.now)) }
{
    match argument.first() {
        Some(Piece::Text("utc")) => Ok(Ok(Zone::Utc)),
        Some(Piece::Text("local")) => Ok(Ok(Zone::Local)),
        Some(Piece::Text(word)) => Ok(Err(quoted_text(alloc, "invalid timezone `", word)?)),
        _ => Ok(Err(error_text(alloc, "invalid timezone")?)),
    }
}

/// Returns the date format that the pieces of an argument write.
fn written_format(alloc: Global, pieces: &[Piece<'_>]) -> Result<String, OutOfMemory>
    ensures { IfOk result (λ format. string_bytes format
        ≡ table.written_format (seen.pieces_view pieces.now)) }
{
    let mut format = String::new(alloc);
    for piece in pieces {
        push_format(&mut format, piece)?;
    }
    Ok(format)
}

/// Appends the text of a piece to a date format.
fn push_format(format: &mut String, piece: &Piece<'_>) -> Result<(), OutOfMemory>
    ensures { OnOk result (string_bytes format.new ≡ string_bytes format.old
        ++ table.piece_format (seen.piece_view piece.now)) }
{
    match piece {
        Piece::Text(text) => Ok(format.push_str(text)?),
        Piece::Argument { .. } => push_error(format, "unexpected formatter"),
        Piece::Error(message) => push_error(format, message),
    }
}

/// Compiles a value that the context has for a key.
fn mdc(alloc: Global, args: &[Vec<Piece<'_>>], parameters: Parameters) -> Result<Chunk, OutOfMemory>
    ensures { IfOk result (λ c. chunk_view c
        ≡ table.mdc_chunk (seen.lists_view args.now) parameters ∷ []) }
{
    if args.is_empty() {
        return mdc_error(alloc, "missing key");
    }
    if args.len() > 2 {
        return mdc_error(alloc, "expected at most two arguments");
    }
    let key = word(args[0].as_slice(), "invalid key");
    if args.len() == 1 {
        return mdc_value(alloc, key, Ok(""), parameters);
    }
    mdc_value(
        alloc,
        key,
        word(args[1].as_slice(), "invalid default"),
        parameters,
    )
}

/// Returns the text that an argument begins with, or the text of an error.
fn word<'a, 'p>(argument: &'a [Piece<'p>], otherwise: &'a str) -> Result<&'a str, &'a str>
    ensures { word_view result ≡ table.word otherwise.now (seen.pieces_view argument.now) }
{
    match argument.first() {
        Some(Piece::Text(text)) => Ok(text),
        Some(Piece::Error(message)) => Err(message.as_str()),
        _ => Err(otherwise),
    }
}

/// Compiles a value of the context, by its key and its default.
fn mdc_value(
    alloc: Global,
    key: Result<&str, &str>,
    default: Result<&str, &str>,
    parameters: Parameters,
) -> Result<Chunk, OutOfMemory>
    ensures { IfOk result (λ c. chunk_view c
        ≡ table.mdc_value (word_view key.entry) (word_view default.entry) parameters ∷ []) }
{
    match (key, default) {
        (Ok(key), Ok(default)) => Ok(Chunk::Value {
            value: Value::Mdc {
                key: String::from_str(alloc, key)?,
                default: String::from_str(alloc, default)?,
            },
            parameters,
        }),
        (Err(message), _) => mdc_error(alloc, message),
        (_, Err(message)) => mdc_error(alloc, message),
    }
}

/// Returns the chunk that prints an error of a value of the context.
fn mdc_error(alloc: Global, message: &str) -> Result<Chunk, OutOfMemory>
    ensures { IfOk result (λ c. chunk_view c ≡ table.mdc_error message.now ∷ []) }
{
    let mut text = String::from_str(alloc, "MDC: ")?;
    text.push_str(message)?;
    error(alloc, &text)
}

/// Returns the chunk that prints an error.
fn error(alloc: Global, message: &str) -> Result<Chunk, OutOfMemory>
    ensures { IfOk result (λ c. chunk_view c ≡ table.error message.now ∷ []) }
{
    Ok(Chunk::Text(error_text(alloc, message)?))
}

/// Returns the text of an error.
fn error_text(alloc: Global, message: &str) -> Result<String, OutOfMemory>
    ensures { IfOk result (λ text. string_bytes text ≡ table.error_text message.now) }
{
    let mut text = String::new(alloc);
    push_error(&mut text, message)?;
    Ok(text)
}

/// Appends the text of an error.
fn push_error(text: &mut String, message: &str) -> Result<(), OutOfMemory>
    ensures { OnOk result (string_bytes text.new ≡ string_bytes text.old
        ++ table.error_text message.now) }
{
    text.push_str("{ERROR: ")?;
    text.push_str(message)?;
    text.push_str("}")?;
    Ok(())
}

/// Returns the chunk of an error that ends in a word between backticks.
fn quoted(alloc: Global, message: &str, word: &str) -> Result<Chunk, OutOfMemory>
    ensures { IfOk result (λ c. chunk_view c
        ≡ table.error (message.now ++ word.now ++ codes "`") ∷ []) }
{
    Ok(Chunk::Text(quoted_text(alloc, message, word)?))
}

/// Returns the text of an error that ends in a word between backticks.
fn quoted_text(alloc: Global, message: &str, word: &str) -> Result<String, OutOfMemory>
    ensures { IfOk result (λ text. string_bytes text
        ≡ table.error_text (message.now ++ word.now ++ codes "`")) }
{
    let mut text = String::from_str(alloc, message)?;
    text.push_str(word)?;
    text.push('`')?;
    error_text(alloc, &text)
}
