//! Rendering of compiled patterns.

ghost use Rattle.std.specs.Prelude.{◌≡◌, ◌∷◌, ◌++◌, [], OnOk, string_bytes, option_map, unwrap_or};
ghost use Rattle.std.specs.BTreeMap.{get_by_text};
ghost use Rattle.std.specs.Fmt.{decimal};
ghost use Rattle.log.specs.Level.{level_name};
ghost use Rattle.log4rs_encode.specs.Chunk.{no_chunks};
ghost use Rattle.log4rs_encode.specs.ChunkView.{before, chunk_view, chunks_view, value_view};
ghost use Rattle.log4rs_encode.specs.ChunkView.{shown_view};
ghost use Rattle.log4rs_encode.specs.Fit.{fit as fit_runs, fitted};
ghost use Rattle.log4rs_base.specs.PartView.{items_of};
ghost use Rattle.log4rs_encode.specs.Rendering as spec;
ghost use Rattle.log4rs_encode.specs.Runs as runs;

use crate::dates::{Clock, DateFormat};
use crate::pattern::chunk::{Chunk, Field, Group, Value, Zone};
use crate::pattern::fit::{fit, push_fitted};
use crate::pattern::piece::Parameters;
use crate::runs::Styled;
use crate::styles::{Color, Style};
use itoa::Buffer;
use log::Level;
use log4rs_base::{Context, OutOfMemory, Record};
use std::alloc::{AllocError, Global};
use std::mem;

/// Appends the text of the chunks.
#[cycle(render)]
pub(crate) fn render_all(
    alloc: Global,
    out: &mut Styled,
    chunks: &[Chunk],
    record: &Record,
    context: &Context<'_>,
) -> Result<(), OutOfMemory>
    ensures { OnOk result (out.new
        ≡ runs.join (out.old ++ spec.rendered_all «record».now context.now
        (chunks_view chunks.now))) }
{
    let mut text = out.take_end();
    for chunk in chunks {
        render(alloc, out, &mut text, chunk, record, context)?;
    }
    out.push_string(text)
}

/// Appends the text of a chunk. A text that `out` has not taken in yet is pending; constant texts
/// are added to that.
#[cycle(render)]
fn render(
    alloc: Global,
    out: &mut Styled,
    text: &mut String,
    chunk: &Chunk,
    record: &Record,
    context: &Context<'_>,
) -> Result<(), OutOfMemory>
    ensures { OnOk result (runs.join (out.new ++ runs.text (string_bytes text.new) ∷ [])
        ≡ runs.join ((out.old ++ runs.text (string_bytes text.old) ∷ [])
        ++ spec.rendered_all «record».now context.now (before (chunk_view chunk.now) no_chunks))) }
{
    match chunk {
        Chunk::Text(literal) => Ok(push_literal(text, literal)?),
        Chunk::Level(behind) => Ok(push_level_before(text, record.level, behind)?),
        Chunk::Target(behind) => Ok(push_before(text, &record.target, behind)?),
        Chunk::Message(behind) => Ok(push_before(text, &record.message, behind)?),
        Chunk::Field { field, behind } => Ok(push_shown(text, *field, behind, record, context)?),
        Chunk::Value { value, parameters } => {
            if !parameters.has_width() {
                return Ok(push_value(alloc, text, value, record, context)?);
            }
            take_in(out, text)?;
            push_column(alloc, out, value, parameters, record, context)
        }
        Chunk::Group {
            group,
            chunks,
            parameters,
        } => {
            take_in(out, text)?;
            render_argument(
                alloc,
                out,
                *group,
                chunks.as_slice(),
                parameters,
                record,
                context,
            )
        }
    }
}

/// Appends the pending text, and leaves an empty one.
#[inline(never)]
fn take_in(out: &mut Styled, text: &mut String) -> Result<(), OutOfMemory>
    ensures ok { OnOk result (out.new
        ≡ runs.join (out.old ++ runs.text (string_bytes text.old) ∷ [])) }
    ensures empty { string_bytes text.new ≡ [] }
{
    let room = out.spare_text();
    out.push_string(mem::replace(text, room))
}

/// Appends an argument's output, fitted. Separate from `render`, to keep the common path short.
#[cycle(render)]
#[inline(never)]
fn render_argument(
    alloc: Global,
    out: &mut Styled,
    group: Group,
    chunks: &[Chunk],
    parameters: &Parameters,
    record: &Record,
    context: &Context<'_>,
) -> Result<(), OutOfMemory>
    ensures { OnOk result (out.new
        ≡ runs.join (out.old ++ fitted parameters.now
        (spec.grouped group «record».now context.now
        (spec.rendered_all «record».now context.now (chunks_view chunks.now))))) }
{
    if !parameters.has_width() {
        return render_group(alloc, out, group, chunks, record, context);
    }
    let mut contents = Styled::in_room(out.spare_text());
    render_group(alloc, &mut contents, group, chunks, record, context)?;
    out.append(fit(alloc, contents, parameters)?)
}

/// Appends an argument's output where it is shown.
#[cycle(render)]
fn render_group(
    alloc: Global,
    out: &mut Styled,
    group: Group,
    chunks: &[Chunk],
    record: &Record,
    context: &Context<'_>,
) -> Result<(), OutOfMemory>
    ensures { OnOk result (out.new
        ≡ runs.join (out.old ++ spec.grouped group «record».now context.now
        (spec.rendered_all «record».now context.now (chunks_view chunks.now)))) }
{
    match group {
        Group::Plain => render_all(alloc, out, chunks, record, context),
        Group::Highlighted => render_highlighted(alloc, out, chunks, record, context),
        Group::InDebug => render_where(alloc, out, context.debug, chunks, record, context),
        Group::InRelease => render_where(alloc, out, !context.debug, chunks, record, context),
    }
}

/// Appends the text of the chunks if they are shown.
#[cycle(render)]
fn render_where(
    alloc: Global,
    out: &mut Styled,
    is_shown: bool,
    chunks: &[Chunk],
    record: &Record,
    context: &Context<'_>,
) -> Result<(), OutOfMemory>
    ensures { OnOk result (out.new
        ≡ runs.join (out.old ++ spec.where_shown is_shown
        (spec.rendered_all «record».now context.now (chunks_view chunks.now)))) }
{
    if is_shown {
        return render_all(alloc, out, chunks, record, context);
    }
    // For the proof alone: styled text is joined.
    let _joined = out.runs();
    Ok(())
}

/// Appends the text of the chunks in the style of the record's level, then the default style.
#[cycle(render)]
fn render_highlighted(
    alloc: Global,
    out: &mut Styled,
    chunks: &[Chunk],
    record: &Record,
    context: &Context<'_>,
) -> Result<(), OutOfMemory>
    ensures { OnOk result (out.new
        ≡ runs.join (out.old ++ spec.highlighted (spec.level_style «record».now.level)
        (spec.rendered_all «record».now context.now (chunks_view chunks.now)))) }
{
    let Some(style) = style_of(record.level) else {
        return render_all(alloc, out, chunks, record, context);
    };
    out.set_style(style)?;
    render_all(alloc, out, chunks, record, context)?;
    out.set_style(Style::new())
}

/// Returns the style of a level.
fn style_of(level: Level) -> Option<Style>
    ensures { result ≡ spec.level_style level }
{
    match level {
        Level::Error => Some(Style::new().text(Color::Red).intense(true)),
        Level::Warn => Some(Style::new().text(Color::Yellow)),
        Level::Info => Some(Style::new().text(Color::Green)),
        Level::Debug => None,
        Level::Trace => Some(Style::new().text(Color::Cyan)),
    }
}

/// Appends the text of a value, fitted into a column. Separate from `render`, to keep the common
/// path short.
#[inline(never)]
fn push_column(
    alloc: Global,
    out: &mut Styled,
    value: &Value,
    parameters: &Parameters,
    record: &Record,
    context: &Context<'_>,
) -> Result<(), OutOfMemory>
    ensures { OnOk result (out.new
        ≡ runs.join (out.old ++ fit_runs parameters.now (runs.join
        (runs.text (spec.value_text «record».now context.now (value_view value.now)) ∷ [])))) }
{
    let mut text = out.spare_text();
    push_value(alloc, &mut text, value, record, context)?;
    push_fitted(out, &text, parameters)?;
    out.keep_spare(text);
    Ok(())
}

/// Appends a constant text. Up to three bytes are added with a length known at compile time, which
/// avoids a call of memcpy.
#[inline(always)]
fn push_literal(text: &mut String, literal: &str) -> Result<(), AllocError>
    ensures { OnOk result (string_bytes text.new ≡ string_bytes text.old ++ literal.now) }
{
    match literal.as_bytes() {
        [] => Ok(()),
        [byte] if *byte < 128 => text.push(*byte as char),
        [_, _] => text.push_str(literal),
        [_, _, _] => text.push_str(literal),
        _ => text.push_str(literal),
    }
}

/// Appends the text of a value. Separate from `render`, to keep the common path short.
#[inline(never)]
fn push_value(
    alloc: Global,
    text: &mut String,
    value: &Value,
    record: &Record,
    context: &Context<'_>,
) -> Result<(), OutOfMemory>
    ensures { OnOk result (string_bytes text.new ≡ string_bytes text.old
        ++ spec.value_text «record».now context.now (value_view value.now)) }
{
    match value {
        Value::Field(field) => Ok(push_field(text, *field, record, context)?),
        Value::Date { format, zone } => push_date(alloc, text, format, &clock_in(*zone, context)),
        Value::Mdc { key, default } => Ok(push_mdc(text, key, default, context)?),
    }
}

/// Appends a text, and the constant text behind it.
#[inline(always)]
fn push_before(text: &mut String, added: &str, behind: &str) -> Result<(), AllocError>
    ensures { OnOk result (string_bytes text.new ≡ string_bytes text.old ++ added.now
        ++ behind.now) }
{
    text.push_str(added)?;
    push_literal(text, behind)
}

/// Appends the name of a level, and the constant text behind it.
#[inline(always)]
fn push_level_before(text: &mut String, level: Level, behind: &str) -> Result<(), AllocError>
    ensures { OnOk result (string_bytes text.new ≡ string_bytes text.old ++ level_name level
        ++ behind.now) }
{
    push_level(text, level)?;
    push_literal(text, behind)
}

/// Appends the text of a field, and the constant text behind it.
#[inline(always)]
fn push_shown(
    text: &mut String,
    field: Field,
    behind: &str,
    record: &Record,
    context: &Context<'_>,
) -> Result<(), AllocError>
    ensures { OnOk result (string_bytes text.new ≡ string_bytes text.old
        ++ spec.field_text «record».now context.now field ++ behind.now) }
{
    push_field(text, field, record, context)?;
    push_literal(text, behind)
}

/// Appends the text of a field.
#[inline(always)]
fn push_field(
    text: &mut String,
    field: Field,
    record: &Record,
    context: &Context<'_>,
) -> Result<(), AllocError>
    ensures { OnOk result (string_bytes text.new ≡ string_bytes text.old
        ++ spec.field_text «record».now context.now field) }
{
    match field_shown(field, record, context) {
        Shown::Level(level) => push_level(text, level),
        Shown::Text(shown) => text.push_str(shown),
        Shown::Number(number) => push_number(text, number),
        Shown::Newline => text.push('\n'),
    }
}

/// Appends the name of a level. Each is written out, so that its length is known at compile time.
#[inline(always)]
fn push_level(text: &mut String, level: Level) -> Result<(), AllocError>
    ensures { OnOk result (string_bytes text.new ≡ string_bytes text.old ++ level_name level) }
{
    match level {
        Level::Error => text.push_str("ERROR"),
        Level::Warn => text.push_str("WARN"),
        Level::Info => text.push_str("INFO"),
        Level::Debug => text.push_str("DEBUG"),
        Level::Trace => text.push_str("TRACE"),
    }
}

/// Appends the context's value for a key, or its default. Separate from `push_value`, to keep the
/// common path short.
#[inline(never)]
fn push_mdc(
    text: &mut String,
    key: &str,
    default: &str,
    context: &Context<'_>,
) -> Result<(), AllocError>
    ensures { OnOk result (string_bytes text.new ≡ string_bytes text.old ++ unwrap_or
        (option_map string_bytes (get_by_text context.now.mdc key.now)) default.now) }
{
    match context.mdc.get(key) {
        Some(found) => text.push_str(found),
        None => text.push_str(default),
    }
}

/// Returns the clock of a zone at the moment of the context.
fn clock_in(zone: Zone, context: &Context<'_>) -> Clock
    ensures { result ≡ spec.clock_in zone context.now }
{
    match zone {
        Zone::Utc => Clock::utc(context.moment),
        Zone::Local => Clock::local(context.moment, &context.zone),
    }
}

/// Appends the text of a date. Separate from `push_value`, to keep the common path short.
#[inline(never)]
fn push_date(
    alloc: Global,
    text: &mut String,
    format: &DateFormat,
    clock: &Clock,
) -> Result<(), OutOfMemory>
    ensures { OnOk result (string_bytes text.new ≡ string_bytes text.old
        ++ spec.shown_date (items_of format.now) clock.now) }
{
    if !format.push(alloc, text, clock)? {
        text.push_str("{ERROR: year out of range}")?;
    }
    Ok(())
}

/// The text of a field.
enum Shown<'a> {
    /// The name of a level.
    Level(Level),
    Text(&'a str),
    /// A number in decimal.
    Number(u64),
    Newline,
}

/// Returns the text of a field of the record or its context.
#[inline(always)]
fn field_shown<'a>(field: Field, record: &'a Record, context: &'a Context<'_>) -> Shown<'a>
    ensures { shown_view result ≡ spec.field_text «record».now context.now field }
{
    match field {
        Field::Level => Shown::Level(record.level),
        Field::Message => Shown::Text(&record.message),
        Field::Target => Shown::Text(&record.target),
        Field::ModulePath => Shown::Text(text_or(&record.module_path, "???")),
        Field::File => Shown::Text(text_or(&record.file, "???")),
        Field::Line => match record.line {
            Some(line) => Shown::Number(u64::from(line)),
            None => Shown::Text("???"),
        },
        Field::Thread => Shown::Text(text_or(&context.thread, "unnamed")),
        Field::ThreadId => Shown::Number(context.thread_id),
        Field::Tid => Shown::Number(context.tid),
        Field::Pid => Shown::Number(u64::from(context.pid)),
        Field::Newline => Shown::Newline,
    }
}

/// Returns a text, or the one that replaces an absent text.
fn text_or<'a>(text: &'a Option<String>, absent: &'a str) -> &'a str
    ensures { result.now ≡ unwrap_or (option_map string_bytes text.now) absent.now }
{
    match text {
        Some(text) => text,
        None => absent,
    }
}

/// Appends a number in decimal. Separate from `push_value`, to keep the common path short.
#[inline(never)]
fn push_number(text: &mut String, number: u64) -> Result<(), AllocError>
    ensures { OnOk result (string_bytes text.new ≡ string_bytes text.old ++ decimal number) }
{
    let mut buffer = Buffer::new();
    text.push_str(buffer.format(number))
}
