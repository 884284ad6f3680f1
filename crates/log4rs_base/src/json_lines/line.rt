//! The JSON line of a record.

ghost use Rattle.std.specs.Prelude.{◌≡◌, IfOk, OnOk, string_bytes};
ghost use Rattle.log4rs_base.specs.Line.{members_of, json_line};
ghost use Rattle.log4rs_base.specs.Written.{PutsAll};

use crate::json_lines::members::{
    put_number, put_number_if, put_text, put_text_if, put_text_or_null, put_texts,
};
use crate::{Context, OutOfMemory, Record};
use json::Writer;

/// The bytes that are reserved beside those of the message.
const ROOM: usize = 256;

/// Returns the JSON line of a record that was logged at `time`: one object without spaces, then a
/// newline, in UTF-8. Writes into the buffer of `room`, whose text is discarded. Fails if an
/// allocation fails; the buffer is then freed.
pub fn json_line(
    room: String,
    time: &str,
    record: &Record,
    context: &Context<'_>,
) -> Result<String, OutOfMemory>
    ensures { IfOk result (λ line. string_bytes line
        ≡ json_line time.now «record».now context.now) }
{
    let mut bytes = room.into_bytes();
    bytes.clear();
    bytes.reserve(ROOM.saturating_add(record.message.len()))?;
    let mut out = Writer::new(bytes);
    out.begin_object()?;
    put_members(&mut out, time, record, context)?;
    out.end_object()?;
    // The bytes are UTF-8, as the writer promises: they are not tested once more.
    let mut line = unsafe { String::from_utf8_unchecked(out.into_inner()) };
    line.push('\n')?;
    Ok(line)
}

/// Writes the members of a record.
fn put_members(
    out: &mut Writer,
    time: &str,
    record: &Record,
    context: &Context<'_>,
) -> Result<(), OutOfMemory>
    ensures { OnOk result (PutsAll (members_of time.now «record».now context.now) out.old out.new) }
{
    put_text(out, "time", time)?;
    put_text(out, "level", record.level.as_str())?;
    put_text(out, "message", &record.message)?;
    put_text_if(out, "module_path", &record.module_path)?;
    put_text_if(out, "file", &record.file)?;
    put_number_if(out, "line", record.line)?;
    put_text(out, "target", &record.target)?;
    put_text_or_null(out, "thread", &context.thread)?;
    put_number(out, "thread_id", context.thread_id)?;
    put_texts(out, "mdc", &context.mdc)?;
    Ok(())
}
