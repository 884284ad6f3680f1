//! The records that threads append, and their texts.

ghost use Rattle.std.specs.Prelude.{◌≡◌, ◌++◌, IfOk, List, ℕ, codes, string_bytes};
ghost use Rattle.std.specs.Fmt.{decimal};
ghost use Rattle.log4rs_base.specs.declared.record.Context.{Context as ContextData};
ghost use Rattle.log4rs_base.specs.declared.record.Record.{Record as RecordData};
ghost use Rattle.log4rs_encode.specs.Spelling.{IsPattern};
ghost use Rattle.log4rs_journal.specs.Texts.{IsTextOf};
ghost use Rattle.log4rs_command.specs.ThreadRecords.{line_pattern, line_pieces, line_of, target_of};

use log::Level;
use log4rs_base::{OutOfMemory, Record};
use log4rs_encode::laws::joined_bytes;
use log4rs_encode::pattern::laws::{literal_pieces, one_pattern};
use std::alloc::Global;

/// The pattern of the journal.
pub(crate) const PATTERN: &str = "{t} {m}";

/// The pieces of `line_pattern` are `line_pieces`.
fn line_is_spelled()
    ensures { IsPattern line_pattern line_pieces }
{
    literal_pieces();
}

/// The texts of the pattern are the target, a space and the message.
pub(crate) fn texts_are_lines()
    ensures { (logged : RecordData) (context : ContextData) (text : List ℕ)
        → IsTextOf line_pattern logged context text → text ≡ line_of logged }
{
    line_is_spelled();
    one_pattern();
    joined_bytes();
}

/// Returns the record `number` of a thread.
pub(crate) fn record(alloc: Global, thread: usize, number: usize) -> Result<Record, OutOfMemory>
    ensures target { IfOk result (λ logged. string_bytes logged.target ≡ target_of thread) }
    ensures message { IfOk result (λ logged. string_bytes logged.message ≡ decimal number) }
{
    let target = format!(in alloc; "t{thread}")?;
    let message = format!(in alloc; "{number}")?;
    Ok(Record::new(Level::Info, target, message))
}

/// Returns the text of the record `number` of a thread.
pub(crate) fn line(alloc: Global, thread: usize, number: usize) -> Result<String, OutOfMemory>
    ensures { IfOk result (λ line. string_bytes line
        ≡ target_of thread ++ (codes " " ++ decimal number)) }
{
    Ok(format!(in alloc; "t{thread} {number}")?)
}
