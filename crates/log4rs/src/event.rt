//! Events of the macros of `log`, as records and contexts of log4rs.

ghost use Rattle.std.specs.Prelude.{◌≡◌, IfOk, IfSome, OnOk, option_map, string_bytes};
ghost use Rattle.log.specs.Record.{record_key_values, record_spans};
ghost use Rattle.log4rs.specs.Event.{Says, IsFrom};
ghost use Rattle.log4rs.specs.Fields.{all_fields, HoldsLast};

use crate::fields::mdc_of;
use crate::origin::Origin;
use jiff::Timestamp;
use log::kv::Source;
use log::span::Spans;
use log4rs_base::{Context, OutOfMemory, Record};
use std::alloc::Global;
use std::fmt::Display;

/// Returns the record of an event: its level, target and message. Its module path is its target,
/// since a macro without a target puts its module there; it has no file and no line. Fails if an
/// allocation fails or the `fmt` of the message fails.
pub fn record_of<D: Display, K, S>(
    alloc: Global,
    event: &log::Record<'_, D, K, S>,
) -> Result<Record, OutOfMemory>
    ensures { IfOk result (λ made. Says D.output event.now made) }
{
    let mut made = Record::new(event.level(), String::new(alloc), String::new(alloc));
    fill_record(alloc, &mut made, event)?;
    Ok(made)
}

/// Makes the record of an event in the place of another one, whose memory it takes over, as
/// `record_of` does.
pub(crate) fn fill_record<D: Display, K, S>(
    alloc: Global,
    made: &mut Record,
    event: &log::Record<'_, D, K, S>,
) -> Result<(), OutOfMemory>
    ensures { OnOk result (Says D.output event.now made.new) }
{
    made.level = event.level();
    refill(&mut made.target, event.target())?;
    made.message.clear();
    made.message.write(event.args())?;
    refill_some(alloc, &mut made.module_path, Some(event.target()))?;
    made.file = None;
    made.line = None;
    Ok(())
}

/// Puts a text in the place of another one. Most are the same, and to compare takes less than to copy.
fn refill(text: &mut String, by: &str) -> Result<(), OutOfMemory>
    ensures { OnOk result (string_bytes text.new ≡ by.now) }
{
    if text.as_str() == by {
        return Ok(());
    }
    text.clear();
    text.push_str(by)?;
    Ok(())
}

/// Puts a text, or none, in the place of another one.
fn refill_some(
    alloc: Global,
    text: &mut Option<String>,
    by: Option<&str>,
) -> Result<(), OutOfMemory>
    ensures { OnOk result (option_map string_bytes text.new ≡ option_map (λ t. t.now) by.entry) }
{
    let Some(by) = by else {
        *text = None;
        return Ok(());
    };
    match text {
        Some(kept) => refill(kept, by),
        None => {
            *text = Some(String::from_str(alloc, by)?);
            Ok(())
        }
    }
}

/// Returns the context of an event at a moment: its origin, and the fields of its spans and its
/// pairs as diagnostic context. Its random word is 0.
pub fn context_of<'z, D, K: Source, S: Spans>(
    alloc: Global,
    origin: &Origin<'z>,
    moment: Timestamp,
    event: &log::Record<'_, D, K, S>,
) -> Result<Context<'z>, OutOfMemory>
    ensures moment { IfOk result (λ made. made.moment ≡ moment) }
    ensures origin { IfOk result (λ made. IsFrom origin.now made) }
    ensures mdc { IfOk result (λ made.
        IfSome (all_fields (S.scopes (record_spans event.now))
        (K.pairs (record_key_values event.now))) (λ fields. HoldsLast fields made.mdc)) }
{
    let mut made = Context::new(alloc, moment, origin.zone);
    fill_context(alloc, &mut made, origin, moment, event)?;
    Ok(made)
}

/// Makes the context of an event in the place of another one, whose memory it takes over, as
/// `context_of` does, but in the zone of that one.
pub(crate) fn fill_context<D, K: Source, S: Spans>(
    alloc: Global,
    made: &mut Context<'_>,
    origin: &Origin<'_>,
    moment: Timestamp,
    event: &log::Record<'_, D, K, S>,
) -> Result<(), OutOfMemory>
    ensures moment { OnOk result (made.new.moment ≡ moment) }
    ensures origin { OnOk result (IsFrom (record origin.now { zone = made.old.zone }) made.new) }
    ensures mdc { OnOk result (IfSome (all_fields (S.scopes (record_spans event.now))
        (K.pairs (record_key_values event.now))) (λ fields. HoldsLast fields made.new.mdc)) }
{
    made.mdc = mdc_of(alloc, event.spans(), event.key_values())?;
    let name = match &origin.thread {
        Some(name) => Some(name.as_str()),
        None => None,
    };
    refill_some(alloc, &mut made.thread, name)?;
    made.moment = moment;
    made.thread_id = origin.thread_id;
    made.tid = origin.tid;
    made.pid = origin.pid;
    made.debug = origin.debug;
    made.random = 0;
    Ok(())
}
