//! Encoders of the caller's, which fail.

use crate::files::built_with;
use crate::rolling::built_by;
use crate::setup::{append, held, roller, same, store};
use log4rs_append::{Append, ConsoleAppender, ConsoleOut, MemOut, MemoryAppender};
use log4rs_base::{Context, LogError, OutOfMemory, Record};
use log4rs_encode::{AnyEncoder, Color, Encode, Style, Styled};
use log4rs_rolling::{AnyRoller, CompoundPolicyOf, SizeTrigger};
use std::alloc::Global;
use std::process::Abort;
use std::test::Fail;

/// Prints the message, that with a `b` at the front in red, or fails with the error that its first
/// letter names.
#[derive(Drop)]
struct Failing {
    alloc: Global,
}

impl Encode for Failing {
    fn encode(
        &self,
        out: &mut Styled,
        record: &Record,
        _context: &Context<'_>,
    ) -> Result<(), LogError> {
        match record.message.as_bytes().first() {
            Some(b'C') => Err(LogError::Custom(String::from_str(self.alloc, "no ink")?)),
            Some(b'P') => Err(LogError::Policy),
            Some(b'S') => Err(LogError::Store),
            Some(b'M') => Err(LogError::Memory),
            Some(b'b') => Ok(out.append(red(self.alloc, &record.message)?)?),
            _ => Ok(out.push_text(&record.message)?),
        }
    }
}

/// Returns a text in red, and the default style behind it.
fn red(alloc: Global, text: &str) -> Result<Styled, OutOfMemory> {
    let mut styled = Styled::new(alloc);
    styled.set_style(Style::new().text(Color::Red))?;
    styled.push_text(text)?;
    styled.set_style(Style::new())?;
    Ok(styled)
}

/// Returns such an encoder.
fn encoder(alloc: Global) -> Result<AnyEncoder, OutOfMemory> {
    Ok(AnyEncoder::Custom(Box::new(alloc, Failing { alloc })?))
}

/// Appends the messages. Returns `ok` or the text of the error for each, with a bar after each.
fn answers<A: Append>(alloc: Global, appender: &mut A) -> Result<String, Fail> {
    let mut text = String::new(alloc);
    for message in ["aa", "C", "bb", "Policy", "Some", "Memory", "c"] {
        match append(alloc, appender, message) {
            Ok(()) => text.push_str("ok|")?,
            Err(fault) => write!(text, "{fault}|")?,
        }
    }
    appender.flush();
    Ok(text)
}

/// The outcomes, which are the same in a file, in a rolled file, on a console and in memory.
const ANSWERS: &str =
    "ok|no ink|ok|the policy failed|the store refused an operation|out of memory|ok|";

/// Appends the messages to a file. Returns the outcomes and the files.
fn in_a_file(alloc: Global) -> Result<String, Fail> {
    let store = store(alloc, "f=old", &[])?;
    let mut appender = built_with(alloc, encoder(alloc)?, true, "f", store)?;
    let mut came = answers(alloc, &mut appender)?;
    came.push_str(held(alloc, appender.store())?.as_str())?;
    Ok(came)
}

/// Appends the messages to a file that is rolled when it has more than three bytes. Returns the
/// outcomes and the files.
fn in_a_rolled_file(alloc: Global) -> Result<String, Fail> {
    let roller = AnyRoller::FixedWindow(roller(alloc, ("$ENV{NAME}.{}", 0, 2, true))?);
    let policy = CompoundPolicyOf::new(SizeTrigger::new(3), roller);
    let store = store(alloc, "f=", &[])?;
    let mut appender = built_by(alloc, encoder(alloc)?, true, "f", store, policy)?;
    let mut came = answers(alloc, &mut appender)?;
    came.push_str(held(alloc, appender.store())?.as_str())?;
    Ok(came)
}

/// Appends the messages to a console. Returns the outcomes and the text of the console.
fn on_a_console(alloc: Global) -> Result<String, Fail> {
    let out = ConsoleOut::Memory(MemOut::new(alloc));
    let builder = ConsoleAppender::builder(alloc).encoder(encoder(alloc)?);
    let mut appender = builder.build_on(out, false, false)?;
    let mut came = answers(alloc, &mut appender)?;
    if let ConsoleOut::Memory(memory) = appender.out() {
        let bytes = Vec::from_slice(alloc, memory.bytes())?;
        came.push_str(String::from_utf8(bytes)?.as_str())?;
    }
    Ok(came)
}

/// Appends the messages to memory. Returns the outcomes and the texts.
fn in_memory(alloc: Global) -> Result<String, Fail> {
    let mut appender = MemoryAppender::new(alloc, encoder(alloc)?);
    let mut came = answers(alloc, &mut appender)?;
    for text in appender.records() {
        came.push_str(text)?;
    }
    Ok(came)
}

/// Asserts that messages had the outcomes, and that this was left.
fn came(stop: &impl Abort, found: &str, left: &str) {
    same(stop, found.strip_prefix(ANSWERS).unwrap_or(found), left);
}

#[test]
fn encoders_that_fail(rt: HostRuntime) -> Result<(), Fail> {
    came(&rt, in_a_file(rt.alloc())?.as_str(), " f=oldaabbc");
    came(&rt, in_a_rolled_file(rt.alloc())?.as_str(), " f=c f.0=aabb");
    came(&rt, on_a_console(rt.alloc())?.as_str(), "aabbc");
    came(&rt, in_memory(rt.alloc())?.as_str(), "aabbc");
    Ok(())
}
