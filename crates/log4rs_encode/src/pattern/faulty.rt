//! Errors of patterns.

use crate::pattern::chunk::Chunk;
use log4rs_base::OutOfMemory;
use std::alloc::Global;

/// The beginning of the text of an error. No constant text of a pattern begins so, since a brace is
/// a text of its own.
const BEGIN: &str = "{ERROR: ";

/// Adds the text of each error among chunks.
pub(crate) fn add_errors(
    alloc: Global,
    chunks: &[Chunk],
    errors: &mut Vec<String>,
) -> Result<(), OutOfMemory> {
    for chunk in chunks {
        match chunk {
            Chunk::Text(text)
            | Chunk::Level(text)
            | Chunk::Target(text)
            | Chunk::Message(text)
            | Chunk::Field { behind: text, .. } => {
                if text.starts_with(BEGIN) {
                    errors.push(text.clone()?)?;
                }
            }
            Chunk::Group { chunks, .. } => add_errors(alloc, chunks.as_slice(), errors)?,
            Chunk::Value { .. } => {}
        }
    }
    Ok(())
}
