//! Files after effects, which are read from the last one back.
ghost use Rattle.std.specs.Prelude.{◌≡◌, map, is_some, IfSome, IfNone, IfOk, OnOk, length, ◌≤◌, ◌^◌, ◌++◌, reverse};
ghost use Rattle.log4rs_rolling.specs.Change.{Files, after, replay, bytes_at, traced};
ghost use Rattle.log4rs_rolling.specs.MemStore.{change_of, files_in};

use crate::store::Open;
use crate::store::effect::Effect;
use std::alloc::{AllocError, Global};
use std::collections::BTreeMap;

/// The part of an effect that concerns the file at a path.
pub enum Trace<'a> {
    /// The file is as it was.
    Same,
    /// The file is the one that was at this path.
    From(&'a String),
    /// The file is absent.
    Absent,
    /// The file is empty.
    Empty,
    /// The file has these bytes behind those that it had.
    Longer(&'a [u8]),
}

/// Returns what an effect did to the file at a path.
pub fn trace_of<'a>(effect: &'a Effect, path: &str) -> Trace<'a>
    ensures { (files : Files) → after files (change_of effect.now) path.now
        ≡ traced files path.now result }
{
    match effect {
        Effect::Opened(at, Open::Truncate) if path == at.as_str() => Trace::Empty,
        Effect::Opened(at, Open::Append) if path == at.as_str() => Trace::Longer(b""),
        Effect::Wrote(at, bytes) if path == at.as_str() => Trace::Longer(bytes.as_slice()),
        Effect::Renamed(from, to) | Effect::Copied(from, to) if path == to.as_str() => {
            Trace::From(from)
        }
        Effect::Renamed(from, _) if path == from.as_str() => Trace::Absent,
        Effect::Removed(at) if path == at.as_str() => Trace::Absent,
        _ => Trace::Same,
    }
}

/// Returns whether a file is present after these effects.
pub fn is_present(start: &BTreeMap<String, Vec<u8>>, effects: &[Effect], path: &str) -> bool
    ensures { result ≡ is_some (replay (files_in start.now) (map change_of effects.now) path.now) }
{
    let mut name = path;
    let mut left = effects.len();
    while left > 0 {
        left -= 1;
        match trace_of(&effects[left], name) {
            Trace::Same => {}
            Trace::From(from) => name = from.as_str(),
            Trace::Absent => return false,
            Trace::Empty | Trace::Longer(_) => return true,
        }
    }
    start.contains_key(name)
}

/// Returns the length of a file after these effects in bytes, or `None` if it exceeds 64 bits.
pub fn len_of(start: &BTreeMap<String, Vec<u8>>, effects: &[Effect], path: &str) -> Option<u64>
    ensures value { IfSome result (λ n. n ≡ length (bytes_at
        (replay (files_in start.now) (map change_of effects.now)) path.now)) }
    ensures none { IfNone result (2 ^ 64 ≤ length (bytes_at
        (replay (files_in start.now) (map change_of effects.now)) path.now)) }
{
    let mut name = path;
    let mut left = effects.len();
    let mut more: u64 = 0;
    while left > 0 {
        left -= 1;
        match trace_of(&effects[left], name) {
            Trace::Same => {}
            Trace::From(from) => name = from.as_str(),
            Trace::Absent | Trace::Empty => return Some(more),
            Trace::Longer(bytes) => more = more.checked_add(bytes.len() as u64)?,
        }
    }
    match start.get(name) {
        Some(bytes) => more.checked_add(bytes.len() as u64),
        None => Some(more),
    }
}

/// Appends bytes in reverse order.
fn push_reversed(bytes: &mut Vec<u8>, more: &[u8]) -> Result<(), AllocError>
    ensures { OnOk result (bytes.new.items ≡ bytes.old.items ++ reverse more.now) }
{
    let start = bytes.len();
    bytes.extend_from_slice(more)?;
    bytes[start..].reverse();
    Ok(())
}

/// Returns the bytes of a file after these effects, or none if it is absent. Fails if an allocation
/// fails.
pub fn bytes_of(
    alloc: Global,
    start: &BTreeMap<String, Vec<u8>>,
    effects: &[Effect],
    path: &str,
) -> Result<Vec<u8>, AllocError>
    ensures { IfOk result (λ bytes. bytes.items
        ≡ bytes_at (replay (files_in start.now) (map change_of effects.now)) path.now) }
{
    let mut name = path;
    let mut left = effects.len();
    let mut last_first = Vec::new(alloc);
    while left > 0 {
        left -= 1;
        match trace_of(&effects[left], name) {
            Trace::Same => {}
            Trace::From(from) => name = from.as_str(),
            Trace::Absent | Trace::Empty => {
                last_first.reverse();
                return Ok(last_first);
            }
            Trace::Longer(bytes) => push_reversed(&mut last_first, bytes)?,
        }
    }
    if let Some(bytes) = start.get(name) {
        push_reversed(&mut last_first, bytes.as_slice())?;
    }
    last_first.reverse();
    Ok(last_first)
}
