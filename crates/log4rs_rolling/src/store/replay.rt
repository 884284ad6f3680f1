//! Effects, applied to a map of files.
ghost use Rattle.std.specs.Prelude.{◌≡◌, ◌++◌, List, ℕ, Some, None, map, OnOk, IfOk, option_map, string_bytes};
ghost use Rattle.log4rs_rolling.specs.Change.{after, put, bytes_at, replay};
ghost use Rattle.log4rs_rolling.specs.MemStore.{change_of, files_in};

use crate::store::Open;
use crate::store::effect::Effect;
use std::alloc::{AllocError, Global};
use std::collections::BTreeMap;

/// Sets the file at a path, or removes it.
fn set(
    files: &mut BTreeMap<String, Vec<u8>>,
    path: &String,
    bytes: Option<Vec<u8>>,
) -> Result<(), AllocError>
    ensures { OnOk result ((at : List ℕ) → files_in files.new at
        ≡ put (files_in files.old) (string_bytes path.now) (option_map (λ b. b.items) bytes) at) }
{
    match bytes {
        Some(bytes) => {
            files.insert(path.clone()?, bytes)?;
        }
        None => {
            files.remove(path.as_str());
        }
    }
    Ok(())
}

/// Removes a file, and returns its bytes, or none if it is absent.
fn take_out(alloc: Global, files: &mut BTreeMap<String, Vec<u8>>, path: &str) -> Vec<u8>
    ensures bytes { result.items ≡ bytes_at (files_in files.old) path.now }
    ensures files { (at : List ℕ) → files_in files.new at
        ≡ put (files_in files.old) path.now None at }
{
    match files.remove(path) {
        Some(bytes) => bytes,
        None => Vec::new(alloc),
    }
}

/// Appends bytes to a file.
fn append(
    alloc: Global,
    files: &mut BTreeMap<String, Vec<u8>>,
    path: &String,
    bytes: &[u8],
) -> Result<(), AllocError>
    ensures { OnOk result ((at : List ℕ) → files_in files.new at
        ≡ put (files_in files.old) (string_bytes path.now)
        (Some (bytes_at (files_in files.old) (string_bytes path.now) ++ bytes.now)) at) }
{
    let mut whole = take_out(alloc, files, path.as_str());
    whole.extend_from_slice(bytes)?;
    set(files, path, Some(whole))
}

/// Returns a copy of a file, or `None` if it is absent.
fn copy_of(
    alloc: Global,
    files: &BTreeMap<String, Vec<u8>>,
    path: &str,
) -> Result<Option<Vec<u8>>, AllocError>
    ensures { IfOk result (λ copy. option_map (λ b. b.items) copy ≡ files_in files.now path.now) }
{
    match files.get(path) {
        Some(bytes) => Ok(Some(Vec::from_slice(alloc, bytes.as_slice())?)),
        None => Ok(None),
    }
}

/// Applies an effect to the files. Fails if an allocation fails.
pub fn apply(
    alloc: Global,
    files: &mut BTreeMap<String, Vec<u8>>,
    effect: &Effect,
) -> Result<(), AllocError>
    ensures { OnOk result ((path : List ℕ) → files_in files.new path
        ≡ after (files_in files.old) (change_of effect.now) path) }
{
    match effect {
        Effect::Opened(at, Open::Append) => append(alloc, files, at, b""),
        Effect::Opened(at, Open::Truncate) => set(files, at, Some(Vec::new(alloc))),
        Effect::Wrote(at, bytes) => append(alloc, files, at, bytes.as_slice()),
        Effect::Renamed(from, to) => {
            let moved = files.remove(from.as_str());
            set(files, to, moved)
        }
        Effect::Copied(from, to) => {
            let copy = copy_of(alloc, files, from.as_str())?;
            set(files, to, copy)
        }
        Effect::Removed(at) => set(files, at, None),
    }
}

/// Returns the files of a map after effects, which are applied in order. Fails if an allocation
/// fails.
pub fn replayed(
    alloc: Global,
    start: &BTreeMap<String, Vec<u8>>,
    effects: &[Effect],
) -> Result<BTreeMap<String, Vec<u8>>, AllocError>
    ensures { IfOk result (λ files. (path : List ℕ) → files_in files path
        ≡ replay (files_in start.now) (map change_of effects.now) path) }
{
    let mut files = start.clone()?;
    for effect in effects {
        apply(alloc, &mut files, effect)?;
    }
    Ok(files)
}
