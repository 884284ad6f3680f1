//! Effects of operations.

ghost use Rattle.std.specs.Prelude.{◌≡◌, IfOk};
ghost use Rattle.log4rs_rolling.specs.Change as change;

use crate::store::Open;
use std::alloc::{AllocError, Global};

/// A change that one operation of a store in memory made. Paths are as the caller gave them.
#[derive(Drop)]
pub enum Effect {
    /// The file was opened, in this mode.
    Opened(String, Open),
    /// These bytes were written to the end of the file.
    Wrote(String, Vec<u8>),
    /// The first file was moved in place of the second.
    Renamed(String, String),
    /// The second file was given the bytes of the first.
    Copied(String, String),
    /// The file was removed.
    Removed(String),
}

impl Effect {
    ghost use Rattle.log4rs_rolling.specs.MemStore.{change_of};

    pub(crate) fn opening(alloc: Global, path: &str, how: Open) -> Result<Effect, AllocError>
        ensures { IfOk result (λ effect. change_of effect ≡ change.opened path.now how) }
    {
        Ok(Effect::Opened(String::from_str(alloc, path)?, how))
    }

    pub(crate) fn writing(alloc: Global, path: &str, bytes: &[u8]) -> Result<Effect, AllocError>
        ensures { IfOk result (λ effect. change_of effect ≡ change.wrote path.now bytes.now) }
    {
        let path = String::from_str(alloc, path)?;
        Ok(Effect::Wrote(path, Vec::from_slice(alloc, bytes)?))
    }

    pub(crate) fn renaming(alloc: Global, from: &str, to: &str) -> Result<Effect, AllocError>
        ensures { IfOk result (λ effect. change_of effect ≡ change.renamed from.now to.now) }
    {
        let from = String::from_str(alloc, from)?;
        Ok(Effect::Renamed(from, String::from_str(alloc, to)?))
    }

    pub(crate) fn copying(alloc: Global, from: &str, to: &str) -> Result<Effect, AllocError>
        ensures { IfOk result (λ effect. change_of effect ≡ change.copied from.now to.now) }
    {
        let from = String::from_str(alloc, from)?;
        Ok(Effect::Copied(from, String::from_str(alloc, to)?))
    }

    pub(crate) fn removing(alloc: Global, path: &str) -> Result<Effect, AllocError>
        ensures { IfOk result (λ effect. change_of effect ≡ change.removed path.now) }
    {
        Ok(Effect::Removed(String::from_str(alloc, path)?))
    }
}
