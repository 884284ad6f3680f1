//! Entries that are made only if they are logged.

ghost use Rattle.std.specs.Prelude.{◌≡◌, [], OnOk, string_bytes};

use log::Level;
use log4rs_base::{Entry, OutOfMemory};
use log4rs_config::AppendError;
use smallvec::SmallVec;
use std::alloc::Global;

/// The faults of a record, noted without an allocation up to four deliveries.
pub(crate) type FewErrors = SmallVec<Option<AppendError>, 4>;

/// Forgets the faults of the record before.
pub(crate) fn forget(errors: &mut FewErrors)
    ensures { errors.new.items ≡ [] }
{
    if !errors.is_empty() {
        errors.clear();
    }
}

/// An entry that each record makes anew, and room for the faults of its deliveries. Who keeps one
/// from record to record asks for no memory, once its texts and the room are large enough.
#[derive(Drop)]
pub struct Draft<'z> {
    /// The entry of the last record.
    pub entry: Entry<'z>,
    pub(crate) errors: FewErrors,
}

impl<'z> Draft<'z> {
    /// Creates a draft with an entry for the first record to replace. Allocates nothing.
    pub fn new(alloc: Global, first: Entry<'z>) -> Draft<'z>
        ensures { result.entry ≡ first.entry }
    {
        Draft {
            entry: first,
            errors: SmallVec::new(alloc),
        }
    }
}

/// A record whose entry is made only if it is logged, in a room that is kept.
pub trait Fill {
    ghost use Rattle.std.specs.Prelude.{ℕ, List, ⊤};
    ghost use Rattle.log.specs.declared.level.Level.{Level as LevelData};
    ghost use Rattle.log4rs_base.specs.declared.record.Entry.{Entry as EntryData};

    /// The level of the record.
    ghost level: { Self → LevelData };

    /// The target of the record.
    ghost target: { Self → List ℕ };

    /// What making an entry of the record does: the entry before, and the one that is made.
    ghost fills: { Self → EntryData → EntryData → Type 0 } = { λ _ _ _. ⊤ };

    /// Returns the level of the record.
    fn level(&self) -> Level
        ensures { result ≡ level self.now };

    /// Returns the target of the record.
    fn target(&self) -> &str
        ensures { result.now ≡ target self.now };

    /// Makes the entry in the place of another one, whose memory it takes over, in the zone of that
    /// one. Fails if an allocation fails; then part of the entry is made.
    fn fill(&self, entry: &mut Entry<'_>) -> Result<(), OutOfMemory>
        ensures level { OnOk result (entry.new.logged.level ≡ level self.now) }
        ensures target { OnOk result (string_bytes entry.new.logged.target ≡ target self.now) }
        ensures zone { OnOk result (entry.new.context.zone ≡ entry.old.context.zone) }
        ensures fills { OnOk result (fills self.now entry.old entry.new) };
}
