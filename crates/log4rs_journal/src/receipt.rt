//! Receipts of what was appended.

ghost use Rattle.std.specs.Prelude.{◌≡◌};

use crate::note::{Note, TextOfEntry};
use boxcar::Pushed;
use std::alloc::Global;

/// Evidence that a record was appended to a journal, and at which index.
#[derive(Drop)]
pub struct Receipt {
    pub(crate) token: Pushed<Note, Global, TextOfEntry>,
}

impl Receipt {
    ghost use Rattle.log4rs_journal.specs.Receipts.{place_of};

    /// Returns the index of the record in its journal.
    pub fn place(&self) -> usize
        ensures { result ≡ place_of self.now }
    {
        self.token.index()
    }
}
