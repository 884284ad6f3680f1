//! Iteration over the texts of a journal.

ghost use Rattle.std.specs.Iterator.{at_most};

use crate::note::{Note, TextOfEntry};
use crate::receipt::Receipt;
use boxcar::{Iter, Vec};
use std::alloc::Global;

/// A text of an iteration, and a receipt of it with its index.
#[derive(Drop)]
pub struct Shown<'a> {
    /// A receipt of the text, with its index.
    pub receipt: Receipt,
    /// The text.
    pub note: &'a Note,
}

/// The texts of a journal, by rising indices.
#[derive(Drop)]
pub struct Notes<'a> {
    pub(crate) notes: &'a Vec<Note, Global, TextOfEntry>,
    pub(crate) places: Iter<'a, Note, Global, TextOfEntry>,
}

impl<'a> Iterator for Notes<'a> {
    ghost use Rattle.log4rs_journal.specs.Walks.{Goes, places_ahead};

    type Item = Shown<'a>;

    ghost next_gives = { Goes };

    ghost remaining = { λ it. at_most (places_ahead it) };

    fn next(&mut self) -> Option<Shown<'a>> {
        while let Some((place, _)) = self.places.next() {
            if let Some(token) = self.notes.witness(place) {
                let note = self.notes.get_seen(place, &token).unwrap();
                let receipt = Receipt { token };
                return Some(Shown { receipt, note });
            }
        }
        None
    }
}
