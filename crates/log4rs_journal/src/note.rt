//! The note of one record.

ghost use Rattle.std.specs.Prelude.{◌≡◌};
ghost use Rattle.std.specs.Str.{chars};

use crate::carried::Carried;
use boxcar::Keeps;
use boxcar::tag::Names;

/// The text of a record. Carries, for contracts alone, the record and its context.
#[derive(Drop)]
pub struct Note {
    pub(crate) text: String,
    pub(crate) carried: Carried,
}

impl Note {
    ghost use Rattle.log4rs_journal.specs.Notes.{text_in};

    /// Returns the text.
    pub fn text(&self) -> &str
        ensures { result.now ≡ text_in self.now }
    {
        &self.text
    }
}

/// The invariant of a journal: each text is what the journal's pattern renders for the entry that
/// the text carries.
pub struct TextOfEntry;

impl Keeps<Note> for TextOfEntry {
    ghost use Rattle.log4rs_journal.specs.Notes.{IsOfEntry};

    ghost holds = { λ pattern place note. IsOfEntry pattern note };
}

/// A journal's tag is its pattern, by its characters.
pub(crate) struct PatternText;

impl Names<&str> for PatternText {
    ghost numbers = { λ pattern. chars pattern.now };
}
