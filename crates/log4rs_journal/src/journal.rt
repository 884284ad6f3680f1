//! The journal.

ghost use Rattle.std.specs.Prelude.{◌≡◌, ◌≢◌, IfOk};
ghost use Rattle.std.specs.Str.{chars};

use crate::carried::Carried;
use crate::error::JournalError;
use crate::note::{Note, PatternText, TextOfEntry};
use crate::receipt::Receipt;
use crate::walk::Notes;
use boxcar::Vec;
use boxcar::tag::Tag;
use log4rs_base::{Context, OutOfMemory, Record};
use log4rs_encode::pattern::PatternEncoder;
use log4rs_encode::{Encode, Styled};
use std::alloc::Global;
use std::marker::Model;
use std::sync::Wait;

/// Texts of records, which any thread may append and read through a `&`. A text stays where it was
/// appended as long as the journal lasts.
#[derive(Drop)]
pub struct SharedJournal<R> {
    rt: R,
    alloc: Global,
    encoder: PatternEncoder,
    notes: Vec<Note, Global, TextOfEntry>,
}

impl<R> Model for SharedJournal<R> {
    ghost use Rattle.boxcar.specs.Table.{shelves_coded};
    ghost use Rattle.log4rs_encode.specs.Rendering.{Renders};
    ghost use Rattle.log4rs_journal.specs.Receipts.{Journal, pattern_of};

    ghost Value = { Journal };

    ghost coded = { shelves_coded };

    ghost view = { λ j. j.notes };

    ghost invariant = { λ j. Renders (pattern_of j.notes)
        (⟦<PatternEncoder as Encode>⟧.rendering j.encoder) };
}

impl<R> SharedJournal<R> {
    ghost use Rattle.std.specs.Prelude.{string_bytes};
    ghost use Rattle.log4rs_journal.specs.Notes.{entry_in, IsOfEntry};
    ghost use Rattle.log4rs_journal.specs.Receipts.{pattern_of, IsReceiptOf, place_of, text_of, logged_of, context_of};
    ghost use Rattle.log4rs_journal.specs.Texts.{IsTextOf};
    ghost use Rattle.log4rs_journal.specs.Walks.{journal_of, next_place};

    /// Creates a journal without texts, whose texts are rendered by this pattern. Every pattern is
    /// accepted: its errors are printed in their place. Fails if an allocation fails.
    pub fn new(rt: R, alloc: Global, pattern: &str) -> Result<SharedJournal<R>, OutOfMemory>
    where
        R: Drop,
        ensures { IfOk result (λ journal. pattern_of journal ≡ chars pattern.now) }
    {
        let encoder = PatternEncoder::new(alloc, pattern)?;
        let tag = Tag::of::<&str, PatternText>(&pattern);
        let notes = Vec::with_rule(alloc, tag)?;
        Ok(SharedJournal {
            rt,
            alloc,
            encoder,
            notes,
        })
    }

    /// Returns the text of a receipt of this journal. It never changes.
    pub fn text<'a>(&'a self, receipt: &Receipt) -> &'a str
        requires { IsReceiptOf self.now receipt.now }
        ensures same { result.now ≡ text_of receipt.now }
        ensures entry { IsTextOf (pattern_of self.now) (logged_of receipt.now)
            (context_of receipt.now) result.now }
    {
        let place = receipt.token.index();
        let note = self.notes.get_seen(place, &receipt.token).unwrap();
        note.text()
    }

    /// Two receipts of one place are of one entry.
    pub fn agrees(&self, a: &Receipt, b: &Receipt)
        requires a { IsReceiptOf self.now a.now }
        requires b { IsReceiptOf self.now b.now }
        requires place { place_of a.now ≡ place_of b.now }
        ensures logged { logged_of a.now ≡ logged_of b.now }
        ensures context { context_of a.now ≡ context_of b.now }
        ensures text { text_of a.now ≡ text_of b.now }
    {
        self.notes.agrees(&a.token, &b.token);
    }

    /// Returns the texts in the order of their indices. A text that is appended meanwhile may be
    /// included or not; an index whose text is not written yet is skipped.
    pub fn iter(&self) -> Notes<'_>
        ensures journal { journal_of result ≡ self.now }
        ensures start { next_place result ≡ 0 }
    {
        Notes {
            notes: &self.notes,
            places: self.notes.iter(),
        }
    }

    /// Renders the text of a record.
    fn rendered(&self, logged: &Record, context: &Context<'_>) -> Result<String, JournalError>
        ensures { IfOk result (λ text. IsTextOf (pattern_of self.now) logged.now context.now
            (string_bytes text)) }
    {
        let mut styled = Styled::new(self.alloc);
        if let Err(_) = self.encoder.encode(&mut styled, logged, context) {
            return Err(JournalError::Memory);
        }
        let text = styled.into_text()?;
        Ok(text)
    }

    /// Returns the note of a record.
    fn note(&self, logged: &Record, context: &Context<'_>) -> Result<Note, JournalError>
        ensures text { IfOk result (IsOfEntry (pattern_of self.now)) }
        ensures entry { IfOk result (λ note. entry_in note
            ≡ record { logged = logged.now; context = context.now }) }
    {
        let text = self.rendered(logged, context)?;
        let carried = Carried::of(logged, context);
        Ok(Note { text, carried })
    }
}

impl<R: Wait> SharedJournal<R> {
    ghost use Rattle.log4rs_journal.specs.Receipts.{IsReceiptOf, place_of, logged_of, context_of};

    /// Appends the text of a record; may wait. Fails if an allocation fails.
    pub fn append(&self, logged: &Record, context: &Context<'_>) -> Result<Receipt, JournalError>
        ensures own { IfOk result (IsReceiptOf self.now) }
        ensures logged { IfOk result (λ receipt. logged_of receipt ≡ logged.now) }
        ensures context { IfOk result (λ receipt. context_of receipt ≡ context.now) }
    {
        let note = self.note(logged, context)?;
        match self.notes.push_shown(&self.rt, note) {
            Ok(token) => Ok(Receipt { token }),
            Err(_) => Err(JournalError::Memory),
        }
    }

    /// Appends the text of a record at another index than the receipt's; may wait. Fails if an
    /// allocation fails.
    pub fn append_after(
        &self,
        earlier: &Receipt,
        logged: &Record,
        context: &Context<'_>,
    ) -> Result<Receipt, JournalError>
        requires { IsReceiptOf self.now earlier.now }
        ensures own { IfOk result (IsReceiptOf self.now) }
        ensures logged { IfOk result (λ receipt. logged_of receipt ≡ logged.now) }
        ensures context { IfOk result (λ receipt. context_of receipt ≡ context.now) }
        ensures elsewhere { IfOk result (λ receipt. place_of receipt ≢ place_of earlier.now) }
    {
        let note = self.note(logged, context)?;
        match self.notes.push_after(&self.rt, &earlier.token, note) {
            Ok(token) => Ok(Receipt { token }),
            Err(_) => Err(JournalError::Memory),
        }
    }
}
