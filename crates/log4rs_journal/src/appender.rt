//! The appender to a journal.

ghost use Rattle.std.specs.Prelude.{◌≡◌, IfSome, OnOk, OnErr, IfErr, None};
ghost use Rattle.std.specs.Arc.{arc_value};
ghost use Rattle.std.specs.Option.{ForSome};
ghost use Rattle.log4rs_journal.specs.Receipts.{IsReceiptOf};

use crate::journal::SharedJournal;
use crate::receipt::Receipt;
use log4rs_append::{Append, Steps};
use log4rs_base::{Context, LogError, Record};
use std::sync::{Arc, Wait};

/// Appends each record to a journal, after its last receipt. Buffers nothing.
#[derive(Drop)]
pub struct JournalAppender<R> {
    journal: Arc<SharedJournal<R>>,
    last: Option<Receipt>,
    ghost own: { ForSome last (IsReceiptOf (arc_value journal)) },
}

impl<R> JournalAppender<R> {
    ghost use Rattle.std.specs.Prelude.{option_map};
    ghost use Rattle.log4rs_journal.specs.Appender.{journal_of, last_of};

    /// Creates an appender that has no receipt yet.
    pub fn new(journal: Arc<SharedJournal<R>>) -> JournalAppender<R>
        ensures journal { journal_of result ≡ arc_value journal }
        ensures last { last_of result ≡ None }
    {
        JournalAppender {
            journal,
            last: None,
        }
    }

    /// Returns the receipt of the record that was appended last, if there is one.
    pub fn last(&self) -> Option<&Receipt>
        ensures value { option_map (λ receipt. receipt.now) result ≡ last_of self.now }
        ensures own { IfSome result
            (λ receipt. IsReceiptOf (journal_of self.now) receipt.now) }
    {
        self.last.as_ref()
    }
}

impl<R: Wait> Append for JournalAppender<R> {
    ghost use Rattle.log4rs_append.specs.Sink.{Appended};
    ghost use Rattle.log4rs_journal.specs.Appender.{journal_of, last_of, IsNewest};

    /// Appends the record; may wait. Fails with `Memory`, and then keeps the last receipt.
    fn append(&mut self, record: &Record, context: &Context<'_>) -> Result<(), LogError>
        ensures appended { let sink = ⟦<JournalAppender<R> as Append>⟧.sink in
            Appended «record».now context.now result (sink self.old) (sink self.new) }
        ensures newest { OnOk result (IsNewest (journal_of self.old) (last_of self.old)
            (last_of self.new) «record».now context.now) }
        ensures kept { OnErr result (last_of self.new ≡ last_of self.old) }
        ensures only { IfErr result (λ fault. fault ≡ LogError.Memory) }
        ensures journal { journal_of self.new ≡ journal_of self.old }
    {
        let appended = match &self.last {
            Some(earlier) => self.journal.append_after(earlier, record, context),
            None => self.journal.append(record, context),
        };
        let Ok(receipt) = appended else {
            return Err(LogError::Memory);
        };
        self.last = Some(receipt);
        Ok(())
    }

    fn append_retired(&mut self, record: &Record, context: &Context<'_>) -> Result<(), LogError> {
        self.append(record, context)
    }

    fn flush(&mut self)
        ensures sink { let sink = ⟦<JournalAppender<R> as Append>⟧.sink in
            sink self.new ≡ sink self.old }
        ensures same { self.new ≡ self.old }
    {}
}

impl<R: Wait> Steps for JournalAppender<R> {
    fn step(&mut self) -> Result<bool, LogError> {
        Ok(false)
    }

    fn drive(&mut self) -> Result<(), LogError> {
        Ok(())
    }

    fn retire(&mut self) -> Result<(), LogError> {
        Ok(())
    }

    fn resume(&mut self) -> Result<(), LogError> {
        Ok(())
    }
}
