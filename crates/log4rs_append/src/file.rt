//! The appender to a file.

ghost use Rattle.std.specs.Prelude.{◌≡◌};
ghost use Rattle.log4rs_append.specs.PlainFile.{OpensOnly};
ghost use Rattle.std.specs.Prelude.{string_bytes};

use crate::append::Append;
use crate::steps::Steps;
use crate::texts::TextBuffer;
use log4rs_base::{Context, LogError, Record};
use log4rs_encode::Encode;
use log4rs_rolling::store::{Open, Store};
use log4rs_rolling::{open_to_write, write_bytes};

pub mod builder;

pub use builder::FileAppenderBuilder;

/// Writes the plain text of each record at the end of a file, which its store has open. A text is
/// one call of the store, if the store takes all of it at once. Fails with the error of the
/// encoder, before anything is written, or with `Store` at the first refusal; the file then ends in
/// a prefix of the text.
#[derive(Drop)]
pub struct FileAppender<S: Store + Drop, E> {
    encoder: E,
    store: S,
    buffer: TextBuffer,
    /// The path of the file in the store.
    path: String,
    ghost opens: { OpensOnly (string_bytes path) (S.disk store) },
}

impl<S: Store + Drop, E: Encode> FileAppender<S, E> {
    ghost use Rattle.log4rs_append.specs.File.{path_bytes, path_of, store_of};
    ghost use Rattle.log4rs_append.specs.Sink.{AreHeld};

    /// Returns the store, which has the file open unless the appender is retired.
    pub fn store(&self) -> &S
        ensures value { result.now ≡ store_of self.now }
        ensures held { AreHeld (path_bytes (path_of self.now) (S.disk result.now))
            (⟦<FileAppender<S, E> as Append>⟧.sink self.now).texts }
        ensures opens { OpensOnly (path_of self.now) (S.disk result.now) }
    {
        &self.store
    }
}

impl<S: Store + Drop, E: Encode> Append for FileAppender<S, E> {
    ghost use Rattle.std.specs.Prelude.{IsTrue, OnOk, IfErr, Err};
    ghost use Rattle.log4rs_rolling.specs.Disk.{Calls, SameOpen, open_path};
    ghost use Rattle.log4rs_base.specs.declared.error.LogError.TheVariants.{Memory};
    ghost use Rattle.log4rs_append.specs.File.{IsSameFile, file_sink, path_of, store_of};
    ghost use Rattle.log4rs_append.specs.Sink.{Appended, Took, plain_reading};
    ghost use Rattle.log4rs_append.specs.File.{encoder_of};
    ghost use Rattle.log4rs_rolling.specs.Appends.{CostsText};
    ghost use Rattle.log4rs_rolling.specs.RetiredAppends.{AddsRetired, FailsRetired};
    ghost use Rattle.std.specs.Prelude.{◌⊎◌, None};
    ghost use Rattle.log4rs_rolling.specs.FileChanges.{OnlyWrites};
    ghost use Rattle.log4rs_append.specs.Texts.{AnsweredBy, fails_by};
    ghost use Rattle.log4rs_rolling.specs.Faults.{MayAnswer};

    ghost sink = { λ a. file_sink (E.rendering a.encoder) (string_bytes a.path)
        (S.disk a.store) };

    fn append(&mut self, record: &Record, context: &Context<'_>) -> Result<(), LogError>
        ensures appended { let sink = ⟦<FileAppender<S, E> as Append>⟧.sink in
            Appended «record».now context.now result (sink self.old) (sink self.new) }
        ensures ok { let sink = ⟦<FileAppender<S, E> as Append>⟧.sink in
            OnOk result ((sink self.new).refusals ≡ (sink self.old).refusals) }
        ensures memory { let sink = ⟦<FileAppender<S, E> as Append>⟧.sink in result ≡ Err Memory
            → sink self.new ≡ sink self.old }
        ensures writes { let disk = S.disk (store_of self.old) in
            Calls disk (S.disk (store_of self.new)) (OnlyWrites (open_path disk)) }
        ensures opened { SameOpen (S.disk (store_of self.old)) (S.disk (store_of self.new)) }
        // An error is the encoder's, and nothing is done then, or comes after its Ok.
        ensures answered { AnsweredBy (E.answers (encoder_of self.old) «record».now context.now)
            (store_of self.new ≡ store_of self.old) (MayAnswer (S.disk (store_of self.old)).refusals
            (S.disk (store_of self.new)).refusals) result }
    {
        self.buffer.encode(&self.encoder, false, record, context)?;
        let text = self.buffer.bytes();
        if write_bytes(&mut self.store, text) < text.len() {
            return Err(LogError::Store);
        }
        Ok(())
    }

    /// Appends a record while the file is closed: opens it in append mode, writes the text, and
    /// closes it. Fails with the error of the encoder, before anything is done, or with `Store` if
    /// the store refuses.
    fn append_retired(&mut self, record: &Record, context: &Context<'_>) -> Result<(), LogError>
        ensures appended { let sink = ⟦<FileAppender<S, E> as Append>⟧.sink in
            Took «record».now context.now result (sink self.old) (sink self.new) }
        ensures adds { Calls (S.disk (store_of self.old)) (S.disk (store_of self.new))
            (AddsRetired (plain_reading (E.rendering (encoder_of self.old))) «record».now
            context.now (path_of self.old) result) }
        ensures unrefused { OnOk result
            ((S.disk (store_of self.new)).refusals ≡ (S.disk (store_of self.old)).refusals) }
        ensures faults { IfErr result (FailsRetired (plain_reading (E.rendering
            (encoder_of self.old))) (fails_by (E.answers (encoder_of self.old))) «record».now
            context.now (S.disk (store_of self.old)) (S.disk (store_of self.new))
            (store_of self.new ≡ store_of self.old)) }
        ensures cost { CostsText (plain_reading (E.rendering (encoder_of self.old))) «record».now
            context.now 1 result (S.disk (store_of self.old)) (S.disk (store_of self.new)) }
        // The file is closed then, unless nothing was done.
        ensures closed { (IsTrue (S.disk (store_of self.new)).tells
            → (S.disk (store_of self.new)).opened ≡ None)
            ⊎ (store_of self.new ≡ store_of self.old) }
        ensures same { IsSameFile self.old self.new }
    {
        self.buffer.encode(&self.encoder, false, record, context)?;
        let wrote = open_to_write(self.path.as_str(), &mut self.store, self.buffer.bytes());
        self.store.close();
        wrote
    }

    fn flush(&mut self)
        ensures sink { let sink = ⟦<FileAppender<S, E> as Append>⟧.sink in
            sink self.new ≡ sink self.old }
        ensures same { self.new ≡ self.old }
    {}
}

impl<S: Store + Drop, E: Encode> Steps for FileAppender<S, E> {
    ghost use Rattle.std.specs.Prelude.{◌∷◌, [], None, Some, IsOk, IsTrue, IfErr, OnErr, OnOk};
    ghost use Rattle.log4rs_rolling.specs.Change.{opened};
    ghost use Rattle.log4rs_rolling.specs.Costs.{Costs};
    ghost use Rattle.log4rs_rolling.specs.Disk.{Does, Refuses};
    ghost use Rattle.log4rs_rolling.specs.Faults.{MayAnswer};
    ghost use Rattle.log4rs_append.specs.File.{IsSameFile, path_of, store_of};
    ghost use Rattle.log4rs_append.specs.Sink.{SameTexts};

    fn step(&mut self) -> Result<bool, LogError> {
        Ok(false)
    }

    fn drive(&mut self) -> Result<(), LogError> {
        Ok(())
    }

    /// Closes the file. Nothing else is left to do, and nothing fails.
    fn retire(&mut self) -> Result<(), LogError>
        ensures closed { Does (S.disk (store_of self.old)) (S.disk (store_of self.new)) []
            (S.disk (store_of self.old)).refusals None }
        ensures ok { IsOk result }
        ensures texts { let sink = ⟦<FileAppender<S, E> as Append>⟧.sink in
            SameTexts (sink self.old) (sink self.new) }
        ensures same { IsSameFile self.old self.new }
    {
        self.store.close();
        Ok(())
    }

    /// Opens the file in append mode, whatever the appender was built with. Fails with `Store` if
    /// the store refuses.
    fn resume(&mut self) -> Result<(), LogError>
        ensures opened { OnOk result (Does (S.disk (store_of self.old)) (S.disk (store_of self.new))
            (opened (path_of self.old) Open.Append ∷ []) (S.disk (store_of self.old)).refusals
            (Some (path_of self.old))) }
        ensures refused { OnErr result
            (Refuses (S.disk (store_of self.old)) (S.disk (store_of self.new)) None) }
        ensures only { IfErr result (λ fault. fault ≡ LogError.Store) }
        ensures cost { Costs 1 result (S.disk (store_of self.old)) (S.disk (store_of self.new)) }
        ensures texts { let sink = ⟦<FileAppender<S, E> as Append>⟧.sink in
            SameTexts (sink self.old) (sink self.new) }
        ensures same { IsSameFile self.old self.new }
    {
        match self.store.open(self.path.as_str(), Open::Append) {
            Ok(()) => Ok(()),
            Err(_) => Err(LogError::Store),
        }
    }
}
