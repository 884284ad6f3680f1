//! The builder of file appenders.

ghost use Rattle.std.specs.Prelude.{◌≡◌, ◌∷◌, [], Some, true, IfOk, IfErr, OnErr, OnOk, string_bytes};
ghost use Rattle.jiff.specs.Words.{plain_zone};
ghost use Rattle.log4rs_rolling.specs.Change.{opened};
ghost use Rattle.log4rs_rolling.specs.Disk.{Calls, Does};
ghost use Rattle.log4rs_rolling.specs.Faults.{IsOfStore};
ghost use Rattle.log4rs_append.specs.File.{path_bytes, begun, store_of, path_of, encoder_of, maker_of, way_of};
ghost use Rattle.log4rs_rolling.specs.FileChanges.{way};
ghost use Rattle.log4rs_append.specs.Sink.{bytes_of, plain_reading};
ghost use Rattle.log4rs_base.specs.Names.{expanded_names};
ghost use Rattle.log4rs_base.specs.Times.{expanded_time};

use crate::append::Append;
use crate::choice::{DefaultEncoder, Given, MakeEncoder};
use crate::file::FileAppender;
use crate::texts::TextBuffer;
use jiff::Timestamp;
use jiff::tz::TimeZone;
use log4rs_base::{LogError, OutOfMemory, expand_env_vars, expand_time};
use log4rs_encode::Encode;
use log4rs_encode::pattern::PatternEncoder;
use log4rs_rolling::MemStore;
use log4rs_rolling::folder::make_parent;
use log4rs_rolling::store::{Open, Store};
use std::alloc::Global;
use std::collections::BTreeMap;

/// Builds an appender to a file.
#[derive(Drop)]
pub struct FileAppenderBuilder<M> {
    alloc: Global,
    encoder: M,
    append: bool,
}

impl FileAppender<MemStore, PatternEncoder> {
    ghost use Rattle.log4rs_append.specs.File.{way_of};
    ghost use Rattle.log4rs_rolling.specs.FileChanges.{way};

    /// Creates a builder with the default pattern and append mode. The store may be any.
    pub fn builder(alloc: Global) -> FileAppenderBuilder<DefaultEncoder>
        ensures append { way_of result ≡ way true }
    {
        FileAppenderBuilder {
            alloc,
            encoder: DefaultEncoder,
            append: true,
        }
    }
}

impl<M: MakeEncoder + Drop> FileAppenderBuilder<M> {
    /// Sets the encoder.
    pub fn encoder<E: Encode>(self, encoder: E) -> FileAppenderBuilder<Given<E>>
        ensures encoder { maker_of result ≡ record { 0 = encoder } }
        ensures append { way_of result ≡ way_of self }
    {
        FileAppenderBuilder {
            alloc: self.alloc,
            encoder: Given(encoder),
            append: self.append,
        }
    }

    /// Sets whether the file keeps its contents. If not, it is emptied when the appender is built.
    pub fn append(self, append: bool) -> FileAppenderBuilder<M>
        ensures encoder { maker_of result ≡ maker_of self }
        ensures append { way_of result ≡ way append }
    {
        FileAppenderBuilder {
            alloc: self.alloc,
            encoder: self.encoder,
            append,
        }
    }

    /// Opens the file at this path, and creates its appender. In the path, each `$ENV{name}` and
    /// then each `$TIME{format}` is expanded. Creates the directory of the file, if the path names
    /// one. Fails with `Store` if the store refuses, and with `Memory` if an allocation fails; the
    /// store is then dropped.
    pub fn build<S: Store + Drop>(
        self,
        path: &str,
        store: S,
        env: &BTreeMap<String, String>,
        moment: Timestamp,
        zone: &TimeZone<'_>,
    ) -> Result<FileAppender<S, M::Made>, LogError>
    where
        M::Made: Drop,
        ensures encoder { IfOk result (λ a. M.makes (maker_of self)
            (M.Made.rendering (encoder_of a))) }
        ensures store { let path = expanded_time (plain_zone zone.now) moment.nanosecond
            (expanded_names env.now path.now) in
            IfOk result (λ a. Does (S.disk store) (S.disk (store_of a))
            (opened path (way_of self) ∷ []) (S.disk store).refusals (Some path)) }
        ensures texts { let path = expanded_time (plain_zone zone.now) moment.nanosecond
            (expanded_names env.now path.now) in
            IfOk result (λ a. (⟦<FileAppender<S, M::Made> as Append>⟧.sink a).texts
            ≡ bytes_of (plain_reading (M.Made.rendering (encoder_of a)))
            (begun (way_of self) path (S.disk store))) }
        ensures path { let path = expanded_time (plain_zone zone.now) moment.nanosecond
            (expanded_names env.now path.now) in IfOk result (λ a. path_of a ≡ path) }
        ensures fault { IfErr result IsOfStore }
    {
        match self.build_in(path, store, env, moment, zone) {
            Ok(appender) => Ok(appender),
            Err(refused) => Err(refused.1),
        }
    }

    /// Builds as `build` does, and returns the store with an error. No file is changed then.
    fn build_in<S: Store + Drop>(
        self,
        path: &str,
        store: S,
        env: &BTreeMap<String, String>,
        moment: Timestamp,
        zone: &TimeZone<'_>,
    ) -> Result<FileAppender<S, M::Made>, (S, LogError)>
    where
        M::Made: Drop,
        ensures encoder { IfOk result (λ a. M.makes (maker_of self)
            (M.Made.rendering (encoder_of a))) }
        ensures store { let path = expanded_time (plain_zone zone.now) moment.nanosecond
            (expanded_names env.now path.now) in
            IfOk result (λ a. Does (S.disk store) (S.disk (store_of a))
            (opened path (way_of self) ∷ []) (S.disk store).refusals (Some path)) }
        ensures texts { let path = expanded_time (plain_zone zone.now) moment.nanosecond
            (expanded_names env.now path.now) in
            IfOk result (λ a. (⟦<FileAppender<S, M::Made> as Append>⟧.sink a).texts
            ≡ bytes_of (plain_reading (M.Made.rendering (encoder_of a)))
            (begun (way_of self) path (S.disk store))) }
        ensures path { let path = expanded_time (plain_zone zone.now) moment.nanosecond
            (expanded_names env.now path.now) in IfOk result (λ a. path_of a ≡ path) }
        ensures fault { IfErr result (λ refused. IsOfStore refused.1) }
        ensures tried { IfErr result (λ refused. Calls (S.disk store) (S.disk refused.0)
            (λ added. added ≡ [])) }
    {
        let Ok(path) = expanded(self.alloc, path, env, moment, zone) else {
            return Err((store, LogError::Memory));
        };
        let Ok(encoder) = self.encoder.make(self.alloc) else {
            return Err((store, LogError::Memory));
        };
        let mut store = store;
        if let Err(fault) = open_at(&mut store, path.as_str(), way(self.append)) {
            return Err((store, fault));
        }
        Ok(FileAppender {
            encoder,
            store,
            buffer: TextBuffer::new(self.alloc),
            path,
        })
    }
}

/// Returns the path with the values of variables, and then dates, in place of its placeholders.
fn expanded(
    alloc: Global,
    path: &str,
    env: &BTreeMap<String, String>,
    moment: Timestamp,
    zone: &TimeZone<'_>,
) -> Result<String, OutOfMemory>
    ensures { IfOk result (λ text. string_bytes text
        ≡ expanded_time (plain_zone zone.now) moment.nanosecond (expanded_names env.now path.now)) }
{
    let named = expand_env_vars(alloc, path, env)?;
    Ok(expand_time(alloc, &named, moment, zone)?)
}

/// Opens a file, and creates its directory, if the path names one.
fn open_at<S: Store>(store: &mut S, path: &str, how: Open) -> Result<(), LogError>
    ensures ok { OnOk result (Does (S.disk store.old) (S.disk store.new)
        (opened path.now how ∷ []) (S.disk store.old).refusals (Some path.now)) }
    ensures bytes { OnOk result (path_bytes path.now (S.disk store.new)
        ≡ begun how path.now (S.disk store.old)) }
    ensures err { OnErr result (Calls (S.disk store.old) (S.disk store.new)
        (λ added. added ≡ [])) }
    ensures fault { IfErr result IsOfStore }
{
    make_parent(path, store)?;
    match store.open(path, how) {
        Ok(()) => Ok(()),
        Err(_) => Err(LogError::Store),
    }
}

/// Returns how a file is opened.
fn way(append: bool) -> Open
    ensures { result ≡ way append }
{
    if append { Open::Append } else { Open::Truncate }
}
