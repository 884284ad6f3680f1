//! The publisher, which swaps the root and the loggers.

ghost use Rattle.std.specs.Prelude.{◌≡◌, ◌+◌, ◌∷◌, ◌++◌, [], IfErr, IfOk, MatchResult, OnOk};
ghost use Rattle.std.specs.Prelude.{length, replicate};
ghost use Rattle.log4rs_config.specs.Faults.{faults};
ghost use Rattle.log4rs_config.specs.Settings.{settings_of};
ghost use Rattle.log4rs_threads.specs.Refusal.{IsSwapRefusal};
ghost use Rattle.log4rs_threads.specs.States.{admits, newcomer};
ghost use Rattle.log4rs_threads.specs.Swaps.{StartsWith};

use crate::error::{OpenError, SwapError};
use crate::publish::session::SessionOf;
use crate::{NoSubscriber, RoutedLists, SwapWriter, Unpublished};
use log4rs_append::{AnyAppender, Append, Locked};
use log4rs_base::OutOfMemory;
use log4rs_base::filter::{AnyFilter, Filter};
use log4rs_config::runtime::config::ConfigOf;
use log4rs_config::runtime::{BuildError, Configured, Logger, Root};
use std::alloc::Global;
use std::marker::Model;
use std::sync::{Arc, Wait};

/// The configuration of an opening, with a lock around each appender.
pub type SharedOf<A, F> = ConfigOf<Locked<A>, F>;

/// The history that a publisher has published so far. A ghost value without bytes, which a session
/// takes in by `learn`.
pub type Told = crate::publish::history::Told<RoutedLists>;

/// Publishes roots and loggers over the opening's appenders `A` behind filters `F`, with runtime
/// `W`. It is not `Drop`: call `end`.
pub struct PublisherOf<A, F, W> {
    rt: W,
    alloc: Global,
    writer: SwapWriter,
    shared: Arc<SharedOf<A, F>>,
}

/// A publisher over stores `S`.
pub type Publisher<S, W> = PublisherOf<AnyAppender<S>, AnyFilter, W>;

impl<A, F, W> Model for PublisherOf<A, F, W> {
    ghost use Rattle.std.specs.Prelude.{◌≡◌};
    ghost use Rattle.std.specs.Arc.{arc_value};
    ghost use Rattle.log4rs_config.specs.Builder.{config_settings};
    ghost use Rattle.log4rs_threads.specs.States.{PublisherState, config_filters};

    ghost Value = { PublisherState F };

    ghost view = { λ p. record {
      opening = config_settings (arc_value p.shared);
      filters = config_filters (arc_value p.shared);
      swaps = p.writer.swaps;
      book = p.writer.book;
    } };

    ghost invariant = { λ p. p.writer.names
        ≡ (config_settings (arc_value p.shared)).appenders };
}

/// Publishes a root and loggers, unless they have faults.
fn swap_by<W: Wait>(
    rt: &W,
    alloc: Global,
    writer: &mut SwapWriter,
    root: Root,
    loggers: Vec<Logger>,
) -> Result<(), SwapError>
    ensures list { MatchResult result
        (λ _. writer.new.swaps
        ≡ writer.old.swaps ++ settings_of writer.old.names root loggers.items ∷ [])
        (λ _. writer.new.swaps ≡ writer.old.swaps) }
    ensures same { writer.new ≡ record writer.old { swaps = writer.new.swaps } }
    ensures faultless { OnOk result (faults (settings_of writer.old.names root loggers.items)
        ≡ []) }
    ensures refusal { IfErr result (λ error. IsSwapRefusal
        (faults (settings_of writer.old.names root loggers.items)) (length writer.old.swaps)
        error) }
{
    let lists = match RoutedLists::new(alloc, writer.names(), root, loggers) {
        Ok(lists) => lists,
        Err(BuildError::Errors(errors)) => return Err(SwapError::Errors(errors)),
        Err(BuildError::Memory) => return Err(SwapError::Memory),
    };
    match writer.swap(rt, alloc, lists) {
        Ok(()) => Ok(()),
        Err(Unpublished::Full) => Err(SwapError::Full),
        Err(Unpublished::Memory) => Err(SwapError::Memory),
    }
}

/// Begins to publish over appenders, for this many readers and at least one.
fn writer_of<A: Append, F: Filter, W: Wait>(
    rt: &W,
    alloc: Global,
    shared: &SharedOf<A, F>,
    readers: u8,
) -> Result<SwapWriter, OutOfMemory>
    ensures swaps { IfOk result (λ writer. writer.swaps ≡ []) }
    ensures names { IfOk result (λ writer. writer.names
        ≡ (⟦<SharedOf<A, F> as Configured>⟧.settings shared.now).appenders) }
{
    let names = shared.lists().names().share()?;
    SwapWriter::open(rt, alloc, names, usize::from(readers.max(1)))
}

impl<A: Append + Drop, F: Filter + Drop, W: Clone + Drop> PublisherOf<A, F, W> {
    /// Creates a session that knows all that was published so far.
    fn session(&mut self) -> Result<SessionOf<A, F, W>, OpenError>
        ensures made { IfOk result (λ session. session ≡ newcomer self.old) }
        ensures same { self.new ≡ self.old }
    {
        let rt = self.rt.clone()?;
        let shared = Arc::try_clone(&self.shared)?;
        let subscriber = match self.writer.subscriber() {
            Ok(subscriber) => subscriber,
            Err(NoSubscriber::Memory) => return Err(OpenError::Memory),
            Err(NoSubscriber::Taken) => return Err(OpenError::NoReader),
        };
        Ok(SessionOf {
            rt,
            alloc: self.alloc,
            subscriber: Some(subscriber),
            shared,
        })
    }

    /// Creates `count` sessions.
    fn sessions(&mut self, sessions: u8) -> Result<Vec<SessionOf<A, F, W>>, OpenError>
        ensures made { IfOk result (λ made. made.items ≡ replicate sessions (newcomer self.old)) }
        ensures same { self.new ≡ self.old }
    {
        let mut made = Vec::new(self.alloc);
        for _seat in 0..sessions {
            let session = self.session()?;
            made.push(session)?;
        }
        Ok(made)
    }
}

impl<A, F, W> PublisherOf<A, F, W> {
    /// Returns the history so far. Never waits and allocates nothing.
    pub fn tell(&self) -> Told
        ensures { result ≡ record { swaps = self.now.swaps; book = self.now.book } }
    {
        self.writer.tell()
    }

    /// Returns how many swaps a session of this publisher has not seen yet. What it saw and what it
    /// was told are beginnings of the history. Never waits and allocates nothing.
    pub fn behind(&mut self, session: &SessionOf<A, F, W>) -> u64
        requires { session.now.book ≡ self.old.book }
        ensures seen { StartsWith self.old.swaps session.now.seen }
        ensures told { StartsWith self.old.swaps session.now.told }
        ensures unseen { result + length session.now.seen ≡ length self.old.swaps }
        ensures same { self.new ≡ self.old }
    {
        self.writer.behind(session.subscriber.as_ref().unwrap())
    }
}

impl<A, F, W: Wait> PublisherOf<A, F, W> {
    /// Publishes the opening configuration with this root and these loggers. May wait for sessions
    /// that are delivering a record. Allocates before anything is published. Fails with `Errors` if
    /// the configuration would have faults, else with `Full` after 18446744073709551615 swaps, or
    /// with `Memory`; then nothing is published and the arguments are dropped.
    pub fn swap(&mut self, root: Root, loggers: Vec<Logger>) -> Result<(), SwapError>
        ensures list { MatchResult result
            (λ _. self.new.swaps ≡ self.old.swaps
            ++ settings_of self.old.opening.appenders root loggers.items
            ∷ [])
            (λ _. self.new.swaps ≡ self.old.swaps) }
        ensures same { self.new ≡ record self.old { swaps = self.new.swaps } }
        ensures faultless { OnOk result
            (faults (settings_of self.old.opening.appenders root loggers.items) ≡ []) }
        ensures refusal { IfErr result (λ error. IsSwapRefusal
            (faults (settings_of self.old.opening.appenders root loggers.items))
            (length self.old.swaps) error) }
    {
        swap_by(&self.rt, self.alloc, &mut self.writer, root, loggers)
    }
}

impl<A: Append + Drop, F: Filter + Drop, W: Wait + Drop> PublisherOf<A, F, W> {
    /// Ends the publishing: no session delivers after this. May wait for sessions that are
    /// delivering a record.
    pub fn end(self) {
        let PublisherOf {
            rt,
            alloc: _alloc,
            writer,
            shared: _shared,
        } = self;
        writer.end(&rt);
    }
}

impl<A: Append + Drop, F: Filter + Drop, W: Wait + Clone + Drop> PublisherOf<A, F, W> {
    /// Creates a publisher of this configuration, and this many sessions. Never waits, although its
    /// bound allows it. Fails with `Memory`, or with `NoReader` if a session cannot be registered.
    pub fn open(
        rt: W,
        alloc: Global,
        config: ConfigOf<A, F>,
        sessions: u8,
    ) -> Result<(PublisherOf<A, F, W>, Vec<SessionOf<A, F, W>>), OpenError>
        ensures settings { IfOk result
            (λ opened. opened.0.opening
            ≡ ⟦<ConfigOf<A, F> as Configured>⟧.settings config) }
        ensures admits { IfOk result
            (λ opened. (r : _) → admits F.answer opened.0.filters r
            ≡ ⟦<ConfigOf<A, F> as Configured>⟧.admits config r) }
        ensures swaps { IfOk result (λ opened. opened.0.swaps ≡ []) }
        ensures sessions { IfOk result
            (λ opened. opened.1.items ≡ replicate sessions (newcomer opened.0)) }
    {
        let mut publisher = PublisherOf::begin(rt, alloc, config, sessions)?;
        match publisher.sessions(sessions) {
            Ok(made) => Ok((publisher, made)),
            Err(e) => {
                publisher.end();
                Err(e)
            }
        }
    }

    /// Creates a publisher of this configuration without sessions.
    fn begin(
        rt: W,
        alloc: Global,
        config: ConfigOf<A, F>,
        sessions: u8,
    ) -> Result<PublisherOf<A, F, W>, OutOfMemory>
        ensures settings { IfOk result
            (λ p. p.opening
            ≡ ⟦<ConfigOf<A, F> as Configured>⟧.settings config) }
        ensures admits { IfOk result
            (λ p. (r : _) → admits F.answer p.filters r
            ≡ ⟦<ConfigOf<A, F> as Configured>⟧.admits config r) }
        ensures swaps { IfOk result (λ p. p.swaps ≡ []) }
    {
        let shared = Arc::new(alloc, config.locked(alloc)?)?;
        let writer = writer_of(&rt, alloc, &*shared, sessions)?;
        Ok(PublisherOf {
            rt,
            alloc,
            writer,
            shared,
        })
    }
}
