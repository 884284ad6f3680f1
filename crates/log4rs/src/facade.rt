//! The logger behind the macros of `log`.

ghost use Rattle.std.specs.Prelude.{◌≡◌, [], IfOk, IfSome, Some, false};
ghost use Rattle.log.specs.Record.{metadata_level, metadata_target, record_key_values};
ghost use Rattle.log.specs.Record.{record_metadata, record_spans};
ghost use Rattle.log4rs.specs.Event.{IsFrom, Says};
ghost use Rattle.log4rs.specs.Fields.{HoldsLast, all_fields};

use crate::backend::Backend;
use crate::event::{fill_context, fill_record};
use crate::origin::Origin;
use crate::room::{Room, empty};
use jiff::Timestamp;
use log::kv::Source;
use log::span::Spans;
use log::{Level, Log, Metadata};
use log4rs_base::{Entry, OutOfMemory};
use log4rs_threads::{Draft, Fill};
use std::alloc::Global;
use std::fmt::Display;
use std::fs::Files;
use std::rt::Clock;

/// Returns the moment of a clock, or the beginning of 1970 if it cannot be read.
pub(crate) fn now<C: Clock>(clock: &C) -> Timestamp {
    Timestamp::now(clock).unwrap_or(Timestamp::UNIX_EPOCH)
}

/// Passes what the macros of `log` log to a logger of log4rs: each record at the moment of the
/// clock, with its origin. `Logged::new(rt, LevelFilter::Trace, facade)` is the runtime that a
/// program then hands on.
#[derive(Clone, Drop)]
pub struct Facade<'z, L, C> {
    /// The allocator.
    pub alloc: Global,
    /// The logger that gets the records.
    pub logger: L,
    /// The clock of the records.
    pub clock: C,
    /// The origin of the records.
    pub origin: Origin<'z>,
    room: Room<'z>,
}

impl<'z, L: Backend, C: Clock> Facade<'z, L, C> {
    /// Creates a facade of a logger.
    pub fn new(alloc: Global, logger: L, clock: C, origin: Origin<'z>) -> Facade<'z, L, C>
        ensures alloc { result.alloc ≡ alloc }
        ensures logger { result.logger ≡ logger }
        ensures clock { result.clock ≡ clock }
        ensures origin { result.origin ≡ origin.entry }
    {
        Facade {
            alloc,
            logger,
            clock,
            origin,
            room: Room::new(alloc),
        }
    }

    /// Returns the same facade with another origin.
    pub fn with_origin(self, origin: Origin<'z>) -> Facade<'z, L, C>
        ensures { result ≡ record self.entry { origin = origin.entry } }
    {
        Facade { origin, ..self }
    }

    /// Returns a facade for the calling thread, over the same logger and clock and in the same
    /// zone. Its origin is the thread that the system reports, by [`Origin::here`].
    pub fn here<X: Files>(&self, rt: &X) -> Result<Facade<'z, &L, &C>, OutOfMemory>
        ensures parts { IfOk result (λ made. (made.logger.now ≡ self.now.logger)
            × (made.clock.now ≡ self.now.clock)) }
        ensures zone { IfOk result (λ made. made.origin.zone ≡ self.now.origin.zone) }
    {
        let origin = Origin::here(rt, self.alloc, self.origin.zone)?;
        Ok(Facade::new(self.alloc, &self.logger, &self.clock, origin))
    }
}

impl<'z, L: Backend, C> Facade<'z, L, C> {
    /// Hands an event to the logger, and a draft of its entry in the facade's zone.
    fn pass<E: Fill>(&self, draft: &mut Draft<'z>, event: &E) {
        draft.entry.context.zone = self.origin.zone;
        self.logger.accept_event(draft, event);
    }

    /// Hands an event to the logger while the room is in use, with a draft of its own.
    fn pass_apart<E: Fill>(&self, event: &E) {
        self.pass(&mut empty(self.alloc), event);
    }
}

/// An event, and the facade that logs it.
#[derive(Drop)]
struct Told<'a, 'z, L, C, E> {
    facade: &'a Facade<'z, L, C>,
    event: &'a E,
}

impl<L, C: Clock, D: Display, K: Source, S: Spans> Fill
    for Told<'_, '_, L, C, log::Record<'_, D, K, S>> {
    ghost level = { λ told. metadata_level (record_metadata told.event.now) };

    ghost target = { λ told. metadata_target (record_metadata told.event.now) };

    ghost fills = { λ told old entry. Says D.output told.event.now entry.logged
        × IsFrom (record told.facade.now.origin { zone = old.context.zone }) entry.context
        × IfSome (all_fields (S.scopes (record_spans told.event.now))
        (K.pairs (record_key_values told.event.now)))
        (λ fields. HoldsLast fields entry.context.mdc) };

    fn level(&self) -> Level {
        self.event.level()
    }

    fn target(&self) -> &str {
        self.event.target()
    }

    fn fill(&self, entry: &mut Entry<'_>) -> Result<(), OutOfMemory> {
        let Facade {
            alloc,
            clock,
            origin,
            ..
        } = self.facade;
        fill_record(*alloc, &mut entry.logged, self.event)?;
        fill_context(*alloc, &mut entry.context, origin, now(clock), self.event)
    }
}

/// A record that the logger does not log allocates nothing; nor does one that it logs, once the facade
/// has had one with texts as long, unless that is being logged still. If an allocation fails, the
/// logger gets `LogError::Memory`, and the record is dropped.
impl<'z, L: Backend, C: Clock> Log for Facade<'z, L, C> {
    ghost enables = { λ f level target. L.enables f.logger level target };

    ghost target_of = { λ _. Some [] };

    fn enabled(&self, metadata: &Metadata<'_>) -> bool {
        self.logger.enabled(metadata.level(), metadata.target())
    }

    fn log<D: Display, K: Source, S: Spans>(&self, event: &log::Record<'_, D, K, S>) {
        let told = Told {
            facade: self,
            event,
        };
        match self.room.enter() {
            Some(mut room) => self.pass(&mut *room, &told),
            None => self.pass_apart(&told),
        }
    }

    fn flush(&self) {
        self.logger.flush();
    }

    fn target(&self) -> &str {
        ""
    }
}
