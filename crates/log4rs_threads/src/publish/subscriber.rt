//! The reading side of a `Publisher`.

ghost use Rattle.std.specs.Prelude.{◌≡◌, None, Some, MatchOption, MatchResult, length};
ghost use Rattle.std.specs.List.{last_or};
ghost use Rattle.log4rs_threads.specs.Swaps.{StartsWith};

use crate::publish::history::Told;
use crate::publish::published::{Opening, Published, View};
use crate::publish::rule::{PublishedRule, Sees};
use left_right::reader::{Reader, Reading};
use log4rs_config::RoutedLists;
use std::marker::Model;
use std::sync::{Arc, Wait};

pub(crate) type PublishedReader = Reader<Published, View, PublishedRule>;

/// A reader between two readings: the last swap that it saw, and what it was told.
#[derive(Drop)]
pub struct Subscriber {
    pub(crate) reader: PublishedReader,
    pub(crate) seen: Told<RoutedLists>,
    pub(crate) told: Told<RoutedLists>,
    pub(crate) opening: Arc<Opening>,
}

impl Model for Subscriber {
    ghost use Rattle.std.specs.Prelude.{◌≡◌, Some};
    ghost use Rattle.std.specs.Arc.{arc_value};
    ghost use Rattle.left_right.specs.Sides.{view as view_of};
    ghost use Rattle.log4rs_threads.specs.Known.{Known};
    ghost use Rattle.log4rs_threads.specs.declared.publish.published.Published.{Published};
    ghost use Rattle.log4rs_threads.specs.declared.publish.published.View.{View};

    ghost Value = { Known };

    ghost view = { λ s. record {
      names = (arc_value s.opening).names;
      seen = s.seen.swaps;
      told = s.told.swaps;
      book = s.told.book;
    } };

    ghost invariant = { λ s.
        ((view_of {T = Published} {V = View} s.reader.place).opening ≡ Some (arc_value s.opening))
        × ((view_of {T = Published} {V = View} s.reader.place).seen ≡ s.seen.swaps)
        × (s.seen.book ≡ s.told.book)
        × ((arc_value s.opening).began.book ≡ s.told.book) };
}

/// A reader during a reading. It is not `Drop`: call `leave`.
pub struct SubscriberGuard {
    reading: Reading<Published, View, PublishedRule>,
    seen: Told<RoutedLists>,
    told: Told<RoutedLists>,
    opening: Arc<Opening>,
}

impl Model for SubscriberGuard {
    ghost use Rattle.std.specs.Prelude.{◌≡◌, Some};
    ghost use Rattle.std.specs.Arc.{arc_value};
    ghost use Rattle.left_right.specs.Sides.{view as view_of};
    ghost use Rattle.log4rs_threads.specs.Known.{Known};
    ghost use Rattle.log4rs_threads.specs.Shows.{IsOf, shown};
    ghost use Rattle.log4rs_threads.specs.declared.publish.published.Published.{Published};
    ghost use Rattle.log4rs_threads.specs.declared.publish.published.View.{View};

    ghost Value = { Known };

    ghost view = { λ l. record {
      names = (arc_value l.opening).names;
      seen = l.seen.swaps;
      told = l.told.swaps;
      book = l.told.book;
    } };

    ghost invariant = { λ l.
        ((view_of {T = Published} {V = View} l.reading.place).opening ≡ Some (arc_value l.opening))
        × ((view_of {T = Published} {V = View} l.reading.place).seen ≡ l.seen.swaps)
        × (l.seen.book ≡ l.told.book)
        × ((arc_value l.opening).began.book ≡ l.told.book)
        × ((shown l.reading.part.value).opening ≡ arc_value l.opening)
        × ((shown l.reading.part.value).told ≡ l.seen)
        × IsOf (arc_value l.opening) l.seen };
}

impl Subscriber {
    /// Takes in what the publisher told. Never waits.
    pub fn learn(&mut self, told: Told<RoutedLists>)
        requires { told.book ≡ self.old.book }
        ensures told { StartsWith self.new.told self.old.told }
        ensures more { StartsWith self.new.told told.swaps }
        ensures same { self.new ≡ record self.old { told = self.new.told } }
    {
        self.told = self.told.longer(told);
    }

    /// Reads what is published; all that was seen and told before is a beginning of that. Returns
    /// the reader if the publisher has ended. Waits only if it was told of a swap that it does not
    /// find, which never happens.
    pub fn enter<R: Wait>(self, rt: &R) -> Result<SubscriberGuard, Subscriber>
        ensures same { MatchResult result
            (λ guard. guard ≡ record self { seen = guard.seen })
            (λ closed. closed ≡ record self { seen = closed.seen }) }
        ensures seen { MatchResult result (λ guard. StartsWith guard.seen self.seen)
            (λ closed. StartsWith closed.seen self.seen) }
        ensures told { MatchResult result (λ guard. StartsWith guard.seen self.told)
            (λ _. Unit {0}) }
    {
        let Subscriber {
            mut reader,
            mut seen,
            told,
            opening,
        } = self;
        for _ in rt.forever() {
            let reading = match reader.enter_as::<Sees>() {
                Ok(reading) => reading,
                Err(reader) => {
                    return Err(Subscriber {
                        reader,
                        seen,
                        told,
                        opening,
                    });
                }
            };
            seen = reading.get().told();
            if told.begins(&seen) {
                return Ok(SubscriberGuard {
                    reading,
                    seen,
                    told,
                    opening,
                });
            }
            reader = reading.leave();
        }
        unreachable!()
    }
}

impl SubscriberGuard {
    /// Returns the lists of the last swap, if there was one.
    pub fn lists(&self) -> Option<&RoutedLists>
        ensures last { MatchOption result (last_or None self.now.seen ≡ None)
            (λ lists. last_or None self.now.seen ≡ Some lists.now) }
        ensures names { MatchOption result (Unit {0})
            (λ lists. lists.now.appenders ≡ self.now.names) }
    {
        self.reading.get().lists()
    }

    /// Returns the number of swaps so far.
    pub fn swaps(&self) -> u64
        ensures { result ≡ length self.now.seen }
    {
        self.seen.swaps()
    }

    /// Ends the reading.
    pub fn leave(self) -> Subscriber
        ensures { result ≡ self }
    {
        let SubscriberGuard {
            reading,
            seen,
            told,
            opening,
        } = self;
        Subscriber {
            reader: reading.leave(),
            seen,
            told,
            opening,
        }
    }
}
