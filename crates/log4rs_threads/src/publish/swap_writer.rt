//! The writing side of a `Publisher`: records a swap in the history, then publishes it.

ghost use Rattle.std.specs.Prelude.{◌≡◌, ◌<◌, ◌+◌, ◌^◌, ◌++◌, ◌↔◌, [], ◌∷◌, None, Some, IfErr, IfOk, MatchResult, drop, length};
ghost use Rattle.std.specs.Arc.{arc_value};
ghost use Rattle.left_right.specs.Sides.{view};
ghost use Rattle.log4rs_threads.specs.Shows.{shown, with_told};
ghost use Rattle.log4rs_threads.specs.Swaps.{StartsWith};
ghost use Rattle.log4rs_threads.specs.declared.publish.swap_writer.Unpublished.TheVariants.{Full};

use crate::publish::history::{History, Told};
use crate::publish::published::{Opening, Published, PublishedSwap, View};
use crate::publish::rule::{Hands, Opens, PublishedRule, Shows};
use crate::publish::subscriber::{PublishedReader, Subscriber};
use left_right::writer::Writer;
use log4rs_base::OutOfMemory;
use log4rs_config::{AppenderNames, RoutedLists};
use std::alloc::{AllocError, Global};
use std::marker::Model;
use std::mem::replace;
use std::sync::{Arc, Wait};

pub(crate) type PublishedWriter = Writer<Published, Option<PublishedSwap>, View, PublishedRule>;

/// Errors of publishing lists.
#[derive(Drop)]
pub enum Unpublished {
    /// An allocation failed.
    Memory,
    /// The history has 18446744073709551615 swaps, the most that it counts.
    Full,
}

/// Errors of creating a reader.
#[derive(Drop)]
pub enum NoSubscriber {
    /// An allocation failed.
    Memory,
    /// All reader slots are taken.
    Taken,
}

/// Queues a swap for the copy that readers do not see yet. The queue has had room since the
/// opening, so the first try succeeds.
fn append_by<R: Wait>(rt: &R, writer: &mut PublishedWriter, published_swap: Option<PublishedSwap>)
    ensures desk { writer.new.desk ≡ writer.old.desk }
    ensures pending { drop writer.new.behind writer.new.log.items
        ≡ drop writer.old.behind writer.old.log.items ++ published_swap ∷ [] }
{
    let mut published_swap = published_swap;
    for _ in rt.forever() {
        match writer.append(published_swap) {
            Ok(()) => return,
            Err(back) => published_swap = back,
        }
    }
    unreachable!()
}

/// Publishes a swap. Waits for readers that still read the copy published before the last one.
/// Cannot fail: sharing a swap allocates nothing, so the first try succeeds.
fn publish_by<R: Wait>(
    rt: &R,
    writer: PublishedWriter,
    published_swap: PublishedSwap,
) -> PublishedWriter
    requires book { published_swap.told.book ≡ (shown writer.desk.shown.value).opening.began.book }
    requires names { (arc_value published_swap.lists).appenders
        ≡ (shown writer.desk.shown.value).opening.names }
    requires more { StartsWith published_swap.told.swaps
        (shown writer.desk.shown.value).told.swaps }
    ensures shown { shown result.desk.shown.value
        ≡ with_told (shown writer.desk.shown.value) published_swap.told }
    ensures view { view result.desk.place ≡ view writer.desk.place }
{
    let mut writer = writer;
    append_by(rt, &mut writer, Some(published_swap));
    for _ in rt.forever() {
        let (after, shown) = writer.publish_as::<Shows, R>(rt);
        if let Ok(()) = shown {
            return after;
        }
        writer = after;
    }
    unreachable!()
}

/// Creates a writer that has learned the opening, since it has published it once more, and whose
/// queue has room.
fn open_by<R: Wait>(
    rt: &R,
    alloc: Global,
    opening: &Arc<Opening>,
    readers: usize,
) -> Result<PublishedWriter, AllocError>
    requires { (0 < readers) × (readers < 2 ^ 32) }
    ensures { IfOk result (λ w. (shown w.desk.shown.value
        ≡ record { opening = arc_value opening.now; told = (arc_value opening.now).began })
        × (view w.desk.place ≡ record { opening = Some (arc_value opening.now); seen = [] })) }
{
    let first = Published {
        opening: Arc::try_clone(opening)?,
        latest: None,
    };
    let second = Published {
        opening: Arc::try_clone(opening)?,
        latest: None,
    };
    let mut writer: PublishedWriter = Writer::new(alloc, first, second, readers)?;
    let Ok(()) = writer.append(None) else {
        drop(writer.take(rt));
        return Err(AllocError);
    };
    let (writer, shown) = writer.publish_as::<Opens, R>(rt);
    match shown {
        Ok(()) => Ok(writer),
        Err(e) => {
            drop(writer.take(rt));
            Err(e)
        }
    }
}

/// Records lists in the history, and returns them with it.
fn published_swap_of(history: &mut History<RoutedLists>, lists: Arc<RoutedLists>) -> PublishedSwap
    requires { length history.old.swaps + 1 < 2 ^ 64 }
    ensures lists { result.lists ≡ lists }
    ensures told { result.told ≡ record history.old {
      swaps = history.old.swaps ++ arc_value lists ∷ [];
    } }
    ensures history { history.new ≡ result.told }
{
    history.publish(&*lists);
    PublishedSwap {
        told: history.told(),
        lists,
    }
}

/// Publishes lists over appenders of the same names. It is not `Drop`: call `end`.
pub struct SwapWriter {
    /// `Some` between calls.
    writer: Option<PublishedWriter>,
    opening: Arc<Opening>,
    history: History<RoutedLists>,
}

impl Model for SwapWriter {
    ghost use Rattle.std.specs.Prelude.{◌≡◌, [], Some, IsSomeAnd};
    ghost use Rattle.std.specs.Arc.{arc_value};
    ghost use Rattle.left_right.specs.Sides.{view as view_of};
    ghost use Rattle.log4rs_threads.specs.Known.{Issued};
    ghost use Rattle.log4rs_threads.specs.Shows.{shown};
    ghost use Rattle.log4rs_threads.specs.declared.publish.published.Published.{Published};
    ghost use Rattle.log4rs_threads.specs.declared.publish.published.View.{View};

    ghost Value = { Issued };

    ghost view = { λ p. record {
      names = (arc_value p.opening).names;
      swaps = p.history.swaps;
      book = p.history.book;
    } };

    ghost invariant = { λ p.
        ((arc_value p.opening).began.book ≡ p.history.book)
        × IsSomeAnd p.writer (λ w.
        ((shown w.desk.shown.value).opening ≡ arc_value p.opening)
        × ((shown w.desk.shown.value).told ≡ p.history)
        × (view_of {T = Published} {V = View} w.desk.place
        ≡ record { opening = Some (arc_value p.opening); seen = [] })) };
}

impl SwapWriter {
    /// Begins with nothing published, over appenders of these names, for this many readers. Never
    /// waits, although its bound allows it.
    pub fn open<R: Wait>(
        rt: &R,
        alloc: Global,
        names: AppenderNames,
        readers: usize,
    ) -> Result<SwapWriter, OutOfMemory>
        requires { (0 < readers) × (readers < 2 ^ 32) }
        ensures names { IfOk result (λ writer. writer.names ≡ names) }
        ensures swaps { IfOk result (λ writer. writer.swaps ≡ []) }
    {
        let history = History::new(rt);
        let began = history.told();
        let opening = Arc::new(alloc, Opening { names, began })?;
        let writer = open_by(rt, alloc, &opening, readers)?;
        Ok(SwapWriter {
            writer: Some(writer),
            opening,
            history,
        })
    }

    /// Returns the names of the appenders.
    pub fn names(&self) -> &AppenderNames
        ensures { result.now ≡ self.now.names }
    {
        &self.opening.names
    }

    /// Creates a reader that knows all that was published so far. Never waits.
    pub fn subscriber(&mut self) -> Result<Subscriber, NoSubscriber>
        ensures known { IfOk result (λ subscriber. subscriber ≡ record {
          names = self.old.names;
          seen = [];
          told = self.old.swaps;
          book = self.old.book;
        }) }
        ensures same { self.new ≡ self.old }
    {
        let Ok(opening) = Arc::try_clone(&self.opening) else {
            return Err(NoSubscriber::Memory);
        };
        let seen = opening.began.again();
        let told = self.history.told();
        let writer = self.writer.as_mut().unwrap();
        let Ok(reader) = reader_of(writer) else {
            return Err(NoSubscriber::Taken);
        };
        Ok(Subscriber {
            reader,
            seen,
            told,
            opening,
        })
    }

    /// Returns the history so far. Never waits and allocates nothing.
    pub fn tell(&self) -> Told<RoutedLists>
        ensures { result ≡ record { swaps = self.now.swaps; book = self.now.book } }
    {
        self.history.told()
    }

    /// Returns how many swaps a reader has not seen yet. What it saw and what it was told are
    /// beginnings of the history. Never waits and allocates nothing.
    pub fn behind(&mut self, subscriber: &Subscriber) -> u64
        requires { subscriber.now.book ≡ self.old.book }
        ensures seen { StartsWith self.old.swaps subscriber.now.seen }
        ensures told { StartsWith self.old.swaps subscriber.now.told }
        ensures unseen { result + length subscriber.now.seen ≡ length self.old.swaps }
        ensures same { self.new ≡ self.old }
    {
        self.history.confirm(&subscriber.seen);
        self.history.confirm(&subscriber.told);
        self.history.told().swaps() - subscriber.seen.swaps()
    }

    /// Publishes lists. Waits for readers that still read the copy published before the last swap.
    /// If it fails, nothing is published.
    pub fn swap<R: Wait>(
        &mut self,
        rt: &R,
        alloc: Global,
        lists: RoutedLists,
    ) -> Result<(), Unpublished>
        requires { lists.appenders ≡ self.old.names }
        ensures list { MatchResult result (λ _. self.new.swaps ≡ self.old.swaps ++ lists ∷ [])
            (λ _. self.new.swaps ≡ self.old.swaps) }
        ensures same { self.new ≡ record self.old { swaps = self.new.swaps } }
        ensures full { IfErr result (λ e. (e ≡ Full) ↔ (length self.old.swaps + 1 ≡ 2 ^ 64)) }
    {
        if !self.history.has_room() {
            return Err(Unpublished::Full);
        }
        let Ok(lists) = Arc::new(alloc, lists) else {
            return Err(Unpublished::Memory);
        };
        let writer = self.writer.take().unwrap();
        let published_swap = published_swap_of(&mut self.history, lists);
        let writer = publish_by(rt, writer, published_swap);
        if let Some(old) = replace(&mut self.writer, Some(writer)) {
            drop(old.take(rt));
        }
        Ok(())
    }

    /// Ends the publishing. Waits for readers that still read.
    pub fn end<R: Wait>(self, rt: &R) {
        let SwapWriter {
            writer,
            opening: _opening,
            history: _history,
        } = self;
        if let Some(writer) = writer {
            drop(writer.take(rt));
        }
    }
}

/// Creates a reader that knows what the writer knows.
fn reader_of(writer: &mut PublishedWriter) -> Result<PublishedReader, AllocError>
    ensures writer { (writer.new.desk.shown.value ≡ writer.old.desk.shown.value)
        × (view writer.new.desk.place ≡ view writer.old.desk.place) }
    ensures reader { IfOk result (λ reader. view reader.place
        ≡ record { opening = (view writer.old.desk.place).opening; seen = [] }) }
{
    let mut reader = writer.factory().reader()?;
    reader.learn::<Hands>(writer.tell::<Hands>());
    Ok(reader)
}
