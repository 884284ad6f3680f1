//! The history of swaps, which the publisher writes, and tokens of its beginnings.

ghost use Rattle.std.specs.Prelude.{◌≡◌, ◌<◌, ◌≤◌, ◌+◌, ◌^◌, ◌++◌, ◌↔◌, [], ◌∷◌, IfSome, IsTrue, length};
ghost use Rattle.log4rs_threads.specs.Entries.{head_of};
ghost use Rattle.log4rs_threads.specs.Swaps.{StartsWith};
ghost use Rattle.logbook.specs.Pages.{may_write};

use crate::publish::law::{
    AddsFirst, AddsNext, Asks, FindsAll, GivesPen, Item, Law, NoTrade, Opens, Publishes,
};
use logbook::{Offer, Pen, Seen, Start, Word};
use std::marker::Model;
use std::snapshot::Snapshot;
use std::sync::Wait;

/// The swaps published up to some moment. A ghost value: it has no bytes.
#[derive(Drop)]
pub struct Told<L> {
    swaps: u64,
    seen: Seen<Item<L>, u64, Law>,
}

impl<L> Model for Told<L> {
    ghost use Rattle.log4rs_threads.specs.Entries.{IsCounted, published};
    ghost use Rattle.log4rs_threads.specs.Swaps.{Tidings};

    ghost Value = { Tidings L };

    ghost view = { λ t. record { swaps = published t.seen.log; book = t.seen.book } };

    ghost invariant = { λ t. IsCounted t.swaps t.seen.log };
}

/// The whole history, and the right to extend it.
#[derive(Drop)]
pub struct History<L> {
    swaps: u64,
    head: Word<Item<L>, u64, Law>,
    seen: Seen<Item<L>, u64, Law>,
    pen: Pen,
}

impl<L> Model for History<L> {
    ghost use Rattle.std.specs.Prelude.{◌≡◌};
    ghost use Rattle.log4rs_threads.specs.Entries.{EndsBy, IsCounted, head_of, published};
    ghost use Rattle.log4rs_threads.specs.Swaps.{Tidings};
    ghost use Rattle.logbook.specs.Pages.{may_write};

    ghost Value = { Tidings L };

    ghost view = { λ h. record { swaps = published h.seen.log; book = h.seen.book } };

    ghost invariant = { λ h. IsCounted h.swaps h.seen.log
        × (h.head ≡ head_of h.seen.book)
        × (h.pen.book ≡ h.seen.book)
        × (h.pen.nib.right ≡ may_write)
        × EndsBy h.pen.nib.key h.seen.log };
}

/// Returns the right to add an entry, once another entry names it.
fn pen_by<L>(head: &Word<Item<L>, u64, Law>, seen: &Seen<Item<L>, u64, Law>) -> Pen
    requires { head.now ≡ head_of seen.now.book }
    ensures { (result.book ≡ seen.now.book) × (result.nib.right ≡ may_write) }
{
    let mut seen = seen.again();
    let mut offer: Offer<Item<L>, u64, Law, NoTrade> = seen.plain::<NoTrade, (), Asks>(&());
    let mut pen = seen.no_pen();
    head.compare_exchange::<GivesPen, NoTrade>(0, 0, &mut seen, &mut offer, &mut pen);
    let word: Word<Item<L>, u64, Law> = Word::tracked(0, &mut pen);
    drop(word);
    pen
}

/// Returns a history in which nothing was published.
fn opened<L>() -> Option<History<L>>
    ensures { IfSome result (λ history. history.swaps ≡ []) }
{
    let (mut seen, mut first, mut second) = Seen::open(Start::alone(), 0, 0);
    let head: Word<Item<L>, u64, Law> = Word::tracked(0, &mut first);
    let begun: Word<Item<L>, u64, Law> = Word::tracked(0, &mut second);
    let pen = pen_by(&head, &seen);
    let about = Snapshot::of(&pen);
    let mut offer: Offer<Item<L>, u64, Law, NoTrade> = seen.plain::<NoTrade, Snapshot<Pen>, Opens>(
        &about,
    );
    let mut none = seen.no_pen();
    let found = begun.compare_exchange::<AddsFirst, NoTrade>(
        0, 1, &mut seen, &mut offer, &mut none,
    );
    if found != 0 {
        return None;
    }
    Some(History {
        swaps: 0,
        head,
        seen,
        pen,
    })
}

impl<L> History<L> {
    /// Returns a history in which nothing was published. Never waits, although its bound allows it.
    pub fn new<R: Wait>(rt: &R) -> History<L>
        ensures { result.swaps ≡ [] }
    {
        for _ in rt.forever() {
            if let Some(history) = opened() {
                return history;
            }
        }
        unreachable!()
    }

    /// Returns whether one more swap can be counted.
    pub fn has_room(&self) -> bool
        ensures { IsTrue result ↔ (length self.now.swaps + 1 < 2 ^ 64) }
    {
        self.swaps < u64::MAX
    }

    /// Records a swap.
    pub fn publish(&mut self, lists: &L)
        requires { length self.old.swaps + 1 < 2 ^ 64 }
        ensures { self.new ≡ record self.old { swaps = self.old.swaps ++ lists.now ∷ [] } }
    {
        let next = pen_by(&self.head, &self.seen);
        let about = (Snapshot::of(lists), Snapshot::of(&next));
        let mut offer: Offer<Item<L>, u64, Law, NoTrade> = self
            .seen
            .plain::<NoTrade, (Snapshot<L>, Snapshot<Pen>), Publishes>(&about);
        let next_count = self.swaps + 1;
        self.head.compare_exchange::<AddsNext, NoTrade>(
            self.swaps,
            next_count,
            &mut self.seen,
            &mut offer,
            &mut self.pen,
        );
        self.pen = next;
        self.swaps = next_count;
    }

    /// Proves that `told` is a beginning of the history.
    pub fn confirm(&mut self, told: &Told<L>)
        requires { told.now.book ≡ self.old.book }
        ensures begins { StartsWith self.old.swaps told.now.swaps }
        ensures same { self.new ≡ self.old }
    {
        let mut all = self.seen.again();
        all.learn(&told.seen);
        let mut offer: Offer<Item<L>, u64, Law, NoTrade> = all.plain::<NoTrade, (), Asks>(&());
        self.head
            .compare_exchange::<FindsAll, NoTrade>(0, 0, &mut all, &mut offer, &mut self.pen);
    }

    /// Returns the history so far.
    pub fn told(&self) -> Told<L>
        ensures { result ≡ self.now }
    {
        Told {
            swaps: self.swaps,
            seen: self.seen.again(),
        }
    }
}

impl<L> Told<L> {
    /// Returns a copy.
    pub fn again(&self) -> Told<L>
        ensures { result ≡ self.now }
    {
        Told {
            swaps: self.swaps,
            seen: self.seen.again(),
        }
    }

    /// Returns whether nothing has been published yet.
    pub fn is_empty(&self) -> bool
        ensures { IsTrue result ↔ (self.now.swaps ≡ []) }
    {
        self.swaps == 0
    }

    /// Returns the number of swaps.
    pub fn swaps(&self) -> u64
        ensures { result ≡ length self.now.swaps }
    {
        self.swaps
    }

    /// Returns whether this is a beginning of another. Of two of one history, one is.
    pub fn begins(&self, other: &Told<L>) -> bool
        requires { other.now.book ≡ self.now.book }
        ensures { IsTrue result → StartsWith other.now.swaps self.now.swaps }
    {
        let mut both = self.seen.again();
        both.learn(&other.seen);
        self.swaps <= other.swaps
    }

    /// Returns the longer of two; the other is a beginning of it.
    pub fn longer(&self, other: Told<L>) -> Told<L>
        requires { other.book ≡ self.now.book }
        ensures book { result.book ≡ self.now.book }
        ensures this { StartsWith result.swaps self.now.swaps }
        ensures that { StartsWith result.swaps other.swaps }
    {
        let mut both = self.seen.again();
        both.learn(&other.seen);
        if self.swaps < other.swaps {
            other
        } else {
            self.again()
        }
    }
}
