//! The law of a history: one word counts its entries, and a step adds one.

use logbook::{Gain, Pen, Plain, Play, Rule};
use std::snapshot::Snapshot;

/// An entry of the history: what it publishes, or nothing for the opening, and the key that allows
/// the next entry.
pub type Item<L> = (Option<L>, u64);

/// The first word counts the entries after the opening; the second says whether there is an
/// opening. The key in each entry allows the next one.
pub struct Law;

impl<L> Rule<Item<L>, u64> for Law {
    ghost use Rattle.std.specs.Prelude.{[]};
    ghost use base.Fml.{ftrue};
    ghost use Rattle.log4rs_threads.specs.Entries.{IsKept};

    ghost holds = { λ cells log. IsKept cells log };

    ghost first = { [] };

    ghost hinted = { λ n log. Unit {0} };

    ghost shows = { λ log. [] };

    ghost keeps = { λ names log. ftrue };

    ghost moves = { λ ask before after answer. Unit {0} };
}

/// A step trades nothing.
pub(crate) struct NoTrade;

impl<L> Gain<Item<L>, u64> for NoTrade {
    ghost use base.Fml.{ftrue};

    ghost after = { λ names about answer. ftrue };
}

/// A step gives a pen.
pub(crate) struct GivesPen;

impl<L> Play<Item<L>, u64> for GivesPen {
    ghost use Rattle.log4rs_threads.specs.Entries.{Gives};

    ghost then = { Gives };
}

/// A step adds the first entry.
pub(crate) struct AddsFirst;

impl<L> Play<Item<L>, u64> for AddsFirst {
    ghost use Rattle.log4rs_threads.specs.Entries.{Begins};

    ghost then = { Begins };
}

/// A step adds an entry.
pub(crate) struct AddsNext;

impl<L> Play<Item<L>, u64> for AddsNext {
    ghost use Rattle.log4rs_threads.specs.Entries.{Adds};

    ghost then = { Adds };
}

/// A step finds that nothing was added.
pub(crate) struct FindsAll;

impl<L> Play<Item<L>, u64> for FindsAll {
    ghost use Rattle.log4rs_threads.specs.Entries.{Finds};

    ghost then = { Finds };
}

/// No entry.
pub(crate) struct Asks;

impl<L> Plain<(), Item<L>, u64> for Asks {
    ghost use Rattle.std.specs.Prelude.{None};

    ghost ask = { λ n. (None, 0) };

    ghost state = { λ n. None };
}

/// The entry opens the history.
pub(crate) struct Opens;

impl<L> Plain<Snapshot<Pen>, Item<L>, u64> for Opens {
    ghost use Rattle.std.specs.Prelude.{None};

    ghost ask = { λ pen. (None, pen.value.nib.key) };

    ghost state = { λ pen. None };
}

/// The entry publishes lists.
pub(crate) struct Publishes;

impl<L> Plain<(Snapshot<L>, Snapshot<Pen>), Item<L>, u64> for Publishes {
    ghost use Rattle.std.specs.Prelude.{None, Some};

    ghost ask = { λ about. (Some about.0.value, about.1.value.nib.key) };

    ghost state = { λ about. None };
}
