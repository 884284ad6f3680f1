//! How each of `left_right`'s two copies applies a swap, and the invariant that readers rely on.

ghost use Rattle.std.specs.Prelude.{◌≡◌, None, Some, MatchOption};
ghost use Rattle.std.specs.List.{last_or};
ghost use Rattle.log4rs_threads.specs.Rule.{Holds, LearnsOpening, Looks, newcomer};
ghost use Rattle.log4rs_threads.specs.Shows.{IsOf, after, shown};

use crate::publish::history::Told;
use crate::publish::published::{Published, PublishedSwap, Shown, View};
use atomic_table::{Join, Split};
use crossbeam_utils::rule::{Outcome, Protocol};
use left_right::Absorb;
use log4rs_config::RoutedLists;
use std::alloc::AllocError;

impl Published {
    /// The last swap.
    pub(crate) fn lists(&self) -> Option<&RoutedLists>
        ensures last { MatchOption result (last_or None (shown self.now).told.swaps ≡ None)
            (λ lists. last_or None (shown self.now).told.swaps ≡ Some lists.now) }
        ensures names { IsOf (shown self.now).opening (shown self.now).told
            → MatchOption result (Unit {0})
            (λ lists. lists.now.appenders ≡ (shown self.now).opening.names) }
    {
        match &self.latest {
            None => None,
            Some(published_swap) => Some(&*published_swap.lists),
        }
    }

    /// The history up to it.
    pub(crate) fn told(&self) -> Told<RoutedLists>
        ensures { result ≡ (shown self.now).told }
    {
        match &self.latest {
            None => self.opening.began.again(),
            Some(published_swap) => published_swap.told.again(),
        }
    }
}

impl Absorb<Option<PublishedSwap>> for Published {
    type State = Shown;

    ghost state = { shown };

    ghost applied = { after };

    fn absorb_first(
        &mut self,
        operation: &Option<PublishedSwap>,
        _other: &Published,
    ) -> Result<(), AllocError> {
        if let Some(published_swap) = operation {
            self.latest = Some(published_swap.again()?);
        }
        Ok(())
    }

    fn absorb_second(
        &mut self,
        operation: Option<PublishedSwap>,
        _other: &Published,
    ) -> Result<(), Option<PublishedSwap>> {
        if let Some(published_swap) = operation {
            self.latest = Some(published_swap);
        }
        Ok(())
    }
}

/// The invariant: what readers know stays true.
pub struct PublishedRule;

impl Protocol<Published, View> for PublishedRule {
    ghost holds = { Holds };

    ghost first = { newcomer };
}

/// A reader looks at what is published.
pub(crate) struct Sees;

impl Outcome<Published, View> for Sees {
    ghost then = { Looks };
}

/// Something new is shown.
pub(crate) struct Shows;

impl Outcome<Published, View> for Shows {
    ghost then = { λ v p q w. w ≡ v };
}

/// What is shown is shown once more, and its opening is learned.
pub(crate) struct Opens;

impl Outcome<Published, View> for Opens {
    ghost then = { LearnsOpening };
}

/// What one knows is handed to another.
pub(crate) struct Hands;

impl Split<View> for Hands {
    ghost left = { λ v. v };

    ghost right = { λ v. v };
}

impl Join<View> for Hands {
    ghost use Rattle.log4rs_threads.specs.Rule.{newcomer, taught};

    ghost both = { taught };

    ghost spent = { newcomer };
}
