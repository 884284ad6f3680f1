//! The value behind `left_right`: the opening and the last swap.

ghost use Rattle.std.specs.Prelude.{◌≡◌, [], None, Some, IfOk};
ghost use Rattle.std.specs.Arc.{arc_value};
ghost use Rattle.std.specs.List.{last_or};

use crate::publish::history::Told;
use log4rs_config::{AppenderNames, RoutedLists};
use std::alloc::AllocError;
use std::collections::LinkedList;
use std::sync::Arc;

/// The names of the appenders, and the history before anything was published.
#[derive(Drop)]
pub struct Opening {
    pub(crate) names: AppenderNames,
    pub(crate) began: Told<RoutedLists>,
    ghost nothing: { began.swaps ≡ [] },
}

/// The lists of a swap, and the history up to it.
#[derive(Drop)]
pub struct PublishedSwap {
    pub(crate) lists: Arc<RoutedLists>,
    pub(crate) told: Told<RoutedLists>,
    ghost last: { last_or None told.swaps ≡ Some (arc_value lists) },
}

impl PublishedSwap {
    /// Returns the same swap, shared. Allocates nothing.
    pub(crate) fn again(&self) -> Result<PublishedSwap, AllocError>
        ensures { IfOk result (λ published_swap. published_swap.told ≡ self.now.told) }
    {
        Ok(PublishedSwap {
            lists: Arc::try_clone(&self.lists)?,
            told: self.told.again(),
        })
    }
}

/// The opening, and the last swap, if there was one.
#[derive(Drop)]
pub struct Published {
    pub(crate) opening: Arc<Opening>,
    pub(crate) latest: Option<PublishedSwap>,
}

/// The state that both copies of `left_right` share: the opening, and the history so far. A ghost
/// type.
pub struct Shown {
    /// The opening.
    pub opening: Opening,
    /// The history so far.
    pub told: Told<RoutedLists>,
}

/// What a reader knows: the opening, if it knows it, and the swaps that it saw. A ghost type.
pub struct View {
    /// The opening, if the reader knows it.
    pub opening: Option<Opening>,
    /// The swaps that it saw.
    pub seen: LinkedList<RoutedLists>,
}
