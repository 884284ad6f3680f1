//! Filters of appenders.

ghost use Rattle.std.specs.Prelude.{◌≡◌};
ghost use Rattle.log4rs_base.specs.declared.record.Record.{Record as RecordData};
ghost use Rattle.log4rs_base.specs.declared.filter.Response.{Response as ResponseData};
ghost use Rattle.log4rs_base.specs.Filtering.{passes as passes_all};

use crate::record::Record;
use log::LevelFilter;

/// The decision of a filter on a record.
#[derive(Clone, Copy, PartialEq, Debug)]
pub enum Response {
    /// The record passes; no later filter is called.
    Accept,
    /// The next filter decides. Behind the last one, the record passes.
    Neutral,
    /// The record does not pass; no later filter is called.
    Reject,
}

/// Decides whether a record passes. The decision is a function of the filter's value and the
/// record: a filter keeps no count and reads no clock.
pub trait Filter {
    /// Its decision on each record.
    ghost answer: { Self → RecordData → ResponseData };

    /// Returns the decision on a record.
    fn filter(&self, record: &Record) -> Response
        ensures { result ≡ answer self.now «record».now };
}

/// Rejects records that are more verbose than its level, and is neutral about others.
#[derive(Clone, Copy, PartialEq, Eq, Hash, Debug)]
pub struct ThresholdFilter {
    level: LevelFilter,
}

impl ThresholdFilter {
    ghost use Rattle.log4rs_base.specs.Filtering.{threshold_answer};

    /// Creates the filter of a level.
    pub fn new(level: LevelFilter) -> ThresholdFilter
        ensures { (r : _) → ⟦<ThresholdFilter as Filter>⟧.answer result r
            ≡ threshold_answer level r.level }
    {
        ThresholdFilter { level }
    }
}

impl Filter for ThresholdFilter {
    ghost use Rattle.log4rs_base.specs.Filtering.{threshold_answer};

    ghost answer = { λ f r. threshold_answer f.level r.level };

    fn filter(&self, record: &Record) -> Response {
        if self.level.allows(record.level) {
            Response::Neutral
        } else {
            Response::Reject
        }
    }
}

impl Filter for Box<dyn Filter + Send + Sync + Drop> {
    ghost answer = { λ b r. (Filter-box b).answer b.value r };

    fn filter(&self, record: &Record) -> Response {
        (**self).filter(record)
    }
}

/// A filter of this crate, or a `C` of the caller's.
#[derive(Drop)]
pub enum FilterOf<C> {
    /// Filters by a level.
    Threshold(ThresholdFilter),
    /// The caller's filter.
    Custom(C),
}

/// A filter of this crate, or a boxed one of the caller's.
pub type AnyFilter = FilterOf<Box<dyn Filter + Send + Sync + Drop>>;

impl<C: Filter> Filter for FilterOf<C> {
    ghost use Rattle.log4rs_base.specs.Filtering.{answer_of};

    ghost answer = { answer_of C.answer };

    fn filter(&self, record: &Record) -> Response {
        match self {
            FilterOf::Threshold(filter) => filter.filter(record),
            FilterOf::Custom(filter) => filter.filter(record),
        }
    }
}

/// Returns whether a record passes: the first decision that is not neutral counts. Without one, the
/// record passes.
pub fn passes<F: Filter>(filters: &[F], record: &Record) -> bool
    ensures { result ≡ passes_all (λ f. F.answer f «record».now) filters.now }
{
    for f in filters {
        match f.filter(record) {
            Response::Accept => return true,
            Response::Neutral => {}
            Response::Reject => return false,
        }
    }
    true
}

/// The filter by a level.
pub mod threshold {
    pub use crate::filter::ThresholdFilter;
}
