//! Appenders with their names and filters.

ghost use Rattle.std.specs.Prelude.{◌≡◌, ◌∷◌, ◌++◌, [], true, length, slice_index_or, IfOk, string_bytes};
ghost use Rattle.log4rs_append.specs.Locks.{began_as};
ghost use Rattle.log4rs_config.specs.Appender.{name_of, appender_of, filters_of, drafted_filters};
ghost use Rattle.log4rs_config.specs.Builder.{admits_of};

use crate::delivery::Destinations;
use crate::name::Named;
use crate::runtime::config::Configured;
use log4rs_append::{AnyAppender, Append, Locked};
use log4rs_base::filter::{AnyFilter, Filter, passes};
use log4rs_base::{Context, LogError, OutOfMemory, Record};
use std::alloc::Global;
use std::marker::PhantomData;

/// An appender with its name, behind its filters.
#[derive(Drop)]
pub struct Filtered<A, F> {
    name: String,
    appender: A,
    filters: Vec<F>,
}

/// An appender of a configuration, over stores `S`.
pub type Appender<S> = Filtered<AnyAppender<S>, AnyFilter>;

impl<A, F> Filtered<A, F> {
    ghost use Rattle.std.specs.Borrow.{sem, Lends};
    ghost use Rattle.log4rs_config.specs.contracts.runtime.appender.Filtered.{the_row};

    /// Creates a builder without filters.
    pub fn builder(alloc: Global) -> FilteredBuilder<A, F>
        ensures { drafted_filters result ≡ [] }
    {
        FilteredBuilder {
            filters: Vec::new(alloc),
            appender: PhantomData,
        }
    }

    /// Returns the name.
    pub fn name(&self) -> &str
        ensures { result.now ≡ name_of self.now }
    {
        self.name.as_str()
    }

    /// Returns the appender.
    pub fn appender(&self) -> &A
        ensures { result.now ≡ appender_of self.now }
    {
        &self.appender
    }

    /// Returns the filters, in the order in which they decide.
    pub fn filters(&self) -> &[F]
        ensures { result.now ≡ filters_of self.now }
    {
        self.filters.as_slice()
    }

    /// Puts the appender behind a lock of its own. Fails if an allocation fails; the appender is
    /// then dropped.
    pub fn locked(self, alloc: Global) -> Result<Filtered<Locked<A>, F>, OutOfMemory>
    where
        A: Drop,
        F: Drop,
        ensures name { IfOk result (λ made. name_of made ≡ name_of self) }
        ensures lock { IfOk result (λ made. began_as (appender_of made) ≡ appender_of self) }
        ensures filters { IfOk result (λ made. filters_of made ≡ filters_of self) }
    {
        Ok(Filtered {
            name: self.name,
            appender: Locked::new(alloc, self.appender)?,
            filters: self.filters,
        })
    }

    /// Lends the appender for writing.
    pub(crate) fn appender_mut(&mut self) -> &mut A
        ensures* writes_back { sem 𝓛 (Lends (the_row A.row F.row) A.row self.entry result
            (λ w. record self.old { appender = w })) }
        ensures value { result.now ≡ self.old.appender }
    {
        &mut self.appender
    }
}

impl<A, F> Named for Filtered<A, F> {
    ghost use Rattle.log4rs_config.specs.Appender.{name_of};

    ghost name = { λ a. name_of a };

    fn name(&self) -> &str {
        self.name.as_str()
    }
}

/// Returns whether a record passes the filters of the appender at a place.
pub fn admits<A, F: Filter>(appenders: &[Filtered<A, F>], at: usize, logged: &Record) -> bool
    ensures { result ≡ slice_index_or (admits_of F.answer appenders.now logged.now) at true }
{
    match appenders.get(at) {
        Some(appender) => passes(appender.filters(), logged),
        None => true,
    }
}

/// The appenders alone have their names as settings, and no loggers.
impl<A: Append, F: Filter> Configured for Vec<Filtered<A, F>> {
    ghost use Rattle.log4rs_config.specs.Builder.{names_alone, admits_of, sinks_of};

    ghost settings = { λ appenders. names_alone appenders.items };

    ghost admits = { λ appenders. admits_of F.answer appenders.items };

    ghost sinks = { λ appenders. sinks_of A.sink appenders.items };
}

impl<A: Append, F: Filter> Destinations for Vec<Filtered<A, F>> {
    ghost use Rattle.log4rs_config.specs.Builder.{names_alone, sinks_of};
    ghost use Rattle.log4rs_config.specs.Destinations.{AppendedAt};

    ghost size = { λ appenders. length (names_alone appenders.items).appenders };

    ghost appends = { λ r x at outcome old new. AppendedAt r x at outcome (sinks_of A.sink old.items)
        (sinks_of A.sink new.items) };

    fn admits(&self, at: usize, logged: &Record) -> bool {
        admits(self, at, logged)
    }

    fn append(
        &mut self,
        at: usize,
        logged: &Record,
        context: &Context<'_>,
    ) -> Result<(), LogError> {
        self[at].appender_mut().append(logged, context)
    }
}

/// Builds an appender with its filters. A call that fails drops the builder.
#[derive(Drop)]
pub struct FilteredBuilder<A, F> {
    filters: Vec<F>,
    appender: PhantomData<A>,
}

/// Builds an appender of a configuration, over stores `S`.
pub type AppenderBuilder<S> = FilteredBuilder<AnyAppender<S>, AnyFilter>;

impl<A, F: Drop> FilteredBuilder<A, F> {
    /// Adds a filter, which decides after those before it. Fails if an allocation fails.
    pub fn filter(self, filter: F) -> Result<FilteredBuilder<A, F>, OutOfMemory>
        ensures { IfOk result (λ builder. drafted_filters builder ≡ drafted_filters self
            ++ filter ∷ []) }
    {
        let mut filters = self.filters;
        filters.push(filter)?;
        Ok(FilteredBuilder {
            filters,
            appender: PhantomData,
        })
    }

    /// Adds filters, which decide in this order, after those before them. Fails if an allocation
    /// fails.
    pub fn filters(self, added: Vec<F>) -> Result<FilteredBuilder<A, F>, OutOfMemory>
        ensures { IfOk result (λ builder. drafted_filters builder ≡ drafted_filters self
            ++ added.items) }
    {
        let mut filters = self.filters;
        let mut added = added;
        filters.append(&mut added)?;
        Ok(FilteredBuilder {
            filters,
            appender: PhantomData,
        })
    }

    /// Creates the appender with this name.
    pub fn build(self, name: String, appender: A) -> Filtered<A, F>
        ensures name { name_of result ≡ string_bytes name }
        ensures appender { appender_of result ≡ appender }
        ensures filters { filters_of result ≡ drafted_filters self }
    {
        Filtered {
            name,
            appender,
            filters: self.filters,
        }
    }
}
