//! Components that a caller hands in, each for one appender.

ghost use Rattle.std.specs.Prelude.{◌≡◌, OnOk, OnErr, ◌++◌, ◌∷◌, [], position};
ghost use Rattle.log4rs_parts.specs.Waits.{no_waits, waits_in, waiting_for, with_part};
ghost use Rattle.log4rs_parts.specs.NamedParts.{is_for};

use log4rs_append::{Append, Steps};
use log4rs_base::filter::{Filter, Response};
use log4rs_base::{Context, LogError, OutOfMemory, Record};
use log4rs_encode::{Encode, Styled};
use log4rs_plans::Waits;
use log4rs_rolling::{LogFile, Trigger};
use log4rs_settings::Waiting;
use std::alloc::Global;

/// A component of the caller's: an appender `A`, a filter `F`, an encoder `E` or a trigger `T`.
#[derive(Drop)]
pub enum HandedInOf<A, F, E, T> {
    /// An appender.
    Appender(A),
    /// A filter.
    Filter(F),
    /// An encoder.
    Encoder(E),
    /// A trigger.
    Trigger(T),
}

/// A boxed component of the caller's.
pub type HandedIn = HandedInOf<
    Box<dyn Append + Send + Sync + Drop>,
    Box<dyn Filter + Send + Sync + Drop>,
    Box<dyn Encode + Send + Sync + Drop>,
    Box<dyn Trigger + Send + Sync + Drop>,
>;

/// The components that were handed in and not taken yet.
#[derive(Drop)]
pub struct Handed<A, F, E, T> {
    pub(crate) alloc: Global,
    pub(crate) appenders: NamedParts<A>,
    pub(crate) filters: NamedParts<F>,
    pub(crate) encoders: NamedParts<E>,
    pub(crate) triggers: NamedParts<T>,
}

impl<A, F, E, T> Handed<A, F, E, T> {
    /// Returns no components.
    pub fn new(alloc: Global) -> Handed<A, F, E, T>
        ensures { waits_in result ≡ no_waits }
    {
        Handed {
            alloc,
            appenders: NamedParts::new(alloc),
            filters: NamedParts::new(alloc),
            encoders: NamedParts::new(alloc),
            triggers: NamedParts::new(alloc),
        }
    }
}

impl<A, F, E, T> Waits for Handed<A, F, E, T> {
    ghost waiting_for = { waiting_for };

    fn waiting(&self, name: &str) -> Waiting {
        Waiting {
            appenders: self.appenders.count(name),
            filters: self.filters.count(name),
            encoders: self.encoders.count(name),
            triggers: self.triggers.count(name),
        }
    }
}

impl<A: Drop, F: Drop, E: Drop, T: Drop> Handed<A, F, E, T> {
    /// Keeps a component for the appender of a name. If an allocation fails, drops it.
    pub fn put(&mut self, name: &str, part: HandedInOf<A, F, E, T>) -> Result<(), OutOfMemory>
        ensures ok { OnOk result (waits_in self.new ≡ with_part name.now part (waits_in self.old)) }
        ensures err { OnErr result (waits_in self.new ≡ waits_in self.old) }
    {
        match part {
            HandedInOf::Appender(appender) => self.appenders.put(name, appender),
            HandedInOf::Filter(filter) => self.filters.put(name, filter),
            HandedInOf::Encoder(encoder) => self.encoders.put(name, encoder),
            HandedInOf::Trigger(trigger) => self.triggers.put(name, trigger),
        }
    }
}

/// A component and the name of its appender.
#[derive(Drop)]
pub(crate) struct Named<T> {
    pub(crate) appender: String,
    pub(crate) part: T,
}

/// The components of one class that no appender has taken yet, the earliest first.
#[derive(Drop)]
pub struct NamedParts<T> {
    pub(crate) parts: Vec<Named<T>>,
}

impl<T> NamedParts<T> {
    ghost use Rattle.log4rs_parts.specs.NamedParts.{parts_in, first_for, without_first, count_for};

    /// Returns an empty list.
    pub fn new(alloc: Global) -> NamedParts<T>
        ensures { parts_in result ≡ [] }
    {
        NamedParts {
            parts: Vec::new(alloc),
        }
    }

    /// Adds a component for the appender of a name. If an allocation fails, drops it.
    pub fn put(&mut self, appender: &str, part: T) -> Result<(), OutOfMemory>
    where
        T: Drop,
        ensures ok { OnOk result (parts_in self.new
            ≡ parts_in self.old ++ (appender.now, part) ∷ []) }
        ensures err { OnErr result (parts_in self.new ≡ parts_in self.old) }
    {
        let appender = String::from_str(*self.parts.allocator(), appender)?;
        self.parts.push(Named { appender, part })?;
        Ok(())
    }

    /// Returns how many components wait for the appender of a name.
    pub fn count(&self, appender: &str) -> usize
        ensures { result ≡ count_for appender.now (parts_in self.now) }
    {
        let mut count = 0;
        for named in &self.parts {
            if named.appender.as_str() == appender {
                count += 1;
            }
        }
        count
    }

    /// Takes the earliest component for the appender of a name.
    pub fn take(&mut self, appender: &str) -> Option<T>
        ensures value { result ≡ first_for appender.now (parts_in self.old) }
        ensures left { parts_in self.new ≡ without_first appender.now (parts_in self.old) }
    {
        match place_of(&self.parts, appender) {
            Some(at) => {
                let Named { appender: _, part } = self.parts.remove(at);
                Some(part)
            }
            None => None,
        }
    }
}

/// Returns the index of the earliest component for the appender of a name.
fn place_of<T>(parts: &[Named<T>], appender: &str) -> Option<usize>
    ensures { result ≡ position (is_for appender.now) parts.now }
{
    parts
        .iter()
        .position(|named| named.appender.as_str() == appender)
}

/// The component type of callers that hand in none. No value of it is ever made; it would do
/// nothing.
#[derive(Drop)]
pub struct Absent;

impl Append for Absent {
    fn append(&mut self, _: &Record, _: &Context<'_>) -> Result<(), LogError> {
        Ok(())
    }

    fn append_retired(&mut self, record: &Record, context: &Context<'_>) -> Result<(), LogError> {
        self.append(record, context)
    }

    fn flush(&mut self) {}
}

impl Steps for Absent {
    fn step(&mut self) -> Result<bool, LogError> {
        Ok(false)
    }

    fn drive(&mut self) -> Result<(), LogError> {
        Ok(())
    }

    fn retire(&mut self) -> Result<(), LogError> {
        Ok(())
    }

    fn resume(&mut self) -> Result<(), LogError> {
        Ok(())
    }
}

impl Encode for Absent {
    fn encode(&self, _: &mut Styled, _: &Record, _: &Context<'_>) -> Result<(), LogError> {
        Ok(())
    }
}

impl Filter for Absent {
    ghost use Rattle.log4rs_base.specs.declared.filter.Response.TheVariants.{Neutral};

    ghost answer = { λ _ _. Neutral };

    fn filter(&self, _: &Record) -> Response {
        Response::Neutral
    }
}

impl Trigger for Absent {
    fn trigger(&mut self, _: &LogFile, _: &Context<'_>) -> Result<bool, LogError> {
        Ok(false)
    }

    fn is_pre_process(&self) -> bool {
        false
    }
}
