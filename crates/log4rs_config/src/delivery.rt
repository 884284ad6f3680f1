//! Delivery of a record, one append for each delivery, and the notes of its results.

ghost use Rattle.std.specs.Prelude.{◌≡◌, ◌<◌, ◌≤◌, ◌+◌, ◌-◌, ◌++◌, ◌∷◌, [], false, All, IsOk, MatchResult, OnErr, OnOk, length, vec_len, vec_capacity};
ghost use Rattle.log.specs.Level.{allows};
ghost use Rattle.log4rs_config.specs.Delivery.{AreMade};
ghost use Rattle.log4rs_config.specs.Destinations.{RoutesAlike};
ghost use Rattle.log4rs_config.specs.Routing.{admitted, let_through};

use crate::runtime::Configured;
use log::LevelFilter;
use log4rs_base::{Context, LogError, OutOfMemory, Record};
use smallvec::SmallVec;
use thiserror::Error;

/// The error of an append, and its appender.
#[derive(Debug, Drop, Error)]
#[error("appender {appender}: {fault}")]
pub struct AppendError {
    /// The place of the appender in the configuration.
    pub appender: usize,
    /// The error.
    pub fault: LogError,
}

/// Errors of logging a record.
#[derive(Debug, Drop, Error)]
pub enum CoreError {
    /// An allocation failed, and nothing was appended.
    #[error("{}", OutOfMemory)]
    Memory,
    /// These appends failed, in the order of delivery. All others were made.
    #[error("some appenders failed")]
    Appenders(Vec<AppendError>),
}

/// Appenders behind filters, by their places.
pub trait Destinations: Configured {
    ghost use Rattle.std.specs.Prelude.{ℕ, true, slice_index_or};
    ghost use Rattle.log4rs_base.specs.declared.record.Context.{Context as ContextData};
    ghost use Rattle.log4rs_base.specs.declared.record.Record.{Record as RecordData};
    ghost use Rattle.log4rs_config.specs.Destinations.{Outcome, RoutesAlike};

    /// How many there are.
    ghost size: { Self → ℕ };

    /// A number that stays: of one that holds a loan, the loan's ghost name.
    ghost identity: { Self → ℕ } = { λ _. 0 };

    /// What one append at a place does, by its result.
    ghost appends: { RecordData → ContextData → ℕ → Outcome → Self → Self → Type 0 };

    /// Returns whether a record passes the filters of the appender at a place.
    fn admits(&self, at: usize, record: &Record) -> bool
        ensures { result ≡ slice_index_or (Self.admits self.now «record».now) at true };

    /// Appends to the appender at a place, without its filters. Fails as the appender does.
    fn append(&mut self, at: usize, record: &Record, context: &Context<'_>) -> Result<(), LogError>
        requires { at < size self.old }
        ensures appends { appends «record».now context.now at result self.old self.new }
        ensures size { size self.new ≡ size self.old }
        ensures identity { identity self.new ≡ identity self.old }
        ensures routes { RoutesAlike Self.settings Self.admits self.old self.new };
}

/// Notes the results of deliveries, one after another.
pub trait NoteDeliveries {
    ghost use Rattle.std.specs.Prelude.{ℕ, List};
    ghost use Rattle.log4rs_config.specs.Destinations.{Outcome};

    /// The deliveries that were noted, in order: the index and the result of each.
    ghost noted: { Self → List (ℕ × Outcome) → Type 0 };

    /// How many more deliveries fit.
    ghost room: { Self → ℕ };

    /// Makes room for this many more deliveries. Fails if the allocation fails.
    fn reserve(&mut self, more: usize) -> Result<(), OutOfMemory>
        ensures room { OnOk result (more ≤ room self.new) }
        ensures same { (deliveries : _) → noted self.old deliveries → noted self.new deliveries };

    /// Notes the result of a step at an index, in room that was reserved.
    fn note(&mut self, at: usize, answer: Result<(), LogError>)
        requires { 0 < room self.old }
        ensures noted { (before : _) → noted self.old before
            → noted self.new (before ++ (at, answer) ∷ []) }
        ensures room { room self.old ≤ room self.new + 1 };
}

/// Notes only faults.
impl NoteDeliveries for Vec<AppendError> {
    ghost use Rattle.log4rs_config.specs.Answer.{faults};

    ghost noted = { λ errors deliveries. errors.items ≡ faults deliveries };

    ghost room = { λ errors. vec_capacity errors - vec_len errors };

    fn reserve(&mut self, more: usize) -> Result<(), OutOfMemory> {
        Vec::reserve(self, more)?;
        Ok(())
    }

    fn note(&mut self, at: usize, answer: Result<(), LogError>) {
        if let Err(fault) = answer {
            self.push_reserved(AppendError {
                appender: at,
                fault,
            });
        }
    }
}

/// Notes only faults, and allocates nothing for few deliveries.
impl<const FEW: usize> NoteDeliveries for SmallVec<Option<AppendError>, FEW> {
    ghost use Rattle.std.specs.Prelude.{map, Some};
    ghost use Rattle.log4rs_config.specs.Answer.{faults};
    ghost use Rattle.smallvec.specs.SmallVec.{small_vec_len};

    ghost noted = { λ errors deliveries. errors.items ≡ map Some (faults deliveries) };

    ghost room = { λ errors. errors.capacity - small_vec_len errors };

    fn reserve(&mut self, more: usize) -> Result<(), OutOfMemory> {
        if more > self.capacity() - self.len() {
            SmallVec::reserve(self, more)?;
        }
        Ok(())
    }

    fn note(&mut self, at: usize, answer: Result<(), LogError>) {
        if let Err(fault) = answer {
            self.push_reserved(Some(AppendError {
                appender: at,
                fault,
            }));
        }
    }
}

/// Appends at each of these places whose filters let the record pass, in order, also after a
/// failure, and notes each result.
fn deliver_each<D: Configured + Destinations, N: NoteDeliveries>(
    to: &mut D,
    places: &[usize],
    notes: &mut N,
    record: &Record,
    context: &Context<'_>,
)
    requires within { All (λ at. at < D.size to.old) places.now }
    requires room { length places.now ≤ N.room notes.old }
    ensures delivered { (made : _) × AreMade (D.appends «record».now context.now)
        (admitted (D.admits to.old «record».now) places.now) made to.old to.new
        × ((before : _) → N.noted notes.old before → N.noted notes.new (before ++ made)) }
    ensures size { D.size to.new ≡ D.size to.old }
    ensures identity { D.identity to.new ≡ D.identity to.old }
    ensures routes { RoutesAlike D.settings D.admits to.old to.new }
{
    for at in places {
        if !to.admits(*at, record) {
            continue;
        }
        let answer = to.append(*at, record, context);
        notes.note(*at, answer);
    }
}

/// Delivers a record by a route: if its level lets the record through, appends at each of its
/// places whose filters do, in order, also after a failure, and notes each result. Reserves room
/// for the notes before the first append; if that fails, appends nothing.
pub fn deliver<D: Configured + Destinations, N: NoteDeliveries>(
    to: &mut D,
    limit: LevelFilter,
    places: &[usize],
    notes: &mut N,
    record: &Record,
    context: &Context<'_>,
) -> Result<(), OutOfMemory>
    requires { All (λ at. at < D.size to.old) places.now }
    ensures delivered { MatchResult result
        (λ _. (made : _) × AreMade (D.appends «record».now context.now) (let_through limit
        places.now (D.admits to.old «record».now) «record».now.level) made to.old to.new
        × ((before : _) → N.noted notes.old before → N.noted notes.new (before ++ made)))
        (λ _. (before : _) → N.noted notes.old before → N.noted notes.new before) }
    ensures size { D.size to.new ≡ D.size to.old }
    ensures identity { D.identity to.new ≡ D.identity to.old }
    ensures routes { RoutesAlike D.settings D.admits to.old to.new }
    ensures kept_out { allows limit «record».now.level ≡ false → IsOk result }
    ensures err { OnErr result (to.new ≡ to.old) }
{
    if !limit.allows(record.level) {
        return Ok(());
    }
    notes.reserve(places.len())?;
    deliver_each(to, places, notes, record, context);
    Ok(())
}
