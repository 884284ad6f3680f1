//! Delivery of a record, one step for each delivery.

ghost use Rattle.std.specs.Prelude.{◌≡◌, ℕ, ◌<◌, List, [], ◌∷◌, ◌++◌, All, MatchResult, length};
ghost use Rattle.log4rs_config.specs.Builder.{admits_of};
ghost use Rattle.log4rs_config.specs.Routing.{let_through};
ghost use Rattle.log4rs_threads.specs.Steps.{Step, DeliversNoting};

use log::LevelFilter;
use log4rs_append::Append;
use log4rs_base::filter::Filter;
use log4rs_base::{Context, LogError, OutOfMemory, Record};
use log4rs_config::delivery::deliver;
use log4rs_config::runtime::Configured;
use log4rs_config::runtime::appender::{Filtered, admits};
use log4rs_config::{Destinations, NoteDeliveries};

/// Access to a configuration's appenders by index. A step appends one record to one of them.
pub trait Doors {
    /// The number of appenders.
    ghost size: { Self → ℕ };

    /// Whether the steps are visible to contracts.
    ghost tells: { Self → Type 0 };

    /// The steps so far, if they are visible.
    ghost steps: { Self → List Step };

    /// Returns the number of the appenders.
    fn size(&self) -> usize
        ensures { result ≡ size self.now };

    /// Appends the record to the appender at an index.
    fn step(&mut self, at: usize, logged: &Record, context: &Context<'_>) -> Result<(), LogError>
        requires { at < size self.old }
        ensures size { size self.new ≡ size self.old }
        ensures tells { tells self.old → tells self.new }
        ensures steps { tells self.old → steps self.new ≡ steps self.old
            ++ record { place = at; logged = logged.now; context = context.now; answer = result }
            ∷ [] };
}

/// The filters of appenders, and doors to these appenders.
#[derive(Drop)]
struct Through<'a, A, F, D> {
    appenders: &'a [Filtered<A, F>],
    doors: &'a mut D,
}

impl<'a, A: Append, F: Filter, D: Doors> Configured for Through<'a, A, F, D> {
    ghost use Rattle.log4rs_config.specs.Builder.{admits_of, names_alone};

    ghost settings = { λ t. names_alone t.appenders.now };

    ghost admits = { λ t. admits_of F.answer t.appenders.now };

    ghost sinks = { λ _. [] };
}

impl<'a, A: Append, F: Filter, D: Doors> Destinations for Through<'a, A, F, D> {
    ghost size = { λ t. D.size t.doors.now };

    ghost identity = { λ t. t.doors.ghost_name };

    ghost appends = { λ r x at outcome old new. (D.tells old.doors.now → D.tells new.doors.now)
        × (D.tells old.doors.now → D.steps new.doors.now ≡ D.steps old.doors.now
        ++ record { place = at; logged = r; context = x; answer = outcome } ∷ []) };

    fn admits(&self, at: usize, logged: &Record) -> bool {
        admits(self.appenders, at, logged)
    }

    fn append(
        &mut self,
        at: usize,
        logged: &Record,
        context: &Context<'_>,
    ) -> Result<(), LogError> {
        self.doors.step(at, logged, context)
    }
}

/// Delivers a record by a route: if its level lets the record through, makes one step for each of
/// its indices whose filters do, in order, also after a failure, and notes each result. Reserves
/// room for the notes before the first step; if that fails, makes no step.
pub fn deliver_by<A: Append, F: Filter, D: Doors, N: NoteDeliveries>(
    appenders: &[Filtered<A, F>],
    limit: LevelFilter,
    places: &[usize],
    doors: &mut D,
    notes: &mut N,
    logged: &Record,
    context: &Context<'_>,
) -> Result<(), OutOfMemory>
    requires { All (λ at. at < D.size doors.old) places.now }
    ensures size { D.size doors.new ≡ D.size doors.old }
    ensures tells { D.tells doors.old → D.tells doors.new }
    ensures delivered { DeliversNoting (let_through limit places.now
        (admits_of F.answer appenders.now logged.now) logged.now.level) logged.now context.now
        (D.tells doors.old) (D.steps doors.old) (D.steps doors.new)
        (N.noted notes.old) (N.noted notes.new) result }
{
    let mut to = Through { appenders, doors };
    deliver(&mut to, limit, places, notes, logged, context)
}
