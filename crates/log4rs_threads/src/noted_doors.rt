//! Doors whose steps contracts see.

ghost use Rattle.std.specs.Prelude.{◌≡◌, ◌<◌, [], ◌∷◌, ◌++◌};

use crate::doors::Doors;
use crate::ghost_notes::{GhostNotes, Made};
use log4rs_base::{Context, LogError, Record};

/// Makes each step on the doors inside visible to contracts. Ghost-only: it allocates nothing.
#[derive(Drop)]
pub struct NotedDoors<D> {
    inner: D,
    steps: GhostNotes,
}

impl<D> NotedDoors<D> {
    ghost use Rattle.log4rs_threads.specs.NotedDoors.{inner_of, steps_on};

    /// Wraps doors on which no step was made yet.
    pub fn new(inner: D) -> NotedDoors<D>
        ensures inner { inner_of result ≡ inner }
        ensures none { steps_on result ≡ [] }
    {
        NotedDoors {
            inner,
            steps: GhostNotes::none(),
        }
    }

    /// Returns the doors inside.
    pub fn inner(&self) -> &D
        ensures { result.now ≡ inner_of self.now }
    {
        &self.inner
    }

    /// Returns the doors inside.
    pub fn into_inner(self) -> D
        ensures { result ≡ inner_of self }
    {
        self.inner
    }
}

impl<D: Doors> Doors for NotedDoors<D> {
    ghost use Rattle.log4rs_threads.specs.NotedDoors.{inner_of, steps_on};

    ghost size = { λ doors. D.size (inner_of doors) };

    ghost tells = { λ _. Unit {0} };

    ghost steps = { steps_on };

    fn size(&self) -> usize {
        self.inner.size()
    }

    fn step(&mut self, at: usize, logged: &Record, context: &Context<'_>) -> Result<(), LogError>
        requires { at < D.size (inner_of self.old) }
        ensures size { D.size (inner_of self.new) ≡ D.size (inner_of self.old) }
        ensures steps { steps_on self.new ≡ steps_on self.old
            ++ record { place = at; logged = logged.now; context = context.now; answer = result }
            ∷ [] }
        // The same step is made on the doors inside, which tell it if they tell any.
        ensures tells { D.tells (inner_of self.old) → D.tells (inner_of self.new) }
        ensures inner { D.tells (inner_of self.old) → D.steps (inner_of self.new)
            ≡ D.steps (inner_of self.old)
            ++ record { place = at; logged = logged.now; context = context.now; answer = result }
            ∷ [] }
    {
        let answer = self.inner.step(at, logged, context);
        let made = Made {
            at,
            logged,
            context,
            answer: &answer,
        };
        self.steps = self.steps.with_step(&made);
        answer
    }
}
