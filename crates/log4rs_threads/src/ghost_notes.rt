//! Ghost lists of steps and of faults.

ghost use Rattle.std.specs.Prelude.{◌≡◌, [], ◌∷◌, ◌++◌, List};
ghost use base.Fml.{ftrue};
ghost use Rattle.log4rs_threads.specs.Steps.{Fault, Step};
ghost use Rattle.log4rs_threads.specs.GhostNotes.{fault_told, faults_coded, step_made, steps_coded};

use log4rs_base::{Context, LogError, Record};
use log4rs_config::AppendError;
use std::marker::{Model, PhantomData};

/// A step as it was made.
#[derive(Drop)]
pub(crate) struct Made<'a, 'z> {
    pub(crate) at: usize,
    pub(crate) logged: &'a Record,
    pub(crate) context: &'a Context<'z>,
    pub(crate) answer: &'a Result<(), LogError>,
}

/// A fault as it was told: of an append, or none if memory was refused.
#[derive(Drop)]
pub(crate) struct Told<'a> {
    pub(crate) fault: Option<&'a AppendError>,
}

/// Steps and faults, each in order, visible to contracts. A ghost value without bytes.
pub(crate) struct GhostNotes {
    marker: PhantomData<()>,
    pub(crate) ghost steps: { List Step } by { steps_coded },
    pub(crate) ghost faults: { List Fault } by { faults_coded },
}

impl Model for GhostNotes {
    ghost also_owns = { λ _. ftrue };
}

impl GhostNotes {
    /// Returns no steps and no faults.
    pub(crate) fn none() -> GhostNotes
        ensures { (result.steps ≡ []) × (result.faults ≡ []) }
    {
        GhostNotes {
            marker: PhantomData,
        }
    }

    /// Returns these and one more step.
    pub(crate) fn with_step(&self, made: &Made<'_, '_>) -> GhostNotes
        ensures { (result.steps ≡ self.now.steps ++ step_made made.now ∷ [])
            × (result.faults ≡ self.now.faults) }
    {
        let _ = made;
        GhostNotes {
            marker: PhantomData,
        }
    }

    /// Returns these and one more fault.
    pub(crate) fn with_fault(&self, told: &Told<'_>) -> GhostNotes
        ensures { (result.steps ≡ self.now.steps)
            × (result.faults ≡ self.now.faults ++ fault_told told.now ∷ []) }
    {
        let _ = told;
        GhostNotes {
            marker: PhantomData,
        }
    }
}

impl Drop for GhostNotes {
    fn drop(self) {
        let Self { marker: _ } = self;
    }
}

// It owns nothing, and nothing can be changed through it: any thread may have or share it.
unsafe impl Send for GhostNotes {}

unsafe impl Sync for GhostNotes {}
