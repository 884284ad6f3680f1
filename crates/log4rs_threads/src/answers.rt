//! Notes the result of each delivery.

ghost use Rattle.std.specs.Prelude.{◌≡◌, [], vec_capacity, vec_len, ◌-◌};

use log4rs_base::{LogError, OutOfMemory};
use log4rs_config::NoteDeliveries;
use std::alloc::Global;

/// Returns each delivery in order, with its result.
#[derive(Drop)]
pub(crate) struct Answers {
    pub(crate) deliveries: Vec<(usize, Result<(), LogError>)>,
}

impl Answers {
    pub(crate) fn new(alloc: Global) -> Answers
        ensures { result.deliveries.items ≡ [] }
    {
        Answers {
            deliveries: Vec::new(alloc),
        }
    }
}

impl NoteDeliveries for Answers {
    ghost noted = { λ answers deliveries. answers.deliveries.items ≡ deliveries };

    ghost room = { λ answers. vec_capacity answers.deliveries - vec_len answers.deliveries };

    fn reserve(&mut self, more: usize) -> Result<(), OutOfMemory> {
        self.deliveries.reserve(more)?;
        Ok(())
    }

    fn note(&mut self, at: usize, answer: Result<(), LogError>) {
        self.deliveries.push_reserved((at, answer));
    }
}
