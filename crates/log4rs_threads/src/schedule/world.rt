//! A model of shapes, and the sinks that a schedule leaves.

ghost use Rattle.std.specs.Prelude.{◌≡◌, ◌<◌, ℕ, [], map, string_bytes, vec_len, IfOk, IfErr, OnOk, option_map};
ghost use Rattle.log4rs_config.specs.Refusal.{IsRefusal};
ghost use Rattle.log4rs_threads.specs.Schedule.{sink_entries};
ghost use Rattle.log4rs_threads.specs.Shapes.{appender_at, first_faults};
ghost use Rattle.log4rs_threads.specs.Sinks.{IsSink, sink_at};

use crate::schedule::event::Event;
use crate::schedule::installed::Installed;
use crate::schedule::shape::Shape;
use crate::schedule::state::State;
use log4rs_base::OutOfMemory;
use log4rs_config::runtime::BuildError;
use std::alloc::Global;
use std::collections::BTreeMap;
use std::marker::Model;

/// Configurations of shapes, whose sinks are empty.
#[derive(Drop)]
pub struct World {
    alloc: Global,
    all: Vec<Installed>,
}

impl Model for World {
    ghost use Rattle.std.specs.Prelude.{List};
    ghost use Rattle.log4rs_threads.specs.declared.schedule.shape.Shape.{Shape as ShapeData};

    ghost Value = { List ShapeData };

    ghost use Rattle.log4rs_threads.specs.Running.{shapes_in, IsNew};

    ghost view = { λ w. shapes_in w.all.items };

    ghost invariant = { λ w. IsNew w.all.items };
}

impl World {
    /// Builds the configuration of each shape. Fails with the faults of the first shape that has
    /// some, or with `Memory` if an allocation fails.
    pub fn new(alloc: Global, shapes: Vec<Shape>) -> Result<World, BuildError>
        requires { 0 < vec_len shapes }
        ensures shapes { IfOk result (λ world. world ≡ shapes.items) }
        ensures faultless { OnOk result (first_faults shapes.items ≡ []) }
        ensures errors { IfErr result (λ error. IsRefusal (first_faults shapes.items) error) }
    {
        let mut all = Vec::new(alloc);
        for shape in shapes {
            all.push(Installed::new(alloc, shape)?)?;
        }
        Ok(World { alloc, all })
    }

    /// Runs a schedule from the first shape on. Returns what each sink of each shape then holds:
    /// what its appender's pattern prints for the entries that were delivered to it, in the order
    /// of the steps. Fails if an allocation fails.
    pub fn run(self, schedule: &[Event<'_>]) -> Result<Sinks, OutOfMemory>
        ensures { IfOk result (λ sinks. (shape place : ℕ) → IsSink (appender_at self shape place)
            (sink_entries self schedule.now shape place) (sink_at sinks shape place)) }
    {
        let World { alloc, all } = self;
        let mut state = State {
            shape: 0,
            calls: BTreeMap::new(alloc),
            all,
        };
        for at in 0..schedule.len() {
            state.act(alloc, schedule, at)?;
        }
        Ok(Sinks { all: state.all })
    }
}

/// The texts of each sink of each shape.
#[derive(Drop)]
pub struct Sinks {
    all: Vec<Installed>,
}

impl Model for Sinks {
    ghost use Rattle.std.specs.Prelude.{List};
    ghost use Rattle.log4rs_base.specs.Text.{Text};

    ghost Value = { List (List (List Text)) };

    ghost use Rattle.log4rs_threads.specs.Running.{all_items};

    ghost view = { λ s. all_items s.all.items };
}

impl Sinks {
    /// Returns the texts in the sink at an index of a shape, in the order in which they were
    /// appended, or none if there is no such appender.
    pub fn texts(&self, shape: usize, place: usize) -> Option<&[String]>
        ensures { option_map (λ texts. map (λ s. string_bytes s) texts.now) result
            ≡ sink_at self.now shape place }
    {
        self.all.get(shape)?.texts(place)
    }
}
