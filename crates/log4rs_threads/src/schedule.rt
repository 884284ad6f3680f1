//! A model of callers, shapes and sinks that runs a schedule of atomic steps.

pub(crate) mod event;
pub(crate) mod installed;
pub(crate) mod shape;
pub(crate) mod state;
pub(crate) mod world;
