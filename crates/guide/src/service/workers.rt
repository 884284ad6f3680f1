//! A worker, which serves requests with a runtime that logs.

use super::requests::serve;
use log::Log;
use log4rs::Program;

/// Serves the requests with these numbers.
#[derive(Drop)]
pub struct Worker {
    pub requests: &'static [u32],
}

impl Program for Worker {
    type Answer = ();

    fn run<R: Log>(self, rt: &R) {
        serve(rt, self.requests);
    }
}
