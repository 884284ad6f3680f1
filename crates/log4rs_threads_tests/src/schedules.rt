use crate::cores::same;
use crate::shapes::{events, held, shapes};
use log4rs_threads::World;
use std::alloc::Global;
use std::test::Fail;

/// Two callers take turns, and each delivers by the shape that it loaded before a swap. A caller
/// with a remaining delivery loads nothing, a shape that does not exist is no swap, and a caller
/// without an entry delivers nothing. An appender that is listed twice gets an entry twice. A
/// threshold and a level reject an entry, so its caller is free at once.
const EVENTS: &str = "\
step 1
load 1 info app one
load 2 info app two
step 1
swap 1
step 2
step 1
load 3 warn app three
step 3
step 2
swap 7
load 1 warn quiet four
load 1 warn app ignored
step 1
step 1
swap 0
load 1 info app::twice five
step 1
step 1
step 1
load 2 info quiet low
load 2 warn quiet high
step 2
load 2 debug app low
step 2";

const HELD: &str = "\
one|two|five|five|
INFO one|INFO two|INFO five|
quiet high|
-
x:three|x:four|
-
";

/// Runs the schedule, where the second shape has these appenders and its root names `named`.
/// Returns the texts of the sinks, or the errors of the shapes.
fn ran(alloc: Global, named: &str, appenders: &str) -> Result<String, Fail> {
    let world = match World::new(alloc, shapes(alloc, named, appenders)?) {
        Ok(world) => world,
        Err(error) => return Ok(format!(in alloc; "{error}")?),
    };
    let schedule = events(alloc, EVENTS)?;
    let sinks = world.run(&schedule)?;
    Ok(held(alloc, &sinks)?)
}

#[test]
fn steps_deliver_by_the_shape_that_was_loaded(rt: HostRuntime) -> Result<(), Fail> {
    same(&rt, ran(rt.alloc(), "x", "x x:{m}")?.as_str(), HELD);
    let refused = "errors in the configuration: Duplicate appender name `x`; \
        Reference to nonexistent appender: `y`";
    same(&rt, ran(rt.alloc(), "y", "x {m}\nx {l}")?.as_str(), refused);
    Ok(())
}
