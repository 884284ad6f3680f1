//! Appenders built by their plans, of the library's own components and of those that a caller hands
//! in, each for one appender.
#![tactic(auto)]

mod build_appender;
mod components;
mod from_parts;
mod handed;
mod refill;

pub use build_appender::{BuildAppender, Parts, Refusal};
pub use from_parts::{BehindOf, BuiltOf, build_filters};
pub use handed::{Absent, Handed, HandedIn, HandedInOf, NamedParts};
pub use refill::{Once, PartMaker, Refill};
