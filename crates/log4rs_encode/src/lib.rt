//! Styled text and its writers, and the encoders that turn records into styled text.
#![tactic(auto)]

pub mod dates;
pub mod encoder;
pub mod json;
pub mod laws;
pub mod pattern;
pub mod runs;
pub mod styles;
pub mod writer;

pub use encoder::{AnyEncoder, Encode, EncoderOf};
pub use runs::{Run, Runs, Styled};
pub use styles::{Color, Style};
pub use writer::Write;
