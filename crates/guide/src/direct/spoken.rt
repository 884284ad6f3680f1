//! The program's own filter.

use log4rs::Record;
use log4rs::filter::{Filter, Response};

/// Rejects records without a message, and is neutral about the others.
#[derive(Drop)]
pub struct Spoken;

impl Filter for Spoken {
    ghost use Rattle.std.specs.Prelude.{string_bytes, ◌==◌, if◌then◌else◌, length};
    ghost use Rattle.log4rs_base.specs.declared.filter.Response.TheVariants.{Reject, Neutral};

    ghost answer = { λ _ r. if length (string_bytes r.message) == 0 then Reject else Neutral };

    fn filter(&self, record: &Record) -> Response {
        if record.message.len() == 0 {
            Response::Reject
        } else {
            Response::Neutral
        }
    }
}
