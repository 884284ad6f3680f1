//! Encoder of JSON: one object per line.

ghost use Rattle.std.specs.Prelude.{◌≡◌, [], IfOk, Some, string_bytes};
ghost use Rattle.log4rs_encode.specs.JsonLine.{json_time, json_runs};

use crate::dates::Clock;
use crate::dates::directive::push_timestamp;
use crate::encoder::Encode;
use crate::runs::Styled;
use log4rs_base::json_lines::line::json_line;
use log4rs_base::{Context, LogError, OutOfMemory, Record};

/// Encodes each record as a JSON object on a line of its own.
#[derive(Copy, Clone, PartialEq, Eq, Hash, Debug, Default)]
pub struct JsonEncoder;

impl JsonEncoder {
    /// Returns the encoder. It has no settings.
    pub fn new() -> JsonEncoder
        ensures { ⟦<JsonEncoder as Encode>⟧.rendering result ≡ Some json_runs }
    {
        JsonEncoder
    }
}

impl Encode for JsonEncoder {
    ghost rendering = { λ _. Some json_runs };

    fn encode(
        &self,
        out: &mut Styled,
        record: &Record,
        context: &Context<'_>,
    ) -> Result<(), LogError> {
        let time = time(out.spare_text(), context)?;
        let line = json_line(out.spare_text(), &time, record, context)?;
        out.keep_spare(time);
        out.push_string(line)?;
        Ok(())
    }
}

/// Returns the text of the moment in the context's zone, reusing the memory of an empty text.
fn time(room: String, context: &Context<'_>) -> Result<String, OutOfMemory>
    requires { string_bytes room ≡ [] }
    ensures { IfOk result (λ time. string_bytes time ≡ json_time context.now) }
{
    let clock = Clock::local(context.moment, &context.zone);
    let mut time = room;
    if clock.year() < 0 || clock.year() > 9999 {
        time.push_str("{ERROR: year out of range}")?;
        return Ok(time);
    }
    push_timestamp(&mut time, &clock)?;
    Ok(time)
}
