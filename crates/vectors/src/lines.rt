//! Cases of JSON lines: a record, its context, and the line.

use crate::fault::Fault;
use crate::fields::{field, text};
use crate::patterns::{entry, styled};
use crate::verdict::{Verdict, compare};
use log4rs_encode::json::JsonEncoder;
use serde_json::Value;
use std::alloc::Global;

/// The beginning of the line of a case without a moment.
const PRINTED: &str = "{\"time\":\"1970-01-01T00:00:00+00:00\"";

/// The beginning of such a line in the case.
const GIVEN: &str = "{\"time\":\"T\"";

/// Returns the line of a record.
fn line(alloc: Global, case: &Value) -> Result<String, Fault> {
    let entry = entry(alloc, case)?;
    let line = styled(alloc, &JsonEncoder::new(), &entry)?;
    Ok(line.into_text()?)
}

/// Returns the line of a case, with the time as the case writes it.
fn given_line(alloc: Global, case: &Value) -> Result<String, Fault> {
    let line = line(alloc, case)?;
    match line.strip_prefix(PRINTED) {
        Some(rest) if case.get("seconds").is_none() => Ok(format!(in alloc; "{GIVEN}{rest}")?),
        _ => Ok(line),
    }
}

/// Replays a case.
pub fn replay_line(alloc: Global, case: &Value) -> Result<Verdict, Fault> {
    let expected = text(field(case, "output")?)?;
    let came = given_line(alloc, case)?;
    Ok(compare(alloc, &expected, &came.as_str())?)
}
