//! Cases of configurations: a text, and the configuration that is built.

mod built;
mod expected;

use crate::fault::Fault;
use crate::fields::{field, text};
use crate::rendered::{REFUSED, push_rate};
use crate::verdict::{Verdict, compare};
use built::push_built;
use expected::expected;
use log4rs_build::{InitError, RawConfig};
use log4rs_settings::Format;
use serde_json::Value;
use std::{env, fs};

/// A file in each case's folder, so that no folder with this name can be created.
const BLOCKER: &str = "blocker";

/// Returns the format of a case.
fn format(case: &Value) -> Result<Format, Fault> {
    match text(field(case, "format")?)? {
        "json" => Ok(Format::Json),
        "toml" => Ok(Format::Toml),
        _ => Err(Fault::Malformed),
    }
}

/// Builds the configuration of a case over files of the current folder. Returns its text.
fn came(rt: &HostRuntime, case: &Value) -> Result<String, Fault> {
    let alloc = rt.alloc();
    let format = format(case)?;
    match RawConfig::from_text(alloc, format, text(field(case, "text")?)?) {
        Ok(raw) => {
            let mut came = String::new(alloc);
            push_rate(alloc, &mut came, raw.refresh_rate())?;
            push_built(rt, raw, case.get("differs").is_none(), &mut came)?;
            Ok(came)
        }
        Err(InitError::Memory) => Err(Fault::Memory),
        Err(_) => Ok(String::from_str(alloc, REFUSED)?),
    }
}

/// Replays a case in an empty folder, which becomes the current one.
fn came_in(rt: &HostRuntime, folder: &str, case: &Value) -> Result<String, Fault> {
    env::set_current_dir(rt, folder)?;
    fs::write(rt, BLOCKER, "")?;
    came(rt, case)
}

/// Replays a case over real files in a new folder, which is the current one meanwhile.
pub fn replay_configuration(
    rt: &HostRuntime,
    folder: &str,
    case: &Value,
) -> Result<Verdict, Fault> {
    let alloc = rt.alloc();
    let expected = expected(alloc, case)?;
    let home = env::current_dir(rt)?;
    fs::create_dir(rt, folder)?;
    let came = came_in(rt, folder, case);
    env::set_current_dir(rt, &home)?;
    fs::remove_dir_all(rt, folder)?;
    Ok(compare(alloc, &expected, &came?)?)
}
