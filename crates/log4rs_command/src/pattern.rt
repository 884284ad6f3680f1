//! The command `pattern`.

ghost use Rattle.std.specs.Prelude.{IfOk};
ghost use Rattle.log4rs_command.specs.Prints.{Prints};
ghost use Rattle.log4rs_command.specs.Arguments.{asked_settings};

use crate::arguments::Setting;
use crate::configuration::configuration;
use crate::host::Host;
use crate::logging::log_lines;
use crate::memory::{MemoryCore, print_texts};
use crate::stop::Stop;
use rand_core::Rng;
use std::io::{BufRead, Write};
use std::rt::Clock;

/// Logs the records of the input by the configuration of a pattern and settings, and prints their
/// texts. Returns whether all lines were well formed and no append failed.
pub fn log_and_print<C: Clock, G: Rng, X, R: BufRead, O: Write, E: Write>(
    pattern: &str,
    settings: &[Setting<'_>],
    host: &mut Host<C, G, X>,
    input: &mut R,
    out: &mut O,
    err: &mut E,
) -> Result<bool, Stop>
    ensures { IfOk result (Prints pattern.now (asked_settings settings.now) (R.remaining input.old)
        (O.contents out.old) (O.contents out.new)) }
{
    let alloc = host.alloc;
    let config = configuration(alloc, pattern, settings)?;
    let mut core = MemoryCore::new(alloc, config)?;
    let seen = log_lines(&mut core, host, None, input, err)?;
    print_texts(&core, out)?;
    err.flush()?;
    Ok(seen.all_well())
}
