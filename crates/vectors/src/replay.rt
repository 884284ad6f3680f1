//! The cases of a file.

ghost use Rattle.std.specs.Prelude.{◌≡◌, IfOk, length};

use crate::configurations::replay_configuration;
use crate::fault::Fault;
use crate::kind::Kind;
use crate::lines::replay_line;
use crate::patterns::replay_pattern;
use crate::rolling::replay_rolling;
use crate::routing::replay_routing;
use crate::times::replay_time;
use crate::verdict::Verdict;
use serde_json::Value;
use std::alloc::AllocError;
use std::io;

/// Replays the case of a line. If it needs files, they are in `folder`, which is created for the
/// case, and whose path ends with `/`.
fn replay(rt: &HostRuntime, folder: &str, kind: Kind, line: &str) -> Result<Verdict, Fault> {
    let alloc = rt.alloc();
    let case = Value::from_str(alloc, line)?;
    match kind {
        Kind::Patterns => replay_pattern(alloc, &case, "output", "ansi"),
        Kind::Differences => replay_pattern(alloc, &case, "rules_output", "rules_ansi"),
        Kind::Routing => replay_routing(alloc, &case),
        Kind::Lines => replay_line(alloc, &case),
        Kind::Times => replay_time(alloc, &case),
        Kind::Rolling => replay_rolling(rt, folder, &case),
        Kind::Configurations => replay_configuration(rt, folder, &case),
    }
}

/// Replays all lines. Returns their verdicts, in order.
pub fn verdicts_of(
    rt: &HostRuntime,
    folder: &str,
    kind: Kind,
    lines: &[&str],
) -> io::Result<Vec<Verdict>>
    ensures { IfOk result (λ verdicts. length verdicts.items ≡ length lines.now) }
{
    let mut verdicts = Vec::new(rt.alloc());
    for line in lines {
        let verdict = match replay(rt, folder, kind, line) {
            Ok(verdict) => verdict,
            Err(Fault::Malformed) => Verdict::Unreadable,
            Err(Fault::Memory) => return Err(io::Error::from(AllocError)),
            Err(Fault::Files(error)) => return Err(error),
        };
        verdicts.push(verdict)?;
    }
    Ok(verdicts)
}
