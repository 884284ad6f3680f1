//! Appenders that log nothing.

ghost use Rattle.std.specs.Prelude.{◌≡◌, ◌++◌, IfOk, OnOk};
ghost use Rattle.log4rs_plans.specs.Unused.{is_in, is_named, unused_in};
ghost use Rattle.log4rs_plans.specs.Places.{if_so};

use crate::asked::Plans;
use crate::warnings::Warning;
use log4rs_base::OutOfMemory;
use std::alloc::Global;

/// Adds a warning if its condition holds.
pub(crate) fn add_where(
    found: &mut Vec<Warning>,
    is_so: bool,
    warning: Warning,
) -> Result<(), OutOfMemory>
    ensures { OnOk result (found.new.items ≡ found.old.items ++ if_so is_so warning) }
{
    if is_so {
        found.push(warning)?;
    }
    Ok(())
}

/// Returns whether a name is one of these.
fn is_in(names: &Vec<String>, name: &str) -> bool
    ensures { result ≡ is_in names.now name.now }
{
    names.iter().any(|other| other.as_str() == name)
}

/// Returns whether the root or a logger names an appender.
fn is_named(plans: &Plans, name: &str) -> bool
    ensures { result ≡ is_named plans.now name.now }
{
    let loggers = &plans.loggers;
    is_in(&plans.root.appenders, name)
        || loggers
            .iter()
            .any(|logger| is_in(&logger.config.appenders, name))
}

/// Returns what of a configuration logs nothing: itself, where there is no appender, and else its
/// root, where that names none, and each appender that is named nowhere.
pub fn unused(alloc: Global, plans: &Plans) -> Result<Vec<Warning>, OutOfMemory>
    ensures { IfOk result (λ found. found.items ≡ unused_in plans.now) }
{
    let mut found = Vec::new(alloc);
    if plans.appenders.is_empty() {
        found.push(Warning::NoAppender)?;
        return Ok(found);
    }
    let names_none = plans.root.appenders.is_empty();
    add_where(&mut found, names_none, Warning::RootNamesNone)?;
    for place in 0..plans.appenders.len() {
        let is_so = !is_named(plans, plans.appenders[place].name.as_str());
        add_where(&mut found, is_so, Warning::Unused(place))?;
    }
    Ok(found)
}
