//! The numbers of failed appends.

ghost use Rattle.std.specs.Prelude.{◌≡◌, OnOk};
ghost use Rattle.log4rs_rolling.specs.Disk.{one_more};
ghost use Rattle.log4rs_command.specs.Losses.{CountsEach, CountsOneMore, count_of, failed_at};
ghost use Rattle.log4rs_command.specs.Losses.{name_at};

use log4rs_append::Append;
use log4rs_base::OutOfMemory;
use log4rs_base::filter::Filter;
use log4rs_base::print::Escaped;
use log4rs_config::AppendError;
use log4rs_config::runtime::Configured;
use log4rs_threads::LoadedOf;
use std::alloc::Global;
use std::collections::BTreeMap;
use std::io::{self, Write};

/// The numbers of failed appends, by the names of the appenders.
pub type Losses = BTreeMap<String, u64>;

/// Returns the number of failed appends of an appender.
pub fn count_of(losses: &Losses, name: &str) -> u64
    ensures { result ≡ count_of losses.now name.now }
{
    losses.get(name).copied().unwrap_or(0)
}

/// Returns the count plus one, at most `u64::MAX`.
fn one_more(count: u64) -> u64
    ensures { result ≡ one_more count }
{
    count.saturating_add(1)
}

/// Counts a failed append under the name of its appender. The count stays at `u64::MAX`.
pub fn count_one(losses: &mut Losses, alloc: Global, name: &str) -> Result<(), OutOfMemory>
    ensures { OnOk result (CountsOneMore losses.old losses.new name.now) }
{
    let count = one_more(count_of(losses, name));
    let key = String::from_str(alloc, name)?;
    losses.insert(key, count)?;
    Ok(())
}

/// Prints the number of failed appends of each appender that has some, in the order of their names.
pub fn print_losses<W: Write>(losses: &Losses, err: &mut W) -> io::Result<()> {
    for (name, count) in losses.iter() {
        print_loss(name.as_str(), *count, err)?;
    }
    Ok(())
}

/// The names of appenders by their indices.
pub trait AppenderNames {
    ghost use Rattle.std.specs.Prelude.{List};
    ghost use Rattle.log4rs_base.specs.Text.{Text};

    /// The names, each at its appender's index.
    ghost names: { Self → List Text };

    /// Returns the name of the appender at an index, or the empty text if there is none.
    fn appender_name(&self, at: usize) -> &str
        ensures { result.now ≡ name_at (names self.now) at };
}

impl<A: Append, F: Filter, H, L> AppenderNames for LoadedOf<A, F, H, L> {
    ghost names = { λ l. (⟦<LoadedOf<A, F, H, L> as Configured>⟧.settings l).appenders };

    fn appender_name(&self, at: usize) -> &str {
        LoadedOf::appender_name(self, at)
    }
}

/// Counts each failed append under the name of its appender, whose index points into the names.
pub fn count_each<N: AppenderNames>(
    losses: &mut Losses,
    alloc: Global,
    names: &N,
    errors: &[AppendError],
) -> Result<(), OutOfMemory>
    ensures { OnOk result (CountsEach losses.old losses.new (failed_at (N.names names.now)
        errors.now)) }
{
    for error in errors {
        count_one(losses, alloc, names.appender_name(error.appender))?;
    }
    Ok(())
}

/// Prints the number of failed appends of an appender.
fn print_loss<W: Write>(name: &str, count: u64, err: &mut W) -> io::Result<()> {
    let appends = if count == 1 { "append" } else { "appends" };
    let name = Escaped(&name);
    writeln!(err, "log4rs: appender {name}: {count} {appends} failed")
}
