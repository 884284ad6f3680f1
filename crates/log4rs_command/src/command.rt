//! One run of the program.

ghost use Rattle.std.specs.Prelude.{◌≡◌, ◌≤◌, ◌*◌, ◌^◌, ◌<◌, false, true, IfOk, OnOk, map};
ghost use Rattle.std.specs.Prelude.{string_bytes};
ghost use Rattle.std.specs.Io.KnownBytes.{Appends};
ghost use Rattle.log4rs_command.specs.Runs.{Runs, receipts_line, version_line};

use crate::arguments::{Command, read_arguments};
use crate::file_run::{FileAccess, log_by_file};
use crate::help::{HELP, VERSION};
use crate::host::Host;
use crate::pattern::log_and_print;
use crate::reading::{ReadBack, read_back};
use crate::stop::{DONE, FAULTY, REFUSED, Stop};
use log4rs_base::print::Escaped;
use log4rs_rolling::StoreMaker;
use log4rs_settings::ConfigSource;
use rand_core::Rng;
use std::io::{BufRead, Write};
use std::rt::Clock;
use std::sync::Wait;
use std::thread::Threads;

/// Runs the program with its arguments, without its name, and returns its status. The command
/// `file` reads its configuration from `file`, whose source is the file at the path in the
/// arguments.
pub fn run<S, M, C, G, X, R, O, E>(
    args: &[String],
    file: FileAccess<S, M>,
    host: &mut Host<C, G, X>,
    input: &mut R,
    out: &mut O,
    err: &mut E,
) -> u8
where
    S: ConfigSource + Send + Drop + 'static,
    M: StoreMaker + Send + Drop + 'static,
    M::Made: Send + Drop + 'static,
    C: Clock,
    G: Rng,
    X: Threads + Wait + Eprint + Clock + Clone + Copy + Send + Sync + Drop + 'static,
    R: BufRead,
    O: Write,
    E: Write,
    ensures statuses { result ≤ REFUSED }
    ensures done { result ≡ DONE
        → Runs (map (λ arg. string_bytes arg) args.now) HELP.now VERSION.now
        (S.answers file.source) (R.remaining input.old) (O.contents out.old)
        (O.contents out.new) true }
    ensures faulty { result ≡ FAULTY
        → Runs (map (λ arg. string_bytes arg) args.now) HELP.now VERSION.now
        (S.answers file.source) (R.remaining input.old) (O.contents out.old)
        (O.contents out.new) false }
{
    match log_input(args, file, host, input, out, err) {
        Ok(true) => DONE,
        Ok(false) => FAULTY,
        Err(stop) => {
            tell(&stop, err);
            REFUSED
        }
    }
}

/// Prints why a run ends early. Write errors are ignored.
fn tell<E: Write>(stop: &Stop, err: &mut E) {
    let _ = writeln!(err, "{}", Escaped(stop));
    let _ = err.flush();
}

/// Runs the command of the arguments. Returns whether all went well.
fn log_input<S, M, C, G, X, R, O, E>(
    args: &[String],
    file: FileAccess<S, M>,
    host: &mut Host<C, G, X>,
    input: &mut R,
    out: &mut O,
    err: &mut E,
) -> Result<bool, Stop>
where
    S: ConfigSource + Send + Drop + 'static,
    M: StoreMaker + Send + Drop + 'static,
    M::Made: Send + Drop + 'static,
    C: Clock,
    G: Rng,
    X: Threads + Wait + Eprint + Clock + Clone + Copy + Send + Sync + Drop + 'static,
    R: BufRead,
    O: Write,
    E: Write,
    ensures { IfOk result (Runs (map (λ arg. string_bytes arg) args.now) HELP.now
        VERSION.now (S.answers file.source) (R.remaining input.old) (O.contents out.old)
        (O.contents out.new)) }
{
    match read_arguments(host.alloc, args)? {
        Command::Pattern { pattern, settings } => {
            log_and_print(pattern, &settings, host, input, out, err)
        }
        Command::File { path, plain } => {
            let all_well = log_by_file(path, plain, file, host, input, err)?;
            err.flush()?;
            Ok(all_well)
        }
        Command::Threads { threads, count } => {
            let are_all_read = read_back_and_print(host, threads, count, out)?;
            err.flush()?;
            Ok(are_all_read)
        }
        Command::Version => print_version(out),
        Command::Help => print_help(out),
    }
}

/// Prints the program's version. Returns `true`.
fn print_version<O: Write>(out: &mut O) -> Result<bool, Stop>
    ensures printed { OnOk result (Appends (O.contents out.old) (O.contents out.new)
        (version_line VERSION.now)) }
    ensures well { IfOk result (λ all_well. all_well ≡ true) }
{
    writeln!(out, "log4rs-run {VERSION}")?;
    out.flush()?;
    Ok(true)
}

/// Prints the program's commands. Returns `true`.
fn print_help<O: Write>(out: &mut O) -> Result<bool, Stop>
    ensures printed { OnOk result (Appends (O.contents out.old) (O.contents out.new) HELP.now) }
    ensures well { IfOk result (λ all_well. all_well ≡ true) }
{
    write!(out, "{HELP}")?;
    out.flush()?;
    Ok(true)
}

/// Appends in threads to one journal, and prints how many receipts were read back. Returns whether
/// each had the text of its record.
fn read_back_and_print<C, G, X: Threads + Wait + Sync + Clone + Drop, O: Write>(
    host: &Host<C, G, X>,
    threads: usize,
    count: usize,
    out: &mut O,
) -> Result<bool, Stop>
    requires { threads * count < 2 ^ 64 }
    ensures printed { OnOk result (Appends (O.contents out.old) (O.contents out.new)
        (receipts_line (threads * count))) }
    ensures read { IfOk result (λ are_all_read. are_all_read ≡ true) }
{
    let are_all_read = match read_back(&host.files, host.alloc, threads, count)? {
        ReadBack::Receipts(read) => {
            writeln!(out, "{read} receipts read back")?;
            true
        }
        ReadBack::Mismatch => {
            writeln!(out, "receipt mismatch")?;
            false
        }
    };
    out.flush()?;
    Ok(are_all_read)
}
