use crate::world::{Still, arguments, host_of, no_file};
use log4rs_command::command::run;
use log4rs_command::help::{HELP, VERSION};
use rand::rngs::StdRng;
use rand::{Rng, SeedableRng};
use std::alloc::{AllocError, Global};
use std::rt::Clock;
use std::sync::Wait;
use std::test::Fail;
use std::thread::Threads;

/// The outcome of a run with wrong arguments.
const USAGE: &str = "2||usage: log4rs-run pattern PATTERN [NAME=LEVEL]... | file CONFIG \
    | threads N COUNT\n";

/// Runs the program. Returns the status, the output and the error output, separated by bars.
fn ended<X: Threads + Wait + Eprint + Clock + Clone + Copy + Send + Sync + Drop + 'static>(
    rt: &HostRuntime,
    files: X,
    args: &[String],
    input: &[u8],
) -> Result<String, Fail> {
    let mut input = input;
    let (mut out, mut err) = (Vec::new(rt.alloc()), Vec::new(rt.alloc()));
    let mut host = host_of(rt, files, Still);
    let status = run(args, no_file(rt), &mut host, &mut input, &mut out, &mut err);
    let (out, err) = (String::from_utf8(out)?, String::from_utf8(err)?);
    Ok(format!(in rt.alloc(); "{status}|{out}|{err}")?)
}

/// Wrong arguments, separated by bars, or too few.
const WRONG: &str = "\
file
threads|1
pattern
unknown|x
unknown
Pattern|{m}
file|log4rs.toml|log4rs.json
file|log4rs.toml|log4rs.json|more
file|log4rs.toml|--plain
file|log4rs.toml|--plain|info
file|log4rs.toml|--plain|info|app|more
file|log4rs.toml|--plain|off|app
file|log4rs.toml|--plain|loud|app
file|log4rs.toml|--plain||app
file|log4rs.toml|--Plain|info|app
file|log4rs.toml|info|app|--plain
file|--plain|info|app
pattern|{m}|--plain|info|app
threads|0|1
threads|17|1
threads|17
threads|1|1001
threads|+1|1
threads|1|2|3
--version|0.2.0
--help|file
--Version
help
pattern|{m}|app
pattern|{m}|
pattern|{m}|app=
pattern|{m}|app=loud
pattern|{m}|app= info
pattern|{m}|app=info=
pattern|{m}|a=info|a=info|b
pattern|{m}|:=info|b|c
pattern|{m}|a\u{1b}[31m\u{85}\u{2028}\u{e9}'\"\\";

/// The input of `BY_LEVELS`.
const LEVELS: &[u8] = b"ERROR a 1\nDEBUG a 2\nTRACE a::b 3\nDEBUG a=b 4\nINFO ab 5\n";

/// Arguments, separated by bars, and after an arrow the outcome.
const BY_LEVELS: &str = "\
pattern|{m} -> 0|15|
pattern|{m}|=off -> 0||
pattern|{m}|=off|=debug -> 0|1245|
pattern|{m}|=Trace|=OFF -> 0||
pattern|{m}|a=debug -> 0|125|
pattern|{m}|a=DeBuG|a::b=trace -> 0|1235|
pattern|{m}|a::b=trace|=error -> 0|13|
pattern|{m}|a=b=debug -> 0|145|
pattern|{m}|a=off -> 0|5|
pattern|{m}|a=off|b=off|c=off|d=off|e=off|f=off|g=off|h=off|i=off|j=off|ab=error -> 0||";

/// Arguments, separated by bars, the input and the outcome, separated by arrows. A pilcrow is a
/// newline.
const RUNS: &str = "\
pattern|{l} {t} - {m}{n}|app=debug -> DEBUG app::x hello¶DEBUG other no¶INFO other yes¶bad¶ -> 1|DEBUG app::x - hello¶INFO other - yes¶|log4rs-run: line 4: malformed¶
pattern|{d} {T} {m} -> INFO a b¶ -> 0|2016-03-20T22:22:20+00:00 main b|
pattern|{m}|a=info|a=debug -> INFO a b¶ -> 2||log4rs-run: errors in the configuration: Duplicate logger name `a`¶
pattern|{m}|a:b=info -> INFO a b¶ -> 2||log4rs-run: errors in the configuration: Invalid logger name `a:b`¶
pattern|{m}|a::=info -> INFO a b¶ -> 2||log4rs-run: errors in the configuration: Invalid logger name `a::`¶
pattern|{m}|::=info|a=off|a=off -> INFO a b¶ -> 2||log4rs-run: errors in the configuration: Invalid logger name `::`; Duplicate logger name `a`¶
pattern|{l}/{t}/{m}; ->  -> 0||
pattern|{l}/{t}/{m}; -> INFO a b¶ -> 0|INFO/a/b;|
pattern|{l}/{t}/{m}; -> info a b -> 0|INFO/a/b;|
pattern|{l}/{t}/{m}; -> eRRoR a b¶Warn c d¶ -> 0|ERROR/a/b;WARN/c/d;|
pattern|{l}/{t}/{m}; -> INFO  b¶ -> 0|INFO//b;|
pattern|{l}/{t}/{m}; -> INFO a ¶ -> 0|INFO/a/;|
pattern|{l}/{t}/{m}; -> INFO  ¶ -> 0|INFO//;|
pattern|{l}/{t}/{m}; -> INFO   -> 0|INFO//;|
pattern|{l}/{t}/{m}; -> INFO a  b  c ¶ -> 0|INFO/a/ b  c ;|
pattern|{l}/{t}/{m}; -> INFO a b\r¶ -> 0|INFO/a/b\r;|
pattern|{l}/{t}/{m}; -> INFO \u{e4} \u{20ac}¶ -> 0|INFO/\u{e4}/\u{20ac};|
pattern|{l}/{t}/{m}; -> INFO a 1¶INFO a -> 1|INFO/a/1;|log4rs-run: line 2: malformed¶
pattern|{l}/{t}/{m}; -> INFO a 1¶¶ -> 1|INFO/a/1;|log4rs-run: line 2: malformed¶
threads|4|1000 -> INFO a b¶ -> 0|4000 receipts read back¶|
threads|16|3 -> INFO a b¶ -> 0|48 receipts read back¶|
threads|1|0 -> INFO a b¶ -> 0|0 receipts read back¶|
threads|002|01 -> INFO a b¶ -> 0|2 receipts read back¶|";

/// Malformed lines, separated by bars.
const MALFORMED: &str = "| |  |INFO|INFO |INFO a| INFO a b|OFF a b|off a b|LOUD a b";

/// Inputs whose second line is not UTF-8.
const NO_TEXTS: [&[u8]; 2] = [
    b"INFO a 1\nINFO a \xff\nINFO a 3\n",
    b"INFO a 1\n\xffINFO a b\nINFO a 3\n",
];

/// The outcome of a run whose second line is malformed.
const SECOND: &str = "1|1;3;|log4rs-run: line 2: malformed\n";

/// Splits a row at its first arrow. Fails if there is none.
pub(crate) fn parts(row: &str) -> Result<(&str, &str), Fail> {
    let Some(parts) = row.split_once(" -> ") else {
        return Err(Fail::new("a row has no arrow"));
    };
    Ok(parts)
}

/// Returns a text with newlines in place of pilcrows.
pub(crate) fn lines_of(alloc: Global, text: &str) -> Result<String, AllocError> {
    text.replace(alloc, "¶", "\n")
}

/// Runs with the arguments that bars separate. Returns whether the outcome is the expected one.
fn ends<X: Threads + Wait + Eprint + Clock + Clone + Copy + Send + Sync + Drop + 'static>(
    rt: &HostRuntime,
    files: X,
    args: &str,
    input: &[u8],
    expected: &str,
) -> Result<bool, Fail> {
    let args = arguments(rt.alloc(), args)?;
    let came = ended(rt, files, &args, input)?;
    Ok(came.as_str() == expected)
}

/// Returns whether the run of a row has the outcome of the row.
fn ends_so<X: Threads + Wait + Eprint + Clock + Clone + Copy + Send + Sync + Drop + 'static>(
    rt: &HostRuntime,
    files: X,
    row: &str,
) -> Result<bool, Fail> {
    let (args, rest) = parts(row)?;
    let (input, expected) = parts(rest)?;
    let input = lines_of(rt.alloc(), input)?;
    let expected = lines_of(rt.alloc(), expected)?;
    ends(rt, files, args, input.as_bytes(), &expected)
}

#[test]
fn runs_end_so(rt: HostRuntime) -> Result<(), Fail> {
    for row in RUNS.lines() {
        assert!(rt; ends_so(&rt, rt, row)?, "{row}");
    }
    Ok(())
}

#[test]
fn version_and_help(rt: HostRuntime) -> Result<(), Fail> {
    let version = format!(in rt.alloc(); "0|log4rs-run {VERSION}\n|")?;
    assert!(rt; ends(&rt, rt, "--version", b"INFO a b\n", &version)?);
    let help = format!(in rt.alloc(); "0|{HELP}|")?;
    assert!(rt; ends(&rt, rt, "--help", b"INFO a b\n", &help)?);
    Ok(())
}

#[test]
fn levels_of_loggers(rt: HostRuntime) -> Result<(), Fail> {
    for row in BY_LEVELS.lines() {
        let (args, expected) = parts(row)?;
        assert!(rt; ends(&rt, rt, args, LEVELS, expected)?, "{row}");
    }
    Ok(())
}

#[test]
fn malformed_lines(rt: HostRuntime) -> Result<(), Fail> {
    for line in MALFORMED.split('|') {
        let input = format!(in rt.alloc(); "INFO a 1\n{line}\nINFO a 3\n")?;
        assert!(rt;
            ends(&rt, rt, "pattern|{m};", input.as_bytes(), SECOND)?,
            "{line}"
        );
    }
    for input in NO_TEXTS {
        assert!(rt; ends(&rt, rt, "pattern|{m};", input, SECOND)?);
    }
    Ok(())
}

#[test]
fn wrong_arguments_print_the_usage(rt: HostRuntime) -> Result<(), Fail> {
    for args in WRONG.lines() {
        assert!(rt; ends(&rt, rt, args, b"INFO a b\n", USAGE)?, "{args}");
    }
    let came = ended(&rt, rt, &[], b"INFO a b\n")?;
    assert_eq!(rt; came.as_str(), USAGE);
    Ok(())
}

#[test]
fn each_record_draws_a_word(rt: HostRuntime) -> Result<(), Fail> {
    let args = arguments(rt.alloc(), "pattern|")?;
    let (mut out, mut err) = (Vec::new(rt.alloc()), Vec::new(rt.alloc()));
    let mut drawn = host_of(&rt, rt, Still);
    let mut input = b"INFO a 1\nINFO a 2\n".as_slice();
    let _ = run(
        &args,
        no_file(&rt),
        &mut drawn,
        &mut input,
        &mut out,
        &mut err,
    );
    let mut random = StdRng::seed_from_u64(1);
    let _ = random.next_u64();
    let _ = random.next_u64();
    assert_eq!(rt; drawn.random.next_u64(), random.next_u64());
    Ok(())
}
