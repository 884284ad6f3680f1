use crate::rolling::answers;
use crate::setup::{append, cut, pattern, planned, same};
use log4rs_append::{Append, ConsoleAppender, ConsoleOut, MemOut, Target};
use log4rs_base::print::left_out;
use log4rs_encode::Encode;
use log4rs_encode::writer::{ColorMode, StdWriter};
use std::alloc::Global;
use std::io::Write;
use std::test::Fail;

/// Returns the text of the console in memory and the number of refused writes and flushes.
fn held<E: Encode>(alloc: Global, appender: &ConsoleAppender<E>) -> Result<String, Fail> {
    let ConsoleOut::Memory(memory) = appender.out() else {
        return Ok(String::new(alloc));
    };
    let bytes = Vec::from_slice(alloc, memory.bytes())?;
    let text = String::from_utf8(bytes)?;
    Ok(format!(in alloc; "{text} {}", memory.refusals())?)
}

/// Appends the messages of a line to a console that is no terminal. Returns the outcomes, the text
/// of the console and the number of refusals, and what the line expects.
fn came(alloc: Global, line: &str) -> Result<(String, &str), Fail> {
    let (text, rest) = cut(line);
    let (color, rest) = cut(rest);
    let (terminals, rest) = cut(rest);
    let (plan, rest) = cut(rest);
    let (messages, expected) = cut(rest);
    let mut memory = MemOut::new(alloc);
    memory.plan(planned(alloc, plan)?);
    let builder = ConsoleAppender::builder(alloc)
        .encoder(pattern(alloc, text)?)
        .tty_only(terminals == "terminals");
    let out = ConsoleOut::Memory(memory);
    let mut appender = builder.build_on(out, color == "color", false)?;
    let mut came = answers(alloc, &mut appender, messages)?;
    write!(came, " {}", held(alloc, &appender)?)?;
    appender.flush();
    Ok((came, expected))
}

/// A pattern, `color` or `plain`, `terminals` if only these are written to, the plan of the console,
/// messages, and the expected outcomes, text and number of refusals. The plan `111x` refuses within
/// the first message, and `.x` refuses its flush.
const CASES: &str = "\
{h({m}):3.2}|color|||abcdef xyz| ok ok \u{1b}[0;31;1mab\u{1b}[0m \u{1b}[0;31;1mxy\u{1b}[0m  0
{h({m}):3.2}|plain|||abcdef xyz| ok ok ab xy  0
{m}|plain||111x|abcdef| store abc 1
{m}|plain||111x|abcdef xyz| store ok abcxyz 1
{m}|plain||.x|ab| store ab 1
{m}|plain||.x|abcdef xyz| store ok abcdefxyz 1
{m}|color|terminals||abcdef xyz| ok ok  0";

#[test]
fn texts_and_refusals(rt: HostRuntime) -> Result<(), Fail> {
    for line in CASES.lines() {
        let (came, expected) = came(rt.alloc(), line)?;
        same(&rt, came.as_str(), expected);
    }
    let mut memory = MemOut::new(rt.alloc());
    memory.write_all(b"> ")?;
    memory.flush()?;
    let builder = ConsoleAppender::builder(rt.alloc()).tty_only(true);
    let mut appender = builder.build_on(ConsoleOut::Memory(memory), false, true)?;
    append(rt.alloc(), &mut appender, "a")?;
    let expected = "> 1970-01-01T00:00:00+00:00 ERROR app - a\n 0";
    assert_eq!(rt; held(rt.alloc(), &appender)?.as_str(), expected);
    Ok(())
}

#[test]
fn standard_streams(rt: HostRuntime) -> Result<(), Fail> {
    let encoder = pattern(rt.alloc(), "")?;
    let builder = ConsoleAppender::builder(rt.alloc())
        .encoder(encoder)
        .target(Target::Stderr);
    let mut appender = builder.build(rt.stdout(), rt.stderr(), ColorMode::Auto, true)?;
    append(rt.alloc(), &mut appender, "a")?;
    assert!(rt; matches!(appender.out(), ConsoleOut::Std(StdWriter::Stderr(_))));
    assert_eq!(rt; appender.refusals(), 0);
    Ok(())
}

/// The numbers of faults of one kind, and how many were left out before each that is printed.
const NUMBERS: &str = "1=0 2=0 10=0 11=- 19=- 20=9 21=- 30=- 40=19 60=- 80=39 100=- 160=79";

#[test]
fn later_faults_are_left_out(rt: HostRuntime) -> Result<(), Fail> {
    for pair in NUMBERS.split(' ') {
        let (number, expected) = pair.split_once('=').unwrap_or((pair, ""));
        let shown = match left_out(number.parse::<u64>().unwrap_or(0)) {
            Some(count) => format!(in rt.alloc(); "{count}")?,
            None => String::from_str(rt.alloc(), "-")?,
        };
        assert_eq!(rt; shown.as_str(), expected, "{pair}");
    }
    Ok(())
}
