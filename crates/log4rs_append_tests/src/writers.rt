use crate::setup::{cut, same};
use log4rs_base::OutOfMemory;
use log4rs_encode::writer::{
    AnsiWriter, ColorMode, ConsoleWriter, SimpleWriter, StdWriter, Write, push_ansi, push_plain,
};
use log4rs_encode::{Color, Run, Style, Styled};
use std::alloc::Global;
use std::collections::BTreeMap;
use std::io::{self, Error, ErrorKind, Write as _};
use std::process::Abort;
use std::test::Fail;

/// Writes styled text with a writer for terminals, a plain writer, `push_ansi` and `push_plain`.
/// Returns the four texts, separated by bars.
fn written(alloc: Global, styled: &Styled) -> Result<String, Fail> {
    let mut ansi = AnsiWriter(Vec::new(alloc));
    ansi.write_styled(styled)?;
    let mut plain = SimpleWriter(ansi.0);
    plain.write_all(b"|")?;
    plain.write_styled(styled)?;
    plain.write_all(b"|")?;
    let mut bytes = plain.0;
    push_ansi(&mut bytes, styled)?;
    bytes.push(b'|')?;
    push_plain(&mut bytes, styled)?;
    Ok(String::from_utf8(bytes)?)
}

/// Returns a styled text of three runs: `ab`, a style, and `c`.
fn styled(alloc: Global) -> Result<Styled, Fail> {
    let style = Style::new().text(Color::Red);
    let mut front = Styled::new(alloc);
    front.push_text("a")?;
    front.push_text("b")?;
    front.set_style(style.background(Color::White).intense(true))?;
    let mut back = Styled::new(alloc);
    back.push_string(String::from_str(alloc, "c")?)?;
    front.append(back)?;
    Ok(front)
}

/// Returns the texts of styled text, with a bar for each style.
fn shape(alloc: Global, styled: &Styled) -> Result<String, Fail> {
    let mut shape = String::new(alloc);
    for run in styled.runs() {
        match run {
            Run::Text(text) => shape.push_str(text)?,
            Run::Style(_) => shape.push('|')?,
        }
    }
    Ok(shape)
}

#[test]
fn styled_text(rt: HostRuntime) -> Result<(), Fail> {
    let mut front = styled(rt.alloc())?;
    same(&rt, shape(rt.alloc(), &front)?.as_str(), "ab|c");
    let expected = "ab\u{1b}[0;31;47;1mc|abc|ab\u{1b}[0;31;47;1mc|abc";
    same(&rt, written(rt.alloc(), &front)?.as_str(), expected);
    same(&rt, front.to_text()?.as_str(), "abc");
    front.clear();
    let mut text = front.spare_text();
    text.push_str("gone")?;
    front.keep_spare(text);
    assert!(rt; front.is_empty());
    same(&rt, front.into_text()?.as_str(), "");
    Ok(())
}

/// Returns the code of a style on a terminal.
fn code(alloc: Global, style: Style) -> Result<String, Fail> {
    let mut ansi = AnsiWriter(SimpleWriter(Vec::new(alloc)));
    ansi.set_style(&style)?;
    ansi.0.set_style(&style)?;
    Ok(String::from_utf8(ansi.0.0)?)
}

#[test]
fn codes_of_styles(rt: HostRuntime) -> Result<(), Fail> {
    let none = Style::new();
    let colors = none.text(Color::White).background(Color::Blue);
    let mut codes = String::new(rt.alloc());
    for style in [
        none,
        colors.intense(false),
        none.background(Color::Red),
        none.intense(true),
        none.text(Color::Black),
        none.text(Color::Green),
        none.text(Color::Yellow),
        none.text(Color::Magenta),
        none.text(Color::Cyan),
    ] {
        codes.push_str(code(rt.alloc(), style)?.as_str())?;
    }
    let expected = "\u{1b}[0m\u{1b}[0;37;44;22m\u{1b}[0;41m\u{1b}[0;1m\u{1b}[0;30m\u{1b}[0;32m\
        \u{1b}[0;33m\u{1b}[0;35m\u{1b}[0;36m";
    same(&rt, codes.as_str(), expected);
    Ok(())
}

/// Takes two bytes, and refuses each later write. Takes five bytes of a whole text, and refuses the
/// rest. Refuses to flush. Notes its calls, each with the number of bytes.
#[derive(Drop)]
struct Narrow {
    bytes: Vec<u8>,
    calls: String,
}

impl io::Write for Narrow {
    fn write(&mut self, buf: &[u8]) -> io::Result<usize> {
        write!(self.calls, " w{}", buf.len())?;
        if !self.bytes.is_empty() {
            return Err(Error::from(ErrorKind::BrokenPipe));
        }
        let taken = buf.len().min(2);
        self.bytes.extend_from_slice(&buf[..taken])?;
        Ok(taken)
    }

    fn flush(&mut self) -> io::Result<()> {
        self.calls.push_str(" f")?;
        Err(Error::from(ErrorKind::TimedOut))
    }

    fn write_all(&mut self, buf: &[u8]) -> io::Result<()> {
        write!(self.calls, " a{}", buf.len())?;
        self.bytes.extend_from_slice(&buf[..buf.len().min(5)])?;
        Err(Error::from(ErrorKind::StorageFull))
    }
}

/// Returns the kind of an error.
fn kind<T>(answer: &io::Result<T>) -> Option<ErrorKind> {
    match answer {
        Ok(_) => None,
        Err(fault) => Some(fault.kind()),
    }
}

/// Writes five bytes twice, writes a text of 100 bytes, and flushes. Returns the answers.
fn answers<W: io::Write>(alloc: Global, writer: &mut W) -> Result<String, Fail> {
    let text = format!(in alloc; "fghij{:95}", "")?;
    let taken = writer.write(b"abcde").unwrap_or(0);
    let second = kind(&writer.write(b"abcde"));
    let all = kind(&writer.write_all(text.as_bytes()));
    let flushed = kind(&writer.flush());
    Ok(format!(in alloc; "{taken} {second:?} {all:?} {flushed:?}")?)
}

/// What each writer answers, and what the writer inside it is asked and holds.
const PASSED: &str = "2 Some(BrokenPipe) Some(StorageFull) Some(TimedOut) w5 w5 a100 f abfghij";

/// Writes with a plain writer, one for terminals, or the second over the first. Returns the answers,
/// the calls of the writer inside, and its bytes.
fn passed(alloc: Global, which: &str) -> Result<String, Fail> {
    let mut inner = Narrow {
        bytes: Vec::new(alloc),
        calls: String::new(alloc),
    };
    let answers = match which {
        "plain" => answers(alloc, &mut SimpleWriter(&mut inner))?,
        "ansi" => answers(alloc, &mut AnsiWriter(&mut inner))?,
        _ => answers(alloc, &mut AnsiWriter(SimpleWriter(&mut inner)))?,
    };
    let bytes = String::from_utf8(inner.bytes)?;
    Ok(format!(in alloc; "{answers}{} {bytes}", inner.calls)?)
}

#[test]
fn calls_are_passed_on(rt: HostRuntime) -> Result<(), Fail> {
    for which in ["plain", "ansi", "both"] {
        same(&rt, passed(rt.alloc(), which)?.as_str(), PASSED);
    }
    Ok(())
}

/// Returns the color mode of variables such as `NO_COLOR=1 CLICOLOR=`.
fn mode(alloc: Global, variables: &str) -> Result<ColorMode, OutOfMemory> {
    let mut env = BTreeMap::new(alloc);
    for variable in variables.split_whitespace() {
        let (name, value) = variable.split_once('=').unwrap_or((variable, ""));
        let name = String::from_str(alloc, name)?;
        env.insert(name, String::from_str(alloc, value)?)?;
    }
    Ok(ColorMode::from_env(&env))
}

/// Asserts that a standard stream accepts an empty text.
fn passes_nothing<W: io::Write>(rt: &impl Abort, writer: &mut W) -> Result<(), Fail> {
    assert!(rt; matches!(writer.write(b""), Ok(0)));
    writer.write_all(b"")?;
    writer.flush()?;
    Ok(())
}

/// Variables, and whether a terminal and another stream show styles then.
const MODES: &str = "\
NO_COLOR=|false false
NO_COLOR= CLICOLOR_FORCE=1|false false
CLICOLOR_FORCE= NO_COLOR=0|true true
NO_COLOR=1 CLICOLOR_FORCE=1|false false
CLICOLOR_FORCE=1 CLICOLOR=0|true true
CLICOLOR_FORCE=0 CLICOLOR=|true false
CLICOLOR=0|false false
|true false";

#[test]
fn consoles(rt: HostRuntime) -> Result<(), Fail> {
    for line in MODES.lines() {
        let (variables, expected) = cut(line);
        let mode = mode(rt.alloc(), variables)?;
        let terminal = ConsoleWriter::stdout(rt.stdout(), mode, true).is_some();
        let other = ConsoleWriter::stderr(rt.stderr(), mode, false).is_some();
        let shown = format!(in rt.alloc(); "{terminal} {other}")?;
        same(&rt, shown.as_str(), expected);
    }
    passes_nothing(&rt, &mut StdWriter::stdout(rt.stdout()))?;
    passes_nothing(&rt, &mut StdWriter::stderr(rt.stderr()).lock())?;
    if let Some(mut writer) = ConsoleWriter::stdout(rt.stdout(), ColorMode::Always, false) {
        passes_nothing(&rt, &mut writer)?;
        passes_nothing(&rt, &mut writer.lock())?;
    }
    Ok(())
}
