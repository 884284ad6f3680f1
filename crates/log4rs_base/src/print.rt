//! Output of faults: `log4rs: ` and the text of the fault, on one line.

use crate::LogError;
use std::fmt::{self, Display, Formatter, InlineText};
use std::io::{self, Write};

/// The prefix of a fault.
const BEGIN: &str = "log4rs: ";

/// Prints a fault to standard error, on one line after `log4rs: `. Ignores what cannot be printed.
pub fn print_fault<D: Display>(rt: &impl Eprint, fault: &D) {
    let _ = eprintln!(rt; "{BEGIN}{}", Escaped(fault));
}

/// The number of faults of one kind that are printed one by one.
const SINGLE: u64 = 10;

/// Returns how many faults of one kind were left out before the one of this number, or `None` if
/// that is left out too: the first ten are printed, and then one each time that their number has
/// doubled.
pub fn left_out(number: u64) -> Option<u64> {
    if number <= SINGLE {
        Some(0)
    } else if number % SINGLE == 0 && (number / SINGLE).is_power_of_two() {
        Some(number / 2 - 1)
    } else {
        None
    }
}

/// Prints the fault of this number among those of its kind as `print_fault` does, unless it is left
/// out.
pub fn print_counted<D: Display>(rt: &impl Eprint, number: u64, fault: &D) {
    if let Some(left_out) = left_out(number) {
        print_fault(rt, &Counted { left_out, fault });
    }
}

/// A fault, with how many of its kind were left out before.
#[derive(Drop)]
pub struct Counted<'a, D> {
    pub left_out: u64,
    pub fault: &'a D,
}

impl<D: Display> Display for Counted<'_, D> {
    fn fmt<W: fmt::Write>(&self, f: &mut Formatter<W>) -> fmt::Result {
        write!(f, "{}", self.fault)?;
        match self.left_out {
            0 => Ok(()),
            left_out => write!(f, " ({left_out} lines like this were left out)"),
        }
    }
}

/// A fault of an appender. It is shown as `appender NAME: FAULT`.
#[derive(Drop)]
pub struct AppenderFault<'a> {
    /// The name of the appender.
    pub name: &'a str,
    /// The fault.
    pub fault: &'a LogError,
}

impl Display for AppenderFault<'_> {
    fn fmt<W: fmt::Write>(&self, f: &mut Formatter<W>) -> fmt::Result {
        write!(f, "appender {}: {}", self.name, self.fault)
    }
}

/// The most bytes of a line that `write_line` writes.
const LINE: usize = 256;

/// Writes a fault to an output as one piece, on one line, which is cut if it is long. What cannot be
/// written is lost.
pub fn write_line<D: Display, W: Write>(out: &mut W, fault: &D) {
    let line = InlineText::<LINE>::of(Line(fault));
    let _ = out.write_all(line.as_str().as_bytes());
}

/// A fault as it is printed, with the end of its line.
#[derive(Drop)]
struct Line<'a, D>(&'a D);

impl<D: Display> Display for Line<'_, D> {
    fn fmt<W: fmt::Write>(&self, f: &mut Formatter<W>) -> fmt::Result {
        writeln!(f, "{BEGIN}{}", Escaped(self.0))
    }
}

/// Writes a fault to an output, on one line after `log4rs: `. Fails with the error of the output.
pub fn write_fault<D: Display, W: Write>(out: &mut W, fault: &D) -> io::Result<()> {
    writeln!(out, "{BEGIN}{}", Escaped(fault))
}

/// Shows a value on one line: control characters, U+2028 and U+2029 are written as their escapes.
#[derive(Drop)]
pub struct Escaped<'a, D>(pub &'a D);

impl<D: Display> Display for Escaped<'_, D> {
    fn fmt<W: fmt::Write>(&self, f: &mut Formatter<W>) -> fmt::Result {
        let mut line = OneLine { out: f };
        fmt::Write::write(&mut line, self.0)
    }
}

/// Passes each character on to a formatter, or its escape.
#[derive(Drop)]
struct OneLine<'a, W> {
    out: &'a mut Formatter<W>,
}

impl<W: fmt::Write> fmt::Write for OneLine<'_, W> {
    fn write_str(&mut self, text: &str) -> fmt::Result {
        if text.chars().all(is_plain) {
            return self.out.write_str(text);
        }
        for c in text.chars() {
            write_escaped(self.out, c)?;
        }
        Ok(())
    }
}

/// Returns whether a character stands for itself: it neither ends a line nor controls a terminal.
fn is_plain(c: char) -> bool {
    !c.is_control() && c != '\u{2028}' && c != '\u{2029}'
}

/// Writes a character, or its escape.
fn write_escaped<W: fmt::Write>(out: &mut Formatter<W>, c: char) -> fmt::Result {
    if is_plain(c) {
        return out.write_char(c);
    }
    for piece in c.escape_default() {
        out.write_char(piece)?;
    }
    Ok(())
}
