//! Styled text with ANSI escape codes.

ghost use Rattle.std.specs.Prelude.{OnOk, List, [], ◌∷◌, ◌++◌, ℕ, ◌+◌, ◌≡◌, ◌<◌, ◌≤◌};
ghost use Rattle.std.specs.Io.{WritesAtMost};
ghost use Rattle.std.specs.Io.KnownBytes.{WriteAppends, Appends, Keeps};
ghost use Rattle.arrayvec.specs.ArrayVec.{array_vec_len};
ghost use Rattle.log4rs_encode.specs.Ansi.{style_bytes, ansi_bytes, color_code, color_digit, intensity_code};
ghost use Rattle.log4rs_encode.specs.Runs.{run_of};

use crate::runs::{Run, Styled};
use crate::styles::{Color, Style};
use crate::writer::Write;
use arrayvec::ArrayVec;
use log4rs_base::OutOfMemory;
use std::io;

/// A writer that shows styles by ANSI escape codes.
#[derive(Clone, PartialEq, Eq, Hash, Debug, Drop)]
pub struct AnsiWriter<W>(pub W);

impl<W: io::Write> io::Write for AnsiWriter<W> {
    ghost contents = { λ s. W.contents s.0 };

    fn write(&mut self, buf: &[u8]) -> io::Result<usize> {
        self.0.write(buf)
    }

    fn flush(&mut self) -> io::Result<()> {
        self.0.flush()
    }

    fn write_all(&mut self, buf: &[u8]) -> io::Result<()> {
        self.0.write_all(buf)
    }
}

impl<W: io::Write> Write for AnsiWriter<W> {
    fn set_style(&mut self, style: &Style) -> io::Result<()>
        ensures some { OnOk result ((bytes : List ℕ)
            × Appends (W.contents self.old.0) (W.contents self.new.0) bytes) }
        ensures style { OnOk result (Appends (W.contents self.old.0) (W.contents self.new.0)
            (style_bytes style.now)) }
    {
        self.0.write_all(style_code(*style).as_slice())
    }
}

impl<W: io::Write> AnsiWriter<W> {
    /// Writes the texts, and the escape code of each style.
    pub fn write_styled(&mut self, styled: &Styled) -> io::Result<()>
        ensures { OnOk result (Appends (W.contents self.old.0) (W.contents self.new.0)
            (ansi_bytes styled.now)) }
    {
        for run in styled.runs() {
            self.write_run(run)?;
        }
        Ok(())
    }

    /// Writes a text, or the escape code of a style.
    fn write_run(&mut self, run: Run<'_>) -> io::Result<()>
        ensures { OnOk result (Appends (W.contents self.old.0) (W.contents self.new.0)
            (ansi_bytes (run_of run.entry ∷ []))) }
    {
        match run {
            Run::Text(text) => self.0.write_all(text.as_bytes()),
            Run::Style(style) => self.0.write_all(style_code(style).as_slice()),
        }
    }
}

/// Appends the color of a text or a background, by its kind, to the code of a style.
fn push_color(code: &mut ArrayVec<u8, 13>, kind: u8, color: Option<Color>)
    requires { array_vec_len code.old < 11 }
    ensures bytes { code.new.items ≡ code.old.items ++ color_code kind color }
    ensures len { array_vec_len code.new ≤ array_vec_len code.old + 3 }
{
    if let Some(color) = color {
        code.push(b';');
        code.push(kind);
        code.push(digit(color));
    }
}

/// Appends the intensity of a text to the code of a style.
fn push_intensity(code: &mut ArrayVec<u8, 13>, intense: Option<bool>)
    requires { array_vec_len code.old < 11 }
    ensures bytes { code.new.items ≡ code.old.items ++ intensity_code intense }
    ensures len { array_vec_len code.new ≤ array_vec_len code.old + 3 }
{
    match intense {
        Some(true) => {
            code.push(b';');
            code.push(b'1');
        }
        Some(false) => {
            code.push(b';');
            code.push(b'2');
            code.push(b'2');
        }
        None => {}
    }
}

/// Returns the escape code of a style.
fn style_code(style: Style) -> ArrayVec<u8, 13>
    ensures { result.items ≡ style_bytes style }
{
    let mut code = ArrayVec::<u8, 13>::new();
    code.push(0x1b);
    code.push(b'[');
    code.push(b'0');
    push_color(&mut code, b'3', style.text);
    push_color(&mut code, b'4', style.background);
    push_intensity(&mut code, style.intense);
    code.push(b'm');
    code
}

/// Returns the last digit of the code of a color.
fn digit(color: Color) -> u8
    ensures { result ≡ color_digit color }
{
    match color {
        Color::Black => b'0',
        Color::Red => b'1',
        Color::Green => b'2',
        Color::Yellow => b'3',
        Color::Blue => b'4',
        Color::Magenta => b'5',
        Color::Cyan => b'6',
        Color::White => b'7',
    }
}

/// Appends the bytes of the texts, and the escape code of each style. If it fails, a beginning of
/// them may have been appended.
pub fn push_ansi(out: &mut Vec<u8>, styled: &Styled) -> Result<(), OutOfMemory>
    ensures { OnOk result (out.new.items ≡ out.old.items ++ ansi_bytes styled.now) }
{
    for run in styled.runs() {
        push_ansi_run(out, run)?;
    }
    Ok(())
}

/// Appends the bytes of a text, or the escape code of a style.
fn push_ansi_run(out: &mut Vec<u8>, run: Run<'_>) -> Result<(), OutOfMemory>
    ensures { OnOk result (out.new.items ≡ out.old.items ++ ansi_bytes (run_of run.entry ∷ [])) }
{
    match run {
        Run::Text(text) => out.extend_from_slice(text.as_bytes())?,
        Run::Style(style) => out.extend_from_slice(style_code(style).as_slice())?,
    }
    Ok(())
}
