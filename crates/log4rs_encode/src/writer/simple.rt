//! The texts of styled text, without the styles.

ghost use Rattle.std.specs.Prelude.{IsOk, OnOk, List, [], ◌∷◌, ◌++◌, ℕ, ◌≡◌};
ghost use Rattle.std.specs.Io.{WritesAtMost};
ghost use Rattle.std.specs.Io.KnownBytes.{WriteAppends, Appends, Keeps};
ghost use Rattle.log4rs_encode.specs.Runs.{plain_bytes, run_of};

use crate::runs::{Run, Styled};
use crate::styles::Style;
use crate::writer::Write;
use log4rs_base::OutOfMemory;
use std::io;

/// A writer that ignores styles.
#[derive(Clone, PartialEq, Eq, Hash, Debug, Drop)]
pub struct SimpleWriter<W>(pub W);

impl<W: io::Write> io::Write for SimpleWriter<W> {
    ghost contents = { λ s. W.contents s.0 };

    fn write(&mut self, buf: &[u8]) -> io::Result<usize> {
        self.0.write(buf)
    }

    fn flush(&mut self) -> io::Result<()> {
        self.0.flush()
    }

    fn write_all(&mut self, buf: &[u8]) -> io::Result<()> {
        self.0.write_all(buf)
    }
}

impl<W: io::Write> SimpleWriter<W> {
    /// Writes the texts without the styles.
    pub fn write_styled(&mut self, styled: &Styled) -> io::Result<()>
        ensures { OnOk result (Appends (W.contents self.old.0) (W.contents self.new.0)
            (plain_bytes styled.now)) }
    {
        for run in styled.runs() {
            self.write_run(run)?;
        }
        Ok(())
    }

    /// Writes a text. Ignores a style.
    fn write_run(&mut self, run: Run<'_>) -> io::Result<()>
        ensures { OnOk result (Appends (W.contents self.old.0) (W.contents self.new.0)
            (plain_bytes (run_of run.entry ∷ []))) }
    {
        match run {
            Run::Text(text) => self.0.write_all(text.as_bytes()),
            Run::Style(_) => Ok(()),
        }
    }
}

impl<W: io::Write> Write for SimpleWriter<W> {
    fn set_style(&mut self, _style: &Style) -> io::Result<()>
        ensures some { OnOk result ((bytes : List ℕ)
            × Appends (W.contents self.old.0) (W.contents self.new.0) bytes) }
        ensures nothing { self.new ≡ self.old }
        ensures ok { IsOk result }
    {
        Ok(())
    }
}

/// Appends the bytes of the texts without the styles. If it fails, a beginning of them may have
/// been appended.
pub fn push_plain(out: &mut Vec<u8>, styled: &Styled) -> Result<(), OutOfMemory>
    ensures { OnOk result (out.new.items ≡ out.old.items ++ plain_bytes styled.now) }
{
    for run in styled.runs() {
        push_plain_run(out, run)?;
    }
    Ok(())
}

/// Appends the bytes of a text. Ignores a style.
fn push_plain_run(out: &mut Vec<u8>, run: Run<'_>) -> Result<(), OutOfMemory>
    ensures { OnOk result (out.new.items ≡ out.old.items ++ plain_bytes (run_of run.entry ∷ [])) }
{
    if let Run::Text(text) = run {
        out.extend_from_slice(text.as_bytes())?;
    }
    Ok(())
}
