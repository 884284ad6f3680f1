//! Writers of styled text.

ghost use Rattle.std.specs.Prelude.{OnOk, List, ℕ};
ghost use Rattle.std.specs.Io.KnownBytes.{Appends};

use crate::styles::Style;
use std::io;

pub mod ansi;
mod color;
pub mod console;
pub mod simple;
mod standard;

pub use ansi::{AnsiWriter, push_ansi};
pub use color::ColorMode;
pub use console::ConsoleWriter;
pub use simple::{SimpleWriter, push_plain};
pub use standard::{StdWriter, StdWriterLock};

/// A writer that may show styles.
pub trait Write: io::Write {
    /// Writes the text from here on in this style. Only adds bytes.
    fn set_style(&mut self, style: &Style) -> io::Result<()>
        ensures { OnOk result ((bytes : List ℕ)
            × Appends (Self.contents self.old) (Self.contents self.new) bytes) }
    {
        let _ = style;
        Ok(())
    }
}

impl<W: Write> Write for &mut W {
    fn set_style(&mut self, style: &Style) -> io::Result<()> {
        (**self).set_style(style)
    }
}
