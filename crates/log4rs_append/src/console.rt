//! The appender that writes to a console.

ghost use Rattle.std.specs.Prelude.{◌≡◌};

use crate::append::Append;
use crate::texts::TextBuffer;
use console_out::Console;
use log4rs_base::{Context, LogError, Record};
use log4rs_encode::Encode;
use std::alloc::Global;
use std::io::Stderr;

mod builder;
mod console_out;
mod memory;
mod teller;

pub use builder::ConsoleAppenderBuilder;
pub use console_out::ConsoleOut;
pub use log4rs_base::Target;
pub use memory::MemOut;

/// Writes the text of each record to a console, and flushes it. An appender for terminals only
/// whose console is none does not encode either, and returns `Ok`. Fails with the error of the
/// encoder, before anything is written, or with `Store` if the console refuses; a prefix of the
/// text may then be written.
#[derive(Drop)]
pub struct ConsoleAppender<E> {
    encoder: E,
    console: Console,
    color: bool,
    writes: bool,
    buffer: TextBuffer,
}

impl<E: Encode> ConsoleAppender<E> {
    ghost use Rattle.log4rs_append.specs.Console.{console_bytes};
    ghost use Rattle.log4rs_append.specs.Console.{out_of, encoder_of, shows_colors, is_writing};
    ghost use Rattle.log4rs_append.specs.Sink.{AreHeld};

    /// Returns the console.
    pub fn out(&self) -> &ConsoleOut
        ensures value { result.now ≡ out_of self.now }
        ensures held { AreHeld (console_bytes result.now)
            (⟦<ConsoleAppender<E> as Append>⟧.sink self.now).texts }
    {
        &self.console.out
    }

    /// From now on prints to this stream why the system refuses writes or flushes of a standard
    /// stream, as `log4rs: standard output: ` and the cause: once, until there is another cause or
    /// a text was written. After ten such lines only the 20th, 40th and so on are printed.
    pub fn tell(&mut self, err: Stderr)
        ensures out { out_of self.new ≡ out_of self.old }
        ensures encoder { encoder_of self.new ≡ encoder_of self.old }
        ensures colors { shows_colors self.new ≡ shows_colors self.old }
        ensures writes { is_writing self.new ≡ is_writing self.old }
        ensures sink { ⟦<ConsoleAppender<E> as Append>⟧.sink self.new
            ≡ ⟦<ConsoleAppender<E> as Append>⟧.sink self.old }
    {
        self.console.teller.print_to(err);
    }

    /// Returns how many writes and flushes were refused. The count stops at `u64::MAX`.
    pub fn refusals(&self) -> u64
        ensures { result ≡ (⟦<ConsoleAppender<E> as Append>⟧.sink self.now).refusals }
    {
        self.console.refusals()
    }
}

impl<E: Encode> Append for ConsoleAppender<E> {
    ghost use Rattle.std.specs.Prelude.{false, IsOk, IsTrue, OnOk, Err};
    ghost use Rattle.log4rs_base.specs.declared.error.LogError.TheVariants.{Memory};
    ghost use Rattle.log4rs_append.specs.Console.{console_sink, refusals_of};
    ghost use Rattle.log4rs_append.specs.Console.{encoder_of, is_writing};
    ghost use Rattle.log4rs_append.specs.Sink.{Appended};
    ghost use Rattle.log4rs_append.specs.Texts.{AnsweredBy};
    ghost use Rattle.log4rs_rolling.specs.Faults.{MayAnswer};

    ghost sink = { λ a. console_sink a.writes a.color (E.rendering a.encoder) a.console.out
        (refusals_of a.console) };

    fn append(&mut self, record: &Record, context: &Context<'_>) -> Result<(), LogError>
        ensures appended { let sink = ⟦<ConsoleAppender<E> as Append>⟧.sink in
            Appended «record».now context.now result (sink self.old) (sink self.new) }
        ensures ok { let sink = ⟦<ConsoleAppender<E> as Append>⟧.sink in
            OnOk result ((sink self.new).refusals ≡ (sink self.old).refusals) }
        ensures silent { is_writing self.old ≡ false → IsOk result × (self.new ≡ self.old) }
        // If it may write, an error is the encoder's, and nothing is written then, or comes after
        // its Ok.
        ensures answered { let sink = ⟦<ConsoleAppender<E> as Append>⟧.sink in
            IsTrue (is_writing self.old)
            → AnsweredBy (E.answers (encoder_of self.old) «record».now context.now)
            (sink self.new ≡ sink self.old)
            (MayAnswer (sink self.old).refusals (sink self.new).refusals) result }
        ensures memory { let sink = ⟦<ConsoleAppender<E> as Append>⟧.sink in result ≡ Err Memory
            → sink self.new ≡ sink self.old }
    {
        if !self.writes {
            return Ok(());
        }
        self.buffer
            .encode(&self.encoder, self.color, record, context)?;
        self.console.write_text(self.buffer.bytes())?;
        self.console.flush()?;
        Ok(())
    }

    fn append_retired(&mut self, record: &Record, context: &Context<'_>) -> Result<(), LogError> {
        self.append(record, context)
    }

    fn flush(&mut self) {}
}
