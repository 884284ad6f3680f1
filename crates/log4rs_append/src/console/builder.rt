//! The builder of console appenders.

ghost use Rattle.std.specs.Prelude.{◌≡◌, IfOk, false};
ghost use Rattle.log4rs_encode.specs.Colors.{shows_color};
ghost use Rattle.log4rs_append.specs.Console.{console_sink, may_write, refusals_on};
ghost use Rattle.log4rs_append.specs.Console.{target_of, tty_only_of, maker_of, encoder_of, out_of, shows_colors, is_writing, stream_of};
ghost use Rattle.log4rs_append.specs.Sink.{Untold};
ghost use Rattle.log4rs_base.specs.declared.target.Target.TheVariants as targets;

use crate::append::Append;
use crate::choice::{DefaultEncoder, Given, MakeEncoder};
use crate::console::ConsoleAppender;
use crate::console::console_out::{Console, ConsoleOut};
use crate::texts::TextBuffer;
use log4rs_base::{OutOfMemory, Target};
use log4rs_encode::Encode;
use log4rs_encode::pattern::PatternEncoder;
use log4rs_encode::writer::{ColorMode, StdWriter};
use std::alloc::Global;
use std::io::{Stderr, Stdout};

/// Builds an appender to a console.
#[derive(Drop)]
pub struct ConsoleAppenderBuilder<M> {
    alloc: Global,
    encoder: M,
    target: Target,
    tty_only: bool,
}

impl ConsoleAppender<PatternEncoder> {
    /// Creates a builder for standard output, with the default pattern. The appender writes to
    /// terminals and to anything else.
    pub fn builder(alloc: Global) -> ConsoleAppenderBuilder<DefaultEncoder>
        ensures target { target_of result ≡ targets.Stdout }
        ensures tty_only { tty_only_of result ≡ false }
    {
        ConsoleAppenderBuilder {
            alloc,
            encoder: DefaultEncoder,
            target: Target::Stdout,
            tty_only: false,
        }
    }
}

impl<M: MakeEncoder + Drop> ConsoleAppenderBuilder<M> {
    /// Sets the encoder.
    pub fn encoder<E: Encode>(self, encoder: E) -> ConsoleAppenderBuilder<Given<E>>
        ensures encoder { maker_of result ≡ record { 0 = encoder } }
        ensures target { target_of result ≡ target_of self }
        ensures tty_only { tty_only_of result ≡ tty_only_of self }
    {
        ConsoleAppenderBuilder {
            alloc: self.alloc,
            encoder: Given(encoder),
            target: self.target,
            tty_only: self.tty_only,
        }
    }

    /// Sets the stream.
    pub fn target(self, target: Target) -> ConsoleAppenderBuilder<M>
        ensures encoder { maker_of result ≡ maker_of self }
        ensures target { target_of result ≡ target }
        ensures tty_only { tty_only_of result ≡ tty_only_of self }
    {
        ConsoleAppenderBuilder {
            alloc: self.alloc,
            encoder: self.encoder,
            target,
            tty_only: self.tty_only,
        }
    }

    /// Sets whether it writes only if the console is a terminal.
    pub fn tty_only(self, tty_only: bool) -> ConsoleAppenderBuilder<M>
        ensures encoder { maker_of result ≡ maker_of self }
        ensures target { target_of result ≡ target_of self }
        ensures tty_only { tty_only_of result ≡ tty_only }
    {
        ConsoleAppenderBuilder {
            alloc: self.alloc,
            encoder: self.encoder,
            target: self.target,
            tty_only,
        }
    }

    /// Creates the appender to the chosen one of these streams. `tty` says whether that is a
    /// terminal. Fails if an allocation fails.
    pub fn build(
        self,
        stdout: Stdout,
        stderr: Stderr,
        mode: ColorMode,
        tty: bool,
    ) -> Result<ConsoleAppender<M::Made>, OutOfMemory>
        ensures encoder { IfOk result (λ a. M.makes (maker_of self)
            (M.Made.rendering (encoder_of a))) }
        ensures out { IfOk result (λ a. out_of a ≡ stream_of (target_of self) stdout stderr) }
        ensures colors { IfOk result (λ a. shows_colors a ≡ shows_color mode tty) }
        ensures writes { IfOk result (λ a. is_writing a ≡ may_write (tty_only_of self) tty) }
        ensures texts { IfOk result (λ a. (⟦<ConsoleAppender<M::Made> as Append>⟧.sink a).texts
            ≡ Untold) }
        ensures refusals { IfOk result
            (λ a. (⟦<ConsoleAppender<M::Made> as Append>⟧.sink a).refusals ≡ 0) }
    {
        let stream = match self.target {
            Target::Stdout => StdWriter::Stdout(stdout),
            Target::Stderr => StdWriter::Stderr(stderr),
        };
        self.build_on(ConsoleOut::Std(stream), mode.shows(tty), tty)
    }

    /// Creates the appender to this console, with or without colors. `tty` says whether it is a
    /// terminal. Fails if an allocation fails.
    pub fn build_on(
        self,
        out: ConsoleOut,
        color: bool,
        tty: bool,
    ) -> Result<ConsoleAppender<M::Made>, OutOfMemory>
        ensures encoder { IfOk result (λ a. M.makes (maker_of self)
            (M.Made.rendering (encoder_of a))) }
        ensures out { IfOk result (λ a. out_of a ≡ out) }
        ensures colors { IfOk result (λ a. shows_colors a ≡ color) }
        ensures writes { IfOk result (λ a. is_writing a ≡ may_write (tty_only_of self) tty) }
        ensures sink { IfOk result (λ a. ⟦<ConsoleAppender<M::Made> as Append>⟧.sink a
            ≡ console_sink (may_write (tty_only_of self) tty) color
            (M.Made.rendering (encoder_of a)) out (refusals_on out 0)) }
    {
        let writes = tty || !self.tty_only;
        let encoder = self.encoder.make(self.alloc)?;
        Ok(ConsoleAppender {
            encoder,
            console: Console::new(out),
            color,
            writes,
            buffer: TextBuffer::new(self.alloc),
        })
    }
}
