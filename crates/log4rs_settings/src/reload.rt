//! Reading a text again if it may have changed, once and as a worker.
ghost use Rattle.std.specs.Prelude.{◌≡◌, string_bytes, IfErr, OnErr};

use crate::Format;
use crate::load::{LoadError, LoadedText, Loads};
use crate::source::{ConfigSource, SourceError};
use log4rs_base::print::print_fault;
use log4rs_base::{Gate, OutOfMemory, SwapConfig, at_rate};
use std::sync::Wait;
use thiserror::Error;

/// The result of a reading: nothing changed, or the configuration of the new text.
#[derive(Drop)]
pub enum ReloadOf<C, A, E> {
    /// Nothing changed.
    Same,
    /// The new text has this configuration.
    Swap {
        /// The configuration, without the parts that have a fault.
        config: C,
        /// The faults of appenders and their filters.
        appender_errors: A,
        /// The faults of the configuration as a whole.
        config_errors: E,
        /// The refresh rate in milliseconds, if the text has one.
        rate: Option<u64>,
    },
}

/// Errors of a reading.
#[derive(Clone, Copy, Debug, PartialEq, Eq, Error)]
pub enum ReloadError {
    /// The source failed to return its stamp.
    #[error("the source does not tell whether its text has changed")]
    Modified,
    /// The source failed to return its text.
    #[error("the text of the configuration cannot be read")]
    Read,
    /// The text is no configuration.
    #[error("the text is no configuration")]
    Parse,
    /// An allocation failed.
    #[error("{}", OutOfMemory)]
    Memory,
}

/// Another text than the one that was read last, with the stamp that the source returned before it,
/// if it was asked for one.
#[derive(Drop)]
pub struct ChangedText {
    /// The text.
    pub text: String,
    /// The stamp.
    pub stamp: Option<u64>,
}

// Whether the text has to be read, and under which stamp.
#[derive(Clone, Copy, Drop)]
enum Asked {
    Same,
    Changed(Option<u64>),
}

/// The format of a source, the last text that was read, its stamp, and the refresh rate in
/// milliseconds.
#[derive(Drop)]
pub struct Reloader {
    format: Format,
    source: String,
    stamp: Option<u64>,
    rate: Option<u64>,
}

impl Reloader {
    ghost use Rattle.log4rs_settings.specs.Reload.{Reloads, AsksStamp, StaysOrSame, state_of, answer_of, Looks, found_of, Settles};

    /// Creates a reloader for a text that was read, with its refresh rate in milliseconds. Without
    /// a stamp the first step reads the source.
    pub fn new(format: Format, source: String, stamp: Option<u64>, rate: Option<u64>) -> Reloader
        ensures { state_of result ≡ record {
          format = format;
          source = string_bytes source;
          stamp = stamp;
          rate = rate;
        } }
    {
        Reloader {
            format,
            source,
            stamp,
            rate,
        }
    }

    /// Returns the refresh rate of the last text that was loaded, in milliseconds.
    pub fn rate(&self) -> Option<u64>
        ensures { result ≡ (state_of self.now).rate }
    {
        self.rate
    }

    /// Returns the format of the texts.
    pub fn format(&self) -> Format
        ensures { result ≡ (state_of self.now).format }
    {
        self.format
    }

    /// Returns the text that was read last.
    pub fn text(&self) -> &str
        ensures { result.now ≡ (state_of self.now).source }
    {
        self.source.as_str()
    }

    // Asks for the stamp, where one is kept.
    fn ask<S: ConfigSource>(&self, source: &mut S) -> Result<Asked, ReloadError>
        ensures { AsksStamp (S.answers source.old) (S.answers source.new) (state_of self.now) result }
    {
        let Some(last) = self.stamp else {
            return Ok(Asked::Changed(None));
        };
        match source.modified() {
            Ok(now) if now == last => Ok(Asked::Same),
            Ok(now) => Ok(Asked::Changed(Some(now))),
            Err(SourceError::Refused) => Err(ReloadError::Modified),
            Err(SourceError::Memory) => Err(ReloadError::Memory),
        }
    }

    /// Asks the source whether its text may have changed, and returns the text if it is another
    /// one, which is not kept yet: `settle` keeps it. Fails with `Modified`, `Read` or `Memory`;
    /// after `Memory` nothing changes.
    pub fn look<S: ConfigSource>(
        &mut self,
        source: &mut S,
    ) -> Result<Option<ChangedText>, ReloadError>
        ensures { Looks (S.answers source.old) (S.answers source.new) (state_of self.old)
            (found_of result) (state_of self.new) }
    {
        let stamp = match self.ask(source)? {
            Asked::Same => return Ok(None),
            Asked::Changed(stamp) => stamp,
        };
        let text = match source.read() {
            Ok(text) => text,
            Err(SourceError::Refused) => {
                self.stamp = stamp;
                return Err(ReloadError::Read);
            }
            Err(SourceError::Memory) => return Err(ReloadError::Memory),
        };
        if text.as_str() == self.source.as_str() {
            self.stamp = stamp;
            return Ok(None);
        }
        Ok(Some(ChangedText { text, stamp }))
    }

    /// Takes what a changed text gave, and returns it as the result of the reading. Keeps the text
    /// with its stamp, and its rate if it is a configuration. After `Memory` nothing changes.
    pub fn settle<C, A, E>(
        &mut self,
        changed: ChangedText,
        loaded: Result<LoadedText<C, A, E>, LoadError>,
    ) -> Result<ReloadOf<C, A, E>, ReloadError>
        ensures { Settles (state_of self.old) (string_bytes changed.text) changed.stamp loaded
            (answer_of result) (state_of self.new) }
    {
        match loaded {
            Ok(loaded) => {
                self.rate = loaded.rate;
                self.source = changed.text;
                self.stamp = changed.stamp;
                Ok(ReloadOf::Swap {
                    config: loaded.config,
                    appender_errors: loaded.appender_errors,
                    config_errors: loaded.config_errors,
                    rate: loaded.rate,
                })
            }
            Err(LoadError::Refused) => {
                self.source = changed.text;
                self.stamp = changed.stamp;
                Err(ReloadError::Parse)
            }
            Err(LoadError::Memory) => Err(ReloadError::Memory),
        }
    }

    /// Asks the source whether its text may have changed, and loads it if so.
    ///
    /// After `Swap` the new text is kept, with its stamp and its rate. After `Parse` the text is
    /// kept with its stamp, so that it is not parsed again, and the rate stays. After `Memory`
    /// nothing changes, so that the next step tries again.
    pub fn run_once<S: ConfigSource, M, X, D: Loads<M, X>>(
        &mut self,
        source: &mut S,
        deserializers: &mut D,
        maker: &mut M,
        surroundings: &X,
    ) -> Result<ReloadOf<D::Config, D::AppenderErrors, D::ConfigErrors>, ReloadError>
        ensures step { Reloads (D.Gives maker.old surroundings.now (state_of self.old).format)
            (S.answers source.old) (S.answers source.new) (state_of self.old) deserializers.old
            (answer_of result) (state_of self.new) deserializers.new }
        ensures memory { IfErr result (λ error.
            error ≡ ReloadError.Memory → state_of self.new ≡ state_of self.old) }
        ensures rate { OnErr result ((state_of self.new).rate ≡ (state_of self.old).rate) }
        ensures format { (state_of self.new).format ≡ (state_of self.old).format }
        ensures stays { StaysOrSame D.Stays maker.old deserializers.old maker.new
            deserializers.new }
    {
        match self.look(source)? {
            None => Ok(ReloadOf::Same),
            Some(changed) => {
                let text = changed.text.as_str();
                let loaded = deserializers.load(self.format, text, maker, surroundings);
                self.settle(changed, loaded)
            }
        }
    }

    // Makes one step, and hands on what it found. After an error the rate stays.
    fn reload<S: ConfigSource, M, X, D: Loads<M, X>, H>(
        &mut self,
        handle: &H,
        source: &mut S,
        deserializers: &mut D,
        maker: &mut M,
        surroundings: &X,
    ) -> Result<(), ReloadError>
    where
        H: SwapConfig<D::Config, D::AppenderErrors, D::ConfigErrors>,
        ensures { OnErr result ((state_of self.new).rate ≡ (state_of self.old).rate) }
    {
        let rate = self.rate();
        let found = self.run_once(source, deserializers, maker, surroundings)?;
        let ReloadOf::Swap {
            config,
            appender_errors,
            config_errors,
            ..
        } = found
        else {
            return Ok(());
        };
        if let Err(_) = handle.swap_config(config, appender_errors, config_errors) {
            self.rate = rate;
            return Err(ReloadError::Memory);
        }
        Ok(())
    }

    /// Makes a step whenever the gate lets the refresh rate of the current text pass, and hands
    /// each new configuration to `handle`. Prints an error to standard error as `log4rs: ` and its
    /// text, and keeps the rate. Ends when the gate says so, or when the current text has no
    /// refresh rate.
    pub fn run<R, G, H, S, M, X, D>(
        mut self,
        rt: &R,
        gate: &mut G,
        handle: &H,
        source: &mut S,
        deserializers: &mut D,
        maker: &mut M,
        surroundings: &X,
    )
    where
        R: Wait + Eprint,
        G: Gate,
        H: SwapConfig<D::Config, D::AppenderErrors, D::ConfigErrors>,
        S: ConfigSource,
        D: Loads<M, X>,
    {
        at_rate(rt, gate, self.rate(), || {
            if let Err(error) = self.reload(handle, source, deserializers, maker, surroundings) {
                print_fault(rt, &error);
            }
            self.rate()
        });
    }
}
