//! Loading of a text.
ghost use Rattle.std.specs.Prelude.{◌≡◌, ℕ, List, Option, Some, None, IfOk, IfErr};
ghost use Rattle.log4rs_settings.specs.declared.text.Format.{Format};
ghost use Rattle.log4rs_settings.specs.declared.load.LoadedText.{LoadedText};

use crate::Format;
use log4rs_base::OutOfMemory;

/// Errors of loading a text.
#[derive(Clone, Copy, Debug, PartialEq, Eq, Drop)]
pub enum LoadError {
    /// The text is no configuration.
    Refused,
    /// An allocation failed.
    Memory,
}

impl From<OutOfMemory> for LoadError {
    ghost use Rattle.log4rs_settings.specs.declared.load.LoadError.TheVariants.{Memory};

    ghost from_gives = { λ _ e. e ≡ Memory };

    fn from(_: OutOfMemory) -> Self {
        LoadError::Memory
    }
}

/// The configuration of a text, the faults of its parts, and its refresh rate in milliseconds.
#[derive(Drop)]
pub struct LoadedText<C, A, E> {
    /// The configuration, without the parts that have a fault.
    pub config: C,
    /// The faults of appenders and their filters.
    pub appender_errors: A,
    /// The faults of the configuration as a whole.
    pub config_errors: E,
    /// The refresh rate in milliseconds, if the text has one.
    pub rate: Option<u64>,
}

/// Builds the configurations of texts, with stores from a maker `M`, in surroundings `X`.
pub trait Loads<M, X> {
    /// The configurations.
    type Config;

    /// The faults of appenders and their filters.
    type AppenderErrors;

    /// The faults of a configuration as a whole.
    type ConfigErrors;

    // What a text of a format gives with a maker in surroundings, or that it is refused, and what
    // makes it before and after.
    ghost Gives: { M → X → Format → List ℕ
        → Option (LoadedText Self.Config Self.AppenderErrors Self.ConfigErrors)
        → Self → Self → Type 0 };

    // What stays of a maker and of what makes it, whatever is answered: both before and both after.
    ghost Stays: { M → Self → M → Self → Type 0 };

    /// Loads the configuration of a text. Fails with `Refused` if the text is no configuration,
    /// and with `Memory`.
    fn load(
        &mut self,
        format: Format,
        text: &str,
        maker: &mut M,
        surroundings: &X,
    ) -> Result<LoadedText<Self::Config, Self::AppenderErrors, Self::ConfigErrors>, LoadError>
        ensures ok { IfOk result (λ loaded.
            Gives maker.old surroundings.now format text.now (Some loaded) self.old self.new) }
        ensures err { IfErr result (λ error. error ≡ LoadError.Refused →
            Gives maker.old surroundings.now format text.now None self.old self.new) }
        ensures stays { Stays maker.old self.old maker.new self.new };
}
