//! Traits for taking over a configuration that was read again.

use crate::error::OutOfMemory;

/// The faults of a configuration's parts. Each is reported once.
pub trait FaultList {
    /// Prints each fault to standard error, as `log4rs: ` and its text, and forgets it. Ignores
    /// what cannot be printed.
    fn handle<W: Eprint>(&mut self, rt: &W);
}

/// Takes over a configuration `C`, and the faults `A` of its appenders and `E` of the whole.
pub trait SwapConfig<C, A, E> {
    /// Puts the configuration in place of the present one, and reports the faults of its parts.
    /// Fails if an allocation fails; the present one then stays.
    fn swap_config(
        &self,
        config: C,
        appender_errors: A,
        config_errors: E,
    ) -> Result<(), OutOfMemory>;
}
