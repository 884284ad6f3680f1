//! Choices of encoders.

ghost use Rattle.std.specs.Prelude.{◌≡◌, List, Option, IfOk, codes};
ghost use Rattle.log4rs_base.specs.declared.record.Context.{Context as ContextData};
ghost use Rattle.log4rs_base.specs.declared.record.Record.{Record as RecordData};
ghost use Rattle.log4rs_encode.specs.Runs.{Run as RunData};
ghost use Rattle.log4rs_encode.specs.Rendering.{Renders};

use log4rs_base::OutOfMemory;
use log4rs_encode::Encode;
use log4rs_encode::pattern::PatternEncoder;
use std::alloc::Global;

/// Makes the encoder of an appender.
pub trait MakeEncoder {
    /// The type of the encoder.
    type Made: Encode;

    /// The renderings that the encoder may have.
    ghost makes: { Self → Option (RecordData → ContextData → List RunData) → Type 0 };

    /// Makes the encoder. Fails if an allocation fails.
    fn make(self, alloc: Global) -> Result<Self::Made, OutOfMemory>
        ensures { IfOk result (λ encoder. makes self (Self.Made.rendering encoder)) };
}

/// Makes the encoder of the default pattern, `{d} {l} {t} - {m}{n}`.
#[derive(Clone, Copy, Debug)]
pub struct DefaultEncoder;

impl MakeEncoder for DefaultEncoder {
    type Made = PatternEncoder;

    ghost makes = { λ _ rendering. Renders (codes "{d} {l} {t} - {m}{n}") rendering };

    fn make(self, alloc: Global) -> Result<PatternEncoder, OutOfMemory> {
        PatternEncoder::try_default(alloc)
    }
}

/// Gives the encoder that it holds.
#[derive(Drop)]
pub struct Given<E>(pub E);

impl<E: Encode> MakeEncoder for Given<E> {
    type Made = E;

    ghost makes = { λ given rendering. rendering ≡ E.rendering given.0 };

    fn make(self, _alloc: Global) -> Result<E, OutOfMemory> {
        Ok(self.0)
    }
}
