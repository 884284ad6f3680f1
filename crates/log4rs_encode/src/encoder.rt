//! Encoders.

ghost use Rattle.std.specs.Prelude.{◌≡◌, ◌++◌, List, Option, None, IsSome, IfSome, IfErr, OnOk, OnErr, Result};
ghost use Rattle.log4rs_base.specs.declared.error.LogError.{LogError as LogErrorData};
ghost use Rattle.log4rs_base.specs.declared.error.LogError.TheVariants.{Memory};
ghost use Rattle.log4rs_base.specs.declared.record.Context.{Context as ContextData};
ghost use Rattle.log4rs_base.specs.declared.record.Record.{Record as RecordData};
ghost use Rattle.log4rs_encode.specs.Runs.{Run as RunData, join};

use crate::json::JsonEncoder;
use crate::pattern::PatternEncoder;
use crate::runs::Styled;
use log4rs_base::{Context, LogError, Record};

/// Turns records into styled text. An encoder whose `rendering` is visible to contracts appends
/// that of the record and its context, and fails only if an allocation fails. A caller's own
/// encoder may hide it, and may append anything.
pub trait Encode {
    ghost rendering: { Self → Option (RecordData → ContextData → List RunData) } = { λ _. None };

    /// The results that it may return for each record and its context, if contracts see them.
    ghost answers: { Self → RecordData → ContextData → Result Unit LogErrorData → Type 0 } = { λ _ _ _ _. Unit {0} };

    /// Appends the text of a record. If it fails, `out` is unchanged.
    fn encode(
        &self,
        out: &mut Styled,
        record: &Record,
        context: &Context<'_>,
    ) -> Result<(), LogError>
        ensures ok { OnOk result (IfSome (rendering self.now)
            (λ runs. out.new ≡ join (out.old ++ runs «record».now context.now))) }
        ensures err { OnErr result (out.new ≡ out.old) }
        ensures fault { IsSome (rendering self.now) → IfErr result (λ fault. fault ≡ Memory) }
        ensures answers { answers self.now «record».now context.now result };
}

impl Encode for Box<dyn Encode + Send + Sync + Drop> {
    ghost rendering = { λ b. (Encode-box b).rendering b.value };

    ghost answers = { λ b. (Encode-box b).answers b.value };

    fn encode(
        &self,
        out: &mut Styled,
        record: &Record,
        context: &Context<'_>,
    ) -> Result<(), LogError> {
        (**self).encode(out, record, context)
    }
}

/// An encoder of this crate, or a `C` of the caller's.
#[derive(Drop)]
pub enum EncoderOf<C> {
    /// Encodes with a pattern.
    Pattern(PatternEncoder),
    /// Encodes as JSON.
    Json(JsonEncoder),
    /// The caller's encoder.
    Custom(C),
}

/// An encoder of this crate, or a boxed one of the caller's.
pub type AnyEncoder = EncoderOf<Box<dyn Encode + Send + Sync + Drop>>;

impl<C: Encode> Encode for EncoderOf<C> {
    ghost use Rattle.log4rs_encode.specs.Encoders.{answers_of, rendering_of};

    ghost rendering = { rendering_of ⟦<PatternEncoder as Encode>⟧.rendering
        ⟦<JsonEncoder as Encode>⟧.rendering C.rendering };

    ghost answers = { answers_of ⟦<PatternEncoder as Encode>⟧.answers
        ⟦<JsonEncoder as Encode>⟧.answers C.answers };

    fn encode(
        &self,
        out: &mut Styled,
        record: &Record,
        context: &Context<'_>,
    ) -> Result<(), LogError> {
        match self {
            EncoderOf::Pattern(encoder) => encoder.encode(out, record, context),
            EncoderOf::Json(encoder) => encoder.encode(out, record, context),
            EncoderOf::Custom(encoder) => encoder.encode(out, record, context),
        }
    }
}
