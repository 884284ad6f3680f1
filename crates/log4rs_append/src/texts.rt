//! Texts of records in memory.

ghost use Rattle.std.specs.Prelude.{◌≡◌, ◌++◌, IsSome, IfSome, IfErr, OnOk};
ghost use Rattle.log4rs_append.specs.Texts.{AnsweredBy, made_in, shown_bytes};
ghost use Rattle.log4rs_base.specs.declared.error.LogError.TheVariants.{Memory};

use log4rs_base::{Context, LogError, OutOfMemory, Record};
use log4rs_encode::writer::{push_ansi, push_plain};
use log4rs_encode::{Encode, Styled};
use std::alloc::Global;

/// The text of a record. The next record reuses its buffers.
#[derive(Drop)]
pub(crate) struct TextBuffer {
    styled: Styled,
    /// The bytes of a text with styles.
    bytes: Vec<u8>,
}

impl TextBuffer {
    pub(crate) fn new(alloc: Global) -> TextBuffer {
        TextBuffer {
            styled: Styled::new(alloc),
            bytes: Vec::new(alloc),
        }
    }

    /// Makes the text of a record, with or without styles as terminal codes.
    #[inline(always)]
    pub(crate) fn encode<E: Encode>(
        &mut self,
        encoder: &E,
        color: bool,
        record: &Record,
        context: &Context<'_>,
    ) -> Result<(), LogError>
        ensures ok { OnOk result (IfSome (E.rendering encoder.now)
            (λ runs. made_in self.new ≡ shown_bytes color (runs «record».now context.now))) }
        ensures fault { IsSome (E.rendering encoder.now) → IfErr result (λ fault. fault ≡ Memory) }
        ensures answered { AnsweredBy (E.answers encoder.now «record».now context.now) (Unit {0})
            (λ fault. fault ≡ Memory) result }
    {
        self.styled.clear();
        encoder.encode(&mut self.styled, record, context)?;
        if self.styled.as_text().is_some() {
            return Ok(());
        }
        self.bytes.clear();
        push_shown(&mut self.bytes, &self.styled, color)?;
        Ok(())
    }

    /// Returns the bytes of the text that was made last.
    pub(crate) fn bytes(&self) -> &[u8]
        ensures { result.now ≡ made_in self.now }
    {
        match self.styled.as_text() {
            Some(text) => text.as_bytes(),
            None => self.bytes.as_slice(),
        }
    }
}

/// Appends styled text, with or without styles as terminal codes.
fn push_shown(out: &mut Vec<u8>, styled: &Styled, color: bool) -> Result<(), OutOfMemory>
    ensures { OnOk result (out.new.items ≡ out.old.items ++ shown_bytes color styled.now) }
{
    if color {
        push_ansi(out, styled)
    } else {
        push_plain(out, styled)
    }
}
