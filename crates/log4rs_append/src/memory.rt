//! The appender that keeps records in memory.

ghost use Rattle.std.specs.Prelude.{◌≡◌, []};

use crate::append::Append;
use log4rs_base::{Context, LogError, Record};
use log4rs_encode::{Encode, Styled};
use std::alloc::Global;

/// Keeps the plain text of each record as one item. Fails with the error of the encoder, or with
/// `Memory` if an allocation fails; no item is added then.
#[derive(Drop)]
pub struct MemoryAppender<E> {
    encoder: E,
    /// The text of a record, and the memory for the next one.
    styled: Styled,
    records: Vec<String>,
}

impl<E: Encode> MemoryAppender<E> {
    ghost use Rattle.std.specs.Prelude.{map, string_bytes};
    ghost use Rattle.log4rs_append.specs.Sink.{items_sink, IsHeld};

    /// Creates an appender that holds nothing.
    pub fn new(alloc: Global, encoder: E) -> MemoryAppender<E>
        ensures { ⟦<MemoryAppender<E> as Append>⟧.sink result
            ≡ items_sink (E.rendering encoder) [] }
    {
        MemoryAppender {
            encoder,
            styled: Styled::new(alloc),
            records: Vec::new(alloc),
        }
    }

    /// Returns the texts that it holds, in order.
    pub fn records(&self) -> &[String]
        ensures { IsHeld (map (λ s. string_bytes s) result.now)
            (⟦<MemoryAppender<E> as Append>⟧.sink self.now).texts }
    {
        self.records.as_slice()
    }
}

impl<E: Encode> Append for MemoryAppender<E> {
    ghost use Rattle.std.specs.Prelude.{map, string_bytes};
    ghost use Rattle.std.specs.Prelude.{OnErr};
    ghost use Rattle.log4rs_base.specs.declared.error.LogError.TheVariants.{Memory};
    ghost use Rattle.log4rs_append.specs.Memory.{encoder_of};
    ghost use Rattle.log4rs_append.specs.Sink.{Appended, items_sink};
    ghost use Rattle.log4rs_append.specs.Texts.{AnsweredBy};

    ghost sink = { λ a. items_sink (E.rendering a.encoder)
        (map (λ s. string_bytes s) a.records.items) };

    #[inline(always)]
    fn append(&mut self, record: &Record, context: &Context<'_>) -> Result<(), LogError>
        ensures appended { let sink = ⟦<MemoryAppender<E> as Append>⟧.sink in
            Appended «record».now context.now result (sink self.old) (sink self.new) }
        // An error is the encoder's, or `Memory` after its Ok.
        ensures answered { AnsweredBy (E.answers (encoder_of self.old) «record».now context.now)
            (Unit {0}) (λ fault. fault ≡ Memory) result }
        ensures err { let sink = ⟦<MemoryAppender<E> as Append>⟧.sink in
            OnErr result (sink self.new ≡ sink self.old) }
    {
        self.styled.clear();
        self.encoder.encode(&mut self.styled, record, context)?;
        let text = self.styled.take_text()?;
        // The next text gets as much memory.
        self.styled.reserve(text.len())?;
        self.records.push(text)?;
        Ok(())
    }

    fn append_retired(&mut self, record: &Record, context: &Context<'_>) -> Result<(), LogError> {
        self.append(record, context)
    }

    fn flush(&mut self) {}
}
