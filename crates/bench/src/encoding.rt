//! The encoding of a record.

use crate::sample::sample;
use crate::work::Work;
use log4rs::encode::{Encode, Run, Styled};
use log4rs::{Entry, OutOfMemory};
use std::alloc::Global;

/// An encoder, its record, and the text that it writes, whose memory is reused.
#[derive(Drop)]
pub struct Encoding<E> {
    encoder: E,
    text: Styled,
    sample: Entry<'static>,
}

impl<E: Encode + Drop> Encoding<E> {
    pub fn new(alloc: Global, encoder: E) -> Result<Encoding<E>, OutOfMemory> {
        Ok(Encoding {
            encoder,
            text: Styled::new(alloc),
            sample: sample(alloc)?,
        })
    }
}

impl<E: Encode> Work for Encoding<E> {
    fn once(&mut self) -> Result<u64, OutOfMemory> {
        self.text.clear();
        let Entry { logged, context } = &self.sample;
        match self.encoder.encode(&mut self.text, logged, context) {
            Ok(()) => Ok(text_length(&self.text)),
            Err(_) => Err(OutOfMemory),
        }
    }
}

/// Returns the number of bytes of the texts.
fn text_length(styled: &Styled) -> u64 {
    if let Some(text) = styled.as_text() {
        return text.len() as u64;
    }
    let mut length: u64 = 0;
    for run in styled.runs() {
        if let Run::Text(text) = run {
            length = length.saturating_add(text.len() as u64);
        }
    }
    length
}
