//! Encoders that are lent.

use log4rs_base::{Context, LogError, Record};
use log4rs_encode::{Encode, Styled};

/// An encoder that the appenders of runs borrow, one after another.
#[derive(Drop)]
pub(crate) struct Lent<'e, E> {
    pub(crate) encoder: &'e E,
}

impl<E: Encode> Encode for Lent<'_, E> {
    ghost rendering = { λ lent. E.rendering lent.encoder.now };

    ghost answers = { λ lent. E.answers lent.encoder.now };

    fn encode(
        &self,
        out: &mut Styled,
        record: &Record,
        context: &Context<'_>,
    ) -> Result<(), LogError> {
        self.encoder.encode(out, record, context)
    }
}
