//! Encoders with patterns.

ghost use Rattle.std.specs.Prelude.{IfOk, codes};
ghost use Rattle.std.specs.Str.{chars};
ghost use Rattle.log4rs_encode.specs.Rendering.{Renders};

use crate::encoder::Encode;
use crate::runs::Styled;
use chunk::Chunk;
use faulty::add_errors;
use log4rs_base::{Context, LogError, OutOfMemory, Record};
use make::chunks;
use parser::parse;
use render::render_all;
use std::alloc::Global;

mod chunk;
mod faulty;
mod fit;
pub mod laws;
mod make;
mod parameters;
pub mod parser;
mod piece;
mod render;
mod scan;

/// Encodes records with a pattern.
#[derive(Drop)]
pub struct PatternEncoder {
    alloc: Global,
    chunks: Vec<Chunk>,
}

impl PatternEncoder {
    /// Creates the encoder of a pattern. Every pattern is accepted: its errors are printed in their
    /// place. Fails if an allocation fails.
    pub fn new(alloc: Global, pattern: &str) -> Result<PatternEncoder, OutOfMemory>
        ensures { IfOk result (λ e. Renders (chars pattern.now)
            (⟦<PatternEncoder as Encode>⟧.rendering e)) }
    {
        let pieces = parse(alloc, pattern)?;
        let chunks = chunks(alloc, pieces.as_slice())?;
        Ok(PatternEncoder { alloc, chunks })
    }

    /// Creates the encoder of `{d} {l} {t} - {m}{n}`. Fails if an allocation fails.
    pub fn try_default(alloc: Global) -> Result<PatternEncoder, OutOfMemory>
        ensures { IfOk result (λ e. Renders (codes "{d} {l} {t} - {m}{n}")
            (⟦<PatternEncoder as Encode>⟧.rendering e)) }
    {
        PatternEncoder::new(alloc, "{d} {l} {t} - {m}{n}")
    }
}

impl PatternEncoder {
    /// Returns the errors of the pattern, as they are printed in their place, such as
    /// ``{ERROR: unknown formatter `x`}``. Fails if an allocation fails.
    pub fn errors(&self) -> Result<Vec<String>, OutOfMemory> {
        let mut errors = Vec::new(self.alloc);
        add_errors(self.alloc, self.chunks.as_slice(), &mut errors)?;
        Ok(errors)
    }
}

impl PatternEncoder {
    ghost use Rattle.std.specs.Prelude.{◌≡◌, [], OnOk, OnErr};
    ghost use Rattle.log4rs_encode.specs.ChunkView.{chunks_view};
    ghost use Rattle.log4rs_encode.specs.Rendering.{pattern_runs};

    /// Encodes into an empty text, and empties it again on failure.
    fn encode_first(
        &self,
        out: &mut Styled,
        record: &Record,
        context: &Context<'_>,
    ) -> Result<(), OutOfMemory>
        requires { out.old ≡ [] }
        ensures ok { OnOk result (out.new
            ≡ pattern_runs (chunks_view self.now.chunks.items) «record».now context.now) }
        ensures err { OnErr result (out.new ≡ []) }
    {
        let printed = render_all(self.alloc, out, self.chunks.as_slice(), record, context);
        if printed.is_err() {
            out.clear();
        }
        printed
    }
}

impl Encode for PatternEncoder {
    ghost use Rattle.std.specs.Prelude.{Some};
    ghost use Rattle.log4rs_encode.specs.ChunkView.{chunks_view};
    ghost use Rattle.log4rs_encode.specs.Rendering.{pattern_runs};

    ghost rendering = { λ e. Some (pattern_runs (chunks_view e.chunks.items)) };

    #[inline(always)]
    fn encode(
        &self,
        out: &mut Styled,
        record: &Record,
        context: &Context<'_>,
    ) -> Result<(), LogError> {
        if out.is_empty() {
            self.encode_first(out, record, context)?;
            return Ok(());
        }
        let mut printed = Styled::new(self.alloc);
        render_all(
            self.alloc,
            &mut printed,
            self.chunks.as_slice(),
            record,
            context,
        )?;
        out.append(printed)?;
        Ok(())
    }
}
