//! Styled text fitted into a column.
ghost use Rattle.std.specs.Prelude.{◌≡◌, ◌+◌, ◌-◌, ◌<◌, ◌≤◌, ◌∷◌, ◌++◌, [], List, ℕ, true, map, length, replicate, IfOk, OnOk, OnErr, encode_utf8, string_bytes, min, unwrap_or};
ghost use Rattle.std.specs.List.{concat, list_all};
ghost use Rattle.log4rs_encode.specs.Runs.{text, text as text_run, join, run_of, IsJoined};
ghost use Rattle.log4rs_encode.specs.Fit.{Cell, cluster, cells, runs_of_cells, padded, truncated};
ghost use Rattle.log4rs_encode.specs.Fit as spec;
ghost use Rattle.unicode_segmentation.specs.Grapheme.{graphemes};

use crate::pattern::piece::{Alignment, Parameters};
use crate::runs::{Run, Styled};
use log4rs_base::OutOfMemory;
use std::alloc::Global;
use unicode_segmentation::UnicodeSegmentation;

/// Returns the contents, cut to the maximum width and padded to the minimum. Widths count extended
/// grapheme clusters.
pub(crate) fn fit(
    alloc: Global,
    contents: Styled,
    parameters: &Parameters,
) -> Result<Styled, OutOfMemory>
    ensures { IfOk result (λ fitted. fitted ≡ spec.fit parameters.now contents) }
{
    let width = width(&contents)?;
    let kept = truncate(alloc, contents, parameters, width)?;
    pad(alloc, kept, parameters, missing(width, parameters))
}

/// Returns how many fill characters are missing next to contents of this width.
fn missing(width: u64, parameters: &Parameters) -> u64
    ensures { result ≡ unwrap_or parameters.now.min_width 0 - min width
        (unwrap_or parameters.now.max_width width) }
{
    let greatest = parameters.max_width.unwrap_or(width);
    let least = parameters.min_width.unwrap_or(0);
    least.saturating_sub(width.min(greatest))
}

/// Appends a text, cut to the maximum width and padded to the minimum.
pub(crate) fn push_fitted(
    out: &mut Styled,
    text: &str,
    parameters: &Parameters,
) -> Result<(), OutOfMemory>
    ensures { OnOk result (out.new
        ≡ join (out.old ++ spec.fit parameters.now (join (text_run text.now ∷ [])))) }
{
    let width = text_width(text);
    let missing = missing(width, parameters);
    match parameters.align {
        Alignment::Left => {
            push_cut(out, text, width, parameters)?;
            push_fill(out, parameters.fill, missing)
        }
        Alignment::Right => {
            push_fill(out, parameters.fill, missing)?;
            push_cut(out, text, width, parameters)
        }
    }
}

/// Appends a text of this width, cut to the maximum width.
fn push_cut(
    out: &mut Styled,
    text: &str,
    width: u64,
    parameters: &Parameters,
) -> Result<(), OutOfMemory>
    requires { width ≡ spec.width (cells (text_run text.now ∷ [])) }
    ensures { OnOk result (out.new
        ≡ join (out.old ++ runs_of_cells
        (truncated parameters.now.right_truncate parameters.now.max_width
        (cells (text_run text.now ∷ []))))) }
{
    let greatest = parameters.max_width.unwrap_or(width);
    if width <= greatest {
        return out.push_text(text);
    }
    if parameters.right_truncate {
        return push_window(out, text, 0, greatest);
    }
    push_window(out, text, width - greatest, greatest)
}

/// Appends the clusters of a text after the first `skip`, at most `keep` of them.
fn push_window(out: &mut Styled, text: &str, skip: u64, keep: u64) -> Result<(), OutOfMemory>
    ensures { OnOk result (out.new
        ≡ join (out.old ++ runs_of_cells (spec.cut skip keep (cells (text_run text.now ∷ []))))) }
{
    let mut window = Window { skip, keep };
    window.text(out, text)?;
    // For the proof alone: styled text is joined.
    let _joined = out.runs();
    Ok(())
}

/// Appends the fill character `times` times.
fn push_fill(out: &mut Styled, fill: char, times: u64) -> Result<(), OutOfMemory>
    ensures { OnOk result (out.new
        ≡ join (out.old ++ text_run (concat (replicate times (encode_utf8 fill))) ∷ [])) }
{
    if times == 0 {
        // For the proof alone: styled text is joined.
        let _joined = out.runs();
        return Ok(());
    }
    let mut text = out.spare_text();
    add_fill(&mut text, fill, times)?;
    out.push_text(&text)?;
    out.keep_spare(text);
    Ok(())
}

/// Returns the contents of this width, cut to the maximum width.
fn truncate(
    alloc: Global,
    contents: Styled,
    parameters: &Parameters,
    width: u64,
) -> Result<Styled, OutOfMemory>
    requires width { width ≡ spec.width (cells contents) }
    requires whole { join (runs_of_cells (cells contents)) ≡ contents }
    ensures { IfOk result (λ kept. kept
        ≡ join (runs_of_cells (truncated parameters.now.right_truncate parameters.now.max_width
        (cells contents)))) }
{
    let greatest = parameters.max_width.unwrap_or(width);
    if width <= greatest {
        return Ok(contents);
    }
    if parameters.right_truncate {
        return cut(alloc, &contents, 0, greatest);
    }
    cut(alloc, &contents, width - greatest, greatest)
}

/// Returns the number of clusters.
fn width(styled: &Styled) -> Result<u64, OutOfMemory>
    ensures width { IfOk result (λ n. n ≡ spec.width (cells styled.now)) }
    ensures whole { join (runs_of_cells (cells styled.now)) ≡ styled.now }
{
    let mut width: u64 = 0;
    for run in styled.runs() {
        width = width.checked_add(run_width(run)).ok_or(OutOfMemory)?;
    }
    Ok(width)
}

/// Returns the number of clusters of a run.
fn run_width(run: Run<'_>) -> u64
    ensures { result ≡ spec.width (cells (run_of run.entry ∷ [])) }
{
    match run {
        Run::Text(text) => text_width(text),
        Run::Style(_) => 0,
    }
}

/// Returns the number of clusters of a text. Printable ASCII characters are one each, so a text of
/// these is not segmented.
fn text_width(text: &str) -> u64
    ensures { result ≡ spec.width (cells (text_run text.now ∷ [])) }
{
    if is_printable(text) {
        return text.len() as u64;
    }
    text.graphemes(true).count() as u64
}

/// Returns whether the text has only printable ASCII characters.
fn is_printable(text: &str) -> bool
    ensures { result ≡ list_all spec.is_printable text.now }
{
    text.as_bytes().iter().all(|b| *b >= 32 && *b < 127)
}

/// Returns the styles, and the clusters after the first `skip`, at most `keep` of them.
fn cut(alloc: Global, contents: &Styled, skip: u64, keep: u64) -> Result<Styled, OutOfMemory>
    ensures { IfOk result (λ kept. kept
        ≡ join (runs_of_cells (spec.cut skip keep (cells contents.now)))) }
{
    let mut window = Window { skip, keep };
    let mut kept = Styled::new(alloc);
    for run in contents.runs() {
        window.run(&mut kept, run)?;
    }
    // For the proof alone: styled text is joined.
    let _joined = kept.runs();
    Ok(kept)
}

/// How many clusters to skip, and how many to keep after them.
#[derive(Drop)]
struct Window {
    skip: u64,
    keep: u64,
}

impl Window {
    /// Appends a style, or the clusters of a text that are in the window.
    fn run(&mut self, kept: &mut Styled, run: Run<'_>) -> Result<(), OutOfMemory>
        ensures { OnOk result ((cs : List Cell)
            → join (kept.new ++ runs_of_cells (spec.cut self.new.skip self.new.keep cs))
            ≡ join (kept.old ++ runs_of_cells
            (spec.cut self.old.skip self.old.keep (cells (run_of run.entry ∷ []) ++ cs)))) }
    {
        match run {
            Run::Text(text) => self.text(kept, text),
            Run::Style(style) => kept.set_style(style),
        }
    }

    /// Appends the characters of a text that are in the window. Each is a cluster of its own.
    fn printable(&mut self, kept: &mut Styled, text: &str) -> Result<(), OutOfMemory>
        requires { list_all spec.is_printable text.now ≡ true }
        ensures { OnOk result ((cs : List Cell)
            → join (kept.new ++ runs_of_cells (spec.cut self.new.skip self.new.keep cs))
            ≡ join (kept.old ++ runs_of_cells
            (spec.cut self.old.skip self.old.keep (map cluster (graphemes true text.now) ++ cs)))) }
    {
        let len = text.len() as u64;
        let from = self.skip.min(len);
        let count = self.keep.min(len - from);
        self.skip -= from;
        self.keep -= count;
        kept.push_text(&text[from as usize..(from + count) as usize])
    }

    /// Appends the clusters of a text that are in the window.
    fn text(&mut self, kept: &mut Styled, text: &str) -> Result<(), OutOfMemory>
        ensures { OnOk result ((cs : List Cell)
            → join (kept.new ++ runs_of_cells (spec.cut self.new.skip self.new.keep cs))
            ≡ join (kept.old ++ runs_of_cells
            (spec.cut self.old.skip self.old.keep (map cluster (graphemes true text.now) ++ cs)))) }
    {
        if is_printable(text) {
            return self.printable(kept, text);
        }
        for piece in text.graphemes(true) {
            self.cluster(kept, piece)?;
        }
        Ok(())
    }

    /// Appends a cluster if it is in the window.
    fn cluster(&mut self, kept: &mut Styled, piece: &str) -> Result<(), OutOfMemory>
        ensures { OnOk result ((cs : List Cell)
            → join (kept.new ++ runs_of_cells (spec.cut self.new.skip self.new.keep cs))
            ≡ join (kept.old ++ runs_of_cells
            (spec.cut self.old.skip self.old.keep (cluster piece.now ∷ cs)))) }
    {
        if self.skip > 0 {
            self.skip -= 1;
            return Ok(());
        }
        if self.keep == 0 {
            return Ok(());
        }
        self.keep -= 1;
        kept.push_text(piece)
    }
}

/// Returns the text with the fill character `times` times, after it or before it.
fn pad(
    alloc: Global,
    kept: Styled,
    parameters: &Parameters,
    missing: u64,
) -> Result<Styled, OutOfMemory>
    ensures { IfOk result (λ all. all
        ≡ join (padded parameters.now.align
        (text (concat (replicate missing (encode_utf8 parameters.now.fill))) ∷ []) kept)) }
{
    if missing == 0 {
        // For the proof alone: styled text is joined.
        let _joined = kept.runs();
        return Ok(kept);
    }
    let padding = filled(alloc, parameters.fill, missing)?;
    match parameters.align {
        Alignment::Left => {
            let mut all = kept;
            all.push_text(&padding)?;
            Ok(all)
        }
        Alignment::Right => {
            let mut all = Styled::new(alloc);
            all.push_text(&padding)?;
            all.append(kept)?;
            Ok(all)
        }
    }
}

/// Returns the fill character `times` times.
fn filled(alloc: Global, fill: char, times: u64) -> Result<String, OutOfMemory>
    ensures { IfOk result (λ s. string_bytes s ≡ concat (replicate times (encode_utf8 fill))) }
{
    let mut filled = String::new(alloc);
    add_fill(&mut filled, fill, times)?;
    Ok(filled)
}

/// Appends the fill character `times` times. Reserves the memory first.
fn add_fill(text: &mut String, fill: char, times: u64) -> Result<(), OutOfMemory>
    ensures { OnOk result (string_bytes text.new ≡ string_bytes text.old
        ++ concat (replicate times (encode_utf8 fill))) }
{
    let size = (times as usize)
        .checked_mul(fill.len_utf8())
        .ok_or(OutOfMemory)?;
    text.reserve(size)?;
    for _done in 0..times {
        text.push(fill)?;
    }
    Ok(())
}
