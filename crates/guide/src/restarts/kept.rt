//! Reading a kept trail.

use std::fmt::{self, Display, Formatter, Write};

/// A record: its run, and its number there, from 1.
#[derive(Clone, Copy, Debug, PartialEq, Eq)]
pub struct Mark {
    pub run: u64,
    pub number: u64,
}

/// The records of a trail: how many, the first and the last.
#[derive(Clone, Copy, Debug, PartialEq, Eq)]
pub struct Kept {
    pub records: usize,
    pub first: Mark,
    pub last: Mark,
}

impl Display for Mark {
    fn fmt<W: Write>(&self, f: &mut Formatter<W>) -> fmt::Result {
        write!(f, "run {} record {}", self.run, self.number)
    }
}

impl Display for Kept {
    fn fmt<W: Write>(&self, f: &mut Formatter<W>) -> fmt::Result {
        write!(
            f,
            "{} records, {} to {}",
            self.records, self.first, self.last
        )
    }
}

/// Parses the record of a line such as `run 3 record 17`.
pub fn read_mark(line: &str) -> Option<Mark> {
    let (run, number) = line.strip_prefix("run ")?.split_once(" record ")?;
    Some(Mark {
        run: run.parse::<u64>().ok()?,
        number: number.parse::<u64>().ok()?,
    })
}

/// Returns whether a record comes next after another: with the next number of its run, or as the
/// first of a later run.
pub fn follows(before: Mark, next: Mark) -> bool {
    if next.run == before.run {
        return before.number.checked_add(1) == Some(next.number);
    }
    before.run < next.run && next.number == 1
}

/// Returns a trail with one more record, if that comes next.
fn extended(kept: Option<Kept>, next: Mark) -> Option<Kept> {
    let Some(kept) = kept else {
        return Some(Kept {
            records: 1,
            first: next,
            last: next,
        });
    };
    if !follows(kept.last, next) {
        return None;
    }
    Some(Kept {
        records: kept.records.saturating_add(1),
        first: kept.first,
        last: next,
    })
}

/// Returns the records of a text, if any. Fails with the first line that is no record, is not the
/// next one, or has no end.
pub fn judged(text: &str) -> Result<Option<Kept>, &str> {
    let mut kept = None;
    for line in text.split_inclusive('\n') {
        let Some(next) = line.strip_suffix("\n").and_then(read_mark) else {
            return Err(line);
        };
        kept = extended(kept, next);
        if kept.is_none() {
            return Err(line);
        }
    }
    Ok(kept)
}
