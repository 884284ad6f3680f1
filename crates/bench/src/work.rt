//! Work that is repeated.

use log4rs::OutOfMemory;

/// The work of a workload for one record.
pub trait Work {
    /// Does the work once. Returns its result as a number, such as the bytes encoded or the records
    /// logged.
    fn once(&mut self) -> Result<u64, OutOfMemory>;
}

/// Does the work `times` times. Returns the sum of the results.
pub fn repeat<W: Work>(work: &mut W, times: u64) -> Result<u64, OutOfMemory> {
    let mut yielded: u64 = 0;
    for _done in 0..times {
        yielded = yielded.saturating_add(work.once()?);
    }
    Ok(yielded)
}
