//! Threads that append to a journal.

ghost use Rattle.std.specs.Prelude.{◌≡◌, ◌<◌, ℕ, IfOk, slice_index_or, vec_len};
ghost use Rattle.log4rs_command.specs.Appended.{IsReceiptBy, AreReceiptsBy};

use crate::thread_records::record;
use jiff::Timestamp;
use jiff::tz::TimeZone;
use log4rs_base::{Context, OutOfMemory};
use log4rs_journal::{Receipt, SharedJournal};
use std::alloc::Global;
use std::sync::Wait;
use std::thread::{self, Threads};

/// Appends the record `number` of a thread.
fn append_one<R: Wait>(
    alloc: Global,
    journal: &SharedJournal<R>,
    context: &Context<'_>,
    thread: usize,
    number: usize,
) -> Result<Receipt, OutOfMemory>
    ensures { IfOk result (IsReceiptBy journal.now thread number) }
{
    let logged = record(alloc, thread, number)?;
    let receipt = journal.append(&logged, context)?;
    Ok(receipt)
}

/// Appends all records of a thread. Returns their receipts, in order.
fn append_all<R: Wait>(
    alloc: Global,
    journal: &SharedJournal<R>,
    thread: usize,
    count: usize,
) -> Result<Vec<Receipt>, OutOfMemory>
    ensures { IfOk result (λ receipts. AreReceiptsBy journal.now thread count receipts.items) }
{
    let context = Context::new(alloc, Timestamp::UNIX_EPOCH, TimeZone::UTC);
    let mut receipts = Vec::new(alloc);
    for number in 0..count {
        receipts.push(append_one(alloc, journal, &context, thread, number)?)?;
    }
    Ok(receipts)
}

/// The receipts of a thread's records, in order.
pub type Receipts = Result<Vec<Receipt>, OutOfMemory>;

/// Starts `threads` threads that append `count` records each to one journal, and joins them. The
/// first thread's records have the target `t0` and the messages `0`, `1` and so on. If the system
/// refuses a thread, another one appends its records.
pub fn append_in_threads<R: Threads + Wait + Sync>(
    rt: &R,
    alloc: Global,
    journal: &SharedJournal<R>,
    threads: usize,
    count: usize,
) -> Result<Vec<Receipts>, OutOfMemory>
    ensures len { IfOk result (λ all. vec_len all ≡ threads) }
    ensures each { IfOk result (λ all. (thread : ℕ) (d : _) → thread < threads
        → IfOk (slice_index_or all.items thread d)
        (λ receipts. AreReceiptsBy journal.now thread count receipts.items)) }
{
    let all = thread::map_indices(
        rt,
        alloc,
        threads,
        &|thread| append_all(alloc, journal, thread, count),
    )?;
    Ok(all)
}
