//! The command `threads`: reading receipts back.

ghost use Rattle.std.specs.Prelude.{◌≡◌, ◌<◌, ◌*◌, ◌^◌, ℕ, true, IfOk, length, slice_index_or};
ghost use Rattle.log4rs_journal.specs.Receipts.{pattern_of};
ghost use Rattle.log4rs_command.specs.Appended.{IsReceiptBy, AreReceiptsBy};
ghost use Rattle.log4rs_command.specs.ThreadRecords.{line_pattern};
ghost use Rattle.log4rs_command.specs.declared.reading.ReadBack.TheVariants.{Receipts as ReceiptsRead};

use crate::appending::{Receipts, append_in_threads};
use crate::thread_records::{PATTERN, line, texts_are_lines};
use log4rs_base::OutOfMemory;
use log4rs_journal::{Receipt, SharedJournal};
use std::alloc::Global;
use std::sync::Wait;
use std::thread::Threads;

/// The result of reading receipts back.
#[derive(Clone, Copy, Debug, PartialEq, Eq)]
pub enum ReadBack {
    /// The number of receipts that were read back, each with the text of the record that was
    /// appended for it.
    Receipts(usize),
    /// A receipt had another text.
    Mismatch,
}

/// Returns whether a receipt has the text of the record `number` of a thread.
fn is_as_appended<R>(
    alloc: Global,
    journal: &SharedJournal<R>,
    thread: usize,
    number: usize,
    receipt: &Receipt,
) -> Result<bool, OutOfMemory>
    requires pattern { pattern_of journal.now ≡ line_pattern }
    requires receipt { IsReceiptBy journal.now thread number receipt.now }
    ensures { IfOk result (λ is. is ≡ true) }
{
    texts_are_lines();
    let line = line(alloc, thread, number)?;
    Ok(journal.text(receipt) == line.as_str())
}

/// Returns whether all receipts of a thread have the texts of its records.
fn are_as_appended<R>(
    alloc: Global,
    journal: &SharedJournal<R>,
    thread: usize,
    count: usize,
    receipts: &[Receipt],
) -> Result<bool, OutOfMemory>
    requires pattern { pattern_of journal.now ≡ line_pattern }
    requires receipts { AreReceiptsBy journal.now thread count receipts.now }
    ensures { IfOk result (λ are. are ≡ true) }
{
    for number in 0..count {
        if !is_as_appended(alloc, journal, thread, number, &receipts[number])? {
            return Ok(false);
        }
    }
    Ok(true)
}

/// Reads back the receipts of all threads. Returns their number, or a mismatch.
fn read_all<R>(
    alloc: Global,
    journal: &SharedJournal<R>,
    all: &[Receipts],
    count: usize,
) -> Result<ReadBack, OutOfMemory>
    requires pattern { pattern_of journal.now ≡ line_pattern }
    requires each { (thread : ℕ) (d : _) → thread < length all.now
        → IfOk (slice_index_or all.now thread d)
        (λ receipts. AreReceiptsBy journal.now thread count receipts.items) }
    requires fits { length all.now * count < 2 ^ 64 }
    ensures { IfOk result (λ read. read ≡ ReceiptsRead (length all.now * count)) }
{
    let mut read = 0;
    for thread in 0..all.len() {
        let Ok(receipts) = &all[thread] else {
            return Err(OutOfMemory);
        };
        if !are_as_appended(alloc, journal, thread, count, receipts.as_slice())? {
            return Ok(ReadBack::Mismatch);
        }
        read += receipts.len();
    }
    Ok(ReadBack::Receipts(read))
}

/// Appends in threads to one journal by `{t} {m}`, as `append_in_threads` does. After the joins
/// reads each receipt back, and compares its text with that of its record.
pub fn read_back<R: Threads + Wait + Sync + Clone + Drop>(
    rt: &R,
    alloc: Global,
    threads: usize,
    count: usize,
) -> Result<ReadBack, OutOfMemory>
    requires { threads * count < 2 ^ 64 }
    ensures { IfOk result (λ read. read ≡ ReceiptsRead (threads * count)) }
{
    let journal = SharedJournal::new(rt.clone()?, alloc, PATTERN)?;
    let all = append_in_threads(rt, alloc, &journal, threads, count)?;
    read_all(alloc, &journal, all.as_slice(), count)
}
