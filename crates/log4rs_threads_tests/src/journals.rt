ghost use Rattle.std.specs.Prelude.{IfOk};
ghost use Rattle.log4rs_journal.specs.Receipts.{IsReceiptOf};

use crate::cores::{context, record, same};
use log::Level;
use log4rs_journal::{JournalError, Receipt, SharedJournal};
use std::alloc::Global;
use std::sync::{Arc, Wait};
use std::test::*;
use std::thread;
use std::thread::Threads;

/// Appends the record of a message.
fn append<R: Wait>(
    alloc: Global,
    journal: &SharedJournal<R>,
    message: &str,
) -> Result<Receipt, JournalError>
    ensures { IfOk result (IsReceiptOf journal.now) }
{
    let logged = record(alloc, (Level::Warn, "app", message))?;
    journal.append(&logged, &context(alloc))
}

/// Returns the texts of a walk in brackets, sorted.
pub(crate) fn walked<R>(alloc: Global, journal: &SharedJournal<R>) -> Result<String, Fail> {
    let mut texts = Vec::new(alloc);
    for shown in journal.iter() {
        texts.push(shown.note.text())?;
    }
    texts.sort()?;
    let mut all = String::new(alloc);
    for text in texts {
        all.push_str(&format!(in alloc; "[{text}]")?)?;
    }
    Ok(all)
}

/// Appends in two threads, and then reads in each what the other appended.
fn exchanged<R: Threads + Wait + Sync>(
    rt: &R,
    alloc: Global,
    journal: &SharedJournal<R>,
) -> Result<String, Fail> {
    let (one, two) = thread::join(
        rt,
        || append(alloc, journal, "one"),
        || append(alloc, journal, "two"),
    );
    let one = one?;
    let two = two?;
    let (here, there) = thread::join(rt, || journal.text(&two), || journal.text(&one));
    Ok(format!(in alloc; "{here} {there}")?)
}

/// Patterns, and after bars what both threads read, and what a walk shows.
const PATTERNS: &str = "\
{m}|two one|[one][two]
{l} {t} - {m}|WARN app - two WARN app - one|[WARN app - one][WARN app - two]
{m}{x}|two{ERROR: unknown formatter `x`} one{ERROR: unknown formatter `x`}|[one{ERROR: unknown formatter `x`}][two{ERROR: unknown formatter `x`}]";

#[test]
fn each_thread_reads_the_other_receipt(rt: HostRuntime) -> Result<(), Fail> {
    for row in PATTERNS.lines() {
        let (pattern, rest) = row.split_once('|').unwrap_or((row, ""));
        let (read, shown) = rest.split_once('|').unwrap_or((rest, ""));
        let journal = SharedJournal::new(rt.clone()?, rt.alloc(), pattern)?;
        same(&rt, exchanged(&rt, rt.alloc(), &journal)?.as_str(), read);
        same(&rt, walked(rt.alloc(), &journal)?.as_str(), shown);
    }
    Ok(())
}

/// Appends two records, the second after the first. Returns whether their places differ, and both
/// texts.
fn appended_after<R: Wait>(alloc: Global, journal: &SharedJournal<R>) -> Result<String, Fail> {
    let one = append(alloc, journal, "one")?;
    let two = record(alloc, (Level::Warn, "app", "two"))?;
    let two = journal.append_after(&one, &two, &context(alloc))?;
    journal.agrees(&one, &one);
    let apart = one.place() != two.place();
    Ok(format!(in alloc; "{apart} {} {}", journal.text(&one), journal.text(&two))?)
}

/// Appends in a new thread, which drops the receipt. Returns whether it succeeded.
fn append_there<R: Threads + Wait + Send + Sync + Drop + 'static>(
    rt: &R,
    alloc: Global,
    journal: &Arc<SharedJournal<R>>,
) -> Result<bool, Fail> {
    let theirs = Arc::try_clone(journal)?;
    let thread = thread::spawn(rt, move || append(alloc, &theirs, "there").is_ok());
    match thread {
        Ok(thread) => Ok(thread.join(rt)),
        Err(_) => Ok(false),
    }
}

#[test]
fn behind_another_and_in_a_thread_of_its_own(rt: HostRuntime) -> Result<(), Fail> {
    let journal = SharedJournal::new(rt.clone()?, rt.alloc(), "> {m}")?;
    same(&rt, walked(rt.alloc(), &journal)?.as_str(), "");
    let appended = appended_after(rt.alloc(), &journal)?;
    same(&rt, appended.as_str(), "true > one > two");
    let journal = Arc::new(rt.alloc(), journal)?;
    assert!(rt; append_there(&rt, rt.alloc(), &journal)?);
    let walked = walked(rt.alloc(), &journal)?;
    same(&rt, walked.as_str(), "[> one][> there][> two]");
    Ok(())
}
