//! A limit that is raised while the program runs, with a promise about what is kept.

ghost use Rattle.log4rs_append.specs.HandedOver.{KeepsItsEndOver};
ghost use Rattle.log4rs_append.specs.Rolling.{appends, opening_of, path_of, settings_of, store_after};

use anyhow::{Result, bail};
use jiff::Timestamp;
use jiff::tz::TimeZone;
use log::Level;
use log4rs::append::{Append, RollingFileAppender};
use log4rs::encode::pattern::PatternEncoder;
use log4rs::policy::{CompoundPolicyOf, FixedWindowRoller, Keep, SizeTrigger};
use log4rs::store::{MemStore, Store};
use log4rs::{Context, LogError, record};
use std::alloc::Global;
use std::collections::BTreeMap;

/// Rolls a file at a size, and keeps archives.
type BySize = CompoundPolicyOf<SizeTrigger, FixedWindowRoller>;

/// A file that is rolled so.
type Rolled<S> = RollingFileAppender<S, BySize, PatternEncoder>;

/// Hands a file over to a policy with another limit, say. What is kept is a suffix of what was kept
/// when the file was first opened and of all that was written since, if both policies keep the same
/// archives.
pub fn change<S: Store + Drop>(
    file: Rolled<S>,
    policy: BySize,
    encoder: PatternEncoder,
) -> std::result::Result<Rolled<S>, (S, LogError)>
    ensures kept { ∥ KeepsItsEndOver (⟦<BySize as Keep<S>>⟧.keeping (settings_of file))
        (⟦<BySize as Keep<S>>⟧.keeping policy) (path_of file) (appends file)
        (S.disk (opening_of file)) (S.disk (store_after result)) ∥₁ }
{
    file.hand_over(policy, encoder)
}

/// Returns a policy that rolls a file with more bytes than this, and keeps two archives.
fn by_size(alloc: Global, limit: u64) -> Result<BySize> {
    let env = BTreeMap::new(alloc);
    let roller = FixedWindowRoller::builder()
        .rename_only(true)
        .build(alloc, "raised.{}.log", 2, &env)?;
    Ok(CompoundPolicyOf::new(SizeTrigger::new(limit), roller))
}

/// Opens a file in memory that is rolled at ten bytes.
fn opened(alloc: Global) -> Result<Rolled<MemStore>> {
    let policy = by_size(alloc, 10)?;
    let encoder = PatternEncoder::new(alloc, "<{m}>")?;
    let path = String::from_str(alloc, "raised.log")?;
    let store = MemStore::new(alloc, BTreeMap::new(alloc));
    match RollingFileAppender::open(alloc, store, policy, path, true, encoder) {
        Ok(file) => Ok(file),
        Err(_) => bail!("the file was not opened"),
    }
}

/// Raises the limit of the file to 20 bytes.
fn raised(alloc: Global, file: Rolled<MemStore>) -> Result<Rolled<MemStore>> {
    let policy = by_size(alloc, 20)?;
    let encoder = PatternEncoder::new(alloc, "[{m}]")?;
    match change(file, policy, encoder) {
        Ok(file) => Ok(file),
        Err(_) => bail!("the file was not handed over"),
    }
}

/// Appends records with these messages.
fn log_all(alloc: Global, file: &mut Rolled<MemStore>, messages: &[&str]) -> Result<()> {
    for message in messages {
        let context = Context::new(alloc, Timestamp::UNIX_EPOCH, TimeZone::UTC);
        let logged = record!(in alloc; target: "app", Level::Info, "{message}")?;
        file.append(&logged, &context)?;
    }
    Ok(())
}

/// Prints the file and its archives, the oldest first.
fn print_files(rt: &HostRuntime, store: &MemStore) -> Result<()> {
    for path in ["raised.1.log", "raised.0.log", "raised.log"] {
        if let Some(bytes) = store.file(path)? {
            println!(rt; "{path}: {}", String::from_utf8(bytes)?)?;
        }
    }
    Ok(())
}

/// Appends records to a file, raises its limit, appends more, and prints what is kept.
pub fn run(rt: &HostRuntime) -> Result<()> {
    let alloc = rt.alloc();
    let mut file = opened(alloc)?;
    log_all(alloc, &mut file, &["one", "two", "three"])?;
    let mut file = raised(alloc, file)?;
    log_all(alloc, &mut file, &["four", "five", "six", "seven", "eight"])?;
    print_files(rt, file.store())
}
