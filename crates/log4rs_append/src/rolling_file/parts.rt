//! The parts of an append to a rolled file.

ghost use Rattle.std.specs.Prelude.{◌≡◌, ◌≤◌, ◌+◌, ◌∷◌, if◌then◌else◌, Bool, Option, Some, None, Err, true, false, length, IfErr, IfOk, OnOk, OnErr, IsTrue, IsSome, []};
ghost use Rattle.log4rs_rolling.specs.Change.{written, bytes_at, opened};
ghost use Rattle.log4rs_rolling.specs.Disk.{Calls, Disk, Does, Uncounted, files_of, open_path};
ghost use Rattle.log4rs_rolling.specs.Faults.{MayAnswer};
ghost use Rattle.log4rs_rolling.specs.LogFile.{log_path, is_open, Agrees, IsClosed};
ghost use Rattle.log4rs_rolling.specs.OperationResults.{OpenedBy, Refusing};
ghost use Rattle.log4rs_rolling.specs.RetiredAppends.{IsRefusal, OpenedToWrite};
ghost use Rattle.log4rs_rolling.specs.Asking.{is_told, Noted, UnlessYes, once_if_yes};
ghost use Rattle.log4rs_rolling.specs.AppendResults.{LimitedAppend};
ghost use Rattle.log4rs_rolling.specs.Keeping.{LeavesOpen, TellsAfter, rotation_cost};
ghost use Rattle.log4rs_rolling.specs.Copies.{CopiesNeedRefusal};
ghost use Rattle.log4rs_rolling.specs.Costs.{Caused, Costs, Makes};
ghost use Rattle.log4rs_rolling.specs.Window.{NoCopies};
ghost use Rattle.log4rs_rolling.specs.AppendParts.{Prepared, PreparedMoves, Finished, FinishedText};
ghost use Rattle.log4rs_rolling.specs.Appends.{WroteText};
ghost use Rattle.log4rs_rolling.specs.SegmentGrowth.{GrowsIn};
ghost use Rattle.log4rs_rolling.specs.FileChanges.{OnlyWrites};
ghost use Rattle.log4rs_rolling.specs.FileChanges.{OnlyAppends, OnlyOpens, once_if_closed, openings, way};
ghost use Rattle.log4rs_rolling.specs.declared.store.Open.{Open};

use log4rs_base::{Context, LogError};
use log4rs_rolling::store::{Open, Store};
use log4rs_rolling::{LogFile, Policy, open_to_write, write_bytes};

/// Opens a file, and returns its length. If that is refused, the file is closed.
fn open_anew<S: Store>(path: &str, append: bool, store: &mut S) -> Result<u64, LogError>
    ensures { OpenedBy path.now (way append) result (S.disk store.old) (S.disk store.new) }
{
    if !append {
        if let Err(_) = store.open(path, Open::Truncate) {
            return Err(LogError::Store);
        }
        return Ok(0);
    }
    if let Err(_) = store.open(path, Open::Append) {
        return Err(LogError::Store);
    }
    match store.len() {
        Ok(len) => Ok(len),
        Err(_) => {
            store.close();
            Err(LogError::Store)
        }
    }
}

/// Opens the file if it is closed, and takes its length as the estimate.
pub(crate) fn open_file<S: Store>(
    log: &mut LogFile,
    append: bool,
    store: &mut S,
) -> Result<(), LogError>
    ensures once { is_open log.old ≡ false → OnOk result
        (Does (S.disk store.old) (S.disk store.new)
        (opened (log_path log.old) (way append) ∷ [])
        (S.disk store.old).refusals (Some (log_path log.old))) }
    ensures opened { Calls (S.disk store.old) (S.disk store.new)
        (OnlyOpens (log_path log.old) (way append)) }
    ensures at_most { Calls (S.disk store.old) (S.disk store.new)
        (λ added. openings added ≤ (if is_open log.old then 0 else 1)) }
    ensures agrees { Agrees log.old (S.disk store.old) → Agrees log.new (S.disk store.new) }
    ensures ok { OnOk result (IsTrue (is_open log.new)) }
    ensures err { OnErr result (is_open log.new ≡ false) }
    ensures path { log_path log.new ≡ log_path log.old }
    ensures only { IfErr result (λ fault. fault ≡ LogError.Store) }
    ensures told { Refusing result (S.disk store.old) (S.disk store.new) }
    ensures cost { Costs 2 result (S.disk store.old) (S.disk store.new) }
{
    if log.is_open() {
        return Ok(());
    }
    let len = open_anew(log.path(), append, store)?;
    log.open_at(len);
    Ok(())
}

/// Opens the file for a record, and then calls the policy, if that comes before the writing.
pub(crate) fn prepare<S: Store, P: Policy<S>>(
    log: &mut LogFile,
    append: bool,
    first: bool,
    policy: &mut P,
    store: &mut S,
    context: &Context<'_>,
) -> Result<(), LogError>
    ensures prepared { (answer : Option Bool)
        × Noted (P.notes context.now) policy.old answer policy.new
        × (first ≡ false → (policy.new ≡ policy.old) × (answer ≡ None))
        × Prepared append (P.asking policy.old) context.now answer (P.keeping policy.old)
        (P.keeping policy.new) (Agrees log.old (S.disk store.old)) (log_path log.old)
        (S.disk store.old) (S.disk store.new)
        × PreparedMoves first (way append) (P.asking policy.old) context.now answer result
        (P.keeping policy.old) (Agrees log.old (S.disk store.old)) (log_path log.old)
        (S.disk store.old) (S.disk store.new)
        × UnlessYes answer (Calls (S.disk store.old) (S.disk store.new)
        (OnlyAppends (log_path log.old) (way append)))
        × UnlessYes answer (OnOk result
        ((S.disk store.new).refusals ≡ (S.disk store.old).refusals))
        × (Agrees log.old (S.disk store.old)
        → TellsAfter (P.keeping policy.old) (log_path log.old) answer
        → Calls (S.disk store.old) (S.disk store.new) (λ added. openings added
        ≤ once_if_closed (S.disk store.old).opened + once_if_yes answer)) }
    ensures limited { LimitedAppend (P.keeping policy.old) (P.keeping policy.new)
        (log_path log.old) (way append) (S.disk store.old) (S.disk store.new) }
    ensures silent { IsTrue (P.keeping policy.old).is_built_in
        → Calls (S.disk store.old) (S.disk store.new)
        (λ added. written (log_path log.old) added ≡ []) }
    ensures unrefused { IsTrue (P.keeping policy.old).is_built_in
        → IsTrue (P.keeping policy.old).renames → OnOk result
        ((S.disk store.new).refusals ≡ (S.disk store.old).refusals) }
    ensures copies { IsTrue (P.keeping policy.old).is_built_in
        → CopiesNeedRefusal (S.disk store.old) (S.disk store.new) }
    ensures still { first ≡ false
        → Calls (S.disk store.old) (S.disk store.new)
        (OnlyOpens (log_path log.old) (way append)) }
    ensures agrees { Agrees log.old (S.disk store.old) → Agrees log.new (S.disk store.new) }
    ensures ok { OnOk result (IsTrue (is_open log.new)) }
    ensures path { log_path log.new ≡ log_path log.old }
    ensures kind { (P.asking policy.new).kind ≡ (P.asking policy.old).kind }
    ensures fault { IsTrue (is_told (P.asking policy.old).kind)
        → IsTrue (P.keeping policy.old).is_built_in
        → IfErr result (MayAnswer (S.disk store.old).refusals (S.disk store.new).refusals) }
    ensures cost { IsTrue (P.keeping policy.old).is_built_in
        → Makes (if first then rotation_cost (P.keeping policy.old) + 4 else 2)
        (S.disk store.old) (S.disk store.new) }
    ensures cause { Agrees log.old (S.disk store.old) → IsTrue (is_told (P.asking policy.old).kind)
        → IsTrue (P.keeping policy.old).is_built_in
        → Caused result (S.disk store.old) (S.disk store.new) }
{
    open_file(log, append, store)?;
    if !first {
        return Ok(());
    }
    policy.process(log, store, context)?;
    open_file(log, append, store)
}

/// Writes a record's text to the open file, and adds the bytes written to the estimate.
fn write_record<S: Store>(log: &mut LogFile, store: &mut S, text: &[u8]) -> Result<(), LogError>
    requires { IsTrue (is_open log.old) }
    ensures written { Agrees log.old (S.disk store.old)
        → Calls (S.disk store.old) (S.disk store.new) (λ added.
        OnlyWrites (log_path log.old) added
        × WroteText (log_path log.old) text.now result added) }
    ensures agrees { Agrees log.old (S.disk store.old) → Agrees log.new (S.disk store.new) }
    ensures open { IsTrue (is_open log.new) }
    ensures copies { Calls (S.disk store.old) (S.disk store.new) NoCopies }
    ensures path { log_path log.new ≡ log_path log.old }
    ensures store { Calls (S.disk store.old) (S.disk store.new) (λ _. Unit {0}) }
    ensures only { IfErr result (λ fault. fault ≡ LogError.Store) }
    ensures told { Refusing result (S.disk store.old) (S.disk store.new) }
    ensures cost { Agrees log.old (S.disk store.old)
        → Costs (length text.now) result (S.disk store.old) (S.disk store.new) }
{
    let taken = write_bytes(store, text);
    log.grow(taken);
    if taken < text.len() {
        return Err(LogError::Store);
    }
    Ok(())
}

/// Writes a record's text, and then calls the policy, if that comes after the writing.
pub(crate) fn finish<S: Store, P: Policy<S>>(
    log: &mut LogFile,
    first: bool,
    policy: &mut P,
    store: &mut S,
    text: &[u8],
    context: &Context<'_>,
) -> Result<(), LogError>
    requires { IsTrue (is_open log.old) }
    ensures finished { (answer : Option Bool)
        × Noted (P.notes context.now) policy.old answer policy.new
        × (first ≡ true → (policy.new ≡ policy.old) × (answer ≡ None))
        × Finished (P.asking policy.old) context.now answer (P.keeping policy.old)
        (P.keeping policy.new) (Agrees log.old (S.disk store.old)) (log_path log.old)
        (S.disk store.old) (S.disk store.new)
        × FinishedText text.now first (P.asking policy.old) context.now answer result
        (P.keeping policy.old) (Agrees log.old (S.disk store.old)) (log_path log.old)
        (S.disk store.old) (S.disk store.new)
        × (Agrees log.old (S.disk store.old)
        → UnlessYes answer (Calls (S.disk store.old) (S.disk store.new)
        (OnlyWrites (log_path log.old))))
        × (Agrees log.old (S.disk store.old) → IsTrue (P.keeping policy.old).is_built_in
        → IsSome answer → Calls (S.disk store.old) (S.disk store.new)
        (λ added. written (log_path log.old) added ≡ text.now))
        × UnlessYes answer (OnOk result
        ((S.disk store.new).refusals ≡ (S.disk store.old).refusals))
        × (Agrees log.old (S.disk store.old)
        → TellsAfter (P.keeping policy.old) (log_path log.old) answer
        → Calls (S.disk store.old) (S.disk store.new) (λ added. openings added ≡ 0)) }
    ensures limited { Agrees log.old (S.disk store.old) → (how : Open)
        → LimitedAppend (P.keeping policy.old) (P.keeping policy.new) (log_path log.old) how
        (S.disk store.old) (S.disk store.new) }
    ensures memory { Agrees log.old (S.disk store.old) → IsTrue (P.keeping policy.old).is_built_in
        → result ≡ Err LogError.Memory → Calls (S.disk store.old) (S.disk store.new)
        (λ added. written (log_path log.old) added ≡ text.now) }
    ensures agrees { Agrees log.old (S.disk store.old) → Agrees log.new (S.disk store.new) }
    ensures shown { first ≡ false → Agrees log.old (S.disk store.old)
        → GrowsIn text.now (P.asking policy.old) (P.keeping policy.old) (P.keeping policy.new)
        (log_path log.old) result (S.disk store.old) (S.disk store.new) }
    ensures wrote { Agrees log.old (S.disk store.old) → IsTrue (P.keeping policy.old).is_built_in
        → Calls (S.disk store.old) (S.disk store.new)
        (WroteText (log_path log.old) text.now result) }
    ensures unrefused { IsTrue (P.keeping policy.old).is_built_in
        → IsTrue (P.keeping policy.old).renames → OnOk result
        ((S.disk store.new).refusals ≡ (S.disk store.old).refusals) }
    ensures copies { IsTrue (P.keeping policy.old).is_built_in
        → CopiesNeedRefusal (S.disk store.old) (S.disk store.new) }
    ensures path { log_path log.new ≡ log_path log.old }
    ensures kind { (P.asking policy.new).kind ≡ (P.asking policy.old).kind }
    ensures fault { IsTrue (is_told (P.asking policy.old).kind)
        → IsTrue (P.keeping policy.old).is_built_in
        → IfErr result (MayAnswer (S.disk store.old).refusals (S.disk store.new).refusals) }
    ensures cost { Agrees log.old (S.disk store.old) → IsTrue (P.keeping policy.old).is_built_in
        → Makes (length text.now + (if first then 0 else rotation_cost (P.keeping policy.old)))
        (S.disk store.old) (S.disk store.new) }
    ensures cause { Agrees log.old (S.disk store.old) → IsTrue (is_told (P.asking policy.old).kind)
        → IsTrue (P.keeping policy.old).is_built_in
        → Caused result (S.disk store.old) (S.disk store.new) }
{
    write_record(log, store, text)?;
    if first {
        return Ok(());
    }
    policy.process(log, store, context)
}

/// Opens the file in append mode, writes a text, and closes the file.
pub(crate) fn write_closed<S: Store>(
    log: &mut LogFile,
    store: &mut S,
    text: &[u8],
) -> Result<(), LogError>
    ensures added { Calls (S.disk store.old) (S.disk store.new)
        (OpenedToWrite (log_path log.old) text.now result) }
    ensures unrefused { OnOk result
        ((S.disk store.new).refusals ≡ (S.disk store.old).refusals) }
    ensures fault { IfErr result (IsRefusal (S.disk store.old) (S.disk store.new)) }
    ensures closed { IsClosed log.new (S.disk store.new) }
    ensures path { log_path log.new ≡ log_path log.old }
    ensures cost { Costs (1 + length text.now) result (S.disk store.old) (S.disk store.new) }
{
    let wrote = open_to_write(log.path(), store, text);
    log.roll(store);
    wrote
}

/// Takes the file as closed unless the store says that it is open, after a call that may have
/// closed it.
pub(crate) fn look_again<S: Store>(log: &mut LogFile, store: &mut S)
    ensures calls { Calls (S.disk store.old) (S.disk store.new) (λ added. added ≡ []) }
    // This is no operation.
    ensures refusals { (S.disk store.new).refusals ≡ (S.disk store.old).refusals }
    ensures counted { Uncounted (S.disk store.old) (S.disk store.new) }
    ensures opened { LeavesOpen (S.disk store.old) (S.disk store.new) }
    // An open file stays open, and nothing changes.
    ensures same { IsTrue (is_open log.new) → (store.new ≡ store.old) × (log.new ≡ log.old) }
    ensures agrees { (before : Disk) → Agrees log.old before → LeavesOpen before (S.disk store.old)
        → (before.tells ≡ (S.disk store.old).tells) → Agrees log.new (S.disk store.new) }
    ensures path { log_path log.new ≡ log_path log.old }
{
    if !log.is_open() || store.is_open() {
        return;
    }
    log.roll(store);
}
