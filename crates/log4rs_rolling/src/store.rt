//! Stores of files, and their state in contracts.

ghost use Rattle.std.specs.Prelude.{◌≡◌, ◌≢◌, ◌↔◌, [], ◌∷◌, IsTrue, IsSome, IfOk, OnOk, OnErr, IfErr, Some, None, Ok};

use thiserror::Error;

mod effect;
mod fault;
mod files;
mod lookups;
mod maker;
mod mem;
mod replay;
mod reporting;
mod write;

pub use effect::Effect;
pub use fault::{StoreFault, StoreNotice};
pub use files::FsStore;
pub use maker::{FsMaker, MemMaker, StoreMaker};
pub use mem::MemStore;
pub use reporting::{ReportingMaker, ReportingStore};
pub use write::{open_to_write, write_bytes};

/// How a file is opened. Either way, an absent file is created empty.
#[derive(Clone, Copy, Debug, PartialEq, Eq)]
pub enum Open {
    /// Keeps the bytes of the file, and writes behind them.
    Append,
    /// Empties the file.
    Truncate,
}

/// The result of a rename that was not refused.
#[derive(Clone, Copy, Debug, PartialEq, Eq)]
pub enum Renamed {
    /// The file was moved.
    Moved,
    /// There is no file at the source path.
    Missing,
}

/// Errors of the operations of a store.
#[derive(Clone, Copy, Debug, PartialEq, Eq, Error)]
pub enum StoreError {
    /// The store refused the operation.
    #[error("the store refused the operation")]
    Refused,
    /// The file to copy or remove is absent.
    #[error("there is no such file")]
    Absent,
    /// No file is open that could be measured or written to.
    #[error("no file is open")]
    NotOpen,
}

/// A store that keeps the last fault of the system.
pub trait TellsFault {
    /// Returns the fault of the last operation that the system refused, or `None` if there was
    /// none, if that operation has worked since, or if no memory was found for its path. A refusal
    /// without the system keeps the fault before it.
    fn fault(&self) -> Option<&StoreFault>;

    /// Returns what the store noticed at the last opening or closing of a file.
    fn notice(&self) -> Option<&StoreNotice> {
        None
    }
}

/// The plan for one operation of a store or a console in memory.
#[derive(Clone, Copy, Debug, PartialEq, Eq)]
pub enum Planned {
    /// The operation is done.
    Do,
    /// The operation is refused.
    Refuse,
    /// A write takes at most this many bytes, and at least one if there are any. Any other
    /// operation is done.
    Take(usize),
}

/// A store of files, of which at most one is open. Contracts describe it by its `disk`. Of a store
/// that hides its files, they promise only the count of refusals.
pub trait Store {
    ghost use Rattle.log4rs_rolling.specs.Disk.{Disk, Does, Refuses, Writes, Measures, Counted, Uncounted, files_of, closed_at};
    ghost use Rattle.log4rs_rolling.specs.Change.{opened, renamed, copied, removed};
    ghost use Rattle.log4rs_rolling.specs.declared.store.StoreError.TheVariants.{Refused, Absent, NotOpen};

    /// The state of the store in contracts: whether it shows its files, what it started with, its
    /// changes, the counts of refusals, denials and operations, and the open file.
    ghost disk: { Self → Disk };

    /// Creates a directory and its parents. Fails with `Refused` if the store refuses.
    fn make_dirs(&mut self, path: &str) -> Result<(), StoreError>
        ensures ok { OnOk result (Does (disk self.old) (disk self.new) [] (disk self.old).refusals
            (disk self.old).opened) }
        ensures err { OnErr result (Refuses (disk self.old) (disk self.new)
            (disk self.old).opened) }
        ensures kind { IfErr result (λ e. e ≡ Refused) }
        ensures counted { Counted result (disk self.old) (disk self.new) };

    /// Closes the open file, and opens this one. Fails with `Refused` if the store refuses; no file
    /// is open then.
    fn open(&mut self, path: &str, how: Open) -> Result<(), StoreError>
        ensures ok { OnOk result (Does (disk self.old) (disk self.new) (opened path.now how ∷ [])
            (disk self.old).refusals (Some path.now)) }
        ensures err { OnErr result (Refuses (disk self.old) (disk self.new) None) }
        ensures kind { IfErr result (λ e. e ≡ Refused) }
        ensures counted { Counted result (disk self.old) (disk self.new) };

    /// Returns the length of the open file in bytes. Fails with `NotOpen` if no file is open, and
    /// with `Refused` if the store refuses.
    fn len(&mut self) -> Result<u64, StoreError>
        ensures ok { IfOk result (Measures (disk self.old) (disk self.new)) }
        ensures err { OnErr result (Refuses (disk self.old) (disk self.new)
            (disk self.old).opened) }
        ensures kind { IfErr result (λ e. e ≢ Absent) }
        ensures not_open { IsTrue (disk self.old).tells
            → IfErr result (λ e. (e ≡ NotOpen) ↔ ((disk self.old).opened ≡ None)) }
        ensures counted { Counted result (disk self.old) (disk self.new) };

    /// Writes the first of these bytes at the end of the open file, and returns how many it took:
    /// at least one, if there are any. Fails with `NotOpen` if no file is open, and with `Refused`
    /// if the store refuses; nothing is written then.
    fn write(&mut self, bytes: &[u8]) -> Result<usize, StoreError>
        ensures ok { IfOk result (Writes (disk self.old) (disk self.new) bytes.now) }
        ensures err { OnErr result (Refuses (disk self.old) (disk self.new)
            (disk self.old).opened) }
        ensures kind { IfErr result (λ e. e ≢ Absent) }
        ensures not_open { IsTrue (disk self.old).tells
            → IfErr result (λ e. (e ≡ NotOpen) ↔ ((disk self.old).opened ≡ None)) }
        ensures counted { Counted result (disk self.old) (disk self.new) };

    /// Returns whether a file is open. The call is not counted, and cannot be refused. The default
    /// returns `false`, which is always allowed but slow: each `step` or `drive` of a rolled file
    /// then closes it, and the next record opens it again.
    fn is_open(&self) -> bool
        ensures { IsTrue (disk self.now).tells → IsTrue result
            → IsSome (disk self.now).opened }
    {
        false
    }

    /// Closes the open file, if there is one. It changes no file, is not counted, and cannot be
    /// refused.
    fn close(&mut self)
        ensures closed { Does (disk self.old) (disk self.new) []
            (disk self.old).refusals None }
        ensures counted { Uncounted (disk self.old) (disk self.new) };

    /// Moves a file in place of another. Closes either first, if it is open. Returns `Missing` if
    /// there is no file at `from`. Fails with `Refused` if the store refuses.
    fn rename(&mut self, from: &str, to: &str) -> Result<Renamed, StoreError>
        ensures moved { result ≡ Ok Renamed.Moved
            → Does (disk self.old) (disk self.new) (renamed from.now to.now ∷ [])
            (disk self.old).refusals (closed_at from.now
            (closed_at to.now (disk self.old).opened)) }
        ensures present { IsTrue (disk self.old).tells → result ≡ Ok Renamed.Moved
            → IsSome (files_of (disk self.old) from.now) }
        ensures missing { result ≡ Ok Renamed.Missing
            → Does (disk self.old) (disk self.new) [] (disk self.old).refusals
            (closed_at from.now (closed_at to.now (disk self.old).opened)) }
        ensures absent { IsTrue (disk self.old).tells → result ≡ Ok Renamed.Missing
            → files_of (disk self.old) from.now ≡ None }
        ensures err { OnErr result (Refuses (disk self.old) (disk self.new)
            (closed_at from.now (closed_at to.now (disk self.old).opened))) }
        ensures kind { IfErr result (λ e. e ≡ Refused) }
        ensures counted { Counted result (disk self.old) (disk self.new) };

    /// Gives the file at `to` the bytes of the file at `from`. Closes either first, if it is open.
    /// Fails with `Absent` if there is no file at `from`, and with `Refused` if the store refuses.
    fn copy(&mut self, from: &str, to: &str) -> Result<(), StoreError>
        ensures ok { OnOk result (Does (disk self.old) (disk self.new)
            (copied from.now to.now ∷ [])
            (disk self.old).refusals (closed_at from.now
            (closed_at to.now (disk self.old).opened))) }
        ensures present { IsTrue (disk self.old).tells
            → OnOk result (IsSome (files_of (disk self.old) from.now)) }
        ensures err { OnErr result (Refuses (disk self.old) (disk self.new)
            (closed_at from.now (closed_at to.now (disk self.old).opened))) }
        ensures kind { IfErr result (λ e. e ≢ NotOpen) }
        ensures absent { IsTrue (disk self.old).tells
            → IfErr result (λ e. e ≡ Absent → files_of (disk self.old) from.now ≡ None) }
        ensures counted { Counted result (disk self.old) (disk self.new) };

    /// Removes a file. Closes it first, if it is open. Fails with `Absent` if there is no such
    /// file, and with `Refused` if the store refuses.
    fn remove(&mut self, path: &str) -> Result<(), StoreError>
        ensures ok { OnOk result (Does (disk self.old) (disk self.new) (removed path.now ∷ [])
            (disk self.old).refusals (closed_at path.now (disk self.old).opened)) }
        ensures present { IsTrue (disk self.old).tells
            → OnOk result (IsSome (files_of (disk self.old) path.now)) }
        ensures err { OnErr result (Refuses (disk self.old) (disk self.new)
            (closed_at path.now (disk self.old).opened)) }
        ensures kind { IfErr result (λ e. e ≢ NotOpen) }
        ensures absent { IsTrue (disk self.old).tells
            → IfErr result (λ e. e ≡ Absent → files_of (disk self.old) path.now ≡ None) }
        ensures counted { Counted result (disk self.old) (disk self.new) };
}
