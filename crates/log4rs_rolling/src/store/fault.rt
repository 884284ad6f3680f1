//! What the system says of the operations that it refused.

ghost use Rattle.std.specs.Prelude.{◌≡◌, ◌<◌, length, IfSome};

use std::alloc::Global;
use std::fmt::{self, Display, Formatter};
use std::io;

/// An operation of a store.
#[derive(Clone, Copy, Debug, PartialEq, Eq)]
pub(crate) enum Operation {
    MakeDirs,
    Open,
    Len,
    Write,
    Rename,
    Copy,
    Remove,
}

/// An operation that the system refused: the path at which it was to be made, for a rename or a copy
/// also the path that the file was to get, and the cause.
#[derive(Debug, Drop)]
pub struct StoreFault {
    operation: Operation,
    path: String,
    // Empty unless a file was to be renamed or copied.
    to: String,
    cause: io::Error,
    is_new: bool,
    // The number of faults of this operation that were new.
    news: u64,
    // Whether the operation worked at this path since.
    works: bool,
}

impl StoreFault {
    /// Returns whether this operation failed at this path, for this cause, and has not worked since.
    fn is_same(&self, path: &str, to: &str, cause: &io::Error) -> bool {
        !self.works
            && self.path.as_str() == path
            && self.to.as_str() == to
            && self.cause.raw_os_error() == cause.raw_os_error()
            && self.cause.kind() == cause.kind()
    }

    /// Returns whether the operation that failed before was at another path, or failed for another
    /// cause, or has worked since.
    pub fn is_new(&self) -> bool {
        self.is_new
    }

    /// Returns how many faults of this operation were new so far, this one among them.
    pub(crate) fn news(&self) -> u64 {
        self.news
    }
}

impl Display for StoreFault {
    fn fmt<W: fmt::Write>(&self, f: &mut Formatter<W>) -> fmt::Result {
        let (path, to) = (self.path.as_str(), self.to.as_str());
        match self.operation {
            Operation::Rename => write!(f, "renaming {path} to {to}: {}", self.cause),
            Operation::Copy => write!(f, "copying {path} to {to}: {}", self.cause),
            _ => write!(f, "{path}: {}", self.cause),
        }
    }
}

impl std::error::Error for StoreFault {}

/// The faults of a store: the last one of each operation, in the order in which they came.
#[derive(Drop)]
pub(crate) struct Faults {
    alloc: Global,
    kept: Vec<StoreFault>,
    // Whether the last refusal has a fault.
    is_kept: bool,
}

impl Faults {
    pub(crate) fn new(alloc: Global) -> Faults {
        Faults {
            alloc,
            kept: Vec::new(alloc),
            is_kept: false,
        }
    }

    /// Returns the fault of the operation that was refused last, unless that one has worked since.
    pub(crate) fn last(&self) -> Option<&StoreFault> {
        match self.kept.last() {
            Some(fault) if self.is_kept && !fault.works => Some(fault),
            _ => None,
        }
    }

    /// Returns where the fault of an operation stands.
    fn place(&self, operation: Operation) -> Option<usize>
        ensures { IfSome result (λ at. at < length self.now.kept.items) }
    {
        for (at, fault) in self.kept.iter().enumerate() {
            if fault.operation == operation {
                return Some(at);
            }
        }
        None
    }

    /// Takes out the fault of an operation.
    fn take(&mut self, operation: Operation) -> Option<StoreFault> {
        match self.place(operation) {
            Some(at) => Some(self.kept.remove(at)),
            None => None,
        }
    }

    /// Keeps the fault of an operation that the system refused. If an allocation fails, there is
    /// none.
    pub(crate) fn add(&mut self, operation: Operation, path: &str, to: &str, cause: io::Error) {
        let before = self.take(operation);
        self.is_kept = false;
        if let Some(fault) = after(self.alloc, before, operation, path, to, cause) {
            self.is_kept = self.kept.push(fault).is_ok();
        }
    }

    /// Notes a refusal that is not the system's.
    pub(crate) fn skip(&mut self) {
        self.is_kept = false;
    }

    /// Notes that an operation worked.
    pub(crate) fn work(&mut self, operation: Operation, path: &str) {
        if let Some(at) = self.place(operation) {
            let fault = &mut self.kept[at];
            if fault.path.as_str() == path {
                fault.works = true;
            }
        }
    }
}

/// Returns the fault of an operation, after the one before. Returns `None` if an allocation fails.
fn after(
    alloc: Global,
    before: Option<StoreFault>,
    operation: Operation,
    path: &str,
    to: &str,
    cause: io::Error,
) -> Option<StoreFault> {
    let (is_new, news) = match &before {
        Some(before) if before.is_same(path, to, &cause) => (false, before.news),
        Some(before) => (true, before.news.saturating_add(1)),
        None => (true, 1),
    };
    let path = String::from_str(alloc, path).ok()?;
    let to = String::from_str(alloc, to).ok()?;
    Some(StoreFault {
        operation,
        path,
        to,
        cause,
        is_new,
        news,
        works: false,
    })
}

/// What a store noticed of the file at a path, although no operation was refused.
#[derive(Debug, Drop)]
pub struct StoreNotice {
    path: String,
    seen: Seen,
}

/// What a store noticed of a file.
#[derive(Clone, Copy, Debug, PartialEq, Eq)]
pub(crate) enum Seen {
    /// Another file, or none, has the path of the open file.
    Gone,
    /// A file waits beside it, to be archived.
    Waiting,
}

impl StoreNotice {
    pub(crate) fn new(path: String, seen: Seen) -> StoreNotice {
        StoreNotice { path, seen }
    }
}

impl Display for StoreNotice {
    fn fmt<W: fmt::Write>(&self, f: &mut Formatter<W>) -> fmt::Result {
        let path = self.path.as_str();
        match self.seen {
            Seen::Gone => write!(
                f,
                "{path}: the file was moved, removed or replaced while it was open, and does not have what was written since"
            ),
            Seen::Waiting => write!(
                f,
                "{path}: a run that rolled in the background left this file; it stays until a run with `background` archives it"
            ),
        }
    }
}
