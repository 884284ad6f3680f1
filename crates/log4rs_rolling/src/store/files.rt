//! Stores of real files.

ghost use Rattle.std.specs.Prelude.{◌≡◌, ◌≢◌, ◌↔◌, ◌<◌, ◌≤◌, length, Some, None, IsSome, IsTrue, IsErrOf, IfOk, IfErr, OnOk, OnErr};
ghost use Rattle.log4rs_rolling.specs.Disk.{one_more, closed_at};
ghost use Rattle.log4rs_rolling.specs.declared.store.StoreError.TheVariants.{Refused, Absent, NotOpen};

use crate::store::fault::{Faults, Operation, Seen, StoreFault, StoreNotice};
use crate::store::{Open, Renamed, Store, StoreError, TellsFault};
use log4rs_base::is_fifo;
use std::alloc::Global;
use std::fs::{self, Files, OpenFile, OpenOptions};
use std::io::{self, ErrorKind, Write};
use std::os::unix::fs::MetadataExt;

/// A file that is open, and its path.
#[derive(Drop)]
struct Opened<F> {
    path: String,
    file: F,
}

/// A store of real files. Paths go to the system unchanged.
///
/// Contracts see how many operations were refused and which file is open, and nothing of what the
/// files hold. A write that the system breaks off is not tried again: it is refused, or returns the
/// bytes that were taken. A copy is made under the path of its target followed by `.copying`, and
/// then renamed; if it is refused, its target is as it was. A FIFO is not opened, since that may
/// wait for ever. `Absent` and `Missing` say that the system found no source when it was looked for
/// after the operation failed.
#[derive(Drop)]
pub struct FsStore<R: Files> {
    alloc: Global,
    files: R,
    opened: Option<Opened<R::File>>,
    refusals: u64,
    faults: Faults,
    // What was noticed at the last opening or closing.
    notice: Option<StoreNotice>,
    // Whether a file was opened before.
    has_opened: bool,
}

impl<R: Files> FsStore<R> {
    ghost use Rattle.log4rs_rolling.specs.FsStore.{counted, open_in};

    /// Creates a store of the files that `files` reaches. None is open.
    pub fn new(alloc: Global, files: R) -> FsStore<R>
        ensures count { counted result ≡ 0 }
        ensures opened { open_in result ≡ None }
    {
        FsStore {
            alloc,
            files,
            opened: None,
            refusals: 0,
            faults: Faults::new(alloc),
            notice: None,
            has_opened: false,
        }
    }

    /// Returns how many operations were refused. The count stops at `u64::MAX`.
    pub fn refusals(&self) -> u64
        ensures { result ≡ counted self.now }
    {
        self.refusals
    }

    /// Counts a refusal.
    fn count(&mut self)
        ensures count { counted self.new ≡ one_more (counted self.old) }
        ensures opened { open_in self.new ≡ open_in self.old }
    {
        self.refusals = self.refusals.saturating_add(1);
    }

    /// Counts a refusal that brings no fault of the system, and marks the fault before as known.
    fn refuse(&mut self, error: StoreError) -> StoreError
        ensures count { counted self.new ≡ one_more (counted self.old) }
        ensures opened { open_in self.new ≡ open_in self.old }
        ensures error { result ≡ error }
    {
        self.faults.skip();
        self.count();
        error
    }

    /// Counts an operation that the system refused at a path, and keeps its cause.
    fn refuse_at(&mut self, operation: Operation, path: &str, cause: io::Error) -> StoreError
        ensures count { counted self.new ≡ one_more (counted self.old) }
        ensures opened { open_in self.new ≡ open_in self.old }
        ensures error { result ≡ Refused }
    {
        self.faults.add(operation, path, "", cause);
        self.count();
        StoreError::Refused
    }

    /// Counts a rename or a copy that the system refused, and keeps its cause.
    fn refuse_move(
        &mut self,
        operation: Operation,
        from: &str,
        to: &str,
        cause: io::Error,
    ) -> StoreError
        ensures count { counted self.new ≡ one_more (counted self.old) }
        ensures opened { open_in self.new ≡ open_in self.old }
        ensures error { result ≡ Refused }
    {
        self.faults.add(operation, from, to, cause);
        self.count();
        StoreError::Refused
    }

    /// Notices at the first opening of a file that another one waits beside it.
    fn look_beside(&mut self, path: &str)
        ensures count { counted self.new ≡ counted self.old }
        ensures opened { open_in self.new ≡ open_in self.old }
    {
        if !self.has_opened {
            self.has_opened = true;
            self.notice = waiting_beside(self.alloc, &self.files, path);
        }
    }

    /// Closes the file at this path, if it is open.
    fn close_at(&mut self, path: &str)
        ensures count { counted self.new ≡ counted self.old }
        ensures opened { open_in self.new ≡ closed_at path.now (open_in self.old) }
    {
        let is_open = match &self.opened {
            Some(opened) => opened.path.as_str() == path,
            None => false,
        };
        if is_open {
            self.opened = None;
        }
    }
}

impl<R: Files> TellsFault for FsStore<R> {
    fn fault(&self) -> Option<&StoreFault> {
        self.faults.last()
    }

    fn notice(&self) -> Option<&StoreNotice> {
        self.notice.as_ref()
    }
}

impl<R: Files> Store for FsStore<R> {
    ghost use Rattle.std.specs.Prelude.{false, [], None};
    ghost use Rattle.log4rs_rolling.specs.FsStore.{counted, open_in};

    ghost disk = { λ s. record {
      tells = false;
      start = record { files = λ _. None; mark = [] };
      changes = [];
      refusals = counted s;
      denials = 0;
      operations = 0;
      opened = open_in s;
    } };

    fn make_dirs(&mut self, path: &str) -> Result<(), StoreError>
        ensures ok { OnOk result (counted self.new ≡ counted self.old) }
        ensures err { OnErr result (counted self.new ≡ one_more (counted self.old)) }
        ensures kind { IfErr result (λ e. e ≡ Refused) }
        ensures opened { open_in self.new ≡ open_in self.old }
    {
        match fs::create_dir_all(&self.files, path) {
            Ok(()) => {
                self.faults.work(Operation::MakeDirs, path);
                Ok(())
            }
            Err(cause) => Err(self.refuse_at(Operation::MakeDirs, path, cause)),
        }
    }

    fn open(&mut self, path: &str, how: Open) -> Result<(), StoreError>
        ensures ok { OnOk result (counted self.new ≡ counted self.old) }
        ensures opened { OnOk result (open_in self.new ≡ Some path.now) }
        ensures err { OnErr result (counted self.new ≡ one_more (counted self.old)) }
        ensures closed { OnErr result (open_in self.new ≡ None) }
        ensures kind { IfErr result (λ e. e ≡ Refused) }
    {
        self.opened = None;
        self.notice = None;
        let Ok(name) = String::from_str(self.alloc, path) else {
            return Err(self.refuse(StoreError::Refused));
        };
        match open_file(&self.files, path, how) {
            Ok(file) => {
                self.opened = Some(Opened { path: name, file });
                self.faults.work(Operation::Open, path);
                self.look_beside(path);
                Ok(())
            }
            Err(cause) => Err(self.refuse_at(Operation::Open, path, cause)),
        }
    }

    fn len(&mut self) -> Result<u64, StoreError>
        ensures ok { OnOk result (counted self.new ≡ counted self.old) }
        ensures err { OnErr result (counted self.new ≡ one_more (counted self.old)) }
        ensures kind { IfErr result (λ e. e ≢ Absent) }
        ensures not_open { IsErrOf result NotOpen ↔ (open_in self.old ≡ None) }
        ensures opened { open_in self.new ≡ open_in self.old }
    {
        let Some(opened) = self.opened.take() else {
            return Err(self.refuse(StoreError::NotOpen));
        };
        let answer = match opened.file.metadata() {
            Ok(metadata) => {
                self.faults.work(Operation::Len, &opened.path);
                Ok(metadata.len())
            }
            Err(cause) => Err(self.refuse_at(Operation::Len, &opened.path, cause)),
        };
        self.opened = Some(opened);
        answer
    }

    fn write(&mut self, bytes: &[u8]) -> Result<usize, StoreError>
        ensures ok { OnOk result (counted self.new ≡ counted self.old) }
        ensures bound { IfOk result (λ n. n ≤ length bytes.now) }
        ensures progress { IfOk result (λ n. 0 < length bytes.now → 0 < n) }
        ensures err { OnErr result (counted self.new ≡ one_more (counted self.old)) }
        ensures kind { IfErr result (λ e. e ≢ Absent) }
        ensures not_open { IsErrOf result NotOpen ↔ (open_in self.old ≡ None) }
        ensures opened { open_in self.new ≡ open_in self.old }
    {
        let Some(mut opened) = self.opened.take() else {
            return Err(self.refuse(StoreError::NotOpen));
        };
        let written = opened.file.write(bytes);
        let answer = match written {
            Ok(taken) if taken > 0 || bytes.is_empty() => {
                self.faults.work(Operation::Write, &opened.path);
                Ok(taken)
            }
            Ok(_) => Err(self.refuse(StoreError::Refused)),
            Err(cause) => Err(self.refuse_at(Operation::Write, &opened.path, cause)),
        };
        self.opened = Some(opened);
        answer
    }

    fn is_open(&self) -> bool
        ensures { IsTrue result ↔ IsSome (open_in self.now) }
    {
        self.opened.is_some()
    }

    fn close(&mut self)
        ensures count { counted self.new ≡ counted self.old }
        ensures opened { open_in self.new ≡ None }
    {
        self.notice = None;
        if let Some(opened) = self.opened.take() {
            if is_gone(&self.files, &opened) {
                self.notice = Some(StoreNotice::new(opened.path, Seen::Gone));
            }
        }
    }

    fn rename(&mut self, from: &str, to: &str) -> Result<Renamed, StoreError>
        ensures ok { OnOk result (counted self.new ≡ counted self.old) }
        ensures err { OnErr result (counted self.new ≡ one_more (counted self.old)) }
        ensures kind { IfErr result (λ e. e ≡ Refused) }
        ensures opened { open_in self.new
            ≡ closed_at from.now (closed_at to.now (open_in self.old)) }
    {
        self.close_at(to);
        self.close_at(from);
        match fs::rename(&self.files, from, to) {
            Ok(()) => {
                self.faults.work(Operation::Rename, from);
                Ok(Renamed::Moved)
            }
            Err(error) if error.kind() == ErrorKind::NotFound && is_absent(&self.files, from) => {
                Ok(Renamed::Missing)
            }
            Err(cause) => Err(self.refuse_move(Operation::Rename, from, to, cause)),
        }
    }

    fn copy(&mut self, from: &str, to: &str) -> Result<(), StoreError>
        ensures ok { OnOk result (counted self.new ≡ counted self.old) }
        ensures err { OnErr result (counted self.new ≡ one_more (counted self.old)) }
        ensures kind { IfErr result (λ e. e ≢ NotOpen) }
        ensures opened { open_in self.new
            ≡ closed_at from.now (closed_at to.now (open_in self.old)) }
    {
        self.close_at(to);
        self.close_at(from);
        match copied(self.alloc, &self.files, from, to) {
            Ok(()) => {
                self.faults.work(Operation::Copy, from);
                Ok(())
            }
            Err(cause) => {
                let refused = self.refuse_move(Operation::Copy, from, to, cause);
                Err(reason(&self.files, from, refused))
            }
        }
    }

    fn remove(&mut self, path: &str) -> Result<(), StoreError>
        ensures ok { OnOk result (counted self.new ≡ counted self.old) }
        ensures err { OnErr result (counted self.new ≡ one_more (counted self.old)) }
        ensures kind { IfErr result (λ e. e ≢ NotOpen) }
        ensures opened { open_in self.new ≡ closed_at path.now (open_in self.old) }
    {
        self.close_at(path);
        match fs::remove_file(&self.files, path) {
            Ok(()) => {
                self.faults.work(Operation::Remove, path);
                Ok(())
            }
            Err(cause) => {
                let refused = self.refuse_at(Operation::Remove, path, cause);
                Err(reason(&self.files, path, refused))
            }
        }
    }
}

// Opens a file to write at its end, but no FIFO: the opening of one waits until somebody reads it.
fn open_file<R: Files>(files: &R, path: &str, how: Open) -> io::Result<R::File> {
    if is_fifo(files, path) {
        return Err(io::Error::new(ErrorKind::InvalidInput, "Is a FIFO"));
    }
    let mut options = OpenOptions::new();
    options.create(true).append(true);
    let file = options.open(files, path)?;
    if let Open::Truncate = how {
        empty(&file)?;
    }
    Ok(file)
}

// Empties a file that is open. A device has no length, and cannot be given one.
fn empty<F: OpenFile>(file: &F) -> io::Result<()> {
    if file.metadata()?.len() == 0 {
        return Ok(());
    }
    file.set_len(0)
}

// Whether the path of an open file leads to another file, or to none. If the system does not say
// which file either is, it is taken to be the same.
fn is_gone<R: Files>(files: &R, opened: &Opened<R::File>) -> bool {
    let Ok(ours) = opened.file.metadata() else {
        return false;
    };
    match fs::metadata(files, opened.path.as_str()) {
        Ok(found) => found.ino() != ours.ino() || found.dev() != ours.dev(),
        Err(cause) => cause.kind() == ErrorKind::NotFound,
    }
}

// The notice of a file that waits beside the one at a path, if there is one.
fn waiting_beside<R: Files>(alloc: Global, files: &R, path: &str) -> Option<StoreNotice> {
    let mut beside = String::from_str(alloc, path).ok()?;
    beside.push_str(".rolling").ok()?;
    match fs::metadata(files, beside.as_str()) {
        Ok(found) if found.is_file() => Some(StoreNotice::new(beside, Seen::Waiting)),
        _ => None,
    }
}

// Copies a file, with its mode. The system would empty a file that is copied to itself, and rename a
// copy over what is no file.
fn copied<R: Files>(alloc: Global, files: &R, from: &str, to: &str) -> io::Result<()> {
    if !fs::metadata(files, from)?.is_file() {
        return Err(io::Error::new(ErrorKind::InvalidInput, "the source is no regular file"));
    }
    if from == to {
        return Ok(());
    }
    if is_no_file(files, to) {
        return Err(io::Error::new(ErrorKind::InvalidInput, "the target is no regular file"));
    }
    let mut beside = String::from_str(alloc, to)?;
    beside.push_str(".copying")?;
    copy_beside(files, from, &beside, to)
}

// Whether what is at a path is no regular file.
fn is_no_file<R: Files>(files: &R, path: &str) -> bool {
    match fs::metadata(files, path) {
        Ok(found) => !found.is_file(),
        Err(_) => false,
    }
}

// Copies a file by way of another path. If that fails, no file stands there.
fn copy_beside<R: Files>(files: &R, from: &str, beside: &str, to: &str) -> io::Result<()> {
    let copied = match fs::copy(files, from, beside) {
        Ok(_) => fs::rename(files, beside, to),
        Err(cause) => Err(cause),
    };
    if copied.is_err() {
        let _ = fs::remove_file(files, beside);
    }
    copied
}

// Returns whether nothing is there, not even a link that leads nowhere.
fn is_absent<R: Files>(files: &R, path: &str) -> bool {
    match fs::symlink_metadata(files, path) {
        Ok(_) => false,
        Err(error) => error.kind() == ErrorKind::NotFound,
    }
}

// Why a copy or a removal of a file was refused.
fn reason<R: Files>(files: &R, path: &str, refused: StoreError) -> StoreError
    requires { refused ≡ Refused }
    ensures { result ≢ NotOpen }
{
    if is_absent(files, path) {
        StoreError::Absent
    } else {
        refused
    }
}
