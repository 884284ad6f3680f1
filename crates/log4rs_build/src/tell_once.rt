//! Stores that tell why a file cannot be opened once, however often that is tried again.

ghost use Rattle.std.specs.Prelude.{◌≡◌};

use log4rs_base::OutOfMemory;
use log4rs_rolling::store::{
    FsMaker, FsStore, Open, Renamed, ReportingMaker, ReportingStore, Store, StoreError, StoreFault,
    StoreMaker, StoreNotice, TellsFault,
};
use std::alloc::{AllocError, Global};
use std::fs::Files;
use std::sync::{Arc, Mutex};

/// A fault that was told: the path at which the operation was to be made, and its text.
#[derive(Drop)]
struct Told {
    path: String,
    text: String,
}

/// A store that keeps back a fault before its first write if another store of its maker told the
/// same one before its own, and no file of that path was written since.
#[derive(Drop)]
pub struct TellOnceStore<S> {
    alloc: Global,
    store: S,
    told: Arc<Mutex<Vec<Told>>>,
    /// The path of the file that was opened last, before the first write.
    path: String,
    /// Whether nothing is written yet.
    is_new: bool,
    /// Whether the last fault was told by another store.
    is_told: bool,
}

impl<S: TellsFault> TellOnceStore<S> {
    /// Returns whether the last fault, at a path, was told by another store. Notes it otherwise.
    fn was_told(&self, path: &str) -> bool {
        if !self.is_new {
            return false;
        }
        let Some(fault) = self.store.fault() else {
            return false;
        };
        let (Ok(text), Ok(path)) = (
            format!(in self.alloc; "{fault}"),
            String::from_str(self.alloc, path),
        ) else {
            return false;
        };
        let Some(mut told) = self.told.try_lock() else {
            return false;
        };
        let was_told = told.iter().any(|one| one.text.as_str() == text.as_str());
        if !was_told {
            let _is_noted = told.push(Told { path, text }).is_ok();
        }
        was_told
    }

    /// Forgets what was told of the file and its folder.
    fn forget(&self) {
        let path = self.path.as_str();
        if let Some(mut told) = self.told.try_lock() {
            told.retain(|one| {
                !path.starts_with(one.path.as_str()) && !one.path.as_str().starts_with(path)
            });
        }
    }
}

impl<S: TellsFault> TellsFault for TellOnceStore<S> {
    fn fault(&self) -> Option<&StoreFault> {
        if self.is_told {
            return None;
        }
        self.store.fault()
    }

    fn notice(&self) -> Option<&StoreNotice> {
        self.store.notice()
    }
}

impl<S: Store + TellsFault> Store for TellOnceStore<S> {
    ghost disk = { λ once. S.disk once.store };

    fn make_dirs(&mut self, path: &str) -> Result<(), StoreError> {
        let answer = self.store.make_dirs(path);
        self.is_told = answer.is_err() && self.was_told(path);
        answer
    }

    fn open(&mut self, path: &str, how: Open) -> Result<(), StoreError> {
        let answer = self.store.open(path, how);
        self.is_told = answer.is_err() && self.was_told(path);
        if self.is_new {
            if let Ok(path) = String::from_str(self.alloc, path) {
                self.path = path;
            }
        }
        answer
    }

    fn len(&mut self) -> Result<u64, StoreError> {
        let answer = self.store.len();
        self.is_told = answer.is_err() && self.was_told(self.path.as_str());
        answer
    }

    fn write(&mut self, bytes: &[u8]) -> Result<usize, StoreError> {
        let answer = self.store.write(bytes);
        if self.is_new && answer.is_ok() {
            self.forget();
            self.is_new = false;
        }
        self.is_told = false;
        answer
    }

    fn is_open(&self) -> bool {
        self.store.is_open()
    }

    fn close(&mut self) {
        self.store.close();
    }

    fn rename(&mut self, from: &str, to: &str) -> Result<Renamed, StoreError> {
        let answer = self.store.rename(from, to);
        self.is_told = answer.is_err() && self.was_told(from);
        answer
    }

    fn copy(&mut self, from: &str, to: &str) -> Result<(), StoreError> {
        let answer = self.store.copy(from, to);
        self.is_told = answer.is_err() && self.was_told(from);
        answer
    }

    fn remove(&mut self, path: &str) -> Result<(), StoreError> {
        let answer = self.store.remove(path);
        self.is_told = answer.is_err() && self.was_told(path);
        answer
    }
}

/// Makes stores that share what they told before their first write, so that a file that is tried
/// again and again, each time with a new store, has its fault told once.
#[derive(Drop)]
pub struct TellOnceMaker<M> {
    alloc: Global,
    maker: M,
    told: Arc<Mutex<Vec<Told>>>,
}

impl<M: StoreMaker + Drop> TellOnceMaker<M>
where
    M::Made: TellsFault,
{
    /// Creates a maker of the stores of another maker. Fails if an allocation fails.
    pub fn new(alloc: Global, maker: M) -> Result<TellOnceMaker<M>, AllocError> {
        let told = Arc::new(alloc, Mutex::new(Vec::new(alloc)))?;
        Ok(TellOnceMaker { alloc, maker, told })
    }
}

impl<M: StoreMaker> StoreMaker for TellOnceMaker<M>
where
    M::Made: TellsFault,
{
    type Made = TellOnceStore<M::Made>;

    ghost starts = { λ once. M.starts once.maker };

    ghost stores = { λ once. M.stores once.maker };

    fn make(&mut self) -> Result<TellOnceStore<M::Made>, OutOfMemory> {
        let told = Arc::try_clone(&self.told)?;
        Ok(TellOnceStore {
            alloc: self.alloc,
            store: self.maker.make()?,
            told,
            path: String::new(self.alloc),
            is_new: true,
            is_told: false,
        })
    }

    fn prints(&self) -> bool {
        self.maker.prints()
    }
}

/// A store of the files that a runtime reaches. Prints the system's errors.
pub type FileStore<X> = ReportingStore<X, TellOnceStore<FsStore<X>>>;

/// Makes such stores.
pub type FileStoreMaker<X> = ReportingMaker<X, TellOnceMaker<FsMaker<X>>>;

/// Returns a maker of such stores. Fails if an allocation fails.
pub fn file_store_maker<X: Files + Eprint + Copy>(
    rt: X,
    alloc: Global,
) -> Result<FileStoreMaker<X>, AllocError> {
    let maker = TellOnceMaker::new(alloc, FsMaker::new(alloc, rt))?;
    Ok(ReportingMaker::new(rt, maker))
}
