//! Makers of stores.

ghost use Rattle.std.specs.Prelude.{◌≡◌, ℕ, Option, Some, None, IsOk, IfOk};
ghost use Rattle.log4rs_rolling.specs.Change.{Files as FilesData};
ghost use Rattle.log4rs_rolling.specs.Disk.{Begins, CountsMade, begun};

use crate::store::Store;
use crate::store::files::FsStore;
use crate::store::mem::MemStore;
use log4rs_base::OutOfMemory;
use std::alloc::Global;
use std::collections::BTreeMap;
use std::fs::Files;

/// Makes stores, one for each appender that writes to a file.
pub trait StoreMaker {
    /// The type of the stores.
    type Made: Store;

    /// The files that its stores begin with, if contracts see them.
    ghost starts: { Self → Option FilesData } = { λ _. None };

    /// How many stores it has made, if contracts see that.
    ghost stores: { Self → Option ℕ } = { λ _. None };

    /// Makes a store with no open file. Fails if an allocation fails.
    fn make(&mut self) -> Result<Self::Made, OutOfMemory>
        ensures made { IfOk result (λ store. Begins (starts self.old) (Self.Made.disk store)) }
        ensures starts { starts self.new ≡ starts self.old }
        ensures stores { CountsMade result (stores self.old) (stores self.new) };

    /// Returns whether its stores print what the system refuses. Consoles beside them do so too.
    fn prints(&self) -> bool {
        false
    }
}

/// Makes stores in memory. Each begins without files, and shares none.
#[derive(Clone, Copy)]
pub struct MemMaker {
    alloc: Global,
}

impl MemMaker {
    /// Creates a maker whose stores allocate from `alloc`.
    pub fn new(alloc: Global) -> MemMaker
        ensures starts { ⟦<MemMaker as StoreMaker>⟧.starts result ≡ Some (λ _. None) }
    {
        MemMaker { alloc }
    }
}

impl StoreMaker for MemMaker {
    ghost use Rattle.std.specs.Prelude.{Some, None};
    ghost use Rattle.log4rs_rolling.specs.MemStore.{disk_of, plan_of, no_plan};

    type Made = MemStore;

    ghost starts = { λ _. Some (λ _. None) };

    fn make(&mut self) -> Result<MemStore, OutOfMemory>
        ensures done { IsOk result }
        ensures made { IfOk result (λ store. disk_of store ≡ begun (λ _. None)) }
        ensures plan { IfOk result (λ store. plan_of store ≡ no_plan) }
    {
        Ok(MemStore::new(self.alloc, BTreeMap::new(self.alloc)))
    }
}

/// Makes stores of real files, which share the files that `files` reaches.
#[derive(Drop)]
pub struct FsMaker<R> {
    alloc: Global,
    files: R,
}

impl<R: Files + Copy> FsMaker<R> {
    /// Creates a maker of stores of the files that `files` reaches.
    pub fn new(alloc: Global, files: R) -> FsMaker<R>
        ensures starts { ⟦<FsMaker<R> as StoreMaker>⟧.starts result ≡ None }
    {
        FsMaker { alloc, files }
    }
}

impl<R: Files + Copy> StoreMaker for FsMaker<R> {
    ghost use Rattle.log4rs_rolling.specs.FsStore.{counted, open_in};

    type Made = FsStore<R>;

    fn make(&mut self) -> Result<FsStore<R>, OutOfMemory>
        ensures done { IsOk result }
        ensures count { IfOk result (λ store. counted store ≡ 0) }
        ensures opened { IfOk result (λ store. open_in store ≡ None) }
    {
        Ok(FsStore::new(self.alloc, self.files))
    }
}
