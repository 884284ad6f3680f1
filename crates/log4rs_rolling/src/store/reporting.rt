//! Stores that print their faults.

ghost use Rattle.std.specs.Prelude.{◌≡◌};

use crate::store::maker::StoreMaker;
use crate::store::{Open, Renamed, Store, StoreError, TellsFault};
use log4rs_base::OutOfMemory;
use log4rs_base::print::{print_counted, print_fault};

/// A store that prints what the system refuses to standard error, as `log4rs: `, the path and the
/// cause, on one line. A refusal is printed once, until the same kind of operation is refused at
/// another path or for another cause, or has worked at that path. After ten lines about one kind of
/// operation, only the 20th, 40th, 80th and so on are printed, each with the number that was left
/// out. What the store notices at an opening or a closing is printed each time. What cannot be
/// printed is lost.
#[derive(Drop)]
pub struct ReportingStore<X, S> {
    rt: X,
    store: S,
}

impl<X: Eprint, S: Store + TellsFault> ReportingStore<X, S> {
    /// Prints the new fault of an operation that was refused.
    fn reported<T>(&self, answer: Result<T, StoreError>) -> Result<T, StoreError>
        ensures { result ≡ answer }
    {
        if let (Err(_), Some(fault)) = (&answer, self.store.fault()) {
            if fault.is_new() {
                print_counted(&self.rt, fault.news(), fault);
            }
        }
        answer
    }

    /// Prints what was noticed at an opening or a closing just now.
    fn tell_notice(&self) {
        if let Some(notice) = self.store.notice() {
            print_fault(&self.rt, notice);
        }
    }
}

impl<X: Eprint, S: Store + TellsFault> Store for ReportingStore<X, S> {
    ghost disk = { λ reporting. S.disk reporting.store };

    fn make_dirs(&mut self, path: &str) -> Result<(), StoreError> {
        let answer = self.store.make_dirs(path);
        self.reported(answer)
    }

    fn open(&mut self, path: &str, how: Open) -> Result<(), StoreError> {
        let answer = self.store.open(path, how);
        self.tell_notice();
        self.reported(answer)
    }

    fn len(&mut self) -> Result<u64, StoreError> {
        let answer = self.store.len();
        self.reported(answer)
    }

    fn write(&mut self, bytes: &[u8]) -> Result<usize, StoreError> {
        let answer = self.store.write(bytes);
        self.reported(answer)
    }

    fn is_open(&self) -> bool {
        self.store.is_open()
    }

    fn close(&mut self) {
        self.store.close();
        self.tell_notice();
    }

    fn rename(&mut self, from: &str, to: &str) -> Result<Renamed, StoreError> {
        let answer = self.store.rename(from, to);
        self.reported(answer)
    }

    fn copy(&mut self, from: &str, to: &str) -> Result<(), StoreError> {
        let answer = self.store.copy(from, to);
        self.reported(answer)
    }

    fn remove(&mut self, path: &str) -> Result<(), StoreError> {
        let answer = self.store.remove(path);
        self.reported(answer)
    }
}

/// Makes stores that print their faults.
#[derive(Drop)]
pub struct ReportingMaker<X, M> {
    rt: X,
    maker: M,
}

impl<X: Eprint + Copy, M: StoreMaker> ReportingMaker<X, M>
where
    M::Made: TellsFault,
{
    /// Creates a maker of the stores of another maker, which print their faults to standard error.
    pub fn new(rt: X, maker: M) -> ReportingMaker<X, M>
        ensures starts { ⟦<ReportingMaker<X, M> as StoreMaker>⟧.starts result ≡ M.starts maker }
    {
        ReportingMaker { rt, maker }
    }
}

impl<X: Eprint + Copy, M: StoreMaker> StoreMaker for ReportingMaker<X, M>
where
    M::Made: TellsFault,
{
    type Made = ReportingStore<X, M::Made>;

    ghost starts = { λ reporting. M.starts reporting.maker };

    ghost stores = { λ reporting. M.stores reporting.maker };

    fn make(&mut self) -> Result<ReportingStore<X, M::Made>, OutOfMemory> {
        Ok(ReportingStore {
            rt: self.rt,
            store: self.maker.make()?,
        })
    }

    fn prints(&self) -> bool {
        true
    }
}
