//! Stores that stop.

ghost use Rattle.std.specs.Prelude.{◌≡◌, ◌≢◌, ◌↔◌, ◌≤◌, ◌<◌, ◌+◌, [], false, length, IsTrue, IsSome, Some, None};
ghost use Rattle.log4rs_rolling.specs.Disk.{Does, Uncounted, denials_by, one_more, closed_at};
ghost use Rattle.log4rs_restarts.specs.Stops.{counted, marked, path_in, start_of};

use log4rs_base::Carried;
use log4rs_rolling::store::{Open, Renamed, Store, StoreError};
use std::alloc::Global;

/// A store that refuses all operations after a number of them.
#[derive(Drop)]
pub struct Stopping<S: Store + Drop> {
    inner: S,
    alloc: Global,
    // How many operations are let through, and how many were.
    limit: u64,
    passed: u64,
    // How many operations were refused by the limit.
    stopped: u64,
    // How many it refused itself with `Refused`.
    denied: u64,
    // The path of the open file.
    path: Option<String>,
    // The store before the first operation, for contracts only.
    begun: Carried<S>,
    ghost open: { IsTrue (S.disk inner).tells → (S.disk inner).opened ≡ path_in path },
    ghost later: { IsTrue (S.disk inner).tells
        → (S.disk begun.value).refusals ≤ (S.disk inner).refusals },
    ghost within: { passed ≤ limit },
    ghost changes: { IsTrue (S.disk inner).tells
        → length (S.disk inner).changes ≤ length (S.disk begun.value).changes + passed },
    ghost made: { IsTrue (S.disk inner).tells
        → (S.disk inner).operations ≡ counted (S.disk begun.value).operations passed },
    ghost stops: { IsTrue (S.disk inner).tells → 0 < stopped → passed ≡ limit },
}

impl<S: Store + Drop> Stopping<S> {
    ghost use Rattle.log4rs_restarts.specs.Inner.{inner_of, start_in, passed_in, stopped_in};

    /// Closes the store, and lets `limit` operations through to it.
    pub fn new(alloc: Global, inner: S, limit: u64) -> Self
        ensures inner { Does (S.disk inner) (S.disk (inner_of result)) []
            (S.disk inner).refusals None }
        ensures counted { Uncounted (S.disk inner) (S.disk (inner_of result)) }
        ensures start { start_in result ≡ start_of limit (S.disk (inner_of result)) }
        ensures none { stopped_in result ≡ 0 }
    {
        let mut inner = inner;
        inner.close();
        let begun = Carried::of(&inner);
        Stopping {
            inner,
            alloc,
            limit,
            passed: 0,
            stopped: 0,
            denied: 0,
            path: None,
            begun,
        }
    }

    /// Returns how many operations were let through.
    pub fn passed(&self) -> u64
        ensures { result ≡ passed_in self.now }
    {
        self.passed
    }

    /// Returns how many operations were refused by the limit. The count stops at `u64::MAX`.
    pub fn stopped(&self) -> u64
        ensures { result ≡ stopped_in self.now }
    {
        self.stopped
    }

    /// Returns the store, closed.
    pub fn into_inner(self) -> S
        ensures inner { Does (S.disk (inner_of self)) (S.disk result) []
            (S.disk (inner_of self)).refusals None }
        ensures counted { Uncounted (S.disk (inner_of self)) (S.disk result) }
        ensures later { IsTrue (S.disk (inner_of self)).tells
            → (start_in self).refusals ≤ (S.disk (inner_of self)).refusals }
        ensures within { passed_in self ≤ (start_in self).limit }
        ensures changes { IsTrue (S.disk (inner_of self)).tells
            → length (S.disk (inner_of self)).changes ≤ (start_in self).changes + passed_in self }
        ensures made { IsTrue (S.disk (inner_of self)).tells → (S.disk (inner_of self)).operations
            ≡ counted (start_in self).operations (passed_in self) }
        // Nothing was refused before the limit was reached.
        ensures stops { IsTrue (S.disk (inner_of self)).tells
            → 0 < stopped_in self → passed_in self ≡ (start_in self).limit }
    {
        let mut inner = self.inner;
        inner.close();
        inner
    }
}

/// Returns whether an operation is let through, and counts it.
fn spend(passed: &mut u64, limit: u64) -> bool
    requires { passed.old ≤ limit }
    ensures counted { IsTrue result → passed.new ≡ passed.old + 1 }
    ensures kept { result ≡ false → passed.new ≡ passed.old }
    ensures within { passed.new ≤ limit }
    // None is refused before the limit is reached.
    ensures stopped { result ≡ false → passed.old ≡ limit }
{
    if *passed >= limit {
        return false;
    }
    *passed += 1;
    true
}

/// Closes the open file.
fn shut<S: Store>(inner: &mut S, path: &mut Option<String>)
    ensures closed { Does (S.disk inner.old) (S.disk inner.new) []
        (S.disk inner.old).refusals None }
    ensures counted { Uncounted (S.disk inner.old) (S.disk inner.new) }
    ensures path { path.new ≡ None }
{
    inner.close();
    *path = None;
}

/// Closes the file at this path, if it is open.
fn leave<S: Store>(inner: &mut S, path: &mut Option<String>, left: &str)
    requires { IsTrue (S.disk inner.old).tells → (S.disk inner.old).opened ≡ path_in path.old }
    ensures closed { Does (S.disk inner.old) (S.disk inner.new) [] (S.disk inner.old).refusals
        (closed_at left.now (S.disk inner.old).opened) }
    ensures counted { Uncounted (S.disk inner.old) (S.disk inner.new) }
    ensures path { IsTrue (S.disk inner.new).tells
        → (S.disk inner.new).opened ≡ path_in path.new }
{
    let is_open = match path {
        Some(at) => at.as_str() == left,
        None => false,
    };
    if is_open {
        shut(inner, path);
    }
}

/// Closes either file, if it is open.
fn leave_both<S: Store>(inner: &mut S, path: &mut Option<String>, from: &str, to: &str)
    requires { IsTrue (S.disk inner.old).tells → (S.disk inner.old).opened ≡ path_in path.old }
    ensures closed { Does (S.disk inner.old) (S.disk inner.new) [] (S.disk inner.old).refusals
        (closed_at from.now (closed_at to.now (S.disk inner.old).opened)) }
    ensures counted { Uncounted (S.disk inner.old) (S.disk inner.new) }
    ensures path { IsTrue (S.disk inner.new).tells
        → (S.disk inner.new).opened ≡ path_in path.new }
{
    leave(inner, path, to);
    leave(inner, path, from);
}

/// Returns the error of a length or a write that is refused.
fn error_of_open(path: &Option<String>) -> StoreError
    ensures not_open { (result ≡ StoreError.NotOpen) ↔ (path_in path.now ≡ None) }
    ensures kind { result ≢ StoreError.Absent }
{
    match path {
        Some(_) => StoreError::Refused,
        None => StoreError::NotOpen,
    }
}

/// Counts a denial.
fn deny(denied: &mut u64)
    ensures { denied.new ≡ one_more denied.old }
{
    *denied = denied.saturating_add(1);
}

/// Counts a refusal of the limit, and a denial if the error is `Refused`.
fn refuse(stopped: &mut u64, denied: &mut u64, error: StoreError) -> StoreError
    ensures stopped { stopped.new ≡ one_more stopped.old }
    ensures denied { denied.new ≡ denials_by result denied.old }
    ensures error { result ≡ error }
{
    *stopped = stopped.saturating_add(1);
    if error == StoreError::Refused {
        deny(denied);
    }
    error
}

impl<S: Store + Drop> Store for Stopping<S> {
    ghost disk = { λ s. marked (start_of s.limit (S.disk s.begun.value)) s.stopped s.denied
        (S.disk s.inner) };

    fn make_dirs(&mut self, path: &str) -> Result<(), StoreError> {
        if !spend(&mut self.passed, self.limit) {
            let error = StoreError::Refused;
            return Err(refuse(&mut self.stopped, &mut self.denied, error));
        }
        self.inner.make_dirs(path)
    }

    fn open(&mut self, path: &str, how: Open) -> Result<(), StoreError> {
        if !spend(&mut self.passed, self.limit) {
            shut(&mut self.inner, &mut self.path);
            let error = StoreError::Refused;
            return Err(refuse(&mut self.stopped, &mut self.denied, error));
        }
        let Ok(copy) = path.to_owned(self.alloc) else {
            shut(&mut self.inner, &mut self.path);
            // Nothing is open, so a store that shows its files refuses this, and counts it.
            match self.inner.len() {
                Ok(_) => {
                    let _ = refuse(&mut self.stopped, &mut self.denied, StoreError::Refused);
                }
                Err(_) => deny(&mut self.denied),
            }
            return Err(StoreError::Refused);
        };
        if let Err(error) = self.inner.open(path, how) {
            self.path = None;
            return Err(error);
        }
        self.path = Some(copy);
        Ok(())
    }

    fn len(&mut self) -> Result<u64, StoreError> {
        if !spend(&mut self.passed, self.limit) {
            let error = error_of_open(&self.path);
            return Err(refuse(&mut self.stopped, &mut self.denied, error));
        }
        self.inner.len()
    }

    fn write(&mut self, bytes: &[u8]) -> Result<usize, StoreError> {
        if !spend(&mut self.passed, self.limit) {
            let error = error_of_open(&self.path);
            return Err(refuse(&mut self.stopped, &mut self.denied, error));
        }
        self.inner.write(bytes)
    }

    fn is_open(&self) -> bool
        ensures { IsTrue (S.disk self.now.inner).tells
            → IsTrue result ↔ IsSome (S.disk self.now.inner).opened }
    {
        self.path.is_some()
    }

    fn close(&mut self) {
        shut(&mut self.inner, &mut self.path);
    }

    fn rename(&mut self, from: &str, to: &str) -> Result<Renamed, StoreError> {
        leave_both(&mut self.inner, &mut self.path, from, to);
        if !spend(&mut self.passed, self.limit) {
            let error = StoreError::Refused;
            return Err(refuse(&mut self.stopped, &mut self.denied, error));
        }
        self.inner.rename(from, to)
    }

    fn copy(&mut self, from: &str, to: &str) -> Result<(), StoreError> {
        leave_both(&mut self.inner, &mut self.path, from, to);
        if !spend(&mut self.passed, self.limit) {
            let error = StoreError::Refused;
            return Err(refuse(&mut self.stopped, &mut self.denied, error));
        }
        self.inner.copy(from, to)
    }

    fn remove(&mut self, path: &str) -> Result<(), StoreError> {
        leave(&mut self.inner, &mut self.path, path);
        if !spend(&mut self.passed, self.limit) {
            let error = StoreError::Refused;
            return Err(refuse(&mut self.stopped, &mut self.denied, error));
        }
        self.inner.remove(path)
    }
}
