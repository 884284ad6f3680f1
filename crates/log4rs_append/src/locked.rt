//! Appenders behind locks.

ghost use Rattle.std.specs.Prelude.{◌≡◌, false, IfOk, IsTrue, Ok, OnErr, OnOk};
ghost use Rattle.log4rs_append.specs.Locks.{appender_of, began_as, is_retired, AreShares};
ghost use Rattle.log4rs_append.specs.Locks.{IsShutIfRetired, StaysShut};
ghost use Rattle.log4rs_append.specs.PlainFile.{LateWrite, OnPlainFile, ReopenedFile, ShutFile};
ghost use Rattle.log4rs_append.specs.RolledFile.{DrivenFile, LateAppend, OnRolledFile, ResumedFile};
ghost use Rattle.log4rs_append.specs.RolledFile.{RetiredFile, SteppedFile};
ghost use Rattle.log4rs_append.specs.Sink.{Appended, SameTexts, Took};

use crate::append::Append;
use crate::steps::Steps;
use log4rs_base::{Carried, Context, LogError, OutOfMemory, Record};
use std::alloc::Global;
use std::hint::spin_loop;
use std::sync::atomic::{AtomicU8, AtomicUsize, Ordering};
use std::sync::{Arc, Mutex, MutexGuard, Wait};

/// How many pauses of the processor an append makes after each time that it finds the lock held.
const PAUSES: [u32; 7] = [32, 64, 128, 256, 512, 1024, 2048];

/// Makes this many pauses of the processor.
fn pause(count: u32) {
    for _ in 0..count {
        spin_loop();
    }
}

/// Returns the error of a held lock.
fn held(alloc: Global) -> LogError {
    match String::from_str(alloc, "another thread holds the lock of the appender") {
        Ok(text) => LogError::Custom(text),
        Err(_) => LogError::Memory,
    }
}

/// An appender behind a lock, which threads share. Each append, step and drive is one call under
/// the lock. Contracts say which appender it was made with, and nothing of what it does, since other
/// threads may append at any time.
///
/// Configurations may share a lock: see `share`. Beside it stands in how many configurations in
/// force it is, and whether the appender is retired: then its file is closed, records go to
/// `append_retired`, and nothing else is done.
#[derive(Drop)]
pub struct Locked<A> {
    kept: Arc<Kept<A>>,
    // For the text of an error.
    alloc: Global,
}

/// A lock, and what is read without it.
#[derive(Drop)]
struct Kept<A> {
    lock: Mutex<Guarded<A>>,
    /// The appender that it was made with, for contracts only.
    began: Carried<A>,
    /// In how many configurations in force it is.
    in_force: AtomicUsize,
    /// `IN_USE`, `SETTLING` or `RETIRED`. Written under the lock.
    state: AtomicU8,
}

/// The state of an appender that is not retired.
const IN_USE: u8 = 0;
/// The state of one that is just being retired or resumed, or for which that is being decided.
const SETTLING: u8 = 1;
/// The state of a retired one.
const RETIRED: u8 = 2;

/// An appender, and whether it is retired.
#[derive(Drop)]
struct Guarded<A> {
    appender: A,
    is_retired: bool,
}

impl<A: Append> Guarded<A> {
    /// Appends as the appender does, retired or not.
    fn append(&mut self, record: &Record, context: &Context<'_>) -> Result<(), LogError>
        ensures took { Took «record».now context.now result
            (A.sink (appender_of self.old)) (A.sink (appender_of self.new)) }
        ensures appended { is_retired self.old ≡ false → Appended «record».now context.now result
            (A.sink (appender_of self.old)) (A.sink (appender_of self.new)) }
        ensures late { IsTrue (is_retired self.old)
            → OnRolledFile (LateAppend «record».now context.now result)
            (A.sink (appender_of self.old)).rolled (A.sink (appender_of self.new)).rolled }
        ensures plain { IsTrue (is_retired self.old)
            → OnPlainFile (LateWrite «record».now context.now result)
            (A.sink (appender_of self.old)).plain (A.sink (appender_of self.new)).plain }
        ensures state { is_retired self.new ≡ is_retired self.old }
        ensures shut { StaysShut A.sink self.old self.new }
    {
        if self.is_retired {
            return self.appender.append_retired(record, context);
        }
        self.appender.append(record, context)
    }

    /// Writes what is buffered.
    fn flush(&mut self)
        ensures sink { A.sink (appender_of self.new) ≡ A.sink (appender_of self.old) }
        ensures state { is_retired self.new ≡ is_retired self.old }
        ensures shut { StaysShut A.sink self.old self.new }
    {
        self.appender.flush();
    }
}

impl<A: Steps> Guarded<A> {
    /// Makes one step, unless the appender is retired.
    fn step(&mut self) -> Result<bool, LogError>
        ensures idle { IsTrue (is_retired self.old)
            → (self.new ≡ self.old) × (result ≡ Ok false) }
        ensures rolled { is_retired self.old ≡ false → OnRolledFile (SteppedFile result)
            (A.sink (appender_of self.old)).rolled (A.sink (appender_of self.new)).rolled }
        ensures texts { SameTexts (A.sink (appender_of self.old))
            (A.sink (appender_of self.new)) }
        ensures state { is_retired self.new ≡ is_retired self.old }
        ensures shut { StaysShut A.sink self.old self.new }
    {
        if self.is_retired {
            return Ok(false);
        }
        self.appender.step()
    }

    /// Does all that is left, unless the appender is retired.
    fn drive(&mut self) -> Result<(), LogError>
        ensures idle { IsTrue (is_retired self.old)
            → (self.new ≡ self.old) × (result ≡ Ok tt) }
        ensures rolled { is_retired self.old ≡ false → OnRolledFile (DrivenFile result)
            (A.sink (appender_of self.old)).rolled (A.sink (appender_of self.new)).rolled }
        ensures texts { SameTexts (A.sink (appender_of self.old))
            (A.sink (appender_of self.new)) }
        ensures state { is_retired self.new ≡ is_retired self.old }
        ensures shut { StaysShut A.sink self.old self.new }
    {
        if self.is_retired {
            return Ok(());
        }
        self.appender.drive()
    }

    /// Retires the appender, even if a move is refused. One that is retired tries again what was.
    fn retire(&mut self) -> Result<(), LogError>
        ensures state { IsTrue (is_retired self.new) }
        ensures texts { SameTexts (A.sink (appender_of self.old))
            (A.sink (appender_of self.new)) }
        ensures rolled { OnRolledFile (RetiredFile result) (A.sink (appender_of self.old)).rolled
            (A.sink (appender_of self.new)).rolled }
        ensures plain { OnPlainFile ShutFile (A.sink (appender_of self.old)).plain
            (A.sink (appender_of self.new)).plain }
        ensures shut { IsShutIfRetired A.sink self.new }
    {
        self.is_retired = true;
        self.appender.retire()
    }

    /// Resumes the appender, if it is retired. It stays retired if that is refused.
    fn resume(&mut self) -> Result<(), LogError>
        ensures ok { OnOk result (is_retired self.new ≡ false) }
        ensures err { OnErr result (IsTrue (is_retired self.new)) }
        ensures texts { SameTexts (A.sink (appender_of self.old))
            (A.sink (appender_of self.new)) }
        ensures rolled { IsTrue (is_retired self.old) → OnRolledFile (ResumedFile result)
            (A.sink (appender_of self.old)).rolled (A.sink (appender_of self.new)).rolled }
        ensures plain { IsTrue (is_retired self.old) → OnPlainFile (ReopenedFile result)
            (A.sink (appender_of self.old)).plain (A.sink (appender_of self.new)).plain }
        ensures shut { StaysShut A.sink self.old self.new }
    {
        if !self.is_retired {
            return Ok(());
        }
        self.appender.resume()?;
        self.is_retired = false;
        Ok(())
    }
}

impl<A> Locked<A> {
    /// Puts an appender behind a lock of its own, which is in no configuration in force yet. Fails
    /// if an allocation fails.
    pub fn new(alloc: Global, appender: A) -> Result<Locked<A>, OutOfMemory>
    where
        A: Drop,
        ensures { IfOk result (λ lock. began_as lock ≡ appender) }
    {
        let began = Carried::of(&appender);
        let guarded = Guarded {
            appender,
            is_retired: false,
        };
        let kept = Kept {
            lock: Mutex::new(guarded),
            began,
            in_force: AtomicUsize::new(0),
            state: AtomicU8::new(IN_USE),
        };
        Ok(Locked {
            kept: Arc::new(alloc, kept)?,
            alloc,
        })
    }

    /// Returns another handle of the same lock, for another configuration. Allocates nothing, and
    /// fails only if the lock has too many handles to count. Contracts do not tell apart two locks
    /// that were made with equal appenders.
    pub fn share(&self) -> Result<Locked<A>, OutOfMemory>
        ensures { IfOk result (λ lock. AreShares self.now lock) }
    {
        Ok(Locked {
            kept: Arc::try_clone(&self.kept)?,
            alloc: self.alloc,
        })
    }

    /// Counts one more configuration in force that the lock is in. Waits for nobody.
    pub fn enter(&self) {
        self.kept.in_force.fetch_add(1, Ordering::SeqCst);
    }

    /// Counts one less, once for each `enter`. Waits for nobody.
    pub fn leave(&self) {
        self.kept.in_force.fetch_sub(1, Ordering::SeqCst);
    }

    /// Returns whether the appender is retired. Waits for nobody: one that is being retired is not
    /// retired yet.
    pub fn is_retired(&self) -> bool {
        self.kept.is(RETIRED)
    }

    /// Returns whether the lock is in no configuration in force, and the appender not retired yet.
    /// Waits for nobody.
    pub fn is_unretired(&self) -> bool {
        !self.kept.is_in_force() && !self.kept.is(RETIRED)
    }

    /// Returns whether a configuration in force has the lock, and the appender is retired, or may
    /// be soon. Waits for nobody.
    pub fn is_unresumed(&self) -> bool {
        self.kept.is_in_force() && !self.kept.is(IN_USE)
    }
}

impl<A: Append> Locked<A> {
    /// Takes the lock. While it is held, asks for it less and less often, and at last sleeps until
    /// it is free: so the thread that holds it makes some more appends before another thread's
    /// processor has to fetch all that they wrote.
    fn take<R: Wait>(&self, rt: &R) -> MutexGuard<'_, Guarded<A>> {
        for count in PAUSES {
            if let Some(guarded) = self.kept.lock.try_lock() {
                return guarded;
            }
            pause(count);
        }
        self.kept.lock.lock(rt)
    }

    /// Appends under the lock, for which it may wait. A retired appender appends by
    /// `append_retired`. Fails as the appender does.
    pub fn append_shared<R: Wait>(
        &self,
        rt: &R,
        record: &Record,
        context: &Context<'_>,
    ) -> Result<(), LogError> {
        self.take(rt).append(record, context)
    }

    /// Flushes under the lock, for which it may wait.
    pub fn flush_shared<R: Wait>(&self, rt: &R) {
        self.kept.lock.lock(rt).flush();
    }
}

/// Appends and flushes without a handle, and so without waiting. If another thread holds the lock,
/// `append` does nothing and fails with `Custom`, or `Memory` if its text cannot be allocated;
/// `flush` does nothing. A lock that nobody else shares is never held.
impl<A: Append> Append for Locked<A> {
    fn append(&mut self, record: &Record, context: &Context<'_>) -> Result<(), LogError> {
        match self.kept.lock.try_lock() {
            Some(mut guarded) => guarded.append(record, context),
            None => Err(held(self.alloc)),
        }
    }

    fn append_retired(&mut self, record: &Record, context: &Context<'_>) -> Result<(), LogError> {
        self.append(record, context)
    }

    fn flush(&mut self) {
        if let Some(mut guarded) = self.kept.lock.try_lock() {
            guarded.flush();
        }
    }
}

impl<A> Kept<A> {
    /// Returns whether a configuration in force has the lock.
    fn is_in_force(&self) -> bool {
        self.in_force.load(Ordering::SeqCst) > 0
    }

    /// Returns whether this is the state.
    fn is(&self, state: u8) -> bool {
        self.state.load(Ordering::SeqCst) == state
    }

    /// Lets it be seen whether the appender is retired.
    fn show(&self, guarded: &Guarded<A>) {
        let state = if guarded.is_retired { RETIRED } else { IN_USE };
        self.state.store(state, Ordering::SeqCst);
    }
}

impl<A: Steps> Kept<A> {
    /// Retires the appender, and then lets it be seen.
    fn retire(&self, guarded: &mut Guarded<A>) -> Result<(), LogError>
        ensures { IsShutIfRetired A.sink guarded.new }
    {
        let retired = guarded.retire();
        self.show(guarded);
        retired
    }

    /// Resumes the appender, and lets it be seen if that works.
    fn resume(&self, guarded: &mut Guarded<A>) -> Result<(), LogError>
        ensures { StaysShut A.sink guarded.old guarded.new }
    {
        let resumed = guarded.resume();
        self.show(guarded);
        resumed
    }

    /// Retires the appender if no configuration in force has it, and resumes it if one has. Whoever
    /// changes the count once it is read here sees `SETTLING`, or the new state, and then settles
    /// what does not fit.
    fn settle(&self, guarded: &mut Guarded<A>) -> Result<(), LogError>
        ensures { StaysShut A.sink guarded.old guarded.new }
    {
        self.state.store(SETTLING, Ordering::SeqCst);
        let is_in_force = self.is_in_force();
        if guarded.is_retired && is_in_force {
            return self.resume(guarded);
        }
        if !guarded.is_retired && !is_in_force {
            return self.retire(guarded);
        }
        self.show(guarded);
        Ok(())
    }
}

impl<A: Steps> Locked<A> {
    /// Makes one step, and returns whether more is left. Nothing is left of a retired appender.
    /// Fails as the appender does. Returns `None`, and does nothing, if a call holds the lock.
    pub fn step_free(&self) -> Option<Result<bool, LogError>> {
        match self.kept.lock.try_lock() {
            Some(mut guarded) => Some(guarded.step()),
            None => None,
        }
    }

    /// Does all that is left under the lock, for which it may wait. Nothing is left of a retired
    /// appender. Fails as the appender does.
    pub fn drive_shared<R: Wait>(&self, rt: &R) -> Result<(), LogError> {
        self.kept.lock.lock(rt).drive()
    }

    /// Retires the appender under the lock, for which it may wait, also while a configuration in
    /// force has it: so does who builds its successor. It is retired even if this fails: another
    /// `retire_shared` then tries again what is left.
    pub fn retire_shared<R: Wait>(&self, rt: &R) -> Result<(), LogError> {
        self.kept.retire(&mut *self.kept.lock.lock(rt))
    }

    /// Under the lock, for which it may wait: retires the appender if no configuration in force has
    /// it then, and resumes it if one has. One that is resumed appends and rolls as before; if that
    /// fails, it stays retired. Does nothing more if the appender is as it should be.
    pub fn settle_shared<R: Wait>(&self, rt: &R) -> Result<(), LogError> {
        self.kept.settle(&mut *self.kept.lock.lock(rt))
    }

    /// Does the same if no call holds the lock. Returns `None`, and does nothing, if one does.
    pub fn settle_free(&self) -> Option<Result<(), LogError>> {
        match self.kept.lock.try_lock() {
            Some(mut guarded) => Some(self.kept.settle(&mut *guarded)),
            None => None,
        }
    }
}

/// Works without waiting. If another thread holds the lock, nothing is done, and the call fails with
/// `Custom`, or `Memory` if its text cannot be allocated.
impl<A: Steps> Steps for Locked<A> {
    fn step(&mut self) -> Result<bool, LogError> {
        match self.step_free() {
            Some(stepped) => stepped,
            None => Err(held(self.alloc)),
        }
    }

    fn drive(&mut self) -> Result<(), LogError> {
        match self.kept.lock.try_lock() {
            Some(mut guarded) => guarded.drive(),
            None => Err(held(self.alloc)),
        }
    }

    fn retire(&mut self) -> Result<(), LogError> {
        match self.kept.lock.try_lock() {
            Some(mut guarded) => self.kept.retire(&mut *guarded),
            None => Err(held(self.alloc)),
        }
    }

    fn resume(&mut self) -> Result<(), LogError> {
        match self.kept.lock.try_lock() {
            Some(mut guarded) => self.kept.resume(&mut *guarded),
            None => Err(held(self.alloc)),
        }
    }
}
