//! Stores in memory.

ghost use Rattle.std.specs.Prelude.{◌≡◌, ◌≢◌, ◌↔◌, ◌<◌, ◌^◌, ◌++◌, ◌∷◌, [], List, ℕ, length, map, take, Some, None, Ok, IsSome, IsTrue, IsOk, IsErr, IsOkAnd, IsErrOf, IfOk, IfErr, OnOk, OnErr, option_map};
ghost use Rattle.log4rs_rolling.specs.Change.{bytes_at};
ghost use Rattle.log4rs_rolling.specs.Disk.{files_of, one_more, open_path, closed_at, begun};
ghost use Rattle.log4rs_rolling.specs.Plan.{taken};
ghost use Rattle.log4rs_rolling.specs.Change as change;
ghost use Rattle.log4rs_rolling.specs.declared.store.Planned.TheVariants as plans;
ghost use Rattle.log4rs_rolling.specs.declared.store.StoreError.TheVariants.{Refused, Absent, NotOpen};

use crate::store::effect::Effect;
use crate::store::lookups::{bytes_of, is_present, len_of};
use crate::store::replay::replayed;
use crate::store::{Open, Planned, Renamed, Store, StoreError};
use log4rs_base::OutOfMemory;
use std::alloc::{AllocError, Global};
use std::collections::BTreeMap;

/// A store in memory. It keeps the files that it started with, and the effects of its operations.
///
/// An operation is refused with `Refused` only if the plan says so, if the store is stopped, if a
/// length exceeds 64 bits, or if an allocation fails, which is counted. Contracts do not say that
/// there is memory. Each operation but `close` and `is_open` takes its turn in the plan, also one
/// that is refused. There are no directories, so `make_dirs` changes nothing. Paths are compared
/// byte by byte.
#[derive(Drop)]
pub struct MemStore {
    alloc: Global,
    start: BTreeMap<String, Vec<u8>>,
    effects: Vec<Effect>,
    refusals: u64,
    denials: u64,
    operations: u64,
    shortages: u64,
    opened: Option<String>,
    plan: Vec<Planned>,
    next: usize,
    left: Option<u64>,
}

impl MemStore {
    ghost use Rattle.log4rs_rolling.specs.MemStore.{disk_of, plan_of, no_plan, next_planned, after_one, asked, change_of, files_in, shortages_of, with_refusal};

    /// Creates a store with these files. None is open, and nothing is planned.
    pub fn new(alloc: Global, files: BTreeMap<String, Vec<u8>>) -> MemStore
        ensures disk { disk_of result ≡ begun (files_in files) }
        ensures plan { plan_of result ≡ no_plan }
        ensures enough { shortages_of result ≡ 0 }
    {
        MemStore {
            alloc,
            start: files,
            effects: Vec::new(alloc),
            refusals: 0,
            denials: 0,
            operations: 0,
            shortages: 0,
            opened: None,
            plan: Vec::new(alloc),
            next: 0,
            left: None,
        }
    }

    /// Plans the next operations, and discards the plan before. Operations behind the plan are
    /// done.
    pub fn plan(&mut self, plan: Vec<Planned>)
        ensures disk { disk_of self.new ≡ disk_of self.old }
        ensures plan { plan_of self.new ≡ record (plan_of self.old) { operations = plan.items } }
        ensures enough { shortages_of self.new ≡ shortages_of self.old }
    {
        self.plan = plan;
        self.next = 0;
    }

    /// Refuses all operations after this many more.
    pub fn stop_after(&mut self, operations: u64)
        ensures disk { disk_of self.new ≡ disk_of self.old }
        ensures plan { plan_of self.new ≡ record (plan_of self.old) { left = Some operations } }
        ensures enough { shortages_of self.new ≡ shortages_of self.old }
    {
        self.left = Some(operations);
    }

    /// Revokes `stop_after`. The plan stays.
    pub fn go_on(&mut self)
        ensures disk { disk_of self.new ≡ disk_of self.old }
        ensures plan { plan_of self.new ≡ record (plan_of self.old) { left = None } }
        ensures enough { shortages_of self.new ≡ shortages_of self.old }
    {
        self.left = None;
    }

    /// Returns a copy of the bytes of a file, or `None` if it is absent. Fails if an allocation
    /// fails.
    pub fn file(&self, path: &str) -> Result<Option<Vec<u8>>, OutOfMemory>
        ensures { IfOk result (λ found. option_map (λ bytes. bytes.items) found
            ≡ files_of (disk_of self.now) path.now) }
    {
        if !is_present(&self.start, &self.effects, path) {
            return Ok(None);
        }
        let bytes = bytes_of(self.alloc, &self.start, &self.effects, path)?;
        Ok(Some(bytes))
    }

    /// Returns a copy of all files, by their paths. Fails if an allocation fails.
    pub fn files(&self) -> Result<BTreeMap<String, Vec<u8>>, OutOfMemory>
        ensures { IfOk result (λ files. (path : List ℕ)
            → files_in files path ≡ files_of (disk_of self.now) path) }
    {
        Ok(replayed(self.alloc, &self.start, &self.effects)?)
    }

    /// Returns the effects of the operations, in order.
    pub fn effects(&self) -> &[Effect]
        ensures { map change_of result.now ≡ (disk_of self.now).changes }
    {
        self.effects.as_slice()
    }

    /// Returns how many operations were refused. The count stops at `u64::MAX`.
    pub fn refusals(&self) -> u64
        ensures { result ≡ (disk_of self.now).refusals }
    {
        self.refusals
    }

    /// Returns how many operations were refused with `Refused`. The count stops at `u64::MAX`.
    pub fn denials(&self) -> u64
        ensures { result ≡ (disk_of self.now).denials }
    {
        self.denials
    }

    /// Returns how many operations there were, `close` and `is_open` not counted. The count stops
    /// at `u64::MAX`.
    pub fn operations(&self) -> u64
        ensures { result ≡ (disk_of self.now).operations }
    {
        self.operations
    }

    /// Returns how many operations were refused because an allocation failed. The count stops at
    /// `u64::MAX`.
    pub fn shortages(&self) -> u64
        ensures { result ≡ shortages_of self.now }
    {
        self.shortages
    }

    /// Counts an operation that begins, and returns its plan.
    fn begin(&mut self) -> Planned
        ensures disk { disk_of self.new ≡ asked (disk_of self.old) (disk_of self.old).opened }
        ensures plan { plan_of self.new ≡ after_one (plan_of self.old) }
        ensures value { result ≡ next_planned (plan_of self.old) }
        ensures enough { shortages_of self.new ≡ shortages_of self.old }
    {
        self.operations = self.operations.saturating_add(1);
        let planned = match self.plan.get(self.next) {
            Some(planned) => {
                self.next += 1;
                *planned
            }
            None => Planned::Do,
        };
        match self.left {
            Some(0) => Planned::Refuse,
            Some(left) => {
                self.left = Some(left - 1);
                planned
            }
            None => planned,
        }
    }

    /// Counts a refusal, and a denial if the error is `Refused`.
    fn refuse(&mut self, error: StoreError) -> StoreError
        ensures disk { disk_of self.new ≡ with_refusal (disk_of self.old) error }
        ensures plan { plan_of self.new ≡ plan_of self.old }
        ensures enough { shortages_of self.new ≡ shortages_of self.old }
        ensures error { result ≡ error }
    {
        self.refusals = self.refusals.saturating_add(1);
        if error == StoreError::Refused {
            self.denials = self.denials.saturating_add(1);
        }
        error
    }

    /// Counts a refusal because an allocation failed.
    fn lack(&mut self) -> StoreError
        ensures disk { disk_of self.new ≡ with_refusal (disk_of self.old) Refused }
        ensures plan { plan_of self.new ≡ plan_of self.old }
        ensures short { shortages_of self.new ≡ one_more (shortages_of self.old) }
        ensures error { result ≡ Refused }
    {
        self.shortages = self.shortages.saturating_add(1);
        self.refuse(StoreError::Refused)
    }

    /// Keeps an effect. Fails with `Refused`, and counts that, if an allocation failed or fails.
    fn note(&mut self, effect: Result<Effect, AllocError>) -> Result<(), StoreError>
        ensures ok { OnOk result (IsOkAnd effect (λ made. disk_of self.new
            ≡ record (disk_of self.old)
            { changes = (disk_of self.old).changes ++ change_of made ∷ [] })) }
        ensures err { OnErr result (disk_of self.new ≡ with_refusal (disk_of self.old) Refused) }
        ensures kind { IfErr result (λ e. e ≡ Refused) }
        ensures plan { plan_of self.new ≡ plan_of self.old }
        ensures enough { OnOk result (shortages_of self.new ≡ shortages_of self.old) }
        ensures short { OnErr result (shortages_of self.new
            ≡ one_more (shortages_of self.old)) }
    {
        match effect {
            Ok(effect) => match self.effects.push(effect) {
                Ok(()) => Ok(()),
                Err(_) => Err(self.lack()),
            },
            Err(_) => Err(self.lack()),
        }
    }

    /// Closes the file at this path, if it is open.
    fn close_at(&mut self, path: &str)
        ensures disk { disk_of self.new ≡ record (disk_of self.old)
            { opened = closed_at path.now (disk_of self.old).opened } }
        ensures plan { plan_of self.new ≡ plan_of self.old }
        ensures enough { shortages_of self.new ≡ shortages_of self.old }
    {
        let is_open = match &self.opened {
            Some(open) => open.as_str() == path,
            None => false,
        };
        if is_open {
            self.opened = None;
        }
    }
}

impl Store for MemStore {
    ghost use Rattle.log4rs_rolling.specs.MemStore.{disk_of, plan_of, next_planned, asked, changed, refused, shortages_of, TakesTurn, Turns};

    ghost disk = { disk_of };

    fn make_dirs(&mut self, _path: &str) -> Result<(), StoreError>
        ensures ok { OnOk result (disk_of self.new
            ≡ asked (disk_of self.old) (disk_of self.old).opened) }
        ensures err { IfErr result (λ e. disk_of self.new
            ≡ refused (disk_of self.old) (disk_of self.old).opened e) }
        ensures kind { IfErr result (λ e. e ≡ Refused) }
        ensures refused { IsErr result ↔ (next_planned (plan_of self.old) ≡ plans.Refuse) }
        ensures turn { Turns self.old self.new result }
    {
        match self.begin() {
            Planned::Refuse => Err(self.refuse(StoreError::Refused)),
            Planned::Do | Planned::Take(_) => Ok(()),
        }
    }

    fn open(&mut self, path: &str, how: Open) -> Result<(), StoreError>
        ensures ok { OnOk result (disk_of self.new
            ≡ changed (disk_of self.old) (change.opened path.now how) (Some path.now)) }
        ensures err { IfErr result (λ e. disk_of self.new ≡ refused (disk_of self.old) None e) }
        ensures kind { IfErr result (λ e. e ≡ Refused) }
        ensures turn { TakesTurn self.old self.new result }
    {
        self.opened = None;
        if self.begin() == Planned::Refuse {
            return Err(self.refuse(StoreError::Refused));
        }
        let Ok(name) = String::from_str(self.alloc, path) else {
            return Err(self.lack());
        };
        self.note(Effect::opening(self.alloc, path, how))?;
        self.opened = Some(name);
        Ok(())
    }

    fn len(&mut self) -> Result<u64, StoreError>
        ensures ok { OnOk result (disk_of self.new
            ≡ asked (disk_of self.old) (disk_of self.old).opened) }
        ensures value { IfOk result (λ n. n
            ≡ length (bytes_at (files_of (disk_of self.old)) (open_path (disk_of self.old)))) }
        ensures err { IfErr result (λ e. disk_of self.new
            ≡ refused (disk_of self.old) (disk_of self.old).opened e) }
        ensures kind { IfErr result (λ e. e ≢ Absent) }
        ensures not_open { IsErrOf result NotOpen ↔ ((disk_of self.old).opened ≡ None) }
        ensures done { next_planned (plan_of self.old) ≢ plans.Refuse
            → IsSome (disk_of self.old).opened
            → length (bytes_at (files_of (disk_of self.old)) (open_path (disk_of self.old)))
            < 2 ^ 64
            → IsOk result }
        ensures turn { Turns self.old self.new result }
    {
        let planned = self.begin();
        let Some(path) = &self.opened else {
            return Err(self.refuse(StoreError::NotOpen));
        };
        match len_of(&self.start, &self.effects, path.as_str()) {
            Some(len) if planned != Planned::Refuse => Ok(len),
            _ => Err(self.refuse(StoreError::Refused)),
        }
    }

    fn write(&mut self, bytes: &[u8]) -> Result<usize, StoreError>
        ensures ok { IfOk result (λ n. disk_of self.new ≡ changed (disk_of self.old)
            (change.wrote (open_path (disk_of self.old)) (take n bytes.now))
            (disk_of self.old).opened) }
        ensures count { IfOk result (λ n. n
            ≡ taken (next_planned (plan_of self.old)) (length bytes.now)) }
        ensures err { IfErr result (λ e. disk_of self.new
            ≡ refused (disk_of self.old) (disk_of self.old).opened e) }
        ensures kind { IfErr result (λ e. e ≢ Absent) }
        ensures not_open { IsErrOf result NotOpen ↔ ((disk_of self.old).opened ≡ None) }
        ensures turn { TakesTurn self.old self.new result }
    {
        let planned = self.begin();
        let Some(path) = &self.opened else {
            return Err(self.refuse(StoreError::NotOpen));
        };
        let taken = match planned {
            Planned::Do => bytes.len(),
            Planned::Take(most) => bytes.len().min(most.max(1)),
            Planned::Refuse => return Err(self.refuse(StoreError::Refused)),
        };
        let wrote = Effect::writing(self.alloc, path.as_str(), &bytes[..taken]);
        self.note(wrote)?;
        Ok(taken)
    }

    fn is_open(&self) -> bool
        ensures { IsTrue result ↔ IsSome (disk_of self.now).opened }
    {
        self.opened.is_some()
    }

    fn close(&mut self)
        ensures disk { disk_of self.new ≡ record (disk_of self.old) { opened = None } }
        ensures plan { plan_of self.new ≡ plan_of self.old }
        ensures enough { shortages_of self.new ≡ shortages_of self.old }
    {
        self.opened = None;
    }

    fn rename(&mut self, from: &str, to: &str) -> Result<Renamed, StoreError>
        ensures moved { result ≡ Ok Renamed.Moved → disk_of self.new
            ≡ changed (disk_of self.old) (change.renamed from.now to.now)
            (closed_at from.now (closed_at to.now (disk_of self.old).opened)) }
        ensures present { result ≡ Ok Renamed.Moved
            → IsSome (files_of (disk_of self.old) from.now) }
        ensures missing { result ≡ Ok Renamed.Missing → disk_of self.new
            ≡ asked (disk_of self.old)
            (closed_at from.now (closed_at to.now (disk_of self.old).opened)) }
        ensures absent { (result ≡ Ok Renamed.Missing)
            ↔ ((next_planned (plan_of self.old) ≢ plans.Refuse)
            × (files_of (disk_of self.old) from.now ≡ None)) }
        ensures err { IfErr result (λ e. disk_of self.new ≡ refused (disk_of self.old)
            (closed_at from.now (closed_at to.now (disk_of self.old).opened)) e) }
        ensures kind { IfErr result (λ e. e ≡ Refused) }
        ensures turn { TakesTurn self.old self.new result }
    {
        let planned = self.begin();
        self.close_at(to);
        self.close_at(from);
        if planned == Planned::Refuse {
            return Err(self.refuse(StoreError::Refused));
        }
        if !is_present(&self.start, &self.effects, from) {
            return Ok(Renamed::Missing);
        }
        self.note(Effect::renaming(self.alloc, from, to))?;
        Ok(Renamed::Moved)
    }

    fn copy(&mut self, from: &str, to: &str) -> Result<(), StoreError>
        ensures ok { OnOk result (disk_of self.new
            ≡ changed (disk_of self.old) (change.copied from.now to.now)
            (closed_at from.now (closed_at to.now (disk_of self.old).opened))) }
        ensures present { OnOk result (IsSome (files_of (disk_of self.old) from.now)) }
        ensures err { IfErr result (λ e. disk_of self.new ≡ refused (disk_of self.old)
            (closed_at from.now (closed_at to.now (disk_of self.old).opened)) e) }
        ensures kind { IfErr result (λ e. e ≢ NotOpen) }
        ensures absent { IsErrOf result Absent
            ↔ (files_of (disk_of self.old) from.now ≡ None) }
        ensures turn { TakesTurn self.old self.new result }
    {
        let planned = self.begin();
        self.close_at(to);
        self.close_at(from);
        if !is_present(&self.start, &self.effects, from) {
            return Err(self.refuse(StoreError::Absent));
        }
        if planned == Planned::Refuse {
            return Err(self.refuse(StoreError::Refused));
        }
        self.note(Effect::copying(self.alloc, from, to))
    }

    fn remove(&mut self, path: &str) -> Result<(), StoreError>
        ensures ok { OnOk result (disk_of self.new
            ≡ changed (disk_of self.old) (change.removed path.now)
            (closed_at path.now (disk_of self.old).opened)) }
        ensures present { OnOk result (IsSome (files_of (disk_of self.old) path.now)) }
        ensures err { IfErr result (λ e. disk_of self.new ≡ refused (disk_of self.old)
            (closed_at path.now (disk_of self.old).opened) e) }
        ensures kind { IfErr result (λ e. e ≢ NotOpen) }
        ensures absent { IsErrOf result Absent
            ↔ (files_of (disk_of self.old) path.now ≡ None) }
        ensures turn { TakesTurn self.old self.new result }
    {
        let planned = self.begin();
        self.close_at(path);
        if !is_present(&self.start, &self.effects, path) {
            return Err(self.refuse(StoreError::Absent));
        }
        if planned == Planned::Refuse {
            return Err(self.refuse(StoreError::Refused));
        }
        self.note(Effect::removing(self.alloc, path))
    }
}
