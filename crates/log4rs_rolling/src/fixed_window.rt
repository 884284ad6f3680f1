//! The roller that keeps a window of archives.

ghost use Rattle.std.specs.Prelude.{◌≡◌, ◌↔◌, ◌<◌, ◌≤◌, ◌+◌, ◌-◌, ◌*◌, ◌^◌, ℕ, List, [], None, Ok, false, length, IfOk, IfErr, IsOk, OnOk, OnErr, IsTrue, IsSome, string_bytes};
ghost use Rattle.std.specs.BTreeSet.{contains_text};
ghost use Rattle.std.specs.List.{list_any};
ghost use Rattle.std.specs.Option.{ForSome};
ghost use Rattle.std.specs.Str.{bytes_eq};
ghost use Rattle.log4rs_rolling.specs.Costs.{Caused, Costs};
ghost use Rattle.log4rs_rolling.specs.Disk.{Calls, files_of};
ghost use Rattle.log4rs_rolling.specs.Faults.{MayAnswer};
ghost use Rattle.log4rs_rolling.specs.Archives.{waiting_name};
ghost use Rattle.log4rs_rolling.specs.AtOpening.{MadeMoves, opening_moves};
ghost use Rattle.log4rs_rolling.specs.Keeping.{Limits, MadeRoll, NothingLeft, RolledAs, SameNames, StaysAmong, StaysClosed, SteppedAs, SteppedAt, names_of};
ghost use Rattle.log4rs_rolling.specs.Moves.{AreLast, Moved, MovedHalf, MovedAll, MovedFirst, MovedPartly};
ghost use Rattle.log4rs_rolling.specs.OperationResults.{MovedBy, Refusing, RenamedBy};
ghost use Rattle.log4rs_rolling.specs.Window.{AreDistinct, NoCopies};
ghost use Rattle.log4rs_rolling.specs.Background.{step_cost};

use crate::folder::make_parent;
use crate::moves::{move_file, move_to_folder, rename_file, rename_to_folder};
use crate::names::name_at;
use crate::roll::Roll;
use crate::store::{Renamed, Store};
use log4rs_base::{LogError, OutOfMemory};
use std::alloc::{AllocError, Global};
use std::collections::{BTreeMap, BTreeSet};

pub mod builder;

pub use builder::FixedWindowRollerBuilder;
pub use log4rs_base::RollerError;

/// Archives log files under the names of a pattern.
///
/// The archives have consecutive indices, and the newest has the lowest. A rotation moves each
/// archive to the next index, the highest first, so that the oldest is overwritten, and then the
/// log file to the lowest index. A roller of 0 archives removes the file.
///
/// A move is a rename. If that is refused, the file is copied and then removed, unless only renames
/// are allowed. The first refusal ends the rotation with `Store`, and a failed allocation of a name
/// ends it with `Memory`; the moves made before stay.
///
/// In the background, a rotation renames the log file to its path followed by `.rolling`. The moves
/// are left to steps, one for each, which are renames alone; the last moves the waiting file. A
/// refused step leaves its move to the next step. A rotation first makes the steps that an earlier
/// one left. A file that an earlier roller left waiting is looked for when the log file is opened,
/// or else by the first rotation, and is archived at once.
#[derive(Drop)]
#[derive_where(Debug)]
pub struct FixedWindowRoller {
    alloc: Global,
    pattern: String,
    #[derive_where(skip(Debug))]
    env: BTreeMap<String, String>,
    base: u32,
    count: u32,
    rename_only: bool,
    // Whether rotations go on in the background, step by step.
    background: bool,
    // The rest of such a rotation.
    job: Option<Job>,
    // Whether the roller has looked for a file that an earlier roller left waiting.
    asked: bool,
    // Whether the archives may lie in different directories.
    folders_vary: bool,
    ghost in_range: { base + count < 2 ^ 32 },
    ghost in_steps: { ForSome job (λ j. IsTrue background × IsTrue asked
        × (0 < j.left) × (j.left ≤ count)) },
}

/// The rest of a rotation: this many moves, the last of them that of the waiting file.
#[derive(Debug, Drop)]
struct Job {
    left: u32,
    waiting: String,
}

/// Returns the path under which a file waits to be archived.
fn waiting_path(alloc: Global, file: &str) -> Result<String, AllocError>
    ensures { IfOk result (λ path. string_bytes path ≡ waiting_name file.now) }
{
    let mut path = String::from_str(alloc, file)?;
    path.push_str(".rolling")?;
    Ok(path)
}

impl FixedWindowRoller {
    ghost use Rattle.log4rs_rolling.specs.Roller.{archive_name, moves_of, kept_by, kept_anew};
    ghost use Rattle.log4rs_rolling.specs.Roller.{slot_of, left_of, job_of, rest_by, in_background, names_beside, was_asked};

    /// Returns the name of the archive with this index.
    fn name(&self, index: u32) -> Result<String, OutOfMemory>
        ensures { IfOk result (λ name. string_bytes name ≡ archive_name self.now index) }
    {
        name_at(self.alloc, self.pattern.as_str(), &self.env, index)
    }

    /// Moves one archive to the next index.
    fn shift<S: Store>(&self, at: u32, store: &mut S) -> Result<(), LogError>
        requires above { 0 < at }
        requires below { at < self.now.count }
        ensures moved { let from = archive_name self.now (self.now.base + (at - 1)) in
            let to = archive_name self.now (self.now.base + at) in
            MovedBy (λ f. Moved f from to) (λ f. MovedHalf f from to) self.now.rename_only
            result (S.disk store.old) (S.disk store.new) }
        ensures cost { Costs 4 result (S.disk store.old) (S.disk store.new) }
    {
        let from = self.name(self.base + (at - 1))?;
        let to = self.name(self.base + at)?;
        if self.folders_vary {
            return move_to_folder(from.as_str(), to.as_str(), self.rename_only, store);
        }
        move_file(from.as_str(), to.as_str(), self.rename_only, store)
    }

    /// Moves each archive to the next index, the highest first, and then the file to the lowest
    /// index.
    fn rotate<S: Store>(&self, file: &str, store: &mut S) -> Result<(), LogError>
        requires { 0 < self.now.count }
        ensures moved { MovedBy (λ f. MovedAll f (moves_of self.now file.now))
            (λ f. MovedPartly f (moves_of self.now file.now)) self.now.rename_only
            result (S.disk store.old) (S.disk store.new) }
        ensures cost { Costs (4 * self.now.count) result (S.disk store.old) (S.disk store.new) }
    {
        let newest = self.name(self.base)?;
        make_parent(newest.as_str(), store)?;
        let mut at = self.count - 1;
        while at > 0 {
            self.shift(at, store)?;
            at -= 1;
        }
        move_file(file, newest.as_str(), self.rename_only, store)
    }

    /// Returns the path of the active file and, in the background, the path under which it waits.
    fn beside(&self, active: &str) -> Result<BTreeSet<String>, OutOfMemory>
        ensures { IfOk result (λ names. (name : List ℕ) → contains_text names name
            ≡ list_any (bytes_eq name) (names_beside (in_background self.now) active.now)) }
    {
        let mut names = BTreeSet::new(self.alloc);
        names.insert(String::from_str(self.alloc, active)?)?;
        if !self.background {
            return Ok(names);
        }
        names.insert(waiting_path(self.alloc, active)?)?;
        Ok(names)
    }

    /// Returns whether the names of the archives, the path of the active file and, in the
    /// background, the path under which it waits are all distinct. Each `$ENV{name}` in `active`
    /// must be expanded. Fails if an allocation fails.
    pub fn distinct(&self, active: &str) -> Result<bool, OutOfMemory>
        ensures { IfOk result (λ distinct. IsTrue distinct
            ↔ AreDistinct (names_of (kept_by self.now) active.now)) }
    {
        let mut names = self.beside(active)?;
        for at in 0..self.count {
            if !names.insert(self.name(self.base + at)?)? {
                return Ok(false);
            }
        }
        Ok(true)
    }

    /// Returns a roller that keeps the same archives, has no unfinished rotation, and has not
    /// looked for a waiting file. Fails if an allocation fails.
    pub fn again(&self) -> Result<FixedWindowRoller, OutOfMemory>
        ensures kept { IfOk result (λ roller. kept_by roller ≡ kept_anew self.now) }
        ensures no_job { IfOk result (λ roller. job_of roller ≡ None) }
        ensures unasked { IfOk result (λ roller. was_asked roller ≡ false) }
    {
        Ok(FixedWindowRoller {
            alloc: self.alloc,
            pattern: self.pattern.clone()?,
            env: self.env.clone()?,
            base: self.base,
            count: self.count,
            rename_only: self.rename_only,
            background: self.background,
            job: None,
            asked: false,
            folders_vary: self.folders_vary,
        })
    }

    /// Makes the next move of a job, in directories that are present.
    fn move_next<S: Store>(&self, left: u32, waiting: &str, store: &mut S) -> Result<(), LogError>
        requires some { 0 < left }
        requires most { left ≤ self.now.count }
        ensures renamed { RenamedBy (slot_of self.now waiting.now (left - 1))
            (slot_of self.now waiting.now left) result (S.disk store.old) (S.disk store.new) }
        ensures cost { Costs 2 result (S.disk store.old) (S.disk store.new) }
    {
        let to = self.name(self.base + (left - 1))?;
        if left == 1 {
            return rename_file(waiting, to.as_str(), store);
        }
        let from = self.name(self.base + (left - 2))?;
        if self.folders_vary {
            return rename_to_folder(from.as_str(), to.as_str(), store);
        }
        rename_file(from.as_str(), to.as_str(), store)
    }

    /// Makes the next move of a job, and the directories that it needs.
    fn advance<S: Store>(&self, left: u32, waiting: &str, store: &mut S) -> Result<(), LogError>
        requires some { 0 < left }
        requires most { left ≤ self.now.count }
        ensures renamed { RenamedBy (slot_of self.now waiting.now (left - 1))
            (slot_of self.now waiting.now left) result (S.disk store.old) (S.disk store.new) }
        ensures cost { Costs 3 result (S.disk store.old) (S.disk store.new) }
    {
        if left < self.count {
            return self.move_next(left, waiting, store);
        }
        let newest = self.name(self.base)?;
        make_parent(newest.as_str(), store)?;
        self.move_next(left, waiting, store)
    }

    /// Makes one step of a job, if there is one, and returns whether more is left.
    fn step_job<S: Store>(&mut self, store: &mut S) -> Result<bool, LogError>
        ensures stepped { SteppedAs (kept_by self.old) (kept_by self.new)
            (S.disk store.old) (S.disk store.new) }
        ensures none { job_of self.old ≡ None → result ≡ Ok false }
        ensures asked { was_asked self.new ≡ was_asked self.old }
        ensures ok { IfOk result (λ more. (IsTrue more
            → IsSome (job_of self.old) × IsSome (job_of self.new)
            × (left_of (job_of self.old) ≡ left_of (job_of self.new) + 1))
            × (more ≡ false → job_of self.new ≡ None)) }
        // The first of the moves that were left is made, if any were.
        ensures moved { OnOk result (Calls (S.disk store.old) (S.disk store.new) (λ added.
            MovedFirst (files_of (S.disk store.old)) (rest_by self.old) (rest_by self.new) added)) }
        ensures rest { OnOk result (AreLast (rest_by self.old) (rest_by self.new)) }
        ensures err { OnErr result ((kept_by self.new ≡ kept_by self.old)
            × Calls (S.disk store.old) (S.disk store.new) (λ added. added ≡ [])) }
        ensures once { Calls (S.disk store.old) (S.disk store.new) (λ added. length added ≤ 1) }
        ensures told { Refusing result (S.disk store.old) (S.disk store.new) }
        ensures cost { Costs (step_cost (rest_by self.old)) result (S.disk store.old) (S.disk store.new) }
    {
        let Some(job) = self.job.take() else {
            return Ok(false);
        };
        if let Err(fault) = self.advance(job.left, job.waiting.as_str(), store) {
            self.job = Some(job);
            return Err(fault);
        }
        if job.left == 1 {
            return Ok(false);
        }
        self.job = Some(Job {
            left: job.left - 1,
            waiting: job.waiting,
        });
        Ok(true)
    }

    /// Completes a job.
    fn drive_job<S: Store>(&mut self, store: &mut S) -> Result<(), LogError>
        ensures stepped { SteppedAs (kept_by self.old) (kept_by self.new)
            (S.disk store.old) (S.disk store.new) }
        ensures ok { OnOk result (job_of self.new ≡ None) }
        ensures ended { OnOk result (NothingLeft (kept_by self.old) (kept_by self.new)) }
        ensures asked { was_asked self.new ≡ was_asked self.old }
        ensures moved { OnOk result (Calls (S.disk store.old) (S.disk store.new)
            (MovedAll (files_of (S.disk store.old)) (rest_by self.old))) }
        ensures err { OnErr result (Calls (S.disk store.old) (S.disk store.new)
            (MovedPartly (files_of (S.disk store.old)) (rest_by self.old))) }
        ensures rest { OnErr result (AreLast (rest_by self.old) (rest_by self.new)) }
        ensures told { Refusing result (S.disk store.old) (S.disk store.new) }
        ensures cost { Costs (3 * length (rest_by self.old)) result (S.disk store.old) (S.disk store.new) }
    {
        while self.step_job(store)? {}
        Ok(())
    }

    /// Sets a file aside, so that its rotation goes on in steps.
    fn set_aside<S: Store>(&mut self, file: &str, store: &mut S) -> Result<(), LogError>
        requires some { 0 < self.old.count }
        requires background { IsTrue (in_background self.old) }
        requires asked { IsTrue (was_asked self.old) }
        requires none { job_of self.old ≡ None }
        ensures rolled { RolledAs (kept_by self.old) (kept_by self.new) file.now result
            (S.disk store.old) (S.disk store.new) }
        ensures err { OnErr result ((job_of self.new ≡ None)
            × Calls (S.disk store.old) (S.disk store.new) (λ added. added ≡ [])) }
        ensures moved { OnOk result (Calls (S.disk store.old) (S.disk store.new) (λ added.
            Moved (files_of (S.disk store.old)) file.now (waiting_name file.now) added
            × NoCopies added)) }
        ensures elsewhere { StaysAmong (kept_by self.old) (kept_by self.new) file.now
            (S.disk store.old) (S.disk store.new) }
        ensures names { SameNames (kept_by self.old) (kept_by self.new) }
        ensures closed { StaysClosed (S.disk store.old) (S.disk store.new) }
        ensures told { Refusing result (S.disk store.old) (S.disk store.new) }
        ensures cost { Costs 1 result (S.disk store.old) (S.disk store.new) }
    {
        let waiting = waiting_path(self.alloc, file)?;
        let Ok(renamed) = store.rename(file, waiting.as_str()) else {
            return Err(LogError::Store);
        };
        if renamed == Renamed::Missing {
            return Ok(());
        }
        self.job = Some(Job {
            left: self.count,
            waiting,
        });
        Ok(())
    }

    /// Looks for a file that an earlier roller left waiting, and begins a job with all moves if
    /// there is one. After a refusal it counts as not looked for.
    fn probe<S: Store>(&mut self, file: &str, store: &mut S) -> Result<(), LogError>
        requires some { 0 < self.old.count }
        requires background { IsTrue (in_background self.old) }
        requires unasked { was_asked self.old ≡ false }
        ensures stepped { SteppedAt (kept_by self.old) (kept_by self.new) file.now
            (S.disk store.old) (S.disk store.new) }
        ensures ok { OnOk result (IsTrue (was_asked self.new)) }
        ensures err { OnErr result ((self.new ≡ self.old)
            × Calls (S.disk store.old) (S.disk store.new) (λ added. added ≡ [])) }
        // A waiting file is renamed to itself, and the moves of its rotation are left.
        ensures found { OnOk result (Calls (S.disk store.old) (S.disk store.new) (MovedFirst
            (files_of (S.disk store.old))
            (opening_moves (kept_by self.old) file.now (files_of (S.disk store.old)))
            (rest_by self.new))) }
        ensures told { Refusing result (S.disk store.old) (S.disk store.new) }
        ensures cost { Costs 1 result (S.disk store.old) (S.disk store.new) }
    {
        let waiting = waiting_path(self.alloc, file)?;
        let path = waiting.as_str();
        let Ok(renamed) = store.rename(path, path) else {
            return Err(LogError::Store);
        };
        self.asked = true;
        if renamed == Renamed::Missing {
            return Ok(());
        }
        self.job = Some(Job {
            left: self.count,
            waiting,
        });
        Ok(())
    }

    /// Looks, if that was not done, for a file that an earlier roller left waiting, and completes
    /// the job.
    fn ask<S: Store>(&mut self, file: &str, store: &mut S) -> Result<(), LogError>
        requires some { 0 < self.old.count }
        requires background { IsTrue (in_background self.old) }
        ensures stepped { SteppedAt (kept_by self.old) (kept_by self.new) file.now
            (S.disk store.old) (S.disk store.new) }
        ensures ok { OnOk result (IsTrue (was_asked self.new)) }
        ensures none { OnOk result (job_of self.new ≡ None) }
        ensures moves { MadeMoves (kept_by self.old) file.now result
            (S.disk store.old) (S.disk store.new) }
        ensures rest { IsTrue (was_asked self.old)
            → OnErr result (AreLast (rest_by self.old) (rest_by self.new)) }
        ensures told { Refusing result (S.disk store.old) (S.disk store.new) }
        ensures cost { Costs (1 + 3 * self.old.count) result (S.disk store.old) (S.disk store.new) }
    {
        if self.asked {
            return self.drive_job(store);
        }
        self.probe(file, store)?;
        self.drive_job(store)
    }

    /// Looks for a waiting file before a file is opened, if files are archived in the background.
    fn open_job<S: Store>(&mut self, file: &str, store: &mut S) -> Result<(), LogError>
        ensures stepped { SteppedAt (kept_by self.old) (kept_by self.new) file.now
            (S.disk store.old) (S.disk store.new) }
        ensures ok { IsTrue (in_background self.old) → 0 < self.old.count
            → OnOk result (IsTrue (was_asked self.new)) }
        ensures none { OnOk result (job_of self.new ≡ None) }
        ensures moves { MadeMoves (kept_by self.old) file.now result
            (S.disk store.old) (S.disk store.new) }
        ensures idle { (kept_by self.old).waiting file.now ≡ None
            → (self.new ≡ self.old) × (store.new ≡ store.old) × IsOk result }
        ensures bare { IsTrue (kept_by self.old).removes
            → (self.new ≡ self.old) × (store.new ≡ store.old) × IsOk result }
        ensures told { Refusing result (S.disk store.old) (S.disk store.new) }
        ensures cost { Costs (1 + 3 * self.old.count) result (S.disk store.old) (S.disk store.new) }
    {
        if self.count == 0 {
            return Ok(());
        }
        if !self.background {
            return Ok(());
        }
        self.ask(file, store)
    }

    /// Completes the job, and then sets the file aside.
    fn roll_aside<S: Store>(&mut self, file: &str, store: &mut S) -> Result<(), LogError>
        requires some { 0 < self.old.count }
        requires background { IsTrue (in_background self.old) }
        ensures rolled { RolledAs (kept_by self.old) (kept_by self.new) file.now result
            (S.disk store.old) (S.disk store.new) }
        ensures made { MadeRoll (kept_by self.old) result (S.disk store.old) (S.disk store.new) }
        ensures limits { Limits (kept_by self.old) (kept_by self.new) file.now
            (S.disk store.old) (S.disk store.new) }
        ensures closed { StaysClosed (S.disk store.old) (S.disk store.new) }
        ensures fault { IfErr result
            (MayAnswer (S.disk store.old).refusals (S.disk store.new).refusals) }
        ensures cause { Caused result (S.disk store.old) (S.disk store.new) }
    {
        self.ask(file, store)?;
        self.set_aside(file, store)
    }
}

impl<S: Store> Roll<S> for FixedWindowRoller {
    ghost use Rattle.log4rs_rolling.specs.Roller.{kept_by};

    ghost keeping = { kept_by };

    fn roll(&mut self, file: &str, store: &mut S) -> Result<(), LogError> {
        if self.count == 0 {
            if let Err(_) = store.remove(file) {
                return Err(LogError::Store);
            }
            return Ok(());
        }
        if self.background {
            return self.roll_aside(file, store);
        }
        self.rotate(file, store)
    }

    fn at_open(&mut self, file: &str, store: &mut S) -> Result<(), LogError> {
        self.open_job(file, store)
    }

    fn step(&mut self, store: &mut S) -> Result<bool, LogError> {
        self.step_job(store)
    }

    fn drive(&mut self, store: &mut S) -> Result<(), LogError> {
        self.drive_job(store)
    }
}
