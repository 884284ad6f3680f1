//! Rollers.

ghost use Rattle.std.specs.Prelude.{◌≡◌, IfErr, IsOk, IsTrue};
ghost use Rattle.log4rs_rolling.specs.Costs.{Caused};
ghost use Rattle.log4rs_rolling.specs.Faults.{MayAnswer};
ghost use Rattle.log4rs_rolling.specs.AtOpening.{Readied, RollsAtOnce};
ghost use Rattle.log4rs_rolling.specs.Background.{Driven, Stepped};
ghost use Rattle.log4rs_rolling.specs.Keeping.{foreign, no_archives, HasFile, Limits, MadeRoll, RolledAs, StaysClosed};

use crate::fixed_window::FixedWindowRoller;
use crate::store::Store;
use log4rs_base::LogError;

/// Archives or removes full log files. Contracts describe a roller by its `keeping`, which a roller
/// of the caller may hide.
pub trait Roll<S: Store> {
    ghost use Rattle.log4rs_rolling.specs.Keeping.{Keeping};

    /// The archives that it keeps, and their names.
    ghost keeping: { Self → Keeping } = { λ _. foreign };

    /// Archives or removes the file at this path, which is closed. Fails with `Store` if the store
    /// refuses, and with `Memory` if an allocation fails; a roller of the caller may fail
    /// otherwise.
    fn roll(&mut self, file: &str, store: &mut S) -> Result<(), LogError>
        ensures rolled { RolledAs (keeping self.old) (keeping self.new) file.now result
            (S.disk store.old) (S.disk store.new) }
        ensures made { IsTrue (keeping self.old).is_built_in
            → MadeRoll (keeping self.old) result (S.disk store.old) (S.disk store.new) }
        ensures limits { Limits (keeping self.old) (keeping self.new) file.now
            (S.disk store.old) (S.disk store.new) }
        ensures closed { StaysClosed (S.disk store.old) (S.disk store.new) }
        ensures fault { IsTrue (keeping self.old).is_built_in → IfErr result
            (MayAnswer (S.disk store.old).refusals (S.disk store.new).refusals) }
        // A built-in roller fails with `Store` only if the store denied an operation. One that
        // removes the file also does if the file is absent.
        ensures cause { IsTrue (keeping self.old).is_built_in
            → HasFile (keeping self.old) file.now (S.disk store.old)
            → Caused result (S.disk store.old) (S.disk store.new) };

    /// Completes a rotation of this file that was left unfinished, before the file is opened. It
    /// drops at most the oldest archive. A built-in roller changes nothing if no rotation is left
    /// and no file waits; one that rolls at once does nothing. Fails as `roll` does.
    fn at_open(&mut self, file: &str, store: &mut S) -> Result<(), LogError>
        ensures ready { Readied (keeping self.old) (keeping self.new) file.now result
            (S.disk store.old) (S.disk store.new) }
        // A built-in roller that rolls at once, or keeps no archives, makes no operation.
        ensures idle { RollsAtOnce (keeping self.old) file.now
            → (self.new ≡ self.old) × (store.new ≡ store.old) × IsOk result }
        ensures bare { IsTrue (keeping self.old).is_built_in → IsTrue (keeping self.old).removes
            → (self.new ≡ self.old) × (store.new ≡ store.old) × IsOk result };

    /// Makes one step of a rotation in the background, and returns whether more of it is left. A
    /// roller that rolls at once does nothing. Fails if the step is refused.
    fn step(&mut self, store: &mut S) -> Result<bool, LogError>
        ensures { Stepped (keeping self.old) (keeping self.new) result
            (S.disk store.old) (S.disk store.new) };

    /// Completes a rotation in the background. A roller that rolls at once does nothing. Fails if a
    /// step is refused; the rest of the rotation is then left.
    fn drive(&mut self, store: &mut S) -> Result<(), LogError>
        ensures { Driven (keeping self.old) (keeping self.new) result
            (S.disk store.old) (S.disk store.new) };
}

/// Removes the file, and keeps no archives. Fails with `Store` if the store refuses, or the file is
/// absent.
#[derive(Clone, Copy, Debug, PartialEq, Eq, Hash, Default)]
pub struct DeleteRoller;

impl DeleteRoller {
    ghost use Rattle.log4rs_rolling.specs.Roller.{kept_by_any};
    ghost use Rattle.log4rs_rolling.specs.declared.roll.AnyRoller.TheVariants.{Delete};

    /// Creates the roller.
    pub fn new() -> Self
        ensures keeping { kept_by_any (Delete result) ≡ no_archives }
    {
        DeleteRoller
    }
}

impl<S: Store> Roll<S> for DeleteRoller {
    ghost keeping = { λ _. no_archives };

    fn roll(&mut self, file: &str, store: &mut S) -> Result<(), LogError> {
        if let Err(_) = store.remove(file) {
            return Err(LogError::Store);
        }
        Ok(())
    }

    fn at_open(&mut self, file: &str, store: &mut S) -> Result<(), LogError> {
        let _ = file;
        let _ = store;
        Ok(())
    }

    fn step(&mut self, store: &mut S) -> Result<bool, LogError> {
        let _ = store;
        Ok(false)
    }

    fn drive(&mut self, store: &mut S) -> Result<(), LogError> {
        let _ = store;
        Ok(())
    }
}

/// A roller of this crate.
#[derive(Debug, Drop)]
pub enum AnyRoller {
    /// Removes the file.
    Delete(DeleteRoller),
    /// Keeps a window of archives.
    FixedWindow(FixedWindowRoller),
}

impl<S: Store> Roll<S> for AnyRoller {
    ghost use Rattle.log4rs_rolling.specs.Roller.{kept_by_any};

    ghost keeping = { kept_by_any };

    fn roll(&mut self, file: &str, store: &mut S) -> Result<(), LogError> {
        match self {
            AnyRoller::Delete(roller) => roller.roll(file, store),
            AnyRoller::FixedWindow(roller) => roller.roll(file, store),
        }
    }

    fn at_open(&mut self, file: &str, store: &mut S) -> Result<(), LogError> {
        match self {
            AnyRoller::Delete(roller) => roller.at_open(file, store),
            AnyRoller::FixedWindow(roller) => roller.at_open(file, store),
        }
    }

    fn step(&mut self, store: &mut S) -> Result<bool, LogError> {
        match self {
            AnyRoller::Delete(roller) => roller.step(store),
            AnyRoller::FixedWindow(roller) => roller.step(store),
        }
    }

    fn drive(&mut self, store: &mut S) -> Result<(), LogError> {
        match self {
            AnyRoller::Delete(roller) => roller.drive(store),
            AnyRoller::FixedWindow(roller) => roller.drive(store),
        }
    }
}
