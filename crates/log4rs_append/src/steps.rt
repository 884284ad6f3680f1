//! Work of appenders beside the appends.

ghost use Rattle.std.specs.Prelude.{◌≡◌, false, None, Ok, IsTrue, IfErr, OnOk};
ghost use Rattle.log4rs_rolling.specs.Faults.{MayAnswer};
ghost use Rattle.log4rs_append.specs.PlainFile.{OnPlainFile, ReopenedFile, ShutFile};
ghost use Rattle.log4rs_append.specs.RolledFile.{DrivenFile, OnRolledFile, ResumedFile};
ghost use Rattle.log4rs_append.specs.RolledFile.{RetiredFile, SteppedFile};

use crate::append::Append;
use crate::console::ConsoleAppender;
use crate::log_appender::{Log, LogAppender};
use crate::memory::MemoryAppender;
use log4rs_base::LogError;
use log4rs_encode::Encode;

/// An appender whose work may go on in the background, such as a rotation: what an append leaves of
/// it is done in steps. An appender of the caller's whose appends leave nothing answers `Ok(false)`
/// to `step`, and `Ok(())` to the others.
pub trait Steps: Append {
    /// Makes one step, and returns whether more is left. Fails if the step is refused.
    fn step(&mut self) -> Result<bool, LogError>
        ensures texts { (Self.sink self.new).texts ≡ (Self.sink self.old).texts }
        // With `Ok`, nothing was refused.
        ensures unrefused { IsTrue (Self.sink self.old).is_built_in → OnOk result
            ((Self.sink self.new).refusals ≡ (Self.sink self.old).refusals) }
        ensures fault { IsTrue (Self.sink self.old).is_built_in → IfErr result
            (MayAnswer (Self.sink self.old).refusals (Self.sink self.new).refusals) }
        ensures built_in { (Self.sink self.new).is_built_in ≡ (Self.sink self.old).is_built_in }
        ensures rolled { OnRolledFile (SteppedFile result) (Self.sink self.old).rolled
            (Self.sink self.new).rolled }
        // One that shows no rolled file does nothing.
        ensures idle { (Self.sink self.old).rolled ≡ None
            → (Self.sink self.new ≡ Self.sink self.old)
            × (IsTrue (Self.sink self.old).is_built_in → result ≡ Ok false) };

    /// Does all that is left. Fails if a step is refused; the rest is then left.
    fn drive(&mut self) -> Result<(), LogError>
        ensures texts { (Self.sink self.new).texts ≡ (Self.sink self.old).texts }
        // With `Ok`, nothing was refused.
        ensures unrefused { IsTrue (Self.sink self.old).is_built_in → OnOk result
            ((Self.sink self.new).refusals ≡ (Self.sink self.old).refusals) }
        ensures fault { IsTrue (Self.sink self.old).is_built_in → IfErr result
            (MayAnswer (Self.sink self.old).refusals (Self.sink self.new).refusals) }
        ensures built_in { (Self.sink self.new).is_built_in ≡ (Self.sink self.old).is_built_in }
        ensures rolled { OnRolledFile (DrivenFile result) (Self.sink self.old).rolled
            (Self.sink self.new).rolled }
        // One that shows no rolled file does nothing.
        ensures idle { (Self.sink self.old).rolled ≡ None
            → (Self.sink self.new ≡ Self.sink self.old)
            × (IsTrue (Self.sink self.old).is_built_in → result ≡ Ok tt) };

    /// Does all that is left, as `drive` does, and closes the file, if there is one, even if a move
    /// fails. From then on `append_retired` appends, until `resume`. Fails as `drive` does.
    fn retire(&mut self) -> Result<(), LogError>
        ensures texts { (Self.sink self.new).texts ≡ (Self.sink self.old).texts }
        // With `Ok`, nothing was refused.
        ensures unrefused { IsTrue (Self.sink self.old).is_built_in → OnOk result
            ((Self.sink self.new).refusals ≡ (Self.sink self.old).refusals) }
        ensures fault { IsTrue (Self.sink self.old).is_built_in → IfErr result
            (MayAnswer (Self.sink self.old).refusals (Self.sink self.new).refusals) }
        ensures built_in { (Self.sink self.new).is_built_in ≡ (Self.sink self.old).is_built_in }
        ensures rolled { OnRolledFile (RetiredFile result) (Self.sink self.old).rolled
            (Self.sink self.new).rolled }
        ensures plain { OnPlainFile ShutFile (Self.sink self.old).plain
            (Self.sink self.new).plain };

    /// Goes on as before `retire`. If this fails, the appender stays retired.
    fn resume(&mut self) -> Result<(), LogError>
        ensures texts { (Self.sink self.new).texts ≡ (Self.sink self.old).texts }
        // With `Ok`, nothing was refused.
        ensures unrefused { IsTrue (Self.sink self.old).is_built_in → OnOk result
            ((Self.sink self.new).refusals ≡ (Self.sink self.old).refusals) }
        ensures fault { IsTrue (Self.sink self.old).is_built_in → IfErr result
            (MayAnswer (Self.sink self.old).refusals (Self.sink self.new).refusals) }
        ensures built_in { (Self.sink self.new).is_built_in ≡ (Self.sink self.old).is_built_in }
        ensures rolled { OnRolledFile (ResumedFile result) (Self.sink self.old).rolled
            (Self.sink self.new).rolled }
        ensures plain { OnPlainFile (ReopenedFile result) (Self.sink self.old).plain
            (Self.sink self.new).plain };
}

/// A boxed appender leaves nothing, so one with steps is not boxed.
impl Steps for Box<dyn Append + Send + Sync + Drop> {
    fn step(&mut self) -> Result<bool, LogError> {
        Ok(false)
    }

    fn drive(&mut self) -> Result<(), LogError> {
        Ok(())
    }

    fn retire(&mut self) -> Result<(), LogError> {
        Ok(())
    }

    fn resume(&mut self) -> Result<(), LogError> {
        Ok(())
    }
}

impl<E: Encode> Steps for ConsoleAppender<E> {
    fn step(&mut self) -> Result<bool, LogError> {
        Ok(false)
    }

    fn drive(&mut self) -> Result<(), LogError> {
        Ok(())
    }

    fn retire(&mut self) -> Result<(), LogError> {
        Ok(())
    }

    fn resume(&mut self) -> Result<(), LogError> {
        Ok(())
    }
}

impl<E: Encode> Steps for MemoryAppender<E> {
    fn step(&mut self) -> Result<bool, LogError> {
        Ok(false)
    }

    fn drive(&mut self) -> Result<(), LogError> {
        Ok(())
    }

    fn retire(&mut self) -> Result<(), LogError> {
        Ok(())
    }

    fn resume(&mut self) -> Result<(), LogError> {
        Ok(())
    }
}

impl<L: Log> Steps for LogAppender<L> {
    fn step(&mut self) -> Result<bool, LogError> {
        Ok(false)
    }

    fn drive(&mut self) -> Result<(), LogError> {
        Ok(())
    }

    fn retire(&mut self) -> Result<(), LogError> {
        Ok(())
    }

    fn resume(&mut self) -> Result<(), LogError> {
        Ok(())
    }
}
