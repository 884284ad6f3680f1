use crate::rolling::{answers, built};
use crate::setup::{cut, held, roller, same, store};
use log4rs_base::{Context, LogError};
use log4rs_rolling::store::Store;
use log4rs_rolling::{
    AnyRoller, AnyTrigger, CompoundPolicyOf, Keep, LogFile, MemStore, Policy, Trigger,
};
use std::alloc::Global;
use std::test::Fail;

/// Returns true for files of more than two bytes, and fails for files of two.
#[derive(Drop)]
struct Strict {
    first: bool,
}

impl Trigger for Strict {
    fn trigger(&mut self, file: &LogFile, _context: &Context<'_>) -> Result<bool, LogError> {
        if file.len() == 2 {
            return Err(LogError::Policy);
        }
        Ok(file.len() > 2)
    }

    fn is_pre_process(&self) -> bool {
        self.first
    }
}

/// Fails after `left` calls.
#[derive(Drop)]
struct Strikes {
    left: u64,
    first: bool,
}

impl<S: Store> Keep<S> for Strikes {}

impl<S: Store> Policy<S> for Strikes {
    fn process(
        &mut self,
        _log: &mut LogFile,
        _store: &mut S,
        _context: &Context<'_>,
    ) -> Result<(), LogError> {
        match self.left.checked_sub(1) {
            Some(left) => {
                self.left = left;
                Ok(())
            }
            None => Err(LogError::Policy),
        }
    }

    fn is_pre_process(&self) -> bool {
        self.first
    }

    fn at_open(&mut self, _file: &str, _store: &mut S) -> Result<(), LogError> {
        Ok(())
    }

    fn step(&mut self, _store: &mut S) -> Result<bool, LogError> {
        Ok(false)
    }

    fn drive(&mut self, _store: &mut S) -> Result<(), LogError> {
        Ok(())
    }
}

/// Appends the messages to `f`, which the policy rolls. Returns the outcomes and the files.
fn came<P: Policy<MemStore> + Drop>(
    alloc: Global,
    told: &str,
    policy: P,
    messages: &str,
) -> Result<String, Fail> {
    let mut appender = built(alloc, true, "f", store(alloc, told, &[])?, policy)?;
    let answers = answers(alloc, &mut appender, messages)?;
    let files = held(alloc, appender.store())?;
    Ok(format!(in alloc; "{answers}{files}")?)
}

/// Returns a policy with the trigger `Strict`, which runs before the write if `first` is true, and
/// otherwise after it.
fn strict_policy(
    alloc: Global,
    first: bool,
) -> Result<CompoundPolicyOf<AnyTrigger, AnyRoller>, Fail> {
    let strict: Box<dyn Trigger + Send + Sync + Drop> = Box::new(alloc, Strict { first })?;
    let roller = AnyRoller::FixedWindow(roller(alloc, ("f.{}", 0, 2, true))?);
    Ok(CompoundPolicyOf::new(AnyTrigger::Custom(strict), roller))
}

/// Whether the trigger runs `before` or `after` the write, files, messages, and the expected
/// outcomes and files. If the trigger fails after the write, the text stays; if it fails before,
/// nothing is written.
const STRICT: &str = "after||a b c d| ok policy ok ok f=d f.0=abc
before||a b c d| ok ok policy policy f=ab
before|f=old|a b c| ok ok policy f=ab f.0=old
after|f=old f.0=A|a| ok f.0=olda f.1=A";

#[test]
fn own_triggers_and_policies(rt: HostRuntime) -> Result<(), Fail> {
    let alloc = rt.alloc();
    for line in STRICT.lines() {
        let (first, rest) = cut(line);
        let (told, rest) = cut(rest);
        let (messages, expected) = cut(rest);
        let came = came(
            alloc,
            told,
            strict_policy(alloc, first == "before")?,
            messages,
        )?;
        same(&rt, came.as_str(), expected);
    }
    let before = Strikes {
        left: 2,
        first: true,
    };
    let came_before = came(alloc, "f=old", before, "a b c d")?;
    same(&rt, came_before.as_str(), " ok ok policy policy f=oldab");
    let after = Strikes {
        left: 2,
        first: false,
    };
    let came_after = came(alloc, "f=old", after, "a b c d")?;
    same(&rt, came_after.as_str(), " ok ok policy policy f=oldabcd");
    Ok(())
}
