use crate::setup::{context, held, pattern, record, roller, shown, store, string};
use log4rs_append::RollingFileAppender;
use log4rs_encode::AnyEncoder;
use log4rs_rolling::store::Planned;
use log4rs_rolling::{AnyRoller, CompoundPolicyOf, MemStore, NotedTrigger, SizeTrigger};
use std::alloc::Global;
use std::test::Fail;

/// A file in memory whose size trigger notes its last decision.
type Noted = RollingFileAppender<
    MemStore,
    CompoundPolicyOf<NotedTrigger<SizeTrigger>, AnyRoller>,
    AnyEncoder,
>;

/// Appends the record of a message. Returns the outcome and the decision of the trigger.
fn noted(alloc: Global, file: &mut Noted, message: &str) -> Result<String, Fail> {
    let record = record(alloc, message)?;
    let (answer, said) = file.append_noted(&record, &context(alloc));
    Ok(format!(in alloc; "{} {said:?}", shown(&answer))?)
}

/// Appends the record of a message. Returns the outcome, the decision of the trigger, and then the
/// path of the file, its length and its estimated length, and the files of the store.
fn measured(alloc: Global, file: &mut Noted, message: &str) -> Result<String, Fail> {
    let noted = noted(alloc, file, message)?;
    let log = file.file();
    let (path, len, estimate) = (log.path(), log.len(), log.len_estimate());
    let files = held(alloc, file.store())?;
    Ok(format!(in alloc; "{noted} {path} {len} {estimate}{files}")?)
}

/// Appends four records. Returns their outcomes, and the files of the store.
fn noted_all(alloc: Global, file: &mut Noted) -> Result<String, Fail> {
    let mut text = String::new(alloc);
    for message in ["abcdef", "xyz"] {
        write!(text, "{}; ", measured(alloc, file, message)?)?;
    }
    for message in ["ghijkl", "c"] {
        write!(text, "{}; ", noted(alloc, file, message)?)?;
    }
    write!(text, "{}", held(alloc, file.store())?)?;
    Ok(text)
}

/// Opens the file of a store in append mode.
fn opened(alloc: Global, store: MemStore) -> Result<Noted, Fail> {
    let roller = AnyRoller::FixedWindow(roller(alloc, ("f.{}", 0, 2, true))?);
    let policy = CompoundPolicyOf::new(NotedTrigger::new(SizeTrigger::new(10)), roller);
    let (path, encoder) = (string(alloc, "f")?, pattern(alloc, "{m}")?);
    match RollingFileAppender::open(alloc, store, policy, path, true, encoder) {
        Ok(file) => Ok(file),
        Err(_) => Err(Fail::new("the file was not opened")),
    }
}

#[test]
fn noted_answers(rt: HostRuntime) -> Result<(), Fail> {
    let alloc = rt.alloc();
    // Lets the opening and the length pass, writes two bytes, refuses a write, lets two writes
    // pass, and stops before the file is moved.
    let plan = [Planned::Do, Planned::Do, Planned::Take(2), Planned::Refuse];
    let mut store = store(alloc, "", &plan)?;
    store.stop_after(6);
    let mut file = opened(alloc, store)?;
    let expected = "store None f 2 2 f=ab; ok Some(false) f 5 5 f=abxyz; store Some(true); \
        store None;  f=abxyzghijkl";
    assert_eq!(rt; noted_all(alloc, &mut file)?.as_str(), expected);
    Ok(())
}
