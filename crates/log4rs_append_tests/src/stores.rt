use crate::script::{ALIKE, ALIKE_ANSWERS, answers};
use crate::setup::{held, planned, same, store};
use log4rs_rolling::store::Store;
use log4rs_rolling::{MemMaker, MemStore, StoreMaker};
use std::alloc::Global;
use std::test::Fail;

/// Returns the files of a store and the numbers of its refusals and its effects.
fn state(alloc: Global, store: &MemStore) -> Result<String, Fail> {
    let files = held(alloc, store)?;
    Ok(format!(in alloc; "{files} {} {}", store.refusals(), store.effects().len())?)
}

#[test]
fn answers_alike(rt: HostRuntime) -> Result<(), Fail> {
    let mut store = MemMaker::new(rt.alloc()).make()?;
    let answers = answers(rt.alloc(), "m", &mut store, ALIKE)?;
    same(&rt, answers.as_str(), ALIKE_ANSWERS);
    let left = state(rt.alloc(), &store)?;
    same(&rt, left.as_str(), " m/c=abcdefg m/e=abcdefg m/g= 7 16");
    Ok(())
}

#[test]
fn stops_and_goes_on(rt: HostRuntime) -> Result<(), Fail> {
    let alloc = rt.alloc();
    let mut store = store(alloc, "/f=old", planned(alloc, ".1.2")?.as_slice())?;
    store.stop_after(2);
    let stopped = answers(alloc, "", &mut store, "append /f;write abc;write abc;close")?;
    same(&rt, stopped.as_str(), "ok 1 Refused ok");
    store.go_on();
    let went_on = answers(alloc, "", &mut store, "append /f;write xyz;len")?;
    same(&rt, went_on.as_str(), "ok 3 7");
    same(&rt, state(alloc, &store)?.as_str(), " /f=oldaxyz 1 4");
    assert!(rt; store.file("/f")?.is_some() && store.file("")?.is_none());
    Ok(())
}
