use crate::disk::{folder, text};
use crate::sessions::run;
use crate::setup::{environment, same, string};
use crate::triggers::settings_of;
use log4rs_restarts::{RollingSettings, sessions};
use log4rs_rolling::FsStore;
use log4rs_rolling::store::Store;
use std::alloc::Global;
use std::fs;
use std::test::Fail;

/// Returns the settings of a file in a folder that does not exist, with each archive in a folder of
/// its own.
fn settings(alloc: Global, folder: &str) -> Result<RollingSettings, Fail> {
    Ok(RollingSettings {
        path: format!(in alloc; "{folder}/new/f")?,
        pattern: format!(in alloc; "{folder}/x/{{}}/f")?,
        base: 0,
        count: 2,
        rename_only: false,
        background: false,
        trigger: settings_of("size 1"),
        encoder_pattern: string(alloc, "{m}")?,
        env: environment(alloc)?,
    })
}

/// Runs two sessions with files in a folder. Returns how many of them opened the file.
fn opened<S: Store + Drop>(alloc: Global, folder: &str, store: S) -> Result<usize, Fail> {
    let settings = settings(alloc, folder)?;
    let runs = [run(alloc, None, "aa bb")?, run(alloc, None, "cc")?];
    let (_, report) = sessions(alloc, store, &settings, &runs);
    Ok(
        report?
            .runs
            .iter()
            .filter(|run| run.opening.is_ok())
            .count(),
    )
}

#[test]
fn folders_on_disk(rt: HostRuntime) -> Result<(), Fail> {
    let folder = folder(&rt, "folders")?;
    let folder = folder.as_str();
    let store = FsStore::new(rt.alloc(), &rt);
    assert_eq!(rt; opened(rt.alloc(), folder, store)?, 2);
    same(&rt, text(&rt, folder, "x/0/f")?.as_str(), "cc");
    same(&rt, text(&rt, folder, "x/1/f")?.as_str(), "bb");
    fs::remove_dir_all(&rt, folder)?;
    Ok(())
}
