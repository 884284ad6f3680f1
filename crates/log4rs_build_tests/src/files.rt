//! What a source tells of a real file.

use crate::setup::{folder, same};
use log4rs_settings::{ConfigSource, FileSource};
use std::alloc::Global;
use std::fs::{self, File};
use std::test::Fail;
use std::time::{Duration, UNIX_EPOCH};

/// Writes a file that was modified at this nanosecond.
fn write(files: &HostRuntime, path: &str, bytes: &[u8], nanos: u64) -> Result<(), Fail> {
    fs::write(files, path, bytes)?;
    let time = UNIX_EPOCH.checked_add(Duration::from_nanos(nanos));
    let file = File::open(files, path)?;
    file.set_modified(time.unwrap_or(UNIX_EPOCH))?;
    Ok(())
}

/// Returns the stamp of a file after it is written.
fn stamp<S: ConfigSource>(
    files: &HostRuntime,
    source: &mut S,
    path: &str,
    bytes: &[u8],
    nanos: u64,
) -> Result<u64, Fail> {
    write(files, path, bytes, nanos)?;
    Ok(source.modified()?)
}

/// Returns whether stamps differ with the moment and the length of a file, and are alike while it is
/// not written.
fn tells_changes<S: ConfigSource>(
    files: &HostRuntime,
    source: &mut S,
    path: &str,
) -> Result<bool, Fail> {
    let first = stamp(files, source, path, b"22", 7)?;
    let alike = source.modified()?;
    let later = stamp(files, source, path, b"22", 8)?;
    let shorter = stamp(files, source, path, b"2", 7)?;
    Ok(first == alike && first != later && first != shorter)
}

/// Returns the text of a source, or the error with the kind of its cause.
fn told<S: ConfigSource>(alloc: Global, source: &mut S) -> Result<String, Fail> {
    match source.read() {
        Ok(text) => Ok(text),
        Err(error) => {
            let kind = source.last_fault().map(|fault| fault.kind());
            Ok(format!(in alloc; "{error:?} {kind:?}")?)
        }
    }
}

/// Reads a missing file, and a file that has a text, that is emptied, and that is no text. Returns
/// what the source tells, with a bar after each.
fn told_all<S: ConfigSource>(
    files: &HostRuntime,
    source: &mut S,
    path: &str,
) -> Result<String, Fail> {
    let mut all = told(files.alloc(), source)?;
    all.push('|')?;
    for bytes in [b"a = \"\xc3\xa9\"".as_slice(), b"", b"", b"\xff"] {
        write(files, path, bytes, 7)?;
        all.push_str(told(files.alloc(), source)?.as_str())?;
        all.push('|')?;
    }
    Ok(all)
}

/// A source refuses a text that was emptied, and not one that is empty at first.
const TOLD: &str = "Refused Some(NotFound)|a = \"é\"|\
    Refused Some(UnexpectedEof)|Refused Some(UnexpectedEof)|Refused Some(InvalidData)|";

#[test]
fn file(rt: HostRuntime) -> Result<(), Fail> {
    let folder = folder(&rt, "source")?;
    let path = format!(in rt.alloc(); "{}/a.toml", folder.as_str())?;
    let mut source = FileSource::new(rt.alloc(), &rt, path.clone()?);
    assert!(rt; source.modified().is_err());
    same(
        &rt,
        told_all(&rt, &mut source, path.as_str())?.as_str(),
        TOLD,
    );
    assert!(rt; tells_changes(&rt, &mut source, path.as_str())?);
    write(&rt, path.as_str(), b"", 7)?;
    let mut first = FileSource::new(rt.alloc(), &rt, path.clone()?);
    same(&rt, told(rt.alloc(), &mut first)?.as_str(), "");
    fs::remove_dir_all(&rt, folder.as_str())?;
    Ok(())
}
