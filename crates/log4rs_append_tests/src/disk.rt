use crate::flaky::Flaky;
use crate::script::{ALIKE, ALIKE_ANSWERS, answers, path_in};
use crate::setup::{cut, same};
use log4rs_rolling::store::Store;
use log4rs_rolling::{FsMaker, FsStore, StoreMaker};
use std::alloc::Global;
use std::io::ErrorKind;
use std::os::unix::fs::symlink;
use std::test::Fail;
use std::{env, fs, process};

/// Creates a folder with this name in the system's temporary folder, and returns its path.
pub(crate) fn folder(rt: &HostRuntime, name: &str) -> Result<String, Fail> {
    let (temp, number) = (env::temp_dir(rt)?, process::id(rt.process()));
    let path = format!(in rt.alloc(); "{}/log4rs_base_{number}_{name}", temp.as_str())?;
    fs::create_dir(rt, path.as_str())?;
    Ok(path)
}

/// Returns the text of a file in a folder, or `none` if there is no such file.
pub(crate) fn text(rt: &HostRuntime, folder: &str, path: &str) -> Result<String, Fail> {
    let path = path_in(rt.alloc(), folder, path)?;
    match fs::read_to_string(rt, path.as_str()) {
        Ok(text) => Ok(text),
        Err(fault) if fault.kind() == ErrorKind::NotFound => {
            Ok(String::from_str(rt.alloc(), "none")?)
        }
        Err(fault) => Err(Fail::from(fault)),
    }
}

/// Returns files of a folder as `name=text`, each after a space.
fn held(rt: &HostRuntime, folder: &str, names: &str) -> Result<String, Fail> {
    let mut all = String::new(rt.alloc());
    for name in names.split_whitespace() {
        let text = text(rt, folder, name)?;
        write!(all, " {name}={text}")?;
    }
    Ok(all)
}

/// Operations, the names of files, and after the second bar the outcomes, the number of refused
/// operations and the files. First a full device; then a copy, which is made beside its target, and
/// leaves that as it was if it is refused; then a dangling link, which exists and can be renamed.
const CASES: &str = "\
append f;write old;append /dev/full;write abc;len;copy f /dev/full;len;append f;write new|f|ok 3 ok Refused 0 Refused NotOpen ok 3: 3 f=oldnew
append f;write new;append g;write older;dirs g.copying;copy f g;copy f h;rename h.copying h|f g h|ok 3 ok 5 ok Refused ok missing: 1 f=new g=older h=new
rename link no/x;copy link x;rename link other;remove other;remove other|x|Refused Refused moved ok Absent: 3 x=none";

/// Does operations in a folder. Returns the outcomes and the number of refused operations.
fn operated(rt: &HostRuntime, folder: &str, steps: &str) -> Result<String, Fail> {
    let mut store = FsMaker::new(rt.alloc(), rt).make()?;
    let answers = answers(rt.alloc(), folder, &mut store, steps)?;
    let refusals = store.refusals();
    Ok(format!(in rt.alloc(); "{answers}: {refusals}")?)
}

/// Does operations in a folder that has a dangling link. Returns the outcomes, the number of refused
/// operations and files.
fn operated_on(rt: &HostRuntime, folder: &str, steps: &str, names: &str) -> Result<String, Fail> {
    symlink(rt, "nowhere", path_in(rt.alloc(), folder, "link")?.as_str())?;
    let mut operated = operated(rt, folder, steps)?;
    operated.push_str(held(rt, folder, names)?.as_str())?;
    Ok(operated)
}

/// Does operations in a folder of their own. Returns the same.
fn came(rt: &HostRuntime, steps: &str, names: &str) -> Result<String, Fail> {
    let folder = folder(rt, "real_files")?;
    let came = operated_on(rt, folder.as_str(), steps, names)?;
    fs::remove_dir_all(rt, folder.as_str())?;
    Ok(came)
}

#[test]
fn real_files(rt: HostRuntime) -> Result<(), Fail> {
    for line in CASES.lines() {
        let (steps, rest) = cut(line);
        let (names, expected) = cut(rest);
        same(&rt, came(&rt, steps, names)?.as_str(), expected);
    }
    let expected = format!(in rt.alloc(); "{ALIKE_ANSWERS}: 7 c=abcdefg e=abcdefg g=")?;
    same(&rt, came(&rt, ALIKE, "c e g")?.as_str(), expected.as_str());
    Ok(())
}

/// Opens a path, renames it, renames a file to it, copies from it, copies to it, removes it, and
/// creates it as a folder. Returns the outcomes.
fn all_of<S: Store>(
    alloc: Global,
    folder: &str,
    store: &mut S,
    path: &str,
) -> Result<String, Fail> {
    let steps = format!(in alloc;
        "append {path};rename {path} dir/below;rename f {path};copy {path} x;copy f {path};remove {path};dirs {path}"
    )?;
    answers(alloc, folder, store, steps.as_str())
}

const REFUSED: &str = "Refused Refused Refused Refused Refused Refused Refused";

/// Paths, and the outcomes.
const BAD_PATHS: &str = "\
|Refused missing Refused Absent Refused Absent ok
dir|Refused Refused Refused Refused Refused Refused ok
no/x|Refused missing Refused Absent Refused Absent ok
/proc/no|Refused Refused Refused Absent Refused Absent Refused
f/x|Refused Refused Refused Refused Refused Refused Refused
a\0b|Refused Refused Refused Refused Refused Refused Refused";

#[test]
fn bad_paths(rt: HostRuntime) -> Result<(), Fail> {
    let alloc = rt.alloc();
    let folder = folder(&rt, "bad_paths")?;
    let folder = folder.as_str();
    let mut store = FsStore::new(alloc, &rt);
    let begun = answers(
        alloc,
        folder,
        &mut store,
        "dirs dir/below;append f;write old",
    )?;
    same(&rt, begun.as_str(), "ok ok 3");
    for line in BAD_PATHS.lines() {
        let (path, expected) = cut(line);
        same(
            &rt,
            all_of(alloc, folder, &mut store, path)?.as_str(),
            expected,
        );
    }
    let long = "x".repeat(alloc, 300)?;
    same(
        &rt,
        all_of(alloc, folder, &mut store, long.as_str())?.as_str(),
        REFUSED,
    );
    same(&rt, text(&rt, folder, "f")?.as_str(), "old");
    fs::remove_dir_all(&rt, folder)?;
    Ok(())
}

/// What another program does to the file `f` (nothing, its removal, or a text that it writes),
/// operations of the store afterwards, and the outcomes and the file.
const REPLACED: &str = "\
-|append f;write old|ok 3 old
remove|write er;len|2 5 none
another|write !;len|1 6 another
-|append f;write !;len|ok 1 8 another!
cut|write !|1 cut!";

/// Does what another program does to the file `f`.
fn act(rt: &HostRuntime, folder: &str, act: &str) -> Result<(), Fail> {
    let path = path_in(rt.alloc(), folder, "f")?;
    match act {
        "-" => (),
        "remove" => fs::remove_file(rt, path.as_str())?,
        _ => fs::write(rt, path.as_str(), act)?,
    }
    Ok(())
}

/// Does the acts of a line. Returns the outcomes and the file.
fn replaced<S: Store>(
    rt: &HostRuntime,
    folder: &str,
    store: &mut S,
    line: &str,
) -> Result<String, Fail> {
    let (before, rest) = cut(line);
    act(rt, folder, before)?;
    let mut came = answers(rt.alloc(), folder, store, cut(rest).0)?;
    came.push(' ')?;
    came.push_str(text(rt, folder, "f")?.as_str())?;
    Ok(came)
}

/// Does the acts of each line. Returns whether all came as the lines expect.
fn is_replaced<S: Store>(rt: &HostRuntime, folder: &str, store: &mut S) -> Result<bool, Fail> {
    for line in REPLACED.lines() {
        let (_, expected) = cut(cut(line).1);
        if replaced(rt, folder, store, line)?.as_str() != expected {
            return Ok(false);
        }
    }
    Ok(true)
}

#[test]
fn replaced_while_open(rt: HostRuntime) -> Result<(), Fail> {
    let folder = folder(&rt, "replaced")?;
    let mut store = FsStore::new(rt.alloc(), &rt);
    assert!(rt; is_replaced(&rt, folder.as_str(), &mut store)?);
    assert_eq!(rt; store.refusals(), 0);
    fs::remove_dir_all(&rt, folder.as_str())?;
    Ok(())
}

/// Writes take one byte and are interrupted by turns. Returns the outcomes, and then the file.
fn written_shortly(rt: &HostRuntime, folder: &str) -> Result<String, Fail> {
    let mut store = FsStore::new(rt.alloc(), Flaky(rt));
    let steps = "append f;write abc;write bc;write bc;len";
    let mut answers = answers(rt.alloc(), folder, &mut store, steps)?;
    answers.push_str(held(rt, folder, "f")?.as_str())?;
    Ok(answers)
}

#[test]
fn short_and_broken_writes(rt: HostRuntime) -> Result<(), Fail> {
    let folder = folder(&rt, "short")?;
    let came = written_shortly(&rt, folder.as_str())?;
    same(&rt, came.as_str(), "ok 1 Refused 1 2 f=ab");
    fs::remove_dir_all(&rt, folder.as_str())?;
    Ok(())
}
