//! Files below a folder.

use crate::fault::Fault;
use std::collections::BTreeMap;
use std::fs::{self, Files};

/// Writes texts to files below a folder, and creates the folders that they need.
pub fn write_texts<R: Files + AllocGlobal>(
    rt: &R,
    folder: &str,
    files: &BTreeMap<String, String>,
) -> Result<(), Fault> {
    for (path, text) in files {
        let whole = format!(in rt.alloc(); "{folder}{path}")?;
        if let Some((parent, _)) = whole.rsplit_once('/') {
            fs::create_dir_all(rt, parent)?;
        }
        fs::write(rt, whole.as_str(), text.as_str())?;
    }
    Ok(())
}

/// Returns the texts of all files below a folder, by their paths relative to it.
pub fn texts_below<R: Files + AllocGlobal + Clone + Drop>(
    rt: &R,
    folder: &str,
) -> Result<BTreeMap<String, String>, Fault> {
    let mut found = BTreeMap::new(rt.alloc());
    let mut folders = Vec::new(rt.alloc());
    folders.push(String::from_str(rt.alloc(), folder)?)?;
    for _ in 0..u64::MAX {
        match folders.pop() {
            Some(below) => look_into(rt, folder, below.as_str(), &mut found, &mut folders)?,
            None => break,
        }
    }
    Ok(found)
}

/// Adds the files and the folders of one folder.
fn look_into<R: Files + AllocGlobal + Clone + Drop>(
    rt: &R,
    folder: &str,
    below: &str,
    found: &mut BTreeMap<String, String>,
    folders: &mut Vec<String>,
) -> Result<(), Fault> {
    for entry in fs::read_dir(rt, below)? {
        let entry = entry?;
        let path = format!(in rt.alloc(); "{below}{}", entry.file_name())?;
        if entry.metadata()?.is_dir() {
            folders.push(format!(in rt.alloc(); "{path}/")?)?;
        } else {
            let text = fs::read_to_string(rt, path.as_str())?;
            let name = path.strip_prefix(folder).ok_or(Fault::Malformed)?;
            found.insert(String::from_str(rt.alloc(), name)?, text)?;
        }
    }
    Ok(())
}
