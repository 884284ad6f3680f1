//! The time zone of the system.

use crate::setup::{folder, same};
use jiff::Timestamp;
use jiff::tz::TimeZone;
use log4rs_build::system_zone;
use std::alloc::{AllocError, Allocator, Global};
use std::env::FillError;
use std::fs::{self, Files, Metadata, OpenOptions};
use std::io::{self, ErrorKind};
use std::path::PathBuf;
use std::rt::Env;
use std::str::from_utf8;
use std::test::Fail;

/// A process whose root is a folder below another, and which has this value of `TZ`.
#[derive(Drop)]
struct Rooted<'a> {
    rt: HostRuntime,
    all: &'a str,
    folder: &'a str,
    zone: Option<&'a [u8]>,
}

impl Rooted<'_> {
    /// Returns the real path of a file.
    fn at(&self, path: &str) -> io::Result<String> {
        let slash = if path.starts_with('/') { "" } else { "/" };
        match format!(in self.rt.alloc(); "{}/{}{slash}{path}", self.all, self.folder) {
            Ok(path) => Ok(path),
            Err(_) => Err(io::Error::from(ErrorKind::OutOfMemory)),
        }
    }
}

impl Env for Rooted<'_> {
    fn arg(&self, _: usize, _: &mut [u8]) -> Result<usize, FillError> {
        Err(FillError::NotPresent)
    }

    fn var(&self, name: &str, buf: &mut [u8]) -> Result<usize, FillError> {
        let value = match name {
            "TZ" => self.zone.ok_or(FillError::NotPresent)?,
            "TZDIR" => b"/own",
            _ => return Err(FillError::NotPresent),
        };
        let room = buf.get_mut(..value.len()).ok_or(FillError::TooLong)?;
        room.copy_from_slice(value);
        Ok(value.len().min(buf.len()))
    }

    fn var_at(&self, _: usize, _: &mut [u8]) -> Result<usize, FillError> {
        Err(FillError::NotPresent)
    }
}

impl Files for Rooted<'_> {
    type File = fs::File;

    type Dir = <HostRuntime as Files>::Dir;

    fn open_file(&self, how: &OpenOptions, path: &str) -> io::Result<fs::File> {
        self.rt.open_file(how, self.at(path)?.as_str())
    }

    fn open_dir(&self, path: &str) -> io::Result<Self::Dir> {
        self.rt.open_dir(self.at(path)?.as_str())
    }

    fn metadata(&self, path: &str) -> io::Result<Metadata> {
        self.rt.metadata(self.at(path)?.as_str())
    }

    fn symlink_metadata(&self, path: &str) -> io::Result<Metadata> {
        self.rt.symlink_metadata(self.at(path)?.as_str())
    }

    fn copy(&self, _: &str, _: &str) -> io::Result<u64> {
        Err(io::Error::from(ErrorKind::Unsupported))
    }

    fn rename(&self, _: &str, _: &str) -> io::Result<()> {
        Err(io::Error::from(ErrorKind::Unsupported))
    }

    fn remove_file(&self, _: &str) -> io::Result<()> {
        Err(io::Error::from(ErrorKind::Unsupported))
    }

    fn create_dir(&self, _: &str) -> io::Result<()> {
        Err(io::Error::from(ErrorKind::Unsupported))
    }

    fn remove_dir(&self, _: &str) -> io::Result<()> {
        Err(io::Error::from(ErrorKind::Unsupported))
    }

    fn remove_dir_all<B: Allocator>(&self, _: B, _: &str) -> io::Result<()> {
        Err(io::Error::from(ErrorKind::Unsupported))
    }

    fn read_link<B: Allocator>(&self, alloc: B, path: &str) -> io::Result<PathBuf<B>> {
        self.rt.read_link(alloc, self.at(path)?.as_str())
    }
}

/// One half of a time zone file that is always 5:30 hours ahead of UTC: the header, the counts, one
/// local time type and its name.
const HALF: &[u8] = b"TZif2\0\0\0\0\0\0\0\0\0\0\0\0\0\0\0\
    \0\0\0\0\0\0\0\0\0\0\0\0\0\0\0\0\0\0\0\x01\0\0\0\x04\
    \0\0\x4D\x58\0\0IST\0";

/// The folder that is the root of a process, and its `TZ`, where `-` is none. After a bar follow
/// noon in UTC of a day in January and of one in July, and the fault if there is one.
const ZONES: &[u8] = b"\
    bare||12:00 +0000 12:00 +0000
    bare|CET-1CEST,M3.5.0,M10.5.0/3|13:00 +0100 14:00 +0200
    bare|EST5|07:00 -0500 07:00 -0500
    bare|:EST5|12:00 +0000 12:00 +0000, TZ=:EST5: the time zone is not in the database: times are shown in UTC
    bare|UTC|12:00 +0000 12:00 +0000
    bare|Made/Here|12:00 +0000 12:00 +0000, TZ=Made/Here: the time zone is not in the database: times are shown in UTC
    bare|/none|12:00 +0000 12:00 +0000, TZ=/none: entity not found: times are shown in UTC
    bare|\xFF|12:00 +0000 12:00 +0000, TZ is not UTF-8: times are shown in UTC
    bare|-|12:00 +0000 12:00 +0000, /etc/localtime: entity not found: times are shown in UTC
    full|Made/Here|17:30 +0530 17:30 +0530
    full|:Made/Here|17:30 +0530 17:30 +0530
    full|Own|17:30 +0530 17:30 +0530
    full|/own/Own|17:30 +0530 17:30 +0530
    full|:/own/Own|17:30 +0530 17:30 +0530
    full|Bad|12:00 +0000 12:00 +0000, TZ=Bad: the time zone is not in the database: times are shown in UTC
    full|/own/Bad|12:00 +0000 12:00 +0000, TZ=/own/Bad: invalid TZif data: the data is cut short: times are shown in UTC
    full|-|17:30 +0530 17:30 +0530
    linked|-|17:30 +0530 17:30 +0530";

/// Folders and files: whether a file holds the whole of the zone, the beginning of it, or nothing
/// and is a link to the name of a zone.
const FILES: &str = "\
    bare|none|
    full/usr/share/zoneinfo/Made|whole|Here
    full/own|whole|Own
    full/own|begun|Bad
    full/etc|whole|localtime
    linked/own/Made|whole|Here
    linked/etc|link|localtime";

/// Returns the bytes of a time zone file.
fn zone_file(alloc: Global) -> Result<Vec<u8>, AllocError> {
    let mut zone = Vec::new(alloc);
    for part in [HALF, HALF, b"\nIST-5:30\n"] {
        zone.extend_from_slice(part)?;
    }
    Ok(zone)
}

/// Creates the folder and the file of a row.
fn put(rt: &HostRuntime, root: &str, row: &str, zone: &[u8]) -> Result<(), Fail> {
    let (below, rest) = row.trim_start().split_once('|').unwrap_or_default();
    let (kind, name) = rest.split_once('|').unwrap_or_default();
    let folder = format!(in rt.alloc(); "{root}/{below}")?;
    let file = format!(in rt.alloc(); "{root}/{below}/{name}")?;
    fs::create_dir_all(rt, folder.as_str())?;
    match kind {
        "whole" => fs::write(rt, file.as_str(), zone)?,
        "begun" => fs::write(rt, file.as_str(), &HALF[..50])?,
        "link" => rt.symlink("/usr/share/zoneinfo/Made/Here", file.as_str())?,
        _ => (),
    }
    Ok(())
}

/// Creates the folders of the table: `bare` without files, `full` with zones and `/etc/localtime`,
/// and `linked` whose `/etc/localtime` is a link to a zone's name.
fn furnish(rt: &HostRuntime, root: &str) -> Result<(), Fail> {
    let zone = zone_file(rt.alloc())?;
    for row in FILES.lines() {
        put(rt, root, row, &zone)?;
    }
    Ok(())
}

/// Returns the times of January and July in a zone.
fn times(alloc: Global, zone: &TimeZone<'static>) -> Result<String, Fail> {
    let mut text = String::new(alloc);
    for second in [1704110400, 1719835200] {
        let moment = Timestamp::from_second(second)?.to_zoned(*zone);
        text.push_str(moment.strftime(alloc, "%H:%M %z ")?.as_str())?;
    }
    Ok(text)
}

/// Returns two moments in the zone of a process, and the fault if there is one.
fn show(alloc: Global, process: &Rooted<'_>) -> Result<String, Fail> {
    let system = system_zone(process, alloc)?;
    let times = times(alloc, &system.zone)?;
    match &system.fault {
        Some(fault) => Ok(format!(in alloc; "{}, {fault}", times.as_str().trim_end())?),
        None => Ok(String::from_str(alloc, times.as_str().trim_end())?),
    }
}

/// Returns the process of a row below a folder, and what the row expects.
fn process_of<'a>(
    rt: HostRuntime,
    all: &'a str,
    row: &'a [u8],
) -> Result<(Rooted<'a>, &'a str), Fail> {
    let mut parts = row.trim_ascii_start().split(|byte| *byte == b'|');
    let folder = from_utf8(parts.next().unwrap_or_default())?;
    let zone = parts.next().filter(|zone| *zone != b"-".as_slice());
    let expected = from_utf8(parts.next().unwrap_or_default())?;
    Ok((
        Rooted {
            rt,
            all,
            folder,
            zone,
        },
        expected,
    ))
}

#[test]
fn zones_of_systems(rt: HostRuntime) -> Result<(), Fail> {
    let alloc = rt.alloc();
    let all = folder(&rt, "zones")?;
    furnish(&rt, all.as_str())?;
    for row in ZONES.split(|byte| *byte == b'\n') {
        let (process, expected) = process_of(rt, all.as_str(), row)?;
        same(&rt, show(alloc, &process)?.as_str(), expected);
    }
    fs::remove_dir_all(&rt, all.as_str())?;
    Ok(())
}
