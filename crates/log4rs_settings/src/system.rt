//! The system's time zone.

ghost use Rattle.std.specs.Prelude.{◌≡◌, ◌≢◌, IfErr, IfOk, None};
ghost use Rattle.jiff.specs.ZoneView.{plain_zone};
ghost use Rattle.jiff_core.specs.declared.error.Error.TheVariants.{OutOfMemory as NoMemory};
ghost use Rattle.jiff_tz.specs.declared.timezone.TimeZone.TheVariants.{UTC};

use jiff::tz::TimeZone;
use jiff_core::Error as ZoneError;
use jiff_tz::{SystemTimeZone, TimeZoneDatabase};
use log4rs_base::OutOfMemory;
use std::alloc::Global;
use std::env::{self, VarError};
use std::fs::{self, Files};
use std::io::Read;
use std::rt::Env;
use thiserror::Error;

/// Where systems keep the zones of the Time Zone Database.
const FOLDERS: [&str; 3] = [
    "/usr/share/zoneinfo",
    "/usr/share/lib/zoneinfo",
    "/etc/zoneinfo",
];

/// The maximum size in bytes of a file that is read as a zone. Those of the Time Zone Database have
/// a few thousand.
const MOST_BYTES: u64 = 1 << 20;

/// Reasons to show times in UTC and not in the system's zone.
#[derive(Debug, Drop, PartialEq, Eq, Error)]
pub enum ZoneFault {
    /// The variable `TZ` has this value, which names no readable zone.
    #[error("TZ={value}: {cause}: times are shown in UTC")]
    Variable { value: String, cause: ZoneError },
    /// The value of `TZ` is not UTF-8.
    #[error("TZ is not UTF-8: times are shown in UTC")]
    NotText,
    /// There is no `TZ`, and the system's own zone file cannot be read.
    #[error("/etc/localtime: {0}: times are shown in UTC")]
    File(ZoneError),
}

/// The system's time zone, or UTC with the fault.
#[derive(Drop)]
pub struct SystemZone {
    /// The zone.
    pub zone: TimeZone<'static>,
    /// The fault for which it is UTC.
    pub fault: Option<ZoneFault>,
}

/// Reads the zone that the variable `TZ` names, or, without `TZ`, that of the file
/// `/etc/localtime`.
///
/// `TZ` is empty for UTC, a rule such as `CET-1CEST,M3.5.0,M10.5.0/3`, a name of the Time Zone
/// Database such as `Europe/Berlin`, or the path of a file, with or without a colon before it. A
/// name is looked up, as it is spelled, below the folder in `TZDIR` and then below the folders
/// where systems keep their zones. So one or two files are read, and not the whole database.
///
/// The zone is never freed: a program reads it once, as it starts.
pub fn system_zone<X: Env + Files>(rt: &X, alloc: Global) -> Result<SystemZone, OutOfMemory>
    ensures { IfOk result (λ told. told.fault ≢ None → plain_zone told.zone ≡ UTC) }
{
    let rt = (rt, alloc);
    match read_zone(&rt) {
        Ok(zone) => Ok(SystemZone { zone, fault: None }),
        Err(ZoneError::OutOfMemory) => Err(OutOfMemory),
        Err(cause) => Ok(SystemZone {
            zone: TimeZone::UTC,
            fault: Some(fault_of(&rt, cause)?),
        }),
    }
}

/// Returns the cause of a fault of the zone.
fn fault_of<R: Env + AllocGlobal>(rt: &R, cause: ZoneError) -> Result<ZoneFault, OutOfMemory> {
    match env::var(rt, "TZ") {
        Ok(value) => Ok(ZoneFault::Variable { value, cause }),
        Err(VarError::NotPresent) => Ok(ZoneFault::File(cause)),
        Err(VarError::NotUnicode) => Ok(ZoneFault::NotText),
        Err(VarError::OutOfMemory) => Err(OutOfMemory),
    }
}

/// Reads the system's zone, and keeps it as long as the program runs.
fn read_zone<R: Env + Files + AllocGlobal>(rt: &R) -> Result<TimeZone<'static>, ZoneError> {
    let system = SystemTimeZone::read(rt)?;
    let database = database_of(rt, &system)?;
    let system = Box::leak(Box::new(rt.alloc(), system)?);
    let database = Box::leak(Box::new(rt.alloc(), database)?);
    Ok(TimeZone::from_plain(system.time_zone(database)?))
}

/// Builds a database of only the zones that the system names.
fn database_of<R: Env + Files + AllocGlobal>(
    rt: &R,
    system: &SystemTimeZone,
) -> Result<TimeZoneDatabase, ZoneError> {
    let mut database = TimeZoneDatabase::new(rt.alloc());
    if let SystemTimeZone::Name { name, link, .. } = system {
        find(rt, &mut database, name.as_str())?;
        if let Some(link) = link {
            find(rt, &mut database, link.as_str())?;
        }
    }
    Ok(database)
}

/// Adds the zone of a name, from the first folder that has it.
fn find<R: Env + Files + AllocGlobal>(
    rt: &R,
    database: &mut TimeZoneDatabase,
    name: &str,
) -> Result<(), ZoneError>
    ensures { IfErr result (λ cause. cause ≡ NoMemory) }
{
    match env::var(rt, "TZDIR") {
        Ok(folder) => {
            if is_found(add(rt, database, folder.as_str(), name))? {
                return Ok(());
            }
        }
        Err(VarError::OutOfMemory) => return Err(ZoneError::OutOfMemory),
        Err(_) => {}
    }
    for folder in &FOLDERS {
        if is_found(add(rt, database, folder, name))? {
            return Ok(());
        }
    }
    Ok(())
}

/// Returns whether a zone was added. Fails only if an allocation fails.
fn is_found(added: Result<(), ZoneError>) -> Result<bool, ZoneError>
    ensures { IfErr result (λ cause. cause ≡ NoMemory) }
{
    match added {
        Ok(()) => Ok(true),
        Err(ZoneError::OutOfMemory) => Err(ZoneError::OutOfMemory),
        Err(_) => Ok(false),
    }
}

/// Adds the zone of a name from the file of that name in a folder.
fn add<R: Files + AllocGlobal>(
    rt: &R,
    database: &mut TimeZoneDatabase,
    folder: &str,
    name: &str,
) -> Result<(), ZoneError> {
    let path = format!(in rt.alloc(); "{folder}/{name}")?;
    let bytes = read_file(rt, path.as_str())?;
    database.insert(name, bytes.as_slice())
}

/// Reads the beginning of a file. Fails on what is no regular file, since a pipe may never end.
fn read_file<R: Files + AllocGlobal>(rt: &R, path: &str) -> Result<Vec<u8>, ZoneError> {
    if !fs::metadata(rt, path)?.is_file() {
        return Err(ZoneError::TimeZoneNotFound);
    }
    let mut bytes = Vec::new(rt.alloc());
    let mut file = fs::open(rt, path)?.take(MOST_BYTES);
    file.read_to_end(&mut bytes)?;
    Ok(bytes)
}
