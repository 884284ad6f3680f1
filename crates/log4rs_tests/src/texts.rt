use crate::setup::same;
use log4rs::append::rolling_file::OpeningError;
use log4rs::config::file::{ReloadError, SourceError};
use log4rs::{CoreError, FileError, OpenError, SessionError, SwapError};
use std::alloc::{AllocError, Global};
use std::test::Fail;

const TEXTS: &str = "\
no place for a session; too many swaps; the publisher was ended; \
the source refused; the source does not tell whether its text has changed; \
the text of the configuration cannot be read; the text is no configuration; \
out of memory; some appenders failed; the settings are refused; no thread can be started";

/// Returns the texts of errors of publishers and their sessions, of sources and reloads, of
/// deliveries, of settings and of threads.
fn texts(alloc: Global) -> Result<String, AllocError> {
    let (open, swap, closed) = (OpenError::NoReader, SwapError::Full, SessionError::Closed);
    let (modified, read) = (ReloadError::Modified, ReloadError::Read);
    let (source, parse) = (SourceError::Refused, ReloadError::Parse);
    let (memory, failed) = (CoreError::Memory, CoreError::Appenders(Vec::new(alloc)));
    let (settings, thread) = (OpeningError::Settings, FileError::Thread);
    format!(in alloc;
        "{open}; {swap}; {closed}; {source}; {modified}; {read}; {parse}; {memory}; {failed}; {settings}; {thread}"
    )
}

#[test]
fn errors(rt: HostRuntime) -> Result<(), Fail> {
    same(&rt, texts(rt.alloc())?.as_str(), TEXTS);
    Ok(())
}
