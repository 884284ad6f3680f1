//! Files that one may wait for.

use std::fs::{self, Files};
use std::os::unix::fs::FileTypeExt;

/// Returns whether the file at a path is a FIFO.
///
/// No clause says it, since contracts do not see real files.
pub fn is_fifo<R: Files>(files: &R, path: &str) -> bool {
    match fs::metadata(files, path) {
        Ok(metadata) => metadata.file_type().is_fifo(),
        Err(_) => false,
    }
}
