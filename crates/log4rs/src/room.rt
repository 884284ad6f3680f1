//! Room for drafts of entries.

use jiff::Timestamp;
use jiff::tz::TimeZone;
use log::Level;
use log4rs_base::{Context, Entry, Record};
use log4rs_threads::Draft;
use std::alloc::{AllocError, Global};
use std::sync::{Mutex, MutexGuard};

/// The draft of the last record, whose memory the next one takes over. A clone is a room of its own.
#[derive(Drop)]
pub(crate) struct Room<'z> {
    alloc: Global,
    draft: Mutex<Draft<'z>>,
}

impl<'z> Room<'z> {
    /// Creates a room. Allocates nothing.
    pub(crate) fn new(alloc: Global) -> Room<'z> {
        Room {
            alloc,
            draft: Mutex::new(empty(alloc)),
        }
    }

    /// Returns the draft, or `None` if it is in use. Waits for nobody.
    pub(crate) fn enter(&self) -> Option<MutexGuard<'_, Draft<'z>>> {
        self.draft.try_lock()
    }
}

impl<'z> Clone for Room<'z> {
    fn clone(&self) -> Result<Room<'z>, AllocError> {
        Ok(Room::new(self.alloc))
    }
}

/// Returns a draft of an entry without texts. Allocates nothing.
pub(crate) fn empty<'z>(alloc: Global) -> Draft<'z> {
    let first = Entry {
        logged: Record::new(Level::Error, String::new(alloc), String::new(alloc)),
        context: Context::new(alloc, Timestamp::UNIX_EPOCH, TimeZone::UTC),
    };
    Draft::new(alloc, first)
}
