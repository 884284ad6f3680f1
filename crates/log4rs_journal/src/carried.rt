//! Ghost entries.

ghost use Rattle.std.specs.Prelude.{◌≡◌};
ghost use base.Fml.{ftrue};
ghost use Rattle.log4rs_base.specs.declared.record.Entry.{Entry};
ghost use Rattle.log4rs_journal.specs.Codes.{entry_coded};

use log4rs_base::{Context, Record};
use std::marker::{Model, PhantomData};

/// A record and its context, visible to contracts. A ghost value without bytes, so that a text in a
/// shared journal carries its entry without a copy.
pub(crate) struct Carried {
    marker: PhantomData<()>,
    pub(crate) ghost entry: { Entry } by { entry_coded },
}

impl Model for Carried {
    ghost also_owns = { λ _. ftrue };
}

impl Carried {
    /// Returns this record and this context.
    pub(crate) fn of(logged: &Record, context: &Context<'_>) -> Carried
        ensures { result.entry ≡ record { logged = logged.now; context = context.now } }
    {
        let _ = logged;
        let _ = context;
        Carried {
            marker: PhantomData,
        }
    }
}

impl Drop for Carried {
    fn drop(self) {
        let Self { marker: _ } = self;
    }
}

// It owns nothing, and nothing can be changed through it: any thread may have or share it.
unsafe impl Send for Carried {}

unsafe impl Sync for Carried {}
