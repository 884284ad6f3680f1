//! Names of appenders and loggers.

ghost use Rattle.std.specs.Prelude.{◌≡◌, ◌≢◌, ◌<◌, ◌+◌, ◌↔◌, ◌∷◌, [], Bool, IsTrue, IfOk, OnOk, not, length, slice_index, map, string_bytes};
ghost use Rattle.log4rs_base.specs.Text.{Text};
ghost use Rattle.log4rs_config.specs.Name.{is_valid, colon};
ghost use Rattle.log4rs_config.specs.Settings.{is_among};

use log4rs_base::OutOfMemory;
use std::alloc::{AllocError, Global};
use std::collections::BTreeSet;
use std::marker::Model;

/// Has a name.
pub trait Named {
    /// The bytes of its name.
    ghost name: { Self → Text };

    /// Returns the name.
    fn name(&self) -> &str
        ensures { result.now ≡ name self.now };
}

impl Named for String {
    ghost name = { string_bytes };

    fn name(&self) -> &str {
        self.as_str()
    }
}

/// A set of names.
#[derive(Drop)]
pub(crate) struct NameSet<'n> {
    names: BTreeSet<&'n str>,
}

impl<'n> Model for NameSet<'n> {
    ghost use Rattle.std.specs.Prelude.{List, map};
    ghost use Rattle.log4rs_base.specs.Text.{Text};

    ghost Value = { List Text };

    ghost view = { λ s. map (λ k. k.now) s.names.keys };
}

impl<'n> NameSet<'n> {
    pub(crate) fn new(alloc: Global) -> NameSet<'n>
        ensures { result ≡ [] }
    {
        NameSet {
            names: BTreeSet::new(alloc),
        }
    }

    pub(crate) fn contains(&self, name: &str) -> bool
        ensures { result ≡ is_among self.now name.now }
    {
        self.names.contains(name)
    }

    /// Adds a name, and returns whether it is new.
    pub(crate) fn insert(&mut self, name: &'n str) -> Result<bool, OutOfMemory>
        ensures new { IfOk result (λ new. new ≡ not (is_among self.old name.now)) }
        ensures names { OnOk result ((other : Text)
            → is_among self.new other ≡ is_among (name.now ∷ self.old) other) }
    {
        Ok(self.names.insert(name)?)
    }

    /// Returns the names of items.
    pub(crate) fn of<T: Named>(alloc: Global, items: &'n [T]) -> Result<NameSet<'n>, OutOfMemory>
        ensures { IfOk result (λ names. (other : Text)
            → is_among names other ≡ is_among (map T.name items.now) other) }
    {
        let mut names = NameSet::new(alloc);
        for item in items {
            names.insert(item.name())?;
        }
        Ok(names)
    }
}

/// Returns a copy of names.
pub(crate) fn names_again(names: &Vec<String>) -> Result<Vec<String>, AllocError>
    ensures { IfOk result (λ made. map (λ s. string_bytes s) made.items
        ≡ map (λ s. string_bytes s) names.now.items) }
{
    names.clone()
}

/// Returns whether two colons stand at a place, and behind them another byte that is no colon.
fn is_pair(name: &[u8], at: usize) -> bool
    requires { at < length name.now }
    ensures { IsTrue result ↔ (at + 2 < length name.now) × (slice_index name.now at ≡ colon)
        × (slice_index name.now (at + 1) ≡ colon) × (slice_index name.now (at + 2) ≢ colon) }
{
    at + 2 < name.len() && name[at] == b':' && name[at + 1] == b':' && name[at + 2] != b':'
}

/// Returns whether a logger may have this name: it is not empty, each run of colons has length two,
/// and it does not end in a colon.
pub fn is_valid_logger_name(name: &str) -> bool
    ensures { result ≡ is_valid name.now }
{
    let bytes = name.as_bytes();
    let mut i = 0;
    while i < bytes.len() {
        if bytes[i] != b':' {
            i += 1;
        } else if is_pair(bytes, i) {
            i += 2;
        } else {
            return false;
        }
    }
    !bytes.is_empty()
}
