//! Makers of components from settings, and components of the caller's.

ghost use Rattle.std.specs.Prelude.{◌≡◌, ℕ, List, None, IfOk, OnOk, OnErr, ◌∷◌, ◌++◌, []};
ghost use Rattle.log4rs_settings.specs.Makers.{with_kind, standard};
ghost use Rattle.log4rs_build.specs.Deserializers.{alloc_of, kinds_in, handed_in, handed_of};
ghost use Rattle.log4rs_build.specs.Deserializers.{KeepsMakers, makers_of, part_makers_of};
ghost use Rattle.log4rs_parts.specs.Waits.{no_waits, waits_in, with_part};

use log4rs_append::Append;
use log4rs_base::OutOfMemory;
use log4rs_base::filter::Filter;
use log4rs_encode::Encode;
use log4rs_parts::{Handed, HandedInOf, NamedParts, Once, Refill};
use log4rs_rolling::Trigger;
use log4rs_settings::{Maker, Makers};
use std::alloc::Global;

/// The makers of the kinds of components, and components `P` of the caller's, which `R` makes anew
/// for each further reading. If an appender's settings name a kind without a maker, it takes the
/// earliest component that was handed in under its name, once.
#[derive(Drop)]
pub struct DeserializersWith<P, R> {
    pub(crate) alloc: Global,
    pub(crate) makers: Makers,
    pub(crate) parts: P,
    pub(crate) part_makers: R,
}

/// The makers of the kinds of components, and appenders `A`, filters `F`, encoders `E` and triggers
/// `T` of the caller's, each of which is handed in once.
pub type DeserializersOf<A, F, E, T> = DeserializersWith<Handed<A, F, E, T>, Once>;

/// The makers of the kinds of components, and boxed components of the caller's.
pub type Deserializers = DeserializersOf<
    Box<dyn Append + Send + Sync + Drop>,
    Box<dyn Filter + Send + Sync + Drop>,
    Box<dyn Encode + Send + Sync + Drop>,
    Box<dyn Trigger + Send + Sync + Drop>,
>;

impl<A: Drop, F: Drop, E: Drop, T: Drop> DeserializersOf<A, F, E, T> {
    /// Returns the twelve makers, each under its own kind, and nothing handed in.
    pub fn new(alloc: Global) -> Result<Self, OutOfMemory>
        ensures makers { IfOk result (λ d. (class : List ℕ) (kind : List ℕ) →
            kinds_in d class kind ≡ standard class kind) }
        ensures handed { IfOk result (λ d. handed_in d ≡ no_waits) }
        ensures alloc { IfOk result (λ d. alloc_of d ≡ alloc) }
    {
        Ok(DeserializersWith {
            alloc,
            makers: Makers::new(alloc)?,
            parts: Handed::new(alloc),
            part_makers: Once,
        })
    }

    /// Returns no makers and nothing handed in.
    pub fn empty(alloc: Global) -> Self
        ensures makers { (class : List ℕ) (kind : List ℕ) → kinds_in result class kind ≡ None }
        ensures handed { handed_in result ≡ no_waits }
        ensures alloc { alloc_of result ≡ alloc }
    {
        DeserializersWith {
            alloc,
            makers: Makers::empty(alloc),
            parts: Handed::new(alloc),
            part_makers: Once,
        }
    }
}

impl<P, R> DeserializersWith<P, R> {
    /// Inserts a maker under a kind of its class, and replaces one that is there.
    pub fn insert(&mut self, kind: &str, maker: Maker) -> Result<(), OutOfMemory>
        ensures ok { OnOk result ((class : List ℕ) (name : List ℕ) →
            kinds_in self.new class name ≡ with_kind kind.now maker (kinds_in self.old) class name) }
        ensures err { OnErr result (kinds_in self.new ≡ kinds_in self.old) }
        ensures handed { handed_of self.new ≡ handed_of self.old }
        ensures part_makers { part_makers_of self.new ≡ part_makers_of self.old }
    {
        self.makers.insert(kind, maker)?;
        Ok(())
    }

    /// Returns the allocator that they were made with.
    pub fn alloc(&self) -> Global
        ensures { result ≡ alloc_of self.now }
    {
        self.alloc
    }

    /// Returns the maker of a kind of a class, if there is one.
    pub fn maker(&self, class: &str, kind: &str) -> Option<Maker>
        ensures { result ≡ kinds_in self.now class.now kind.now }
    {
        self.makers.maker(class, kind)
    }
}

impl<P, R: Refill<P>> DeserializersWith<P, R> {
    /// Makes the components of the caller's anew, if there are makers of them, so that there is one
    /// of each maker and nothing else. `load` and `ConfigFile::reread` do this themselves. If an
    /// allocation fails, nothing changes.
    pub fn refill(&mut self) -> Result<(), OutOfMemory>
        ensures ok { OnOk result (R.Refills (part_makers_of self.old) (handed_of self.old)
            (handed_of self.new)) }
        ensures err { OnErr result (self.new ≡ self.old) }
        ensures makers { KeepsMakers self.old self.new }
    {
        self.part_makers.refill(&mut self.parts)
    }
}

impl<A: Drop, F: Drop, E: Drop, T: Drop, R> DeserializersWith<Handed<A, F, E, T>, R> {
    /// Hands in a component for the appender of a name. If an allocation fails, drops it.
    pub fn hand_in(
        &mut self,
        appender_name: &str,
        part: HandedInOf<A, F, E, T>,
    ) -> Result<(), OutOfMemory>
        ensures ok { OnOk result (handed_in self.new
            ≡ with_part appender_name.now part (handed_in self.old)) }
        ensures err { OnErr result (handed_in self.new ≡ handed_in self.old) }
        ensures makers { KeepsMakers self.old self.new }
    {
        self.parts.put(appender_name, part)?;
        Ok(())
    }
}

/// Deserializers that hold one new component of each of these makers at the start of each reading,
/// so that every version of a configuration can have them.
pub type Refilled<A, F, E, T, P> = DeserializersWith<Handed<A, F, E, T>, NamedParts<P>>;

impl<A: Drop, F: Drop, E: Drop, T: Drop, P: Drop> Refilled<A, F, E, T, P> {
    /// Wraps deserializers, without makers of components yet.
    pub fn new(deserializers: DeserializersOf<A, F, E, T>) -> Refilled<A, F, E, T, P>
        ensures makers { makers_of result ≡ [] }
        ensures kinds { kinds_in result ≡ kinds_in deserializers }
        ensures handed { handed_of result ≡ handed_of deserializers }
    {
        let DeserializersWith {
            alloc,
            makers,
            parts,
            part_makers: _,
        } = deserializers;
        DeserializersWith {
            alloc,
            makers,
            parts,
            part_makers: NamedParts::new(alloc),
        }
    }

    /// Adds a maker for the appender of a name. If an allocation fails, drops it. Its first
    /// component is made by the next `refill`.
    pub fn add(&mut self, appender_name: &str, maker: P) -> Result<(), OutOfMemory>
        ensures ok { OnOk result (makers_of self.new
            ≡ makers_of self.old ++ (appender_name.now, maker) ∷ []) }
        ensures err { OnErr result (makers_of self.new ≡ makers_of self.old) }
        ensures kinds { kinds_in self.new ≡ kinds_in self.old }
        ensures handed { handed_of self.new ≡ handed_of self.old }
    {
        self.part_makers.put(appender_name, maker)?;
        Ok(())
    }
}
