//! The readers of each kind's settings.
ghost use Rattle.std.specs.Prelude.{◌≡◌, ℕ, List, None, IfOk, OnOk, OnErr};
ghost use Rattle.log4rs_settings.specs.Makers.{class_of, with_kind, standard};

use log4rs_base::OutOfMemory;
use std::alloc::Global;

/// Reads the settings of a kind.
#[derive(Clone, Copy)]
pub enum Maker {
    /// Appenders to standard output or standard error.
    Console,
    /// Appenders to files.
    File,
    /// Appenders to rolled files.
    RollingFile,
    /// Policies of a trigger and a roller.
    Compound,
    /// Triggers that look at the length of the file.
    Size,
    /// Triggers that look at the clock.
    Time,
    /// Triggers that roll once, at the beginning.
    OnStartUp,
    /// Rollers that remove the file.
    Delete,
    /// Rollers that keep a window of archives.
    FixedWindow,
    /// Encoders with a pattern.
    Pattern,
    /// Encoders of JSON.
    Json,
    /// Filters by a level.
    Threshold,
}

impl Maker {
    /// Returns the name of the class of the components that it makes.
    pub fn class(self) -> &'static str
        ensures { result.now ≡ class_of self }
    {
        match self {
            Maker::Console | Maker::File | Maker::RollingFile => "appender",
            Maker::Compound => "policy",
            Maker::Size | Maker::Time | Maker::OnStartUp => "trigger",
            Maker::Delete | Maker::FixedWindow => "roller",
            Maker::Pattern | Maker::Json => "encoder",
            Maker::Threshold => "filter",
        }
    }
}

/// A kind and its maker.
#[derive(Drop)]
struct Entry {
    kind: String,
    maker: Maker,
}

/// Makers by class and kind.
#[derive(Drop)]
pub struct Makers {
    // The first of a class and kind counts.
    entries: Vec<Entry>,
}

impl Makers {
    ghost use Rattle.log4rs_settings.specs.MakersView.{kinds};

    /// Returns no makers.
    pub fn empty(alloc: Global) -> Makers
        ensures { (class : List ℕ) (kind : List ℕ) → kinds result class kind ≡ None }
    {
        Makers {
            entries: Vec::new(alloc),
        }
    }

    /// Returns the twelve makers, each under its own kind.
    pub fn new(alloc: Global) -> Result<Makers, OutOfMemory>
        ensures { IfOk result (λ makers. (class : List ℕ) (kind : List ℕ) →
            kinds makers class kind ≡ standard class kind) }
    {
        let mut makers = Makers::empty(alloc);
        makers.insert("console", Maker::Console)?;
        makers.insert("file", Maker::File)?;
        makers.insert("rolling_file", Maker::RollingFile)?;
        makers.insert("compound", Maker::Compound)?;
        makers.insert("size", Maker::Size)?;
        makers.insert("time", Maker::Time)?;
        makers.insert("onstartup", Maker::OnStartUp)?;
        makers.insert("delete", Maker::Delete)?;
        makers.insert("fixed_window", Maker::FixedWindow)?;
        makers.insert("pattern", Maker::Pattern)?;
        makers.insert("json", Maker::Json)?;
        makers.insert("threshold", Maker::Threshold)?;
        Ok(makers)
    }

    /// Inserts a maker under a kind of its class, and replaces one that is there.
    pub fn insert(&mut self, kind: &str, maker: Maker) -> Result<(), OutOfMemory>
        ensures ok { OnOk result ((class : List ℕ) (name : List ℕ) →
            kinds self.new class name ≡ with_kind kind.now maker (kinds self.old) class name) }
        ensures err { OnErr result (kinds self.new ≡ kinds self.old) }
    {
        let kind = String::from_str(*self.entries.allocator(), kind)?;
        self.entries.insert(0, Entry { kind, maker })?;
        Ok(())
    }

    /// Returns the maker of a kind of a class, if there is one.
    pub fn maker(&self, class: &str, kind: &str) -> Option<Maker>
        ensures { result ≡ kinds self.now class.now kind.now }
    {
        self.entries
            .iter()
            .find(|entry| entry.maker.class() == class && entry.kind.as_str() == kind)
            .map(|entry| entry.maker)
    }
}
