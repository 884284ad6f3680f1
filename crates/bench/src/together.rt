//! The workloads of threads.

ghost use Rattle.std.specs.Prelude.{◌≡◌, IfSome};
ghost use Rattle.bench.specs.Words.{word_together};

/// What threads do at once.
#[derive(Clone, Copy, Debug, Drop, PartialEq, Eq)]
pub enum Together {
    /// Each logs its record to one appender in memory.
    Memory,
    /// Each logs its record to one file.
    File,
    /// Each logs its record to a file of its own.
    Files,
    /// Each logs by a macro, through a facade of its own, to one file.
    Facade,
    /// Each logs by a macro, through a facade of its own, to a file of its own.
    FacadeFiles,
}

impl Together {
    /// All workloads of threads, in order.
    pub const ALL: [Together; 5] = [
        Together::Memory,
        Together::File,
        Together::Files,
        Together::Facade,
        Together::FacadeFiles,
    ];

    /// Returns the name of the workload.
    pub fn name(self) -> &'static str
        ensures { result.now ≡ word_together self }
    {
        match self {
            Together::Memory => "threads",
            Together::File => "threads-file",
            Together::Files => "threads-files",
            Together::Facade => "threads-facade",
            Together::FacadeFiles => "threads-facade-files",
        }
    }

    /// Returns the workload with this name.
    pub fn named(word: &str) -> Option<Together>
        ensures { IfSome result (λ together. word_together together ≡ word.now) }
    {
        match word {
            "threads" => Some(Together::Memory),
            "threads-file" => Some(Together::File),
            "threads-files" => Some(Together::Files),
            "threads-facade" => Some(Together::Facade),
            "threads-facade-files" => Some(Together::FacadeFiles),
            _ => None,
        }
    }

    /// Returns whether a macro makes each record.
    pub fn is_by_macro(self) -> bool {
        matches!(self, Together::Facade | Together::FacadeFiles)
    }
}
