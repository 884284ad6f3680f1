//! The workloads.

ghost use Rattle.std.specs.Prelude.{◌≡◌, IfSome};
ghost use Rattle.bench.specs.Words.{word_of};

/// The work that is done for each record.
#[derive(Clone, Copy, Debug, PartialEq, Eq)]
pub enum Workload {
    /// Encodes with a date.
    Pattern,
    /// Encodes with a date that has directives.
    PatternDate,
    /// Encodes without a date.
    PatternSimple,
    /// Encodes into columns.
    PatternWidth,
    /// Encodes as a line of JSON.
    Json,
    /// Asks whether a target is enabled.
    Route,
    /// Asks the same under ten times as many loggers.
    RouteMany,
    /// Logs to an appender in memory.
    LogMemory,
    /// Logs to a file.
    File,
    /// Makes a record by a macro, and logs it to a file, through a facade over a logger.
    Facade,
    /// The same, with a number in the message.
    FacadeNumber,
    /// A record without a number, with a date that has directives.
    FacadeDate,
    /// A record without a number, with a message of 100,000 bytes.
    FacadeLong,
    /// Asks by a macro for a record below the level.
    FacadeOff,
    /// Logs to a file that is rolled at a size.
    Rolling,
    /// Appends to a file that is rolled in the background after each record, and makes all moves of
    /// the rolling.
    RollingBackground,
}

impl Workload {
    /// All workloads, in order.
    pub const ALL: [Workload; 16] = [
        Workload::Pattern,
        Workload::PatternDate,
        Workload::PatternSimple,
        Workload::PatternWidth,
        Workload::Json,
        Workload::Route,
        Workload::RouteMany,
        Workload::LogMemory,
        Workload::File,
        Workload::Facade,
        Workload::FacadeNumber,
        Workload::FacadeDate,
        Workload::FacadeLong,
        Workload::FacadeOff,
        Workload::Rolling,
        Workload::RollingBackground,
    ];

    /// Returns the name of the workload.
    pub fn name(self) -> &'static str
        ensures { result.now ≡ word_of self }
    {
        match self {
            Workload::Pattern => "pattern",
            Workload::PatternDate => "pattern-date",
            Workload::PatternSimple => "pattern-simple",
            Workload::PatternWidth => "pattern-width",
            Workload::Json => "json",
            Workload::Route => "route",
            Workload::RouteMany => "route-many",
            Workload::LogMemory => "log-memory",
            Workload::File => "file",
            Workload::Facade => "facade",
            Workload::FacadeNumber => "facade-number",
            Workload::FacadeDate => "facade-date",
            Workload::FacadeLong => "facade-long",
            Workload::FacadeOff => "facade-off",
            Workload::Rolling => "rolling",
            Workload::RollingBackground => "rolling-background",
        }
    }

    /// Returns the workload with this name.
    pub fn named(word: &str) -> Option<Workload>
        ensures { IfSome result (λ workload. word_of workload ≡ word.now) }
    {
        match word {
            "pattern" => Some(Workload::Pattern),
            "pattern-date" => Some(Workload::PatternDate),
            "pattern-simple" => Some(Workload::PatternSimple),
            "pattern-width" => Some(Workload::PatternWidth),
            "json" => Some(Workload::Json),
            "route" => Some(Workload::Route),
            "route-many" => Some(Workload::RouteMany),
            "log-memory" => Some(Workload::LogMemory),
            "file" => Some(Workload::File),
            "facade" => Some(Workload::Facade),
            "facade-number" => Some(Workload::FacadeNumber),
            "facade-date" => Some(Workload::FacadeDate),
            "facade-long" => Some(Workload::FacadeLong),
            "facade-off" => Some(Workload::FacadeOff),
            "rolling" => Some(Workload::Rolling),
            "rolling-background" => Some(Workload::RollingBackground),
            _ => None,
        }
    }

    /// Returns the default pattern of its encoder.
    pub fn pattern(self) -> &'static str {
        match self {
            Workload::Pattern => "{d} {l} {t} - {m}{n}",
            Workload::PatternDate | Workload::FacadeDate =>
                "{d(%Y-%m-%d %H:%M:%S)} {l} {t} - {m}{n}",
            Workload::PatternWidth => "{({l}):<5.5} {t:>30.30} {m}{n}",
            Workload::PatternSimple
            | Workload::Json
            | Workload::Route
            | Workload::RouteMany
            | Workload::LogMemory
            | Workload::File
            | Workload::Facade
            | Workload::FacadeNumber
            | Workload::FacadeLong
            | Workload::FacadeOff
            | Workload::Rolling
            | Workload::RollingBackground => "{l} {t} - {m}{n}",
        }
    }
}
