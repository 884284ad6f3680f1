//! Reports of appenders' faults.

ghost use Rattle.std.specs.Prelude.{◌<◌, ◌≤◌};

use log4rs_base::print::{AppenderFault, print_counted, print_fault};
use log4rs_base::{LogError, OutOfMemory};
use std::alloc::Global;
use std::fmt::{self, Display, Formatter};
use std::sync::atomic::{AtomicU64, Ordering};

/// Receives each fault.
pub trait ReportFault {
    /// Reports a fault.
    fn report(&self, fault: &LogError);
}

/// A caller's handler, which may be called at any time and from any thread.
#[derive(Drop)]
pub struct Handler {
    call: Box<dyn Fn(&LogError) + Send + Sync + Drop>,
    ghost callable: { IsAlwaysCallable call },
}

impl Handler {
    /// Creates a handler that calls a function with each fault.
    pub fn new(call: Box<dyn Fn(&LogError) + Send + Sync + Drop>) -> Handler
        requires { IsAlwaysCallable call }
    {
        Handler { call }
    }
}

impl ReportFault for Handler {
    fn report(&self, fault: &LogError) {
        (self.call)(fault);
    }
}

/// The handler type of callers that have none. It has no value that is used; its call would do
/// nothing.
#[derive(Drop)]
pub struct NoHandler;

impl ReportFault for NoHandler {
    fn report(&self, _: &LogError) {}
}

/// The code of success.
const WORKS: u64 = 0;

const STORE: u64 = 1;

const MEMORY: u64 = 2;

const POLICY: u64 = 3;

/// The least code of a fault with a text of its own.
const CUSTOM: u64 = 4;

/// Returns a number above `WORKS` for a fault. Faults with texts of their own get the same number
/// if their texts are equal, and almost never otherwise.
fn code_of(fault: &LogError) -> u64
    ensures { WORKS < result }
{
    match fault {
        LogError::Store => STORE,
        LogError::Memory => MEMORY,
        LogError::Policy => POLICY,
        LogError::Custom(text) => hash_of(text.as_bytes()).max(CUSTOM),
    }
}

/// Returns the 64-bit FNV-1a hash of a text.
fn hash_of(bytes: &[u8]) -> u64 {
    let mut hash: u64 = 0xcbf2_9ce4_8422_2325;
    for byte in bytes {
        hash = (hash ^ u64::from(*byte)).wrapping_mul(0x0000_0100_0000_01b3);
    }
    hash
}

/// The code of the last report about one kind of an appender's work: that of a fault, or `WORKS`;
/// how many faults were news so far; how many there were; and how many of these were told again once
/// the work succeeded.
#[derive(Drop)]
pub(crate) struct LastReported {
    code: AtomicU64,
    news: AtomicU64,
    faults: AtomicU64,
    told: AtomicU64,
}

impl LastReported {
    fn new() -> LastReported {
        LastReported {
            code: AtomicU64::new(WORKS),
            news: AtomicU64::new(0),
            faults: AtomicU64::new(0),
            told: AtomicU64::new(0),
        }
    }

    /// Notes that the work succeeded, and returns whether it had failed before. Writes nothing if it
    /// succeeded before.
    pub(crate) fn clear(&self) -> bool {
        let has_failed = self.code.load(Ordering::SeqCst) != WORKS;
        if has_failed {
            self.code.store(WORKS, Ordering::SeqCst);
        }
        has_failed
    }

    /// Returns the number of faults.
    pub(crate) fn faults(&self) -> u64 {
        self.faults.load(Ordering::SeqCst)
    }

    /// Returns how many faults there were since the last call, if the work succeeded since then.
    fn recovered(&self) -> Option<u64> {
        let faults = self.faults();
        if self.told.load(Ordering::SeqCst) == faults || self.code.load(Ordering::SeqCst) != WORKS {
            return None;
        }
        let before = self.told.swap(faults, Ordering::SeqCst);
        faults.checked_sub(before)
    }

    /// Notes a fault. If it differs from the last report, returns its number among those that did.
    fn news(&self, fault: &LogError) -> Option<u64> {
        let code = code_of(fault);
        self.faults.fetch_add(1, Ordering::SeqCst);
        if self.code.swap(code, Ordering::SeqCst) == code {
            return None;
        }
        let before = self.news.fetch_add(1, Ordering::SeqCst);
        Some(before.saturating_add(1))
    }
}

/// The last reports about an appender.
#[derive(Drop)]
pub(crate) struct AppenderReports {
    pub(crate) appends: LastReported,
    /// About its steps, and about finishing its work.
    pub(crate) steps: LastReported,
}

impl AppenderReports {
    fn new() -> AppenderReports {
        AppenderReports {
            appends: LastReported::new(),
            steps: LastReported::new(),
        }
    }
}

/// The kind of an appender's work that failed.
#[derive(Clone, Copy)]
pub(crate) enum Failed {
    Append,
    /// A step, or finishing all background work.
    Step,
}

/// Receives a configuration's faults.
#[derive(Drop)]
pub(crate) enum Reporter<H> {
    /// A caller's handler, which gets each fault.
    Handler(H),
    /// Standard error. A fault is printed once, until the same work of the appender fails otherwise
    /// or succeeds again; after ten such lines only the 20th, 40th, 80th and so on.
    Printer(Vec<AppenderReports>),
}

impl<H: Drop> Reporter<H> {
    /// Returns the handler; if there is none, a printer of the faults of `appenders` appenders.
    pub(crate) fn new(
        alloc: Global,
        handler: Option<H>,
        appenders: usize,
    ) -> Result<Reporter<H>, OutOfMemory> {
        match handler {
            Some(handler) => Ok(Reporter::Handler(handler)),
            None => {
                let mut told = Vec::with_capacity(alloc, appenders)?;
                for _ in 0..appenders {
                    told.push(AppenderReports::new())?;
                }
                Ok(Reporter::Printer(told))
            }
        }
    }
}

/// An appender whose appends work again.
#[derive(Drop)]
struct Recovered<'a> {
    name: &'a str,
    /// How many failed before.
    faults: u64,
}

impl Display for Recovered<'_> {
    fn fmt<W: fmt::Write>(&self, f: &mut Formatter<W>) -> fmt::Result {
        let (name, faults) = (self.name, self.faults);
        write!(
            f,
            "appender {name} works again: {faults} {} failed",
            appends(faults)
        )
    }
}

/// The number of an appender's failed appends.
#[derive(Drop)]
struct Lost<'a> {
    name: &'a str,
    faults: u64,
}

impl Display for Lost<'_> {
    fn fmt<W: fmt::Write>(&self, f: &mut Formatter<W>) -> fmt::Result {
        let (name, faults) = (self.name, self.faults);
        write!(f, "appender {name}: {faults} {} failed", appends(faults))
    }
}

/// Returns what a number of appends is called.
fn appends(count: u64) -> &'static str {
    if count == 1 { "append" } else { "appends" }
}

impl AppenderReports {
    /// Prints how many appends failed, if they work again and that was not printed. Their lines are
    /// left out as those of their faults are.
    pub(crate) fn print_recovery<R: Eprint>(&self, rt: &R, name: &str) {
        if let Some(faults) = self.appends.recovered() {
            let number = self.appends.news.load(Ordering::SeqCst);
            print_counted(rt, number, &Recovered { name, faults });
        }
    }

    /// Prints how many appends failed, if some did.
    pub(crate) fn print_losses<R: Eprint>(&self, rt: &R, name: &str) {
        let faults = self.appends.faults();
        if faults > 0 {
            print_fault(rt, &Lost { name, faults });
        }
    }
}

impl<H> Reporter<H> {
    /// Returns the last reports about each appender: none if a handler gets each fault.
    pub(crate) fn told(&self) -> &[AppenderReports] {
        match self {
            Reporter::Handler(_) => &[],
            Reporter::Printer(told) => told.as_slice(),
        }
    }
}

impl<H: ReportFault> Reporter<H> {
    /// Reports a fault that is no appender's.
    pub(crate) fn report<R: Eprint>(&self, rt: &R, fault: &LogError) {
        match self {
            Reporter::Handler(handler) => handler.report(fault),
            Reporter::Printer(_) => print_fault(rt, fault),
        }
    }

    /// Reports a fault of the appender at an index, which has this name.
    pub(crate) fn report_failed<R: Eprint>(
        &self,
        rt: &R,
        at: usize,
        name: &str,
        failed: Failed,
        fault: &LogError,
    ) {
        match self {
            Reporter::Handler(handler) => handler.report(fault),
            Reporter::Printer(told) => {
                if let Some(number) = news(told, at, failed, fault) {
                    print_counted(rt, number, &AppenderFault { name, fault });
                }
            }
        }
    }
}

/// Notes a fault of the appender at an index. If it is to be reported, returns its number: it
/// differs from the last one, or there is no such appender.
fn news(told: &[AppenderReports], at: usize, failed: Failed, fault: &LogError) -> Option<u64> {
    let Some(appender) = told.get(at) else {
        return Some(1);
    };
    match failed {
        Failed::Append => appender.appends.news(fault),
        Failed::Step => appender.steps.news(fault),
    }
}
