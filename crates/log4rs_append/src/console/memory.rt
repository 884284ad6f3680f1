//! Consoles in memory.

ghost use Rattle.std.specs.Prelude.{◌≡◌, ◌≢◌, ◌↔◌, ◌++◌, [], take, drop, length, Some, IsErr, IfOk, IfErr, OnOk, OnErr};
ghost use Rattle.std.specs.Io.{WritesAtMost};
ghost use Rattle.std.specs.Io.KnownBytes.{WriteAppends, Keeps};
ghost use Rattle.std.specs.IoError.{error_kind};
ghost use Rattle.std.specs.declared.io.ErrorKind.TheVariants as kinds;
ghost use Rattle.log4rs_rolling.specs.Disk.{one_more};
ghost use Rattle.log4rs_rolling.specs.Plan.{planned, taken};
ghost use Rattle.log4rs_rolling.specs.declared.store.Planned.TheVariants as plans;
ghost use Rattle.log4rs_append.specs.Console.{held};

use log4rs_rolling::store::Planned;
use std::alloc::Global;
use std::io;
use std::io::{Error, ErrorKind};

/// A console in memory, which keeps its bytes. Its writes and flushes may be planned.
#[derive(Drop)]
pub struct MemOut {
    bytes: Vec<u8>,
    plan: Vec<Planned>,
    next: usize,
    refusals: u64,
}

impl MemOut {
    /// Creates an empty console. Nothing is planned.
    pub fn new(alloc: Global) -> MemOut
        ensures { held result ≡ record { bytes = []; refusals = 0; plan = [] } }
    {
        MemOut {
            bytes: Vec::new(alloc),
            plan: Vec::new(alloc),
            next: 0,
            refusals: 0,
        }
    }

    /// Plans the next writes and flushes, and discards the plan before. Those behind the plan are
    /// done.
    pub fn plan(&mut self, plan: Vec<Planned>)
        ensures { held self.new ≡ record (held self.old) { plan = plan.items } }
    {
        self.plan = plan;
        self.next = 0;
    }

    /// Returns the bytes that were written.
    pub fn bytes(&self) -> &[u8]
        ensures { result.now ≡ (held self.now).bytes }
    {
        self.bytes.as_slice()
    }

    /// Returns how many writes and flushes were refused. The count stops at `u64::MAX`.
    pub fn refusals(&self) -> u64
        ensures { result ≡ (held self.now).refusals }
    {
        self.refusals
    }

    /// Returns the plan of an operation that begins.
    fn begin(&mut self) -> Planned
        ensures state { held self.new ≡ record (held self.old)
            { plan = drop 1 (held self.old).plan } }
        ensures value { result ≡ planned (held self.old).plan }
    {
        match self.plan.get(self.next) {
            Some(planned) => {
                self.next += 1;
                *planned
            }
            None => Planned::Do,
        }
    }

    /// Counts a refusal.
    fn refuse(&mut self, kind: ErrorKind) -> Error
        ensures state { held self.new ≡ record (held self.old)
            { refusals = one_more (held self.old).refusals } }
        ensures kind { error_kind result ≡ kind }
    {
        self.refusals = self.refusals.saturating_add(1);
        Error::from(kind)
    }
}

impl io::Write for MemOut {
    ghost use Rattle.std.specs.Prelude.{Some};
    ghost use Rattle.log4rs_append.specs.Console.{held};

    ghost contents = { λ m. Some (held m).bytes };

    fn write(&mut self, buf: &[u8]) -> io::Result<usize>
        ensures bound { WritesAtMost result buf.now }
        ensures bytes { WriteAppends (Some (held self.old).bytes) (Some (held self.new).bytes)
            result buf.now }
        ensures ok { IfOk result (λ n. held self.new
            ≡ record (held self.old) {
              bytes = (held self.old).bytes ++ take n buf.now;
              plan = drop 1 (held self.old).plan;
            }) }
        ensures count { IfOk result (λ n. n
            ≡ taken (planned (held self.old).plan) (length buf.now)) }
        ensures err { OnErr result (held self.new
            ≡ record (held self.old) {
              refusals = one_more (held self.old).refusals;
              plan = drop 1 (held self.old).plan;
            }) }
        ensures refused { planned (held self.old).plan ≡ plans.Refuse → IsErr result }
        ensures memory { planned (held self.old).plan ≢ plans.Refuse
            → IfErr result (λ e. error_kind e ≡ kinds.OutOfMemory) }
    {
        let most = match self.begin() {
            Planned::Do => buf.len(),
            Planned::Take(most) => most.max(1),
            Planned::Refuse => return Err(self.refuse(ErrorKind::Other)),
        };
        let piece = &buf[..buf.len().min(most)];
        if self.bytes.extend_from_slice(piece).is_err() {
            return Err(self.refuse(ErrorKind::OutOfMemory));
        }
        Ok(piece.len())
    }

    fn flush(&mut self) -> io::Result<()>
        ensures bytes { Keeps (Some (held self.old).bytes) (Some (held self.new).bytes) }
        ensures ok { OnOk result (held self.new
            ≡ record (held self.old) { plan = drop 1 (held self.old).plan }) }
        ensures err { OnErr result (held self.new
            ≡ record (held self.old) {
              refusals = one_more (held self.old).refusals;
              plan = drop 1 (held self.old).plan;
            }) }
        ensures refused { IsErr result ↔ (planned (held self.old).plan ≡ plans.Refuse) }
    {
        match self.begin() {
            Planned::Refuse => Err(self.refuse(ErrorKind::Other)),
            Planned::Do | Planned::Take(_) => Ok(()),
        }
    }
}
