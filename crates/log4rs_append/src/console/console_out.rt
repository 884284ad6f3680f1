//! Consoles.

ghost use Rattle.std.specs.Prelude.{◌≡◌, ℕ, ◌<◌, ◌≤◌, length, take, is_ok, if◌then◌else◌, IfOk, IfErr, OnOk, OnErr};
ghost use Rattle.std.specs.Io.KnownBytes.{append_known};
ghost use Rattle.log4rs_rolling.specs.Disk.{one_more};
ghost use Rattle.log4rs_base.specs.declared.error.LogError.TheVariants as faults;
ghost use Rattle.log4rs_append.specs.Console.{console_bytes, refusals_of, refusals_on};

use crate::console::memory::MemOut;
use crate::console::teller::Teller;
use log4rs_base::LogError;
use log4rs_encode::writer::StdWriter;
use std::io::Write;

/// The output of a console.
#[derive(Drop)]
pub enum ConsoleOut {
    /// A standard stream.
    Std(StdWriter),
    /// A console in memory.
    Memory(MemOut),
}

/// An output, and how many writes and flushes a standard stream refused.
#[derive(Drop)]
pub(crate) struct Console {
    pub(crate) out: ConsoleOut,
    counted: u64,
    pub(crate) teller: Teller,
}

impl Console {
    pub(crate) fn new(out: ConsoleOut) -> Console
        ensures out { result.out ≡ out }
        ensures count { refusals_of result ≡ refusals_on out 0 }
    {
        Console {
            out,
            counted: 0,
            teller: Teller::silent(),
        }
    }

    /// Returns how many writes and flushes were refused. The count stops at `u64::MAX`.
    pub(crate) fn refusals(&self) -> u64
        ensures { result ≡ refusals_of self.now }
    {
        match &self.out {
            ConsoleOut::Std(_) => self.counted,
            ConsoleOut::Memory(memory) => memory.refusals(),
        }
    }

    /// Writes the first bytes of a piece, and returns how many it took: at least one, if there are
    /// any.
    fn write(&mut self, piece: &[u8]) -> Result<usize, LogError>
        ensures bound { IfOk result (λ n. n ≤ length piece.now) }
        ensures progress { IfOk result (λ n. 0 < length piece.now → 0 < n) }
        ensures ok { IfOk result (λ n. console_bytes self.new.out
            ≡ append_known (console_bytes self.old.out) (take n piece.now)) }
        ensures err { OnErr result (console_bytes self.new.out ≡ console_bytes self.old.out) }
        ensures count { refusals_of self.new
            ≡ (if is_ok result then refusals_of self.old else one_more (refusals_of self.old)) }
        ensures fault { IfErr result (λ fault. fault ≡ faults.Store) }
    {
        match &mut self.out {
            ConsoleOut::Std(stream) => match stream.write(piece) {
                Ok(taken) if taken > 0 || piece.is_empty() => Ok(taken),
                Ok(_) => {
                    self.counted = self.counted.saturating_add(1);
                    Err(LogError::Store)
                }
                Err(cause) => {
                    self.counted = self.counted.saturating_add(1);
                    self.teller.tell(stream, &cause);
                    Err(LogError::Store)
                }
            },
            ConsoleOut::Memory(memory) => match memory.write(piece) {
                Ok(taken) => Ok(taken),
                Err(_) => Err(LogError::Store),
            },
        }
    }

    /// Writes a text, or a prefix of it if a write is refused.
    pub(crate) fn write_text(&mut self, text: &[u8]) -> Result<(), LogError>
        ensures ok { OnOk result (console_bytes self.new.out
            ≡ append_known (console_bytes self.old.out) text.now) }
        ensures err { OnErr result ((n : ℕ)
            × (console_bytes self.new.out
            ≡ append_known (console_bytes self.old.out) (take n text.now))) }
        ensures count { refusals_of self.new
            ≡ (if is_ok result then refusals_of self.old else one_more (refusals_of self.old)) }
        ensures fault { IfErr result (λ fault. fault ≡ faults.Store) }
    {
        let mut done = 0;
        while done < text.len() {
            done += self.write(&text[done..])?;
        }
        Ok(())
    }

    /// Flushes the output.
    pub(crate) fn flush(&mut self) -> Result<(), LogError>
        ensures written { console_bytes self.new.out ≡ console_bytes self.old.out }
        ensures count { refusals_of self.new
            ≡ (if is_ok result then refusals_of self.old else one_more (refusals_of self.old)) }
        ensures fault { IfErr result (λ fault. fault ≡ faults.Store) }
    {
        match &mut self.out {
            ConsoleOut::Std(stream) => match stream.flush() {
                Ok(()) => {
                    self.teller.clear();
                    Ok(())
                }
                Err(cause) => {
                    self.counted = self.counted.saturating_add(1);
                    self.teller.tell(stream, &cause);
                    Err(LogError::Store)
                }
            },
            ConsoleOut::Memory(memory) => match memory.flush() {
                Ok(()) => Ok(()),
                Err(_) => Err(LogError::Store),
            },
        }
    }
}
