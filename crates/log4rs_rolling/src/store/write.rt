//! Writing of bytes, piece by piece.

ghost use Rattle.std.specs.Prelude.{◌≡◌, ◌<◌, ◌≤◌, ◌+◌, length, None, IfErr, IsTrue, OnOk};
ghost use Rattle.log4rs_rolling.specs.Costs.{Costs, CostsToWrite};
ghost use Rattle.log4rs_rolling.specs.Disk.{Calls, SameOpen, one_more};
ghost use Rattle.log4rs_rolling.specs.RetiredAppends.{IsRefusal, OpenedToWrite};
ghost use Rattle.log4rs_rolling.specs.FileChanges.{WroteFirst};

use crate::store::{Open, Store};
use log4rs_base::LogError;

/// Writes bytes at the end of the open file until a write is refused, and returns how many were
/// written. Calls the store once if it takes all of them at once, and not at all for no bytes.
pub fn write_bytes<S: Store>(store: &mut S, bytes: &[u8]) -> usize
    ensures bound { result ≤ length bytes.now }
    ensures written { Calls (S.disk store.old) (S.disk store.new)
        (WroteFirst (S.disk store.old) bytes.now result) }
    ensures opened { SameOpen (S.disk store.old) (S.disk store.new) }
    // Where no file is open, nothing is written.
    ensures shut { IsTrue (S.disk store.old).tells → (S.disk store.old).opened ≡ None
        → result ≡ 0 }
    ensures whole { result ≡ length bytes.now
        → (S.disk store.new).refusals ≡ (S.disk store.old).refusals }
    ensures short { result < length bytes.now
        → (S.disk store.new).refusals ≡ one_more (S.disk store.old).refusals }
    ensures cost { CostsToWrite bytes.now result (S.disk store.old) (S.disk store.new) }
{
    let mut done = 0;
    while done < bytes.len() {
        match store.write(&bytes[done..]) {
            Ok(taken) => done += taken,
            Err(_) => return done,
        }
    }
    done
}

/// Opens the file at this path in append mode, and writes a text. The file stays open. Fails with
/// `Store` at the first refusal; the file, if it was opened, then ends in a prefix of the text.
pub fn open_to_write<S: Store>(path: &str, store: &mut S, text: &[u8]) -> Result<(), LogError>
    ensures added { Calls (S.disk store.old) (S.disk store.new)
        (OpenedToWrite path.now text.now result) }
    ensures unrefused { OnOk result
        ((S.disk store.new).refusals ≡ (S.disk store.old).refusals) }
    ensures fault { IfErr result (IsRefusal (S.disk store.old) (S.disk store.new)) }
    ensures cost { Costs (1 + length text.now) result (S.disk store.old) (S.disk store.new) }
{
    let Ok(()) = store.open(path, Open::Append) else {
        return Err(LogError::Store);
    };
    if write_bytes(store, text) < text.len() {
        return Err(LogError::Store);
    }
    Ok(())
}
