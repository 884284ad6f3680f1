//! Each operation of forty appends refused in turn, judged effect by effect.

use crate::background::{Beside, beside};
use crate::rolling::built;
use crate::setup::{append, cut, planned, roller, same, store};
use log4rs_append::RollingFileAppender;
use log4rs_base::OutOfMemory;
use log4rs_encode::AnyEncoder;
use log4rs_rolling::store::{Effect, Open};
use log4rs_rolling::{CompoundPolicyOf, MemStore, SizeTrigger};
use std::alloc::Global;
use std::process::Abort;
use std::test::Fail;

/// The files, the oldest first: the archives, the file that waits to be archived, the active file.
const PATHS: [&str; 5] = ["f.2", "f.1", "f.0", "f.rolling", "f"];

/// The files at the start.
const START: &str = "f=DDDDDDD f.0=CCC f.1=BB f.2=A";

/// The active file is rolled if it has more bytes.
const LIMIT: usize = 10;

/// Where the bytes of a file begin and end in the stream: the bytes of all files at the start, the
/// oldest first, and then each byte that was written. An empty or absent file has no bytes there.
type Span = (usize, usize);

/// Returns the place of a file in `PATHS`.
fn slot(path: &str) -> usize {
    for (slot, known) in PATHS.iter().enumerate() {
        if *known == path {
            return slot;
        }
    }
    PATHS.len()
}

/// Returns where the first byte of the files stands.
fn first(files: [Span; 5]) -> usize {
    for (start, end) in files {
        if start < end {
            return start;
        }
    }
    usize::MAX
}

/// Returns whether files hold, in order, the last bytes of a stream of this length.
fn is_end(files: [Span; 5], len: usize) -> bool {
    let mut at = first(files);
    for (start, end) in files {
        if start < end {
            if start != at {
                return false;
            }
            at = end;
        }
    }
    at == len
}

/// Returns whether files still hold what they held before, except for the first.
fn keep_others(before: [Span; 5], after: [Span; 5]) -> bool {
    let oldest = first(before);
    for span in before {
        let (start, end) = span;
        if start < end && start != oldest && !after.contains(&span) {
            return false;
        }
    }
    true
}

/// A replay of the effects of a store, which judges each by the files before it.
#[derive(Drop)]
struct Replay {
    files: [Span; 5],
    /// The length of the stream.
    len: usize,
    /// The ends of the archives at the start, and the length of the stream at each yes of the
    /// trigger.
    cuts: Vec<usize>,
    /// Whether rollings go on in the background.
    background: bool,
    /// Whether a rolling has begun that dropped nothing yet.
    may_drop: bool,
    /// How many effects were judged.
    judged: usize,
    /// The first fault, or an empty text.
    fault: &'static str,
}

impl Replay {
    /// Begins with the files of a store.
    fn new(alloc: Global, background: bool, store: &MemStore) -> Result<Replay, OutOfMemory> {
        let mut replay = Replay {
            files: [(0, 0); 5],
            len: 0,
            cuts: Vec::new(alloc),
            background,
            may_drop: false,
            judged: 0,
            fault: "",
        };
        for path in PATHS {
            if let Some(bytes) = store.file(path)? {
                replay.extend(path, bytes.len());
                if path != "f" {
                    let end = replay.len;
                    replay.cuts.push(end)?;
                }
            }
        }
        Ok(replay)
    }

    /// Keeps the first fault.
    fn check(&mut self, holds: bool, fault: &'static str) {
        if !holds && self.fault.is_empty() {
            self.fault = fault;
        }
    }

    /// Returns the span of a file.
    fn span(&self, path: &str) -> Span {
        match self.files.get(slot(path)) {
            Some(span) => *span,
            None => (0, 0),
        }
    }

    /// Sets the span of a file.
    fn set(&mut self, path: &str, span: Span) {
        if let Some(known) = self.files.get_mut(slot(path)) {
            *known = span;
        }
    }

    /// Writes bytes to the end of a file and of the stream. A file that ended elsewhere keeps only
    /// these bytes.
    fn extend(&mut self, path: &str, bytes: usize) {
        let (start, end) = self.span(path);
        let start = if end == self.len { start } else { self.len };
        self.len = self.len.saturating_add(bytes);
        self.set(path, (start, self.len));
    }

    /// Applies an effect to the files.
    fn apply(&mut self, effect: &Effect) {
        match effect {
            Effect::Opened(_, Open::Append) => {}
            Effect::Opened(path, Open::Truncate) | Effect::Removed(path) => {
                self.set(path.as_str(), (0, 0));
            }
            Effect::Wrote(path, bytes) => self.extend(path.as_str(), bytes.len()),
            Effect::Renamed(from, to) => {
                let moved = self.span(from.as_str());
                self.set(from.as_str(), (0, 0));
                self.set(to.as_str(), moved);
            }
            Effect::Copied(from, to) => self.set(to.as_str(), self.span(from.as_str())),
        }
    }

    /// Returns what is left of a text after an effect, which writes a beginning of it or nothing.
    fn rest<'a>(&mut self, effect: &Effect, text: &'a [u8]) -> &'a [u8] {
        let Effect::Wrote(_, bytes) = effect else {
            return text;
        };
        if let Some(rest) = text.strip_prefix(bytes.as_slice()) {
            return rest;
        }
        self.check(false, "other bytes written");
        text
    }

    /// Returns whether each file but the active one ends at a cut, and the first byte stands at 0
    /// or at a cut.
    fn is_cut(&self) -> bool {
        let [oldest, middle, newest, waiting, _] = self.files;
        for (start, end) in [oldest, middle, newest, waiting] {
            if start < end && !self.cuts.contains(&end) {
                return false;
            }
        }
        let first = first(self.files);
        first == 0 || self.cuts.contains(&first)
    }

    /// Judges an effect by the files before it: all bytes stay, or a rolling drops the oldest
    /// archive, its first.
    fn compare(&mut self, before: [Span; 5]) {
        let after = self.files;
        self.check(is_end(after, self.len), "bytes lost or moved");
        if first(after) != first(before) {
            self.check(keep_others(before, after), "two archives dropped");
            self.check(
                self.may_drop,
                "an archive dropped without a rolling of its own",
            );
            self.may_drop = false;
        }
        self.check(self.is_cut(), "an archive with another end");
    }

    /// Notes what an effect begins. After a whole record, the trigger says yes if the file is too
    /// long: a rolling at once begins. One in the background begins as the file is set aside.
    fn note(&mut self, effect: &Effect, rest: &[u8]) -> Result<(), OutOfMemory> {
        match effect {
            Effect::Wrote(_, _) if rest.is_empty() => {
                let (start, end) = self.span("f");
                if end.saturating_sub(start) > LIMIT {
                    self.cuts.push(self.len)?;
                    self.may_drop = self.may_drop || !self.background;
                }
            }
            Effect::Renamed(from, to) if from.as_str() == "f" && to.as_str() == "f.rolling" => {
                self.may_drop = self.background;
            }
            _ => {}
        }
        Ok(())
    }

    /// Judges the new effects of a store, by an append of a text and its outcome, or by a step, which
    /// writes nothing. A copy counts as one effect with the next, which removes what was copied.
    fn judge(&mut self, store: &MemStore, text: &str, is_ok: bool) -> Result<(), OutOfMemory> {
        let Some(effects) = store.effects().get(self.judged..) else {
            return Ok(());
        };
        let mut rest = text.as_bytes();
        let mut before = self.files;
        self.may_drop = self.may_drop && self.background;
        for effect in effects {
            rest = self.rest(effect, rest);
            self.apply(effect);
            if !matches!(effect, Effect::Copied(_, _)) {
                self.compare(before);
                before = self.files;
            }
            self.note(effect, rest)?;
        }
        self.judged = store.effects().len();
        self.check(is_end(self.files, self.len), "bytes kept twice");
        self.check(!is_ok || rest.is_empty(), "a record cut without a fault");
        Ok(())
    }
}

/// An appender that keeps three archives.
type Rolled = RollingFileAppender<MemStore, Beside, AnyEncoder>;

/// Returns the policy of a way: `renames`, `copies` or `background`.
fn policy(alloc: Global, way: &str) -> Result<Beside, Fail> {
    if way == "background" {
        return beside(alloc, 3);
    }
    let roller = roller(alloc, ("f.{}", 0, 3, way == "renames"))?;
    Ok(CompoundPolicyOf::new(SizeTrigger::new(10), roller))
}

/// Appends 40 records of four bytes. Of seven, no step follows the first three, one step each of the
/// next three, and two the last. In the end all steps that are left are made.
fn append_forty(
    alloc: Global,
    appender: &mut Rolled,
    replay: &mut Replay,
) -> Result<(), OutOfMemory> {
    for number in 0..40_u32 {
        let text = format!(in alloc; "{number:04}")?;
        let answer = append(alloc, appender, text.as_str());
        replay.judge(appender.store(), text.as_str(), answer.is_ok())?;
        for _ in 0..number % 7 / 3 {
            let _ = appender.step();
            replay.judge(appender.store(), "", false)?;
        }
    }
    let _ = appender.drive();
    replay.judge(appender.store(), "", false)
}

/// Appends 40 records to the store. Returns the first fault of an effect, or an empty text, and the
/// number of refused operations.
fn ran(alloc: Global, way: &str, store: MemStore) -> Result<(&'static str, u64), Fail> {
    let mut replay = Replay::new(alloc, way == "background", &store)?;
    let policy = policy(alloc, way)?;
    let Ok(mut appender) = built(alloc, true, "f", store, policy) else {
        return Ok(("", 1));
    };
    replay.judge(appender.store(), "", true)?;
    append_forty(alloc, &mut appender, &mut replay)?;
    Ok((replay.fault, appender.store().refusals()))
}

/// Returns a store where so many operations pass, and then come these letters of a plan, or, after
/// `stop`, refusals alone.
fn refusing(alloc: Global, passing: u64, then: &str) -> Result<MemStore, Fail> {
    let mut letters = String::new(alloc);
    for _ in 0..passing {
        letters.push('.')?;
    }
    letters.push_str(then)?;
    let mut store = store(alloc, START, planned(alloc, letters.as_str())?.as_slice())?;
    if then == "stop" {
        store.stop_after(passing);
    }
    Ok(store)
}

/// Runs with each operation refused in turn. Returns the first number of operations that may pass
/// with none refused, or the first fault.
fn swept(alloc: Global, way: &str, then: &str) -> Result<String, Fail> {
    for passing in 0..200 {
        let (fault, refusals) = ran(alloc, way, refusing(alloc, passing, then)?)?;
        if !fault.is_empty() {
            return Ok(format!(in alloc; "{fault} after {passing}")?);
        }
        if refusals == 0 {
            return Ok(format!(in alloc; "{passing}")?);
        }
    }
    Ok(String::from_str(alloc, "always refused")?)
}

/// Asserts what the lines of a table expect.
fn sweep(stop: &impl Abort, alloc: Global, table: &str) -> Result<(), Fail> {
    for line in table.lines() {
        let (way, rest) = cut(line);
        let (then, expected) = cut(rest);
        same(stop, swept(alloc, way, then)?.as_str(), expected);
    }
    Ok(())
}

/// A way, what comes after the operations that pass, and the first number of these with nothing
/// refused. There are an opening, a length, 40 writes, 14 rollings of three renames, and 13 times
/// another opening and length.
const AT_ONCE: &str = "renames|x|110
copies|x|110
renames|2x|109
renames|stop|110";

/// The same in the background, where a look for a waiting file comes first, and each rolling has one
/// more rename.
const BESIDE: &str = "background|x|125
background|2x|124
background|stop|125";

#[test]
fn each_operation_refused(rt: HostRuntime) -> Result<(), Fail> {
    sweep(&rt, rt.alloc(), AT_ONCE)
}

#[test]
fn each_operation_refused_in_the_background(rt: HostRuntime) -> Result<(), Fail> {
    sweep(&rt, rt.alloc(), BESIDE)
}
