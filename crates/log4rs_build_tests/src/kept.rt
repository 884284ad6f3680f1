ghost use Rattle.std.specs.Prelude.{◌≡◌, ◌∷◌, [], OnErr, OnOk};
ghost use Rattle.log4rs_config.specs.Holder.{Happened, swaps};

use crate::reload::Lines;
use crate::setup::{Parts, same, surroundings};
use log::LevelFilter;
use log4rs_append::{Locked, MemoryAppender};
use log4rs_base::filter::{FilterOf, ThresholdFilter};
use log4rs_base::{LogError, OutOfMemory};
use log4rs_build::{
    AppenderErrors, BegunFile, BehindOf, ConfigFile, DeserializersWith, Handed, HandedInOf, KeptBy,
    NamedParts, PartMaker, Refill, Refilled, RereadingBy,
};
use log4rs_config::runtime::{ConfigErrors, HoldsConfig, Rereads, SharedAppender, SharesAppenders};
use log4rs_encode::pattern::PatternEncoder;
use log4rs_rolling::{MemMaker, MemStore, SizeTrigger, StoreMaker};
use std::alloc::Global;
use std::sync::atomic::{AtomicBool, AtomicU64, Ordering};
use std::sync::{Arc, Mutex, Wait};
use std::test::Fail;

type Kept = MemoryAppender<PatternEncoder>;

type Behind = BehindOf<Kept, PatternEncoder, SizeTrigger, MemStore>;

type Waiting = Handed<Kept, ThresholdFilter, PatternEncoder, SizeTrigger>;

type Config = KeptBy<Waiting, Counting>;

type Rereader<R> = RereadingBy<HostRuntime, Lines, Counting, Waiting, R>;

/// Makes stores in memory and counts them. Those of these numbers refuse everything.
#[derive(Drop)]
struct Counting {
    maker: MemMaker,
    made: Arc<AtomicU64>,
    refused: &'static [u64],
}

impl StoreMaker for Counting {
    type Made = MemStore;

    fn make(&mut self) -> Result<MemStore, OutOfMemory> {
        let number = self.made.fetch_add(1, Ordering::SeqCst);
        let mut store = self.maker.make()?;
        if self.refused.contains(&number) {
            store.stop_after(0);
        }
        Ok(store)
    }
}

/// Holds the active configuration.
#[derive(Drop)]
struct Holder<W> {
    rt: W,
    alloc: Global,
    /// Whether the next configuration is refused for lack of memory.
    refuses: AtomicBool,
    present: Mutex<Config>,
}

impl<W: Wait> SharesAppenders<Behind> for Holder<W> {
    fn shared_appenders(&mut self) -> Result<Vec<SharedAppender<Behind>>, OutOfMemory> {
        match self.present.try_lock() {
            Some(config) => config.shared_appenders(self.alloc),
            None => Err(OutOfMemory),
        }
    }

    fn is_retired(&mut self, lock: &Locked<Behind>) -> bool {
        lock.is_retired()
    }

    fn retire<M: StoreMaker>(&mut self, lock: &Locked<Behind>, _: &M) -> Result<(), LogError> {
        lock.retire_shared(&self.rt)
    }

    fn resume(&mut self, lock: &Locked<Behind>) -> Result<(), LogError> {
        lock.settle_shared(&self.rt)
    }
}

impl<W: Wait> HoldsConfig<Behind, FilterOf<ThresholdFilter>, AppenderErrors> for Holder<W> {
    fn replace(
        &mut self,
        config: Config,
        _appender_errors: AppenderErrors,
        _config_errors: ConfigErrors,
    ) -> Result<(), OutOfMemory>
        ensures ok { let seen = ⟦<Self as SharesAppenders<Behind>>⟧ in OnOk result
            (Happened (seen.history self.old) (seen.history self.new) (swaps ∷ [])) }
        ensures err { let seen = ⟦<Self as SharesAppenders<Behind>>⟧ in OnErr result
            (seen.history self.new ≡ seen.history self.old) }
    {
        if self.refuses.load(Ordering::SeqCst) {
            return Err(OutOfMemory);
        }
        match self.present.try_lock() {
            Some(mut present) => {
                config.enter();
                present.leave();
                *present = config;
                Ok(())
            }
            None => Err(OutOfMemory),
        }
    }
}

/// Stamps and texts. Each text changes something: whitespace, a level, the pattern of one appender,
/// and the `append` flag of one appender and the name of the other.
const TEXTS: &str =
    r#"1|{"refresh_rate":"1 second","appenders":{"a":{"kind":"file","path":"a.log","append":false},"b":{"kind":"file","path":"b.log"},"k":{"kind":"console"}},"root":{"level":"info","appenders":["a","b"]}}
2|{ "refresh_rate":"1 second","appenders":{"a":{"kind":"file","path":"a.log","append":false},"b":{"kind":"file","path":"b.log"},"k":{"kind":"console"}},"root":{"level":"info","appenders":["a","b"]}}
3|{"refresh_rate":"1 second","appenders":{"a":{"kind":"file","path":"a.log","append":false},"b":{"kind":"file","path":"b.log"},"k":{"kind":"console"}},"root":{"level":"warn","appenders":["b"]}}
4|{"refresh_rate":"1 second","appenders":{"a":{"kind":"file","path":"a.log","append":false},"b":{"kind":"file","path":"b.log","encoder":{"pattern":"{m}"}},"k":{"kind":"console"}},"root":{"level":"warn","appenders":["b"]}}
5|{"refresh_rate":"1 second","appenders":{"a":{"kind":"file","path":"a.log","append":true},"c":{"kind":"file","path":"b.log","encoder":{"pattern":"{m}"}}},"root":{"level":"warn","appenders":["c"]}}"#;

/// For each reading: the number of stores made so far, whether each appender was kept from the
/// previous configuration, and how many previous appenders are retired. A console that leaves is not
/// retired by the reading.
const STEPS: &str = "2: a kept b kept k kept 0 retired; 2: a kept b kept k kept 0 retired; \
    3: a kept b new k kept 1 retired; 5: a new c new 2 retired; ";

/// The same if the third configuration is refused for lack of memory: the retired appender is
/// resumed.
const REFUSED: &str = "2: a kept b kept k kept 0 retired; 2: a kept b kept k kept 0 retired; \
    3: a kept b kept k kept 0 retired; 5: a new c new 2 retired; ";

/// Returns whether an active appender is the previous one: retiring it retires that one too.
fn is_kept<W: Wait>(
    rt: &W,
    now: &Locked<Behind>,
    before: &Locked<Behind>,
) -> Result<bool, LogError> {
    if before.is_retired() {
        return Ok(false);
    }
    now.retire_shared(rt)?;
    let is_kept = before.is_retired();
    now.settle_shared(rt)?;
    Ok(is_kept)
}

/// Returns whether an active appender is retired, kept from the previous configuration, or new.
fn word<W: Wait>(
    rt: &W,
    now: &Locked<Behind>,
    before: &[SharedAppender<Behind>],
) -> Result<&'static str, LogError> {
    if now.is_retired() {
        return Ok("retired");
    }
    for shared in before {
        if is_kept(rt, now, &shared.lock)? {
            return Ok("kept");
        }
    }
    Ok("new")
}

/// Writes the active appenders, whether each was kept, and how many previous ones are retired.
fn show<W: Wait>(
    holder: &mut Holder<W>,
    before: &[SharedAppender<Behind>],
    shown: &mut String,
) -> Result<(), Fail> {
    for appender in &holder.shared_appenders()? {
        let word = word(&holder.rt, &appender.lock, before)?;
        write!(shown, " {} {word}", appender.name)?;
    }
    let retired = before.iter().filter(|shared| shared.lock.is_retired());
    write!(shown, " {} retired", retired.count())?;
    shown.push_str("; ")?;
    Ok(())
}

/// Reads four times and writes the appenders after each reading. The reading at `refused` gets no
/// memory.
fn show_readings<W: Wait, R: Rereads<Behind, FilterOf<ThresholdFilter>, Faults = AppenderErrors>>(
    rereads: &mut R,
    holder: &mut Holder<W>,
    made: &AtomicU64,
    refused: Option<u64>,
    shown: &mut String,
) -> Result<(), Fail> {
    rereads.begin(holder)?;
    for at in 0..4 {
        let before = holder.shared_appenders()?;
        holder.refuses.store(refused == Some(at), Ordering::SeqCst);
        rereads.reread(holder);
        write!(shown, "{}:", made.load(Ordering::SeqCst))?;
        show(holder, &before, shown)?;
    }
    rereads.end(holder);
    Ok(())
}

/// Loads the first of these texts. Returns what rereads the texts, and the holder of the
/// configuration.
fn loaded<W: Wait + Drop, R: Refill<Waiting> + Drop>(
    rt: HostRuntime,
    waits: W,
    made: &Arc<AtomicU64>,
    refused: &'static [u64],
    texts: &'static str,
    deserializers: DeserializersWith<Waiting, R>,
) -> Result<(Rereader<R>, Holder<W>), Fail> {
    let alloc = rt.alloc();
    let mut source = Lines::of(alloc, texts);
    source.text = texts.lines().next().unwrap_or("").trim_start_matches("1|");
    let path = String::from_str(alloc, "x.json")?;
    let file = ConfigFile {
        path,
        source,
        deserializers,
        maker: Counting {
            maker: MemMaker::new(alloc),
            made: Arc::try_clone(made)?,
            refused,
        },
        surroundings: surroundings(alloc, rt.stdout(), rt.stderr()),
    };
    let BegunFile {
        config,
        steps: _,
        left_out: _,
        rereading,
    } = file.begin(rt)?;
    let present = config.locked(alloc)?;
    present.enter();
    let holder = Holder {
        rt: waits,
        alloc,
        refuses: AtomicBool::new(false),
        present: Mutex::new(present),
    };
    match rereading {
        Some(rereading) => Ok((rereading, holder)),
        None => Err(Fail::new("nothing reads the texts again")),
    }
}

#[test]
fn what_did_not_change_is_kept(rt: HostRuntime) -> Result<(), Fail> {
    let alloc = rt.alloc();
    for (refused, steps) in [(None, STEPS), (Some(2), REFUSED)] {
        let made = Arc::new(alloc, AtomicU64::new(0))?;
        let (mut rereads, mut holder) = loaded(rt, rt, &made, &[], TEXTS, Parts::new(alloc)?)?;
        let mut shown = String::new(alloc);
        show_readings(&mut rereads, &mut holder, &made, refused, &mut shown)?;
        same(&rt, shown.as_str(), steps);
    }
    Ok(())
}

/// Stamps and texts. Only the first is read, since the others have its stamp.
const SAME: &str =
    r#"1|{"refresh_rate":"1 second","appenders":{"a":{"kind":"file","path":"a.log","append":false},"b":{"kind":"file","path":"b.log"},"k":{"kind":"console"}},"root":{"appenders":["a","b"]}}
1|
1|
1|
1|"#;

/// The stores that are refused, and what comes of readings of the same text: each that is refused
/// at first is tried again until it works, and no other is made again.
const TRIED_AGAIN: [(&[u64], &str); 3] = [
    (
        &[1, 2],
        "3: a kept k kept 0 retired; 4: a kept b new k kept 0 retired; \
        4: a kept b kept k kept 0 retired; 4: a kept b kept k kept 0 retired; ",
    ),
    (
        &[0, 1, 3],
        "4: a new k kept 0 retired; 5: a kept b new k kept 0 retired; \
        5: a kept b kept k kept 0 retired; 5: a kept b kept k kept 0 retired; ",
    ),
    (
        &[],
        "2: a kept b kept k kept 0 retired; 2: a kept b kept k kept 0 retired; \
        2: a kept b kept k kept 0 retired; 2: a kept b kept k kept 0 retired; ",
    ),
];

#[test]
fn what_was_refused_is_tried_again(rt: HostRuntime) -> Result<(), Fail> {
    let alloc = rt.alloc();
    for (refused, steps) in TRIED_AGAIN {
        let made = Arc::new(alloc, AtomicU64::new(0))?;
        let (mut rereads, mut holder) = loaded(rt, rt, &made, refused, SAME, Parts::new(alloc)?)?;
        let mut shown = String::new(alloc);
        show_readings(&mut rereads, &mut holder, &made, None, &mut shown)?;
        same(&rt, shown.as_str(), steps);
    }
    Ok(())
}

/// Stamps and texts in which the root has another level each time. The appender has a filter of the
/// caller's.
const FILTERED: &str =
    r#"1|{"refresh_rate":"1 second","appenders":{"a":{"kind":"file","path":"a.log","filters":[{"kind":"y"}]}},"root":{"level":"info","appenders":["a"]}}
2|{"refresh_rate":"1 second","appenders":{"a":{"kind":"file","path":"a.log","filters":[{"kind":"y"}]}},"root":{"level":"warn","appenders":["a"]}}
3|{"refresh_rate":"1 second","appenders":{"a":{"kind":"file","path":"a.log","filters":[{"kind":"y"}]}},"root":{"level":"error","appenders":["a"]}}"#;

/// Makes filters.
#[derive(Drop)]
struct Filters;

impl PartMaker<HandedInOf<Kept, ThresholdFilter, PatternEncoder, SizeTrigger>> for Filters {
    fn make(
        &self,
    ) -> Result<HandedInOf<Kept, ThresholdFilter, PatternEncoder, SizeTrigger>, OutOfMemory> {
        Ok(filter())
    }
}

/// Returns a filter of the caller's.
fn filter() -> HandedInOf<Kept, ThresholdFilter, PatternEncoder, SizeTrigger> {
    HandedInOf::Filter(ThresholdFilter::new(LevelFilter::Warn))
}

/// Writes how many filters each active appender has.
fn show_filters<W>(holder: &Holder<W>, shown: &mut String) -> Result<(), Fail> {
    if let Some(config) = holder.present.try_lock() {
        for appender in config.appenders() {
            write!(shown, " {} {}", appender.name(), appender.filters().len())?;
        }
    }
    Ok(())
}

/// Reads twice again, and writes the filters at first and after each reading.
fn show_filtered<W: Wait, R: Rereads<Behind, FilterOf<ThresholdFilter>, Faults = AppenderErrors>>(
    rereads: &mut R,
    holder: &mut Holder<W>,
    shown: &mut String,
) -> Result<(), Fail> {
    rereads.begin(holder)?;
    show_filters(holder, shown)?;
    for _ in 0..2 {
        rereads.reread(holder);
        show_filters(holder, shown)?;
    }
    rereads.end(holder);
    shown.push(';')?;
    Ok(())
}

/// Returns deserializers that hold one filter, and have a maker of more.
fn refilled(alloc: Global) -> Result<DeserializersWith<Waiting, NamedParts<Filters>>, Fail> {
    let mut parts = Refilled::new(Parts::new(alloc)?);
    parts.add("a", Filters)?;
    parts.refill()?;
    Ok(parts)
}

#[test]
fn a_file_that_is_read_again_has_its_components(rt: HostRuntime) -> Result<(), Fail> {
    let alloc = rt.alloc();
    let made = Arc::new(alloc, AtomicU64::new(0))?;
    let mut shown = String::new(alloc);
    let mut once = Parts::new(alloc)?;
    once.hand_in("a", filter())?;
    let (mut rereads, mut holder) = loaded(rt, rt, &made, &[], FILTERED, once)?;
    show_filtered(&mut rereads, &mut holder, &mut shown)?;
    let (mut rereads, mut holder) = loaded(rt, rt, &made, &[], FILTERED, refilled(alloc)?)?;
    show_filtered(&mut rereads, &mut holder, &mut shown)?;
    same(&rt, shown.as_str(), " a 1 a 0 a 0; a 1 a 1 a 1;");
    Ok(())
}
