use crate::rows::cut;
use crate::setup::{Parts, same, show_logged, surroundings};
use crate::steps::word;
use log::Level;
use log4rs_build::{Surroundings, load_config_file};
use log4rs_rolling::MemMaker;
use log4rs_settings::{ConfigSource, Format, Reloader, SourceError};
use std::alloc::Global;
use std::test::Fail;

/// A source that reads lines: a stamp, a bar and a text. Each call of `modified` goes to the next
/// line, and `read` returns the text of the current one. It counts its readings.
#[derive(Drop)]
pub(crate) struct Lines {
    alloc: Global,
    left: &'static str,
    pub(crate) text: &'static str,
    reads: u64,
}

impl Lines {
    pub(crate) fn of(alloc: Global, lines: &'static str) -> Lines {
        Lines {
            alloc,
            left: lines,
            text: "",
            reads: 0,
        }
    }
}

impl ConfigSource for Lines {
    fn modified(&mut self) -> Result<u64, SourceError> {
        let (line, left) = self.left.split_once('\n').unwrap_or((self.left, ""));
        let (stamp, text) = line.split_once('|').unwrap_or((line, ""));
        self.left = left;
        self.text = text;
        stamp.parse::<u64>().map_err(|_| SourceError::Refused)
    }

    fn read(&mut self) -> Result<String, SourceError> {
        self.reads = self.reads.saturating_add(1);
        String::from_str(self.alloc, self.text).map_err(|_| SourceError::Memory)
    }
}

#[test]
fn a_source_is_loaded(rt: HostRuntime) -> Result<(), Fail> {
    let alloc = rt.alloc();
    let around = surroundings(alloc, rt.stdout(), rt.stderr());
    let mut parts = Parts::new(alloc)?;
    let mut source = Lines::of(alloc, "");
    source.text = r#"{"appenders":{"b":{"kind":"nope"},"a":{"kind":"file","path":"a.log",
        "encoder":{"pattern":"{m};"}}},"root":{"level":"info","appenders":["a","b"]}}"#;
    let mut maker = MemMaker::new(alloc);
    let config = load_config_file(&rt, "x.json", &mut source, &mut parts, &mut maker, &around)?;
    let mut shown = String::new(alloc);
    let records = [(Level::Info, "i"), (Level::Debug, "d"), (Level::Warn, "w")];
    show_logged(alloc, config, &records, &mut shown)?;
    same(&rt, shown.as_str(), "a 0: a.log=i;w;; ");
    Ok(())
}

/// Lines of a source whose text was `{ }` under the stamp 5, the outcome of a step over each, and how
/// often the step read the text.
const STEPS: &str = "\
5|{ } => same read=0
6|{ => parse read=1
6|{ => same read=0
7|{} => swap without a rate read=1
";

/// Makes a step. Returns the word of its outcome.
fn step(
    reloader: &mut Reloader,
    source: &mut Lines,
    parts: &mut Parts,
    maker: &mut MemMaker,
    around: &Surroundings<'_>,
) -> &'static str {
    word(&reloader.run_once(source, parts, maker, around))
}

/// Makes a step over each line of `STEPS` after this text was read under the stamp 5. Returns the lines
/// with what came.
fn steps_after(rt: &HostRuntime, text: String, parts: &mut Parts) -> Result<String, Fail> {
    let alloc = rt.alloc();
    let around = surroundings(alloc, rt.stdout(), rt.stderr());
    let mut reloader = Reloader::new(Format::Json, text, Some(5), None);
    let mut maker = MemMaker::new(alloc);
    let mut shown = String::new(alloc);
    for row in STEPS.lines() {
        let line = cut(row).0;
        let mut source = Lines::of(alloc, line);
        let outcome = step(&mut reloader, &mut source, parts, &mut maker, &around);
        writeln!(shown, "{line} => {outcome} read={}", source.reads)?;
    }
    Ok(shown)
}

#[test]
fn a_changed_text_is_loaded_once(rt: HostRuntime) -> Result<(), Fail> {
    let mut parts = Parts::new(rt.alloc())?;
    let text = String::from_str(rt.alloc(), "{ }")?;
    let shown = steps_after(&rt, text, &mut parts)?;
    same(&rt, shown.as_str(), STEPS);
    Ok(())
}
