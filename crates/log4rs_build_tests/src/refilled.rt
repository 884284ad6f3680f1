use crate::setup::{Kept, Parts, same, show_logged, surroundings};
use log::{Level, LevelFilter};
use log4rs_append::MemoryAppender;
use log4rs_base::OutOfMemory;
use log4rs_base::filter::ThresholdFilter;
use log4rs_build::{HandedInOf, PartMaker, Refilled, Surroundings, WithMeaning};
use log4rs_encode::pattern::PatternEncoder;
use log4rs_rolling::{MemMaker, SizeTrigger};
use log4rs_settings::{Format, Loads};
use std::alloc::Global;
use std::test::Fail;

/// A component of any class, of the types that tests hand in.
type Part = HandedInOf<Kept, ThresholdFilter, PatternEncoder, SizeTrigger>;

/// Deserializers with makers of handed-in components.
type AllParts = Refilled<Kept, ThresholdFilter, PatternEncoder, SizeTrigger, Maker>;

/// Makes appenders or encoders with a pattern, filters with a level, or triggers with a size.
#[derive(Clone, Copy, Drop)]
enum Makes {
    Appenders(&'static str),
    Filters(LevelFilter),
    Encoders(&'static str),
    Triggers(u64),
}

/// A maker and its allocator.
#[derive(Clone, Copy, Drop)]
struct Maker {
    alloc: Global,
    makes: Makes,
}

impl PartMaker<Part> for Maker {
    fn make(&self) -> Result<Part, OutOfMemory> {
        let alloc = self.alloc;
        Ok(match self.makes {
            Makes::Appenders(pattern) => {
                let encoder = PatternEncoder::new(alloc, pattern)?;
                HandedInOf::Appender(MemoryAppender::new(alloc, encoder))
            }
            Makes::Filters(level) => HandedInOf::Filter(ThresholdFilter::new(level)),
            Makes::Encoders(pattern) => HandedInOf::Encoder(PatternEncoder::new(alloc, pattern)?),
            Makes::Triggers(limit) => HandedInOf::Trigger(SizeTrigger::new(limit)),
        })
    }
}

/// The names of appenders, and the makers of their components.
const MAKERS: [(&str, Makes); 5] = [
    ("a", Makes::Appenders("1{m}")),
    ("a", Makes::Filters(LevelFilter::Warn)),
    ("a", Makes::Filters(LevelFilter::Error)),
    ("f", Makes::Encoders("2{m}")),
    ("r", Makes::Triggers(1)),
];

/// TOML texts, read in order, and after an arrow the expected errors and appenders.
const TEXTS: &str = "\
appenders.a = {kind='x', filters=[{kind='y'}]}
root.appenders = ['a']
=> a 1: 1w 1e;\u{20}
---
appenders.a = {kind='x', filters=[{kind='y'}, {kind='y'}]}
appenders.f = {kind='file', path='f', encoder={kind='x'}}
root.appenders = ['a', 'f']
=> a 2: 1e; f 0: f=2i2w2e;\u{20}
---
appenders
=> refused
---
appenders.a = {kind='x', filters=[{kind='y'}, {kind='y'}, {kind='y'}]}
root.appenders = ['a']
=> error deserializing filter attached to appender a: no filter deserializer for kind `y` \
registered; appender a passes every record that its other filters pass. a 2: 1e;\u{20}
---
appenders.r = {kind='rolling_file', path='r', encoder={pattern='{m}'}, policy={trigger={kind='x'}, \
roller={kind='fixed_window', pattern='r.{}', count=1}}}
root.appenders = ['r']
=> r 0: r=e r.0=iw;\u{20}
---
appenders.a = {kind='x'}
root.appenders = ['a']
=> a 0: 1i 1w 1e;\u{20}";

/// Returns deserializers with the makers of `MAKERS`.
fn parts(alloc: Global) -> Result<AllParts, Fail> {
    let mut parts = Refilled::new(Parts::new(alloc)?);
    for (name, makes) in MAKERS {
        parts.add(name, Maker { alloc, makes })?;
    }
    Ok(parts)
}

/// Loads a text. Returns its errors and its appenders after three records, or `refused`.
fn came(
    surroundings: &Surroundings<'static>,
    alloc: Global,
    parts: &mut AllParts,
    text: &str,
) -> Result<String, Fail> {
    let mut shown = String::new(alloc);
    let mut maker = MemMaker::new(alloc);
    let Ok(loaded) = parts.load(Format::Toml, text, &mut maker, surroundings) else {
        shown.push_str("refused")?;
        return Ok(shown);
    };
    for error in loaded.appender_errors.errors() {
        write!(shown, "{}. ", WithMeaning(error))?;
    }
    let records = [(Level::Info, "i"), (Level::Warn, "w"), (Level::Error, "e")];
    show_logged(alloc, loaded.config, &records, &mut shown)?;
    Ok(shown)
}

#[test]
fn each_reading_has_its_components(rt: HostRuntime) -> Result<(), Fail> {
    let alloc = rt.alloc();
    let around = surroundings(alloc, rt.stdout(), rt.stderr());
    let mut parts = parts(alloc)?;
    for row in TEXTS.split("\n---\n") {
        let (text, expected) = row.split_once("\n=> ").unwrap_or((row, ""));
        let came = came(&around, alloc, &mut parts, text)?;
        same(&rt, came.as_str(), expected);
    }
    Ok(())
}
