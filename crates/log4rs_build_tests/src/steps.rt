ghost use Rattle.std.specs.Prelude.{⊤, Some};
ghost use Rattle.log4rs_settings.specs.NotedSource.{answers_of};
ghost use Rattle.log4rs_settings.specs.Reload.{Reloads, answer_of, state_of};

use crate::setup::same;
use log4rs_base::OutOfMemory;
use log4rs_settings::{
    ConfigSource, Format, LoadError, LoadedText, Loads, NotedSource, ReloadError, ReloadOf,
    Reloader, SourceError,
};
use std::alloc::Global;
use std::test::Fail;

/// A source that returns results from words: a stamp is a number, a text stands after `=`, `!` is
/// want of memory, and anything else is a refusal. It refuses at the end of the words, too.
#[derive(Drop)]
struct Script<'a> {
    alloc: Global,
    left: &'a str,
}

impl<'a> Script<'a> {
    fn next(&mut self) -> &'a str {
        let (word, left) = self.left.split_once(' ').unwrap_or((self.left, ""));
        self.left = left;
        word
    }
}

impl ConfigSource for Script<'_> {
    fn modified(&mut self) -> Result<u64, SourceError> {
        match self.next() {
            "!" => Err(SourceError::Memory),
            word => word.parse().map_err(|_| SourceError::Refused),
        }
    }

    fn read(&mut self) -> Result<String, SourceError> {
        let word = self.next();
        if word == "!" {
            return Err(SourceError::Memory);
        }
        match word.strip_prefix('=') {
            Some(text) => String::from_str(self.alloc, text).map_err(|_| SourceError::Memory),
            None => Err(SourceError::Refused),
        }
    }
}

/// Loads a number as the configuration and the refresh rate. The text `memory` fails for lack of
/// memory.
#[derive(Drop)]
struct Numbers;

impl Loads<(), ()> for Numbers {
    type Config = u64;

    type AppenderErrors = ();

    type ConfigErrors = ();

    ghost Gives = { λ maker surroundings format text given old new. ⊤ };

    ghost Stays = { λ maker old maker' new. ⊤ };

    fn load(
        &mut self,
        _: Format,
        text: &str,
        _: &mut (),
        _: &(),
    ) -> Result<LoadedText<u64, (), ()>, LoadError> {
        if text == "memory" {
            return Err(LoadError::Memory);
        }
        match text.parse::<u64>() {
            Ok(number) => Ok(LoadedText {
                config: number,
                appender_errors: (),
                config_errors: (),
                rate: Some(number),
            }),
            Err(_) => Err(LoadError::Refused),
        }
    }
}

/// Runs a step over a source that notes its results.
fn step<S: ConfigSource>(
    reloader: &mut Reloader,
    source: &mut NotedSource<S>,
    numbers: &mut Numbers,
) -> Result<ReloadOf<u64, (), ()>, ReloadError>
    ensures { Reloads (λ text given old new. ⊤) (Some (answers_of source.old))
        (Some (answers_of source.new)) (state_of reloader.old) numbers.old (answer_of result)
        (state_of reloader.new) numbers.new }
{
    reloader.run_once(source, numbers, &mut (), &())
}

/// Returns the word of an outcome.
pub(crate) fn word<C, A, E>(answer: &Result<ReloadOf<C, A, E>, ReloadError>) -> &'static str {
    match answer {
        Ok(ReloadOf::Same) => "same",
        Ok(ReloadOf::Swap { rate: None, .. }) => "swap without a rate",
        Ok(ReloadOf::Swap { .. }) => "swap",
        Err(ReloadError::Modified) => "modified",
        Err(ReloadError::Read) => "read",
        Err(ReloadError::Parse) => "parse",
        Err(ReloadError::Memory) => "memory",
    }
}

/// Runs `count` steps after the text `1` was read, with a source of these words. Returns the
/// outcomes and the rates.
fn shown(
    alloc: Global,
    stamp: Option<u64>,
    words: &str,
    count: usize,
) -> Result<String, OutOfMemory> {
    let text = String::from_str(alloc, "1")?;
    let mut reloader = Reloader::new(Format::Toml, text, stamp, Some(1));
    let mut source = NotedSource::new(Script { alloc, left: words });
    let mut shown = String::new(alloc);
    for _ in 0..count {
        let answer = step(&mut reloader, &mut source, &mut Numbers);
        let rate = reloader.rate().unwrap_or(0);
        write!(shown, "{} {rate}, ", word(&answer))?;
    }
    Ok(shown)
}

/// What twelve steps find over a source that has stamps.
const BY_STAMPS: &str = "same 1, modified 1, same 1, same 1, read 1, same 1, parse 1, same 1, \
    memory 1, memory 1, swap 7, memory 7, ";

#[test]
fn steps(rt: HostRuntime) -> Result<(), Fail> {
    let alloc = rt.alloc();
    let words = "1 - 2 =1 2 3 - 3 4 =x 4 5 ! 5 =memory 5 =7 !";
    same(&rt, shown(alloc, Some(1), words, 12)?.as_str(), BY_STAMPS);
    let unstamped = shown(alloc, None, "- =1 =x =x =1", 5)?;
    same(
        &rt,
        unstamped.as_str(),
        "read 1, same 1, parse 1, same 1, swap 1, ",
    );
    Ok(())
}
