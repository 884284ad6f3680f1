use crate::setup::{
    context, cut, environment, held, planned, record, same, shown, store, string, window,
};
use crate::triggers::settings_of;
use log4rs_base::{Entry, OutOfMemory};
use log4rs_restarts::{
    Act, ActOutcome, Life, OpeningError, Report, RollingSettings, Run, lives, sessions,
};
use log4rs_rolling::MemStore;
use std::alloc::Global;
use std::test::Fail;

/// How a window is rolled: with copies if a rename is refused, with renames only, or in the
/// background.
#[derive(Clone, Copy)]
enum Way {
    Copies,
    Renames,
    Background,
}

/// Returns the settings in the first columns of a line, for the file `f`, and the rest of the line.
fn settings(alloc: Global, way: Way, line: &str) -> Result<(RollingSettings, &str), Fail> {
    let (trigger, rest) = cut(line);
    let ((pattern, base, count, _), rest) = window(rest);
    let (encoder_pattern, rest) = cut(rest);
    let settings = RollingSettings {
        path: string(alloc, "$ENV{NAME}")?,
        pattern: string(alloc, pattern)?,
        base,
        count,
        rename_only: matches!(way, Way::Renames),
        background: matches!(way, Way::Background),
        trigger: settings_of(trigger),
        encoder_pattern: string(alloc, encoder_pattern)?,
        env: environment(alloc)?,
    };
    Ok((settings, rest))
}

/// Returns the entry of a message.
fn entry(alloc: Global, message: &str) -> Result<Entry<'static>, OutOfMemory> {
    let logged = record(alloc, message)?;
    let context = context(alloc);
    Ok(Entry { logged, context })
}

/// Returns a step for `>`, a late append for `~` and a message, and otherwise an append of this
/// message.
fn act(alloc: Global, told: &str) -> Result<Act<'static>, OutOfMemory> {
    if told == ">" {
        return Ok(Act::Step);
    }
    match told.strip_prefix('~') {
        Some(message) => Ok(Act::Late(entry(alloc, message)?)),
        None => Ok(Act::Append(entry(alloc, told)?)),
    }
}

/// Returns a run of the messages that blanks separate, where `>` is a step, and `~` stands before a
/// message that comes late. The run stops after `stop_after` operations.
pub(crate) fn run(
    alloc: Global,
    stop_after: Option<u64>,
    messages: &str,
) -> Result<Run<'static>, Fail> {
    let mut acts = Vec::new(alloc);
    for message in messages.split(' ') {
        acts.push(act(alloc, message)?)?;
    }
    Ok(Run { acts, stop_after })
}

/// Returns the runs of a text such as `4:a b;-:c`: the number of operations after which the run
/// stops, or `-`, and its messages.
fn runs(alloc: Global, told: &str) -> Result<Vec<Run<'static>>, Fail> {
    let mut runs = Vec::new(alloc);
    for part in told.split(';') {
        let (stop, messages) = part.split_once(':').unwrap_or(("-", part));
        runs.push(run(alloc, stop.parse().ok(), messages)?)?;
    }
    Ok(runs)
}

/// Returns the word of an outcome.
fn answered(outcome: &ActOutcome) -> &'static str {
    match outcome {
        ActOutcome::Appended(answer) => shown(answer),
        ActOutcome::Stepped(Ok(true)) => "more",
        ActOutcome::Stepped(Ok(false)) => "done",
        ActOutcome::Stepped(Err(_)) => "refused",
    }
}

/// Returns the text of a report: for each run, whether it opened the file or why not, its outcomes,
/// and the decisions of the trigger.
fn told(alloc: Global, report: &Report) -> Result<String, Fail> {
    let mut text = String::new(alloc);
    for run in &report.runs {
        text.push_str(match run.opening {
            Ok(()) => " opened",
            Err(OpeningError::Settings) => " settings",
            Err(OpeningError::Store) => " refused",
            Err(OpeningError::Memory) => " memory",
        })?;
        for outcome in &run.outcomes {
            write!(text, " {}", answered(outcome))?;
        }
        for answer in &run.answers {
            text.push_str(if *answer { " yes" } else { " no" })?;
        }
    }
    Ok(text)
}

/// Does runs over a store. Returns the text of the report and the files.
fn ran(
    alloc: Global,
    settings: &RollingSettings,
    store: MemStore,
    runs: &[Run<'_>],
) -> Result<String, Fail> {
    let (store, report) = sessions(alloc, store, settings, runs);
    let mut text = told(alloc, &report?)?;
    text.push_str(held(alloc, &store)?.as_str())?;
    Ok(text)
}

/// Does the runs of a line. Returns the report and the files, and what the line expects.
fn came(alloc: Global, line: &str) -> Result<(String, &str), Fail> {
    let (settings, rest) = settings(alloc, Way::Renames, line)?;
    let (files, rest) = cut(rest);
    let (told, expected) = cut(rest);
    let runs = runs(alloc, told)?;
    let store = store(alloc, files, &[])?;
    Ok((ran(alloc, &settings, store, runs.as_slice())?, expected))
}

/// Does the runs of a line whose first column is the plan of the store. Returns the report and the
/// files, and what the line expects.
fn by_plan(alloc: Global, way: Way, line: &str) -> Result<(String, &str), Fail> {
    let (plan, rest) = cut(line);
    let (settings, rest) = settings(alloc, way, rest)?;
    let (files, rest) = cut(rest);
    let (told, expected) = cut(rest);
    let runs = runs(alloc, told)?;
    let store = store(alloc, files, planned(alloc, plan)?.as_slice())?;
    Ok((ran(alloc, &settings, store, runs.as_slice())?, expected))
}

/// A trigger, the window of archives, the pattern of the encoder, files, runs with the number of
/// operations after which each stops, and the expected report and files. The operations are the
/// opening, the length, the write and both renames.
const STOPPED: &str =
    "size 10|$ENV{NAME}.{}|0|2|{m}|f=ccccccccccc f.0=A f.1=B|0:d| refused f=ccccccccccc f.0=A f.1=B
size 10|$ENV{NAME}.{}|0|2|{m}|f=ccccccccccc f.0=A f.1=B|1:d| refused f=ccccccccccc f.0=A f.1=B
size 10|$ENV{NAME}.{}|0|2|{m}|f=ccccccccccc f.0=A f.1=B|2:d| opened store f=ccccccccccc f.0=A f.1=B
size 10|$ENV{NAME}.{}|0|2|{m}|f=ccccccccccc f.0=A f.1=B|3:d| opened store yes f=cccccccccccd f.0=A f.1=B
size 10|$ENV{NAME}.{}|0|2|{m}|f=ccccccccccc f.0=A f.1=B|4:d| opened store yes f=cccccccccccd f.1=A
size 10|$ENV{NAME}.{}|0|2|{m}|f=ccccccccccc f.0=A f.1=B|5:d| opened ok yes f.0=cccccccccccd f.1=A
size 10|$ENV{NAME}.{}|0|2|{m}|f=ccccccccccc f.0=A f.1=B|0:d;-:e| refused opened ok yes f.0=ccccccccccce f.1=A
size 10|$ENV{NAME}.{}|0|2|{m}|f=ccccccccccc f.0=A f.1=B|1:d;-:e| refused opened ok yes f.0=ccccccccccce f.1=A
size 10|$ENV{NAME}.{}|0|2|{m}|f=ccccccccccc f.0=A f.1=B|2:d;-:e| opened store opened ok yes f.0=ccccccccccce f.1=A
size 10|$ENV{NAME}.{}|0|2|{m}|f=ccccccccccc f.0=A f.1=B|3:d;-:e| opened store yes opened ok yes f.0=cccccccccccde f.1=A
size 10|$ENV{NAME}.{}|0|2|{m}|f=ccccccccccc f.0=A f.1=B|4:d;-:e| opened store yes opened ok yes f.0=cccccccccccde f.1=A
size 10|$ENV{NAME}.{}|0|2|{m}|f=ccccccccccc f.0=A f.1=B|5:d;-:e| opened ok yes opened ok no f=e f.0=cccccccccccd f.1=A";

/// Two writes, and a stop before the file is moved.
const UNMOVED: &str =
    "size 10|$ENV{NAME}.{}|0|2|{m}||4:aaaaaaa bbbbbbb| opened ok store no yes f=aaaaaaabbbbbbb
size 10|$ENV{NAME}.{}|0|2|<{m}>||4:aaaaaaa bbbbbbb| opened ok store no yes f=<aaaaaaa><bbbbbbb>
size 10|$ENV{NAME}.{}|0|2|{m}||4:aaaaaaa bbbbbbb;-:c| opened ok store no yes opened ok yes f.0=aaaaaaabbbbbbbc
size 10|$ENV{NAME}.{}|3|2|{m}||4:aaaaaaa bbbbbbb;-:c| opened ok store no yes opened ok yes f.3=aaaaaaabbbbbbbc
size 10|f.{}|0|2|{m}|f.0=A|-:a > bbbbbbbbbb >| opened ok done ok done no yes f.0=abbbbbbbbbb f.1=A";

/// A missing archive replaces nothing, so the oldest archive stays. Triggers start anew in each
/// run.
const STARTED: &str =
    "size 10|f.{}|0|3|{m}|f=DDDDDDDDDDD f.2=C|-:e| opened ok yes f.0=DDDDDDDDDDDe f.2=C
startup 3|$ENV{NAME}.{}|0|2|{m}|f=abc|-:d e;-:g| opened ok ok yes no opened ok no f=deg f.0=abc
startup 4|$ENV{NAME}.{}|0|2|{m}|f=abc|-:d e;-:g| opened ok ok no no opened ok yes f=g f.0=abcde
day 1|$ENV{NAME}.{}|0|2|{m}|f=abc|-:d e;-:g| opened ok ok no no opened ok no f=abcdeg";

/// Late records. Each opens the file, writes and closes it; no trigger is called, and the next
/// append opens the file again. A stop counts the opening and the write.
const LATE: &str =
    "size 10|f.{}|0|2|{m}||-:a ~bbbbbbbbbbb c| opened ok ok ok no yes f.0=abbbbbbbbbbbc
size 10|f.{}|0|2|{m}||-:aaaaaaaaaaa ~b| opened ok ok yes f=b f.0=aaaaaaaaaaa
size 10|f.{}|0|2|<{m}>||-:~a;-:b| opened ok opened ok no f=<a><b>
size 10|f.{}|0|2|{m}|f=abc|2:~d e| opened store store f=abc
size 10|f.{}|0|2|{m}|f=abc|3:~d e| opened store store f=abc
size 10|f.{}|0|2|{m}|f=abc|4:~d e;-:g| opened ok store opened ok no f=abcdg
startup 3|f.{}|0|2|{m}|f=abc|-:~d e| opened ok ok yes f=e f.0=abcd";

/// The same beside a rotation in the background, with the plan of the store. A refused write leaves
/// a beginning.
const LATE_BESIDE: &str =
    "|size 10|f.{}|0|2|{m}|f.0=A|-:aaaaaaaaaaa ~b > c >| opened ok ok more ok done yes no f=bc f.0=aaaaaaaaaaa f.1=A
|size 10|f.{}|0|2|{m}||-:aaaaaaaaaaa ~b;-:c| opened ok ok yes opened ok no f=bc f.0=aaaaaaaaaaa
...x|size 10|f.{}|0|2|{m}|f=abc|-:~d e| opened store ok no f=abce
....1x|size 10|f.{}|0|2|{m}|f=abc|-:~de g| opened store ok no f=abcdg";

/// An interval below 1, and windows that are refused. No file is opened.
const REFUSED: &str = "day 0|$ENV{NAME}.{}|0|2|{m}|f=abc|-:d e;-:g| settings settings f=abc
size 10|$ENV{NAME}.old|0|2|{m}|f=abc|-:d e;-:g| settings settings f=abc
size 10|$ENV{NAME}.{}.gz|0|2|{m}|f=abc|-:d e;-:g| settings settings f=abc
size 10|$ENV{NAME}.{}|4294967295|1|{m}|f=abc|-:d e;-:g| settings settings f=abc";

/// The plan of the store, and then the same columns. If a rename is refused, the file is copied and
/// then removed. A stop counts the copy and the removal too.
const COPIED: &str =
    "...x|size 10|f.{}|0|2|{m}|f=ccccccccccc f.0=A f.1=B|-:d| opened ok yes f.0=cccccccccccd f.1=A
....x|size 10|f.{}|0|2|{m}|f=ccccccccccc f.0=A f.1=B|-:d| opened ok yes f.0=cccccccccccd f.1=A
...xx|size 10|f.{}|0|2|{m}|f=ccccccccccc f.0=A f.1=B|-:d| opened store yes f=cccccccccccd f.0=A f.1=B
...x.x|size 10|f.{}|0|2|{m}|f=ccccccccccc f.0=A f.1=B|-:d| opened store yes f=cccccccccccd f.0=A f.1=A
...x|size 10|f.{}|0|2|{m}|f=ccccccccccc f.0=A f.1=B|4:d| opened store yes f=cccccccccccd f.0=A f.1=B
...x|size 10|f.{}|0|2|{m}|f=ccccccccccc f.0=A f.1=B|5:d| opened store yes f=cccccccccccd f.0=A f.1=A
...x|size 10|f.{}|0|2|{m}|f=ccccccccccc f.0=A f.1=B|6:d| opened store yes f=cccccccccccd f.1=A
...x|size 10|f.{}|0|2|{m}|f=ccccccccccc f.0=A f.1=B|7:d| opened ok yes f.0=cccccccccccd f.1=A
x|size 10|f.{}|0|2|{m}|f=abc|-:d;-:e| refused opened ok no f=abce
..x|size 10|f.{}|0|2|{m}|f=abc|-:d e;-:g| opened store ok no opened ok no f=abceg";

/// No archive is kept: the file is removed if the trigger fires.
const NOT_KEPT: &str =
    "|size 10|f.{}|0|0|{m}|f=ccccccccccc f.0=A|-:d;-:e| opened ok yes opened ok no f=e f.0=A
|size 10|f.{}|0|0|{m}|f=ccccccccccc f.0=A|3:d| opened store yes f=cccccccccccd f.0=A
|size 10|f.{}|0|0|{m}|f=ccccccccccc f.0=A|0:d;-:e| refused opened ok yes f.0=A
...x|size 10|f.{}|0|0|{m}|f=ccccccccccc f.0=A|-:d| opened store yes f=cccccccccccd f.0=A";

/// Rolling in the background. The opening looks for a waiting file by renaming it to itself. If the
/// trigger fires, the file is renamed to its path with `.rolling`, after any remaining moves of the
/// last rolling. Each step makes the next move, the highest archive first and the waiting file
/// last. A stop counts only the move of a step, even while the file is open.
const BACKGROUND: &str =
    "|size 10|f.{}|0|2|{m}|f.0=A f.1=B|-:aaaaaaaaaaa > b > >| opened ok more ok done done yes no f=b f.0=aaaaaaaaaaa f.1=A
....x|size 10|f.{}|0|2|{m}||-:aaaaaaaaaaa x| opened store ok yes yes f.rolling=aaaaaaaaaaax
|size 10|f.{}|0|2|{m}||-:aaaaaaaaaaa > >| opened ok more done yes f.0=aaaaaaaaaaa
|size 10|f.{}|0|2|{m}|f.0=A f.1=B|-:aaaaaaaaaaa bbbbbbbbbbb| opened ok ok yes yes f.0=aaaaaaaaaaa f.1=A f.rolling=bbbbbbbbbbb
|size 10|f.{}|0|2|{m}|f.0=A f.1=B|1:aaaaaaaaaaa > >| refused f.0=A f.1=B
|size 10|f.{}|0|2|{m}|f.0=A f.1=B|4:aaaaaaaaaaa > >| opened store done done yes f=aaaaaaaaaaa f.0=A f.1=B
|size 10|f.{}|0|2|{m}|f.0=A f.1=B|5:aaaaaaaaaaa > >| opened ok refused refused yes f.0=A f.1=B f.rolling=aaaaaaaaaaa
|size 10|f.{}|0|2|{m}|f.0=A f.1=B|6:aaaaaaaaaaa > >| opened ok more refused yes f.1=A f.rolling=aaaaaaaaaaa
|size 10|f.{}|0|2|{m}|f.0=A f.1=B|7:aaaaaaaaaaa > >| opened ok more done yes f.0=aaaaaaaaaaa f.1=A
.....x|size 10|f.{}|0|2|{m}|f.0=A f.1=B|-:aaaaaaaaaaa > > >| opened ok refused more done yes f.0=aaaaaaaaaaa f.1=A
...........x|size 10|f.{}|0|2|{m}|f.0=A|-:aaaaaaaaaaa b cccccccccc d| opened ok ok store ok yes no yes yes f.0=aaaaaaaaaaa f.1=A f.rolling=bccccccccccd
|size 10|f.{}|0|2|{m}|f.0=A|11:aaaaaaaaaaa > b > c| opened ok more ok done ok yes no no f=bc f.0=aaaaaaaaaaa f.1=A
|size 10|f.{}|0|2|{m}|f.0=A|10:aaaaaaaaaaa > b > c| opened ok more ok done store yes no f=b f.0=aaaaaaaaaaa f.1=A
|size 10|f.{}|0|2|{m}|f.0=A|5:b > > > c| opened ok done done done ok no no f=bc f.0=A
|size 10|f.{}|0|0|{m}|f.0=A|-:aaaaaaaaaaa >| opened ok done yes f.0=A";

/// A run that opens the file first makes the remaining moves of an earlier run: a waiting file
/// becomes the newest archive, and the oldest may be removed. If a move is refused, the file is not
/// opened, and the next run tries again.
const LEFT: &str =
    "|size 10|f.{}|0|2|{m}||-:aaaaaaaaaaa b| opened ok ok yes no f=b f.rolling=aaaaaaaaaaa
|size 10|f.{}|0|2|{m}||-:aaaaaaaaaaa b;-:c| opened ok ok yes no opened ok no f=bc f.0=aaaaaaaaaaa
|size 10|f.{}|0|2|{m}||-:aaaaaaaaaaa b;2:c| opened ok ok yes no refused f=b f.rolling=aaaaaaaaaaa
|size 10|f.{}|0|2|{m}||-:aaaaaaaaaaa b;2:c;-:d| opened ok ok yes no refused opened ok no f=bd f.0=aaaaaaaaaaa
|size 10|f.{}|0|2|{m}|f=b f.0=A f.1=B f.rolling=C|-:c| opened ok no f=bc f.0=C f.1=A
|size 10|f.{}|0|2|{m}|f=b f.0=A f.1=B f.rolling=C|0:c| refused f=b f.0=A f.1=B f.rolling=C
|size 10|f.{}|0|2|{m}|f=b f.0=A f.1=B f.rolling=C|2:c| refused f=b f.1=A f.rolling=C
|size 10|f.{}|0|2|{m}|f=b f.0=A f.1=B f.rolling=C|3:c| refused f=b f.0=C f.1=A
|size 10|f.{}|0|2|{m}|f=b f.0=A f.1=B f.rolling=C|2:c;-:d| refused opened ok no f=bd f.0=C f.1=A
x|size 10|f.{}|0|2|{m}|f=b f.rolling=C|-:c;-:d| refused opened ok no f=bd f.0=C
|size 10|f.{}|0|0|{m}|f=b f.rolling=C|-:c| opened ok no f=bc f.rolling=C";

/// Both archives have the same name. The file of that name holds the newer one.
const COINCIDE: &str =
    "|size 10|$ENV{A{}}|0|2|{m}|f=ccccccccccc same=A|-:d| opened ok yes same=cccccccccccd
|size 10|$ENV{A{}}|0|2|{m}|f=ccccccccccc same=A|4:d;-:e| opened store yes opened ok yes same=cccccccccccde
..x|size 10|$ENV{A{}}|0|2|{m}|f=ccccccccccc same=A|-:d;-:e| opened store opened ok yes same=ccccccccccce
x|size 10|$ENV{A{}}|0|2|{m}|f=ccccccccccc same=A|-:d| refused f=ccccccccccc same=A";

#[test]
fn runs_over_what_refuses(rt: HostRuntime) -> Result<(), Fail> {
    for table in [COPIED, NOT_KEPT, COINCIDE] {
        for line in table.lines() {
            let (came, expected) = by_plan(rt.alloc(), Way::Copies, line)?;
            same(&rt, came.as_str(), expected);
        }
    }
    Ok(())
}

#[test]
fn runs_in_the_background(rt: HostRuntime) -> Result<(), Fail> {
    for table in [BACKGROUND, LEFT, LATE_BESIDE] {
        for line in table.lines() {
            let (came, expected) = by_plan(rt.alloc(), Way::Background, line)?;
            same(&rt, came.as_str(), expected);
        }
    }
    Ok(())
}

#[test]
fn runs_by_settings(rt: HostRuntime) -> Result<(), Fail> {
    for table in [STOPPED, UNMOVED, STARTED, LATE, REFUSED] {
        for line in table.lines() {
            let (came, expected) = came(rt.alloc(), line)?;
            same(&rt, came.as_str(), expected);
        }
    }
    Ok(())
}

/// Does the runs of a line. Returns how many operations the stop of each run let pass and refused,
/// and what the line expects.
fn counted(alloc: Global, line: &str) -> Result<(String, &str), Fail> {
    let (settings, rest) = settings(alloc, Way::Renames, line)?;
    let (told, expected) = cut(rest);
    let runs = runs(alloc, told)?;
    let (_, report) = sessions(alloc, store(alloc, "", &[])?, &settings, runs.as_slice());
    let mut text = String::new(alloc);
    for run in &report?.runs {
        write!(text, " {} {}", run.passed, run.stopped)?;
    }
    Ok((text, expected))
}

/// The operations are the opening, the length, each write and each rename; of a late append, the
/// opening and each write. A run without a stop counts none.
const COUNTED: &str = "size 10|$ENV{NAME}.{}|0|2|{m}|4:aaaaaaa bbbbbbb;-:c| 4 1 0 0
size 10|$ENV{NAME}.{}|0|2|{m}|0:a;1:a;2:a;9:a| 0 1 1 1 2 1 3 0
size 10|$ENV{NAME}.{}|0|2|{m}|9:~a b| 7 0";

#[test]
fn counts_of_a_stop(rt: HostRuntime) -> Result<(), Fail> {
    for line in COUNTED.lines() {
        let (came, expected) = counted(rt.alloc(), line)?;
        same(&rt, came.as_str(), expected);
    }
    Ok(())
}

/// Returns the life of a text such as `2=4:a b;-:c`: the number of archives, and the runs.
fn life(alloc: Global, told: &str) -> Result<Life<'static>, Fail> {
    let (count, told) = told.split_once('=').unwrap_or(("0", told));
    let line = format!(in alloc; "size 10|f.{{}}|0|{count}|{{m}}|")?;
    let runs = runs(alloc, told)?;
    let (settings, _) = settings(alloc, Way::Renames, line.as_str())?;
    Ok(Life { settings, runs })
}

/// Does the lives of a line. Returns the files, and what the line expects.
fn lived(alloc: Global, line: &str) -> Result<(String, &str), Fail> {
    let (files, rest) = cut(line);
    let (told, expected) = cut(rest);
    let mut all = Vec::new(alloc);
    for part in told.split('/') {
        all.push(life(alloc, part)?)?;
    }
    let (store, reports) = lives(alloc, store(alloc, files, &[])?, all.as_slice());
    reports?;
    Ok((held(alloc, &store)?, expected))
}

/// Files, lives with the number of archives of each, and the files that are left. Archives above a
/// smaller number are hidden and stay; a larger number sees them again.
const LIVED: &str = "|2=-:aaaaaaaaaaa bbbbbbbbbbb| f.0=bbbbbbbbbbb f.1=aaaaaaaaaaa
|2=-:aaaaaaaaaaa bbbbbbbbbbb/1=-:ccccccccccc ddddddddddd| f.0=ddddddddddd f.1=aaaaaaaaaaa
|2=-:aaaaaaaaaaa bbbbbbbbbbb/1=-:ccccccccccc ddddddddddd/2=-:eeeeeeeeeee| f.0=eeeeeeeeeee f.1=ddddddddddd
|2=-:aaaaaaaaaaa b/2=-:~ccccccccccc d| f.0=bcccccccccccd f.1=aaaaaaaaaaa
|1=-:aaaaaaaaaaa bbbbbbbbbbb/2=-:ccccccccccc/3=-:ddddddddddd e| f=e f.0=ddddddddddd f.1=ccccccccccc f.2=bbbbbbbbbbb
f.0=A f.1=B|1=-:aaaaaaaaaaa/2=3:bbbbbbbbbbb/2=-:c| f.0=bbbbbbbbbbbc f.1=aaaaaaaaaaa";

#[test]
fn lives_of_other_counts(rt: HostRuntime) -> Result<(), Fail> {
    for line in LIVED.lines() {
        let (came, expected) = lived(rt.alloc(), line)?;
        same(&rt, came.as_str(), expected);
    }
    Ok(())
}
