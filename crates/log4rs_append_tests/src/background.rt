//! Rolling in the background, step by step, between appends.

use crate::rolling::built;
use crate::setup::{
    append, append_retired, cut, environment, held, pattern, planned, same, shown, store,
};
use log4rs_append::{Locked, MemoryAppender, Steps};
use log4rs_rolling::{CompoundPolicyOf, FixedWindowRoller, SizeTrigger};
use std::alloc::Global;
use std::test::Fail;

/// Rolls files of more than ten bytes in the background.
pub(crate) type Beside = CompoundPolicyOf<SizeTrigger, FixedWindowRoller>;

/// Returns a policy that keeps `count` archives `f.{}`, from index 0 on.
pub(crate) fn beside(alloc: Global, count: u32) -> Result<Beside, Fail> {
    let env = environment(alloc)?;
    let builder = FixedWindowRoller::builder().background(true);
    let roller = builder.build(alloc, "f.{}", count, &env)?;
    Ok(CompoundPolicyOf::new(SizeTrigger::new(10), roller))
}

/// Does an act and returns its outcome. `!` makes a step, `*` makes all remaining moves, `-`
/// retires and `+` resumes the appender. A message after `>` is appended as to a retired appender,
/// and any other message is appended.
fn answer<A: Steps>(alloc: Global, appender: &mut A, act: &str) -> &'static str {
    match act {
        "!" => match appender.step() {
            Ok(true) => "more",
            Ok(false) => "done",
            Err(fault) => shown(&Err(fault)),
        },
        "*" => shown(&appender.drive()),
        "-" => shown(&appender.retire()),
        "+" => shown(&appender.resume()),
        message => match message.strip_prefix('>') {
            Some(message) => shown(&append_retired(alloc, appender, message)),
            None => shown(&append(alloc, appender, message)),
        },
    }
}

/// Does the acts that blanks separate. Returns the outcomes, each after a space.
fn acted<A: Steps>(alloc: Global, appender: &mut A, acts: &str) -> Result<String, Fail> {
    let mut text = String::new(alloc);
    for act in acts.split_whitespace() {
        write!(text, " {}", answer(alloc, appender, act))?;
    }
    Ok(text)
}

/// Does the acts of a line. Returns the outcomes and the files, and what the line expects.
fn came(alloc: Global, append_mode: bool, line: &str) -> Result<(String, &str), Fail> {
    let (told, rest) = cut(line);
    let (plan, rest) = cut(rest);
    let (acts, expected) = cut(rest);
    let store = store(alloc, told, planned(alloc, plan)?.as_slice())?;
    let mut appender = built(alloc, append_mode, "f", store, beside(alloc, 2)?)?;
    let mut text = acted(alloc, &mut appender, acts)?;
    text.push_str(held(alloc, appender.store())?.as_str())?;
    Ok((text, expected))
}

/// Files, the plan of the store, acts, and the expected outcomes and files. An append renames the
/// file to `f.rolling`; each step makes one move, even while the next file is open; and the
/// remaining moves of a rolling are made before the next rolling.
const ACTS: &str = "f.0=A f.1=B||aaaaaaaaaaa ! b ! !| ok more ok done done f=b f.0=aaaaaaaaaaa f.1=A
f.0=A f.1=B||aaaaaaaaaaa| ok f.0=A f.1=B f.rolling=aaaaaaaaaaa
f.0=A f.1=B||aaaaaaaaaaa !| ok more f.1=A f.rolling=aaaaaaaaaaa
f.0=A f.1=B||aaaaaaaaaaa b *| ok ok ok f=b f.0=aaaaaaaaaaa f.1=A
f.0=A||aaaaaaaaaaa bbbbbbbbbbb| ok ok f.0=aaaaaaaaaaa f.1=A f.rolling=bbbbbbbbbbb
f.0=A||aaaaaaaaaaa ! b ! bbbbbbbbbb| ok more ok done ok f.0=aaaaaaaaaaa f.1=A f.rolling=bbbbbbbbbbb
f=a||! *| done ok f=a
||aaaaaaaaaaa b - >c| ok ok ok ok f=bc f.0=aaaaaaaaaaa
f.0=A||aaaaaaaaaaa ! b - - >cccccccccccc >d| ok more ok ok ok ok ok f=bccccccccccccd f.0=aaaaaaaaaaa f.1=A
||a - >bbbbbbbbbbbb + c ! !| ok ok ok ok ok more done f.0=abbbbbbbbbbbbc";

/// Refused operations, in the same columns. If the first rename is refused, the file stays and
/// grows. If a move is refused, the next step makes it again. If the remaining moves of the last
/// rolling are refused, the file grows. A retired file may have a move left, and a retired file
/// that cannot be opened is neither written nor resumed.
const REFUSED: &str = "|....x|aaaaaaaaaaa x| store ok f.rolling=aaaaaaaaaaax
f.0=A f.1=B|.....x|aaaaaaaaaaa ! ! !| ok store more done f.0=aaaaaaaaaaa f.1=A
f.0=A f.1=B|.....x|aaaaaaaaaaa * *| ok store ok f.0=aaaaaaaaaaa f.1=A
f.0=A|........x|aaaaaaaaaaa bbbbbbbbbbb c| ok store ok f.0=aaaaaaaaaaa f.1=A f.rolling=bbbbbbbbbbbc
f.0=A f.1=B|.....x|aaaaaaaaaaa - >b -| ok store ok ok f=b f.0=aaaaaaaaaaa f.1=A
f=a|....xx|- >b + + c| ok store store ok ok f=ac";

/// A file is truncated when the appender opens it. Neither retiring nor resuming truncates it
/// again.
const EMPTIED: &str = "f=a||b - >c + d| ok ok ok ok ok f=bcd";

#[test]
fn acts_beside_rollings(rt: HostRuntime) -> Result<(), Fail> {
    for (append_mode, table) in [(true, ACTS), (true, REFUSED), (false, EMPTIED)] {
        for line in table.lines() {
            let (came, expected) = came(rt.alloc(), append_mode, line)?;
            same(&rt, came.as_str(), expected);
        }
    }
    Ok(())
}

#[test]
fn others_leave_nothing(rt: HostRuntime) -> Result<(), Fail> {
    let alloc = rt.alloc();
    let memory = MemoryAppender::new(alloc, pattern(alloc, "{m}")?);
    let mut locked = Locked::new(alloc, memory)?;
    same(
        &rt,
        acted(alloc, &mut locked, "a ! *")?.as_str(),
        " ok done ok",
    );
    assert!(rt; matches!(locked.step_free(), Some(Ok(false))));
    locked.drive_shared(&rt)?;
    Ok(())
}
