use crate::setup::{append, cut, environment, held, pattern, planned, roller, same, shown, store};
use log4rs_append::policy::{AnyRoller, AnyTrigger, CompoundPolicy, Policy, SizeTrigger};
use log4rs_append::{Append, RollingFileAppender};
use log4rs_base::LogError;
use log4rs_encode::AnyEncoder;
use log4rs_rolling::MemStore;
use log4rs_rolling::store::Store;
use std::alloc::Global;
use std::test::Fail;

/// Builds an appender to the file at a path, which the policy rolls.
pub(crate) fn built_by<S: Store + Drop, P: Policy<S> + Drop>(
    alloc: Global,
    encoder: AnyEncoder,
    append_mode: bool,
    path: &str,
    store: S,
    policy: P,
) -> Result<RollingFileAppender<S, P, AnyEncoder>, LogError> {
    let env = environment(alloc)?;
    RollingFileAppender::builder(alloc)
        .encoder(encoder)
        .append(append_mode)
        .build(path, store, policy, &env)
}

/// Builds an appender of messages to such a file.
pub(crate) fn built<S: Store + Drop, P: Policy<S> + Drop>(
    alloc: Global,
    append_mode: bool,
    path: &str,
    store: S,
    policy: P,
) -> Result<RollingFileAppender<S, P, AnyEncoder>, LogError> {
    built_by(
        alloc,
        pattern(alloc, "{m}")?,
        append_mode,
        path,
        store,
        policy,
    )
}

/// Appends the messages that blanks separate. Returns the outcomes, each after a space.
pub(crate) fn answers<A: Append>(
    alloc: Global,
    appender: &mut A,
    messages: &str,
) -> Result<String, Fail> {
    let mut text = String::new(alloc);
    for message in messages.split(' ') {
        if !message.is_empty() {
            let answer = append(alloc, appender, message);
            write!(text, " {}", shown(&answer))?;
        }
    }
    Ok(text)
}

/// An appender to a rolled file in memory.
type Rolled = RollingFileAppender<MemStore, CompoundPolicy<AnyRoller>, AnyEncoder>;

/// Appends messages. Returns the outcomes, the path and the length of the file, and the files.
fn logged(alloc: Global, appender: &mut Rolled, messages: &str) -> Result<String, Fail> {
    let answers = answers(alloc, appender, messages)?;
    appender.flush();
    let files = held(alloc, appender.store())?;
    let (path, len) = (appender.file().path(), appender.file().len());
    Ok(format!(in alloc; "{answers} {path}:{len}{files}")?)
}

/// Returns a policy that rolls files of more than three bytes and keeps two archives.
fn policy(alloc: Global) -> Result<CompoundPolicy<AnyRoller>, Fail> {
    let roller = roller(alloc, ("$ENV{NAME}.{}", 0, 2, false))?;
    let trigger = AnyTrigger::Size(SizeTrigger::new(3));
    Ok(CompoundPolicy::new(trigger, AnyRoller::FixedWindow(roller)))
}

/// Appends the messages of a line, where `f` holds `old`. Returns the outcomes, the path and the
/// length of the file and the files, and what the line expects.
fn came(alloc: Global, line: &str) -> Result<(String, &str), Fail> {
    let (mode, rest) = cut(line);
    let (path, rest) = cut(rest);
    let (plan, rest) = cut(rest);
    let (messages, expected) = cut(rest);
    let store = store(alloc, "f=old", planned(alloc, plan)?.as_slice())?;
    let mut appender = match built(alloc, mode == "append", path, store, policy(alloc)?) {
        Ok(appender) => appender,
        Err(fault) => return Ok((format!(in alloc; "not built: {fault}")?, expected)),
    };
    Ok((logged(alloc, &mut appender, messages)?, expected))
}

/// `append` or `truncate`, the path, the plan of the store, messages, and the expected outcomes,
/// path and length of the file, and files.
const ROLLED: &str = "append|f||| f:3 f=old
append|f||a b| ok ok f:1 f=b f.0=olda
append|$ENV{NAME}||a b| ok ok f:1 f=b f.0=olda
truncate|f||abc d e| ok ok ok f:1 f=e f.0=abcd
append|d/g||a| ok d/g:1 d/g=a f=old";

/// First, the opening, the length and two writes pass, and the rename of the file and its copy are
/// refused. Then a write takes one byte, and the next is refused.
const REFUSED: &str = "append|f|....xx|a b c| store ok ok f:1 f=c f.0=oldab
truncate|f|.1x|ab c| store ok f:2 f=ac";

/// The opening, the length after it, or the creation of a folder is refused.
const NOT_BUILT: &str = "append|f|x||not built: the store refused an operation
append|f|.x||not built: the store refused an operation
append|d/f|x||not built: the store refused an operation";

#[test]
fn rolled_files(rt: HostRuntime) -> Result<(), Fail> {
    for table in [ROLLED, REFUSED, NOT_BUILT] {
        for line in table.lines() {
            let (came, expected) = came(rt.alloc(), line)?;
            same(&rt, came.as_str(), expected);
        }
    }
    Ok(())
}
