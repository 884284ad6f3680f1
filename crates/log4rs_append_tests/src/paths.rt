use jiff::Timestamp;
use jiff::tz::{Offset, TimeZone};
use log4rs_base::{expand_env_vars, expand_time, parent_of};
use std::alloc::Global;
use std::collections::BTreeMap;
use std::process::Abort;
use std::test::Fail;

/// Variables of the environment and their values. The last two names are invalid in paths.
const ENVIRONMENT: &str = "\
A=x
HOME=/home/ann
USER=ann
HELLO_WORLD=GOOD BYE
a.b=dotted
_1=under
2=two
größe٣=wide
EMPTY=
B=$ENV{A}
.A=dot
=nothing";

/// Paths with variables that have values, and the expanded paths, separated by a bar.
const KNOWN: &str = "\
$ENV{HOME}|/home/ann
$ENV{HELLO_WORLD}|GOOD BYE
$ENV{HOME}/test|/home/ann/test
/test/$ENV{HOME}|/test//home/ann
/test/$ENV{HOME}/test|/test//home/ann/test
/test$ENV{HOME}/test|/test/home/ann/test
test/$ENV{HOME}/test|test//home/ann/test
/$ENV{HOME}/test/$ENV{USER}|//home/ann/test/ann
/$ENV{HOME}/test/$ENV{NOT_THERE}|//home/ann/test/$ENV{NOT_THERE}
$ENV{A}$ENV{USER}|xann
$ENV{A}$ENV{A}$ENV{A}|xxx
$ENV{a.b}|dotted
$ENV{_1}|under
$ENV{2}|two
é$ENV{größe٣}é|éwideé
a$ENV{EMPTY}b|ab
$ENV{$ENV{A}}|$ENV{x}
$ENV{$ENV{A}|$ENV{x
$ENV{NOT_THERE$ENV{A}|$ENV{NOT_THEREx
$$ENV{A}}|$x}
$ENV{A}$ENV{A|x$ENV{A
$ENV{B}|$ENV{A}
$ENV{B}$ENV{A}|$ENV{A}x
$ENV{$ENV{B}}|$ENV{$ENV{A}}";

/// Paths that expansion leaves unchanged. The first is empty.
const KEPT: &str = "
log/é.log
$ENV{NOT_THERE}
/unterminated/$ENV{USER
$ENV{A
$ENV{.A}
$ENV{}
$ENV{a}
$ENV{A-B}
$ENV{ A}
$ENV{A }
$ENV{A..}
$env{A}
$ENV(A)
${A}$ENV";

/// Paths and their parents, or `none`, separated by a bar. The last path is empty.
const PARENTS: &str = "\
log/requests.log|log
/var/log/é/a.log|/var/log/é
a/b/|a/b
a//b|a/
//a|/
./a|.
/a|none
/|none
a.log|none
|none";

/// Returns the variables of `ENVIRONMENT`.
fn environment(alloc: Global) -> Result<BTreeMap<String, String>, Fail> {
    let mut environment = BTreeMap::new(alloc);
    for line in ENVIRONMENT.lines() {
        let (name, value) = line.split_once('=').unwrap_or((line, ""));
        environment.insert(
            String::from_str(alloc, name)?,
            String::from_str(alloc, value)?,
        )?;
    }
    Ok(environment)
}

/// Asserts that a path expands to this text.
fn expands(
    stop: &impl Abort,
    alloc: Global,
    path: &str,
    environment: &BTreeMap<String, String>,
    expected: &str,
) -> Result<(), Fail> {
    let text = expand_env_vars(alloc, path, environment)?;
    assert_eq!(stop; text.as_str(), expected);
    Ok(())
}

#[test]
fn names(rt: HostRuntime) -> Result<(), Fail> {
    let environment = environment(rt.alloc())?;
    for line in KNOWN.lines() {
        let (path, expected) = line.split_once('|').unwrap_or((line, ""));
        expands(&rt, rt.alloc(), path, &environment, expected)?;
    }
    for path in KEPT.lines() {
        expands(&rt, rt.alloc(), path, &environment, path)?;
    }
    Ok(())
}

#[test]
fn parents(rt: HostRuntime) {
    for line in PARENTS.lines() {
        let (path, expected) = line.split_once('|').unwrap_or((line, ""));
        assert_eq!(rt; parent_of(path).unwrap_or("none"), expected);
    }
}

/// Paths, and the paths expanded at 2016-03-20T14:22:20.644420340-08:00, separated by a bar. The
/// last path is empty.
const DATED: &str = "\
log-$TIME{INVALID}.log|log-INVALID.log
$TIME{%Q}-$TIME{%Y}|$TIME{%Q}-2016
$TIME{%Y}$TIME{%Y}$TIME{%Y}$TIME{%Y}$TIME{%Y}$TIME{%Y}|20162016201620162016$TIME{%Y}
$TIME{%Q}$TIME{%}$TIME{%Q}$TIME{%}$TIME{%Q}$TIME{%d}|$TIME{%Q}$TIME{%}$TIME{%Q}$TIME{%}$TIME{%Q}20
logs/log-$TIME{%Y-%m-%d}.log|logs/log-2016-03-20.log
$TIME{%m}-$TIME{no_brace.log|03-$TIME{no_brace.log
$TIME{%H}$TIME{%M}|1422
$TIME{%H:%M:%S%.3f %Z}|14:22:20.644 -08:00
a$TIME{}b|ab
$TIME{%Q$TIME{%Y}}|$TIME{%Q$TIME{%Y}}
$TIME{a$TIME{%Y}}|a$TIME{2016}
$TIME{$TIME{%Q}%Y}|$TIME{$TIME{%Q}%Y}
$TIME{%|$TIME{%
}$TIME{%d}|}20
$$TIME{%d}}|$20}
é$TIME{%dé}é|é20éé
$time{%d}$TIME(%d)|$time{%d}$TIME(%d)
log/é.log|log/é.log
foo/bar/logs/log-$TIME{%Y-%m-%d}.log|foo/bar/logs/log-2016-03-20.log
foo/bar/logs/log-$TIME{INVALID}.log|foo/bar/logs/log-INVALID.log
log-$TIME{%Y-%m-%d}-$TIME{no_closing_brace.log|log-2016-03-20-$TIME{no_closing_brace.log
log-$TIME{%Y-%m-%d}-$TIME{%Y-%m-%d}-$TIME{%Y-%m-%d}-$TIME{%Y-%m-%d}-$TIME{%Y-%m-%d}.log\
|log-2016-03-20-2016-03-20-2016-03-20-2016-03-20-2016-03-20.log
log-$TIME{%Y-%m-%d}-$TIME{%Y-%m-%d}-$TIME{%Y-%m-%d}-$TIME{%Y-%m-%d}-$TIME{%Y-%m-%d}\
-$TIME{%Y-%m-%d}-$TIME{%Y-%m-%d}-$TIME{%Y-%m-%d}-$TIME{%Y-%m-%d}-$TIME{%Y-%m-%d}.log\
|log-2016-03-20-2016-03-20-2016-03-20-2016-03-20-2016-03-20\
-$TIME{%Y-%m-%d}-$TIME{%Y-%m-%d}-$TIME{%Y-%m-%d}-$TIME{%Y-%m-%d}-$TIME{%Y-%m-%d}.log
foo/bar/bar.log|foo/bar/bar.log
foo/bar/logs-$TIME{%Y-%m-%d}/log-$TIME{%Y-%m-%d}.log|foo/bar/logs-2016-03-20/log-2016-03-20.log
|";

/// Asserts that a path expands to this text at a moment in a zone.
fn becomes(
    stop: &impl Abort,
    alloc: Global,
    path: &str,
    moment: Timestamp,
    zone: &TimeZone<'_>,
    expected: &str,
) -> Result<(), Fail> {
    let text = expand_time(alloc, path, moment, zone)?;
    assert_eq!(stop; text.as_str(), expected);
    Ok(())
}

#[test]
fn times(rt: HostRuntime) -> Result<(), Fail> {
    let alloc = rt.alloc();
    let moment = Timestamp::new(1_458_512_540, 644_420_340)?;
    let west = TimeZone::fixed(Offset::from_hours(-8)?);
    for line in DATED.lines() {
        let (path, expected) = line.split_once('|').unwrap_or((line, ""));
        becomes(&rt, alloc, path, moment, &west, expected)?;
    }
    becomes(&rt, alloc, "$TIME{%H}", moment, &TimeZone::UTC, "22")
}

#[test]
fn years_without_a_text(rt: HostRuntime) -> Result<(), Fail> {
    let alloc = rt.alloc();
    // The second before the year 0 in UTC. One hour to the east it is in the year 0.
    let early = Timestamp::new(-62_167_219_201, 0)?;
    let east = TimeZone::fixed(Offset::from_hours(1)?);
    for path in ["$TIME{%Y}", "$TIME{a}$TIME{}"] {
        becomes(&rt, alloc, path, early, &TimeZone::UTC, path)?;
    }
    becomes(&rt, alloc, "$TIME{%F}", early, &east, "0000-01-01")
}
