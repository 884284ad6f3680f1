use crate::rows::cut;
use log4rs_base::TimeTriggerInterval;
use log4rs_settings::{parse_duration, parse_interval, parse_size};
use std::test::Fail;

/// Texts of sizes, and their bytes.
const SIZES: &str = "\
    0 => 0;\
    1024 => 1024;\
    007 => 7;\
    1 b => 1;\
    1B => 1;\
    1024 kb => 1048576;\
    10 kb => 10240;\
    1kib => 1024;\
    10 MB => 10485760;\
    32 Mib   => 33554432;\
    2 gb => 2147483648;\
    2 GiB => 2147483648;\
    1 tb => 1099511627776;\
    1TIB => 1099511627776;\
    1\t\n kb\u{a0}\u{2003} => 1024;\
    0 tb => 0;\
    18446744073709551615 => 18446744073709551615;\
    18446744073709551615b => 18446744073709551615;\
    18014398509481983 kb => 18446744073709550592;\
    17592186044415 mb => 18446744073708503040;\
    17179869183 gb => 18446744072635809792;\
    16777215 tb => 18446742974197923840";

/// Texts that are not sizes.
const NO_SIZES: &str = "\
    ;10 ;10\t\n;kb; 1; 1 kb;+1;-1;1.5 mb;1,000;1 zb;1 k;1 kbs;1 k b;1 bytes;1_000;١;\
    18446744073709551616;18014398509481984 kb;17592186044416 mb;17179869184 gb;16777216 tb";

/// Texts of intervals, and the intervals.
const INTERVALS: &str = "\
    0 => second 0;\
    1 => second 1;\
    1 second => second 1;\
    1 seconds => second 1;\
    5 Seconds => second 5;\
    2 minute => minute 2;\
    2MINUTES => minute 2;\
    3 hour => hour 3;\
    3 hours => hour 3;\
    2DAY => day 2;\
    4 days => day 4;\
    1 week => week 1;\
    1 weeks => week 1;\
    6 month => month 6;\
    6 months => month 6;\
    1 year => year 1;\
    10 Years => year 10;\
    7 \t days \n => day 7;\
    0 years => year 0;\
    9223372036854775807 => second 9223372036854775807;\
    9223372036854775807 years => year 9223372036854775807";

/// Texts that are not intervals.
const NO_INTERVALS: &str = "\
    ;1 ;1 \u{a0};abc;-1;+1;2.0;5 das;1 daysx;1 d; 1 day;day;1 day 2 hours;9223372036854775808;\
    9223372036854775808 days;18446744073709551616";

/// Texts of durations, and their milliseconds.
const DURATIONS: &str = "5ms => 5
5 msec => 5
5s => 5000
5 sec => 5000
5 second => 5000
60 seconds => 60000
1m => 60000
1 min => 60000
1 minute => 60000
5minutes => 300000
1h => 3600000
1hr => 3600000
1 hour => 3600000
2 hours => 7200000
1d => 86400000
1 day => 86400000
2 days => 172800000
1w => 604800000
1 week => 604800000
2 weeks => 1209600000
1h 30m => 5400000
1h30m => 5400000
1  h   30  m => 5400000
30m 1h => 5400000
1 hr 2min => 3720000
2 days 3h => 183600000
5s5s => 10000
1w1d1h1m1s1ms => 694861001
0s => 0
0ms 0w => 0
007s => 7000
18446744073709551615ms => 18446744073709551615
18446744073709551614ms 1ms => 18446744073709551615
18446744073709551s 615ms => 18446744073709551615
18446744073709551s => 18446744073709551000
307445734561825m => 18446744073709500000
5124095576030h => 18446744073708000000
213503982334d => 18446744073657600000
30500568904w => 18446744073139200000
0w 18446744073709551615ms => 18446744073709551615
1ms 1ms 1ms 1ms 1ms 1ms 1ms 1ms => 8";

/// Texts that are not durations.
const NO_DURATIONS: &str = "\
    ; ;s;30;1h 30;1 d 2; 30s;30s ;1h 30m ;-1s;+1s;1.5s;1,5s;5 S;5 Ms;5\ts;1h\t30m;1h, 30m;\
    1h-30m;1 mins;1 secs;1 msecs;1 hrs;1 month;1y;10ns;5 µs;1hs;18446744073709551616ms;\
    18446744073709551615ms 1ms;18446744073709551s 616ms;18446744073709552s;30500568905w;\
    18446744073709551615s";

#[test]
fn sizes(rt: HostRuntime) -> Result<(), Fail> {
    for row in SIZES.split(';') {
        let (text, bytes) = cut(row);
        assert_eq!(rt; parse_size(text), bytes.parse::<u64>().ok(), "{row}");
    }
    for text in NO_SIZES.split(';') {
        assert_eq!(rt; parse_size(text), None, "{text}");
    }
    Ok(())
}

/// Returns the interval of a text such as `second 5`.
fn interval(told: &str) -> Option<TimeTriggerInterval> {
    let (unit, number) = told.split_once(' ')?;
    let number = number.parse::<i64>().ok()?;
    match unit {
        "second" => Some(TimeTriggerInterval::Second(number)),
        "minute" => Some(TimeTriggerInterval::Minute(number)),
        "hour" => Some(TimeTriggerInterval::Hour(number)),
        "day" => Some(TimeTriggerInterval::Day(number)),
        "week" => Some(TimeTriggerInterval::Week(number)),
        "month" => Some(TimeTriggerInterval::Month(number)),
        "year" => Some(TimeTriggerInterval::Year(number)),
        _ => None,
    }
}

#[test]
fn intervals(rt: HostRuntime) -> Result<(), Fail> {
    for row in INTERVALS.split(';') {
        let (text, told) = cut(row);
        assert_eq!(rt; parse_interval(text), interval(told), "{row}");
    }
    for text in NO_INTERVALS.split(';') {
        assert_eq!(rt; parse_interval(text), None, "{text}");
    }
    Ok(())
}

#[test]
fn durations(rt: HostRuntime) -> Result<(), Fail> {
    for row in DURATIONS.lines() {
        let (text, milliseconds) = cut(row);
        let expected = milliseconds.parse::<u64>().ok();
        assert_eq!(rt; parse_duration(text), expected, "{row}");
    }
    for text in NO_DURATIONS.split(';') {
        assert_eq!(rt; parse_duration(text), None, "{text}");
    }
    Ok(())
}
