use crate::rows::cut;
use crate::setup::same;
use crate::shown::shown;
use log4rs_settings::{Format, SyntaxFault, TextError, Tree, read};
use std::alloc::{AllocError, Global};
use std::test::Fail;

/// JSON texts, and their trees or errors.
const JSON: &str = "\
    null => null;\
    true => true;\
    \u{20}false\n => false;\
    0 => 0;\
    -1 => -1;\
    3 => 3;\
    9223372036854775808 => 9223372036854775808;\
    18446744073709551615 => 18446744073709551615;\
    -9223372036854775808 => -9223372036854775808;\
    \"\" => \"\";\
    \"a\\n\\u00e9\\ud83d\\ude00\" => \"a\né😀\";\
    [] => [];\
    [ 1 , \"x\", [null], {} ] => [1 \"x\" [null] {}];\
    {} => {};\
    \u{20}{ }  => {};\
    {\"b\":1,\"a\":{\"d\":[],\"c\":true}} => {a={c=true d=[]} b=1};\
    {\"a\":1,\"a\":2} => {a=2};\
    {\"a\":1,\"b\":2,\"a\":[3]} => {a=[3] b=2};\
    {\"\":null,\"ä\":1,\"Z\":2} => {=null Z=2 ä=1};\
    1.5 => FloatRefused;\
    1.0 => FloatRefused;\
    1e3 => FloatRefused;\
    -0 => FloatRefused;\
    18446744073709551616 => FloatRefused;\
    -9223372036854775809 => FloatRefused;\
    {\"root\":{\"level\":1.5}} => FloatRefused;\
    [\"a\",{\"b\":[0.1]}] => FloatRefused;\
    {\"a\":1.5,\"a\":2} => {a=2};\
    \u{20}=> Syntax;\
    { => Syntax;\
    {,} => Syntax;\
    {}{} => Syntax;\
    [1,] => Syntax;\
    {a:1} => Syntax;\
    {\"a\":1,} => Syntax;\
    01 => Syntax;\
    +1 => Syntax;\
    NaN => Syntax;\
    1.5 x => Syntax;\
    'a' => Syntax;\
    \"\\ud800\" => Syntax;\
    \u{feff}{} => Syntax";

/// TOML texts, and their trees or errors.
const TOML: &str = "\
    \u{20}=> {};\
    # nothing\n => {};\
    a = 1 => {a=1};\
    b = true\na = -7\n => {a=-7 b=true};\
    a = 9223372036854775807 => {a=9223372036854775807};\
    a = -9223372036854775808 => {a=-9223372036854775808};\
    a = 0x10\nb = 0o7\nc = 1_000 => {a=16 b=7 c=1000};\
    a = -0 => {a=0};\
    a = 'x'\nb = \"\\u00e9\" => {a=\"x\" b=\"é\"};\
    a = [1, 'x', [true]] => {a=[1 \"x\" [true]]};\
    a = { c = 1, b = [] } => {a={b=[] c=1}};\
    a.b.c = 1 => {a={b={c=1}}};\
    [root]\nlevel = \"info\"\n => {root={level=\"info\"}};\
    [a.b]\n[a]\nc = 1 => {a={b={} c=1}};\
    [[a]]\nb = 1\n[[a]]\nb = 2\n => {a=[{b=1} {b=2}]};\
    \"\" = 1\nZ = 2\n\"ä\" = 3 => {=1 Z=2 ä=3};\
    \u{feff}a = 1 => {a=1};\
    a = 1.5 => FloatRefused;\
    a = 1e3 => FloatRefused;\
    a = inf => FloatRefused;\
    a = nan => FloatRefused;\
    x = 1979-05-27 => DateTimeRefused;\
    x = 07:32:00 => DateTimeRefused;\
    x = 1979-05-27T07:32:00Z => DateTimeRefused;\
    a = [[1979-05-27T07:32:00]] => DateTimeRefused;\
    b = 1.5\na = 1979-05-27 => DateTimeRefused;\
    b = 1979-05-27\na = 1.5 => FloatRefused;\
    [b]\nx = 1979-05-27\n[a]\nx = 1.5 => FloatRefused;\
    a = 1\na = 2 => Syntax;\
    [a]\n[a]\n => Syntax;\
    [root\n => Syntax;\
    a => Syntax;\
    a =  => Syntax;\
    a = 01 => Syntax;\
    a = 9223372036854775808 => Syntax;\
    a = 1 b = 2 => Syntax;\
    x = 1979-02-30 => Syntax;\
    {} => Syntax";

/// Returns the tree of a text, or the name of the error.
fn outcome(alloc: Global, format: Format, text: &str) -> Result<String, AllocError> {
    match read(alloc, format, text) {
        Ok(tree) => shown(alloc, &tree),
        Err(TextError::Syntax(_)) => String::from_str(alloc, "Syntax"),
        Err(error) => format!(in alloc; "{error:?}"),
    }
}

/// Texts that are not JSON, and their errors.
const JSON_FAULTS: &str = "\
    \u{20}=> the text ends too early at line 1, column 0;\
    [1,] => the text is not of its format at line 1, column 4;\
    {\n  \"a\": x\n} => the text is not of its format at line 2, column 8;\
    {\"é\": x} => the text is not of its format at line 1, column 8;\
    [1,\n2 => the text ends too early at line 2, column 1;\
    [[1}] => a bracket closes one of the other kind at line 1, column 5;\
    {\"a\":\"[\",\"b\":1] => a bracket closes one of the other kind at line 1, column 15;\
    {\"a\":[]] => the text is not of its format at line 1, column 8;\
    {\"a\":[1e400]} => a number is out of range at line 1, column 12;\
    [\n-1e999] => a number is out of range at line 2, column 7";

/// Texts that are not TOML, and their errors.
const TOML_FAULTS: &str = "\
    a = 1\nb = x => the text is not of its format at line 2, column 5;\
    \"é\" = x => the text is not of its format at line 1, column 7;\
    [a]\r\n\r\nb = x\r\n => the text is not of its format at line 3, column 5;\
    a = 1 b = 2 => the text is not of its format at line 1, column 7;\
    a = 1\n[b]\nc = 1\nc = 2 => a key stands twice at line 4, column 1;\
    [a]\n[a]\n => a key stands twice at line 2, column 1;\
    a = [1, 2} => `,` or `]` is missing at line 1, column 10;\
    a = { b = 1] => `,` or `}` is missing at line 1, column 12;\
    [a\nb = 1 => `]` is missing at line 1, column 3;\
    [[a]\nb = 1 => `]]` is missing at line 1, column 5;\
    a\n => `=` is missing at line 1, column 2;\
    a = 1\nb = [9223372036854775808] => a number is out of range at line 2, column 6;\
    a = -9223372036854775809 => a number is out of range at line 1, column 5;\
    a = 1e999 => a number is out of range at line 1, column 5";

/// Returns the error of a text, with its place.
fn refusal(alloc: Global, format: Format, text: &str) -> Result<String, AllocError> {
    match read(alloc, format, text) {
        Ok(tree) => shown(alloc, &tree),
        Err(error) => format!(in alloc; "{error}"),
    }
}

#[test]
fn texts(rt: HostRuntime) -> Result<(), Fail> {
    for (format, rows) in [(Format::Json, JSON), (Format::Toml, TOML)] {
        for row in rows.split(';') {
            let (text, expected) = cut(row);
            let outcome = outcome(rt.alloc(), format, text)?;
            same(&rt, outcome.as_str(), expected);
        }
    }
    for (format, rows) in [(Format::Json, JSON_FAULTS), (Format::Toml, TOML_FAULTS)] {
        for row in rows.split(';') {
            let (text, told) = cut(row);
            let refusal = refusal(rt.alloc(), format, text)?;
            same(&rt, refusal.as_str(), told);
        }
    }
    Ok(())
}

/// Returns a text of nested values. The parts are the text before all values, the opening of each,
/// the innermost value, the closing of each, and the text after all.
fn nested_text(alloc: Global, parts: [&str; 5], depth: usize) -> Result<String, AllocError> {
    let [front, opened, inside, closed, back] = parts;
    let mut text = String::from_str(alloc, front)?;
    for _ in 0..depth {
        text.push_str(opened)?;
    }
    text.push_str(inside)?;
    for _ in 0..depth {
        text.push_str(closed)?;
    }
    text.push_str(back)?;
    Ok(text)
}

/// Returns whether values nested to `depth` are refused as too deep, at a place.
fn refused(
    alloc: Global,
    format: Format,
    parts: [&str; 5],
    depth: usize,
) -> Result<bool, TextError> {
    let text = nested_text(alloc, parts, depth)?;
    match read(alloc, format, text.as_str()) {
        Ok(_) => Ok(false),
        Err(TextError::Syntax(error)) => {
            Ok(error.fault == SyntaxFault::TooDeep && error.place.is_some())
        }
        Err(error) => Err(error),
    }
}

/// Returns whether values can be nested to `limit`, but no deeper.
fn nests(alloc: Global, format: Format, parts: [&str; 5], limit: u8) -> Result<bool, TextError> {
    let limit = usize::from(limit);
    Ok(
        !refused(alloc, format, parts, limit)?
            && refused(alloc, format, parts, limit + 1)?
            && refused(alloc, format, parts, 20_000)?,
    )
}

#[test]
fn nested(rt: HostRuntime) -> Result<(), Fail> {
    let alloc = rt.alloc();
    assert!(rt; nests(alloc, Format::Json, ["", "[", "", "]", ""], 127)?);
    assert!(rt; nests(alloc, Format::Json, ["", "{\"a\":", "[]", "}", ""], 126)?);
    assert!(rt;
        nests(
            alloc,
            Format::Json,
            ["\n ", "[\"]\\\"{\",\n", "[]", "]", "\n"],
            126
        )?
    );
    assert!(rt; nests(alloc, Format::Toml, ["a = ", "[", "", "]", ""], 80)?);
    assert!(rt; nests(alloc, Format::Toml, ["a = ", "{a = ", "[]", "}", ""], 79)?);
    assert!(rt; nests(alloc, Format::Toml, ["", "a.", "", "", "a = 1"], 79)?);
    Ok(())
}

/// Returns the text of a copy of the tree of a text.
fn copy_shown(alloc: Global, text: &str) -> Result<String, TextError> {
    let copy = read(alloc, Format::Json, text)?.clone()?;
    Ok(shown(alloc, &copy)?)
}

/// Returns ten nested inline tables, each at the longest key: a tree 880 deep.
fn deep_text(alloc: Global) -> Result<String, AllocError> {
    let key = "a.".repeat(alloc, 79)?;
    let front = format!(in alloc; "{key}a = ")?;
    let opened = format!(in alloc; "{{{front}")?;
    nested_text(alloc, [front.as_str(), opened.as_str(), "1", "}", ""], 10)
}

#[test]
fn copies(rt: HostRuntime) -> Result<(), Fail> {
    let text = "{\"b\":[1,null,\"x\"],\"a\":{\"c\":true,\"d\":{}},\"\":[[]]}";
    let expected = "{=[[]] a={c=true d={}} b=[1 null \"x\"]}";
    assert_eq!(rt; copy_shown(rt.alloc(), text)?.as_str(), expected);
    let deep = deep_text(rt.alloc())?;
    let copy = read(rt.alloc(), Format::Toml, deep.as_str())?.clone()?;
    assert!(rt; matches!(copy, Tree::Map(_)));
    Ok(())
}
