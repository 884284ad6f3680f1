use log4rs_encode::pattern::parser::{Piece, parse};
use std::alloc::{AllocError, Global};
use std::test::Fail;

/// Returns the pieces of a pattern, with a semicolon after each.
fn pieces(alloc: Global, pattern: &str) -> Result<String, Fail> {
    let mut texts = String::new(alloc);
    for piece in &parse(alloc, pattern)? {
        match piece {
            Piece::Text(text) => write!(texts, "text {text};")?,
            Piece::Argument { formatter, .. } => write!(texts, "argument {};", formatter.name)?,
            Piece::Error(error) => write!(texts, "error {error};")?,
        }
    }
    Ok(texts)
}

/// Returns a pattern with a message in `times` nested groups.
fn nested(alloc: Global, times: usize) -> Result<String, AllocError> {
    let mut pattern = "{(".repeat(alloc, times)?;
    pattern.push_str("{m}")?;
    pattern.push_str(")}".repeat(alloc, times)?.as_str())?;
    Ok(pattern)
}

#[test]
fn known_pieces(rt: HostRuntime) -> Result<(), Fail> {
    for (pattern, expected) in [
        ("a{m}", "text a;argument m;"),
        ("a\\qb", "text a;error unexpected '\\';text qb;"),
    ] {
        assert_eq!(rt; pieces(rt.alloc(), pattern)?.as_str(), expected);
    }
    for (times, expected) in [
        (64, "argument ;"),
        (65, "error expected '}';"),
        (100_000, "error expected '}';"),
    ] {
        let pattern = nested(rt.alloc(), times)?;
        assert_eq!(rt; pieces(rt.alloc(), &pattern)?.as_str(), expected);
    }
    Ok(())
}
