use jiff::Timestamp;
use jiff::tz::TimeZone;
use log::Level;
use log4rs_base::{Context, OutOfMemory, Record};
use log4rs_encode::json::JsonEncoder;
use log4rs_encode::pattern::PatternEncoder;
use log4rs_encode::{AnyEncoder, Encode, Styled};
use std::alloc::Global;
use std::test::Fail;

/// The result and the JSON line of the record.
const LINE: &str =
    "Ok(()) {\"time\":\"1970-01-01T00:00:00+00:00\",\"level\":\"DEBUG\",\"message\":\"a\",\"target\":\"app::x\",\"thread\":null,\"thread_id\":0,\"mdc\":{}}\n";

/// Returns a record with the message `a`.
fn record(alloc: Global) -> Result<Record, OutOfMemory> {
    let target = String::from_str(alloc, "app::x")?;
    Ok(Record::new(Level::Debug, target, String::from_str(alloc, "a")?))
}

/// Encodes the record. Returns the result and the text.
fn encoded<E: Encode>(alloc: Global, encoder: &E) -> Result<String, Fail> {
    let mut out = Styled::new(alloc);
    let context = Context::new(alloc, Timestamp::UNIX_EPOCH, TimeZone::UTC);
    let answer = encoder.encode(&mut out, &record(alloc)?, &context);
    let text = out.into_text()?;
    Ok(format!(in alloc; "{answer:?} {text}")?)
}

#[test]
fn texts(rt: HostRuntime) -> Result<(), Fail> {
    let alloc = rt.alloc();
    for (pattern, expected) in [
        ("<{m}>", "Ok(()) <a>"),
        // The padding does not fit in memory.
        ("a{m:18446744073709551615}", "Err(Memory) "),
    ] {
        let pattern = AnyEncoder::Pattern(PatternEncoder::new(alloc, pattern)?);
        assert_eq!(rt; encoded(alloc, &pattern)?.as_str(), expected);
    }
    let deep = PatternEncoder::new(alloc, "{(".repeat(alloc, 100_000)?.as_str())?;
    assert_eq!(rt;
        encoded(alloc, &deep)?.as_str(),
        "Ok(()) {ERROR: expected '}'}"
    );
    let default = PatternEncoder::try_default(alloc)?;
    let expected = "Ok(()) 1970-01-01T00:00:00+00:00 DEBUG app::x - a\n";
    assert_eq!(rt; encoded(alloc, &default)?.as_str(), expected);
    let json = AnyEncoder::Json(JsonEncoder::new());
    assert_eq!(rt; encoded(alloc, &json)?.as_str(), LINE);
    let target = PatternEncoder::new(alloc, "{t}")?;
    let boxed: Box<dyn Encode + Send + Sync + Drop> = Box::new(alloc, target)?;
    let custom = AnyEncoder::Custom(boxed);
    assert_eq!(rt; encoded(alloc, &custom)?.as_str(), "Ok(()) app::x");
    Ok(())
}
