use crate::setup::{same, string};
use log::Level;
use log4rs::record;
use std::test::Fail;

#[test]
fn records(rt: HostRuntime) -> Result<(), Fail> {
    let rows = 3;
    let here = record!(in rt.alloc(); Level::Info, "{rows} rows")?;
    same(&rt, here.message.as_str(), "3 rows");
    same(&rt, here.target.as_str(), "log4rs_tests::records");
    assert!(rt; here.module_path.is_some());
    let named = record!(in rt.alloc(); target: "app::disk", Level::Warn, "low")?;
    same(&rt, named.target.as_str(), "app::disk");
    let named = named.with_module_path(string(rt.alloc(), "app::part")?);
    let named = named.with_file(string(rt.alloc(), "part.rs")?).with_line(7);
    assert_eq!(rt; named.line, Some(7));
    assert!(rt; named.file.is_some());
    Ok(())
}
