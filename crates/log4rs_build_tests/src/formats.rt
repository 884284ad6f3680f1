use crate::rows::cut;
use crate::setup::same;
use log4rs_settings::{extension, format_of_path};
use std::alloc::{AllocError, Global};
use std::test::Fail;

/// Paths with extensions, the extensions, and their formats or errors.
const NAMED: &str = "log.json => json => Json
/etc/log4rs.toml => toml => Toml
a.b.yaml => yaml => the `yaml_format` feature is required for YAML support
.a.yml => yml => the `yaml_format` feature is required for YAML support
a.JSON => JSON => unsupported file format `JSON`
a.json5 => json5 => unsupported file format `json5`
a.json. =>  => unsupported file format ``
... =>  => unsupported file format ``
a.é => é => unsupported file format `é`";

/// Paths without an extension. The first is empty.
const UNNAMED: &str = "
json
.toml
conf/.toml
conf.toml/log
log.toml/
.
..
a.json/..";

/// Returns the format of a path, or the error.
fn format(alloc: Global, path: &str) -> Result<String, AllocError> {
    match format_of_path(alloc, path) {
        Ok(format) => format!(in alloc; "{format:?}"),
        Err(error) => format!(in alloc; "{error}"),
    }
}

#[test]
fn formats(rt: HostRuntime) -> Result<(), Fail> {
    for row in NAMED.lines() {
        let (path, columns) = cut(row);
        let (named, expected) = cut(columns);
        assert_eq!(rt; extension(path), Some(named), "{row}");
        same(&rt, format(rt.alloc(), path)?.as_str(), expected);
    }
    for path in UNNAMED.lines() {
        assert_eq!(rt; extension(path), None, "{path}");
        let shown = format(rt.alloc(), path)?;
        same(&rt, shown.as_str(), "unable to determine the file format");
    }
    Ok(())
}
