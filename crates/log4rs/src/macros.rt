//! A macro that makes records.

ghost use Rattle.std.specs.Prelude.{◌≡◌, IfOk, None, Some, option_map, string_bytes};

use log::Level;
use log4rs_base::{OutOfMemory, Record};
use std::alloc::Global;

/// Makes the record of a message: `record!(in alloc; Level::Info, "{rows} rows")?`. Its target is
/// the module of the macro, or the one that is named: `record!(in alloc; target: "app::disk",
/// Level::Warn, "low on {disk}")?`. Its module path is the module of the macro; it has no file and
/// no line. Fails if an allocation fails.
#[macro_export]
macro_rules! record {
    (in $alloc:expr; target: $target:expr, $level:expr, $($arg:tt)+) => {
        match format!(in $alloc; $($arg)+) {
            Ok(message) => $crate::macros::record_in($alloc, $level, $target, module_path!(), message),
            Err(_) => Err($crate::OutOfMemory),
        }
    };
    (in $alloc:expr; $level:expr, $($arg:tt)+) => {
        $crate::record!(in $alloc; target: module_path!(), $level, $($arg)+)
    };
}

/// Returns the record of a message in a module.
pub fn record_in(
    alloc: Global,
    level: Level,
    target: &str,
    module_path: &str,
    message: String,
) -> Result<Record, OutOfMemory>
    ensures level { IfOk result (λ made. made.level ≡ level) }
    ensures target { IfOk result (λ made. string_bytes made.target ≡ target.now) }
    ensures message { IfOk result (λ made. made.message ≡ message) }
    ensures module_path { IfOk result
        (λ made. option_map string_bytes made.module_path ≡ Some module_path.now) }
    ensures source { IfOk result (λ made. (made.file ≡ None) × (made.line ≡ None)) }
{
    let target = String::from_str(alloc, target)?;
    let module_path = String::from_str(alloc, module_path)?;
    Ok(Record::new(level, target, message).with_module_path(module_path))
}
