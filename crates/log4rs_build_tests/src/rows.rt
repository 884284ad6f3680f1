//! Rows of tables in texts.

/// Splits a row at its first arrow.
pub(crate) fn cut(row: &str) -> (&str, &str) {
    row.split_once(" => ").unwrap_or((row, ""))
}
