//! The program's own appender.

use log4rs::append::Append;
use log4rs::{Context, LogError, Record};

/// Counts records, up to a limit.
#[derive(Drop)]
pub struct Count {
    pub records: u64,
    pub limit: u64,
}

impl Append for Count {
    fn append(&mut self, _record: &Record, _context: &Context<'_>) -> Result<(), LogError> {
        if self.records >= self.limit {
            return Err(LogError::Policy);
        }
        self.records = self.records.saturating_add(1);
        Ok(())
    }

    fn append_retired(&mut self, record: &Record, context: &Context<'_>) -> Result<(), LogError> {
        self.append(record, context)
    }

    fn flush(&mut self) {}
}
