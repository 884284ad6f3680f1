//! The report of one delivered record.

use log4rs_base::LogError;

/// The number of swaps that the session had seen when it delivered the record, and each delivery in
/// order: the index of its appender, and the result.
#[derive(Drop)]
pub struct SessionReport {
    /// The number of swaps that the session had seen.
    pub swaps: u64,
    /// The index of the appender and the result of each delivery, in order.
    pub deliveries: Vec<(usize, Result<(), LogError>)>,
}
