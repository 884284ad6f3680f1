//! The service. It logs by the macros of `log`, and knows nothing of log4rs.

use log::{Log, info, warn};

/// Serves the requests with these numbers.
pub fn serve<R: Log>(rt: &R, requests: &[u32]) {
    for id in requests {
        let rt = rt.span("request").with("id", id);
        info!(rt; "accepted");
        if *id >= 3 {
            warn!(rt; target: "service::store", rows = 2 * *id as u64; "slow");
        }
    }
}
