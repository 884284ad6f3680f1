//! Events of a schedule.

use log4rs_base::Entry;

/// An event at one moment.
#[derive(Drop)]
pub enum Event<'z> {
    /// A caller loads the current shape to deliver an entry by it. Ignored while the caller has
    /// deliveries left.
    Load { caller: u64, entry: Entry<'z> },
    /// A caller makes its next delivery, if it has one left.
    Step { caller: u64 },
    /// The shape with this number becomes the current one, if it exists.
    Swap { shape: usize },
}
