//! Why a message is refused.

use thiserror::Error;

/// Why a message is refused. A refusal changes nothing.
#[derive(Clone, Copy, Debug, PartialEq, Eq, Error)]
pub enum HearFault {
    /// The port would need more records than its limit.
    #[error("full {needed}")]
    Full {
        /// The records needed: the port's, and for each creating entry whose record isn't held one
        /// more, repeats counted.
        needed: usize,
    },
    /// Memory for new records was refused.
    #[error("memory")]
    Memory,
}
