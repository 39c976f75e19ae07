//! The faults of a join that is to be added.

use thiserror::Error;

/// Why a join is not added. Of several causes, the first in this order is returned.
#[derive(Clone, Copy, Debug, PartialEq, Eq, Error)]
pub enum LocalFault {
    /// The group isn't a multicast group, or the source isn't a valid source.
    #[error("kind")]
    Kind,
    /// There are 4,096 joins already, and this isn't one of them.
    #[error("full")]
    Full,
    /// Memory ran out.
    #[error("memory")]
    Memory,
}
