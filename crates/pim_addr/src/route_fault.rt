//! The faults of a row that is to be added to a route table.

use thiserror::Error;

/// Why a row is not added. Of several causes, the first in this order is returned.
#[derive(Clone, Copy, Debug, PartialEq, Eq, Error)]
pub enum RouteFault {
    /// The length is above the number of bits of an address: 32 or 128.
    #[error("length")]
    Length,
    /// A bit of the prefix after the length is set.
    #[error("bits")]
    Bits,
    /// The address is not a valid source; or, for an RP, the prefix is not within 224.0.0.0/4 or
    /// ff00::/8.
    #[error("kind")]
    Kind,
    /// The map has a row with this prefix and length already.
    #[error("twice")]
    Twice,
    /// The map has 4,096 rows already.
    #[error("full")]
    Full,
    /// Memory ran out.
    #[error("memory")]
    Memory,
}
