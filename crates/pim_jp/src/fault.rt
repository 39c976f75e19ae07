//! The faults of a Join/Prune body.

use thiserror::Error;

/// What is wrong at one part of a body. If several kinds apply at one part, the first in this order
/// is reported.
#[derive(Clone, Copy, Debug, PartialEq, Eq)]
pub enum JpKind {
    /// The part isn't whole. It then has no other fault, and no part after it is read.
    Short,
    /// The family byte of an encoded address isn't that of the message.
    Family,
    /// The encoding byte of an encoded address isn't 0.
    Encoding,
    /// A mask length isn't that of one address alone.
    Mask,
    /// The group of a set isn't a multicast group.
    NotGroup,
    /// An entry has W without R, so that it has no type.
    Flags,
    /// The address of an entry, which is the RP for (*,G), isn't a valid source.
    NotSource,
    /// A second (*,G) entry in one group set, over both of its lists.
    SecondStar,
    /// The same source in both lists of a group set, as (S,G) in both or as (S,G,rpt) in both.
    BothLists,
    /// Bytes after the last group set.
    Trailing,
}

/// The fault of a body: the one of least offset and, there, the first in the order of `JpKind`.
#[derive(Clone, Copy, Debug, PartialEq, Eq, Error)]
#[error("{kind:?} at {at}")]
pub struct JpFault {
    /// The offset of the part with the fault, in bytes from the start of the body.
    pub at: usize,
    /// What is wrong there.
    pub kind: JpKind,
}
