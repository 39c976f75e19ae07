//! The faults of a Hello body.

use thiserror::Error;

/// What is wrong at one option of a body. If several kinds apply at one option, the first in this
/// order is reported.
#[derive(Clone, Copy, Debug, PartialEq, Eq)]
pub enum HelloKind {
    /// The option isn't whole: its type and length, or its value, run past the end of the body.
    Short,
    /// An option whose type has one length has another.
    OptionLength,
    /// The Address List has bytes that are no whole IPv4 or IPv6 address in native encoding.
    Address,
}

/// The fault of a body: the one of least offset and, there, the first in the order of `HelloKind`.
#[derive(Clone, Copy, Debug, PartialEq, Eq, Error)]
#[error("{kind:?} at {at}")]
pub struct HelloFault {
    /// The offset of the option with the fault, in bytes from the start of the body.
    pub at: usize,
    /// What is wrong there.
    pub kind: HelloKind,
}
