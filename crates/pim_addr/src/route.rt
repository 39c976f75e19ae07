//! The rows of a route table.

/// A row: addresses that begin with the first `length` bits of the prefix lead to `to`.
#[derive(Clone, Copy, Debug, PartialEq, Eq)]
pub struct Route<A> {
    /// The prefix, whose bits after the first `length` are 0 in every row of a table.
    pub prefix: A,
    /// The number of bits of the prefix: 0 to 32 or 128.
    pub length: u8,
    /// An RP, or an upstream neighbour.
    pub to: A,
}
