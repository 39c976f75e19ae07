//! An entry of a group set.

/// An entry of a group set (RFC 7761, 4.9.5.1). `A` is the type of its address.
#[derive(Clone, Copy, Debug, PartialEq, Eq)]
pub enum Entry<A> {
    /// (*,G): W and R are set, and the address is that of the RP.
    Star(A),
    /// (S,G): neither W nor R is set.
    Source(A),
    /// (S,G,rpt): R alone is set.
    Rpt(A),
}
