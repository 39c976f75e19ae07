//! The two trees on which traffic to a group is wanted.

/// The tree on which traffic is wanted.
#[derive(Clone, Copy, Debug, PartialEq, Eq)]
pub enum Tree {
    /// The tree of all sources of a group, rooted at its RP.
    Shared,
    /// The shortest-path tree of one source.
    Source,
}
