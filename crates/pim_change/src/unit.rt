//! The units of a change.

/// What a message says of one source of a group.
#[derive(Clone, Copy, Debug, PartialEq, Eq)]
pub enum ActionKind {
    /// Join(S,G,rpt): the source was an exception of a star that stays.
    JoinRpt,
    /// Prune(S,G,rpt): the source became an exception of a star that stays.
    PruneRpt,
    /// Join(S,G).
    JoinSource,
    /// Prune(S,G).
    PruneSource,
}

/// What a message says of a group and doesn't split.
#[derive(Clone, Copy, Debug)]
pub enum Action<'a, A> {
    /// Join(*,G) with a Prune(S,G,rpt) for each exception (RFC 7761, 4.9.5.2).
    JoinStar(&'a [A]),
    /// Prune(*,G).
    PruneStar,
    /// The Join or Prune of one source.
    Of(ActionKind, A),
}

/// One unit of a change.
#[derive(Clone, Copy, Debug)]
pub struct Unit<'a, A> {
    /// The group.
    pub group: A,
    /// What a message says of it.
    pub action: Action<'a, A>,
}
