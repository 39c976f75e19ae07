//! A machine of a group, on any port.

use pim_down::What;

/// A machine of a group, on any port. They are ordered by group, then (*,G), (S,G) by source and
/// (S,G,rpt) by source.
#[derive(Clone, Copy, Debug, PartialEq, Eq, PartialOrd, Ord)]
pub(crate) struct GroupMachine<A> {
    /// The group.
    pub(crate) group: A,
    /// Which machine of the group.
    pub(crate) what: What<A>,
}
