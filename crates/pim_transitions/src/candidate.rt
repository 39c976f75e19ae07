//! A machine that a message may change.

use pim_down::{Key, Machine};

/// A machine that a message may change, as it is before the message.
#[derive(Clone, Copy, Debug)]
pub(crate) struct Candidate<A> {
    pub(crate) key: Key<A>,
    /// `None` is NoInfo.
    pub(crate) before: Option<Machine>,
    /// Whether the last entry that names the machine is a Join; no where none names it.
    pub(crate) joins: bool,
}
