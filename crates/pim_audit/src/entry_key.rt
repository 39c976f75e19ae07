//! Due entries as keys.

ghost use Rattle.std.specs.Prelude.{◌≡◌};
ghost use Rattle.pim_audit.specs.Keyed.{key_of};

use crate::order::rank;
use pim_addr::Family;
use pim_down::{Event, What};

/// An entry as a key. Keys have the order of `compare_entries`.
#[derive(Clone, Copy, Debug, PartialEq, Eq, PartialOrd, Ord)]
pub(crate) struct EntryKey<A> {
    /// The group.
    pub(crate) group: A,
    /// The rank of the entry within its group.
    pub(crate) rank: u8,
    /// The source; `None` at (*,G).
    pub(crate) source: Option<A>,
}

/// The key of an entry.
pub(crate) fn key_of<F: Family>(entry: &Event<F::Addr>) -> EntryKey<F::Addr>
    ensures { result ≡ key_of F.bytes_of entry.now }
{
    let source = match entry.what {
        What::Star => None,
        What::Source(source) | What::Rpt(source) => Some(source),
    };
    EntryKey {
        group: entry.group,
        rank: rank::<F>(entry),
        source,
    }
}
