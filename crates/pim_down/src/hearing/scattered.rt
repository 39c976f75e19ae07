//! Whether the entries of a message are so far from key order that the code sorts them. It is only
//! a hint: a message does the same in either order.

use crate::machines::key::{What, compare_whats};
use pim_addr::Family;
use pim_jp::{Entries, Entry, JpView};

/// How many entries of joined lists, or of pruned ones, may follow one that they come before in key
/// order.
const FEW: usize = 16;

/// How many entries of a list follow one that they come before in key order.
fn falls_in<F: Family>(entries: Entries<'_, F>) -> usize {
    let mut last = What::Star;
    let mut count = 0usize;
    for entry in entries {
        let what = match entry {
            Entry::Star(_) => What::Star,
            Entry::Source(source) => What::Source(source),
            Entry::Rpt(source) => What::Rpt(source),
        };
        let falls = compare_whats::<F>(&what, &last).is_lt();
        count = count.saturating_add(usize::from(falls));
        last = what;
    }
    count
}

/// Whether a group may come again, or more than a few entries follow one that they come before in
/// key order. No group comes again where the groups ascend, as they do in a message that was packed
/// in order.
pub(crate) fn is_scattered<F: Family>(message: &JpView<'_, F>) -> bool {
    let mut last: Option<F::Addr> = None;
    let mut joined = 0usize;
    let mut pruned = 0usize;
    for set in message.sets() {
        let group = set.group();
        if let Some(other) = last {
            if other >= group {
                return true;
            }
        }
        last = Some(group);
        joined = joined.saturating_add(falls_in::<F>(set.joined()));
        pruned = pruned.saturating_add(falls_in::<F>(set.pruned()));
        if joined > FEW || pruned > FEW {
            return true;
        }
    }
    false
}
