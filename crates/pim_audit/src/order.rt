//! The order of due entries.

ghost use Rattle.std.specs.Prelude.{◌≡◌};
ghost use Rattle.pim_down.specs.Key.{what_cmp};
ghost use Rattle.pim_down.specs.Seen.{what_seen};
ghost use Rattle.pim_down.specs.Seen.{event_seen};
ghost use Rattle.pim_audit.specs.Order.{entry_rank, entry_cmp};

use pim_addr::Family;
use pim_down::{Event, What, compare_addresses, compare_whats};
use std::cmp::Ordering;

/// The rank of an entry in the change of its group: (*,G), (S,G,rpt), (S,G), of each the Join
/// before the Prune.
pub(crate) fn rank<F: Family>(entry: &Event<F::Addr>) -> u8
    ensures { result ≡ entry_rank (event_seen F.bytes_of entry.now) }
{
    let of_join = match entry.what {
        What::Star => 0,
        What::Rpt(_) => 2,
        What::Source(_) => 4,
    };
    if entry.joins { of_join } else { of_join + 1 }
}

/// Compares two entries: by group, then (*,G), (S,G,rpt) and (S,G), Joins before Prunes, then by
/// source. Messages announce a change in this order.
#[tactic(auto, unfolding(crate::specs::Order::entry_cmp))]
pub(crate) fn compare_entries<F: Family>(a: &Event<F::Addr>, b: &Event<F::Addr>) -> Ordering
    ensures { result ≡ entry_cmp (event_seen F.bytes_of a.now) (event_seen F.bytes_of b.now) }
{
    let by_group = compare_addresses::<F>(a.group, b.group);
    if by_group.is_ne() {
        return by_group;
    }
    let by_rank = rank::<F>(a).cmp(&rank::<F>(b));
    if by_rank.is_ne() {
        return by_rank;
    }
    compare_whats::<F>(&a.what, &b.what)
}
