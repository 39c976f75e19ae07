//! Puts marks in key order. A mark is an event that names a machine of the port; marks of one
//! machine keep their order.

ghost use Rattle.std.specs.Prelude.{◌≡◌, ℕ, OnOk, map};
ghost use Rattle.pim_down.specs.Hearing.{key_of};
ghost use Rattle.pim_down.specs.Key.{key_cmp};
ghost use Rattle.pim_down.specs.Seen.{event_seen};
ghost use Rattle.pim_transitions.specs.Marks.{Rise, KeepTheirOrder, is_repeated};

use pim_addr::Family;
use pim_down::{Event, compare_addresses, compare_whats};
use std::alloc::AllocError;
use std::cmp::Ordering;

/// By group, then by machine.
pub(crate) fn compare_marks<F: Family>(a: &Event<F::Addr>, b: &Event<F::Addr>) -> Ordering
    ensures { result ≡ key_cmp (key_of 0 (event_seen F.bytes_of a.now))
        (key_of 0 (event_seen F.bytes_of b.now)) }
{
    let by_group = compare_addresses::<F>(a.group, b.group);
    by_group.then(compare_whats::<F>(&a.what, &b.what))
}

/// Whether the first of these marks is of the same machine as the mark.
pub(crate) fn is_repeated<F: Family>(mark: &Event<F::Addr>, marks: &[Event<F::Addr>]) -> bool
    ensures { result ≡ is_repeated (event_seen F.bytes_of mark.now)
        (map (event_seen F.bytes_of) marks.now) }
{
    match marks.first() {
        None => false,
        Some(next) => compare_marks::<F>(mark, next).is_eq(),
    }
}

/// Puts marks in key order. An error if memory is refused.
pub(crate) fn put_in_key_order<F: Family>(marks: &mut Vec<Event<F::Addr>>) -> Result<(), AllocError>
    ensures rise { OnOk result (Rise (map (event_seen F.bytes_of) marks.new.items)) }
    ensures stable { KeepTheirOrder (map (event_seen F.bytes_of) marks.old.items)
        (map (event_seen F.bytes_of) marks.new.items) }
{
    marks.sort_by(|a, b| compare_marks::<F>(a, b))
}
