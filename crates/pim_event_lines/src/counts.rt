//! The number of entries of a Join/Prune message.

ghost use Rattle.std.specs.Prelude.{◌≡◌};
ghost use Rattle.pim_event_lines.specs.Counts.{joined_in, pruned_in};

use pim_addr::Family;
use pim_jp::JpView;

/// The number of joined entries of all group sets.
pub(crate) fn joined_in<F: Family>(message: &JpView<'_, F>) -> u64
    ensures { result ≡ joined_in message.now.sets }
{
    let _count = message.set_count();
    let mut count = 0;
    for set in message.sets() {
        count += u64::from(set.joined_count());
    }
    count
}

/// The number of pruned entries of all group sets.
pub(crate) fn pruned_in<F: Family>(message: &JpView<'_, F>) -> u64
    ensures { result ≡ pruned_in message.now.sets }
{
    let _count = message.set_count();
    let mut count = 0;
    for set in message.sets() {
        count += u64::from(set.pruned_count());
    }
    count
}
