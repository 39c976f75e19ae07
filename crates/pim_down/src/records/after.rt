//! What follows in key order on a port: the next group, and the bound after a machine. A search
//! begins near a place.

ghost use Rattle.std.specs.Prelude.{◌≡◌, option_map};
ghost use Rattle.pim_down.specs.Words.{find, is_of_group_after, is_of_group, IsAscending, key_seen};
ghost use Rattle.pim_down.specs.Words.{record_seen, records_seen};

use crate::machines::held::Held;
use crate::machines::key::{Key, OfFamily, compare_addresses, compare_groups, compare_keys};
use crate::records::bound::Bound;
use crate::records::near::Near;
use crate::records::store::RecordStore;
use pim_addr::Family;

/// The bound before all groups of a port above one, or before all of its groups.
#[derive(Drop)]
struct GroupsAbove<F: Family> {
    port: usize,
    bound: Option<F::Addr>,
}

impl<F: Family> Bound<F::Addr> for GroupsAbove<F> {
    ghost use Rattle.std.specs.Prelude.{option_map};
    ghost use Rattle.pim_down.specs.After.{is_before_groups};
    ghost use Rattle.pim_down.specs.Seen.{key_seen};

    ghost is_before = { λ b key. is_before_groups b.port (option_map F.bytes_of b.bound)
        (key_seen F.bytes_of key) };

    fn is_before(&self, key: &Key<F::Addr>) -> bool {
        match self.bound {
            None => key.port < self.port,
            Some(group) => compare_groups::<F>(key, self.port, group).is_le(),
        }
    }
}

/// The first record of a group of the port above the bound, or of any of its groups. Also returns
/// the place of this record, or where it would be. The search begins near a place, which doesn't
/// affect the record that it finds.
pub(crate) fn first_of_groups_after<F: Family>(
    records: &RecordStore<F::Addr, OfFamily<F>>,
    near: Near,
    port: usize,
    bound: Option<F::Addr>,
) -> (Option<Held<F::Addr>>, Near)
    requires { IsAscending (records_seen F.bytes_of records.now.items) }
    ensures { option_map (record_seen F.bytes_of) result.0
        ≡ find (is_of_group_after port (option_map F.bytes_of bound))
        (records_seen F.bytes_of records.now.items) }
{
    let place = records.first_behind(near.place, &GroupsAbove::<F> { port, bound });
    if !records.is_item(place) {
        return (None, Near { place });
    }
    let first = *records.get(place);
    if first.key.port == port {
        (Some(first), Near { place })
    } else {
        (None, Near { place })
    }
}

/// The bound after a key.
#[derive(Drop)]
pub(crate) struct Behind<F: Family> {
    pub(crate) key: Key<F::Addr>,
}

impl<F: Family> Bound<F::Addr> for Behind<F> {
    ghost use Rattle.pim_down.specs.After.{is_up_to};
    ghost use Rattle.pim_down.specs.Seen.{key_seen};

    ghost is_before = { λ b key. is_up_to (key_seen F.bytes_of b.key) (key_seen F.bytes_of key) };

    fn is_before(&self, key: &Key<F::Addr>) -> bool {
        compare_keys::<F>(key, &self.key).is_le()
    }
}

/// Whether the key has the port and the group of the other one.
pub(crate) fn is_of_group<F: Family>(key: &Key<F::Addr>, bound: &Key<F::Addr>) -> bool
    ensures { result ≡ is_of_group (key_seen F.bytes_of bound.now) (key_seen F.bytes_of key.now) }
{
    key.port == bound.port && compare_addresses::<F>(key.group, bound.group).is_eq()
}
