//! Looks up and changes one machine in a list of records in key order.

ghost use Rattle.std.specs.Prelude.{◌≡◌, ◌+◌, ◌<◌, ◌≤◌, ℕ, List, ◌++◌, Option, take, drop, length};
ghost use Rattle.std.specs.Prelude.{slice_index_or};
ghost use Rattle.pim_down.specs.Words.{at, IsItem, Held, IsAscending, machine_at, recorded};
ghost use Rattle.pim_down.specs.Words.{changed, key_seen, machine_seen, records_seen, IsPlaceOf};

use crate::machines::held::{Held, Timed};
use crate::machines::key::{Key, KeyOrder, OfFamily, compare_keys};
use crate::records::near::Near;
use crate::records::store::RecordStore;
use pim_addr::Family;
use sorted_blocks::{Place, Probe};
use std::cmp::Ordering;

/// A key that is searched among records.
#[derive(Drop)]
struct Sought<F: Family> {
    key: Key<F::Addr>,
}

impl<F: Family> Probe<Held<F::Addr>> for Sought<F> {
    ghost use Rattle.pim_down.specs.Key.{key_cmp};
    ghost use Rattle.pim_down.specs.Seen.{key_seen};

    ghost can_compare = { λ _ _. Unit {0} };

    ghost order = { λ sought held. key_cmp (key_seen F.bytes_of held.key)
        (key_seen F.bytes_of sought.key) };

    fn compare(&self, held: &Held<F::Addr>) -> Ordering {
        compare_keys::<F>(&held.key, &self.key)
    }
}

/// The place of the key's record, or as an error the place where it would be inserted. The search
/// begins near a place, which doesn't affect what it finds.
pub(crate) fn find_place<F: Family>(
    records: &RecordStore<F::Addr, OfFamily<F>>,
    near: Place,
    key: &Key<F::Addr>,
) -> Result<Place, Place>
    requires { IsAscending (records_seen F.bytes_of records.now.items) }
    ensures { IsPlaceOf F.bytes_of (key_seen F.bytes_of key.now) records.now result }
{
    records.find_near(near, &Sought::<F> { key: *key })
}

/// The place in either result.
pub(crate) fn place_of(found: Result<Place, Place>) -> Place {
    match found {
        Ok(place) | Err(place) => place,
    }
}

/// Replaces the machine of the record at this place, or removes the record. Returns a place nearby.
pub(crate) fn replace_at<A: Copy, O: KeyOrder<A>>(
    records: &mut RecordStore<A, O>,
    place: Place,
    machine: Option<Timed>,
) -> Place
    requires { IsItem records.old place }
    ensures left { (bytes_of : A → List ℕ) (d : Held A) → records_seen bytes_of records.new.items
        ≡ take (at records.old place) (records_seen bytes_of records.old.items)
        ++ (recorded
        (key_seen bytes_of (slice_index_or records.old.items (at records.old place) d).key)
        (machine_seen machine)
        ++ drop (at records.old place + 1) (records_seen bytes_of records.old.items)) }
    ensures capacity { records.new.capacity ≡ records.old.capacity }
{
    match machine {
        Some(machine) => {
            records.set_machine(place, machine);
            place
        }
        None => records.remove(place),
    }
}

/// The machine of the record that was found; `None` if none was.
pub(crate) fn machine_of<F: Family>(
    records: &RecordStore<F::Addr, OfFamily<F>>,
    key: &Key<F::Addr>,
    found: Result<Place, Place>,
) -> Option<Timed>
    requires ascending { IsAscending (records_seen F.bytes_of records.now.items) }
    requires found { IsPlaceOf F.bytes_of (key_seen F.bytes_of key.now) records.now found }
    ensures { machine_seen result
        ≡ machine_at (key_seen F.bytes_of key.now) (records_seen F.bytes_of records.now.items) }
{
    match found {
        Ok(place) => Some(records.get(place).machine),
        Err(_) => None,
    }
}

/// The key's machine; `None` is NoInfo. Also returns the place of its record, or where it would be.
/// The search begins near a place, which doesn't affect the machine that it finds.
pub(crate) fn machine_near<F: Family>(
    records: &RecordStore<F::Addr, OfFamily<F>>,
    near: Near,
    key: &Key<F::Addr>,
) -> (Option<Timed>, Near)
    requires { IsAscending (records_seen F.bytes_of records.now.items) }
    ensures { machine_seen result.0
        ≡ machine_at (key_seen F.bytes_of key.now) (records_seen F.bytes_of records.now.items) }
{
    let found = find_place::<F>(records, near.place, key);
    let place = place_of(found);
    (machine_of::<F>(records, key, found), Near { place })
}

/// Gives the machine that was searched this state, or removes its record. The caller ensures room
/// for the records held afterwards. Returns a place nearby.
pub(crate) fn put_machine<F: Family>(
    records: &mut RecordStore<F::Addr, OfFamily<F>>,
    key: Key<F::Addr>,
    found: Result<Place, Place>,
    machine: Option<Timed>,
) -> Place
    requires found { IsPlaceOf F.bytes_of (key_seen F.bytes_of key) records.old found }
    requires room { length (changed (key_seen F.bytes_of key) (λ _. machine_seen machine)
        (records_seen F.bytes_of records.old.items)) ≤ records.old.capacity }
    ensures left { records_seen F.bytes_of records.new.items
        ≡ changed (key_seen F.bytes_of key) (λ _. machine_seen machine)
        (records_seen F.bytes_of records.old.items) }
    ensures capacity { records.old.capacity ≤ records.new.capacity }
{
    match (found, machine) {
        (Ok(place), _) => replace_at(records, place, machine),
        (Err(place), Some(machine)) => records.insert_within(place, Held { key, machine }),
        (Err(place), None) => place,
    }
}
