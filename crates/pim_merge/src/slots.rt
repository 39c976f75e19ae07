//! Slots for the first different items of a sequence.

ghost use Rattle.std.specs.Prelude.{◌≡◌};
ghost use Rattle.pim_merge.specs.Places.{place_of};
ghost use Rattle.pim_merge.specs.Slots.{added, field_of, fits, same_interface, takes};

use pim_addr::Family;
use pim_capture::{InterfaceChoice, Link, RecordPlace};

/// An item of slots.
pub(crate) trait Item: Copy {
    ghost use Rattle.std.specs.Prelude.{Bool};

    // Whether two items are the same.
    ghost same: { Self → Self → Bool };

    /// Whether this item is the same as another one.
    fn is_same(self, other: Self) -> bool
        ensures { result ≡ same self other };
}

impl Item for [u8; 16] {
    ghost use Rattle.std.specs.Prelude.{bytes_eq};

    ghost same = { bytes_eq };

    fn is_same(self, other: Self) -> bool {
        self == other
    }
}

impl Item for RecordPlace {
    ghost use Rattle.pim_merge.specs.Slots.{same_place};

    ghost same = { same_place };

    fn is_same(self, other: Self) -> bool {
        self.file == other.file && self.record == other.record
    }
}

/// Whether two interfaces are chosen by the same word.
fn same_interface(one: InterfaceChoice, other: InterfaceChoice) -> bool
    ensures { result ≡ same_interface one other }
{
    match (one, other) {
        (InterfaceChoice::Number(one), InterfaceChoice::Number(other)) => one == other,
        (InterfaceChoice::Name(one), InterfaceChoice::Name(other)) => one.is_same(&other),
        _ => false,
    }
}

impl Item for Link {
    ghost use Rattle.pim_merge.specs.Slots.{same_link};

    ghost same = { same_link };

    fn is_same(self, other: Self) -> bool {
        self.vlan.outer == other.vlan.outer
            && self.vlan.inner == other.vlan.inner
            && same_interface(self.interface, other.interface)
    }
}

/// An address in a field of 16 bytes, with zeros after the bytes of IPv4.
pub(crate) fn field_of<F: Family>(address: F::Addr) -> [u8; 16]
    ensures { result ≡ field_of (F.bytes_of address) }
{
    F::address_has_its_bytes(address);
    let mut field = [0; 16];
    let (front, _) = field.split_at_mut(F::LEN);
    F::put(address, front);
    field
}

/// Whether a slot is free or has this item.
fn takes<T: Item>(slot: Option<T>, item: T) -> bool
    ensures { result ≡ takes (T.same item) slot }
{
    match slot {
        Some(held) => item.is_same(held),
        None => true,
    }
}

/// The number of the first slot that is free or has this item; the number of slots if there is
/// none.
fn place_of<T: Item>(slots: &[Option<T>], item: T) -> usize
    ensures { result ≡ place_of (T.same item) slots.now }
{
    let mut place = 0;
    for slot in slots {
        if takes(*slot, item) {
            return place;
        }
        place += 1;
    }
    place
}

/// Puts an item into the first free slot, unless a slot before that has it. Returns whether a slot
/// has it now.
pub(crate) fn add<T: Item>(slots: &mut [Option<T>], item: T) -> bool
    ensures slots { slots.new ≡ added T.same item slots.old }
    ensures fits { result ≡ fits T.same item slots.old }
{
    let place = place_of(slots, item);
    if slots.len() <= place {
        return false;
    }
    if slots[place].is_none() {
        slots[place] = Some(item);
    }
    true
}
