//! A value for each of some machines, in key order. A search begins at the place after the last
//! change, since changes mostly come in key order.
//!
//! Contracts see the list of keys and values, and `held_for` as what it holds for a machine. A
//! search returns a place, so that one search serves a look-up and a change.

ghost use Rattle.std.specs.Prelude.{◌≡◌, [], None, Some, OnOk, OnErr};
ghost use Rattle.pim_down.specs.Key.{key_cmp};
ghost use Rattle.pim_down.specs.Seen.{key_seen};
ghost use Rattle.pim_trace.specs.Machines.{held_for, IsInKeyOrder, IsPlaceFor, Holds};

use pim_addr::Family;
use pim_down::{Key, compare_addresses, compare_whats};
use sorted_blocks::{Place, Probe};
use sorted_slab::SortedSlab;
use std::alloc::{AllocError, Global};
use std::cmp::Ordering;
use std::marker::Model;

/// The number of values in half a block.
const HALF: usize = 256;

/// Compares two keys: by port, by group, then by machine.
#[tactic(auto, unfolding(pim_down::specs::Key::key_cmp))]
fn compare_keys<F: Family>(a: &Key<F::Addr>, b: &Key<F::Addr>) -> Ordering
    ensures { result ≡ key_cmp (key_seen F.bytes_of a.now) (key_seen F.bytes_of b.now) }
{
    let by_port = a.port.cmp(&b.port);
    if by_port.is_ne() {
        return by_port;
    }
    let by_group = compare_addresses::<F>(a.group, b.group);
    if by_group.is_ne() {
        return by_group;
    }
    compare_whats::<F>(&a.what, &b.what)
}

/// A key that is sought.
#[derive(Drop)]
struct AtKey<F: Family> {
    key: Key<F::Addr>,
}

impl<F: Family, V: Copy> Probe<(Key<F::Addr>, V)> for AtKey<F> {
    ghost use Rattle.pim_trace.specs.Machines.{order_of_keys};

    ghost can_compare = { λ _ _. Unit {0} };

    ghost order = { λ sought item. order_of_keys F.bytes_of item.0 sought.key };

    fn compare(&self, item: &(Key<F::Addr>, V)) -> Ordering {
        compare_keys::<F>(&item.0, &self.key)
    }
}

/// A value for each of some machines.
#[derive(Drop)]
pub(crate) struct ByMachine<F: Family, V: Copy> {
    list: SortedSlab<(Key<F::Addr>, V), HALF>,
    /// Where a search begins: the place after the last change. It may be any place.
    near: Place,
}

impl<F: Family, V: Copy> Model for ByMachine<F, V> {
    ghost use Rattle.sorted_slab.specs.Listed.{Listed};
    ghost use Rattle.pim_down.specs.declared.machines.key.Key.{Key};

    ghost Value = { Listed (Key F.Addr × V) };

    ghost use Rattle.pim_trace.specs.Machines.{IsInKeyOrder};

    ghost view = { λ s. s.list };

    ghost invariant = { λ s. IsInKeyOrder F.bytes_of s.list.items };
}

/// The value at the place that was found, if there is one.
fn value_at<F: Family, V: Copy>(
    list: &SortedSlab<(Key<F::Addr>, V), HALF>,
    found: Result<Place, Place>,
    key: &Key<F::Addr>,
) -> Option<V>
    requires order { IsInKeyOrder F.bytes_of list.now.items }
    requires found { IsPlaceFor F.bytes_of key.now list.now found }
    ensures { result ≡ held_for F.bytes_of list.now.items (key_seen F.bytes_of key.now) }
{
    match found {
        Ok(place) => Some(list.get(place).1),
        Err(_) => None,
    }
}

/// Removes the value at the place that was found, if there is one. Returns a place nearby.
fn remove_at<F: Family, V: Copy>(
    list: &mut SortedSlab<(Key<F::Addr>, V), HALF>,
    found: Result<Place, Place>,
    key: &Key<F::Addr>,
) -> Place
    requires order { IsInKeyOrder F.bytes_of list.old.items }
    requires found { IsPlaceFor F.bytes_of key.now list.old found }
    ensures order { IsInKeyOrder F.bytes_of list.new.items }
    ensures left { Holds F.bytes_of key.now None list.old.items list.new.items }
{
    match found {
        Ok(place) => list.remove(place).1,
        Err(place) => place,
    }
}

/// Sets the value of a machine at the place that was found. Returns the place after it.
fn put_at<F: Family, V: Copy>(
    list: &mut SortedSlab<(Key<F::Addr>, V), HALF>,
    found: Result<Place, Place>,
    key: Key<F::Addr>,
    value: V,
) -> Result<Place, AllocError>
    requires order { IsInKeyOrder F.bytes_of list.old.items }
    requires found { IsPlaceFor F.bytes_of key list.old found }
    ensures order { IsInKeyOrder F.bytes_of list.new.items }
    ensures put { OnOk result (Holds F.bytes_of key (Some value) list.old.items list.new.items) }
    ensures refused { OnErr result (list.new.items ≡ list.old.items) }
{
    match found {
        Ok(place) => {
            let held = list.get(place).0;
            let behind = list.next(place);
            list.set(place, (held, value));
            Ok(behind)
        }
        Err(place) => {
            list.reserve(1)?;
            let stands = list.insert_within(place, (key, value));
            Ok(list.next(stands))
        }
    }
}

impl<F: Family, V: Copy> ByMachine<F, V> {
    /// No value for any machine. It takes no memory.
    pub(crate) fn new(alloc: Global) -> Self
        ensures { result.items ≡ [] }
    {
        ByMachine {
            list: SortedSlab::new(alloc),
            near: Place::START,
        }
    }

    /// The place of a machine, or as an error the place where it would be.
    pub(crate) fn find(&self, key: &Key<F::Addr>) -> Result<Place, Place>
        ensures { IsPlaceFor F.bytes_of key.now self.now result }
    {
        self.list.find_near(self.near, &AtKey::<F> { key: *key })
    }

    /// The value of a machine that was sought, if there is one.
    pub(crate) fn get(&self, found: Result<Place, Place>, key: &Key<F::Addr>) -> Option<V>
        requires { IsPlaceFor F.bytes_of key.now self.now found }
        ensures { result ≡ held_for F.bytes_of self.now.items (key_seen F.bytes_of key.now) }
    {
        value_at::<F, V>(&self.list, found, key)
    }

    /// Sets the value of a machine that was sought. An error changes no value.
    pub(crate) fn put(
        &mut self,
        found: Result<Place, Place>,
        key: Key<F::Addr>,
        value: V,
    ) -> Result<(), AllocError>
        requires { IsPlaceFor F.bytes_of key self.old found }
        ensures put { OnOk result
            (Holds F.bytes_of key (Some value) self.old.items self.new.items) }
        ensures refused { OnErr result (self.new.items ≡ self.old.items) }
    {
        self.near = put_at::<F, V>(&mut self.list, found, key, value)?;
        Ok(())
    }

    /// Removes the value of a machine that was sought, if there is one.
    pub(crate) fn remove(&mut self, found: Result<Place, Place>, key: &Key<F::Addr>)
        requires { IsPlaceFor F.bytes_of key.now self.old found }
        ensures { Holds F.bytes_of key.now None self.old.items self.new.items }
    {
        self.near = remove_at::<F, V>(&mut self.list, found, key);
    }
}
