//! The list with its public calls.

ghost use Rattle.std.specs.Prelude.{◌≡◌, ℕ, ◌+◌, ◌<◌, ◌≤◌, [], length, take, drop};
ghost use Rattle.std.specs.Prelude.{slice_index_or, slice_set, OnOk, IsOk, IsTrue, ◌↔◌, ℕ, Some};
ghost use Rattle.std.specs.List.{All, insert, remove};
ghost use Rattle.slab.specs.Slab.{get};
ghost use Rattle.sorted_blocks.specs.declared.place.Place.{Place};
ghost use Rattle.sorted_slab.specs.Listed.{at, numbers, IsPlace, IsItem, IsFound};

use crate::probe::ByNumber;
use crate::walk::Walk;
use slab::Slab;
use sorted_blocks::laws::{item_has_a_place, place_is_within};
use sorted_blocks::{Blocks, Place, Probe};
use std::alloc::{AllocError, Global};
use std::marker::Model;

/// A list of items in order. The items are in a slab, each with a number. The numbers are in the
/// order of the list, in blocks of up to twice `HALF`.
#[derive(Drop)]
pub struct SortedSlab<T: Copy, const HALF: usize> {
    index: Blocks<usize, HALF>,
    slab: Slab<T>,
}

impl<T: Copy, const HALF: usize> Model for SortedSlab<T, HALF> {
    ghost use Rattle.sorted_slab.specs.Listed.{Listed, listed};

    ghost Value = { Listed T };

    ghost use Rattle.sorted_blocks.specs.Shape.{items};
    ghost use Rattle.sorted_slab.specs.Sound.{IsSound};

    ghost view = { λ s. listed s.index s.slab HALF };

    ghost invariant = { λ s. IsSound s.slab (items s.index) };
}

impl<T: Copy, const HALF: usize> SortedSlab<T, HALF> {
    /// Returns a list without items, its numbers in blocks of up to twice `HALF`. It takes no
    /// memory.
    pub fn new(alloc: Global) -> Self
        requires some { 1 ≤ HALF }
        requires small { HALF ≤ 65536 }
        ensures { result.items ≡ [] }
    {
        SortedSlab {
            index: Blocks::new(alloc),
            slab: Slab::new(alloc),
        }
    }

    /// Returns the number of items.
    pub fn len(&self) -> usize
        ensures items { result ≡ length self.now.items }
        ensures numbers { result ≡ length (numbers self.now) }
    {
        self.index.len()
    }

    /// Returns the number of items that fit without memory. No edit changes it.
    pub fn capacity(&self) -> usize
        ensures { result ≡ self.now.capacity }
    {
        self.slab.capacity().min(self.index.capacity())
    }

    /// Takes memory for `additional` more items: at Ok they fit, for any removals in between. The
    /// items and all places stay, also on an error, and the capacity never shrinks. Where the items
    /// fit already, the call returns Ok.
    ///
    /// # Errors
    /// Memory ran out, or the index would have more than 2^32 blocks.
    pub fn reserve(&mut self, additional: usize) -> Result<(), AllocError>
        ensures ok { OnOk result (length self.new.items + additional ≤ self.new.capacity) }
        ensures fits { length self.old.items + additional ≤ self.old.capacity → IsOk result }
        ensures items { self.new.items ≡ self.old.items }
        ensures numbers { numbers self.new ≡ numbers self.old }
        ensures places { (place : Place) → IsPlace self.old place → IsPlace self.new place }
        ensures is_items { (place : Place) → IsItem self.old place → IsItem self.new place }
        ensures at { (place : Place) → at self.new place ≡ at self.old place }
        ensures capacity { self.old.capacity ≤ self.new.capacity }
    {
        self.slab.reserve(additional)?;
        self.index.reserve_capacity(additional)
    }

    /// Inserts an item at this place, below the capacity, and returns its place.
    pub fn insert_within(&mut self, place: Place, item: T) -> Place
        requires place { IsPlace self.old place }
        requires within { length self.old.items < self.old.capacity }
        ensures items { self.new.items ≡ insert self.old.items (at self.old place) item }
        ensures numbers { remove (numbers self.new) (at self.old place) ≡ numbers self.old }
        ensures capacity { self.new.capacity ≡ self.old.capacity }
        ensures place { IsItem self.new result }
        ensures at { at self.new result ≡ at self.old place }
    {
        place_is_within::<usize>();
        item_has_a_place::<usize>();
        let number = self.slab.insert_reserved(item);
        self.index.insert_within(place, number)
    }

    /// Takes out the item at this place, and returns it with the place of the item that followed.
    pub fn remove(&mut self, place: Place) -> (T, Place)
        requires { IsItem self.old place }
        ensures item { result.0 ≡ slice_index_or self.old.items (at self.old place) result.0 }
        ensures items { self.new.items ≡ remove self.old.items (at self.old place) }
        ensures numbers { numbers self.new ≡ remove (numbers self.old) (at self.old place) }
        ensures capacity { self.new.capacity ≡ self.old.capacity }
        ensures place { IsPlace self.new result.1 }
        ensures at { at self.new result.1 ≡ at self.old place }
    {
        let (number, behind) = self.index.remove(place);
        let item = self.slab.remove(number);
        (item, behind)
    }

    /// Replaces the item at this place.
    pub fn set(&mut self, place: Place, item: T)
        requires { IsItem self.old place }
        ensures items { self.new.items ≡ slice_set self.old.items (at self.old place) item }
        ensures index { self.new.index ≡ self.old.index }
        ensures capacity { self.new.capacity ≡ self.old.capacity }
    {
        let number = *self.index.get(place);
        self.slab[number] = item;
    }

    /// Returns the item at this place.
    pub fn get(&self, place: Place) -> &T
        requires { IsItem self.now place }
        ensures { result.now ≡ slice_index_or self.now.items (at self.now place) result.now }
    {
        let number = *self.index.get(place);
        &self.slab[number]
    }

    /// Returns the number of the item at this place. The item keeps it until it is taken out.
    pub fn number_of(&self, place: Place) -> usize
        requires { IsItem self.now place }
        ensures { result ≡ slice_index_or (numbers self.now) (at self.now place) result }
    {
        *self.index.get(place)
    }

    /// Returns the numbers of the items from this place on in its block of the index, none for a
    /// place that is none. From the place of an item on there is at least one.
    // It is inlined, so that a loop of a caller over the numbers has no call in it.
    #[inline(always)]
    pub fn numbers_from(&self, place: Place) -> &[usize]
        ensures row { IsPlace self.now place → result.now
            ≡ take (length result.now) (drop (at self.now place) (numbers self.now)) }
        ensures some { IsItem self.now place → 0 < length result.now }
    {
        self.index.row_from(place)
    }

    /// Returns the slab, in which each item has its number.
    pub fn slab(&self) -> &Slab<T>
        ensures count { length (numbers self.now) ≡ length self.now.items }
        ensures item { (i d : ℕ) (e : T) → i < length (numbers self.now)
            → get result.now (slice_index_or (numbers self.now) i d)
            ≡ Some (slice_index_or self.now.items i e) }
    {
        &self.slab
    }

    /// Returns whether the place is that of an item.
    pub fn is_item(&self, place: Place) -> bool
        ensures { IsTrue result ↔ IsItem self.now place }
    {
        item_has_a_place::<usize>();
        self.index.is_item(place)
    }

    /// Returns the place before all items: that of the first item, if there is one.
    pub fn first(&self) -> Place
        ensures place { IsPlace self.now result }
        ensures at { at self.now result ≡ 0 }
        ensures item { 0 < length self.now.items → IsItem self.now result }
    {
        self.index.first()
    }

    /// Returns the place after this item: that of the next item, if there is one.
    pub fn next(&self, place: Place) -> Place
        requires { IsItem self.now place }
        ensures place { IsPlace self.now result }
        ensures at { at self.now result ≡ at self.now place + 1 }
        ensures item { at self.now place + 1 < length self.now.items → IsItem self.now result }
    {
        self.index.next(place)
    }

    /// Returns the same place. For the end of a block that is not the last, it returns the place of
    /// the first item of the next block.
    pub fn settled(&self, place: Place) -> Place
        requires { IsPlace self.now place }
        ensures place { IsPlace self.now result }
        ensures at { at self.now result ≡ at self.now place }
        ensures item { at self.now place < length self.now.items → IsItem self.now result }
    {
        self.index.settled(place)
    }

    /// Returns a walk over `count` items from this place on, or over all that follow it where these
    /// are fewer.
    pub fn walk(&self, place: Place, count: usize) -> Walk<'_, T, HALF>
        requires { IsPlace self.now place }
        ensures { result ≡ take count (drop (at self.now place) self.now.items) }
    {
        Walk {
            numbers: self.index.iter_from(place),
            slab: &self.slab,
            left: count,
        }
    }

    /// Returns the place of an item that compares equal, or else a gap. The item before a gap is
    /// less than what is sought, and the item at it is greater.
    pub fn find<P: Probe<T>>(&self, probe: &P) -> Result<Place, Place>
        requires { All (P.can_compare probe.now) self.now.items }
        ensures { IsFound (P.order probe.now) self.now result }
    {
        place_is_within::<usize>();
        self.index.find(&ByNumber {
            slab: &self.slab,
            probe,
        })
    }

    /// Returns the same as `find`, for any place `near`, at which the search begins.
    pub fn find_near<P: Probe<T>>(&self, near: Place, probe: &P) -> Result<Place, Place>
        requires { All (P.can_compare probe.now) self.now.items }
        ensures { IsFound (P.order probe.now) self.now result }
    {
        place_is_within::<usize>();
        self.index.find_near(
            near,
            &ByNumber {
                slab: &self.slab,
                probe,
            },
        )
    }
}
