//! The list with its public calls.

ghost use Rattle.std.specs.Prelude.{◌≡◌, ◌+◌, ◌-◌, ◌*◌, ◌<◌, ◌≤◌, [], length, take, drop};
ghost use Rattle.std.specs.Prelude.{slice_index_or, OnOk, IsOk, IsTrue, ◌↔◌, IfSome, IfNone};
ghost use Rattle.std.specs.Prelude.{IsSome};
ghost use Rattle.std.specs.List.{All, insert, remove};
ghost use Rattle.sorted_blocks.specs.Shape.{items, capacity, cut, spliced, Shape};
ghost use Rattle.sorted_blocks.specs.Places.{before, rest_of, IsPlace, IsItem, HasRoom};
ghost use Rattle.sorted_blocks.specs.Found.{IsFound};
ghost use Rattle.sorted_blocks.specs.declared.place.Place.{Place};

use crate::items::Items;
use crate::place::Place;
use crate::probe::Probe;
use crate::store::BlockStore;
use std::alloc::{AllocError, Global};
use std::marker::Model;

/// A list of items in order, in blocks of up to twice `HALF` items. Each two neighbouring blocks
/// have more than `HALF` items together.
#[derive(Drop)]
pub struct Blocks<T: Copy, const HALF: usize> {
    store: BlockStore<T, HALF>,
}

impl<T: Copy, const HALF: usize> Model for Blocks<T, HALF> {
    ghost use Rattle.sorted_blocks.specs.Shape.{Shape};

    ghost Value = { Shape T };

    ghost use Rattle.sorted_blocks.specs.Sound.{IsDense};

    ghost view = { λ b. b.store };

    ghost invariant = { λ b. IsDense HALF b.store.blocks };
}

impl<T: Copy, const HALF: usize> Blocks<T, HALF> {
    /// Returns a list without items, in blocks of up to twice `HALF` items. It takes no memory.
    pub fn new(alloc: Global) -> Self
        requires some { 1 ≤ HALF }
        requires small { HALF ≤ 65536 }
        ensures { result ≡ record { blocks = []; spare = 0 } }
    {
        Blocks {
            store: BlockStore::new(alloc),
        }
    }

    /// Returns the number of items.
    pub fn len(&self) -> usize
        ensures { result ≡ length (items self.now) }
    {
        self.store.len()
    }

    /// Returns the number of items that fit without memory, for any inserts and removals in
    /// between. The edits keep it.
    pub fn capacity(&self) -> usize
        ensures { result ≡ capacity HALF self.now }
    {
        self.store.capacity()
    }

    /// Takes memory for `additional` more items: at Ok they fit, for any removals in between. The
    /// items and all places stay, also on an error, and the capacity never shrinks. Where the items
    /// fit already, the call returns Ok.
    ///
    /// # Errors
    /// Memory ran out, or the list would have more than 2^32 blocks.
    pub fn reserve_capacity(&mut self, additional: usize) -> Result<(), AllocError>
        ensures ok { OnOk result (length (items self.new) + additional ≤ capacity HALF self.new) }
        ensures fits { length (items self.old) + additional ≤ capacity HALF self.old → IsOk result }
        ensures items { items self.new ≡ items self.old }
        ensures places { (place : Place) → IsPlace self.old place → IsPlace self.new place }
        ensures is_items { (place : Place) → IsItem self.old place → IsItem self.new place }
        ensures before { (place : Place) → before self.new place ≡ before self.old place }
        ensures capacity { capacity HALF self.old ≤ capacity HALF self.new }
    {
        self.store.reserve_capacity(additional)
    }

    /// Inserts an item at this place, below the capacity, and returns its place. It moves at most
    /// the items of one block, and on a split a record and an item of each later block.
    pub fn insert_within(&mut self, place: Place, item: T) -> Place
        requires place { IsPlace self.old place }
        requires within { length (items self.old) < capacity HALF self.old }
        ensures items { items self.new ≡ insert (items self.old) (before self.old place) item }
        ensures capacity { capacity HALF self.new ≡ capacity HALF self.old }
        ensures place { IsItem self.new result }
        ensures before { before self.new result ≡ before self.old place }
    {
        self.store.insert_reserved(place, item)
    }

    /// Inserts these items at this place, if its block has room for them. Returns the place after
    /// them, or else changes nothing. It moves at most the items of one block.
    pub fn insert_in_block(&mut self, place: Place, run: &[T]) -> Option<Place>
        requires { IsPlace self.old place }
        ensures some { IfSome result (λ behind.
            (items self.new ≡ spliced (items self.old) (before self.old place) run.now)
            × IsPlace self.new behind
            × (before self.new behind ≡ before self.old place + length run.now)) }
        ensures none { IfNone result (self.new ≡ self.old) }
        ensures room { HasRoom HALF self.old place (length run.now) → IsSome result }
        ensures capacity { capacity HALF self.new ≡ capacity HALF self.old }
    {
        self.store.insert_in_block(place, run)
    }

    /// Takes out the item at this place, and returns it with the place of the item that followed.
    /// It moves at most the items of one block. Where blocks merge or go, it also moves the items
    /// of another block, and a record and an item of each later block.
    pub fn remove(&mut self, place: Place) -> (T, Place)
        requires { IsItem self.old place }
        ensures item { result.0 ≡ slice_index_or (items self.old) (before self.old place) result.0 }
        ensures items { items self.new ≡ remove (items self.old) (before self.old place) }
        ensures capacity { capacity HALF self.new ≡ capacity HALF self.old }
        ensures place { IsPlace self.new result.1 }
        ensures before { before self.new result.1 ≡ before self.old place }
    {
        self.store.remove(place)
    }

    /// Takes out `count` items of one block from this place on, and returns the place of the item
    /// that followed them. It moves as much as `remove`, and twice as much where it empties a
    /// block.
    pub fn remove_in_block(&mut self, place: Place, count: usize) -> Place
        requires item { IsItem self.old place }
        requires within { count ≤ length (rest_of self.old place) }
        ensures items { items self.new ≡ cut (items self.old) (before self.old place) count }
        ensures capacity { capacity HALF self.new ≡ capacity HALF self.old }
        ensures place { IsPlace self.new result }
        ensures before { before self.new result ≡ before self.old place }
    {
        self.store.remove_in_block(place, count)
    }

    /// Returns whether the place is that of an item.
    pub fn is_item(&self, place: Place) -> bool
        ensures { IsTrue result ↔ IsItem self.now place }
    {
        self.store.is_item(place)
    }

    /// Returns the item at this place.
    pub fn get(&self, place: Place) -> &T
        requires { IsItem self.now place }
        ensures { result.now ≡ slice_index_or (items self.now) (before self.now place) result.now }
    {
        self.store.get(place)
    }

    /// Returns the place before all items: that of the first item, if there is one.
    pub fn first(&self) -> Place
        ensures place { IsPlace self.now result }
        ensures before { before self.now result ≡ 0 }
        ensures item { 0 < length (items self.now) → IsItem self.now result }
    {
        self.store.first()
    }

    /// Returns the place after this item: that of the next item, if there is one.
    pub fn next(&self, place: Place) -> Place
        requires { IsItem self.now place }
        ensures place { IsPlace self.now result }
        ensures before { before self.now result ≡ before self.now place + 1 }
        ensures item { before self.now place + 1 < length (items self.now)
            → IsItem self.now result }
    {
        self.store.next(place)
    }

    /// Returns the same place. For the end of a block that is not the last, it returns the place of
    /// the first item of the next block.
    pub fn settled(&self, place: Place) -> Place
        requires { IsPlace self.now place }
        ensures place { IsPlace self.now result }
        ensures before { before self.now result ≡ before self.now place }
        ensures item { before self.now place < length (items self.now) → IsItem self.now result }
    {
        self.store.settled(place)
    }

    /// Returns the items from this place on in its block, none for a place that is none. From the
    /// place of an item on there is at least one.
    // It is inlined, so that a loop of a caller over the items has no call in it.
    #[inline(always)]
    pub fn row_from(&self, place: Place) -> &[T]
        ensures rest { result.now ≡ rest_of self.now place }
        ensures row { IsPlace self.now place → result.now
            ≡ take (length result.now) (drop (before self.now place) (items self.now)) }
        ensures some { IsItem self.now place → 0 < length result.now }
    {
        self.store.row_from(place)
    }

    /// Returns a walk over the items from this place on. It starts without a search, and takes no
    /// memory. A step reads within a block, and looks at the next block only at the end of one.
    pub fn iter_from(&self, place: Place) -> Items<'_, T, HALF>
        requires { IsPlace self.now place }
        ensures { result ≡ drop (before self.now place) (items self.now) }
    {
        self.store.iter_from(place)
    }

    /// Returns the place of an item that compares equal, or else a gap. The item before a gap is
    /// less than what is sought, and the item at it is greater. In a list in the order of the
    /// probe, the gap is where the item belongs. It then costs about as many comparisons as the
    /// number of items has bits.
    pub fn find<P: Probe<T>>(&self, probe: &P) -> Result<Place, Place>
        requires { All (P.can_compare probe.now) (items self.now) }
        ensures { IsFound (P.order probe.now) self.now result }
    {
        self.store.find(probe)
    }

    /// Returns the same as `find`, for any place `near`, at which the search begins. It costs a few
    /// comparisons where the item is at that place, right after it, or in the gap right before it.
    pub fn find_near<P: Probe<T>>(&self, near: Place, probe: &P) -> Result<Place, Place>
        requires { All (P.can_compare probe.now) (items self.now) }
        ensures { IsFound (P.order probe.now) self.now result }
    {
        self.store.find_near(near, probe)
    }
}
