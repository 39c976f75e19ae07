//! Memory for items to come. Only `reserve_capacity` takes memory. Both vectors then have memory
//! for all blocks, so that no edit takes any.
//!
//! The capacity depends on the number of all blocks alone, so that a caller that only replaces
//! items needs no memory.

ghost use Rattle.std.specs.Prelude.{◌≡◌, ◌+◌, ◌≤◌, ◌<◌, length, OnOk, IsOk, IsTrue, ◌↔◌};
ghost use Rattle.sorted_blocks.specs.Shape.{items, joined, capacity};
ghost use Rattle.sorted_blocks.specs.Places.{before, IsPlace, IsItem};
ghost use Rattle.sorted_blocks.specs.declared.place.Place.{Place};

use crate::store::BlockStore;
use std::alloc::AllocError;

impl<T: Copy, const HALF: usize> BlockStore<T, HALF> {
    /// Returns the number of items that fit without memory, for any inserts and removals in
    /// between.
    pub(crate) fn capacity(&self) -> usize
        ensures { result ≡ capacity HALF self.now }
    {
        self.block_total().saturating_sub(1) * (HALF + 1) / 2
    }

    /// Returns whether `additional` more items exceed the capacity.
    fn lacks(&self, additional: usize) -> bool
        ensures { IsTrue result ↔ capacity HALF self.now < length (joined self.now.blocks)
            + additional }
    {
        let (capacity, count) = (self.capacity(), self.len());
        capacity < count || capacity - count < additional
    }

    /// Takes memory for `additional` more items: at Ok they fit, for any removals in between. The
    /// blocks in use and all places stay, also on an error, and the capacity never shrinks. Where
    /// the items fit already, the call returns Ok.
    pub(crate) fn reserve_capacity(&mut self, additional: usize) -> Result<(), AllocError>
        ensures ok { OnOk result (length (items self.new) + additional ≤ capacity HALF self.new) }
        ensures fits { length (items self.old) + additional ≤ capacity HALF self.old → IsOk result }
        ensures blocks { self.new.blocks ≡ self.old.blocks }
        ensures items { items self.new ≡ items self.old }
        ensures places { (place : Place) → IsPlace self.old place → IsPlace self.new place }
        ensures is_items { (place : Place) → IsItem self.old place → IsItem self.new place }
        ensures before { (place : Place) → before self.new place ≡ before self.old place }
        ensures capacity { capacity HALF self.old ≤ capacity HALF self.new }
    {
        while self.lacks(additional) {
            self.add_spare()?;
        }
        Ok(())
    }
}
