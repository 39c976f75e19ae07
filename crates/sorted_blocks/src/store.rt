//! The blocks in use and the spare ones, with the edits that the calls of the list are made of.
//!
//! The first items of the blocks are in one row beside the blocks, so that a search over the blocks
//! opens none of them. Spare blocks are freed only with the list.

ghost use Rattle.std.specs.Prelude.{◌≡◌, ◌+◌, ◌<◌, ◌≤◌, [], ◌∷◌, length, slice_index_or};
ghost use Rattle.std.specs.Prelude.{OnOk, OnErr};
ghost use Rattle.std.specs.List.{remove};
ghost use Rattle.sorted_blocks.specs.Shape.{Shape, joined, block_at, together, put_into};
ghost use Rattle.sorted_blocks.specs.Shape.{spliced_into, cut_from, split, merged, block_total};
ghost use Rattle.sorted_blocks.specs.Sound.{AllFilled};
ghost use Rattle.sorted_blocks.specs.Sought.{IsLead};

use crate::block::Block;
use std::alloc::{AllocError, Global};
use std::marker::Model;

/// The greatest number of blocks. Past it, taking memory fails. The counts of items then stay far
/// below 2^64.
const MOST_BLOCKS: usize = 1 << 32;

/// A list of items in blocks of up to twice `HALF` items. Within a call, neighbouring blocks may
/// have few items together.
#[derive(Drop)]
pub(crate) struct BlockStore<T: Copy, const HALF: usize> {
    alloc: Global,
    /// The blocks in use, none of them empty; with memory for the spare ones too.
    used: Vec<Block<T, HALF>>,
    /// The first items of the blocks in use; with memory for those of the spare ones too.
    firsts: Vec<T>,
    /// The spare blocks; with memory for those in use too.
    spare: Vec<Block<T, HALF>>,
    /// The number of items.
    count: usize,
}

impl<T: Copy, const HALF: usize> Model for BlockStore<T, HALF> {
    ghost use Rattle.sorted_blocks.specs.Shape.{Shape};

    ghost Value = { Shape T };

    ghost use Rattle.sorted_blocks.specs.Sound.{IsSound, IsLed};
    ghost use Rattle.std.specs.Prelude.{vec_len};

    ghost view = { λ b. record { blocks = b.used.items; spare = vec_len b.spare } };

    ghost invariant = { λ b. IsSound HALF b.used.items b.spare.len b.used.cap b.spare.cap b.count
        × IsLed b.used.items b.spare.len b.firsts.items b.firsts.cap };
}

impl<T: Copy, const HALF: usize> BlockStore<T, HALF> {
    /// Returns a list without items.
    pub(crate) fn new(alloc: Global) -> Self
        requires some { 1 ≤ HALF }
        requires small { HALF ≤ 65536 }
        ensures { result ≡ record { blocks = []; spare = 0 } }
    {
        BlockStore {
            alloc,
            used: Vec::new(alloc),
            firsts: Vec::new(alloc),
            spare: Vec::new(alloc),
            count: 0,
        }
    }

    /// Returns the number of items.
    pub(crate) fn len(&self) -> usize
        ensures { result ≡ length (joined self.now.blocks) }
    {
        self.count
    }

    /// Returns the number of blocks in use.
    pub(crate) fn block_count(&self) -> usize
        ensures count { result ≡ length self.now.blocks }
        ensures few { result ≤ 4294967296 }
    {
        self.used.len()
    }

    /// Returns the number of all blocks, in use and spare.
    pub(crate) fn block_total(&self) -> usize
        ensures total { result ≡ block_total self.now }
        ensures few { result ≤ 4294967296 }
        ensures half { 1 ≤ HALF }
        ensures small { HALF ≤ 65536 }
    {
        self.spare.len() + self.used.len()
    }

    /// Returns the number of items of this block.
    pub(crate) fn block_len(&self, block: usize) -> usize
        requires { block < length self.now.blocks }
        ensures len { result ≡ length (block_at self.now.blocks block) }
        ensures some { 1 ≤ result }
        ensures most { result ≤ HALF + HALF }
        ensures half { 1 ≤ HALF }
        ensures small { HALF ≤ 65536 }
        ensures few { block < 4294967296 }
    {
        self.used[block].len()
    }

    /// Returns the item at this place of this block.
    pub(crate) fn item_of(&self, block: usize, at: usize) -> &T
        requires block { block < length self.now.blocks }
        requires at { at < length (block_at self.now.blocks block) }
        ensures { result.now ≡ slice_index_or (block_at self.now.blocks block) at result.now }
    {
        self.used[block].get(at)
    }

    /// Returns the items of this block.
    pub(crate) fn row(&self, block: usize) -> &[T]
        requires { block < length self.now.blocks }
        ensures { result.now ≡ block_at self.now.blocks block }
    {
        self.used[block].as_slice()
    }

    /// Returns the blocks in use, in order.
    pub(crate) fn all_blocks(&self) -> &[Block<T, HALF>]
        ensures all { result.now ≡ self.now.blocks }
        ensures filled { AllFilled HALF result.now }
    {
        self.used.as_slice()
    }

    /// Returns the first items of the blocks in use.
    pub(crate) fn firsts(&self) -> &[T]
        ensures { IsLead self.now.blocks result.now }
    {
        self.firsts.as_slice()
    }

    /// Inserts an item in a block that is not full.
    pub(crate) fn put(&mut self, block: usize, at: usize, item: T)
        requires block { block < length self.old.blocks }
        requires at { at ≤ length (block_at self.old.blocks block) }
        requires not_full { length (block_at self.old.blocks block) < HALF + HALF }
        ensures blocks { self.new.blocks ≡ put_into self.old.blocks block at item }
        ensures spare { self.new.spare ≡ self.old.spare }
    {
        let row = &mut self.used[block];
        row.put(at, item);
        self.firsts[block] = *row.get(0);
        self.count += 1;
    }

    /// Inserts items in a block that has room for them.
    pub(crate) fn put_all(&mut self, block: usize, at: usize, run: &[T])
        requires block { block < length self.old.blocks }
        requires at { at ≤ length (block_at self.old.blocks block) }
        requires room { length (block_at self.old.blocks block) + length run.now ≤ HALF + HALF }
        ensures blocks { self.new.blocks ≡ spliced_into self.old.blocks block at run.now }
        ensures spare { self.new.spare ≡ self.old.spare }
    {
        let row = &mut self.used[block];
        row.put_all(at, run);
        self.firsts[block] = *row.get(0);
        self.count += run.len();
    }

    /// Puts the first item of the list into a spare block.
    pub(crate) fn begin(&mut self, item: T)
        requires none { self.old.blocks ≡ [] }
        requires spare { 0 < self.old.spare }
        ensures blocks { self.new.blocks ≡ (item ∷ []) ∷ [] }
        ensures spare { self.new.spare + 1 ≡ self.old.spare }
        ensures half { 1 ≤ HALF }
    {
        let mut fresh = self.spare.take_last();
        fresh.clear();
        fresh.put(0, item);
        self.used.push_reserved(fresh);
        self.firsts.push_reserved(item);
        self.count += 1;
    }

    /// Splits a full block into two halves.
    pub(crate) fn split(&mut self, block: usize)
        requires block { block < length self.old.blocks }
        requires full { length (block_at self.old.blocks block) ≡ HALF + HALF }
        requires spare { 0 < self.old.spare }
        ensures blocks { self.new.blocks ≡ split HALF self.old.blocks block }
        ensures spare { self.new.spare + 1 ≡ self.old.spare }
        ensures filled { AllFilled HALF self.old.blocks }
    {
        let mut fresh = self.spare.take_last();
        let row = &mut self.used[block];
        row.split_into(&mut fresh);
        self.firsts[block] = *row.get(0);
        let first = *fresh.get(0);
        if self.firsts.insert(block + 1, first).is_err() {
            unreachable!()
        }
        if self.used.insert(block + 1, fresh).is_err() {
            unreachable!()
        }
    }

    /// Takes `count` items out of a block that keeps others.
    pub(crate) fn cut_out(&mut self, block: usize, at: usize, count: usize)
        requires block { block < length self.old.blocks }
        requires within { at + count ≤ length (block_at self.old.blocks block) }
        requires others { count < length (block_at self.old.blocks block) }
        ensures blocks { self.new.blocks ≡ cut_from self.old.blocks block at count }
        ensures spare { self.new.spare ≡ self.old.spare }
    {
        let row = &mut self.used[block];
        row.cut_out(at, count);
        self.firsts[block] = *row.get(0);
        self.count -= count;
    }

    /// Takes out the only item of a block, which becomes spare.
    pub(crate) fn take_whole(&mut self, block: usize) -> T
        requires block { block < length self.old.blocks }
        requires alone { length (block_at self.old.blocks block) ≡ 1 }
        ensures value { result ≡ slice_index_or (block_at self.old.blocks block) 0 result }
        ensures blocks { self.new.blocks ≡ remove self.old.blocks block }
        ensures spare { self.new.spare ≡ self.old.spare + 1 }
        ensures filled { AllFilled HALF self.old.blocks }
    {
        let row = self.used.remove(block);
        let item = *row.get(0);
        let _first = self.firsts.remove(block);
        self.spare.push_reserved(row);
        self.count -= 1;
        item
    }

    /// Merges this block and the next one, which have at most `HALF` items together.
    pub(crate) fn merge(&mut self, block: usize)
        requires block { block + 1 < length self.old.blocks }
        requires few { together self.old.blocks block ≤ HALF }
        ensures blocks { self.new.blocks ≡ merged self.old.blocks block }
        ensures spare { self.new.spare ≡ self.old.spare + 1 }
    {
        let behind = self.used.remove(block + 1);
        let _first = self.firsts.remove(block + 1);
        let row = &mut self.used[block];
        row.absorb(&behind);
        self.firsts[block] = *row.get(0);
        self.spare.push_reserved(behind);
    }

    /// Takes memory for one more block. On an error the blocks are unchanged.
    pub(crate) fn add_spare(&mut self) -> Result<(), AllocError>
        ensures blocks { self.new.blocks ≡ self.old.blocks }
        ensures spare { OnOk result (self.new.spare ≡ self.old.spare + 1) }
        ensures unchanged { OnErr result (self.new.spare ≡ self.old.spare) }
        ensures never_less { self.old.spare ≤ self.new.spare }
        ensures few { OnOk result (block_total self.new ≤ 4294967296) }
    {
        let all = self.used.len() + self.spare.len();
        if all >= MOST_BLOCKS {
            return Err(AllocError);
        }
        let (for_used, for_spare) = (self.spare.len() + 1, self.used.len() + 1);
        self.used.reserve(for_used)?;
        self.firsts.reserve(for_used)?;
        self.spare.reserve(for_spare)?;
        let fresh = Block::new(self.alloc)?;
        self.spare.push_reserved(fresh);
        Ok(())
    }
}
