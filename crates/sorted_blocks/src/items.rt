//! A walk over the items.

ghost use Rattle.std.specs.Prelude.{◌≡◌, ◌≤◌, ◌++◌, drop};
ghost use Rattle.std.specs.Iterator.{YieldsFirst, item_count};
ghost use Rattle.sorted_blocks.specs.Shape.{items, joined};
ghost use Rattle.sorted_blocks.specs.Places.{before, IsPlace};

use crate::block::Block;
use crate::place::Place;
use crate::store::BlockStore;
use std::marker::Model;

/// The items from a place on, in order. Contracts see the items that remain. A step reads within a
/// block, and looks at the next block only at the end of one.
#[derive(Drop)]
pub struct Items<'a, T: Copy, const HALF: usize> {
    /// The items that remain of the block before `next_block`.
    row: &'a [T],
    all_blocks: &'a [Block<T, HALF>],
    next_block: usize,
}

impl<'a, T: Copy, const HALF: usize> Model for Items<'a, T, HALF> {
    ghost use Rattle.std.specs.Prelude.{List, ◌++◌, drop};
    ghost use Rattle.sorted_blocks.specs.Shape.{joined};
    ghost use Rattle.sorted_blocks.specs.Sound.{AllFilled};

    ghost Value = { List T };

    ghost view = { λ walk. walk.row.now ++ joined (drop walk.next_block walk.all_blocks.now) };

    ghost invariant = { λ walk. AllFilled HALF walk.all_blocks.now };
}

impl<T: Copy, const HALF: usize> BlockStore<T, HALF> {
    /// Returns a walk over the items from this place on.
    pub(crate) fn iter_from(&self, place: Place) -> Items<'_, T, HALF>
        requires { IsPlace self.now place }
        ensures { result ≡ drop (before self.now place) (items self.now) }
    {
        let all_blocks = self.all_blocks();
        if place.block >= all_blocks.len() {
            return Items {
                row: &[],
                all_blocks,
                next_block: place.block,
            };
        }
        let (_, row) = all_blocks[place.block].as_slice().split_at(place.at);
        Items {
            row,
            all_blocks,
            next_block: place.block + 1,
        }
    }
}

impl<'a, T: Copy, const HALF: usize> Iterator for Items<'a, T, HALF> {
    type Item = T;

    ghost next_gives = { YieldsFirst (λ items. items) };

    ghost remaining = { item_count (λ items. items) };

    fn next(&mut self) -> Option<T> {
        if let Some((item, rest)) = self.row.split_first() {
            self.row = rest;
            return Some(*item);
        }
        let block = self.next_block;
        if block >= self.all_blocks.len() {
            return None;
        }
        let opened = &self.all_blocks[block];
        // The code reads the fields, since a method's borrow of the block would have to outlive
        // `HALF`, which no bound can state.
        let (_left_over, row) = opened.items.as_slice().split_at(opened.start);
        let (item, rest) = row.split_first()?;
        self.row = rest;
        self.next_block = block + 1;
        Some(*item)
    }
}
