//! A walk over the items.

ghost use Rattle.std.specs.Iterator.{YieldsFirstBy, item_count};

use slab::Slab;
use sorted_blocks::Items;
use std::marker::Model;

/// A number of items from a place on, in order. Contracts see the items that remain.
#[derive(Drop)]
pub struct Walk<'a, T: Copy, const HALF: usize> {
    pub(crate) numbers: Items<'a, usize, HALF>,
    pub(crate) slab: &'a Slab<T>,
    pub(crate) left: usize,
}

impl<'a, T: Copy, const HALF: usize> Model for Walk<'a, T, HALF> {
    ghost use Rattle.std.specs.Prelude.{List, take};
    ghost use Rattle.slab.specs.Slab.{get};
    ghost use Rattle.sorted_slab.specs.Listed.{found};
    ghost use Rattle.sorted_slab.specs.Sound.{AllHeld};

    ghost Value = { List T };

    ghost view = { λ walk. take walk.left (found (get walk.slab.now) walk.numbers) };

    ghost invariant = { λ walk. AllHeld walk.slab.now walk.numbers };
}

#[tactic(auto, using(crate::proofs::Found::walk_none))]
impl<'a, T: Copy, const HALF: usize> Iterator for Walk<'a, T, HALF> {
    type Item = &'a T;

    ghost next_gives = { YieldsFirstBy (λ item. item.now) (λ items. items) };

    ghost remaining = { item_count (λ items. items) };

    fn next(&mut self) -> Option<&'a T> {
        if self.left == 0 {
            return None;
        }
        let number = self.numbers.next()?;
        self.left -= 1;
        self.slab.get(number)
    }
}
