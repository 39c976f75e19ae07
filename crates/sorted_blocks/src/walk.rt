//! Reading of items: at a place, and from one place to the next.

ghost use Rattle.std.specs.Prelude.{◌≡◌, ◌+◌, ◌<◌, length, take, drop, slice_index_or, IsTrue, ◌↔◌};
ghost use Rattle.sorted_blocks.specs.Shape.{items};
ghost use Rattle.sorted_blocks.specs.Places.{before, rest_of, IsPlace, IsItem};

use crate::place::Place;
use crate::store::BlockStore;

impl<T: Copy, const HALF: usize> BlockStore<T, HALF> {
    /// Returns whether the place is that of an item.
    #[tactic(auto, unfolding(crate::specs::Places::IsItem))]
    pub(crate) fn is_item(&self, place: Place) -> bool
        ensures { IsTrue result ↔ IsItem self.now place }
    {
        if place.block >= self.block_count() {
            return false;
        }
        place.at < self.block_len(place.block)
    }

    /// Returns the item at this place.
    #[tactic(auto, unfolding(crate::specs::Places::IsItem))]
    pub(crate) fn get(&self, place: Place) -> &T
        requires { IsItem self.now place }
        ensures { result.now ≡ slice_index_or (items self.now) (before self.now place) result.now }
    {
        self.item_of(place.block, place.at)
    }

    /// Returns the place before all items: that of the first item, if there is one.
    pub(crate) fn first(&self) -> Place
        ensures place { IsPlace self.now result }
        ensures before { before self.now result ≡ 0 }
        ensures item { 0 < length (items self.now) → IsItem self.now result }
    {
        self.settled(Place::START)
    }

    /// Returns the place after this item in its block.
    #[tactic(auto, unfolding(crate::specs::Places::IsItem))]
    pub(crate) fn behind(&self, place: Place) -> Place
        requires { IsItem self.now place }
        ensures place { IsPlace self.now result }
        ensures before { before self.now result ≡ before self.now place + 1 }
    {
        let _len = self.block_len(place.block);
        Place {
            block: place.block,
            at: place.at + 1,
        }
    }

    /// Returns the place after this item: that of the next item, if there is one.
    pub(crate) fn next(&self, place: Place) -> Place
        requires { IsItem self.now place }
        ensures place { IsPlace self.now result }
        ensures before { before self.now result ≡ before self.now place + 1 }
        ensures item { before self.now place + 1 < length (items self.now)
            → IsItem self.now result }
    {
        self.settled(self.behind(place))
    }

    /// Returns the same place. For the end of a block that is not the last, it returns the place of
    /// the first item of the next block.
    pub(crate) fn settled(&self, place: Place) -> Place
        requires { IsPlace self.now place }
        ensures place { IsPlace self.now result }
        ensures before { before self.now result ≡ before self.now place }
        ensures item { before self.now place < length (items self.now) → IsItem self.now result }
    {
        let count = self.block_count();
        if place.block + 1 >= count {
            return place;
        }
        if place.at < self.block_len(place.block) {
            return place;
        }
        let _behind = self.block_len(place.block + 1);
        Place {
            block: place.block + 1,
            at: 0,
        }
    }

    /// Returns the items from this place on in its block, none for a place that is none.
    #[inline(always)]
    #[tactic(auto, using(crate::proofs::Rests::rest_past))]
    pub(crate) fn row_from(&self, place: Place) -> &[T]
        ensures rest { result.now ≡ rest_of self.now place }
        ensures row { IsPlace self.now place → result.now
            ≡ take (length result.now) (drop (before self.now place) (items self.now)) }
        ensures some { IsItem self.now place → 0 < length result.now }
    {
        if place.block >= self.block_count() {
            return &[];
        }
        let row = self.row(place.block);
        if place.at >= row.len() {
            return &[];
        }
        let (_before, rest) = row.split_at(place.at);
        rest
    }
}
