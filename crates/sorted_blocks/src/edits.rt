//! Inserts and removals at places of the list.
//!
//! Two neighbouring blocks become one at a removal, as soon as they have at most `HALF` items
//! together. They do not become one sooner, so that alternating inserts and removals at one place
//! do not split and merge each time.

ghost use Rattle.std.specs.Prelude.{◌≡◌, ℕ, ◌+◌, ◌-◌, ◌<◌, ◌≤◌, [], ◌∷◌, ◌++◌, length};
ghost use Rattle.std.specs.Prelude.{slice_index_or, IsTrue, ◌↔◌, IfSome, IfNone, IsSome};
ghost use Rattle.std.specs.List.{insert, remove};
ghost use Rattle.sorted_blocks.specs.Shape.{items, block_total, block_at, together, cut, spliced};
ghost use Rattle.sorted_blocks.specs.Places.{before, rest_of, IsPlace, IsItem, HasRoom};
ghost use Rattle.sorted_blocks.specs.Sound.{IsDense, IsDenseIn};

use crate::place::Place;
use crate::store::BlockStore;

impl<T: Copy, const HALF: usize> BlockStore<T, HALF> {
    /// Inserts an item at this place, and returns its place. The caller has a spare block.
    pub(crate) fn insert_reserved(&mut self, place: Place, item: T) -> Place
        requires place { IsPlace self.old place }
        requires spare { 0 < self.old.spare }
        ensures items { items self.new ≡ insert (items self.old) (before self.old place) item }
        ensures place { IsItem self.new result }
        ensures before { before self.new result ≡ before self.old place }
        ensures total { block_total self.new ≡ block_total self.old }
        ensures dense { IsDense HALF self.old.blocks → IsDense HALF self.new.blocks }
    {
        if self.block_count() == 0 {
            self.begin(item);
            return Place::START;
        }
        let place = self.make_way(place);
        self.put(place.block, place.at, item);
        place
    }

    /// Inserts these items at this place, if its block has room for them. Returns the place after
    /// them.
    pub(crate) fn insert_in_block(&mut self, place: Place, run: &[T]) -> Option<Place>
        requires { IsPlace self.old place }
        ensures some { IfSome result (λ behind.
            (items self.new ≡ spliced (items self.old) (before self.old place) run.now)
            × IsPlace self.new behind
            × (before self.new behind ≡ before self.old place + length run.now)) }
        ensures none { IfNone result (self.new ≡ self.old) }
        ensures room { HasRoom HALF self.old place (length run.now) → IsSome result }
        ensures total { block_total self.new ≡ block_total self.old }
        ensures dense { IsDense HALF self.old.blocks → IsDense HALF self.new.blocks }
    {
        if place.block >= self.block_count() {
            return None;
        }
        let len = self.block_len(place.block);
        let room = HALF + HALF - len;
        let count = run.len();
        if count > room {
            return None;
        }
        self.put_all(place.block, place.at, run);
        Some(Place {
            block: place.block,
            at: place.at + count,
        })
    }

    /// Returns the same place in a block that is not full: a full block is split.
    fn make_way(&mut self, place: Place) -> Place
        requires some { 0 < length self.old.blocks }
        requires place { IsPlace self.old place }
        requires spare { 0 < self.old.spare }
        ensures items { items self.new ≡ items self.old }
        ensures block { result.block < length self.new.blocks }
        ensures at { result.at ≤ length (block_at self.new.blocks result.block) }
        ensures not_full { length (block_at self.new.blocks result.block) < HALF + HALF }
        ensures before { before self.new result ≡ before self.old place }
        ensures total { block_total self.new ≡ block_total self.old }
        ensures dense { IsDense HALF self.old.blocks → IsDense HALF self.new.blocks }
    {
        if self.block_len(place.block) < HALF + HALF {
            return place;
        }
        self.split(place.block);
        if place.at <= HALF {
            return place;
        }
        Place {
            block: place.block + 1,
            at: place.at - HALF,
        }
    }

    /// Takes out the item at this place, and returns it with the place of the item that followed.
    pub(crate) fn remove(&mut self, place: Place) -> (T, Place)
        requires { IsItem self.old place }
        ensures item { result.0 ≡ slice_index_or (items self.old) (before self.old place) result.0 }
        ensures items { items self.new ≡ remove (items self.old) (before self.old place) }
        ensures place { IsPlace self.new result.1 }
        ensures before { before self.new result.1 ≡ before self.old place }
        ensures total { block_total self.new ≡ block_total self.old }
        ensures dense { IsDense HALF self.old.blocks → IsDense HALF self.new.blocks }
    {
        if self.block_len(place.block) == 1 {
            let item = self.take_whole(place.block);
            return (item, self.start_of(place.block));
        }
        let item = *self.get(place);
        (item, self.remove_within(place, 1))
    }

    /// Takes out `count` items of one block from this place on, and returns the place of the item
    /// that followed them.
    pub(crate) fn remove_in_block(&mut self, place: Place, count: usize) -> Place
        requires item { IsItem self.old place }
        requires within { count ≤ length (rest_of self.old place) }
        ensures items { items self.new ≡ cut (items self.old) (before self.old place) count }
        ensures place { IsPlace self.new result }
        ensures before { before self.new result ≡ before self.old place }
        ensures total { block_total self.new ≡ block_total self.old }
        ensures dense { IsDense HALF self.old.blocks → IsDense HALF self.new.blocks }
    {
        if count < self.block_len(place.block) {
            return self.remove_within(place, count);
        }
        let behind = self.remove_within(place, count - 1);
        let last = self.settled(behind);
        let (_gone, behind) = self.remove(last);
        behind
    }

    /// Takes `count` items out of a block that keeps others. Returns the place of the item that
    /// followed them.
    fn remove_within(&mut self, place: Place, count: usize) -> Place
        requires item { IsItem self.old place }
        requires within { place.at + count ≤ length (block_at self.old.blocks place.block) }
        requires others { count < length (block_at self.old.blocks place.block) }
        ensures items { items self.new ≡ cut (items self.old) (before self.old place) count }
        ensures place { IsPlace self.new result }
        ensures before { before self.new result ≡ before self.old place }
        ensures total { block_total self.new ≡ block_total self.old }
        ensures dense { IsDense HALF self.old.blocks → IsDense HALF self.new.blocks }
    {
        self.cut_out(place.block, place.at, count);
        let place = self.join_behind(place);
        self.join_before(place)
    }

    /// Returns the place before the items of this block, or after all items where the list has no
    /// block with this number.
    fn start_of(&self, block: usize) -> Place
        requires { block ≤ length self.now.blocks }
        ensures place { IsPlace self.now result }
        ensures before { before self.now result
            ≡ before self.now (record { block = block; at = 0 }) }
    {
        if block < self.block_count() || block == 0 {
            return Place { block, at: 0 };
        }
        Place {
            block: block - 1,
            at: self.block_len(block - 1),
        }
    }

    /// Returns whether this block and the next one have at most `HALF` items together.
    fn are_short(&self, block: usize) -> bool
        requires { block + 1 < length self.now.blocks }
        ensures { IsTrue result ↔ together self.now.blocks block ≤ HALF }
    {
        self.block_len(block) + self.block_len(block + 1) <= HALF
    }

    /// Merges the block of the place with the next one, where both have at most `HALF` items
    /// together. Returns the same place.
    fn join_behind(&mut self, place: Place) -> Place
        requires block { place.block < length self.old.blocks }
        requires at { place.at ≤ length (block_at self.old.blocks place.block) }
        ensures items { items self.new ≡ items self.old }
        ensures block { result.block < length self.new.blocks }
        ensures at { result.at ≤ length (block_at self.new.blocks result.block) }
        ensures before { before self.new result ≡ before self.old place }
        ensures total { block_total self.new ≡ block_total self.old }
        ensures front { IsDenseIn HALF self.old.blocks 0 place.block
            → IsDenseIn HALF self.new.blocks 0 result.block }
        ensures back { IsDenseIn HALF self.old.blocks (place.block + 1) (length self.old.blocks) →
            IsDenseIn HALF self.new.blocks result.block (length self.new.blocks) }
    {
        let count = self.block_count();
        if place.block + 1 < count && self.are_short(place.block) {
            self.merge(place.block);
        }
        place
    }

    /// Merges the block of the place with the one before it, where both have at most `HALF` items
    /// together. Returns the same place.
    fn join_before(&mut self, place: Place) -> Place
        requires block { place.block < length self.old.blocks }
        requires at { place.at ≤ length (block_at self.old.blocks place.block) }
        ensures items { items self.new ≡ items self.old }
        ensures place { IsPlace self.new result }
        ensures before { before self.new result ≡ before self.old place }
        ensures total { block_total self.new ≡ block_total self.old }
        ensures dense { IsDenseIn HALF self.old.blocks 0 place.block →
            IsDenseIn HALF self.old.blocks place.block (length self.old.blocks)
            → IsDense HALF self.new.blocks }
    {
        if place.block == 0 || !self.are_short(place.block - 1) {
            return place;
        }
        let len = self.block_len(place.block - 1);
        self.merge(place.block - 1);
        Place {
            block: place.block - 1,
            at: len + place.at,
        }
    }
}
