//! One block: memory of its own for twice `HALF` items.
//!
//! Items are taken out at the front without a move. They are left over before the first item until
//! the memory of the block is full. All items then move down once. Lists of timers lose their items
//! from the front, and each removal there would move half a block.

ghost use Rattle.std.specs.Prelude.{◌≡◌, ℕ, ◌+◌, ◌-◌, ◌<◌, ◌≤◌, [], ◌++◌, length, take, drop};
ghost use Rattle.std.specs.Prelude.{slice_index_or, vec_len, vec_capacity, IfOk};
ghost use Rattle.std.specs.List.{insert, remove};
ghost use Rattle.sorted_blocks.specs.Shape.{cut, spliced};

use std::alloc::{AllocError, Global};
use std::marker::Model;

/// An item is near the front where at most one in `FRONT` of the items of its block are before it.
/// Items near the front are taken out by moving those before them, others by moving those after
/// them.
const FRONT: usize = 2;

/// Up to twice `HALF` items, with memory for all of them. Taking out the first item moves no other,
/// and nor does putting one in its place.
#[derive(Drop)]
pub(crate) struct Block<T: Copy, const HALF: usize> {
    /// Items before `start` are left over from removals at the front.
    pub(crate) items: Vec<T>,
    /// The index of the first item of the block.
    pub(crate) start: usize,
}

impl<T: Copy, const HALF: usize> Model for Block<T, HALF> {
    ghost use Rattle.std.specs.Prelude.{List};

    ghost Value = { List T };

    ghost use Rattle.sorted_blocks.specs.Sound.{IsRoomy};
    ghost use Rattle.std.specs.Prelude.{vec_len, vec_capacity, drop};

    ghost view = { λ b. drop b.start b.items.items };

    ghost invariant = { λ b. IsRoomy HALF b.start (vec_len b.items) (vec_capacity b.items) };
}

impl<T: Copy, const HALF: usize> Block<T, HALF> {
    /// Returns a block without items.
    pub(crate) fn new(alloc: Global) -> Result<Self, AllocError>
        requires { HALF ≤ 65536 }
        ensures { IfOk result (λ b. b ≡ []) }
    {
        let items = Vec::with_capacity(alloc, HALF + HALF)?;
        Ok(Block { items, start: 0 })
    }

    /// Returns the number of items of the block.
    pub(crate) fn len(&self) -> usize
        ensures len { result ≡ length self.now }
        ensures most { result ≤ HALF + HALF }
        ensures small { HALF ≤ 65536 }
    {
        self.items.len() - self.start
    }

    /// Returns the items in order.
    pub(crate) fn as_slice(&self) -> &[T]
        ensures { result.now ≡ self.now }
    {
        let (_left_over, row) = self.items.as_slice().split_at(self.start);
        row
    }

    /// Returns the item at this place in the block.
    pub(crate) fn get(&self, at: usize) -> &T
        requires { at < length self.now }
        ensures { result.now ≡ slice_index_or self.now at result.now }
    {
        &self.items[self.start + at]
    }

    /// Inserts an item at this place of a block that is not full.
    #[tactic(auto, using(crate::proofs::LeftOver::insert_beyond))]
    pub(crate) fn put(&mut self, at: usize, item: T)
        requires within { at ≤ length self.old }
        requires room { length self.old < HALF + HALF }
        ensures { self.new ≡ insert self.old at item }
    {
        if at == 0 && self.start > 0 {
            self.start -= 1;
            self.items[self.start] = item;
            return;
        }
        self.start = make_way(&mut self.items, self.start, 1, HALF + HALF);
        if self.items.insert(self.start + at, item).is_err() {
            unreachable!()
        }
    }

    /// Inserts these items at this place of a block that has room for them. One move makes way.
    #[tactic(auto, using(crate::proofs::Splices::spliced_beyond))]
    pub(crate) fn put_all(&mut self, at: usize, run: &[T])
        requires within { at ≤ length self.old }
        requires room { length self.old + length run.now ≤ HALF + HALF }
        ensures { self.new ≡ spliced self.old at run.now }
    {
        self.start = make_way(&mut self.items, self.start, run.len(), HALF + HALF);
        put_all(&mut self.items, self.start + at, run);
    }

    /// Takes out `count` items from this place on. It moves the items before them where these are
    /// few, else the items after them.
    pub(crate) fn cut_out(&mut self, at: usize, count: usize)
        requires { at + count ≤ length self.old }
        ensures { self.new ≡ cut self.old at count }
    {
        let start = self.start;
        if at <= self.len() / FRONT {
            self.items.copy_within(start..start + at, start + count);
            self.start += count;
            return;
        }
        cut_out(&mut self.items, start + at, count);
    }

    /// Removes all items.
    pub(crate) fn clear(&mut self)
        ensures { self.new ≡ [] }
    {
        self.items.clear();
        self.start = 0;
    }

    /// Moves the items after the first `HALF` into another block, which loses its own.
    #[tactic(auto, using(crate::proofs::LeftOver::take_beyond))]
    pub(crate) fn split_into(&mut self, other: &mut Self)
        requires { HALF ≤ length self.old }
        ensures front { self.new ≡ take HALF self.old }
        ensures back { other.new ≡ drop HALF self.old }
    {
        other.items.clear();
        other.start = 0;
        let (_front, back) = self.as_slice().split_at(HALF);
        if other.items.extend_from_slice(back).is_err() {
            unreachable!()
        }
        self.items.truncate(self.start + HALF);
    }

    /// Appends the items of another block.
    pub(crate) fn absorb(&mut self, other: &Self)
        requires { length self.old + length other.now ≤ HALF + HALF }
        ensures { self.new ≡ self.old ++ other.now }
    {
        move_down(&mut self.items, self.start);
        self.start = 0;
        if self.items.extend_from_slice(other.as_slice()).is_err() {
            unreachable!()
        }
    }
}

/// Makes room for `count` more items after the items from `start` on, and returns where these then
/// begin. They move only where there is no room, so that one move of the whole block pays for all
/// removals at its front.
fn make_way<T: Copy>(items: &mut Vec<T>, start: usize, count: usize, most: usize) -> usize
    requires begins { start ≤ vec_len items.old }
    requires few { vec_len items.old + count ≤ start + most }
    requires small { count ≤ most }
    ensures begins { result ≤ vec_len items.new }
    ensures same { drop result items.new.items ≡ drop start items.old.items }
    ensures len { vec_len items.new + start ≡ vec_len items.old + result }
    ensures room { vec_len items.new + count ≤ most }
    ensures capacity { vec_capacity items.new ≡ vec_capacity items.old }
{
    if items.len() <= most - count {
        return start;
    }
    move_down(items, start);
    0
}

/// Removes the first `count` items, and moves the others to the beginning.
#[tactic(auto, using(crate::proofs::Cuts::cut_first))]
fn move_down<T: Copy>(items: &mut Vec<T>, count: usize)
    requires { count ≤ vec_len items.old }
    ensures items { items.new.items ≡ drop count items.old.items }
    ensures len { vec_len items.new + count ≡ vec_len items.old }
    ensures capacity { vec_capacity items.new ≡ vec_capacity items.old }
{
    cut_out(items, 0, count);
}

/// Removes `count` items from `at` on, and moves those after them down.
fn cut_out<T: Copy>(items: &mut Vec<T>, at: usize, count: usize)
    requires { at + count ≤ vec_len items.old }
    ensures items { items.new.items ≡ cut items.old.items at count }
    ensures len { vec_len items.new + count ≡ vec_len items.old }
    ensures capacity { vec_capacity items.new ≡ vec_capacity items.old }
{
    let len = items.len();
    items.copy_within(at + count..len, at);
    items.truncate(len - count);
}

/// Inserts these items at `at`, within the capacity.
fn put_all<T: Copy>(items: &mut Vec<T>, at: usize, run: &[T])
    requires within { at ≤ vec_len items.old }
    requires room { vec_len items.old + length run.now ≤ vec_capacity items.old }
    ensures items { items.new.items ≡ spliced items.old.items at run.now }
    ensures len { vec_len items.new ≡ vec_len items.old + length run.now }
    ensures capacity { vec_capacity items.old ≤ vec_capacity items.new }
{
    if items.extend_from_slice(run).is_err() {
        unreachable!()
    }
    put_over(items.as_mut_slice(), at, run);
}

/// Puts these items in at `at`, and takes as many off the end of the row.
fn put_over<T: Copy>(row: &mut [T], at: usize, run: &[T])
    requires { at + length run.now ≤ length row.old }
    ensures { row.new ≡ take at row.old ++ (run.now
        ++ take (length row.old - at - length run.now) (drop at row.old)) }
{
    let (_front, back) = row.split_at_mut(at);
    put_before(back, run);
}

/// Puts these items in at the front, and takes as many off the end of the row.
fn put_before<T: Copy>(row: &mut [T], run: &[T])
    requires { length run.now ≤ length row.old }
    ensures { row.new ≡ run.now ++ take (length row.old - length run.now) row.old }
{
    let kept = row.len() - run.len();
    row.copy_within(0..kept, run.len());
    let (place, _moved) = row.split_at_mut(run.len());
    place.copy_from_slice(run);
}
