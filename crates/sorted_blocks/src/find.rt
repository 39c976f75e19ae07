//! Lookup of an item by the comparison of the caller. No search requires an order of the items.
//!
//! No branch of a search by halves depends on an item, so that branch prediction cannot fail. A
//! lookup near a place compares the items beside it, and else searches by halves in the whole list.

ghost use Rattle.std.specs.Prelude.{◌≡◌, ◌≢◌, ◌+◌, ◌-◌, ◌<◌, ◌≤◌, length, slice_index_or};
ghost use Rattle.std.specs.List.{All};
ghost use Rattle.sorted_blocks.specs.Shape.{items};
ghost use Rattle.sorted_blocks.specs.Places.{before, IsItem};
ghost use Rattle.sorted_blocks.specs.Found.{IsFound};
ghost use Rattle.sorted_blocks.specs.Sought.{IsSought, IsBlockSought, IsBlockGap, IsRowLeft};
ghost use Rattle.sorted_blocks.specs.Sought.{IsLessAt};

use crate::place::Place;
use crate::probe::Probe;
use crate::store::BlockStore;
use std::cmp::Ordering;

/// Returns 1 where the item at this place of a row is less than what is sought, else 0.
fn one_if_less<T: Copy, P: Probe<T>>(probe: &P, row: &[T], at: usize) -> usize
    requires can { All (P.can_compare probe.now) row.now }
    requires at { at < length row.now }
    ensures most { result ≤ 1 }
    ensures less { result ≡ 1 → IsLessAt (P.order probe.now) row.now at }
    ensures not_less { (d : T) → result ≡ 0
        → P.order probe.now (slice_index_or row.now at d) ≢ Ordering.Less }
{
    usize::from(probe.compare(&row[at]).is_lt())
}

/// Returns the place in a row of an item that compares equal, or a gap, by halves from `low` up to
/// `high`. The item before `low` is less and the one at `high` is greater, where they are there.
fn seek<T: Copy, P: Probe<T>>(probe: &P, row: &[T], low: usize, high: usize) -> Result<usize, usize>
    requires can { All (P.can_compare probe.now) row.now }
    requires low { low ≤ high }
    requires high { high ≤ length row.now }
    requires less { (d : T) → 0 < low → P.order probe.now (slice_index_or row.now (low - 1) d)
        ≡ Ordering.Less }
    requires greater { (d : T) → high < length row.now
        → P.order probe.now (slice_index_or row.now high d) ≡ Ordering.Greater }
    ensures { IsSought (P.order probe.now) row.now low result }
{
    let mut low = low;
    let mut left = high - low;
    while left > 0 {
        let half = left / 2;
        let is_less = one_if_less(probe, row, low + half);
        low += (half + 1) * is_less;
        left = half - (1 - left % 2) * is_less;
    }
    if low == row.len() {
        return Err(low);
    }
    match probe.compare(&row[low]) {
        Ordering::Less => unreachable!(),
        Ordering::Equal => Ok(low),
        Ordering::Greater => Err(low),
    }
}

impl<T: Copy, const HALF: usize> BlockStore<T, HALF> {
    /// Returns the place of an item that compares equal, or else a gap. The item before a gap is
    /// less than what is sought, and the item at it is greater. In a list in the order of the
    /// probe, the gap is where the item belongs. It then costs about as many comparisons as the
    /// number of items has bits.
    pub(crate) fn find<P: Probe<T>>(&self, probe: &P) -> Result<Place, Place>
        requires { All (P.can_compare probe.now) (items self.now) }
        ensures { IsFound (P.order probe.now) self.now result }
    {
        match self.seek_block(probe) {
            Ok(block) => Ok(Place { block, at: 0 }),
            Err(count) => self.find_after(probe, count),
        }
    }

    /// Returns the same, for any place `near`, at which the search begins. It costs a few
    /// comparisons where the item is at that place, right after it, or in the gap right before it.
    pub(crate) fn find_near<P: Probe<T>>(&self, near: Place, probe: &P) -> Result<Place, Place>
        requires { All (P.can_compare probe.now) (items self.now) }
        ensures { IsFound (P.order probe.now) self.now result }
    {
        if !self.is_item(near) {
            return self.find_before(near, probe);
        }
        match probe.compare(self.get(near)) {
            Ordering::Less => self.find_behind(near, probe),
            Ordering::Equal => Ok(near),
            Ordering::Greater => self.find_before(near, probe),
        }
    }

    /// Returns the same, beginning at the item before this place: what is sought after a gap is
    /// mostly in the same gap.
    fn find_before<P: Probe<T>>(&self, near: Place, probe: &P) -> Result<Place, Place>
        requires { All (P.can_compare probe.now) (items self.now) }
        ensures { IsFound (P.order probe.now) self.now result }
    {
        if near.at == 0 {
            return self.find(probe);
        }
        let place = Place {
            block: near.block,
            at: near.at - 1,
        };
        if !self.is_item(place) {
            return self.find(probe);
        }
        match probe.compare(self.get(place)) {
            Ordering::Less => self.find_behind(place, probe),
            Ordering::Equal => Ok(place),
            Ordering::Greater => self.find(probe),
        }
    }

    /// Returns the block whose first item compares equal, or the number of blocks that begin with a
    /// lesser item.
    fn seek_block<P: Probe<T>>(&self, probe: &P) -> Result<usize, usize>
        requires { All (P.can_compare probe.now) (items self.now) }
        ensures { IsBlockSought (P.order probe.now) self.now.blocks result }
    {
        let firsts = self.firsts();
        seek(probe, firsts, 0, firsts.len())
    }

    /// Returns the result where `count` blocks begin with a lesser item.
    fn find_after<P: Probe<T>>(&self, probe: &P, count: usize) -> Result<Place, Place>
        requires can { All (P.can_compare probe.now) (items self.now) }
        requires gap { IsBlockGap (P.order probe.now) self.now.blocks count count }
        ensures { IsFound (P.order probe.now) self.now result }
    {
        if count == 0 {
            return Err(Place::START);
        }
        self.find_in(probe, count - 1, 1)
    }

    /// Returns the result where it is in this block, at `low` or after it, or after its items.
    fn find_in<P: Probe<T>>(&self, probe: &P, block: usize, low: usize) -> Result<Place, Place>
        requires can { All (P.can_compare probe.now) (items self.now) }
        requires row { IsRowLeft (P.order probe.now) self.now.blocks block low }
        ensures { IsFound (P.order probe.now) self.now result }
    {
        let row = self.row(block);
        match seek(probe, row, low, row.len()) {
            Ok(at) => Ok(Place { block, at }),
            Err(at) => Err(Place { block, at }),
        }
    }

    /// Returns the result after an item that is less than what is sought. It is mostly the next
    /// item, or the gap before that.
    fn find_behind<P: Probe<T>>(&self, near: Place, probe: &P) -> Result<Place, Place>
        requires can { All (P.can_compare probe.now) (items self.now) }
        requires item { IsItem self.now near }
        requires less { IsLessAt (P.order probe.now) (items self.now) (before self.now near) }
        ensures { IsFound (P.order probe.now) self.now result }
    {
        let behind = self.behind(near);
        let next = self.settled(behind);
        if !self.is_item(next) {
            return Err(behind);
        }
        match probe.compare(self.get(next)) {
            Ordering::Less => self.find(probe),
            Ordering::Equal => Ok(next),
            Ordering::Greater => Err(behind),
        }
    }
}
