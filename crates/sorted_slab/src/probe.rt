//! Comparison with the item that has a number.

use slab::Slab;
use sorted_blocks::Probe;
use std::cmp::Ordering;

/// A probe for items of a slab, as a probe for their numbers.
#[derive(Drop)]
pub(crate) struct ByNumber<'a, T: Copy, P: Probe<T>> {
    pub(crate) slab: &'a Slab<T>,
    pub(crate) probe: &'a P,
}

impl<'a, T: Copy, P: Probe<T>> Probe<usize> for ByNumber<'a, T, P> {
    ghost use Rattle.std.specs.Prelude.{IsSomeAnd};
    ghost use Rattle.slab.specs.Slab.{get};
    ghost use Rattle.sorted_slab.specs.Listed.{order_of};

    ghost can_compare = { λ s number. IsSomeAnd (get s.slab.now number) (P.can_compare s.probe.now) };

    ghost order = { λ s number. order_of (P.order s.probe.now) (get s.slab.now number) };

    fn compare(&self, number: &usize) -> Ordering {
        match self.slab.get(*number) {
            Some(item) => self.probe.compare(item),
            None => Ordering::Less,
        }
    }
}
