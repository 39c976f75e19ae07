//! Bounds in key order, which are searched among records.

ghost use Rattle.std.specs.Prelude.{◌≡◌, Bool};

use crate::machines::held::Held;
use crate::machines::key::Key;
use sorted_blocks::Probe;
use std::cmp::Ordering;

/// A bound in key order: which keys come before it.
pub(crate) trait Bound<A> {
    ghost use Rattle.pim_down.specs.declared.machines.key.Key.{Key};

    /// Whether this key comes before the bound.
    ghost is_before: { Self → Key A → Bool };

    /// Whether this key comes before the bound.
    fn is_before(&self, key: &Key<A>) -> bool
        ensures { result ≡ is_before self.now key.now };
}

/// A bound that is searched among records.
#[derive(Drop)]
pub(crate) struct Side<'a, B> {
    pub(crate) bound: &'a B,
}

impl<'a, A, B: Bound<A>> Probe<Held<A>> for Side<'a, B> {
    ghost use Rattle.pim_down.specs.Store.{side};

    ghost can_compare = { λ _ _. Unit {0} };

    ghost order = { λ s held. side (B.is_before s.bound.now held.key) };

    fn compare(&self, held: &Held<A>) -> Ordering {
        if self.bound.is_before(&held.key) {
            Ordering::Less
        } else {
            Ordering::Greater
        }
    }
}
