//! Comparisons that callers supply for lookups.

ghost use Rattle.std.specs.Prelude.{◌≡◌};
ghost use Rattle.std.specs.declared.cmp.Ordering.{Ordering};

use std::cmp::Ordering;

/// What is sought in a list, as a comparison with an item.
pub trait Probe<T> {
    /// The items that it can be compared with.
    ghost can_compare: { Self → T → Type 0 };

    /// The result of the comparison with an item.
    ghost order: { Self → T → Ordering };

    /// The result of the comparison with an item.
    fn compare(&self, item: &T) -> Ordering
        requires { can_compare self.now item.now }
        ensures { result ≡ order self.now item.now };
}
