//! Hints where look-ups begin.

use sorted_blocks::Place;

/// Where a look-up among the records of some `Ports` begins. It is only a hint and never affects
/// what a look-up returns. The records may have changed since, and it may come from other `Ports`.
/// A look-up whose result is at its hint or right after it costs at most three comparisons;
/// otherwise it goes on with a binary search.
#[derive(Clone, Copy, Drop)]
pub struct Near {
    /// A place that was looked at.
    pub(crate) place: Place,
}

impl Near {
    /// No hint: the look-up is a binary search among all records.
    pub const UNKNOWN: Near = Near {
        place: Place::START,
    };
}
