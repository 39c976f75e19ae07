//! Places in a list. An edit can make a place wrong, so calls require that a place is one, and
//! `is_item` tests it; only `find_near` takes any place.

/// A place in a list in blocks: before an item, or at the end of a block. An edit may move places,
/// and returns where its own place is.
#[derive(Clone, Copy, Drop)]
pub struct Place {
    /// The number of the block.
    pub(crate) block: usize,
    /// The number of items of the block before the place.
    pub(crate) at: usize,
}

impl Place {
    /// The place before all items of a list.
    pub const START: Place = Place { block: 0, at: 0 };
}
