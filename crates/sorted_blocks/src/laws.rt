//! Laws for callers. The functions have no effect.

ghost use Rattle.sorted_blocks.specs.Laws.{ItemHasAPlace, PlaceIsWithin};

/// A law: the place of an item is a place, and precedes the end of the list.
pub fn item_has_a_place<T>()
    ensures { ItemHasAPlace T }
{}

/// A law: no place is after the end of the list.
pub fn place_is_within<T>()
    ensures { PlaceIsWithin T }
{}
