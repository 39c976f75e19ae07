//! The order of the faults of a message body. The law is about pairs of offset and number, since a
//! clause cannot range over a type of faults.

ghost use Rattle.pim_addr.specs.Order.{FirstOfPartsIsLeast};

/// A law about a body whose parts have ascending offsets, each with faults of ascending numbers.
/// The first fault has the least offset, and the least number at that offset. It has no effect.
pub fn first_of_parts_is_least()
    ensures { FirstOfPartsIsLeast }
{}
