//! Laws of the Hellos of a fresh router's neighbours. These functions do nothing.

ghost use Rattle.pim_mirror.specs.HelloLaws.{WrittenHellosAreRead, HellosAreHeard};
ghost use Rattle.pim_mirror.specs.HelloLaws.{NeighboursHaveHellos};

/// Hellos that are written canonically and sealed for ALL-PIM-ROUTERS are opened and read without a
/// fault, as their senders' parameters (RFC 7761, 4.9 and 4.9.2).
pub fn written_hellos_are_read()
    ensures { WrittenHellosAreRead }
{
    pim_frame::sealed_opens();
    pim_hello::reads_back();
}

/// A new router of one port receives the Hellos of its sender and of its other neighbours at the
/// moment 0. Where the conditions of `Fits` hold, it then holds no records and knows the sender.
/// Its override interval is that of its own delays and theirs. No neighbour's time is over at any
/// moment up to which the others stay.
pub fn hellos_are_heard()
    ensures { HellosAreHeard }
{}

/// Neighbours have Hellos, written canonically and sealed for ALL-PIM-ROUTERS, exactly if the
/// numbers of each fit into the bits of their options (RFC 7761, 4.9.2).
pub fn neighbours_have_hellos()
    ensures { NeighboursHaveHellos }
{
    pim_frame::some_message_is_sealed();
}
