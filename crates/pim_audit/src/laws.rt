//! Facts on the definitions, each a function that does nothing.

ghost use Rattle.pim_audit.specs.Entries.{DueEntriesAreInOrder};

/// What is due between two normal forms is in order.
pub fn due_entries_are_in_order()
    ensures { DueEntriesAreInOrder }
{
    pim_change::laws::addresses_are_in_order();
}
