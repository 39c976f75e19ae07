//! The laws of this crate. Nothing in this module is to be called.

ghost use Rattle.pim_choice_laws.specs.Choices.{ChoicesAreFilters, BothEndInAFault};

/// A merge of chosen records alone takes those that a merge of all records takes, at the same
/// moments.
pub fn choices_are_filters()
    ensures { ChoicesAreFilters }
{}

/// The same where a merge of all records ends in a fault. The other merge ends in a fault, too,
/// perhaps in that of another capture.
pub fn both_end_in_a_fault()
    ensures { BothEndInAFault }
{}
