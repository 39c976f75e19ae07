//! The laws of the definitions: the first fault is the least, and a change of the table of
//! neighbours is one at one address. These functions do nothing.

ghost use Rattle.pim_hello.specs.Laws.{FirstFaultIsLeast, HearingChangesItsSenderAlone};
ghost use Rattle.pim_hello.specs.Laws.{TimePassesForAll};
ghost use Rattle.pim_hello.specs.Laws.{ExactlyTheEndedGo, ExpiringTwiceIsExpiringOnce};
ghost use Rattle.pim_hello.specs.Laws.{TablesThatAgreeAreOne};
ghost use Rattle.pim_hello.specs.Laws.{TimeIsOverFromNextEnd};

use pim_addr::first_of_parts_is_least;

/// Of all faults of a body, the first has the least offset, and the least number at that offset.
pub fn first_fault_is_least()
    ensures { FirstFaultIsLeast }
{
    first_of_parts_is_least();
}

/// After a Hello its sender has what the Hello said, or nothing after a goodbye. Each other address
/// has what it had.
pub fn hearing_changes_its_sender_alone()
    ensures { HearingChangesItsSenderAlone }
{}

/// When time passes, the time of each neighbour falls by as much, and nothing else of it changes.
pub fn time_passes_for_all()
    ensures { TimePassesForAll }
{}

/// Exactly the neighbours whose time has ended are removed.
pub fn exactly_the_ended_go()
    ensures { ExactlyTheEndedGo }
{}

/// Expiry at one moment and then at another is expiry at the later one.
pub fn expiring_twice_is_expiring_once()
    ensures { ExpiringTwiceIsExpiringOnce }
{}

/// Two tables of one moment, with ascending addresses, are equal if they agree at every address.
pub fn tables_that_agree_are_one()
    ensures { TablesThatAgreeAreOne }
{}

/// By a moment, some neighbour's time is over exactly if `next_end` comes no later.
pub fn time_is_over_from_next_end()
    ensures { TimeIsOverFromNextEnd }
{}
