//! Laws of the definitions: runs and courses. These functions do nothing.

ghost use Rattle.pim_router.specs.Laws.{RunHasOneEnd, RunGoesOn, RunsComeNearer, CourseHasOneEnd};
ghost use Rattle.pim_router.specs.Laws.{CourseGoesOn};
ghost use Rattle.pim_router.specs.Laws.{EveryListHasACourse, PassingGoesOn, HappeningGoesOn};
ghost use Rattle.pim_router.specs.Laws.{HappeningHasOneEnd};
ghost use Rattle.pim_router.specs.Laws.{FiringPasses, NobodyGoesBeforeFirstTimeout};
ghost use Rattle.pim_router.specs.Laws.{TheEndedGoAtFirstTimeout};
ghost use Rattle.pim_router.specs.Laws.{RunsPastAreTurns, EveryStateGoesOn};
ghost use Rattle.pim_router.specs.Reading.{PacketIsTakenAsRead};

pub use crate::one_list::{one_list_is_demanded, one_list_is_the_change};
use pim_down::laws::timers_run_out;
use pim_hello::laws::time_is_over_from_next_end;

/// A port takes a packet as it takes what the packet's message reads as.
pub fn packet_is_taken_as_read()
    ensures { PacketIsTakenAsRead }
{}

/// A run up to a moment has at most one end.
pub fn run_has_one_end()
    ensures { RunHasOneEnd }
{}

/// A run that reaches a moment, and then a run up to a later one, are one run up to the later
/// moment.
pub fn run_goes_on()
    ensures { RunGoesOn }
{}

/// A run that stops at an echo or a refresh comes nearer to its moment: `turns_left` falls.
pub fn runs_come_nearer()
    ensures { RunsComeNearer }
{
    timers_run_out();
}

/// The reports and the final state of a course are determined by its inputs and its first state.
pub fn course_has_one_end()
    ensures { CourseHasOneEnd }
{}

/// A course over one list and then a course over another are one course over both lists joined.
pub fn course_goes_on()
    ensures { CourseGoesOn }
{}

/// From every state there is a course over every list of inputs.
pub fn every_list_has_a_course()
    ensures { EveryListHasACourse }
{
    timers_run_out();
}

/// Turns up to a moment, and then turns up to a later one, are turns up to the later one.
pub fn passing_goes_on()
    ensures { PassingGoesOn }
{}

/// Whatever happens up to a later moment after some turns happens after what happened in these.
pub fn happening_goes_on()
    ensures { HappeningGoesOn }
{}

/// What happens up to a moment, and the state then, are determined.
pub fn happening_has_one_end()
    ensures { HappeningHasOneEnd }
{}

/// From every state there is a list of what happens up to every moment.
pub fn every_state_goes_on()
    ensures { EveryStateGoesOn }
{
    timers_run_out();
}

/// A run past refreshes is a number of turns in which things happen.
pub fn runs_past_are_turns()
    ensures { RunsPastAreTurns }
{}

/// Up to the first timer that fires neighbours go, and then the timer fires.
pub fn firing_passes()
    ensures { FiringPasses }
{}

/// No neighbour goes before the first moment at which the time of one is over.
pub fn nobody_goes_before_first_timeout()
    ensures { NobodyGoesBeforeFirstTimeout }
{
    time_is_over_from_next_end();
}

/// Up to that moment exactly the neighbours go whose time is over then.
pub fn the_ended_go_at_first_timeout()
    ensures { TheEndedGoAtFirstTimeout }
{
    time_is_over_from_next_end();
}
