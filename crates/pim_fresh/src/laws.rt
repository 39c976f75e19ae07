//! The laws of this crate. Nothing in this module is to be called.

ghost use Rattle.pim_fresh.specs.Laws.{FreshHearing, NoEchoIsDue, EveryHearingReaches};
ghost use Rattle.pim_fresh.specs.Laws.{StaysAsWanted};
ghost use Rattle.pim_fresh.specs.Laws.{HoldsTheUnits, NeedsTheUnits, DemandingHasUnits};
ghost use Rattle.pim_fresh.specs.Laws.{HearingHasOneEnd};
ghost use Rattle.pim_fresh.specs.Laws.{SpanIsOfItsMessage};

/// After timely deliveries and a run to a moment, exactly the units of the messages that came have
/// machines. (\*,G) and (S,G) are in Join. (S,G,rpt) is in Prune-Pending, with what is left of the
/// override interval since its message came first, while the port has other neighbours and the
/// interval isn't over; else in Prune. The Expiry Timer has the holdtime less the time since the
/// message came last, and never ends for 65,535.
pub fn fresh_hearing()
    ensures { FreshHearing }
{
    pim_down::laws::keys_are_distinct();
    pim_down::laws::hearing_keeps_the_order();
    pim_down::laws::hearing_acts_at_each_key();
    pim_down::laws::run_keeps_the_order();
    pim_down::laws::run_keeps_its_bounds();
    pim_down::laws::silence_acts_at_each_key();
}

/// No run after a timely delivery stops at an echo, so each reaches its moment.
pub fn no_echo_is_due()
    ensures { NoEchoIsDue }
{
    pim_down::laws::keys_are_distinct();
    pim_down::laws::hearing_keeps_the_order();
    pim_down::laws::hearing_acts_at_each_key();
    pim_down::laws::run_keeps_the_order();
    pim_down::laws::run_keeps_its_bounds();
    pim_down::laws::silence_acts_at_each_key();
    pim_down::laws::echo_names_a_machine();
}

/// Timely deliveries leave machines: every run between them reaches its moment.
pub fn every_hearing_reaches()
    ensures { EveryHearingReaches }
{
    pim_down::laws::keys_are_distinct();
    pim_down::laws::hearing_keeps_the_order();
    pim_down::laws::hearing_acts_at_each_key();
    pim_down::laws::run_keeps_the_order();
    pim_down::laws::run_keeps_its_bounds();
    pim_down::laws::silence_acts_at_each_key();
    pim_down::laws::echo_names_a_machine();
    pim_down::laws::every_state_has_a_run();
}

/// The first and the last delivery that name a machine are those of the message that names it.
pub fn span_is_of_its_message()
    ensures { SpanIsOfItsMessage }
{}

/// Deliveries leave at most one state.
pub fn hearing_has_one_end()
    ensures { HearingHasOneEnd }
{
    pim_down::laws::run_has_one_end();
}

/// From the final moment on, while no message is missed for its holdtime, a run stops at no echo.
/// Each machine is the old one after the time that passed: stars and sources in Join, exceptions in
/// Prune.
pub fn stays_as_wanted()
    ensures { StaysAsWanted }
{
    pim_down::laws::keys_are_distinct();
    pim_down::laws::hearing_keeps_the_order();
    pim_down::laws::hearing_acts_at_each_key();
    pim_down::laws::run_keeps_the_order();
    pim_down::laws::run_keeps_its_bounds();
    pim_down::laws::silence_acts_at_each_key();
    pim_down::laws::echo_names_a_machine();
    pim_down::laws::run_goes_on();
}

/// The number of machines is the number of units of the different messages that came.
pub fn holds_the_units()
    ensures { HoldsTheUnits }
{
    pim_down::laws::keys_are_distinct();
    pim_down::laws::hearing_keeps_the_order();
    pim_down::laws::hearing_acts_at_each_key();
    pim_down::laws::run_keeps_the_order();
    pim_down::laws::run_keeps_its_bounds();
    pim_down::laws::silence_acts_at_each_key();
}

/// A delivery needs room for the units of the different messages up to and with it.
pub fn needs_the_units()
    ensures { NeedsTheUnits }
{
    pim_down::laws::keys_are_distinct();
    pim_down::laws::hearing_keeps_the_order();
    pim_down::laws::hearing_acts_at_each_key();
    pim_down::laws::run_keeps_the_order();
    pim_down::laws::run_keeps_its_bounds();
    pim_down::laws::silence_acts_at_each_key();
}

/// The events of a message create different machines, each exception after its star, if its sets
/// are of different groups and ask for traffic. Each set joins a star, by the RP that is known of
/// the group, and sources, and prunes exceptions of the star, none of them twice. Canonical
/// messages have sets of this kind.
pub fn demanding_has_units()
    ensures { DemandingHasUnits }
{
    pim_down::laws::keys_are_distinct();
}
