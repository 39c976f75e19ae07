//! Laws of the definitions: what runs mean together, and what a message means for one machine.
//! These functions do nothing; their clauses are the laws.

ghost use Rattle.pim_down.specs.Laws.{ChangeActsAtItsKey, AMapHasOneList, KeysAreDistinct};
ghost use Rattle.pim_down.specs.Laws.{EventActsAtEachKey, EndActsAtEachKey, EventKeepsTheOrder};
ghost use Rattle.pim_down.specs.Laws.{HearingKeepsTheOrder, HearingKeepsSound};
ghost use Rattle.pim_down.specs.Laws.{HearingLeavesOtherPorts, HearingActsAtEachKey, RunGoesOn};
ghost use Rattle.pim_down.specs.Laws.{RunHasOneEnd, RunKeepsSound, RunKeepsItsBounds};
ghost use Rattle.pim_down.specs.Laws.{SilenceActsAtEachKey, EveryStateHasARun, EchoNamesAMachine};
ghost use Rattle.pim_down.specs.Laws.{RunKeepsTheOrder, TimersRunOut, FiringSaysMore};
ghost use Rattle.pim_down.specs.Laws.{RunIsAChainOfFirings, FiringHasOneEnd};

/// A change of one machine leaves all others unchanged.
pub fn change_acts_at_its_key()
    ensures { ChangeActsAtItsKey }
{}

/// A map from keys to machines has at most one list in key order.
#[tactic(auto, using(crate::proofs::OneList::one_list))]
pub fn a_map_has_one_list()
    ensures { AMapHasOneList }
{}

/// A run that reaches a moment, followed by a run to a later one, is a run to the later one.
#[tactic(auto, using(crate::proofs::Time::runs_then))]
pub fn run_goes_on()
    ensures { RunGoesOn }
{}

/// All runs from a state up to a moment end alike.
pub fn run_has_one_end()
    ensures { RunHasOneEnd }
{}

/// An event does to the machine at each key what the tables say.
#[tactic(auto, using(crate::proofs::Act::at_act))]
pub fn event_acts_at_each_key()
    ensures { EventActsAtEachKey }
{}

/// End of Message does to the machine at each key what the table says.
#[tactic(auto, using(crate::proofs::Act::at_hearing_end))]
pub fn end_acts_at_each_key()
    ensures { EndActsAtEachKey }
{}

/// Hearing a message keeps the records in key order.
pub fn hearing_keeps_the_order()
    ensures { HearingKeepsTheOrder }
{}

/// Hearing a message on one port leaves the machines of the other ports unchanged.
#[tactic(auto, using(crate::proofs::Heard::hearing_elsewhere))]
pub fn hearing_leaves_other_ports()
    ensures { HearingLeavesOtherPorts }
{}

/// An event keeps the records in key order.
pub fn event_keeps_the_order()
    ensures { EventKeepsTheOrder }
{}

/// A message does to the machine at each key what its events do, one after the other, and then End
/// of Message.
#[tactic(auto, using(crate::proofs::Act::at_hearing))]
pub fn hearing_acts_at_each_key()
    ensures { HearingActsAtEachKey }
{}

/// A run keeps the ports and the limit. It ends between its start and the later of start and
/// moment.
pub fn run_keeps_its_bounds()
    ensures { RunKeepsItsBounds }
{}

/// A run keeps the records in key order.
pub fn run_keeps_the_order()
    ensures { RunKeepsTheOrder }
{}

/// A run that reaches a moment leaves at each key what the silence until then makes of the machine.
pub fn silence_acts_at_each_key()
    ensures { SilenceActsAtEachKey }
{}

/// Every state has a run up to every moment.
#[tactic(auto, using(crate::proofs::Runs::every_run))]
pub fn every_state_has_a_run()
    ensures { EveryStateHasARun }
{}

/// Each timer that fires lowers the weight of the records, and time that passes keeps it.
pub fn timers_run_out()
    ensures { TimersRunOut }
{}

/// A PruneEcho names a machine that was held, and whose Prune-Pending Timer ends at that moment.
pub fn echo_names_a_machine()
    ensures { EchoNamesAMachine }
{}

/// Two keys compare as equal exactly if they are the same key.
#[tactic(auto, using(crate::proofs::Order::distinct_keys))]
pub fn keys_are_distinct()
    ensures { KeysAreDistinct }
{}

/// A run keeps the machines sound.
pub fn run_keeps_sound()
    ensures { RunKeepsSound }
{}

/// A message that is heard, and for which there is room, keeps the machines sound.
pub fn hearing_keeps_sound()
    ensures { HearingKeepsSound }
{}

/// What a run reports of a timer that fires is what its firing says of a PruneEcho.
#[tactic(auto, using(crate::proofs::FirstDue::fired_by_firing))]
pub fn firing_says_more()
    ensures { FiringSaysMore }
{}

/// A run is a chain of runs that stop at each timer that fires, up to the first PruneEcho.
pub fn run_is_a_chain_of_firings()
    ensures { RunIsAChainOfFirings }
{}

/// All runs from a state up to a moment that stop at the first timer end alike.
#[tactic(auto, using(crate::proofs::Stops::fires_once))]
pub fn firing_has_one_end()
    ensures { FiringHasOneEnd }
{}
