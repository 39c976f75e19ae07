//! Laws of the definitions. These functions do nothing; their clauses are the laws.

ghost use Rattle.pim_trace.specs.Causing.{TraceNamesCauses, TurnsNameCauses, RunsNameCauses};
ghost use Rattle.pim_trace.specs.Folding.{EventsShowTheState, TurnsShowTheState, RunsLeadOn};
ghost use Rattle.pim_trace.specs.StateLaws.{TraceListsState, StateNamesCauses};

/// The events of a trace show the state of each machine: from that at the start, each event leads
/// on to the next, and the last one leads to that at the end.
pub fn events_show_the_state()
    ensures { EventsShowTheState }
{
    pim_down::laws::keys_are_distinct();
    pim_down::laws::firing_says_more();
    pim_down::laws::hearing_keeps_the_order();
    pim_down::laws::hearing_leaves_other_ports();
}

/// The events of some first turns of a trace show the state of each machine, too.
pub fn turns_show_the_state()
    ensures { TurnsShowTheState }
{
    pim_down::laws::keys_are_distinct();
    pim_down::laws::firing_says_more();
    pim_down::laws::hearing_keeps_the_order();
    pim_down::laws::hearing_leaves_other_ports();
}

/// So do those of some first turns and of the time after them, such as the events before a fault of
/// a capture.
pub fn runs_lead_on()
    ensures { RunsLeadOn }
{
    pim_down::laws::keys_are_distinct();
    pim_down::laws::firing_says_more();
    pim_down::laws::hearing_keeps_the_order();
    pim_down::laws::hearing_leaves_other_ports();
}

/// The cause of each timer that fires in a trace is the packet of the last event before it that
/// gave this timer another end, or began its machine. A message that ends a Prune-Pending overrides
/// the packet of the last event that set its timer. The events alone show both.
pub fn trace_names_causes()
    ensures { TraceNamesCauses }
{
    pim_down::laws::keys_are_distinct();
    pim_down::laws::firing_says_more();
    pim_down::laws::hearing_keeps_the_order();
    pim_down::laws::hearing_leaves_other_ports();
}

/// So it is in some first turns of a trace.
pub fn turns_name_causes()
    ensures { TurnsNameCauses }
{
    pim_down::laws::keys_are_distinct();
    pim_down::laws::firing_says_more();
    pim_down::laws::hearing_keeps_the_order();
    pim_down::laws::hearing_leaves_other_ports();
}

/// So it is in some first turns and the time after them.
pub fn runs_name_causes()
    ensures { RunsNameCauses }
{
    pim_down::laws::keys_are_distinct();
    pim_down::laws::firing_says_more();
    pim_down::laws::hearing_keeps_the_order();
    pim_down::laws::hearing_leaves_other_ports();
}

/// The events of a trace with the state list exactly the records that the router holds, in their
/// order, and what the normal form of its demand has. Without them it is a trace.
pub fn trace_lists_state()
    ensures { TraceListsState }
{}

/// Each machine that a trace with the state lists as held names the packet of the last event that
/// set its Expiry Timer, and how long ago the machine left NoInfo last. The events alone show both.
pub fn state_names_causes()
    ensures { StateNamesCauses }
{
    pim_down::laws::keys_are_distinct();
    pim_down::laws::firing_says_more();
    pim_down::laws::hearing_keeps_the_order();
    pim_down::laws::hearing_leaves_other_ports();
}
