//! Laws on two commands. The functions have no effect; their clauses are the laws.

ghost use Rattle.pim_commands.specs.Laws.{TraceEndsAsReplay, StateListsWhatReplayPrints};

/// A trace ends with the router whose state the report of a replay has.
pub fn trace_ends_as_replay()
    ensures { TraceEndsAsReplay }
{
    pim_merge::laws::merge_by_has_one_end();
    pim_router::laws::runs_past_are_turns();
    pim_router::laws::happening_goes_on();
    pim_router::laws::happening_has_one_end();
}

/// A trace with the state lists exactly the records and the demand that the report of a replay has.
pub fn state_lists_what_replay_prints()
    ensures { StateListsWhatReplayPrints }
{
    trace_ends_as_replay();
    pim_trace::laws::trace_lists_state();
}
