//! Laws of the definitions. These functions do nothing; their clauses are the laws.

ghost use Rattle.pim_transitions.specs.Laws.{CandidatesShowTransitions};
ghost use Rattle.pim_transitions.specs.Laws.{TransitionsAreOneList, TransitionsAreThere};
ghost use Rattle.pim_transitions.specs.Laws.{TransitionsArePaths};

/// The candidates of a message that differ after it are the machines that it changed, each with the
/// kind of event that changed its state last.
pub fn candidates_show_transitions()
    ensures { CandidatesShowTransitions }
{
    pim_down::laws::keys_are_distinct();
    pim_down::laws::hearing_acts_at_each_key();
}

/// A message has one list of transitions.
pub fn transitions_are_one_list()
    ensures { TransitionsAreOneList }
{}

/// A message has a list of transitions, whatever records there are before it and after.
pub fn transitions_are_there()
    ensures { TransitionsAreThere }
{}

/// Each transition is a path of rows of the tables, by the events of the message in their order and
/// End of Message.
pub fn transitions_are_paths()
    ensures { TransitionsArePaths }
{
    pim_down::laws::hearing_acts_at_each_key();
}
