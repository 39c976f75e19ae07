//! Parts of a machine that may not be held.

ghost use Rattle.std.specs.Prelude.{◌≡◌};
ghost use Rattle.pim_events.specs.Parts.{pending_in, state_in};

use pim_down::{Machine, Pending, State};

/// The state of a machine, where `None` is NoInfo.
pub fn state_in(machine: Option<Machine>) -> Option<State>
    ensures { result ≡ state_in machine }
{
    match machine {
        Some(machine) => Some(machine.state),
        None => None,
    }
}

/// The Prune-Pending Timer of a machine, if it runs.
pub fn pending_in(machine: Option<Machine>) -> Option<Pending>
    ensures { result ≡ pending_in machine }
{
    match machine {
        Some(machine) => machine.pending,
        None => None,
    }
}
