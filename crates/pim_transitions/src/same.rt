//! Whether a machine is as it was.

ghost use Rattle.std.specs.Prelude.{◌≡◌};
ghost use Rattle.pim_transitions.specs.Affected.{same_held, same_machine, same_pending};
ghost use Rattle.pim_transitions.specs.Transitions.{is_joined, number_of};

use pim_down::{Machine, Pending, State};

/// The number of a state, to tell states apart.
fn number_of(state: State) -> u8
    ensures { result ≡ number_of state }
{
    match state {
        State::Join => 1,
        State::PrunePending => 2,
        State::Prune => 3,
        State::PruneTmp => 4,
        State::PrunePendingTmp => 5,
    }
}

/// Whether two Prune-Pending Timers have the same time left and the same mark.
fn same_pending(one: Pending, other: Pending) -> bool
    ensures { result ≡ same_pending one other }
{
    one.ends_in == other.ends_in && one.several == other.several
}

/// Whether two machines have the same state and the same timers.
fn same_held(one: Machine, other: Machine) -> bool
    ensures { result ≡ same_held one other }
{
    let pending = match (one.pending, other.pending) {
        (None, None) => true,
        (Some(one), Some(other)) => same_pending(one, other),
        _ => false,
    };
    number_of(one.state) == number_of(other.state)
        && (one.expires_in == other.expires_in && pending)
}

/// The same of machines that may be in NoInfo.
pub(crate) fn same_machine(one: Option<Machine>, other: Option<Machine>) -> bool
    ensures { result ≡ same_machine one other }
{
    match (one, other) {
        (None, None) => true,
        (Some(one), Some(other)) => same_held(one, other),
        _ => false,
    }
}

/// Whether a machine is in Join.
pub(crate) fn is_joined(machine: Option<Machine>) -> bool
    ensures { result ≡ is_joined machine }
{
    match machine {
        None => false,
        Some(machine) => number_of(machine.state) == 1,
    }
}
