//! How many units of a change fit one message.
//!
//! A unit is weighed as a unit of a form, so that the definitions of pim_form for packing serve
//! changes, too.

ghost use Rattle.std.specs.Prelude.{◌≡◌, ◌≤◌, ◌<◌, ◌+◌, true, not, None, List, length, take};
ghost use Rattle.std.specs.Prelude.{drop};
ghost use Rattle.pim_form.specs.Units.{WantUnit};
ghost use Rattle.pim_form.specs.Units.{unit_entries};
ghost use Rattle.pim_form.specs.Units.{run_groups, run_entries, is_of_group};
ghost use Rattle.pim_form.specs.Packing.{fits, StopsBefore};
ghost use Rattle.pim_change.specs.Seen.{action_seen, unit_seen, units_seen};
ghost use Rattle.pim_change.specs.TooBig.{action_fits, too_big};
ghost use Rattle.pim_change.specs.Written.{weight, weights};
ghost use Rattle.pim_change.specs.Runs.{last_group};

use crate::unit::{Action, Unit};
use pim_addr::Family;
use pim_form::{MOST_GROUPS, message_size};

/// Whether a run with this number of groups and entries fits a message of this budget.
fn has_room<F: Family>(groups: usize, entries: usize, budget: usize) -> bool
    requires { entries ≤ 200000 }
    ensures { (run : List WantUnit) → run_groups run ≡ groups → run_entries run ≡ entries →
        fits F.family budget run ≡ result }
{
    if MOST_GROUPS < groups {
        return false;
    }
    message_size::<F>(groups, entries) <= budget
}

/// The number of entries of a unit that fits a message of this budget alone.
fn entry_count<F: Family>(unit: &Unit<'_, F::Addr>, budget: usize) -> usize
    requires most { budget ≤ 65000 }
    requires fits { action_fits F.family budget (F.bytes_of unit.now.group)
        (action_seen F.bytes_of unit.now.action)
        ≡ true }
    ensures count { result ≡ unit_entries (weight (unit_seen F.bytes_of unit.now)) }
    ensures small { result ≤ 65000 }
{
    match &unit.action {
        Action::JoinStar(exceptions) => exceptions.len() + 1,
        Action::PruneStar => 1,
        Action::Of(_, _) => 1,
    }
}

/// Whether a unit of this group begins a group set, after the units before this index.
fn begins_set<F: Family>(units: &[Unit<'_, F::Addr>], index: usize, group: F::Addr) -> bool
    requires { index < length units.now }
    ensures { result
        ≡ not
        (is_of_group (last_group None (weights (units_seen F.bytes_of (take index units.now))))
        (F.bytes_of group)) }
{
    if index == 0 {
        return true;
    }
    units[index - 1].group != group
}

/// The number of units, from the first on, that the next message holds: as many as fit the budget
/// and 255 groups.
pub(crate) fn run_length<F: Family>(units: &[Unit<'_, F::Addr>], budget: usize) -> usize
    requires some { 0 < length units.now }
    requires least { 70 ≤ budget }
    requires most { budget ≤ 65000 }
    requires alone { too_big F.family budget (units_seen F.bytes_of units.now) ≡ None }
    ensures within { result ≤ length units.now }
    ensures some { 0 < result }
    ensures fits { fits F.family budget (weights (units_seen F.bytes_of (take result units.now)))
        ≡ true }
    ensures stops { StopsBefore F.family budget
        (weights (units_seen F.bytes_of (take result units.now)))
        (weights (units_seen F.bytes_of (drop result units.now))) }
{
    let mut groups = 0;
    let mut entries = 0;
    for (index, unit) in units.iter().enumerate() {
        let more_groups = groups + usize::from(begins_set::<F>(units, index, unit.group));
        let more_entries = entries + entry_count::<F>(unit, budget);
        if !has_room::<F>(more_groups, more_entries, budget) {
            return index;
        }
        groups = more_groups;
        entries = more_entries;
    }
    units.len()
}
