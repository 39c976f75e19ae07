//! Changes of what is asked of the group 239.1.1.1 while growths are refused. What changes are
//! told, and how, is in the scenarios of `pimtree_cases`.

mod reported;
mod units;

use super::state::{GROUP, JOIN_FIRST, RPT_FIRST, RPT_SECOND, STAR, State, hear, state4};
use pim_addr::V4;
use pim_form::NormalForm;
use pim_jp::Entry;
use std::alloc::{AllocError, Global};
use std::test::Fail;

/// The form of a port that hears this of the group; `None` where memory is wanting.
fn form_after(
    alloc: Global,
    state: &mut State,
    joined: &[Entry<[u8; 4]>],
    pruned: &[Entry<[u8; 4]>],
) -> Option<NormalForm<V4>> {
    if hear(alloc, state, 0, GROUP, joined, pruned) {
        NormalForm::of(alloc, &state.ports).ok()
    } else {
        None
    }
}

/// The same of a new port.
fn form(
    alloc: Global,
    joined: &[Entry<[u8; 4]>],
    pruned: &[Entry<[u8; 4]>],
) -> Option<NormalForm<V4>> {
    match state4(alloc, 1, 1400) {
        Some(mut state) => form_after(alloc, &mut state, joined, pruned),
        None => None,
    }
}

/// The star except the first source.
pub(super) fn old_form(alloc: Global) -> Option<NormalForm<V4>> {
    form(alloc, &[STAR], &[RPT_FIRST])
}

/// The star except the second source, and the first source.
pub(super) fn new_form(alloc: Global) -> Option<NormalForm<V4>> {
    form(alloc, &[STAR, JOIN_FIRST], &[RPT_SECOND])
}

/// Whether the units of a change, and its message, are as they should be.
fn are_as_wanted(
    alloc: Global,
    old: &NormalForm<V4>,
    new: &NormalForm<V4>,
) -> Result<bool, AllocError> {
    Ok(units::are_units_at_last(alloc, old, new)? && reported::is_told_at_last(alloc, old, new)?)
}

/// The same of the change to the new form.
fn refusals_leave(alloc: Global, old: &NormalForm<V4>) -> Result<bool, AllocError> {
    match new_form(alloc) {
        Some(new) => are_as_wanted(alloc, old, &new),
        None => Err(AllocError),
    }
}

/// The same of the change from the old form.
fn refusals_leave_new(alloc: Global) -> Result<bool, AllocError> {
    match old_form(alloc) {
        Some(old) => refusals_leave(alloc, &old),
        None => Err(AllocError),
    }
}

// With each allocation refused in turn (`tools/each_growth_refused.sh`): the same call, with
// memory, gives the change, and tells it.
#[test]
fn refusals_leave_the_change(rt: HostRuntime) -> Result<(), Fail> {
    assert!(rt; refusals_leave_new(rt.alloc())?);
    Ok(())
}
