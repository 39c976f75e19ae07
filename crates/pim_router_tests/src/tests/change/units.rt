//! The units of changes.

use super::old_form;
use crate::tests::state::{FIRST, GROUP, SECOND, State, refused, state4};
use pim_addr::V4;
use pim_change::{Action, ActionKind, Unit, changed, too_big};
use pim_form::NormalForm;
use std::alloc::{AllocError, Global};

/// Whether a unit tells this of a source of the group.
fn is_of(unit: Unit<'_, [u8; 4]>, kind: ActionKind, source: [u8; 4]) -> bool {
    match unit.action {
        Action::Of(other, of) => unit.group == GROUP && other == kind && of == source,
        _ => false,
    }
}

/// Whether the units of the change are of the exception that went, of the one that came, and of the
/// source that came.
fn are_units(
    alloc: Global,
    old: &NormalForm<V4>,
    new: &NormalForm<V4>,
) -> Result<bool, AllocError> {
    let units = changed(alloc, old, new)?;
    let are = units.len() == 3
        && is_of(units[0], ActionKind::JoinRpt, FIRST)
        && is_of(units[1], ActionKind::PruneRpt, SECOND)
        && is_of(units[2], ActionKind::JoinSource, FIRST);
    Ok(are)
}

/// The same, at once or with memory.
pub(super) fn are_units_at_last(
    alloc: Global,
    old: &NormalForm<V4>,
    new: &NormalForm<V4>,
) -> Result<bool, AllocError> {
    match are_units(alloc, old, new) {
        Ok(answer) => Ok(answer),
        Err(_) => refused(are_units(alloc, old, new) == Ok(true)),
    }
}

/// The group of a star of this form, but not of a router, that is too big for this budget.
fn big_beside(
    alloc: Global,
    state: &State,
    new: &NormalForm<V4>,
    budget: usize,
) -> Option<[u8; 4]> {
    match NormalForm::of(alloc, &state.ports) {
        Ok(nothing) => too_big(&nothing, new, budget),
        Err(_) => None,
    }
}

/// The same of a new router.
fn big_of_new(alloc: Global, new: &NormalForm<V4>, budget: usize) -> Option<[u8; 4]> {
    match state4(alloc, 1, 1400) {
        Some(state) => big_beside(alloc, &state, new, budget),
        None => None,
    }
}

/// Whether the star is too big where it is new and has no room. A message of it, with one
/// exception, has 42 bytes.
fn is_big_at_41(alloc: Global, form: &NormalForm<V4>) -> bool {
    big_of_new(alloc, form, 42).is_none()
        && big_of_new(alloc, form, 41) == Some(GROUP)
        && too_big(form, form, 41).is_none()
}

// No session has so small a budget.
#[test]
fn new_stars_alone_are_too_big(rt: HostRuntime) {
    match old_form(rt.alloc()) {
        Some(form) => assert!(rt; is_big_at_41(rt.alloc(), &form)),
        None => assert!(rt; false),
    }
}
