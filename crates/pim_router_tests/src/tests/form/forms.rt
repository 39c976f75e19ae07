//! The normal form of what the ports want.

use crate::tests::state::{
    FIRST, GROUP, JOIN_FIRST, JOIN_SECOND, RPT_FIRST, RPT_SECOND, SECOND, STAR, State, hear,
    refused, state4,
};
use pim_addr::V4;
use pim_down::Ports;
use pim_form::{NormalForm, Tree, wants};
use std::alloc::{AllocError, Global};
use std::test::Fail;

/// Three ports hear messages: whether all were taken.
fn hear_held(alloc: Global, state: &mut State) -> bool {
    hear(
        alloc,
        state,
        0,
        GROUP,
        &[STAR, JOIN_FIRST],
        &[RPT_FIRST, RPT_SECOND],
    ) && hear(alloc, state, 1, GROUP, &[STAR], &[RPT_SECOND])
        && hear(alloc, state, 2, GROUP, &[JOIN_SECOND], &[])
}

/// Whether the form holds nothing but the star of the group except the second source, and both
/// sources.
fn holds(form: &NormalForm<V4>) -> bool {
    let mut groups = form.groups();
    let Some(group) = groups.next() else {
        return false;
    };
    groups.next().is_none()
        && group.group() == GROUP
        && group.star()
        && group.exceptions() == [SECOND].as_slice()
        && group.sources() == [FIRST, SECOND].as_slice()
}

/// Whether the ports want this, and nothing else.
fn want(alloc: Global, ports: &Ports<V4>) -> Result<bool, AllocError> {
    let form = NormalForm::of(alloc, ports)?;
    Ok(holds(&form))
}

/// Whether both sources are wanted on the shared tree, and on their own.
fn wanted(ports: &Ports<V4>) -> [bool; 4] {
    [
        wants(ports, FIRST, GROUP, Tree::Shared),
        wants(ports, SECOND, GROUP, Tree::Shared),
        wants(ports, FIRST, GROUP, Tree::Source),
        wants(ports, SECOND, GROUP, Tree::Source),
    ]
}

/// Whether the ports want what they should: at once or, where memory is refused, when they hold
/// what they held and are asked again.
fn want_at_last(alloc: Global, ports: &Ports<V4>) -> Result<bool, AllocError> {
    if let Ok(answer) = want(alloc, ports) {
        return Ok(answer);
    }
    let held = [ports.count_on(0), ports.count_on(1), ports.count_on(2)] == [4, 2, 1];
    refused(held && want(alloc, ports) == Ok(true))
}

/// The same of the ports and of their machines.
fn both_want_at_last(alloc: Global, ports: &Ports<V4>) -> Result<bool, AllocError> {
    Ok(want_at_last(alloc, ports)? && wanted(ports) == [true, false, true, true])
}

/// The same of three ports that hear the messages first.
fn hear_and_want(alloc: Global, state: &mut State) -> Result<bool, AllocError> {
    if hear_held(alloc, state) && state.ports.port_count() == 3 {
        both_want_at_last(alloc, &state.ports)
    } else {
        Err(AllocError)
    }
}

/// The same of three new ports.
fn heard_want_at_last(alloc: Global) -> Result<bool, AllocError> {
    match state4(alloc, 3, 1480) {
        Some(mut state) => hear_and_want(alloc, &mut state),
        None => Err(AllocError),
    }
}

// With each allocation refused in turn (`tools/each_growth_refused.sh`): the ports hold what they
// held, and with memory their form is what it would have been.
#[test]
fn refusals_leave_the_ports(rt: HostRuntime) -> Result<(), Fail> {
    assert!(rt; heard_want_at_last(rt.alloc())?);
    Ok(())
}
