//! When a port is settled at a form.

use crate::tests::state::{
    ALONE, GROUP, JOIN_FIRST, RPT_FIRST, RPT_SECOND, SEVERAL, STAR, State, hear_on, state4,
};
use pim_addr::V4;
use pim_down::{Step, Timing, What};
use pim_form::{NormalForm, settled};
use std::alloc::Global;

/// What is told to a port.
#[derive(Clone, Copy)]
enum Told {
    /// Nothing.
    Nil,
    Star,
    /// The star but the first source.
    But,
    /// The first source.
    First,
    /// A prune of the second source on the shared tree.
    Lone,
    /// A prune of the star.
    Gone,
    /// The star, on the other port.
    Other,
}

/// Hears what is told: whether it was taken.
fn hear_told(alloc: Global, state: &mut State, reported: Told, timing: Timing) -> bool {
    let (port, joined, pruned): (usize, &[_], &[_]) = match reported {
        Told::Nil => return true,
        Told::Star => (0, &[STAR], &[]),
        Told::But => (0, &[STAR], &[RPT_FIRST]),
        Told::First => (0, &[JOIN_FIRST], &[]),
        Told::Lone => (0, &[], &[RPT_SECOND]),
        Told::Gone => (0, &[], &[STAR]),
        Told::Other => (1, &[STAR], &[]),
    };
    hear_on(alloc, state, (port, timing), GROUP, joined, pruned)
}

/// What is told at 0, one after the other, to a router of two ports; with how many neighbours;
/// until which moment it runs; what another router was told, whose form is asked about; and whether
/// the first port is settled at it then.
type Case = ([Told; 2], Timing, u64, Told, bool);

const CASES: [Case; 20] = [
    ([Told::Nil, Told::Nil], ALONE, 0, Told::Nil, true),
    ([Told::Star, Told::Nil], ALONE, 0, Told::Star, true),
    ([Told::Star, Told::Nil], ALONE, 0, Told::Nil, false),
    ([Told::Nil, Told::Nil], ALONE, 0, Told::Star, false),
    ([Told::First, Told::Nil], ALONE, 0, Told::First, true),
    ([Told::First, Told::Nil], ALONE, 0, Told::Nil, false),
    // another port doesn't count
    ([Told::Other, Told::Nil], ALONE, 0, Told::Star, false),
    ([Told::Other, Told::Nil], ALONE, 0, Told::Nil, true),
    // each star with exactly its exceptions
    ([Told::But, Told::Nil], ALONE, 0, Told::But, true),
    ([Told::But, Told::Nil], ALONE, 0, Told::Star, false),
    ([Told::Star, Told::Nil], ALONE, 0, Told::But, false),
    ([Told::Star, Told::Lone], ALONE, 0, Told::Star, false),
    // an (S,G,rpt) under no star may be there or not
    ([Told::Nil, Told::Lone], ALONE, 0, Told::Nil, true),
    ([Told::First, Told::Lone], ALONE, 0, Told::First, true),
    // in Prune-Pending a machine is settled at nothing
    ([Told::Nil, Told::Lone], SEVERAL, 2999, Told::Nil, false),
    ([Told::But, Told::Nil], SEVERAL, 2999, Told::But, false),
    ([Told::But, Told::Nil], SEVERAL, 2999, Told::Star, false),
    ([Told::But, Told::Nil], SEVERAL, 3000, Told::But, true),
    ([Told::Star, Told::Gone], SEVERAL, 2999, Told::Star, false),
    ([Told::Star, Told::Gone], SEVERAL, 2999, Told::Nil, false),
];

/// Hears what is told, and lets time pass until a moment: whether it was taken.
fn hear_until(
    alloc: Global,
    state: &mut State,
    (reported, timing): (Told, Timing),
    until: u64,
) -> bool {
    hear_told(alloc, state, reported, timing)
        && until <= 4000
        && state.ports.run_to(until) == Step::Reached
}

/// The form of a router that is told this.
fn form_after(alloc: Global, state: &mut State, reported: Told) -> Option<NormalForm<V4>> {
    if hear_until(alloc, state, (reported, ALONE), 0) {
        NormalForm::of(alloc, &state.ports).ok()
    } else {
        None
    }
}

/// The same of a new router.
fn form_of(alloc: Global, reported: Told) -> Option<NormalForm<V4>> {
    match state4(alloc, 1, 1480) {
        Some(mut state) => form_after(alloc, &mut state, reported),
        None => None,
    }
}

/// Whether the first port is settled at the form of a router that was told this; `None` where
/// memory is wanting.
fn is_settled(alloc: Global, state: &State, asked: Told) -> Option<bool> {
    match form_of(alloc, asked) {
        Some(form) => Some(settled(&state.ports, 0, &form)),
        None => None,
    }
}

/// Whether a case is so on two new ports.
fn is_so_of(
    alloc: Global,
    state: &mut State,
    ([first, second], timing, until, asked, settled): Case,
) -> bool {
    hear_told(alloc, state, first, timing)
        && hear_until(alloc, state, (second, timing), until)
        && is_settled(alloc, state, asked) == Some(settled)
}

/// Whether a case is so.
fn is_so(alloc: Global, case: Case) -> bool {
    match state4(alloc, 2, 1480) {
        Some(mut state) => is_so_of(alloc, &mut state, case),
        None => false,
    }
}

/// The first case that isn't so.
fn wrong(alloc: Global, cases: &[Case]) -> Option<usize> {
    for index in 0..cases.len() {
        if !is_so(alloc, cases[index]) {
            return Some(index);
        }
    }
    None
}

#[test]
fn settles_machine_by_machine(rt: HostRuntime) {
    assert_eq!(rt; wrong(rt.alloc(), &CASES), None);
}

/// A port is told the star and, at 10, that it is gone, at 2,000 perhaps once more, and time passes
/// until just before the echo: whether all is taken.
fn hear_gone(alloc: Global, state: &mut State, again: bool) -> bool {
    let last = if again { Told::Gone } else { Told::Nil };
    [(Told::Star, 10), (Told::Gone, 2000), (last, 3009)]
        .iter()
        .all(|&(reported, until)| hear_until(alloc, state, (reported, SEVERAL), until))
}

const ECHO: Step<[u8; 4]> = Step::Echo {
    port: 0,
    group: GROUP,
    what: What::Star,
};

/// Whether a port that was told so is settled at nothing when the echo comes, at 3,010, and not
/// before.
fn is_left(alloc: Global, state: &mut State, again: bool) -> bool {
    hear_gone(alloc, state, again)
        && is_settled(alloc, state, Told::Nil) == Some(false)
        && state.ports.run_to(4000) == ECHO
        && state.ports.now() == 3010
        && is_settled(alloc, state, Told::Nil) == Some(true)
}

/// The same of a new port.
fn new_is_left(alloc: Global, again: bool) -> bool {
    match state4(alloc, 1, 1480) {
        Some(mut state) => is_left(alloc, &mut state, again),
        None => false,
    }
}

// The echo comes when the other neighbours could have overridden the prune, and the port is settled
// then.
#[test]
fn settles_when_the_echo_comes(rt: HostRuntime) {
    assert!(rt; new_is_left(rt.alloc(), false));
    assert!(rt; new_is_left(rt.alloc(), true));
}
