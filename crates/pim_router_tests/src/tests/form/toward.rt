//! What is asked of which upstream neighbour, while growths are refused.

use crate::tests::state::{
    FIRST, GROUP, JOIN_FIRST, JOIN_SECOND, RP, RPT_FIRST, SECOND, STAR, State, hear, refused,
    state4,
};
use pim_addr::{Routes, V4};
use pim_form::{NormalForm, is_toward};
use pim_jp::Entry;
use std::alloc::{AllocError, Global};
use std::test::Fail;

const OTHER_GROUP: [u8; 4] = [239, 1, 2, 1];

/// The RP of the first group.
const NEARER_RP: [u8; 4] = [10, 8, 8, 8];

const TWO: [u8; 4] = [10, 0, 0, 2];

const SIX: [u8; 4] = [10, 0, 0, 6];

/// No row leads to it.
const SEVEN: [u8; 4] = [10, 0, 0, 7];

/// Adds six rows to none: whether each was taken.
fn lead(routes: &mut Routes<V4>) -> bool {
    routes.add_rp([239, 1, 0, 0], 16, RP).is_ok()
        && routes.add_rp([239, 1, 1, 0], 24, NEARER_RP).is_ok()
        && routes.add_via([0; 4], 0, TWO).is_ok()
        && routes.add_via([10, 8, 0, 0], 16, SIX).is_ok()
        && routes.add_via([192, 0, 2, 0], 24, SIX).is_ok()
        && routes.add_via(SECOND, 32, TWO).is_ok()
}

/// Of the first group the star except the first source, and the second source, and of the other the
/// star and the first source are heard: whether they are taken.
fn hear_both(alloc: Global, state: &mut State) -> bool {
    let first = [Entry::Star(NEARER_RP), JOIN_SECOND];
    hear(alloc, state, 0, GROUP, &first, &[RPT_FIRST])
        && hear(alloc, state, 0, OTHER_GROUP, &[STAR, JOIN_FIRST], &[])
}

/// Lets a port hear this under the six rows: whether it is taken.
fn hear_under_six(alloc: Global, state: &mut State) -> bool {
    state.routes = Routes::new(alloc);
    lead(&mut state.routes) && hear_both(alloc, state)
}

/// A group as a form shows it: whether it has a star, its exceptions and its sources.
type Shown<'a> = ([u8; 4], bool, &'a [[u8; 4]], &'a [[u8; 4]]);

/// Whether the form has these groups and no others.
fn shows(form: &NormalForm<V4>, rows: &[Shown<'_>]) -> bool {
    let mut groups = form.groups();
    for &(group, star, exceptions, sources) in rows {
        let Some(this) = groups.next() else {
            return false;
        };
        if this.group() != group || this.star() != star {
            return false;
        }
        if this.exceptions() != exceptions || this.sources() != sources {
            return false;
        }
    }
    groups.next().is_none()
}

/// A neighbour, and what it is asked for.
type Case<'a> = ([u8; 4], &'a [Shown<'a>]);

const CASES: [Case<'static>; 3] = [
    (
        TWO,
        &[
            (GROUP, false, &[], &[SECOND]),
            (OTHER_GROUP, true, &[], &[]),
        ],
    ),
    (
        SIX,
        &[
            (GROUP, true, &[FIRST], &[]),
            (OTHER_GROUP, false, &[], &[FIRST]),
        ],
    ),
    (SEVEN, &[]),
];

/// Whether it is asked for this and no more, where there is memory for the answer.
fn is_so(alloc: Global, state: &State, (neighbour, asked): Case<'_>) -> Result<bool, AllocError> {
    let form = NormalForm::toward(alloc, &state.ports, &state.routes, neighbour)?;
    Ok(shows(&form, asked) && is_toward(&form, &state.routes, neighbour))
}

/// The first case that isn't so.
fn wrong(alloc: Global, state: &State) -> Result<Option<usize>, AllocError> {
    for (index, case) in CASES.iter().enumerate() {
        if !is_so(alloc, state, *case)? {
            return Ok(Some(index));
        }
    }
    Ok(None)
}

/// Whether a form of all that is wanted isn't asked of one neighbour.
fn is_of_two(alloc: Global, state: &State) -> Result<bool, AllocError> {
    match NormalForm::of(alloc, &state.ports) {
        Ok(form) => {
            let of_two = is_toward(&form, &state.routes, TWO);
            Ok(!of_two && !is_toward(&form, &state.routes, SIX))
        }
        Err(_) => Err(AllocError),
    }
}

/// The same of a new port that hears this.
fn heard_is_of_two(alloc: Global) -> bool {
    match state4(alloc, 1, 1480) {
        Some(mut state) => {
            hear_under_six(alloc, &mut state) && is_of_two(alloc, &state) == Ok(true)
        }
        None => false,
    }
}

#[test]
fn tells_what_others_are_asked(rt: HostRuntime) {
    assert!(rt; heard_is_of_two(rt.alloc()));
}

/// Whether no case is wrong: at once or, where a growth is refused, when all are tried again.
fn none_is_wrong(alloc: Global, state: &State) -> Result<bool, AllocError> {
    match wrong(alloc, state) {
        Ok(answer) => Ok(answer.is_none()),
        Err(_) => refused(wrong(alloc, state) == Ok(None)),
    }
}

/// The same of a port that hears this first.
fn hear_and_ask(alloc: Global, state: &mut State) -> Result<bool, AllocError> {
    if hear_under_six(alloc, state) {
        none_is_wrong(alloc, state)
    } else {
        Err(AllocError)
    }
}

/// The same of a new port.
fn none_is_wrong_of_new(alloc: Global) -> Result<bool, AllocError> {
    match state4(alloc, 1, 1480) {
        Some(mut state) => hear_and_ask(alloc, &mut state),
        None => Err(AllocError),
    }
}

// With each allocation refused in turn (`tools/each_growth_refused.sh`): the answer is want of
// memory, and the same call, with memory, answers what it would have answered.
#[test]
fn refusals_of_toward_change_nothing(rt: HostRuntime) -> Result<(), Fail> {
    assert!(rt; none_is_wrong_of_new(rt.alloc())?);
    Ok(())
}
