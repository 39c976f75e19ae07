//! Forms that are packed: the form of a form, a growth that is refused, and faults in words.

use crate::tests::change::old_form;
use crate::tests::state::{GROUP, State, hear_200, refused, state4};
use pim_addr::{Family, V4, V6};
use pim_form::{FormFault, Messages, NormalForm, is_toward, normal_again, pack};
use std::alloc::{AllocError, Global};
use std::test::Fail;

/// The star of the group except 192.0.2.1: one message of 42 bytes.
const EXCEPT_MESSAGE: [u8; 42] = [
    0x23, 0, 0xfc, 0xb1, 1, 0, 10, 0, 0, 2, 0, 1, 0, 210, 1, 0, 0, 32, 239, 1, 1, 1, 0, 1, 0, 1, 1,
    0, 7, 32, 10, 9, 9, 9, 1, 0, 5, 32, 192, 0, 2, 1,
];

/// The messages of this form; `None` where the router's neighbour isn't asked for all of it.
fn form_told(
    alloc: Global,
    state: &State,
    form: &NormalForm<V4>,
) -> Option<Result<Messages, FormFault<V4>>> {
    if is_toward(form, &state.routes, state.writer.upstream()) {
        Some(pack(alloc, form, &state.writer, &state.routes))
    } else {
        None
    }
}

/// Whether messages are one of these bytes.
fn are_one(messages: &Messages, bytes: &[u8]) -> bool {
    messages.count() == 1 && messages.get(0) == Some(bytes) && messages.get(1).is_none()
}

/// Whether the messages of this form are one of these bytes; `None` where the router's neighbour
/// isn't asked for all of it.
fn is_told_so(alloc: Global, state: &State, form: &NormalForm<V4>, bytes: &[u8]) -> Option<bool> {
    match form_told(alloc, state, form) {
        Some(Ok(messages)) => Some(are_one(&messages, bytes)),
        _ => None,
    }
}

/// The same of the normal form of this form.
fn is_told_so_again(
    alloc: Global,
    state: &State,
    form: &NormalForm<V4>,
    bytes: &[u8],
) -> Option<bool> {
    match normal_again(alloc, form) {
        Ok(again) => is_told_so(alloc, state, &again, bytes),
        Err(_) => None,
    }
}

/// The same of the star without 192.0.2.1, and of the normal form of its normal form.
fn both_told_so(alloc: Global, state: &State, form: &NormalForm<V4>) -> Option<[bool; 2]> {
    let second = is_told_so_again(alloc, state, form, &EXCEPT_MESSAGE)?;
    let first = is_told_so(alloc, state, form, &EXCEPT_MESSAGE)?;
    Some([first, second])
}

/// The same by this table and this writer.
fn tells_both(alloc: Global, state: &State) -> Option<[bool; 2]> {
    match old_form(alloc) {
        Some(form) => both_told_so(alloc, state, &form),
        None => None,
    }
}

/// The same of a new router.
fn new_tells_both(alloc: Global) -> Option<[bool; 2]> {
    match state4(alloc, 1, 1480) {
        Some(state) => tells_both(alloc, &state),
        None => None,
    }
}

#[test]
fn packs_a_form_and_its_form(rt: HostRuntime) {
    assert_eq!(rt; new_tells_both(rt.alloc()), Some([true, true]));
}

/// Whether a fault is told in these words.
fn is_in_words<F: Family>(alloc: Global, fault: FormFault<F>, words: &str) -> bool {
    match format!(in alloc; "{fault}") {
        Ok(text) => text.as_str() == words,
        Err(_) => false,
    }
}

#[test]
fn tells_faults_in_words(rt: HostRuntime) {
    let too_big: FormFault<V4> = FormFault::TooBig(GROUP);
    assert!(rt; is_in_words(rt.alloc(), too_big, "too big 239.1.1.1"));
    let memory: FormFault<V6> = FormFault::Memory;
    assert!(rt; is_in_words(rt.alloc(), memory, "memory"));
    let tables: FormFault<V4> = FormFault::Tables;
    assert!(rt; is_in_words(rt.alloc(), tables, "tables"));
}

/// How long a message is; 0 where it isn't there.
fn length_at(messages: &Messages, index: usize) -> usize {
    match messages.get(index) {
        Some(message) => message.len(),
        None => 0,
    }
}

/// Whether the form of 200 sources has two messages of these lengths; why there are none.
fn packs_two(alloc: Global, state: &State, form: &NormalForm<V4>) -> Result<bool, FormFault<V4>> {
    match form_told(alloc, state, form) {
        Some(Ok(messages)) => Ok(
            messages.count() == 2
                && length_at(&messages, 0) == 1474
                && length_at(&messages, 1) == 178,
        ),
        Some(Err(fault)) => Err(fault),
        None => Ok(false),
    }
}

/// The same: at once or, where a growth is refused, with its group as it was and then again.
fn is_packed(alloc: Global, state: &State, form: &NormalForm<V4>) -> Result<bool, AllocError> {
    let first = packs_two(alloc, state, form);
    if first == Err(FormFault::Memory) {
        let is_there = form.groups().count_left() == 1;
        return refused(is_there && packs_two(alloc, state, form) == Ok(true));
    }
    Ok(first == Ok(true))
}

/// The same of what the router wants.
fn wants_are_packed(alloc: Global, state: &State) -> Result<bool, AllocError> {
    let form = NormalForm::of(alloc, &state.ports)?;
    is_packed(alloc, state, &form)
}

/// The same where it hears the 200 sources now.
fn heard_are_packed(alloc: Global, state: &mut State) -> Result<bool, AllocError> {
    if hear_200(alloc, state) {
        wants_are_packed(alloc, state)
    } else {
        Err(AllocError)
    }
}

/// The same of a new router.
fn new_are_packed(alloc: Global) -> Result<bool, AllocError> {
    match state4(alloc, 1, 1480) {
        Some(mut state) => heard_are_packed(alloc, &mut state),
        None => Err(AllocError),
    }
}

// With each allocation refused in turn (`tools/each_growth_refused.sh`): the form is as it was, and
// the same call, with memory, gives its messages.
#[test]
fn refusals_change_nothing(rt: HostRuntime) -> Result<(), Fail> {
    assert!(rt; new_are_packed(rt.alloc())?);
    Ok(())
}
