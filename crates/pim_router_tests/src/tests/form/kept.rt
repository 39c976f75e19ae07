//! A form that holds nothing, and a form of a form.

use crate::tests::change::new_form;
use crate::tests::state::{FIRST, GROUP, SECOND, refused, state4};
use pim_addr::V4;
use pim_down::Ports;
use pim_form::{Messages, NormalForm, Tree, normal_again};
use std::alloc::{AllocError, Global};
use std::test::Fail;

/// Whether the form of this form has no groups; `None` where memory is wanting.
fn is_nothing_again(alloc: Global, form: &NormalForm<V4>) -> Option<bool> {
    let again = normal_again(alloc, form).ok()?;
    Some(again.groups().next().is_none() && !again.wants(FIRST, GROUP, Tree::Shared))
}

/// The same of the form of what these ports want.
fn want_nothing(alloc: Global, ports: &Ports<V4>) -> Option<bool> {
    match NormalForm::of(alloc, ports) {
        Ok(form) => is_nothing_again(alloc, &form),
        Err(_) => None,
    }
}

/// The same of a new port.
fn is_nothing(alloc: Global) -> Option<bool> {
    match state4(alloc, 1, 1480) {
        Some(state) => want_nothing(alloc, &state.ports),
        None => None,
    }
}

#[test]
fn holds_nothing(rt: HostRuntime) {
    assert_eq!(rt; is_nothing(rt.alloc()), Some(true));
}

/// Pushes messages one by one.
fn push_three(messages: &mut Messages) -> Result<(), AllocError> {
    messages.push(&[0x23, 0, 0xc4, 0xd4])?;
    messages.push(&[])?;
    messages.push(&[0x20])
}

/// Whether the message with this number has these bytes.
fn is_at(messages: &Messages, index: usize, bytes: &[u8]) -> bool {
    messages.get(index) == Some(bytes)
}

/// Whether there are those messages, and no other.
fn are_kept(messages: &Messages) -> bool {
    messages.count() == 3
        && is_at(messages, 0, &[0x23, 0, 0xc4, 0xd4])
        && is_at(messages, 1, &[])
        && is_at(messages, 2, &[0x20])
        && messages.get(3).is_none()
}

#[test]
fn keeps_what_is_pushed(rt: HostRuntime) {
    let mut messages = Messages::none(rt.alloc());
    assert!(rt; push_three(&mut messages).is_ok() && are_kept(&messages));
}

/// Whether the form wants the first source on its own tree, and all sources but the second on the
/// shared one.
fn wants_as_heard(form: &NormalForm<V4>) -> bool {
    form.wants(FIRST, GROUP, Tree::Source)
        && form.wants(FIRST, GROUP, Tree::Shared)
        && !form.wants(SECOND, GROUP, Tree::Shared)
}

/// Whether the form of this form wants as it should.
fn wants_again(alloc: Global, form: &NormalForm<V4>) -> Result<bool, AllocError> {
    let again = normal_again(alloc, form)?;
    Ok(wants_as_heard(&again))
}

/// The same: at once or, where a growth is refused, with the form as it was and then again.
fn wants_at_last(alloc: Global, form: &NormalForm<V4>) -> Result<bool, AllocError> {
    match wants_again(alloc, form) {
        Ok(wants) => Ok(wants),
        Err(_) => refused(wants_as_heard(form) && wants_again(alloc, form) == Ok(true)),
    }
}

/// The same of the new form of a change.
fn new_wants_at_last(alloc: Global) -> Result<bool, AllocError> {
    match new_form(alloc) {
        Some(form) => wants_at_last(alloc, &form),
        None => Err(AllocError),
    }
}

// With each allocation refused in turn (`tools/each_growth_refused.sh`): the form is as before, and
// the same call, with memory, gives it again.
#[test]
fn refusals_leave_the_form(rt: HostRuntime) -> Result<(), Fail> {
    assert!(rt; new_wants_at_last(rt.alloc())?);
    Ok(())
}
