//! Growths that are refused while the messages of a change are made.

use crate::tests::state::{refused, state4};
use pim_addr::V4;
use pim_change::triggered;
use pim_form::{FormFault, Messages, NormalForm};
use std::alloc::{AllocError, Global};

/// Of the exception that went, of the source that came and of the exception that came.
const MESSAGE: [u8; 50] = [
    35, 0, 136, 158, 1, 0, 10, 0, 0, 2, 0, 1, 0, 210, 1, 0, 0, 32, 239, 1, 1, 1, 0, 2, 0, 1, 1, 0,
    5, 32, 192, 0, 2, 1, 1, 0, 4, 32, 192, 0, 2, 1, 1, 0, 5, 32, 192, 0, 2, 2,
];

/// What is told to 10.0.0.2 of a change.
fn reported(
    alloc: Global,
    old: &NormalForm<V4>,
    new: &NormalForm<V4>,
) -> Result<Messages, FormFault<V4>> {
    match state4(alloc, 1, 1400) {
        Some(state) => triggered(alloc, old, new, &state.writer, &state.routes),
        None => Err(FormFault::Memory),
    }
}

/// Whether the change is told by its one message; `None` where memory is wanting.
fn is_told(alloc: Global, old: &NormalForm<V4>, new: &NormalForm<V4>) -> Option<bool> {
    match reported(alloc, old, new) {
        Ok(messages) => Some(messages.count() == 1 && messages.get(0) == Some(MESSAGE.as_slice())),
        Err(FormFault::Memory) => None,
        Err(_) => Some(false),
    }
}

/// Whether the change is told, at once or with memory.
pub(super) fn is_told_at_last(
    alloc: Global,
    old: &NormalForm<V4>,
    new: &NormalForm<V4>,
) -> Result<bool, AllocError> {
    match is_told(alloc, old, new) {
        Some(answer) => Ok(answer),
        None => refused(is_told(alloc, old, new) == Some(true)),
    }
}
