//! What goes out to a device, byte by byte: the group 239.1.1.1 with the RP 10.9.9.9, asked of
//! 10.0.0.2. Ports whose wants merge are in `emit-ports.case` of `pimtree_cases`, and in its
//! scenarios.

mod long;

use super::state::{GROUP, State, hear_200, state4};
use pim_addr::{Family, V4, V6};
use pim_device::ScriptedDrain;
use pim_emit::{WriteFault, canonical_messages, write_canonical};
use pim_form::{Messages, NormalForm, is_toward, pack};
use std::alloc::Global;

/// What is answered where the canonical messages are written to this device; `None` where there is
/// no buffer.
fn write_to(
    alloc: Global,
    state: &State,
    out: &mut ScriptedDrain,
) -> Option<Result<u64, WriteFault<V4>>> {
    let mut buffer = vec![in alloc; 0u8; state.writer.budget()].ok()?;
    Some(write_canonical::<V4, _>(&state.ports, &state.writer, &state.routes, &mut buffer, out))
}

/// How many messages are written to this device; `None` where a fault is told.
fn written(alloc: Global, state: &State, out: &mut ScriptedDrain) -> Option<u64> {
    write_to(alloc, state, out)?.ok()
}

/// The packed messages of this form; `None` where something is refused.
fn packed_of(alloc: Global, state: &State, form: &NormalForm<V4>) -> Option<Messages> {
    if is_toward(form, &state.routes, state.writer.upstream()) {
        pack(alloc, form, &state.writer, &state.routes).ok()
    } else {
        None
    }
}

/// The same of the normal form of what is asked.
fn packed(alloc: Global, state: &State) -> Option<Messages> {
    let upstream = state.writer.upstream();
    match NormalForm::toward(alloc, &state.ports, &state.routes, upstream) {
        Ok(form) => packed_of(alloc, state, &form),
        Err(_) => None,
    }
}

/// Whether these messages are kept straight from the records, too; `None` where something is
/// refused.
fn are_kept(alloc: Global, state: &State, packed: &Messages) -> Option<bool> {
    match canonical_messages::<V4>(alloc, &state.ports, &state.writer, &state.routes) {
        Ok(kept) => Some(kept.same_bytes(packed)),
        Err(_) => None,
    }
}

/// The same of the packed messages.
fn is_kept(alloc: Global, state: &State) -> Option<bool> {
    match packed(alloc, state) {
        Some(packed) => are_kept(alloc, state, &packed),
        None => None,
    }
}

/// Whether so many messages of these bytes are written to a device that takes one byte a call.
fn is_written(alloc: Global, state: &State, messages: u64, bytes: &[u8]) -> bool {
    let mut out = ScriptedDrain::new(alloc, 1, 10_000);
    written(alloc, state, &mut out) == Some(messages) && out.written() == bytes
}

/// Whether a fault is told in these words.
fn is_in_words<F: Family>(alloc: Global, fault: WriteFault<F>, words: &str) -> bool {
    match format!(in alloc; "{fault}") {
        Ok(text) => text.as_str() == words,
        Err(_) => false,
    }
}

#[test]
fn tells_faults_in_words(rt: HostRuntime) {
    let too_big: WriteFault<V4> = WriteFault::TooBig(GROUP);
    assert!(rt; is_in_words(rt.alloc(), too_big, "too big 239.1.1.1"));
    let output: WriteFault<V6> = WriteFault::Output { sent: 40 };
    assert!(rt; is_in_words(rt.alloc(), output, "the device failed behind 40 bytes"));
}
