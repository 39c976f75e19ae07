//! Long messages, byte by byte, and a device that fails at each byte.

use super::{State, hear_200, is_kept, is_written, state4, write_to};
use pim_device::ScriptedDrain;
use pim_emit::WriteFault;
use std::alloc::{AllocError, Global};

/// The front of the first message of 200 sources, after its length; the second one's.
const FIRST_OF_200: [u8; 28] = [
    5, 0xc2, 0x23, 0, 0xec, 0x9b, 1, 0, 10, 0, 0, 2, 0, 1, 0, 210, 1, 0, 0, 32, 239, 1, 1, 1, 0,
    0xb5, 0, 0,
];

const SECOND_OF_200: [u8; 28] = [
    0, 0xb2, 0x23, 0, 0xb2, 0x53, 1, 0, 10, 0, 0, 2, 0, 1, 0, 210, 1, 0, 0, 32, 239, 1, 1, 1, 0,
    0x13, 0, 0,
];

/// Appends the (S,G) entries of the sources 10.1.0.N from this one to that one.
fn push_entries(bytes: &mut Vec<u8>, first: u8, last: u8) -> Result<(), AllocError> {
    for number in first..=last {
        bytes.extend_from_slice(&[1, 0, 4, 32, 10, 1, 0, number])?;
    }
    Ok(())
}

/// Appends the two messages of 200 sources, each after its length.
fn push_messages(bytes: &mut Vec<u8>) -> Result<(), AllocError> {
    bytes.extend_from_slice(&FIRST_OF_200)?;
    push_entries(bytes, 1, 181)?;
    bytes.extend_from_slice(&SECOND_OF_200)?;
    push_entries(bytes, 182, 200)
}

/// Whether a device that fails from this byte on was written the bytes before it, as is told.
fn is_cut(alloc: Global, state: &State, bytes: &[u8], fails_from: usize) -> bool {
    let mut out = ScriptedDrain::new(alloc, 64, fails_from);
    let sent = fails_from as u64;
    write_to(alloc, state, &mut out) == Some(Err(WriteFault::Output { sent }))
        && Some(out.written()) == bytes.get(..fails_from)
        && out.failures() == 1
}

/// Whether a device that fails at any of these bytes was written the ones before.
fn is_cut_anywhere(alloc: Global, state: &State, bytes: &[u8]) -> bool {
    for fails_from in 0..bytes.len() {
        if !is_cut(alloc, state, bytes, fails_from) {
            return false;
        }
    }
    true
}

/// The same where these are the bytes of two messages, which the normal form has, too.
fn are_told(alloc: Global, state: &State, bytes: &[u8]) -> bool {
    bytes.len() == 1656
        && is_written(alloc, state, 2, bytes)
        && is_kept(alloc, state) == Some(true)
        && is_cut_anywhere(alloc, state, bytes)
}

/// The same where 200 sources were heard.
fn are_told_of_200(alloc: Global, state: &State) -> bool {
    let mut bytes = Vec::new(alloc);
    push_messages(&mut bytes).is_ok() && are_told(alloc, state, &bytes)
}

/// The same where they are heard now.
fn are_heard_and_told(alloc: Global, state: &mut State) -> bool {
    hear_200(alloc, state) && are_told_of_200(alloc, state)
}

/// The same of a new state.
fn each_byte_is_told(alloc: Global) -> bool {
    match state4(alloc, 1, 1480) {
        Some(mut state) => are_heard_and_told(alloc, &mut state),
        None => false,
    }
}

#[test]
fn each_byte_of_200_sources(rt: HostRuntime) {
    assert!(rt; each_byte_is_told(rt.alloc()));
}
