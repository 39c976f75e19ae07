//! What commands leave where memory is refused. `tools/each_growth_refused.sh` runs each test with
//! each allocation refused in turn.

use super::running::{
    AUDIT, AUDIT_JSON, CHANGE, EMIT, MIRROR, NEVER, REPLAY, Row, SAME, TRACE, TRACE_JSON,
    all_files, answer,
};
use pim_addr::ScriptedDrain;
use pim_commands::Fault;
use pim_words::CommandFault as Unplanned;
use std::alloc::{AllocError, Global};
use std::process::Abort;
use std::test::Fail;

/// What a command may have written where it ends for want of memory.
#[derive(Clone, Copy)]
enum Left {
    /// Any front of its text.
    Front,
    /// Nothing, or all lines but the last one.
    Lines,
    /// Nothing.
    Nothing,
}

/// The text without its last line, `agrees`.
fn but_last(text: &[u8]) -> &[u8] {
    let (front, _) = text.split_at(text.len().saturating_sub(7));
    front
}

/// Whether a command ended for want of memory.
fn is_memory(fault: &Fault<'_>) -> bool {
    matches!(fault, Fault::Memory | Fault::Words(Unplanned::Memory))
}

/// Whether this may be left where memory is refused.
fn may_be_left(row: &Row, left: Left, written: &[u8]) -> bool {
    match left {
        Left::Front => row.text.starts_with(written),
        Left::Lines => written.is_empty() || written == but_last(row.text),
        Left::Nothing => written.is_empty(),
    }
}

/// Whether what is written goes with how the command ends. The device fails for want of memory of
/// its own, which leaves a front.
fn goes_with(row: &Row, left: Left, written: &[u8], end: &Result<u8, Fault<'_>>) -> bool {
    match end {
        Ok(status) => *status == row.status && written == row.text,
        Err(Fault::Output) => row.text.starts_with(written),
        Err(fault) => is_memory(fault) && may_be_left(row, left, written),
    }
}

/// Runs a command, and once more where it was refused: then the test ends with this error, and so
/// passes only if the command succeeds at once.
fn expect(rt: &impl Abort, alloc: Global, row: &Row, left: Left) -> Result<(), AllocError> {
    let mut output = ScriptedDrain::new(alloc, 64, NEVER);
    let files = all_files();
    let end = answer(alloc, row.words, &files, &mut output);
    assert!(rt; goes_with(row, left, output.written(), &end));
    if end.is_err() {
        let mut output = ScriptedDrain::new(alloc, 64, NEVER);
        let again = answer(alloc, row.words, &files, &mut output);
        assert!(rt; again.is_ok() && output.written() == row.text);
        return Err(AllocError);
    }
    Ok(())
}

#[test]
fn replay_leaves_a_front(rt: HostRuntime) -> Result<(), Fail> {
    Ok(expect(&rt, rt.alloc(), &REPLAY, Left::Front)?)
}

#[test]
fn trace_leaves_a_front(rt: HostRuntime) -> Result<(), Fail> {
    Ok(expect(&rt, rt.alloc(), &TRACE, Left::Front)?)
}

#[test]
fn trace_as_json_leaves_a_front(rt: HostRuntime) -> Result<(), Fail> {
    Ok(expect(&rt, rt.alloc(), &TRACE_JSON, Left::Front)?)
}

#[test]
fn audit_leaves_a_front(rt: HostRuntime) -> Result<(), Fail> {
    Ok(expect(&rt, rt.alloc(), &AUDIT, Left::Front)?)
}

#[test]
fn audit_as_json_leaves_a_front(rt: HostRuntime) -> Result<(), Fail> {
    Ok(expect(&rt, rt.alloc(), &AUDIT_JSON, Left::Front)?)
}

#[test]
fn same_leaves_nothing(rt: HostRuntime) -> Result<(), Fail> {
    Ok(expect(&rt, rt.alloc(), &SAME, Left::Nothing)?)
}

#[test]
fn mirror_leaves_whole_lines(rt: HostRuntime) -> Result<(), Fail> {
    Ok(expect(&rt, rt.alloc(), &MIRROR, Left::Lines)?)
}

#[test]
fn emit_leaves_nothing(rt: HostRuntime) -> Result<(), Fail> {
    Ok(expect(&rt, rt.alloc(), &EMIT, Left::Nothing)?)
}

#[test]
fn change_leaves_whole_lines(rt: HostRuntime) -> Result<(), Fail> {
    Ok(expect(&rt, rt.alloc(), &CHANGE, Left::Lines)?)
}
