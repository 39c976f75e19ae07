//! A session, as the program and its tests run it.

ghost use Rattle.std.specs.Prelude.{◌≡◌, IfSome, IfOk};
ghost use Rattle.pim_commands.specs.Report.{write_failures_after};
ghost use Rattle.pim_main.specs.Session.{EndsSession};

use pim_addr::Feed;
use pim_commands::Fault;
use pim_request::{Answers, InputItems, Stopped};
use pim_session::session_into;
use std::alloc::Global;

/// Answers a session on this input, and passes the last answers on. Returns the status, which is 0.
///
/// # Errors
/// The first of these: `Memory` before anything is read, `InputRead` where a read fails or 2^64 - 1
/// bytes were read, `Output` where the device that takes the answers fails.
pub fn run_session<R: Feed + Drop, W: Answers>(
    alloc: Global,
    input: R,
    answers: &mut W,
) -> Result<u8, Fault<'static>>
    ensures ended { IfSome (R.remaining input) (λ bytes.
        EndsSession bytes (W.contents answers.old) (W.contents answers.new) result) }
    ensures passed_on { IfOk result (λ _. W.passed_on answers.new ≡ W.contents answers.new) }
    ensures count { W.failures answers.new ≡ write_failures_after (W.failures answers.old) result }
{
    let Ok(mut items) = InputItems::new(alloc, input) else {
        return Err(Fault::Memory);
    };
    match session_into(alloc, &mut items, answers) {
        Ok(()) => {}
        Err(Stopped::Input) => return Err(Fault::InputRead),
        Err(Stopped::Output) => return Err(Fault::Output),
    }
    match answers.flush() {
        Ok(()) => Ok(0),
        Err(_) => Err(Fault::Output),
    }
}
