//! A task over any devices, as the program and its tests do it.
//!
//! Warnings are kept in memory until all output is passed on. So they come after it, also where
//! both go to one terminal.

ghost use Rattle.std.specs.Prelude.{◌≡◌, ◌⊎◌, IfOk, IfErr};
ghost use Rattle.std.specs.Io.KnownBytes.{Keeps};
ghost use Rattle.pim_device.specs.Device.{counted_failures, counted_inner};
ghost use Rattle.pim_words.specs.Plan.{IsInRange};
ghost use Rattle.pim_main.specs.Running.{AreWritten, FailsOnce, IsUnpassed, Runs};
ghost use Rattle.pim_main.specs.Running.{first_fault};

use pim_addr::{Counted, Drain, Family, Feed, write_all};
use pim_commands::{Fault, run_task};
use pim_files::Opener;
use pim_request::Answers;
use pim_words::Task;
use std::alloc::Global;

/// Passes all output on, and then writes the warnings.
fn pass_on<'a, W: Answers, E: Drain>(
    warnings: &Counted<Vec<u8>>,
    output: &mut W,
    errors: &mut E,
) -> Result<(), Fault<'a>>
    ensures contents { Keeps (W.contents output.old) (W.contents output.new) }
    ensures fault { IfErr result (IsUnpassed (counted_failures warnings.now)
        (FailsOnce (W.failures output.old) (W.failures output.new)
        ⊎ FailsOnce (E.failures errors.old) (E.failures errors.new))) }
    ensures whole { IfOk result (λ _. counted_failures warnings.now ≡ 0) }
    ensures warned { AreWritten result (counted_inner warnings.now).items
        (E.contents errors.old) (E.contents errors.new) (E.failures errors.old)
        (E.failures errors.new) }
    ensures passed_on { IfOk result (λ _. W.passed_on output.new ≡ W.contents output.new) }
    ensures order { (errors.new ≡ errors.old) ⊎ (W.passed_on output.new ≡ W.contents output.new) }
{
    let Ok(()) = output.flush() else {
        return Err(Fault::Output);
    };
    if warnings.failures() != 0 {
        return Err(Fault::Memory);
    }
    match write_all(errors, warnings.get_ref()) {
        Ok(()) => Ok(()),
        Err(_) => Err(Fault::Output),
    }
}

/// The result of a run by that of its command, and by whether its output and warnings were passed
/// on.
fn first_fault<'a>(
    answer: Result<u8, Fault<'a>>,
    passed: Result<(), Fault<'a>>,
) -> Result<u8, Fault<'a>>
    ensures { result ≡ first_fault answer.entry passed.entry }
{
    match (answer, passed) {
        (Ok(status), Ok(())) => Ok(status),
        (Ok(_), Err(fault)) => Err(fault),
        (Err(fault), _) => Err(fault),
    }
}

/// Does a task over these devices, and returns the status. After all output is passed on, the
/// warnings are written to `errors`.
///
/// # Errors
/// Those of `run_task`. If it has none: `Output` if the output can't be passed on, `Memory` if
/// memory for warnings was refused, or `Output` if they can't be written.
pub fn run_on_devices<'a, F: Family, O: Opener, R: Feed, W: Answers, E: Drain>(
    alloc: Global,
    files: &mut O,
    task: &Task<'a, F::Addr>,
    input: &mut R,
    output: &mut W,
    errors: &mut E,
) -> Result<u8, Fault<'a>>
    requires { IsInRange task.now }
    ensures ran { Runs F.family F.bytes_of O.Reader.remaining O.Reader.failures
        (O.known files.old) (O.known files.new) (R.remaining input.old)
        (λ passed warnings. AreWritten passed warnings (E.contents errors.old)
        (E.contents errors.new) (E.failures errors.old) (E.failures errors.new))
        (W.failures output.old) (λ failed. FailsOnce failed (W.failures output.new)
        ⊎ FailsOnce (E.failures errors.old) (E.failures errors.new))
        (W.contents output.old) (W.contents output.new) result task.now }
    ensures passed_on { IfOk result (λ _. W.passed_on output.new ≡ W.contents output.new) }
    ensures order { (errors.new ≡ errors.old) ⊎ (W.passed_on output.new ≡ W.contents output.new) }
{
    let mut warnings = Counted::new(Vec::new(alloc));
    let answer = run_task::<F, _, _, _, _>(alloc, files, task, input, output, &mut warnings);
    let passed = pass_on(&warnings, output, errors);
    first_fault(answer, passed)
}
