//! What a task asks for, done by the command of the task.

ghost use Rattle.std.specs.Prelude.{◌≡◌};
ghost use Rattle.pim_words.specs.Plan.{IsInRange};
ghost use Rattle.pim_commands.specs.Report.{write_failures_after};
ghost use Rattle.pim_faults.specs.Ending.{IsReported};
ghost use Rattle.pim_commands.specs.Running.{DoesTask};

use crate::build::build_task;
use crate::check::check_task;
use crate::check_partial::check_partial_task;
use crate::one_router::{audit, emit, mirror, replay, trace};
use crate::two_routers::{change, same};
use pim_addr::{Drain, Family, Feed};
use pim_faults::Fault;
use pim_files::Opener;
use pim_words::Task;
use std::alloc::Global;

/// Does what a task asks for, with this standard input and output and the files that this opener
/// opens. Warnings on captures go to `errors`, of which a failure is ignored. Returns the status.
///
/// # Errors
/// Those of the command.
pub fn run_task<'a, F: Family, O: Opener, R: Feed, W: Drain, E: Drain>(
    alloc: Global,
    opener: &mut O,
    task: &Task<'a, F::Addr>,
    input: &mut R,
    output: &mut W,
    errors: &mut E,
) -> Result<u8, Fault<'a>>
    requires { IsInRange task.now }
    ensures done { DoesTask F.family F.bytes_of O.Reader.remaining O.Reader.failures
        (O.known opener.old) (O.known opener.new) (R.remaining input.old)
        (λ text. IsReported text (E.contents errors.old) (E.contents errors.new)
        (E.failures errors.old) (E.failures errors.new))
        (W.contents output.old) (W.contents output.new) result task.now }
    ensures output { W.failures output.new ≡ write_failures_after (W.failures output.old) result }
{
    match task {
        Task::Check { .. } => check_task::<F, _, _>(alloc, input, output, task),
        Task::CheckPartial { .. } => check_partial_task::<F, _, _>(alloc, input, output, task),
        Task::Build { .. } => build_task::<F, _, _>(alloc, input, output, task),
        Task::Replay(captures) => replay::<F, O, W, E>(alloc, opener, captures, output, errors),
        Task::Trace(captures, tracing) => {
            trace::<F, O, W, E>(alloc, opener, captures, tracing, output, errors)
        }
        Task::Audit(captures, auditing, tracing) => {
            let words = (auditing, tracing);
            audit::<F, O, W, E>(alloc, opener, captures, words, output, errors)
        }
        Task::Same(captures, writing) => {
            same::<F, O, W, E>(alloc, opener, captures, writing, output, errors)
        }
        Task::Mirror(captures, writing) => {
            mirror::<F, O, W, E>(alloc, opener, captures, writing, output, errors)
        }
        Task::Emit(captures, writing) => {
            emit::<F, O, W, E>(alloc, opener, captures, writing, output, errors)
        }
        Task::Change(captures, writing) => {
            change::<F, O, W, E>(alloc, opener, captures, writing, output, errors)
        }
    }
}
