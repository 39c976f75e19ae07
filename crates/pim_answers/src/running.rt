//! The command `run`: time passes.

ghost use Rattle.std.specs.Prelude.{◌≡◌, ◌≢◌, ◌≤◌, ◌^◌, true, false};
ghost use Rattle.pim_device.specs.Device.{AppendsAll, failures_after};
ghost use Rattle.pim_router.specs.Seen.{step_seen};
ghost use Rattle.pim_answers.specs.Answered.{Answered};
ghost use Rattle.pim_answers.specs.Running.{AnswersRun};
ghost use Rattle.pim_answers.specs.RunningSeen.{step_line};

use crate::fault::write_ok;
use pim_addr::{Drain, Failed, Family};
use pim_report::{write_echo_line, write_refresh_line};
use pim_router::laws::every_list_has_a_course;
use pim_router::{Router, Step};

/// Whether a run ended at its moment.
fn is_reached<A: Copy>(step: Step<A>) -> bool
    ensures end { result ≡ true → step ≡ Step.Reached }
    ensures early { result ≡ false → step ≢ Step.Reached }
{
    match step {
        Step::Reached => true,
        _ => false,
    }
}

/// Writes the line of an echo or a refresh at this moment; nothing where the moment is reached.
fn write_step<F: Family, W: Drain>(
    answers: &mut W,
    moment: u64,
    step: Step<F::Addr>,
) -> Result<(), Failed>
    ensures bytes { AppendsAll (W.contents answers.old) (W.contents answers.new) result
        (step_line F.family moment (step_seen F.bytes_of step)) }
    ensures count { W.failures answers.new ≡ failures_after (W.failures answers.old) result }
{
    match step {
        Step::Echo { port, group, what } => {
            write_echo_line::<F, W>(answers, moment, port, group, what)
        }
        Step::Refresh => write_refresh_line(answers, moment),
        Step::Reached => Ok(()),
    }
}

/// Answers `run`: runs the router to this moment, and writes each echo and each refresh on its way.
/// An earlier moment counts as the present one; what is due now fires.
///
/// # Errors
/// The device failed: a prefix of the answer was written.
pub fn answer_run<F: Family, W: Drain>(
    router: &mut Router<'_, F>,
    moment: u64,
    answers: &mut W,
) -> Result<(), Failed>
    requires { moment ≤ 10 ^ 15 }
    ensures answered { Answered (AnswersRun F.family moment router.old)
        (W.contents answers.old) (W.contents answers.new) result (λ _. router.new) }
    ensures count { W.failures answers.new ≡ failures_after (W.failures answers.old) result }
{
    every_list_has_a_course();
    'runs: loop {
        let step = router.run_to(moment);
        if is_reached(step) {
            return write_ok(answers);
        }
        write_step::<F, W>(answers, router.now(), step)?;
    }
}
