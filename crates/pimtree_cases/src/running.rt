//! Runs cases through the product's own commands.

ghost use Rattle.pim_words.specs.Plan.{IsInRange};

use pim_addr::{Family, ScriptedDrain, ScriptedFeed, V4, V6};
use pim_cases::{Case, MOST_READ, Runner, files_of};
use pim_commands::{Fault, report_fault};
use pim_files::{HeldFile, HeldFiles};
use pim_main::{WithInput, run_on_devices, run_session, task_reads_any};
use pim_words::{CommandPlan, STANDARD_INPUT, Task, plan};
use std::alloc::Global;

/// Does the task of a case over these files. Where any container is read, standard input is one
/// more.
fn answer_task<'a, 'f, F: Family>(
    alloc: Global,
    files: &'f [HeldFile<'f>],
    case: &'f Case<'f>,
    task: &Task<'a, F::Addr>,
    output: &mut ScriptedDrain,
    errors: &mut ScriptedDrain,
) -> Result<u8, Fault<'a>>
    requires { IsInRange task.now }
{
    let input = [case.input.as_file(STANDARD_INPUT)];
    let files = HeldFiles::new(alloc, files, MOST_READ);
    let given = HeldFiles::new(alloc, &input, MOST_READ);
    let mut opener = WithInput::new(files, given, task_reads_any(task));
    let mut input = case.input.reader();
    run_on_devices::<F, _, _, _, _>(alloc, &mut opener, task, &mut input, output, errors)
}

/// Does what the words of a case ask for, as the program does.
fn answer<'c>(
    alloc: Global,
    case: &'c Case<'_>,
    output: &mut ScriptedDrain,
    errors: &mut ScriptedDrain,
) -> Result<u8, Fault<'c>> {
    let plan = plan(alloc, case.words.as_slice())?;
    let Ok(files) = files_of(alloc, &case.files) else {
        return Err(Fault::Memory);
    };
    match &plan {
        CommandPlan::V4(task) => answer_task::<V4>(alloc, &files, case, task, output, errors),
        CommandPlan::V6(task) => answer_task::<V6>(alloc, &files, case, task, output, errors),
        CommandPlan::Session => run_session(alloc, case.input.reader(), output),
    }
}

/// The product's own commands.
#[derive(Drop)]
pub struct Commands;

impl Runner for Commands {
    fn answer(&self, alloc: Global, text: &[u8], answers: &mut ScriptedDrain) -> bool {
        let input = ScriptedFeed::new(text, usize::MAX, usize::MAX);
        run_session(alloc, input, answers).is_ok_and(|status| status == 0)
    }

    fn run(
        &self,
        alloc: Global,
        case: &Case<'_>,
        output: &mut ScriptedDrain,
        errors: &mut ScriptedDrain,
    ) -> u8 {
        match answer(alloc, case, output, errors) {
            Ok(status) => status,
            Err(fault) => report_fault(&fault, output, errors),
        }
    }
}
