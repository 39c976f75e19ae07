//! The commands that report on a router and leave it unchanged: `now`, `next`, `state`, `wants` and
//! `neighbours`.

ghost use Rattle.std.specs.Prelude.{◌≡◌, ◌++◌, true, Some};
ghost use Rattle.std.specs.List.{flat_map};
ghost use Rattle.pim_device.specs.Device.{AppendsAll, failures_after};
ghost use Rattle.pim_report.specs.DemandText.{demand_text};
ghost use Rattle.pim_report.specs.RecordLine.{record_line};
ghost use Rattle.pim_answers.specs.Answered.{Wrote};
ghost use Rattle.pim_answers.specs.Lines.{ok_line};
ghost use Rattle.pim_answers.specs.Neighbours.{neighbours_text};
ghost use Rattle.pim_answers.specs.Reports.{moment_line, AnswersNext, AnswersWants};

use crate::fault::{AnswerFault, write_fault, write_ok};
use crate::neighbours::write_neighbours;
use itoa::Buffer;
use pim_addr::{Drain, Failed, Family, Routes};
use pim_down::Records;
use pim_form::NormalForm;
use pim_lines::{number_or, write_pieces};
use pim_report::{write_demand, write_record_line};
use pim_router::Router;
use std::alloc::Global;

/// Writes the line of a moment, or of `never`.
fn write_moment<W: Drain>(answers: &mut W, moment: Option<u64>) -> Result<(), Failed>
    ensures bytes { AppendsAll (W.contents answers.old) (W.contents answers.new) result
        (moment_line moment) }
    ensures count { W.failures answers.new ≡ failures_after (W.failures answers.old) result }
{
    let mut digits = Buffer::new();
    let pieces = [number_or(&mut digits, moment, b"never"), b"\n"];
    write_pieces(answers, &pieces)
}

/// Writes the line of a moment, or of `never`, and `ok`.
fn answer_moment<W: Drain>(answers: &mut W, moment: Option<u64>) -> Result<(), Failed>
    ensures bytes { AppendsAll (W.contents answers.old) (W.contents answers.new) result
        (moment_line moment ++ ok_line) }
    ensures count { W.failures answers.new ≡ failures_after (W.failures answers.old) result }
{
    write_moment(answers, moment)?;
    write_ok(answers)
}

/// Answers `now`: the present moment, in milliseconds.
///
/// # Errors
/// The device failed: a prefix of the answer was written.
pub fn answer_now<F: Family, W: Drain>(
    router: &Router<'_, F>,
    answers: &mut W,
) -> Result<(), Failed>
    ensures bytes { AppendsAll (W.contents answers.old) (W.contents answers.new) result
        (moment_line (Some router.now.machines.moment) ++ ok_line) }
    ensures count { W.failures answers.new ≡ failures_after (W.failures answers.old) result }
{
    answer_moment(answers, Some(router.now()))
}

/// Answers `next`: the first moment at which a timer of a record fires, or `never`. The times of
/// neighbours and the refreshes don't count.
///
/// # Errors
/// The device failed: a prefix of the answer was written.
pub fn answer_next<F: Family, W: Drain>(
    router: &Router<'_, F>,
    answers: &mut W,
) -> Result<(), Failed>
    ensures reported { Wrote (AnswersNext router.now) (W.contents answers.old)
        (W.contents answers.new)
        result }
    ensures count { W.failures answers.new ≡ failures_after (W.failures answers.old) result }
{
    answer_moment(answers, router.ports().next_due())
}

/// Writes the lines of records.
fn write_records<F: Family, W: Drain>(
    answers: &mut W,
    records: Records<'_, F>,
) -> Result<(), Failed>
    ensures bytes { AppendsAll (W.contents answers.old) (W.contents answers.new) result
        (flat_map (record_line F.family) records.entry) }
    ensures count { W.failures answers.new ≡ failures_after (W.failures answers.old) result }
{
    for record in records {
        write_record_line::<F, W>(answers, record)?;
    }
    Ok(())
}

/// Answers `state`: the lines of the records.
///
/// # Errors
/// The device failed: a prefix of the answer was written.
pub fn answer_state<F: Family, W: Drain>(
    router: &Router<'_, F>,
    answers: &mut W,
) -> Result<(), Failed>
    ensures bytes { AppendsAll (W.contents answers.old) (W.contents answers.new) result
        (flat_map (record_line F.family) router.now.machines.records ++ ok_line) }
    ensures count { W.failures answers.new ≡ failures_after (W.failures answers.old) result }
{
    write_records::<F, W>(answers, router.ports().records())?;
    write_ok(answers)
}

/// Writes the lines of a demand, each with its upstream neighbour, and `ok`.
fn answer_demand<F: Family, W: Drain>(
    answers: &mut W,
    routes: &Routes<F>,
    form: &NormalForm<F>,
) -> Result<(), Failed>
    ensures bytes { AppendsAll (W.contents answers.old) (W.contents answers.new) result
        (demand_text F.family true routes.now form.now ++ ok_line) }
    ensures count { W.failures answers.new ≡ failures_after (W.failures answers.old) result }
{
    write_demand::<F, W>(answers, true, routes, form)?;
    write_ok(answers)
}

/// Answers `wants`: the lines of the demand, each with its upstream neighbour.
///
/// # Errors
/// The device failed: a prefix of the answer was written.
pub fn answer_wants<F: Family, W: Drain>(
    alloc: Global,
    router: &Router<'_, F>,
    answers: &mut W,
) -> Result<(), Failed>
    ensures reported { Wrote (AnswersWants F.family router.now) (W.contents answers.old)
        (W.contents answers.new) result }
    ensures count { W.failures answers.new ≡ failures_after (W.failures answers.old) result }
{
    match NormalForm::of(alloc, router.ports()) {
        Ok(form) => answer_demand::<F, W>(answers, router.routes(), &form),
        Err(_) => write_fault(answers, &AnswerFault::memory()),
    }
}

/// Answers `neighbours`: a line for each neighbour, by port and address.
///
/// # Errors
/// The device failed: a prefix of the answer was written.
pub fn answer_neighbours<F: Family, W: Drain>(
    router: &Router<'_, F>,
    answers: &mut W,
) -> Result<(), Failed>
    ensures bytes { AppendsAll (W.contents answers.old) (W.contents answers.new) result
        (neighbours_text F.family router.now ++ ok_line) }
    ensures count { W.failures answers.new ≡ failures_after (W.failures answers.old) result }
{
    write_neighbours::<F, W>(answers, router)?;
    write_ok(answers)
}
