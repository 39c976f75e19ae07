//! The command `check --partial`: `check`, but of a message with a fault it also prints what
//! precedes the fault, and the fault.
//!
//! A router may act on the entries that precede a fault. This shows which ones they are.

ghost use Rattle.std.specs.Prelude.{◌≡◌, ◌++◌, take, drop, ℕ, List, Result, IfOk, IfSome};
ghost use Rattle.pim_device.specs.Device.{AppendsAll, ConsumesAtMost, failures_after};
ghost use Rattle.pim_faults.specs.Words.{ending_text};
ghost use Rattle.pim_faults.specs.declared.fault.Fault.{Fault};
ghost use Rattle.pim_commands.specs.Ends.{IsPartialTask, task_source, task_destination};
ghost use Rattle.pim_commands.specs.Partial.{lines_before, faulty_text, is_memory_fault};
ghost use Rattle.pim_commands.specs.Partial.{PartlyReports, Writes};
ghost use Rattle.pim_commands.specs.Report.{input_report, GivesReport, IsMessageFault};
ghost use Rattle.pim_commands.specs.Report.{read_failures_after, write_failures_after};

use crate::check::{read_input, report};
use pim_addr::{Drain, Failed, Family, Feed, write_all};
use pim_faults::{Fault, ending_line};
use pim_text::partial_text;
use pim_words::Task;
use std::alloc::{AllocError, Global};

/// The bytes of the header of a message.
const HEADER: usize = 4;

/// The bytes of a message's body before the offset `at`.
fn front_of(message: &[u8], at: usize) -> &[u8]
    ensures { result.now ≡ take at (drop 4 message.now) }
{
    let (_, body) = message.split_at(HEADER.min(message.len()));
    let (front, _) = body.split_at(at.min(body.len()));
    front
}

/// The lines of what precedes a fault.
fn lines_before<F: Family>(
    alloc: Global,
    message: &[u8],
    fault: &Fault<'_>,
) -> Result<Vec<u8>, AllocError>
    ensures { IfOk result (λ text. text.items ≡ lines_before F.family message.now fault.now) }
{
    match fault {
        Fault::JoinPrune(fault) => partial_text::<F>(alloc, front_of(message, fault.at)),
        _ => Ok(Vec::new(alloc)),
    }
}

/// Writes these lines, and then the line of the fault.
fn write_both<W: Drain>(writer: &mut W, lines: &[u8], fault: &Fault<'_>) -> Result<(), Failed>
    ensures bytes { AppendsAll (W.contents writer.old) (W.contents writer.new) result
        (lines.now ++ ending_text fault.now) }
    ensures count { W.failures writer.new ≡ failures_after (W.failures writer.old) result }
{
    write_all(writer, lines)?;
    ending_line(fault, writer)
}

/// Writes the lines of what precedes a fault, and the line of the fault.
fn write_faulty<F: Family, W: Drain>(
    alloc: Global,
    writer: &mut W,
    message: &[u8],
    fault: &Fault<'_>,
) -> Result<(), Fault<'static>>
    ensures written { Writes (faulty_text F.family message.now fault.now)
        (W.contents writer.old) (W.contents writer.new) result }
    ensures output { W.failures writer.new ≡ write_failures_after (W.failures writer.old) result }
{
    let Ok(text) = lines_before::<F>(alloc, message, fault) else {
        return Err(Fault::Memory);
    };
    match write_both(writer, &text, fault) {
        Ok(()) => Ok(()),
        Err(Failed) => Err(Fault::Output),
    }
}

/// Whether the fault is refused memory.
fn is_memory_fault(fault: &Fault<'_>) -> bool
    ensures { result ≡ is_memory_fault fault.now }
{
    match fault {
        Fault::Memory => true,
        _ => false,
    }
}

/// Writes what there is of a message whose text isn't made, unless memory was refused. Returns the
/// fault.
fn end_with<F: Family, W: Drain>(
    alloc: Global,
    writer: &mut W,
    message: &[u8],
    fault: Fault<'static>,
) -> Result<u8, Fault<'static>>
    ensures report { (report : Result (List ℕ) Fault) → IsMessageFault report fault.entry
        → PartlyReports F.family message.now report
        (W.contents writer.old) (W.contents writer.new) result }
    ensures status { IfOk result (λ status. status ≡ 0) }
    ensures input_read { (report : Result (List ℕ) Fault) → IsMessageFault report fault.entry
        → (before : ℕ) → before ≡ read_failures_after before result }
    ensures output { (report : Result (List ℕ) Fault) → IsMessageFault report fault.entry
        → W.failures writer.new ≡ write_failures_after (W.failures writer.old) result }
{
    if is_memory_fault(&fault) {
        return Err(Fault::Memory);
    }
    write_faulty::<F, W>(alloc, writer, message, &fault)?;
    Err(fault)
}

/// Writes the text that was made of a message, or what there is of one whose text isn't made.
fn print<F: Family, W: Drain>(
    alloc: Global,
    writer: &mut W,
    message: &[u8],
    made: Result<Vec<u8>, Fault<'static>>,
) -> Result<u8, Fault<'static>>
    ensures report { (report : Result (List ℕ) Fault)
        → GivesReport (λ v. v.items) report made.entry
        → PartlyReports F.family message.now report
        (W.contents writer.old) (W.contents writer.new) result }
    ensures status { IfOk result (λ status. status ≡ 0) }
    ensures input_read { (report : Result (List ℕ) Fault)
        → GivesReport (λ v. v.items) report made.entry
        → (before : ℕ) → before ≡ read_failures_after before result }
    ensures output { (report : Result (List ℕ) Fault)
        → GivesReport (λ v. v.items) report made.entry
        → W.failures writer.new ≡ write_failures_after (W.failures writer.old) result }
{
    match made {
        Ok(text) => match write_all(writer, &text) {
            Ok(()) => Ok(0),
            Err(Failed) => Err(Fault::Output),
        },
        Err(fault) => end_with::<F, W>(alloc, writer, message, fault),
    }
}

/// Reads one message from `src` to `dst`, up to the end of the input, and writes its text as
/// `check_into` does. Returns the status, 0. At most 65,537 bytes are read.
///
/// Of a message with a fault it writes what precedes the first one. For a Join/Prune that is each
/// line that ends by the offset of the fault, for another message nothing. Then comes a line
/// `fault ..` with the words of the fault.
///
/// # Errors
/// - `InputRead`, `InputTooLong` (above 65,536 bytes) and `Memory`: nothing was written.
/// - `Frame`, else `Hello` or `JoinPrune`: the first fault of the message; all those lines were
///   written.
/// - `Output`: a prefix of what was to be written was.
///
/// The count of failures of the reader rises only with `InputRead`, that of the writer only with
/// `Output`.
pub fn check_partial_into<F: Family, R: Feed, W: Drain>(
    alloc: Global,
    reader: &mut R,
    writer: &mut W,
    src: F::Addr,
    dst: F::Addr,
) -> Result<u8, Fault<'static>>
    ensures report { IfSome (R.remaining reader.old) (λ input.
        PartlyReports F.family input
        (input_report F.family (F.bytes_of src) (F.bytes_of dst) input)
        (W.contents writer.old) (W.contents writer.new) result) }
    ensures status { IfOk result (λ status. status ≡ 0) }
    ensures input_read { R.failures reader.new
        ≡ read_failures_after (R.failures reader.old) result }
    ensures output { W.failures writer.new ≡ write_failures_after (W.failures writer.old) result }
    ensures taken { ConsumesAtMost 65537 (R.remaining reader.old) (R.remaining reader.new) }
{
    let input = read_input(alloc, reader)?;
    let made = report::<F>(alloc, src, dst, &input);
    print::<F, W>(alloc, writer, &input, made)
}

/// `check_partial_into` with the addresses of a task of `check --partial`.
///
/// # Errors
/// Those of `check_partial_into`.
pub fn check_partial_task<F: Family, R: Feed, W: Drain>(
    alloc: Global,
    reader: &mut R,
    writer: &mut W,
    task: &Task<'_, F::Addr>,
) -> Result<u8, Fault<'static>>
    requires { IsPartialTask task.now }
    ensures report { IfSome (R.remaining reader.old) (λ input.
        PartlyReports F.family input
        (input_report F.family (task_source F.bytes_of task.now)
        (task_destination F.bytes_of task.now) input)
        (W.contents writer.old) (W.contents writer.new) result) }
    ensures status { IfOk result (λ status. status ≡ 0) }
    ensures input_read { R.failures reader.new
        ≡ read_failures_after (R.failures reader.old) result }
    ensures output { W.failures writer.new ≡ write_failures_after (W.failures writer.old) result }
    ensures taken { ConsumesAtMost 65537 (R.remaining reader.old) (R.remaining reader.new) }
{
    match task {
        Task::CheckPartial { src, dst } => {
            check_partial_into::<F, _, _>(alloc, reader, writer, *src, *dst)
        }
        _ => unreachable!(),
    }
}
