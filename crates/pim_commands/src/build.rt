//! The command `build`: it reads the text of a message and writes the bytes of the message.
//!
//! The message is complete before any of it is written. So a part of it remains only after a failed
//! write.

ghost use Rattle.std.specs.Prelude.{◌≡◌, IfOk, IfSome};
ghost use Rattle.pim_device.specs.Device.{ConsumesAtMost};
ghost use Rattle.pim_commands.specs.Building.{Builds, IsBuildTask, built_source, built_destination};
ghost use Rattle.pim_commands.specs.Report.{read_failures_after, write_failures_after};

use pim_addr::{Drain, Failed, Family, Feed, write_all};
use pim_faults::Fault;
use pim_text::{build_message, read_text};
use pim_words::Task;
use std::alloc::Global;

/// Reads the text of a message, up to the end of the input, and writes the bytes of the message
/// from `src` to `dst`. Returns the status, 0. At most 8,454,144 bytes are read. The bytes and the
/// faults are promised for a reader whose bytes are known.
///
/// # Errors
/// The first of these that holds, and `Memory` in place of any:
/// - `InputRead` and `TextTooLong` (a text above 8,388,608 bytes).
/// - `TextLine`: the text states no message.
/// - `TextFamily`: an address of the text isn't of the family.
/// - `TextTooLong`: the message has more than 65,536 bytes.
/// - `Frame`, else `Hello` or `JoinPrune`: the fault that `check_into` returns for the message.
/// - `Output`: a prefix of the message was written. With each other fault nothing was written.
///
/// The count of failures of the reader rises only with `InputRead`, that of the writer only with
/// `Output`.
pub fn build_into<F: Family, R: Feed, W: Drain>(
    alloc: Global,
    reader: &mut R,
    writer: &mut W,
    src: F::Addr,
    dst: F::Addr,
) -> Result<u8, Fault<'static>>
    ensures builds { IfSome (R.remaining reader.old) (λ input.
        Builds F.family (F.bytes_of src) (F.bytes_of dst) input (W.contents writer.old)
        (W.contents writer.new) result) }
    ensures status { IfOk result (λ status. status ≡ 0) }
    ensures input_read { R.failures reader.new
        ≡ read_failures_after (R.failures reader.old) result }
    ensures output { W.failures writer.new ≡ write_failures_after (W.failures writer.old) result }
    ensures taken { ConsumesAtMost 8454144 (R.remaining reader.old) (R.remaining reader.new) }
{
    let text = read_text(alloc, reader)?;
    let message = build_message::<F>(alloc, src, dst, &text)?;
    match write_all(writer, &message) {
        Ok(()) => Ok(0),
        Err(Failed) => Err(Fault::Output),
    }
}

/// `build_into` with the addresses of a task of `build`.
///
/// # Errors
/// Those of `build_into`.
pub fn build_task<F: Family, R: Feed, W: Drain>(
    alloc: Global,
    reader: &mut R,
    writer: &mut W,
    task: &Task<'_, F::Addr>,
) -> Result<u8, Fault<'static>>
    requires { IsBuildTask task.now }
    ensures builds { IfSome (R.remaining reader.old) (λ input.
        Builds F.family (built_source F.bytes_of task.now) (built_destination F.bytes_of task.now)
        input
        (W.contents writer.old) (W.contents writer.new) result) }
    ensures status { IfOk result (λ status. status ≡ 0) }
    ensures input_read { R.failures reader.new
        ≡ read_failures_after (R.failures reader.old) result }
    ensures output { W.failures writer.new ≡ write_failures_after (W.failures writer.old) result }
    ensures taken { ConsumesAtMost 8454144 (R.remaining reader.old) (R.remaining reader.new) }
{
    match task {
        Task::Build { src, dst } => build_into::<F, _, _>(alloc, reader, writer, *src, *dst),
        _ => unreachable!(),
    }
}
