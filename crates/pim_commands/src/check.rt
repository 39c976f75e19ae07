//! The command `check`: it reads one message and prints it.
//!
//! The text is complete before any of it is written. So a part of it remains only after a failed
//! write.

ghost use Rattle.std.specs.Prelude.{◌≡◌, ◌≤◌, length, IfOk, IfSome, IfErr, vec_len};
ghost use Rattle.pim_device.specs.Device.{ConsumesAtMost};
ghost use Rattle.pim_frame.specs.Frame.{hello, join_prune, content};
ghost use Rattle.pim_hello.specs.Seen.{hello_seen};
ghost use Rattle.pim_text.specs.HelloText.{hello_text};
ghost use Rattle.pim_text.specs.Read.{States};
ghost use Rattle.pim_text.specs.Value.{hello_in};
ghost use Rattle.pim_commands.specs.Ends.{IsCheckTask, task_source, task_destination};
ghost use Rattle.pim_commands.specs.Report.{body_report, hello_report, message_report};
ghost use Rattle.pim_commands.specs.Report.{input_report, IsStated, Reports, GivesReport};
ghost use Rattle.pim_commands.specs.Report.{GivesInput, IsReadFault};
ghost use Rattle.pim_commands.specs.Report.{read_failures_after, write_failures_after};

use pim_addr::{Drain, Failed, Family, Feed, read_up_to, write_all};
use pim_faults::Fault;
use pim_frame::{Body, open};
use pim_hello::Hello;
use pim_jp::JpView;
use pim_text::laws::message_text_states;
use pim_text::{hello_text, hello_text_states_it, message_text, type_text};
use pim_words::Task;
use std::alloc::Global;

/// The most bytes of an input.
const INPUT_LIMIT: usize = 65_536;

/// A buffer of `length` bytes.
fn blank(alloc: Global, length: usize) -> Result<Vec<u8>, Fault<'static>>
    ensures length { IfOk result (λ buffer. vec_len buffer ≡ length) }
    ensures memory { IfErr result (λ fault. fault ≡ Fault.Memory) }
{
    vec![in alloc; 0u8; length].map_err(|_| Fault::Memory)
}

/// Reads the input to its end, or one byte more than an input may have.
pub(crate) fn read_input<R: Feed>(alloc: Global, reader: &mut R) -> Result<Vec<u8>, Fault<'static>>
    ensures input { IfSome (R.remaining reader.old) (λ all. GivesInput (λ v. v.items) all result) }
    ensures causes { IfErr result IsReadFault }
    ensures failed { R.failures reader.new ≡ read_failures_after (R.failures reader.old) result }
    ensures taken { ConsumesAtMost 65537 (R.remaining reader.old) (R.remaining reader.new) }
    ensures small { IfOk result (λ input. length input.items ≤ 65536) }
{
    let mut input = blank(alloc, INPUT_LIMIT + 1)?;
    let Ok(length) = read_up_to(reader, &mut input) else {
        return Err(Fault::InputRead);
    };
    if length > INPUT_LIMIT {
        return Err(Fault::InputTooLong);
    }
    input.truncate(length);
    Ok(input)
}

/// The text of the body of a Join/Prune message, or its first fault.
#[tactic(auto, using(crate::proofs::Reports::told_fault, crate::proofs::Reports::written_text))]
fn report_join_prune<F: Family>(alloc: Global, body: &[u8]) -> Result<Vec<u8>, Fault<'static>>
    ensures report { GivesReport (λ v. v.items) (body_report F.family body.now) result }
    ensures states { IfOk result (λ text. IsStated F.family (join_prune body.now)) }
{
    message_text_states();
    match JpView::<F>::read(body) {
        Ok(message) => {
            message.is_legal();
            message_text(alloc, &message).map_err(|_| Fault::Memory)
        }
        Err(fault) => Err(Fault::JoinPrune(fault)),
    }
}

/// Writes the text of a Hello.
fn text_of_hello<F: Family>(alloc: Global, hello: &Hello<'_, F>) -> Result<Vec<u8>, Fault<'static>>
    ensures text { IfOk result (λ text. text.items
        ≡ hello_text F.family (hello_seen F.family hello.now)) }
    ensures memory { IfErr result (λ fault. fault ≡ Fault.Memory) }
    ensures states { States (hello_text F.family (hello_seen F.family hello.now))
        (hello_in F.family (hello_seen F.family hello.now)) }
{
    hello_text_states_it(hello);
    match hello_text(alloc, hello) {
        Ok(text) => Ok(text),
        Err(_) => Err(Fault::Memory),
    }
}

/// The text of the body of a Hello, or its first fault.
#[tactic(auto, using(crate::proofs::Reports::told_hello_fault, crate::proofs::Reports::told_hello))]
fn report_hello<F: Family>(alloc: Global, body: &[u8]) -> Result<Vec<u8>, Fault<'static>>
    ensures report { GivesReport (λ v. v.items) (hello_report F.family body.now) result }
    ensures states { IfOk result (λ text. IsStated F.family (hello body.now)) }
{
    match Hello::<F>::read(body) {
        Ok(hello) => text_of_hello(alloc, &hello),
        Err(fault) => Err(Fault::Hello(fault)),
    }
}

/// The text of a message, or its first fault.
#[tactic(auto, using(crate::proofs::Reports::framed_body, crate::proofs::Reports::framed_hello))]
pub(crate) fn report<F: Family>(
    alloc: Global,
    src: F::Addr,
    dst: F::Addr,
    message: &[u8],
) -> Result<Vec<u8>, Fault<'static>>
    requires { length message.now ≤ 65536 }
    ensures report { GivesReport (λ v. v.items)
        (message_report F.family (F.bytes_of src) (F.bytes_of dst) message.now) result }
    ensures states { IfOk result (λ text. IsStated F.family (content message.now)) }
{
    match open::<F>(src, dst, message) {
        Err(fault) => Err(Fault::Frame(fault)),
        Ok(Body::Hello(body)) => report_hello::<F>(alloc, body),
        Ok(Body::JoinPrune(body)) => report_join_prune::<F>(alloc, body),
        Ok(Body::Other(kind)) => type_text(alloc, kind).map_err(|_| Fault::Memory),
    }
}

/// Reads one message from `src` to `dst`, up to the end of the input, and writes its text. Returns
/// the status, 0. At most 65,537 bytes are read: the last one shows that the input is too long.
/// The text and the faults are promised for a reader whose bytes are known. The text of a Hello or
/// a Join/Prune message states that message, so `build_into` reads it as that message.
///
/// # Errors
/// - `InputRead`, `InputTooLong` (above 65,536 bytes) and `Memory`: nothing was written.
/// - `Frame`, else `Hello` or `JoinPrune`: the first fault of the message; nothing was written.
/// - `Output`: a prefix of the text was written.
///
/// The count of failures of the reader rises only with `InputRead`, that of the writer only with
/// `Output`.
pub fn check_into<F: Family, R: Feed, W: Drain>(
    alloc: Global,
    reader: &mut R,
    writer: &mut W,
    src: F::Addr,
    dst: F::Addr,
) -> Result<u8, Fault<'static>>
    ensures report { IfSome (R.remaining reader.old) (λ input.
        Reports (input_report F.family (F.bytes_of src) (F.bytes_of dst) input)
        (W.contents writer.old) (W.contents writer.new) result) }
    ensures states { IfOk result
        (λ status. IfSome (R.remaining reader.old) (λ input. IsStated F.family (content input))) }
    ensures status { IfOk result (λ status. status ≡ 0) }
    ensures input_read { R.failures reader.new
        ≡ read_failures_after (R.failures reader.old) result }
    ensures output { W.failures writer.new ≡ write_failures_after (W.failures writer.old) result }
    ensures taken { ConsumesAtMost 65537 (R.remaining reader.old) (R.remaining reader.new) }
{
    let input = read_input(alloc, reader)?;
    let text = report::<F>(alloc, src, dst, &input)?;
    match write_all(writer, &text) {
        Ok(()) => Ok(0),
        Err(Failed) => Err(Fault::Output),
    }
}

/// `check_into` with the addresses of a task of `check`.
///
/// # Errors
/// Those of `check_into`.
pub fn check_task<F: Family, R: Feed, W: Drain>(
    alloc: Global,
    reader: &mut R,
    writer: &mut W,
    task: &Task<'_, F::Addr>,
) -> Result<u8, Fault<'static>>
    requires { IsCheckTask task.now }
    ensures report { IfSome (R.remaining reader.old) (λ input.
        Reports
        (input_report F.family (task_source F.bytes_of task.now)
        (task_destination F.bytes_of task.now) input)
        (W.contents writer.old) (W.contents writer.new) result) }
    ensures states { IfOk result
        (λ status. IfSome (R.remaining reader.old) (λ input. IsStated F.family (content input))) }
    ensures status { IfOk result (λ status. status ≡ 0) }
    ensures input_read { R.failures reader.new
        ≡ read_failures_after (R.failures reader.old) result }
    ensures output { W.failures writer.new ≡ write_failures_after (W.failures writer.old) result }
    ensures taken { ConsumesAtMost 65537 (R.remaining reader.old) (R.remaining reader.new) }
{
    match task {
        Task::Check { src, dst } => check_into::<F, _, _>(alloc, reader, writer, *src, *dst),
        _ => unreachable!(),
    }
}
