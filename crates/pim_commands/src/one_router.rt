//! The commands over the captures of one router.
//!
//! All files are opened before any record is read. So a fault of opening comes before all output.

ghost use Rattle.std.specs.Prelude.{◌≡◌, ◌≤◌, List, [], length};
ghost use Rattle.pim_capture.specs.Next.{latest_moment};
ghost use Rattle.pim_local.specs.Joins.{Join};
ghost use Rattle.pim_commands.specs.Report.{write_failures_after};
ghost use Rattle.pim_faults.specs.Ending.{IsReported};
ghost use Rattle.pim_exchange.specs.Fault.{failures_of_exchange};
ghost use Rattle.pim_words.specs.Plan.{AreNames, IsBounded, IsLimited, IsWritable};
ghost use Rattle.pim_commands.specs.Commands.{engine_of, engine_seen, upstream_of, Fits};
ghost use Rattle.pim_commands.specs.Engines.{of_replayed, of_traced, Does};
ghost use Rattle.pim_commands.specs.Engines.{RunsBy, RunsOne};
ghost use Rattle.pim_commands.specs.Opening.{AuditsFiles, EmitsFiles, MirrorsFiles, ReplaysFiles};
ghost use Rattle.pim_commands.specs.Opening.{OneRuns, TracesFiles};
ghost use Rattle.pim_commands.specs.declared.one_router.OneRouter.TheVariants.{Report};

use crate::answers::answer_of;
use crate::auditing::{AuditWords, audit_by};
use crate::opening::open_one;
use crate::routers::{configs, end_of, router_of, writer_of};
use crate::shown::{ShownNames, shown_names};
use crate::tracing::trace_by;
use pim_addr::{Drain, Family, Feed, Routes};
use pim_exchange::{ExchangeFault, ExchangeOptions, emit_into, mirror_into};
use pim_faults::Fault;
use pim_files::Opener;
use pim_form::Writer;
use pim_local::LocalJoins;
use pim_merge::Merge;
use pim_replay::replay_into;
use pim_router::Router;
use pim_run::RunFault;
use pim_warnings::{begin_census, warn_of_one};
use pim_words::{Auditing, Captures, Tracing, Writing};
use std::alloc::Global;

/// What a command does with the captures of one router, and the words for it.
#[derive(Clone, Copy)]
pub(crate) enum OneRouter<'t, A> {
    /// It writes the report of the replay.
    Report,
    /// It prints the events that these words ask for.
    Trace(&'t Tracing<'t, A>),
    /// It prints the audit that these words ask for.
    Audit(AuditWords<'t, A>),
    /// It writes the canonical messages of this writer as text.
    Mirror(&'t Writing<A>),
    /// It writes them as bytes.
    Emit(&'t Writing<A>),
}

/// The same, with what was made of the words.
#[derive(Clone, Copy)]
enum Made<'t, F: Family> {
    /// The report.
    Report,
    /// The trace, with the names that its lines have.
    Trace(&'t ShownNames, &'t Tracing<'t, F::Addr>),
    /// The audit, with the names that its lines have, and what local receivers have joined.
    Audit(&'t ShownNames, AuditWords<'t, F::Addr>, &'t LocalJoins<F>),
    /// The messages as text.
    Mirror(&'t Writer<F>),
    /// The messages as bytes.
    Emit(&'t Writer<F>),
}

/// The report of these captures.
fn report<'t, A>(_captures: &'t Captures<'_, A>) -> OneRouter<'t, A>
    ensures { result ≡ Report }
{
    OneRouter::Report
}

/// The upstream neighbour that a command names.
fn upstream_of<A: Copy>(command: OneRouter<'_, A>) -> Option<A>
    ensures { result ≡ upstream_of command.entry }
{
    match command {
        OneRouter::Report | OneRouter::Trace(_) => None,
        OneRouter::Audit(words) => Some(words.auditing.upstream),
        OneRouter::Mirror(writing) => Some(writing.upstream),
        OneRouter::Emit(writing) => Some(writing.upstream),
    }
}

/// The result of a replay or an audit, as one of any engine.
fn of_replayed<A>(reported: Result<u8, RunFault>) -> Result<u8, ExchangeFault<A>>
    ensures { result ≡ of_replayed reported }
{
    match reported {
        Ok(status) => Ok(status),
        Err(fault) => Err(ExchangeFault::Replay(fault)),
    }
}

/// The result of a trace, as one of any engine.
fn of_traced<A>(reported: Result<(), RunFault>) -> Result<u8, ExchangeFault<A>>
    ensures { result ≡ of_traced reported }
{
    match reported {
        Ok(()) => Ok(0),
        Err(fault) => Err(ExchangeFault::Replay(fault)),
    }
}

/// Lets the engine of a command lead a router over its captures.
fn lead<F: Family, R: Feed + Drop, W: Drain>(
    alloc: Global,
    captures: &Captures<'_, F::Addr>,
    made: Made<'_, F>,
    merge: &mut Merge<R>,
    router: &mut Router<'_, F>,
    writer: &mut W,
) -> Result<u8, ExchangeFault<F::Addr>>
    requires after { IsBounded captures.now }
    requires limit { IsLimited captures.now }
    requires ports { length merge.old.lanes ≡ length router.old.ports }
    requires moment { router.old.machines.moment ≤ latest_moment }
    requires new { router.old.machines.moment ≡ 0 }
    ensures does { Does F.family F.bytes_of captures.now
        (engine_seen F.family F.bytes_of made.entry)
        merge.old merge.new router.old (W.contents writer.old) (W.contents writer.new)
        router.new result }
    ensures count { W.failures writer.new ≡ failures_of_exchange (W.failures writer.old) result }
{
    let end = end_of(captures);
    match made {
        Made::Report => {
            let via = captures.routes.is_some();
            of_replayed(replay_into::<F, R, W>(alloc, merge, router, end, via, writer))
        }
        Made::Trace(names, tracing) => {
            let requested = (captures, tracing);
            of_traced(trace_by::<F, R, W>(alloc, requested, names, merge, router, writer))
        }
        Made::Audit(names, words, local) => {
            let requested = (captures, words, local);
            of_replayed(audit_by::<F, R, W>(alloc, requested, names, merge, router, writer))
        }
        Made::Mirror(by) => {
            let options = ExchangeOptions {
                alloc,
                end,
                by,
                limit: captures.limit,
            };
            mirror_into::<F, R, W>(merge, router, &options, writer)
        }
        Made::Emit(by) => emit_into::<F, R, W>(alloc, merge, router, end, by, writer),
    }
}

/// Makes the router of the words, and lets the engine lead it.
///
/// # Errors
/// Those of the engine. If the router can't be made, the result is its first fault or `Memory`.
/// Then nothing was written, and no capture was read.
fn run_made<'a, F: Family, R: Feed + Drop, W: Drain>(
    alloc: Global,
    captures: &Captures<'a, F::Addr>,
    made: Made<'_, F>,
    routes: &Routes<F>,
    merge: &mut Merge<R>,
    writer: &mut W,
) -> Result<u8, Fault<'a>>
    requires after { IsBounded captures.now }
    requires limit { IsLimited captures.now }
    requires ports { length merge.old.lanes ≡ length captures.now.ports.items }
    ensures runs { RunsBy F.family F.bytes_of captures.now []
        (engine_seen F.family F.bytes_of made.entry) routes.now merge.old merge.new
        (W.contents writer.old) (W.contents writer.new) result }
    ensures count { W.failures writer.new ≡ write_failures_after (W.failures writer.old) result }
{
    let Ok(ports) = configs(alloc, &captures.ports, None) else {
        return Err(Fault::Memory);
    };
    let mut router = match router_of::<F>(alloc, &ports, routes, captures.limit) {
        Ok(router) => router,
        Err(fault) => return Err(fault),
    };
    let reported = lead::<F, R, W>(alloc, captures, made, merge, &mut router, writer);
    answer_of::<F>(captures, None, None, reported)
}

/// Runs a command over the captures of a new router, with this table and these local joins.
///
/// # Errors
/// Those of the engine. If the writer or the router can't be made, the result is the first fault of
/// the writer, then of the router, or it is `Memory`. Then nothing was written, and no capture was
/// read.
fn run_command<'a, 't, F: Family, R: Feed + Drop, W: Drain>(
    alloc: Global,
    captures: &Captures<'a, F::Addr>,
    command: OneRouter<'t, F::Addr>,
    tables: (&'t Routes<F>, &'t LocalJoins<F>),
    merge: &mut Merge<R>,
    writer: &mut W,
) -> Result<u8, Fault<'a>>
    requires after { IsBounded captures.now }
    requires limit { IsLimited captures.now }
    requires fits { Fits captures.now command }
    requires ports { length merge.old.lanes ≡ length captures.now.ports.items }
    ensures runs { RunsOne F.family F.bytes_of captures.now
        (engine_of F.family F.bytes_of captures.now command.entry tables.entry.1.now)
        tables.entry.0.now
        merge.old merge.new (W.contents writer.old) (W.contents writer.new) result }
    ensures count { W.failures writer.new ≡ write_failures_after (W.failures writer.old) result }
{
    let (routes, local) = tables;
    match command {
        OneRouter::Report => {
            let made: Made<'t, F> = Made::Report;
            run_made::<F, R, W>(alloc, captures, made, routes, merge, writer)
        }
        OneRouter::Trace(tracing) => match shown_names(alloc, captures, tracing) {
            Ok(names) => {
                let made = Made::Trace(&names, tracing);
                run_made::<F, R, W>(alloc, captures, made, routes, merge, writer)
            }
            Err(_) => Err(Fault::Memory),
        },
        OneRouter::Audit(words) => match shown_names(alloc, captures, words.tracing) {
            Ok(names) => {
                let made = Made::Audit(&names, words, local);
                run_made::<F, R, W>(alloc, captures, made, routes, merge, writer)
            }
            Err(_) => Err(Fault::Memory),
        },
        OneRouter::Mirror(writing) => match writer_of::<F>(writing) {
            Ok(by) => {
                run_made::<F, R, W>(alloc, captures, Made::Mirror(&by), routes, merge, writer)
            }
            Err(fault) => Err(fault),
        },
        OneRouter::Emit(writing) => match writer_of::<F>(writing) {
            Ok(by) => run_made::<F, R, W>(alloc, captures, Made::Emit(&by), routes, merge, writer),
            Err(fault) => Err(fault),
        },
    }
}

/// Opens the files that the words name, and this file of local joins if one is named. Runs the
/// command over them, and writes the warnings on the captures.
///
/// # Errors
/// The fault of the first file that isn't open, or those of the command.
fn run_one<'a, F: Family, O: Opener, W: Drain, E: Drain>(
    alloc: Global,
    opener: &mut O,
    files: (&Captures<'a, F::Addr>, Option<&'a str>),
    command: OneRouter<'_, F::Addr>,
    writer: &mut W,
    errors: &mut E,
) -> Result<u8, Fault<'a>>
    requires after { IsBounded files.0.now }
    requires limit { IsLimited files.0.now }
    requires fits { Fits files.0.now command }
    ensures runs { OneRuns F.family F.bytes_of O.Reader.remaining O.Reader.failures
        (O.known opener.old) (O.known opener.new) files.entry.0.now
        (upstream_of command.entry) files.entry.1
        (engine_of F.family F.bytes_of files.entry.0.now command.entry)
        (λ text. IsReported text (E.contents errors.old) (E.contents errors.new)
        (E.failures errors.old) (E.failures errors.new))
        (W.contents writer.old) (W.contents writer.new) result }
    ensures count { W.failures writer.new ≡ write_failures_after (W.failures writer.old) result }
{
    let (captures, local) = files;
    let mut opened = match open_one::<F, O>(alloc, opener, captures, upstream_of(command), local) {
        Ok(opened) => opened,
        Err(fault) => return Err(fault),
    };
    begin_census::<F, _>(captures, None, &mut opened.merge);
    let tables = (&opened.routes, &opened.local);
    let merge = &mut opened.merge;
    let answer = run_command::<F, _, W>(alloc, captures, command, tables, merge, writer);
    let is_whole = answer.is_ok();
    warn_of_one::<F, E, _>(errors, captures, &opened.routes, &opened.merge, is_whole);
    answer
}

/// Replays the captures that the words name, and writes the report. It reads the file of routes
/// first, then opens all captures, then reads records. The report names upstream neighbours if
/// there is a file of routes. Returns the status, 0.
///
/// # Errors
/// `File` of a file that can't be opened, or a fault of the file of routes: nothing was written.
/// Otherwise those of `pim_replay::replay_into` and of making the router.
pub fn replay<'a, F: Family, O: Opener, W: Drain, E: Drain>(
    alloc: Global,
    opener: &mut O,
    captures: &Captures<'a, F::Addr>,
    writer: &mut W,
    errors: &mut E,
) -> Result<u8, Fault<'a>>
    requires after { IsBounded captures.now }
    requires limit { IsLimited captures.now }
    ensures report { ReplaysFiles F.family F.bytes_of O.Reader.remaining O.Reader.failures
        (O.known opener.old) (O.known opener.new) captures.now
        (λ text. IsReported text (E.contents errors.old) (E.contents errors.new)
        (E.failures errors.old) (E.failures errors.new))
        (W.contents writer.old) (W.contents writer.new) result }
    ensures count { W.failures writer.new ≡ write_failures_after (W.failures writer.old) result }
{
    let command = report::<F::Addr>(captures);
    run_one::<F, O, W, E>(alloc, opener, (captures, None), command, writer, errors)
}

/// Traces the captures that the words name, and prints the events that are shown. It opens files as
/// `replay` does. Returns the status, 0.
///
/// # Errors
/// `File` of a file that can't be opened, or a fault of the file of routes: nothing was written.
/// Otherwise those of `pim_trace::trace_into`, or of `trace_state_into`, and of making the router.
pub fn trace<'a, F: Family, O: Opener, W: Drain, E: Drain>(
    alloc: Global,
    opener: &mut O,
    captures: &Captures<'a, F::Addr>,
    tracing: &Tracing<'a, F::Addr>,
    writer: &mut W,
    errors: &mut E,
) -> Result<u8, Fault<'a>>
    requires after { IsBounded captures.now }
    requires limit { IsLimited captures.now }
    requires names { AreNames captures.now tracing.now }
    ensures events { TracesFiles F.family F.bytes_of O.Reader.remaining O.Reader.failures
        (O.known opener.old) (O.known opener.new) captures.now tracing.now
        (λ text. IsReported text (E.contents errors.old) (E.contents errors.new)
        (E.failures errors.old) (E.failures errors.new))
        (W.contents writer.old) (W.contents writer.new) result }
    ensures count { W.failures writer.new ≡ write_failures_after (W.failures writer.old) result }
{
    let command = OneRouter::Trace(tracing);
    run_one::<F, O, W, E>(alloc, opener, (captures, None), command, writer, errors)
}

/// Audits what a router asks of its upstream neighbour, by the captures that the words name, and
/// prints the lines that are shown. It opens files as `replay` does, and reads a file of local
/// joins after that of routes. Without a file of routes, the table leads all addresses to the
/// upstream neighbour. Returns the status: 1 if something was late, otherwise 0.
///
/// # Errors
/// `File` of a file that can't be opened, or a fault of the file of routes or of local joins:
/// nothing was written. Otherwise those of `pim_audit::audit_into` and of making the router.
pub fn audit<'a, 't, F: Family, O: Opener, W: Drain, E: Drain>(
    alloc: Global,
    opener: &mut O,
    captures: &Captures<'a, F::Addr>,
    words: (&'t Auditing<'a, F::Addr>, &'t Tracing<'a, F::Addr>),
    writer: &mut W,
    errors: &mut E,
) -> Result<u8, Fault<'a>>
    requires after { IsBounded captures.now }
    requires limit { IsLimited captures.now }
    requires names { AreNames captures.now words.1.now }
    ensures lines { AuditsFiles F.family F.bytes_of O.Reader.remaining O.Reader.failures
        (O.known opener.old) (O.known opener.new) captures.now words.entry.0.now
        words.entry.1.now
        (λ text. IsReported text (E.contents errors.old) (E.contents errors.new)
        (E.failures errors.old) (E.failures errors.new))
        (W.contents writer.old) (W.contents writer.new) result }
    ensures count { W.failures writer.new ≡ write_failures_after (W.failures writer.old) result }
{
    let (auditing, tracing) = words;
    let local = auditing.local;
    let command = OneRouter::Audit(AuditWords { auditing, tracing });
    run_one::<F, O, W, E>(alloc, opener, (captures, local), command, writer, errors)
}

/// Replays the captures that the words name, and writes the canonical messages of the demand toward
/// the upstream neighbour. A fresh router hears them, and `agrees` is written if it then has the
/// same messages. It opens files as `replay` does. Without a file of routes, the table leads all
/// addresses to the upstream neighbour. Returns the status, 0.
///
/// # Errors
/// `File` of a file that can't be opened, or a fault of the file of routes: nothing was written.
/// Otherwise those of `pim_exchange::mirror_into`, and of making the writer and the router.
pub fn mirror<'a, F: Family, O: Opener, W: Drain, E: Drain>(
    alloc: Global,
    opener: &mut O,
    captures: &Captures<'a, F::Addr>,
    writing: &Writing<F::Addr>,
    writer: &mut W,
    errors: &mut E,
) -> Result<u8, Fault<'a>>
    requires after { IsBounded captures.now }
    requires limit { IsLimited captures.now }
    requires writing { IsWritable writing.now }
    ensures text { MirrorsFiles F.family F.bytes_of O.Reader.remaining O.Reader.failures
        (O.known opener.old) (O.known opener.new) captures.now writing.now
        (λ text. IsReported text (E.contents errors.old) (E.contents errors.new)
        (E.failures errors.old) (E.failures errors.new))
        (W.contents writer.old) (W.contents writer.new) result }
    ensures count { W.failures writer.new ≡ write_failures_after (W.failures writer.old) result }
{
    let command = OneRouter::Mirror(writing);
    run_one::<F, O, W, E>(alloc, opener, (captures, None), command, writer, errors)
}

/// Writes the same messages as `mirror`, as bytes. Two bytes with the length, big-endian, precede
/// each message. Returns the status, 0.
///
/// # Errors
/// `File` of a file that can't be opened, or a fault of the file of routes: nothing was written.
/// Otherwise those of `pim_exchange::emit_into`, and of making the writer and the router.
pub fn emit<'a, F: Family, O: Opener, W: Drain, E: Drain>(
    alloc: Global,
    opener: &mut O,
    captures: &Captures<'a, F::Addr>,
    writing: &Writing<F::Addr>,
    writer: &mut W,
    errors: &mut E,
) -> Result<u8, Fault<'a>>
    requires after { IsBounded captures.now }
    requires limit { IsLimited captures.now }
    requires writing { IsWritable writing.now }
    ensures bytes { EmitsFiles F.family F.bytes_of O.Reader.remaining O.Reader.failures
        (O.known opener.old) (O.known opener.new) captures.now writing.now
        (λ text. IsReported text (E.contents errors.old) (E.contents errors.new)
        (E.failures errors.old) (E.failures errors.new))
        (W.contents writer.old) (W.contents writer.new) result }
    ensures count { W.failures writer.new ≡ write_failures_after (W.failures writer.old) result }
{
    let command = OneRouter::Emit(writing);
    run_one::<F, O, W, E>(alloc, opener, (captures, None), command, writer, errors)
}
