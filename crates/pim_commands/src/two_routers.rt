//! The commands over the captures of two routers.

ghost use Rattle.std.specs.Prelude.{◌≡◌, length, filter};
ghost use Rattle.pim_commands.specs.Report.{write_failures_after};
ghost use Rattle.pim_faults.specs.Ending.{IsReported};
ghost use Rattle.pim_words.specs.Faults.{is_of};
ghost use Rattle.pim_words.specs.Plan.{IsBounded, IsLimited, IsWritable};
ghost use Rattle.pim_commands.specs.Engines.{RunsBoth};
ghost use Rattle.pim_commands.specs.Opening.{BothRun, ChangesFiles, ComparesFiles};
ghost use Rattle.pim_commands.specs.Routers.{writing_of};

use crate::answers::answer_of;
use crate::opening::open_two;
use crate::routers::{configs, end_of, router_of, writer_of};
use pim_addr::{Drain, Family, Feed, Routes};
use pim_exchange::{ExchangeOptions, change_into, same_into};
use pim_faults::Fault;
use pim_files::{Opener, Pair};
use pim_warnings::{begin_both, warn_of_both};
use pim_words::{Captures, RouterSide, Writing};
use std::alloc::Global;

/// What a command does with the captures of two routers.
#[derive(Clone, Copy)]
pub(crate) enum TwoRouters {
    /// It writes whether both want the same.
    Same,
    /// It writes the messages of the change from the one to the other.
    Change,
}

/// Runs a command over the captures of two new routers, with this writer.
///
/// # Errors
/// Those of the engine. If the writer or a router can't be made, the result is the first fault of
/// the writer, then of router a, then of b, or it is `Memory`. Then nothing was written, and no
/// capture was read.
fn run_command<'a, F: Family, R: Feed + Drop, W: Drain>(
    alloc: Global,
    captures: &Captures<'a, F::Addr>,
    requested: (TwoRouters, &Writing<F::Addr>),
    routes: &Routes<F>,
    pair: &mut Pair<R>,
    writer: &mut W,
) -> Result<u8, Fault<'a>>
    requires after { IsBounded captures.now }
    requires limit { IsLimited captures.now }
    requires writing { IsWritable requested.1.now }
    requires a { length pair.old.a.lanes
        ≡ length (filter (is_of RouterSide.A) captures.now.ports.items) }
    requires b { length pair.old.b.lanes
        ≡ length (filter (is_of RouterSide.B) captures.now.ports.items) }
    ensures runs { RunsBoth F.family F.bytes_of captures.now requested.entry.0
        (writing_of F.bytes_of requested.entry.1.now) routes.now
        pair.old.a pair.new.a pair.old.b pair.new.b
        (W.contents writer.old) (W.contents writer.new) result }
    ensures count { W.failures writer.new ≡ write_failures_after (W.failures writer.old) result }
{
    let (command, writing) = requested;
    let (end, limit) = (end_of(captures), captures.limit);
    let by = match writer_of::<F>(writing) {
        Ok(by) => by,
        Err(fault) => return Err(fault),
    };
    let Ok(ports_a) = configs(alloc, &captures.ports, Some(RouterSide::A)) else {
        return Err(Fault::Memory);
    };
    let Ok(ports_b) = configs(alloc, &captures.ports, Some(RouterSide::B)) else {
        return Err(Fault::Memory);
    };
    let mut a = match router_of::<F>(alloc, &ports_a, routes, limit) {
        Ok(router) => router,
        Err(fault) => return Err(fault),
    };
    let mut b = match router_of::<F>(alloc, &ports_b, routes, limit) {
        Ok(router) => router,
        Err(fault) => return Err(fault),
    };
    let options = ExchangeOptions {
        alloc,
        end,
        by: &by,
        limit,
    };
    let of_a = &mut pair.a;
    let of_b = &mut pair.b;
    match command {
        TwoRouters::Same => {
            let reported = same_into::<F, R, W>(of_a, &mut a, of_b, &mut b, &options, writer);
            answer_of::<F>(captures, Some(RouterSide::A), Some(RouterSide::B), reported)
        }
        TwoRouters::Change => {
            let reported = change_into::<F, R, W>(of_a, &mut a, of_b, &mut b, &options, writer);
            answer_of::<F>(captures, Some(RouterSide::A), Some(RouterSide::B), reported)
        }
    }
}

/// Opens the files that the words name, runs the command over them, and writes the warnings on the
/// captures.
///
/// # Errors
/// The fault of the first file that isn't open, or those of the command.
fn run_two<'a, F: Family, O: Opener, W: Drain, E: Drain>(
    alloc: Global,
    opener: &mut O,
    captures: &Captures<'a, F::Addr>,
    requested: (TwoRouters, &Writing<F::Addr>),
    writer: &mut W,
    errors: &mut E,
) -> Result<u8, Fault<'a>>
    requires after { IsBounded captures.now }
    requires limit { IsLimited captures.now }
    requires writing { IsWritable requested.1.now }
    ensures runs { BothRun F.family F.bytes_of O.Reader.remaining O.Reader.failures
        (O.known opener.old)
        (O.known opener.new) captures.now requested.entry.0 requested.entry.1.now
        (λ text. IsReported text (E.contents errors.old) (E.contents errors.new)
        (E.failures errors.old) (E.failures errors.new))
        (W.contents writer.old) (W.contents writer.new) result }
    ensures count { W.failures writer.new ≡ write_failures_after (W.failures writer.old) result }
{
    let mut files = match open_two::<F, O>(alloc, opener, captures, Some(requested.1.upstream)) {
        Ok(files) => files,
        Err(fault) => return Err(fault),
    };
    begin_both::<F, _>(captures, &mut files.pair);
    let pair = &mut files.pair;
    let answer = run_command::<F, _, W>(alloc, captures, requested, &files.routes, pair, writer);
    let is_whole = answer.is_ok();
    warn_of_both::<F, E, _>(errors, captures, &files.routes, &files.pair, is_whole);
    answer
}

/// Replays the captures of two routers that the words name. It writes whether both want the same of
/// the upstream neighbour: `same`, with the status 0, or `different`, with the status 1. It opens
/// files as `mirror` does.
///
/// # Errors
/// `File` of a file that can't be opened, or a fault of the file of routes: nothing was written.
/// Otherwise those of `pim_exchange::same_into`, and of making the writer and the routers.
pub fn same<'a, F: Family, O: Opener, W: Drain, E: Drain>(
    alloc: Global,
    opener: &mut O,
    captures: &Captures<'a, F::Addr>,
    writing: &Writing<F::Addr>,
    writer: &mut W,
    errors: &mut E,
) -> Result<u8, Fault<'a>>
    requires after { IsBounded captures.now }
    requires limit { IsLimited captures.now }
    requires writing { IsWritable writing.now }
    ensures report { ComparesFiles F.family F.bytes_of O.Reader.remaining O.Reader.failures
        (O.known opener.old) (O.known opener.new) captures.now writing.now
        (λ text. IsReported text (E.contents errors.old) (E.contents errors.new)
        (E.failures errors.old) (E.failures errors.new))
        (W.contents writer.old) (W.contents writer.new) result }
    ensures count { W.failures writer.new ≡ write_failures_after (W.failures writer.old) result }
{
    let requested = (TwoRouters::Same, writing);
    run_two::<F, O, W, E>(alloc, opener, captures, requested, writer, errors)
}

/// Replays the captures of two routers that the words name. It writes the messages that move the
/// upstream neighbour from the demand of router a to that of b. A fresh router hears the messages
/// of a and then these, and `agrees` is written if it then has the messages of b. It opens files as
/// `mirror` does. Returns the status, 0.
///
/// # Errors
/// `File` of a file that can't be opened, or a fault of the file of routes: nothing was written.
/// Otherwise those of `pim_exchange::change_into`, and of making the writer and the routers.
pub fn change<'a, F: Family, O: Opener, W: Drain, E: Drain>(
    alloc: Global,
    opener: &mut O,
    captures: &Captures<'a, F::Addr>,
    writing: &Writing<F::Addr>,
    writer: &mut W,
    errors: &mut E,
) -> Result<u8, Fault<'a>>
    requires after { IsBounded captures.now }
    requires limit { IsLimited captures.now }
    requires writing { IsWritable writing.now }
    ensures text { ChangesFiles F.family F.bytes_of O.Reader.remaining O.Reader.failures
        (O.known opener.old) (O.known opener.new) captures.now writing.now
        (λ text. IsReported text (E.contents errors.old) (E.contents errors.new)
        (E.failures errors.old) (E.failures errors.new))
        (W.contents writer.old) (W.contents writer.new) result }
    ensures count { W.failures writer.new ≡ write_failures_after (W.failures writer.old) result }
{
    let requested = (TwoRouters::Change, writing);
    run_two::<F, O, W, E>(alloc, opener, captures, requested, writer, errors)
}
