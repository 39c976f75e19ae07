//! The messages of the change between the final states of two replays, and the check by a fresh
//! router.
//!
//! The fresh router first mirrors router `a`. It hears the change at its final moment and runs on
//! for its override interval, even if the change has no message. So the moment of comparison is the
//! same for each change. The check compares two lists of messages that are proved to be the same,
//! as `mirror_into` does.

ghost use Rattle.std.specs.Prelude.{◌≡◌, ◌≤◌, IfOk, None, length};
ghost use Rattle.pim_capture.specs.Next.{latest_moment};
ghost use Rattle.pim_merge.specs.Ends.{IsBoundedEnd};
ghost use Rattle.pim_router.specs.Canonical.{IsTooBig};
ghost use Rattle.pim_exchange.specs.ChangeText.{IsChangeBetween, ReportsChange, WritesChange};
ghost use Rattle.pim_exchange.specs.Fault.{failures_of_exchange};

use crate::both::replay_both;
use crate::change_hearing::move_again;
use crate::fault::{ExchangeFault, of_mirror};
use crate::mirror_text::{demand_of, judgement};
use crate::options::ExchangeOptions;
use pim_addr::{Drain, Family, Feed, write_all};
use pim_form::laws::one_normal_form;
use pim_form::{FormFault, Messages, NormalForm, Writer};
use pim_merge::Merge;
use pim_moving::laws::change_fits;
use pim_report::write_messages;
use pim_router::Router;
use pim_run::RunFault;
use std::alloc::{AllocError, Global};

/// The messages that report the change from the demand of one router to that of another. They go to
/// the writer's upstream neighbour, and each star of the demand of `other` must fit a message.
fn change_between<F: Family>(
    alloc: Global,
    one: &Router<'_, F>,
    other: &Router<'_, F>,
    by: &Writer<F>,
) -> Result<Messages, AllocError>
    requires routes { one.now.routes ≡ other.now.routes }
    requires fits { IsTooBig F.family by.now other.now None }
    ensures { IfOk result (IsChangeBetween F.family by.now one.now other.now) }
{
    one_normal_form();
    change_fits();
    let Ok(last) = NormalForm::toward(alloc, one.ports(), one.routes(), by.upstream()) else {
        return Err(AllocError);
    };
    match other.triggered(alloc, &last, by) {
        Ok(change) => Ok(change),
        Err(FormFault::TooBig(_)) => unreachable!(),
        Err(FormFault::Memory | FormFault::Tables) => Err(AllocError),
    }
}

/// Writes the messages of the change. Then it lets the fresh router that heard the messages of the
/// first router hear them, and writes whether it has the messages of the other one.
fn report<F: Family, W: Drain>(
    alloc: Global,
    one: &Router<'_, F>,
    other: &Router<'_, F>,
    by: &Writer<F>,
    limit: usize,
    writer: &mut W,
) -> Result<u8, ExchangeFault<F::Addr>>
    requires routes { one.now.routes ≡ other.now.routes }
    requires least { 1 ≤ limit }
    requires most { limit ≤ 100000 }
    ensures reports { ReportsChange F.family by.now limit one.now other.now
        F.bytes_of (W.contents writer.old) (W.contents writer.new) result }
    ensures count { W.failures writer.new ≡ failures_of_exchange (W.failures writer.old) result }
{
    one_normal_form();
    let before = demand_of::<F>(alloc, one, by)?;
    let wanted = demand_of::<F>(alloc, other, by)?;
    let Ok(change) = change_between::<F>(alloc, one, other, by) else {
        return Err(ExchangeFault::Replay(RunFault::Memory));
    };
    let Ok(()) = write_messages(writer, &change) else {
        return Err(ExchangeFault::Replay(RunFault::Output));
    };
    let again = match move_again::<F>(alloc, &before, &change, by, one.routes(), limit) {
        Ok(again) => again,
        Err(fault) => return Err(of_mirror(fault)),
    };
    let Ok(()) = write_all(writer, judgement(&wanted, &again)) else {
        return Err(ExchangeFault::Replay(RunFault::Output));
    };
    Ok(0)
}

/// Replays the captures of two routers, one for each port, each up to the end of its run. It writes
/// the messages that report the change of demand, from that of router `a` to that of `b`. They go
/// to the upstream neighbour of `by` (RFC 7761, 4.5). Each is a line `message LENGTH HEX`, with the
/// length in bytes; a line with their number follows. Both routers must have one table.
///
/// Then a fresh router of one port hears the canonical messages of `a`, each once, at moment 0 and
/// in order. It may hold `limit` records and knows no neighbour but the sender. At its final moment
/// it hears those of the change, each once and in order, and its override interval passes. Its
/// canonical messages are compared with those of `b`, and `agrees` is written. Returns the status,
/// 0.
///
/// Besides the routers, it needs memory for one buffer for each capture and for a router that holds
/// the entries. It also needs memory for the canonical messages of `a`, two copies of those of `b`,
/// and those of the change.
///
/// # Errors
/// - `Replay` with a fault of a capture of `a`, or else `Second` with one of `b`; then `TooBig` of
///   `a`, or else of `b`: nothing was written.
/// - `Full`: the fresh router has no room for the messages of `a` or for one of the change.
///   `needed` is what the first message without room needed. The lines of the change's messages and
///   their number were written.
/// - `Output`: a prefix of the text was written.
/// - `Memory`: nothing was written, or everything but `agrees`.
pub fn change_into<F: Family, R: Feed + Drop, W: Drain>(
    merge_a: &mut Merge<R>,
    router_a: &mut Router<'_, F>,
    merge_b: &mut Merge<R>,
    router_b: &mut Router<'_, F>,
    options: &ExchangeOptions<'_, F>,
    writer: &mut W,
) -> Result<u8, ExchangeFault<F::Addr>>
    requires ports_a { length merge_a.old.lanes ≡ length router_a.old.ports }
    requires ports_b { length merge_b.old.lanes ≡ length router_b.old.ports }
    requires moment_a { router_a.old.machines.moment ≤ latest_moment }
    requires moment_b { router_b.old.machines.moment ≤ latest_moment }
    requires end { IsBoundedEnd options.now.end }
    requires least { 1 ≤ options.now.limit }
    requires most { options.now.limit ≤ 100000 }
    requires routes { router_a.old.routes ≡ router_b.old.routes }
    ensures text { WritesChange F.family options.now.end options.now.by.now options.now.limit
        merge_a.old merge_a.new router_a.old router_a.new
        merge_b.old merge_b.new router_b.old router_b.new
        F.bytes_of (W.contents writer.old) (W.contents writer.new) result }
    ensures count { W.failures writer.new ≡ failures_of_exchange (W.failures writer.old) result }
{
    replay_both::<F, R>(merge_a, router_a, merge_b, router_b, options.end)?;
    report::<F, W>(
        options.alloc,
        router_a,
        router_b,
        options.by,
        options.limit,
        writer,
    )
}
