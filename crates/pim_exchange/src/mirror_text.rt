//! The canonical messages of a replay's final state, and the check by a fresh router that hears
//! them.
//!
//! The check compares the fresh router's messages with those it heard, though they are proved to be
//! the same. The contract of the comparison covers any two lists of messages, so a body that
//! doesn't compare is refused.

ghost use Rattle.std.specs.Prelude.{◌≡◌, ◌≤◌, length};
ghost use Rattle.pim_capture.specs.Next.{latest_moment};
ghost use Rattle.pim_merge.specs.Ends.{IsBoundedEnd};
ghost use Rattle.pim_merge.specs.Run.{IsTallied};
ghost use Rattle.pim_exchange.specs.Fault.{failures_of_exchange};
ghost use Rattle.pim_exchange.specs.MirrorText.{DemandsBy, Exchanges, Judges, WritesMirror};

use crate::fault::{ExchangeFault, of_form, of_mirror};
use crate::fresh_hearing::hear_again;
use crate::options::ExchangeOptions;
use pim_addr::{Drain, Family, Feed, write_all};
use pim_form::laws::one_normal_form;
use pim_form::{Messages, Writer};
use pim_merge::Merge;
use pim_replay::replay_quietly;
use pim_report::write_messages;
use pim_router::Router;
use pim_run::RunFault;
use std::alloc::Global;

/// The canonical messages of the router's demand toward the writer's upstream neighbour.
pub(crate) fn demand_of<F: Family>(
    alloc: Global,
    router: &Router<'_, F>,
    by: &Writer<F>,
) -> Result<Messages, ExchangeFault<F::Addr>>
    ensures { DemandsBy F.bytes_of F.family by.now router.now result }
{
    match router.canonical(alloc, by) {
        Ok(messages) => Ok(messages),
        Err(fault) => Err(of_form(fault)),
    }
}

/// The line that says whether the messages are the same.
pub(crate) fn judgement(one: &Messages, other: &Messages) -> &'static [u8]
    ensures { Judges one.now other.now result.now }
{
    if one.same_bytes(other) {
        b"agrees\n"
    } else {
        b"differs\n"
    }
}

/// Writes the canonical messages of the router's demand toward the writer's upstream neighbour.
/// Then it lets a fresh router hear them, and writes whether that router has the same messages.
fn exchange<F: Family, W: Drain>(
    alloc: Global,
    router: &Router<'_, F>,
    by: &Writer<F>,
    limit: usize,
    writer: &mut W,
) -> Result<u8, ExchangeFault<F::Addr>>
    requires least { 1 ≤ limit }
    requires most { limit ≤ 100000 }
    ensures exchanges { Exchanges F.family by.now limit router.now
        F.bytes_of (W.contents writer.old) (W.contents writer.new) result }
    ensures count { W.failures writer.new ≡ failures_of_exchange (W.failures writer.old) result }
{
    one_normal_form();
    let messages = demand_of::<F>(alloc, router, by)?;
    let Ok(()) = write_messages(writer, &messages) else {
        return Err(ExchangeFault::Replay(RunFault::Output));
    };
    let again = match hear_again::<F>(alloc, &messages, by, router.routes(), limit) {
        Ok(again) => again,
        Err(fault) => return Err(of_mirror(fault)),
    };
    let Ok(()) = write_all(writer, judgement(&messages, &again)) else {
        return Err(ExchangeFault::Replay(RunFault::Output));
    };
    Ok(0)
}

/// Replays the captures of a router's ports, one for each port and in their order, up to the end of
/// the run. It writes the canonical messages of the router's demand toward the upstream neighbour
/// of `by`. Each is a line `message LENGTH HEX`, with the length in bytes; a line with their number
/// follows.
///
/// Then a fresh router of one port hears each message once, at moment 0 and in order. It may hold
/// `limit` records and knows no neighbour but the sender. Its canonical messages are compared with
/// those it heard, and `agrees` is written. Returns the status, 0.
///
/// Besides the router, it needs memory for one buffer for each capture and for two copies of the
/// messages. It also needs memory for a router that holds their entries.
///
/// # Errors
/// - A capture's fault and `TooBig`: nothing was written.
/// - `Full`: the entries of all messages exceed `limit`. The lines of the messages and their number
///   were written.
/// - `Output`: a prefix of the text was written.
/// - `Memory`: nothing was written, or everything but `agrees`.
pub fn mirror_into<F: Family, R: Feed + Drop, W: Drain>(
    merge: &mut Merge<R>,
    router: &mut Router<'_, F>,
    options: &ExchangeOptions<'_, F>,
    writer: &mut W,
) -> Result<u8, ExchangeFault<F::Addr>>
    requires ports { length merge.old.lanes ≡ length router.old.ports }
    requires moment { router.old.machines.moment ≤ latest_moment }
    requires end { IsBoundedEnd options.now.end }
    requires least { 1 ≤ options.now.limit }
    requires most { options.now.limit ≤ 100000 }
    ensures text { WritesMirror F.family options.now.end options.now.by.now options.now.limit
        merge.old merge.new router.old router.new
        F.bytes_of (W.contents writer.old) (W.contents writer.new) result }
    ensures count { W.failures writer.new ≡ failures_of_exchange (W.failures writer.old) result }
    // The tallies of the captures after the run are those of the turns that were taken.
    ensures tallied { IsTallied options.now.end merge.old merge.new }
{
    if let Err(fault) = replay_quietly::<F, R>(merge, router, options.end) {
        return Err(ExchangeFault::Replay(fault));
    }
    exchange::<F, W>(options.alloc, router, options.by, options.limit, writer)
}
