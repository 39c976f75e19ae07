//! The comparison of two routers after their replays: whether they want the same of an upstream
//! neighbour.
//!
//! Only the demand toward the writer's upstream neighbour counts. If the table leads every address
//! to that neighbour, this is the whole demand, as far as groups have an RP.

ghost use Rattle.std.specs.Prelude.{◌≡◌, ◌≤◌, length};
ghost use Rattle.pim_capture.specs.Next.{latest_moment};
ghost use Rattle.pim_merge.specs.Ends.{IsBoundedEnd};
ghost use Rattle.pim_exchange.specs.Fault.{failures_of_exchange};
ghost use Rattle.pim_exchange.specs.Same.{Compares, ComparesRouters, answer_status};

use crate::both::replay_both;
use crate::fault::{ExchangeFault, of_form};
use crate::options::ExchangeOptions;
use pim_addr::{Drain, Family, Feed, write_all};
use pim_form::Writer;
use pim_merge::Merge;
use pim_report::same_line;
use pim_router::{Router, same_wants};
use pim_run::RunFault;
use std::alloc::Global;

/// The status of the result.
fn answer_status(same: bool) -> u8
    ensures { result ≡ answer_status same }
{
    if same { 0 } else { 1 }
}

/// Writes whether two routers want the same of the writer's upstream neighbour, and returns the
/// status.
fn compare<F: Family, W: Drain>(
    alloc: Global,
    a: &Router<'_, F>,
    b: &Router<'_, F>,
    by: &Writer<F>,
    writer: &mut W,
) -> Result<u8, ExchangeFault<F::Addr>>
    requires { a.now.routes ≡ b.now.routes }
    ensures compares { ComparesRouters F.family by.now a.now b.now
        F.bytes_of (W.contents writer.old) (W.contents writer.new) result }
    ensures count { W.failures writer.new ≡ failures_of_exchange (W.failures writer.old) result }
{
    let same = match same_wants::<F>(alloc, a, b, by) {
        Ok(same) => same,
        Err(fault) => return Err(of_form(fault)),
    };
    let Ok(()) = write_all(writer, same_line(same)) else {
        return Err(ExchangeFault::Replay(RunFault::Output));
    };
    Ok(answer_status(same))
}

/// Replays the captures of two routers, one for each port, each up to the end of its run. It writes
/// whether the routers then want the same of the upstream neighbour of `by`, for each valid source,
/// each group and both trees. The line is `same`, with the status 0 as the result, or `different`,
/// with the status 1. Both routers must have one table.
///
/// Besides the routers, it needs memory for one buffer for each capture, and at the end that of
/// `same_wants`.
///
/// # Errors
/// - `Replay` with a fault of a capture of `a`, or else `Second` with one of `b`; then `TooBig` of
///   `a`, or else of `b`: nothing was written.
/// - `Memory` if memory is refused: nothing was written.
/// - `Output` if the device fails: a prefix of the line was written.
pub fn same_into<F: Family, R: Feed + Drop, W: Drain>(
    merge_a: &mut Merge<R>,
    router_a: &mut Router<'_, F>,
    merge_b: &mut Merge<R>,
    router_b: &mut Router<'_, F>,
    options: &ExchangeOptions<'_, F>,
    writer: &mut W,
) -> Result<u8, ExchangeFault<F::Addr>>
    requires ports_a { length merge_a.old.lanes ≡ length router_a.old.ports }
    requires ports_b { length merge_b.old.lanes ≡ length router_b.old.ports }
    requires moment_a { router_a.old.machines.moment ≤ latest_moment }
    requires moment_b { router_b.old.machines.moment ≤ latest_moment }
    requires end { IsBoundedEnd options.now.end }
    requires routes { router_a.old.routes ≡ router_b.old.routes }
    ensures compares { Compares F.family options.now.end options.now.by.now
        merge_a.old merge_a.new router_a.old router_a.new
        merge_b.old merge_b.new router_b.old router_b.new
        F.bytes_of (W.contents writer.old) (W.contents writer.new) result }
    ensures count { W.failures writer.new ≡ failures_of_exchange (W.failures writer.old) result }
{
    replay_both::<F, R>(merge_a, router_a, merge_b, router_b, options.end)?;
    compare::<F, W>(options.alloc, router_a, router_b, options.by, writer)
}
