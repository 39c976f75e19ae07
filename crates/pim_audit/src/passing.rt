//! Time that passes for a router and for what its upstream neighbour was asked for.

ghost use Rattle.std.specs.Prelude.{◌≡◌, ◌≤◌, ◌^◌, max, IfOk, OnOk};
ghost use Rattle.pim_hello.specs.Neighbours.{sooner};
ghost use Rattle.pim_router.specs.State.{setup_of};
ghost use Rattle.pim_audit.specs.Holding.{HoldsOutside, RouterStays};
ghost use Rattle.pim_audit.specs.Passing.{HappensTo, IsNextEnd, IsQuiet, is_gone};
ghost use Rattle.pim_audit.specs.Seen.{report_seen};
ghost use Rattle.pim_audit.specs.Steps.{PassesStep, PassesAll, ReachesBy};
ghost use Rattle.pim_audit.specs.Touched.{Grows, OthersStay};

use crate::audit::{Audit, has_neighbour};
use crate::look::Report;
use crate::touched::Touched;
use crate::tracked::TrackedAudit;
use pim_addr::Family;
use pim_router::Router;
use pim_router::laws::{firing_passes, happening_goes_on, the_ended_go_at_first_timeout};
use std::alloc::{AllocError, Global};

/// What happens when time passes for an audit.
#[derive(Drop)]
enum Passed<A> {
    /// The moment is reached, and nothing ended on the way.
    Reached,
    /// The time of a timer or of a neighbour ended, and a look followed.
    Ended(Ended<A>),
}

/// An end of a time, and the look that followed.
#[derive(Drop)]
pub(crate) struct Ended<A> {
    /// Its moment, in milliseconds.
    pub(crate) moment: u64,
    /// Whether the upstream neighbour is gone, and so forgot what it was asked.
    pub(crate) is_gone: bool,
    /// What the look reports.
    pub(crate) report: Report<A>,
}

/// The sooner of two moments; `None` is never.
fn sooner(a: Option<u64>, b: Option<u64>) -> Option<u64>
    ensures { result ≡ sooner a b }
{
    match (a, b) {
        (Some(a), Some(b)) => Some(a.min(b)),
        (a, None) => a,
        (None, b) => b,
    }
}

/// Lets time pass for the router up to this moment, in milliseconds, at most 10^15. An earlier
/// moment counts as the present one. Each timer on the way fires, through PruneEchoes and
/// refreshes, and neighbours go. Touches the machines of these timers.
fn fire_router<F: Family>(router: &mut Router<'_, F>, moment: u64, touched: &mut Touched<F>)
    requires { moment ≤ 10 ^ 15 }
    ensures happens { HappensTo moment router.old router.new }
    ensures stays { OthersStay touched.new router.old.machines router.new.machines }
    ensures grows { Grows touched.old touched.new }
    ensures moment { router.new.machines.moment ≡ max router.old.machines.moment moment }
    ensures setup { setup_of router.new ≡ setup_of router.old }
{
    firing_passes();
    happening_goes_on();
    while let Some(firing) = router.fire_to(moment) {
        touched.touch(firing.before.key.group, firing.before.key.what);
    }
}

/// The same. If this upstream neighbour goes, it touches all machines. Returns whether it goes.
fn pass_router<F: Family>(
    router: &mut Router<'_, F>,
    moment: u64,
    upstream: F::Addr,
    touched: &mut Touched<F>,
) -> bool
    requires { moment ≤ 10 ^ 15 }
    ensures gone { result ≡ is_gone (F.bytes_of upstream) router.old router.new }
    ensures happens { HappensTo moment router.old router.new }
    ensures stays { RouterStays touched.new (F.bytes_of upstream) router.old router.new }
    ensures grows { Grows touched.old touched.new }
    ensures moment { router.new.machines.moment ≡ max router.old.machines.moment moment }
    ensures setup { setup_of router.new ≡ setup_of router.old }
{
    let was_neighbour = has_neighbour::<F>(router, upstream);
    fire_router::<F>(router, moment, touched);
    let is_neighbour = has_neighbour::<F>(router, upstream);
    if is_neighbour != was_neighbour {
        touched.touch_all();
    }
    was_neighbour && !is_neighbour
}

/// The next moment, from the present one on, at which a timer or the time of a neighbour ends;
/// `None` if none ever does.
fn next_end<F: Family>(audit: &Audit<'_, F>, router: &Router<'_, F>) -> Option<u64>
    ensures { IsNextEnd audit.now router.now result }
{
    let of_router = sooner(router.ports().next_due(), router.next_timeout());
    sooner(of_router, audit.next_due())
}

/// Lets time pass for the router and the audit up to the next end of a timer or of a neighbour's
/// time, and looks. If no end comes by this moment, time passes up to it. The moment is at most
/// 10^15 milliseconds.
///
/// # Errors
/// Memory was refused: time has passed for both, but no look followed.
fn pass<F: Family>(
    alloc: Global,
    tracked: &mut TrackedAudit<'_, F>,
    router: &mut Router<'_, F>,
    moment: u64,
) -> Result<Passed<F::Addr>, AllocError>
    requires holds { HoldsOutside F.family tracked.old.touched tracked.old.audit router.old }
    requires moment { moment ≤ 10 ^ 15 }
    requires step { tracked.old.audit.asked.moment ≡ router.old.machines.moment }
    requires present { router.old.machines.moment ≤ 10 ^ 15 }
    ensures passed { IfOk result (λ passed. PassesStep F.family F.bytes_of moment
        tracked.old.audit router.old passed tracked.new.audit router.new) }
    ensures quiet { IfOk result (λ _. IsQuiet tracked.new.audit router.new) }
    ensures reached { IfOk result (λ passed. ReachesBy moment router.old router.new passed) }
    ensures later { router.old.machines.moment ≤ router.new.machines.moment }
    ensures present { router.new.machines.moment ≤ 10 ^ 15 }
    ensures step { tracked.new.audit.asked.moment ≡ router.new.machines.moment }
    ensures setup { setup_of router.new ≡ setup_of router.old }
    ensures holds { IfOk result (λ _.
        HoldsOutside F.family tracked.new.touched tracked.new.audit router.new) }
{
    let upstream = tracked.audit.upstream();
    let end = match next_end::<F>(&tracked.audit, router) {
        Some(end) if end <= moment => end,
        _ => {
            let _gone = pass_router::<F>(router, moment, upstream, &mut tracked.touched);
            tracked.audit.pass_to(moment, &mut tracked.touched);
            return Ok(Passed::Reached);
        }
    };
    let is_gone = pass_router::<F>(router, end, upstream, &mut tracked.touched);
    tracked.audit.pass_to(end, &mut tracked.touched);
    if is_gone {
        tracked.audit.forget(alloc, &mut tracked.touched);
    }
    let report = tracked.look(alloc, router)?;
    Ok(Passed::Ended(Ended {
        moment: end,
        is_gone,
        report,
    }))
}

/// Lets time pass for the router and the audit up to this moment, at most 10^15 milliseconds. A
/// look follows each end of a timer or of a neighbour's time. Adds these ends to `ended` in order
/// of time.
///
/// # Errors
/// Memory was refused: time has passed up to some moment, and `ended` has some first ends.
pub(crate) fn pass_time<F: Family>(
    alloc: Global,
    tracked: &mut TrackedAudit<'_, F>,
    router: &mut Router<'_, F>,
    moment: u64,
    ended: &mut Vec<Ended<F::Addr>>,
) -> Result<(), AllocError>
    requires holds { HoldsOutside F.family tracked.old.touched tracked.old.audit router.old }
    requires moment { moment ≤ 10 ^ 15 }
    requires step { tracked.old.audit.asked.moment ≡ router.old.machines.moment }
    requires present { router.old.machines.moment ≤ 10 ^ 15 }
    ensures passed { OnOk result (PassesAll F.family F.bytes_of moment ended.old.items
        tracked.old.audit router.old ended.new.items tracked.new.audit router.new) }
    ensures step { tracked.new.audit.asked.moment ≡ router.new.machines.moment }
    ensures reached { OnOk result
        (router.new.machines.moment ≡ max router.old.machines.moment moment) }
    ensures setup { setup_of router.new ≡ setup_of router.old }
    ensures holds { OnOk result
        (HoldsOutside F.family tracked.new.touched tracked.new.audit router.new) }
{
    the_ended_go_at_first_timeout();
    let mut passed = pass::<F>(alloc, tracked, router, moment)?;
    while let Passed::Ended(this) = passed {
        router.is_router();
        ended.push(this)?;
        passed = pass::<F>(alloc, tracked, router, moment)?;
    }
    Ok(())
}
