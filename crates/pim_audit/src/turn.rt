//! A turn of an audit.

ghost use Rattle.std.specs.Prelude.{◌≡◌, ◌≤◌, ◌<◌, ◌^◌, length, max, option_map, IfOk, OnOk};
ghost use Rattle.pim_router.specs.State.{setup_of};
ghost use Rattle.pim_audit.specs.Holding.{HoldsOutside};
ghost use Rattle.pim_audit.specs.Turn.{received_seen, TakesIfAny, TakesTurn};

use crate::look::Report;
use crate::passing::{Ended, pass_time};
use crate::taking::{Effect, take};
use crate::tracked::TrackedAudit;
use pim_addr::Family;
use pim_router::{PimMessage, Router};
use std::alloc::{AllocError, Global};

/// A message of a record.
#[derive(Drop)]
pub(crate) struct Received<'b, F: Family> {
    /// The IP source.
    pub(crate) source: F::Addr,
    /// What the message reads as.
    pub(crate) message: PimMessage<'b, F>,
}

/// What a turn reports, in the order of its members.
#[derive(Drop)]
pub(crate) struct TurnReport<A> {
    /// The ends on the way to the moment, in order of time.
    pub(crate) ended: Vec<Ended<A>>,
    /// The look before the message.
    pub(crate) before: Report<A>,
    /// What the message did.
    pub(crate) effect: Effect,
    /// The look after the message.
    pub(crate) after: Report<A>,
}

/// Lets a port of the router take the message of a record, if it has one, and the audit follow.
fn take_if_any<F: Family>(
    alloc: Global,
    tracked: &mut TrackedAudit<'_, F>,
    router: &mut Router<'_, F>,
    port: usize,
    received: &Option<Received<'_, F>>,
) -> Result<Effect, AllocError>
    requires holds { HoldsOutside F.family tracked.old.touched tracked.old.audit router.old }
    requires port { port < length router.old.ports }
    requires present { tracked.old.audit.asked.moment ≤ 10 ^ 15 }
    ensures takes { IfOk result (λ effect. TakesIfAny F.family port
        (option_map (received_seen F.family F.bytes_of) received.now)
        tracked.old.audit router.old effect tracked.new.audit router.new) }
    ensures step { tracked.new.audit.asked.moment ≡ tracked.old.audit.asked.moment }
    ensures moment { router.new.machines.moment ≡ router.old.machines.moment }
    ensures setup { setup_of router.new ≡ setup_of router.old }
    ensures holds { OnOk result
        (HoldsOutside F.family tracked.new.touched tracked.new.audit router.new) }
{
    match received {
        None => Ok(Effect::Unchanged),
        Some(received) => {
            let (source, message) = (received.source, &received.message);
            take::<F>(alloc, tracked, router, port, source, message)
        }
    }
}

/// Takes a turn: lets time pass up to the moment of a record, at most 10^15 milliseconds, and
/// looks. Then a port of the router takes the message of the record, if it has one, and a look
/// follows.
///
/// # Errors
/// Memory was refused: some first part of the turn was done.
pub(crate) fn take_turn<F: Family>(
    alloc: Global,
    tracked: &mut TrackedAudit<'_, F>,
    router: &mut Router<'_, F>,
    moment: u64,
    port: usize,
    received: &Option<Received<'_, F>>,
) -> Result<TurnReport<F::Addr>, AllocError>
    requires holds { HoldsOutside F.family tracked.old.touched tracked.old.audit router.old }
    requires port { port < length router.old.ports }
    requires moment { moment ≤ 10 ^ 15 }
    requires step { tracked.old.audit.asked.moment ≡ router.old.machines.moment }
    requires present { router.old.machines.moment ≤ 10 ^ 15 }
    ensures turn { IfOk result (λ report. TakesTurn F.family F.bytes_of moment port
        (option_map (received_seen F.family F.bytes_of) received.now)
        tracked.old.audit router.old report tracked.new.audit router.new) }
    ensures step { OnOk result (tracked.new.audit.asked.moment ≡ router.new.machines.moment) }
    ensures reached { OnOk result
        (router.new.machines.moment ≡ max router.old.machines.moment moment) }
    ensures setup { setup_of router.new ≡ setup_of router.old }
    ensures holds { OnOk result
        (HoldsOutside F.family tracked.new.touched tracked.new.audit router.new) }
{
    let mut ended = Vec::new(alloc);
    pass_time::<F>(alloc, tracked, router, moment, &mut ended)?;
    let before = tracked.look(alloc, router)?;
    let effect = take_if_any::<F>(alloc, tracked, router, port, received)?;
    let after = tracked.look(alloc, router)?;
    Ok(TurnReport {
        ended,
        before,
        effect,
        after,
    })
}
