//! A message that a port of the router takes.

ghost use Rattle.std.specs.Prelude.{◌≡◌, ◌≤◌, ◌<◌, ◌^◌, length, IfOk, OnOk};
ghost use Rattle.pim_addr.specs.Routes.{rp_of};
ghost use Rattle.pim_router.specs.Reading.{reading_seen, read_received};
ghost use Rattle.pim_router.specs.State.{setup_of};
ghost use Rattle.pim_audit.specs.Audited.{has_neighbour, with_asked};
ghost use Rattle.pim_audit.specs.Holding.{HoldsOutside, RouterStays};
ghost use Rattle.pim_audit.specs.Taking.{lost_by, lost, HearsOrRefuses, TakesMessage};
ghost use Rattle.pim_audit.specs.Touched.{Grows, OthersStay, TouchesReading};

use crate::audit::{Audit, has_neighbour};
use crate::touched::Touched;
use crate::tracked::TrackedAudit;
use pim_addr::{Family, Routes};
use pim_down::laws::hearing_acts_at_each_key;
use pim_down::{HearFault, Ports};
use pim_hello::Heard;
use pim_jp::JpView;
use pim_router::{PimMessage, Router, Verdict};
use std::alloc::{AllocError, Global};

/// What a message does to what the upstream neighbour was asked for.
#[derive(Clone, Copy, Debug, PartialEq, Eq)]
pub(crate) enum Effect {
    /// Nothing.
    Unchanged,
    /// The neighbour heard a Join/Prune message.
    Heard,
    /// A Join/Prune message needs this many records, more than the limit. It was refused whole.
    Full {
        /// How many records it needs with those that are held.
        needed: usize,
    },
    /// The neighbour restarted, and lost what it was asked.
    Restarted,
    /// The neighbour said goodbye, and lost what it was asked.
    Gone,
}

/// What a verdict on a Hello of the upstream neighbour says of what it was asked. `still` says
/// whether it is a neighbour on some port.
fn lost_by(verdict: Verdict, still: bool) -> Option<Effect>
    ensures { result ≡ lost_by verdict still }
{
    match verdict {
        Verdict::HelloTaken(Heard::Restarted) => Some(Effect::Restarted),
        Verdict::HelloTaken(Heard::Gone) if !still => Some(Effect::Gone),
        _ => None,
    }
}

/// What a message of this source says of what the upstream neighbour was asked.
fn lost<F: Family>(
    audit: &Audit<'_, F>,
    router: &Router<'_, F>,
    src: F::Addr,
    verdict: Verdict,
) -> Option<Effect>
    ensures { result ≡ lost (F.bytes_of src) audit.now verdict router.now }
{
    if src != audit.upstream() {
        return None;
    }
    lost_by(verdict, has_neighbour::<F>(router, audit.upstream()))
}

/// Lets the upstream neighbour hear a Join/Prune message, or refuse it.
fn hear_or_refuse<F: Family>(
    tracked: &mut TrackedAudit<'_, F>,
    message: &JpView<'_, F>,
    routes: &Routes<F>,
) -> Result<Effect, AllocError>
    requires { tracked.old.audit.asked.moment ≤ 10 ^ 15 }
    ensures effect { IfOk result (λ effect. HearsOrRefuses message.now
        (rp_of F.family routes.now) tracked.old.audit effect tracked.new.audit) }
    ensures present { tracked.new.audit.asked.moment ≡ tracked.old.audit.asked.moment }
    ensures rest { tracked.new.audit ≡ with_asked tracked.old.audit tracked.new.audit.asked }
    ensures stays { OthersStay tracked.new.touched tracked.old.audit.asked
        tracked.new.audit.asked }
    ensures grows { Grows tracked.old.touched tracked.new.touched }
{
    match tracked.audit.hear(message, routes, &mut tracked.touched) {
        Ok(()) => Ok(Effect::Heard),
        Err(HearFault::Full { needed }) => Ok(Effect::Full { needed }),
        Err(HearFault::Memory) => Err(AllocError),
    }
}

/// Touches the machines that a message may change, if it is a Join/Prune. The port has not heard it
/// yet.
fn touch_read<F: Family>(
    touched: &mut Touched<F>,
    ports: &Ports<F>,
    port: usize,
    message: &PimMessage<'_, F>,
)
    ensures touches { TouchesReading port (reading_seen F.family message.now) ports.now
        touched.new }
    ensures grows { Grows touched.old touched.new }
{
    match message {
        PimMessage::JoinPrune(message) => touched.touch_message(ports, port, message),
        PimMessage::Hello(_) | PimMessage::Other(_) | PimMessage::Malformed(_) => {}
    }
}

/// Lets a port of the router take a message. Touches the machines that the message may change, and
/// all if the upstream neighbour becomes a neighbour or goes.
///
/// # Errors
/// Memory was refused.
fn take_message<F: Family>(
    router: &mut Router<'_, F>,
    port: usize,
    src: F::Addr,
    message: &PimMessage<'_, F>,
    upstream: F::Addr,
    touched: &mut Touched<F>,
) -> Result<Verdict, AllocError>
    requires port { port < length router.old.ports }
    ensures received { IfOk result (λ verdict. (verdict, router.new)
        ≡ read_received F.family port (F.bytes_of src) router.old
        (reading_seen F.family message.now)) }
    ensures stays { OnOk result
        (RouterStays touched.new (F.bytes_of upstream) router.old router.new) }
    ensures grows { Grows touched.old touched.new }
    ensures moment { router.new.machines.moment ≡ router.old.machines.moment }
    ensures setup { setup_of router.new ≡ setup_of router.old }
{
    router.ports().is_sound();
    hearing_acts_at_each_key();
    let was_neighbour = has_neighbour::<F>(router, upstream);
    touch_read::<F>(touched, router.ports(), port, message);
    let verdict = router.take_read(port, src, message)?;
    if has_neighbour::<F>(router, upstream) != was_neighbour {
        touched.touch_all();
    }
    Ok(verdict)
}

/// Lets a port of the router take a message from this source, and the audit follow. No look comes.
///
/// # Errors
/// Memory was refused.
pub(crate) fn take<F: Family>(
    alloc: Global,
    tracked: &mut TrackedAudit<'_, F>,
    router: &mut Router<'_, F>,
    port: usize,
    src: F::Addr,
    message: &PimMessage<'_, F>,
) -> Result<Effect, AllocError>
    requires holds { HoldsOutside F.family tracked.old.touched tracked.old.audit router.old }
    requires port { port < length router.old.ports }
    requires present { tracked.old.audit.asked.moment ≤ 10 ^ 15 }
    ensures takes { IfOk result (λ effect. TakesMessage F.family port (F.bytes_of src)
        (reading_seen F.family message.now) tracked.old.audit router.old effect
        tracked.new.audit router.new) }
    ensures step { tracked.new.audit.asked.moment ≡ tracked.old.audit.asked.moment }
    ensures moment { router.new.machines.moment ≡ router.old.machines.moment }
    ensures setup { setup_of router.new ≡ setup_of router.old }
    ensures holds { OnOk result
        (HoldsOutside F.family tracked.new.touched tracked.new.audit router.new) }
{
    let upstream = tracked.audit.upstream();
    let heard = match message {
        PimMessage::JoinPrune(message) if tracked.audit.hears(router, port, src, message) => {
            Some(message)
        }
        _ => None,
    };
    let verdict = take_message::<F>(router, port, src, message, upstream, &mut tracked.touched)?;
    if let Some(effect) = lost::<F>(&tracked.audit, router, src, verdict) {
        tracked.audit.forget(alloc, &mut tracked.touched);
        return Ok(effect);
    }
    match heard {
        Some(message) => hear_or_refuse::<F>(tracked, message, router.routes()),
        None => Ok(Effect::Unchanged),
    }
}
