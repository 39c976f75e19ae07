//! The course of a fresh router over one sender's messages.

ghost use Rattle.std.specs.Prelude.{◌≡◌, ◌<◌, ◌≤◌, ◌^◌, ◌↔◌, IsTrue, nat_lt, [], ◌∷◌, ◌++◌, length};
ghost use Rattle.std.specs.Prelude.{map};
ghost use Rattle.std.specs.Prelude.{slice_index_or, OnErr, IfErr};
ghost use Rattle.std.specs.List.{AllByRecursion, flat_map};
ghost use Rattle.pim_frame.specs.Frame.{all_routers};
ghost use Rattle.pim_router.specs.Course.{runs_to, takes};
ghost use Rattle.pim_mirror.specs.Config.{fresh_seen, delivery_seen};
ghost use Rattle.pim_mirror.specs.Fits.{Fits};
ghost use Rattle.pim_mirror.specs.Mirror.{Mirrors, Passes, delivery_inputs, HasReached, StopsAt};
ghost use Rattle.pim_mirror.specs.Mirror.{delivery_packet, IsRefused};
ghost use Rattle.pim_mirror.specs.Mirror.{needed_by, outcome_of, is_reached};
ghost use Rattle.pim_mirror.specs.MirrorResult.{StandsInTheWindow, HoldsTheRecords, WantsTheDemand};
ghost use Rattle.pim_mirror.specs.MirrorResult.{WritesTheMessages, HasNoEcho, KnowsTheWriter};
ghost use Rattle.pim_mirror.specs.MirrorResult.{HadRoom, HadNoRoom};
ghost use Rattle.pim_mirror.specs.Tests.{AreEarly};

use crate::config::{Delivery, FreshConfig};
use crate::fresh::end_of;
use crate::headline_laws::mirror_answers_for_the_form;
use crate::meeting::introduced;
use pim_addr::Family;
use pim_down::Step;
use pim_form::{Messages, Writer};
use pim_frame::all_routers;
use pim_router::laws::{course_goes_on, every_list_has_a_course};
use pim_router::{Router, Store, Verdict};
use std::alloc::{AllocError, Global};
use thiserror::Error;

/// Why there is no mirror.
#[derive(Clone, Copy, Debug, PartialEq, Eq, Error)]
pub enum MirrorFault {
    /// A message has no room: the port would need more records than its limit.
    #[error("full {needed}")]
    Full {
        /// The records that the first such message needed: those of the port, and those that it
        /// would make.
        needed: usize,
    },
    /// Memory was refused.
    #[error("memory")]
    Memory,
}

/// The number of records that a Join/Prune message needed which had no room; none for any other
/// verdict.
fn needed_by(verdict: Verdict) -> Option<usize>
    ensures { result ≡ needed_by verdict }
{
    let Verdict::Full(store) = verdict else {
        return None;
    };
    match store {
        Store::Neighbours => None,
        Store::Records { needed } => Some(needed),
    }
}

/// The result for the mirror of a verdict: an error where a message had no room, or memory was
/// refused.
fn passed(verdict: Result<Verdict, AllocError>) -> Result<(), MirrorFault>
    ensures { result ≡ outcome_of verdict }
{
    let Ok(verdict) = verdict else {
        return Err(MirrorFault::Memory);
    };
    match needed_by(verdict) {
        None => Ok(()),
        Some(needed) => Err(MirrorFault::Full { needed }),
    }
}

/// Lets the router receive a packet on its only port.
fn take<F: Family>(
    router: &mut Router<'_, F>,
    source: F::Addr,
    bytes: &[u8],
) -> Result<(), MirrorFault>
    requires port { length router.old.ports ≡ 1 }
    requires bytes { length bytes.now < 2 ^ 32 }
    ensures ports { router.new.ports ≡ router.old.ports }
    ensures passes { Passes F.family (takes (record {
      port = 0;
      source = F.bytes_of source;
      destination = all_routers F.family;
      bytes = bytes.now;
    }) ∷ []) router.old result router.new }
    ensures unchanged { OnErr result (router.new ≡ router.old) }
    ensures refused { IfErr result (IsRefused F.family (record {
      port = 0;
      source = F.bytes_of source;
      destination = all_routers F.family;
      bytes = bytes.now;
    }) router.old) }
{
    passed(router.take_packet(0, source, all_routers::<F>(), bytes))
}

/// Whether nothing is due and the moment is reached.
fn is_reached<A: Drop>(step: Step<A>) -> bool
    ensures { result ≡ is_reached step }
{
    matches!(step, Step::Reached)
}

/// Runs to a moment until nothing is due.
fn reach<F: Family>(router: &mut Router<'_, F>, moment: u64)
    requires { moment ≤ 10 ^ 15 }
    ensures ports { router.new.ports ≡ router.old.ports }
    ensures reaches { HasReached moment router.old router.new }
{
    loop {
        let (step, _refreshes) = router.run_past_refreshes(moment);
        if is_reached(step) {
            return;
        }
    }
}

/// The bytes of the message with this number; none where there is no such message.
fn message_at(messages: &Messages, message: usize) -> &[u8]
    requires small { AllByRecursion (λ message. length message < 2 ^ 32) messages.now }
    ensures bytes { result.now ≡ slice_index_or messages.now message [] }
    ensures small { length result.now < 2 ^ 32 }
{
    match messages.get(message) {
        Some(bytes) => bytes,
        None => &[],
    }
}

/// Whether the message with this number has fewer than 2^32 bytes; true where there is no such
/// message.
fn is_short_at(messages: &Messages, message: usize) -> bool
    ensures { result ≡ nat_lt (length (slice_index_or messages.now message [])) (2 ^ 32) }
{
    match messages.get(message) {
        Some(bytes) => bytes.len() < 0x1_0000_0000,
        None => true,
    }
}

/// Whether each message has fewer than 2^32 bytes, as `mirror` and `hear_deliveries` require.
/// Canonical messages do.
pub fn are_short(messages: &Messages) -> bool
    ensures { IsTrue result ↔ AllByRecursion (λ message. length message < 2 ^ 32) messages.now }
{
    for message in 0..messages.count() {
        if !is_short_at(messages, message) {
            return false;
        }
    }
    true
}

/// Lets the router hear a delivery at its moment.
fn hear_one<F: Family>(
    router: &mut Router<'_, F>,
    messages: &Messages,
    sender: F::Addr,
    delivery: Delivery,
) -> Result<(), MirrorFault>
    requires port { length router.old.ports ≡ 1 }
    requires small { AllByRecursion (λ message. length message < 2 ^ 32) messages.now }
    requires early { delivery.moment ≤ 10 ^ 14 }
    ensures ports { router.new.ports ≡ router.old.ports }
    ensures passes { Passes F.family (delivery_inputs F.family messages.now (F.bytes_of sender)
        (delivery_seen delivery)) router.old result router.new }
    ensures reaches { OnErr result (HasReached delivery.moment router.old router.new) }
    ensures refused { IfErr result (IsRefused F.family
        (delivery_packet F.family messages.now (F.bytes_of sender) (delivery_seen delivery))
        router.new) }
{
    every_list_has_a_course();
    course_goes_on();
    reach(router, delivery.moment);
    take(router, sender, message_at(messages, delivery.message))
}

/// Lets the router hear the deliveries, each at its moment.
fn hear<F: Family>(
    router: &mut Router<'_, F>,
    messages: &Messages,
    sender: F::Addr,
    deliveries: &[Delivery],
) -> Result<(), MirrorFault>
    requires port { length router.old.ports ≡ 1 }
    requires small { AllByRecursion (λ message. length message < 2 ^ 32) messages.now }
    requires early { AreEarly (map delivery_seen deliveries.now) }
    ensures ports { router.new.ports ≡ router.old.ports }
    ensures passes { Passes F.family
        (flat_map (delivery_inputs F.family messages.now (F.bytes_of sender))
        (map delivery_seen deliveries.now)) router.old result router.new }
    ensures stops { IfErr result (λ why. StopsAt F.family messages.now (F.bytes_of sender)
        (map delivery_seen deliveries.now) router.old why router.new) }
{
    every_list_has_a_course();
    course_goes_on();
    for delivery in deliveries {
        hear_one(router, messages, sender, *delivery)?;
    }
    Ok(())
}

/// Lets a router of one port hear deliveries of these messages from a sender, in the order of the
/// list. Then it goes on to a last moment. It runs to each moment until nothing is due; a moment
/// that has passed is reached at once. Moments are in milliseconds: at most 10^14 for deliveries,
/// and at most 10^15 for the last one. A packet that is refused for another cause than want of room
/// changes nothing and isn't reported.
///
/// # Errors
/// `Full` with the number of records that the first message without room needed. `Memory` where
/// memory was refused for a message that nothing else refuses. After an error the router is as
/// before the refused message: it has heard the deliveries before that one, and is at its moment.
pub fn hear_deliveries<F: Family>(
    router: &mut Router<'_, F>,
    messages: &Messages,
    sender: F::Addr,
    deliveries: &[Delivery],
    moment: u64,
) -> Result<(), MirrorFault>
    requires port { length router.old.ports ≡ 1 }
    requires short { AllByRecursion (λ message. length message < 2 ^ 32) messages.now }
    requires early { AreEarly (map delivery_seen deliveries.now) }
    requires moment { moment ≤ 10 ^ 15 }
    ensures ports { router.new.ports ≡ router.old.ports }
    ensures passes { Passes F.family
        (flat_map (delivery_inputs F.family messages.now (F.bytes_of sender))
        (map delivery_seen deliveries.now) ++ runs_to moment ∷ []) router.old result router.new }
    ensures stops { IfErr result (λ why. StopsAt F.family messages.now (F.bytes_of sender)
        (map delivery_seen deliveries.now) router.old why router.new) }
{
    every_list_has_a_course();
    course_goes_on();
    match hear(router, messages, sender, deliveries) {
        Ok(()) => {}
        Err(fault) => return Err(fault),
    }
    reach(router, moment);
    Ok(())
}

/// Lets a new router go through its whole course: the Hellos, the deliveries, and the time up to
/// its final moment.
fn go_through<'a, F: Family>(
    alloc: Global,
    messages: &Messages,
    writer: &Writer<F>,
    fresh: &FreshConfig<'a, F>,
) -> Result<Router<'a, F>, MirrorFault>
    requires fits { Fits messages.now writer.now fresh.now.routes.now
        (fresh_seen F.bytes_of fresh.now) }
    requires short { AllByRecursion (λ message. length message < 2 ^ 32) messages.now }
    ensures { Mirrors F.family messages.now (fresh_seen F.bytes_of fresh.now) result }
{
    every_list_has_a_course();
    course_goes_on();
    let Ok(mut router) = introduced(alloc, fresh) else {
        return Err(MirrorFault::Memory);
    };
    hear_deliveries(
        &mut router,
        messages,
        fresh.sender,
        fresh.deliveries,
        end_of(fresh),
    )?;
    Ok(router)
}

/// The fresh router at its final moment, after these messages. At the moment 0 it receives the
/// Hellos of the sender and of the other neighbours. It runs to the moment of each delivery until
/// nothing is due and receives its message, and then runs to the final moment. An override interval
/// begins with the latest first delivery of a message. The final moment is its end, or that of the
/// last delivery where that is later.
///
/// Let the messages be the canonical ones of a state, by this writer under this table. Then an Ok
/// router holds exactly the machines of the form of what the state asks of it. It wants exactly
/// that, and writes the same messages for it. This lasts from its final moment until the first of
/// them isn't heard for its holdtime. Up to then it reports no PruneEcho.
///
/// Unless memory is refused, `Full` comes exactly where their entries together pass the limit. Its
/// number is that of the units of the different messages up to the first delivery at which they do.
///
/// # Errors
/// `Full` with the number of records that the first message without room needed. `Memory` where
/// memory was refused.
pub fn mirror<'a, F: Family>(
    alloc: Global,
    messages: &Messages,
    writer: &Writer<F>,
    fresh: &FreshConfig<'a, F>,
) -> Result<Router<'a, F>, MirrorFault>
    requires fits { Fits messages.now writer.now fresh.now.routes.now
        (fresh_seen F.bytes_of fresh.now) }
    requires short { AllByRecursion (λ message. length message < 2 ^ 32) messages.now }
    ensures course { Mirrors F.family messages.now (fresh_seen F.bytes_of fresh.now) result }
    ensures stands { StandsInTheWindow F.family writer.now messages.now
        (fresh_seen F.bytes_of fresh.now) result }
    ensures records { HoldsTheRecords F.family writer.now messages.now
        (fresh_seen F.bytes_of fresh.now) result }
    ensures demand { WantsTheDemand F.family writer.now messages.now
        (fresh_seen F.bytes_of fresh.now) result }
    ensures messages { WritesTheMessages F.family writer.now messages.now
        (fresh_seen F.bytes_of fresh.now) result }
    ensures no_echo { HasNoEcho F.family writer.now messages.now
        (fresh_seen F.bytes_of fresh.now) result }
    ensures writer { KnowsTheWriter F.family writer.now messages.now
        (fresh_seen F.bytes_of fresh.now) result }
    ensures room { HadRoom F.family writer.now messages.now
        (fresh_seen F.bytes_of fresh.now) result }
    ensures full { HadNoRoom F.family writer.now messages.now
        (fresh_seen F.bytes_of fresh.now) result }
{
    fresh.routes.is_sound();
    writer.is_writing();
    mirror_answers_for_the_form();
    go_through(alloc, messages, writer, fresh)
}
