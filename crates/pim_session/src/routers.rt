//! A router of either family, and its answers.

ghost use Rattle.std.specs.Prelude.{◌≡◌, ◌≤◌, ◌<◌, ◌*◌, ◌^◌, List, length, Some};
ghost use Rattle.pim_device.specs.Device.{failures_after};
ghost use Rattle.pim_request.specs.Forms.{IsHex};
ghost use Rattle.pim_answers.specs.Answered.{Answered, Wrote};
ghost use Rattle.pim_answers.specs.Demanding.{AnswersKeep};
ghost use Rattle.pim_answers.specs.Fault.{fault_words};
ghost use Rattle.pim_answers.specs.Kept.{Kept as KeptSeen, kept_as};
ghost use Rattle.pim_answers.specs.Packets.{AnswersPacket, AnswersFrom, room_limit};
ghost use Rattle.pim_answers.specs.Running.{AnswersRun};
ghost use Rattle.pim_answers.specs.StoreSeen.{store_seen, IsFound};
ghost use Rattle.pim_session.specs.Answers.{Reports};
ghost use Rattle.pim_session.specs.Gathering.{config_words};
ghost use Rattle.pim_session.specs.RouterSeen.{family_in, state_in, name_in, StartsSo, IsKeptFor};
ghost use Rattle.pim_session.specs.SetupSeen.{rows_seen, gathered_seen, StartsRows};

use crate::setup::{AnyRows, Rows, Setup};
use pim_addr::{Drain, Failed, Family, V4, V6};
use pim_answers::{
    AnswerFault, AnyForm, FoundForm, FromText, KeptForms, Room, answer_change, answer_from,
    answer_messages, answer_neighbours, answer_next, answer_now, answer_packet, answer_run,
    answer_same, answer_state, answer_wants, form_to_keep, write_fault, write_ok,
};
use pim_request::{Command, KeptWhat, Packet};
use pim_router::{Config, ConfigFault, Router};
use std::alloc::Global;

/// A router of either family.
#[derive(Drop)]
pub(crate) enum AnyRouter<'a> {
    /// One of IPv4.
    Ipv4(Router<'a, V4>),
    /// One of IPv6.
    Ipv6(Router<'a, V6>),
}

/// The fault of a configuration.
fn config_fault(fault: ConfigFault) -> AnswerFault<'static>
    ensures { fault_words result ≡ config_words fault }
{
    match fault {
        ConfigFault::Address { .. } => AnswerFault::plain(b"config address"),
        ConfigFault::Memory => AnswerFault::memory(),
        _ => AnswerFault::plain(b"config ports"),
    }
}

/// A new router with these rows and this limit of records, or its first fault.
fn router_of<'a, F: Family>(
    alloc: Global,
    rows: &'a Rows<F>,
    limit: usize,
) -> Result<Router<'a, F>, AnswerFault<'static>>
    ensures { StartsRows F.family (rows_seen F.bytes_of (Some F.family) limit rows.now) result }
{
    let config = Config {
        ports: &rows.ports,
        routes: &rows.routes,
        limit,
    };
    match Router::<F>::new(alloc, &config) {
        Ok(router) => Ok(router),
        Err(fault) => Err(config_fault(fault)),
    }
}

/// The router that `start` makes, or its first fault.
pub(crate) fn make_router<'a>(
    alloc: Global,
    setup: &'a Setup,
) -> Result<AnyRouter<'a>, AnswerFault<'static>>
    ensures { StartsSo (gathered_seen setup.now) result }
{
    match &setup.rows {
        AnyRows::Free => Err(AnswerFault::plain(b"config ports")),
        AnyRows::Ipv4(rows) => match router_of::<V4>(alloc, rows, setup.limit) {
            Ok(router) => Ok(AnyRouter::Ipv4(router)),
            Err(fault) => Err(fault),
        },
        AnyRows::Ipv6(rows) => match router_of::<V6>(alloc, rows, setup.limit) {
            Ok(router) => Ok(AnyRouter::Ipv6(router)),
            Err(fault) => Err(fault),
        },
    }
}

/// Answers `run`.
pub(crate) fn run_any<W: Drain>(
    router: &mut AnyRouter<'_>,
    moment: u64,
    answers: &mut W,
) -> Result<(), Failed>
    requires { moment ≤ 10 ^ 15 }
    ensures answered { Answered (AnswersRun (family_in router.old) moment (state_in router.old))
        (W.contents answers.old) (W.contents answers.new) result (λ _. state_in router.new) }
    ensures family { family_in router.new ≡ family_in router.old }
    ensures count { W.failures answers.new ≡ failures_after (W.failures answers.old) result }
{
    match router {
        AnyRouter::Ipv4(router) => answer_run::<V4, W>(router, moment, answers),
        AnyRouter::Ipv6(router) => answer_run::<V6, W>(router, moment, answers),
    }
}

/// Answers `packet`.
pub(crate) fn packet_any<W: Drain>(
    router: &mut AnyRouter<'_>,
    packet: &Packet<'_>,
    room: &mut Room,
    answers: &mut W,
) -> Result<(), Failed>
    requires hex { IsHex packet.now.hex.now }
    requires short { length packet.now.hex.now ≤ 2 * room_limit }
    ensures answered { Answered (AnswersPacket (family_in router.old) packet.now
        (state_in router.old))
        (W.contents answers.old) (W.contents answers.new) result (λ _. state_in router.new) }
    ensures family { family_in router.new ≡ family_in router.old }
    ensures count { W.failures answers.new ≡ failures_after (W.failures answers.old) result }
{
    match router {
        AnyRouter::Ipv4(router) => answer_packet::<V4, W>(router, packet, room, answers),
        AnyRouter::Ipv6(router) => answer_packet::<V6, W>(router, packet, room, answers),
    }
}

/// Answers `from`.
pub(crate) fn from_any<W: Drain>(
    alloc: Global,
    router: &mut AnyRouter<'_>,
    from: &FromText<'_>,
    room: &mut Room,
    answers: &mut W,
) -> Result<(), Failed>
    requires { length from.now.text.now < 2 ^ 32 }
    ensures answered { Answered (AnswersFrom (family_in router.old) from.now (state_in router.old))
        (W.contents answers.old) (W.contents answers.new) result (λ _. state_in router.new) }
    ensures family { family_in router.new ≡ family_in router.old }
    ensures count { W.failures answers.new ≡ failures_after (W.failures answers.old) result }
{
    match router {
        AnyRouter::Ipv4(router) => answer_from::<V4, W>(alloc, router, from, room, answers),
        AnyRouter::Ipv6(router) => answer_from::<V6, W>(alloc, router, from, room, answers),
    }
}

/// The form that `keep` keeps, or its first fault.
fn form_for<'c>(
    alloc: Global,
    router: &AnyRouter<'_>,
    store: &KeptForms,
    command: &KeptWhat<'c>,
) -> Result<AnyForm, AnswerFault<'c>>
    ensures { IsKeptFor (family_in router.now) command.now (state_in router.now)
        (store_seen store.now) result }
{
    match router {
        AnyRouter::Ipv4(router) => match form_to_keep::<V4>(alloc, router, store, command) {
            Ok(form) => Ok(AnyForm::Ipv4(form)),
            Err(fault) => Err(fault),
        },
        AnyRouter::Ipv6(router) => match form_to_keep::<V6>(alloc, router, store, command) {
            Ok(form) => Ok(AnyForm::Ipv6(form)),
            Err(fault) => Err(fault),
        },
    }
}

/// Answers `keep`.
pub(crate) fn keep_any<W: Drain>(
    alloc: Global,
    router: &AnyRouter<'_>,
    store: &mut KeptForms,
    command: &KeptWhat<'_>,
    answers: &mut W,
) -> Result<(), Failed>
    ensures answered { Answered
        (AnswersKeep (family_in router.now) command.now (state_in router.now)
        (store_seen store.old))
        (W.contents answers.old) (W.contents answers.new) result (λ _. store_seen store.new) }
    ensures count { W.failures answers.new ≡ failures_after (W.failures answers.old) result }
{
    let form = match form_for(alloc, router, store, command) {
        Ok(form) => form,
        Err(fault) => return write_fault(answers, &fault),
    };
    match store.keep(alloc, command.name, form) {
        Ok(()) => write_ok(answers),
        Err(_) => write_fault(answers, &AnswerFault::memory()),
    }
}

/// The name of a command with what is kept; no name where there is none.
fn name_of<'c>(command: &Command<'c>) -> &'c [u8]
    ensures { result.now ≡ name_in command.now }
{
    match command {
        Command::Change(comparison) | Command::Same(comparison) => comparison.name,
        _ => b"",
    }
}

/// Answers a command that reports on the router and changes nothing, with what was found under its
/// name. Refuses one that gathers.
fn report<F: Family, W: Drain>(
    alloc: Global,
    router: &Router<'_, F>,
    found: &FoundForm<'_, F>,
    command: &Command<'_>,
    answers: &mut W,
) -> Result<(), Failed>
    ensures reported { (kept : List KeptSeen) → IsFound F.family F.bytes_of (name_in command.now)
        found.now
        (kept_as (name_in command.now) kept) → Wrote (Reports F.family command.now router.now kept)
        (W.contents answers.old) (W.contents answers.new) result }
    ensures count { W.failures answers.new ≡ failures_after (W.failures answers.old) result }
{
    match command {
        Command::Now => answer_now::<F, W>(router, answers),
        Command::Next => answer_next::<F, W>(router, answers),
        Command::State => answer_state::<F, W>(router, answers),
        Command::Wants => answer_wants::<F, W>(alloc, router, answers),
        Command::Neighbours => answer_neighbours::<F, W>(router, answers),
        Command::Messages(writing) => answer_messages::<F, W>(alloc, router, writing, answers),
        Command::Change(comparison) => {
            answer_change::<F, W>(alloc, router, found, comparison, answers)
        }
        Command::Same(comparison) => answer_same::<F, W>(alloc, router, found, comparison, answers),
        _ => write_fault(answers, &AnswerFault::plain(b"started")),
    }
}

/// Answers a command that reports on the router and changes nothing, or refuses one that gathers.
pub(crate) fn report_any<W: Drain>(
    alloc: Global,
    router: &AnyRouter<'_>,
    store: &KeptForms,
    command: &Command<'_>,
    answers: &mut W,
) -> Result<(), Failed>
    ensures reported { Wrote
        (Reports (family_in router.now) command.now (state_in router.now) (store_seen store.now))
        (W.contents answers.old) (W.contents answers.new) result }
    ensures count { W.failures answers.new ≡ failures_after (W.failures answers.old) result }
{
    let name = name_of(command);
    match router {
        AnyRouter::Ipv4(router) => {
            let found = store.find_ipv4(name);
            report::<V4, W>(alloc, router, &found, command, answers)
        }
        AnyRouter::Ipv6(router) => {
            let found = store.find_ipv6(name);
            report::<V6, W>(alloc, router, &found, command, answers)
        }
    }
}
