//! A session after its start: it answers commands over its router.

ghost use Rattle.std.specs.Prelude.{◌≡◌, ◌≢◌, ◌≤◌, Ok, IfSome};
ghost use Rattle.pim_device.specs.Device.{failures_after};
ghost use Rattle.pim_request.specs.Reading.{CountsReads, flush_failures_after};
ghost use Rattle.pim_request.specs.Items.{items_of};
ghost use Rattle.pim_answers.specs.Answered.{Answered};
ghost use Rattle.pim_answers.specs.Fault.{fault_words};
ghost use Rattle.pim_answers.specs.StoreSeen.{store_seen};
ghost use Rattle.pim_session.specs.Answers.{Answers, AnswersAfter, Serves, session_in};
ghost use Rattle.pim_session.specs.RouterSeen.{family_in, state_in};
ghost use Rattle.pim_session.specs.Seen.{request_seen, IsFit, IsFitCommand, IsFitIfAny};
ghost use Rattle.pim_session.specs.SetupSeen.{gathered_seen};
ghost use Rattle.pim_session.specs.State.{Session, gathering, serving};
ghost use Rattle.pim_session.specs.Underway.{session_after, IsRefused, Ended, Begins};
ghost use Rattle.pim_session.specs.Underway.{BeginsServing};

use crate::request::{Request, request_of};
use crate::routers::{AnyRouter, from_any, keep_any, make_router, packet_any, report_any, run_any};
use crate::setup::Setup;
use pim_addr::{Drain, Failed, Feed};
use pim_answers::{AnswerFault, KeptForms, Room, write_fault, write_ok};
use pim_request::{Answers, Command, InputItems, Stopped};
use std::alloc::Global;

/// How a session with a router ends.
#[derive(Clone, Copy, Debug, PartialEq, Eq)]
pub(crate) enum SessionEnd {
    /// There is no router: its configuration has a fault.
    Refused,
    /// The router was forgotten.
    Reset,
    /// The input is at its end.
    Input,
}

/// Answers a command other than `reset`.
fn answer_command<W: Drain>(
    alloc: Global,
    router: &mut AnyRouter<'_>,
    store: &mut KeptForms,
    room: &mut Room,
    command: &Command<'_>,
    answers: &mut W,
) -> Result<(), Failed>
    requires { IsFitCommand command.now }
    ensures answered { Answered
        (Serves (family_in router.old) command.now (state_in router.old, store_seen store.old))
        (W.contents answers.old) (W.contents answers.new) result
        (λ _. (state_in router.new, store_seen store.new)) }
    ensures family { family_in router.new ≡ family_in router.old }
    ensures count { W.failures answers.new ≡ failures_after (W.failures answers.old) result }
{
    match command {
        Command::Run(moment) => run_any(router, *moment, answers),
        Command::Packet(packet) => packet_any(router, packet, room, answers),
        Command::Keep(kept) => keep_any(alloc, router, store, kept, answers),
        _ => report_any(alloc, router, store, command, answers),
    }
}

/// Answers a command. Returns whether the router is still there.
fn answer_any_command<W: Drain>(
    alloc: Global,
    router: &mut AnyRouter<'_>,
    store: &mut KeptForms,
    room: &mut Room,
    command: &Command<'_>,
    answers: &mut W,
) -> Result<bool, Failed>
    requires { IsFitCommand command.now }
    ensures answered { Answered (AnswersAfter (family_in router.old) (Request.Command command.now)
        (state_in router.old, store_seen store.old))
        (W.contents answers.old) (W.contents answers.new) result
        (λ serves. session_after serves (family_in router.new) (state_in router.new)
        (store_seen store.new)) }
    ensures count { W.failures answers.new ≡ failures_after (W.failures answers.old) result }
{
    match command {
        Command::Reset => write_ok(answers).and(Ok(false)),
        _ => answer_command(alloc, router, store, room, command, answers).and(Ok(true)),
    }
}

/// Answers a request. Returns whether the router is still there.
fn answer_request<W: Drain>(
    alloc: Global,
    router: &mut AnyRouter<'_>,
    store: &mut KeptForms,
    room: &mut Room,
    request: &Request<'_>,
    answers: &mut W,
) -> Result<bool, Failed>
    requires { IsFit request.now }
    ensures answered { Answered (AnswersAfter (family_in router.old) request.now
        (state_in router.old, store_seen store.old))
        (W.contents answers.old) (W.contents answers.new) result
        (λ serves. session_after serves (family_in router.new) (state_in router.new)
        (store_seen store.new)) }
    ensures count { W.failures answers.new ≡ failures_after (W.failures answers.old) result }
{
    match request {
        Request::Command(command) => {
            answer_any_command(alloc, router, store, room, command, answers)
        }
        Request::From(from) => from_any(alloc, router, from, room, answers).and(Ok(true)),
    }
}

/// Answers what an item asks for, or its fault. Returns whether the router is still there.
fn answer_or_refuse<W: Drain>(
    alloc: Global,
    router: &mut AnyRouter<'_>,
    store: &mut KeptForms,
    room: &mut Room,
    requested: Result<Request<'_>, AnswerFault<'_>>,
    answers: &mut W,
) -> Result<bool, Failed>
    requires { IsFitIfAny requested }
    ensures answered { Answered
        (Answers (session_in (serving (family_in router.old) (state_in router.old))
        (store_seen store.old))
        (request_seen requested.entry))
        (W.contents answers.old) (W.contents answers.new) result
        (λ serves. session_after serves (family_in router.new) (state_in router.new)
        (store_seen store.new)) }
    ensures count { W.failures answers.new ≡ failures_after (W.failures answers.old) result }
{
    match requested {
        Ok(request) => answer_request(alloc, router, store, room, &request, answers),
        Err(fault) => write_fault(answers, &fault).and(Ok(true)),
    }
}

/// Answers items until the router is forgotten, or to the end of the input.
fn serve<R: Feed, W: Answers>(
    alloc: Global,
    router: &mut AnyRouter<'_>,
    room: &mut Room,
    items: &mut InputItems<R>,
    store: &mut KeptForms,
    answers: &mut W,
) -> Result<SessionEnd, Stopped>
    ensures ended { (refused : Session) → IfSome items.old.coming (λ bytes. Ended
        (session_in (serving (family_in router.old) (state_in router.old)) (store_seen store.old))
        (items_of bytes) (W.contents answers.old) (W.contents answers.new) items.new.coming
        (store_seen store.new) refused result) }
    ensures started { result ≢ Ok SessionEnd.Refused }
    ensures left { items.new.left ≤ items.old.left }
    ensures reads { CountsReads result items.new.unread items.old.failures items.new.failures }
    ensures count { W.failures answers.new ≡ flush_failures_after (W.failures answers.old) result }
{
    'items: loop {
        let Some(item) = items.next(answers)? else {
            return Ok(SessionEnd::Input);
        };
        let requested = request_of(items, item);
        match answer_or_refuse(alloc, router, store, room, requested, answers) {
            Ok(true) => {}
            Ok(false) => return Ok(SessionEnd::Reset),
            Err(_) => return Err(Stopped::Output),
        }
    }
}

/// Writes why there is no router.
fn refuse<W: Drain>(answers: &mut W, fault: &AnswerFault<'_>) -> Result<SessionEnd, Stopped>
    ensures refused { IsRefused (fault_words fault.now)
        (W.contents answers.old) (W.contents answers.new) result }
    ensures count { W.failures answers.new ≡ flush_failures_after (W.failures answers.old) result }
{
    match write_fault(answers, fault) {
        Ok(()) => Ok(SessionEnd::Refused),
        Err(_) => Err(Stopped::Output),
    }
}

/// Answers `start` with `ok`, and then items.
fn begin<R: Feed, W: Answers>(
    alloc: Global,
    router: &mut AnyRouter<'_>,
    room: &mut Room,
    items: &mut InputItems<R>,
    store: &mut KeptForms,
    answers: &mut W,
) -> Result<SessionEnd, Stopped>
    ensures begun { (start : Session) → IfSome items.old.coming (λ bytes. BeginsServing start bytes
        (session_in (serving (family_in router.old) (state_in router.old)) (store_seen store.old))
        (W.contents answers.old) (W.contents answers.new) items.new.coming (store_seen store.new)
        result) }
    ensures started { result ≢ Ok SessionEnd.Refused }
    ensures left { items.new.left ≤ items.old.left }
    ensures reads { CountsReads result items.new.unread items.old.failures items.new.failures }
    ensures count { W.failures answers.new ≡ flush_failures_after (W.failures answers.old) result }
{
    match write_ok(answers) {
        Ok(()) => serve(alloc, router, room, items, store, answers),
        Err(_) => Err(Stopped::Output),
    }
}

/// Answers `start`, and then items until the router is forgotten, or to the end of the input.
pub(crate) fn start<R: Feed, W: Answers>(
    alloc: Global,
    setup: &Setup,
    items: &mut InputItems<R>,
    store: &mut KeptForms,
    answers: &mut W,
) -> Result<SessionEnd, Stopped>
    ensures begins { IfSome items.old.coming (λ bytes. Begins
        (session_in (gathering (gathered_seen setup.now)) (store_seen store.old)) bytes
        (W.contents answers.old) (W.contents answers.new) items.new.coming (store_seen store.new)
        result) }
    ensures left { items.new.left ≤ items.old.left }
    ensures refused { result ≡ Ok SessionEnd.Refused → store_seen store.new ≡ store_seen store.old }
    ensures reads { CountsReads result items.new.unread items.old.failures items.new.failures }
    ensures count { W.failures answers.new ≡ flush_failures_after (W.failures answers.old) result }
{
    let mut router = match make_router(alloc, setup) {
        Ok(router) => router,
        Err(fault) => return refuse(answers, &fault),
    };
    match Room::new(alloc) {
        Ok(mut room) => begin(alloc, &mut router, &mut room, items, store, answers),
        Err(_) => refuse(answers, &AnswerFault::memory()),
    }
}
