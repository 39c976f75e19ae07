//! A session from its first line to its end.

ghost use Rattle.std.specs.Prelude.{◌≡◌, List, None, Ok, IfSome};
ghost use Rattle.pim_device.specs.Device.{failures_after};
ghost use Rattle.pim_request.specs.Reading.{CountsReads, flush_failures_after};
ghost use Rattle.pim_answers.specs.Answered.{Answered};
ghost use Rattle.pim_session.specs.Answers.{Gathers, session_in};
ghost use Rattle.pim_session.specs.Dialog.{Converses};
ghost use Rattle.pim_session.specs.Seen.{request_seen};
ghost use Rattle.pim_session.specs.SetupSeen.{gathered_seen, row_in};
ghost use Rattle.pim_session.specs.State.{gathering, new_session};
ghost use Rattle.pim_answers.specs.Kept.{Kept};
ghost use Rattle.pim_answers.specs.StoreSeen.{store_seen};
ghost use Rattle.pim_session.specs.Underway.{Configured};

use crate::request::{Request, request_of};
use crate::serving::{SessionEnd, start};
use crate::setup::{AnyRow, Setup};
use pim_addr::{Drain, Failed, Feed};
use pim_answers::{AnswerFault, KeptForms, write_done, write_fault, write_ok};
use pim_request::{Answers, Command, InputItems, Stopped};
use std::alloc::Global;

/// The row that a command adds to the set-up.
fn row_of(command: &Command<'_>) -> Option<AnyRow>
    ensures { result ≡ row_in command.now }
{
    match command {
        Command::Port(row) => Some(AnyRow::Port(*row)),
        Command::Rp(row) => Some(AnyRow::Rp(*row)),
        Command::Via(row) => Some(AnyRow::Via(*row)),
        _ => None,
    }
}

/// Answers a command before the start, other than `start` and those that add a row.
fn set_up<W: Drain>(setup: &mut Setup, command: &Command<'_>, answers: &mut W) -> Result<(), Failed>
    ensures answered { row_in command.now ≡ None → Answered (Gathers command.now (gathered_seen
        setup.old))
        (W.contents answers.old) (W.contents answers.new) result (λ _. gathered_seen setup.new) }
    ensures count { W.failures answers.new ≡ failures_after (W.failures answers.old) result }
{
    match command {
        Command::Limit(limit) => {
            setup.limit = *limit;
            write_ok(answers)
        }
        Command::Reset => {
            setup.reset();
            write_ok(answers)
        }
        _ => write_fault(answers, &AnswerFault::plain(b"not started")),
    }
}

/// Answers a command before the start, other than `start`.
fn configure<W: Drain>(
    alloc: Global,
    setup: &mut Setup,
    command: &Command<'_>,
    answers: &mut W,
) -> Result<(), Failed>
    ensures answered { Answered (Gathers command.now (gathered_seen setup.old))
        (W.contents answers.old) (W.contents answers.new) result (λ _. gathered_seen setup.new) }
    ensures count { W.failures answers.new ≡ failures_after (W.failures answers.old) result }
{
    match row_of(command) {
        Some(row) => {
            let added = setup.add(alloc, &row);
            write_done(answers, added)
        }
        None => set_up(setup, command, answers),
    }
}

/// Answers a command before the start. Returns whether it is `start`, which isn't answered here.
fn configure_unless_start<W: Drain>(
    alloc: Global,
    setup: &mut Setup,
    command: &Command<'_>,
    answers: &mut W,
) -> Result<bool, Failed>
    ensures configured { (kept : List Kept) → Configured
        (session_in (gathering (gathered_seen setup.old)) kept) (Ok (Request.Command command.now))
        (W.contents answers.old) (W.contents answers.new) result
        (session_in (gathering (gathered_seen setup.new)) kept) }
    ensures count { W.failures answers.new ≡ failures_after (W.failures answers.old) result }
{
    match command {
        Command::Start => Ok(true),
        _ => configure(alloc, setup, command, answers).and(Ok(false)),
    }
}

/// Answers a request before the start. Returns whether it is `start`, which isn't answered here.
fn configure_by_request<W: Drain>(
    alloc: Global,
    setup: &mut Setup,
    request: &Request<'_>,
    answers: &mut W,
) -> Result<bool, Failed>
    ensures configured { (kept : List Kept) → Configured
        (session_in (gathering (gathered_seen setup.old)) kept) (Ok request.now)
        (W.contents answers.old) (W.contents answers.new) result
        (session_in (gathering (gathered_seen setup.new)) kept) }
    ensures count { W.failures answers.new ≡ failures_after (W.failures answers.old) result }
{
    match request {
        Request::Command(command) => configure_unless_start(alloc, setup, command, answers),
        Request::From(_) => {
            let fault = AnswerFault::plain(b"not started");
            write_fault(answers, &fault).and(Ok(false))
        }
    }
}

/// Answers what an item asks for before the start, or its fault. Returns whether that is `start`,
/// which isn't answered here.
fn configure_by<W: Drain>(
    alloc: Global,
    setup: &mut Setup,
    requested: Result<Request<'_>, AnswerFault<'_>>,
    answers: &mut W,
) -> Result<bool, Failed>
    ensures configured { (kept : List Kept) → Configured
        (session_in (gathering (gathered_seen setup.old)) kept) (request_seen requested.entry)
        (W.contents answers.old) (W.contents answers.new) result
        (session_in (gathering (gathered_seen setup.new)) kept) }
    ensures count { W.failures answers.new ≡ failures_after (W.failures answers.old) result }
{
    match requested {
        Ok(request) => configure_by_request(alloc, setup, &request, answers),
        Err(fault) => write_fault(answers, &fault).and(Ok(false)),
    }
}

/// Answers the items of the input to its end, after this set-up and with this store.
fn answer_all<R: Feed, W: Answers>(
    alloc: Global,
    setup: &mut Setup,
    store: &mut KeptForms,
    items: &mut InputItems<R>,
    answers: &mut W,
) -> Result<(), Stopped>
    ensures ended { IfSome items.old.coming (λ bytes. Converses
        (session_in (gathering (gathered_seen setup.old)) (store_seen store.old)) bytes
        (W.contents answers.old) (W.contents answers.new) result) }
    ensures reads { CountsReads result items.new.unread items.old.failures items.new.failures }
    ensures count { W.failures answers.new ≡ flush_failures_after (W.failures answers.old) result }
{
    'items: loop {
        let Some(item) = items.next(answers)? else {
            return Ok(());
        };
        let requested = request_of(items, item);
        let Ok(starts) = configure_by(alloc, setup, requested, answers) else {
            return Err(Stopped::Output);
        };
        if starts {
            match start(alloc, setup, items, store, answers)? {
                SessionEnd::Refused => {}
                SessionEnd::Reset => setup.reset(),
                SessionEnd::Input => return Ok(()),
            }
        }
    }
}

/// Answers the commands of an input to its end, in order. What was written is passed on before each
/// read.
///
/// A command is answered by its lines and `ok`, or by `fault` and the words of its first fault,
/// which leaves everything as it was. `memory` is the last of these faults, but for the text of a
/// message: where the text has no fault, its family is the router's and its port is there, `memory`
/// may come in place of any answer.
///
/// # Errors
/// - `Input`: a read failed, or 2^64 - 1 bytes were read. The commands that were read are answered.
/// - `Output`: the device that takes the answers failed. A prefix of the answers was written.
pub fn session_into<R: Feed, W: Answers>(
    alloc: Global,
    items: &mut InputItems<R>,
    answers: &mut W,
) -> Result<(), Stopped>
    ensures converses { IfSome items.old.coming (λ input. Converses new_session input
        (W.contents answers.old) (W.contents answers.new) result) }
    ensures input_read { CountsReads result items.new.unread items.old.failures items.new.failures }
    ensures output { W.failures answers.new
        ≡ flush_failures_after (W.failures answers.old) result }
{
    let mut setup = Setup::new();
    let mut store = KeptForms::new(alloc);
    answer_all(alloc, &mut setup, &mut store, items, answers)
}
