//! The run of an audit over the captures of a router's ports.

ghost use Rattle.std.specs.Prelude.{◌≡◌, ◌≤◌, ◌<◌, ◌^◌, length, map, max, option_map, IfOk, OnOk};
ghost use Rattle.pim_capture.specs.Capture.{most_captured};
ghost use Rattle.pim_capture.specs.Next.{PayloadLiesIn, latest_moment};
ghost use Rattle.pim_merge.specs.Ends.{IsBoundedEnd};
ghost use Rattle.pim_merge.specs.Run.{IsTallied, turn_seen};
ghost use Rattle.pim_router.specs.State.{setup_of};
ghost use Rattle.pim_run.specs.Faults.{failures_of_device};
ghost use Rattle.pim_audit_events.specs.Seen.{lines_seen, origin_seen};
ghost use Rattle.pim_audit.specs.Holding.{HoldsOutside};
ghost use Rattle.pim_audit.specs.Ready.{IsReady};
ghost use Rattle.pim_audit.specs.Run.{message_of, origin_of, own_in, run_at_start};
ghost use Rattle.pim_audit.specs.Run.{AuditsTurn, PassesOn, Closes, Audits};
ghost use Rattle.pim_audit.specs.Run.{WritesEnd, WritesStop};
ghost use Rattle.pim_audit.specs.Turn.{received_seen};

use crate::audit::Audit;
use crate::lines::{push_ends, push_look, push_turn};
use crate::own::{own_generation, remember_own};
use crate::passing::pass_time;
use crate::totals::{nothing_counted, status_of, with_all_open, with_lines};
use crate::touched::Touched;
use crate::tracked::TrackedAudit;
use crate::turn::{Received, take_turn};
use pim_addr::{Family, Feed};
use pim_audit_events::{
    AuditEvent, AuditLine, AuditTotals, AuditWriter, MessageOrigin, write_lines,
};
use pim_capture::RecordPlace;
use pim_local::LocalJoins;
use pim_merge::{Content, End, Merge, Turn};
use pim_router::{Router, read_message};
use pim_run::{Hooks, RunFault, TurnFault, run};
use pim_trace::{Ledger, frame_after};
use std::alloc::{AllocError, Global};
use std::marker::Model;

/// What an audit is to do.
#[derive(Drop)]
pub struct AuditOptions<'t, F: Family, T> {
    /// Where memory comes from.
    pub alloc: Global,
    /// The upstream neighbour.
    pub upstream: F::Addr,
    /// An entry is late if it is due for more than this many milliseconds.
    pub grace: u64,
    /// What the router's local receivers have joined.
    pub local: &'t LocalJoins<F>,
    /// The most records that are kept of what the neighbour was asked: 1 to 100,000.
    pub limit: usize,
    /// The groups whose entries count. If there are none, all do.
    pub groups: &'t [F::Addr],
    /// What takes the lines.
    pub writer: &'t T,
}

/// What an audit keeps over its run, beside the router.
#[derive(Drop)]
pub(crate) struct AuditRun<'t, F: Family> {
    tracked: TrackedAudit<'t, F>,
    ledger: Ledger<F>,
    totals: AuditTotals,
}

impl<'t, F: Family> Model for AuditRun<'t, F> {
    ghost use Rattle.pim_audit.specs.Ready.{TrackedRun};
    ghost use Rattle.pim_audit.specs.Run.{progress_of};
    ghost use Rattle.pim_trace.specs.Kept.{ledger_seen};

    ghost Value = { TrackedRun };

    ghost view = { λ run. record {
      run = record {
        audit = run.tracked.audit;
        progress = progress_of (ledger_seen F.bytes_of run.ledger);
        totals = run.totals;
      };
      touched = run.tracked.touched;
    } };
}

/// The message of the record of a turn, if it holds one of the router's family.
fn received_in<'b, F: Family>(turn: &Turn, bytes: &'b [u8]) -> Option<Received<'b, F>>
    requires payload { PayloadLiesIn bytes.now turn.now.event }
    requires bytes { length bytes.now ≤ most_captured }
    ensures { option_map (received_seen F.family F.bytes_of) result
        ≡ message_of F.family (turn_seen bytes.now turn.now) }
{
    match turn.content::<F>(bytes) {
        Content::Datagram(sent) => Some(Received {
            source: sent.source,
            message: read_message::<F>(sent.source, sent.destination, sent.payload),
        }),
        _ => None,
    }
}

/// The record of a message, by its port and its place in the port's capture.
fn origin_of<F: Family>(
    port: usize,
    frame: RecordPlace,
    received: &Option<Received<'_, F>>,
) -> Option<MessageOrigin<F::Addr>>
    ensures { option_map (origin_seen F.bytes_of) result ≡ origin_of port frame
        (option_map (received_seen F.family F.bytes_of) received.now) }
{
    match received {
        Some(received) => Some(MessageOrigin {
            port,
            frame,
            from: received.source,
        }),
        None => None,
    }
}

/// The Generation ID of a message, if it is a Hello of the port's own address.
fn own_in<F: Family>(
    router: &Router<'_, F>,
    port: usize,
    received: &Option<Received<'_, F>>,
) -> Option<Option<u32>>
    requires { port < length router.now.ports }
    ensures { result ≡ own_in port router.now
        (option_map (received_seen F.family F.bytes_of) received.now) }
{
    match received {
        Some(received) => own_generation(router, port, received.source, &received.message),
        None => None,
    }
}

/// Takes a turn: counts its record, audits it, and counts its lines. Returns the lines.
///
/// # Errors
/// Memory was refused: some first part of the turn was done.
fn audit_turn<F: Family>(
    alloc: Global,
    groups: &[F::Addr],
    run: &mut AuditRun<'_, F>,
    router: &mut Router<'_, F>,
    turn: &Turn,
    bytes: &[u8],
) -> Result<Vec<AuditLine<F::Addr>>, AllocError>
    requires port { turn.now.capture < length router.old.ports }
    requires moment { turn.now.moment ≤ 10 ^ 15 }
    requires payload { PayloadLiesIn bytes.now turn.now.event }
    requires bytes { length bytes.now ≤ most_captured }
    requires ready { IsReady F.family run.old router.old }
    ensures turn { IfOk result (λ lines. AuditsTurn F.family F.bytes_of
        (map F.bytes_of groups.now) (turn_seen bytes.now turn.now) run.old.run router.old
        (lines_seen F.bytes_of lines.items) run.new.run router.new) }
    ensures ready { OnOk result (IsReady F.family run.new router.new) }
    ensures reached { OnOk result
        (router.new.machines.moment ≡ max router.old.machines.moment turn.now.moment) }
    ensures setup { setup_of router.new ≡ setup_of router.old }
{
    let port = turn.capture;
    let next = frame_after(&turn.event, run.ledger.frame(port));
    run.ledger.open(port, next, turn.time());
    let frame = run.ledger.frame(port);
    let received = received_in::<F>(turn, bytes);
    let own = own_in::<F>(router, port, &received);
    let restart = remember_own::<F>(&mut run.ledger, port, frame, own);
    let report = take_turn::<F>(
        alloc,
        &mut run.tracked,
        router,
        turn.moment,
        port,
        &received,
    )?;
    let origin = origin_of::<F>(port, frame, &received);
    let mut lines = Vec::new(alloc);
    push_turn::<F>(&mut lines, router.now(), origin, restart, &report)?;
    run.totals = with_lines::<F>(groups, &lines, run.totals);
    Ok(lines)
}

impl<'t, F: Family, W, T: AuditWriter<F, W>> Hooks<F, W, AuditRun<'t, F>>
    for AuditOptions<'t, F, T> {
    ghost use Rattle.std.specs.Prelude.{map};
    ghost use Rattle.pim_audit.specs.Ready.{IsReady};
    ghost use Rattle.pim_audit.specs.Run.{WritesTurn, BeginsTurn};

    ghost takes = { λ options turn run state old run' after new.
        WritesTurn F.family F.bytes_of (map F.bytes_of options.groups.now)
        (T.line options.writer.now) turn run.run state old run'.run after new };

    ghost begins = { λ options turn run state old new.
        BeginsTurn F.family F.bytes_of (map F.bytes_of options.groups.now)
        (T.line options.writer.now) turn run.run state old new };

    ghost is_ready = { IsReady F.family };

    ghost contents = { T.contents };

    ghost failures = { T.failures };

    fn take(
        &self,
        device: &mut W,
        router: &mut Router<'_, F>,
        run: &mut AuditRun<'t, F>,
        turn: &Turn,
        bytes: &[u8],
    ) -> Result<(), TurnFault> {
        let Ok(lines) = audit_turn::<F>(self.alloc, self.groups, run, router, turn, bytes) else {
            return Err(TurnFault::Memory);
        };
        let begin = run.ledger.begin();
        let Ok(()) = write_lines(self.writer, device, begin, &lines) else {
            return Err(TurnFault::Output);
        };
        Ok(())
    }
}

/// Lets time pass up to this moment, at most 10^15 milliseconds. Returns the lines of the ends on
/// the way.
fn pass_on<F: Family>(
    alloc: Global,
    run: &mut AuditRun<'_, F>,
    router: &mut Router<'_, F>,
    moment: u64,
) -> Result<Vec<AuditLine<F::Addr>>, AllocError>
    requires moment { moment ≤ 10 ^ 15 }
    requires step { run.old.run.audit.asked.moment ≡ router.old.machines.moment }
    requires present { router.old.machines.moment ≤ 10 ^ 15 }
    requires holds { HoldsOutside F.family run.old.touched run.old.run.audit router.old }
    ensures passes { IfOk result (λ lines. PassesOn F.family F.bytes_of moment run.old.run
        router.old (lines_seen F.bytes_of lines.items) run.new.run.audit router.new) }
    ensures progress { run.new.run.progress ≡ run.old.run.progress }
    ensures totals { run.new.run.totals ≡ run.old.run.totals }
    ensures holds { OnOk result
        (HoldsOutside F.family run.new.touched run.new.run.audit router.new) }
{
    let mut ended = Vec::new(alloc);
    pass_time::<F>(alloc, &mut run.tracked, router, moment, &mut ended)?;
    let mut lines = Vec::new(alloc);
    push_ends::<F>(&mut lines, &ended)?;
    Ok(lines)
}

/// The end of an audit.
#[derive(Drop)]
struct Closing<A> {
    /// The last lines.
    lines: Vec<AuditLine<A>>,
    /// The totals.
    totals: AuditTotals,
}

/// Lets time pass up to the end of the run, at this moment, at most 10^15 milliseconds, and looks a
/// last time.
fn close<F: Family>(
    alloc: Global,
    groups: &[F::Addr],
    run: &mut AuditRun<'_, F>,
    router: &mut Router<'_, F>,
    moment: u64,
) -> Result<Closing<F::Addr>, AllocError>
    requires moment { moment ≤ 10 ^ 15 }
    requires step { run.old.run.audit.asked.moment ≡ router.old.machines.moment }
    requires present { router.old.machines.moment ≤ 10 ^ 15 }
    requires holds { HoldsOutside F.family run.old.touched run.old.run.audit router.old }
    ensures closes { IfOk result (λ closing. Closes F.family F.bytes_of
        (map F.bytes_of groups.now) moment run.old.run router.old
        (lines_seen F.bytes_of closing.lines.items) closing.totals router.new) }
{
    let mut lines = pass_on::<F>(alloc, run, router, moment)?;
    let report = run.tracked.look(alloc, router)?;
    let now = router.now();
    push_look::<F>(&mut lines, now, None, &report)?;
    let counted = with_lines::<F>(groups, &lines, run.totals);
    let totals = with_all_open::<F>(groups, now, run.tracked.audit.dues(), counted);
    lines.push(AuditLine {
        moment: now,
        origin: None,
        said: AuditEvent::End(totals),
    })?;
    Ok(Closing { lines, totals })
}

/// Writes the lines that follow the turns, where all were taken. The run ends at this moment, at
/// most 10^15 milliseconds. Returns the totals.
fn write_end<F: Family, W, T: AuditWriter<F, W>>(
    options: &AuditOptions<'_, F, T>,
    device: &mut W,
    router: &mut Router<'_, F>,
    run: &mut AuditRun<'_, F>,
    moment: u64,
) -> Result<AuditTotals, RunFault>
    requires moment { moment ≤ 10 ^ 15 }
    requires step { run.old.run.audit.asked.moment ≡ router.old.machines.moment }
    requires present { router.old.machines.moment ≤ 10 ^ 15 }
    requires holds { HoldsOutside F.family run.old.touched run.old.run.audit router.old }
    ensures ended { WritesEnd F.family F.bytes_of (map F.bytes_of options.now.groups.now)
        (T.line options.now.writer.now) moment run.old.run router.old router.new
        (T.contents device.old) (T.contents device.new) result }
    ensures count { T.failures device.new ≡ failures_of_device (T.failures device.old) result }
{
    let begin = run.ledger.begin();
    let Ok(closing) = close::<F>(options.alloc, options.groups, run, router, moment) else {
        return Err(RunFault::Memory);
    };
    let Ok(()) = write_lines(options.writer, device, begin, &closing.lines) else {
        return Err(RunFault::Output);
    };
    Ok(closing.totals)
}

/// Writes the lines that follow the turns, where a fault of a capture ended the run: those of what
/// is still due at the present moment.
fn write_stop<F: Family, W, T: AuditWriter<F, W>>(
    options: &AuditOptions<'_, F, T>,
    device: &mut W,
    router: &mut Router<'_, F>,
    run: &mut AuditRun<'_, F>,
) -> Result<(), RunFault>
    requires step { run.old.run.audit.asked.moment ≡ router.old.machines.moment }
    requires present { router.old.machines.moment ≤ 10 ^ 15 }
    requires holds { HoldsOutside F.family run.old.touched run.old.run.audit router.old }
    ensures stopped { WritesStop F.family F.bytes_of (map F.bytes_of options.now.groups.now)
        (T.line options.now.writer.now) run.old.run router.old router.new
        (T.contents device.old) (T.contents device.new) result }
    ensures count { T.failures device.new ≡ failures_of_device (T.failures device.old) result }
{
    let begin = run.ledger.begin();
    let now = router.now();
    let Ok(lines) = pass_on::<F>(options.alloc, run, router, now) else {
        return Err(RunFault::Memory);
    };
    let Ok(()) = write_lines(options.writer, device, begin, &lines) else {
        return Err(RunFault::Output);
    };
    Ok(())
}

/// Audits a whole run, which begins with this state.
fn audit_with<'t, F: Family, R: Feed + Drop, W, T: AuditWriter<F, W>>(
    options: &AuditOptions<'t, F, T>,
    device: &mut W,
    merge: &mut Merge<R>,
    router: &mut Router<'_, F>,
    run_state: &mut AuditRun<'t, F>,
    end: End,
) -> Result<u8, RunFault>
    requires ports { length merge.old.lanes ≡ length router.old.ports }
    requires moment { router.old.machines.moment ≤ latest_moment }
    requires end { IsBoundedEnd end }
    requires ready { IsReady F.family run_state.old router.old }
    ensures audits { Audits F.family F.bytes_of (map F.bytes_of options.now.groups.now)
        (T.line options.now.writer.now) end merge.old run_state.old.run router.old
        (T.contents device.old) merge.new router.new (T.contents device.new) result }
    ensures count { T.failures device.new ≡ failures_of_device (T.failures device.old) result }
    ensures tallied { IsTallied end merge.old merge.new }
{
    match run(options, device, merge, router, run_state, end) {
        Ok(()) => {
            let moment = merge.end_moment(end, router.now());
            match write_end(options, device, router, run_state, moment) {
                Ok(totals) => Ok(status_of(totals)),
                Err(fault) => Err(fault),
            }
        }
        Err(RunFault::Capture(reported)) => match write_stop(options, device, router, run_state) {
            Ok(()) => Err(RunFault::Capture(reported)),
            Err(fault) => Err(fault),
        },
        Err(RunFault::Output) => Err(RunFault::Output),
        Err(RunFault::Memory) => Err(RunFault::Memory),
    }
}

/// Audits what a new router asks of its upstream neighbour, by the captures of the router's ports,
/// one for each port and in their order. Writes the lines of all turns up to the end of the run, in
/// order of time, and a last line with the totals. Returns the status: 1 if something was late,
/// otherwise 0.
///
/// Besides the router, it needs memory for one buffer for each capture, for what the neighbour was
/// asked, for what is due, and at a look for what is due of the groups that something touched.
///
/// # Errors
/// - `Capture`: a capture has a fault. Exactly the lines of the turns before it were written, and
///   those of what was still due at the moment of the last one.
/// - `Output` if the device fails, `Memory` if memory is refused: a front of what is written of the
///   lines was written.
pub fn audit_into<F: Family, R: Feed + Drop, W, T: AuditWriter<F, W>>(
    options: &AuditOptions<'_, F, T>,
    device: &mut W,
    merge: &mut Merge<R>,
    router: &mut Router<'_, F>,
    end: End,
) -> Result<u8, RunFault>
    requires ports { length merge.old.lanes ≡ length router.old.ports }
    requires new { router.old.machines.moment ≡ 0 }
    requires end { IsBoundedEnd end }
    requires room { 1 ≤ options.now.limit }
    requires limit { options.now.limit ≤ 100000 }
    ensures audits { Audits F.family F.bytes_of (map F.bytes_of options.now.groups.now)
        (T.line options.now.writer.now) end merge.old
        (run_at_start (F.bytes_of options.now.upstream) options.now.grace
        options.now.local.now options.now.limit router.old) router.old (T.contents device.old)
        merge.new router.new (T.contents device.new) result }
    ensures count { T.failures device.new ≡ failures_of_device (T.failures device.old) result }
    // The tallies of the captures after the run are those of the turns that were taken.
    ensures tallied { IsTallied end merge.old merge.new }
{
    let Ok(ledger) = Ledger::<F>::new(options.alloc, router.port_count()) else {
        return Err(RunFault::Memory);
    };
    let audit = Audit::new(
        options.alloc,
        options.upstream,
        options.grace,
        options.local,
        options.limit,
    );
    let touched = Touched::all(options.alloc);
    let mut run_state = AuditRun {
        tracked: TrackedAudit { audit, touched },
        ledger,
        totals: nothing_counted(),
    };
    audit_with(options, device, merge, router, &mut run_state, end)
}
