//! A trace goes over the records of a router's captures and writes each change of each machine,
//! with its cause. It may write the state at the end of the run, too.

ghost use Rattle.std.specs.Prelude.{◌≡◌, ◌≤◌, length, OnOk};
ghost use Rattle.pim_capture.specs.Next.{latest_moment};
ghost use Rattle.pim_device.specs.Device.{AppendsAll, failures_after};
ghost use Rattle.pim_merge.specs.Ends.{IsBoundedEnd};
ghost use Rattle.pim_merge.specs.Run.{IsTallied};
ghost use Rattle.pim_run.specs.Faults.{failures_by, failures_of_device};
ghost use Rattle.pim_trace.specs.Kept.{ledger_seen};
ghost use Rattle.pim_trace.specs.StateTrace.{TracesState, Closes};
ghost use Rattle.pim_trace.specs.Trace.{neighbours_in, ending, ledger_for, Traces};
ghost use Rattle.pim_trace.specs.Underway.{RunsTurns, RunsToEnd};

use crate::ledger::Ledger;
use crate::passing::pass_time;
use crate::state_events::write_state;
use crate::turns::Tracer;
use pim_addr::{Failed, Family, Feed};
use pim_events::{EndOfTrace, EventWriter, Happening, TraceEvent};
use pim_form::NormalForm;
use pim_merge::{End, Merge};
use pim_router::Router;
use pim_router::laws::every_state_goes_on;
use pim_run::{RunFault, TurnFault, run};
use std::alloc::Global;

/// Takes all turns before the end of the run, where nothing was written before. Where the merge has
/// a fault, what is still due at the present moment happens before it.
fn run_turns<F: Family, R: Feed + Drop, W, T: EventWriter<F, W>>(
    event_writer: &T,
    device: &mut W,
    merge: &mut Merge<R>,
    router: &mut Router<'_, F>,
    ledger: &mut Ledger<F>,
    end: End,
) -> Result<(), RunFault>
    requires new { ledger_seen F.bytes_of ledger.old ≡ ledger_for router.old }
    requires ports { length merge.old.lanes ≡ length router.old.ports }
    requires moment { router.old.machines.moment ≤ latest_moment }
    ensures reported { RunsTurns (T.line event_writer.now) F.family end
        merge.old router.old (T.contents device.old)
        merge.new (ledger_seen F.bytes_of ledger.new) router.new (T.contents device.new) result }
    ensures count { T.failures device.new ≡ failures_of_device (T.failures device.old) result }
    ensures moment { OnOk result (router.new.machines.moment ≤ latest_moment) }
    ensures tallied { IsTallied end merge.old merge.new }
{
    every_state_goes_on();
    match run(&Tracer { event_writer }, device, merge, router, ledger, end) {
        Ok(()) => Ok(()),
        Err(RunFault::Capture(fault)) => {
            let now = router.now();
            let Ok(()) = pass_time(event_writer, device, router, ledger, now) else {
                return Err(RunFault::Output);
            };
            Err(RunFault::Capture(fault))
        }
        Err(RunFault::Output) => Err(RunFault::Output),
        Err(RunFault::Memory) => Err(RunFault::Memory),
    }
}

/// The number of neighbours of all ports.
fn neighbour_count<F: Family>(router: &Router<'_, F>) -> usize
    ensures { result ≡ neighbours_in router.now.tables }
{
    router.is_router();
    router.ports().is_sound();
    let mut count = 0;
    for port in 0..router.port_count() {
        count += router.neighbour_count(port);
    }
    count
}

/// The number of machines of all ports.
fn record_count<F: Family>(router: &Router<'_, F>) -> usize
    ensures { result ≡ length router.now.machines.records }
{
    router.is_router();
    router.ports().is_sound();
    let mut count = 0;
    for port in 0..router.port_count() {
        count += router.ports().count_on(port);
    }
    count
}

/// Writes the end of the run.
fn write_end<F: Family, W, T: EventWriter<F, W>>(
    event_writer: &T,
    device: &mut W,
    router: &Router<'_, F>,
    ledger: &Ledger<F>,
) -> Result<(), Failed>
    ensures bytes { AppendsAll (T.contents device.old) (T.contents device.new) result
        (T.line event_writer.now (ending (ledger_seen F.bytes_of ledger.now) router.now)) }
    ensures count { T.failures device.new ≡ failures_after (T.failures device.old) result }
{
    let event = TraceEvent {
        ms: router.now(),
        epoch: ledger.epoch(router.now()),
        port: None,
        what: Happening::Ended(EndOfTrace {
            records: record_count(router),
            neighbours: neighbour_count(router),
            skipped: ledger.skipped(),
        }),
    };
    event_writer.write_event(device, &event)
}

/// Takes all turns, then lets time pass up to the end of the run.
fn run_to_end<F: Family, R: Feed + Drop, W, T: EventWriter<F, W>>(
    event_writer: &T,
    device: &mut W,
    merge: &mut Merge<R>,
    router: &mut Router<'_, F>,
    ledger: &mut Ledger<F>,
    end: End,
) -> Result<(), RunFault>
    requires new { ledger_seen F.bytes_of ledger.old ≡ ledger_for router.old }
    requires ports { length merge.old.lanes ≡ length router.old.ports }
    requires moment { router.old.machines.moment ≤ latest_moment }
    requires end { IsBoundedEnd end }
    ensures reported { RunsToEnd (T.line event_writer.now) F.family end
        merge.old router.old (T.contents device.old)
        merge.new (ledger_seen F.bytes_of ledger.new) router.new (T.contents device.new) result }
    ensures count { T.failures device.new ≡ failures_of_device (T.failures device.old) result }
    ensures tallied { IsTallied end merge.old merge.new }
{
    run_turns(event_writer, device, merge, router, ledger, end)?;
    let moment = merge.end_moment(end, router.now());
    let Ok(()) = pass_time(event_writer, device, router, ledger, moment) else {
        return Err(RunFault::Output);
    };
    Ok(())
}

/// Traces a whole run with this ledger, which is new.
fn trace_with<F: Family, R: Feed + Drop, W, T: EventWriter<F, W>>(
    event_writer: &T,
    device: &mut W,
    merge: &mut Merge<R>,
    router: &mut Router<'_, F>,
    ledger: &mut Ledger<F>,
    end: End,
) -> Result<(), RunFault>
    requires new { ledger_seen F.bytes_of ledger.old ≡ ledger_for router.old }
    requires ports { length merge.old.lanes ≡ length router.old.ports }
    requires moment { router.old.machines.moment ≤ latest_moment }
    requires end { IsBoundedEnd end }
    ensures events { Traces (T.line event_writer.now) F.family end
        merge.old merge.new router.old router.new
        (T.contents device.old) (T.contents device.new) result }
    ensures count { T.failures device.new ≡ failures_of_device (T.failures device.old) result }
    ensures tallied { IsTallied end merge.old merge.new }
{
    run_to_end(event_writer, device, merge, router, ledger, end)?;
    let Ok(()) = write_end(event_writer, device, router, ledger) else {
        return Err(RunFault::Output);
    };
    Ok(())
}

/// Writes the state at the end of the run, then the end itself.
fn write_state_and_end<F: Family, W, T: EventWriter<F, W>>(
    event_writer: &T,
    device: &mut W,
    router: &Router<'_, F>,
    ledger: &Ledger<F>,
) -> Result<(), TurnFault>
    ensures reported { Closes (T.line event_writer.now) F.family
        (ledger_seen F.bytes_of ledger.now) router.now
        (T.contents device.old) (T.contents device.new) result }
    ensures count { T.failures device.new ≡ failures_by (T.failures device.old) result }
{
    let Ok(form) = NormalForm::of(ledger.alloc(), router.ports()) else {
        return Err(TurnFault::Memory);
    };
    let Ok(()) = write_state(event_writer, device, router, ledger, &form) else {
        return Err(TurnFault::Output);
    };
    let Ok(()) = write_end(event_writer, device, router, ledger) else {
        return Err(TurnFault::Output);
    };
    Ok(())
}

/// Traces a whole run with this ledger, which is new, and writes the state before the end.
fn trace_state_with<F: Family, R: Feed + Drop, W, T: EventWriter<F, W>>(
    event_writer: &T,
    device: &mut W,
    merge: &mut Merge<R>,
    router: &mut Router<'_, F>,
    ledger: &mut Ledger<F>,
    end: End,
) -> Result<(), RunFault>
    requires new { ledger_seen F.bytes_of ledger.old ≡ ledger_for router.old }
    requires ports { length merge.old.lanes ≡ length router.old.ports }
    requires moment { router.old.machines.moment ≤ latest_moment }
    requires end { IsBoundedEnd end }
    ensures events { TracesState (T.line event_writer.now) F.family end
        merge.old merge.new router.old router.new
        (T.contents device.old) (T.contents device.new) result }
    ensures count { T.failures device.new ≡ failures_of_device (T.failures device.old) result }
    ensures tallied { IsTallied end merge.old merge.new }
{
    run_to_end(event_writer, device, merge, router, ledger, end)?;
    match write_state_and_end(event_writer, device, router, ledger) {
        Ok(()) => Ok(()),
        Err(TurnFault::Output) => Err(RunFault::Output),
        Err(TurnFault::Memory) => Err(RunFault::Memory),
    }
}

/// Goes over the captures of a router's ports, one for each port and in their order, and writes
/// what happens. The events of the records up to the end of the run come in order of time. Those of
/// the time up to that end follow, then the end itself.
///
/// Besides the router, it needs memory for one buffer for each capture, for what the trace
/// remembers, and for the machines that a message may change.
///
/// # Errors
/// - `Capture`: a capture has a fault, and exactly the events of the turns before it, and of what
///   was still due at the moment of the last one, were written.
/// - `Output` if the device fails, `Memory` if memory is refused: a front of what is written of the
///   events was written.
pub fn trace_into<F: Family, R: Feed + Drop, W, T: EventWriter<F, W>>(
    alloc: Global,
    event_writer: &T,
    device: &mut W,
    merge: &mut Merge<R>,
    router: &mut Router<'_, F>,
    end: End,
) -> Result<(), RunFault>
    requires ports { length merge.old.lanes ≡ length router.old.ports }
    requires moment { router.old.machines.moment ≤ latest_moment }
    requires end { IsBoundedEnd end }
    ensures events { Traces (T.line event_writer.now) F.family end
        merge.old merge.new router.old router.new
        (T.contents device.old) (T.contents device.new) result }
    ensures count { T.failures device.new ≡ failures_of_device (T.failures device.old) result }
    // The tallies of the captures after the run are those of the turns that were taken.
    ensures tallied { IsTallied end merge.old merge.new }
{
    every_state_goes_on();
    let Ok(mut ledger) = Ledger::<F>::new(alloc, router.port_count()) else {
        return Err(RunFault::Memory);
    };
    trace_with(event_writer, device, merge, router, &mut ledger, end)
}

/// Goes over the captures of a router's ports as `trace_into`, and writes the state at the end of
/// the run before the end itself: the machines that the router holds, in key order, then what it
/// wants.
///
/// Besides the memory of `trace_into`, it needs some for the normal form of the demand, and gives
/// it back.
///
/// # Errors
/// - `Capture`: a capture has a fault, and exactly the events of the turns before it, and of what
///   was still due at the moment of the last one, were written.
/// - `Output` if the device fails, `Memory` if memory is refused: a front of what is written of the
///   events was written.
pub fn trace_state_into<F: Family, R: Feed + Drop, W, T: EventWriter<F, W>>(
    alloc: Global,
    event_writer: &T,
    device: &mut W,
    merge: &mut Merge<R>,
    router: &mut Router<'_, F>,
    end: End,
) -> Result<(), RunFault>
    requires ports { length merge.old.lanes ≡ length router.old.ports }
    requires moment { router.old.machines.moment ≤ latest_moment }
    requires end { IsBoundedEnd end }
    ensures events { TracesState (T.line event_writer.now) F.family end
        merge.old merge.new router.old router.new
        (T.contents device.old) (T.contents device.new) result }
    ensures count { T.failures device.new ≡ failures_of_device (T.failures device.old) result }
    // The tallies of the captures after the run are those of the turns that were taken.
    ensures tallied { IsTallied end merge.old merge.new }
{
    every_state_goes_on();
    let Ok(mut ledger) = Ledger::<F>::new(alloc, router.port_count()) else {
        return Err(RunFault::Memory);
    };
    trace_state_with(event_writer, device, merge, router, &mut ledger, end)
}
