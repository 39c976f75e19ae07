//! Time that passes: neighbours that time out, and timers that fire.

ghost use Rattle.std.specs.Prelude.{◌≡◌, ◌<◌, ◌≤◌, ◌+◌, ◌^◌, ℕ, List, [], ◌∷◌, Some, false, length};
ghost use Rattle.std.specs.Prelude.{max, OnOk, MatchOption};
ghost use Rattle.pim_device.specs.Device.{failures_after};
ghost use Rattle.pim_down.specs.Seen.{firing_seen};
ghost use Rattle.pim_hello.specs.Laws.{comes_by};
ghost use Rattle.pim_hello.specs.Neighbours.{is_over, waited};
ghost use Rattle.pim_hello.specs.Walk.{neighbour_seen};
ghost use Rattle.pim_router.specs.Happening.{first_timeout, timed_out, timer_fired};
ghost use Rattle.pim_router.specs.State.{setup_of, table_at};
ghost use Rattle.pim_router.specs.Time.{rests, turn};
ghost use Rattle.pim_trace.specs.Kept.{ledger_seen};
ghost use Rattle.pim_trace.specs.Passing.{PassesTime, WritesAll, after_happening, time_outs};
ghost use Rattle.pim_trace.specs.Passing.{time_outs_on, gone_by};
ghost use Rattle.pim_trace.specs.WrittenEvents.{Writes};

use crate::ledger::Ledger;
use crate::writing_events::write_on;
use pim_addr::{Failed, Family};
use pim_down::Firing;
use pim_down::laws::firing_says_more;
use pim_events::{EventWriter, Fired, Happening, TimeOut};
use pim_hello::KnownNeighbour;
use pim_router::Router;
use pim_router::laws::{
    every_state_goes_on, firing_passes, happening_goes_on, nobody_goes_before_first_timeout,
    the_ended_go_at_first_timeout,
};

/// Forgets a machine whose timer fired, if it ended.
fn forget_ended<F: Family>(ledger: &mut Ledger<F>, firing: &Firing<F::Addr>)
    ensures ledger { ledger_seen F.bytes_of ledger.new ≡ after_happening
        (timer_fired (firing_seen F.bytes_of firing.now)) (ledger_seen F.bytes_of ledger.old) }
{
    if firing.after.is_none() {
        ledger.forget_machine(&firing.before.key);
    }
}

/// Writes a timer that fired at this moment, with the packet that set it.
fn write_firing<F: Family, W, T: EventWriter<F, W>>(
    event_writer: &T,
    device: &mut W,
    ledger: &mut Ledger<F>,
    ms: u64,
    firing: &Firing<F::Addr>,
) -> Result<(), Failed>
    ensures reported { WritesAll (T.line event_writer.now)
        ((ms, timer_fired (firing_seen F.bytes_of firing.now)) ∷ [])
        (ledger_seen F.bytes_of ledger.old) (ledger_seen F.bytes_of ledger.new)
        (T.contents device.old) (T.contents device.new) result }
    ensures count { T.failures device.new ≡ failures_after (T.failures device.old) result }
    ensures frames { ledger.new.frames.items ≡ ledger.old.frames.items }
    ensures own { ledger.new.own.items ≡ ledger.old.own.items }
{
    let key = firing.before.key;
    let fired = Fired {
        timer: firing.timer,
        group: key.group,
        what: key.what,
        before: firing.before.machine.state,
        after: firing.after,
        echo: firing.echo,
        cause: ledger.cause_of(firing.timer, &key),
    };
    forget_ended(ledger, firing);
    write_on(
        event_writer,
        device,
        ledger,
        ms,
        key.port,
        Happening::Fired(fired),
    )
}

/// Lets time pass up to this moment, in milliseconds, where no neighbour goes until then. Writes
/// each timer that fires.
fn fire_all<F: Family, W, T: EventWriter<F, W>>(
    event_writer: &T,
    device: &mut W,
    router: &mut Router<'_, F>,
    ledger: &mut Ledger<F>,
    moment: u64,
) -> Result<(), Failed>
    requires moment { moment ≤ 10 ^ 15 }
    requires nobody { gone_by moment router.old ≡ [] }
    ensures reported { Writes (T.line event_writer.now)
        (PassesTime moment (ledger_seen F.bytes_of ledger.old) router.old)
        (ledger_seen F.bytes_of ledger.new) router.new
        (T.contents device.old) (T.contents device.new) result }
    ensures count { T.failures device.new ≡ failures_after (T.failures device.old) result }
    ensures reached { OnOk result
        (router.new.machines.moment ≡ max router.old.machines.moment moment) }
    ensures setup { setup_of router.new ≡ setup_of router.old }
    ensures frames { ledger.new.frames.items ≡ ledger.old.frames.items }
    ensures own { ledger.new.own.items ≡ ledger.old.own.items }
{
    firing_passes();
    happening_goes_on();
    every_state_goes_on();
    while let Some(firing) = router.fire_to(moment) {
        write_firing(event_writer, device, ledger, router.now(), &firing)?;
    }
    Ok(())
}

/// Whether the time of a neighbour is over when this many milliseconds have passed.
fn is_over_after<A: Copy>(known: &KnownNeighbour<A>, passed: u64) -> bool
    ensures { (bytes_of : A → List ℕ) →
        result ≡ is_over (waited passed (neighbour_seen bytes_of known.now).1).left }
{
    match known.left {
        Some(left) => left <= passed,
        None => false,
    }
}

/// Writes that the time of a neighbour is over at this moment.
fn write_time_out<F: Family, W, T: EventWriter<F, W>>(
    event_writer: &T,
    device: &mut W,
    ledger: &mut Ledger<F>,
    end: u64,
    port: usize,
    address: F::Addr,
) -> Result<(), Failed>
    ensures reported { WritesAll (T.line event_writer.now)
        ((end, timed_out port (F.bytes_of address)) ∷ [])
        (ledger_seen F.bytes_of ledger.old) (ledger_seen F.bytes_of ledger.new)
        (T.contents device.old) (T.contents device.new) result }
    ensures count { T.failures device.new ≡ failures_after (T.failures device.old) result }
    ensures frames { ledger.new.frames.items ≡ ledger.old.frames.items }
    ensures own { ledger.new.own.items ≡ ledger.old.own.items }
{
    let sent = ledger.forget_neighbour(port, address);
    let over = TimeOut {
        neighbour: address,
        frame: sent.frame,
        ms: sent.ms,
    };
    write_on(
        event_writer,
        device,
        ledger,
        end,
        port,
        Happening::TimedOut(over),
    )
}

/// Writes the neighbours of a port whose time is over at this moment, to which the router has not
/// run yet.
fn write_time_outs_on<F: Family, W, T: EventWriter<F, W>>(
    event_writer: &T,
    device: &mut W,
    router: &Router<'_, F>,
    ledger: &mut Ledger<F>,
    port: usize,
    end: u64,
) -> Result<(), Failed>
    requires port { port < length router.now.ports }
    requires later { router.now.machines.moment ≤ end }
    ensures reported { WritesAll (T.line event_writer.now)
        (time_outs_on port end (table_at port router.now))
        (ledger_seen F.bytes_of ledger.old) (ledger_seen F.bytes_of ledger.new)
        (T.contents device.old) (T.contents device.new) result }
    ensures count { T.failures device.new ≡ failures_after (T.failures device.old) result }
    ensures frames { ledger.new.frames.items ≡ ledger.old.frames.items }
    ensures own { ledger.new.own.items ≡ ledger.old.own.items }
{
    router.is_router();
    let passed = end - router.now();
    for known in router.neighbours(port) {
        if is_over_after(&known, passed) {
            write_time_out(event_writer, device, ledger, end, port, known.address)?;
        }
    }
    Ok(())
}

/// Writes the neighbours of all ports whose time is over at this moment.
fn write_time_outs<F: Family, W, T: EventWriter<F, W>>(
    event_writer: &T,
    device: &mut W,
    router: &Router<'_, F>,
    ledger: &mut Ledger<F>,
    end: u64,
) -> Result<(), Failed>
    requires { router.now.machines.moment ≤ end }
    ensures reported { WritesAll (T.line event_writer.now) (time_outs end router.now.tables)
        (ledger_seen F.bytes_of ledger.old) (ledger_seen F.bytes_of ledger.new)
        (T.contents device.old) (T.contents device.new) result }
    ensures count { T.failures device.new ≡ failures_after (T.failures device.old) result }
    ensures frames { ledger.new.frames.items ≡ ledger.old.frames.items }
    ensures own { ledger.new.own.items ≡ ledger.old.own.items }
{
    router.is_router();
    for port in 0..router.port_count() {
        write_time_outs_on(event_writer, device, router, ledger, port, end)?;
    }
    Ok(())
}

/// Lets the next millisecond come, where nothing is left to do in the present one. Writes what
/// happens then: first the neighbours whose time is over, then the timers that fire.
fn pass_one<F: Family, W, T: EventWriter<F, W>>(
    event_writer: &T,
    device: &mut W,
    router: &mut Router<'_, F>,
    ledger: &mut Ledger<F>,
    end: u64,
) -> Result<(), Failed>
    requires moment { end ≤ 10 ^ 15 }
    requires next { router.old.machines.moment + 1 ≡ end }
    requires rests { turn router.old.machines.moment router.old ≡ rests }
    ensures reported { Writes (T.line event_writer.now)
        (PassesTime end (ledger_seen F.bytes_of ledger.old) router.old)
        (ledger_seen F.bytes_of ledger.new) router.new
        (T.contents device.old) (T.contents device.new) result }
    ensures count { T.failures device.new ≡ failures_after (T.failures device.old) result }
    ensures reached { OnOk result (router.new.machines.moment ≡ end) }
    ensures setup { setup_of router.new ≡ setup_of router.old }
    ensures frames { ledger.new.frames.items ≡ ledger.old.frames.items }
    ensures own { ledger.new.own.items ≡ ledger.old.own.items }
{
    firing_says_more();
    firing_passes();
    happening_goes_on();
    every_state_goes_on();
    write_time_outs(event_writer, device, router, ledger, end)?;
    let Some(firing) = router.fire_to(end) else {
        return Ok(());
    };
    router.is_router();
    write_firing(event_writer, device, ledger, end, &firing)?;
    fire_all(event_writer, device, router, ledger, end)
}

/// Lets time pass up to the first moment at which the time of a neighbour is over, in milliseconds,
/// and writes what happens on the way.
fn pass_to_time_out<F: Family, W, T: EventWriter<F, W>>(
    event_writer: &T,
    device: &mut W,
    router: &mut Router<'_, F>,
    ledger: &mut Ledger<F>,
    end: u64,
) -> Result<(), Failed>
    requires moment { end ≤ 10 ^ 15 }
    requires first { first_timeout router.old.tables ≡ Some end }
    ensures reported { Writes (T.line event_writer.now)
        (PassesTime end (ledger_seen F.bytes_of ledger.old) router.old)
        (ledger_seen F.bytes_of ledger.new) router.new
        (T.contents device.old) (T.contents device.new) result }
    ensures count { T.failures device.new ≡ failures_after (T.failures device.old) result }
    ensures later { router.old.machines.moment < end }
    ensures reached { OnOk result (router.new.machines.moment ≡ end) }
    ensures setup { setup_of router.new ≡ setup_of router.old }
    ensures frames { ledger.new.frames.items ≡ ledger.old.frames.items }
    ensures own { ledger.new.own.items ≡ ledger.old.own.items }
{
    happening_goes_on();
    every_state_goes_on();
    nobody_goes_before_first_timeout();
    the_ended_go_at_first_timeout();
    router.is_router();
    fire_all(event_writer, device, router, ledger, end - 1)?;
    pass_one(event_writer, device, router, ledger, end)
}

/// The first moment at which the time of a neighbour is over, if it comes by this moment.
fn timeout_by<F: Family>(router: &Router<'_, F>, moment: u64) -> Option<u64>
    ensures { MatchOption result (comes_by moment (first_timeout router.now.tables) ≡ false)
        (λ end. (first_timeout router.now.tables ≡ Some end) × (end ≤ moment)) }
{
    let end = router.next_timeout()?;
    if end <= moment { Some(end) } else { None }
}

/// Lets time pass up to this moment, in milliseconds, and writes what happens on the way:
/// neighbours that time out, and timers that fire. An earlier moment counts as the present one.
///
/// # Errors
/// The device failed: a front of the events was written.
pub(crate) fn pass_time<F: Family, W, T: EventWriter<F, W>>(
    event_writer: &T,
    device: &mut W,
    router: &mut Router<'_, F>,
    ledger: &mut Ledger<F>,
    moment: u64,
) -> Result<(), Failed>
    requires { moment ≤ 10 ^ 15 }
    ensures reported { Writes (T.line event_writer.now)
        (PassesTime moment (ledger_seen F.bytes_of ledger.old) router.old)
        (ledger_seen F.bytes_of ledger.new) router.new
        (T.contents device.old) (T.contents device.new) result }
    ensures count { T.failures device.new ≡ failures_after (T.failures device.old) result }
    ensures reached { OnOk result
        (router.new.machines.moment ≡ max router.old.machines.moment moment) }
    ensures setup { setup_of router.new ≡ setup_of router.old }
    ensures frames { ledger.new.frames.items ≡ ledger.old.frames.items }
    ensures own { ledger.new.own.items ≡ ledger.old.own.items }
{
    happening_goes_on();
    every_state_goes_on();
    nobody_goes_before_first_timeout();
    while let Some(end) = timeout_by(router, moment) {
        pass_to_time_out(event_writer, device, router, ledger, end)?;
    }
    router.is_router();
    fire_all(event_writer, device, router, ledger, moment)
}
