//! When the timers of records end, and what they do when they expire. Every look at a timer of a
//! run is a call of `is_due`, which counts it.

ghost use Rattle.std.specs.Prelude.{◌≡◌, ◌+◌, ◌<◌, ℕ, List, ◌++◌, take, drop, length};
ghost use Rattle.std.specs.Prelude.{slice_index_or, nat_le};
ghost use Rattle.pim_down.specs.Words.{slice_get, remove, at, IsItem, Held, IsAscending};
ghost use Rattle.pim_down.specs.Words.{state_of_machine, on_ppt, after_ppt, record_after};
ghost use Rattle.pim_down.specs.Words.{echoes_at, had_several, fired, first_end, AreLate};
ghost use Rattle.pim_down.specs.Words.{ppt_fires, et_fires, firing, step_of, deadline_seen};
ghost use Rattle.pim_down.specs.Words.{timers_of, IsFirstBy, IsLookedAt, timed_seen, machine_seen};
ghost use Rattle.pim_down.specs.Words.{waiting_seen, what_seen, record_seen, records_seen};
ghost use Rattle.pim_down.specs.Words.{step_seen, firing_seen, shown};

use crate::machines::held::{Held, Timed};
use crate::machines::key::{Key, OfFamily, What};
use crate::machines::machine::State;
use crate::machines::step::{Firing, Step, Timer};
use crate::records::deadline::{Deadline, TimerKind};
use crate::records::edits::{find_place, replace_at};
use crate::records::store::RecordStore;
use crate::records::walk::record_after;
use pim_addr::Family;
use sorted_blocks::Place;

/// When the first of all timers ends.
pub(crate) fn next_end<F: Family>(records: &RecordStore<F::Addr, OfFamily<F>>) -> Option<u64>
    ensures { result ≡ first_end (records_seen F.bytes_of records.now.items) }
{
    match records.first_timer() {
        None => None,
        Some(first) => Some(first.ends_at),
    }
}

/// Whether this timer ends no later than the moment `last`. It counts as a look.
fn is_due<A>(timer: &Deadline<A>, last: u64, looks: &mut u64) -> bool
    requires { looks.old < 18446744073709551615 }
    ensures due { result ≡ nat_le timer.now.ends_at last }
    ensures looks { looks.new ≡ looks.old + 1 }
{
    *looks += 1;
    timer.ends_at <= last
}

/// The timer that fires first, if it ends no later than the moment `last`. It looks at one timer at
/// most.
pub(crate) fn first_by<F: Family>(
    records: &RecordStore<F::Addr, OfFamily<F>>,
    last: u64,
    looks: &mut u64,
) -> Option<Deadline<F::Addr>>
    requires { looks.old < 18446744073709551615 }
    ensures first { IsFirstBy F.bytes_of last (records_seen F.bytes_of records.now.items) result }
    ensures looks { IsLookedAt looks.old looks.new result }
{
    match records.first_timer() {
        None => None,
        Some(first) => {
            if is_due(&first, last, looks) {
                Some(first)
            } else {
                None
            }
        }
    }
}

/// Prune-Pending Timer Expires: an (S,G,rpt) machine goes to Prune, any other to NoInfo.
fn on_ppt<A>(what: &What<A>, machine: &Timed) -> Option<Timed>
    ensures { (bytes_of : A → List ℕ) → machine_seen result
        ≡ on_ppt (what_seen bytes_of what.now) (timed_seen machine.now) }
{
    match what {
        What::Star | What::Source(_) => None,
        What::Rpt(_) => Some(Timed {
            state: State::Prune,
            expires_at: machine.expires_at,
            pending: None,
        }),
    }
}

/// Whether the end of this record's Prune-Pending Timer triggers a PruneEcho.
fn echoes<A>(held: &Held<A>) -> bool
    ensures { (bytes_of : A → List ℕ) → result
        ≡ echoes_at (what_seen bytes_of held.now.key.what)
        (had_several (waiting_seen held.now.machine.pending)) }
{
    let several = match held.machine.pending {
        Some(timer) => timer.several,
        None => false,
    };
    match held.key.what {
        What::Star | What::Source(_) => several,
        What::Rpt(_) => false,
    }
}

/// The state of a machine; `None` is NoInfo.
fn state_of(machine: Option<Timed>) -> Option<State>
    ensures { result ≡ state_of_machine (machine_seen machine) }
{
    match machine {
        Some(machine) => Some(machine.state),
        None => None,
    }
}

/// What fires with the Prune-Pending Timer of this record at the moment `now`.
fn ppt_fires<A: Copy>(held: &Held<A>, now: u64) -> Firing<A>
    ensures { (bytes_of : A → List ℕ) → firing_seen bytes_of result
        ≡ ppt_fires (record_after now (record_seen bytes_of held.now)) }
{
    Firing {
        timer: Timer::PrunePending,
        before: record_after(held, now),
        after: state_of(on_ppt(&held.key.what, &held.machine)),
        echo: echoes(held),
    }
}

/// What fires with the Expiry Timer of this record at the moment `now`.
fn et_fires<A: Copy>(held: &Held<A>, now: u64) -> Firing<A>
    ensures { (bytes_of : A → List ℕ) → firing_seen bytes_of result
        ≡ et_fires (record_after now (record_seen bytes_of held.now)) }
{
    Firing {
        timer: Timer::Expiry,
        before: record_after(held, now),
        after: None,
        echo: false,
    }
}

/// Fires the Prune-Pending Timer of the record at this place, at the moment `now`. Returns what
/// fired, and a place nearby.
fn fire_pending<F: Family>(
    records: &mut RecordStore<F::Addr, OfFamily<F>>,
    place: Place,
    now: u64,
) -> (Firing<F::Addr>, Place)
    requires { IsItem records.old place }
    ensures reported { (d : Held F.Addr) → firing_seen F.bytes_of result.0
        ≡ ppt_fires (record_after now
        (record_seen F.bytes_of (slice_index_or records.old.items (at records.old place) d))) }
    ensures left { (d : Held F.Addr) → records_seen F.bytes_of records.new.items
        ≡ take (at records.old place) (records_seen F.bytes_of records.old.items)
        ++ (after_ppt
        (record_seen F.bytes_of (slice_index_or records.old.items (at records.old place) d))
        ++ drop (at records.old place + 1) (records_seen F.bytes_of records.old.items)) }
{
    let fired = *records.get(place);
    let machine = on_ppt(&fired.key.what, &fired.machine);
    let behind = replace_at(records, place, machine);
    (ppt_fires(&fired, now), behind)
}

/// Fires the Expiry Timer of the record at this place, at the moment `now`. Returns what fired, and
/// a place nearby.
fn fire_expiry<F: Family>(
    records: &mut RecordStore<F::Addr, OfFamily<F>>,
    place: Place,
    now: u64,
) -> (Firing<F::Addr>, Place)
    requires { IsItem records.old place }
    ensures reported { (d : Held F.Addr) → firing_seen F.bytes_of result.0
        ≡ et_fires (record_after now
        (record_seen F.bytes_of (slice_index_or records.old.items (at records.old place) d))) }
    ensures left { records.new.items ≡ remove records.old.items (at records.old place) }
{
    let fired = *records.get(place);
    let behind = records.remove(place);
    (et_fires(&fired, now), behind)
}

/// Fires the first of all timers, at its end. The search for its record begins near this place.
/// Returns what fired, and a place nearby.
pub(crate) fn fire_timer<F: Family>(
    records: &mut RecordStore<F::Addr, OfFamily<F>>,
    near: Place,
    first: Deadline<F::Addr>,
) -> (Firing<F::Addr>, Place)
    requires ascending { IsAscending (records_seen F.bytes_of records.old.items) }
    requires first { slice_get (timers_of (records_seen F.bytes_of records.old.items)) 0
        ≡ Some (deadline_seen F.bytes_of first) }
    ensures fires { firing (shown F.bytes_of first.ends_at records.old.items)
        ≡ Some (firing_seen F.bytes_of result.0, shown F.bytes_of first.ends_at records.new.items) }
    ensures late { (m : ℕ) → AreLate m (records_seen F.bytes_of records.old.items) →
        AreLate m (records_seen F.bytes_of records.new.items) }
{
    match find_place::<F>(records, near, &first.key) {
        Ok(place) => match first.timer {
            TimerKind::PendingTimer => fire_pending::<F>(records, place, first.ends_at),
            TimerKind::ExpiryTimer => fire_expiry::<F>(records, place, first.ends_at),
        },
        Err(_) => unreachable!(),
    }
}

/// What a run reports of a timer that fired: a PruneEcho, or nothing.
fn step_of<A: Copy>(fired: Firing<A>) -> Step<A>
    ensures { (bytes_of : A → List ℕ) → step_seen bytes_of result
        ≡ step_of (firing_seen bytes_of fired) }
{
    if !fired.echo {
        return Step::Reached;
    }
    let Key { port, group, what } = fired.before.key;
    Step::Echo { port, group, what }
}

/// Fires the first of all timers, as `fire_timer` does. Returns what the run reports, and a place
/// nearby.
pub(crate) fn fire_first<F: Family>(
    records: &mut RecordStore<F::Addr, OfFamily<F>>,
    near: Place,
    first: Deadline<F::Addr>,
) -> (Step<F::Addr>, Place)
    requires ascending { IsAscending (records_seen F.bytes_of records.old.items) }
    requires first { slice_get (timers_of (records_seen F.bytes_of records.old.items)) 0
        ≡ Some (deadline_seen F.bytes_of first) }
    ensures fired { fired (shown F.bytes_of first.ends_at records.old.items)
        ≡ Some (step_seen F.bytes_of result.0, shown F.bytes_of first.ends_at records.new.items) }
    ensures late { (m : ℕ) → AreLate m (records_seen F.bytes_of records.old.items) →
        AreLate m (records_seen F.bytes_of records.new.items) }
{
    let (fired, place) = fire_timer::<F>(records, near, first);
    (step_of(fired), place)
}
