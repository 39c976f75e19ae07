//! Runs to a moment, from one deadline to the next. No timer ends before the present moment, so the
//! first timer of the schedule is the one that the definition fires, at its deadline.

ghost use Rattle.std.specs.Prelude.{◌≡◌, ◌≤◌, ℕ, None, max, option_map};
ghost use Rattle.pim_down.specs.Words.{Reached, IsAscending, RunsLooking, AreLate, FiresTo};
ghost use Rattle.pim_down.specs.Words.{step_seen, firing_seen, records_seen, downstream_at};

use crate::machines::key::OfFamily;
use crate::machines::step::{Firing, Step};
use crate::records::store::RecordStore;
use crate::running::timers::{fire_first, fire_timer, first_by};
use pim_addr::Family;

/// Where a run stops.
pub(crate) struct Stop<A> {
    pub(crate) step: Step<A>,
    /// The moment at the stop.
    pub(crate) now: u64,
    /// How many looks at timers there were.
    pub(crate) looks: u64,
}

/// Runs from the present moment, before which no timer ends, to a later one, or to the first
/// PruneEcho. No timer ends before the moment at which the run stops.
pub(crate) fn run<F: Family>(
    records: &mut RecordStore<F::Addr, OfFamily<F>>,
    now: u64,
    moment: u64,
) -> Stop<F::Addr>
    requires ascending { IsAscending (records_seen F.bytes_of records.old.items) }
    requires late { AreLate now (records_seen F.bytes_of records.old.items) }
    ensures runs { (ports limit : ℕ) →
        RunsLooking moment (downstream_at F.bytes_of ports limit now records.old.items)
        (step_seen F.bytes_of result.step)
        (downstream_at F.bytes_of ports limit result.now records.new.items)
        result.looks }
    ensures later { now ≤ result.now }
    ensures moment { result.now ≤ max now moment }
    ensures reached { result.step ≡ Reached → result.now ≡ max now moment }
    ensures late { AreLate result.now (records_seen F.bytes_of records.new.items) }
{
    let last = now.max(moment);
    let mut now = now;
    let _few = records.len();
    let mut near = records.first();
    let mut looks = 0;
    loop {
        match first_by::<F>(records, last, &mut looks) {
            Some(first) => {
                now = first.ends_at;
                let (step, place) = fire_first::<F>(records, near, first);
                near = place;
                match step {
                    Step::Reached => {}
                    Step::Echo { port, group, what } => {
                        let step = Step::Echo { port, group, what };
                        return Stop { step, now, looks };
                    }
                }
            }
            None => {
                return Stop {
                    step: Step::Reached,
                    now: last,
                    looks,
                };
            }
        }
    }
}

/// Where a run stops that ends with the first timer that fires.
pub(crate) struct Halt<A> {
    pub(crate) fired: Option<Firing<A>>,
    /// The moment at the stop.
    pub(crate) now: u64,
}

/// Runs from the present moment, before which no timer ends, to a later one, or until one timer has
/// fired. No timer ends before the moment at which the run stops.
pub(crate) fn run_to_firing<F: Family>(
    records: &mut RecordStore<F::Addr, OfFamily<F>>,
    now: u64,
    moment: u64,
) -> Halt<F::Addr>
    requires ascending { IsAscending (records_seen F.bytes_of records.old.items) }
    requires late { AreLate now (records_seen F.bytes_of records.old.items) }
    ensures fires { (ports limit : ℕ)
        → FiresTo moment (downstream_at F.bytes_of ports limit now records.old.items)
        (option_map (firing_seen F.bytes_of) result.fired)
        (downstream_at F.bytes_of ports limit result.now records.new.items) }
    ensures later { now ≤ result.now }
    ensures moment { result.now ≤ max now moment }
    ensures reached { result.fired ≡ None → result.now ≡ max now moment }
    ensures late { AreLate result.now (records_seen F.bytes_of records.new.items) }
{
    let last = now.max(moment);
    let near = records.first();
    let mut looked = 0;
    match first_by::<F>(records, last, &mut looked) {
        Some(first) => {
            let (fired, _place) = fire_timer::<F>(records, near, first);
            Halt {
                fired: Some(fired),
                now: first.ends_at,
            }
        }
        None => Halt {
            fired: None,
            now: last,
        },
    }
}
