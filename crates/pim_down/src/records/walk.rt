//! Walks over records. `{:?}` shows only the moment of a walk, since to go through a walk uses it
//! up.

ghost use Rattle.std.specs.Prelude.{◌≡◌, ◌<◌, ℕ, List};
ghost use Rattle.pim_down.specs.Words.{filter, YieldsFirstBy, item_count};
ghost use Rattle.pim_down.specs.Words.{IsAscending, is_on, count_on, machine_after, record_after};
ghost use Rattle.pim_down.specs.Words.{timed_seen, record_seen, record_of_seen, records_seen};
ghost use Rattle.pim_down.specs.Words.{shown};

use crate::machines::held::{Held, Timed};
use crate::machines::key::{Key, OfFamily};
use crate::machines::machine::{Machine, Pending, Record};
use crate::records::bound::Bound;
use crate::records::store::{HALF_OF_RECORDS, RecordStore};
use pim_addr::Family;
use sorted_blocks::Place;
use sorted_slab::Walk;
use std::fmt;
use std::marker::{Model, PhantomData};

/// The machine at this moment, with countdowns.
pub(crate) fn machine_after(machine: &Timed, now: u64) -> Machine
    ensures { result ≡ machine_after now (timed_seen machine.now) }
{
    let expires_in = match machine.expires_at {
        Some(ends_at) => Some(ends_at.saturating_sub(now)),
        None => None,
    };
    let pending = match machine.pending {
        Some(timer) => Some(Pending {
            ends_in: timer.ends_at.saturating_sub(now),
            several: timer.several,
        }),
        None => None,
    };
    Machine {
        state: machine.state,
        expires_in,
        pending,
    }
}

/// The record at this moment, with countdowns.
pub(crate) fn record_after<A: Copy>(held: &Held<A>, now: u64) -> Record<A>
    ensures { (bytes_of : A → List ℕ) → record_of_seen bytes_of result
        ≡ record_after now (record_seen bytes_of held.now) }
{
    Record {
        key: held.key,
        machine: machine_after(&held.machine, now),
    }
}

/// The bound before all records of a port.
#[derive(Drop)]
struct OfPort {
    port: usize,
}

impl<A> Bound<A> for OfPort {
    ghost use Rattle.std.specs.Prelude.{nat_lt};

    ghost is_before = { λ b key. nat_lt key.port b.port };

    fn is_before(&self, key: &Key<A>) -> bool {
        key.port < self.port
    }
}

/// The records of one port, which are side by side.
pub(crate) fn on_port<F: Family>(
    records: &RecordStore<F::Addr, OfFamily<F>>,
    port: usize,
) -> Walk<'_, Held<F::Addr>, HALF_OF_RECORDS>
    requires ascending { IsAscending (records_seen F.bytes_of records.now.items) }
    requires port { port < 64 }
    ensures { records_seen F.bytes_of result
        ≡ filter (is_on port) (records_seen F.bytes_of records.now.items) }
{
    records.walk(
        records.first_behind(Place::START, &OfPort { port }),
        records.count_on(port),
    )
}

/// How many records the port has.
pub(crate) fn count_on<F: Family>(records: &RecordStore<F::Addr, OfFamily<F>>, port: usize) -> usize
    requires { port < 64 }
    ensures { result ≡ count_on port (records_seen F.bytes_of records.now.items) }
{
    records.count_on(port)
}

/// The records in key order, with the time left of their timers. Contracts see those that are left.
#[derive(Drop)]
pub struct Records<'a, F: Family> {
    left: Walk<'a, Held<F::Addr>, HALF_OF_RECORDS>,
    moment: u64,
    family: PhantomData<F>,
}

impl<'a, F: Family> Model for Records<'a, F> {
    ghost use Rattle.std.specs.Prelude.{ℕ, List};
    ghost use Rattle.pim_down.specs.declared.machines.machine.Record.{Record};
    ghost use Rattle.pim_down.specs.Seen.{shown};

    ghost Value = { List (Record (List ℕ)) };

    ghost view = { λ walk. shown F.bytes_of walk.moment walk.left };
}

impl<'a, F: Family> Records<'a, F> {
    /// These records at this moment.
    pub(crate) fn new(left: Walk<'a, Held<F::Addr>, HALF_OF_RECORDS>, moment: u64) -> Self
        ensures { result ≡ shown F.bytes_of moment left.entry }
    {
        Records {
            left,
            moment,
            family: PhantomData,
        }
    }
}

#[tactic(auto, using(crate::proofs::Walks::shown_first))]
impl<'a, F: Family> Iterator for Records<'a, F> {
    type Item = Record<F::Addr>;

    ghost next_gives = { YieldsFirstBy (record_of_seen F.bytes_of) (λ records. records) };

    ghost remaining = { item_count (λ records. records) };

    fn next(&mut self) -> Option<Record<F::Addr>> {
        let first = self.left.next()?;
        Some(record_after(first, self.moment))
    }
}

impl<'a, F: Family> fmt::Debug for Records<'a, F> {
    fn fmt<W: fmt::Write>(&self, f: &mut fmt::Formatter<W>) -> fmt::Result {
        f.debug_struct("Records")
            .field("moment", &self.moment)
            .finish()
    }
}
