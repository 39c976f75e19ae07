//! What a trace remembers beside the router: how far each capture was read, and to which packets
//! the timers trace back. It has an entry for each neighbour and for each machine that is held.
//!
//! Contracts see a `Ledger` by `ledger_seen` as that of `specs/Ledger.antt`, where causes and
//! Hellos are functions.

ghost use Rattle.std.specs.Prelude.{◌≡◌, ◌<◌, ℕ, List, None, Some, IfOk, OnOk, OnErr, length};
ghost use Rattle.std.specs.Prelude.{replicate, slice_index_or};
ghost use Rattle.pim_capture.specs.Next.{event_seen};
ghost use Rattle.pim_down.specs.Records.{state_of_machine};
ghost use Rattle.pim_down.specs.Seen.{key_seen};
ghost use Rattle.pim_events.specs.Events.{cause_seen};
ghost use Rattle.pim_transitions.specs.Affected.{transition_seen};
ghost use Rattle.pim_trace.specs.Heard.{is_pending, overridden};
ghost use Rattle.pim_trace.specs.Kept.{causes_seen, ledger_seen};
ghost use Rattle.pim_trace.specs.Ledger.{no_cause, both_by, pending_left, moved_by, causes_of};
ghost use Rattle.pim_trace.specs.Ledger.{new_ledger, one_more, no_place, next_in_file, frame_of, frame_by};
ghost use Rattle.pim_trace.specs.Ledger.{frame_after, opened, counted};
ghost use Rattle.pim_trace.specs.Ledger.{with_skip, with_own, with_hello, sent_or_none, epoch_of};
ghost use Rattle.pim_trace.specs.Ledger.{caused, with_change, forgetting};
ghost use Rattle.pim_trace.specs.Machines.{IsPlaceFor};
ghost use Rattle.pim_trace.specs.Passing.{cause_of};

use crate::by_machine::ByMachine;
use pim_addr::Family;
use pim_capture::{Event, RecordPlace, Why};
use pim_down::{Key, Machine, Pending, State, Timer};
use pim_events::{Cause, Skip, SkipCounts, epoch_at};
use pim_transitions::Transition;
use sorted_blocks::Place;
use std::alloc::{AllocError, Global};
use std::collections::BTreeMap;

/// The packets that set the timers of a machine.
#[derive(Clone, Copy, Debug, PartialEq, Eq)]
pub(crate) struct Causes<A> {
    pub(crate) expiry: Cause<A>,
    pub(crate) pending: Cause<A>,
    /// The moment at which the machine left NoInfo, in milliseconds.
    pub(crate) since: u64,
}

impl<A: Copy> Causes<A> {
    /// The causes of a machine that goes on from one state to another.
    fn moved(self, packet: Cause<A>, before: &Machine, after: &Machine) -> Self
        ensures { (bytes_of : A → List ℕ) → causes_seen bytes_of result ≡
            moved_by (cause_seen bytes_of packet) (causes_seen bytes_of self) before.now after.now }
    {
        Causes {
            expiry: if before.expires_in == after.expires_in {
                self.expiry
            } else {
                packet
            },
            pending: if left_of(before.pending) == left_of(after.pending) {
                self.pending
            } else {
                packet
            },
            since: self.since,
        }
    }

    /// The causes of a machine of this group of which nothing is remembered: no packet.
    fn none(group: A) -> Self
        ensures { (bytes_of : A → List ℕ) →
            causes_seen bytes_of result ≡ both_by (no_cause (bytes_of group)) }
    {
        let no_packet = Cause {
            frame: no_place(),
            from: group,
            ms: 0,
        };
        Causes {
            expiry: no_packet,
            pending: no_packet,
            since: 0,
        }
    }
}

/// The time left on a Prune-Pending Timer, if one runs.
fn left_of(pending: Option<Pending>) -> Option<u64>
    ensures { result ≡ pending_left pending }
{
    match pending {
        Some(timer) => Some(timer.ends_in),
        None => None,
    }
}

/// Whether a machine is Prune-Pending.
fn is_pending(machine: &Option<Machine>) -> bool
    ensures { result ≡ is_pending (state_of_machine machine.now) }
{
    match machine {
        Some(machine) => matches!(machine.state, State::PrunePending),
        None => false,
    }
}

/// A Hello that was taken.
#[derive(Clone, Copy, Debug, PartialEq, Eq)]
pub(crate) struct Sent {
    /// The place of its record.
    pub(crate) frame: RecordPlace,
    /// Its moment, in milliseconds.
    pub(crate) ms: u64,
}

/// What a trace remembers.
#[derive(Drop)]
pub struct Ledger<F: Family> {
    alloc: Global,
    /// The place of the last record that was taken of each capture.
    frames: Vec<RecordPlace>,
    /// The time of the first record that has one, in milliseconds since 1970.
    begin: Option<u64>,
    /// For each port the Generation ID of the last Hello that the port's own address sent.
    own: Vec<Option<Option<u32>>>,
    /// The last Hello of each neighbour, by port and address.
    hellos: BTreeMap<(usize, F::Addr), Sent>,
    /// The packets that set the timers of each machine.
    causes: ByMachine<F, Causes<F::Addr>>,
    skipped: SkipCounts,
}

/// A vector with the same item for each of `ports` ports.
fn for_each_port<T: Copy + Drop>(alloc: Global, ports: usize, item: T) -> Result<Vec<T>, AllocError>
    ensures { IfOk result (λ items. items.items ≡ replicate ports item) }
{
    let mut items = Vec::with_capacity(alloc, ports)?;
    for _ in 0..ports {
        items.push(item)?;
    }
    Ok(items)
}

/// One more. The count stops at 2^64 - 1.
fn one_more(count: u64) -> u64
    ensures { result ≡ one_more count }
{
    count.saturating_add(1)
}

/// No record: the place before the first record of a capture.
fn no_place() -> RecordPlace
    ensures { result ≡ no_place }
{
    RecordPlace { file: 0, record: 0 }
}

/// The place after this one in the same file.
fn next_in_file(place: RecordPlace) -> RecordPlace
    ensures { result ≡ next_in_file place }
{
    RecordPlace {
        file: place.file,
        record: one_more(place.record),
    }
}

/// The place of the last record of a capture, after what is skipped for this reason.
fn frame_by(why: Why, place: RecordPlace) -> RecordPlace
    ensures { result ≡ frame_by why place }
{
    match why {
        Why::NextFile => RecordPlace {
            file: one_more(place.file),
            record: 0,
        },
        Why::OfLink(_) | Why::Incomplete(_) => place,
        _ => next_in_file(place),
    }
}

/// The place of the last record of a capture, after this result. The beginning of a file is no
/// record, nor is the link of a packet or a report of incomplete packets.
pub fn frame_after(event: &Event, place: RecordPlace) -> RecordPlace
    ensures { (bytes : List ℕ) → result ≡ frame_after (event_seen bytes event.now) place }
{
    match event {
        Event::Skipped { why, .. } => frame_by(*why, place),
        _ => next_in_file(place),
    }
}

/// The counts after a record that holds no packet.
fn without_packet(why: Why, counts: SkipCounts) -> SkipCounts
    ensures { result ≡ counted (Skip.NoPacket why) counts }
{
    let mut counts = counts;
    match why {
        Why::Cut => counts.cut = one_more(counts.cut),
        Why::NotIp => counts.not_ip = one_more(counts.not_ip),
        Why::BadHeader => counts.bad_header = one_more(counts.bad_header),
        Why::NotPim => counts.not_pim = one_more(counts.not_pim),
        Why::Fragment | Why::Part => counts.fragment = one_more(counts.fragment),
        Why::NoTime | Why::LinkType(_) | Why::NotChosen(_) | Why::Copy => {}
        Why::CutShort | Why::NextFile | Why::OfLink(_) | Why::Incomplete(_) => {}
    }
    counts
}

/// The counts after one more record is skipped.
fn counted(why: Skip, counts: SkipCounts) -> SkipCounts
    ensures { result ≡ counted why counts }
{
    match why {
        Skip::NoPacket(why) => without_packet(why, counts),
        Skip::OtherFamily => SkipCounts {
            family: one_more(counts.family),
            ..counts
        },
    }
}

impl<F: Family> Ledger<F> {
    /// The ledger of a trace of this number of ports, before any record.
    ///
    /// # Errors
    /// Memory was refused.
    pub fn new(alloc: Global, ports: usize) -> Result<Self, AllocError>
        ensures { IfOk result (λ ledger. ledger_seen F.bytes_of ledger ≡ new_ledger ports) }
    {
        Ok(Ledger {
            alloc,
            frames: for_each_port(alloc, ports, no_place())?,
            begin: None,
            own: for_each_port(alloc, ports, None)?,
            hellos: BTreeMap::new(alloc),
            causes: ByMachine::new(alloc),
            skipped: SkipCounts {
                cut: 0,
                not_ip: 0,
                bad_header: 0,
                not_pim: 0,
                fragment: 0,
                family: 0,
            },
        })
    }

    /// The allocator of what is remembered.
    pub(crate) fn alloc(&self) -> Global {
        self.alloc
    }

    /// The number of skipped records, by reason.
    pub(crate) fn skipped(&self) -> SkipCounts
        ensures { result ≡ (ledger_seen F.bytes_of self.now).skipped }
    {
        self.skipped
    }

    /// Takes a record of this capture at this place and time, in milliseconds since 1970.
    pub fn open(&mut self, capture: usize, frame: RecordPlace, time: Option<u64>)
        requires { capture < length self.old.frames.items }
        ensures { ledger_seen F.bytes_of self.new
            ≡ opened capture frame time (ledger_seen F.bytes_of self.old) }
    {
        if self.begin.is_none() {
            self.begin = time;
        }
        self.frames[capture] = frame;
    }

    /// The place of the last record that was taken of this capture.
    pub fn frame(&self, capture: usize) -> RecordPlace
        requires { capture < length self.now.frames.items }
        ensures { result ≡ frame_of capture (ledger_seen F.bytes_of self.now) }
    {
        self.frames[capture]
    }

    /// Counts a record that is skipped.
    pub(crate) fn skip(&mut self, why: Skip)
        ensures { ledger_seen F.bytes_of self.new
            ≡ with_skip why (ledger_seen F.bytes_of self.old) }
    {
        self.skipped = counted(why, self.skipped);
    }

    /// Remembers a Hello that the port's own address sent. Returns the Generation ID of the one
    /// before it.
    pub fn send_own(&mut self, port: usize, generation: Option<u32>) -> Option<Option<u32>>
        requires { port < length self.old.own.items }
        ensures ledger { ledger_seen F.bytes_of self.new
            ≡ with_own port generation (ledger_seen F.bytes_of self.old) }
        ensures before { result ≡ slice_index_or self.old.own.items port None }
    {
        let before = self.own[port];
        self.own[port] = Some(generation);
        before
    }

    /// Remembers a Hello of a neighbour.
    pub(crate) fn hear_hello(
        &mut self,
        port: usize,
        from: F::Addr,
        sent: Sent,
    ) -> Result<(), AllocError>
        ensures heard { OnOk result (ledger_seen F.bytes_of self.new
            ≡ with_hello port (F.bytes_of from) (Some sent) (ledger_seen F.bytes_of self.old)) }
        ensures refused { OnErr result
            (ledger_seen F.bytes_of self.new ≡ ledger_seen F.bytes_of self.old) }
    {
        self.hellos.insert((port, from), sent)?;
        Ok(())
    }

    /// Forgets a neighbour. Returns its last Hello.
    pub(crate) fn forget_neighbour(&mut self, port: usize, address: F::Addr) -> Sent
        ensures ledger { ledger_seen F.bytes_of self.new
            ≡ with_hello port (F.bytes_of address) None (ledger_seen F.bytes_of self.old) }
        ensures sent { result
            ≡ sent_or_none ((ledger_seen F.bytes_of self.old).hellos port (F.bytes_of address)) }
    {
        self.hellos.remove(&(port, address)).unwrap_or(Sent {
            frame: no_place(),
            ms: 0,
        })
    }

    /// The time of moment 0 in milliseconds since 1970: that of the first record that has one.
    pub fn begin(&self) -> Option<u64>
        ensures { result ≡ (ledger_seen F.bytes_of self.now).begin }
    {
        self.begin
    }

    /// The time of this moment in milliseconds since 1970; `None` before the first record. It
    /// stops at 2^64 - 1.
    pub fn epoch(&self, ms: u64) -> Option<u64>
        ensures { result ≡ epoch_of ms (ledger_seen F.bytes_of self.now) }
    {
        epoch_at(self.begin, ms)
    }

    /// The packets that set the timers of a machine that was sought; no packet where nothing is
    /// remembered.
    fn causes_at(&self, found: Result<Place, Place>, key: &Key<F::Addr>) -> Causes<F::Addr>
        requires { IsPlaceFor F.bytes_of key.now self.now.causes found }
        ensures { causes_seen F.bytes_of result
            ≡ causes_of (key_seen F.bytes_of key.now) (ledger_seen F.bytes_of self.now) }
    {
        match self.causes.get(found, key) {
            Some(causes) => causes,
            None => Causes::none(key.group),
        }
    }

    /// The packets that set the timers of a machine; no packet where nothing is remembered.
    pub(crate) fn causes_of(&self, key: &Key<F::Addr>) -> Causes<F::Addr>
        ensures { causes_seen F.bytes_of result
            ≡ causes_of (key_seen F.bytes_of key.now) (ledger_seen F.bytes_of self.now) }
    {
        self.causes_at(self.causes.find(key), key)
    }

    /// The packet that set this timer of a machine.
    pub(crate) fn cause_of(&self, timer: Timer, key: &Key<F::Addr>) -> Cause<F::Addr>
        ensures { cause_seen F.bytes_of result ≡ cause_of timer
            (causes_of (key_seen F.bytes_of key.now) (ledger_seen F.bytes_of self.now)) }
    {
        let causes = self.causes_of(key);
        match timer {
            Timer::PrunePending => causes.pending,
            Timer::Expiry => causes.expiry,
        }
    }

    /// The place of the packet that started the Prune-Pending Timer which this change overrides.
    pub(crate) fn overridden(&self, change: &Transition<F::Addr>) -> Option<RecordPlace>
        ensures { result ≡ overridden (ledger_seen F.bytes_of self.now)
            (transition_seen F.bytes_of change.now) }
    {
        if !is_pending(&change.before) || is_pending(&change.after) {
            return None;
        }
        Some(self.causes_of(&change.key).pending.frame)
    }

    /// The packets that set the timers of a machine which this packet changed, where it is held
    /// afterwards.
    fn caused(
        &self,
        packet: Cause<F::Addr>,
        found: Result<Place, Place>,
        change: &Transition<F::Addr>,
        after: &Machine,
    ) -> Causes<F::Addr>
        requires { IsPlaceFor F.bytes_of change.now.key self.now.causes found }
        ensures { Some (causes_seen F.bytes_of result) ≡ caused (cause_seen F.bytes_of packet)
            (causes_of (key_seen F.bytes_of change.now.key) (ledger_seen F.bytes_of self.now))
            change.now.before (Some after.now) }
    {
        match &change.before {
            None => Causes {
                expiry: packet,
                pending: packet,
                since: packet.ms,
            },
            Some(before) => self
                .causes_at(found, &change.key)
                .moved(packet, before, after),
        }
    }

    /// Remembers that this packet changed a machine.
    pub(crate) fn change(
        &mut self,
        packet: Cause<F::Addr>,
        change: &Transition<F::Addr>,
    ) -> Result<(), AllocError>
        ensures changed { OnOk result (ledger_seen F.bytes_of self.new
            ≡ with_change (cause_seen F.bytes_of packet) (transition_seen F.bytes_of change.now)
            (ledger_seen F.bytes_of self.old)) }
        ensures refused { OnErr result
            (ledger_seen F.bytes_of self.new ≡ ledger_seen F.bytes_of self.old) }
    {
        let found = self.causes.find(&change.key);
        let Some(after) = &change.after else {
            self.causes.remove(found, &change.key);
            return Ok(());
        };
        let causes = self.caused(packet, found, change, after);
        self.causes.put(found, change.key, causes)?;
        Ok(())
    }

    /// Forgets a machine that ended.
    pub(crate) fn forget_machine(&mut self, key: &Key<F::Addr>)
        ensures { ledger_seen F.bytes_of self.new
            ≡ forgetting (key_seen F.bytes_of key.now) (ledger_seen F.bytes_of self.old) }
    {
        let found = self.causes.find(key);
        self.causes.remove(found, key);
    }
}
