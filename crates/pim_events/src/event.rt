//! The events of a trace: what happened, when, where and why.
//!
//! `specs/Events.antt` shows each of them with its addresses as lists of bytes.

ghost use Rattle.std.specs.Prelude.{◌≡◌};
ghost use Rattle.pim_events.specs.Events.{epoch_at};

use pim_addr::Family;
use pim_capture::{RecordPlace, Why};
use pim_down::{Machine, State, Timer, What};
use pim_hello::Heard;
use pim_jp::JpView;
use pim_router::Verdict;
use pim_transitions::By;

/// One event of a trace.
#[derive(Drop)]
pub struct TraceEvent<'a, F: Family> {
    /// The moment, in milliseconds since the first record.
    pub ms: u64,
    /// The same time, in milliseconds since 1970. `None` if there is no record.
    pub epoch: Option<u64>,
    /// The port, numbered from 0. `None` if the event concerns all ports.
    pub port: Option<usize>,
    /// What happened.
    pub what: Happening<'a, F>,
}

/// The time of a moment, in milliseconds since 1970, where moment 0 has the time `start`. It stops
/// at 2^64 - 1. `None` where moment 0 has no time.
pub fn epoch_at(start: Option<u64>, ms: u64) -> Option<u64>
    ensures { result ≡ epoch_at start ms }
{
    let start = start?;
    Some(start.saturating_add(ms))
}

/// What happened.
#[derive(Drop)]
pub enum Happening<'a, F: Family> {
    /// A Hello was taken.
    Hello(Greeting<F::Addr>),
    /// Another packet got a verdict.
    Packet(Judgment<'a, F>),
    /// A Join/Prune message changed a machine.
    Transition(TransitionEvent<F::Addr>),
    /// A Join(*,G) was ignored, because its RP is not that of the group.
    Ignored(Ignored<F::Addr>),
    /// The port's own router restarted.
    Restarted(OwnRestart),
    /// A record holds no PIM packet of the router's family.
    Skipped(Skipping),
    /// The time of a neighbour is over.
    TimedOut(TimeOut<F::Addr>),
    /// A timer of a machine fired.
    Fired(Fired<F::Addr>),
    /// A machine that the router holds at the end of the run.
    Held(HeldMachine<F::Addr>),
    /// What the router wants at the end of the run.
    Wanted(WantedEntry<F::Addr>),
    /// The run ended.
    Ended(EndOfTrace),
}

/// A Hello that was taken (RFC 7761, 4.3.1).
#[derive(Clone, Copy, Debug, PartialEq, Eq)]
pub struct Greeting<A> {
    /// The place of the record.
    pub frame: RecordPlace,
    /// The sender.
    pub from: A,
    /// What the Hello means for its sender.
    pub verdict: Heard,
    /// The Generation ID that was kept of the sender, if any.
    pub was: Option<u32>,
    /// The Generation ID of the Hello, if it has one.
    pub generation: Option<u32>,
}

/// A packet with the verdict on it.
#[derive(Drop)]
pub struct Judgment<'a, F: Family> {
    /// The place of the record.
    pub frame: RecordPlace,
    /// The sender.
    pub from: F::Addr,
    /// The verdict.
    pub verdict: Verdict,
    /// The message, if the packet reads as a Join/Prune.
    pub message: Option<JpView<'a, F>>,
}

/// A change of a machine by a Join/Prune message (RFC 7761, 4.5.1 to 4.5.3).
#[derive(Clone, Copy, Debug, PartialEq, Eq)]
pub struct TransitionEvent<A> {
    /// The place of the record.
    pub frame: RecordPlace,
    /// The sender of the message.
    pub from: A,
    /// By what the state changed.
    pub by: By,
    /// The group of the machine.
    pub group: A,
    /// Which machine of the group.
    pub what: What<A>,
    /// The state before the message. `None` is NoInfo.
    pub before: Option<State>,
    /// The machine after the message. `None` is NoInfo.
    pub after: Option<Machine>,
    /// The number of neighbours of the port.
    pub neighbours: usize,
    /// The place of the Prune that the message overrides, if it overrides one.
    pub overrides: Option<RecordPlace>,
}

/// A Join(*,G) whose RP is not that of the group (RFC 7761, 4.5.1).
#[derive(Clone, Copy, Debug, PartialEq, Eq)]
pub struct Ignored<A> {
    /// The place of the record.
    pub frame: RecordPlace,
    /// The sender of the message.
    pub from: A,
    /// The group.
    pub group: A,
    /// The RP that the entry names.
    pub names: A,
    /// The RP of the group, if there is one.
    pub rp: Option<A>,
}

/// A Hello of the port's own router with another Generation ID than the one before it.
#[derive(Clone, Copy, Debug, PartialEq, Eq)]
pub struct OwnRestart {
    /// The place of the record.
    pub frame: RecordPlace,
    /// The Generation ID of the Hello before it, if it had one.
    pub was: Option<u32>,
    /// The Generation ID of this Hello, if it has one.
    pub generation: Option<u32>,
}

/// Why a record is skipped.
#[derive(Clone, Copy, Debug, PartialEq, Eq)]
pub enum Skip {
    /// It holds no whole PIM packet, for this reason.
    NoPacket(Why),
    /// It holds a PIM packet of the other address family.
    OtherFamily,
}

/// A record that is skipped.
#[derive(Clone, Copy, Debug, PartialEq, Eq)]
pub struct Skipping {
    /// The place of the record.
    pub frame: RecordPlace,
    /// Why.
    pub why: Skip,
}

/// A neighbour whose time is over (RFC 7761, 4.3.2).
#[derive(Clone, Copy, Debug, PartialEq, Eq)]
pub struct TimeOut<A> {
    /// The neighbour.
    pub neighbour: A,
    /// The place of its last Hello that was taken.
    pub frame: RecordPlace,
    /// The moment of that Hello, in milliseconds.
    pub ms: u64,
}

/// The packet that set a timer.
#[derive(Clone, Copy, Debug, PartialEq, Eq)]
pub struct Cause<A> {
    /// The place of the record.
    pub frame: RecordPlace,
    /// The sender.
    pub from: A,
    /// The moment of the packet, in milliseconds.
    pub ms: u64,
}

/// A timer that fired.
#[derive(Clone, Copy, Debug, PartialEq, Eq)]
pub struct Fired<A> {
    /// The timer.
    pub timer: Timer,
    /// The group of the machine.
    pub group: A,
    /// Which machine of the group.
    pub what: What<A>,
    /// The state before.
    pub before: State,
    /// The state after. `None` is NoInfo.
    pub after: Option<State>,
    /// Whether the router is to send a PruneEcho.
    pub echo: bool,
    /// The packet that set the timer.
    pub cause: Cause<A>,
}

/// A machine that the router holds at the end of the run (RFC 7761, 4.5.1 to 4.5.3).
#[derive(Clone, Copy, Debug, PartialEq, Eq)]
pub struct HeldMachine<A> {
    /// The group of the machine.
    pub group: A,
    /// Which machine of the group.
    pub what: What<A>,
    /// Its state and its timers.
    pub machine: Machine,
    /// The time since it was last in NoInfo, in milliseconds.
    pub held_for: u64,
    /// The packet that set its Expiry Timer.
    pub cause: Cause<A>,
}

/// What the router wants of a group.
#[derive(Clone, Copy, Debug, PartialEq, Eq)]
pub enum WantedWhat<A> {
    /// (*,G): the group from its RP.
    Star,
    /// (S,G): this source.
    Source(A),
    /// (S,G,rpt): the group from its RP without this source.
    Except(A),
}

/// What the router wants at the end of the run (RFC 7761, 4.5.4, 4.5.5 and 4.5.7).
#[derive(Clone, Copy, Debug, PartialEq, Eq)]
pub struct WantedEntry<A> {
    /// The group.
    pub group: A,
    /// What it wants of the group.
    pub what: WantedWhat<A>,
    /// The upstream neighbour, if the route table has one.
    pub via: Option<A>,
}

/// The number of skipped records, by reason. Those without a time and those of other links are not
/// counted.
#[derive(Clone, Copy, Debug, PartialEq, Eq)]
pub struct SkipCounts {
    /// Fewer bytes were captured than the headers name.
    pub cut: u64,
    /// Neither IPv4 nor IPv6.
    pub not_ip: u64,
    /// A bad IP header.
    pub bad_header: u64,
    /// Another protocol than PIM.
    pub not_pim: u64,
    /// A fragment of an IP packet.
    pub fragment: u64,
    /// A packet of the other address family.
    pub family: u64,
}

/// What is there at the end of the run.
#[derive(Clone, Copy, Debug, PartialEq, Eq)]
pub struct EndOfTrace {
    /// The number of machines that are held.
    pub records: usize,
    /// The number of neighbours of all ports.
    pub neighbours: usize,
    /// The skipped records.
    pub skipped: SkipCounts,
}
