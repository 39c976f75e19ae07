//! The router: its ports with their machines and neighbours, and its time.
//!
//! It borrows the configuration of its ports and its route table, so that several routers can share
//! them. Neighbors whose time is over are removed when time passes, so the override interval is
//! that of the neighbours that are left.
//!
//! In one millisecond neighbours go first, then timers fire, then the refresh comes: a refresh
//! doesn't ask for a star whose time ends with it.

ghost use Rattle.std.specs.Prelude.{◌≡◌, ◌≢◌, ◌<◌, ◌≤◌, ◌+◌, ◌*◌, ◌^◌, ℕ, length, replicate, map};
ghost use Rattle.std.specs.Prelude.{max};
ghost use Rattle.std.specs.Prelude.{IfOk, OnErr, IsTrue, not, nat_lt, None, option_map};
ghost use Rattle.pim_hello.specs.Laws.{expired_at};
ghost use Rattle.pim_frame.specs.Frame.{content};
ghost use Rattle.pim_hello.specs.Neighbours.{no_neighbours, needs_no_memory, sooner, entry_at};
ghost use Rattle.pim_hello.specs.Seen.{hello_seen};
ghost use Rattle.pim_hello.specs.Walk.{neighbour_seen};
ghost use Rattle.pim_router.specs.Config.{config_faults, IsMadeUnless};
ghost use Rattle.pim_router.specs.Packets.{Receives, causes, received, message_causes};
ghost use Rattle.pim_router.specs.Packets.{hello_causes, hello_heard, new_by, may_grow};
ghost use Rattle.pim_router.specs.Packets.{message_heard, room_causes, unless, timing_on, knows};
ghost use Rattle.pim_router.specs.Packets.{neighbours_on};
ghost use Rattle.pim_router.specs.Reading.{reading_seen, message_refusals, read_causes};
ghost use Rattle.pim_router.specs.Reading.{read_taken, read_received, read_may_grow};
ghost use Rattle.pim_router.specs.Seen.{setup_seen, port_seen, packet_seen, step_seen};
ghost use Rattle.pim_router.specs.Time.{Runs, turns_left};
ghost use Rattle.pim_router.specs.Refreshes.{RunsPast, fires_behind, first_unreported};
ghost use Rattle.pim_router.specs.Happening.{FiresTo, first_timeout, first_unpassed};
ghost use Rattle.pim_router.specs.declared.step.Step.TheVariants.{Reached};
ghost use Rattle.pim_down.specs.declared.machines.step.Step.TheVariants as fires;
ghost use Rattle.pim_down.specs.Records.{count_on};
ghost use Rattle.pim_down.specs.Seen.{step_seen as fires_seen, firing_seen};
ghost use Rattle.pim_router.specs.Written.{hello_verdict, message_verdict};
ghost use Rattle.pim_router.specs.Sound.{IsRouter};
ghost use Rattle.pim_router.specs.State.{new_router, port_at, setup_of, table_at};

use crate::config::{Config, ConfigFault, PortConfig, check};
use crate::laws::{packet_is_taken_as_read, runs_come_nearer};
use crate::message::{PimMessage, read_message};
use crate::step::Step;
use crate::verdict::{Store, Verdict};
use pim_addr::{Family, Routes};
use pim_down::laws::{firing_says_more, timers_run_out};
use pim_down::{Firing, HearFault, Ports, Step as Fires, Timing};
use pim_hello::laws::expiring_twice_is_expiring_once;
use pim_hello::{
    Heard, Hello, KnownNeighbour, KnownNeighbours, NeighbourFault, Neighbours, PortDelays,
};
use pim_jp::JpView;
use std::alloc::{AllocError, Global};
use std::marker::Model;

/// The period of the refreshes, in milliseconds (RFC 7761, 4.11: t_periodic).
const REFRESH_PERIOD: u64 = 60_000;

/// A router: the downstream machines and the neighbours of its ports, and its time. It begins at
/// the moment 0.
#[derive(Drop)]
pub struct Router<'a, F: Family> {
    ports: &'a [PortConfig<F::Addr>],
    routes: &'a Routes<F>,
    machines: Ports<F>,
    /// The neighbours of each port, at the moment of the machines.
    neighbours: Vec<Neighbours<F>>,
    /// The moment of the next refresh, in milliseconds.
    next_refresh: u64,
}

impl<'a, F: Family> Model for Router<'a, F> {
    ghost use Rattle.pim_router.specs.State.{RouterState};

    ghost Value = { RouterState };

    ghost use Rattle.std.specs.Prelude.{◌≤◌};
    ghost use Rattle.pim_router.specs.Seen.{router_seen};
    ghost use Rattle.pim_router.specs.Sound.{IsRouter};

    ghost view = { λ r. router_seen F.bytes_of r.ports.now r.routes.now r.machines
        r.neighbours.items r.next_refresh };

    ghost invariant = { λ r. (r.machines.moment ≤ r.next_refresh)
        × IsRouter
        (router_seen F.bytes_of r.ports.now r.routes.now r.machines r.neighbours.items
        r.next_refresh) };
}

/// A table without neighbours for each of `ports` ports.
fn no_neighbours<F: Family>(alloc: Global, ports: usize) -> Result<Vec<Neighbours<F>>, AllocError>
    ensures { IfOk result (λ tables. tables.items ≡ replicate ports no_neighbours) }
{
    let mut tables = Vec::with_capacity(alloc, ports)?;
    for _ in 0..ports {
        tables.push(Neighbours::new(alloc))?;
    }
    Ok(tables)
}

/// Lets time pass up to this moment for the neighbours of each port, and removes those whose time
/// is over.
fn expire_all<F: Family>(tables: &mut [Neighbours<F>], now: u64)
    requires { now ≤ 10 ^ 15 }
    ensures { tables.new ≡ map (expired_at now) tables.old }
{
    for table in tables.iter_mut() {
        table.expire(now);
    }
}

/// The verdict on a Hello, from the result of the neighbour table.
fn hello_verdict(heard: Result<Heard, NeighbourFault>) -> Result<Verdict, AllocError>
    ensures { result ≡ hello_verdict heard }
{
    match heard {
        Ok(heard) => Ok(Verdict::HelloTaken(heard)),
        Err(NeighbourFault::Full) => Ok(Verdict::Full(Store::Neighbours)),
        Err(NeighbourFault::Memory) => Err(AllocError),
    }
}

/// The verdict on a Join/Prune message, from the result of the machines.
fn message_verdict(heard: Result<(), HearFault>) -> Result<Verdict, AllocError>
    ensures { result ≡ message_verdict heard }
{
    match heard {
        Ok(()) => Ok(Verdict::Applied),
        Err(HearFault::Full { needed }) => Ok(Verdict::Full(Store::Records { needed })),
        Err(HearFault::Memory) => Err(AllocError),
    }
}

/// The first moment whose refresh isn't counted by a run of the machines that stopped with this
/// step at `now`: a PruneEcho comes before the refresh of its millisecond.
fn first_unreported<A: Copy>(step: Fires<A>, now: u64) -> u64
    requires { now ≤ 10 ^ 15 }
    ensures { result ≡ first_unreported step now }
{
    match step {
        Fires::Echo { .. } => now,
        Fires::Reached => now + 1,
    }
}

/// The first moment whose refresh hasn't passed where the machines stopped at `now`: a timer fires
/// before the refresh of its millisecond.
fn first_unpassed<A>(fired: &Option<Firing<A>>, now: u64) -> u64
    requires { now ≤ 10 ^ 15 }
    ensures { result ≡ first_unpassed fired.now now }
{
    match fired {
        Some(_) => now,
        None => now + 1,
    }
}

/// The lesser of two times, where `None` is never.
fn sooner(a: Option<u64>, b: Option<u64>) -> Option<u64>
    ensures { result ≡ sooner a b }
{
    match (a, b) {
        (Some(a), Some(b)) => Some(a.min(b)),
        (Some(a), None) => Some(a),
        (None, b) => b,
    }
}

/// The first moment at which the time of a neighbour in one of these tables is over.
fn first_timeout<F: Family>(tables: &[Neighbours<F>]) -> Option<u64>
    ensures { result ≡ first_timeout tables.now }
{
    let mut first = None;
    for table in tables.iter() {
        first = sooner(first, table.next_end());
    }
    first
}

/// The number of refreshes before the moment `end`, where the next one comes at `next`.
fn refreshes_before(next: u64, end: u64) -> u64
    ensures all { end ≤ next + 60000 * result }
    ensures no_more { next + 60000 * result < max end next + 60000 }
{
    end.saturating_sub(next).div_ceil(REFRESH_PERIOD)
}

impl<'a, F: Family> Router<'a, F> {
    /// Makes a router from this configuration: with no records and no neighbours, at the moment 0.
    ///
    /// # Errors
    /// The first fault of the configuration, in the order of `ConfigFault`; `Memory` only where
    /// there is no other.
    pub fn new(alloc: Global, config: &Config<'a, F>) -> Result<Self, ConfigFault>
        ensures { IsMadeUnless
            (config_faults F.family
            (setup_seen F.bytes_of config.now.ports.now config.now.routes.now config.now.limit))
            (new_router
            (setup_seen F.bytes_of config.now.ports.now config.now.routes.now config.now.limit))
            result }
    {
        check(config)?;
        let Ok(neighbours) = no_neighbours(alloc, config.ports.len()) else {
            return Err(ConfigFault::Memory);
        };
        Ok(Router {
            ports: config.ports,
            routes: config.routes,
            machines: Ports::new(alloc, config.ports.len(), config.limit),
            neighbours,
            next_refresh: REFRESH_PERIOD,
        })
    }

    /// A law: the invariant of a router between calls. There are machines and neighbours for each
    /// port, all at one moment, no neighbour's time is over, and the next refresh comes within 60
    /// s. It does nothing.
    pub fn is_router(&self)
        ensures { IsRouter self.now }
    {
        let _moment = self.next_refresh;
    }

    /// A law: each port has at most 1,024 neighbours and at most as many records as the limit,
    /// which is at most 100,000. It does nothing.
    pub fn ports_keep_their_limits(&self)
        ensures neighbours { (port : ℕ) → length (table_at port self.now).entries ≤ 1024 }
        ensures records { (port : ℕ) →
            count_on port self.now.machines.records ≤ self.now.machines.limit }
        ensures limit { self.now.machines.limit ≤ 100000 }
    {
        self.is_router();
        self.ports().is_sound();
    }

    /// The present moment, in milliseconds.
    pub fn now(&self) -> u64
        ensures { result ≡ self.now.machines.moment }
    {
        self.ports().now()
    }

    /// The downstream machines of the ports.
    pub fn ports(&self) -> &Ports<F>
        ensures { result.now ≡ self.now.machines }
    {
        &self.machines
    }

    /// The route table.
    pub fn routes(&self) -> &'a Routes<F>
        ensures { result.now ≡ self.now.routes }
    {
        self.routes
    }

    /// The number of ports.
    pub fn port_count(&self) -> usize
        ensures { result ≡ length self.now.ports }
    {
        self.ports.len()
    }

    /// The configuration of the port with this number, from 0.
    pub fn port(&self, port: usize) -> PortConfig<F::Addr>
        requires { port < length self.now.ports }
        ensures { port_seen F.bytes_of result ≡ port_at port self.now }
    {
        match self.ports.get(port) {
            Some(port) => *port,
            None => unreachable!(),
        }
    }

    /// The neighbours of a port in address order, with the parameters of the last Hello of each and
    /// the time that is left.
    pub fn neighbours(&self, port: usize) -> KnownNeighbours<'_, F>
        requires { port < length self.now.ports }
        ensures { result ≡ (table_at port self.now).entries }
    {
        self.neighbours[port].entries()
    }

    /// The number of neighbours of a port.
    pub fn neighbour_count(&self, port: usize) -> usize
        requires { port < length self.now.ports }
        ensures { result ≡ length (table_at port self.now).entries }
    {
        self.neighbours[port].count()
    }

    /// The neighbour of a port with this address, as `neighbours` gives it; `None` if the port has
    /// none with it.
    pub fn neighbour(&self, port: usize, address: F::Addr) -> Option<KnownNeighbour<F::Addr>>
        requires { port < length self.now.ports }
        ensures { option_map (neighbour_seen F.bytes_of) result
            ≡ entry_at (F.bytes_of address) (table_at port self.now) }
    {
        self.neighbours[port].get(address)
    }

    /// The first moment at which the time of a neighbour is over; `None` if none's ever is. It
    /// looks at one neighbour of each port.
    pub fn next_timeout(&self) -> Option<u64>
        ensures { result ≡ first_timeout self.now.tables }
    {
        first_timeout::<F>(&self.neighbours)
    }

    /// The own delays of a port.
    fn delays(&self, port: usize) -> PortDelays
        requires { port < length self.now.ports }
        ensures propagation { result.propagation ≡ (port_at port self.now).propagation }
        ensures override_ms { result.override_ms ≡ (port_at port self.now).override_ms }
    {
        self.is_router();
        let PortConfig {
            propagation,
            override_ms,
            ..
        } = self.port(port);
        PortDelays {
            propagation,
            override_ms,
        }
    }

    /// The neighbours of a port, each of which has time left.
    fn table(&self, port: usize) -> &Neighbours<F>
        requires { port < length self.now.ports }
        ensures { result.now ≡ neighbours_on port self.now }
    {
        &self.neighbours[port]
    }

    /// Whether `src` is a neighbour on a port.
    fn knows(&self, port: usize, src: F::Addr) -> bool
        requires { port < length self.now.ports }
        ensures { result ≡ knows port (F.bytes_of src) self.now }
    {
        self.table(port).knows(src)
    }

    /// The override interval of a port, J/P_Override_Interval(I), and whether it has several
    /// neighbours (RFC 7761, 4.3.3 and 4.5.1).
    fn timing(&self, port: usize) -> Timing
        requires { port < length self.now.ports }
        ensures timing { result ≡ timing_on port self.now }
        ensures bound { result.override_ms ≤ 98302 }
    {
        let neighbours = self.table(port);
        Timing {
            override_ms: neighbours.override_interval(self.delays(port)) as u64,
            several: neighbours.count() > 1,
        }
    }

    /// Gathers the delays of a port's neighbours ahead of `timing`, which then needn't look at each
    /// of them.
    fn gather_delays(&mut self, port: usize)
        requires { port < length self.old.ports }
        ensures { self.new ≡ self.old }
    {
        self.neighbours[port].gather_delays();
    }

    /// Applies a Hello from `src` to the neighbours of a port.
    fn hear_hello(
        &mut self,
        port: usize,
        src: F::Addr,
        hello: &Hello<'_, F>,
    ) -> Result<Verdict, AllocError>
        requires { port < length self.old.ports }
        ensures reported { Receives
            (hello_causes port (F.bytes_of src) self.old (hello_seen F.family hello.now).parameters)
            (unless
            (hello_causes port (F.bytes_of src) self.old (hello_seen F.family hello.now).parameters)
            self.old
            (hello_heard port (F.bytes_of src) self.old (hello_seen F.family hello.now).parameters))
            self.old result self.new }
        ensures memory { OnErr result (IsTrue (not (needs_no_memory (F.bytes_of src)
            (hello_seen F.family hello.now).parameters (neighbours_on port self.old)))) }
    {
        self.machines.is_sound();
        let now = self.machines.now();
        let table = &mut self.neighbours[port];
        let heard = table.hear(src, hello, now);
        table.is_sound();
        hello_verdict(heard)
    }

    /// Applies a Join/Prune message that is for this port to its machines.
    fn apply(&mut self, port: usize, message: &JpView<'_, F>) -> Result<Verdict, AllocError>
        requires { port < length self.old.ports }
        ensures reported { Receives (room_causes F.family port self.old message.now)
            (unless (room_causes F.family port self.old message.now) self.old
            (message_heard F.family port self.old message.now)) self.old result self.new }
        ensures memory { OnErr result
            (IsTrue (nat_lt 0 (new_by F.family port message.now self.old))) }
    {
        self.gather_delays(port);
        let timing = self.timing(port);
        let heard = self.machines.hear(port, message, self.routes, timing);
        message_verdict(heard)
    }

    /// Receives a Join/Prune message from `src`.
    fn take_message(
        &mut self,
        port: usize,
        src: F::Addr,
        message: &JpView<'_, F>,
    ) -> Result<Verdict, AllocError>
        requires { port < length self.old.ports }
        ensures reported { Receives
            (message_causes F.family port (F.bytes_of src) self.old message.now)
            (unless (message_causes F.family port (F.bytes_of src) self.old message.now) self.old
            (message_heard F.family port self.old message.now)) self.old result self.new }
        ensures memory { OnErr result
            (IsTrue (nat_lt 0 (new_by F.family port message.now self.old))) }
    {
        if !self.knows(port, src) {
            return Ok(Verdict::UnknownNeighbour);
        }
        if message.upstream() != self.port(port).address {
            return Ok(Verdict::NotForUs);
        }
        self.apply(port, message)
    }

    /// Receives a message from another address than the port's own.
    fn take_message_from(
        &mut self,
        port: usize,
        src: F::Addr,
        message: &PimMessage<'_, F>,
    ) -> Result<Verdict, AllocError>
        requires { port < length self.old.ports }
        ensures reported { Receives
            (message_refusals F.family port (F.bytes_of src) self.old
            (reading_seen F.family message.now))
            (unless
            (message_refusals F.family port (F.bytes_of src) self.old
            (reading_seen F.family message.now))
            self.old
            (read_taken F.family port (F.bytes_of src) self.old
            (reading_seen F.family message.now)))
            self.old result self.new }
        ensures memory { OnErr result (IsTrue (read_may_grow F.family port (F.bytes_of src) self.old
            (reading_seen F.family message.now))) }
    {
        match message {
            PimMessage::Hello(hello) => self.hear_hello(port, src, hello),
            PimMessage::JoinPrune(message) => self.take_message(port, src, message),
            PimMessage::Other(message_type) => Ok(Verdict::OtherType(*message_type)),
            PimMessage::Malformed(fault) => Ok(Verdict::Malformed(*fault)),
        }
    }

    /// Receives on a port a message that `read_message` read. Returns the verdict. A packet is
    /// taken as its message is (`packet_is_taken_as_read`).
    ///
    /// # Errors
    /// Those of `take_packet`. Nothing has changed then.
    pub fn take_read(
        &mut self,
        port: usize,
        src: F::Addr,
        message: &PimMessage<'_, F>,
    ) -> Result<Verdict, AllocError>
        requires { port < length self.old.ports }
        ensures reported { Receives
            (read_causes F.family port (F.bytes_of src) self.old
            (reading_seen F.family message.now))
            (read_received F.family port (F.bytes_of src) self.old
            (reading_seen F.family message.now))
            self.old result self.new }
        ensures memory { OnErr result (IsTrue (read_may_grow F.family port (F.bytes_of src) self.old
            (reading_seen F.family message.now))) }
        ensures setup { setup_of self.new ≡ setup_of self.old }
    {
        if src == self.port(port).address {
            return Ok(Verdict::Mine);
        }
        self.take_message_from(port, src, message)
    }

    /// Receives a packet on a port: its IP source and destination, and its PIM message. Returns the
    /// verdict.
    ///
    /// The cost depends on the length of the packet: reading and ordering n entries takes at most n
    /// log n steps, and each entry takes a few look-ups. There are two exceptions. A Join(*,G) ends
    /// the (S,G,rpt) machines of its group that the same message doesn't prune again (RFC 7761,
    /// 4.5.3). After a Hello that changes the port's delays, or a removed neighbour, the first
    /// Join/Prune message may look at each neighbour of its port.
    ///
    /// # Errors
    /// Memory was refused. This comes only of a packet that no cause refuses: a Hello that is no
    /// goodbye and whose sender is new or gets a time that ends, or a Join/Prune message that makes
    /// a record. Nothing has changed then.
    pub fn take_packet(
        &mut self,
        port: usize,
        src: F::Addr,
        dst: F::Addr,
        bytes: &[u8],
    ) -> Result<Verdict, AllocError>
        requires port { port < length self.old.ports }
        requires bytes { length bytes.now < 2 ^ 32 }
        ensures reported { Receives
            (causes F.family (packet_seen F.bytes_of port src dst bytes.now) self.old)
            (received F.family (packet_seen F.bytes_of port src dst bytes.now) self.old) self.old
            result self.new }
        ensures memory { OnErr result
            (IsTrue (may_grow F.family port (F.bytes_of src) self.old (content bytes.now))) }
        ensures setup { setup_of self.new ≡ setup_of self.old }
    {
        packet_is_taken_as_read();
        if src == self.port(port).address {
            return Ok(Verdict::Mine);
        }
        self.take_read(port, src, &read_message::<F>(src, dst, bytes))
    }

    /// Lets time pass up to this moment, in milliseconds, at most 10^15, or until the next
    /// PruneEcho or refresh. An earlier moment counts as the present one. What is still due stays
    /// due, and the next call goes on.
    ///
    /// It takes no memory. It looks at the machines' first timer alone, once for each timer that
    /// fires and once more, and at no neighbour whose time isn't over. A loop of calls until
    /// `Reached` ends, since `turns_left` falls. A caller who only counts refreshes calls
    /// `run_past_refreshes`.
    pub fn run_to(&mut self, moment: u64) -> Step<F::Addr>
        requires { moment ≤ 10 ^ 15 }
        ensures run { Runs moment self.old (step_seen F.bytes_of result) self.new }
        ensures later { self.old.machines.moment ≤ self.new.machines.moment }
        ensures moment { self.new.machines.moment ≤ max self.old.machines.moment moment }
        ensures reached { result ≡ Reached → self.new.machines.moment
            ≡ max self.old.machines.moment moment }
        ensures nearer { result ≢ Reached → turns_left moment self.new
            < turns_left moment self.old }
        ensures setup { setup_of self.new ≡ setup_of self.old }
    {
        runs_come_nearer();
        self.run_until(moment)
    }

    /// Runs the machines to this moment or to the next refresh, whichever is sooner, and lets time
    /// pass for the neighbours.
    fn run_until(&mut self, moment: u64) -> Step<F::Addr>
        requires { moment ≤ 10 ^ 15 }
        ensures run { Runs moment self.old (step_seen F.bytes_of result) self.new }
        ensures later { self.old.machines.moment ≤ self.new.machines.moment }
        ensures moment { self.new.machines.moment ≤ max self.old.machines.moment moment }
        ensures reached { result ≡ Reached → self.new.machines.moment
            ≡ max self.old.machines.moment moment }
    {
        expiring_twice_is_expiring_once();
        let step = self.machines.run_to(moment.min(self.next_refresh));
        self.machines.is_sound();
        expire_all(&mut self.neighbours, self.machines.now());
        match step {
            Fires::Echo { port, group, what } => return Step::Echo { port, group, what },
            Fires::Reached => {}
        }
        if self.machines.now() < self.next_refresh {
            return Step::Reached;
        }
        self.next_refresh += REFRESH_PERIOD;
        Step::Refresh
    }

    /// Lets time pass up to this moment, in milliseconds, at most 10^15, or until the next
    /// PruneEcho. It passes the refreshes on its way and returns the number of those before its
    /// end. An earlier moment counts as the present one. What is still due stays due, and the next
    /// call goes on.
    ///
    /// It equals calls of `run_to` until one returns no refresh. It counts the refreshes by a
    /// division, so a jump of years costs no more than one of a minute. It takes no memory.
    pub fn run_past_refreshes(&mut self, moment: u64) -> (Fires<F::Addr>, u64)
        requires { moment ≤ 10 ^ 15 }
        ensures run { RunsPast result.1 moment self.old
            (fires_behind (fires_seen F.bytes_of result.0)) self.new }
        ensures later { self.old.machines.moment ≤ self.new.machines.moment }
        ensures moment { self.new.machines.moment ≤ max self.old.machines.moment moment }
        ensures reached { result.0 ≡ fires.Reached →
            self.new.machines.moment ≡ max self.old.machines.moment moment }
        ensures nearer { result.0 ≢ fires.Reached → turns_left moment self.new
            < turns_left moment self.old }
        ensures setup { setup_of self.new ≡ setup_of self.old }
    {
        runs_come_nearer();
        self.run_machines(moment)
    }

    /// Runs the machines to this moment, and lets time pass for the neighbours.
    fn run_machines(&mut self, moment: u64) -> (Fires<F::Addr>, u64)
        requires { moment ≤ 10 ^ 15 }
        ensures run { RunsPast result.1 moment self.old
            (fires_behind (fires_seen F.bytes_of result.0)) self.new }
        ensures later { self.old.machines.moment ≤ self.new.machines.moment }
        ensures moment { self.new.machines.moment ≤ max self.old.machines.moment moment }
        ensures reached { result.0 ≡ fires.Reached →
            self.new.machines.moment ≡ max self.old.machines.moment moment }
    {
        expiring_twice_is_expiring_once();
        let step = self.machines.run_to(moment);
        self.machines.is_sound();
        let stopped = self.machines.now();
        expire_all(&mut self.neighbours, stopped);
        let refreshes = refreshes_before(self.next_refresh, first_unreported(step, stopped));
        self.next_refresh += refreshes * REFRESH_PERIOD;
        (step, refreshes)
    }

    /// Lets time pass up to this moment, in milliseconds, at most 10^15, or until one timer of the
    /// machines has fired, and returns that firing. It removes the neighbours whose time is over by
    /// then, and passes the refreshes on its way. An earlier moment counts as the present one. What
    /// is still due stays due, and the next call goes on.
    ///
    /// By the laws `firing_passes` and `happening_goes_on`, calls up to a moment together do what
    /// happens up to it. A loop of calls until `None` ends, since `turns_left` falls. A call takes
    /// no memory.
    pub fn fire_to(&mut self, moment: u64) -> Option<Firing<F::Addr>>
        requires { moment ≤ 10 ^ 15 }
        ensures fires { FiresTo moment self.old (option_map (firing_seen F.bytes_of) result)
            self.new }
        ensures later { self.old.machines.moment ≤ self.new.machines.moment }
        ensures moment { self.new.machines.moment ≤ max self.old.machines.moment moment }
        ensures reached { result ≡ None → self.new.machines.moment
            ≡ max self.old.machines.moment moment }
        ensures nearer { result ≢ None → turns_left moment self.new < turns_left moment self.old }
        ensures setup { setup_of self.new ≡ setup_of self.old }
    {
        timers_run_out();
        self.fire_machines(moment)
    }

    /// Runs the machines to this moment or until one timer has fired, and lets time pass for the
    /// neighbours.
    fn fire_machines(&mut self, moment: u64) -> Option<Firing<F::Addr>>
        requires { moment ≤ 10 ^ 15 }
        ensures fires { FiresTo moment self.old (option_map (firing_seen F.bytes_of) result)
            self.new }
        ensures later { self.old.machines.moment ≤ self.new.machines.moment }
        ensures moment { self.new.machines.moment ≤ max self.old.machines.moment moment }
        ensures reached { result ≡ None → self.new.machines.moment
            ≡ max self.old.machines.moment moment }
        ensures setup { setup_of self.new ≡ setup_of self.old }
    {
        expiring_twice_is_expiring_once();
        firing_says_more();
        let fired = self.machines.fire_to(moment);
        self.machines.is_sound();
        let halted = self.machines.now();
        expire_all(&mut self.neighbours, halted);
        let passed = refreshes_before(self.next_refresh, first_unpassed(&fired, halted));
        self.next_refresh += passed * REFRESH_PERIOD;
        fired
    }
}
