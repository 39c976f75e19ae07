//! A routing daemon in small: packets come in, each has a verdict, and what is asked for goes to
//! the upstream neighbour. Three packets stand for a socket, and a printed line for each thing that
//! a daemon sends.

ghost use Rattle.std.specs.Prelude.{◌≡◌, ◌≤◌, ◌<◌, ◌^◌, length, max, OnOk};
ghost use Rattle.pim_router.specs.State.{setup_of};

use anyhow::Result;
use pim_addr::{Routes, V4};
use pim_form::{Messages, Writer};
use pim_frame::all_routers;
use pim_router::{Config, PortConfig, Router, Step};

/// The interfaces that speak PIM, with their own delays: here one.
const PORTS: [PortConfig<[u8; 4]>; 1] = [PortConfig {
    address: [10, 0, 0, 2],
    propagation: 500,
    override_ms: 2_500,
}];

/// A router on the link of the only port.
const SENDER: [u8; 4] = [10, 0, 0, 9];

/// The neighbour by which all sources and RPs are reached, and the daemon's own address on that
/// link.
const UPSTREAM: [u8; 4] = [10, 0, 1, 1];

const OWN: [u8; 4] = [10, 0, 1, 2];

/// A Hello of holdtime 57,340 s.
const HELLO: [u8; 10] = [0x20, 0, 0, 0, 0, 1, 0, 2, 0xdf, 0xfc];

/// A Join(*,G) of 239.1.1.1 with the RP 10.9.9.9.
const JOIN: [u8; 34] = [
    0x23, 0, 0xc4, 0xd4, 1, 0, 10, 0, 0, 2, 0, 1, 0, 210, 1, 0, 0, 32, 239, 1, 1, 1, 0, 1, 0, 0, 1,
    0, 7, 32, 10, 9, 9, 9,
];

/// The same, and a prune of the source 192.0.2.1 on the shared tree.
const JOIN_AND_PRUNE: [u8; 42] = [
    0x23, 0, 0xfc, 0xb1, 1, 0, 10, 0, 0, 2, 0, 1, 0, 210, 1, 0, 0, 32, 239, 1, 1, 1, 0, 1, 0, 1, 1,
    0, 7, 32, 10, 9, 9, 9, 1, 0, 5, 32, 192, 0, 2, 1,
];

/// Packets of the first port, each with the moment at which it came, in milliseconds since the
/// start.
const PACKETS: [(u64, &[u8]); 3] = [(0, &HELLO), (5, &JOIN), (61_000, &JOIN_AND_PRUNE)];

/// Writes a message, as a daemon would send it.
fn send(rt: &HostRuntime, message: &[u8]) -> Result<()> {
    for byte in message {
        print!(rt; "{byte:02x}")?;
    }
    println!(rt; "")?;
    Ok(())
}

/// Writes each message.
fn send_all(rt: &HostRuntime, messages: &Messages) -> Result<()> {
    for index in 0..messages.count() {
        send(rt, messages.get(index).unwrap_or(&[]))?;
    }
    Ok(())
}

/// Writes the messages that ask the upstream neighbour for what the router's ports want: to be sent
/// at each Refresh.
fn ask_upstream(rt: &HostRuntime, router: &Router<'_, V4>, writer: &Writer<V4>) -> Result<()> {
    let messages = router.canonical(rt.alloc(), writer)?;
    send_all(rt, &messages)
}

/// Does what a step asks for.
fn act(
    rt: &HostRuntime,
    router: &Router<'_, V4>,
    writer: &Writer<V4>,
    step: Step<[u8; 4]>,
) -> Result<()> {
    match step {
        Step::Reached => Ok(()),
        Step::Refresh => ask_upstream(rt, router, writer),
        Step::Echo { port, group, .. } => {
            println!(rt; "a PruneEcho of {group:?} on {port}")?;
            Ok(())
        }
    }
}

/// Lets time pass until this moment: before each packet, and whenever the daemon wakes up.
fn run(rt: &HostRuntime, router: &mut Router<'_, V4>, writer: &Writer<V4>, until: u64) -> Result<()>
    requires { until ≤ 10 ^ 15 }
    ensures moment { OnOk result (router.new.machines.moment
        ≡ max router.old.machines.moment until) }
    ensures setup { setup_of router.new ≡ setup_of router.old }
{
    loop {
        match router.run_to(until) {
            Step::Reached => return Ok(()),
            step => act(rt, router, writer, step)?,
        }
    }
}

/// Lets a packet come to the only port.
fn take(rt: &HostRuntime, router: &mut Router<'_, V4>, moment: u64, packet: &[u8]) -> Result<()>
    requires port { length router.old.ports ≡ 1 }
    requires packet { length packet.now < 2 ^ 32 }
    ensures setup { setup_of router.new ≡ setup_of router.old }
{
    // want of memory changes nothing: a daemon would go on, as if the packet had been lost
    let verdict = router.take_packet(0, SENDER, all_routers::<V4>(), packet)?;
    println!(rt; "{moment} {verdict:?}")?;
    Ok(())
}

/// Lets the packets come, each at its moment.
fn hear(rt: &HostRuntime, router: &mut Router<'_, V4>, writer: &Writer<V4>) -> Result<()>
    requires { length router.old.ports ≡ 1 }
{
    for (moment, packet) in PACKETS {
        run(rt, router, writer, moment)?;
        take(rt, router, moment, packet)?;
    }
    // a prune of the only neighbour counts at once
    run(rt, router, writer, 61_000)
}

/// Writes what the router's machines are.
fn write_records(rt: &HostRuntime, router: &Router<'_, V4>) -> Result<()> {
    for held in router.ports().records() {
        println!(rt; "{:?} {:?}", held.key.what, held.machine.state)?;
    }
    Ok(())
}

/// All groups have one RP, and all addresses are reached by one neighbour.
fn table(rt: &HostRuntime) -> Result<Routes<V4>> {
    let mut routes = Routes::<V4>::new(rt.alloc());
    routes.add_rp([224, 0, 0, 0], 4, [10, 9, 9, 9])?;
    routes.add_via([0; 4], 0, UPSTREAM)?;
    Ok(routes)
}

/// A router that knows the RP of all groups and the way to it, with at most 1,000 records a port,
/// hears the packets.
pub fn write_messages(rt: &HostRuntime) -> Result<()> {
    let routes = table(rt)?;
    let config = Config {
        ports: &PORTS,
        routes: &routes,
        limit: 1_000,
    };
    let mut router = Router::<V4>::new(rt.alloc(), &config)?;
    let writer = Writer::<V4>::new(UPSTREAM, OWN, 210, 1_460)?;
    hear(rt, &mut router, &writer)?;
    write_records(rt, &router)?;
    ask_upstream(rt, &router, &writer)
}
