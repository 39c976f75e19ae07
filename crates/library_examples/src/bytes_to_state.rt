//! From the bytes of a message to the state of a port: what a routing daemon does with each
//! Join/Prune that it receives.

ghost use Rattle.std.specs.Prelude.{◌≡◌, ◌↔◌, IsTrue};

use pim_addr::{Routes, V4};
use pim_down::{Ports, Timing, What};
use pim_frame::{Body, all_routers, open};
use pim_jp::JpView;
use std::io;

/// A Join(*,G) of 239.1.1.1 with the RP 10.9.9.9, sent to the upstream neighbour 10.0.0.2.
const MESSAGE: [u8; 34] = [
    0x23, 0, 0xc4, 0xd4, 1, 0, 10, 0, 0, 2, 0, 1, 0, 210, 1, 0, 0, 32, 239, 1, 1, 1, 0, 1, 0, 0, 1,
    0, 7, 32, 10, 9, 9, 9,
];

const GROUP: [u8; 4] = [239, 1, 1, 1];

const OWN_ADDRESS: [u8; 4] = [10, 0, 0, 2];

/// All groups begin with the 4 bits of this prefix.
const ALL_GROUPS: [u8; 4] = [224, 0, 0, 0];

const RENDEZVOUS_POINT: [u8; 4] = [10, 9, 9, 9];

const SENDER: [u8; 4] = [10, 0, 0, 9];

/// Whether the message is meant for this router: its upstream neighbour is the port's own address
/// (RFC 7761, 4.5.1).
fn is_for(message: &JpView<'_, V4>, own: [u8; 4]) -> bool
    ensures { IsTrue result ↔ (message.now.upstream ≡ own) }
{
    message.upstream() == own
}

/// One port, with room for a hundred records, that has one neighbour and hears the message at the
/// moment 0.
pub fn write_state(rt: &HostRuntime) -> io::Result<()> {
    let Ok(Body::JoinPrune(body)) = open::<V4>(SENDER, all_routers::<V4>(), &MESSAGE) else {
        return println!(rt; "no sound Join/Prune");
    };
    let message = match JpView::<V4>::read(body) {
        Ok(message) => message,
        Err(fault) => return println!(rt; "{fault}"),
    };
    if !is_for(&message, OWN_ADDRESS) {
        return println!(rt; "for another router");
    }
    let mut routes = Routes::<V4>::new(rt.alloc());
    if let Err(fault) = routes.add_rp(ALL_GROUPS, 4, RENDEZVOUS_POINT) {
        return println!(rt; "{fault}");
    }
    let mut ports = Ports::<V4>::new(rt.alloc(), 1, 100);
    let timing = Timing {
        override_ms: 3_000,
        several: false,
    };
    if let Err(fault) = ports.hear(0, &message, &routes, timing) {
        return println!(rt; "{fault}");
    }
    ports.run_to(60_000);
    println!(rt; "{:?}", ports.state_of(0, GROUP, What::Star))?;
    println!(rt; "next timer at {:?}", ports.next_due())
}
