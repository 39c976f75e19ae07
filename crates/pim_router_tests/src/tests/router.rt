//! Routers to which messages come that are made in loops, whose configuration no command reaches,
//! or whose memory is refused. The other examples of a router are scenarios of `pimtree_cases`.

mod configurations;
mod jumps;
mod memory;
mod refused;
mod spoilt;
mod spoilt_rows;
mod tables;

use pim_addr::{RouteFault, Routes, V4};
use pim_frame::all_routers;
use pim_router::{Config, PortConfig, Router, Verdict};
use std::alloc::{AllocError, Global};

/// The RP of all groups.
const RP: [u8; 4] = [10, 9, 9, 9];

const GROUP: [u8; 4] = [239, 1, 1, 1];

/// A sender on the link of the first port.
const ANNE: [u8; 4] = [10, 0, 0, 9];

/// And one on that of the second port.
pub(super) const BERT: [u8; 4] = [10, 0, 1, 9];

const PORTS: [PortConfig<[u8; 4]>; 3] = [
    PortConfig {
        address: [10, 0, 0, 1],
        propagation: 500,
        override_ms: 2500,
    },
    PortConfig {
        address: [10, 0, 1, 1],
        propagation: 500,
        override_ms: 2500,
    },
    PortConfig {
        address: [10, 0, 2, 1],
        propagation: 500,
        override_ms: 2500,
    },
];

/// A Hello whose sender is kept for ever.
pub(super) const FOR_EVER: [u8; 10] = [0x20, 0, 0xdf, 0xfc, 0, 1, 0, 2, 255, 255];

/// Lets a port receive some bytes; `None` where the port isn't there or there are too many bytes.
pub(super) fn receive(
    router: &mut Router<'_, V4>,
    port: usize,
    from: [u8; 4],
    bytes: &[u8],
) -> Result<Option<Verdict>, AllocError> {
    if port >= router.port_count() || bytes.len() >= 65_536 {
        return Ok(None);
    }
    let verdict = router.take_packet(port, from, all_routers::<V4>(), bytes)?;
    Ok(Some(verdict))
}

/// How many neighbours a port has; none where it isn't there.
fn neighbour_count(router: &Router<'_, V4>, port: usize) -> usize {
    if port >= router.port_count() {
        return 0;
    }
    router.neighbours(port).count()
}

/// Adds the RP of all groups, and this neighbour for all addresses.
fn add_both(routes: &mut Routes<V4>, upstream: [u8; 4]) -> Result<(), RouteFault> {
    routes.add_rp([224, 0, 0, 0], 4, RP)?;
    routes.add_via([0, 0, 0, 0], 0, upstream)
}

/// A table with both; `None` where a growth is refused.
pub(super) fn table(alloc: Global, upstream: [u8; 4]) -> Option<Routes<V4>> {
    let mut routes = Routes::new(alloc);
    let are_added = add_both(&mut routes, upstream).is_ok();
    are_added.then_some(routes)
}

/// A new router of the ports under this table; `None` where a growth is refused.
pub(super) fn made<'a>(alloc: Global, routes: &'a Routes<V4>) -> Option<Router<'a, V4>> {
    let config = Config {
        ports: &PORTS,
        routes,
        limit: 1000,
    };
    Router::new(alloc, &config).ok()
}
