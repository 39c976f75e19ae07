//! What a router may be made from. The numbers of ports, 64 and 65, are in `words.case` of
//! `pimtree_cases`.

use super::PORTS;
use pim_addr::{Routes, V4};
use pim_router::{Config, ConfigFault, PortConfig, Router};
use std::alloc::Global;

/// The fault of a configuration of these ports, if it has one.
fn fault(alloc: Global, ports: &[PortConfig<[u8; 4]>], limit: usize) -> Option<ConfigFault> {
    let routes = Routes::<V4>::new(alloc);
    let config = Config {
        ports,
        routes: &routes,
        limit,
    };
    Router::new(alloc, &config).err()
}

/// Ports, a limit, and the fault of their configuration.
type Configuration<'a> = (&'a [PortConfig<[u8; 4]>], usize, Option<ConfigFault>);

/// The first of these that has another fault.
fn wrong(alloc: Global, rows: &[Configuration<'_>]) -> Option<usize> {
    for index in 0..rows.len() {
        let (ports, limit, wanted) = rows[index];
        if fault(alloc, ports, limit) != wanted {
            return Some(index);
        }
    }
    None
}

const FIRST: PortConfig<[u8; 4]> = PortConfig {
    address: [10, 0, 0, 1],
    propagation: 500,
    override_ms: 2500,
};

const SECOND: PortConfig<[u8; 4]> = PortConfig {
    address: [10, 0, 1, 1],
    propagation: 500,
    override_ms: 2500,
};

/// Its address is that of a group.
const OF_GROUP: PortConfig<[u8; 4]> = PortConfig {
    address: [224, 0, 0, 1],
    propagation: 500,
    override_ms: 2500,
};

/// Its propagation delay is too long.
const SLOW: PortConfig<[u8; 4]> = PortConfig {
    address: [10, 0, 0, 1],
    propagation: 32_768,
    override_ms: 2500,
};

const ROWS: [Configuration<'static>; 6] = [
    (&[], 0, Some(ConfigFault::Ports)),
    (&PORTS, 100_000, None),
    (
        &[SLOW, SECOND, OF_GROUP, OF_GROUP],
        0,
        Some(ConfigFault::Address { port: 2 }),
    ),
    (&[FIRST, SLOW], 0, Some(ConfigFault::Delay { port: 1 })),
    (&PORTS, 0, Some(ConfigFault::Limit)),
    (&PORTS, 100_001, Some(ConfigFault::Limit)),
];

#[test]
fn ports_addresses_delays_and_limits(rt: HostRuntime) {
    assert_eq!(rt; wrong(rt.alloc(), &ROWS), None);
}
