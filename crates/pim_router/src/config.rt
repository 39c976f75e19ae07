//! The configuration of a router, and its faults. Delays are plain numbers, so that a propagation
//! delay that is out of range is a fault that names its port.

ghost use Rattle.std.specs.Prelude.{◌≡◌, not, nat_lt, ◌||◌, ◌==◌, length};
ghost use Rattle.pim_router.specs.Seen.{setup_seen};
ghost use Rattle.std.specs.List.{position};
ghost use Rattle.pim_addr.specs.Address.{is_source};
ghost use Rattle.pim_addr.specs.Faults.{judged};
ghost use Rattle.pim_router.specs.Config.{config_faults, has_bad_count, has_bad_limit};

use pim_addr::{Family, Routes};
use thiserror::Error;

/// The greatest number of ports.
const PORT_LIMIT: usize = 64;

/// The greatest limit of records for each port.
const RECORD_LIMIT: usize = 100_000;

/// The greatest propagation delay, in milliseconds: 15 bits (RFC 7761, 4.9.2).
const MOST_PROPAGATION: u16 = 32_767;

/// One port: its address, and its own delays, which its Hellos announce (RFC 7761, 4.3.3).
#[derive(Clone, Copy, Debug, PartialEq, Eq)]
pub struct PortConfig<A> {
    /// The port's own address: a valid source.
    pub address: A,
    /// Propagation_Delay, in milliseconds: 0 to 32,767. The default of the RFC is 500.
    pub propagation: u16,
    /// Override_Interval, in milliseconds. The default of the RFC is 2,500.
    pub override_ms: u16,
}

/// The configuration of a router. The router borrows the ports and the route table.
#[derive_where(Clone, Copy)]
pub struct Config<'a, F: Family> {
    /// The ports, 1 to 64, numbered from 0.
    pub ports: &'a [PortConfig<F::Addr>],
    /// The RP of each group, and the upstream neighbour on the way to each address.
    pub routes: &'a Routes<F>,
    /// The most records that each port may hold: 1 to 100,000.
    pub limit: usize,
}

/// Why there is no router. Of several faults the first in this order is returned.
#[derive(Clone, Copy, Debug, PartialEq, Eq, Error)]
pub enum ConfigFault {
    /// There is no port, or there are more than 64.
    #[error("ports")]
    Ports,
    /// The address of this port isn't a valid source; it is the first such port.
    #[error("address {port}")]
    Address {
        /// The port, numbered from 0.
        port: usize,
    },
    /// The propagation delay of this port is above 32,767 ms; it is the first such port.
    #[error("delay {port}")]
    Delay {
        /// The port, numbered from 0.
        port: usize,
    },
    /// The limit of records isn't 1 to 100,000.
    #[error("limit")]
    Limit,
    /// Memory was refused.
    #[error("memory")]
    Memory,
}

/// The first port whose address isn't a valid source.
fn bad_address<F: Family>(ports: &[PortConfig<F::Addr>]) -> Option<usize>
    ensures { result
        ≡ position (λ port. not (is_source F.family (F.bytes_of port.address))) ports.now }
{
    ports.iter().position(|port| !F::is_source(port.address))
}

/// The first port whose propagation delay is out of range.
fn bad_delay<A>(ports: &[PortConfig<A>]) -> Option<usize>
    ensures { result ≡ position (λ port. nat_lt 32767 port.propagation) ports.now }
{
    ports
        .iter()
        .position(|port| port.propagation > MOST_PROPAGATION)
}

/// Whether there is no port, or there are too many.
fn has_bad_count<A>(ports: &[PortConfig<A>]) -> bool
    ensures { result ≡ has_bad_count (length ports.now) }
{
    ports.is_empty() || ports.len() > PORT_LIMIT
}

/// Whether the limit of records is out of range.
fn has_bad_limit(limit: usize) -> bool
    ensures { result ≡ has_bad_limit limit }
{
    limit == 0 || limit > RECORD_LIMIT
}

/// Returns the first fault of a configuration other than `Memory`.
pub(crate) fn check<F: Family>(config: &Config<'_, F>) -> Result<(), ConfigFault>
    ensures { result ≡ judged (config_faults F.family
        (setup_seen F.bytes_of config.now.ports.now config.now.routes.now config.now.limit)) tt }
{
    if has_bad_count(config.ports) {
        return Err(ConfigFault::Ports);
    }
    if let Some(port) = bad_address::<F>(config.ports) {
        return Err(ConfigFault::Address { port });
    }
    if let Some(port) = bad_delay(config.ports) {
        return Err(ConfigFault::Delay { port });
    }
    if has_bad_limit(config.limit) {
        return Err(ConfigFault::Limit);
    }
    Ok(())
}
