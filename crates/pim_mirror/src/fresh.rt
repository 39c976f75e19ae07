//! The port of a fresh router, its override interval, and its final moment.

ghost use Rattle.std.specs.Prelude.{◌≡◌, ◌≤◌, ◌^◌, ◌+◌, ◌==◌, length, map, reverse, if◌then◌else◌};
ghost use Rattle.std.specs.List.{list_any};
ghost use Rattle.pim_router.specs.Seen.{port_seen};
ghost use Rattle.pim_fresh.specs.Deliveries.{final_moment};
ghost use Rattle.pim_mirror.specs.Config.{fresh_seen, delivery_seen, port_of, interval_of, end_of};
ghost use Rattle.pim_mirror.specs.Tests.{AreEarly};

use crate::config::{Delivery, FreshConfig};
use pim_addr::Family;
use pim_router::PortConfig;

/// J/P_Override_Interval(I) where lan_delay_enabled(I) is false, in milliseconds (RFC 7761, 4.3.3).
const DEFAULT_OVERRIDE_INTERVAL: u64 = 3_000;

impl<'a, F: Family> FreshConfig<'a, F> {
    /// The router's only port.
    pub fn port(&self) -> PortConfig<F::Addr>
        requires { length self.now.ports.now ≡ 1 }
        ensures { port_seen F.bytes_of result ≡ port_of (fresh_seen F.bytes_of self.now) }
    {
        match self.ports.first() {
            Some(port) => *port,
            None => unreachable!(),
        }
    }
}

/// Whether one of these deliveries is of this message. It starts at the newest one.
pub(crate) fn is_delivered(message: usize, deliveries: &[Delivery]) -> bool
    ensures { result ≡ list_any (λ delivery. delivery.message == message) deliveries.now }
{
    deliveries
        .iter()
        .rev()
        .any(|delivery| delivery.message == message)
}

/// The override interval of the router's port, J/P_Override_Interval(I), in milliseconds (RFC 7761,
/// 4.3.3).
#[tactic(auto, using(crate::proofs::Intervals::with_sender))]
pub(crate) fn interval_of<F: Family>(fresh: &FreshConfig<'_, F>) -> u64
    requires { length fresh.now.ports.now ≡ 1 }
    ensures interval { result ≡ interval_of (fresh_seen F.bytes_of fresh.now) }
    ensures bound { result ≤ 131070 }
{
    let own = fresh.port();
    let (mut propagation, mut override_ms) = (own.propagation, own.override_ms);
    for other in fresh.others {
        let Some(lan) = other.hello.lan else {
            return DEFAULT_OVERRIDE_INTERVAL;
        };
        propagation = propagation.max(lan.propagation);
        override_ms = override_ms.max(lan.override_ms);
    }
    u64::from(propagation) + u64::from(override_ms)
}

/// When the prunes of a delivery after the `earlier` ones have acted, in milliseconds: a new
/// message's after the override interval.
fn settled_at(delivery: Delivery, earlier: &[Delivery], interval: u64) -> u64
    requires early { delivery.moment ≤ 10 ^ 14 }
    requires interval { interval ≤ 131070 }
    ensures settled { result ≡ (if list_any (λ other. other.message == delivery.message) earlier.now
        then delivery.moment else delivery.moment + interval) }
    ensures bound { result ≤ 10 ^ 15 }
{
    if is_delivered(delivery.message, earlier) {
        return delivery.moment;
    }
    delivery.moment + interval
}

/// The final moment of a router with this override interval, in milliseconds.
fn final_moment(deliveries: &[Delivery], interval: u64) -> u64
    requires early { AreEarly (map delivery_seen deliveries.now) }
    requires interval { interval ≤ 131070 }
    ensures end { result ≡ final_moment interval (reverse (map delivery_seen deliveries.now)) }
    ensures bound { result ≤ 10 ^ 15 }
{
    let mut latest = 0;
    let mut left = deliveries;
    while let Some((delivery, earlier)) = left.split_last() {
        latest = settled_at(*delivery, earlier, interval).max(latest);
        left = earlier;
    }
    latest
}

/// The final moment of the router, in milliseconds.
pub(crate) fn end_of<F: Family>(fresh: &FreshConfig<'_, F>) -> u64
    requires one_port { length fresh.now.ports.now ≡ 1 }
    requires early { AreEarly (fresh_seen F.bytes_of fresh.now).deliveries }
    ensures end { result ≡ end_of (fresh_seen F.bytes_of fresh.now) }
    ensures bound { result ≤ 10 ^ 15 }
{
    final_moment(fresh.deliveries, interval_of(fresh))
}
