//! The test whether a fresh router and its deliveries meet the conditions of `Fits`. It goes over
//! the deliveries once for each message, since it can remember neither without memory. A time that
//! ends exactly at the final moment is too short, and so is a holdtime of 0.

ghost use Rattle.std.specs.Prelude.{◌≡◌, ◌<◌, ◌≤◌, ◌^◌, ◌↔◌, ◌&&◌, ◌==◌, ℕ, true, IsTrue, nat_le};
ghost use Rattle.std.specs.Prelude.{nat_lt, not, length};
ghost use Rattle.std.specs.Prelude.{map, None, nat_eq};
ghost use Rattle.std.specs.List.{list_all, list_any};
ghost use Rattle.std.specs.Cmp.Lexicographic.{pointwise};
ghost use Rattle.pim_hello.specs.Neighbours.{lifetime};
ghost use Rattle.pim_mirror.specs.Config.{fresh_seen, delivery_seen};
ghost use Rattle.pim_mirror.specs.Fits.{Fits, expiry_of};
ghost use Rattle.pim_mirror.specs.Tests.{is_shorter, is_alive, last_with, is_kept, is_in_order};
ghost use Rattle.pim_mirror.specs.Tests.{are_different};
ghost use Rattle.pim_mirror.specs.Tests.{RouterFits, OthersFit, DeliveriesFit, TimesFit};

use crate::config::{Delivery, FreshConfig, OtherNeighbour};
use crate::fresh::{end_of, is_delivered};
use pim_addr::{Family, Routes};
use pim_form::{Messages, Writer};
use pim_router::PortConfig;

/// The greatest propagation delay, in milliseconds: 15 bits (RFC 7761, 4.9.2).
const MOST_PROPAGATION: u16 = 32_767;

/// The greatest limit of records for the port.
const RECORD_LIMIT: usize = 100_000;

/// The greatest number of neighbours beside the sender.
const OTHERS_LIMIT: usize = 1_023;

/// The latest moment of a delivery, in milliseconds.
const LATEST_MOMENT: u64 = 100_000_000_000_000;

/// Whether the messages are for the router's port.
fn is_for<F: Family>(writer: &Writer<F>, port: PortConfig<F::Addr>) -> bool
    ensures { IsTrue result ↔ (F.bytes_of port.address ≡ writer.now.upstream) }
{
    port.address == writer.upstream()
}

/// Whether the messages come from the sender.
fn is_from<F: Family>(writer: &Writer<F>, sender: F::Addr) -> bool
    ensures { IsTrue result ↔ (F.bytes_of sender ≡ writer.now.own) }
{
    sender == writer.own()
}

/// Whether a propagation delay is in its range.
fn is_delay_in_range(propagation: u16) -> bool
    ensures { result ≡ nat_le propagation 32767 }
{
    propagation <= MOST_PROPAGATION
}

/// Whether the limit of records is in its range.
fn is_limit_in_range(limit: usize) -> bool
    ensures { result ≡ (nat_le 1 limit && nat_le limit 100000) }
{
    1 <= limit && limit <= RECORD_LIMIT
}

/// Whether one of the neighbours has this address.
fn has_address<F: Family>(others: &[OtherNeighbour<F::Addr>], address: F::Addr) -> bool
    ensures { result
        ≡ list_any (λ other. pointwise nat_eq (F.bytes_of address) (F.bytes_of other.address))
        others.now }
{
    others.iter().any(|other| address == other.address)
}

/// Whether no two of the neighbours have the same address.
#[tactic(auto, unfolding(crate::specs::Tests::are_different))]
fn are_different<F: Family>(others: &[OtherNeighbour<F::Addr>]) -> bool
    ensures { result ≡ are_different (map (λ other. F.bytes_of other.address) others.now) }
{
    let mut left = others;
    while let Some((other, behind)) = left.split_first() {
        if has_address::<F>(behind, other.address) {
            return false;
        }
        left = behind;
    }
    true
}

/// How long a Hello keeps its sender, in milliseconds; none is without end (RFC 7761, 4.3.2).
fn lifetime(holdtime: Option<u16>) -> Option<u64>
    ensures { result ≡ lifetime holdtime }
{
    match holdtime {
        None => Some(105_000),
        Some(0xffff) => None,
        Some(seconds) => Some(1_000 * u64::from(seconds)),
    }
}

/// How long the records of a message last, in milliseconds, by its holdtime in seconds; none is
/// without end (RFC 7761, 4.9.5).
fn expiry_of(holdtime: u16) -> Option<u64>
    ensures { result ≡ expiry_of holdtime }
{
    if holdtime == 0xffff {
        return None;
    }
    Some(u64::from(holdtime) * 1_000)
}

/// Whether `passed` milliseconds are less than this time; none is without end.
fn is_shorter(passed: u64, time: Option<u64>) -> bool
    ensures { result ≡ is_shorter passed time }
{
    match time {
        None => true,
        Some(time) => passed < time,
    }
}

/// Whether each of the neighbours has time left at the end.
fn stay_until<A>(others: &[OtherNeighbour<A>], end: u64) -> bool
    ensures { result
        ≡ list_all (λ other. is_shorter end (lifetime other.hello.holdtime)) others.now }
{
    others
        .iter()
        .all(|other| is_shorter(end, lifetime(other.hello.holdtime)))
}

/// Whether each delivery is of a message with a number below `count`.
fn are_listed(deliveries: &[Delivery], count: usize) -> bool
    ensures { result ≡ list_all (λ delivery. nat_lt delivery.message count) deliveries.now }
{
    deliveries.iter().all(|delivery| delivery.message < count)
}

/// Whether no delivery is too late.
fn are_early(deliveries: &[Delivery]) -> bool
    ensures { result ≡ list_all (λ delivery. nat_le delivery.moment (10 ^ 14)) deliveries.now }
{
    deliveries
        .iter()
        .all(|delivery| delivery.moment <= LATEST_MOMENT)
}

/// Whether each message with a number below `count` is delivered.
fn each_is_delivered(count: usize, deliveries: &[Delivery]) -> bool
    ensures { IsTrue result ↔ ((message : ℕ) → message < count →
        list_any (λ delivery. delivery.message == message) deliveries.now ≡ true) }
{
    for message in 0..count {
        if !is_delivered(message, deliveries) {
            return false;
        }
    }
    true
}

/// Whether the moments don't fall, up to the end.
#[tactic(auto, unfolding(crate::specs::Tests::is_in_order))]
fn are_in_order(deliveries: &[Delivery], end: u64) -> bool
    ensures { result ≡ is_in_order end 0 (map delivery_seen deliveries.now) }
{
    let mut previous = 0;
    for delivery in deliveries {
        if delivery.moment < previous {
            return false;
        }
        previous = delivery.moment;
    }
    previous <= end
}

/// Whether a message that came last at `last`, if it came at all, hasn't expired at a moment.
fn is_alive(last: Option<u64>, moment: u64, expiry: Option<u64>) -> bool
    ensures { result ≡ is_alive expiry moment last }
{
    match last {
        None => true,
        Some(last) => is_shorter(moment.saturating_sub(last), expiry),
    }
}

/// The moment at which a message came last, this delivery included.
fn last_with(message: usize, last: Option<u64>, delivery: Delivery) -> Option<u64>
    ensures { result ≡ last_with message last (delivery_seen delivery) }
{
    if delivery.message == message {
        Some(delivery.moment)
    } else {
        last
    }
}

/// Whether a message hasn't expired at any delivery, nor at the end.
#[tactic(auto, unfolding(crate::specs::Tests::is_kept))]
fn is_kept(message: usize, deliveries: &[Delivery], expiry: Option<u64>, end: u64) -> bool
    ensures { result ≡ is_kept expiry end message None (map delivery_seen deliveries.now) }
{
    let mut last = None;
    for delivery in deliveries {
        if !is_alive(last, delivery.moment, expiry) {
            return false;
        }
        last = last_with(message, last, *delivery);
    }
    is_alive(last, end, expiry)
}

/// Whether no message with a number below `count` expires.
fn each_is_kept(count: usize, deliveries: &[Delivery], expiry: Option<u64>, end: u64) -> bool
    ensures { IsTrue result ↔ ((message : ℕ) → message < count →
        is_kept expiry end message None (map delivery_seen deliveries.now) ≡ true) }
{
    for message in 0..count {
        if !is_kept(message, deliveries, expiry, end) {
            return false;
        }
    }
    true
}

/// Whether the messages are for the router, it has the sender's table, and it can be made.
fn router_fits<F: Family>(
    writer: &Writer<F>,
    routes: &Routes<F>,
    fresh: &FreshConfig<'_, F>,
) -> bool
    ensures { IsTrue result ↔ RouterFits writer.now routes.now (fresh_seen F.bytes_of fresh.now) }
{
    if fresh.ports.len() != 1 {
        return false;
    }
    let port = fresh.port();
    if !is_for(writer, port) {
        return false;
    }
    if !is_from(writer, fresh.sender) {
        return false;
    }
    if !fresh.routes.equals(routes) {
        return false;
    }
    if !is_delay_in_range(port.propagation) {
        return false;
    }
    is_limit_in_range(fresh.limit)
}

/// Whether the other neighbours have addresses of their own, and there are few enough.
fn others_fit<F: Family>(fresh: &FreshConfig<'_, F>) -> bool
    requires { length fresh.now.ports.now ≡ 1 }
    ensures { IsTrue result ↔ OthersFit (fresh_seen F.bytes_of fresh.now) }
{
    if fresh.others.len() > OTHERS_LIMIT {
        return false;
    }
    if !are_different::<F>(fresh.others) {
        return false;
    }
    if has_address::<F>(fresh.others, fresh.port().address) {
        return false;
    }
    !has_address::<F>(fresh.others, fresh.sender)
}

/// Whether each delivery is of one of `count` messages, each message is delivered, and no delivery
/// is too late.
fn deliveries_fit<F: Family>(count: usize, fresh: &FreshConfig<'_, F>) -> bool
    ensures { IsTrue result ↔ DeliveriesFit count (fresh_seen F.bytes_of fresh.now) }
{
    if !are_listed(fresh.deliveries, count) {
        return false;
    }
    if !each_is_delivered(count, fresh.deliveries) {
        return false;
    }
    are_early(fresh.deliveries)
}

/// Whether no neighbour's time is over by the end, and no message expires.
fn times_fit<F: Family>(count: usize, holdtime: u16, fresh: &FreshConfig<'_, F>) -> bool
    requires one_port { length fresh.now.ports.now ≡ 1 }
    requires deliveries { DeliveriesFit count (fresh_seen F.bytes_of fresh.now) }
    ensures { IsTrue result ↔ TimesFit holdtime (fresh_seen F.bytes_of fresh.now) }
{
    let end = end_of(fresh);
    if !stay_until(fresh.others, end) {
        return false;
    }
    if !are_in_order(fresh.deliveries, end) {
        return false;
    }
    each_is_kept(count, fresh.deliveries, expiry_of(holdtime), end)
}

/// Whether the fresh router, its neighbours and its deliveries meet the conditions of `Fits`, for
/// messages of this writer under this table. It tests neither that the messages are canonical nor
/// that there is room for their records.
///
/// It takes no memory. The time grows with the number of messages times that of deliveries, and
/// with the square of the number of other neighbours up to 1,023.
pub fn fits<F: Family>(
    messages: &Messages,
    writer: &Writer<F>,
    routes: &Routes<F>,
    fresh: &FreshConfig<'_, F>,
) -> bool
    ensures { IsTrue result
        ↔ Fits messages.now writer.now routes.now (fresh_seen F.bytes_of fresh.now) }
{
    let count = messages.count();
    if !router_fits(writer, routes, fresh) {
        return false;
    }
    if !others_fit(fresh) {
        return false;
    }
    if !deliveries_fit(count, fresh) {
        return false;
    }
    times_fit(count, writer.holdtime(), fresh)
}
