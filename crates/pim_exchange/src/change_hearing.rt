//! The messages of a fresh router that has heard canonical messages, and then those of a change.

ghost use Rattle.std.specs.Prelude.{◌≡◌, ◌≤◌, ◌<◌, ◌^◌, List, ℕ, length};
ghost use Rattle.std.specs.List.{AllByRecursion};
ghost use Rattle.pim_mirror.specs.Mirror.{Passes};
ghost use Rattle.pim_exchange.specs.ChangeHearing.{change_inputs, AreCarried, MovedAgain};

use crate::fresh_hearing::{demand_again, each_at, mirror_once, only_port};
use pim_addr::{Family, Routes};
use pim_change::laws::change_messages_are_short;
use pim_form::laws::{same_messages_same_demand_toward, test_finds_the_neighbour};
use pim_form::{Messages, Writer};
use pim_mirror::laws::demanded_stars_have_rps;
use pim_mirror::{FreshConfig, MirrorFault, hear_deliveries};
use pim_moving::laws::{change_moves_a_router, long_timers_last, mirror_is_settled};
use pim_router::Router;
use pim_router::laws::every_list_has_a_course;
use std::alloc::Global;

/// The override interval of the fresh router's port, in milliseconds (RFC 7761, 4.3.3:
/// J/P_Override_Interval(I)).
const OVERRIDE_INTERVAL: u64 = 3_000;

/// Lets a router hear each of these messages once, in order and at its present moment. Then it runs
/// on until the override interval is over.
fn hear_change<F: Family>(
    alloc: Global,
    router: &mut Router<'_, F>,
    change: &Messages,
    sender: F::Addr,
) -> Result<(), MirrorFault>
    requires port { length router.old.ports ≡ 1 }
    requires short { AllByRecursion (λ message. length message < 2 ^ 32) change.now }
    requires early { router.old.machines.moment ≤ 3000 }
    ensures { Passes F.family
        (change_inputs F.family change.now (F.bytes_of sender) router.old.machines.moment)
        router.old result router.new }
{
    every_list_has_a_course();
    let moment = router.now();
    let Ok(deliveries) = each_at(alloc, change.count(), moment) else {
        return Err(MirrorFault::Memory);
    };
    hear_deliveries(
        router,
        change,
        sender,
        &deliveries,
        moment + OVERRIDE_INTERVAL,
    )
}

/// The canonical messages of a fresh router that has heard the messages `before`, and then those of
/// a change. It hears each message once and in order: the former at moment 0, the latter at its
/// final moment. Then its override interval passes. It knows no neighbour but the sender, and may
/// hold `limit` records.
pub(crate) fn move_again<F: Family>(
    alloc: Global,
    before: &Messages,
    change: &Messages,
    by: &Writer<F>,
    routes: &Routes<F>,
    limit: usize,
) -> Result<Messages, MirrorFault>
    requires reported { (wanted : List (List ℕ))
        × AreCarried F.family routes.now by.now before.now change.now wanted }
    requires least { 1 ≤ limit }
    requires most { limit ≤ 100000 }
    ensures { (wanted : List (List ℕ))
        → AreCarried F.family routes.now by.now before.now change.now wanted →
        MovedAgain F.family routes.now by.now limit before.now change.now wanted result }
{
    demanded_stars_have_rps();
    change_messages_are_short();
    change_moves_a_router();
    long_timers_last();
    mirror_is_settled();
    same_messages_same_demand_toward();
    test_finds_the_neighbour();
    routes.is_sound();
    by.is_writing();
    let Ok(deliveries) = each_at(alloc, before.count(), 0) else {
        return Err(MirrorFault::Memory);
    };
    let Ok(ports) = only_port(alloc, by.upstream()) else {
        return Err(MirrorFault::Memory);
    };
    let fresh = FreshConfig {
        ports: &ports,
        routes,
        limit,
        sender: by.own(),
        others: &[],
        deliveries: &deliveries,
    };
    let mut router = mirror_once(alloc, before, by, &fresh)?;
    router.is_router();
    router.ports().is_sound();
    hear_change(alloc, &mut router, change, by.own())?;
    demand_again(alloc, &router, by)
}
