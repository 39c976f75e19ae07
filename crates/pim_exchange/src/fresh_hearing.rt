//! The messages of a fresh router that has heard canonical messages alone.
//!
//! Its port has the default delays of RFC 7761, 4.11. The caller gives the limit on records, since
//! a router doesn't report its own. The messages of several ports can have more entries than one
//! port may hold.

ghost use Rattle.std.specs.Prelude.{◌≡◌, ◌≤◌, [], ◌∷◌, map, IfOk, None};
ghost use Rattle.pim_mirror.specs.Config.{delivery_seen, fresh_seen};
ghost use Rattle.pim_mirror.specs.Headline.{CarriesTheForm};
ghost use Rattle.pim_router.specs.Canonical.{IsTooBig};
ghost use Rattle.pim_exchange.specs.FreshHearing.{each_at, fresh_config, fresh_of, AreSent};
ghost use Rattle.pim_exchange.specs.FreshHearing.{Demands};
ghost use Rattle.pim_exchange.specs.FreshHearing.{Mirrored, HeardAgain};

use pim_addr::{Family, Routes};
use pim_form::laws::one_normal_form;
use pim_form::{FormFault, Messages, Writer};
use pim_mirror::laws::{
    canonical_messages_are_short, demanded_stars_have_rps, mirror_answers_for_the_form,
};
use pim_mirror::{Delivery, FreshConfig, MirrorFault, mirror};
use pim_router::{PortConfig, Router};
use std::alloc::{AllocError, Global};

/// The propagation delay of the fresh router's port, in milliseconds (RFC 7761, 4.11:
/// Propagation_delay_default).
const PROPAGATION: u16 = 500;

/// The override delay of the fresh router's port, in milliseconds (RFC 7761, 4.11:
/// t_override_default).
const OVERRIDE: u16 = 2_500;

/// The deliveries of the first `count` messages, each once, at this moment and in order.
pub(crate) fn each_at(alloc: Global, count: usize, moment: u64) -> Result<Vec<Delivery>, AllocError>
    ensures { IfOk result (λ deliveries. map delivery_seen deliveries.items
        ≡ each_at moment count) }
{
    let mut deliveries = Vec::new(alloc);
    for message in 0..count {
        deliveries.push(Delivery { message, moment })?;
    }
    Ok(deliveries)
}

/// The fresh router's only port, at this address.
pub(crate) fn only_port<A: Copy>(
    alloc: Global,
    address: A,
) -> Result<Vec<PortConfig<A>>, AllocError>
    ensures { IfOk result (λ ports. ports.items ≡ fresh_config address ∷ []) }
{
    let mut ports = Vec::new(alloc);
    ports.push(PortConfig {
        address,
        propagation: PROPAGATION,
        override_ms: OVERRIDE,
    })?;
    Ok(ports)
}

/// The fresh router after it has heard each message once.
pub(crate) fn mirror_once<'a, F: Family>(
    alloc: Global,
    messages: &Messages,
    by: &Writer<F>,
    fresh: &FreshConfig<'a, F>,
) -> Result<Router<'a, F>, MirrorFault>
    requires sent { AreSent F.family fresh.now.routes.now by.now messages.now }
    requires once { fresh_seen F.bytes_of fresh.now
        ≡ fresh_of fresh.now.routes.now by.now fresh.now.limit messages.now }
    requires least { 1 ≤ fresh.now.limit }
    requires most { fresh.now.limit ≤ 100000 }
    ensures mirrored { Mirrored F.family fresh.now.routes.now by.now fresh.now.limit messages.now
        result }
    ensures wrote { (sent : AreSent F.family fresh.now.routes.now by.now messages.now) →
        CarriesTheForm F.family fresh.now.routes.now by.now sent.demanded.form messages.now
        (fresh_of fresh.now.routes.now by.now fresh.now.limit messages.now) result }
{
    canonical_messages_are_short();
    demanded_stars_have_rps();
    mirror_answers_for_the_form();
    fresh.routes.is_sound();
    by.is_writing();
    mirror(alloc, messages, by, fresh)
}

/// The canonical messages of the router's demand toward the writer's upstream neighbour. Each star
/// must fit a message.
pub(crate) fn demand_again<F: Family>(
    alloc: Global,
    router: &Router<'_, F>,
    by: &Writer<F>,
) -> Result<Messages, MirrorFault>
    requires { IsTooBig F.family by.now router.now None }
    ensures { Demands F.family by.now router.now result }
{
    one_normal_form();
    match router.canonical(alloc, by) {
        Ok(again) => Ok(again),
        Err(FormFault::TooBig(_)) => unreachable!(),
        Err(FormFault::Memory | FormFault::Tables) => Err(MirrorFault::Memory),
    }
}

/// The canonical messages of a fresh router that has heard each of these messages once, at moment 0
/// and in order. It knows no neighbour but the sender, and may hold `limit` records.
pub(crate) fn hear_again<F: Family>(
    alloc: Global,
    messages: &Messages,
    by: &Writer<F>,
    routes: &Routes<F>,
    limit: usize,
) -> Result<Messages, MirrorFault>
    requires sent { AreSent F.family routes.now by.now messages.now }
    requires least { 1 ≤ limit }
    requires most { limit ≤ 100000 }
    ensures { HeardAgain F.family routes.now by.now limit messages.now result }
{
    let Ok(deliveries) = each_at(alloc, messages.count(), 0) else {
        return Err(MirrorFault::Memory);
    };
    let Ok(ports) = only_port(alloc, by.upstream()) else {
        return Err(MirrorFault::Memory);
    };
    let fresh = FreshConfig {
        ports: &ports,
        routes,
        limit,
        sender: by.own(),
        others: &[],
        deliveries: &deliveries,
    };
    let router = mirror_once(alloc, messages, by, &fresh)?;
    demand_again(alloc, &router, by)
}
