//! What is known of routers, message by message.

ghost use Rattle.std.specs.Prelude.{◌≡◌, ◌<◌, ◌≤◌, ◌&&◌, length, IfOk, IfSome, is_some, true};
ghost use Rattle.std.specs.Prelude.{vec_len, vec_capacity};
ghost use Rattle.pim_summary.specs.Lists.{Ascends, keeps, listed, spare_of};
ghost use Rattle.pim_summary.specs.Routers.{more, one_more, one_more_if, is_changed, last_of};
ghost use Rattle.pim_summary.specs.Routers.{new_router, router_address, router_after};
ghost use Rattle.pim_summary.specs.Routers.{is_first_by, known_router, none_sent, one_sent};
ghost use Rattle.pim_summary.specs.Routers.{after_hello, after_join_prune, is_first_to};
ghost use Rattle.pim_summary.specs.Routers.{sent_to};

use crate::facts::{HelloFacts, RouterFacts, SentFacts};
use crate::listed::{Counted, Kept, Listed, add_one, settle};
use pim_lines::AnyAddress;
use std::alloc::{AllocError, Global};

/// The greatest number of routers.
pub(crate) const MOST_ROUTERS: usize = 1024;

/// What a message says of its sender.
#[derive(Clone, Copy, Debug, PartialEq, Eq)]
pub(crate) enum OfSender {
    /// It is a Hello with these options.
    Hello(HelloFacts),
    /// It is a Join/Prune to this upstream neighbour, which the summary keeps.
    JoinPruneTo(AnyAddress),
    /// Nothing else.
    Nothing,
}

/// The sum. It stops at 2^64 - 1.
pub(crate) fn more(count: u64, by: u64) -> u64
    ensures { result ≡ more count by }
{
    count.saturating_add(by)
}

/// One more. The count stops at 2^64 - 1.
pub(crate) fn one_more(count: u64) -> u64
    ensures { result ≡ one_more count }
{
    more(count, 1)
}

/// One more if this holds.
pub(crate) fn one_more_if(holds: bool, count: u64) -> u64
    ensures { result ≡ one_more_if holds count }
{
    if holds { one_more(count) } else { count }
}

impl Listed for SentFacts {
    ghost use Rattle.pim_summary.specs.Routers.{sent_to};

    ghost key = { sent_to };

    fn key(&self) -> AnyAddress {
        self.to
    }
}

impl Counted for SentFacts {
    ghost use Rattle.std.specs.Prelude.{refl};
    ghost use Rattle.pim_summary.specs.Routers.{none_sent, one_sent};

    ghost zero = { none_sent };

    ghost one_more = { one_sent };

    fn zero(address: AnyAddress) -> SentFacts {
        SentFacts {
            to: address,
            messages: 0,
        }
    }

    fn one_more(self) -> SentFacts {
        SentFacts {
            to: self.to,
            messages: one_more(self.messages),
        }
    }

    ghost key_of_zero = { λ address. refl };

    ghost key_of_one_more = { λ item. refl };
}

impl Listed for RouterFacts {
    ghost use Rattle.pim_summary.specs.Routers.{router_address};

    ghost key = { router_address };

    fn key(&self) -> AnyAddress {
        self.address
    }
}

impl Kept for RouterFacts {
    ghost use Rattle.std.specs.Prelude.{refl};
    ghost use Rattle.pim_summary.specs.Routers.{new_router};

    ghost none = { new_router };

    fn none(alloc: Global, address: AnyAddress) -> Result<RouterFacts, AllocError> {
        Ok(RouterFacts {
            address,
            hellos: 0,
            last_hello: None,
            generation: None,
            restarts: 0,
            sent: Vec::with_capacity(alloc, 64)?,
        })
    }

    ghost key_of_none = { λ address. refl };
}

/// Whether a Generation ID is there both times, and differs.
fn is_changed(old: Option<u32>, new: Option<u32>) -> bool
    ensures { result ≡ is_changed old new }
{
    match (old, new) {
        (Some(old), Some(new)) => old != new,
        _ => false,
    }
}

/// The last Generation ID that is there.
fn last_of(old: Option<u32>, new: Option<u32>) -> Option<u32>
    ensures { result ≡ last_of old new }
{
    match new {
        Some(new) => Some(new),
        None => old,
    }
}

/// Counts a Hello of a router.
fn hear_hello(router: &mut RouterFacts, hello: HelloFacts)
    ensures { router.new ≡ after_hello hello router.old }
{
    router.restarts = one_more_if(
        is_changed(router.generation, hello.generation),
        router.restarts,
    );
    router.hellos = one_more(router.hellos);
    router.last_hello = Some(hello);
    router.generation = last_of(router.generation, hello.generation);
}

/// Counts a Join/Prune of a router. Returns whether it is the first one to this upstream neighbour.
fn hear_join_prune(router: &mut RouterFacts, to: AnyAddress) -> bool
    ensures router { router.new ≡ after_join_prune to router.old }
    ensures first { result ≡ is_first_to to router.old }
{
    let added = add_one::<SentFacts>(&mut router.sent, to);
    added.is_new
}

/// Counts a message of a router. Returns whether it is its first Join/Prune to an upstream
/// neighbour.
fn hear(router: &mut RouterFacts, said: OfSender) -> bool
    ensures router { router.new ≡ router_after said router.old }
    ensures first { result ≡ is_first_by said router.old }
{
    match said {
        OfSender::Hello(hello) => {
            hear_hello(router, hello);
            false
        }
        OfSender::JoinPruneTo(to) => hear_join_prune(router, to),
        OfSender::Nothing => false,
    }
}

/// What a list of routers makes of a message.
#[derive(Clone, Copy)]
pub(crate) struct Heard {
    /// Its sender is listed.
    pub(crate) is_kept: bool,
    /// It is the first Join/Prune of its sender to an upstream neighbour.
    pub(crate) is_first: bool,
}

/// Counts a message of this router. The spare item is the new one, where the list takes it.
pub(crate) fn hear_sender(
    routers: &mut Vec<RouterFacts>,
    source: AnyAddress,
    spare: Option<RouterFacts>,
    said: OfSender,
) -> Heard
    requires order { Ascends router_address routers.old.items }
    requires spare { spare ≡ spare_of router_address source 1024 (new_router source)
        routers.old.items }
    requires room { is_some spare ≡ true → vec_len routers.old < vec_capacity routers.old }
    ensures routers { routers.new.items ≡ listed router_address source 1024 (new_router source)
        (router_after said) routers.old.items }
    ensures order { Ascends router_address routers.new.items }
    ensures kept { result.is_kept ≡ keeps router_address source 1024 routers.old.items }
    ensures first { result.is_first ≡ (keeps router_address source 1024 routers.old.items
        && is_first_by said (known_router source routers.old.items)) }
{
    let Some(place) = settle(routers, MOST_ROUTERS, source, spare) else {
        return Heard {
            is_kept: false,
            is_first: false,
        };
    };
    let is_first = hear(&mut routers[place], said);
    Heard {
        is_kept: true,
        is_first,
    }
}
