//! A fresh router that has received the Hellos of its neighbours at the moment 0 (RFC 7761, 4.3.1).

ghost use Rattle.std.specs.Prelude.{◌≡◌, ◌<◌, ◌≤◌, ◌^◌, ◌+◌, [], length, map};
ghost use Rattle.std.specs.Result.{OnOk, IfOk};
ghost use Rattle.pim_frame.specs.Frame.{all_routers};
ghost use Rattle.pim_frame.specs.Seal.{IsSealed};
ghost use Rattle.pim_frame.specs.declared.frame.MessageType.TheVariants as message_type;
ghost use Rattle.pim_hello.specs.Kept.{parameters_seen};
ghost use Rattle.pim_hello.specs.Seen.{hello_seen};
ghost use Rattle.pim_hello.specs.Spelling.{spelling_of, ParametersFit};
ghost use Rattle.pim_router.specs.State.{new_router};
ghost use Rattle.pim_mirror.specs.Config.{fresh_seen, neighbour_seen, neighbours, setup_of};
ghost use Rattle.pim_mirror.specs.Config.{sender_hello, port_of};
ghost use Rattle.pim_mirror.specs.Mirror.{PassesHello, PassesHellos};

use crate::config::{FreshConfig, OtherNeighbour};
use pim_addr::Family;
use pim_frame::{MessageType, all_routers, seal, sealed_opens};
use pim_hello::{Addresses, Hello, LanDelay, Parameters};
use pim_router::laws::{course_goes_on, every_list_has_a_course};
use pim_router::{Config, Router};
use std::alloc::{AllocError, Global};

/// The greatest length of a Hello without an Address List, in bytes, header included.
const LONGEST_HELLO: usize = 36;

/// A Hello with these parameters and without an Address List.
fn hello_of<F: Family>(said: Parameters) -> Hello<'static, F>
    ensures { hello_seen F.family result
        ≡ record { parameters = parameters_seen said; addresses = [] } }
{
    Hello {
        holdtime: said.holdtime,
        lan: said.lan,
        priority: said.priority,
        generation: said.generation,
        addresses: Addresses::none(),
    }
}

/// The length of a Hello without an Address List, in bytes, header included.
#[tactic(auto, using(crate::proofs::Hellos::hello_is_short))]
fn size_of_hello<F: Family>(hello: &Hello<'_, F>) -> usize
    requires { (hello_seen F.family hello.now).addresses ≡ [] }
    ensures size { result ≡ 4 + length (spelling_of F.family (hello_seen F.family hello.now)) }
    ensures short { result ≤ 36 }
{
    4 + hello.length()
}

/// Writes a Hello from this address, sealed for ALL-PIM-ROUTERS.
fn put_hello<F: Family>(address: F::Addr, hello: &Hello<'_, F>, frame: &mut [u8])
    requires size { length frame.old ≡ 4
        + length (spelling_of F.family (hello_seen F.family hello.now)) }
    requires short { length frame.old ≤ 36 }
    ensures sealed { IsSealed F.family (F.bytes_of address) (all_routers F.family)
        message_type.Hello
        (spelling_of F.family (hello_seen F.family hello.now)) frame.new }
    ensures fits { ParametersFit (hello_seen F.family hello.now).parameters }
    ensures length { length frame.new ≡ length frame.old }
{
    let (_, body) = frame.split_at_mut(4);
    hello.put(body);
    seal::<F>(address, all_routers::<F>(), MessageType::Hello, frame);
}

/// Lets the router receive the Hello of a neighbour.
fn meet<F: Family>(
    router: &mut Router<'_, F>,
    neighbour: OtherNeighbour<F::Addr>,
) -> Result<(), AllocError>
    requires { length router.old.ports ≡ 1 }
    ensures ports { router.new.ports ≡ router.old.ports }
    ensures passes { OnOk result
        (PassesHello F.family (neighbour_seen F.bytes_of neighbour) router.old router.new) }
{
    sealed_opens();
    let hello = hello_of::<F>(neighbour.hello);
    let mut buffer = [0; LONGEST_HELLO];
    let (frame, _) = buffer.split_at_mut(size_of_hello(&hello));
    put_hello(neighbour.address, &hello, frame);
    router.take_packet(0, neighbour.address, all_routers::<F>(), frame)?;
    Ok(())
}

/// Lets the router receive the Hellos of the other neighbours.
fn meet_others<F: Family>(
    router: &mut Router<'_, F>,
    others: &[OtherNeighbour<F::Addr>],
) -> Result<(), AllocError>
    requires { length router.old.ports ≡ 1 }
    ensures ports { router.new.ports ≡ router.old.ports }
    ensures passes { OnOk result
        (PassesHellos F.family (map (neighbour_seen F.bytes_of) others.now) router.old router.new) }
{
    every_list_has_a_course();
    course_goes_on();
    for other in others {
        meet(router, *other)?;
    }
    Ok(())
}

/// The sender as a neighbour of the fresh router: with holdtime 65,535, and with the router's own
/// delays.
fn sender_of<F: Family>(fresh: &FreshConfig<'_, F>) -> OtherNeighbour<F::Addr>
    requires one_port { length fresh.now.ports.now ≡ 1 }
    requires propagation { (port_of (fresh_seen F.bytes_of fresh.now)).propagation ≤ 32767 }
    ensures { neighbour_seen F.bytes_of result ≡ record {
      address = F.bytes_of fresh.now.sender;
      hello = sender_hello (port_of (fresh_seen F.bytes_of fresh.now));
    } }
{
    let port = fresh.port();
    let lan = LanDelay {
        t: false,
        propagation: port.propagation,
        override_ms: port.override_ms,
    };
    OtherNeighbour {
        address: fresh.sender,
        hello: Parameters {
            holdtime: Some(0xffff),
            lan: Some(lan),
            priority: None,
            generation: None,
        },
    }
}

/// Makes a fresh router and lets it receive the Hellos of its neighbours, the sender's first.
pub(crate) fn introduced<'a, F: Family>(
    alloc: Global,
    fresh: &FreshConfig<'a, F>,
) -> Result<Router<'a, F>, AllocError>
    requires one_port { length fresh.now.ports.now ≡ 1 }
    requires propagation { (port_of (fresh_seen F.bytes_of fresh.now)).propagation ≤ 32767 }
    ensures port { IfOk result (λ router. length router.ports ≡ 1) }
    ensures passes { IfOk result
        (λ router. PassesHellos F.family (neighbours (fresh_seen F.bytes_of fresh.now))
        (new_router (setup_of (fresh_seen F.bytes_of fresh.now))) router) }
{
    every_list_has_a_course();
    course_goes_on();
    let config = Config {
        ports: fresh.ports,
        routes: fresh.routes,
        limit: fresh.limit,
    };
    let Ok(mut router) = Router::new(alloc, &config) else {
        return Err(AllocError);
    };
    meet(&mut router, sender_of(fresh))?;
    meet_others(&mut router, fresh.others)?;
    Ok(router)
}
