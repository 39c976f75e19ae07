//! The event of a frame.

ghost use Rattle.std.specs.Prelude.{◌≡◌, ◌≢◌, ◌≤◌, length, drop};
ghost use Rattle.pim_container.specs.EventSeen.{event_seen, EventLiesIn, IsBy, frame_event};
ghost use Rattle.pim_container.specs.EventSeen.{unplaced, origin_of, family_event};

use crate::event::{ContainerEvent, Origin};
use crate::link::LinkLayer;
use crate::place::{PacketPlace, place_of};
use pim_addr::AddressFamily;
use pim_capture::{InterfaceName, Vlan, Why};
use pim_fragments::part_of;

/// The origin of a frame of the interface with this number and name, whose packet has no place.
fn unplaced(interface: u32, name: Option<InterfaceName>) -> Origin
    ensures { result ≡ unplaced interface name }
{
    Origin {
        interface,
        name,
        index: 0,
        vlan: Vlan { outer: 0, inner: 0 },
        is_copy: false,
    }
}

/// The origin of a packet at this place, in a frame of the interface with this number and name.
fn origin_of(interface: u32, name: Option<InterfaceName>, place: &PacketPlace) -> Origin
    ensures { result ≡ origin_of interface name place.now }
{
    Origin {
        interface,
        name,
        index: place.index,
        vlan: place.vlan,
        is_copy: place.is_copy,
    }
}

/// The event of the packet of this family, if it is one of IP, at the index `at` of these bytes.
fn family_event(
    millis: u64,
    origin: Origin,
    family: Option<AddressFamily>,
    bytes: &[u8],
    at: usize,
) -> ContainerEvent
    requires { at ≤ length bytes.now }
    ensures event { event_seen bytes.now result
        ≡ family_event millis origin family (drop at bytes.now) }
    ensures ranges { EventLiesIn bytes.now result }
    ensures moment { IsBy millis result }
    ensures record { result ≢ ContainerEvent.End }
{
    let Some(family) = family else {
        let why = Why::NotIp;
        return ContainerEvent::Skipped {
            millis,
            origin,
            why,
        };
    };
    let part = match part_of(family, bytes, at) {
        Ok(part) => part,
        Err(why) => return ContainerEvent::Skipped {
            millis,
            origin,
            why,
        },
    };
    let ip = part.ip;
    match part.fragment {
        None => ContainerEvent::Packet { millis, origin, ip },
        Some(fragment) => ContainerEvent::Fragment {
            millis,
            origin,
            ip,
            fragment,
        },
    }
}

/// The event of the frame that begins at the index `start` of these bytes and ends with them.
pub fn event_of(
    millis: u64,
    interface: u32,
    name: Option<InterfaceName>,
    link: LinkLayer,
    bytes: &[u8],
    start: usize,
) -> ContainerEvent
    requires { start ≤ length bytes.now }
    ensures event { event_seen bytes.now result
        ≡ frame_event millis interface name link (drop start bytes.now) }
    ensures ranges { EventLiesIn bytes.now result }
    ensures moment { IsBy millis result }
    ensures record { result ≢ ContainerEvent.End }
{
    let (_, frame) = bytes.split_at(start);
    let place = match place_of(link, frame) {
        Ok(place) => place,
        Err(why) => {
            let origin = unplaced(interface, name);
            return ContainerEvent::Skipped {
                millis,
                origin,
                why,
            };
        }
    };
    let origin = origin_of(interface, name, &place);
    family_event(millis, origin, place.family, bytes, start + place.at)
}
