//! The place of the packet in a frame.

ghost use Rattle.std.specs.Prelude.{◌≡◌, ◌/◌, ◌≤◌, length, drop, IfOk, IfSome};
ghost use Rattle.pim_container.specs.Link.{number, socket_family, family_or, untagged_place};
ghost use Rattle.pim_container.specs.Link.{typed_place, is_copied};
ghost use Rattle.pim_container.specs.Link.{whole_place, place_of, carried};
ghost use Rattle.pim_capture.specs.Frame.{ethernet_family, raw_family, version};
ghost use Rattle.pim_container.specs.declared.link.LinkLayer.TheVariants as link;

use crate::link::{BlockEndianness, LinkLayer};
use crate::tags::{Carried, after_tags, stacked};
use pim_addr::AddressFamily;
use pim_capture::{Vlan, Why};

/// Where the packet of a frame begins, and on which link it was captured.
#[derive(Clone, Copy, Debug, PartialEq, Eq)]
pub struct PacketPlace {
    /// The address family of the packet. `None` if it isn't one of IP.
    pub family: Option<AddressFamily>,
    /// The index of its first byte in the frame.
    pub at: usize,
    /// The VLAN of the frame.
    pub vlan: Vlan,
    /// The index of the interface in a cooked header of version 2, else 0.
    pub index: u32,
    /// It is a copy of another packet, which is captured too.
    pub is_copy: bool,
}

/// The family that an Ethernet type names.
fn ethernet_family(number: u16) -> Option<AddressFamily>
    ensures { result ≡ ethernet_family number }
{
    match number {
        0x0800 => Some(AddressFamily::Ipv4),
        0x86dd => Some(AddressFamily::Ipv6),
        _ => None,
    }
}

/// The family that the first byte of an IP packet names.
fn raw_family(byte: u8) -> Option<AddressFamily>
    ensures { result ≡ raw_family (byte / 16) }
{
    match byte >> 4 {
        4 => Some(AddressFamily::Ipv4),
        6 => Some(AddressFamily::Ipv6),
        _ => None,
    }
}

/// The family that the number of a BSD loopback header names.
fn socket_family(number: u32) -> Option<AddressFamily>
    ensures { result ≡ socket_family number }
{
    match number {
        2 => Some(AddressFamily::Ipv4),
        10 | 24 | 28 | 30 => Some(AddressFamily::Ipv6),
        _ => None,
    }
}

/// The place of a packet of this family without tags.
fn untagged_place(family: Option<AddressFamily>, at: usize) -> PacketPlace
    ensures { result ≡ untagged_place family at }
{
    PacketPlace {
        family,
        at,
        vlan: stacked(0, 0),
        index: 0,
        is_copy: false,
    }
}

/// The place of what an Ethernet type names.
fn typed_place(carrier: Option<Carried>, index: u32, is_copy: bool) -> Result<PacketPlace, Why>
    ensures place { result ≡ typed_place carrier index is_copy }
    ensures at { IfSome carrier (λ it. IfOk result (λ place. place.at ≡ it.at)) }
{
    let Some(carrier) = carrier else {
        return Err(Why::Cut);
    };
    Ok(PacketPlace {
        family: ethernet_family(carrier.type_number),
        at: carrier.at,
        vlan: carrier.vlan,
        index,
        is_copy,
    })
}

/// Whether a packet of this type, on a device of this hardware type, is a copy of another packet.
fn is_copied(packet_type: u16, device_type: u16) -> bool
    ensures { result ≡ is_copied packet_type device_type }
{
    packet_type == 5 || packet_type == 4 && device_type == 772
}

/// The place of the packet in an Ethernet frame.
fn ethernet_place(frame: &[u8]) -> Result<PacketPlace, Why>
    ensures place { result ≡ place_of link.Ethernet frame.now }
    ensures within { IfOk result (λ place. place.at ≤ length frame.now) }
{
    if frame.len() < 14 {
        return Err(Why::Cut);
    }
    let type_number = BlockEndianness::Big.read_u16_at(frame, 12);
    typed_place(after_tags(type_number, 14, frame), 0, false)
}

/// The place of the packet in a frame of a Linux cooked capture.
fn cooked_place(frame: &[u8]) -> Result<PacketPlace, Why>
    ensures place { result ≡ place_of link.Cooked frame.now }
    ensures within { IfOk result (λ place. place.at ≤ length frame.now) }
{
    if frame.len() < 16 {
        return Err(Why::Cut);
    }
    let type_number = BlockEndianness::Big.read_u16_at(frame, 14);
    let packet_type = BlockEndianness::Big.read_u16_at(frame, 0);
    let is_copy = is_copied(packet_type, BlockEndianness::Big.read_u16_at(frame, 2));
    typed_place(after_tags(type_number, 16, frame), 0, is_copy)
}

/// The place of the packet in a frame of a Linux cooked capture of version 2.
fn cooked_v2_place(frame: &[u8]) -> Result<PacketPlace, Why>
    ensures place { result ≡ place_of link.CookedV2 frame.now }
    ensures within { IfOk result (λ place. place.at ≤ length frame.now) }
{
    if frame.len() < 20 {
        return Err(Why::Cut);
    }
    let type_number = BlockEndianness::Big.read_u16_at(frame, 0);
    let index = BlockEndianness::Big.read_u32_at(frame, 4);
    let device_type = BlockEndianness::Big.read_u16_at(frame, 8);
    let is_copy = is_copied(u16::from(frame[10]), device_type);
    typed_place(after_tags(type_number, 20, frame), index, is_copy)
}

/// The place of the packet in a frame of a BSD loopback.
fn loopback_place(frame: &[u8]) -> Result<PacketPlace, Why>
    ensures place { result ≡ place_of link.Loopback frame.now }
    ensures within { IfOk result (λ place. place.at ≤ length frame.now) }
{
    if frame.len() < 4 {
        return Err(Why::Cut);
    }
    let family = match socket_family(BlockEndianness::Little.read_u32_at(frame, 0)) {
        Some(family) => Some(family),
        None => socket_family(BlockEndianness::Big.read_u32_at(frame, 0)),
    };
    Ok(untagged_place(family, 4))
}

/// The place of the packet in a frame without a link layer.
fn raw_place(frame: &[u8]) -> Result<PacketPlace, Why>
    ensures place { result ≡ place_of link.Raw frame.now }
    ensures within { IfOk result (λ place. place.at ≤ length frame.now) }
{
    if frame.is_empty() {
        return Err(Why::Cut);
    }
    Ok(untagged_place(raw_family(frame[0]), 0))
}

/// The place of what a frame carries after the link layer's header and its tags, or the first
/// reason why there is none.
pub fn place_of(link: LinkLayer, frame: &[u8]) -> Result<PacketPlace, Why>
    ensures place { result ≡ place_of link frame.now }
    ensures within { IfOk result (λ place. place.at ≤ length frame.now) }
{
    match link {
        LinkLayer::Ethernet => ethernet_place(frame),
        LinkLayer::Raw => raw_place(frame),
        LinkLayer::Ipv4 => Ok(untagged_place(Some(AddressFamily::Ipv4), 0)),
        LinkLayer::Ipv6 => Ok(untagged_place(Some(AddressFamily::Ipv6), 0)),
        LinkLayer::Cooked => cooked_place(frame),
        LinkLayer::CookedV2 => cooked_v2_place(frame),
        LinkLayer::Loopback => loopback_place(frame),
        LinkLayer::Other(number) => Err(Why::LinkType(number)),
    }
}
