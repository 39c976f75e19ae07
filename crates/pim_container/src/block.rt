//! The blocks of a pcapng file (draft-ietf-opsawg-pcapng).

ghost use Rattle.std.specs.Prelude.{◌≡◌, ◌≢◌, ◌+◌, ◌≤◌, length, take, IfOk, IfErr, Some, Err, ◌⊎◌};
ghost use Rattle.std.specs.Prelude.{◌<◌, ◌∷◌, ◌++◌, [], max, OnOk, OnErr, vec_len, vec_capacity};
ghost use Rattle.pim_addr.specs.Faults.{Answers, judged};
ghost use Rattle.pim_container.specs.Block.{is_section, stated_order, least_block, head_faults};
ghost use Rattle.pim_container.specs.Block.{head_said};
ghost use Rattle.std.specs.List.{slice_get};
ghost use Rattle.pim_container.specs.Block.{is_unequal, block_type, interface_number, stamp_of};
ghost use Rattle.pim_container.specs.Block.{captured_length};
ghost use Rattle.pim_container.specs.Block.{captured_on, packet_block, interface_block};
ghost use Rattle.pim_container.specs.Block.{without_end, block_event, is_untimed};
ghost use Rattle.pim_container.specs.Block.{interfaces_after, with_interface, section_block};
ghost use Rattle.pim_container.specs.Block.{described_bytes, is_full};
ghost use Rattle.pim_container.specs.Interface.{settings_of, interface_of, HasName};
ghost use Rattle.pim_container.specs.EventSeen.{latest_moment, event_seen, EventLiesIn, IsBy};
ghost use Rattle.pim_container.specs.Next.{OnMemory};
ghost use Rattle.pim_container.specs.Room.{GrowsList, CountsList};

use crate::event::ContainerEvent;
use crate::fault::ContainerFault;
use crate::interface::{Interface, Settings, moment_of, settings_of};
use crate::link::{BlockEndianness, LinkLayer, link_of};
use crate::packet::event_of;
use pim_capture::InterfaceName;
use std::alloc::AllocError;

/// The type of a section header block, the same in both byte orders.
const SECTION: u32 = 0x0a0d_0d0a;

/// The type of an interface description block.
const INTERFACE: u32 = 1;

/// The type of an obsolete packet block.
const OBSOLETE_PACKET: u32 = 2;

/// The type of a simple packet block.
const SIMPLE_PACKET: u32 = 3;

/// The type of an enhanced packet block.
const ENHANCED_PACKET: u32 = 6;

/// The number at 8 of a section header, in the byte order of its section.
const ORDER_MAGIC: u32 = 0x1a2b_3c4d;

/// The major version of the sections that are read.
const MAJOR_VERSION: u16 = 1;

/// The greatest number of interfaces of a section.
const MOST_INTERFACES: usize = 65_535;

/// The greatest number of bytes that describe the interfaces of a section.
const MOST_DESCRIBED: usize = 67_108_864;

/// The greatest length of a block that is read, in bytes.
const MOST_BLOCK: u32 = 16_777_216;

/// What the head of a block says.
#[derive(Clone, Copy, Debug, PartialEq, Eq)]
pub struct BlockHead {
    /// The byte order of its section.
    pub order: BlockEndianness,
    /// Its length, with all of itself.
    pub length: usize,
}

/// How a packet was captured.
#[derive(Clone, Copy, Debug, PartialEq, Eq)]
pub struct Captured {
    /// The time of capture, in milliseconds since 1970.
    pub millis: u64,
    /// The number of its interface in the section.
    pub interface: u32,
    /// The name of that interface.
    pub name: Option<InterfaceName>,
    /// What its frame begins with.
    pub link: LinkLayer,
    /// The index after its frame in the block.
    pub end: usize,
}

/// Whether a block is a section header.
pub fn is_section(block: &[u8]) -> bool
    requires { 4 ≤ length block.now }
    ensures { result ≡ is_section block.now }
{
    BlockEndianness::Big.read_u32_at(block, 0) == SECTION
}

/// The byte order of a block, in a section of this byte order before it.
///
/// # Errors
/// `Magic` for a section header without a known byte order.
fn order_of(before: BlockEndianness, head: &[u8]) -> Result<BlockEndianness, ContainerFault>
    requires { 12 ≤ length head.now }
    ensures { Answers (λ order. order) result (stated_order before head.now) }
{
    if !is_section(head) {
        return Ok(before);
    }
    if BlockEndianness::Big.read_u32_at(head, 8) == ORDER_MAGIC {
        return Ok(BlockEndianness::Big);
    }
    if BlockEndianness::Little.read_u32_at(head, 8) == ORDER_MAGIC {
        return Ok(BlockEndianness::Little);
    }
    Err(ContainerFault::Magic)
}

/// The length of a block of this type without options, names and bytes of a packet.
fn least_block(block_type: u32) -> u32
    ensures { result ≡ least_block block_type }
{
    match block_type {
        SECTION => 28,
        INTERFACE => 20,
        OBSOLETE_PACKET | ENHANCED_PACKET => 32,
        SIMPLE_PACKET => 16,
        _ => 12,
    }
}

/// What the first 12 bytes of a block say, in a section of this byte order before it.
///
/// # Errors
/// `Magic`, `Block` or `TooLong`, in this order.
pub fn read_head(before: BlockEndianness, head: &[u8]) -> Result<BlockHead, ContainerFault>
    requires { 12 ≤ length head.now }
    ensures { Answers (λ it. it) result
        (judged (head_faults before head.now) (head_said before head.now)) }
{
    let order = order_of(before, head)?;
    let length = order.read_u32_at(head, 4);
    if length < least_block(order.read_u32_at(head, 0)) || length % 4 != 0 {
        return Err(ContainerFault::Block);
    }
    if length > MOST_BLOCK {
        return Err(ContainerFault::TooLong);
    }
    Ok(BlockHead {
        order,
        length: length as usize,
    })
}

/// Whether blocks of this type have no time that is read, but a number among the packets of a file:
/// simple packets, entries of a journal, events of sysdig, and custom blocks.
fn is_untimed(block_type: u32) -> bool
    ensures { result ≡ is_untimed block_type }
{
    match block_type {
        SIMPLE_PACKET | 9 | 0x204 | 0x216 | 0x221 | 0x0bad | 0x4000_0bad => true,
        _ => false,
    }
}

/// Whether the length at the end of a block is another one than its own.
fn is_unequal(order: BlockEndianness, block: &[u8]) -> bool
    requires least { 12 ≤ length block.now }
    ensures { result ≡ is_unequal order block.now }
{
    order.read_u32_at(block, block.len() - 4) as usize != block.len()
}

/// The number of the interface of a packet block.
fn interface_number(order: BlockEndianness, block: &[u8]) -> u32
    requires { 12 ≤ length block.now }
    ensures { result ≡ interface_number order block.now }
{
    if order.read_u32_at(block, 0) == OBSOLETE_PACKET {
        u32::from(order.read_u16_at(block, 8))
    } else {
        order.read_u32_at(block, 8)
    }
}

/// The time stamp of a packet block.
fn stamp_of(order: BlockEndianness, block: &[u8]) -> u64
    requires { 32 ≤ length block.now }
    ensures { result ≡ stamp_of order block.now }
{
    let high = order.read_u32_at(block, 12);
    let low = order.read_u32_at(block, 16);
    u64::from(high) * 4_294_967_296 + u64::from(low)
}

/// The capture of the packet of a block on its interface.
fn captured_on(
    interface: Interface,
    order: BlockEndianness,
    block: &[u8],
) -> Result<Captured, ContainerFault>
    requires { 32 ≤ length block.now }
    ensures answer { Answers (λ it. it) result (captured_on (Some interface) order block.now) }
    ensures moment { IfOk result (λ captured. captured.millis ≤ latest_moment) }
    ensures start { IfOk result (λ captured. 28 ≤ captured.end) }
    ensures end { IfOk result (λ captured. captured.end ≤ length block.now) }
    ensures not_read { result ≢ Err ContainerFault.Read }
    ensures not_memory { result ≢ Err ContainerFault.Memory }
{
    let captured_length = order.read_u32_at(block, 20) as usize;
    if block.len() < 32 + captured_length {
        return Err(ContainerFault::Block);
    }
    let Some(millis) = moment_of(interface, stamp_of(order, block)) else {
        return Err(ContainerFault::Time);
    };
    Ok(Captured {
        millis,
        interface: interface_number(order, block),
        name: interface.name,
        link: interface.link,
        end: 28 + captured_length,
    })
}

/// The event of a packet block. The buffer then ends with the captured bytes.
fn read_packet(
    order: BlockEndianness,
    interfaces: &[Interface],
    buffer: &mut Vec<u8>,
) -> Result<ContainerEvent, ContainerFault>
    requires { 32 ≤ vec_len buffer.now }
    ensures answer { Answers (event_seen buffer.new.items) result
        (packet_block order interfaces.now buffer.old.items) }
    ensures ranges { IfOk result (EventLiesIn buffer.new.items) }
    ensures moment { IfOk result (IsBy latest_moment) }
    ensures record { IfOk result (λ event. event ≢ ContainerEvent.End) }
    ensures not_read { result ≢ Err ContainerFault.Read }
    ensures not_memory { result ≢ Err ContainerFault.Memory }
    ensures length { vec_len buffer.new ≤ vec_len buffer.old }
    ensures capacity { vec_capacity buffer.new ≡ vec_capacity buffer.old }
{
    let number = interface_number(order, buffer.as_slice());
    let Some(interface) = interfaces.get(number as usize) else {
        return Err(ContainerFault::Block);
    };
    let captured = captured_on(*interface, order, buffer.as_slice())?;
    buffer.truncate(captured.end);
    Ok(event_of(
        captured.millis,
        captured.interface,
        captured.name,
        captured.link,
        buffer.as_slice(),
        28,
    ))
}

/// The interface that a block describes, with these settings, where this number of bytes describes
/// it and those before it.
fn interface_of(
    order: BlockEndianness,
    block: &[u8],
    settings: Settings,
    described: usize,
) -> Interface
    requires least { 20 ≤ length block.now }
    requires name { HasName block.now settings }
    ensures { result ≡ interface_of order block.now settings described }
{
    Interface {
        link: link_of(order.read_u16_at(block, 8)),
        resolution: settings.resolution,
        offset: settings.offset,
        name: InterfaceName::of(&block[settings.name_at..settings.name_end]),
        described,
    }
}

/// How many bytes describe these interfaces of a section.
fn described_bytes(interfaces: &[Interface]) -> usize
    ensures { result ≡ described_bytes interfaces.now }
{
    match interfaces.get(interfaces.len().saturating_sub(1)) {
        Some(last) => last.described,
        None => 0,
    }
}

/// Whether a section with these interfaces has no room for one more, which a block of this length
/// describes.
fn is_full(interfaces: &[Interface], size: usize) -> bool
    ensures { result ≡ is_full interfaces.now size }
{
    interfaces.len() >= MOST_INTERFACES
        || MOST_DESCRIBED.saturating_sub(described_bytes(interfaces)) < size
}

/// Adds an interface to a list. One that is full grows to twice its length, and by four at least.
fn add(interfaces: &mut Vec<Interface>, interface: Interface) -> Result<(), AllocError>
    ensures items { OnOk result (interfaces.new.items ≡ interfaces.old.items ++ interface ∷ []) }
    ensures full { OnErr result (vec_capacity interfaces.old ≤ vec_len interfaces.old) }
    ensures same_list { OnErr result
        (vec_capacity interfaces.new ≡ vec_capacity interfaces.old) }
    ensures list { OnOk result (((vec_len interfaces.old < vec_capacity interfaces.old)
        × (vec_capacity interfaces.new ≡ vec_capacity interfaces.old))
        ⊎ ((vec_capacity interfaces.old ≤ vec_len interfaces.old)
        × (vec_capacity interfaces.new
        ≡ vec_len interfaces.old + max (vec_len interfaces.old) 4))) }
{
    if interfaces.capacity() <= interfaces.len() {
        let more = interfaces.len().max(4);
        interfaces.reserve_exact(more)?;
    }
    interfaces.push_reserved(interface);
    Ok(())
}

/// The event of an interface description. The interface is added to those of the section.
fn read_interface(
    order: BlockEndianness,
    interfaces: &mut Vec<Interface>,
    block: &[u8],
) -> Result<ContainerEvent, ContainerFault>
    requires least { 20 ≤ length block.now }
    requires most { length block.now ≤ 16777216 }
    ensures answer { (result ≡ Err ContainerFault.Memory) ⊎ Answers (event_seen block.now) result
        (interface_block order interfaces.old.items block.now) }
    ensures interfaces { IfOk result (λ _. interfaces.new.items
        ≡ with_interface interfaces.old.items (settings_of order (without_end block.now)) order
        block.now) }
    ensures ranges { IfOk result (EventLiesIn block.now) }
    ensures moment { IfOk result (IsBy latest_moment) }
    ensures record { IfOk result (λ event. event ≢ ContainerEvent.End) }
    ensures not_read { result ≢ Err ContainerFault.Read }
    ensures full { OnMemory result (vec_capacity interfaces.old ≤ vec_len interfaces.old) }
    ensures list { IfOk result (λ event. GrowsList event (vec_len interfaces.old)
        (vec_capacity interfaces.old) (vec_capacity interfaces.new)) }
    ensures counted { IfOk result (λ event. CountsList event (vec_len interfaces.old)
        (vec_len interfaces.new)) }
    ensures same_list { OnErr result
        (vec_capacity interfaces.new ≡ vec_capacity interfaces.old) }
{
    if is_full(interfaces.as_slice(), block.len()) {
        return Err(ContainerFault::Block);
    }
    let (front, _) = block.split_at(block.len() - 4);
    let Some(settings) = settings_of(order, front) else {
        return Err(ContainerFault::Block);
    };
    let described = described_bytes(interfaces.as_slice()) + block.len();
    add(interfaces, interface_of(order, block, settings, described))?;
    Ok(ContainerEvent::Interface {
        name: settings.name_at..settings.name_end,
    })
}

/// The event of a section header. The section begins with no interfaces.
fn read_section(
    order: BlockEndianness,
    interfaces: &mut Vec<Interface>,
    block: &[u8],
) -> Result<ContainerEvent, ContainerFault>
    requires { 28 ≤ length block.now }
    ensures answer { Answers (event_seen block.now) result (section_block order block.now) }
    ensures interfaces { IfOk result (λ _. interfaces.new.items ≡ []) }
    ensures section { IfOk result (λ event. event ≡ ContainerEvent.Section) }
    ensures fault { IfErr result (λ fault. fault ≡ ContainerFault.Block) }
    ensures same_list { vec_capacity interfaces.new ≡ vec_capacity interfaces.old }
{
    if order.read_u16_at(block, 12) != MAJOR_VERSION {
        return Err(ContainerFault::Block);
    }
    interfaces.clear();
    Ok(ContainerEvent::Section)
}

/// The event of a whole block in the buffer. Interfaces are added or, by a new section, removed.
pub fn read_block(
    order: BlockEndianness,
    interfaces: &mut Vec<Interface>,
    buffer: &mut Vec<u8>,
) -> Result<ContainerEvent, ContainerFault>
    requires least { least_block (block_type order buffer.now.items) ≤ vec_len buffer.now }
    requires most { vec_len buffer.now ≤ 16777216 }
    ensures answer { (result ≡ Err ContainerFault.Memory)
        ⊎ Answers (event_seen buffer.new.items) result
        (block_event order interfaces.old.items buffer.old.items) }
    ensures interfaces { IfOk result (λ _. interfaces.new.items
        ≡ interfaces_after order interfaces.old.items buffer.old.items) }
    ensures ranges { IfOk result (EventLiesIn buffer.new.items) }
    ensures moment { IfOk result (IsBy latest_moment) }
    ensures record { IfOk result (λ event. event ≢ ContainerEvent.End) }
    ensures not_read { result ≢ Err ContainerFault.Read }
    ensures memory { OnMemory result (block_type order buffer.old.items ≡ 1) }
    ensures full { OnMemory result (vec_capacity interfaces.old ≤ vec_len interfaces.old) }
    ensures list { IfOk result (λ event. GrowsList event (vec_len interfaces.old)
        (vec_capacity interfaces.old) (vec_capacity interfaces.new)) }
    ensures counted { IfOk result (λ event. CountsList event (vec_len interfaces.old)
        (vec_len interfaces.new)) }
    ensures same_list { OnErr result
        (vec_capacity interfaces.new ≡ vec_capacity interfaces.old) }
    ensures length { vec_len buffer.new ≤ vec_len buffer.old }
    ensures capacity { vec_capacity buffer.new ≡ vec_capacity buffer.old }
{
    if is_unequal(order, buffer.as_slice()) {
        return Err(ContainerFault::Block);
    }
    match order.read_u32_at(buffer.as_slice(), 0) {
        SECTION => read_section(order, interfaces, buffer.as_slice()),
        INTERFACE => read_interface(order, interfaces, buffer.as_slice()),
        OBSOLETE_PACKET | ENHANCED_PACKET => read_packet(order, interfaces.as_slice(), buffer),
        other if is_untimed(other) => Ok(ContainerEvent::Untimed),
        _ => Ok(ContainerEvent::Passed),
    }
}
