//! The packets of one port whose fragments are put together.

ghost use Rattle.std.specs.Prelude.{◌≡◌, ◌<◌, ◌≤◌, ◌-◌, ◌&&◌, not, length, take, filter, IfOk};
ghost use Rattle.std.specs.Prelude.{OnOk, OnErr, Some, [], true};
ghost use Rattle.std.specs.List.{position};
ghost use Rattle.pim_fragments.specs.Stored.{payload_seen, IsShort};
ghost use Rattle.pim_fragments.specs.Packets.{with_incomplete, with_all, nothing, is_over, passed};
ghost use Rattle.pim_fragments.specs.Packets.{sooner_place};
ghost use Rattle.pim_fragments.specs.Packets.{new_packet, kept_after, whole_after};
ghost use Rattle.pim_fragments.specs.Packets.{AreBounded, asks_after};
ghost use Rattle.pim_fragments.specs.Places.{whole_at, kept_at, begun_with, within_most};
ghost use Rattle.pim_fragments.specs.Places.{is_added_at};
ghost use Rattle.pim_fragments.specs.Pieces.{piece_of, taken};

use crate::headers::Fragment;
use crate::pieces::Pieces;
use pim_capture::{Incomplete, RecordPlace};
use std::alloc::{AllocError, Global};
use std::marker::Model;

/// How long a packet is kept after its first fragment, in milliseconds.
const MOST_TIME: u64 = 30_000;

/// How many packets are kept.
const MOST_PACKETS: usize = 16;

/// A packet of which fragments are held.
#[derive(Drop)]
pub(crate) struct PartialPacket<K> {
    /// What its fragments have in common.
    key: K,
    /// The place of the record of its first fragment.
    first: RecordPlace,
    /// The moment of that record, in milliseconds.
    since: u64,
    /// The fragments.
    pieces: Pieces,
}

/// The packets of one port whose fragments are put together, the oldest first. A key is what the
/// fragments of a packet have in common.
#[derive(Drop)]
pub struct Fragments<K: Copy + Eq> {
    alloc: Global,
    packets: Vec<PartialPacket<K>>,
    /// Those that went before they were whole.
    gone: Option<Incomplete>,
}

impl<K: Copy + Eq> Model for Fragments<K> {
    ghost use Rattle.std.specs.Prelude.{length, ◌≤◌};
    ghost use Rattle.pim_fragments.specs.Packets.{Kept};

    ghost Value = { Kept K };

    ghost view = { λ port. record { packets = port.packets.items; gone = port.gone } };

    ghost invariant = { λ port. length port.packets.items ≤ 16 };
}

/// The sooner of two places of records.
fn sooner_place(one: RecordPlace, other: RecordPlace) -> RecordPlace
    ensures { result ≡ sooner_place one other }
{
    if other.file < one.file || (other.file == one.file && other.record < one.record) {
        other
    } else {
        one
    }
}

/// The incomplete packets, and one more.
fn with_incomplete(first: RecordPlace, incomplete: Option<Incomplete>) -> Option<Incomplete>
    ensures { result ≡ with_incomplete first incomplete }
{
    match incomplete {
        None => Some(Incomplete { packets: 1, first }),
        Some(others) => Some(Incomplete {
            packets: others.packets.saturating_add(1),
            first: sooner_place(first, others.first),
        }),
    }
}

/// The incomplete packets, and these.
fn with_all<K>(
    packets: &Vec<PartialPacket<K>>,
    incomplete: Option<Incomplete>,
) -> Option<Incomplete>
    ensures { result ≡ with_all packets.now.items incomplete }
{
    let mut incomplete = incomplete;
    for packet in packets.iter() {
        incomplete = with_incomplete(packet.first, incomplete);
    }
    incomplete
}

/// Whether the time of a packet is over.
fn is_over<K>(packet: &PartialPacket<K>, moment: u64) -> bool
    ensures { result ≡ is_over moment packet.now }
{
    moment.saturating_sub(packet.since) > MOST_TIME
}

/// The incomplete packets, and those of these whose time is over.
fn with_over<K>(
    packets: &Vec<PartialPacket<K>>,
    moment: u64,
    incomplete: Option<Incomplete>,
) -> Option<Incomplete>
    ensures { result ≡ with_all (filter (is_over moment) packets.now.items) incomplete }
{
    let mut incomplete = incomplete;
    for packet in packets.iter() {
        if is_over(packet, moment) {
            incomplete = with_incomplete(packet.first, incomplete);
        }
    }
    incomplete
}

/// Removes the packets whose time is over.
fn remove_over<K: Drop>(packets: &mut Vec<PartialPacket<K>>, moment: u64)
    ensures kept { packets.new.items
        ≡ filter (λ packet. not (is_over moment packet)) packets.old.items }
    ensures bound { length packets.new.items ≤ length packets.old.items }
{
    packets.retain(|packet| !is_over(packet, moment));
}

/// The place of the packet of this key, whose time isn't over.
fn place_of<K: Copy + Eq>(packets: &Vec<PartialPacket<K>>, key: K, moment: u64) -> Option<usize>
    ensures { result ≡ position
        (λ packet. K.eq packet.key key && not (is_over moment packet)) packets.now.items }
{
    packets
        .iter()
        .position(|packet| packet.key == key && !is_over(packet, moment))
}

/// Lets the oldest of more than sixteen packets go. Returns those that went before they were whole.
fn keep_most<K: Drop>(
    packets: &mut Vec<PartialPacket<K>>,
    gone: Option<Incomplete>,
) -> Option<Incomplete>
    ensures packets { packets.new.items ≡ (within_most packets.old.items gone).packets }
    ensures gone { result ≡ (within_most packets.old.items gone).gone }
{
    if packets.len() <= MOST_PACKETS {
        return gone;
    }
    let oldest = packets.remove(0);
    with_incomplete(oldest.first, gone)
}

/// Removes the last packet.
fn remove_last<K: Drop>(packets: &mut Vec<PartialPacket<K>>)
    ensures { packets.new.items ≡ take (length packets.old.items - 1) packets.old.items }
{
    let _packet = packets.pop();
}

impl<K: Copy + Eq> Fragments<K> {
    /// Nothing is kept. It takes no memory.
    pub fn new(alloc: Global) -> Self
        ensures { result ≡ nothing }
    {
        Fragments {
            alloc,
            packets: Vec::new(alloc),
            gone: None,
        }
    }

    /// A law: at most sixteen packets are kept, with at most 65,535 bytes each. It has no effect.
    pub fn are_bounded(&self)
        ensures { AreBounded self.now }
    {
        for packet in self.packets.iter() {
            packet.pieces.is_small();
        }
    }

    /// The packets that went before they were whole, and those that are kept now.
    pub fn incomplete(&self) -> Option<Incomplete>
        ensures { result ≡ with_all self.now.packets self.now.gone }
    {
        with_all(&self.packets, self.gone)
    }

    /// Lets the packets go whose time is over.
    fn pass(&mut self, moment: u64)
        ensures { self.new ≡ passed moment self.old }
    {
        self.gone = with_over(&self.packets, moment, self.gone);
        remove_over(&mut self.packets, moment);
    }

    /// Takes one more fragment of the packet at this place.
    fn go_on(
        &mut self,
        place: usize,
        fragment: Fragment,
        bytes: &[u8],
    ) -> Result<Option<Vec<u8>>, AllocError>
        requires { place < length self.old.packets }
        ensures whole { IfOk result (λ whole. payload_seen whole
            ≡ whole_at (piece_of fragment bytes.now) place self.old.packets) }
        ensures kept { OnOk result
            (self.new ≡ kept_at (piece_of fragment bytes.now) place self.old) }
        ensures refused { OnErr result (self.new ≡ self.old) }
        ensures short { IfOk result IsShort }
        ensures lacking { OnErr result
            (is_added_at (piece_of fragment bytes.now) place self.old.packets ≡ true) }
    {
        let whole = self.packets[place].pieces.take(fragment, bytes)?;
        if whole.is_some() {
            let _packet = self.packets.remove(place);
        }
        Ok(whole)
    }

    /// Takes the first fragment of a packet.
    fn begin(
        &mut self,
        key: K,
        fragment: Fragment,
        bytes: &[u8],
        record: RecordPlace,
        moment: u64,
    ) -> Result<Option<Vec<u8>>, AllocError>
        ensures whole { IfOk result (λ whole. payload_seen whole
            ≡ (taken (piece_of fragment bytes.now) (Some [])).whole) }
        ensures kept { OnOk result (self.new ≡ begun_with (piece_of fragment bytes.now)
            (new_packet key «record» moment) (passed moment self.old)) }
        ensures refused { OnErr result (self.new ≡ self.old) }
        ensures short { IfOk result IsShort }
    {
        let mut pieces = Pieces::new(self.alloc);
        let whole = pieces.take(fragment, bytes)?;
        self.packets.push(PartialPacket {
            key,
            first: record,
            since: moment,
            pieces,
        })?;
        self.gone = with_over(&self.packets, moment, self.gone);
        remove_over(&mut self.packets, moment);
        self.gone = keep_most(&mut self.packets, self.gone);
        if whole.is_some() {
            remove_last(&mut self.packets);
        }
        Ok(whole)
    }

    /// Takes one more fragment, which a record at this place and of this moment has. Returns the payload
    /// of its packet if it is whole now.
    ///
    /// # Errors
    /// Memory was refused. Nothing has changed. Memory is asked for where a packet begins, or where
    /// the fragment is added to those that are held.
    pub fn take(
        &mut self,
        key: K,
        fragment: Fragment,
        bytes: &[u8],
        record: RecordPlace,
        moment: u64,
    ) -> Result<Option<Vec<u8>>, AllocError>
        ensures whole { IfOk result (λ whole. payload_seen whole
            ≡ whole_after K.eq key «record» moment (piece_of fragment bytes.now) self.old) }
        ensures kept { OnOk result (self.new
            ≡ kept_after K.eq key «record» moment (piece_of fragment bytes.now) self.old) }
        ensures refused { OnErr result (self.new ≡ self.old) }
        ensures short { IfOk result IsShort }
        ensures lacking { OnErr result
            (asks_after K.eq key «record» moment (piece_of fragment bytes.now) self.old ≡ true) }
    {
        let Some(place) = place_of(&self.packets, key, moment) else {
            return self.begin(key, fragment, bytes, record, moment);
        };
        let whole = self.go_on(place, fragment, bytes)?;
        self.pass(moment);
        Ok(whole)
    }
}
