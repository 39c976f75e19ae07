//! Takes the records of a capture by a choice, and puts the fragments of packets together.
//!
//! Each record gives one event, so that who counts events has the numbers of records in the file.
//! One that isn't taken is skipped. Of a packet that is taken the message alone is kept. A fragment
//! is held until its packet is whole: the record that completes it gives the packet. After each
//! fragment an event reports of which packets the fragments are incomplete. Where links are mixed,
//! an event after each packet reports its link.

ghost use Rattle.std.specs.Prelude.{◌≡◌, ◌≤◌, ◌<◌, ◌⊎◌, ℕ, List, length, drop, true, Ok, Err, IfOk, OnErr};
ghost use Rattle.std.specs.Prelude.{option_map, vec_len, vec_capacity};
ghost use Rattle.std.specs.Option.{IfSome};
ghost use Rattle.pim_addr.specs.Faults.{Answers};
ghost use Rattle.pim_capture.specs.declared.fault.CaptureFault.TheVariants.{Memory};
ghost use Rattle.pim_capture.specs.Capture.{packet, most_captured};
ghost use Rattle.pim_capture.specs.Next.{event_seen, PayloadLiesIn, IsBy, latest_moment, OnMemory};
ghost use Rattle.pim_capture.specs.Seen.{ip_seen, LiesIn, IsShort};
ghost use Rattle.pim_container.specs.Choice.{judge_origin, first_after};
ghost use Rattle.pim_container.specs.EventSeen as any;
ghost use Rattle.pim_fragments.specs.Pieces.{piece_of};
ghost use Rattle.pim_fragments.specs.Packets.{whole_after, kept_after, asks_after};
ghost use Rattle.pim_fragments.specs.Stored as fragments;
ghost use Rattle.pim_fragments.specs.Stored.{payload_seen};
ghost use Rattle.pim_merge.specs.Taker.{TakerState, taker_of, key_of, same_key, version_of};
ghost use Rattle.pim_merge.specs.Taker.{carrying, whole_given, fragment_given, untaken_why};
ghost use Rattle.pim_merge.specs.Taker.{mixed_fault, taken_given, untaken, event_given};
ghost use Rattle.pim_merge.specs.Taker.{state_after, skipped_given, link_with, next_record};
ghost use Rattle.pim_merge.specs.Taker.{in_next_file, report_of, reported, begun_given};
ghost use Rattle.pim_merge.specs.Taker.{judged_by, packet_after, skipped_after, origin_given};
ghost use Rattle.pim_merge.specs.Taker.{holding, interface_of, link_of, asks_to_hold};
ghost use Rattle.pim_merge.specs.Source.{IsGiven, IsLonger, is_end};

use crate::slots::{Item, field_of};
use crate::tally::one_more;
use pim_addr::{V4, V6};
use pim_capture::{CaptureFault, Event, InterfaceChoice, Ip, Link, RecordPlace, Why};
use pim_container::{Choice, Chooser, ContainerEvent as Piece, Mixed, Origin};
use pim_fragments::{Fragment, Fragments, pim_begins};
use std::alloc::{AllocError, Global};
use std::marker::Model;

/// What the fragments of a packet have in common (RFC 791, 3.2; RFC 8200, 4.5).
#[derive(Clone, Copy, Debug)]
pub(crate) struct FragmentKey {
    /// The version of IP.
    version: u8,
    /// The source in a field of 16 bytes, with zeros after those of IPv4.
    source: [u8; 16],
    /// The destination, in the same way.
    destination: [u8; 16],
    /// The protocol.
    protocol: u8,
    /// The identification.
    identification: u32,
    /// The link.
    link: Link,
}

impl PartialEq for FragmentKey {
    ghost use Rattle.std.specs.Cmp.{partial_equiv_from_equiv};
    ghost use Rattle.pim_merge.specs.KeyLaws.{keys_equiv};

    ghost eq = { same_key };

    ghost laws = { partial_equiv_from_equiv keys_equiv };

    fn eq(&self, other: &FragmentKey) -> bool {
        self.version == other.version
            && self.source == other.source
            && self.destination == other.destination
            && self.protocol == other.protocol
            && self.identification == other.identification
            && self.link.is_same(other.link)
    }
}

impl Eq for FragmentKey {
    ghost use Rattle.pim_merge.specs.KeyLaws.{keys_equiv};

    ghost laws = { keys_equiv };
}

/// What the chosen frames of a file begin with, as far as it was read.
#[derive(Clone, Copy, Debug, PartialEq, Eq)]
pub(crate) enum FileLink {
    /// No frame was read.
    Unmet,
    /// Only frames of link types that aren't read, the first of this number.
    Unread(u16),
    /// A frame of a link type that is read.
    Met,
}

/// Takes the records of a capture by a choice. Contracts see what it has taken and holds.
#[derive(Drop)]
pub(crate) struct Taker {
    chooser: Chooser,
    /// The packets whose fragments are held.
    fragments: Fragments<FragmentKey>,
    /// That of the file that is read.
    link: FileLink,
    /// The place of the next record.
    place: RecordPlace,
    /// The link of the packet that was taken last, where links are mixed, until it is reported.
    link_of_packet: Option<Link>,
    /// It was reported of which packets the fragments are incomplete.
    is_reported: bool,
}

impl Model for Taker {
    ghost use Rattle.pim_container.specs.Choice.{choice_of, first_of};
    ghost use Rattle.pim_merge.specs.Taker.{TakerState};

    ghost Value = { TakerState };

    ghost view = { λ taker. record {
      choice = choice_of taker.chooser;
      first = first_of taker.chooser;
      kept = taker.fragments;
      link = taker.link;
      place = taker.place;
      link_of_packet = taker.link_of_packet;
      is_reported = taker.is_reported;
    } };
}

/// The fault of packets of more than one link.
fn mixed_fault(mixed: Mixed) -> CaptureFault
    ensures { result ≡ mixed_fault mixed }
{
    match mixed {
        Mixed::Names { first, other } => CaptureFault::InterfaceNames { first, other },
        Mixed::Numbers { first, other } => CaptureFault::Interfaces { first, other },
        Mixed::Vlans { first, other } => CaptureFault::Vlans { first, other },
    }
}

/// What this fragment has in common with the others of its packet.
fn key_of(ip: &Ip, fragment: Fragment, origin: Origin) -> FragmentKey
    ensures { (bytes : List ℕ) → result ≡ key_of (ip_seen bytes ip.now) fragment origin }
{
    let (version, source, destination) = match ip {
        Ip::V4 {
            source,
            destination,
            ..
        } => (4, field_of::<V4>(*source), field_of::<V4>(*destination)),
        Ip::V6 {
            source,
            destination,
            ..
        } => (6, field_of::<V6>(*source), field_of::<V6>(*destination)),
    };
    FragmentKey {
        version,
        source,
        destination,
        protocol: fragment.protocol,
        identification: fragment.identification,
        link: link_of(origin),
    }
}

/// Keeps the message of a packet with these addresses in the buffer.
fn keep_message(
    millis: u64,
    ip: &Ip,
    message: &[u8],
    buffer: &mut Vec<u8>,
) -> Result<Event, CaptureFault>
    requires short { length message.now ≤ 65535 }
    requires moment { millis ≤ latest_moment }
    requires length { vec_len buffer.old ≤ most_captured }
    ensures answer { (bytes : List ℕ) → (result ≡ Err Memory)
        ⊎ Answers (event_seen buffer.new.items) result
        (Ok (packet millis message.now (carrying message.now (ip_seen bytes ip.now)))) }
    ensures memory { OnMemory result (vec_capacity buffer.old < length message.now) }
    ensures room { vec_capacity buffer.old ≤ vec_capacity buffer.new }
    ensures payload { IfOk result (PayloadLiesIn buffer.new.items) }
    ensures moment { IfOk result (IsBy latest_moment) }
    ensures length { vec_len buffer.new ≤ most_captured }
{
    buffer.clear();
    buffer.extend_from_slice(message)?;
    let payload = 0..message.len();
    match ip {
        Ip::V4 {
            source,
            destination,
            ..
        } => Ok(Event::Packet {
            millis,
            ip: Ip::V4 {
                source: *source,
                destination: *destination,
                payload,
            },
        }),
        Ip::V6 {
            source,
            destination,
            ..
        } => Ok(Event::Packet {
            millis,
            ip: Ip::V6 {
                source: *source,
                destination: *destination,
                payload,
            },
        }),
    }
}

/// The event of a packet whose fragments make this payload.
fn whole_event(
    millis: u64,
    ip: &Ip,
    protocol: u8,
    payload: &[u8],
    buffer: &mut Vec<u8>,
) -> Result<Event, CaptureFault>
    requires short { length payload.now ≤ 65535 }
    requires moment { millis ≤ latest_moment }
    requires length { vec_len buffer.old ≤ most_captured }
    ensures answer { (bytes : List ℕ) → (result ≡ Err Memory)
        ⊎ Answers (event_seen buffer.new.items) result
        (Ok (whole_given millis (ip_seen bytes ip.now) protocol (Some payload.now))) }
    ensures memory { (bytes : List ℕ) → OnMemory result (IsLonger (vec_capacity buffer.old)
        (Some (Ok (whole_given millis (ip_seen bytes ip.now) protocol (Some payload.now))))) }
    ensures room { vec_capacity buffer.old ≤ vec_capacity buffer.new }
    ensures payload { IfOk result (PayloadLiesIn buffer.new.items) }
    ensures moment { IfOk result (IsBy latest_moment) }
    ensures length { vec_len buffer.new ≤ most_captured }
{
    match pim_begins(protocol, payload) {
        Ok(begin) => keep_message(millis, ip, &payload[begin..], buffer),
        Err(why) => Ok(Event::Skipped { millis, why }),
    }
}

/// What the link of a file is after a frame that is skipped for this reason.
fn link_with(why: Why, link: FileLink) -> FileLink
    ensures { result ≡ link_with why link }
{
    match (why, link) {
        (Why::LinkType(number), FileLink::Unmet) => FileLink::Unread(number),
        (Why::LinkType(_), link) => link,
        _ => FileLink::Met,
    }
}

/// The interface of this origin, as a word chooses it.
fn interface_of(origin: Origin) -> InterfaceChoice
    ensures { result ≡ interface_of origin }
{
    if origin.index != 0 {
        return InterfaceChoice::Number(origin.index);
    }
    match origin.name {
        Some(name) => InterfaceChoice::Name(name),
        None => InterfaceChoice::Number(origin.interface),
    }
}

/// The link of a packet of this origin, as words choose it.
fn link_of(origin: Origin) -> Link
    ensures { result ≡ link_of origin }
{
    Link {
        vlan: origin.vlan,
        interface: interface_of(origin),
    }
}

/// The place of the record after this one.
fn next_record(place: RecordPlace) -> RecordPlace
    ensures { result ≡ next_record place }
{
    RecordPlace {
        file: place.file,
        record: one_more(place.record),
    }
}

impl Taker {
    /// A taker that has taken nothing.
    pub(crate) fn new(alloc: Global, choice: Choice) -> Self
        ensures { result ≡ taker_of choice }
    {
        Taker {
            chooser: Chooser::new(choice),
            fragments: Fragments::new(alloc),
            link: FileLink::Unmet,
            place: RecordPlace { file: 0, record: 1 },
            link_of_packet: None,
            is_reported: true,
        }
    }

    /// Reports the link of the packet that was taken last, or of which packets the fragments are
    /// incomplete, unless that was reported.
    pub(crate) fn report(&mut self) -> Option<Event>
        ensures report { (bytes : List ℕ) →
            option_map (event_seen bytes) result ≡ report_of self.old }
        ensures reported { self.new ≡ reported self.old }
        ensures payload { (bytes : List ℕ) → IfSome result (PayloadLiesIn bytes) }
        ensures moment { IfSome result (IsBy latest_moment) }
    {
        let link_of_packet = self.link_of_packet;
        if let Some(link) = link_of_packet {
            self.link_of_packet = None;
            return Some(Event::Skipped {
                millis: 0,
                why: Why::OfLink(link),
            });
        }
        if self.is_reported {
            return None;
        }
        self.is_reported = true;
        Some(Event::Skipped {
            millis: 0,
            why: Why::Incomplete(self.fragments.incomplete()),
        })
    }

    /// Goes on with the next file.
    pub(crate) fn go_on(&mut self)
        ensures { self.new ≡ in_next_file self.old }
    {
        self.link = FileLink::Unmet;
        self.place = RecordPlace {
            file: one_more(self.place.file),
            record: 1,
        };
    }

    /// Why a packet of this origin is skipped, which isn't taken.
    fn untaken_why(&self, origin: Origin) -> Why
        ensures { result ≡ untaken_why self.now.choice origin }
    {
        if self.chooser.is_of_link(origin) {
            Why::Copy
        } else {
            Why::NotChosen(Some(link_of(origin)))
        }
    }

    /// Whether the packet or fragment of this origin is taken. It counts as a record.
    fn take_origin(&mut self, origin: Origin) -> Result<bool, CaptureFault>
        ensures answer { Answers (λ it. it) result (origin_given (judged_by self.old origin)) }
        ensures state { self.new ≡ packet_after self.old origin }
    {
        if self.chooser.is_of_link(origin) {
            self.link = FileLink::Met;
        }
        self.place = next_record(self.place);
        self.link_of_packet = if self.chooser.mixes(origin) {
            Some(link_of(origin))
        } else {
            None
        };
        match self.chooser.take(origin) {
            Ok(is_taken) => Ok(is_taken),
            Err(mixed) => Err(mixed_fault(mixed)),
        }
    }

    /// The event of a frame of this origin that is skipped for this reason.
    fn skip(&mut self, millis: u64, origin: Origin, why: Why) -> Event
        requires { millis ≤ latest_moment }
        ensures event { (bytes : List ℕ) → event_seen bytes result
            ≡ skipped_given self.old millis origin why }
        ensures state { self.new ≡ skipped_after self.old origin why }
        ensures payload { (bytes : List ℕ) → PayloadLiesIn bytes result }
        ensures moment { IsBy latest_moment result }
    {
        self.place = next_record(self.place);
        if !self.chooser.is_of_link(origin) {
            let why = Why::NotChosen(None);
            return Event::Skipped { millis, why };
        }
        self.link = link_with(why, self.link);
        Event::Skipped { millis, why }
    }

    /// The event of a packet.
    fn take_packet(
        &mut self,
        millis: u64,
        origin: Origin,
        ip: &Ip,
        piece: &[u8],
        buffer: &mut Vec<u8>,
    ) -> Result<Event, CaptureFault>
        requires lies { LiesIn piece.now ip.now }
        requires short { IsShort ip.now }
        requires moment { millis ≤ latest_moment }
        requires length { vec_len buffer.old ≤ most_captured }
        ensures answer { (result ≡ Err Memory) ⊎ Answers (event_seen buffer.new.items) result
            (taken_given (judged_by self.old origin)
            (packet millis (ip_seen piece.now ip.now).payload (ip_seen piece.now ip.now))
            (untaken self.old millis origin)) }
        ensures state { IfOk result (λ _. self.new ≡ packet_after self.old origin) }
        ensures memory { OnMemory result (IsLonger (vec_capacity buffer.old)
            (Some (taken_given (judged_by self.old origin)
            (packet millis (ip_seen piece.now ip.now).payload (ip_seen piece.now ip.now))
            (untaken self.old millis origin)))) }
        ensures room { vec_capacity buffer.old ≤ vec_capacity buffer.new }
        ensures payload { IfOk result (PayloadLiesIn buffer.new.items) }
        ensures moment { IfOk result (IsBy latest_moment) }
        ensures length { vec_len buffer.new ≤ most_captured }
    {
        if !self.take_origin(origin)? {
            let why = self.untaken_why(origin);
            return Ok(Event::Skipped { millis, why });
        }
        keep_message(millis, ip, ip.payload(piece), buffer)
    }

    /// Takes a fragment with these bytes. Returns the payload of its packet, if that is whole now.
    fn hold(
        &mut self,
        millis: u64,
        key: FragmentKey,
        fragment: Fragment,
        bytes: &[u8],
        place: RecordPlace,
    ) -> Result<Option<Vec<u8>>, AllocError>
        ensures whole { IfOk result (λ whole. payload_seen whole ≡ whole_after same_key key place
            millis (piece_of fragment bytes.now) self.old.kept) }
        ensures state { IfOk result (λ _. self.new ≡ holding (kept_after same_key key place millis
            (piece_of fragment bytes.now) self.old.kept) self.old) }
        ensures short { IfOk result fragments.IsShort }
        ensures lacking { OnErr result (asks_after same_key key place millis
            (piece_of fragment bytes.now) self.old.kept ≡ true) }
    {
        let whole = self.fragments.take(key, fragment, bytes, place, millis)?;
        self.is_reported = false;
        Ok(whole)
    }

    /// The event of a fragment.
    fn take_fragment(
        &mut self,
        millis: u64,
        origin: Origin,
        ip: &Ip,
        fragment: Fragment,
        bytes: &[u8],
        buffer: &mut Vec<u8>,
    ) -> Result<Event, CaptureFault>
        requires moment { millis ≤ latest_moment }
        requires length { vec_len buffer.old ≤ most_captured }
        ensures answer { (rest : List ℕ) → (result ≡ Err Memory)
            ⊎ Answers (event_seen buffer.new.items) result
            (taken_given (judged_by self.old origin) (fragment_given self.old millis origin
            (carrying bytes.now (ip_seen rest ip.now)) fragment) (untaken self.old millis origin)) }
        ensures state { (rest : List ℕ) → IfOk result (λ _. self.new ≡ state_after self.old
            (any.fragment millis origin (carrying bytes.now (ip_seen rest ip.now)) fragment)) }
        ensures memory { (rest : List ℕ) → OnMemory result (IsLonger (vec_capacity buffer.old)
            (Some (taken_given (judged_by self.old origin) (fragment_given self.old millis origin
            (carrying bytes.now (ip_seen rest ip.now)) fragment) (untaken self.old millis origin)))
            ⊎ (asks_to_hold self.old (any.fragment millis origin
            (carrying bytes.now (ip_seen rest ip.now)) fragment) ≡ true)) }
        ensures room { vec_capacity buffer.old ≤ vec_capacity buffer.new }
        ensures payload { IfOk result (PayloadLiesIn buffer.new.items) }
        ensures moment { IfOk result (IsBy latest_moment) }
        ensures length { vec_len buffer.new ≤ most_captured }
    {
        let place = self.place;
        if !self.take_origin(origin)? {
            let why = self.untaken_why(origin);
            return Ok(Event::Skipped { millis, why });
        }
        let whole = self.hold(millis, key_of(ip, fragment, origin), fragment, bytes, place)?;
        match whole {
            Some(payload) => whole_event(millis, ip, fragment.protocol, payload.as_slice(), buffer),
            None => Ok(Event::Skipped {
                millis,
                why: Why::Part,
            }),
        }
    }

    /// The event of a record of the container, if it is one.
    ///
    /// # Errors
    /// Packets of more than one link where none is chosen; a file without a frame of a link that is
    /// read; or refused memory.
    pub(crate) fn take(
        &mut self,
        event: Piece,
        piece: &[u8],
        buffer: &mut Vec<u8>,
    ) -> Result<Option<Event>, CaptureFault>
        requires ranges { any.EventLiesIn piece.now event }
        requires moment { any.IsBy latest_moment event }
        requires length { vec_len buffer.old ≤ most_captured }
        ensures answer { IsGiven (event_given self.old (any.event_seen piece.now event))
            buffer.new.items result }
        ensures state { IfOk result (λ _. self.new
            ≡ state_after self.old (any.event_seen piece.now event)) }
        ensures ended { is_end event ≡ true → self.new ≡ self.old }
        ensures memory { OnMemory result (IsLonger (vec_capacity buffer.old)
            (event_given self.old (any.event_seen piece.now event))
            ⊎ (asks_to_hold self.old (any.event_seen piece.now event) ≡ true)) }
        ensures room { vec_capacity buffer.old ≤ vec_capacity buffer.new }
        ensures payload { IfOk result (λ it. IfSome it (PayloadLiesIn buffer.new.items)) }
        ensures moment { IfOk result (λ it. IfSome it (IsBy latest_moment)) }
        ensures length { vec_len buffer.new ≤ most_captured }
    {
        match event {
            Piece::Packet { millis, origin, ip } => {
                let event = self.take_packet(millis, origin, &ip, piece, buffer)?;
                Ok(Some(event))
            }
            Piece::Fragment {
                millis,
                origin,
                ip,
                fragment,
            } => {
                let bytes = ip.payload(piece);
                let event = self.take_fragment(millis, origin, &ip, fragment, bytes, buffer)?;
                Ok(Some(event))
            }
            Piece::Skipped {
                millis,
                origin,
                why,
            } => Ok(Some(self.skip(millis, origin, why))),
            Piece::Untimed => {
                self.place = next_record(self.place);
                Ok(Some(Event::Skipped {
                    millis: 0,
                    why: Why::NoTime,
                }))
            }
            Piece::End => match self.link {
                FileLink::Unread(number) => Err(CaptureFault::LinkNumber(number)),
                _ => Ok(None),
            },
            _ => Ok(None),
        }
    }
}
