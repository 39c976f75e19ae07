//! What the record of a turn holds for a router of one address family.

ghost use Rattle.std.specs.Prelude.{◌≡◌, ◌<◌, ◌≤◌, ◌^◌, List, ℕ, length, Some, None, option_map};
ghost use Rattle.std.specs.Prelude.{if◌then◌else◌};
ghost use Rattle.pim_addr.specs.Address.{address_length};
ghost use Rattle.pim_addr.specs.Families.{is_same};
ghost use Rattle.pim_capture.specs.Capture.{most_captured};
ghost use Rattle.pim_capture.specs.Next.{PayloadLiesIn, event_seen};
ghost use Rattle.pim_capture.specs.Seen.{ip_seen, LiesIn};
ghost use Rattle.pim_merge.specs.Content.{ends_seen, ends_in, content_seen, datagram_in};
ghost use Rattle.pim_merge.specs.Content.{content_in, skipped_in, IfDatagram};

use crate::merge::Turn;
use pim_addr::{AddressFamily, Family};
use pim_capture::{Event, Ip, Why};

/// A packet of a router's family.
#[derive(Clone, Copy)]
pub struct Datagram<'a, A> {
    /// Its source.
    pub source: A,
    /// Its destination.
    pub destination: A,
    /// The PIM message.
    pub payload: &'a [u8],
}

/// What a record holds for a router of one address family.
#[derive(Clone, Copy)]
pub enum Content<'a, A> {
    /// A packet of this family.
    Datagram(Datagram<'a, A>),
    /// A packet of the other family.
    OtherFamily,
    /// No packet, for this reason.
    Skipped(Why),
    /// It is no record, but the end of its capture or the beginning of its next file.
    End,
}

/// The source and the destination of a packet.
#[derive(Clone, Copy, Debug, PartialEq, Eq)]
struct ContentEnds<A> {
    source: A,
    destination: A,
}

/// Whether this is the router's family.
fn is_of<F: Family>(family: AddressFamily) -> bool
    ensures { result ≡ is_same F.family family }
{
    match (F::family(), family) {
        (AddressFamily::Ipv4, AddressFamily::Ipv4) => true,
        (AddressFamily::Ipv6, AddressFamily::Ipv6) => true,
        _ => false,
    }
}

/// The source and the destination of a packet of this family, if it is the router's.
fn ends_in<F: Family>(
    family: AddressFamily,
    source: &[u8],
    destination: &[u8],
) -> Option<ContentEnds<F::Addr>>
    requires source { length source.now ≡ address_length family }
    requires destination { length destination.now ≡ address_length family }
    ensures { option_map (ends_seen F.bytes_of) result ≡
        if is_same F.family family then Some (source.now, destination.now) else None }
{
    if !is_of::<F>(family) {
        return None;
    }
    Some(ContentEnds {
        source: F::take(source),
        destination: F::take(destination),
    })
}

/// The source and the destination of a packet, if it is of the router's family.
fn ends_of<F: Family>(ip: &Ip) -> Option<ContentEnds<F::Addr>>
    ensures { (bytes : List ℕ) →
        option_map (ends_seen F.bytes_of) result ≡ ends_in F.family (ip_seen bytes ip.now) }
{
    match ip {
        Ip::V4 {
            source,
            destination,
            ..
        } => ends_in::<F>(AddressFamily::Ipv4, source, destination),
        Ip::V6 {
            source,
            destination,
            ..
        } => ends_in::<F>(AddressFamily::Ipv6, source, destination),
    }
}

/// What a record holds that has this packet and these bytes.
fn datagram_in<'a, F: Family>(ip: &Ip, bytes: &'a [u8]) -> Content<'a, F::Addr>
    requires payload { LiesIn bytes.now ip.now }
    requires bytes { length bytes.now ≤ most_captured }
    ensures content { content_seen F.bytes_of result
        ≡ datagram_in F.family (ip_seen bytes.now ip.now) }
    ensures bytes { IfDatagram result (λ datagram. length datagram.payload.now < 2 ^ 32) }
{
    let Some(ends) = ends_of::<F>(ip) else {
        return Content::OtherFamily;
    };
    Content::Datagram(Datagram {
        source: ends.source,
        destination: ends.destination,
        payload: ip.payload(bytes),
    })
}

/// What a record holds that is skipped for this reason.
fn skipped_in<'a, A>(why: Why) -> Content<'a, A>
    ensures content { (bytes_of : A → List ℕ) → content_seen bytes_of result ≡ skipped_in why }
    ensures bytes { IfDatagram result (λ datagram. length datagram.payload.now < 2 ^ 32) }
{
    match why {
        Why::NextFile | Why::OfLink(_) | Why::Incomplete(_) => Content::End,
        _ => Content::Skipped(why),
    }
}

impl Turn {
    /// What its record holds for a router of this family. `bytes` are those of the record.
    pub fn content<'a, F: Family>(&self, bytes: &'a [u8]) -> Content<'a, F::Addr>
        requires payload { PayloadLiesIn bytes.now self.now.event }
        requires bytes { length bytes.now ≤ most_captured }
        ensures content { content_seen F.bytes_of result
            ≡ content_in F.family (event_seen bytes.now self.now.event) }
        ensures bytes { IfDatagram result (λ datagram. length datagram.payload.now < 2 ^ 32) }
    {
        match &self.event {
            Event::Packet { ip, .. } => datagram_in::<F>(ip, bytes),
            Event::Skipped { why, .. } => skipped_in(*why),
            Event::End => Content::End,
        }
    }
}
