//! Whom the Join/Prune messages of a capture name. A router ignores a message for another upstream
//! neighbour, and a Join(*,G) of a group without an RP. A census says afterwards that a capture had
//! such messages. It has a fixed size, so no function here allocates.

mod counting;

ghost use Rattle.std.specs.Prelude.{◌≡◌, ◌≤◌, length, option_map};
ghost use Rattle.pim_capture.specs.Capture.{most_captured};
ghost use Rattle.pim_capture.specs.Seen.{ip_seen, LiesIn};
ghost use Rattle.pim_merge.specs.Census.{no_names, census_after};
ghost use Rattle.pim_merge.specs.Missing.{misses, without_rp};
ghost use Rattle.pim_merge.specs.Missing.{group_without_rp, first_without_rp};
ghost use Rattle.pim_merge.specs.Slots.{field_of};

use crate::census::counting::count_of;
use crate::slots::field_of;
use pim_addr::{AddressFamily, Family, Routes, V4, V6};
use pim_capture::Ip;

/// Whom the Join/Prune messages of a capture name, as far as other routers than the own one sent
/// them. Each list has the first different items in the order of the messages, and then free slots.
/// An address has a field of 16 bytes, with zeros after those of IPv4.
#[derive(Clone, Copy, Debug, PartialEq, Eq)]
pub struct Census {
    /// The address family of the messages that count.
    pub family: AddressFamily,
    /// The own address. Messages with this source don't count.
    pub own: [u8; 16],
    /// A message names the own address as its upstream neighbour.
    pub is_named: bool,
    /// The other upstream neighbours.
    pub upstreams: [Option<[u8; 16]>; 8],
    /// Messages name more upstream neighbours than have slots.
    pub has_more: bool,
    /// The groups of Joins(\*,G) for the own address.
    pub groups: [Option<[u8; 16]>; 64],
}

/// The group in a slot, if the table has no RP for it.
fn group_without_rp<F: Family>(slot: Option<[u8; 16]>, routes: &Routes<F>) -> Option<F::Addr>
    ensures { option_map F.bytes_of result ≡ group_without_rp F.family routes.now slot }
{
    let Some(field) = slot else {
        return None;
    };
    let group = F::take(&field);
    match routes.rp_of(group) {
        Some(_) => None,
        None => Some(group),
    }
}

/// The first of these groups.
fn first_without_rp<F: Family>(slots: &[Option<[u8; 16]>], routes: &Routes<F>) -> Option<F::Addr>
    ensures { option_map F.bytes_of result ≡ first_without_rp F.family routes.now slots.now }
{
    for slot in slots {
        if let Some(group) = group_without_rp::<F>(*slot, routes) {
            return Some(group);
        }
    }
    None
}

impl Census {
    /// The census of messages of the family before the first one, for a router with this address.
    pub fn new<F: Family>(own: F::Addr) -> Census
        ensures { result ≡ no_names F.family (F.bytes_of own) }
    {
        Census {
            family: F::family(),
            own: field_of::<F>(own),
            is_named: false,
            upstreams: [None; 8],
            has_more: false,
            groups: [None; 64],
        }
    }

    /// Counts the Join/Prune message of a packet whose record has these bytes, if it is one of the
    /// family without a fault, and another router sent it.
    pub fn count(&mut self, ip: &Ip, bytes: &[u8])
        requires payload { LiesIn bytes.now ip.now }
        requires bytes { length bytes.now ≤ most_captured }
        ensures { self.new ≡ census_after self.old (ip_seen bytes.now ip.now) }
    {
        match (self.family, ip) {
            (
                AddressFamily::Ipv4,
                Ip::V4 {
                    source,
                    destination,
                    ..
                },
            ) => count_of::<V4>(self, *source, *destination, ip.payload(bytes)),
            (
                AddressFamily::Ipv6,
                Ip::V6 {
                    source,
                    destination,
                    ..
                },
            ) => count_of::<V6>(self, *source, *destination, ip.payload(bytes)),
            _ => {}
        }
    }

    /// Whether messages name upstream neighbours, but none names the own address.
    pub fn misses(&self) -> bool
        ensures { result ≡ misses self.now }
    {
        self.upstreams[0].is_some() && !self.is_named
    }

    /// The group of the first Join(\*,G) for the own address that has no RP in the table; `None` if
    /// none of the groups in slots is without one.
    pub fn without_rp<F: Family>(&self, routes: &Routes<F>) -> Option<F::Addr>
        ensures { option_map F.bytes_of result ≡ without_rp F.family routes.now self.now }
    {
        first_without_rp::<F>(&self.groups, routes)
    }
}
