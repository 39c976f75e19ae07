//! Route tables: the RP of each group, and the upstream neighbour toward each address.
//!
//! Rows are kept in one order, so that a map has one list, and equality of tables is equality of
//! lists. The definition of a lookup does not depend on that order. A prefix that is there is
//! refused even with the same address, so that no file states a row twice.

ghost use Rattle.std.specs.Prelude.{◌≡◌, ◌↔◌, ◌&&◌, nat_le, option_map, IsTrue, OnOk, OnErr};
ghost use Rattle.pim_addr.specs.Address.{is_group};
ghost use Rattle.pim_addr.specs.Routes.{no_routes, rp_of, via, group_bits, is_group_prefix};
ghost use Rattle.pim_addr.specs.Routes.{rp_faults, via_faults};
ghost use Rattle.pim_addr.specs.Routes.{with_rp, with_via};
ghost use Rattle.pim_addr.specs.Routes.{IsRefusedBy, IsRouteTable};

use crate::family::{AddressFamily, Family};
use crate::route::Route;
use crate::route_fault::RouteFault;
use crate::route_map::RouteMap;
use crate::route_rows::RouteRows;
use std::alloc::Global;
use std::marker::Model;

/// A route table: two finite maps from a prefix and its length to an address. One leads groups to
/// their RPs, the other leads addresses to upstream neighbours.
#[derive(Drop)]
pub struct Routes<F: Family> {
    rps: RouteMap<F>,
    vias: RouteMap<F>,
}

impl<F: Family> Model for Routes<F> {
    ghost use Rattle.std.specs.Prelude.{◌≡◌, true};
    ghost use Rattle.std.specs.List.{AllByRecursion};
    ghost use Rattle.pim_addr.specs.Routes.{RouteTable, is_group_prefix};

    ghost Value = { RouteTable };

    ghost view = { λ r. record { rps = r.rps; vias = r.vias } };

    ghost invariant = { λ r. AllByRecursion (λ row. is_group_prefix F.family row.0 ≡ true) r.rps };
}

/// Returns the number of leading bits that all groups share.
pub fn group_bits<F: Family>() -> u8
    ensures { result ≡ group_bits F.family }
{
    match F::family() {
        AddressFamily::Ipv4 => 4,
        AddressFamily::Ipv6 => 8,
    }
}

/// Returns whether all addresses with this prefix are groups.
fn is_group_prefix<F: Family>(prefix: F::Addr, bits: u8) -> bool
    ensures { result
        ≡ (is_group F.family (F.bytes_of prefix) && nat_le (group_bits F.family) bits) }
{
    F::is_group(prefix) && bits >= group_bits::<F>()
}

impl<F: Family> Routes<F> {
    /// Returns a table without rows. It takes no memory.
    pub fn new(alloc: Global) -> Self
        ensures { result ≡ no_routes }
    {
        Routes {
            rps: RouteMap::new(alloc),
            vias: RouteMap::new(alloc),
        }
    }

    /// A law: each map has at most 4,096 rows, in order, no prefix twice. Each prefix has at most
    /// all bits, with none set after its length, and leads to a valid source. Prefixes that lead to
    /// RPs have groups alone. It has no effect.
    pub fn is_sound(&self)
        ensures { IsRouteTable F.family self.now }
    {
        self.rps.is_sound();
        self.vias.is_sound();
    }

    /// Returns the RP of this group, from the longest matching row, or `None` where no row matches.
    ///
    /// It takes no memory. The time is that of one binary search among at most two numbers per row;
    /// it does not depend on the lengths of the rows.
    pub fn rp_of(&self, group: F::Addr) -> Option<F::Addr>
        ensures { option_map F.bytes_of result ≡ rp_of F.family self.now (F.bytes_of group) }
    {
        self.rps.led_to(group)
    }

    /// Returns the upstream neighbour toward this address, from the longest matching row, or
    /// `None`. It costs as much as `rp_of`.
    pub fn via(&self, address: F::Addr) -> Option<F::Addr>
        ensures { option_map F.bytes_of result ≡ via F.family (F.bytes_of address) self.now }
    {
        self.vias.led_to(address)
    }

    /// Adds a row that leads the groups with the first `length` bits of the prefix to this RP.
    ///
    /// # Errors
    /// The first of these causes, after which the table is unchanged:
    /// - `Length`: more bits than an address has.
    /// - `Bits`: a bit of the prefix after the length is set.
    /// - `Kind`: the RP is not a valid source, the prefix is not a group, or the length is below 4
    ///   (8 in IPv6).
    /// - `Twice`: the table has an RP for that prefix and length, the same or another one.
    /// - `Full`: the table has 4,096 rows to RPs.
    /// - `Memory`: memory ran out.
    pub fn add_rp(&mut self, prefix: F::Addr, length: u8, rp: F::Addr) -> Result<(), RouteFault>
        ensures ok { OnOk result
            (self.new
            ≡ with_rp (record { bits = length; address = F.bytes_of prefix }) (F.bytes_of rp)
            self.old) }
        ensures err { OnErr result (self.new ≡ self.old) }
        ensures reported { IsRefusedBy
            (rp_faults F.family (record { bits = length; address = F.bytes_of prefix })
            (F.bytes_of rp) self.old.rps) result }
    {
        if length > F::FULL {
            return Err(RouteFault::Length);
        }
        if !F::ends_within(prefix, length) {
            return Err(RouteFault::Bits);
        }
        if !(F::is_source(rp) && is_group_prefix::<F>(prefix, length)) {
            return Err(RouteFault::Kind);
        }
        F::address_has_its_bytes(prefix);
        F::address_has_its_bytes(rp);
        self.rps.add(Route {
            prefix,
            length,
            to: rp,
        })
    }

    /// Adds a row that leads the addresses with the first `length` bits of the prefix to this
    /// upstream neighbour.
    ///
    /// # Errors
    /// As for `add_rp`, among the rows to neighbours. `Kind` comes only where the neighbour is not
    /// a valid source: any prefix can lead to a neighbour.
    pub fn add_via(
        &mut self,
        prefix: F::Addr,
        length: u8,
        neighbour: F::Addr,
    ) -> Result<(), RouteFault>
        ensures ok { OnOk result (self.new
            ≡ with_via (record { bits = length; address = F.bytes_of prefix })
            (F.bytes_of neighbour) self.old) }
        ensures err { OnErr result (self.new ≡ self.old) }
        ensures reported { IsRefusedBy
            (via_faults F.family (record { bits = length; address = F.bytes_of prefix })
            (F.bytes_of neighbour) self.old.vias) result }
    {
        if length > F::FULL {
            return Err(RouteFault::Length);
        }
        if !F::ends_within(prefix, length) {
            return Err(RouteFault::Bits);
        }
        if !F::is_source(neighbour) {
            return Err(RouteFault::Kind);
        }
        F::address_has_its_bytes(prefix);
        F::address_has_its_bytes(neighbour);
        self.vias.add(Route {
            prefix,
            length,
            to: neighbour,
        })
    }

    /// Returns whether the maps of the two tables are equal; the order in which rows were added
    /// does not matter. It takes no memory, and time that grows with the number of rows.
    pub fn equals(&self, other: &Routes<F>) -> bool
        ensures { IsTrue result ↔ (self.now ≡ other.now) }
    {
        self.rps.equals(&other.rps) && self.vias.equals(&other.vias)
    }

    /// Returns the rows to RPs: longer prefixes first, prefixes of one length by their bytes.
    pub fn rps(&self) -> RouteRows<'_, F>
        ensures { result ≡ self.now.rps }
    {
        self.rps.rows()
    }

    /// Returns the rows to upstream neighbours, in the same order.
    pub fn vias(&self) -> RouteRows<'_, F>
        ensures { result ≡ self.now.vias }
    {
        self.vias.rows()
    }
}
